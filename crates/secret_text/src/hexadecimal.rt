ghost use Rattle.std.specs.Prelude.{◌≡◌, Ok, IfOk};
ghost use Rattle.std.specs.Result.{result_err};
ghost use Rattle.hex.specs.Hex.{decode_of};
ghost use Rattle.secret_text.specs.Hexadecimal.{hex_fault, hex_refusal_of};

use crate::fault::SecretFault;
use hex::FromHexError;
use otp_core::{MAX_SECRET_LEN, Secret};

/// Reads a secret in hexadecimal: two digits a byte, in either case, and nothing else.
///
/// # Errors
///
/// - Returns `Empty` if there is no digit.
/// - Returns `BadLength` if the number of digits is odd.
/// - Returns `TooLong` if there are more than 256 digits.
/// - Returns `BadCharacter` with the place of the first byte that is not a digit.
pub fn read_hex(text: &[u8]) -> Result<Secret, SecretFault>
    ensures fault { result_err result ≡ hex_refusal_of text.now }
    ensures value { IfOk result (λ secret. decode_of text.now ≡ Ok secret) }
{
    if text.is_empty() {
        return Err(SecretFault::Empty);
    }
    if text.len() % 2 != 0 {
        return Err(SecretFault::BadLength);
    }
    if text.len() > 2 * MAX_SECRET_LEN {
        return Err(SecretFault::TooLong);
    }
    let mut buffer = [0; MAX_SECRET_LEN];
    let bytes = &mut buffer[..text.len() / 2];
    match hex::decode_to_slice(text, bytes) {
        Ok(()) => Ok(Secret::new(bytes).unwrap()),
        Err(error) => Err(fault_of(error)),
    }
}

/// Returns the fault of an error of decoding.
fn fault_of(error: FromHexError) -> SecretFault
    ensures { result ≡ hex_fault error }
{
    match error {
        FromHexError::InvalidHexCharacter { index, .. } => SecretFault::BadCharacter(index),
        FromHexError::OddLength | FromHexError::InvalidStringLength | FromHexError::OutOfMemory => {
            SecretFault::BadLength
        }
    }
}
