//! Numbers and secrets as text, and the parts that no text shows.

ghost use Rattle.std.specs.Prelude.{◌≡◌, Ok};

use arrayvec::ArrayVec;
use field_text::{cut_at, read_number};
use hmac_core::Hash;
use otp_core::{Digits, Secret};
use secret_text::{SecretFault, read_base32, read_hex, reads_what_it_wrote, write_base32};
use std::alloc::AllocError;
use token_file::{Kind, Password, Token};
use vote_wire::ClusterKey;

/// Texts with the numbers that they spell, or None.
const NUMBERS: &[(&[u8], Option<u64>)] = &[
    (b"0", Some(0)),
    (b"007", Some(7)),
    (b"18446744073709551615", Some(18446744073709551615)),
    (b"18446744073709551616", None),
    (b"", None),
    (b"+1", None),
    (b"-1", None),
    (b" 1", None),
    (b"1 ", None),
    (b"1_000", None),
    (b"0x1", None),
    (b"\xd9\xa1", None),
];

#[test]
fn numbers_and_cuts(rt: HostRuntime) {
    for (text, number) in NUMBERS {
        assert!(rt; read_number(text) == *number);
    }
    assert!(rt; cut_at(b"a b c", b' ') == Some((b"a".as_slice(), b"b c".as_slice())));
    assert!(rt; cut_at(b"a", b' ').is_none());
}

/// The texts of RFC 4648, section 10, and of the secret of RFC 4226, appendix D.
const BASE32: &[(&[u8], &[u8])] = &[
    (b"f", b"MY======"),
    (b"fo", b"MZXQ===="),
    (b"foo", b"MZXW6==="),
    (b"foob", b"MZXW6YQ="),
    (b"fooba", b"MZXW6YTB"),
    (b"foobar", b"MZXW6YTBOI======"),
    (b"12345678901234567890", b"GEZDGNBVGY3TQOJQGEZDGNBVGY3TQOJQ"),
];

/// Returns whether a secret of the given bytes was read.
fn is_secret(read: Result<Secret, SecretFault>, bytes: &[u8]) -> bool {
    match read {
        Ok(secret) => secret.as_slice() == bytes,
        Err(_) => false,
    }
}

/// Writes a secret, and reads the text again.
fn written_and_read(secret: &Secret) -> Result<Secret, SecretFault>
    ensures { result ≡ Ok secret.now }
{
    reads_what_it_wrote();
    let _bytes = secret.as_slice();
    read_base32(&write_base32(secret))
}

/// Returns whether a secret of the given bytes is written as `text`, and read again.
fn is_written(bytes: &[u8], text: &[u8]) -> bool {
    match Secret::new(bytes) {
        Some(secret) => {
            write_base32(&secret).as_slice() == text && is_secret(written_and_read(&secret), bytes)
        }
        None => false,
    }
}

#[test]
fn secret_texts(rt: HostRuntime) {
    for (bytes, text) in BASE32 {
        assert!(rt; is_written(bytes, text));
        assert!(rt; is_secret(read_base32(text), bytes));
    }
    assert!(rt; is_secret(read_base32(b" mZxW6yTbOi = == = == "), b"foobar"));
    assert!(rt; is_secret(read_hex(b"666f6F626172"), b"foobar"));
}

/// The text of each fault of a secret.
const FAULTS: &[(SecretFault, &str)] = &[
    (SecretFault::BadCharacter(3), "BadCharacter"),
    (SecretFault::BadLength, "BadLength"),
    (SecretFault::TooLong, "TooLong"),
    (SecretFault::Empty, "Empty"),
];

#[test]
fn secret_faults(rt: HostRuntime) -> Result<(), AllocError> {
    for &(fault, text) in FAULTS {
        assert!(rt; format!(in rt.alloc(); "{fault}")?.as_str() == text);
    }
    Ok(())
}

/// A token with a password and the secret of RFC 4226, Appendix D.
fn silver() -> Option<Token> {
    let name = ArrayVec::try_from(b"silver".as_slice()).ok()?;
    let password = ArrayVec::try_from(b"hunter".as_slice()).ok()?;
    let secret = Secret::new(b"12345678901234567890")?;
    let password = Password::Equal(password);
    Token::new(name, password, secret, Kind::Event, Digits::Six, Hash::Sha1)
}

/// The token's password and secret, as text and as the numbers of its bytes.
const HIDDEN: &[&str] = &["hunter", "104, 117, 110", "1234567890", "49, 50, 51"];

/// Returns whether a text has none of the hidden parts.
fn hides(shown: &str) -> bool {
    for hidden in HIDDEN {
        if shown.contains(hidden) {
            return false;
        }
    }
    shown.contains("password: Equal(..)") && shown.contains("secret: Secret(..)")
}

/// The text of a token has no byte of its password or its secret. The text of a key has no byte of it.
#[test]
fn shown_secrets(rt: HostRuntime) -> Result<(), AllocError> {
    let token = silver();
    assert!(rt; token.is_some());
    assert!(rt; hides(&format!(in rt.alloc(); "{token:?}")?));
    let key = ClusterKey::new(&[49; 16]);
    assert!(rt; format!(in rt.alloc(); "{key:?}")?.as_str() == "Some(ClusterKey(..))");
    Ok(())
}
