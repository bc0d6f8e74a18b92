ghost use Rattle.std.specs.Prelude.{◌≡◌, ◌+◌, ◌≤◌, ◌++◌, length};
ghost use Rattle.arrayvec.specs.ArrayVec.{array_vec_len};
ghost use Rattle.hex.specs.Hex.{encode_lower};
ghost use Rattle.token_file.specs.Writing.{digits_word, hash_word, kind_word};
ghost use Rattle.token_names.specs.Identity.{identity_text};

use arrayvec::ArrayVec;
use hmac_core::Hash;
use otp_core::{Digits, MAX_SECRET_LEN, Secret};
use token_file::{Kind, Token};

/// The maximum length of an identity, in bytes: a type of 17, a user of 64, a secret of 128 in hexadecimal, and three
/// marks.
pub const MAX_IDENTITY_LEN: usize = 340;

/// Returns the word of a kind.
pub(crate) fn kind_text(kind: Kind) -> &'static [u8]
    ensures text { result.now ≡ kind_word kind }
    ensures len { length result.now ≤ 8 }
{
    match kind {
        Kind::Event => b"HOTP/E",
        Kind::Time30 => b"HOTP/T30",
        Kind::Time60 => b"HOTP/T60",
    }
}

/// Returns the part of a type's word for the digits.
fn digits_text(digits: Digits) -> &'static [u8]
    ensures text { result.now ≡ digits_word digits }
    ensures len { length result.now ≤ 2 }
{
    match digits {
        Digits::Six => b"/6",
        Digits::Seven => b"/7",
        Digits::Eight => b"/8",
    }
}

/// Returns the part of a type's word for the hash.
fn hash_text(hash: Hash) -> &'static [u8]
    ensures text { result.now ≡ hash_word hash }
    ensures len { length result.now ≤ 7 }
{
    match hash {
        Hash::Sha1 => b"",
        Hash::Sha256 => b"/SHA256",
        Hash::Sha512 => b"/SHA512",
    }
}

/// Appends `bytes`.
pub(crate) fn push_all(out: &mut ArrayVec<u8, MAX_IDENTITY_LEN>, bytes: &[u8])
    requires { array_vec_len out.old + length bytes.now ≤ MAX_IDENTITY_LEN }
    ensures items { out.new.items ≡ out.old.items ++ bytes.now }
    ensures len { array_vec_len out.new ≡ array_vec_len out.old + length bytes.now }
{
    let _ = out.try_extend_from_slice(bytes);
}

/// Appends a secret in lower case hexadecimal.
pub(crate) fn push_secret(out: &mut ArrayVec<u8, MAX_IDENTITY_LEN>, secret: &Secret)
    requires { array_vec_len out.old + 256 ≤ MAX_IDENTITY_LEN }
    ensures items { out.new.items ≡ out.old.items ++ encode_lower secret.now }
    ensures len { array_vec_len out.new ≤ array_vec_len out.old + 256 }
{
    let bytes = secret.as_slice();
    let mut buffer = [0; 2 * MAX_SECRET_LEN];
    let text = &mut buffer[..2 * bytes.len()];
    hex::encode_to_slice(bytes, text).unwrap();
    push_all(out, text);
}

/// Returns the identity of a token: its type, user and secret with a TAB between them, and an LF.
///
/// They are written as in a row of the users file.
pub fn identity_of(token: &Token) -> ArrayVec<u8, MAX_IDENTITY_LEN>
    ensures { result.items ≡ identity_text token.now }
{
    let mut text = ArrayVec::new();
    push_all(&mut text, kind_text(token.kind()));
    push_all(&mut text, digits_text(token.digits()));
    push_all(&mut text, hash_text(token.hash()));
    push_all(&mut text, b"\t");
    push_all(&mut text, token.name());
    push_all(&mut text, b"\t");
    push_secret(&mut text, token.secret());
    push_all(&mut text, b"\n");
    text
}
