ghost use Rattle.std.specs.Prelude.{◌≡◌, ◌∷◌, OnOk};
ghost use Rattle.std.specs.Fmt.{decimal};
ghost use Rattle.std.specs.Io.KnownBytes.{Appends};
ghost use Rattle.hex.specs.Hex.{encode_lower};
ghost use Rattle.token_file.specs.Writing.{digits_word, hash_word, kind_word, password_column, row_text, type_word};

use crate::token::{Kind, Password, Token};
use hmac_core::Hash;
use otp_core::{Digits, MAX_SECRET_LEN, Next, Secret};
use std::io::{self, Write};

/// Returns the word of a kind.
fn kind_text(kind: Kind) -> &'static [u8]
    ensures { result.now ≡ kind_word kind }
{
    match kind {
        Kind::Event => b"HOTP/E",
        Kind::Time30 => b"HOTP/T30",
        Kind::Time60 => b"HOTP/T60",
    }
}

/// Returns the part of a type's word for the digits.
fn digits_text(digits: Digits) -> &'static [u8]
    ensures { result.now ≡ digits_word digits }
{
    match digits {
        Digits::Six => b"/6",
        Digits::Seven => b"/7",
        Digits::Eight => b"/8",
    }
}

/// Returns the part of a type's word for the hash.
fn hash_text(hash: Hash) -> &'static [u8]
    ensures { result.now ≡ hash_word hash }
{
    match hash {
        Hash::Sha1 => b"",
        Hash::Sha256 => b"/SHA256",
        Hash::Sha512 => b"/SHA512",
    }
}

/// Returns the column of a password.
fn column_of(password: &Password) -> &[u8]
    ensures { result.now ≡ password_column password.now }
{
    match password {
        Password::NoneAllowed => b"-",
        Password::NotChecked => b"+",
        Password::Equal(text) => text,
    }
}

/// Writes the type of a token, with its digits.
fn write_type<W: Write>(writer: &mut W, kind: Kind, digits: Digits, hash: Hash) -> io::Result<()>
    ensures { OnOk result (Appends (W.contents writer.old) (W.contents writer.new) (type_word kind digits hash)) }
{
    writer.write_all(kind_text(kind))?;
    writer.write_all(digits_text(digits))?;
    writer.write_all(hash_text(hash))
}

/// Writes a TAB and a field.
fn write_field<W: Write>(writer: &mut W, field: &[u8]) -> io::Result<()>
    ensures { OnOk result (Appends (W.contents writer.old) (W.contents writer.new) (9 ∷ field.now)) }
{
    writer.write_all(b"\t")?;
    writer.write_all(field)
}

/// Writes a TAB and a secret in lower case hexadecimal.
fn write_secret<W: Write>(writer: &mut W, secret: &Secret) -> io::Result<()>
    ensures { OnOk result (Appends (W.contents writer.old) (W.contents writer.new) (9 ∷ encode_lower secret.now)) }
{
    let bytes = secret.as_slice();
    let mut buffer = [0; 2 * MAX_SECRET_LEN];
    let text = &mut buffer[..2 * bytes.len()];
    hex::encode_to_slice(bytes, text).unwrap();
    write_field(writer, text)
}

/// Writes a TAB and a floor.
fn write_factor<W: Write>(writer: &mut W, next: Next) -> io::Result<()>
    ensures { OnOk result (Appends (W.contents writer.old) (W.contents writer.new) (9 ∷ decimal next)) }
{
    write!(writer, "\t{}", next.value())
}

/// Writes the row of a token and its floor (the first free factor). The row of a time token has no factor.
///
/// # Errors
///
/// - Returns the writer's error. A prefix of the row may have been written.
pub fn write_row<W: Write>(writer: &mut W, token: &Token, next: Next) -> io::Result<()>
    ensures text { OnOk result (Appends (W.contents writer.old) (W.contents writer.new) (row_text token.now next)) }
{
    write_type(writer, token.kind(), token.digits(), token.hash())?;
    write_field(writer, token.name())?;
    write_field(writer, column_of(token.password()))?;
    write_secret(writer, token.secret())?;
    if token.kind() == Kind::Event {
        write_factor(writer, next)?;
    }
    writer.write_all(b"\n")
}
