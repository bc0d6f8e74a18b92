ghost use Rattle.std.specs.Prelude.{◌≡◌, ◌^◌, ◌≤◌, true, false, IfErr, IfOk, IfSome, IsTrue};
ghost use Rattle.token_file.specs.Credential.{Credential, is_hash_of, is_password};
ghost use Rattle.field_text.specs.Word.{is_word};
ghost use Rattle.token_file.specs.Entry.{entry_row, event_entry_row, line_row};
ghost use Rattle.token_file.specs.Fields.{fields_of};
ghost use Rattle.token_file.specs.UsersFile.{is_read};
ghost use Rattle.token_file.specs.Row.{counter_of, credential_of, event_row, password_of, row_of, secret_of, typed_row};

use crate::entry::Entry;
use crate::fault::LineFault;
use crate::fields::first_field;
use crate::token::{Kind, MAX_NAME_LEN, Password, Token, array_of};
use crate::type_word::{TokenType, read_type};
use field_text::read_number;
use otp_core::{FACTORS_END, Secret};
use secret_text::read_hex;

/// The maximum number of digits of a counter.
const MAX_COUNTER_LEN: usize = 19;

/// The maximum counter.
const MAX_COUNTER: u64 = FACTORS_END;

/// Returns the row of a line, or None if the line holds no row.
pub(crate) fn read_row(line: &[u8]) -> Result<Option<Entry<'_>>, LineFault>
    ensures row { line_row result ≡ row_of (fields_of line.now) }
    ensures unread { IfErr result (λ fault. is_read fault ≡ false) }
{
    let Some((word, rest)) = first_field(line) else {
        return Ok(None);
    };
    match read_type(word) {
        Some(token_type) => match read_typed(token_type, rest) {
            Ok(entry) => Ok(Some(entry)),
            Err(fault) => Err(fault),
        },
        None => Ok(None),
    }
}

/// Returns the row of a type and the fields after it.
fn read_typed(token_type: TokenType, fields: &[u8]) -> Result<Entry<'_>, LineFault>
    requires { is_hash_of token_type.kind token_type.hash ≡ true }
    ensures row { entry_row result ≡ typed_row token_type (fields_of fields.now) }
    ensures unread { IfErr result (λ fault. is_read fault ≡ false) }
{
    let Some((name, rest)) = first_field(fields) else {
        return Err(LineFault::MissingField);
    };
    let Some((password, rest)) = first_field(rest) else {
        return Err(LineFault::MissingField);
    };
    let Some((secret, rest)) = first_field(rest) else {
        return Err(LineFault::MissingField);
    };
    if name.len() > MAX_NAME_LEN || password.len() > MAX_NAME_LEN {
        return Err(LineFault::NameTooLong);
    }
    let Some(secret) = read_secret(secret) else {
        return Err(LineFault::BadSecret);
    };
    let (counter, last) = match token_type.kind {
        Kind::Event => match read_counter(rest) {
            Ok(read) => read,
            Err(fault) => return Err(fault),
        },
        Kind::Time30 | Kind::Time60 => (0, None),
    };
    Ok(Entry {
        token: token_of(token_type, name, password, secret),
        counter,
        last,
    })
}

/// Returns the token with these fields.
fn token_of(token_type: TokenType, name: &[u8], password: &[u8], secret: Secret) -> Token
    requires hash { is_hash_of token_type.kind token_type.hash ≡ true }
    requires name { IsTrue (is_word name.now) }
    requires password { IsTrue (is_word password.now) }
    ensures { result ≡ credential_of token_type name.now password.now secret }
{
    Token::new(
        array_of(name),
        read_password(password),
        secret,
        token_type.kind,
        token_type.digits,
        token_type.hash,
    )
    .unwrap()
}

/// Returns the password that a column asks for.
fn read_password(column: &[u8]) -> Password
    requires { IsTrue (is_word column.now) }
    ensures value { result ≡ password_of column.now }
    ensures fits { IsTrue (is_password result) }
{
    if column == b"-".as_slice() {
        Password::NoneAllowed
    } else if column == b"+".as_slice() {
        Password::NotChecked
    } else {
        Password::Equal(array_of(column))
    }
}

/// Returns the secret of a hexadecimal text, or None if it isn't one.
fn read_secret(text: &[u8]) -> Option<Secret>
    ensures { result ≡ secret_of text.now }
{
    read_hex(text).ok()
}

/// Returns the counter and the last accepted code of an event token, from the fields after its secret.
fn read_counter(fields: &[u8]) -> Result<(u64, Option<&[u8]>), LineFault>
    ensures bound { IfOk result (λ read. read.0 ≤ 2 ^ 62) }
    ensures row { (credential : Credential) →
        event_entry_row credential result ≡ event_row credential (fields_of fields.now) }
    ensures unread { IfErr result (λ fault. is_read fault ≡ false) }
{
    let Some((text, rest)) = first_field(fields) else {
        return Ok((0, None));
    };
    let Some(counter) = counter_in(text) else {
        return Err(LineFault::BadCounter);
    };
    match first_field(rest) {
        Some((last, _)) => Ok((counter, Some(last))),
        None => Ok((counter, None)),
    }
}

/// Returns the counter of a field, or None if it isn't one.
fn counter_in(text: &[u8]) -> Option<u64>
    ensures bound { IfSome result (λ counter. counter ≤ 2 ^ 62) }
    ensures value { result ≡ counter_of text.now }
{
    if text.len() > MAX_COUNTER_LEN {
        return None;
    }
    let counter = read_number(text)?;
    if counter > MAX_COUNTER {
        return None;
    }
    Some(counter)
}
