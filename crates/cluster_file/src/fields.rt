ghost use Rattle.std.specs.Prelude.{◌≡◌, ◌∷◌, [], ◌≤◌, length, IfOk, IfSome, IsTrue, MatchOption};
ghost use Rattle.std.specs.List.{list_all, position_from};
ghost use Rattle.field_text.specs.Word.{is_blank, is_visible};
ghost use Rattle.token_file.specs.Fields.{fields_of};
ghost use Rattle.cluster_file.specs.Fields.{field_value, fields_value, fresh_of, key_of, life_of, number_up_to, one_field, salt_of, setting_of, two_fields};
ghost use Rattle.field_text.specs.Number.{number_of};

use crate::fault::LineFault;
use field_text::{is_word, read_number};
use vote_wire::ClusterKey;

/// The minimum length of a salt, in bytes.
const MIN_SALT_LEN: usize = 12;

/// Returns whether a byte divides fields.
fn is_blank_byte(byte: u8) -> bool
    ensures { result ≡ is_blank byte }
{
    byte == b'\t' || byte == b'\n' || byte == b'\r' || byte == b' '
}

/// Returns the place of the first byte that is not a blank, or None.
fn first_visible(line: &[u8]) -> Option<usize>
    ensures { result ≡ position_from is_visible 0 line.now }
{
    line.iter().position(|&byte| !is_blank_byte(byte))
}

/// Returns the place of the first blank, or None.
fn first_blank(line: &[u8]) -> Option<usize>
    ensures { result ≡ position_from is_blank 0 line.now }
{
    line.iter().position(|&byte| is_blank_byte(byte))
}

/// Returns the first field of a line and the rest after it, or None if the line has no field.
pub(crate) fn first_field(line: &[u8]) -> Option<(&[u8], &[u8])>
    ensures fields { MatchOption result (fields_of line.now ≡ [])
        (λ found. fields_of line.now ≡ found.0.now ∷ fields_of found.1.now) }
    ensures len { IfSome result (λ found. 1 ≤ length found.0.now) }
{
    let (_, line) = line.split_at(first_visible(line)?);
    Some(line.split_at(first_blank(line).unwrap_or(line.len())))
}

/// Returns the one field after a word.
pub(crate) fn one_field(rest: &[u8]) -> Result<&[u8], LineFault>
    ensures { field_value result ≡ one_field (fields_of rest.now) }
{
    let Some((field, rest)) = first_field(rest) else {
        return Err(LineFault::MissingField);
    };
    match first_field(rest) {
        None => Ok(field),
        Some(_) => Err(LineFault::SurplusField),
    }
}

/// Returns the two fields after a word.
pub(crate) fn two_fields(rest: &[u8]) -> Result<(&[u8], &[u8]), LineFault>
    ensures { fields_value result ≡ two_fields (fields_of rest.now) }
{
    let Some((first, rest)) = first_field(rest) else {
        return Err(LineFault::MissingField);
    };
    let Some((second, rest)) = first_field(rest) else {
        return Err(LineFault::MissingField);
    };
    match first_field(rest) {
        None => Ok((first, second)),
        Some(_) => Err(LineFault::SurplusField),
    }
}

/// Returns the number of a text, which is at most `most`.
fn number_up_to(most: u64, text: &[u8]) -> Result<u64, LineFault>
    ensures { result ≡ number_up_to most (number_of text.now) }
{
    match read_number(text) {
        Some(number) if number <= most => Ok(number),
        _ => Err(LineFault::BadNumber),
    }
}

/// Returns the number of a setting that the file gives once.
pub(crate) fn setting(most: u64, before: Option<u64>, rest: &[u8]) -> Result<u64, LineFault>
    ensures { result ≡ setting_of most before (fields_of rest.now) }
{
    let text = one_field(rest)?;
    if before.is_some() {
        return Err(LineFault::Twice);
    }
    number_up_to(most, text)
}

/// Returns the key of a text in hexadecimal.
pub(crate) fn key(text: &[u8]) -> Result<ClusterKey, LineFault>
    ensures { result ≡ key_of text.now }
{
    match ClusterKey::read(text) {
        Ok(key) => Ok(key),
        Err(_) => Err(LineFault::BadKey),
    }
}

/// Returns the life of a text.
pub(crate) fn life(text: &[u8]) -> Result<&[u8], LineFault>
    ensures { field_value result ≡ life_of text.now }
{
    if is_word(text) {
        Ok(text)
    } else {
        Err(LineFault::BadLife)
    }
}

/// Returns the salt of a text.
pub(crate) fn salt(text: &[u8]) -> Result<&[u8], LineFault>
    ensures { field_value result ≡ salt_of text.now }
{
    if text.len() >= MIN_SALT_LEN && is_word(text) {
        Ok(text)
    } else {
        Err(LineFault::BadNames)
    }
}

/// Tests the value of `new-tokens`, which is `fresh`.
pub(crate) fn fresh(text: &[u8]) -> Result<(), LineFault>
    ensures { result ≡ fresh_of text.now }
{
    if text == b"fresh".as_slice() {
        Ok(())
    } else {
        Err(LineFault::BadNewTokens)
    }
}
