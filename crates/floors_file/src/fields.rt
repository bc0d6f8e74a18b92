ghost use Rattle.std.specs.Prelude.{◌≡◌};
ghost use Rattle.std.specs.Char.{is_ascii_digit};
ghost use Rattle.std.specs.List.{list_all};
ghost use Rattle.floors_file.specs.Fields.{field_value, fields_left, has_leading_zero, is_digits, last_field, last_number, next_field, number_field, number_value, plain_number, word_value};

use crate::fault::LineFault;
use field_text::{cut_at, read_number};

/// Returns the first field, and the rest after its space. The rest after the last field is None.
pub(crate) fn next_field(rest: Option<&[u8]>) -> Result<(&[u8], Option<&[u8]>), LineFault>
    ensures { field_value result ≡ next_field (fields_left rest.entry) }
{
    let Some(rest) = rest else {
        return Err(LineFault::MissingField);
    };
    match cut_at(rest, b' ') {
        Some((field, rest)) => Ok((field, Some(rest))),
        None => Ok((rest, None)),
    }
}

/// Returns the last field.
pub(crate) fn last_field(rest: Option<&[u8]>) -> Result<&[u8], LineFault>
    ensures { word_value result ≡ last_field (fields_left rest.entry) }
{
    let (field, rest) = next_field(rest)?;
    match rest {
        None => Ok(field),
        Some(_) => Err(LineFault::SurplusField),
    }
}

/// Returns whether a number has a leading zero.
fn has_leading_zero(text: &[u8]) -> bool
    ensures { result ≡ has_leading_zero text.now }
{
    match text {
        [first, _, ..] => *first == b'0',
        _ => false,
    }
}

/// Returns whether a text has nothing but decimal digits.
fn has_only_digits(text: &[u8]) -> bool
    ensures { result ≡ list_all is_ascii_digit text.now }
{
    text.iter().all(|byte| byte.is_ascii_digit())
}

/// Returns whether a text is decimal digits alone, at least one.
fn is_digits(text: &[u8]) -> bool
    ensures { result ≡ is_digits text.now }
{
    has_only_digits(text) && text.len() > 0
}

/// Returns the number of decimal digits, or None if the text is not digits alone or has a leading zero.
///
/// Returns 2^64 - 1 for a number from 2^64 on, which is above the range of each field too.
fn read_plain(text: &[u8]) -> Option<u64>
    ensures { result ≡ plain_number text.now }
{
    if has_leading_zero(text) || !is_digits(text) {
        return None;
    }
    match read_number(text) {
        Some(number) => Some(number),
        None => Some(u64::MAX),
    }
}

/// Returns the number of the first field, and the rest after it.
pub(crate) fn number_field(rest: Option<&[u8]>) -> Result<(u64, Option<&[u8]>), LineFault>
    ensures { number_value result ≡ number_field (fields_left rest.entry) }
{
    let (field, rest) = next_field(rest)?;
    match read_plain(field) {
        Some(number) => Ok((number, rest)),
        None => Err(LineFault::Number),
    }
}

/// Returns the number of the last field.
pub(crate) fn last_number(rest: Option<&[u8]>) -> Result<u64, LineFault>
    ensures { result ≡ last_number (fields_left rest.entry) }
{
    let (number, rest) = number_field(rest)?;
    match rest {
        None => Ok(number),
        Some(_) => Err(LineFault::SurplusField),
    }
}
