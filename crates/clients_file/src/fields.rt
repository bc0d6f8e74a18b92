ghost use Rattle.std.specs.Prelude.{◌≡◌, ◌≤◌, IfOk};
ghost use Rattle.field_text.specs.Number.{number_of};
ghost use Rattle.token_file.specs.Fields.{fields_of};
ghost use Rattle.clients_file.specs.Fields.{field_value, fields_value, key_of, number_within, one_field, two_fields};

use crate::fault::LineFault;
use field_text::read_number;
use sealed_wire::ClientKey;
use token_file::first_field;

/// Returns the one field after a word.
pub(crate) fn one_field(rest: &[u8]) -> Result<&[u8], LineFault>
    ensures { field_value result ≡ one_field (fields_of rest.now) }
{
    let Some((field, rest)) = first_field(rest) else {
        return Err(LineFault::MissingField);
    };
    match first_field(rest) {
        None => Ok(field),
        Some(_) => Err(LineFault::SurplusField),
    }
}

/// Returns the two fields after a word.
pub(crate) fn two_fields(rest: &[u8]) -> Result<(&[u8], &[u8]), LineFault>
    ensures { fields_value result ≡ two_fields (fields_of rest.now) }
{
    let Some((first, rest)) = first_field(rest) else {
        return Err(LineFault::MissingField);
    };
    let Some((second, rest)) = first_field(rest) else {
        return Err(LineFault::MissingField);
    };
    match first_field(rest) {
        None => Ok((first, second)),
        Some(_) => Err(LineFault::SurplusField),
    }
}

/// Returns the number of a text, which is at least `least` and at most `most`.
pub(crate) fn number_within(least: u64, most: u64, text: &[u8]) -> Result<u64, LineFault>
    ensures value { result ≡ number_within least most (number_of text.now) }
    ensures range { IfOk result (λ number. (least ≤ number) × (number ≤ most)) }
{
    match read_number(text) {
        Some(number) if least <= number && number <= most => Ok(number),
        _ => Err(LineFault::BadNumber),
    }
}

/// Returns the key of a text in hexadecimal.
pub(crate) fn key(text: &[u8]) -> Result<ClientKey, LineFault>
    ensures { result ≡ key_of text.now }
{
    match ClientKey::read(text) {
        Ok(key) => Ok(key),
        Err(_) => Err(LineFault::BadKey),
    }
}
