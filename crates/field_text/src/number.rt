ghost use Rattle.std.specs.Prelude.{◌≡◌};
ghost use Rattle.std.specs.Char.{is_ascii_digit};
ghost use Rattle.std.specs.List.{list_all};
ghost use Rattle.field_text.specs.Number.{number_of};

use std::str;

/// Returns whether `text` has decimal digits alone.
fn is_all_digits(text: &[u8]) -> bool
    ensures { result ≡ list_all is_ascii_digit text.now }
{
    text.iter().all(|byte| byte.is_ascii_digit())
}

/// Returns the number of decimal digits, with or without leading zeros. Returns None if `text` is empty, has anything
/// but digits (a sign, a space), or is 2^64 or more.
pub fn read_number(text: &[u8]) -> Option<u64>
    ensures { result ≡ number_of text.now }
{
    if !is_all_digits(text) {
        return None;
    }
    match str::from_utf8(text) {
        Ok(digits) => digits.parse().ok(),
        Err(_) => None,
    }
}
