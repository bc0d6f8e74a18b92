//! The numbers of lines, as text.

ghost use Rattle.std.specs.Prelude.{◌≡◌};
ghost use Rattle.operator_text.specs.Number as spec;

use field_text::read_number;

/// Returns whether a text of two bytes or more begins with the digit 0.
fn has_leading_zero(text: &[u8]) -> bool
    ensures { result ≡ spec.has_leading_zero text.now }
{
    match text {
        [first, _, ..] => *first == b'0',
        _ => false,
    }
}

/// Returns the number of a line, or None. The text has decimal digits without leading zeros, and the number is below
/// 2^32.
pub(crate) fn line_number(text: &[u8]) -> Option<u32>
    ensures { result ≡ spec.line_number text.now }
{
    if has_leading_zero(text) {
        return None;
    }
    u32::try_from(read_number(text)?).ok()
}
