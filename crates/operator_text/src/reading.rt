//! Reading of pages.

ghost use Rattle.std.specs.Prelude.{◌≡◌};
ghost use Rattle.std.specs.Option.{option_map};
ghost use Rattle.operator_text.specs.Reading as spec;
ghost use Rattle.operator_text.specs.Reading.{cut_value, ending_of, last_cut, page_at, page_value};

use crate::number::line_number;
use field_text::cut_at;

/// Returns the number of a last line without its LF. The number is None for `end`. Returns None for any other line.
fn read_ending(line: &[u8]) -> Option<Option<u32>>
    ensures { result ≡ ending_of line.now }
{
    if line == b"end".as_slice() {
        return Some(None);
    }
    let (word, number) = cut_at(line, b' ')?;
    if word == b"next".as_slice() {
        Some(Some(line_number(number)?))
    } else {
        None
    }
}

/// Returns the bytes before the last line, and the last line without its LF, or None if the bytes don't end with LF.
fn cut_last(bytes: &[u8]) -> Option<(&[u8], &[u8])>
    ensures { option_map cut_value result ≡ last_cut bytes.now }
{
    let mut place = 0;
    while let Some((line, rest)) = cut_at(&bytes[place..], b'\n') {
        if rest.is_empty() {
            return Some((&bytes[..place], line));
        }
        place = bytes.len() - rest.len();
    }
    None
}

/// Returns the bytes of a page's lines, and the number of the next page's first line. The number is None if the page is
/// the last one.
///
/// Returns None if the last line is neither `next` with a number nor `end`.
pub fn read_page(bytes: &[u8]) -> Option<(&[u8], Option<u32>)>
    ensures { option_map page_value result ≡ page_at bytes.now }
{
    let (lines, last) = cut_last(bytes)?;
    Some((lines, read_ending(last)?))
}
