//! Writing of a text to a writer that may fail within it.

ghost use Rattle.std.specs.Prelude.{◌≤◌, length, take, IfNone, IfSome};
ghost use Rattle.std.specs.Io.KnownBytes.{Appends, Keeps};

use std::io::{ErrorKind, Write};

/// The maximum number of signals that may interrupt one write.
const MAX_TRIES: u8 = 100;

/// Writes a part of the text, at a signal again. Returns its length, or None if the writer fails.
fn write_part<W: Write>(writer: &mut W, text: &[u8]) -> Option<usize>
    ensures bound { IfSome result (λ len. len ≤ length text.now) }
    ensures some { IfSome result (λ len. Appends (W.contents writer.old) (W.contents writer.new) (take len text.now)) }
    ensures none { IfNone result (Keeps (W.contents writer.old) (W.contents writer.new)) }
{
    for _ in 0..MAX_TRIES {
        match writer.write(text) {
            Ok(len) => return Some(len),
            Err(error) => {
                if error.kind() != ErrorKind::Interrupted {
                    return None;
                }
            }
        }
    }
    None
}

/// Writes the text until all is written or the writer fails. Returns the number of written bytes.
pub(crate) fn pass_on<W: Write>(writer: &mut W, text: &[u8]) -> usize
    ensures bound { result ≤ length text.now }
    ensures below { Appends (W.contents writer.old) (W.contents writer.new) (take result text.now) }
{
    let mut passed = 0;
    while passed < text.len() {
        match write_part(writer, &text[passed..]) {
            Some(0) | None => return passed,
            Some(more) => passed += more,
        }
    }
    passed
}
