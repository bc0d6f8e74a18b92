//! The lines of a text.

ghost use Rattle.std.specs.Prelude.{◌≡◌, ◌==◌, IfOk, drop, map};
ghost use Rattle.token_file.specs.Fields.{lines_of};
ghost use Rattle.kept_rows.specs.Left.{is_next};

use std::alloc::{AllocError, Global};

/// Returns whether a byte ends a line.
fn is_line_end(byte: &u8) -> bool
    ensures { result ≡ (byte.now == 10) }
{
    *byte == b'\n'
}

/// Returns the lines of a text.
///
/// # Errors
///
/// - Returns `AllocError` if the allocator refuses the memory.
pub fn lines_in(alloc: Global, text: &[u8]) -> Result<Vec<&[u8]>, AllocError>
    ensures { IfOk result (λ lines. map (λ line. line.now) lines.items ≡ lines_of text.now) }
{
    text.split(is_line_end).collect(alloc)
}

/// Returns whether the line at `place` is `line`.
pub(crate) fn is_at(lines: &[&[u8]], place: usize, line: &[u8]) -> bool
    ensures { result ≡ is_next (drop place (map (λ line. line.now) lines.now)) line.now }
{
    match lines.get(place) {
        Some(next) => *next == line,
        None => false,
    }
}
