//! The line of a log that has no LF yet.

ghost use Rattle.std.specs.Prelude.{◌≡◌, ◌<◌, ◌≤◌, [], length, IfSome};
ghost use Rattle.log_writer.specs.Line as spec;

use arrayvec::ArrayVec;
use std::marker::Model;

/// The maximum length of a line, in bytes without its LF. What is beyond it is cut off.
pub const MAX_LINE_LEN: usize = 1002;

/// Returns the place of the first LF of some bytes, or None if there is none.
pub(crate) fn first_end(bytes: &[u8]) -> Option<usize>
    ensures place { result ≡ spec.first_end bytes.now }
    ensures within { IfSome result (λ place. place < length bytes.now) }
{
    bytes.iter().position(|&byte| byte == b'\n')
}

/// A line that has no LF yet.
#[derive(Drop)]
pub(crate) struct Line {
    bytes: ArrayVec<u8, MAX_LINE_LEN>,
}

impl Model for Line {
    ghost use Rattle.std.specs.Prelude.{◌≤◌, ℕ, List, length};

    ghost Value = { List ℕ };

    ghost view = { λ line. line.bytes.items };

    ghost invariant = { λ line. length line.bytes.items ≤ 1002 };
}

impl Line {
    /// Returns a line without bytes.
    pub(crate) fn new() -> Self
        ensures { result ≡ [] }
    {
        Line {
            bytes: ArrayVec::new(),
        }
    }

    /// Appends the bytes that fit.
    pub(crate) fn add(&mut self, bytes: &[u8])
        ensures { self.new ≡ spec.with_bytes self.old bytes.now }
    {
        let len = bytes.len().min(MAX_LINE_LEN - self.bytes.len());
        let _ = self.bytes.try_extend_from_slice(&bytes[..len]);
    }

    /// Returns the bytes.
    pub(crate) fn as_slice(&self) -> &[u8]
        ensures bytes { result.now ≡ self.now }
        ensures fits { length result.now ≤ 1002 }
    {
        self.bytes.as_slice()
    }

    /// Removes all bytes.
    pub(crate) fn clear(&mut self)
        ensures { self.new ≡ [] }
    {
        self.bytes.clear();
    }
}
