ghost use Rattle.std.specs.Prelude.{◌≡◌, ◌+◌, nat_le, length};
ghost use Rattle.operator_text.specs.Page as spec;
ghost use Rattle.operator_text.specs.Page.{new_part, part_text, pushed, takes};

use arrayvec::ArrayVec;
use itoa::Buffer;
use std::marker::Model;

/// The maximum length of a line of a report, in bytes with its LF.
pub const MAX_LINE_LEN: usize = 512;

/// The maximum length of a page, in bytes with its last line.
pub const MAX_PAGE_LEN: usize = 1024;

/// The number of bytes that a page has for lines. Its last line has at most 16: `next`, a number of ten digits and LF.
const ROOM_LEN: usize = MAX_PAGE_LEN - 16;

/// A page of a report, with the lines from a number on.
///
/// A node pushes the lines in their order, until the page refuses one or all are pushed.
#[derive(Debug, Drop)]
pub struct Page {
    lines: ArrayVec<u8, MAX_PAGE_LEN>,
    next: u32,
    is_full: bool,
}

impl Model for Page {
    ghost use Rattle.std.specs.Prelude.{◌≤◌, length};
    ghost use Rattle.operator_text.specs.Page.{PartRecord};

    ghost Value = { PartRecord };

    ghost view = { λ page. record { lines = page.lines.items; next = page.next; is_full = page.is_full } };

    ghost invariant = { λ page. length page.lines.items ≤ 1008 };
}

impl Page {
    /// Returns a page without lines. Its first line is to be the one with the number `from`.
    pub fn new(from: u32) -> Self
        ensures { result ≡ new_part from }
    {
        Page {
            lines: ArrayVec::new(),
            next: from,
            is_full: false,
        }
    }

    /// Returns whether there are bytes left for a line.
    fn has_bytes_for(&self, line: &[u8]) -> bool
        ensures { result ≡ nat_le (length self.now.lines + length line.now) 1008 }
    {
        line.len() <= ROOM_LEN - self.lines.len()
    }

    /// Appends a line. Returns false if the page has no room for it. The page then takes no other line.
    pub fn push(&mut self, line: &[u8]) -> bool
        ensures page { self.new ≡ pushed self.old line.now }
        ensures taken { result ≡ takes self.old line.now }
    {
        match self.next.checked_add(1) {
            Some(next) if !self.is_full && self.has_bytes_for(line) => {
                let _ = self.lines.try_extend_from_slice(line);
                self.next = next;
                true
            }
            _ => {
                self.is_full = true;
                false
            }
        }
    }

    /// Returns the bytes of the page with its last line.
    pub fn finish(self) -> ArrayVec<u8, MAX_PAGE_LEN>
        ensures { result.items ≡ part_text self }
    {
        let mut out = self.lines;
        if self.is_full {
            let _ = out.try_extend_from_slice(b"next ");
            let _ = out.try_extend_from_slice(Buffer::new().format(self.next).as_bytes());
            let _ = out.try_extend_from_slice(b"\n");
        } else {
            let _ = out.try_extend_from_slice(b"end\n");
        }
        out
    }
}
