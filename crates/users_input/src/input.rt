ghost use Rattle.std.specs.Prelude.{◌≡◌, ◌↔◌, ◌-◌, ◌<◌, ◌≤◌, ◌^◌, length, IfSome, IfOk, OnOk, OnErr, IsTrue};
ghost use Rattle.std.specs.Io.BufRead.{DropsThrough, take_through};
ghost use Rattle.std.specs.Io.KnownBytes.{Consumes};
ghost use Rattle.users_input.specs.Input.{HasLine, HasRoom, IsReadTo, TakesLine, is_mark, line_text};

use crate::fault::InputFault;
use field_text::cut_at;
use std::alloc::Global;
use std::io::{BufRead, BufReader, Error, ErrorKind, Read};

/// Returns a line without the LF that ends it.
pub fn text_of(line: &[u8]) -> &[u8]
    ensures { result.now ≡ line_text line.now }
{
    match cut_at(line, b'\n') {
        Some((text, _)) => text,
        None => line,
    }
}

/// Returns whether a line's text is the `%%` after the users file.
pub(crate) fn is_marker(text: &[u8]) -> bool
    ensures { result ≡ is_mark text.now }
{
    text == b"%%".as_slice()
}

/// Returns the fault for a failed read.
fn input_fault(error: &Error) -> InputFault {
    match error.kind() {
        ErrorKind::OutOfMemory => InputFault::Memory,
        _ => InputFault::CannotRead,
    }
}

/// The next item of an input.
#[derive(Clone, Copy, Debug, PartialEq, Eq)]
pub enum NextLine {
    /// A line.
    Whole,
    /// A line that continues past the limit.
    Cut,
    /// The end of the input.
    End,
}

/// A reader that can tell whether its buffer has a whole line.
pub trait HoldsLine {
    /// Returns whether the buffer has an LF.
    fn holds_line(&self) -> bool;
}

impl<R: Read> HoldsLine for BufReader<R> {
    fn holds_line(&self) -> bool {
        self.buffer().contains(&b'\n')
    }
}

/// A text of an input, up to its limit.
#[derive(Debug, Drop)]
pub struct LimitedText {
    /// The bytes within the limit.
    pub bytes: Vec<u8>,
    /// Whether the input continues past the limit.
    pub is_cut: bool,
}

/// The unread part of an input.
#[derive(Drop)]
pub struct Input<B> {
    pub reader: B,
    /// The number of its bytes within the limit.
    pub room: u32,
}

impl<B: BufRead> Input<B> {
    /// Returns the input of a reader. At most `limit` bytes and one more are read.
    pub fn new(reader: B, limit: u32) -> Self
        ensures reader { result.reader ≡ reader }
        ensures room { result.room ≡ limit }
    {
        Input {
            reader,
            room: limit,
        }
    }

    /// Returns the number of unread bytes within the limit.
    pub fn room(&self) -> u32
        ensures value { result ≡ self.now.room }
        ensures range { result < 2 ^ 32 }
    {
        self.room
    }

    /// Reads the bytes up to the next LF, or all bytes without one. Returns whether they are within the limit.
    ///
    /// If the input fails, `line` has the bytes read before.
    fn take_line(&mut self, line: &mut Vec<u8>) -> Result<bool, InputFault>
        ensures line { OnOk result (IfSome (B.remaining self.old.reader)
            (λ text. line.new.items ≡ take_through 10 text)) }
        ensures rest { OnOk result
            (DropsThrough (B.remaining self.old.reader) (B.remaining self.new.reader) 10) }
        ensures within { IfOk result
            (λ within. IsTrue within ↔ (length line.new.items ≤ self.old.room)) }
        ensures room { OnOk result (self.new.room ≡ self.old.room - length line.new.items) }
        ensures lost { OnErr result
            (Consumes (B.remaining self.old.reader) (B.remaining self.new.reader) line.new.items) }
        ensures kept { OnErr result (self.new.room ≡ self.old.room) }
    {
        line.clear();
        if let Err(error) = self.reader.read_until(b'\n', line) {
            return Err(input_fault(&error));
        }
        if line.len() > self.room as usize {
            self.room = 0;
            return Ok(false);
        }
        self.room -= line.len() as u32;
        Ok(true)
    }

    /// Reads the next line, with the LF that ends it. If the input fails, `line` has the bytes read before.
    pub fn next_line(&mut self, line: &mut Vec<u8>) -> Result<NextLine, InputFault>
        ensures taken { IfOk result (λ next. IfSome (B.remaining self.old.reader) (λ text.
            TakesLine next line.new.items self.old.room text self.new.room (B.remaining self.new.reader))) }
        ensures line { IfOk result (λ next. HasLine next line.new.items) }
        ensures room { IfOk result (λ next. HasRoom next self.old.room self.new.room) }
        ensures lost { OnErr result
            (Consumes (B.remaining self.old.reader) (B.remaining self.new.reader) line.new.items) }
        ensures kept { OnErr result (self.new.room ≡ self.old.room) }
    {
        let is_within = self.take_line(line)?;
        if line.is_empty() {
            Ok(NextLine::End)
        } else if is_within {
            Ok(NextLine::Whole)
        } else {
            Ok(NextLine::Cut)
        }
    }
    /// Reads the rest of the input.
    pub fn read_all(mut self, alloc: Global) -> Result<LimitedText, InputFault>
    where
        B: Drop,
        ensures { IfOk result (λ read. IfSome (B.remaining self.reader)
            (λ text. IsReadTo self.room text read.bytes.items read.is_cut)) }
    {
        let mut bytes = Vec::new(alloc);
        self.reader
            .read_to_end(&mut bytes)
            .map_err(|error| input_fault(&error))?;
        let is_cut = bytes.len() > self.room as usize;
        bytes.truncate(self.room as usize);
        Ok(LimitedText { bytes, is_cut })
    }
}
