//! A writer that never fails, over one that may.

ghost use Rattle.std.specs.Prelude.{◌≡◌, IsOk, None, Ok, false, true};
ghost use Rattle.std.specs.Io.{WritesAtMost};
ghost use Rattle.std.specs.Io.KnownBytes.{Keeps, WriteAppends};
ghost use Rattle.log_writer.specs.Line.{first_end, taken_at};
ghost use Rattle.log_writer.specs.Waiting.{IsHanded, IsWritten, after_write, is_full, is_quiet, new_waiting};

use crate::waiting::Waiting;
use std::io::{self, Write};

/// A writer of lines over one that may fail. Its own calls never fail.
///
/// It keeps whole lines until it is flushed or has no room for one more. Then it hands them to the writer below, which
/// should keep nothing back. The lines that the writer below does not take are lost, and counted. Before the next lines
/// it writes `dropped lines=` and their number, until that line is taken. If a part of a line was taken, the next text
/// begins with an LF. A line without an LF is not handed on, and what was not flushed at the end is lost.
#[derive(Drop)]
pub struct SteadyWriter<W: Write + Drop> {
    writer: W,
    waiting: Waiting,
}

impl<W: Write + Drop> SteadyWriter<W> {
    /// Returns a writer over `writer`, in which nothing waits.
    pub fn new(writer: W) -> Self
        ensures writer { result.writer ≡ writer }
        ensures waiting { result.waiting ≡ new_waiting }
    {
        SteadyWriter {
            writer,
            waiting: Waiting::new(),
        }
    }
}

impl<W: Write + Drop> Write for SteadyWriter<W> {
    /// Takes the bytes through their first LF, or all if there is none.
    fn write(&mut self, bytes: &[u8]) -> io::Result<usize>
        ensures bound { WritesAtMost result bytes.now }
        ensures bytes { WriteAppends None None result bytes.now }
        ensures taken { result ≡ Ok (taken_at (first_end bytes.now) bytes.now) }
        ensures roomy { is_full self.old.waiting ≡ false
            → self.new ≡ record self.old { waiting = after_write bytes.now self.old.waiting } }
        ensures full { is_full self.old.waiting ≡ true → IsWritten self.old.waiting self.new.waiting
            (W.contents self.old.writer) (W.contents self.new.writer) bytes.now }
    {
        if self.waiting.is_full() {
            self.waiting.hand(&mut self.writer);
        }
        Ok(self.waiting.write(bytes))
    }

    /// Hands the whole lines on, and flushes the writer below. Without lines to hand on or to tell of it does nothing.
    fn flush(&mut self) -> io::Result<()>
        ensures bytes { Keeps None None }
        ensures ok { IsOk result }
        ensures quiet { is_quiet self.old.waiting ≡ true → self.new ≡ self.old }
        ensures handed { is_quiet self.old.waiting ≡ false → IsHanded self.old.waiting self.new.waiting
            (W.contents self.old.writer) (W.contents self.new.writer) }
    {
        if !self.waiting.is_quiet() {
            self.waiting.hand(&mut self.writer);
            let _flushed = self.writer.flush();
        }
        Ok(())
    }
}
