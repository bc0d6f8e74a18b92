//! Readers and writers that take or return few bytes, and fail.

use std::cell::Cell;
use std::io::{self, ErrorKind, Read, Write};

/// A reader that returns a text in pieces of at most `size` bytes, and afterwards fails with `fault` if it is Some.
#[derive(Drop)]
pub(crate) struct Front<'a> {
    pub(crate) text: &'a [u8],
    pub(crate) size: usize,
    pub(crate) fault: Option<ErrorKind>,
}

impl Read for Front<'_> {
    fn read(&mut self, buf: &mut [u8]) -> io::Result<usize> {
        if self.text.is_empty() {
            return match self.fault {
                Some(kind) => Err(kind.into()),
                None => Ok(0),
            };
        }
        let len = buf.len().min(self.size);
        self.text.read(&mut buf[..len])
    }
}

/// A reader that returns one line at a time, and fails unless the line's number of bytes was flushed before.
#[derive(Drop)]
pub(crate) struct Dialog<'a> {
    pub(crate) lines: &'a [(&'static str, usize)],
    pub(crate) given: usize,
    pub(crate) flushed: &'a Cell<usize>,
}

impl Read for Dialog<'_> {
    fn read(&mut self, buf: &mut [u8]) -> io::Result<usize> {
        let Some(&(text, flushed)) = self.lines.get(self.given) else {
            return Ok(0);
        };
        if self.flushed.get() != flushed {
            return Err(ErrorKind::Other.into());
        }
        self.given = self.given.saturating_add(1);
        text.as_bytes().read(buf)
    }
}

/// A writer that has room for `left` bytes, and counts its flushes and the bytes flushed. Its flush may fail.
#[derive(Drop)]
pub(crate) struct Room<'a> {
    pub(crate) left: usize,
    pub(crate) written: usize,
    pub(crate) flushed: &'a Cell<usize>,
    pub(crate) flushes: u32,
    pub(crate) flush_fails: bool,
}

impl Write for Room<'_> {
    fn write(&mut self, bytes: &[u8]) -> io::Result<usize> {
        let taken = bytes.len().min(self.left);
        if taken == 0 && !bytes.is_empty() {
            return Err(ErrorKind::WriteZero.into());
        }
        self.left -= taken;
        self.written = self.written.saturating_add(taken);
        Ok(taken)
    }

    fn flush(&mut self) -> io::Result<()> {
        if self.flush_fails {
            return Err(ErrorKind::Other.into());
        }
        self.flushed.set(self.written);
        self.flushes = self.flushes.saturating_add(1);
        Ok(())
    }
}
