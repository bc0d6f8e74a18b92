ghost use Rattle.std.specs.Prelude.{◌≡◌};

use std::io::{self, ErrorKind, Read};

/// The maximum number of consecutive repetitions of an interrupted read.
const MAX_TRIES: u32 = 64;

/// A reader that repeats an interrupted read, at most 64 times in a row.
#[derive(Drop)]
pub struct Retrying<R> {
    reader: R,
}

impl<R: Read> Retrying<R> {
    /// Returns a reader that repeats the interrupted reads of `reader`.
    pub fn new(reader: R) -> Self
        ensures { result.reader ≡ reader }
    {
        Retrying { reader }
    }
}

impl<R: Read> Read for Retrying<R> {
    ghost remaining = { λ retrying. R.remaining retrying.reader };

    fn read(&mut self, buf: &mut [u8]) -> io::Result<usize> {
        for _ in 0..=MAX_TRIES {
            match self.reader.read(buf) {
                Err(error) if error.kind() == ErrorKind::Interrupted => {}
                end => return end,
            }
        }
        Err(ErrorKind::Other.into())
    }
}
