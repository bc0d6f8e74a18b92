ghost use Rattle.std.specs.Prelude.{◌≡◌, ◌<◌, ◌↔◌, IsTrue, None};
ghost use Rattle.std.specs.IoError.{error_kind};

use std::io::{Error, ErrorKind, Read};

/// The maximum number of consecutive interrupted reads that are tried again.
const MAX_TRIES: u32 = 64;

/// The result of a pull.
#[derive(Clone, Copy, Debug, PartialEq, Eq)]
pub enum Pulled {
    /// The number of pulled bytes, which are the buffer's first ones. It is 0 only at the end.
    Bytes(usize),
    /// The pull failed.
    Failed,
}

/// A source of a text, in pieces.
pub trait Source {
    ghost use Rattle.std.specs.Prelude.{◌||◌, ℕ, Bool, List, length, Option, None};
    ghost use Rattle.token_file.specs.Source.{Pulls, Stays, is_failure};

    // The bytes that are left, if the source knows them.
    ghost left: { Self → Option (List ℕ) } = { λ _. None };

    // The type of the part of the source after its text.
    ghost Behind: { Type 0 } = { Unit {0} };

    // The part of the source after its text, if the source knows it.
    ghost behind: { Self → Option Self.Behind };

    // Whether a pull has failed.
    ghost has_failed: { Self → Bool };

    /// Moves the first bytes that are left into the buffer. The part of the source after the text stays.
    fn pull(&mut self, buffer: &mut [u8]) -> Pulled
        requires { 0 < length buffer.old }
        ensures bytes { Pulls (left self.old) (left self.new) result buffer.new }
        ensures behind { Stays (behind self.old) (behind self.new) }
        ensures failed { has_failed self.new ≡ (has_failed self.old || is_failure result) };
}

/// A source over a reader. It tries an interrupted read again, at most 64 times in a row.
#[derive(Debug, Drop)]
pub struct FromRead<R> {
    reader: R,
    has_failed: bool,
}

impl<R: Read> FromRead<R> {
    ghost use Rattle.std.specs.Prelude.{false};

    /// Returns a source over `reader`.
    pub fn new(reader: R) -> Self
        ensures left { ⟦<FromRead<R> as Source>⟧.left result ≡ R.remaining reader }
        ensures failed { ⟦<FromRead<R> as Source>⟧.has_failed result ≡ false }
    {
        FromRead {
            reader,
            has_failed: false,
        }
    }
}

impl<R: Read> Source for FromRead<R> {
    ghost left = { λ source. R.remaining source.reader };

    ghost behind = { λ _. None };

    ghost has_failed = { λ source. source.has_failed };

    fn pull(&mut self, buffer: &mut [u8]) -> Pulled {
        for tries in 0..=MAX_TRIES {
            match self.reader.read(buffer) {
                Ok(len) => return Pulled::Bytes(len),
                Err(error) if is_tried_again(&error, tries) => {}
                Err(_) => break,
            }
        }
        self.has_failed = true;
        Pulled::Failed
    }
}

/// Returns whether a read that failed with `error` is tried again, after `tries` consecutive interrupted reads.
fn is_tried_again(error: &Error, tries: u32) -> bool
    ensures { IsTrue result ↔ ((error_kind error.now ≡ ErrorKind.Interrupted) × (tries < 64)) }
{
    error.kind() == ErrorKind::Interrupted && tries < MAX_TRIES
}
