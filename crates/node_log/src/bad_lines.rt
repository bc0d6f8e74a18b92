//! The answers `NO - BADLINE` to plain lines in a second of a log.

ghost use Rattle.std.specs.Prelude.{◌≡◌, OnOk};
ghost use Rattle.std.specs.Io.KnownBytes.{Appends};
ghost use Rattle.node_log.specs.BadLines.{after_answer, after_quiet_turn, is_bad_line, is_told, more_line, more_text, new_second, second_text};

use crate::text::write_value;
use std::io::{self, Write};

/// The number of quiet turns of a second.
const QUIETS_OF_SECOND: u8 = 5;

/// The maximum number of answers of a second that have a line each.
const MOST_TOLD: u64 = 10;

/// The end of the numbers of addresses. From here on a number is a client of the clients file.
const ADDRESSES_END: u64 = 1 << 48;

/// The number of quiet turns of a second, and of answers `NO - BADLINE` to plain lines in it.
#[derive(Clone, Copy, Debug, PartialEq, Eq)]
pub struct BadLines {
    quiets: u8,
    number: u64,
}

/// Returns whether an answer says that a plain line is outside the grammar.
fn is_bad_line(client: u64, answer: &[u8]) -> bool
    ensures { result ≡ is_bad_line client answer.now }
{
    client < ADDRESSES_END && answer == b"NO - BADLINE".as_slice()
}

/// Writes the line of `more` answers that had none.
fn write_more_line<W: Write>(writer: &mut W, more: u64) -> io::Result<()>
    ensures { OnOk result (Appends (W.contents writer.old) (W.contents writer.new) (more_line more)) }
{
    write_value(writer, b"badline more=", more)?;
    writer.write_all(b"\n")
}

/// Writes the line of the answers that had none, of `number` in a second, or nothing if each had its line.
fn write_second<W: Write>(writer: &mut W, number: u64) -> io::Result<()>
    ensures { OnOk result (Appends (W.contents writer.old) (W.contents writer.new) (second_text number)) }
{
    if number <= MOST_TOLD {
        return Ok(());
    }
    write_more_line(writer, number - MOST_TOLD)
}

impl BadLines {
    /// Returns a second without any quiet turn or answer.
    pub(crate) fn new() -> Self
        ensures { result ≡ new_second }
    {
        BadLines {
            quiets: 0,
            number: 0,
        }
    }

    /// Returns whether the log tells an answer to `client` by a line of its own.
    pub(crate) fn is_told(&self, client: u64, answer: &[u8]) -> bool
        ensures { result ≡ is_told client answer.now self.now }
    {
        !is_bad_line(client, answer) || self.number < MOST_TOLD
    }

    /// Notes an answer to `client`.
    pub(crate) fn note(&mut self, client: u64, answer: &[u8])
        ensures { self.new ≡ after_answer client answer.now self.old }
    {
        if is_bad_line(client, answer) {
            self.number = self.number.saturating_add(1);
        }
    }

    /// Notes a quiet turn.
    pub(crate) fn rest(&mut self)
        ensures { self.new ≡ after_quiet_turn self.old }
    {
        if self.quiets < QUIETS_OF_SECOND - 1 {
            self.quiets += 1;
        } else {
            *self = BadLines::new();
        }
    }

    /// Writes the line of a second that the next quiet turn ends.
    pub(crate) fn write_more<W: Write>(&self, writer: &mut W) -> io::Result<()>
        ensures { OnOk result (Appends (W.contents writer.old) (W.contents writer.new) (more_text self.now)) }
    {
        if self.quiets < QUIETS_OF_SECOND - 1 {
            return Ok(());
        }
        write_second(writer, self.number)
    }
}
