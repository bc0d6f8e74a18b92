//! The minutes of a log, and the lines of the datagrams that a port passed over in one.

ghost use Rattle.std.specs.Prelude.{◌≡◌, OnOk};
ghost use Rattle.std.specs.Io.KnownBytes.{Appends};
ghost use Rattle.std.specs.List.{flat_map};
ghost use Rattle.datagram_port.specs.Port.{Quiet};
ghost use Rattle.node_log.specs.Differing.{differing_text, differs_text};
ghost use Rattle.node_log.specs.Minute.{causes_text, fell_line, fell_text, has_none, is_over, minute_after, new_minute, numbered, older_line, older_text, passed_over_text, token_text, unopened_line};

use crate::members::write_member;
use crate::text::{write_small, write_value};
use gatekeeping::{Fell, Older, PLACES};
use sealed_port::Unopened;
use std::io::{self, Write};

/// The number of quiet turns of a minute.
const QUIETS_OF_MINUTE: u16 = 300;

/// The quiet turns since the log last asked which datagrams were not opened. Five come in a second.
#[derive(Clone, Copy, Debug, PartialEq, Eq)]
pub struct Minute {
    quiets: u16,
}

impl Minute {
    /// Returns a minute before any quiet turn.
    pub(crate) fn new() -> Self
        ensures { result ≡ new_minute }
    {
        Minute { quiets: 0 }
    }

    /// Returns whether the minute is over.
    pub(crate) fn is_over(&self) -> bool
        ensures { result ≡ is_over self.now }
    {
        self.quiets >= QUIETS_OF_MINUTE
    }

    /// Notes a quiet turn.
    pub(crate) fn rest(&mut self)
        ensures { self.new ≡ minute_after Quiet self.old }
    {
        if self.quiets < QUIETS_OF_MINUTE {
            self.quiets += 1;
        }
    }
}

/// Returns whether all numbers are 0.
fn has_none(unopened: &Unopened) -> bool
    ensures { result ≡ has_none unopened.now }
{
    unopened.form == 0
        && unopened.tag == 0
        && unopened.early == 0
        && unopened.late == 0
        && unopened.again == 0
        && unopened.limited == 0
}

/// Writes a word and a number, or nothing if the number is 0.
#[tactic(auto, unfolding(crate::specs::Minute::numbered))]
fn write_numbered<W: Write>(writer: &mut W, word: &[u8], number: u64) -> io::Result<()>
    ensures { OnOk result (Appends (W.contents writer.old) (W.contents writer.new) (numbered word.now number)) }
{
    if number == 0 {
        return Ok(());
    }
    writer.write_all(word)?;
    write!(writer, "{number}")
}

/// Writes the causes for which datagrams were not opened, each with its number.
#[tactic(auto, unfolding(crate::specs::Minute::causes_text))]
fn write_causes<W: Write>(writer: &mut W, unopened: &Unopened) -> io::Result<()>
    ensures { OnOk result (Appends (W.contents writer.old) (W.contents writer.new) (causes_text unopened.now)) }
{
    write_numbered(writer, b" form=", unopened.form)?;
    write_numbered(writer, b" tag=", unopened.tag)?;
    write_numbered(writer, b" early=", unopened.early)?;
    write_numbered(writer, b" late=", unopened.late)?;
    write_numbered(writer, b" again=", unopened.again)?;
    write_numbered(writer, b" limited=", unopened.limited)
}

/// Writes the line of the datagrams that were not opened, or nothing if there are none.
#[tactic(auto, unfolding(crate::specs::Minute::unopened_line))]
fn write_unopened<W: Write>(writer: &mut W, unopened: &Unopened) -> io::Result<()>
    ensures { OnOk result (Appends (W.contents writer.old) (W.contents writer.new) (unopened_line unopened.now)) }
{
    if has_none(unopened) {
        return Ok(());
    }
    writer.write_all(b"unopened")?;
    write_causes(writer, unopened)?;
    writer.write_all(b"\n")
}

/// Writes the line of a datagram of an older boot.
#[tactic(auto, unfolding(crate::specs::Minute::older_line))]
fn write_older<W: Write>(writer: &mut W, older: Older) -> io::Result<()>
    ensures { OnOk result (Appends (W.contents writer.old) (W.contents writer.new) (older_line older)) }
{
    write_small(writer, b"older member=", older.member)?;
    write_value(writer, b" boot=", older.boot)?;
    writer.write_all(b"\n")
}

/// Writes the line of a datagram of an older boot, or nothing if there is none.
fn write_last_older<W: Write>(writer: &mut W, older: Option<Older>) -> io::Result<()>
    ensures { OnOk result (Appends (W.contents writer.old) (W.contents writer.new) (older_text older)) }
{
    match older {
        Some(older) => write_older(writer, older),
        None => Ok(()),
    }
}

/// Writes the name of a token.
#[tactic(auto, unfolding(crate::specs::Minute::token_text))]
fn write_token<W: Write>(writer: &mut W, name: &[u8; 16]) -> io::Result<()>
    ensures { OnOk result (Appends (W.contents writer.old) (W.contents writer.new) (token_text name.now)) }
{
    let mut digits = [0; 32];
    hex::encode_to_slice(name, &mut digits).unwrap();
    writer.write_all(b" name=")?;
    writer.write_all(&digits)
}

/// Writes the line of a member whose floor of a token fell.
fn write_fell<W: Write>(writer: &mut W, fell: Fell) -> io::Result<()>
    ensures { OnOk result (Appends (W.contents writer.old) (W.contents writer.new) (fell_line fell)) }
{
    write_small(writer, b"fell member=", fell.member)?;
    write_token(writer, &fell.name)?;
    writer.write_all(b"\n")
}

/// Writes the line of a member whose floor fell, or nothing if there is none.
fn write_first_fell<W: Write>(writer: &mut W, fell: Option<Fell>) -> io::Result<()>
    ensures { OnOk result (Appends (W.contents writer.old) (W.contents writer.new) (fell_text fell)) }
{
    match fell {
        Some(fell) => write_fell(writer, fell),
        None => Ok(()),
    }
}

/// Writes the line of a member, or nothing if it doesn't differ.
fn write_if_differs<W: Write>(
    writer: &mut W,
    differing: &[bool; PLACES],
    number: u8,
) -> io::Result<()>
    ensures { OnOk result (Appends (W.contents writer.old) (W.contents writer.new)
        (differs_text differing.now number)) }
{
    if differing.get(usize::from(number)).copied().unwrap_or(false) {
        return write_member(writer, b"differs", number);
    }
    Ok(())
}

/// Writes the lines of those of the members with the given numbers that differ.
fn write_those<W: Write>(
    writer: &mut W,
    differing: &[bool; PLACES],
    numbers: &[u8],
) -> io::Result<()>
    ensures { OnOk result (Appends (W.contents writer.old) (W.contents writer.new)
        (flat_map (differs_text differing.now) numbers.now)) }
{
    for number in numbers {
        write_if_differs(writer, differing, *number)?;
    }
    Ok(())
}

/// Writes a line for each member that differs.
#[tactic(auto, unfolding(crate::specs::Differing::differing_text))]
fn write_differing<W: Write>(writer: &mut W, differing: &[bool; PLACES]) -> io::Result<()>
    ensures { OnOk result (Appends (W.contents writer.old) (W.contents writer.new) (differing_text differing.now)) }
{
    write_those(writer, differing, &[1, 2, 3, 4, 5, 6, 7, 8, 9])
}

/// Writes the lines of the datagrams that a port passed over.
pub(crate) fn write_passed_over<W: Write>(
    writer: &mut W,
    unopened: &Unopened,
    older: Option<Older>,
    fell: Option<Fell>,
    differing: &[bool; PLACES],
) -> io::Result<()>
    ensures { OnOk result (Appends (W.contents writer.old) (W.contents writer.new)
        (passed_over_text unopened.now older fell differing.now)) }
{
    write_unopened(writer, unopened)?;
    write_last_older(writer, older)?;
    write_first_fell(writer, fell)?;
    write_differing(writer, differing)
}
