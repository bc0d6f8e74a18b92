//! The heard and silent members of a cluster.

ghost use Rattle.std.specs.Prelude.{◌≡◌, OnOk, false, map};
ghost use Rattle.std.specs.Io.KnownBytes.{Appends};
ghost use Rattle.node_log.specs.Members.{after_datagram, after_quiet, heard_text, heard_texts, member_line, silent_text, silent_texts};

use std::io::{self, Write};

/// The number of consecutive quiet turns without a datagram that makes a member silent: some five seconds.
const QUIETS_OF_SILENCE: u8 = 25;

/// Another member of the node's cluster, and whether it is heard.
#[derive(Clone, Copy, Debug, Default, PartialEq, Eq)]
pub struct Member {
    number: u8,
    is_heard: bool,
    quiets: u8,
}

impl Member {
    /// Returns the member with the number `number`, which is neither heard nor silent yet.
    pub fn new(number: u8) -> Self
        ensures { result ≡ record { number = number; is_heard = false; quiets = 0 } }
    {
        Member {
            number,
            is_heard: false,
            quiets: 0,
        }
    }

    /// Returns the member after a datagram from the address of the member `number`.
    fn after_datagram(self, number: u8) -> Self
        ensures { result ≡ after_datagram number self }
    {
        if self.number == number {
            return Member {
                number: self.number,
                is_heard: true,
                quiets: 0,
            };
        }
        self
    }

    /// Returns the member after a quiet turn.
    fn after_quiet(self) -> Self
        ensures { result ≡ after_quiet self }
    {
        if self.quiets < QUIETS_OF_SILENCE - 1 {
            return Member {
                number: self.number,
                is_heard: self.is_heard,
                quiets: self.quiets + 1,
            };
        }
        Member {
            number: self.number,
            is_heard: false,
            quiets: QUIETS_OF_SILENCE,
        }
    }
}

/// Notes a datagram from the address of the member `number`.
pub(crate) fn hear(members: &mut [Member], number: u8)
    ensures { members.new ≡ map (after_datagram number) members.old }
{
    for member in members.iter_mut() {
        *member = member.after_datagram(number);
    }
}

/// Notes a quiet turn.
pub(crate) fn rest(members: &mut [Member])
    ensures { members.new ≡ map after_quiet members.old }
{
    for member in members.iter_mut() {
        *member = member.after_quiet();
    }
}

/// Writes the line of a member.
#[tactic(auto, unfolding(crate::specs::Members::member_line))]
pub(crate) fn write_member<W: Write>(writer: &mut W, word: &[u8], number: u8) -> io::Result<()>
    ensures { OnOk result (Appends (W.contents writer.old) (W.contents writer.new) (member_line word.now number)) }
{
    writer.write_all(word)?;
    writer.write_all(b" member=")?;
    write!(writer, "{number}")?;
    writer.write_all(b"\n")
}

/// Writes a `heard` line if `member` has the number `number` and was not heard already.
fn write_if_heard<W: Write>(writer: &mut W, number: u8, member: Member) -> io::Result<()>
    ensures { OnOk result (Appends (W.contents writer.old) (W.contents writer.new) (heard_text number member)) }
{
    if member.number == number && !member.is_heard {
        return write_member(writer, b"heard", member.number);
    }
    Ok(())
}

/// Writes a `silent` line if the next quiet turn makes the member silent.
fn write_if_silent<W: Write>(writer: &mut W, member: Member) -> io::Result<()>
    ensures { OnOk result (Appends (W.contents writer.old) (W.contents writer.new) (silent_text member)) }
{
    if member.quiets == QUIETS_OF_SILENCE - 1 {
        return write_member(writer, b"silent", member.number);
    }
    Ok(())
}

/// Writes a `heard` line for each member that a datagram from the address of the member `number` makes heard.
pub(crate) fn write_heard<W: Write>(
    writer: &mut W,
    number: u8,
    members: &[Member],
) -> io::Result<()>
    ensures { OnOk result (Appends (W.contents writer.old) (W.contents writer.new) (heard_texts number members.now)) }
{
    for member in members {
        write_if_heard(writer, number, *member)?;
    }
    Ok(())
}

/// Writes a `silent` line for each member that a quiet turn makes silent.
pub(crate) fn write_silent<W: Write>(writer: &mut W, members: &[Member]) -> io::Result<()>
    ensures { OnOk result (Appends (W.contents writer.old) (W.contents writer.new) (silent_texts members.now)) }
{
    for member in members {
        write_if_silent(writer, *member)?;
    }
    Ok(())
}
