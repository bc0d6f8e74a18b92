//! A log over a writer.

ghost use Rattle.std.specs.Prelude.{◌≡◌, ◌++◌, [], false, map, slice_set, true, OnOk};
ghost use Rattle.std.specs.Io.KnownBytes.{Appends};
ghost use Rattle.datagram_port.specs.Port.{Offered, Quiet, Received};
ghost use Rattle.datagram_port.specs.declared.port.Sender.TheVariants.{Client};
ghost use Rattle.node_log.specs.BadLines.{bad_lines_after, more_text, new_second};
ghost use Rattle.gatekeeping.specs.Members.{nobody};
ghost use Rattle.node_log.specs.Differing.{either};
ghost use Rattle.node_log.specs.Members.{after_datagram, after_quiet, heard_texts, silent_texts};
ghost use Rattle.node_log.specs.Log.{Tells, asked_after, offer_text};
ghost use Rattle.node_log.specs.Minute.{is_over, minute_after, new_minute, passed_over_text};
ghost use Rattle.node_log.specs.Text.{end_line};

use crate::asked::AskedLines;
use crate::bad_lines::BadLines;
use crate::differing::either;
use crate::members::{Member, hear, rest, write_heard, write_silent};
use crate::minute::{Minute, write_passed_over};
use crate::text::{write_answered, write_end};
use arrayvec::ArrayVec;
use gatekeeping::{Fell, MAX_OTHERS, Older, PLACES};
use sealed_port::Unopened;
use std::io::{self, Write};

/// Writes the lines of a quiet turn.
fn write_quiet<W: Write>(writer: &mut W, members: &[Member], bad_lines: &BadLines) -> io::Result<()>
    ensures { OnOk result (Appends (W.contents writer.old) (W.contents writer.new)
        (silent_texts members.now ++ more_text bad_lines.now)) }
{
    write_silent(writer, members)?;
    bad_lines.write_more(writer)
}

/// A log over a writer. It is over at the writer's first failure, and writes nothing more.
#[derive(Drop)]
pub struct Log<W: Write + Drop> {
    writer: W,
    asked: AskedLines,
    members: ArrayVec<Member, MAX_OTHERS>,
    minute: Minute,
    differing: [bool; PLACES],
    bad_lines: BadLines,
    is_over: bool,
}

impl<W: Write + Drop> Log<W> {
    /// Returns a log over `writer` with the node's other members, without remembered lines.
    pub fn new(writer: W, members: ArrayVec<Member, MAX_OTHERS>) -> Self
        ensures writer { result.writer ≡ writer }
        ensures asked { result.asked ≡ [] }
        ensures members { result.members.items ≡ members.items }
        ensures minute { result.minute ≡ new_minute }
        ensures differing { result.differing ≡ nobody }
        ensures bad_lines { result.bad_lines ≡ new_second }
        ensures goes { result.is_over ≡ false }
    {
        Log {
            writer,
            asked: AskedLines::new(),
            members,
            minute: Minute::new(),
            differing: [false; PLACES],
            bad_lines: BadLines::new(),
            is_over: false,
        }
    }

    /// Returns whether a line could not be written.
    pub fn is_over(&self) -> bool
        ensures { result ≡ self.now.is_over }
    {
        self.is_over
    }

    /// Remembers the client, the nonce and the user of a client's line, and nothing else of it.
    pub fn received(&mut self, client: u64, bytes: &[u8])
        ensures asked { self.new.asked ≡ asked_after (Received (Client client) bytes.now) self.old.asked }
        ensures same { self.new ≡ record self.old { asked = self.new.asked } }
    {
        self.asked.add(client, bytes);
    }

    /// Writes the line of an answer after the node offered it to a client, and forgets the client's line. The answers
    /// `NO - BADLINE` to plain lines have no line after the tenth of a second.
    pub fn answered(&mut self, client: u64, answer: &[u8])
        ensures asked { self.new.asked ≡ asked_after (Offered (Client client) answer.now) self.old.asked }
        ensures members { self.new.members.items ≡ self.old.members.items }
        ensures minute { self.new.minute ≡ self.old.minute }
        ensures differing { self.new.differing ≡ self.old.differing }
        ensures bad_lines { self.new.bad_lines
            ≡ bad_lines_after (Offered (Client client) answer.now) self.old.bad_lines }
        ensures told { Tells self.old.is_over self.new.is_over (W.contents self.old.writer) (W.contents self.new.writer)
            (offer_text (Client client) answer.now self.old.asked self.old.bad_lines) }
    {
        let user = self.asked.take(client, answer);
        let is_told = self.bad_lines.is_told(client, answer);
        self.bad_lines.note(client, answer);
        if self.is_over || !is_told {
            return;
        }
        let name = match &user {
            Some(name) => Some(name.as_slice()),
            None => None,
        };
        if write_answered(&mut self.writer, client, name, answer).is_err() {
            self.is_over = true;
        }
    }

    /// Notes that the member `number` was heard. Writes a `heard` line if it was not heard already.
    pub fn heard(&mut self, number: u8)
        ensures asked { self.new.asked ≡ self.old.asked }
        ensures members { self.new.members.items ≡ map (after_datagram number) self.old.members.items }
        ensures minute { self.new.minute ≡ self.old.minute }
        ensures differing { self.new.differing ≡ self.old.differing }
        ensures bad_lines { self.new.bad_lines ≡ self.old.bad_lines }
        ensures told { Tells self.old.is_over self.new.is_over (W.contents self.old.writer) (W.contents self.new.writer)
            (heard_texts number self.old.members.items) }
    {
        if !self.is_over
            && write_heard(&mut self.writer, number, self.members.as_slice()).is_err()
        {
            self.is_over = true;
        }
        hear(self.members.as_mut_slice(), number);
    }

    /// Notes that the member `number` differs: a datagram came from its address that the node can't read.
    pub fn differs(&mut self, number: u8)
        ensures { self.new ≡ record self.old { differing = slice_set self.old.differing number true } }
    {
        let place = usize::from(number);
        if place < PLACES {
            self.differing[place] = true;
        }
    }

    /// Notes a quiet turn. Writes a `silent` line for each member that becomes silent by it, and a line for the answers
    /// `NO - BADLINE` that had none in a second that it ends.
    pub fn quiet(&mut self)
        ensures asked { self.new.asked ≡ self.old.asked }
        ensures members { self.new.members.items ≡ map after_quiet self.old.members.items }
        ensures minute { self.new.minute ≡ minute_after Quiet self.old.minute }
        ensures differing { self.new.differing ≡ self.old.differing }
        ensures bad_lines { self.new.bad_lines ≡ bad_lines_after Quiet self.old.bad_lines }
        ensures told { Tells self.old.is_over self.new.is_over (W.contents self.old.writer) (W.contents self.new.writer)
            (silent_texts self.old.members.items ++ more_text self.old.bad_lines) }
    {
        if !self.is_over
            && write_quiet(&mut self.writer, self.members.as_slice(), &self.bad_lines).is_err()
        {
            self.is_over = true;
        }
        rest(self.members.as_mut_slice());
        self.minute.rest();
        self.bad_lines.rest();
    }

    /// Returns whether a minute is over since the log began, or since the last call of
    /// [`passed_over`](Log::passed_over).
    pub fn is_minute_over(&self) -> bool
        ensures { result ≡ is_over self.now.minute }
    {
        self.minute.is_over()
    }

    /// Writes the line of the datagrams that were not opened, that of one of an older boot, that of a member whose
    /// floor fell, and those of the members that differ, if there are any. Those in `differing` differ, and those that
    /// were noted. Begins another minute, in which nobody differs yet.
    pub fn passed_over(
        &mut self,
        unopened: Unopened,
        older: Option<Older>,
        fell: Option<Fell>,
        differing: [bool; PLACES],
    )
        ensures asked { self.new.asked ≡ self.old.asked }
        ensures members { self.new.members.items ≡ self.old.members.items }
        ensures minute { self.new.minute ≡ new_minute }
        ensures differing { self.new.differing ≡ nobody }
        ensures bad_lines { self.new.bad_lines ≡ self.old.bad_lines }
        ensures told { Tells self.old.is_over self.new.is_over (W.contents self.old.writer) (W.contents self.new.writer)
            (passed_over_text unopened older fell (either self.old.differing differing)) }
    {
        let both = either(self.differing, &differing);
        self.minute = Minute::new();
        self.differing = [false; PLACES];
        if !self.is_over
            && write_passed_over(&mut self.writer, &unopened, older, fell, &both).is_err()
        {
            self.is_over = true;
        }
    }

    /// Writes the line of a node that ends serving, and flushes the writer.
    pub fn end(&mut self, received: u64, replied: u64)
        ensures asked { self.new.asked ≡ self.old.asked }
        ensures members { self.new.members.items ≡ self.old.members.items }
        ensures minute { self.new.minute ≡ self.old.minute }
        ensures differing { self.new.differing ≡ self.old.differing }
        ensures bad_lines { self.new.bad_lines ≡ self.old.bad_lines }
        ensures told { Tells self.old.is_over self.new.is_over (W.contents self.old.writer) (W.contents self.new.writer)
            (end_line received replied) }
    {
        if self.is_over {
            return;
        }
        if write_end(&mut self.writer, received, replied).is_err() || self.writer.flush().is_err() {
            self.is_over = true;
        }
    }

    /// Flushes the writer.
    pub fn flush(&mut self)
        ensures asked { self.new.asked ≡ self.old.asked }
        ensures members { self.new.members.items ≡ self.old.members.items }
        ensures minute { self.new.minute ≡ self.old.minute }
        ensures differing { self.new.differing ≡ self.old.differing }
        ensures bad_lines { self.new.bad_lines ≡ self.old.bad_lines }
        ensures told { Tells self.old.is_over self.new.is_over (W.contents self.old.writer) (W.contents self.new.writer)
            [] }
    {
        if !self.is_over && self.writer.flush().is_err() {
            self.is_over = true;
        }
    }
}
