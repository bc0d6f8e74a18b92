//! A node's port that keeps a log.

ghost use Rattle.std.specs.Prelude.{◌≡◌, [], ◌≢◌, ◌∷◌, ◌++◌, Some, IfSome};
ghost use Rattle.datagram_port.specs.declared.port.Received.TheVariants.{Quiet as QuietReceive};
ghost use Rattle.datagram_port.specs.Port.{Grows, IsWithin, Offered, Received as ReceivedEvent, entries_of_poll, event_of_receive};
ghost use Rattle.datagram_port.specs.declared.port.Sender.TheVariants.{Peer};
ghost use Rattle.node_log.specs.BadLines.{bad_lines_after, new_second};
ghost use Rattle.gatekeeping.specs.Members.{nobody};
ghost use Rattle.node_log.specs.Differing.{either};
ghost use Rattle.node_log.specs.Log.{Remembers, Tells, asked_after, differing_after, differing_at_receive, members_after, offer_text, told_of, with_datagram};
ghost use Rattle.node_log.specs.Minute.{minute_after, minute_at_receive, minute_text, new_minute};
ghost use Rattle.node_log.specs.Text.{end_line};

use crate::log::Log;
use crate::members::Member;
use arrayvec::ArrayVec;
use datagram_port::{Port, Received, Sender};
use gatekeeping::{Counters, Fell, Gatekeeper, MAX_OTHERS, Older, PLACES, is_read};
use sealed_port::{SetAside, Unopened};
use std::io::Write;
use vote_wire::ClusterKey;

/// A node's port over another one, with a log of the answers to clients, and of the members that become heard or
/// silent.
///
/// A member is heard by a datagram that it made under the node's key. The port writes a line after the node offered the
/// answer, and flushes the log before the next wait. Once a minute it writes how many datagrams the port below didn't
/// open, the last one of an older boot, a member whose floor fell, and the members from whose addresses other datagrams
/// came, if there are any.
#[derive(Drop)]
pub struct LogPort<'k, P: Gatekeeper + Drop, W: Write + Drop> {
    port: P,
    key: &'k ClusterKey,
    log: Log<W>,
    ghost remembers: { Remembers (P.events port) log.asked },
}

impl<'k, P: Gatekeeper + Drop, W: Write + Drop> LogPort<'k, P, W> {
    /// Returns a port over `port`, which has received and offered nothing yet, with the node's key and its other
    /// members.
    pub fn new(
        port: P,
        writer: W,
        key: &'k ClusterKey,
        members: ArrayVec<Member, MAX_OTHERS>,
    ) -> Self
        requires { IfSome (P.events port) (λ entries. entries ≡ []) }
        ensures port { result.port ≡ port }
        ensures key { result.key ≡ key.entry }
        ensures writer { result.log.writer ≡ writer }
        ensures members { result.log.members.items ≡ members.items }
        ensures minute { result.log.minute ≡ new_minute }
        ensures differing { result.log.differing ≡ nobody }
        ensures bad_lines { result.log.bad_lines ≡ new_second }
    {
        LogPort {
            port,
            key,
            log: Log::new(writer, members),
        }
    }

    /// Writes the line of a node that ends serving, with the number of datagrams that it received and of replies that
    /// it offered.
    pub fn end(&mut self, received: u64, replied: u64)
        ensures port { self.new.port ≡ self.old.port }
        ensures told { Tells self.old.log.is_over self.new.log.is_over (W.contents self.old.log.writer)
            (W.contents self.new.log.writer) (end_line received replied) }
    {
        self.log.end(received, replied);
    }

    /// Writes the lines of the datagrams that were passed over in a minute, if the minute is over.
    fn tell_passed_over(&mut self)
        ensures event { P.events self.new.port ≡ P.events self.old.port }
        ensures stays { P.setup self.new.port ≡ P.setup self.old.port }
        ensures asked { self.new.log.asked ≡ self.old.log.asked }
        ensures members { self.new.log.members.items ≡ self.old.log.members.items }
        ensures key { self.new.key ≡ self.old.key }
        ensures minute { self.new.log.minute ≡ minute_at_receive self.old.log.minute }
        ensures differing { self.new.log.differing ≡ differing_at_receive self.old.log.minute self.old.log.differing }
        ensures bad_lines { self.new.log.bad_lines ≡ self.old.log.bad_lines }
        ensures told { Tells self.old.log.is_over self.new.log.is_over (W.contents self.old.log.writer)
            (W.contents self.new.log.writer)
            (minute_text self.old.log.minute (P.unopened self.old.port) (P.older self.old.port) (P.fell self.old.port)
            (either self.old.log.differing (P.differing self.old.port))) }
    {
        if self.log.is_minute_over() {
            let unopened = self.port.take_unopened();
            let older = self.port.take_older();
            let fell = self.port.take_fell();
            let differing = self.port.take_differing();
            self.log.passed_over(unopened, older, fell, differing);
        }
    }

    /// Returns whether a line of the log could not be written. Nothing was written after it.
    pub fn is_over(&self) -> bool
        ensures { result ≡ self.now.log.is_over }
    {
        self.log.is_over()
    }
}

/// Notes a datagram from the address of the member `number` in the log.
fn note_datagram<W: Write + Drop>(log: &mut Log<W>, key: &ClusterKey, number: u8, bytes: &[u8])
    ensures asked { log.new.asked ≡ log.old.asked }
    ensures members { log.new.members.items
        ≡ members_after key.now (ReceivedEvent (Peer number) bytes.now) log.old.members.items }
    ensures minute { log.new.minute ≡ log.old.minute }
    ensures differing { log.new.differing ≡ with_datagram key.now number bytes.now log.old.differing }
    ensures bad_lines { log.new.bad_lines ≡ log.old.bad_lines }
    ensures told { Tells log.old.is_over log.new.is_over (W.contents log.old.writer) (W.contents log.new.writer)
        (told_of key.now (ReceivedEvent (Peer number) bytes.now) log.old.asked log.old.members.items
        log.old.bad_lines) }
{
    if is_read(key, number, bytes) {
        log.heard(number);
    } else if !bytes.is_empty() {
        log.differs(number);
    }
}

/// Notes the result of a receive in the log.
fn note<W: Write + Drop>(log: &mut Log<W>, key: &ClusterKey, received: Received, buffer: &[u8; 512])
    requires { IsWithin received }
    ensures asked { log.new.asked ≡ asked_after (event_of_receive received buffer.now) log.old.asked }
    ensures members { log.new.members.items
        ≡ members_after key.now (event_of_receive received buffer.now) log.old.members.items }
    ensures minute { log.new.minute ≡ minute_after (event_of_receive received buffer.now) log.old.minute }
    ensures differing { log.new.differing
        ≡ differing_after key.now (event_of_receive received buffer.now) log.old.differing }
    ensures bad_lines { log.new.bad_lines ≡ bad_lines_after (event_of_receive received buffer.now) log.old.bad_lines }
    ensures told { Tells log.old.is_over log.new.is_over (W.contents log.old.writer) (W.contents log.new.writer)
        (told_of key.now (event_of_receive received buffer.now) log.old.asked log.old.members.items
        log.old.bad_lines) }
{
    match received {
        Received::Datagram { sender, len } => match sender {
            Sender::Client(client) => log.received(client, &buffer[..len]),
            Sender::Peer(number) => note_datagram(log, key, number, &buffer[..len]),
        },
        Received::Quiet => log.quiet(),
        Received::Fault => {}
    }
}

/// Notes an offered datagram in the log.
fn note_offer<W: Write + Drop>(log: &mut Log<W>, to: Sender, bytes: &[u8])
    ensures asked { log.new.asked ≡ asked_after (Offered to bytes.now) log.old.asked }
    ensures members { log.new.members.items ≡ log.old.members.items }
    ensures minute { log.new.minute ≡ log.old.minute }
    ensures differing { log.new.differing ≡ log.old.differing }
    ensures bad_lines { log.new.bad_lines ≡ bad_lines_after (Offered to bytes.now) log.old.bad_lines }
    ensures told { Tells log.old.is_over log.new.is_over (W.contents log.old.writer) (W.contents log.new.writer)
        (offer_text to bytes.now log.old.asked log.old.bad_lines) }
{
    match to {
        Sender::Client(client) => log.answered(client, bytes),
        Sender::Peer(_) => {}
    }
}

impl<P: Gatekeeper + Drop, W: Write + Drop> Port for LogPort<'_, P, W> {
    ghost events = { λ logged. P.events logged.port };

    ghost setup = { λ logged. P.setup logged.port };

    #[tactic(auto, using(crate::proofs::LogLemmas::remembers_more, crate::proofs::LogLemmas::tells_both, crate::proofs::LogLemmas::tells_more))]
    fn receive(&mut self, buffer: &mut [u8; 512]) -> Received
        ensures within { IsWithin result }
        ensures event { Grows (P.events self.old.port) (P.events self.new.port)
            (event_of_receive result buffer.new ∷ []) }
        ensures stays { P.setup self.new.port ≡ P.setup self.old.port }
        ensures told { Tells self.old.log.is_over self.new.log.is_over (W.contents self.old.log.writer)
            (W.contents self.new.log.writer)
            (minute_text self.old.log.minute (P.unopened self.old.port) (P.older self.old.port) (P.fell self.old.port)
            (either self.old.log.differing (P.differing self.old.port))
            ++ told_of self.old.key.now (event_of_receive result buffer.new) self.old.log.asked
            self.old.log.members.items self.old.log.bad_lines) }
        ensures minute { self.new.log.minute
            ≡ minute_after (event_of_receive result buffer.new) (minute_at_receive self.old.log.minute) }
        ensures differing { self.new.log.differing
            ≡ differing_after self.old.key.now (event_of_receive result buffer.new)
            (differing_at_receive self.old.log.minute self.old.log.differing) }
    {
        self.tell_passed_over();
        self.log.flush();
        let received = self.port.receive(buffer);
        note(&mut self.log, self.key, received, buffer);
        received
    }

    #[tactic(auto, using(crate::proofs::LogLemmas::remembers_more))]
    fn poll(&mut self, buffer: &mut [u8; 512]) -> Option<Received>
        ensures within { IfSome result IsWithin }
        ensures waits { result ≢ Some QuietReceive }
        ensures event { Grows (P.events self.old.port) (P.events self.new.port) (entries_of_poll result buffer.new) }
        ensures stays { P.setup self.new.port ≡ P.setup self.old.port }
        ensures told { IfSome result (λ received. Tells self.old.log.is_over self.new.log.is_over
            (W.contents self.old.log.writer) (W.contents self.new.log.writer)
            (told_of self.old.key.now (event_of_receive received buffer.new) self.old.log.asked
            self.old.log.members.items self.old.log.bad_lines)) }
    {
        let received = self.port.poll(buffer);
        if let Some(received) = received {
            note(&mut self.log, self.key, received, buffer);
        }
        received
    }

    #[tactic(auto, using(crate::proofs::LogLemmas::remembers_more))]
    fn send(&mut self, to: Sender, bytes: &[u8]) -> bool
        ensures event { Grows (P.events self.old.port) (P.events self.new.port) (Offered to bytes.now ∷ []) }
        ensures stays { P.setup self.new.port ≡ P.setup self.old.port }
        ensures told { Tells self.old.log.is_over self.new.log.is_over (W.contents self.old.log.writer)
            (W.contents self.new.log.writer)
            (told_of self.old.key.now (Offered to bytes.now) self.old.log.asked self.old.log.members.items
            self.old.log.bad_lines) }
    {
        let is_taken = self.port.send(to, bytes);
        note_offer(&mut self.log, to, bytes);
        is_taken
    }
}

impl<P: Gatekeeper + Drop, W: Write + Drop> Gatekeeper for LogPort<'_, P, W> {
    ghost unopened = { λ logged. P.unopened logged.port };

    ghost older = { λ logged. P.older logged.port };

    ghost fell = { λ logged. P.fell logged.port };

    ghost gone_back = { λ logged. P.gone_back logged.port };

    ghost heard = { λ logged. P.heard logged.port };

    ghost opened = { λ logged. P.opened logged.port };

    ghost differing = { λ logged. P.differing logged.port };

    ghost aside = { λ logged. P.aside logged.port };

    ghost below = { λ logged. P.below logged.port };

    ghost reported = { λ logged. P.reported logged.port };

    fn take_unopened(&mut self) -> Unopened {
        self.port.take_unopened()
    }

    fn take_older(&mut self) -> Option<Older> {
        self.port.take_older()
    }

    fn take_fell(&mut self) -> Option<Fell> {
        self.port.take_fell()
    }

    fn gone_back(&self) -> [bool; PLACES] {
        self.port.gone_back()
    }

    fn heard(&self) -> [u64; PLACES] {
        self.port.heard()
    }

    fn opened(&self) -> u64 {
        self.port.opened()
    }

    fn take_differing(&mut self) -> [bool; PLACES] {
        self.port.take_differing()
    }

    fn take_request(&mut self) -> Option<SetAside> {
        self.port.take_request()
    }

    fn drain(&mut self) {
        self.port.drain();
    }

    fn report(&mut self, request: &SetAside, page: &[u8]) -> bool {
        self.port.report(request, page)
    }

    fn flush(&mut self) {
        self.port.flush();
    }

    fn counters(&mut self) -> Counters {
        self.port.counters()
    }
}
