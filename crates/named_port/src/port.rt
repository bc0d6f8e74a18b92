//! A node's port that translates members' datagrams.

ghost use Rattle.std.specs.Option.{option_map};
ghost use Rattle.std.specs.Prelude.{◌≡◌, ◌≤◌, ◌∷◌, [], ◌≢◌, Some, None, IfSome, take};
ghost use Rattle.datagram_port.specs.Port.{Grows, IsWithin, Offered, entries_of_poll, event_of_receive};
ghost use Rattle.datagram_port.specs.declared.port.Received.TheVariants.{Quiet};
ghost use Rattle.gatekeeping.specs.Members.{nobody};
ghost use Rattle.named_port.specs.Port.{Polls, Receives};
ghost use Rattle.named_port.specs.Runs.{IsAfter, at_start, handed_events};
ghost use Rattle.named_port.specs.Setup.{named_setup};
ghost use Rattle.named_port.specs.Translator.{after_event, handed_in, new_translator, offered};

use crate::names::Names;
use crate::record::Record;
use crate::translator::Translator;
use datagram_port::{Port, Received, Sender};
use gatekeeping::{Older, PLACES};
use vote_wire::ClusterKey;

/// A node's port over another one. It translates members' datagrams, and passes on those of clients unchanged. It keeps
/// a record of the events that the port below received and of the node's offers. What it handed in and what the port
/// below was offered follow from the record.
#[derive(Drop)]
pub struct NamedPort<'k, P: Port + Drop> {
    /// The port below. Tests read what it was offered.
    pub(crate) port: P,
    translator: Translator<'k>,
    calls: Record,
    ghost after: { IsAfter (P.events port) translator calls.events },
}

/// Translates a receive of the port below. A member's datagram without a translation has no bytes then.
fn translate(
    translator: &mut Translator<'_>,
    received: Received,
    buffer: &mut [u8; 512],
) -> Received
    requires { IsWithin received }
    ensures within { IsWithin result }
    ensures quiet { result ≡ Quiet → received ≡ Quiet }
    ensures handed { event_of_receive result buffer.new
        ≡ handed_in translator.old (event_of_receive received buffer.old) }
    ensures after { translator.new ≡ after_event translator.old (event_of_receive received buffer.old) }
{
    match received {
        Received::Datagram { sender, len } => match sender {
            Sender::Peer(member) => {
                let Some(bytes) = translator.numbered(member, &buffer[..len]) else {
                    return Received::Datagram { sender, len: 0 };
                };
                let len = bytes.len();
                buffer[..len].copy_from_slice(&bytes);
                Received::Datagram { sender, len }
            }
            Sender::Client(_) => received,
        },
        Received::Quiet | Received::Fault => received,
    }
}

/// Translates an offer of the node, and offers it to the port below. Returns false if it has no translation.
fn offer<P: Port>(port: &mut P, translator: &Translator<'_>, to: Sender, bytes: &[u8]) -> bool
    ensures offers { Grows (P.events port.old) (P.events port.new) (offered translator.now to bytes.now) }
    ensures stays { P.setup port.new ≡ P.setup port.old }
{
    match to {
        Sender::Peer(_) => match translator.named(bytes) {
            Some(named) => port.send(to, &named),
            None => false,
        },
        Sender::Client(_) => port.send(to, bytes),
    }
}

impl<'k, P: Port + Drop> NamedPort<'k, P> {
    /// Returns a port over `port`, which has received and offered nothing yet, for the node `me` in `boot` with the
    /// names of its book. `known` has the greatest boot in which each member was heard before, from member 0 to 9, or
    /// 0.
    pub fn new(
        port: P,
        key: &'k ClusterKey,
        names: &'k Names,
        me: u8,
        boot: u64,
        known: [u64; PLACES],
    ) -> Self
        requires { IfSome (P.events port) (λ events. events ≡ []) }
        ensures port { result.port ≡ port }
        ensures translator { result.translator ≡ new_translator key.now names.now me boot known }
        ensures calls { result.calls.events ≡ [] }
    {
        NamedPort {
            port,
            translator: Translator::new(key, names, me, boot, known),
            calls: Record::new(),
        }
    }

    /// Returns the last dropped datagram of an older boot since the last call, or None.
    pub fn take_older(&mut self) -> Option<Older>
        ensures older { result ≡ self.old.translator.older }
        ensures translator { self.new.translator ≡ record self.old.translator { older = None } }
        ensures same { (self.new.port ≡ self.old.port) × (self.new.calls ≡ self.old.calls) }
    {
        self.translator.take_older()
    }

    /// Returns whether a datagram that the port can't read came from each member since the last call, from member 0
    /// to 9.
    pub fn take_differing(&mut self) -> [bool; PLACES]
        ensures members { result ≡ self.old.translator.differing }
        ensures translator { self.new.translator ≡ record self.old.translator { differing = nobody } }
        ensures same { (self.new.port ≡ self.old.port) × (self.new.calls ≡ self.old.calls) }
    {
        self.translator.take_differing()
    }

    /// Returns the greatest boot in which each member was heard or was known at the start, from member 0 to 9, or 0.
    pub fn heard(&self) -> [u64; PLACES]
        ensures { result ≡ self.now.translator.heard }
    {
        self.translator.heard()
    }

    /// Returns the port below.
    pub fn into_inner(self) -> P
        ensures port { result ≡ self.entry.port }
        ensures after { IsAfter (P.events result) self.entry.translator self.entry.calls.events }
    {
        let NamedPort { port, .. } = self;
        port
    }
}

impl<P: Port + Drop> Port for NamedPort<'_, P> {
    ghost use Rattle.std.specs.Prelude.{Some};
    ghost use Rattle.named_port.specs.Runs.{at_start, handed_events};
    ghost use Rattle.named_port.specs.Setup.{named_setup};

    ghost events = { λ port. Some (handed_events (at_start port.translator) port.calls.events) };

    ghost setup = { λ port. named_setup port.translator (P.setup port.port) };

    fn receive(&mut self, buffer: &mut [u8; 512]) -> Received
        ensures within { IsWithin result }
        ensures event { Grows (Some (handed_events (at_start self.old.translator) self.old.calls.events))
            (Some (handed_events (at_start self.new.translator) self.new.calls.events))
            (event_of_receive result buffer.new ∷ []) }
        ensures stays { named_setup self.new.translator (P.setup self.new.port)
            ≡ named_setup self.old.translator (P.setup self.old.port) }
        ensures receives { Receives (P.events self.old.port) (P.events self.new.port) self.old.translator
            self.new.translator (event_of_receive result buffer.new) }
    {
        let received = self.port.receive(buffer);
        self.calls.note_receive(&received, buffer.as_slice());
        translate(&mut self.translator, received, buffer)
    }

    fn poll(&mut self, buffer: &mut [u8; 512]) -> Option<Received>
        ensures within { IfSome result IsWithin }
        ensures waits { result ≢ Some Quiet }
        ensures event { Grows (Some (handed_events (at_start self.old.translator) self.old.calls.events))
            (Some (handed_events (at_start self.new.translator) self.new.calls.events))
            (entries_of_poll result buffer.new) }
        ensures stays { named_setup self.new.translator (P.setup self.new.port)
            ≡ named_setup self.old.translator (P.setup self.old.port) }
        ensures polls { Polls (P.events self.old.port) (P.events self.new.port) self.old.translator
            self.new.translator (option_map (λ received. event_of_receive received buffer.new) result) }
    {
        let Some(received) = self.port.poll(buffer) else {
            return None;
        };
        self.calls.note_receive(&received, buffer.as_slice());
        Some(translate(&mut self.translator, received, buffer))
    }

    fn send(&mut self, to: Sender, bytes: &[u8]) -> bool
        ensures event { Grows (Some (handed_events (at_start self.old.translator) self.old.calls.events))
            (Some (handed_events (at_start self.new.translator) self.new.calls.events))
            (Offered to bytes.now ∷ []) }
        ensures stays { named_setup self.new.translator (P.setup self.new.port)
            ≡ named_setup self.old.translator (P.setup self.old.port) }
        ensures offers { Grows (P.events self.old.port) (P.events self.new.port)
            (offered self.old.translator to bytes.now) }
        ensures same { self.new.translator ≡ self.old.translator }
    {
        self.calls.note_offer(&to, bytes);
        offer(&mut self.port, &self.translator, to, bytes)
    }
}
