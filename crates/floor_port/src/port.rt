//! A node's port that tells floors in bulk.

ghost use Rattle.std.specs.Option.{option_map};
ghost use Rattle.std.specs.Prelude.{◌≡◌, ◌≤◌, ◌∷◌, [], ◌≢◌, Some, None, IfOk, IfSome, drop, length, slice_get};
ghost use Rattle.datagram_port.specs.Port.{Grows, IsWithin, Offered, entries_of_poll, event_of_receive};
ghost use Rattle.datagram_port.specs.declared.port.Received.TheVariants.{Quiet};
ghost use Rattle.floor_port.specs.Claims.{with_fell};
ghost use Rattle.floor_port.specs.Packer.{after_event, body_offers, handed_in, member_offer, new_packer, told_at};
ghost use Rattle.floor_port.specs.Packer as spec;
ghost use Rattle.floor_port.specs.Rows.{after_turn, next_floors};
ghost use Rattle.floor_port.specs.Runs.{AreUntold, IsAfter, at_start, fells_over, handed_events};
ghost use Rattle.floor_port.specs.Setup.{telling_setup};

use crate::falls::Falls;
use crate::packer::{Membership, Packer};
use crate::record::Record;
use datagram_port::{Port, Received, Sender};
use gatekeeping::{Fell, PLACES};
use named_port::Names;
use otp_core::Next;
use std::alloc::{AllocError, Global};
use vote_wire::ClusterKey;

/// A node's port over another one. At each quiet turn it tells the other members floors of the node, and it unpacks the
/// floors that they tell. It keeps a record of the calls. What it handed in and what the port below was offered follow
/// from the record.
#[derive(Drop)]
pub struct FloorPort<'k, P: Port + Drop> {
    /// The port below. Tests read what it was offered.
    pub(crate) port: P,
    packer: Packer<'k>,
    falls: Falls,
    calls: Record,
    ghost places: { length calls.start.gone_back ≡ 10 },
    ghost after: { IsAfter (P.events port) packer (at_start packer calls.start) calls.calls },
    ghost untold: { AreUntold falls (fells_over (at_start packer calls.start) calls.calls) },
}

/// Offers a body of floors to a member, unless it is the node itself.
fn tell_member<P: Port>(port: &mut P, packer: &Packer<'_>, to: u8, body: &[u8])
    requires { length body.now ≤ 481 }
    ensures offers { Grows (P.events port.old) (P.events port.new) (member_offer packer.now body.now to) }
    ensures stays { P.setup port.new ≡ P.setup port.old }
{
    if let Some(bytes) = packer.datagram_to(to, body) {
        port.send(Sender::Peer(to), &bytes);
    }
}

/// Offers a body of floors to each other member.
fn tell_members<P: Port>(port: &mut P, packer: &Packer<'_>, body: &[u8])
    requires { length body.now ≤ 481 }
    ensures offers { Grows (P.events port.old) (P.events port.new)
        (body_offers packer.now body.now 1 packer.now.members) }
    ensures stays { P.setup port.new ≡ P.setup port.old }
{
    for place in 0..packer.members() {
        tell_member(port, packer, place + 1, body);
    }
}

/// Tells the floors that are told next, if there are any.
fn tell_turn<P: Port>(port: &mut P, packer: &mut Packer<'_>)
    ensures offers { Grows (P.events port.old) (P.events port.new)
        (spec.offers_of packer.old (spec.body_of (next_floors packer.old.rows))) }
    ensures after { packer.new ≡ record packer.old { rows = after_turn packer.old.rows } }
    ensures stays { P.setup port.new ≡ P.setup port.old }
{
    if let Some(body) = packer.take_turn() {
        tell_members(port, packer, &body);
    }
}

/// Tells the floors that are due at a quiet turn. After it no row is fresh.
fn tell<P: Port>(port: &mut P, packer: &mut Packer<'_>)
    ensures offers { Grows (P.events port.old) (P.events port.new) (spec.turn_offers packer.old packer.old.rows
        (spec.turns_due packer.old)) }
    ensures after { packer.new ≡ spec.after_quiet_turn packer.old }
    ensures stays { P.setup port.new ≡ P.setup port.old }
{
    for _ in 0..packer.turns_due() {
        tell_turn(port, packer);
    }
    packer.note_quiet();
}

/// Takes a receive of the port below: unpacks the floors that it tells, and tells those that are due if it is quiet.
/// Notes the fall of a member.
fn take<P: Port>(
    port: &mut P,
    packer: &mut Packer<'_>,
    falls: &mut Falls,
    received: Received,
    buffer: &mut [u8; 512],
) -> Received
    requires { IsWithin received }
    ensures within { IsWithin result }
    ensures quiet { result ≡ Quiet → received ≡ Quiet }
    ensures handed { event_of_receive result buffer.new
        ≡ handed_in packer.old (event_of_receive received buffer.old) }
    ensures after { packer.new ≡ after_event packer.old (event_of_receive received buffer.old) }
    ensures fell { falls.new
        ≡ with_fell falls.old (spec.fell_at packer.old (event_of_receive received buffer.old)) }
    ensures offers { Grows (P.events port.old) (P.events port.new)
        (told_at packer.old (event_of_receive received buffer.old)) }
    ensures stays { P.setup port.new ≡ P.setup port.old }
{
    match received {
        Received::Datagram { sender, len } => match sender {
            Sender::Peer(member) => packer.take(member, len, buffer, falls),
            Sender::Client(_) => received,
        },
        Received::Quiet => {
            tell(port, packer);
            received
        }
        Received::Fault => received,
    }
}

impl<'k, P: Port + Drop> FloorPort<'k, P> {
    /// Returns a port over `port`, which has received and offered nothing yet, for a node whose store has `floors`, in
    /// the order of the names.
    ///
    /// # Errors
    /// Returns an error if the allocator refuses the memory.
    pub fn new(
        alloc: Global,
        port: P,
        key: &'k ClusterKey,
        names: &'k Names,
        node: Membership,
        floors: &[Next],
    ) -> Result<Self, AllocError>
        requires fresh { IfSome (P.events port) (λ events. events ≡ []) }
        requires few { length floors.now ≤ 10000 }
        requires each { length floors.now ≡ length names.now }
        ensures { IfOk result (λ made. (made.port ≡ port) × (made.falls ≡ [])
            × (made.packer ≡ new_packer key.now names.now node.me node.boot node.members made.calls.start)
            × (made.calls.start ≡ record { gone_back = node.gone_back; known = node.known; floors = floors.now })
            × (made.calls.calls ≡ [])) }
    {
        let packer = Packer::new(alloc, key, names, node, floors)?;
        let mut calls = Record::new();
        calls.note_gone_back(node.gone_back.as_slice());
        calls.note_known(node.known.as_slice());
        calls.note_floors(packer.told());
        Ok(FloorPort {
            port,
            packer,
            falls: Falls::new(),
            calls,
        })
    }

    /// Returns the first member whose floor of a token fell that no call returned before, or None.
    pub fn take_fell(&mut self) -> Option<Fell>
        ensures first { result ≡ slice_get self.old.falls 0 }
        ensures rest { self.new.falls ≡ drop 1 self.old.falls }
        ensures same { (self.new.port ≡ self.old.port) × (self.new.packer ≡ self.old.packer)
            × (self.new.calls ≡ self.old.calls) }
    {
        self.falls.take_first()
    }

    /// Returns the members that went back: a floor of each fell, or it was known at the start. From member 0 to 9.
    pub fn gone_back(&self) -> [bool; PLACES]
        ensures { result ≡ self.now.packer.claims.fallen }
    {
        self.packer.fallen()
    }

    /// Returns the port below.
    pub fn into_inner(self) -> P
        ensures port { result ≡ self.entry.port }
        ensures after { IsAfter (P.events result) self.entry.packer
            (at_start self.entry.packer self.entry.calls.start) self.entry.calls.calls }
    {
        let FloorPort { port, .. } = self;
        port
    }
}

impl<P: Port + Drop> Port for FloorPort<'_, P> {
    ghost use Rattle.std.specs.Prelude.{Some};
    ghost use Rattle.floor_port.specs.Runs.{at_start, handed_events};
    ghost use Rattle.floor_port.specs.Setup.{telling_setup};

    ghost events = { λ port. Some (handed_events (at_start port.packer port.calls.start) port.calls.calls) };

    ghost setup = { λ port. telling_setup port.packer port.calls.start (P.setup port.port) };

    fn receive(&mut self, buffer: &mut [u8; 512]) -> Received
        ensures within { IsWithin result }
        ensures event { Grows
            (Some (handed_events (at_start self.old.packer self.old.calls.start) self.old.calls.calls))
            (Some (handed_events (at_start self.new.packer self.new.calls.start) self.new.calls.calls))
            (event_of_receive result buffer.new ∷ []) }
        ensures stays { telling_setup self.new.packer self.new.calls.start (P.setup self.new.port)
            ≡ telling_setup self.old.packer self.old.calls.start (P.setup self.old.port) }
    {
        if let Some(sender) = self.packer.pending_from() {
            self.calls.note_left();
            return self.packer.hand_in(sender, buffer);
        }
        let received = self.port.receive(buffer);
        self.calls.note_receive(&received, buffer.as_slice());
        take(
            &mut self.port,
            &mut self.packer,
            &mut self.falls,
            received,
            buffer,
        )
    }

    fn poll(&mut self, buffer: &mut [u8; 512]) -> Option<Received> {
        if let Some(sender) = self.packer.pending_from() {
            self.calls.note_left();
            return Some(self.packer.hand_in(sender, buffer));
        }
        let Some(received) = self.port.poll(buffer) else {
            return None;
        };
        self.calls.note_receive(&received, buffer.as_slice());
        Some(take(
            &mut self.port,
            &mut self.packer,
            &mut self.falls,
            received,
            buffer,
        ))
    }

    fn send(&mut self, to: Sender, bytes: &[u8]) -> bool {
        self.calls.note_offer(&to, bytes);
        let is_taken = self.port.send(to, bytes);
        // The datagram is under way meanwhile.
        self.packer.note_offer(to, bytes);
        is_taken
    }
}
