//! A node's port that joins datagrams.

ghost use Rattle.std.specs.Prelude.{◌≡◌, ◌∷◌, ◌++◌, [], IfSome, Some};
ghost use Rattle.datagram_port.specs.Port.{Grows};
ghost use Rattle.bundle_port.specs.Bundler as spec;
ghost use Rattle.bundle_port.specs.Bundler.{new_bundler};
ghost use Rattle.bundle_port.specs.Runs.{Flush, IsAfter, handed_events};

use crate::bundle::is_part;
use crate::bundler::{Bundler, MAX_MEMBERS};
use crate::lane::Lane;
use crate::record::Record;
use crate::waiting::Waiting;
use datagram_port::{Port, Received, Sender};

/// A node's port over another one. It joins the datagrams to a member between two waits into one, and takes the bundles
/// of the other members apart. It sends a lone datagram to a member at once. A flush counts as a wait. The port keeps a
/// record of the calls. What it handed in and what the port below was offered follow from the record.
#[derive(Drop)]
pub struct BundlePort<P: Port + Drop> {
    /// The port below.
    pub(crate) port: P,
    bundler: Bundler,
    calls: Record,
    ghost after: { IsAfter (P.events port) bundler calls.calls },
}

/// Offers what waits for a member.
fn offer_waiting<P: Port>(port: &mut P, member: u8, waiting: &mut Waiting)
    ensures offers { Grows (P.events port.old) (P.events port.new) (spec.parts_offer member waiting.old) }
    ensures after { waiting.new ≡ [] }
    ensures stays { P.setup port.new ≡ P.setup port.old }
{
    if let Some(bytes) = waiting.datagram() {
        port.send(Sender::Peer(member), bytes);
    }
    waiting.clear();
}

/// Offers what waits for a member before a wait or at a flush, and counts the wait.
fn flush_lane<P: Port>(port: &mut P, member: u8, lane: &mut Lane)
    ensures offers { Grows (P.events port.old) (P.events port.new) (spec.parts_offer member lane.old.parts) }
    ensures after { lane.new ≡ spec.after_wait lane.old }
    ensures stays { P.setup port.new ≡ P.setup port.old }
{
    offer_waiting(port, member, &mut lane.waiting);
    lane.count_wait();
}

/// Offers all that waits, in the order of the members, and counts a wait of each lane.
fn flush_lanes<P: Port>(port: &mut P, bundler: &mut Bundler)
    ensures offers { Grows (P.events port.old) (P.events port.new) (spec.flush_offers bundler.old) }
    ensures after { bundler.new ≡ spec.after_flush bundler.old }
    ensures stays { P.setup port.new ≡ P.setup port.old }
{
    for place in 0..MAX_MEMBERS {
        flush_lane(port, place as u8 + 1, &mut bundler.lanes[place]);
    }
}

/// Offers what waits for a member if there is no room for another part.
fn make_room<P: Port>(port: &mut P, member: u8, waiting: &mut Waiting, bytes: &[u8])
    ensures offers { Grows (P.events port.old) (P.events port.new)
        (spec.room_offers member waiting.old bytes.now) }
    ensures after { waiting.new ≡ spec.parts_kept waiting.old bytes.now }
    ensures stays { P.setup port.new ≡ P.setup port.old }
{
    if !waiting.has_room(bytes) {
        offer_waiting(port, member, waiting);
    }
}

/// Lets a datagram to a member wait if it can be a part of a bundle. Else offers what waits, followed by the datagram.
/// Returns false if the port below didn't take the datagram.
fn join_to<P: Port>(port: &mut P, member: u8, waiting: &mut Waiting, bytes: &[u8]) -> bool
    ensures offers { Grows (P.events port.old) (P.events port.new)
        (spec.member_offers member waiting.old bytes.now) }
    ensures after { waiting.new ≡ spec.parts_after waiting.old bytes.now }
    ensures stays { P.setup port.new ≡ P.setup port.old }
{
    if !is_part(bytes) {
        offer_waiting(port, member, waiting);
        return port.send(Sender::Peer(member), bytes);
    }
    make_room(port, member, waiting, bytes);
    waiting.push(bytes);
    true
}

/// Takes an offer to a member. Offers the datagram at once if the member's lane is calm. Returns false if the port
/// below didn't take the datagram.
fn offer_to<P: Port>(port: &mut P, member: u8, lane: &mut Lane, bytes: &[u8]) -> bool
    ensures offers { Grows (P.events port.old) (P.events port.new) (spec.lane_offers member lane.old bytes.now) }
    ensures after { lane.new ≡ spec.lane_after lane.old bytes.now }
    ensures stays { P.setup port.new ≡ P.setup port.old }
{
    let at_once = lane.goes_at_once(bytes);
    lane.count_offer();
    if at_once {
        return port.send(Sender::Peer(member), bytes);
    }
    join_to(port, member, &mut lane.waiting, bytes)
}

/// Takes an offer of the node. Returns false if the port below didn't take the datagram.
fn offer<P: Port>(port: &mut P, bundler: &mut Bundler, to: Sender, bytes: &[u8]) -> bool
    ensures offers { Grows (P.events port.old) (P.events port.new) (spec.offers_at bundler.old to bytes.now) }
    ensures after { bundler.new ≡ spec.after_offer bundler.old to bytes.now }
    ensures stays { P.setup port.new ≡ P.setup port.old }
{
    let Sender::Peer(member) = to else {
        return port.send(to, bytes);
    };
    if member < 1 || member as usize > MAX_MEMBERS {
        return port.send(to, bytes);
    }
    let place = member as usize - 1;
    offer_to(port, member, &mut bundler.lanes[place], bytes)
}

impl<P: Port + Drop> BundlePort<P> {
    /// Returns a port over `port`, which has received and offered nothing yet.
    pub fn new(port: P) -> Self
        requires { IfSome (P.events port) (λ events. events ≡ []) }
        ensures port { result.port ≡ port }
        ensures bundler { result.bundler ≡ spec.new_bundler }
        ensures calls { result.calls.calls ≡ [] }
    {
        BundlePort {
            port,
            bundler: Bundler::new(),
            calls: Record::new(),
        }
    }

    /// Offers all that waits to the port below. The next wait offers nothing of it again.
    pub(crate) fn flush_all(&mut self)
        ensures offers { Grows (P.events self.old.port) (P.events self.new.port)
            (spec.flush_offers self.old.bundler) }
        ensures calls { self.new.calls.calls ≡ self.old.calls.calls ++ Flush ∷ [] }
        ensures events { Some (handed_events new_bundler self.new.calls.calls)
            ≡ Some (handed_events new_bundler self.old.calls.calls) }
        ensures stays { P.setup self.new.port ≡ P.setup self.old.port }
    {
        let bundler = &mut self.bundler;
        flush_lanes(&mut self.port, bundler);
        self.calls.note_flush();
    }

    /// Returns the port below. What waits is lost.
    pub fn into_inner(self) -> P
        ensures port { result ≡ self.port }
        ensures after { IsAfter (P.events result) self.bundler self.calls.calls }
    {
        let BundlePort { port, .. } = self;
        port
    }
}

impl<P: Port + Drop> Port for BundlePort<P> {
    ghost use Rattle.std.specs.Prelude.{Some};
    ghost use Rattle.bundle_port.specs.Bundler.{new_bundler};
    ghost use Rattle.bundle_port.specs.Runs.{handed_events};

    ghost events = { λ port. Some (handed_events new_bundler port.calls.calls) };

    ghost setup = { λ port. P.setup port.port };

    fn receive(&mut self, buffer: &mut [u8; 512]) -> Received {
        if !self.bundler.is_none_left() {
            self.calls.note_left();
            return self.bundler.hand_in(buffer);
        }
        flush_lanes(&mut self.port, &mut self.bundler);
        let received = self.port.receive(buffer);
        self.calls.note_wait(&received, buffer.as_slice());
        self.bundler.take(received, buffer)
    }

    fn poll(&mut self, buffer: &mut [u8; 512]) -> Option<Received> {
        if !self.bundler.is_none_left() {
            self.calls.note_left();
            return Some(self.bundler.hand_in(buffer));
        }
        let Some(received) = self.port.poll(buffer) else {
            return None;
        };
        self.calls.note_poll(&received, buffer.as_slice());
        Some(self.bundler.take(received, buffer))
    }

    fn send(&mut self, to: Sender, bytes: &[u8]) -> bool {
        self.calls.note_offer(&to, bytes);
        offer(&mut self.port, &mut self.bundler, to, bytes)
    }
}
