//! A node's port that counts what passes.

ghost use Rattle.std.specs.Prelude.{◌≡◌, ◌≢◌, ◌∷◌, ◌≤◌, [], Some, IfSome, length, map};
ghost use Rattle.datagram_port.specs.declared.port.Received.TheVariants.{Quiet as QuietReceive};
ghost use Rattle.datagram_port.specs.declared.port.Sender.TheVariants.{Peer};
ghost use Rattle.datagram_port.specs.Port.{Grows, IsWithin, Offered, Received as ReceivedEvent, entries_of_poll, event_of_receive};
ghost use Rattle.count_port.specs.Batches.{Settles, SettlesAndTakes, Takes, no_batches};
ghost use Rattle.count_port.specs.Counts.{counts_after, ticks_of};
ghost use Rattle.count_port.specs.Members.{members_after, seen_of as seen_of_member, with_datagram};
ghost use Rattle.count_port.specs.Told.{Tells};
ghost use Rattle.count_port.specs.Unopened.{sums_of};
ghost use Rattle.sealed_port.specs.Aside.{oldest, others};
ghost use Rattle.sealed_port.specs.Causes.{nothing};

use crate::batches::Batches;
use crate::counts::Counts;
use crate::members::{Member, differ, hear, others_of, rest, seen_of};
use arrayvec::ArrayVec;
use datagram_port::{Port, Received, Sender};
use gatekeeping::{Counters, Fell, Gatekeeper, MAX_OTHERS, Older, PLACES, is_read};
use sealed_port::{SetAside, Unopened};
use std::time::Clock as TimeSource;
use vote_wire::ClusterKey;

/// A node's port over another one, which counts what passes. It reads a clock when a datagram came, and at the first
/// call after each batch.
#[derive(Drop)]
pub struct CountPort<'k, P: Gatekeeper + Drop, N: TimeSource> {
    port: P,
    key: &'k ClusterKey,
    /// The clock by which commits are measured.
    outside: &'k N,
    counts: Counts,
    batches: Batches,
    members: ArrayVec<Member, MAX_OTHERS>,
    /// The numbers of datagrams that the port below didn't open, since the process began.
    unopened: Unopened,
    /// Those of them that were not taken yet.
    untaken: Unopened,
}

/// Returns the sums of numbers, each at most `u64::MAX`.
fn sums_of(one: &Unopened, other: &Unopened) -> Unopened
    ensures { result ≡ sums_of one.now other.now }
{
    Unopened {
        form: one.form.saturating_add(other.form),
        tag: one.tag.saturating_add(other.tag),
        early: one.early.saturating_add(other.early),
        late: one.late.saturating_add(other.late),
        again: one.again.saturating_add(other.again),
        limited: one.limited.saturating_add(other.limited),
    }
}

/// Notes a datagram from the address of the member `number`.
fn note_datagram(
    members: &mut ArrayVec<Member, MAX_OTHERS>,
    key: &ClusterKey,
    number: u8,
    bytes: &[u8],
)
    ensures { members.new.items ≡ with_datagram key.now number bytes.now members.old.items }
{
    if bytes.is_empty() {
        return;
    }
    if is_read(key, number, bytes) {
        hear(members.as_mut_slice(), number);
    } else {
        differ(members.as_mut_slice(), number);
    }
}

/// Returns what a port tells of what it counted.
fn counters_of(
    counts: &Counts,
    batches: &Batches,
    unopened: &Unopened,
    members: &[Member],
) -> Counters
    requires { length members.now ≤ 8 }
    ensures { Tells counts.now batches.now unopened.now members.now result }
{
    Counters {
        received: counts.received,
        replied: counts.replied,
        accepted: counts.accepted,
        refused: counts.refused,
        ticks: counts.ticks(),
        largest_batch: batches.largest,
        commit_times: batches.times,
        unopened: *unopened,
        others: seen_of(members),
    }
}

impl<'k, P: Gatekeeper + Drop, N: TimeSource> CountPort<'k, P, N> {
    /// Returns a port over `port`, with the key of the node, its number, and the number of members. It measures commits
    /// by the monotonic clock of `outside`.
    pub fn new(port: P, key: &'k ClusterKey, me: u8, n: u8, outside: &'k N) -> Self
        ensures port { result.port ≡ port }
        ensures batches { result.batches ≡ no_batches }
    {
        CountPort {
            port,
            key,
            outside,
            counts: Counts::default(),
            batches: Batches::new(),
            members: others_of(me, n),
            unopened: Unopened::new(),
            untaken: Unopened::new(),
        }
    }

    /// Takes the numbers of datagrams that the port below didn't open.
    fn collect(&mut self)
        ensures untaken { self.new.untaken ≡ sums_of self.old.untaken (P.unopened self.old.port) }
        ensures unopened { self.new.unopened ≡ sums_of self.old.unopened (P.unopened self.old.port) }
        ensures zero { P.unopened self.new.port ≡ nothing }
        ensures older { P.older self.new.port ≡ P.older self.old.port }
        ensures fell { P.fell self.new.port ≡ P.fell self.old.port }
        ensures differing { P.differing self.new.port ≡ P.differing self.old.port }
        ensures aside { P.aside self.new.port ≡ P.aside self.old.port }
        ensures events { P.events self.new.port ≡ P.events self.old.port }
        ensures stays { P.setup self.new.port ≡ P.setup self.old.port }
        ensures same { (self.new.counts ≡ self.old.counts) × (self.new.batches ≡ self.old.batches)
            × (self.new.members ≡ self.old.members) }
    {
        let unopened = self.port.take_unopened();
        self.unopened = sums_of(&self.unopened, &unopened);
        self.untaken = sums_of(&self.untaken, &unopened);
    }

    /// Counts a receive.
    fn count(&mut self, received: Received, buffer: &[u8; 512])
        requires { IsWithin received }
        ensures counts { self.new.counts ≡ counts_after (event_of_receive received buffer.now) self.old.counts }
        ensures members { self.new.members.items
            ≡ members_after self.old.key.now (event_of_receive received buffer.now) self.old.members.items }
        ensures same { (self.new.port ≡ self.old.port) × (self.new.key ≡ self.old.key)
            × (self.new.unopened ≡ self.old.unopened) × (self.new.untaken ≡ self.old.untaken)
            × (self.new.outside ≡ self.old.outside) × (self.new.batches ≡ self.old.batches) }
    {
        match received {
            Received::Datagram { sender, len } => {
                self.counts.datagram();
                match sender {
                    Sender::Peer(number) => {
                        note_datagram(&mut self.members, self.key, number, &buffer[..len]);
                    }
                    Sender::Client(_) => {}
                }
            }
            Received::Quiet => {
                self.counts.quiet();
                rest(self.members.as_mut_slice());
            }
            Received::Fault => {}
        }
    }
}

impl<P: Gatekeeper + Drop, N: TimeSource> Port for CountPort<'_, P, N> {
    ghost events = { λ counted. P.events counted.port };

    ghost setup = { λ counted. P.setup counted.port };

    fn receive(&mut self, buffer: &mut [u8; 512]) -> Received
        ensures within { IsWithin result }
        ensures event { Grows (P.events self.old.port) (P.events self.new.port)
            (event_of_receive result buffer.new ∷ []) }
        ensures stays { P.setup self.new.port ≡ P.setup self.old.port }
        ensures counts { self.new.counts ≡ counts_after (event_of_receive result buffer.new) self.old.counts }
        ensures members { self.new.members.items
            ≡ members_after self.old.key.now (event_of_receive result buffer.new) self.old.members.items }
        ensures batches { SettlesAndTakes result self.old.batches self.new.batches }
    {
        self.batches.settle(self.outside);
        let received = self.port.receive(buffer);
        self.batches.take(received, self.outside);
        self.count(received, buffer);
        received
    }

    fn poll(&mut self, buffer: &mut [u8; 512]) -> Option<Received>
        ensures within { IfSome result IsWithin }
        ensures waits { result ≢ Some QuietReceive }
        ensures event { Grows (P.events self.old.port) (P.events self.new.port) (entries_of_poll result buffer.new) }
        ensures stays { P.setup self.new.port ≡ P.setup self.old.port }
        ensures counts { IfSome result (λ received.
            self.new.counts ≡ counts_after (event_of_receive received buffer.new) self.old.counts) }
        ensures batches { IfSome result (λ received. Takes received self.old.batches self.new.batches) }
    {
        let received = self.port.poll(buffer);
        if let Some(received) = received {
            self.batches.take(received, self.outside);
            self.count(received, buffer);
        }
        received
    }

    fn send(&mut self, to: Sender, bytes: &[u8]) -> bool
        ensures event { Grows (P.events self.old.port) (P.events self.new.port) (Offered to bytes.now ∷ []) }
        ensures stays { P.setup self.new.port ≡ P.setup self.old.port }
        ensures counts { self.new.counts ≡ counts_after (Offered to bytes.now) self.old.counts }
        ensures batches { Settles self.old.batches self.new.batches }
    {
        self.batches.settle(self.outside);
        match to {
            Sender::Client(_) => self.counts.answer(bytes),
            Sender::Peer(_) => {}
        }
        self.port.send(to, bytes)
    }
}

impl<P: Gatekeeper + Drop, N: TimeSource> Gatekeeper for CountPort<'_, P, N> {
    ghost use Rattle.count_port.specs.Unopened.{sums_of};

    ghost unopened = { λ counted. sums_of counted.untaken (P.unopened counted.port) };

    ghost older = { λ counted. P.older counted.port };

    ghost fell = { λ counted. P.fell counted.port };

    ghost gone_back = { λ counted. P.gone_back counted.port };

    ghost heard = { λ counted. P.heard counted.port };

    ghost opened = { λ counted. P.opened counted.port };

    ghost differing = { λ counted. P.differing counted.port };

    ghost aside = { λ counted. P.aside counted.port };

    ghost below = { λ counted. P.below counted.port };

    ghost reported = { λ counted. P.reported counted.port };

    fn take_unopened(&mut self) -> Unopened {
        self.collect();
        let unopened = self.untaken;
        self.untaken = Unopened::new();
        unopened
    }

    fn take_older(&mut self) -> Option<Older> {
        self.port.take_older()
    }

    fn take_fell(&mut self) -> Option<Fell> {
        self.port.take_fell()
    }

    fn gone_back(&self) -> [bool; PLACES] {
        self.port.gone_back()
    }

    fn heard(&self) -> [u64; PLACES] {
        self.port.heard()
    }

    fn opened(&self) -> u64 {
        self.port.opened()
    }

    fn take_differing(&mut self) -> [bool; PLACES] {
        self.port.take_differing()
    }

    fn take_request(&mut self) -> Option<SetAside>
        ensures request { result ≡ oldest (P.aside self.old.port) }
        ensures others { P.aside self.new.port ≡ others (P.aside self.old.port) }
        ensures unopened { sums_of self.new.untaken (P.unopened self.new.port)
            ≡ sums_of self.old.untaken (P.unopened self.old.port) }
        ensures older { P.older self.new.port ≡ P.older self.old.port }
        ensures fell { P.fell self.new.port ≡ P.fell self.old.port }
        ensures differing { P.differing self.new.port ≡ P.differing self.old.port }
        ensures events { P.events self.new.port ≡ P.events self.old.port }
        ensures stays { P.setup self.new.port ≡ P.setup self.old.port }
        ensures batches { Settles self.old.batches self.new.batches }
    {
        self.batches.settle(self.outside);
        self.port.take_request()
    }

    fn report(&mut self, request: &SetAside, page: &[u8]) -> bool
        ensures reports { Grows (P.below self.old.port) (P.below self.new.port)
            (P.reported self.old.port request.now page.now) }
        ensures unopened { sums_of self.new.untaken (P.unopened self.new.port)
            ≡ sums_of self.old.untaken (P.unopened self.old.port) }
        ensures older { P.older self.new.port ≡ P.older self.old.port }
        ensures fell { P.fell self.new.port ≡ P.fell self.old.port }
        ensures differing { P.differing self.new.port ≡ P.differing self.old.port }
        ensures aside { P.aside self.new.port ≡ P.aside self.old.port }
        ensures events { P.events self.new.port ≡ P.events self.old.port }
        ensures stays { P.setup self.new.port ≡ P.setup self.old.port }
        ensures batches { Settles self.old.batches self.new.batches }
    {
        self.batches.settle(self.outside);
        self.port.report(request, page)
    }

    fn drain(&mut self) {
        self.port.drain();
    }

    fn flush(&mut self)
        ensures events { P.events self.new.port ≡ P.events self.old.port }
        ensures stays { P.setup self.new.port ≡ P.setup self.old.port }
        ensures batches { Settles self.old.batches self.new.batches }
    {
        self.batches.settle(self.outside);
        self.port.flush();
    }

    fn counters(&mut self) -> Counters
        ensures unopened { sums_of self.new.untaken (P.unopened self.new.port)
            ≡ sums_of self.old.untaken (P.unopened self.old.port) }
        ensures older { P.older self.new.port ≡ P.older self.old.port }
        ensures fell { P.fell self.new.port ≡ P.fell self.old.port }
        ensures differing { P.differing self.new.port ≡ P.differing self.old.port }
        ensures aside { P.aside self.new.port ≡ P.aside self.old.port }
        ensures events { P.events self.new.port ≡ P.events self.old.port }
        ensures stays { P.setup self.new.port ≡ P.setup self.old.port }
        ensures batches { Settles self.old.batches self.new.batches }
        ensures tells { Tells self.old.counts self.new.batches self.new.unopened self.old.members.items result }
    {
        self.batches.settle(self.outside);
        self.collect();
        counters_of(&self.counts, &self.batches, &self.unopened, &self.members)
    }
}
