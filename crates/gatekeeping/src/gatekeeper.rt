//! The trait of a port that tells which datagrams it passed over, and that operators ask.

ghost use Rattle.std.specs.Prelude.{◌≡◌, None};
ghost use Rattle.gatekeeping.specs.Members.{nobody};
ghost use Rattle.sealed_port.specs.Causes.{nothing};

use crate::counters::Counters;
use datagram_port::{Clock, ListPort, Port};
use sealed_port::{SealedPort, SetAside, Unopened};
use std::time::Clock as TimeSource;
use udp_port::UdpPort;

/// A member's datagram that was dropped, since the member was heard in a greater boot.
#[derive(Clone, Copy, Debug, PartialEq, Eq)]
pub struct Older {
    /// The member.
    pub member: u8,
    /// The boot of the datagram.
    pub boot: u64,
}

/// A member whose floor of a token fell: it went back to an old store.
#[derive(Clone, Copy, Debug, Default, PartialEq, Eq)]
pub struct Fell {
    /// The member.
    pub member: u8,
    /// The name of the token.
    pub name: [u8; 16],
}

/// The number of places for members: member 0, which there is not, to member 9.
pub const PLACES: usize = 10;

/// A port that may pass over datagrams, and counts them. The requests of operators may wait in it.
pub trait Gatekeeper: Port {
    ghost use Rattle.std.specs.Prelude.{◌≡◌, ℕ, Bool, List, [], Option, None};
    ghost use Rattle.datagram_port.specs.Port.{Grows, PortEvent};
    ghost use Rattle.gatekeeping.specs.Members.{nobody_heard};
    ghost use Rattle.gatekeeping.specs.Members.{nobody};
    ghost use Rattle.gatekeeping.specs.declared.gatekeeper.Fell.{Fell as FellMember};
    ghost use Rattle.gatekeeping.specs.declared.gatekeeper.Older.{Older as OlderDatagram};
    ghost use Rattle.sealed_port.specs.Aside.{AsideRecord, oldest, others};
    ghost use Rattle.sealed_port.specs.Causes.{nothing};
    ghost use Rattle.sealed_port.specs.declared.cause.Unopened.{Unopened as UnopenedCounts};

    // The numbers of datagrams that it didn't open since they were last taken. By default the port opens everything.
    ghost unopened: { Self → UnopenedCounts } = { λ _. nothing };

    // The last datagram of an older boot since it was last taken. By default the port drops none.
    ghost older: { Self → Option OlderDatagram } = { λ _. None };

    // The first member whose floor fell that wasn't taken yet. By default the port sees no floors.
    ghost fell: { Self → Option FellMember } = { λ _. None };

    // The members that went back, from member 0 to 9. By default the port sees no floors.
    ghost gone_back: { Self → List Bool } = { λ _. nobody };

    // The greatest boot in which each member was heard, from member 0 to 9, or 0. By default the port reads no boots.
    ghost heard: { Self → List ℕ } = { λ _. nobody_heard };

    // The latest moment of all sealed lines and requests that it opened, or one after it. By default the port opens
    // nothing.
    ghost opened: { Self → ℕ } = { λ _. 0 };

    // Whether it passed over a datagram of each member that it can't read since they were last taken, from member 0 to
    // 9. By default the port reads everything.
    ghost differing: { Self → List Bool } = { λ _. nobody };

    // The requests of operators that wait, the oldest first. By default the port opens none.
    ghost aside: { Self → List AsideRecord } = { λ _. [] };

    // The record of the port that takes the reports. By default it keeps none.
    ghost below: { Self → Option (List PortEvent) } = { λ _. None };

    // What is offered to that port for a page as the report on a request. By default there are no reports.
    ghost reported: { Self → AsideRecord → List ℕ → List PortEvent } = { λ _ _ _. [] };

    /// Returns the numbers of datagrams that the port didn't open since the last call, and sets them to zero.
    fn take_unopened(&mut self) -> Unopened
        ensures numbers { result ≡ unopened self.old }
        ensures zero { unopened self.new ≡ nothing }
        ensures older { older self.new ≡ older self.old }
        ensures fell { fell self.new ≡ fell self.old }
        ensures differing { differing self.new ≡ differing self.old }
        ensures aside { aside self.new ≡ aside self.old }
        ensures events { Self.events self.new ≡ Self.events self.old }
        ensures stays { Self.setup self.new ≡ Self.setup self.old };

    /// Returns the last datagram since the last call that the port dropped because of its boot, or None.
    fn take_older(&mut self) -> Option<Older>
        ensures last { result ≡ older self.old }
        ensures none { older self.new ≡ None }
        ensures unopened { unopened self.new ≡ unopened self.old }
        ensures fell { fell self.new ≡ fell self.old }
        ensures differing { differing self.new ≡ differing self.old }
        ensures aside { aside self.new ≡ aside self.old }
        ensures events { Self.events self.new ≡ Self.events self.old }
        ensures stays { Self.setup self.new ≡ Self.setup self.old };

    /// Returns the first member whose floor of a token fell that no call returned before, or None.
    fn take_fell(&mut self) -> Option<Fell>
        ensures first { result ≡ fell self.old }
        ensures unopened { unopened self.new ≡ unopened self.old }
        ensures older { older self.new ≡ older self.old }
        ensures differing { differing self.new ≡ differing self.old }
        ensures aside { aside self.new ≡ aside self.old }
        ensures events { Self.events self.new ≡ Self.events self.old }
        ensures stays { Self.setup self.new ≡ Self.setup self.old };

    /// Returns which members went back to an old store, from member 0 to 9.
    fn gone_back(&self) -> [bool; PLACES]
        ensures { result ≡ gone_back self.now };

    /// Returns the greatest boot in which each member was heard, from member 0 to 9, or 0.
    fn heard(&self) -> [u64; PLACES]
        ensures { result ≡ heard self.now };

    /// Returns the latest moment of all sealed lines and requests that the port opened, or one after it.
    fn opened(&self) -> u64
        ensures { result ≡ opened self.now };

    /// Returns whether a datagram that the port can't read came from each member since the last call, from member 0
    /// to 9.
    fn take_differing(&mut self) -> [bool; PLACES]
        ensures members { result ≡ differing self.old }
        ensures nobody { differing self.new ≡ nobody }
        ensures unopened { unopened self.new ≡ unopened self.old }
        ensures older { older self.new ≡ older self.old }
        ensures fell { fell self.new ≡ fell self.old }
        ensures aside { aside self.new ≡ aside self.old }
        ensures events { Self.events self.new ≡ Self.events self.old }
        ensures stays { Self.setup self.new ≡ Self.setup self.old };

    /// Removes and returns the oldest request of an operator that waits, or returns None if there is none.
    fn take_request(&mut self) -> Option<SetAside>
        ensures request { result ≡ oldest (aside self.old) }
        ensures others { aside self.new ≡ others (aside self.old) }
        ensures unopened { unopened self.new ≡ unopened self.old }
        ensures older { older self.new ≡ older self.old }
        ensures fell { fell self.new ≡ fell self.old }
        ensures differing { differing self.new ≡ differing self.old }
        ensures events { Self.events self.new ≡ Self.events self.old }
        ensures stays { Self.setup self.new ≡ Self.setup self.old };

    /// Returns what the port counted since the process began. By default it counts nothing.
    fn counters(&mut self) -> Counters
        ensures unopened { unopened self.new ≡ unopened self.old }
        ensures older { older self.new ≡ older self.old }
        ensures fell { fell self.new ≡ fell self.old }
        ensures differing { differing self.new ≡ differing self.old }
        ensures aside { aside self.new ≡ aside self.old }
        ensures events { Self.events self.new ≡ Self.events self.old }
        ensures stays { Self.setup self.new ≡ Self.setup self.old }
    {
        Counters::none()
    }

    /// Offers what the port holds back to the port below. By default it holds nothing back. As at a send, nothing is
    /// said of what it passed over.
    fn flush(&mut self)
        ensures events { Self.events self.new ≡ Self.events self.old }
        ensures stays { Self.setup self.new ≡ Self.setup self.old }
    {}

    /// Answers `BUSY` from now on to each new line of a client that speaks sealed, if the port has such clients. Hands
    /// in an empty datagram of member 0 in its place. By default nothing changes.
    fn drain(&mut self)
        ensures unopened { unopened self.new ≡ unopened self.old }
        ensures older { older self.new ≡ older self.old }
        ensures fell { fell self.new ≡ fell self.old }
        ensures differing { differing self.new ≡ differing self.old }
        ensures aside { aside self.new ≡ aside self.old }
        ensures events { Self.events self.new ≡ Self.events self.old }
        ensures stays { Self.setup self.new ≡ Self.setup self.old }
    {}

    /// Sends a page as the report on a request, and returns whether it was taken. A report is no offer of the node.
    fn report(&mut self, request: &SetAside, page: &[u8]) -> bool
        ensures reports { Grows (below self.old) (below self.new) (reported self.old request.now page.now) }
        ensures unopened { unopened self.new ≡ unopened self.old }
        ensures older { older self.new ≡ older self.old }
        ensures fell { fell self.new ≡ fell self.old }
        ensures differing { differing self.new ≡ differing self.old }
        ensures aside { aside self.new ≡ aside self.old }
        ensures events { Self.events self.new ≡ Self.events self.old }
        ensures stays { Self.setup self.new ≡ Self.setup self.old };
}

impl Gatekeeper for ListPort<'_> {
    fn take_unopened(&mut self) -> Unopened {
        Unopened::new()
    }

    fn take_older(&mut self) -> Option<Older> {
        None
    }

    fn take_fell(&mut self) -> Option<Fell> {
        None
    }

    fn gone_back(&self) -> [bool; PLACES] {
        [false; PLACES]
    }

    fn heard(&self) -> [u64; PLACES] {
        [0; PLACES]
    }

    fn opened(&self) -> u64 {
        0
    }

    fn take_differing(&mut self) -> [bool; PLACES] {
        [false; PLACES]
    }

    fn take_request(&mut self) -> Option<SetAside> {
        None
    }

    fn report(&mut self, _request: &SetAside, _page: &[u8]) -> bool {
        false
    }
}

impl<R: TimeSource + Drop> Gatekeeper for UdpPort<R> {
    fn take_unopened(&mut self) -> Unopened {
        Unopened::new()
    }

    fn take_older(&mut self) -> Option<Older> {
        None
    }

    fn take_fell(&mut self) -> Option<Fell> {
        None
    }

    fn gone_back(&self) -> [bool; PLACES] {
        [false; PLACES]
    }

    fn heard(&self) -> [u64; PLACES] {
        [0; PLACES]
    }

    fn opened(&self) -> u64 {
        0
    }

    fn take_differing(&mut self) -> [bool; PLACES] {
        [false; PLACES]
    }

    fn take_request(&mut self) -> Option<SetAside> {
        None
    }

    fn report(&mut self, _request: &SetAside, _page: &[u8]) -> bool {
        false
    }
}

impl<P: Port + Drop, C: Clock + Drop> Gatekeeper for SealedPort<P, C> {
    ghost use Rattle.sealed_port.specs.Latest.{latest_in};
    ghost use Rattle.sealed_port.specs.Port.{offer_of};
    ghost use Rattle.sealed_port.specs.Requests.{reported as sealed_report};

    ghost unopened = { λ port. port.unopened };

    ghost opened = { λ port. latest_in port.gate };

    ghost aside = { λ port. port.gate.aside };

    ghost below = { λ port. P.events port.port };

    ghost reported = { λ port request page. offer_of (sealed_report port.gate request page) };

    fn take_unopened(&mut self) -> Unopened {
        SealedPort::take_unopened(self)
    }

    fn take_older(&mut self) -> Option<Older> {
        None
    }

    fn take_fell(&mut self) -> Option<Fell> {
        None
    }

    fn gone_back(&self) -> [bool; PLACES] {
        [false; PLACES]
    }

    fn heard(&self) -> [u64; PLACES] {
        [0; PLACES]
    }

    fn opened(&self) -> u64 {
        SealedPort::latest(self)
    }

    fn take_differing(&mut self) -> [bool; PLACES] {
        [false; PLACES]
    }

    fn take_request(&mut self) -> Option<SetAside> {
        SealedPort::take_request(self)
    }

    fn drain(&mut self) {
        SealedPort::drain(self);
    }

    fn report(&mut self, request: &SetAside, page: &[u8]) -> bool {
        SealedPort::report(self, request, page)
    }
}
