//! A record of a port's calls that only clauses read.

ghost use Rattle.std.specs.Prelude.{◌≡◌, ◌∷◌, ◌++◌, List, [], ℕ};
ghost use Rattle.std.specs.Borrow.{ftrue};
ghost use Rattle.datagram_port.specs.Port.{event_of_receive};
ghost use Rattle.floor_port.specs.Packer.{StartRecord};
ghost use Rattle.floor_port.specs.Runs.{Call, Came, Left, Offer};

use datagram_port::{Received, Sender};
use std::marker::{Model, PhantomData};

/// The calls of a port, in order, and what it began with. It has no data and no code: only clauses read it.
#[derive(Drop)]
pub(crate) struct Record {
    marker: PhantomData<u8>,
    pub ghost start: { StartRecord },
    pub ghost calls: { List Call },
}

impl Model for Record {
    ghost also_owns = { λ _. ftrue };
}

impl Record {
    /// Returns a record without calls, floors, and known boots and members that went back.
    pub(crate) fn new() -> Record
        ensures { (result.start ≡ record { gone_back = []; known = []; floors = [] }) × (result.calls ≡ []) }
    {
        Record {
            marker: PhantomData,
        }
    }

    /// Notes the members that are known at the start to have gone back.
    pub(crate) fn note_gone_back(&mut self, _gone_back: &[bool])
        ensures { self.new ≡ record self.old { start = record self.old.start { gone_back = _gone_back.now } } }
    {}

    /// Notes the boots of the members that are known at the start.
    pub(crate) fn note_known(&mut self, _known: &[u64])
        ensures { self.new ≡ record self.old { start = record self.old.start { known = _known.now } } }
    {}

    /// Notes the floors at the start.
    pub(crate) fn note_floors(&mut self, _floors: &[u64])
        ensures { self.new ≡ record self.old { start = record self.old.start { floors = _floors.now } } }
    {}

    /// Appends a receive of the port below that left `_buffer`.
    pub(crate) fn note_receive(&mut self, _received: &Received, _buffer: &[u8])
        ensures { self.new ≡ record self.old {
          calls = self.old.calls ++ Came (event_of_receive _received.now _buffer.now) ∷ [];
        } }
    {}

    /// Appends a receive of a floor that was left.
    pub(crate) fn note_left(&mut self)
        ensures { self.new ≡ record self.old { calls = self.old.calls ++ Left ∷ [] } }
    {}

    /// Appends an offered datagram.
    pub(crate) fn note_offer(&mut self, _to: &Sender, _bytes: &[u8])
        ensures { self.new ≡ record self.old { calls = self.old.calls ++ Offer _to.now _bytes.now ∷ [] } }
    {}
}
