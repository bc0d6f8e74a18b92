//! A record of a port's calls that only clauses read.

ghost use Rattle.std.specs.Prelude.{◌≡◌, ◌∷◌, ◌++◌, List, []};
ghost use Rattle.std.specs.Borrow.{ftrue};
ghost use Rattle.datagram_port.specs.Port.{Offered, PortEvent, event_of_receive};

use datagram_port::{Received, Sender};
use std::marker::{Model, PhantomData};

/// The events of a port, in order. It has no data and no code: only clauses read the list.
#[derive(Drop)]
pub(crate) struct Record {
    marker: PhantomData<u8>,
    pub ghost events: { List PortEvent },
}

impl Model for Record {
    ghost also_owns = { λ _. ftrue };
}

impl Record {
    /// Returns a record without events.
    pub(crate) fn new() -> Record
        ensures { result.events ≡ [] }
    {
        Record {
            marker: PhantomData,
        }
    }

    /// Appends the event of a receive that left `_buffer`.
    pub(crate) fn note_receive(&mut self, _received: &Received, _buffer: &[u8])
        ensures { self.new.events ≡ self.old.events ++ event_of_receive _received.now _buffer.now ∷ [] }
    {}

    /// Appends the event of an offered datagram.
    pub(crate) fn note_offer(&mut self, _to: &Sender, _bytes: &[u8])
        ensures { self.new.events ≡ self.old.events ++ Offered _to.now _bytes.now ∷ [] }
    {}
}
