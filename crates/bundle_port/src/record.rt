//! A record of a port's calls that only clauses read.

ghost use Rattle.std.specs.Prelude.{◌≡◌, ◌∷◌, ◌++◌, List, []};
ghost use Rattle.std.specs.Borrow.{ftrue};
ghost use Rattle.datagram_port.specs.Port.{event_of_receive};
ghost use Rattle.bundle_port.specs.Runs.{Call, Flush, Left, Offer, Polls, Waits};

use datagram_port::{Received, Sender};
use std::marker::{Model, PhantomData};

/// The calls of a port, in order. It has no data and no code: only clauses read it.
#[derive(Drop)]
pub(crate) struct Record {
    marker: PhantomData<u8>,
    pub ghost calls: { List Call },
}

impl Model for Record {
    ghost also_owns = { λ _. ftrue };
}

impl Record {
    /// Returns a record without calls.
    pub(crate) fn new() -> Record
        ensures { result.calls ≡ [] }
    {
        Record {
            marker: PhantomData,
        }
    }

    /// Appends a receive of the port below that left `_buffer`.
    pub(crate) fn note_wait(&mut self, _received: &Received, _buffer: &[u8])
        ensures { self.new.calls ≡ self.old.calls ++ Waits (event_of_receive _received.now _buffer.now) ∷ [] }
    {}

    /// Appends a poll of the port below that left `_buffer`.
    pub(crate) fn note_poll(&mut self, _received: &Received, _buffer: &[u8])
        ensures { self.new.calls ≡ self.old.calls ++ Polls (event_of_receive _received.now _buffer.now) ∷ [] }
    {}

    /// Appends a receive of a part that was left.
    pub(crate) fn note_left(&mut self)
        ensures { self.new.calls ≡ self.old.calls ++ Left ∷ [] }
    {}

    /// Appends a flush.
    pub(crate) fn note_flush(&mut self)
        ensures { self.new.calls ≡ self.old.calls ++ Flush ∷ [] }
    {}

    /// Appends an offered datagram.
    pub(crate) fn note_offer(&mut self, _to: &Sender, _bytes: &[u8])
        ensures { self.new.calls ≡ self.old.calls ++ Offer _to.now _bytes.now ∷ [] }
    {}
}
