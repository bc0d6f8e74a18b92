//! The parts of a received bundle that are left to hand in.

ghost use Rattle.std.specs.Prelude.{◌≡◌, ◌≢◌, ◌==◌, [], length, nat_le, true};
ghost use Rattle.datagram_port.specs.Port.{IsWithin, Received as ReceivedEvent, event_of_receive};
ghost use Rattle.datagram_port.specs.declared.port.Received.TheVariants.{Quiet};
ghost use Rattle.datagram_port.specs.declared.port.Sender.TheVariants.{Peer};
ghost use Rattle.bundle_port.specs.Bundle.{is_bundle, parts_or_itself};
ghost use Rattle.bundle_port.specs.Bundler.{after_first, first_part};

use crate::bundle::{HEAD_LEN, append};
use arrayvec::ArrayVec;
use datagram_port::{MAX_DATAGRAM_LEN, Received, Sender};
use std::marker::Model;

/// The parts of a received bundle that are left to hand in, and the member that sent it.
#[derive(Drop)]
pub(crate) struct Left {
    from: u8,
    bytes: ArrayVec<u8, MAX_DATAGRAM_LEN>,
    start: usize,
}

impl Model for Left {
    ghost use Rattle.std.specs.Prelude.{◌≡◌, true, drop, is_some};
    ghost use Rattle.bundle_port.specs.Bundle.{parts_behind, parts_from};
    ghost use Rattle.bundle_port.specs.Bundler.{LeftRecord};

    ghost Value = { LeftRecord };

    ghost view = { λ left. record { from = left.from; parts = parts_behind left.start left.bytes.items } };

    ghost invariant = { λ left. is_some (parts_from (drop left.start left.bytes.items) 0) ≡ true };
}

impl Left {
    /// Returns that no part is left.
    pub(crate) fn new() -> Self
        ensures { result ≡ record { from = 0; parts = [] } }
    {
        Left {
            from: 0,
            bytes: ArrayVec::new(),
            start: 0,
        }
    }

    /// Returns whether no part is left.
    pub(crate) fn is_empty(&self) -> bool
        ensures { result ≡ (length self.now.parts == 0) }
    {
        self.start >= self.bytes.len()
    }

    /// Takes the parts of a bundle of `member`.
    pub(crate) fn fill(&mut self, member: u8, bytes: &[u8])
        requires { is_bundle bytes.now ≡ true }
        ensures { self.new ≡ record { from = member; parts = parts_or_itself bytes.now } }
    {
        self.from = member;
        self.bytes.truncate(0);
        append(&mut self.bytes, bytes);
        self.start = HEAD_LEN;
    }

    /// Hands in the next part.
    pub(crate) fn hand_in(&mut self, buffer: &mut [u8; 512]) -> Received
        requires { nat_le 1 (length self.old.parts) ≡ true }
        ensures within { IsWithin result }
        ensures datagram { result ≢ Quiet }
        ensures handed { event_of_receive result buffer.new
            ≡ ReceivedEvent (Peer self.old.from) (first_part self.old.parts) }
        ensures after { self.new ≡ after_first self.old }
    {
        let len = self.bytes[self.start] as usize;
        let start = self.start + 1;
        let end = start + len;
        buffer[..len].copy_from_slice(&self.bytes[start..end]);
        self.start = end;
        Received::Datagram {
            sender: Sender::Peer(self.from),
            len,
        }
    }
}
