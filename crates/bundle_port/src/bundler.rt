//! The lanes of the members, and what is left of a received bundle.

ghost use Rattle.std.specs.Prelude.{◌≡◌, ◌≢◌, ◌≤◌, ◌==◌, length, nat_le, take, true};
ghost use Rattle.datagram_port.specs.Port.{IsWithin, Received as ReceivedEvent, event_of_receive};
ghost use Rattle.datagram_port.specs.declared.port.Received.TheVariants.{Quiet};
ghost use Rattle.datagram_port.specs.declared.port.Sender.TheVariants.{Peer};
ghost use Rattle.bundle_port.specs.Bundler as spec;

use crate::bundle::is_bundle;
use crate::lane::Lane;
use crate::left::Left;
use datagram_port::{Received, Sender};
use std::marker::Model;

/// The maximum number of members.
pub(crate) const MAX_MEMBERS: usize = 9;

/// The lanes of the members, and the parts of a received bundle that are left to hand in.
#[derive(Drop)]
pub(crate) struct Bundler {
    pub(crate) lanes: [Lane; MAX_MEMBERS],
    left: Left,
}

impl Model for Bundler {
    ghost use Rattle.std.specs.Prelude.{◌≡◌, length};
    ghost use Rattle.bundle_port.specs.Bundler.{BundlerRecord};

    ghost Value = { BundlerRecord };

    ghost view = { λ bundler. record { lanes = bundler.lanes; left = bundler.left } };

    ghost invariant = { λ bundler. length bundler.lanes ≡ 9 };
}

impl Bundler {
    /// Returns that all lanes are new, and that nothing is left.
    pub(crate) fn new() -> Self
        ensures { result ≡ spec.new_bundler }
    {
        Bundler {
            lanes: [
                Lane::new(),
                Lane::new(),
                Lane::new(),
                Lane::new(),
                Lane::new(),
                Lane::new(),
                Lane::new(),
                Lane::new(),
                Lane::new(),
            ],
            left: Left::new(),
        }
    }

    /// Returns whether no part is left to hand in.
    pub(crate) fn is_none_left(&self) -> bool
        ensures { result ≡ (length self.now.left.parts == 0) }
    {
        self.left.is_empty()
    }

    /// Hands in the next part that is left.
    pub(crate) fn hand_in(&mut self, buffer: &mut [u8; 512]) -> Received
        requires { nat_le 1 (length self.old.left.parts) ≡ true }
        ensures within { IsWithin result }
        ensures datagram { result ≢ Quiet }
        ensures handed { event_of_receive result buffer.new
            ≡ ReceivedEvent (Peer self.old.left.from) (spec.first_part self.old.left.parts) }
        ensures after { self.new ≡ spec.after_left self.old }
    {
        self.left.hand_in(buffer)
    }

    /// Takes a datagram of a member: hands in the first part of a bundle, or the same datagram.
    fn take_datagram(&mut self, member: u8, len: usize, buffer: &mut [u8; 512]) -> Received
        requires { len ≤ 512 }
        ensures within { IsWithin result }
        ensures datagram { result ≢ Quiet }
        ensures handed { event_of_receive result buffer.new
            ≡ spec.handed_in (ReceivedEvent (Peer member) (take len buffer.old)) }
        ensures after { self.new ≡ spec.after_event self.old (ReceivedEvent (Peer member) (take len buffer.old)) }
    {
        if !is_bundle(&buffer[..len]) {
            return Received::Datagram {
                sender: Sender::Peer(member),
                len,
            };
        }
        self.left.fill(member, &buffer[..len]);
        self.left.hand_in(buffer)
    }

    /// Takes a receive of the port below, and takes apart the bundle of a member.
    pub(crate) fn take(&mut self, received: Received, buffer: &mut [u8; 512]) -> Received
        requires { IsWithin received }
        ensures within { IsWithin result }
        ensures quiet { result ≡ Quiet → received ≡ Quiet }
        ensures handed { event_of_receive result buffer.new
            ≡ spec.handed_in (event_of_receive received buffer.old) }
        ensures after { self.new ≡ spec.after_event self.old (event_of_receive received buffer.old) }
    {
        match received {
            Received::Datagram { sender, len } => match sender {
                Sender::Peer(member) => self.take_datagram(member, len, buffer),
                Sender::Client(_) => received,
            },
            Received::Quiet | Received::Fault => received,
        }
    }
}
