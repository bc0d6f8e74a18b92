//! The trait of a port, which a node receives datagrams from and sends them to.

/// The maximum number of bytes of a received datagram. A longer one is cut.
pub const MAX_DATAGRAM_LEN: usize = 512;

/// The sender or the receiver of a datagram.
#[derive(Clone, Copy, Debug, PartialEq, Eq)]
pub enum Sender {
    /// The member with the number.
    Peer(u8),
    /// The client with the number.
    Client(u64),
}

/// The result of a receive.
#[derive(Clone, Copy, Debug, PartialEq, Eq)]
pub enum Received {
    /// A datagram. The first `len` bytes of the buffer are its first bytes, at most 512.
    Datagram { sender: Sender, len: usize },
    /// A quiet turn: no datagram came in the port's time.
    Quiet,
    /// A failure of the port.
    Fault,
}

/// A port of datagrams. If it keeps a record of its calls, each call appends its entry. No call changes its setup.
pub trait Port {
    ghost use Rattle.std.specs.Prelude.{◌≡◌, ◌≢◌, ◌∷◌, [], List, Option, Some, None, IfSome};
    ghost use Rattle.datagram_port.specs.Port.{Grows, IsWithin, PortEvent, Offered, entries_of_poll, event_of_receive};
    ghost use Rattle.datagram_port.specs.Setup.{Setup};
    ghost use Rattle.datagram_port.specs.declared.port.Received.TheVariants.{Quiet as QuietReceive};

    // The received and offered datagrams, in order. None: the port keeps no record, or could not keep it.
    ghost events: { Self → Option (List PortEvent) } = { λ _. None };

    // The members and the clients that it takes, as long as it is used. None: the port tells nothing of them.
    ghost setup: { Self → Option Setup } = { λ _. None };

    /// Waits for a datagram for a limited time, and writes its first bytes to the buffer.
    fn receive(&mut self, buffer: &mut [u8; 512]) -> Received
        ensures within { IsWithin result }
        ensures event { Grows (events self.old) (events self.new) (event_of_receive result buffer.new ∷ []) }
        ensures stays { setup self.new ≡ setup self.old };

    /// Returns a queued datagram or a fault, or None if nothing is queued. Does not wait, and never returns `Quiet`.
    fn poll(&mut self, buffer: &mut [u8; 512]) -> Option<Received>
        ensures within { IfSome result IsWithin }
        ensures waits { result ≢ Some QuietReceive }
        ensures event { Grows (events self.old) (events self.new) (entries_of_poll result buffer.new) }
        ensures stays { setup self.new ≡ setup self.old }
    {
        let _nothing = buffer;
        None
    }

    /// Offers a datagram to the port, and returns whether the port took it. A datagram that it didn't take is lost.
    fn send(&mut self, to: Sender, bytes: &[u8]) -> bool
        ensures event { Grows (events self.old) (events self.new) (Offered to bytes.now ∷ []) }
        ensures stays { setup self.new ≡ setup self.old };
}
