//! The calls of a port's socket, as a list that only clauses read.
//!
//! Each function calls the socket once, and notes what it handed to the socket and what the socket gave. No clause says
//! that the list has what the system call saw: a reader compares the two lines of each function.

ghost use Rattle.std.specs.Prelude.{◌≡◌, ◌≤◌, ◌++◌, ◌∷◌, [], List, ℕ, IfOk, length};
ghost use Rattle.std.specs.Borrow.{ftrue};
ghost use Rattle.udp_port.specs.Receipt.{heard_of};
ghost use Rattle.udp_port.specs.declared.calls.Call.{Call};

use datagram_port::Sender;
use std::io::{self, ErrorKind};
use std::marker::{Model, PhantomData};
use std::net::{SocketAddr, SocketAddrV4};

/// The result of a `recv_from`.
#[derive(Clone, Copy)]
pub(crate) enum Heard {
    /// A datagram from an IPv4 address, with its length in the buffer.
    Datagram { len: usize, address: SocketAddrV4 },
    /// A datagram from an IPv6 address.
    Other,
    /// A failure.
    Failed(ErrorKind),
}

/// A call of a port's socket with its result, or a turn of the port without a call.
#[derive(Clone, Copy)]
pub(crate) enum Call {
    /// A `recv_from`. In blocking mode it waits for a datagram.
    Hear { waits: bool, heard: Heard },
    /// A quiet turn without a wait, which was due.
    Turn,
    /// A quiet turn of a receive that passed over its maximum of datagrams.
    GivenUp,
    /// A receive for which the socket could not be switched to blocking mode.
    Stuck,
    /// A datagram to a member or a client, and whether the socket took it. Without an address `send_to` is not called.
    Send { to: Sender, is_taken: bool },
}

/// Returns the result of a `recv_from`.
pub(crate) fn heard_of(received: &io::Result<(usize, SocketAddr)>) -> Heard
    ensures { result ≡ heard_of received.now }
{
    match received {
        Ok((len, SocketAddr::V4(address))) => Heard::Datagram {
            len: *len,
            address: *address,
        },
        Ok((_, SocketAddr::V6(_))) => Heard::Other,
        Err(error) => Heard::Failed(error.kind()),
    }
}

/// The calls of a port's socket in order, each with the bytes of its buffer. It has no bytes itself.
#[derive(Drop)]
pub(crate) struct Calls {
    marker: PhantomData<u8>,
    pub(crate) ghost made: { List (Call × List ℕ) },
}

impl Model for Calls {
    ghost also_owns = { λ _. ftrue };
}

impl Calls {
    /// Returns a list of no call.
    pub(crate) fn new() -> Calls
        ensures { result.made ≡ [] }
    {
        Calls {
            marker: PhantomData,
        }
    }

    /// Appends a call with the bytes of its buffer. Does nothing that runs.
    pub(crate) fn note(&mut self, _call: &Call, _bytes: &[u8])
        ensures { self.new.made ≡ self.old.made ++ (_call.now, _bytes.now) ∷ [] }
    {}
}
