use std::fmt;

/// An event at a node.
#[derive(Clone, Copy)]
pub enum Event<'a> {
    /// A client's datagram, and the time of its arrival, in seconds since 1970-01-01 00:00:00 UTC.
    Client {
        client: u64,
        moment: u64,
        line: &'a [u8],
    },
    /// A datagram from the address of a member.
    Peer {
        from: u8,
        bytes: &'a [u8],
    },
    /// The passage of some time.
    Tick,
}

/// Shows no byte of a client's line, because it may have codes and a password.
impl<'a> fmt::Debug for Event<'a> {
    fn fmt<W: fmt::Write>(&self, f: &mut fmt::Formatter<W>) -> fmt::Result {
        match self {
            Event::Client { client, moment, .. } => f
                .debug_struct("Client")
                .field("client", client)
                .field("moment", moment)
                .finish_non_exhaustive(),
            Event::Peer { from, bytes } => f
                .debug_struct("Peer")
                .field("from", from)
                .field("bytes", bytes)
                .finish(),
            Event::Tick => f.write_str("Tick"),
        }
    }
}
