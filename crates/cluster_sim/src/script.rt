use otp_core::Next;
use std::fmt;

/// An act at a node. Nodes have numbers from 1 on. An act that names no node of the run, or no datagram that was sent,
/// has no effect.
#[derive(Clone, Copy)]
pub enum Act<'a> {
    /// A client's line, with its moment in seconds since 1970-01-01 00:00:00 UTC.
    Client {
        node: u64,
        client: u64,
        moment: u64,
        line: &'a [u8],
    },
    /// The delivery of the datagram number `k` to `node`, from its sender's address. Datagrams have numbers from 0 on,
    /// in the order of sending.
    Deliver {
        node: u64,
        k: u64,
    },
    /// The passage of some time.
    Tick {
        node: u64,
    },
    /// Bytes from the address of the node `from`. They have no effect if they are a datagram of that node under the
    /// cluster's key, or if `from` is above 255.
    Noise {
        node: u64,
        from: u64,
        bytes: &'a [u8],
    },
}

/// Shows no byte of a client's line, because it may have codes and a password.
impl<'a> fmt::Debug for Act<'a> {
    fn fmt<W: fmt::Write>(&self, f: &mut fmt::Formatter<W>) -> fmt::Result {
        match self {
            Act::Client {
                node,
                client,
                moment,
                ..
            } => f
                .debug_struct("Client")
                .field("node", node)
                .field("client", client)
                .field("moment", moment)
                .finish_non_exhaustive(),
            Act::Deliver { node, k } => f
                .debug_struct("Deliver")
                .field("node", node)
                .field("k", k)
                .finish(),
            Act::Tick { node } => f.debug_struct("Tick").field("node", node).finish(),
            Act::Noise { node, from, bytes } => f
                .debug_struct("Noise")
                .field("node", node)
                .field("from", from)
                .field("bytes", bytes)
                .finish(),
        }
    }
}

/// An event of a script.
#[derive(Clone, Copy, Debug)]
pub enum WorldEvent<'a> {
    Happens(Act<'a>),
    /// A stop inside the act. The node's change is kept or lost, its datagrams and replies are lost, and it restarts.
    Cut {
        kept: bool,
        act: Act<'a>,
    },
    /// A restart of a node, which loses its waiting lines and its kept answers.
    Restart {
        node: u64,
    },
    /// The loss of a node's store. The node does nothing more.
    Lost {
        node: u64,
    },
    /// A replacement of a lost node's store at `boot`, on which the node opens. `floors` has a floor (first free
    /// factor) for each token from 0 on, and a missing one is 0.
    ///
    /// The event has no effect in these cases:
    ///
    /// - A majority of the nodes is lost.
    /// - The node used `boot` or a later boot before.
    /// - `boot` is above 2^62 - 1.
    /// - A floor is below one that another node had at the latest loss.
    Anew {
        node: u64,
        boot: u64,
        floors: &'a [Next],
    },
}
