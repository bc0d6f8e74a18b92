use arrayvec::ArrayVec;
use vote_wire::MAX_SENT_LEN;

/// A datagram or a reply of a node.
#[derive(Debug, Drop, PartialEq, Eq)]
pub enum Item {
    /// A datagram to a member.
    Datagram {
        to: u8,
        bytes: ArrayVec<u8, MAX_SENT_LEN>,
    },
    /// A reply to a client.
    Reply {
        client: u64,
        bytes: ArrayVec<u8, MAX_SENT_LEN>,
    },
}
