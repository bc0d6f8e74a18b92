use otp_core::Next;
use token_names::{NAME_LEN, Name};

/// The maximum number of rows of a floors file by names. A store by names has no more.
pub(crate) const MAX_NAMED_ROWS: u64 = 65_536;

/// The maximum length of a floors file by names, in bytes (`named_floors_fit`).
///
/// The first line has 183, of which the names word and the life have 64 each. Each of 65,536 rows has 86, each of 9
/// boots 28, and the line of the MAC 69.
pub const MAX_NAMED_FLOORS_LEN: u32 = 5_636_600;

/// The node whose floors were read, the time, and its cluster. Floor: the first free factor of a token at a node.
#[derive(Clone, Copy, Debug)]
pub struct NamedHead<'a> {
    /// The node, 1 to the number of members.
    pub node: u8,
    /// The number of members of the node's cluster, 1 to 9.
    pub members: u8,
    /// The last boot of the node, below 2^62.
    pub boot: u64,
    /// The time of reading, in seconds since 1970-01-01 00:00:00 UTC, below 2^40.
    pub moment: u64,
    /// The word under which the cluster's tokens have their names, 12 to 64 bytes.
    pub names: &'a [u8],
    /// The cluster's life, a word of 1 to 64 bytes.
    pub life: &'a [u8],
}

/// The floor of a name, with the token's seed.
#[derive(Clone, Copy, Debug, PartialEq, Eq)]
pub struct NamedFloor {
    /// The name of the token.
    pub name: Name,
    /// The seed of the token's secret, by which a token with another user is known again.
    pub seed: [u8; NAME_LEN],
    /// The floor.
    pub next: Next,
}

/// The greatest boot that the node heard of another member.
#[derive(Clone, Copy, Debug, PartialEq, Eq)]
pub struct HeardBoot {
    /// The member, 1 to the number of members, and not the node itself.
    pub member: u8,
    /// The boot, below 2^62.
    pub boot: u64,
}

/// The floors of a node by names, in the order of its rows.
#[derive(Debug, Drop)]
pub struct NamedFloors<'a> {
    /// The node, the time of reading, and the cluster.
    pub head: NamedHead<'a>,
    /// A row for each row of the store, at most 65,536, with distinct names.
    pub rows: Vec<NamedFloor>,
    /// The boots that the node heard, by ascending members.
    pub heard: Vec<HeardBoot>,
}
