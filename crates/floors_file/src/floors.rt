use otp_core::Next;

/// The maximum length of a floors file, in bytes (`floors_fit`): 53 for the first line, and 85 for each of 10,000 rows.
pub const MAX_FLOORS_LEN: u32 = 850_053;

/// The node whose floors were read, and the time. Floor: the first free factor of a token at a node.
#[derive(Clone, Copy, Debug, PartialEq, Eq)]
pub struct Head {
    /// The node, 1 to the number of members.
    pub node: u8,
    /// The number of members of the node's cluster, 1 to 9.
    pub members: u8,
    /// The last boot of the node, below 2^62.
    pub boot: u64,
    /// The time of reading, in seconds since 1970-01-01 00:00:00 UTC, below 2^40.
    pub moment: u64,
}

/// The floor of a user's token.
#[derive(Clone, Copy, Debug)]
pub struct Floor<'a> {
    /// The user, a word of 1 to 64 bytes.
    pub user: &'a [u8],
    /// The floor.
    pub next: Next,
}

/// The floors of a node, in the order of its rows.
#[derive(Debug, Drop)]
pub struct Floors<'a> {
    /// The node, and the time of reading.
    pub head: Head,
    /// A row for each token, at most 10,000, with distinct users.
    pub rows: Vec<Floor<'a>>,
}
