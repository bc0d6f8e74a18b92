/// The maximum number of other members.
pub const MAX_OTHERS: usize = 8;

/// What a node sees of another member.
#[derive(Clone, Copy, Debug, Default, PartialEq, Eq)]
pub enum Seen {
    /// The number of seconds since the member's last datagram.
    Heard(u64),
    /// No datagram came of late.
    #[default]
    Silent,
    /// The member's tokens differ from the node's.
    Differs,
}

/// Another member, and what the node sees of it.
#[derive(Clone, Copy, Debug, Default, PartialEq, Eq)]
pub struct Other {
    pub number: u8,
    pub seen: Seen,
}
