use sealed_wire::{ClientKey, Right};

/// A client that may send sealed lines.
#[derive(Debug, Drop)]
pub struct ClientEntry {
    /// The number that its datagrams name.
    pub number: u16,
    /// The key that it shares with the nodes.
    pub key: ClientKey,
}

/// An operator that may send sealed requests.
#[derive(Debug, Drop)]
pub struct OperatorEntry {
    /// The number that its datagrams name.
    pub number: u16,
    /// The key that it shares with the nodes.
    pub key: ClientKey,
    /// The requests that it may send.
    pub right: Right,
}

/// The content of a clients file.
#[derive(Drop)]
pub struct Clients {
    /// The clients that may send sealed lines: at most 64, with different numbers and keys.
    pub clients: Vec<ClientEntry>,
    /// The operators that may send sealed requests. Clients and operators together are at most 64, with different
    /// numbers and keys.
    pub operators: Vec<OperatorEntry>,
    /// The IPv4 addresses from which lines are taken plainly: at most 16, all in 127.0.0.0/8.
    pub plain: Vec<u32>,
    /// The number of seconds by which a line's moment may be ahead of the node's clock: 1 to 60.
    pub ahead: u8,
    /// The maximum number of failures of a client in a minute, 1 to 65,535, or None without a limit.
    pub failures: Option<u64>,
}
