ghost use Rattle.std.specs.Prelude.{◌≡◌, ◌≤◌, length};

use floor_port::Membership;
use named_port::Names;
use otp_core::Next;
use vote_wire::ClusterKey;

/// What the ports between a node and its socket translate and tell by.
#[derive(Drop)]
pub(crate) struct Naming {
    pub(crate) key: ClusterKey,
    pub(crate) names: Names,
    pub(crate) node: Membership,
    /// The floor of each token at the start, in the order of the names. Floor: the first free factor of a token.
    pub(crate) floors: Vec<Next>,
    ghost few: { length floors.items ≤ 10000 },
    ghost each: { length floors.items ≡ length names },
}

/// What a node calls a token in what it says to the other members.
#[derive(Clone, Copy, Drop)]
pub(crate) enum Speech<'n> {
    /// The place of the token in the users file. The node tags its datagrams under the key.
    Places(&'n ClusterKey),
    /// The name of the token.
    Names(&'n Naming),
}
