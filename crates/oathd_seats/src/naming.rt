use oathd_roster::NamedCluster;

/// How a command finds the row of a token in a store, and whose store it has to be.
#[derive(Clone, Copy)]
pub enum Naming<'n> {
    /// By its place in the users file. The store is the given node's, or without one that of the node which its tables
    /// name.
    ByPlace(Option<u8>),
    /// By its name. The store is the node's, and bound to the cluster.
    ByName(u8, &'n NamedCluster),
}
