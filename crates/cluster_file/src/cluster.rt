use otp_core::Settings;
use std::net::SocketAddrV4;
use vote_wire::ClusterKey;

/// The place of a cluster's key.
#[derive(Debug, Drop)]
pub enum KeySource<'a> {
    /// The file at the path.
    File(&'a [u8]),
    /// The cluster file itself, with the key.
    Given(ClusterKey),
}

/// The content of a cluster file.
#[derive(Drop)]
pub struct Cluster<'a> {
    /// The addresses of the members: one to nine, all different. The first is member 1.
    pub members: Vec<SocketAddrV4>,
    /// The settings: how far the members look for a code.
    pub settings: Settings,
    /// The place of the key that the members share.
    pub key: KeySource<'a>,
    /// The `life`: a word of 1 to 64 bytes, which is new after every replacement of all databases.
    pub life: &'a [u8],
    /// The salt of the tokens' names, a word of 12 to 64 bytes, or None if the members know a token by its row.
    pub names: Option<&'a [u8]>,
    /// Whether the file has the line `new-tokens fresh`. It is no part of what the members share.
    pub fresh: bool,
}
