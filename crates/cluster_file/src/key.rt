ghost use Rattle.std.specs.Prelude.{◌≡◌, IfOk};
ghost use Rattle.cluster_file.specs.ClusterFile.{cluster_value};
ghost use Rattle.cluster_file.specs.Key.{fingerprint_of, print_of, shared_key_of};
ghost use Rattle.cluster_file.specs.Shared.{shared_of};

use crate::cluster::Cluster;
use crate::shared::shared_text;
use hmac_core::{Hash, hmac};
use std::alloc::{AllocError, Global};
use token_file::Book;
use vote_wire::ClusterKey;

/// The number of bytes of a MAC that a print shows.
pub(crate) const PRINT_LEN: usize = 8;

/// Returns the shared key, under which members tag their datagrams.
///
/// It is HMAC-SHA-256 (RFC 2104) of the shared text of `cluster` and `book` under the cluster's key, all 32 bytes.
pub fn shared_key(
    alloc: Global,
    key: &ClusterKey,
    cluster: &Cluster,
    book: &Book,
) -> Result<ClusterKey, AllocError>
    ensures { IfOk result (λ shared.
        shared ≡ shared_key_of key.now (shared_of (cluster_value cluster.now) book.now)) }
{
    let text = shared_text(alloc, cluster, book)?;
    let mac = hmac(Hash::Sha256, key.as_slice(), &text);
    Ok(ClusterKey::new(mac.as_slice()).unwrap())
}

/// Returns the print of a text: the first 8 bytes of its HMAC-SHA-256 under the shared key, in hexadecimal.
pub(crate) fn print_of(shared_key: &ClusterKey, text: &[u8]) -> [u8; 2 * PRINT_LEN]
    ensures { result ≡ print_of shared_key.now text.now }
{
    let mac = hmac(Hash::Sha256, shared_key.as_slice(), text);
    let mut print = [0; 2 * PRINT_LEN];
    hex::encode_to_slice(&mac.as_slice()[..PRINT_LEN], &mut print).unwrap();
    print
}

/// Returns the fingerprint of a shared key, 16 hexadecimal digits that two sites compare.
///
/// They are the first 8 bytes of HMAC-SHA-256 of the word `fingerprint` under the shared key.
pub fn fingerprint(shared_key: &ClusterKey) -> [u8; 2 * PRINT_LEN]
    ensures { result ≡ fingerprint_of shared_key.now }
{
    print_of(shared_key, b"fingerprint")
}
