//! Reads a cluster file, and the key that it gives or names.

ghost use Rattle.std.specs.Prelude.{◌≡◌, ◌≤◌, ◌<◌, [], length, IfErr, IfOk, None};
ghost use Rattle.cluster_file.specs.ClusterFile.{cluster_of, cluster_value};
ghost use Rattle.cluster_file.specs.Said.{key_place};
ghost use Rattle.oathd_tasks.specs.Check.{IsKeyIn, IsOfClusterFile};
ghost use Rattle.oathd_tasks.specs.File.{IsOfFile};
ghost use Rattle.oathd_tasks.specs.Nodes.{IsOfKey};
ghost use Rattle.oathd_tasks.specs.declared.fault.Fault.TheVariants.{NoMember};

use crate::fault::Fault;
use crate::key::{MAX_KEY_FILE_LEN, file_text, read_key};
use cluster_file::{Cluster, ClusterFault, KeySource, LineFault, read_cluster};
use std::alloc::Global;
use std::rt::Files;
use std::str;
use vote_core::Place;
use vote_wire::ClusterKey;

/// Returns the text of the cluster file at `path`, up to the first byte past 65,536. Returns no text without a path.
///
/// # Errors
/// - Returns `CannotReadFile` if the file cannot be opened or read.
/// - Returns `Run(Memory)` if the allocator refuses the memory.
pub fn cluster_text<'a, F: Files>(
    alloc: Global,
    files: &F,
    path: Option<&'a str>,
) -> Result<Vec<u8>, Fault<'a>>
    ensures none { path.entry ≡ None → IfOk result (λ text. text.items ≡ []) }
    ensures fault { IfErr result IsOfFile }
{
    match path {
        Some(path) => file_text(alloc, files, path, MAX_KEY_FILE_LEN),
        None => Ok(Vec::new(alloc)),
    }
}

/// Returns the cluster that the text of a cluster file describes.
///
/// # Errors
/// - Returns `ClusterFile` with the first fault of the text.
/// - Returns `Run(Memory)` if the allocator refuses the memory.
pub fn cluster_in(alloc: Global, text: &[u8]) -> Result<Cluster<'_>, Fault<'_>>
    ensures cluster { IfOk result (λ cluster. cluster_of text.now ≡ Ok (cluster_value cluster)) }
    ensures members { IfOk result (λ cluster.
        (1 ≤ length cluster.members.items) × (length cluster.members.items ≤ 9)) }
    ensures fault { IfErr result (IsOfClusterFile text.now) }
{
    match read_cluster(alloc, text) {
        Ok(cluster) => Ok(cluster),
        Err(
            ClusterFault {
                kind: LineFault::Memory,
                ..
            },
        ) => Err(Fault::Run(oathd_lines::Fault::Memory)),
        Err(fault) => Err(Fault::ClusterFile(fault)),
    }
}

/// Copies a key.
fn same_key(key: &ClusterKey) -> ClusterKey
    ensures { result ≡ key.now }
{
    ClusterKey::new(key.as_slice()).unwrap_or_else(ClusterKey::bare)
}

/// Returns the key of a cluster: the key in its file, or in the key file that it names.
///
/// # Errors
/// - Returns `KeyPath` if the path is not UTF-8.
/// - Returns the errors of [`read_key`].
pub fn cluster_key<'t, F: Files>(
    alloc: Global,
    files: &F,
    source: &KeySource<'t>,
) -> Result<ClusterKey, Fault<'t>>
    ensures key { IfOk result (IsKeyIn (key_place source.now)) }
    ensures fault { IfErr result IsOfKey }
{
    match source {
        KeySource::Given(key) => Ok(same_key(key)),
        KeySource::File(path) => match str::from_utf8(path) {
            Ok(path) => read_key(alloc, files, Some(path)),
            Err(_) => Err(Fault::KeyPath),
        },
    }
}

/// Returns the place of the node `node` among the members of a cluster.
///
/// # Errors
/// Returns `NoMember` if the cluster has fewer members.
pub fn member_place<'a>(cluster: &Cluster<'_>, node: u8) -> Result<Place, Fault<'a>>
    requires { 1 ≤ node }
    ensures place { IfOk result (λ place. place ≡ record { me = node; n = length cluster.now.members.items }) }
    ensures fault { IfErr result (λ fault. (fault ≡ NoMember node)
        × (length cluster.now.members.items ≤ 9 → length cluster.now.members.items < node)) }
{
    let place = match u8::try_from(cluster.members.len()) {
        Ok(members) => Place::new(node, members),
        Err(_) => None,
    };
    place.ok_or(Fault::NoMember(node))
}
