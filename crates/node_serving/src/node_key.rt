ghost use Rattle.std.specs.Prelude.{◌≡◌, List, IfErr, IfOk, None, Some};
ghost use Rattle.token_file.specs.Credential.{Credential};
ghost use Rattle.cluster_file.specs.Key.{IsCollision, shared_key_of};
ghost use Rattle.cluster_file.specs.Shared.{IsShared, Shared as AllShared, shared_text};
ghost use Rattle.node_serving.specs.NodeKey.{own_key, shared_by, tag_key};
ghost use Rattle.node_serving.specs.declared.node_key.NodeKey.{NodeKey as AnyKey};

use cluster_file::{Cluster, shared_key};
use oathd_database::Fault;
use std::alloc::Global;
use token_file::Book;
use vote_wire::ClusterKey;

/// The source of a node's key.
#[derive(Drop)]
pub enum NodeKey<'a> {
    /// The cluster's own key.
    Own(ClusterKey),
    /// The shared key, derived from the cluster's own key, the cluster file and the users file.
    Shared(ClusterKey, &'a Cluster<'a>),
}

/// Returns the same key.
fn same_key(key: &ClusterKey) -> ClusterKey
    ensures { result ≡ key.now }
{
    match ClusterKey::new(key.as_slice()) {
        Some(same) => same,
        None => ClusterKey::bare(),
    }
}

impl<'a> NodeKey<'a> {
    /// Returns the cluster's own key.
    pub fn own(&self) -> &ClusterKey
        ensures { result.now ≡ own_key self.now }
    {
        match self {
            NodeKey::Own(key) | NodeKey::Shared(key, _) => key,
        }
    }

    /// Returns the same source of a key.
    pub fn again(&self) -> Self
        ensures { result ≡ self.now }
    {
        match self {
            NodeKey::Own(key) => NodeKey::Own(same_key(key)),
            NodeKey::Shared(key, cluster) => NodeKey::Shared(same_key(key), *cluster),
        }
    }
}

/// Returns the key under which a node with the tokens of `book` tags its datagrams.
///
/// # Errors
/// Returns `Memory` if the allocator refuses the memory.
pub fn tag_key(alloc: Global, key: NodeKey<'_>, book: &Book) -> Result<ClusterKey, Fault>
    ensures key { IfOk result (λ tagging. tagging ≡ tag_key key.entry book.now) }
    ensures fault { IfErr result (λ fault. fault ≡ Fault.Memory) }
{
    match key {
        NodeKey::Own(key) => Ok(key),
        NodeKey::Shared(key, cluster) => match shared_key(alloc, &key, cluster, book) {
            Ok(tagging) => Ok(tagging),
            Err(_) => Err(Fault::Memory),
        },
    }
}

/// Shows that nodes with one cluster key, but different shared content, tag under different keys.
///
/// It holds for nodes with cluster files, unless their shared texts collide. A node without a cluster file tags under
/// the cluster's own key.
pub fn node_keys_tell()
    ensures own { (a : AnyKey) (book : List Credential) → shared_by a book ≡ None → tag_key a book ≡ own_key a }
    ensures shared { (a : AnyKey) (book : List Credential) (s : AllShared) → shared_by a book ≡ Some s →
        tag_key a book ≡ shared_key_of (own_key a) s }
    ensures apart { (a b : AnyKey) (book tokens : List Credential) (s t : AllShared) → shared_by a book ≡ Some s →
        shared_by b tokens ≡ Some t → IsShared s → IsShared t → own_key a ≡ own_key b → (s ≡ t → ⊥) →
        tag_key a book ≡ tag_key b tokens → IsCollision (own_key a) (shared_text s) (shared_text t) }
{}
