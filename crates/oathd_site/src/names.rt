//! The names of a cluster, and the faults of words and files that don't fit them.

ghost use Rattle.std.specs.Prelude.{◌≡◌, Option, Some, IfErr, IfOk, length};
ghost use Rattle.cluster_file.specs.ClusterFile.{cluster_value};
ghost use Rattle.oathd_site.specs.Names.{AreNamesIn};
ghost use Rattle.oathd_site.specs.Fault.{IsOfTask};

use crate::fault::Fault;
use cluster_file::{Cluster, ClusterFault, LineFault};
use oathd_roster::NamedCluster;
use roster_sql::Bond;
use thiserror::Error;
use token_names::Salt;

/// A fault of a command over a store by names: in its words, its cluster file or its users file.
#[derive(Clone, Copy, Debug, PartialEq, Eq, Error)]
pub enum NamesFault {
    /// The file gives names, and the command creates a store without saying whether the cluster has served.
    #[error("cluster: HasNames")]
    PlainInit,
    /// The file gives no names, and the command is for stores by names.
    #[error("cluster: NoNames")]
    NoNames,
    /// The file gives names, and the command takes floors files without saying since when they were read.
    #[error("cluster: NoSince")]
    NoSince,
    /// The file gives no names, and the node is to take its users file again when it changes.
    #[error("cluster: NoNames")]
    PlainReload,
    /// The file gives names, and the command gives the tokens names without saying how many members the cluster had.
    #[error("cluster: NoMembersWere")]
    NoMembersWere,
    /// The number of members that the cluster had, and the other number of members that the file has.
    #[error("cluster: OtherMembers")]
    OtherMembers(u8, u8),
    /// The store's row with this number, from 1, is not of the kind of its token in the users file.
    #[error("users: OtherKind {0}")]
    OtherKind(u32),
}

/// Returns the cluster to which the stores of a cluster file's members are bound, or None if it gives no names.
pub fn named_cluster<'a>(
    cluster: &Cluster<'_>,
    members: u8,
) -> Result<Option<NamedCluster>, Fault<'a>>
    requires { members ≡ length cluster.now.members.items }
    ensures names { IfOk result (AreNamesIn (cluster_value cluster.now)) }
    ensures fault { IfErr result IsOfTask }
{
    let Some(word) = cluster.names else {
        return Ok(None);
    };
    match (Salt::new(word), Bond::new(word, cluster.life, members)) {
        (Some(salt), Some(bond)) => Ok(Some(NamedCluster {
            salt,
            bond,
            is_fresh: cluster.fresh,
        })),
        // A cluster file with such a word isn't read.
        _ => {
            let (line, kind) = (0, LineFault::BadNames);
            Err(Fault::Task(oathd_tasks::Fault::ClusterFile(ClusterFault { line, kind })))
        }
    }
}
