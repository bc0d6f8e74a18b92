//! The parameters of a command's nodes.

ghost use Rattle.std.specs.Prelude.{IfErr, IfOk};
ghost use Rattle.otp_core.specs.Range.{IsMoment};
ghost use Rattle.oathd_words.specs.NodesWords.{AreNodesInRange};
ghost use Rattle.oathd_tasks.specs.Nodes.{IsOfSetup, IsSetup, IsSetupInRange, setup_value};

use crate::cluster::{cluster_in, cluster_key};
use crate::fault::Fault;
use crate::key::read_key;
use oathd_words::NodesWords;
use otp_core::Settings;
use std::alloc::Global;
use std::rt::Files;
use vote_wire::ClusterKey;

/// The parameters of a command's nodes.
#[derive(Drop)]
pub(crate) struct NodesSetup {
    /// The number of nodes: 1 to 9.
    pub(crate) nodes: u8,
    pub(crate) settings: Settings,
    /// The moment of the users' import, in seconds since 1970-01-01 00:00:00 UTC: 0 to 1099511627775.
    pub(crate) moment: u64,
    pub(crate) key: ClusterKey,
}

/// Returns the setup of nodes whose users are imported at `moment`, from the words or from the cluster file.
///
/// With the words, the key is in the key file, or is 32 zeros. With the text of a cluster file, the key is the
/// cluster's.
///
/// # Errors
/// - Returns the errors of [`read_key`] without a cluster file.
/// - Returns the errors of [`cluster_in`] and [`cluster_key`] with a cluster file.
pub(crate) fn nodes_setup<'a, F: Files>(
    alloc: Global,
    files: &F,
    nodes: &NodesWords<'a>,
    moment: u64,
    text: &'a [u8],
) -> Result<NodesSetup, Fault<'a>>
    requires nodes { AreNodesInRange nodes.now }
    requires moment { IsMoment moment }
    ensures setup { IfOk result (λ setup. IsSetup nodes.now moment text.now (setup_value setup)) }
    ensures in_range { IfOk result (λ setup. IsSetupInRange (setup_value setup)) }
    ensures fault { IfErr result (IsOfSetup nodes.now text.now) }
{
    match nodes {
        NodesWords::Given {
            count,
            settings,
            key,
        } => {
            let key = read_key(alloc, files, *key)?;
            Ok(NodesSetup {
                nodes: *count,
                settings: *settings,
                moment,
                key,
            })
        }
        NodesWords::Named(_) => {
            let cluster = cluster_in(alloc, text)?;
            let key = cluster_key(alloc, files, &cluster.key)?;
            Ok(NodesSetup {
                nodes: cluster.members.len() as u8,
                settings: cluster.settings,
                moment,
                key,
            })
        }
    }
}
