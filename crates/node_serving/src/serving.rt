ghost use Rattle.std.specs.Prelude.{◌≡◌, ◌<◌, ◌^◌, length, IfOk};
ghost use Rattle.node_serving.specs.Gate.{IsSaid};
ghost use Rattle.node_serving.specs.NodeKey.{agreed_members, agreed_settings};

use crate::gate::ClientLines;
use crate::node_key::NodeKey;
use cluster_file::Cluster;
use otp_core::Settings;
use std::alloc::{AllocError, Global};
use std::net::SocketAddrV4;
use vote_core::Place;
use vote_wire::ClusterKey;

/// The parameters of a served node.
#[derive(Drop)]
pub struct Serving<'a> {
    pub settings: Settings,
    /// The node's number, and the number of members.
    pub place: Place,
    /// The members' addresses, in order of their numbers.
    pub members: Vec<SocketAddrV4>,
    /// The source of the key for its datagrams.
    pub key: NodeKey<'a>,
    /// The number of receives: less than 2^54.
    pub turns: u64,
    /// Whether it writes a log.
    pub is_logged: bool,
    /// The lines of clients that it takes.
    pub lines: ClientLines,
    ghost few: { turns < 2 ^ 54 },
    ghost each: { length members.items ≡ place.n },
    ghost settings_agreed: { settings ≡ agreed_settings key settings },
    ghost members_agreed: { members.items ≡ agreed_members key members.items },
    ghost clients_said: { IsSaid lines },
}

impl<'a> Serving<'a> {
    ghost use Rattle.node_serving.specs.Serving.{IsAgain, IsOfMember};

    /// Returns the parameters of the member at `place` of `cluster`. It has the settings and the members of the cluster
    /// file, and tags under the shared key, which is derived from `key` and the file.
    ///
    /// # Errors
    /// Returns `AllocError` if the allocator refuses the memory for the members.
    pub fn of_member(
        cluster: &'a Cluster<'a>,
        key: ClusterKey,
        place: Place,
        turns: u64,
        is_logged: bool,
        lines: ClientLines,
    ) -> Result<Self, AllocError>
        requires place { place.n ≡ length cluster.now.members.items }
        requires turns { turns < 2 ^ 54 }
        requires lines { IsSaid lines }
        ensures { IfOk result (λ serving. IsOfMember cluster.entry key place serving × (serving.turns ≡ turns)
            × (serving.is_logged ≡ is_logged) × (serving.lines ≡ lines)) }
    {
        Ok(Serving {
            settings: cluster.settings,
            place,
            members: cluster.members.clone()?,
            key: NodeKey::Shared(key, cluster),
            turns,
            is_logged,
            lines,
        })
    }

    /// Returns the same parameters for `turns` turns.
    ///
    /// # Errors
    /// Returns `AllocError` if the allocator refuses the memory.
    pub fn again(&self, alloc: Global, turns: u64) -> Result<Self, AllocError>
        requires { turns < 2 ^ 54 }
        ensures { IfOk result (λ serving. IsAgain self.now serving × (serving.turns ≡ turns)) }
    {
        Ok(Serving {
            settings: self.settings,
            place: self.place,
            members: self.members.clone()?,
            key: self.key.again(),
            turns,
            is_logged: self.is_logged,
            lines: self.lines.again(alloc)?,
        })
    }
}
