ghost use Rattle.std.specs.Prelude.{◌≡◌};
ghost use Rattle.oath_node.specs.declared.serve_fault.ServeFault.TheVariants.{Node};

use crate::fault::NodeFault;
use thiserror::Error;

/// The reason why a run of turns ends before its last turn.
#[derive(Clone, Copy, Debug, PartialEq, Eq, Error)]
pub enum ServeFault {
    /// The node returned a fault.
    #[error("{0}")]
    Node(NodeFault),
    /// The port failed at 16 consecutive receives.
    #[error("Port")]
    Port,
    /// The clock told no time for a client's datagram.
    #[error("Clock")]
    Clock,
}

impl From<NodeFault> for ServeFault {
    ghost from_gives = { λ fault made. made ≡ Node fault };

    fn from(fault: NodeFault) -> Self {
        ServeFault::Node(fault)
    }
}
