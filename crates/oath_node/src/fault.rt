ghost use Rattle.std.specs.Prelude.{◌≡◌};
ghost use Rattle.oath_node.specs.declared.fault.OpenFault.TheVariants.{Memory};

use floor_store::StoreFault;
use std::alloc::{AllocError, AllocFailed};
use thiserror::Error;

/// The reason why a node is not opened, or a run of lines is not answered.
#[derive(Clone, Copy, Debug, PartialEq, Eq, Error)]
pub enum OpenFault {
    /// The allocator refused the memory.
    #[error("Memory")]
    Memory,
    /// The store failed.
    #[error("{0}")]
    Store(StoreFault),
}

impl From<AllocError> for OpenFault {
    ghost from_gives = { λ _ fault. fault ≡ Memory };

    fn from(_: AllocError) -> Self {
        OpenFault::Memory
    }
}

impl<T: Drop> From<AllocFailed<T>> for OpenFault {
    ghost from_gives = { λ _ fault. fault ≡ Memory };

    fn from(_: AllocFailed<T>) -> Self {
        OpenFault::Memory
    }
}

/// The reason why a node gives no outputs for an event, or doesn't restart.
#[derive(Clone, Copy, Debug, PartialEq, Eq, Error)]
pub enum NodeFault {
    /// The store failed. The node is stopped.
    #[error("{0}")]
    Store(StoreFault),
    /// The node was stopped before.
    #[error("Stopped")]
    Stopped,
    /// No proposal number of this boot is left. The node is stopped.
    #[error("Spent")]
    Spent,
}
