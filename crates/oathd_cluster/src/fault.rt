ghost use Rattle.std.specs.Prelude.{◌≡◌};
ghost use Rattle.oathd_cluster.specs.declared.fault.Fault.TheVariants.{Memory, Node};

use oath_node::NodeFault;
use program_edge::ProgramFault;
use std::alloc::{AllocError, AllocFailed};
use thiserror::Error;
use token_file::FileFault;
use users_input::InputFault;

/// A fault that ends a cluster. Its text lacks the program's name.
#[derive(Clone, Copy, Debug, PartialEq, Eq, Error)]
pub enum Fault {
    /// The allocator refused the memory.
    #[error("out of memory")]
    Memory,
    /// Standard input failed.
    #[error("cannot read -")]
    CannotRead,
    /// Standard output failed.
    #[error("cannot write")]
    CannotWrite,
    /// The users file has a fault.
    #[error("users {0}")]
    Users(FileFault),
    /// The line of the input with this number, from 1, is not a line for a node of the cluster.
    #[error("input line {0}")]
    InputLine(u64),
    /// A socket cannot be opened, or failed.
    #[error("socket")]
    Socket,
    /// A node returned a fault.
    #[error("store: {0}")]
    Node(NodeFault),
}

impl ProgramFault for Fault {
    ghost use Rattle.oathd_cluster.specs.Fault.{status_of};

    ghost status_of = { status_of };

    fn status(self) -> u8 {
        match self {
            Fault::Memory
            | Fault::CannotRead
            | Fault::CannotWrite
            | Fault::Users(_)
            | Fault::InputLine(_) => 1,
            Fault::Node(_) => 3,
            Fault::Socket => 4,
        }
    }
}

impl From<InputFault> for Fault {
    ghost use Rattle.oathd_cluster.specs.Fault.{input_fault_of};

    ghost from_gives = { λ input fault. fault ≡ input_fault_of input };

    fn from(fault: InputFault) -> Self {
        match fault {
            InputFault::Memory => Fault::Memory,
            InputFault::CannotRead => Fault::CannotRead,
        }
    }
}

impl From<NodeFault> for Fault {
    ghost from_gives = { λ node fault. fault ≡ Node node };

    fn from(fault: NodeFault) -> Self {
        Fault::Node(fault)
    }
}

impl From<AllocError> for Fault {
    ghost from_gives = { λ _ fault. fault ≡ Memory };

    fn from(_: AllocError) -> Self {
        Fault::Memory
    }
}

impl<T: Drop> From<AllocFailed<T>> for Fault {
    ghost from_gives = { λ _ fault. fault ≡ Memory };

    fn from(_: AllocFailed<T>) -> Self {
        Fault::Memory
    }
}
