ghost use Rattle.std.specs.Prelude.{◌≡◌};

use crate::script_fault::ScriptFault;
use cluster_sim::SimFault;
use std::alloc::{AllocError, AllocFailed};
use thiserror::Error;
use token_file::FileFault;
use users_input::{InputFault, UsersFault};

/// A fault that ends a simulation. Its text lacks the program's name.
#[derive(Clone, Copy, Debug, PartialEq, Eq, Error)]
pub enum Fault {
    /// The allocator refused the memory.
    #[error("out of memory")]
    Memory,
    /// Standard input failed.
    #[error("cannot read -")]
    CannotRead,
    /// Standard output failed.
    #[error("cannot write")]
    CannotWrite,
    /// The users file has a fault.
    #[error("users {0}")]
    Users(FileFault),
    /// The line with this number, from 1 in the whole input, is the script's first bad one.
    #[error("script line {0}")]
    ScriptLine(u64),
}

impl From<UsersFault> for Fault {
    ghost use Rattle.oathd_sim.specs.Fault.{users_fault_of};

    ghost from_gives = { λ users fault. fault ≡ users_fault_of users };

    fn from(fault: UsersFault) -> Self {
        match fault {
            UsersFault::Memory => Fault::Memory,
            UsersFault::File(fault) => Fault::Users(fault),
        }
    }
}

impl From<InputFault> for Fault {
    ghost use Rattle.oathd_sim.specs.Fault.{input_fault_of};

    ghost from_gives = { λ input fault. fault ≡ input_fault_of input };

    fn from(fault: InputFault) -> Self {
        match fault {
            InputFault::Memory => Fault::Memory,
            InputFault::CannotRead => Fault::CannotRead,
        }
    }
}

impl From<ScriptFault> for Fault {
    ghost use Rattle.oathd_sim.specs.Fault.{script_fault_of};

    ghost from_gives = { λ script fault. fault ≡ script_fault_of script };

    fn from(fault: ScriptFault) -> Self {
        match fault {
            ScriptFault::Line(number) => Fault::ScriptLine(number),
            ScriptFault::Memory => Fault::Memory,
        }
    }
}

impl From<SimFault> for Fault {
    ghost use Rattle.oathd_sim.specs.declared.fault.Fault.TheVariants.{Memory};

    ghost from_gives = { λ _ fault. fault ≡ Memory };

    fn from(_: SimFault) -> Self {
        Fault::Memory
    }
}

impl From<AllocError> for Fault {
    ghost use Rattle.oathd_sim.specs.declared.fault.Fault.TheVariants.{Memory};

    ghost from_gives = { λ _ fault. fault ≡ Memory };

    fn from(_: AllocError) -> Self {
        Fault::Memory
    }
}

impl<T: Drop> From<AllocFailed<T>> for Fault {
    ghost use Rattle.oathd_sim.specs.declared.fault.Fault.TheVariants.{Memory};

    ghost from_gives = { λ _ fault. fault ≡ Memory };

    fn from(_: AllocFailed<T>) -> Self {
        Fault::Memory
    }
}
