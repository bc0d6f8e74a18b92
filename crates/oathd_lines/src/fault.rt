ghost use Rattle.std.specs.Prelude.{◌≡◌};
ghost use Rattle.oathd_lines.specs.declared.fault.Fault.TheVariants.{BadKey, Memory, Users};

use oath_node::OpenFault;
use program_edge::{OutsideFault, ProgramFault, USAGE};
use secret_text::SecretFault;
use std::alloc::AllocFailed;
use thiserror::Error;
use token_file::FileFault;
use users_input::{InputFault, UsersFault};

/// A fault that ends a run. Its text lacks the program's name.
#[derive(Clone, Copy, Debug, PartialEq, Eq, Error)]
pub enum Fault {
    /// The allocator refused the memory.
    #[error("out of memory")]
    Memory,
    /// Standard input failed.
    #[error("cannot read -")]
    CannotRead,
    /// Standard output failed.
    #[error("cannot write")]
    CannotWrite,
    /// The users file has a fault.
    #[error("users {0}")]
    Users(FileFault),
    /// The line of the input with this number, from 1, is not a client's.
    #[error("input line {0}")]
    InputLine(u64),
    /// The secret on the command line has a fault.
    #[error("bad key: {0}")]
    BadKey(SecretFault),
    /// A word of the process is not UTF-8.
    #[error("a word is not text")]
    NotText,
}

impl ProgramFault for Fault {
    ghost use Rattle.oathd_lines.specs.Fault.{status_of};

    ghost status_of = { status_of };

    fn status(self) -> u8 {
        match self {
            Fault::NotText => USAGE,
            Fault::Memory
            | Fault::CannotRead
            | Fault::CannotWrite
            | Fault::Users(_)
            | Fault::InputLine(_)
            | Fault::BadKey(_) => 1,
        }
    }
}

impl From<OutsideFault> for Fault {
    ghost use Rattle.oathd_lines.specs.Fault.{outside_fault_of};

    ghost from_gives = { λ outside fault. fault ≡ outside_fault_of outside };

    fn from(fault: OutsideFault) -> Self {
        match fault {
            OutsideFault::Memory => Fault::Memory,
            OutsideFault::CannotWrite => Fault::CannotWrite,
            OutsideFault::NotText => Fault::NotText,
        }
    }
}

impl From<InputFault> for Fault {
    ghost use Rattle.oathd_lines.specs.Fault.{input_fault_of};

    ghost from_gives = { λ input fault. fault ≡ input_fault_of input };

    fn from(fault: InputFault) -> Self {
        match fault {
            InputFault::Memory => Fault::Memory,
            InputFault::CannotRead => Fault::CannotRead,
        }
    }
}

impl From<UsersFault> for Fault {
    ghost use Rattle.oathd_lines.specs.Fault.{users_fault_of};

    ghost from_gives = { λ users fault. fault ≡ users_fault_of users };

    fn from(fault: UsersFault) -> Self {
        match fault {
            UsersFault::Memory => Fault::Memory,
            UsersFault::File(fault) => Fault::Users(fault),
        }
    }
}

impl From<FileFault> for Fault {
    ghost from_gives = { λ users fault. fault ≡ Users users };

    fn from(fault: FileFault) -> Self {
        Fault::Users(fault)
    }
}

impl From<SecretFault> for Fault {
    ghost from_gives = { λ key fault. fault ≡ BadKey key };

    fn from(fault: SecretFault) -> Self {
        Fault::BadKey(fault)
    }
}

impl From<OpenFault> for Fault {
    ghost from_gives = { λ _ fault. fault ≡ Memory };

    fn from(_: OpenFault) -> Self {
        Fault::Memory
    }
}

impl<T: Drop> From<AllocFailed<T>> for Fault {
    ghost from_gives = { λ _ fault. fault ≡ Memory };

    fn from(_: AllocFailed<T>) -> Self {
        Fault::Memory
    }
}
