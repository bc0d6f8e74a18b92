ghost use Rattle.std.specs.Prelude.{◌≡◌};
ghost use Rattle.oathd_database.specs.declared.fault.Fault.TheVariants.{Store, Users};

use floor_store::StoreFault;
use oath_node::{NodeFault, OpenFault, ServeFault};
use program_edge::ProgramFault;
use thiserror::Error;
use token_file::FileFault;

/// A fault that ends a command over a store. Its text lacks the program's name.
#[derive(Clone, Copy, Debug, PartialEq, Eq, Error)]
pub enum Fault {
    /// The allocator refused the memory.
    #[error("out of memory")]
    Memory,
    /// Standard output failed.
    #[error("cannot write")]
    CannotWrite,
    /// The clock tells no time.
    #[error("no clock")]
    NoClock,
    /// The users file has a fault.
    #[error("users {0}")]
    Users(FileFault),
    /// The store fails, or the served node has used all numbers of its boot.
    #[error("store: {0}")]
    Store(StoreFault),
    /// The socket failed.
    #[error("socket")]
    Socket,
}

impl ProgramFault for Fault {
    ghost use Rattle.oathd_database.specs.Fault.{status_of};

    ghost status_of = { status_of };

    fn status(self) -> u8 {
        match self {
            Fault::Memory | Fault::CannotWrite | Fault::NoClock | Fault::Users(_) => 1,
            Fault::Store(_) => 3,
            Fault::Socket => 4,
        }
    }
}

impl From<StoreFault> for Fault {
    ghost from_gives = { λ store fault. fault ≡ Store store };

    fn from(fault: StoreFault) -> Self {
        Fault::Store(fault)
    }
}

impl From<FileFault> for Fault {
    ghost from_gives = { λ users fault. fault ≡ Users users };

    fn from(fault: FileFault) -> Self {
        Fault::Users(fault)
    }
}

impl From<OpenFault> for Fault {
    ghost use Rattle.oathd_database.specs.Fault.{open_fault_of};

    ghost from_gives = { λ opening fault. fault ≡ open_fault_of opening };

    fn from(fault: OpenFault) -> Self {
        match fault {
            OpenFault::Memory => Fault::Memory,
            OpenFault::Store(fault) => Fault::Store(fault),
        }
    }
}

impl From<ServeFault> for Fault {
    ghost use Rattle.oathd_database.specs.Fault.{serve_fault_of};

    ghost from_gives = { λ turns fault. fault ≡ serve_fault_of turns };

    fn from(fault: ServeFault) -> Self {
        match fault {
            ServeFault::Node(NodeFault::Store(fault)) => Fault::Store(fault),
            ServeFault::Node(NodeFault::Spent | NodeFault::Stopped) => {
                Fault::Store(StoreFault::Spent)
            }
            ServeFault::Port => Fault::Socket,
            ServeFault::Clock => Fault::NoClock,
        }
    }
}
