ghost use Rattle.std.specs.Prelude.{◌≡◌};
ghost use Rattle.oathd_roster.specs.declared.fault.RosterFault.TheVariants.{Command};

use floor_store::StoreFault;
use named_store::NamedFault;
use oathd_database::Fault;
use program_edge::ProgramFault;
use thiserror::Error;
use token_names::NamesFault;

/// A fault that ends a command over a store by names. Its text lacks the program's name.
#[derive(Clone, Copy, Debug, PartialEq, Eq, Error)]
pub enum RosterFault {
    /// A fault of any command over a store.
    #[error("{0}")]
    Command(Fault),
    /// The token in this row of the users file, from 1, has the name of an earlier one.
    #[error("users: SameName {0}")]
    SameName(u32),
    /// The store is bound to another cluster.
    #[error("store: Unusable")]
    AnotherCluster,
    /// The store has no room for the new tokens.
    #[error("store: Full")]
    Full,
}

impl ProgramFault for RosterFault {
    ghost use Rattle.oathd_roster.specs.Fault.{roster_status};

    ghost status_of = { roster_status };

    fn status(self) -> u8 {
        match self {
            RosterFault::Command(fault) => fault.status(),
            RosterFault::SameName(_) => 1,
            RosterFault::AnotherCluster | RosterFault::Full => 3,
        }
    }
}

impl From<Fault> for RosterFault {
    ghost from_gives = { λ command fault. fault ≡ Command command };

    fn from(fault: Fault) -> Self {
        RosterFault::Command(fault)
    }
}

impl From<StoreFault> for RosterFault {
    ghost use Rattle.oathd_database.specs.declared.fault.Fault.TheVariants.{Store};

    ghost from_gives = { λ store fault. fault ≡ Command (Store store) };

    fn from(fault: StoreFault) -> Self {
        RosterFault::Command(Fault::Store(fault))
    }
}

impl From<NamesFault> for RosterFault {
    ghost use Rattle.oathd_roster.specs.Fault.{names_fault_of};

    ghost from_gives = { λ names fault. fault ≡ names_fault_of names };

    fn from(fault: NamesFault) -> Self {
        match fault {
            NamesFault::Memory => RosterFault::Command(Fault::Memory),
            NamesFault::SameName { row } => RosterFault::SameName(row),
        }
    }
}

impl From<NamedFault> for RosterFault {
    ghost use Rattle.oathd_roster.specs.Fault.{named_fault_of};

    ghost from_gives = { λ named fault. fault ≡ named_fault_of named };

    fn from(fault: NamedFault) -> Self {
        match fault {
            NamedFault::AnotherCluster => RosterFault::AnotherCluster,
            NamedFault::Full => RosterFault::Full,
            NamedFault::Store(fault) => RosterFault::Command(Fault::Store(fault)),
        }
    }
}
