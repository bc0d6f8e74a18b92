ghost use Rattle.std.specs.Prelude.{◌≡◌};
ghost use Rattle.oathd_floors.specs.declared.fault.NamedFloorsFault.TheVariants.{Roster};
ghost use Rattle.oathd_database.specs.declared.fault.Fault.TheVariants.{Store};
ghost use Rattle.oathd_roster.specs.declared.fault.RosterFault.TheVariants.{Command};

use floor_store::StoreFault;
use floors_file::{FilesFault, FloorsFault};
use oathd_database::Fault;
use oathd_roster::RosterFault;
use program_edge::ProgramFault;
use thiserror::Error;

/// A fault that ends a command over floors files by names. Its text lacks the program's name.
#[derive(Clone, Copy, Debug, PartialEq, Eq, Error)]
pub enum NamedFloorsFault {
    /// A fault of any command over a store by names.
    #[error("{0}")]
    Roster(RosterFault),
    /// The floors file with this number, from 1, has a fault at a line.
    #[error("floors {0} {1}")]
    Floors(usize, FloorsFault),
    /// The floors file with this number, from 1, was read after the present time. A clock is wrong.
    #[error("floors {0}: Ahead")]
    Ahead(usize),
    /// A floors file is of another cluster, or the files together are insufficient.
    #[error("{0}")]
    Files(FilesFault),
}

impl ProgramFault for NamedFloorsFault {
    ghost use Rattle.oathd_floors.specs.Fault.{floors_status};

    ghost status_of = { floors_status };

    fn status(self) -> u8 {
        match self {
            NamedFloorsFault::Roster(fault) => fault.status(),
            NamedFloorsFault::Floors(..)
            | NamedFloorsFault::Ahead(_)
            | NamedFloorsFault::Files(_) => 1,
        }
    }
}

impl From<RosterFault> for NamedFloorsFault {
    ghost from_gives = { λ roster fault. fault ≡ Roster roster };

    fn from(fault: RosterFault) -> Self {
        NamedFloorsFault::Roster(fault)
    }
}

impl From<Fault> for NamedFloorsFault {
    ghost from_gives = { λ command fault. fault ≡ Roster (Command command) };

    fn from(fault: Fault) -> Self {
        NamedFloorsFault::Roster(RosterFault::Command(fault))
    }
}

/// A fault that ends the command `migrate` by names. Its text lacks the program's name.
#[derive(Clone, Copy, Debug, PartialEq, Eq, Error)]
pub enum NamingFault {
    /// A fault of any command over a store by names.
    #[error("{0}")]
    Roster(RosterFault),
    /// The store's row with this number, from 1, is not of the kind of its token.
    #[error("users: OtherKind {0}")]
    OtherKind(u32),
}

impl From<RosterFault> for NamingFault {
    ghost use Rattle.oathd_floors.specs.declared.fault.NamingFault.TheVariants.{Roster};

    ghost from_gives = { λ roster fault. fault ≡ Roster roster };

    fn from(fault: RosterFault) -> Self {
        NamingFault::Roster(fault)
    }
}

impl From<Fault> for NamingFault {
    ghost use Rattle.oathd_floors.specs.declared.fault.NamingFault.TheVariants.{Roster};

    ghost from_gives = { λ command fault. fault ≡ Roster (Command command) };

    fn from(fault: Fault) -> Self {
        NamingFault::Roster(RosterFault::Command(fault))
    }
}

impl From<StoreFault> for NamingFault {
    ghost use Rattle.oathd_floors.specs.declared.fault.NamingFault.TheVariants.{Roster};

    ghost from_gives = { λ store fault. fault ≡ Roster (Command (Store store)) };

    fn from(fault: StoreFault) -> Self {
        NamingFault::Roster(RosterFault::Command(Fault::Store(fault)))
    }
}
