ghost use Rattle.std.specs.Prelude.{◌≡◌};
ghost use Rattle.oathd_database.specs.declared.fault.Fault.TheVariants.{Memory, Store};
ghost use Rattle.oathd_roster.specs.declared.fault.RosterFault.TheVariants.{Command};
ghost use Rattle.oathd_seats.specs.declared.fault.SeatsFault.TheVariants.{Roster};

use floor_store::StoreFault;
use oathd_database::Fault;
use oathd_roster::RosterFault;
use program_edge::ProgramFault;
use std::alloc::AllocError;
use thiserror::Error;

/// A fault that ends a command which looks at a store. Its text lacks the program's name.
#[derive(Clone, Copy, Debug, PartialEq, Eq, Error)]
pub enum SeatsFault<'a> {
    /// A fault of any command over a store.
    #[error("{0}")]
    Roster(RosterFault),
    /// The token in this row of the users file, from 1, is the first one whose name no row of the store has.
    #[error("users: NotEnrolled {0}")]
    NotEnrolled(u32),
    /// No token of the users file has this name.
    #[error("no such user: {0}")]
    NoUser(&'a str),
}

impl ProgramFault for SeatsFault<'_> {
    ghost use Rattle.oathd_seats.specs.Fault.{seats_status};

    ghost status_of = { seats_status };

    fn status(self) -> u8 {
        match self {
            SeatsFault::Roster(fault) => fault.status(),
            SeatsFault::NotEnrolled(_) | SeatsFault::NoUser(_) => 1,
        }
    }
}

impl From<RosterFault> for SeatsFault<'_> {
    ghost from_gives = { λ roster fault. fault ≡ Roster roster };

    fn from(fault: RosterFault) -> Self {
        SeatsFault::Roster(fault)
    }
}

impl From<Fault> for SeatsFault<'_> {
    ghost from_gives = { λ command fault. fault ≡ Roster (Command command) };

    fn from(fault: Fault) -> Self {
        SeatsFault::Roster(RosterFault::Command(fault))
    }
}

impl From<StoreFault> for SeatsFault<'_> {
    ghost from_gives = { λ store fault. fault ≡ Roster (Command (Store store)) };

    fn from(fault: StoreFault) -> Self {
        SeatsFault::Roster(RosterFault::Command(Fault::Store(fault)))
    }
}

impl From<AllocError> for SeatsFault<'_> {
    ghost from_gives = { λ _ fault. fault ≡ Roster (Command Memory) };

    fn from(_: AllocError) -> Self {
        SeatsFault::Roster(RosterFault::Command(Fault::Memory))
    }
}
