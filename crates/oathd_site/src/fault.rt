use crate::floors::PathFault;
use crate::names::NamesFault;
use oathd_floors::NamingFault;
use oathd_roster::RosterFault;
use oathd_seats::SeatsFault;
use program_edge::{OutsideFault, ProgramFault};
use thiserror::Error;

/// A fault that ends the program. Its text lacks the program's name.
#[derive(Clone, Copy, Debug, PartialEq, Eq, Error)]
pub enum Fault<'a> {
    /// A fault of a command without a database, of reading the words, or of reading a file.
    #[error("{0}")]
    Task(oathd_tasks::Fault<'a>),
    /// A fault of a command over a database.
    #[error("{0}")]
    Database(oathd_database::Fault),
    /// The floors files have a fault, or are insufficient.
    #[error("{0}")]
    Floors(PathFault<'a>),
    /// A fault of a command over a store by names, and of no other one.
    #[error("{0}")]
    Roster(RosterFault),
    /// A fault of a command that looks at a store, and of no other one.
    #[error("{0}")]
    Seats(SeatsFault<'a>),
    /// The words, the cluster file or the users file don't fit a store by names.
    #[error("{0}")]
    Names(NamesFault),
}

impl ProgramFault for Fault<'_> {
    ghost use Rattle.oathd_site.specs.Fault.{status_of};

    ghost status_of = { status_of };

    fn status(self) -> u8 {
        match self {
            Fault::Task(fault) => fault.status(),
            Fault::Database(fault) => fault.status(),
            Fault::Floors(fault) => fault.status(),
            Fault::Roster(fault) => fault.status(),
            Fault::Seats(fault) => fault.status(),
            Fault::Names(_) => 1,
        }
    }
}

impl From<OutsideFault> for Fault<'_> {
    fn from(fault: OutsideFault) -> Self {
        Fault::Task(oathd_tasks::Fault::from(fault))
    }
}

impl<'a> From<oathd_tasks::Fault<'a>> for Fault<'a> {
    ghost use Rattle.std.specs.Prelude.{◌≡◌};
    ghost use Rattle.oathd_site.specs.declared.fault.Fault.TheVariants.{Task};

    ghost from_gives = { λ task fault. fault ≡ Task task };

    fn from(fault: oathd_tasks::Fault<'a>) -> Self {
        Fault::Task(fault)
    }
}

impl From<oathd_database::Fault> for Fault<'_> {
    ghost use Rattle.std.specs.Prelude.{◌≡◌};
    ghost use Rattle.oathd_site.specs.declared.fault.Fault.TheVariants.{Database};

    ghost from_gives = { λ command fault. fault ≡ Database command };

    fn from(fault: oathd_database::Fault) -> Self {
        Fault::Database(fault)
    }
}

impl From<RosterFault> for Fault<'_> {
    ghost use Rattle.std.specs.Prelude.{◌≡◌};
    ghost use Rattle.oathd_site.specs.Fault.{fault_of};

    ghost from_gives = { λ roster fault. fault ≡ fault_of roster };

    fn from(fault: RosterFault) -> Self {
        match fault {
            RosterFault::Command(fault) => Fault::Database(fault),
            other => Fault::Roster(other),
        }
    }
}

impl From<NamingFault> for Fault<'_> {
    fn from(fault: NamingFault) -> Self {
        match fault {
            NamingFault::Roster(fault) => Fault::from(fault),
            NamingFault::OtherKind(row) => Fault::Names(NamesFault::OtherKind(row)),
        }
    }
}

impl<'a> From<SeatsFault<'a>> for Fault<'a> {
    ghost use Rattle.std.specs.Prelude.{◌≡◌};
    ghost use Rattle.oathd_site.specs.Fault.{seats_fault_of};

    ghost from_gives = { λ seats fault. fault ≡ seats_fault_of seats };

    fn from(fault: SeatsFault<'a>) -> Self {
        match fault {
            SeatsFault::Roster(fault) => Fault::from(fault),
            other => Fault::Seats(other),
        }
    }
}
