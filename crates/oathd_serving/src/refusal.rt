ghost use Rattle.std.specs.Prelude.{◌≡◌};
ghost use Rattle.oathd_serving.specs.Reload.{file_reason_of};

use oathd_roster::RosterFault;
use oathd_site::Fault;
use std::io::{self, Write};
use thiserror::Error;
use token_file::FileFault;

/// The reason why a changed users file is not taken.
#[derive(Clone, Copy, Debug, PartialEq, Eq, Error)]
pub(crate) enum Refusal {
    /// A line has a fault.
    #[error("line={} {}", .0.line, .0.kind)]
    Line(FileFault),
    /// The token in this row, from 1, has the name of an earlier one.
    #[error("row={0} SameName")]
    SameName(u32),
    /// It has no tokens.
    #[error("NoTokens")]
    NoTokens,
    /// It can't be read.
    #[error("CannotRead")]
    CannotRead,
    /// The allocator refused the memory.
    #[error("Memory")]
    Memory,
}

impl From<oathd_database::Fault> for Refusal {
    ghost use Rattle.oathd_serving.specs.Reload.{reason_of};

    ghost from_gives = { λ fault refusal. refusal ≡ reason_of fault };

    fn from(fault: oathd_database::Fault) -> Self {
        match fault {
            oathd_database::Fault::Users(fault) => Refusal::Line(fault),
            oathd_database::Fault::Memory => Refusal::Memory,
            _ => Refusal::CannotRead,
        }
    }
}

impl From<RosterFault> for Refusal {
    ghost use Rattle.oathd_serving.specs.Reload.{named_reason_of};

    ghost from_gives = { λ fault refusal. refusal ≡ named_reason_of fault };

    fn from(fault: RosterFault) -> Self {
        match fault {
            RosterFault::Command(fault) => Refusal::from(fault),
            RosterFault::SameName(row) => Refusal::SameName(row),
            // No fault of reading a users file.
            RosterFault::AnotherCluster | RosterFault::Full => Refusal::CannotRead,
        }
    }
}

/// Returns the reason for a fault of reading a users file.
pub(crate) fn refusal_of(fault: Fault<'_>) -> Refusal
    ensures { result ≡ file_reason_of fault.entry }
{
    match fault {
        Fault::Database(fault) => Refusal::from(fault),
        _ => Refusal::CannotRead,
    }
}

/// Writes the log's line of a users file that is not taken.
pub(crate) fn write_refusal<W: Write>(writer: &mut W, refusal: Refusal) -> io::Result<()> {
    writeln!(writer, "reload refused {refusal}")?;
    writer.flush()
}
