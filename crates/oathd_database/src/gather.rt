//! Reads the floors files of a command.

ghost use Rattle.std.specs.Prelude.{◌≡◌, [], map, IfErr, IfOk, Ok};
ghost use Rattle.floors_file.specs.Floors.{floors_value};
ghost use Rattle.oathd_database.specs.Gather.{IsUnreadFile, files_after};

use crate::fault::Fault;
use floors_file::{FilesFault, Floors, FloorsFault, read_floors};
use program_edge::ProgramFault;
use std::alloc::Global;
use thiserror::Error;

/// A fault that ends a command over floors files. Its text lacks the program's name.
#[derive(Clone, Copy, Debug, PartialEq, Eq, Error)]
pub enum GatherFault {
    /// A fault of any command over a store.
    #[error("{0}")]
    Command(Fault),
    /// The floors file with this number, from 1, has a fault.
    #[error("floors {0} {1}")]
    Floors(usize, FloorsFault),
    /// The floors files together are insufficient.
    #[error("{0}")]
    Files(FilesFault),
}

impl ProgramFault for GatherFault {
    ghost use Rattle.oathd_database.specs.Gather.{gather_status};

    ghost status_of = { gather_status };

    fn status(self) -> u8 {
        match self {
            GatherFault::Command(fault) => fault.status(),
            GatherFault::Floors(..) | GatherFault::Files(_) => 1,
        }
    }
}

/// Returns the content of each floors file.
pub(crate) fn read_files(alloc: Global, texts: &[Vec<u8>]) -> Result<Vec<Floors<'_>>, GatherFault>
    ensures read { IfOk result (λ files.
        files_after [] (map (λ text. text.items) texts.now) ≡ Ok (map floors_value files.items)) }
    ensures fault { IfErr result (IsUnreadFile (map (λ text. text.items) texts.now)) }
{
    let mut files = Vec::new(alloc);
    for text in texts {
        let file = match read_floors(alloc, text) {
            Ok(file) => file,
            Err(fault) => return Err(GatherFault::Floors(files.len() + 1, fault)),
        };
        match files.push(file) {
            Ok(()) => {}
            Err(_) => return Err(GatherFault::Command(Fault::Memory)),
        }
    }
    Ok(files)
}
