//! Reads the floors files that the words name, and reports their faults by path.

ghost use Rattle.std.specs.Prelude.{◌≡◌, length, IfOk};

use crate::fault::Fault;
use floors_file::{FileFault, FilesFault, FloorsFault};
use oathd_database::GatherFault;
use oathd_floors::NamedFloorsFault;
use oathd_tasks::file_text;
use program_edge::ProgramFault;
use std::alloc::Global;
use std::rt::Files;
use thiserror::Error;

/// A fault of floors files, each named by its path.
#[derive(Clone, Copy, Debug, PartialEq, Eq, Error)]
pub enum PathFault<'a> {
    /// The file is longer than any floors file.
    #[error("floors {0}: TooLong")]
    TooLong(&'a str),
    /// The file has a fault at a line.
    #[error("floors {0} {1}")]
    Line(&'a str, FloorsFault),
    /// The user on a line of the file is not in the users file.
    #[error("floors {0} line {1}: NoUser")]
    NoUser(&'a str, usize),
    /// The file does not fit the other files, or the command.
    #[error("floors {0}: {1}")]
    File(&'a str, FileFault),
    /// The file was read after the present time.
    #[error("floors {0}: Ahead")]
    Ahead(&'a str),
    /// Together the files are insufficient.
    #[error("{0}")]
    Files(FilesFault),
}

impl ProgramFault for PathFault<'_> {
    ghost status_of = { λ _. 1 };

    fn status(self) -> u8 {
        1
    }
}

/// Returns the text of a floors file of at most `longest` bytes.
fn floors_text<'a, F: Files>(
    alloc: Global,
    files: &F,
    path: &'a str,
    longest: u32,
) -> Result<Vec<u8>, Fault<'a>> {
    let text = file_text(alloc, files, path, longest)?;
    if text.len() > longest as usize {
        return Err(Fault::Floors(PathFault::TooLong(path)));
    }
    Ok(text)
}

/// Returns the texts of the floors files at `paths`, in order, each of at most `longest` bytes.
pub fn floors_texts<'a, F: Files>(
    alloc: Global,
    files: &F,
    paths: &[&'a str],
    longest: u32,
) -> Result<Vec<Vec<u8>>, Fault<'a>>
    ensures { IfOk result (λ texts. length texts.items ≡ length paths.now) }
{
    let mut texts = Vec::new(alloc);
    for path in paths {
        let text = floors_text(alloc, files, path, longest)?;
        match texts.push(text) {
            Ok(()) => {}
            Err(_) => return Err(Fault::Database(oathd_database::Fault::Memory)),
        }
    }
    Ok(texts)
}

/// Returns the path of the file `number`, from 1.
fn path_of<'a>(paths: &[&'a str], number: usize) -> &'a str {
    match number {
        0 => "",
        number => match paths.get(number - 1) {
            Some(path) => path,
            None => "",
        },
    }
}

/// Returns the fault of the file at `path`.
fn file_fault<'a>(path: &'a str, fault: FileFault) -> PathFault<'a> {
    match fault {
        FileFault::NoUser(line) => PathFault::NoUser(path, line),
        fault => PathFault::File(path, fault),
    }
}

/// Returns the fault of several files, which it names by their paths.
fn files_fault<'a>(paths: &[&'a str], fault: FilesFault) -> PathFault<'a> {
    match fault {
        FilesFault::File(number, fault) => file_fault(path_of(paths, number), fault),
        fault => PathFault::Files(fault),
    }
}

/// Returns the program's fault for a fault of floors files, which it names by their paths.
pub fn with_paths<'a>(paths: &[&'a str], fault: GatherFault) -> Fault<'a> {
    match fault {
        GatherFault::Command(fault) => Fault::Database(fault),
        GatherFault::Floors(number, fault) => {
            Fault::Floors(PathFault::Line(path_of(paths, number), fault))
        }
        GatherFault::Files(fault) => Fault::Floors(files_fault(paths, fault)),
    }
}

/// Returns the program's fault for a fault of floors files by names, which it names by their paths.
pub fn with_named_paths<'a>(paths: &[&'a str], fault: NamedFloorsFault) -> Fault<'a> {
    match fault {
        NamedFloorsFault::Roster(fault) => Fault::from(fault),
        NamedFloorsFault::Floors(number, fault) => {
            Fault::Floors(PathFault::Line(path_of(paths, number), fault))
        }
        NamedFloorsFault::Ahead(number) => Fault::Floors(PathFault::Ahead(path_of(paths, number))),
        NamedFloorsFault::Files(fault) => Fault::Floors(files_fault(paths, fault)),
    }
}
