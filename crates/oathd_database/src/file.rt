//! A database in a file.

ghost use Rattle.std.specs.Prelude.{◌≡◌, ◌↔◌, Err, IfOk, IsErr, IsOk, IsTrue};
ghost use Rattle.oathd_database.specs.File.{IsEmptyFile};

use crate::database::Database;
use floor_sql::StoreFiles;
use floor_store::StoreFault;
use sqlite::{Connection, FileFrom, FileStore, Start};
use std::fs::{self, Metadata, OpenOptions};
use std::io;
use std::os::unix::fs::OpenOptionsExt;

/// A database in a file, and beside it a log, with the content that `S` stands for.
///
/// No code can read `S`: a function over any `S` is proved for each content. A program passes `Unknown`.
#[derive(Drop)]
pub struct DatabaseFile<'a, S: Start> {
    rt: &'a HostRuntime,
    path: &'a str,
    start: S,
    is_made: bool,
}

impl<'a, S: Start> DatabaseFile<'a, S> {
    /// Returns the database in the file at `path`. Opening it creates a missing file, with no table, that only its
    /// owner may read and write.
    pub fn found_or_made(rt: &'a HostRuntime, path: &'a str, start: S) -> Self {
        DatabaseFile {
            rt,
            path,
            start,
            is_made: true,
        }
    }

    /// Returns the database in the file at `path`, which has to exist and not be empty.
    pub fn found(rt: &'a HostRuntime, path: &'a str, start: S) -> Self {
        DatabaseFile {
            rt,
            path,
            start,
            is_made: false,
        }
    }
}

/// Returns whether `found` is a regular file of 0 bytes.
fn is_empty_file(found: &Metadata) -> bool
    ensures { IsTrue result ↔ IsEmptyFile found.now }
{
    found.is_file() && found.len() == 0
}

/// Checks that a file can be opened for a store. An empty file is refused: opening it would make it a database.
///
/// # Errors
/// - Returns `Disk` if the file's metadata cannot be had.
/// - Returns `Unusable` if the file is empty.
fn check_found(found: io::Result<Metadata>) -> Result<(), StoreFault>
    ensures missing { IsErr found → result ≡ Err StoreFault.Disk }
    ensures empty { IfOk found (λ file. IsEmptyFile file → result ≡ Err StoreFault.Unusable) }
    ensures other { IfOk found (λ file. ¬ IsEmptyFile file → IsOk result) }
{
    match found {
        Ok(file) if is_empty_file(&file) => Err(StoreFault::Unusable),
        Ok(_) => Ok(()),
        Err(_) => Err(StoreFault::Disk),
    }
}

/// Creates an empty file at `path`, for its owner alone, if there is none. Ignores a failure: opening the file reports
/// it.
fn make_private(rt: &HostRuntime, path: &str) {
    let _made = OpenOptions::new()
        .write(true)
        .create_new(true)
        .mode(0o600)
        .open(rt, path);
}

impl<S: Start> Database<FileStore<FileFrom<S>>> for DatabaseFile<'_, S> {
    ghost use Rattle.sqlite_wal.specs.Files.{image_at};
    ghost use Rattle.oathd_database.specs.File.{FindsFiles};

    ghost finds = { FindsFiles (image_at S.Start) };

    fn files(&self) -> Option<StoreFiles> {
        Some(StoreFiles::at(self.rt, self.path))
    }

    fn connect(self) -> Result<Connection<FileStore<FileFrom<S>>>, StoreFault> {
        let DatabaseFile {
            rt,
            path,
            start,
            is_made,
        } = self;
        if is_made {
            make_private(rt, path);
        } else {
            check_found(fs::metadata(rt, path))?;
        }
        match Connection::open_from(rt, path, false, start) {
            Ok(conn) => Ok(conn),
            Err((_, _)) => Err(StoreFault::Disk),
        }
    }
}
