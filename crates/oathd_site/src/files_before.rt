//! Looks whether a database and its log are still the files at their paths.

use floor_sql::{FileId, file_id};
use std::fs;

/// The files that were at the path of a database and beside it before a command, as far as they were there.
#[derive(Clone, Copy, Debug, PartialEq, Eq)]
pub struct FilesBefore {
    database: Option<FileId>,
    log: Option<FileId>,
}

/// Returns what tells the log of the database at `path` from other files, or None if it can't be found.
fn log_id(rt: &HostRuntime, path: &str) -> Option<FileId> {
    let real = fs::canonicalize(rt, path).ok()?;
    let log = format!(in rt.alloc(); "{}-wal", real.as_str()).ok()?;
    file_id(rt, log.as_str())
}

/// Returns whether a file that was there is there no more.
fn is_gone(was: Option<FileId>, now: Option<FileId>) -> bool {
    was.is_some() && was != now
}

impl FilesBefore {
    /// Returns the files that are at `path` and beside it now.
    pub fn at(rt: &HostRuntime, path: &str) -> Self {
        FilesBefore {
            database: file_id(rt, path),
            log: log_id(rt, path),
        }
    }

    /// Returns whether one of them is there no more: it was removed, or another file took its place.
    pub fn is_replaced(&self, rt: &HostRuntime, path: &str) -> bool {
        let now = FilesBefore::at(rt, path);
        is_gone(self.database, now.database) || is_gone(self.log, now.log)
    }
}
