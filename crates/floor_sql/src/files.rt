//! The files of a store, and whether they still stand at their paths.

use crate::folder::{Folder, FolderLook};
use std::fs::{self, Metadata};
use std::os::unix::fs::MetadataExt;
use std::rt::Files;

/// What tells a file from each other file: its device, its inode, and its number of names.
#[derive(Clone, Copy, Debug, PartialEq, Eq)]
pub struct FileId {
    device: u64,
    inode: u64,
    names: u64,
}

/// Returns what tells the file at `path` from others, or None if its metadata can't be had. Follows links.
pub fn file_id<F: Files>(files: &F, path: &str) -> Option<FileId> {
    Some(file_id_of(&fs::metadata(files, path).ok()?))
}

/// Returns what tells a file of this metadata from others.
pub(crate) fn file_id_of(found: &Metadata) -> FileId {
    FileId {
        device: found.dev(),
        inode: found.ino(),
        names: found.nlink(),
    }
}

/// A file that stood at its path when it was found.
#[derive(Drop)]
struct PlacedFile {
    path: String,
    id: FileId,
}

impl PlacedFile {
    /// Returns the file at `path`, or None if its metadata can't be had.
    fn found(rt: &HostRuntime, path: String) -> Option<Self> {
        let id = file_id(rt, path.as_str())?;
        Some(PlacedFile { path, id })
    }

    /// Returns whether it still stands at its path.
    fn is_in_place(&self, rt: &HostRuntime) -> bool {
        file_id(rt, self.path.as_str()) == Some(self.id)
    }
}

/// The database of a store at its path, and the log beside it.
///
/// The database is looked for before its store is opened, and again at each commit: a file that takes its place
/// meanwhile is seen. The log is looked for once it is there, which the opening sees to.
///
/// While neither their folder nor a name in it changes, a commit looks at the open folder alone, and at the paths ten
/// times a second. Linux gives a file that was looked at another time at its next write, which the next sync of the log
/// has to store.
#[derive(Drop)]
pub struct StoreFiles {
    rt: HostRuntime,
    database: Option<PlacedFile>,
    log: Option<PlacedFile>,
    // The folder of both files, unless the database is behind a link.
    folder: Option<Folder>,
    // The folder when it and both files were last found at their paths, if a later change of a name shows.
    found_in: Option<FolderLook>,
}

/// Returns the database at `path`, or None if it can't be found.
fn database_at(rt: &HostRuntime, path: &str) -> Option<PlacedFile> {
    PlacedFile::found(rt, format!(in rt.alloc(); "{path}").ok()?)
}

/// Returns the log of the database at `path`, which lies beside the file behind links, or None if it can't be found.
fn log_at(rt: &HostRuntime, path: &str) -> Option<PlacedFile> {
    let real = fs::canonicalize(rt, path).ok()?;
    PlacedFile::found(rt, format!(in rt.alloc(); "{}-wal", real.as_str()).ok()?)
}

/// Returns the folder of the database at `path`, or None if it is behind a link or can't be opened.
fn folder_of(rt: &HostRuntime, path: &str) -> Option<Folder> {
    if fs::symlink_metadata(rt, path).ok()?.is_symlink() {
        return None;
    }
    let folder = match path.rsplit_once('/') {
        Some((folder, _)) => folder,
        None => ".",
    };
    Folder::open(rt, format!(in rt.alloc(); "{folder}/").ok()?)
}

impl StoreFiles {
    /// Returns the files of the store at `path`, before it is opened.
    pub fn at(rt: &HostRuntime, path: &str) -> Self {
        StoreFiles {
            rt: *rt,
            database: database_at(rt, path),
            log: None,
            folder: folder_of(rt, path),
            found_in: None,
        }
    }

    /// Returns the files with the log that stands beside the database now.
    pub(crate) fn with_log(self) -> Self {
        let log = match &self.database {
            Some(database) => log_at(&self.rt, database.path.as_str()),
            None => None,
        };
        StoreFiles { log, ..self }
    }

    /// Returns what is found of the open folder now, or None if the database is behind a link.
    fn folder_now(&self) -> Option<FolderLook> {
        self.folder.as_ref()?.look(&self.rt)
    }

    /// Returns whether both files are found at their paths.
    fn are_found(&self) -> bool {
        match (&self.database, &self.log) {
            (Some(database), Some(log)) => {
                database.is_in_place(&self.rt) && log.is_in_place(&self.rt)
            }
            _ => false,
        }
    }

    /// Returns whether each change of what the paths name shows in later looks at the folder.
    fn shows_changes(&self, look: &FolderLook) -> bool {
        match &self.folder {
            Some(folder) => look.is_settled() && folder.is_in_place(&self.rt, look),
            None => false,
        }
    }

    /// Returns whether both files still stand at their paths.
    pub(crate) fn are_in_place(&mut self) -> bool {
        let now = self.folder_now();
        if let (Some(now), Some(before)) = (&now, &self.found_in)
            && now.is_as(before)
        {
            return true;
        }
        let are_found = self.are_found();
        self.found_in = match now {
            Some(now) if are_found && self.shows_changes(&now) => Some(now),
            _ => None,
        };
        are_found
    }
}
