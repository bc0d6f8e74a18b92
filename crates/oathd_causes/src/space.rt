//! Looks whether the disk of a database has room.

use crate::file::{FileCause, file_cause_of};
use std::fs::{self, OpenOptions};
use std::io::{self, Write};

/// The end of the name of the file that is written, beside the database.
const ROOM_END: &str = "-room";

/// The number of blocks that are written: together 64 KiB, more than a commit of a node takes.
const BLOCKS: u8 = 16;

/// Writes 64 KiB to a new file at `path`.
fn fill(rt: &HostRuntime, path: &str) -> io::Result<()> {
    let block = [0; 4096];
    let mut file = OpenOptions::new()
        .write(true)
        .create_new(true)
        .open(rt, path)?;
    for _ in 0..BLOCKS {
        file.write_all(&block)?;
    }
    file.sync_all()
}

/// Returns `Full` if a file of 64 KiB cannot be written beside the database at `path` for want of room, `TooLarge` if a
/// file of this process may not be so long, and else None.
///
/// The file is removed. A file with its name, `PATH-room`, is left as it is.
pub(crate) fn space_cause(rt: &HostRuntime, path: &str) -> Option<FileCause> {
    let mut room = String::from_str(rt.alloc(), path).ok()?;
    room.push_str(ROOM_END).ok()?;
    let error = match fill(rt, room.as_str()) {
        Ok(()) => None,
        Err(error) if error.kind() == io::ErrorKind::AlreadyExists => return None,
        Err(error) => Some(error.kind()),
    };
    let _removed = fs::remove_file(rt, room.as_str());
    match file_cause_of(error?) {
        Some(cause @ (FileCause::Full | FileCause::TooLarge)) => Some(cause),
        _ => None,
    }
}
