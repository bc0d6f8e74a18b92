//! A power cut within an enrolment leaves the store as it was, or with all new tokens.

use crate::tests::{enrols, four_entries, four_floors, makes, names};
use otp_core::Next;
use roster_sql::{Bond, Entry};
use sqlite::{Connection, FileStore, Files, Options};
use sqlite_disk::{Crash, Disk, Fuse, Memory};
use std::alloc::Global;

type File = Fuse<Memory>;

/// Returns a file with the given bytes, which refuses each call after the given number.
fn file_of(alloc: Global, bytes: &[u8], calls: u64) -> Option<File> {
    let mut file = Memory::new(alloc);
    if !bytes.is_empty() {
        file.write_at(0, bytes).ok()?;
        file.sync().ok()?;
    }
    Some(Fuse::new(file, calls))
}

/// Opens the database in two files.
fn connected(alloc: Global, log: File, db: File) -> Option<Connection<FileStore<File>>> {
    if !log.may_be_used() || !db.may_be_used() {
        return None;
    }
    match Connection::open_files(alloc, Files { log, db }, Options::new(8)) {
        Ok(conn) => Some(conn),
        Err(_) => None,
    }
}

/// Returns the files of a store of version 3 with one token.
fn made(
    alloc: Global,
    floors: &[Next; 4],
    entries: &[Entry; 4],
    own: &Bond,
) -> Option<Files<File>> {
    let log = file_of(alloc, b"", u64::MAX)?;
    let db = file_of(alloc, b"", u64::MAX)?;
    let mut conn = connected(alloc, log, db)?;
    makes(&mut conn, &floors[..1], &entries[..1], own).ok()?;
    conn.close_files().ok()
}

/// Opens the database in copies of two files. The log refuses each call after the given number.
fn limited(alloc: Global, files: &Files<File>, calls: u64) -> Option<Connection<FileStore<File>>> {
    let log = file_of(alloc, files.log.inner().bytes(), calls)?;
    let db = file_of(alloc, files.db.inner().bytes(), u64::MAX)?;
    connected(alloc, log, db)
}

/// Opens the database of a connection after a power cut.
fn after_cut(
    alloc: Global,
    conn: Connection<FileStore<File>>,
) -> Option<Connection<FileStore<File>>> {
    let Files { mut log, mut db } = conn.into_store().close();
    log.crash();
    db.crash();
    connected(alloc, log, db)
}

/// What a power cut leaves of an enrolment.
#[derive(Clone, Copy, Debug, PartialEq, Eq)]
enum Left {
    /// The disk stopped while the database was opened.
    Unopened,
    /// The enrolment failed, and the store is as it was.
    Former,
    /// The enrolment succeeded or failed, and the store has all new tokens.
    Enrolled,
    /// Anything else.
    Broken,
}

/// Enrols two tokens over a log that refuses each call after the given number, and returns what a power cut leaves.
fn cut_after(
    alloc: Global,
    files: &Files<File>,
    calls: u64,
    floors: &[Next; 4],
    entries: &[Entry; 4],
) -> Left {
    let Some(mut conn) = limited(alloc, files, calls) else {
        return Left::Unopened;
    };
    let new = [entries[1], entries[2]];
    let is_done = enrols(&mut conn, 3, 1, &[floors[1], floors[2]], &new).is_ok();
    let Some(mut conn) = after_cut(alloc, conn) else {
        return Left::Broken;
    };
    if names(alloc, &mut conn, &entries[..3]) {
        Left::Enrolled
    } else if !is_done && names(alloc, &mut conn, &entries[..1]) {
        Left::Former
    } else {
        Left::Broken
    }
}

/// The numbers of calls of the log before a cut: within the transaction, and after its commit.
const CUTS: [u64; 5] = [30, 33, 36, 39, 45];

/// Returns whether each cut leaves the former store or the new one, and each of the two is left by a cut.
fn is_atomic(alloc: Global, own: &Bond) -> Option<bool> {
    let floors = four_floors()?;
    let entries = four_entries();
    let files = made(alloc, &floors, &entries, own)?;
    let mut is_former = false;
    let mut is_enrolled = false;
    for calls in CUTS {
        match cut_after(alloc, &files, calls, &floors, &entries) {
            Left::Unopened | Left::Broken => return Some(false),
            Left::Former => is_former = true,
            Left::Enrolled => is_enrolled = true,
        }
    }
    Some(is_former && is_enrolled)
}

#[test]
fn a_power_cut_leaves_the_former_store_or_the_new_one(rt: HostRuntime) {
    let Some(own) = Bond::new(b"names", b"life", 5) else {
        assert!(rt; false, "range");
        return;
    };
    assert!(rt; is_atomic(rt.alloc(), &own) == Some(true));
}
