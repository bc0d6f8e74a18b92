//! Looks at the path of a database for the cause of a fault.
//!
//! Looking opens the database as the command did, which locks the file meanwhile, and writes no row. A file beside it
//! is written and removed, to see whether the disk has room.

use crate::file::{FileCause, file_cause_of};
use crate::named::{Bound, Named, StoreCause, bond_cause, named_cause, unfound_cause};
use crate::remedy::{FileRole, file_remedy};
use crate::space::space_cause;
use cluster_file::Cluster;
use floor_store::StoreFault;
use sqlite::{Connection, Error, ErrorCode, Row};
use std::fs::{self, OpenOptions};
use std::io::Read;

/// The first bytes of a database of SQLite.
const MAGIC: &[u8; 16] = b"SQLite format 3\0";

/// The row that names the node of a store.
const SELECT_SELF: &str = "SELECT version, node, tokens FROM self WHERE id = 1";

/// The store that a command needs, as far as it is known.
#[derive(Clone, Copy, Debug)]
pub struct Expected {
    /// The number of its node.
    pub node: Option<u64>,
    /// The number of rows of the users file.
    pub rows: Option<u64>,
    /// Whether the command creates it.
    pub is_new: bool,
    /// Whether its tokens have names.
    pub is_named: bool,
}

/// Returns the reason why a file cannot be read and written now, or None without a known reason.
fn access_cause(rt: &HostRuntime, path: &str) -> Option<FileCause> {
    match OpenOptions::new().read(true).write(true).open(rt, path) {
        Ok(_file) => None,
        Err(error) => file_cause_of(error.kind()),
    }
}

/// Returns whether the file at `path` begins as a database does.
fn is_database(rt: &HostRuntime, path: &str) -> bool {
    let Ok(mut file) = fs::open(rt, path) else {
        return false;
    };
    let mut first = [0; 16];
    file.read_exact(&mut first).is_ok() && &first == MAGIC
}

/// Returns a reason for the file of a database, with what to do.
fn of_file(cause: FileCause) -> StoreCause {
    StoreCause::File(cause, file_remedy(FileRole::Database, cause))
}

/// Returns the reason why the database at `path` cannot be opened now, or None without a known reason.
fn open_cause(rt: &HostRuntime, path: &str, is_new: bool) -> Option<StoreCause> {
    match access_cause(rt, path) {
        Some(FileCause::Missing) if is_new => return Some(StoreCause::NotMade),
        Some(cause) => return Some(of_file(cause)),
        None => {}
    }
    let opened = Connection::open(rt, path);
    if let Err(Error::SqliteFailure(ErrorCode::DatabaseBusy)) = opened {
        return Some(StoreCause::Held);
    }
    match space_cause(rt, path) {
        Some(cause) => Some(of_file(cause)),
        None if opened.is_err() && !is_database(rt, path) => Some(StoreCause::NoDatabase),
        None => None,
    }
}

/// Returns the number in a column of a row, or None if it is not an integer of at least 0.
fn number_at(row: &Row, column: usize) -> Option<u64> {
    let number: i64 = row.get(column).ok()?;
    u64::try_from(number).ok()
}

/// Returns what the tables of the database at `path` say of their store, or `None` if they are not a store's. Does not
/// open an empty file: that would make it a database.
fn named_in(rt: &HostRuntime, path: &str) -> Option<Named> {
    if !is_database(rt, path) {
        return None;
    }
    let mut conn = Connection::open(rt, path).ok()?;
    let row = conn.query_row(SELECT_SELF, &[]).ok()?;
    Some(Named {
        version: number_at(&row, 0)?,
        node: number_at(&row, 1)?,
        tokens: number_at(&row, 2)?,
    })
}

/// The row that has the names and the life of the cluster of a store, and the number of its members.
const SELECT_BOND: &str = "SELECT names, life, members FROM bond WHERE id = 1";

/// Returns what differs between the cluster that the store in the database at `path` is bound to and this one, or
/// None if its tables don't say it.
pub(crate) fn bond_cause_in(
    rt: &HostRuntime,
    path: &str,
    cluster: &Cluster<'_>,
) -> Option<StoreCause> {
    if !is_database(rt, path) {
        return None;
    }
    let mut conn = Connection::open(rt, path).ok()?;
    let row = conn.query_row(SELECT_BOND, &[]).ok()?;
    let names: Vec<u8> = row.get(0).ok()?;
    let life: Vec<u8> = row.get(1).ok()?;
    let bound = Bound {
        has_names: names.as_slice() == cluster.names?,
        has_life: life.as_slice() == cluster.life,
        members: number_at(&row, 2)?,
    };
    bond_cause(bound, cluster.members.len() as u64)
}

/// Returns what is found at `path` after the fault of a store, or None.
fn found_cause(
    rt: &HostRuntime,
    path: &str,
    fault: StoreFault,
    expected: Expected,
) -> Option<StoreCause> {
    match fault {
        StoreFault::Disk => open_cause(rt, path, expected.is_new),
        StoreFault::AlreadyThere => Some(StoreCause::HasStore),
        StoreFault::Unusable if expected.is_new => Some(StoreCause::OtherTables),
        StoreFault::Unusable => match named_in(rt, path) {
            Some(named) => named_cause(named, expected.is_named, expected.node, expected.rows),
            None => Some(StoreCause::NoStore),
        },
        StoreFault::Memory | StoreFault::Spent => None,
    }
}

/// Returns the reason why the store in the file at `path` cannot be used now, or `None` if there is nothing to say.
///
/// Called after the fault of a store has ended a command.
pub fn store_cause(
    rt: &HostRuntime,
    path: &str,
    fault: StoreFault,
    expected: Expected,
) -> Option<StoreCause> {
    found_cause(rt, path, fault, expected).or(unfound_cause(fault))
}
