//! Finds the cause of a fault of a command over a database, which has a line of its own.

use crate::address::{AddressCause, address_cause, address_in};
use crate::database::{Expected, store_cause};
use crate::file::{FileCause, file_cause};
use crate::floors::FloorsAdvice;
use crate::key::{KeyCause, key_cause};
use crate::named::StoreCause;
use crate::names::Names;
use crate::remedy::{FileRemedy, FileRole, file_remedy, role_among};
use crate::roster::NamesAdvice;
use crate::socket::{SocketCause, socket_cause};
use crate::user::User;
use cluster_file::{ClusterFault, LineFault, read_cluster};
use floor_store::StoreFault;
use oathd_database::read_users;
use oathd_tasks::{PATH_ADVICE, RowAdvice, clients_advice, cluster_advice, file_text, row_advice};
use otp_core::Settings;
use std::alloc::Global;
use std::fs;
use std::net::SocketAddrV4;
use thiserror::Error;

/// The longest users file, in bytes.
const MAX_USERS_LEN: u32 = 16_777_216;

/// The path or the address of a fault, what was found there afterwards, and what to do.
#[derive(Clone, Copy, Debug, PartialEq, Eq, Error)]
pub enum Cause<'a> {
    #[error("{0}")]
    Path(&'a str),
    #[error("{0}: {1}: {2}")]
    File(&'a str, FileCause, FileRemedy),
    /// What to do about a file.
    #[error("{0}: {1}")]
    Advice(&'a str, &'static str),
    /// The number of a line of a file, and what to do.
    #[error("{0} line {1}: {2}")]
    Line(&'a str, u64, &'static str),
    /// The number of a line of a users file, the user of its row, and what to do.
    #[error("{0} line {1}, user {2}: {3}")]
    Row(&'a str, u64, User, &'static str),
    /// The number of the member that a cluster file lacks.
    #[error("{0}: give --node the number of a member in it, or add member {1} to the file of all members")]
    NoMember(&'a str, u8),
    #[error("{0}: no row has this user: give the name as it stands there, byte for byte")]
    NoUser(&'a str),
    #[error("{0}: {1}")]
    Key(&'a str, KeyCause),
    #[error("{0}: {1}")]
    Member(&'a str, AddressCause),
    #[error("{0}: {1}")]
    Store(&'a str, StoreCause),
    #[error("{0}")]
    Address(SocketAddrV4),
    #[error("{0}: {1}")]
    Socket(SocketAddrV4, SocketCause),
    /// What to do about a cluster file that gives names or none, or about a users file.
    #[error("{0}: {1}")]
    Names(&'a str, NamesAdvice),
    #[error("{0}: its token has no row in the store: start the node with it first, or take the last file")]
    Enrol(&'a str),
    /// What to do about floors files, whose paths the fault names.
    #[error("{0}")]
    Floors(FloorsAdvice),
}

impl Cause<'_> {
    /// Returns whether a file of the store was removed or replaced while the store was in use.
    pub fn is_replaced(&self) -> bool {
        matches!(self, Cause::Store(_, StoreCause::Replaced))
    }
}

/// Returns the number of rows of the users file at `path`, or None if it cannot be read again, as a pipe can't.
fn rows_of(alloc: Global, rt: &HostRuntime, path: &str) -> Option<u64> {
    if !fs::metadata(rt, path).ok()?.is_file() {
        return None;
    }
    let file = fs::open(rt, path).ok()?;
    let users = read_users(alloc, file, Settings::default(), 0).ok()?;
    Some(users.book.len() as u64)
}

/// Returns whether the text of a cluster file gives names.
fn has_names(alloc: Global, text: &[u8]) -> bool {
    match read_cluster(alloc, text) {
        Ok(cluster) => cluster.names.is_some(),
        Err(_) => false,
    }
}

/// Returns the cause of a fault of a store.
fn of_store<'a>(
    alloc: Global,
    rt: &HostRuntime,
    names: Names<'a>,
    is_named: bool,
    fault: StoreFault,
) -> Cause<'a> {
    let rows = match fault {
        StoreFault::Unusable if !is_named => rows_of(alloc, rt, names.users),
        _ => None,
    };
    let expected = Expected {
        node: names.node.map(u64::from),
        rows,
        is_new: names.is_new,
        is_named,
    };
    if fault == StoreFault::Disk && names.is_replaced(rt) {
        return Cause::Store(names.database, StoreCause::Replaced);
    }
    match store_cause(rt, names.database, fault, expected) {
        Some(cause) => Cause::Store(names.database, cause),
        None => Cause::Path(names.database),
    }
}

/// Returns the cause of a fault of a socket at `address`.
fn of_socket<'a>(rt: &HostRuntime, address: SocketAddrV4) -> Cause<'a> {
    match socket_cause(rt, address) {
        Some(cause) => Cause::Socket(address, cause),
        None => Cause::Address(address),
    }
}

/// Returns the cause for which the file at `path` cannot be read, or None if it can be read now.
fn of_file<'a>(rt: &HostRuntime, role: FileRole, path: &'a str) -> Option<Cause<'a>> {
    let cause = file_cause(rt, path)?;
    Some(Cause::File(path, cause, file_remedy(role, cause)))
}

/// Returns what to say of a fault at a line of the users file at `path`.
fn of_row<'a>(path: &'a str, line: u32, row: RowAdvice<'_>) -> Cause<'a> {
    let number = u64::from(line);
    match row.user {
        Some(user) => Cause::Row(path, number, User::new(user), row.advice),
        None => Cause::Line(path, number, row.advice),
    }
}

/// Returns the cause of a fault of the cluster file with this text.
fn of_cluster<'a>(path: &'a str, text: &[u8], fault: ClusterFault) -> Cause<'a> {
    match (fault.kind, address_in(text, fault.line)) {
        (LineFault::BadAddress, Some(address)) => Cause::Member(path, address_cause(address)),
        _ => Cause::Line(path, fault.line, cluster_advice(fault.kind)),
    }
}

/// Returns the cause of a fault of a command that reads files, or None if the fault has none.
///
/// `text` is the content of the cluster file that the words name.
pub fn task_cause<'a>(
    alloc: Global,
    rt: &HostRuntime,
    names: Names<'a>,
    text: &'a [u8],
    fault: oathd_tasks::Fault<'a>,
) -> Option<Cause<'a>> {
    match fault {
        oathd_tasks::Fault::CannotReadFile(path) => {
            let key = names.key_path(alloc, text);
            let role = role_among(names.cluster, key, names.clients, names.users, path);
            of_file(rt, role, path)
        }
        oathd_tasks::Fault::Run(oathd_lines::Fault::BadKey(fault)) => {
            let path = names.key_path(alloc, text)?;
            Some(Cause::Key(path, key_cause(fault)))
        }
        oathd_tasks::Fault::ClusterFile(fault) => Some(of_cluster(names.cluster?, text, fault)),
        oathd_tasks::Fault::NoMember(number) => Some(Cause::NoMember(names.cluster?, number)),
        oathd_tasks::Fault::KeyPath => Some(Cause::Advice(names.cluster?, PATH_ADVICE)),
        oathd_tasks::Fault::ClientsFile(fault) => {
            let advice = clients_advice(fault.kind);
            Some(Cause::Line(names.clients?, fault.line, advice))
        }
        _ => None,
    }
}

/// Returns the cause of a fault of a command over a database, or None if the fault has none.
///
/// `text` is the content of the cluster file that the words name.
pub fn database_cause<'a>(
    alloc: Global,
    rt: &HostRuntime,
    names: Names<'a>,
    text: &[u8],
    fault: oathd_database::Fault,
) -> Option<Cause<'a>> {
    match fault {
        oathd_database::Fault::Store(fault) => {
            let is_named = has_names(alloc, text) && !names.is_naming;
            Some(of_store(alloc, rt, names, is_named, fault))
        }
        oathd_database::Fault::Users(fault) => {
            let unread = of_file(rt, FileRole::Users, names.users);
            let rows = file_text(alloc, rt, names.users, MAX_USERS_LEN).unwrap_or(Vec::new(alloc));
            let row = of_row(names.users, fault.line, row_advice(&rows, fault));
            unread.or(Some(row))
        }
        oathd_database::Fault::Socket => {
            let address = names.own_address(alloc, text)?;
            Some(of_socket(rt, address))
        }
        _ => None,
    }
}
