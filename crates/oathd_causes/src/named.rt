ghost use Rattle.std.specs.Prelude.{◌≡◌};
ghost use Rattle.oathd_causes.specs.Named.{bond_cause, named_cause, node_cause, tokens_cause, version_cause};
ghost use Rattle.oathd_causes.specs.Remedies.{unfound_cause};

use crate::file::FileCause;
use crate::remedy::FileRemedy;
use floor_store::StoreFault;
use thiserror::Error;

/// The reason why the store of a database cannot be used, and what to do.
#[derive(Clone, Copy, Debug, PartialEq, Eq, Error)]
pub enum StoreCause {
    #[error("{0}: {1}")]
    File(FileCause, FileRemedy),
    #[error("can't be made there: make its folder, with the right to write in it")]
    NotMade,
    #[error("held by another process: stop that process, or wait for it")]
    Held,
    #[error("not a database: mend the path, or replace a damaged database by oathd init --lost")]
    NoDatabase,
    /// The disk failed, and nothing shows why.
    #[error("no cause was found: look at the disk and at ulimit -f, and try again: nothing that got OK is lost")]
    Failed,
    /// The store is unusable, and nothing shows why.
    #[error("no cause was found: if a table of it is damaged, replace it by oathd init --lost")]
    Damaged,
    #[error("removed or replaced while it was in use: put the former file back, or replace the store by init --lost")]
    Replaced,
    #[error("holds no store: mend the path, put its -wal file back, or replace it by init --lost; init is for a new node")]
    NoStore,
    #[error("holds tables of a store already: serve it, or name another file; never delete a database that served")]
    HasStore,
    #[error("holds other tables than a store's: name another file")]
    OtherTables,
    #[error("a store of version 1: oathd migrate makes version 2 of it")]
    VersionOne,
    #[error("a store of version 2, without names: oathd migrate --cluster gives its tokens names")]
    Unnamed,
    #[error("a store of version 3, by names: give --cluster with its cluster file, which has a line names")]
    ByNames,
    #[error("the store of another cluster: its names differ: mend the file or the path")]
    OtherNames,
    #[error("the store of another cluster: its life differs: mend the file or the path")]
    OtherLife,
    /// The number of members of the cluster that the store is bound to, and that of the cluster file.
    #[error("the store of another cluster: it has {0} members, the file {1}: mend the file or the path")]
    OtherMembers(u64, u64),
    /// The store has no room for the new tokens.
    #[error("at most 65536 rows, retired ones too: take the new tokens out of the users file, and the others go on")]
    Full,
    /// The store has a version that this program doesn't know.
    #[error("a store of version {0}: use the oathd that made it, or a newer one")]
    Version(u64),
    /// The node of the store, and the node that the command needs.
    #[error("the store of node {0}, not {1}: give --node {0}, or the database of node {1}")]
    OtherNode(u64, u64),
    /// The number of the store's tokens, and the number of the users file's rows.
    #[error("{0} rows, {1} in the users file: give the file with which it was made; to change users use init --anew")]
    OtherRows(u64, u64),
}

/// Returns what to say of a store of which no cause was found, by its fault, or None.
pub(crate) fn unfound_cause(fault: StoreFault) -> Option<StoreCause>
    ensures { result ≡ unfound_cause fault }
{
    match fault {
        StoreFault::Disk => Some(StoreCause::Failed),
        StoreFault::Unusable => Some(StoreCause::Damaged),
        StoreFault::Memory | StoreFault::Spent | StoreFault::AlreadyThere => None,
    }
}

/// What the tables of a store say of it: its version, the number of its node, and its number of tokens.
#[derive(Clone, Copy, Debug, PartialEq, Eq)]
pub struct Named {
    pub version: u64,
    pub node: u64,
    pub tokens: u64,
}

/// Returns the reason why a store of this version cannot be used by names or without them, or None.
fn version_cause(is_named: bool, version: u64) -> Option<StoreCause>
    ensures { result ≡ version_cause is_named version }
{
    match version {
        1 => Some(StoreCause::VersionOne),
        2 if is_named => Some(StoreCause::Unnamed),
        2 => None,
        3 if is_named => None,
        3 => Some(StoreCause::ByNames),
        _ => Some(StoreCause::Version(version)),
    }
}

/// Returns the reason why the store is not the node's, or None.
fn node_cause(node: u64, asked: Option<u64>) -> Option<StoreCause>
    ensures { result ≡ node_cause node asked }
{
    match asked {
        Some(asked) if node != asked => Some(StoreCause::OtherNode(node, asked)),
        _ => None,
    }
}

/// Returns the reason why the store is not the users file's, or None.
fn tokens_cause(tokens: u64, rows: Option<u64>) -> Option<StoreCause>
    ensures { result ≡ tokens_cause tokens rows }
{
    match rows {
        Some(rows) if tokens != rows => Some(StoreCause::OtherRows(tokens, rows)),
        _ => None,
    }
}

/// Returns the reason why a store is not the one that a command needs, or None.
///
/// A command needs version 3 if `is_named`, else version 2, and, as far as they are known, the node and the number of
/// rows.
pub fn named_cause(
    named: Named,
    is_named: bool,
    node: Option<u64>,
    rows: Option<u64>,
) -> Option<StoreCause>
    ensures { result ≡ named_cause named is_named node rows }
{
    version_cause(is_named, named.version)
        .or(node_cause(named.node, node))
        .or(tokens_cause(named.tokens, rows))
}

/// The cluster that a store is bound to, beside that of a cluster file.
#[derive(Clone, Copy, Debug, PartialEq, Eq)]
pub struct Bound {
    /// Whether it has the same names.
    pub has_names: bool,
    /// Whether it has the same life.
    pub has_life: bool,
    /// The number of its members.
    pub members: u64,
}

/// Returns what differs between the cluster that a store is bound to and that of a cluster file with `members` members,
/// or None. Of several differences it is the first: names, life, members.
pub fn bond_cause(bound: Bound, members: u64) -> Option<StoreCause>
    ensures { result ≡ bond_cause bound members }
{
    if !bound.has_names {
        return Some(StoreCause::OtherNames);
    }
    if !bound.has_life {
        return Some(StoreCause::OtherLife);
    }
    if bound.members != members {
        return Some(StoreCause::OtherMembers(bound.members, members));
    }
    None
}
