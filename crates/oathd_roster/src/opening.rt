//! The opening of a store by the names of the tokens of a users file.
//!
//! Floor: the first free factor of a token at a node.

ghost use Rattle.std.specs.Prelude.{◌≡◌, ◌≢◌, [], ℕ, List, false, IfErr, IfOk};
ghost use Rattle.otp_core.specs.Range.{IsMoment};
ghost use Rattle.floor_sql.specs.Calls.{KeepsTables};
ghost use Rattle.named_store.specs.Entries.{entries_of};
ghost use Rattle.oathd_database.specs.Fault.{IsOpenFault};
ghost use Rattle.oathd_database.specs.Users.{IsImported};
ghost use Rattle.oathd_roster.specs.Enrolled.{IsOpenedFor, IsRowsFault, IsServedText, KeepsRows, text_or};
ghost use Rattle.oathd_roster.specs.Opened.{HasOpenedNamed, IsNotOpened};

use crate::cluster::NamedCluster;
use crate::enrolled::enrolled_rows;
use crate::enrolment::enrolment_floors;
use crate::fault::RosterFault;
use crate::users::{NamedUsers, read_named_users};
use floor_sql::{SqlStore, StoreFiles};
use floor_store::{FloorStore, StoreFault};
use named_store::{LookFault, NamedFault, RowCounts, enrol_and_count, look_named};
use oathd_database::{Database, Fault};
use otp_core::Settings;
use roster_sql::Entry;
use seated_store::SeatedStore;
use sqlite::{Alter, Connection};
use std::alloc::Global;

/// Returns the rows of a users file whose tokens have rows in the store of `node`, and the connection, whose tables
/// stay.
///
/// # Errors
/// - Returns `Memory` if the allocator refuses the memory.
/// - Returns `Store` with the fault of the store, or with `Unusable` if it is of another cluster.
fn rows_in<S: Alter + Drop>(
    alloc: Global,
    conn: Connection<S>,
    text: &[u8],
    settings: Settings,
    node: u8,
    cluster: &NamedCluster,
) -> Result<(Connection<S>, Vec<u8>), Fault>
    requires idle { conn.in_transaction ≡ false }
    ensures kept { IfOk result (λ found. KeepsTables S.Store conn found.0) }
    ensures rows { IfOk result (λ found.
        KeepsRows S.Store cluster.now settings conn node text.now found.1.items) }
    ensures fault { IfErr result IsOpenFault }
{
    let looked = match look_named(alloc, conn, node, &[], &cluster.bond, None) {
        Ok(looked) => looked,
        Err((_, LookFault::Named(NamedFault::Store(fault)))) => return Err(Fault::Store(fault)),
        // The disk returned something other than before.
        Err(_) => return Err(Fault::Store(StoreFault::Unusable)),
    };
    let Ok(kept) = enrolled_rows(alloc, text, settings, &cluster.salt, &looked.roster) else {
        return Err(Fault::Memory);
    };
    Ok((looked.store.into_inner().close(), kept))
}

/// Opens the store of `node` in the tables of `conn` for the tokens of a users file, and enrols the new ones. Returns
/// them, the store, the numbers of its rows, and the entry of each row. Returns the connection beside a fault.
///
/// # Errors
/// - Returns `Command(Memory)` if the allocator refuses the memory.
/// - Returns `AnotherCluster` if the store is bound to another cluster.
/// - Returns `Full` if the store has no room for the new tokens. The tables stay.
/// - Returns `Command(Store)` with the fault of the store.
fn open_for<S: Alter + Drop>(
    alloc: Global,
    conn: Connection<S>,
    named: NamedUsers,
    settings: Settings,
    moment: u64,
    node: u8,
    cluster: &NamedCluster,
    files: Option<StoreFiles>,
) -> Result<
    (NamedUsers, SeatedStore<SqlStore<S>>, RowCounts, Vec<Entry>),
    (Connection<S>, RosterFault),
>
    requires moment { IsMoment moment }
    requires idle { conn.in_transaction ≡ false }
    requires entries { named.entries.items ≡ entries_of cluster.now.salt named.users.book }
    ensures users { IfOk result (λ opened. opened.0 ≡ named) }
    ensures opened { IfOk result (λ opened. IsOpenedFor S.Store cluster.now settings moment conn node named.users.book
        named.users.floors.items opened.1 opened.2) }
    ensures fault { IfErr result (λ e. (text : List ℕ)
        → IsImported settings moment 16777216 named.users.book named.users.floors.items text
        → IsNotOpened S.Store (λ first. first ≡ conn) cluster.now settings moment 16777216 node e.1 text) }
    ensures full { IfErr result (λ e. e.1 ≡ RosterFault.Full → KeepsTables S.Store conn e.0) }
{
    let Ok(floors) = enrolment_floors(alloc, cluster, &named.users, settings, moment) else {
        return Err((conn, RosterFault::Command(Fault::Memory)));
    };
    let tokens = named.users.book.len() as u32;
    let (entries, own) = (&named.entries, &cluster.bond);
    match enrol_and_count(alloc, conn, node, entries, &floors, own, files) {
        Ok((store, counts, rows)) => {
            if store.tokens() != tokens {
                // The disk returned something other than what was written.
                let fault = RosterFault::Command(Fault::Store(StoreFault::Unusable));
                return Err((store.into_inner().close(), fault));
            }
            Ok((named, store, counts, rows))
        }
        Err((conn, fault)) => Err((conn, RosterFault::from(fault))),
    }
}

/// Returns the fault of an opening for the rows that a store has.
fn rows_fault(fault: RosterFault) -> RosterFault
    ensures { IsRowsFault result }
{
    match fault {
        RosterFault::Command(Fault::Memory) => RosterFault::Command(Fault::Memory),
        RosterFault::Command(Fault::Store(fault)) => RosterFault::Command(Fault::Store(fault)),
        // The disk returned something other than before.
        _ => RosterFault::Command(Fault::Store(StoreFault::Unusable)),
    }
}

/// Opens the store of `node` in the tables of `conn`, which has no room for the new tokens of a users file, for the
/// other ones. Returns what [`open_for`] does, and the text of these tokens.
///
/// # Errors
/// - Returns `Full` if no token of the users file has a row.
/// - Returns `Command(Memory)` or `Command(Store)` if the store meets one of these failures.
fn open_enrolled<S: Alter + Drop>(
    alloc: Global,
    conn: Connection<S>,
    text: &[u8],
    settings: Settings,
    moment: u64,
    node: u8,
    cluster: &NamedCluster,
    files: Option<StoreFiles>,
) -> Result<
    (
        NamedUsers,
        SeatedStore<SqlStore<S>>,
        RowCounts,
        Vec<Entry>,
        Vec<u8>,
    ),
    RosterFault,
>
    requires moment { IsMoment moment }
    requires idle { conn.in_transaction ≡ false }
    ensures users { IfOk result (λ opened.
        IsImported settings moment 16777216 opened.0.users.book opened.0.users.floors.items opened.4.items) }
    ensures entries { IfOk result (λ opened.
        opened.0.entries.items ≡ entries_of cluster.now.salt opened.0.users.book) }
    ensures opened { IfOk result (λ opened. IsOpenedFor S.Store cluster.now settings moment conn node
        opened.0.users.book opened.0.users.floors.items opened.1 opened.2) }
    ensures rows { IfOk result (λ opened.
        KeepsRows S.Store cluster.now settings conn node text.now opened.4.items) }
    ensures some { IfOk result (λ opened. opened.4.items ≢ []) }
    ensures fault { IfErr result IsRowsFault }
{
    let (conn, kept) = rows_in(alloc, conn, text, settings, node, cluster)?;
    let named = match read_named_users(alloc, kept.as_slice(), settings, moment, &cluster.salt) {
        Ok(named) if named.users.book.len() == 0 => return Err(RosterFault::Full),
        Ok(named) => named,
        // Each of the rows was read before.
        Err(_) => return Err(RosterFault::Command(Fault::Memory)),
    };
    match open_for(alloc, conn, named, settings, moment, node, cluster, files) {
        Ok((named, store, counts, rows)) => Ok((named, store, counts, rows, kept)),
        Err((_, fault)) => Err(rows_fault(fault)),
    }
}

/// Reads a users file, and opens the store of `node` for its tokens.
///
/// The store has to be bound to the cluster. A token is found at the row with its name. A new token is enrolled, with
/// its floor of an import at the given moment, in seconds since 1970-01-01 00:00:00 UTC, 0 to 1099511627775. If the
/// secrets of the cluster's new tokens are new, a time token begins at its step of the moment, less the skew. The floor
/// is greater if a row with the token's seed has a greater one. The floors of the other tokens are the store's.
///
/// If the store has no room for the new tokens, it is opened for the other ones.
///
/// Returns the tokens, the store, the numbers of its rows, and the entry of each row. If new tokens are left out, it
/// returns the text of the other ones too: the rows of `text` whose tokens have rows in the store, as
/// [`enrolled_rows`] keeps them.
///
/// # Errors
/// - Returns the errors of [`read_named_users`]. The database is not opened.
/// - Returns `AnotherCluster` if the store is bound to another cluster.
/// - Returns `Full` if the store has no room for the new tokens, and no token has a row.
/// - Returns `Command(Store(Unusable))` if the tables hold no such store.
/// - Returns `Command(Store(Disk))` or `Command(Store(Memory))` if the store meets one of these failures.
pub fn open_named_store<S: Alter + Drop, D: Database<S>>(
    alloc: Global,
    text: &[u8],
    settings: Settings,
    moment: u64,
    node: u8,
    cluster: &NamedCluster,
    database: D,
) -> Result<
    (
        NamedUsers,
        SeatedStore<SqlStore<S>>,
        RowCounts,
        Vec<Entry>,
        Option<Vec<u8>>,
    ),
    RosterFault,
>
    requires { IsMoment moment }
    ensures users { IfOk result (λ opened. IsImported settings moment 16777216 opened.0.users.book
        opened.0.users.floors.items (text_or text.now opened.4)) }
    ensures entries { IfOk result (λ opened.
        opened.0.entries.items ≡ entries_of cluster.now.salt opened.0.users.book) }
    ensures opened { IfOk result (λ opened. HasOpenedNamed S.Store D.finds cluster.now settings moment node
        opened.0.users.book opened.0.users.floors.items opened.1 opened.2) }
    ensures text { IfOk result (λ opened. IsServedText S.Store cluster.now settings D.finds moment node text.now
        (text_or text.now opened.4)) }
    ensures fault { IfErr result (λ fault. IsNotOpened S.Store D.finds cluster.now settings moment 16777216 node fault
        text.now) }
{
    let named = read_named_users(alloc, text, settings, moment, &cluster.salt)?;
    let (files, again) = (database.files(), database.files());
    let conn = database.connect()?;
    match open_for(alloc, conn, named, settings, moment, node, cluster, files) {
        Ok((named, store, counts, rows)) => Ok((named, store, counts, rows, None)),
        Err((conn, RosterFault::Full)) => {
            let (named, store, counts, rows, kept) = open_enrolled(
                alloc, conn, text, settings, moment, node, cluster, again,
            )?;
            Ok((named, store, counts, rows, Some(kept)))
        }
        Err((_, fault)) => Err(fault),
    }
}
