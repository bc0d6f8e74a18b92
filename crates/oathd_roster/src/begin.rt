//! The command `init` for a member of a cluster that never served: creates its store, and says what was made.
//!
//! Floor: the first free factor of a token at a node.

ghost use Rattle.std.specs.Io.KnownBytes.{Appends};
ghost use Rattle.std.specs.Prelude.{◌≡◌, ◌≢◌, ◌≤◌, false, length, IfErr, IfOk, IfSome, OnOk};
ghost use Rattle.otp_core.specs.Range.{IsMoment};
ghost use Rattle.floor_store.specs.Range.{IsCount};
ghost use Rattle.floor_sql.specs.Usable.{IsNode};
ghost use Rattle.named_store.specs.Opened.{HasSeated};
ghost use Rattle.oathd_database.specs.Users.{IsImported};
ghost use Rattle.oathd_database.specs.declared.fault.Fault.TheVariants.{CannotWrite};
ghost use Rattle.oathd_database.specs.Fault.{IsOutputFault};
ghost use Rattle.oathd_roster.specs.Begun.{HasBegun, IsBegun, IsBegunAt, IsNotBegun, IsNotCreated, begun_text, created_text};
ghost use Rattle.oathd_roster.specs.declared.fault.RosterFault.TheVariants.{Command};

use crate::cluster::NamedCluster;
use crate::enrolment::enrolment_floors;
use crate::fault::RosterFault;
use crate::users::{NamedUsers, read_named_users};
use floor_sql::{Refusal, SqlStore};
use floor_store::{FloorStore, StoreFault};
use named_store::{NamedFault, open_named};
use oathd_database::{Database, Fault, write_fresh, write_made};
use otp_core::{Next, Settings};
use roster_sql::{Bond, Entry, make_named};
use seated_store::SeatedStore;
use sqlite::{Alter, Connection};
use std::alloc::Global;
use std::io::{Read, Write};
use token_file::Book;
use vote_core::Place;

/// The number of boots for each second.
const BOOTS: u64 = 1 << 20;

/// Opens the store of `node` that was created in the tables of `conn`, for the tokens with these entries and floors.
///
/// The store is bound to `own`. Each of the tokens is seen at the row with its name.
///
/// # Errors
/// - Returns `Unusable` if the disk returned something other than what was written.
/// - Returns `Disk` or `Memory` if the store meets one of these failures.
pub fn open_created<S: Alter + Drop>(
    alloc: Global,
    conn: Connection<S>,
    node: u8,
    entries: &[Entry],
    floors: &[Next],
    own: &Bond,
) -> Result<SeatedStore<SqlStore<S>>, StoreFault>
    requires idle { conn.in_transaction ≡ false }
    requires tokens { length entries.now ≤ 10000 }
    requires counted { length floors.now ≡ length entries.now }
    ensures seated { IfOk result (HasSeated S.Store conn node entries.now floors.now own.now) }
    ensures each { IfOk result (λ store. length store.seats ≡ length entries.now) }
{
    let store = match open_named(alloc, conn, node, entries, floors, own) {
        Ok(store) => store,
        Err((_, NamedFault::Store(fault))) => return Err(fault),
        // The disk returned something other than what was written.
        Err((_, NamedFault::AnotherCluster | NamedFault::Full)) => {
            return Err(StoreFault::Unusable);
        }
    };
    if store.tokens() as usize != entries.len() {
        return Err(StoreFault::Unusable);
    }
    Ok(store)
}

/// Creates the store of `node` at `boot` in the tables of `conn`, and opens it.
fn begin_seated<S: Alter + Drop>(
    alloc: Global,
    mut conn: Connection<S>,
    node: u8,
    boot: u64,
    entries: &[Entry],
    floors: &[Next],
    own: &Bond,
) -> Result<SeatedStore<SqlStore<S>>, StoreFault>
    requires idle { conn.in_transaction ≡ false }
    requires node { IsNode node }
    requires boot { IsCount boot }
    requires tokens { length entries.now ≤ 10000 }
    requires counted { length floors.now ≡ length entries.now }
    ensures begun { IfOk result (IsBegunAt S.Store (λ first. first ≡ conn) node boot entries.now floors.now own.now) }
{
    if let Err(Refusal(fault)) = make_named(&mut conn, node, boot, floors, entries, own) {
        return Err(fault);
    }
    open_created(alloc, conn, node, entries, floors, own)
}

/// Creates a store as [`begin_store`] does, and returns it with the tokens of the users file.
fn create_named<R: Read + Drop, S: Alter + Drop, D: Database<S>>(
    alloc: Global,
    users: R,
    settings: Settings,
    moment: u64,
    node: u8,
    cluster: &NamedCluster,
    database: D,
) -> Result<(NamedUsers, SeatedStore<SqlStore<S>>), RosterFault>
    requires moment { IsMoment moment }
    requires node { IsNode node }
    ensures users { IfOk result (λ made. IfSome (R.remaining users)
        (IsImported settings moment 16777216 made.0.users.book made.0.users.floors.items)) }
    ensures begun { IfOk result (λ made. IsBegun S.Store D.finds cluster.now settings moment node
        made.0.users.book made.0.users.floors.items made.1) }
    ensures fault { IfErr result (λ fault. IfSome (R.remaining users)
        (IsNotCreated cluster.now settings moment 16777216 fault)) }
{
    let named = read_named_users(alloc, users, settings, moment, &cluster.salt)?;
    let Ok(floors) = enrolment_floors(alloc, cluster, &named.users, settings, moment) else {
        return Err(RosterFault::Command(Fault::Memory));
    };
    let boot = moment * BOOTS;
    let conn = database.connect()?;
    match begin_seated(
        alloc,
        conn,
        node,
        boot,
        &named.entries,
        &floors,
        &cluster.bond,
    ) {
        Ok(store) => Ok((named, store)),
        Err(fault) => Err(RosterFault::Command(Fault::Store(fault))),
    }
}

/// What the beginning of a cluster rests on.
const BASIS: &[u8] =
    b"it rests on this: no member of the cluster ever served, else used codes are good again\n";

/// Writes what the new store of a member is, as [`write_made`] does. If the secrets of the cluster's new tokens are
/// new, it writes as [`write_fresh`] does.
fn write_created<S: FloorStore, W: Write>(
    cluster: &NamedCluster,
    place: Place,
    store: &S,
    book: &Book,
    settings: Settings,
    moment: u64,
    writer: &mut W,
) -> Result<(), Fault>
    requires { IsMoment moment }
    ensures written { (S.held store.now).is_clean → OnOk result (Appends (W.contents writer.old)
        (W.contents writer.new)
        (created_text cluster.now settings moment place (S.held store.now).content book.now)) }
    ensures fault { IfErr result (IsOutputFault (S.held store.now).fault) }
{
    if cluster.is_fresh {
        write_fresh(place, store, book, moment, writer)
    } else {
        write_made(place, store, book, settings, moment, writer)
    }
}

/// Writes what the new store of a member is, and what its beginning rests on.
fn write_begun<S: FloorStore, W: Write>(
    cluster: &NamedCluster,
    place: Place,
    store: &S,
    book: &Book,
    settings: Settings,
    moment: u64,
    writer: &mut W,
) -> Result<(), Fault>
    requires { IsMoment moment }
    ensures written { (S.held store.now).is_clean → OnOk result (Appends (W.contents writer.old)
        (W.contents writer.new)
        (begun_text cluster.now settings moment place (S.held store.now).content book.now)) }
    ensures fault { IfErr result (IsOutputFault (S.held store.now).fault) }
{
    write_created(cluster, place, store, book, settings, moment, writer)?;
    match writer.write_all(BASIS) {
        Ok(()) => Ok(()),
        Err(_) => Err(Fault::CannotWrite),
    }
}

/// Creates the store of the member at `place`, which never served, and writes what was made: a line of the member, and
/// from when on its time tokens are accepted.
///
/// The tokens of the users file are enrolled at the given moment, in seconds since 1970-01-01 00:00:00 UTC, 0 to
/// 1099511627775, as [`open_named_store`](crate::open_named_store) enrols new ones. The store has 2^20 boots behind it
/// for each second up to the moment. It is bound to the cluster.
///
/// # Errors
/// - Returns the errors of [`read_named_users`]. The database is not opened.
/// - Returns `Command(Store(AlreadyThere))` if the database holds a store.
/// - Returns `Command(Store(Unusable))` if the database has other tables.
/// - Returns `Command(Store(Disk))` or `Command(Store(Memory))` if the store meets one of these failures.
/// - Returns `Command(CannotWrite)` if the output fails. The store was created and stays.
pub fn begin_store<R: Read + Drop, S: Alter + Drop, D: Database<S>, W: Write>(
    alloc: Global,
    users: R,
    settings: Settings,
    moment: u64,
    place: Place,
    cluster: &NamedCluster,
    database: D,
    writer: &mut W,
) -> Result<SeatedStore<SqlStore<S>>, RosterFault>
    requires { IsMoment moment }
    ensures begun { IfOk result (λ store. IfSome (R.remaining users) (HasBegun S.Store D.finds cluster.now settings
        moment 16777216 place store (W.contents writer.old) (W.contents writer.new))) }
    ensures fault { IfErr result (λ fault. IfSome (R.remaining users)
        (IsNotBegun S.Store D.finds cluster.now settings moment 16777216 place.me fault)) }
    ensures quiet { IfErr result (λ fault. fault ≢ Command CannotWrite
        → W.contents writer.new ≡ W.contents writer.old) }
{
    let node = place.me();
    let (named, store) = create_named(alloc, users, settings, moment, node, cluster, database)?;
    let book = &named.users.book;
    write_begun(cluster, place, &store, book, settings, moment, writer)?;
    Ok(store)
}
