//! The commands `init --lost` and `init --anew` by names: creates a replacement store from floors files.

ghost use Rattle.std.specs.Prelude.{◌≡◌, ◌≢◌, ◌≤◌, ◌<◌, ◌^◌, false, length, map, IfErr, IfOk, IfSome};
ghost use Rattle.otp_core.specs.Range.{IsMoment};
ghost use Rattle.floor_store.specs.Range.{IsCount};
ghost use Rattle.floor_sql.specs.Usable.{IsNode};
ghost use Rattle.floors_file.specs.Gathered.{fault_of};
ghost use Rattle.floors_file.specs.Named.{named_value};
ghost use Rattle.named_store.specs.Seating.{AreDistinct};
ghost use Rattle.oathd_database.specs.declared.fault.Fault.TheVariants.{CannotWrite};
ghost use Rattle.oathd_floors.specs.Remade.{HasRemade, IsGathered, IsInsufficient, IsMadeAgain, IsNotMadeAgain, IsNotRemade, gather_fault};
ghost use Rattle.oathd_floors.specs.declared.fault.NamedFloorsFault.TheVariants.{Roster};
ghost use Rattle.oathd_roster.specs.declared.fault.RosterFault.TheVariants.{Command};

use crate::fault::NamedFloorsFault;
use crate::files::{Taking, read_files};
use floor_sql::SqlStore;
use floors_file::{Asked, FilesFault, NamedFloors, check_named_anew, check_named_lost};
use named_floors::make_from_floors;
use oathd_database::{Database, Fault, drifted_floors, write_store};
use oathd_roster::{NamedCluster, RosterFault, open_created, read_named_users};
use otp_core::{Next, Settings};
use roster_sql::{Bond, Entry};
use seated_store::SeatedStore;
use sqlite::{Alter, Connection};
use std::alloc::Global;
use std::io::{Read, Write};
use vote_core::Place;

/// The number of boots for each second.
const BOOTS: u64 = 1 << 20;

/// The floors files of former stores, and what they must be.
#[derive(Clone, Copy, Debug)]
pub struct Former<'a> {
    /// The lost nodes, with the node itself, or None if the whole cluster is replaced.
    pub lost: Option<&'a [u8]>,
    /// The moment after which the files were read, in seconds since 1970-01-01 00:00:00 UTC: 0 to 1099511627775.
    pub since: u64,
    /// The present time, in the same seconds and range.
    pub now: u64,
    /// The texts of the files.
    pub texts: &'a [Vec<u8>],
}

/// Checks that the floors files are sufficient to replace the store of `node`.
fn check(
    asked: Asked,
    node: u8,
    lost: Option<&[u8]>,
    files: &[NamedFloors<'_>],
) -> Result<(), FilesFault>
    ensures { fault_of result ≡ gather_fault asked node lost.entry (map named_value files.now) }
{
    match lost {
        Some(lost) => check_named_lost(asked, node, lost, files),
        None => check_named_anew(asked, files),
    }
}

/// Returns the files from which the store of `node` is made.
fn gathered_files<'a>(
    alloc: Global,
    node: u8,
    own: &Bond,
    key: &[u8],
    former: Former<'a>,
) -> Result<Vec<NamedFloors<'a>>, NamedFloorsFault>
    requires since { IsMoment former.since }
    requires now { IsMoment former.now }
    ensures files { IfOk result (λ files. IsGathered key.now own.now node former.entry (map named_value files.items)) }
    ensures fault { IfErr result (IsInsufficient key.now own.now node former.entry) }
{
    let taking = Taking {
        key,
        own,
        is_anew: former.lost.is_none(),
        now: former.now,
    };
    let files = match read_files(alloc, taking, former.texts) {
        Ok(files) => files,
        Err(fault) => return Err(fault),
    };
    let asked = Asked {
        since: former.since + 1,
        boot: former.now * BOOTS,
    };
    match check(asked, node, former.lost, &files) {
        Ok(()) => Ok(files),
        Err(fault) => Err(NamedFloorsFault::Files(fault)),
    }
}

/// Creates the store of `node` at `boot` from floors files in the tables of `conn`, and opens it.
fn make_seated<S: Alter + Drop>(
    alloc: Global,
    mut conn: Connection<S>,
    node: u8,
    boot: u64,
    entries: &[Entry],
    floors: &[Next],
    files: &[NamedFloors<'_>],
    own: &Bond,
) -> Result<SeatedStore<SqlStore<S>>, RosterFault>
    requires idle { conn.in_transaction ≡ false }
    requires node { IsNode node }
    requires boot { IsCount boot }
    requires tokens { length entries.now ≤ 10000 }
    requires counted { length floors.now ≡ length entries.now }
    ensures made { IfOk result (IsMadeAgain S.Store (λ first. first ≡ conn) node boot (map named_value files.now)
        entries.now floors.now own.now) }
    ensures fault { IfErr result (IsNotMadeAgain (map named_value files.now) entries.now) }
{
    if let Err(fault) = make_from_floors(
        alloc, &mut conn, node, boot, entries, floors, files, own,
    ) {
        return Err(RosterFault::from(fault));
    }
    let store = open_created(alloc, conn, node, entries, floors, own)?;
    Ok(store)
}

/// Creates a store in place of a lost one, from floors files by names, in a database without a table, and writes what
/// was made, as [`write_store`] does.
///
/// The store has a row for each name of any file, with its greatest floor, and after them one for each token of the
/// users file whose name is in no file. The floor of such a token is that of an import at `moment`, in seconds since
/// 1970-01-01 00:00:00 UTC, 0 to 1099511627775, or a greater one of a row with its seed. The new boot is the present
/// time, `former.now`, times 2^20. It must be above each boot that a file has of its node, or has heard of `place`. The
/// store is bound to the cluster.
///
/// Each file must have its MAC under `key`, the own key of the cluster, and be read after `former.since`. If
/// `former.lost` is a list, the files are of the cluster, it and the nodes of the files are all members, and fewer than
/// a majority are lost. If it is `None`, the whole cluster is replaced. Then the files are of the cluster's names, may
/// be of another life and another number of members, and each majority of the former members has a file. The database
/// is opened after the files are found sufficient.
///
/// # Errors
/// - Returns `Roster` with the errors of [`read_named_users`]. The database is not opened.
/// - Returns `Floors` with the first text that is not such a floors file. The database is not opened.
/// - Returns `Files` if a file is of another cluster, or the files are insufficient. The database is not opened.
/// - Returns `Ahead` for a file that was read after the present time. The database is not opened.
/// - Returns `Roster(Full)` if there are more than 65,536 rows. Nothing is created.
/// - Returns `Roster(Command(Store))` if the database has a table, or the store fails.
/// - Returns `Roster(Command(CannotWrite))` if the output fails. The store was created and stays.
pub fn remake_named_store<R: Read + Drop, S: Alter + Drop, D: Database<S>, W: Write>(
    alloc: Global,
    users: R,
    settings: Settings,
    moment: u64,
    place: Place,
    cluster: &NamedCluster,
    key: &[u8],
    former: Former<'_>,
    database: D,
    writer: &mut W,
) -> Result<SeatedStore<SqlStore<S>>, NamedFloorsFault>
    requires moment { IsMoment moment }
    requires since { IsMoment former.since }
    requires now { IsMoment former.now }
    ensures made { IfOk result (λ store. IfSome (R.remaining users) (HasRemade S.Store D.finds cluster.now key.now
        settings moment 16777216 place former.entry store (W.contents writer.old) (W.contents writer.new))) }
    ensures fault { IfErr result (λ fault. IfSome (R.remaining users)
        (IsNotRemade S.Store D.finds cluster.now key.now settings moment 16777216 place former.entry fault)) }
    ensures quiet { IfErr result (λ fault. fault ≢ Roster (Command CannotWrite)
        → W.contents writer.new ≡ W.contents writer.old) }
{
    let named = read_named_users(alloc, users, settings, moment, &cluster.salt)?;
    let Ok(floors) = drifted_floors(alloc, &named.users, settings.drift()) else {
        return Err(NamedFloorsFault::Roster(RosterFault::Command(Fault::Memory)));
    };
    let (node, own) = (place.me(), &cluster.bond);
    let files = match gathered_files(alloc, node, own, key, former) {
        Ok(files) => files,
        Err(fault) => return Err(fault),
    };
    let conn = match database.connect() {
        Ok(conn) => conn,
        Err(fault) => return Err(NamedFloorsFault::Roster(RosterFault::Command(Fault::Store(
            fault,
        )))),
    };
    let boot = former.now * BOOTS;
    let store = make_seated(
        alloc,
        conn,
        node,
        boot,
        &named.entries,
        &floors,
        &files,
        own,
    )?;
    write_store(place, &store, writer)?;
    Ok(store)
}
