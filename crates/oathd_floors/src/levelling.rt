//! The command `level` by names: raises the floors of a stopped node to the greatest in floors files.

ghost use Rattle.std.specs.Prelude.{◌≡◌, false, map, IfErr, IfOk};
ghost use Rattle.floors_file.specs.Named.{named_value};
ghost use Rattle.floors_file.specs.NamedGathered.{gathered_rows};
ghost use Rattle.oathd_database.specs.declared.fault.Fault.TheVariants.{Memory};
ghost use Rattle.oathd_floors.specs.Files.{TakingRecord};
ghost use Rattle.oathd_floors.specs.Levelled.{HasLevelled, IsNotLevelled};

use crate::fault::NamedFloorsFault;
use crate::files::{Taking, read_files};
use crate::rows::open_rows;
use floor_sql::SqlStore;
use floors_file::{NamedFloor, NamedFloors, gather_named};
use named_floors::level_named;
use oathd_database::{Database, Fault};
use oathd_roster::{NamedCluster, RosterFault};
use sqlite::Alter;
use std::alloc::Global;

/// Returns each name of any file with its greatest floor.
fn gathered_of(alloc: Global, files: &[NamedFloors<'_>]) -> Result<Vec<NamedFloor>, Fault>
    ensures rows { IfOk result (λ rows. rows.items ≡ gathered_rows (map named_value files.now)) }
    ensures fault { IfErr result (λ fault. fault ≡ Memory) }
{
    match gather_named(alloc, files) {
        Ok(gathered) => Ok(gathered),
        Err(_) => Err(Fault::Memory),
    }
}

/// Raises the floors of a stopped node's store to the greatest in the texts of floors files, by names.
///
/// Each file must be of the cluster, and its MAC under `key`, the own key of the cluster. `now` is the present time, in
/// seconds since 1970-01-01 00:00:00 UTC. A row whose name is in no file keeps its floor, and a name without a row is
/// passed over. The rest of a row stays. Messages of other members with these floors would have the same effect. The
/// database is opened after every text is taken.
///
/// # Errors
/// - Returns `Floors` with the first text that is not such a floors file. The database is not opened.
/// - Returns `Files` with `Cluster` for a file of another cluster. The database is not opened.
/// - Returns `Ahead` for a file that was read after `now`. The database is not opened.
/// - Returns `Roster(AnotherCluster)` if the store is bound to another cluster.
/// - Returns `Roster(Command(Store))` if the tables hold no store of `node` by names, or the store fails. Then the
///   floors of a prefix of the rows may be raised.
/// - Returns `Roster(Command(Memory))` if the allocator refuses the memory.
pub fn level_named_store<S: Alter + Drop, D: Database<S>>(
    alloc: Global,
    node: u8,
    now: u64,
    cluster: &NamedCluster,
    key: &[u8],
    texts: &[Vec<u8>],
    database: D,
) -> Result<SqlStore<S>, NamedFloorsFault>
    ensures levelled { IfOk result (HasLevelled S.Store D.finds (record {
      key = key.now;
      own = cluster.now.bond;
      is_anew = false;
      now = now;
    }) node (map (λ text. text.items) texts.now)) }
    ensures fault { IfErr result (IsNotLevelled S.Store D.finds (record {
      key = key.now;
      own = cluster.now.bond;
      is_anew = false;
      now = now;
    }) (map (λ text. text.items) texts.now)) }
{
    let taking = Taking {
        key,
        own: &cluster.bond,
        is_anew: false,
        now,
    };
    let files = match read_files(alloc, taking, texts) {
        Ok(files) => files,
        Err(fault) => return Err(fault),
    };
    let gathered = gathered_of(alloc, &files)?;
    let (roster, mut store) = open_rows(alloc, node, cluster, database)?;
    match level_named(alloc, &mut store, &roster, &gathered) {
        Ok(()) => Ok(store),
        Err(fault) => Err(NamedFloorsFault::Roster(RosterFault::Command(Fault::Store(fault)))),
    }
}
