//! Opens a store by names with all its rows.

ghost use Rattle.std.specs.Prelude.{◌≡◌, false, length, IfErr, IfOk};
ghost use Rattle.oathd_floors.specs.Rows.{HasRows, IsNotRead, rows_fault_of};

use floor_sql::SqlStore;
use floor_store::StoreFault;
use named_store::{LookFault, look_named};
use oathd_database::{Database, Fault};
use oathd_roster::{NamedCluster, RosterFault};
use roster_sql::Entry;
use sqlite::Alter;
use std::alloc::Global;

/// Returns the fault of a command if no rows are seen.
fn fault_of(fault: LookFault) -> RosterFault
    ensures { result ≡ rows_fault_of fault }
{
    match fault {
        LookFault::Named(fault) => RosterFault::from(fault),
        // No token was looked for.
        LookFault::NotEnrolled { .. } => RosterFault::Command(Fault::Store(StoreFault::Unusable)),
    }
}

/// Opens the store of `node` with all its rows, and returns the entry of each. Nothing is enrolled or written.
///
/// # Errors
/// - Returns `AnotherCluster` if the store is bound to another cluster.
/// - Returns `Command(Store(Unusable))` if the tables hold no such store.
/// - Returns `Command(Store(Disk))` or `Command(Store(Memory))` if the store meets such a failure.
pub(crate) fn open_rows<S: Alter + Drop, D: Database<S>>(
    alloc: Global,
    node: u8,
    cluster: &NamedCluster,
    database: D,
) -> Result<(Vec<Entry>, SqlStore<S>), RosterFault>
    ensures opened { IfOk result (λ rows. HasRows S.Store D.finds cluster.now.bond node rows.0.items rows.1) }
    ensures each { IfOk result (λ rows. length rows.1.mirror.rows ≡ length rows.0.items) }
    ensures fault { IfErr result (IsNotRead S.Store D.finds cluster.now.bond) }
{
    let files = database.files();
    let conn = database.connect()?;
    match look_named(alloc, conn, node, &[], &cluster.bond, files) {
        Ok(looked) => Ok((looked.roster, looked.store.into_inner())),
        Err((_left, fault)) => Err(fault_of(fault)),
    }
}
