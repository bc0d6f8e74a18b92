//! The command `floors` by names: prints the floors file of a stopped node.

ghost use Rattle.std.specs.Prelude.{◌≡◌, ◌≢◌, IfErr, IfOk, OnOk};
ghost use Rattle.std.specs.Io.KnownBytes.{Appends};
ghost use Rattle.floors_file.specs.Named.{named_value};
ghost use Rattle.floors_file.specs.NamedWriting.{named_floors_text};
ghost use Rattle.oathd_database.specs.declared.fault.Fault.TheVariants.{CannotWrite};
ghost use Rattle.oathd_floors.specs.Told.{EndsTold, HasTold};
ghost use Rattle.oathd_roster.specs.declared.fault.RosterFault.TheVariants.{Command};

use crate::rows::open_rows;
use floors_file::{NamedFloors, write_named_floors};
use named_floors::{TellingNode, named_floors_of};
use oathd_database::{Database, Fault};
use oathd_roster::{NamedCluster, RosterFault};
use sqlite::Alter;
use std::alloc::Global;
use std::io::Write;

/// Writes the text of `floors`, with its MAC under `key`, and flushes.
fn write_flushed<W: Write>(
    alloc: Global,
    writer: &mut W,
    key: &[u8],
    floors: &NamedFloors<'_>,
) -> Result<(), Fault>
    ensures written { OnOk result (Appends (W.contents writer.old) (W.contents writer.new)
        (named_floors_text key.now (named_value floors.now))) }
    ensures fault { IfErr result (λ fault. fault ≡ CannotWrite) }
{
    let (head, rows, heard) = (floors.head, &floors.rows, &floors.heard);
    if write_named_floors(alloc, writer, key, head, rows, heard).is_err() {
        return Err(Fault::CannotWrite);
    }
    match writer.flush() {
        Ok(()) => Ok(()),
        Err(_) => Err(Fault::CannotWrite),
    }
}

/// Writes the floors file of a stopped node by names, and flushes. Its store does not change.
///
/// The file has the node's number, the cluster, the store's boot, and the given moment in seconds since 1970-01-01
/// 00:00:00 UTC. A row follows for each row of the store, with its name and its floor. A stopped node has heard of no
/// boot. The MAC of the last line is under `key`, the own key of the cluster.
///
/// # Errors
/// - Returns `AnotherCluster` if the store is bound to another cluster.
/// - Returns `Command(Store)` if the tables hold no store of `node` by names, or the store fails.
/// - Returns `Command(CannotWrite)` if the output fails. A prefix of the text may have been written.
pub fn tell_named_floors<S: Alter + Drop, D: Database<S>, W: Write>(
    alloc: Global,
    node: u8,
    moment: u64,
    cluster: &NamedCluster,
    key: &[u8],
    database: D,
    writer: &mut W,
) -> Result<(), RosterFault>
    ensures told { IfOk result (λ _. HasTold S.Store D.finds cluster.now.bond key.now node moment
        (W.contents writer.old) (W.contents writer.new)) }
    ensures fault { IfErr result (EndsTold S.Store D.finds cluster.now.bond) }
    ensures quiet { IfErr result (λ fault. fault ≢ Command CannotWrite
        → W.contents writer.new ≡ W.contents writer.old) }
{
    let (roster, store) = open_rows(alloc, node, cluster, database)?;
    let own = &cluster.bond;
    let telling = TellingNode {
        node,
        members: own.members(),
        moment,
        names: own.names(),
        life: own.life(),
    };
    let floors = named_floors_of(alloc, &store, &roster, telling, &[0; 10])?;
    write_flushed(alloc, writer, key, &floors)?;
    Ok(())
}
