//! Creates a store of version 3 from floors files by names.

ghost use Rattle.std.specs.Prelude.{◌≡◌, ◌≤◌, length, map, true, false, vec_len, IfErr, IfOk, IsErr, OnOk};
ghost use Rattle.floor_sql.specs.Created.{IsForeign, has_own_table};
ghost use Rattle.floor_sql.specs.Usable.{IsNode};
ghost use Rattle.floor_store.specs.Range.{IsCount};
ghost use Rattle.floors_file.specs.Named.{named_value};
ghost use Rattle.floors_file.specs.NamedGathered.{gathered_rows};
ghost use Rattle.named_store.specs.Seating.{AreDistinct};
ghost use Rattle.named_floors.specs.Made.{HasNoRows, IsMakeFault, IsUnmade, Makes, OpensRemade};
ghost use Rattle.named_floors.specs.Remade.{remade_entries, remade_floors};

use crate::remaking::{RemadeRows, remade};
use floor_store::{MAX_ROWS, StoreFault};
use floors_file::{NamedFloor, NamedFloors, gather_named, gathered_are_greatest};
use named_store::NamedFault;
use otp_core::Next;
use roster_sql::{Bond, Entry, make_named};
use sqlite::{Alter, Connection};
use std::alloc::Global;

/// Returns the gathered rows of `files`.
fn gathered_of(alloc: Global, files: &[NamedFloors<'_>]) -> Result<Vec<NamedFloor>, NamedFault>
    ensures rows { IfOk result (λ rows. rows.items ≡ gathered_rows (map named_value files.now)) }
    ensures fault { IfErr result (λ fault. fault ≡ NamedFault.Store StoreFault.Memory) }
{
    match gather_named(alloc, files) {
        Ok(gathered) => Ok(gathered),
        Err(_) => Err(NamedFault::Store(StoreFault::Memory)),
    }
}

/// Returns the rows of a store that is made from `files`, at most 65,536.
fn rows_of(
    alloc: Global,
    names: &[Entry],
    floors: &[Next],
    files: &[NamedFloors<'_>],
) -> Result<RemadeRows, NamedFault>
    requires tokens { length names.now ≤ 10000 }
    requires counted { length floors.now ≡ length names.now }
    ensures entries { IfOk result (λ r.
        r.entries.items ≡ remade_entries (gathered_rows (map named_value files.now)) names.now) }
    ensures floors { IfOk result (λ r.
        r.floors.items ≡ remade_floors (gathered_rows (map named_value files.now)) names.now floors.now) }
    ensures few { IfOk result (λ r. vec_len r.floors ≤ 65536) }
    ensures counted { IfOk result (λ r. vec_len r.entries ≡ vec_len r.floors) }
    ensures distinct { OnOk result
        (AreDistinct (remade_entries (gathered_rows (map named_value files.now)) names.now)) }
    ensures cause { IfErr result (HasNoRows (gathered_rows (map named_value files.now)) names.now) }
{
    // No two gathered rows have one name.
    gathered_are_greatest();
    let gathered = gathered_of(alloc, files)?;
    if gathered.len() > MAX_ROWS {
        return Err(NamedFault::Full);
    }
    let rows = remade(alloc, &gathered, names, floors)?;
    if rows.entries.len() > MAX_ROWS {
        return Err(NamedFault::Full);
    }
    Ok(rows)
}

/// Creates a store of version 3 of `node` at `boot` from floors files, in a database without a table.
///
/// [`remade`] finds its rows, from the gathered rows of `files`. `names` and `floors` are the entries and the
/// floors of the tokens of the users file. The store is bound to `own`. All is made in one transaction. The connection
/// must be outside a transaction.
///
/// # Errors
/// - Returns `Full` if there are more than 65,536 rows.
/// - Returns `Store` with `AlreadyThere` if the database has a table with the name of one of the tables of version 2.
/// - Returns `Store` with `Unusable` if the database has any other table, index or view, or two tokens have one name.
/// - Returns `Store` with `Memory` or `Disk` if the allocator or the database fails.
pub fn make_from_floors<S: Alter>(
    alloc: Global,
    conn: &mut Connection<S>,
    node: u8,
    boot: u64,
    names: &[Entry],
    floors: &[Next],
    files: &[NamedFloors<'_>],
    own: &Bond,
) -> Result<(), NamedFault>
    requires idle { conn.old.in_transaction ≡ false }
    requires node { IsNode node }
    requires boot { IsCount boot }
    requires tokens { length names.now ≤ 10000 }
    requires counted { length floors.now ≡ length names.now }
    ensures made { Makes S.Store conn.old conn.new
        (OpensRemade node boot (gathered_rows (map named_value files.now)) names.now floors.now own.now)
        (IsUnmade (gathered_rows (map named_value files.now)) names.now) result }
    ensures known { IfErr result (IsMakeFault (gathered_rows (map named_value files.now)) names.now) }
    ensures few { OnOk result (length (remade_entries (gathered_rows (map named_value files.now)) names.now) ≤ 65536) }
    ensures distinct { OnOk result
        (AreDistinct (remade_entries (gathered_rows (map named_value files.now)) names.now)) }
    ensures found { has_own_table conn.old.schema ≡ true → (conn.new ≡ conn.old) × IsErr result }
    ensures foreign { IsForeign conn.old.schema → (conn.new ≡ conn.old) × IsErr result }
{
    let rows = rows_of(alloc, names, floors, files)?;
    make_named(conn, node, boot, &rows.floors, &rows.entries, own)?;
    Ok(())
}
