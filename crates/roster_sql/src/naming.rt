//! Upgrades a store of version 2 to version 3.

ghost use Rattle.std.specs.Prelude.{◌≡◌, ◌≤◌, length, false, IsTrue};
ghost use Rattle.sqlite.specs.Held.{state};
ghost use Rattle.sqlite.specs.State.{HasCleanDisk};
ghost use Rattle.floor_sql.specs.Schema as tables;
ghost use Rattle.floor_sql.specs.Shown.{IsLeft};
ghost use Rattle.floor_sql.specs.Steps.{Transacts};
ghost use Rattle.floor_sql.specs.Stored.{HasOneRow, HasVersion, KeepsCommit, rows_of};
ghost use Rattle.floor_sql.specs.Schema.{floor_schema};
ghost use Rattle.floor_sql.specs.declared.schema.Format.TheVariants.{Numbered};
ghost use Rattle.roster_sql.specs.Made.{IsUsableStoreOf, Names, NamesNode};

use crate::checking::check_tables;
use crate::entry::{Bond, Entry};
use crate::making::add_names;
use floor_sql::{Format, Refusal};
use sqlite::{Alter, Connection};

/// Gives the tables of version 2 names in one transaction.
fn write_names<S: Alter>(
    conn: &mut Connection<S>,
    entries: &[Entry],
    own: &Bond,
) -> Result<(), Refusal>
    requires idle { conn.old.in_transaction ≡ false }
    requires numbers { length entries.now ≤ 10000 }
    requires there { HasCleanDisk (state S.Store conn.old)
        → HasVersion (state S.Store conn.old).now floor_schema 2 }
    ensures { Transacts S.Store (λ e. e.0) conn.old conn.new (Names entries.now own.now) KeepsCommit
        (λ db. ¬ HasOneRow (rows_of tables.self db.trees) 1) result }
{
    let mut tx = conn.transaction();
    match add_names(&mut tx, entries, own) {
        Ok(()) => {}
        Err(refusal) => return Err(refusal),
    }
    match tx.commit() {
        Ok(()) => Ok(()),
        Err(error) => Err(Refusal::from(error)),
    }
}

/// Upgrades the tables of a store of `node` from version 2 to version 3, in one transaction.
///
/// `entries` has an entry for each token of the store, in the order of their numbers. The connection must be outside a
/// transaction.
///
/// # Errors
/// - Returns `Unusable` if the tables are not of version 2, of another node, or of another number of tokens.
/// - Returns `Memory` or `Disk` if the allocator or the database fails.
pub fn name_tables<S: Alter>(
    conn: &mut Connection<S>,
    node: u8,
    entries: &[Entry],
    own: &Bond,
) -> Result<(), Refusal>
    requires idle { conn.old.in_transaction ≡ false }
    requires numbers { length entries.now ≤ 10000 }
    ensures { Transacts S.Store (λ e. e.0) conn.old conn.new (NamesNode node entries.now own.now) IsLeft
        (λ db. ¬ IsUsableStoreOf Numbered db node (length entries.now)) result }
{
    check_tables(conn, Format::Numbered, node, entries.len() as u32)?;
    write_names(conn, entries, own)?;
    Ok(())
}
