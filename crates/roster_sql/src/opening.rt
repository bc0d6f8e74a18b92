//! Creates a store of version 3.

ghost use Rattle.std.specs.Prelude.{◌≡◌, ◌≤◌, length, true, false, IsErrAnd, IsTrue};
ghost use Rattle.sqlite.specs.Held.{state};
ghost use Rattle.sqlite.specs.State.{HasCleanDisk};
ghost use Rattle.floor_store.specs.Range.{IsCount};
ghost use Rattle.floor_store.specs.declared.fault.StoreFault.TheVariants.{AlreadyThere, Unusable};
ghost use Rattle.floor_sql.specs.Created.{IsForeign, has_own_table, no_schema};
ghost use Rattle.floor_sql.specs.Shown.{IsLeft};
ghost use Rattle.floor_sql.specs.Steps.{Changes, Transacts};
ghost use Rattle.floor_sql.specs.Stored.{KeepsCommit};
ghost use Rattle.floor_sql.specs.Usable.{IsNode};
ghost use Rattle.roster_sql.specs.Opened.{OpensNamed};

use crate::entry::{Bond, Entry};
use crate::making::add_names;
use floor_sql::{Refusal, fill, has_own_table, is_no_schema};
use floor_store::StoreFault;
use otp_core::Next;
use sqlite::{Alter, Connection, Transaction};

/// Creates the tables of a new store of version 3, and inserts their rows.
fn fill_named<S: Alter>(
    tx: &mut Transaction<'_, S>,
    node: u8,
    boot: u64,
    floors: &[Next],
    entries: &[Entry],
    own: &Bond,
) -> Result<(), Refusal>
    requires boot { IsCount boot }
    requires tokens { length floors.now ≤ 65536 }
    requires counted { length entries.now ≡ length floors.now }
    requires inside { HasCleanDisk (state S.Store tx.old.conn.now)
        → IsTrue (state S.Store tx.old.conn.now).in_transaction }
    requires schema { HasCleanDisk (state S.Store tx.old.conn.now) → tx.old.conn.now.schema ≡ no_schema }
    ensures { Changes S.Store tx.old tx.new (OpensNamed node boot floors.now entries.now own.now) (λ _. ⊥) result }
{
    fill(tx, node, boot, floors)?;
    add_names(tx, entries, own)?;
    Ok(())
}

/// Creates the tables of a new store of version 3 in one transaction.
fn write_named<S: Alter>(
    conn: &mut Connection<S>,
    node: u8,
    boot: u64,
    floors: &[Next],
    entries: &[Entry],
    own: &Bond,
) -> Result<(), Refusal>
    requires boot { IsCount boot }
    requires tokens { length floors.now ≤ 65536 }
    requires counted { length entries.now ≡ length floors.now }
    requires idle { conn.old.in_transaction ≡ false }
    requires schema { conn.old.schema ≡ no_schema }
    ensures { Transacts S.Store (λ e. e.0) conn.old conn.new (OpensNamed node boot floors.now entries.now own.now)
        KeepsCommit (λ _. ⊥) result }
{
    let mut tx = conn.transaction();
    match fill_named(&mut tx, node, boot, floors, entries, own) {
        Ok(()) => {}
        Err(refusal) => return Err(refusal),
    }
    match tx.commit() {
        Ok(()) => Ok(()),
        Err(error) => Err(Refusal::from(error)),
    }
}

/// Creates a store of version 3 of `node` at `boot`, in one transaction, in a database without a table.
///
/// Each token has the floor and the entry at its place in the two lists. The connection must be outside a transaction.
///
/// # Errors
/// - Returns `AlreadyThere` if the database has a table with the name of one of the tables of version 2.
/// - Returns `Unusable` if the database has any other table, index or view.
/// - Returns `Memory` or `Disk` if the allocator or the database fails.
pub fn make_named<S: Alter>(
    conn: &mut Connection<S>,
    node: u8,
    boot: u64,
    floors: &[Next],
    entries: &[Entry],
    own: &Bond,
) -> Result<(), Refusal>
    requires idle { conn.old.in_transaction ≡ false }
    requires node { IsNode node }
    requires boot { IsCount boot }
    requires tokens { length floors.now ≤ 65536 }
    requires counted { length entries.now ≡ length floors.now }
    ensures made { has_own_table conn.old.schema ≡ false → Transacts S.Store (λ e. e.0) conn.old conn.new
        (OpensNamed node boot floors.now entries.now own.now) IsLeft (λ db. IsForeign db.schema) result }
    ensures found { has_own_table conn.old.schema ≡ true
        → (conn.new ≡ conn.old) × IsErrAnd result (λ e. e.0 ≡ AlreadyThere) }
    ensures foreign { IsForeign conn.old.schema → (conn.new ≡ conn.old) × IsErrAnd result (λ e. e.0 ≡ Unusable) }
{
    if has_own_table(conn.schema()) {
        return Err(Refusal(StoreFault::AlreadyThere));
    }
    if !is_no_schema(conn.schema()) {
        return Err(Refusal(StoreFault::Unusable));
    }
    write_named(conn, node, boot, floors, entries, own)
}
