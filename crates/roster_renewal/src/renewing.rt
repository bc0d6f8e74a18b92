//! Replaces the tables of a store of version 3.

ghost use Rattle.std.specs.Prelude.{◌≡◌, ◌≤◌, ◌<◌, ◌^◌, length, false, IsTrue, OnOk};
ghost use Rattle.sqlite.specs.Held.{state};
ghost use Rattle.sqlite.specs.State.{HasCleanDisk};
ghost use Rattle.floor_store.specs.Range.{IsCount};
ghost use Rattle.floor_sql.specs.Created.{no_schema};
ghost use Rattle.floor_sql.specs.Schema.{schema_of};
ghost use Rattle.floor_sql.specs.Staged.{CanPut, KeepsOneRows, MakesPuts};
ghost use Rattle.floor_sql.specs.Steps.{Changes, Transacts};
ghost use Rattle.floor_sql.specs.Stored.{KeepsCommit};
ghost use Rattle.floor_sql.specs.declared.schema.Format.TheVariants.{Named};
ghost use Rattle.roster_sql.specs.Opened.{OpensNamed};
ghost use Rattle.roster_renewal.specs.Renewed.{AreOf, Renews};

use crate::dropping::drop_tables;
use floor_sql::{Put, Refusal, fill, put_all};
use floor_store::StoreFault;
use otp_core::Next;
use roster_sql::{Bond, Entry, add_names};
use sqlite::{Alter, Connection, Transaction};

/// Creates the tables of a new store of version 3, and inserts their rows.
fn make_tables<S: Alter>(
    tx: &mut Transaction<'_, S>,
    node: u8,
    boot: u64,
    floors: &[Next],
    entries: &[Entry],
    own: &Bond,
) -> Result<(), Refusal>
    requires boot { IsCount boot }
    requires tokens { length floors.now ≤ 65536 }
    requires counted { length entries.now ≡ length floors.now }
    requires inside { HasCleanDisk (state S.Store tx.old.conn.now)
        → IsTrue (state S.Store tx.old.conn.now).in_transaction }
    requires schema { HasCleanDisk (state S.Store tx.old.conn.now) → tx.old.conn.now.schema ≡ no_schema }
    ensures { Changes S.Store tx.old tx.new (OpensNamed node boot floors.now entries.now own.now) (λ _. ⊥) result }
{
    fill(tx, node, boot, floors)?;
    add_names(tx, entries, own)?;
    Ok(())
}

/// Writes the puts, in order, into rows that the same transaction inserted.
///
/// # Errors
/// - Returns `Memory` or `Disk` if the allocator or the database fails. A row that is missing or doubled is such a
///   failure, since the transaction inserted one row for each token.
fn write_puts<S: Alter>(tx: &mut Transaction<'_, S>, puts: &[Put]) -> Result<(), Refusal>
    requires range { length puts.now < 2 ^ 63 }
    requires inside { HasCleanDisk (state S.Store tx.old.conn.now)
        → IsTrue (state S.Store tx.old.conn.now).in_transaction }
    requires there { HasCleanDisk (state S.Store tx.old.conn.now)
        → CanPut (state S.Store tx.old.conn.now).now 0 puts.now }
    ensures one_row { HasCleanDisk (state S.Store tx.new.conn.now) → OnOk result (KeepsOneRows
        (state S.Store tx.old.conn.now).now.trees (state S.Store tx.new.conn.now).now.trees) }
    ensures changes { Changes S.Store tx.old tx.new (MakesPuts 0 puts.now) (λ _. ⊥) result }
{
    match put_all(tx, puts, 0) {
        Ok(()) => Ok(()),
        Err(Refusal(StoreFault::Unusable)) => Err(Refusal(StoreFault::Disk)),
        Err(refusal) => Err(refusal),
    }
}

/// Drops the tables of a store of version 3, creates the tables of a new store, and writes the puts.
fn renew_tables<S: Alter>(
    tx: &mut Transaction<'_, S>,
    node: u8,
    boot: u64,
    floors: &[Next],
    entries: &[Entry],
    own: &Bond,
    puts: &[Put],
) -> Result<(), Refusal>
    requires boot { IsCount boot }
    requires tokens { length floors.now ≤ 65536 }
    requires counted { length entries.now ≡ length floors.now }
    requires puts { AreOf (length floors.now) puts.now }
    requires range { length puts.now < 2 ^ 63 }
    requires inside { HasCleanDisk (state S.Store tx.old.conn.now)
        → IsTrue (state S.Store tx.old.conn.now).in_transaction }
    requires schema { HasCleanDisk (state S.Store tx.old.conn.now) → tx.old.conn.now.schema ≡ schema_of Named }
    ensures { Changes S.Store tx.old tx.new (Renews node boot floors.now entries.now own.now puts.now) (λ _. ⊥)
        result }
{
    drop_tables(tx)?;
    make_tables(tx, node, boot, floors, entries, own)?;
    write_puts(tx, puts)?;
    Ok(())
}

/// Replaces the tables of a store of version 3 by the tables of a new store, in one transaction.
///
/// The new store is of `node` at `boot`, and is bound as `own` says. Each token has the floor and the entry at its
/// place in the two lists, and there are at most 65,536 tokens. A floor is the first free factor of a token at a node.
/// The puts are then written into the rows of these tokens, in order. No row and no pass of the old store is kept.
///
/// The connection must be outside a transaction. A stop leaves all old tables or all new ones.
///
/// # Errors
/// - Returns `Memory` or `Disk` if the allocator or the database fails. A connection that is still open has the old
///   tables.
pub fn renew<S: Alter>(
    conn: &mut Connection<S>,
    node: u8,
    boot: u64,
    floors: &[Next],
    entries: &[Entry],
    own: &Bond,
    puts: &[Put],
) -> Result<(), Refusal>
    requires idle { conn.old.in_transaction ≡ false }
    requires boot { IsCount boot }
    requires tokens { length floors.now ≤ 65536 }
    requires counted { length entries.now ≡ length floors.now }
    requires puts { AreOf (length floors.now) puts.now }
    requires range { length puts.now < 2 ^ 63 }
    requires there { HasCleanDisk (state S.Store conn.old) → (state S.Store conn.old).now.schema ≡ schema_of Named }
    ensures { Transacts S.Store (λ e. e.0) conn.old conn.new
        (Renews node boot floors.now entries.now own.now puts.now) KeepsCommit (λ _. ⊥) result }
{
    let mut tx = conn.transaction();
    match renew_tables(&mut tx, node, boot, floors, entries, own, puts) {
        Ok(()) => {}
        Err(refusal) => return Err(refusal),
    }
    match tx.commit() {
        Ok(()) => Ok(()),
        Err(error) => Err(Refusal::from(error)),
    }
}
