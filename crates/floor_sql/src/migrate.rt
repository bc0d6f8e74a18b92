//! The upgrade of the tables of version 1 to version 2.

ghost use Rattle.std.specs.Prelude.{◌≡◌, ◌<◌, ◌≤◌, ℕ, false, IsTrue};
ghost use Rattle.sqlite.specs.Held.{state};
ghost use Rattle.sqlite.specs.State.{HasCleanDisk};
ghost use Rattle.floor_sql.specs.Schema as tables;
ghost use Rattle.floor_sql.specs.Schema.{undrifted_schema, floor_schema, IsOfStore};
ghost use Rattle.floor_sql.specs.Shown.{IsLeft};
ghost use Rattle.floor_sql.specs.Steps.{Changes, ReadsTables, Transacts};
ghost use Rattle.floor_sql.specs.Stored.{HasOneRow, HasVersion, KeepsCommit, rows_of};
ghost use Rattle.floor_sql.specs.Usable.{HasUsableFloor};
ghost use Rattle.floor_sql.specs.Migrate.{HasUndrifted, IsUndrifted, IsUsableUndrifted, RaisesVersion, AddsVersion, Migrates};

use crate::create::{create_drift, insert_drifts};
use crate::read::{Refusal, count_passes, read_floor, read_self};
use crate::schema::{is_undrifted_schema, most_rows};
use crate::statement::change_one;
use crate::texts::UPDATE_VERSION;
use floor_store::StoreFault;
use otp_core::Drift;
use sqlite::{Alter, Connection, Transaction};

/// Checks the rows of `floor` of `tokens` tokens.
fn check_floors<S: Alter>(conn: &mut Connection<S>, tokens: u32) -> Result<(), Refusal>
    requires { HasCleanDisk (state S.Store conn.old) → IsOfStore conn.old.schema }
    ensures { ReadsTables S.Store conn.old conn.new (λ db _. HasUndrifted db.trees tokens)
        (λ db. (token : ℕ) → token < tokens → HasUsableFloor db.trees token) result }
{
    for token in 0..tokens {
        let _row = read_floor(conn, token, Drift::default())?;
    }
    Ok(())
}

/// Checks the tables of a store of version 1, of `node` with `tokens` tokens.
fn check_tables<S: Alter>(conn: &mut Connection<S>, node: u8, tokens: u32) -> Result<(), Refusal>
    requires { tokens ≤ 10000 }
    ensures { ReadsTables S.Store conn.old conn.new (λ db _. IsUndrifted db node tokens)
        (λ db. IsUsableUndrifted db node tokens) result }
{
    if !is_undrifted_schema(conn.schema()) {
        return Err(Refusal(StoreFault::Unusable));
    }
    let (own, count, _boot) = read_self(conn, 1)?;
    if own != node || count != tokens {
        return Err(Refusal(StoreFault::Unusable));
    }
    check_floors(conn, tokens)?;
    let _passes = count_passes(conn, most_rows(1))?;
    Ok(())
}

/// Sets the version in the row of `self` to 2.
fn update_version<S: Alter>(tx: &mut Transaction<'_, S>) -> Result<(), Refusal>
    requires inside { HasCleanDisk (state S.Store tx.old.conn.now)
        → IsTrue (state S.Store tx.old.conn.now).in_transaction }
    requires there { HasCleanDisk (state S.Store tx.old.conn.now)
        → HasVersion (state S.Store tx.old.conn.now).now floor_schema 1 }
    ensures { Changes S.Store tx.old tx.new RaisesVersion (λ db. ¬ HasOneRow (rows_of tables.self db.trees) 1) result }
{
    change_one(tx, UPDATE_VERSION, &[])?;
    Ok(())
}

/// Adds the table `drift`, with the drift 0 for each of `tokens` tokens, and raises the version.
fn add_version<S: Alter>(tx: &mut Transaction<'_, S>, tokens: u32) -> Result<(), Refusal>
    requires inside { HasCleanDisk (state S.Store tx.old.conn.now)
        → IsTrue (state S.Store tx.old.conn.now).in_transaction }
    requires there { HasCleanDisk (state S.Store tx.old.conn.now)
        → HasVersion (state S.Store tx.old.conn.now).now undrifted_schema 1 }
    ensures { Changes S.Store tx.old tx.new (AddsVersion tokens)
        (λ db. ¬ HasOneRow (rows_of tables.self db.trees) 1) result }
{
    create_drift(tx)?;
    insert_drifts(tx, tokens)?;
    update_version(tx)?;
    Ok(())
}

/// Upgrades the tables of version 1 to version 2, in one transaction.
fn write_version<S: Alter>(conn: &mut Connection<S>, tokens: u32) -> Result<(), Refusal>
    requires idle { conn.old.in_transaction ≡ false }
    requires there { HasCleanDisk (state S.Store conn.old)
        → HasVersion (state S.Store conn.old).now undrifted_schema 1 }
    ensures { Transacts S.Store (λ e. e.0) conn.old conn.new (AddsVersion tokens) KeepsCommit
        (λ db. ¬ HasOneRow (rows_of tables.self db.trees) 1) result }
{
    let mut tx = conn.transaction();
    match add_version(&mut tx, tokens) {
        Ok(()) => {}
        Err(refusal) => return Err(refusal),
    }
    match tx.commit() {
        Ok(()) => Ok(()),
        Err(error) => Err(Refusal::from(error)),
    }
}

/// Upgrades a store of `node` with `tokens` tokens from version 1 to version 2.
pub fn migrate_tables<S: Alter>(
    conn: &mut Connection<S>,
    node: u8,
    tokens: u32,
) -> Result<(), Refusal>
    requires idle { conn.old.in_transaction ≡ false }
    requires tokens { tokens ≤ 10000 }
    ensures { Transacts S.Store (λ e. e.0) conn.old conn.new (Migrates node tokens) IsLeft
        (λ db. ¬ IsUsableUndrifted db node tokens) result }
{
    check_tables(conn, node, tokens)?;
    write_version(conn, tokens)?;
    Ok(())
}
