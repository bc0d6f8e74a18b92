//! Gives a store of version 3 further tokens.

ghost use Rattle.std.specs.Prelude.{◌≡◌, ◌≤◌, ◌<◌, ◌+◌, ◌^◌, length, false, IsTrue};
ghost use Rattle.sqlite.specs.Held.{state};
ghost use Rattle.sqlite.specs.State.{HasCleanDisk};
ghost use Rattle.floor_sql.specs.Schema as tables;
ghost use Rattle.floor_sql.specs.Schema.{schema_of};
ghost use Rattle.floor_sql.specs.Shown.{IsLeft};
ghost use Rattle.floor_sql.specs.Staged.{CanPut};
ghost use Rattle.floor_sql.specs.Steps.{Changes, Transacts};
ghost use Rattle.floor_sql.specs.Stored.{HasOneRow, HasVersion, KeepsCommit, rows_of};
ghost use Rattle.floor_sql.specs.declared.schema.Format.TheVariants.{Named};
ghost use Rattle.roster_sql.specs.Enrolled.{AddsRow, AddsRows, Appends, Enrols, Grows, LacksAny, LacksOne, MayPut};
ghost use Rattle.roster_sql.specs.Enrolled.{SetsTokens};

use crate::checking::check_tables;
use crate::entry::Entry;
use crate::making::insert_entries;
use crate::texts::UPDATE_TOKENS;
use floor_sql::{
    Format, Put, Refusal, change_one, insert_drift, insert_floor, put_all, token_params,
};
use otp_core::Next;
use sqlite::{Alter, Connection, Transaction};

/// Inserts the opening row of a token.
fn insert_row<S: Alter>(tx: &mut Transaction<'_, S>, token: u32, next: Next) -> Result<(), Refusal>
    requires inside { HasCleanDisk (state S.Store tx.old.conn.now)
        → IsTrue (state S.Store tx.old.conn.now).in_transaction }
    requires schema { HasCleanDisk (state S.Store tx.old.conn.now) → tx.old.conn.now.schema ≡ schema_of Named }
    ensures { Changes S.Store tx.old tx.new (AddsRow token next) (λ _. ⊥) result }
{
    insert_floor(tx, token, next)?;
    insert_drift(tx, token)?;
    Ok(())
}

/// Inserts the opening rows of tokens from `first` on, in order.
fn insert_rows<S: Alter>(
    tx: &mut Transaction<'_, S>,
    first: u32,
    floors: &[Next],
) -> Result<(), Refusal>
    requires numbers { first + length floors.now ≤ 65536 }
    requires inside { HasCleanDisk (state S.Store tx.old.conn.now)
        → IsTrue (state S.Store tx.old.conn.now).in_transaction }
    requires schema { HasCleanDisk (state S.Store tx.old.conn.now) → tx.old.conn.now.schema ≡ schema_of Named }
    ensures { Changes S.Store tx.old tx.new (AddsRows first floors.now) (λ _. ⊥) result }
{
    let mut token = first;
    for next in floors {
        insert_row(tx, token, *next)?;
        token += 1;
    }
    Ok(())
}

/// Sets the number of tokens in the row of `self`.
fn update_tokens<S: Alter>(tx: &mut Transaction<'_, S>, tokens: u32) -> Result<(), Refusal>
    requires inside { HasCleanDisk (state S.Store tx.old.conn.now)
        → IsTrue (state S.Store tx.old.conn.now).in_transaction }
    requires there { HasCleanDisk (state S.Store tx.old.conn.now)
        → HasVersion (state S.Store tx.old.conn.now).now (schema_of Named) 3 }
    ensures { Changes S.Store tx.old tx.new (SetsTokens tokens)
        (λ db. ¬ HasOneRow (rows_of tables.self db.trees) 1) result }
{
    let params = token_params(tokens);
    change_one(tx, UPDATE_TOKENS, &params)?;
    Ok(())
}

/// Appends the rows of further tokens to the tables of version 3, which have `tokens` tokens.
fn append_tokens<S: Alter>(
    tx: &mut Transaction<'_, S>,
    tokens: u32,
    floors: &[Next],
    entries: &[Entry],
) -> Result<(), Refusal>
    requires numbers { tokens + length floors.now ≤ 65536 }
    requires counted { length entries.now ≡ length floors.now }
    requires inside { HasCleanDisk (state S.Store tx.old.conn.now)
        → IsTrue (state S.Store tx.old.conn.now).in_transaction }
    requires there { HasCleanDisk (state S.Store tx.old.conn.now)
        → HasVersion (state S.Store tx.old.conn.now).now (schema_of Named) 3 }
    ensures { Changes S.Store tx.old tx.new (Appends tokens floors.now entries.now)
        (λ db. ¬ HasOneRow (rows_of tables.self db.trees) 1) result }
{
    insert_rows(tx, tokens, floors)?;
    insert_entries(tx, tokens, entries)?;
    update_tokens(tx, tokens + floors.len() as u32)?;
    Ok(())
}

/// Puts rows of tokens that are there, and appends the rows of further tokens.
fn put_and_append<S: Alter>(
    tx: &mut Transaction<'_, S>,
    tokens: u32,
    count: u64,
    puts: &[Put],
    floors: &[Next],
    entries: &[Entry],
) -> Result<(), Refusal>
    requires numbers { tokens + length floors.now ≤ 65536 }
    requires counted { length entries.now ≡ length floors.now }
    requires range { count + length puts.now < 2 ^ 63 }
    requires inside { HasCleanDisk (state S.Store tx.old.conn.now)
        → IsTrue (state S.Store tx.old.conn.now).in_transaction }
    requires there { HasCleanDisk (state S.Store tx.old.conn.now)
        → HasVersion (state S.Store tx.old.conn.now).now (schema_of Named) 3 }
    requires can { HasCleanDisk (state S.Store tx.old.conn.now)
        → CanPut (state S.Store tx.old.conn.now).now count puts.now }
    ensures { Changes S.Store tx.old tx.new (Grows tokens count puts.now floors.now entries.now)
        (LacksOne puts.now) result }
{
    put_all(tx, puts, count)?;
    append_tokens(tx, tokens, floors, entries)?;
    Ok(())
}

/// Puts rows of tokens that are there, if there are puts, and appends the rows of further tokens.
fn grow_tokens<S: Alter>(
    tx: &mut Transaction<'_, S>,
    tokens: u32,
    count: u64,
    puts: &[Put],
    floors: &[Next],
    entries: &[Entry],
) -> Result<(), Refusal>
    requires numbers { tokens + length floors.now ≤ 65536 }
    requires counted { length entries.now ≡ length floors.now }
    requires range { count + length puts.now < 2 ^ 63 }
    requires inside { HasCleanDisk (state S.Store tx.old.conn.now)
        → IsTrue (state S.Store tx.old.conn.now).in_transaction }
    requires there { HasCleanDisk (state S.Store tx.old.conn.now)
        → HasVersion (state S.Store tx.old.conn.now).now (schema_of Named) 3 }
    requires can { HasCleanDisk (state S.Store tx.old.conn.now)
        → MayPut (state S.Store tx.old.conn.now).now count puts.now }
    ensures { Changes S.Store tx.old tx.new (Grows tokens count puts.now floors.now entries.now)
        (LacksOne puts.now) result }
{
    if puts.is_empty() {
        return append_tokens(tx, tokens, floors, entries);
    }
    put_and_append(tx, tokens, count, puts, floors, entries)
}

/// Puts rows and appends the rows of further tokens in one transaction.
fn write_tokens<S: Alter>(
    conn: &mut Connection<S>,
    tokens: u32,
    count: u64,
    puts: &[Put],
    floors: &[Next],
    entries: &[Entry],
) -> Result<(), Refusal>
    requires idle { conn.old.in_transaction ≡ false }
    requires numbers { tokens + length floors.now ≤ 65536 }
    requires counted { length entries.now ≡ length floors.now }
    requires range { count + length puts.now < 2 ^ 63 }
    requires there { HasCleanDisk (state S.Store conn.old)
        → HasVersion (state S.Store conn.old).now (schema_of Named) 3 }
    requires can { HasCleanDisk (state S.Store conn.old) → MayPut (state S.Store conn.old).now count puts.now }
    ensures { Transacts S.Store (λ e. e.0) conn.old conn.new (Grows tokens count puts.now floors.now entries.now)
        KeepsCommit (LacksOne puts.now) result }
{
    let mut tx = conn.transaction();
    match grow_tokens(&mut tx, tokens, count, puts, floors, entries) {
        Ok(()) => {}
        Err(refusal) => return Err(refusal),
    }
    match tx.commit() {
        Ok(()) => Ok(()),
        Err(error) => Err(Refusal::from(error)),
    }
}

/// Puts rows of a store of version 3 and enrols further tokens in it, in one transaction.
///
/// The store is of `node` and has `tokens` tokens and `count` passes. The puts are of these tokens, in order. Each new
/// token has the floor and the entry at its place in the two lists, and gets a number after the others. The connection
/// must be outside a transaction.
///
/// # Errors
/// - Returns `Unusable` if the tables are not of version 3, of another node, or of another number of tokens.
/// - Returns `Memory` or `Disk` if the allocator or the database fails.
pub fn enrol<S: Alter>(
    conn: &mut Connection<S>,
    node: u8,
    tokens: u32,
    count: u64,
    puts: &[Put],
    floors: &[Next],
    entries: &[Entry],
) -> Result<(), Refusal>
    requires idle { conn.old.in_transaction ≡ false }
    requires numbers { tokens + length floors.now ≤ 65536 }
    requires counted { length entries.now ≡ length floors.now }
    requires range { count + length puts.now < 2 ^ 63 }
    requires can { HasCleanDisk (state S.Store conn.old) → MayPut (state S.Store conn.old).now count puts.now }
    ensures { Transacts S.Store (λ e. e.0) conn.old conn.new
        (Enrols node tokens count puts.now floors.now entries.now) IsLeft
        (LacksAny node tokens puts.now) result }
{
    check_tables(conn, Format::Named, node, tokens)?;
    write_tokens(conn, tokens, count, puts, floors, entries)?;
    Ok(())
}
