//! Makes a store of version 3 of one of version 2.

ghost use Rattle.std.specs.Prelude.{◌≡◌, ◌≤◌, ◌+◌, ◌∷◌, [], length, pos, IsTrue};
ghost use Rattle.sqlite.specs.declared.types.Value.TheVariants.{Int, Blob};
ghost use Rattle.sqlite.specs.Held.{state};
ghost use Rattle.sqlite.specs.State.{HasCleanDisk};
ghost use Rattle.sqlite.specs.Values.{bound};
ghost use Rattle.floor_sql.specs.Schema as tables;
ghost use Rattle.floor_sql.specs.Schema.{floor_schema, schema_of};
ghost use Rattle.floor_sql.specs.Steps.{Changes};
ghost use Rattle.floor_sql.specs.Stored.{HasOneRow, HasVersion, rows_of};
ghost use Rattle.floor_sql.specs.declared.schema.Format.TheVariants.{Named};
ghost use Rattle.roster_sql.specs.Made.{AddsBond, AddsEntries, AddsEntry, MakesBond, MakesRoster, Names, RaisesVersion, roster_schema};
ghost use Rattle.roster_sql.specs.Roster.{entry_values};

use crate::entry::{Bond, Entry};
use crate::texts::{CREATE_BOND, CREATE_ROSTER, INSERT_BOND, INSERT_ENTRY, UPDATE_VERSION};
use floor_sql::{Refusal, change_one, run};
use sqlite::types::ValueRef;
use sqlite::{Alter, Transaction};

/// Creates the table `roster`, beside the tables of version 2.
fn create_roster<S: Alter>(tx: &mut Transaction<'_, S>) -> Result<(), Refusal>
    requires inside { HasCleanDisk (state S.Store tx.old.conn.now)
        → IsTrue (state S.Store tx.old.conn.now).in_transaction }
    requires schema { HasCleanDisk (state S.Store tx.old.conn.now) → tx.old.conn.now.schema ≡ floor_schema }
    ensures { Changes S.Store tx.old tx.new MakesRoster (λ _. ⊥) result }
{
    let _none = run(tx, CREATE_ROSTER, &[])?;
    Ok(())
}

/// Creates the table `bond`, beside the tables of version 2 and `roster`.
fn create_bond<S: Alter>(tx: &mut Transaction<'_, S>) -> Result<(), Refusal>
    requires inside { HasCleanDisk (state S.Store tx.old.conn.now)
        → IsTrue (state S.Store tx.old.conn.now).in_transaction }
    requires schema { HasCleanDisk (state S.Store tx.old.conn.now) → tx.old.conn.now.schema ≡ roster_schema }
    ensures { Changes S.Store tx.old tx.new MakesBond (λ _. ⊥) result }
{
    let _none = run(tx, CREATE_BOND, &[])?;
    Ok(())
}

/// Returns the parameters of the insertion of an entry.
fn entry_params(token: u32, entry: &Entry) -> [ValueRef<'_>; 3]
    ensures { bound result ≡ entry_values token entry.now }
{
    [
        ValueRef::Int(i64::from(token)),
        ValueRef::Blob(&entry.name),
        ValueRef::Blob(&entry.seed),
    ]
}

/// Inserts the entry of a token.
pub(crate) fn insert_entry<S: Alter>(
    tx: &mut Transaction<'_, S>,
    token: u32,
    entry: Entry,
) -> Result<(), Refusal>
    requires inside { HasCleanDisk (state S.Store tx.old.conn.now)
        → IsTrue (state S.Store tx.old.conn.now).in_transaction }
    requires schema { HasCleanDisk (state S.Store tx.old.conn.now) → tx.old.conn.now.schema ≡ schema_of Named }
    ensures { Changes S.Store tx.old tx.new (AddsEntry token entry) (λ _. ⊥) result }
{
    let params = entry_params(token, &entry);
    let _one = run(tx, INSERT_ENTRY, &params)?;
    Ok(())
}

/// Inserts the entries of tokens from `first` on, in order.
pub(crate) fn insert_entries<S: Alter>(
    tx: &mut Transaction<'_, S>,
    first: u32,
    entries: &[Entry],
) -> Result<(), Refusal>
    requires numbers { first + length entries.now ≤ 65536 }
    requires inside { HasCleanDisk (state S.Store tx.old.conn.now)
        → IsTrue (state S.Store tx.old.conn.now).in_transaction }
    requires schema { HasCleanDisk (state S.Store tx.old.conn.now) → tx.old.conn.now.schema ≡ schema_of Named }
    ensures { Changes S.Store tx.old tx.new (AddsEntries first entries.now) (λ _. ⊥) result }
{
    let mut token = first;
    for entry in entries {
        insert_entry(tx, token, *entry)?;
        token += 1;
    }
    Ok(())
}

/// Returns the parameters of the insertion of the row of `bond`.
fn bond_params(own: &Bond) -> [ValueRef<'_>; 3]
    ensures { bound result ≡ Blob own.now.names ∷ Blob own.now.life ∷ Int (pos own.now.members) ∷ [] }
{
    [
        ValueRef::Blob(own.names()),
        ValueRef::Blob(own.life()),
        ValueRef::Int(i64::from(own.members())),
    ]
}

/// Inserts the row of `bond`.
fn insert_bond<S: Alter>(tx: &mut Transaction<'_, S>, own: &Bond) -> Result<(), Refusal>
    requires inside { HasCleanDisk (state S.Store tx.old.conn.now)
        → IsTrue (state S.Store tx.old.conn.now).in_transaction }
    requires schema { HasCleanDisk (state S.Store tx.old.conn.now) → tx.old.conn.now.schema ≡ schema_of Named }
    ensures { Changes S.Store tx.old tx.new (AddsBond own.now) (λ _. ⊥) result }
{
    let params = bond_params(own);
    let _one = run(tx, INSERT_BOND, &params)?;
    Ok(())
}

/// Sets the version in the row of `self` to 3.
fn update_version<S: Alter>(tx: &mut Transaction<'_, S>) -> Result<(), Refusal>
    requires inside { HasCleanDisk (state S.Store tx.old.conn.now)
        → IsTrue (state S.Store tx.old.conn.now).in_transaction }
    requires there { HasCleanDisk (state S.Store tx.old.conn.now)
        → HasVersion (state S.Store tx.old.conn.now).now (schema_of Named) 2 }
    ensures { Changes S.Store tx.old tx.new RaisesVersion (λ db. ¬ HasOneRow (rows_of tables.self db.trees) 1) result }
{
    change_one(tx, UPDATE_VERSION, &[])?;
    Ok(())
}

/// Gives the tables of version 2 an entry for each token and a bond, and raises the version to 3.
pub fn add_names<S: Alter>(
    tx: &mut Transaction<'_, S>,
    entries: &[Entry],
    own: &Bond,
) -> Result<(), Refusal>
    requires numbers { length entries.now ≤ 65536 }
    requires inside { HasCleanDisk (state S.Store tx.old.conn.now)
        → IsTrue (state S.Store tx.old.conn.now).in_transaction }
    requires there { HasCleanDisk (state S.Store tx.old.conn.now)
        → HasVersion (state S.Store tx.old.conn.now).now floor_schema 2 }
    ensures { Changes S.Store tx.old tx.new (Names entries.now own.now)
        (λ db. ¬ HasOneRow (rows_of tables.self db.trees) 1) result }
{
    create_roster(tx)?;
    create_bond(tx)?;
    insert_entries(tx, 0, entries)?;
    insert_bond(tx, own)?;
    update_version(tx)?;
    Ok(())
}
