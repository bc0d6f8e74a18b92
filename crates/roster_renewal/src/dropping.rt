//! Drops the tables of a store of version 3.

ghost use Rattle.std.specs.Prelude.{◌≡◌, IsTrue};
ghost use Rattle.sqlite.specs.Held.{state};
ghost use Rattle.sqlite.specs.State.{HasCleanDisk};
ghost use Rattle.floor_sql.specs.Created.{first_schema, no_schema, second_schema};
ghost use Rattle.floor_sql.specs.Schema.{floor_schema, schema_of, undrifted_schema};
ghost use Rattle.floor_sql.specs.Steps.{Changes};
ghost use Rattle.floor_sql.specs.declared.schema.Format.TheVariants.{Named};
ghost use Rattle.roster_sql.specs.Made.{roster_schema};

use crate::texts::{DROP_BOND, DROP_DRIFT, DROP_FLOOR, DROP_PASS, DROP_ROSTER, DROP_SELF};
use floor_sql::{Refusal, run};
use sqlite::{Alter, Transaction};

/// Drops the table `bond` of a store of version 3.
fn drop_bond<S: Alter>(tx: &mut Transaction<'_, S>) -> Result<(), Refusal>
    requires inside { HasCleanDisk (state S.Store tx.old.conn.now)
        → IsTrue (state S.Store tx.old.conn.now).in_transaction }
    requires schema { HasCleanDisk (state S.Store tx.old.conn.now) → tx.old.conn.now.schema ≡ schema_of Named }
    ensures { Changes S.Store tx.old tx.new (λ _ db. db.schema ≡ roster_schema) (λ _. ⊥) result }
{
    let _none = run(tx, DROP_BOND, &[])?;
    Ok(())
}

/// Drops the table `roster`, after `bond`.
fn drop_roster<S: Alter>(tx: &mut Transaction<'_, S>) -> Result<(), Refusal>
    requires inside { HasCleanDisk (state S.Store tx.old.conn.now)
        → IsTrue (state S.Store tx.old.conn.now).in_transaction }
    requires schema { HasCleanDisk (state S.Store tx.old.conn.now) → tx.old.conn.now.schema ≡ roster_schema }
    ensures { Changes S.Store tx.old tx.new (λ _ db. db.schema ≡ floor_schema) (λ _. ⊥) result }
{
    let _none = run(tx, DROP_ROSTER, &[])?;
    Ok(())
}

/// Drops the table `drift` of version 2.
fn drop_drift<S: Alter>(tx: &mut Transaction<'_, S>) -> Result<(), Refusal>
    requires inside { HasCleanDisk (state S.Store tx.old.conn.now)
        → IsTrue (state S.Store tx.old.conn.now).in_transaction }
    requires schema { HasCleanDisk (state S.Store tx.old.conn.now) → tx.old.conn.now.schema ≡ floor_schema }
    ensures { Changes S.Store tx.old tx.new (λ _ db. db.schema ≡ undrifted_schema) (λ _. ⊥) result }
{
    let _none = run(tx, DROP_DRIFT, &[])?;
    Ok(())
}

/// Drops the table `pass` of version 1.
fn drop_pass<S: Alter>(tx: &mut Transaction<'_, S>) -> Result<(), Refusal>
    requires inside { HasCleanDisk (state S.Store tx.old.conn.now)
        → IsTrue (state S.Store tx.old.conn.now).in_transaction }
    requires schema { HasCleanDisk (state S.Store tx.old.conn.now) → tx.old.conn.now.schema ≡ undrifted_schema }
    ensures { Changes S.Store tx.old tx.new (λ _ db. db.schema ≡ second_schema) (λ _. ⊥) result }
{
    let _none = run(tx, DROP_PASS, &[])?;
    Ok(())
}

/// Drops the table `floor`, after `pass`.
fn drop_floor<S: Alter>(tx: &mut Transaction<'_, S>) -> Result<(), Refusal>
    requires inside { HasCleanDisk (state S.Store tx.old.conn.now)
        → IsTrue (state S.Store tx.old.conn.now).in_transaction }
    requires schema { HasCleanDisk (state S.Store tx.old.conn.now) → tx.old.conn.now.schema ≡ second_schema }
    ensures { Changes S.Store tx.old tx.new (λ _ db. db.schema ≡ first_schema) (λ _. ⊥) result }
{
    let _none = run(tx, DROP_FLOOR, &[])?;
    Ok(())
}

/// Drops the table `self`, after all others.
fn drop_self<S: Alter>(tx: &mut Transaction<'_, S>) -> Result<(), Refusal>
    requires inside { HasCleanDisk (state S.Store tx.old.conn.now)
        → IsTrue (state S.Store tx.old.conn.now).in_transaction }
    requires schema { HasCleanDisk (state S.Store tx.old.conn.now) → tx.old.conn.now.schema ≡ first_schema }
    ensures { Changes S.Store tx.old tx.new (λ _ db. db.schema ≡ no_schema) (λ _. ⊥) result }
{
    let _none = run(tx, DROP_SELF, &[])?;
    Ok(())
}

/// Drops the tables that version 3 has and version 2 lacks.
fn drop_names<S: Alter>(tx: &mut Transaction<'_, S>) -> Result<(), Refusal>
    requires inside { HasCleanDisk (state S.Store tx.old.conn.now)
        → IsTrue (state S.Store tx.old.conn.now).in_transaction }
    requires schema { HasCleanDisk (state S.Store tx.old.conn.now) → tx.old.conn.now.schema ≡ schema_of Named }
    ensures { Changes S.Store tx.old tx.new (λ _ db. db.schema ≡ floor_schema) (λ _. ⊥) result }
{
    drop_bond(tx)?;
    drop_roster(tx)?;
    Ok(())
}

/// Drops the four tables of version 2.
fn drop_floors<S: Alter>(tx: &mut Transaction<'_, S>) -> Result<(), Refusal>
    requires inside { HasCleanDisk (state S.Store tx.old.conn.now)
        → IsTrue (state S.Store tx.old.conn.now).in_transaction }
    requires schema { HasCleanDisk (state S.Store tx.old.conn.now) → tx.old.conn.now.schema ≡ floor_schema }
    ensures { Changes S.Store tx.old tx.new (λ _ db. db.schema ≡ no_schema) (λ _. ⊥) result }
{
    drop_drift(tx)?;
    drop_pass(tx)?;
    drop_floor(tx)?;
    drop_self(tx)?;
    Ok(())
}

/// Drops all tables of a store of version 3.
pub(crate) fn drop_tables<S: Alter>(tx: &mut Transaction<'_, S>) -> Result<(), Refusal>
    requires inside { HasCleanDisk (state S.Store tx.old.conn.now)
        → IsTrue (state S.Store tx.old.conn.now).in_transaction }
    requires schema { HasCleanDisk (state S.Store tx.old.conn.now) → tx.old.conn.now.schema ≡ schema_of Named }
    ensures { Changes S.Store tx.old tx.new (λ _ db. db.schema ≡ no_schema) (λ _. ⊥) result }
{
    drop_names(tx)?;
    drop_floors(tx)?;
    Ok(())
}
