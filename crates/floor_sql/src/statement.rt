//! Runs one statement of a transaction.

ghost use Rattle.std.specs.Prelude.{Ok, Err, IsTrue, IfOk, IfErr, OnOk};
ghost use Rattle.sqlite.specs.Values.{bound};
ghost use Rattle.sqlite.specs.Held.{state};
ghost use Rattle.sqlite.specs.State.{HasCleanDisk, Executes, ExecutesInside};
ghost use Rattle.floor_sql.specs.Refusals.{IsFaultOf, ChangesNotOne};
ghost use Rattle.floor_sql.specs.Steps.{StepsInside};

use crate::read::Refusal;
use floor_store::StoreFault;
use sqlite::types::ValueRef;
use sqlite::{Alter, Transaction};

/// Runs a statement in a transaction, and returns the number of rows that it changed.
pub fn run<S: Alter>(
    tx: &mut Transaction<'_, S>,
    sql: &str,
    params: &[ValueRef<'_>],
) -> Result<usize, Refusal>
    requires { HasCleanDisk (state S.Store tx.old.conn.now) → IsTrue (state S.Store tx.old.conn.now).in_transaction }
    ensures ran { HasCleanDisk (state S.Store tx.new.conn.now) → IfOk result
        (λ count. Executes sql.now (bound params.now) (state S.Store tx.old.conn.now) (state S.Store tx.new.conn.now)
        (Ok count)) }
    ensures steps { StepsInside S.Store tx.old tx.new result }
    ensures cause { HasCleanDisk (state S.Store tx.new.conn.now) → IfErr result (λ e. IsFaultOf (λ error.
        ExecutesInside 0 sql.now (bound params.now) (state S.Store tx.old.conn.now) (state S.Store tx.new.conn.now)
        (Err error)) e.0) }
{
    let count = tx.execute(sql, params)?;
    Ok(count)
}

/// Runs a statement in a transaction that must change exactly one row.
///
/// # Errors
///
/// - Returns the fault of the connection if the statement fails.
/// - Returns `Unusable` if the statement changed another number of rows.
pub fn change_one<S: Alter>(
    tx: &mut Transaction<'_, S>,
    sql: &str,
    params: &[ValueRef<'_>],
) -> Result<(), Refusal>
    requires { HasCleanDisk (state S.Store tx.old.conn.now) → IsTrue (state S.Store tx.old.conn.now).in_transaction }
    ensures ran { HasCleanDisk (state S.Store tx.new.conn.now) → OnOk result
        (Executes sql.now (bound params.now) (state S.Store tx.old.conn.now) (state S.Store tx.new.conn.now) (Ok 1)) }
    ensures steps { StepsInside S.Store tx.old tx.new result }
    ensures cause { HasCleanDisk (state S.Store tx.new.conn.now) → IfErr result (λ e. ChangesNotOne sql.now
        (bound params.now) (state S.Store tx.old.conn.now) (state S.Store tx.new.conn.now) e.0) }
{
    let changed = run(tx, sql, params)?;
    if changed != 1 {
        return Err(Refusal(StoreFault::Unusable));
    }
    Ok(())
}
