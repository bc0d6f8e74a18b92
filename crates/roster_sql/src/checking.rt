//! Finds out whose store a database holds.

ghost use Rattle.std.specs.Prelude.{◌≤◌, IfOk};
ghost use Rattle.floor_sql.specs.Schema.{most_rows, version_of};
ghost use Rattle.floor_sql.specs.Steps.{ReadsTables};
ghost use Rattle.floor_sql.specs.Usable.{IsNode};
ghost use Rattle.floor_sql.specs.declared.schema.Format.TheVariants.{Named};
ghost use Rattle.roster_sql.specs.Made.{HasUsableNamed, IsStoreOf, IsUsableStoreOf};

use floor_sql::{Format, Refusal, is_of_format, read_self};
use floor_store::StoreFault;
use sqlite::{Alter, Connection};

/// Checks that the tables are of a store of `format`, of `node` with `tokens` tokens.
pub(crate) fn check_tables<S: Alter>(
    conn: &mut Connection<S>,
    format: Format,
    node: u8,
    tokens: u32,
) -> Result<(), Refusal>
    requires { tokens ≤ most_rows (version_of format) }
    ensures { ReadsTables S.Store conn.old conn.new (λ db _. IsStoreOf format db node tokens)
        (λ db. IsUsableStoreOf format db node tokens) result }
{
    if !is_of_format(conn.schema(), format) {
        return Err(Refusal(StoreFault::Unusable));
    }
    let number = format.version();
    let (own, count, _boot) = read_self(conn, number)?;
    if own != node || count != tokens {
        return Err(Refusal(StoreFault::Unusable));
    }
    Ok(())
}

/// Returns the number of the node and the number of tokens of a store of version 3.
///
/// # Errors
/// - Returns `Unusable` if the tables are not of version 3, or one of the two numbers or the boot is out of range.
/// - Returns `Memory` or `Disk` if the allocator or the database fails.
pub fn node_of_named<S: Alter>(conn: &mut Connection<S>) -> Result<(u8, u32), Refusal>
    ensures reads { ReadsTables S.Store conn.old conn.new (λ db own. IsStoreOf Named db own.0 own.1)
        HasUsableNamed result }
    ensures range { IfOk result (λ own. IsNode own.0 × (own.1 ≤ 65536)) }
{
    if !is_of_format(conn.schema(), Format::Named) {
        return Err(Refusal(StoreFault::Unusable));
    }
    let (node, tokens, _boot) = read_self(conn, 3)?;
    Ok((node, tokens))
}
