//! The command `migrate`: upgrades a store of version 1 to version 2.

ghost use Rattle.std.specs.Prelude.{◌≡◌, false, length, IfErr, IfOk, IfSome};
ghost use Rattle.floor_sql.specs.Migrate.{IsMigrated};
ghost use Rattle.otp_core.specs.Limits.{default_limits};
ghost use Rattle.oathd_database.specs.Commands.{HasMigrated, IsRefused};
ghost use Rattle.oathd_database.specs.Fault.{IsStoreFault};

use crate::database::Database;
use crate::fault::Fault;
use crate::users::{Users, read_users};
use floor_sql::SqlStore;
use otp_core::Settings;
use sqlite::{Alter, Connection};
use std::alloc::Global;
use std::io::Read;

/// Upgrades the store of `node` in the tables of `conn`, which has the tokens of the users file.
fn migrate_tables<S: Alter + Drop>(
    conn: Connection<S>,
    node: u8,
    users: &Users,
) -> Result<Connection<S>, Fault>
    requires { conn.in_transaction ≡ false }
    ensures migrated { IfOk result (IsMigrated S.Store node (length users.now.book) conn) }
    ensures fault { IfErr result IsStoreFault }
{
    match SqlStore::migrate(conn, node, users.book.len() as u32) {
        Ok(conn) => Ok(conn),
        Err((_, fault)) => Err(Fault::Store(fault)),
    }
}

/// Upgrades a node's store of version 1 to version 2, and returns the connection to it.
///
/// The store has the tokens of the users file. No token has a drift afterwards; everything else stays.
///
/// # Errors
/// - Returns `Users` if the users file has a fault or cannot be read. The database is not opened.
/// - Returns `Store(AlreadyThere)` if the store is of version 2.
/// - Returns `Store(Unusable)` if the tables are of neither version.
/// - Returns `Store(Disk)` or `Store(Memory)` if the store meets one of these failures.
/// - Returns `Memory` if the allocator refuses the memory.
pub fn migrate_store<R: Read + Drop, S: Alter + Drop, D: Database<S>>(
    alloc: Global,
    users: R,
    node: u8,
    database: D,
) -> Result<Connection<S>, Fault>
    ensures migrated { IfOk result (λ conn. IfSome (R.remaining users)
        (HasMigrated S.Store D.finds default_limits 0 16777216 node conn)) }
    ensures fault { IfErr result (λ fault. IfSome (R.remaining users) (IsRefused default_limits 0 16777216 fault)) }
{
    let users = read_users(alloc, users, Settings::default(), 0)?;
    let conn = database.connect()?;
    migrate_tables(conn, node, &users)
}
