//! The command `init`: creates the store of a node.

ghost use Rattle.std.specs.Prelude.{IfErr, IfOk, IfSome};
ghost use Rattle.otp_core.specs.Range.{IsMoment};
ghost use Rattle.floor_sql.specs.Usable.{IsNode};
ghost use Rattle.oathd_database.specs.Commands.{HasMade, IsRefused};
ghost use Rattle.oathd_database.specs.Made.{IsMadeAt};
ghost use Rattle.oathd_database.specs.Users.{IsImported, drifted_floors as spec_drifted_floors};

use crate::database::Database;
use crate::fault::Fault;
use crate::users::{Users, drifted_floors, read_users};
use floor_sql::SqlStore;
use otp_core::Settings;
use sqlite::Alter;
use std::alloc::Global;
use std::io::Read;

/// Creates a store as [`init_store`] does, and returns it with the tokens of the users file.
pub(crate) fn create_store<R: Read + Drop, S: Alter + Drop, D: Database<S>>(
    alloc: Global,
    users: R,
    settings: Settings,
    moment: u64,
    node: u8,
    database: D,
) -> Result<(Users, SqlStore<S>), Fault>
    requires moment { IsMoment moment }
    requires node { IsNode node }
    ensures users { IfOk result (λ made. IfSome (R.remaining users)
        (IsImported settings moment 16777216 made.0.book made.0.floors.items)) }
    ensures made { IfOk result (λ made. IsMadeAt S.Store D.finds node
        (spec_drifted_floors settings.drift made.0.book made.0.floors.items) made.1) }
    ensures fault { IfErr result (λ fault. IfSome (R.remaining users) (IsRefused settings moment 16777216 fault)) }
{
    let users = read_users(alloc, users, settings, moment)?;
    let Ok(floors) = drifted_floors(alloc, &users, settings.drift()) else {
        return Err(Fault::Memory);
    };
    let conn = database.connect()?;
    match SqlStore::init(alloc, conn, node, &floors) {
        Ok(store) => Ok((users, store)),
        Err((_, fault)) => Err(Fault::Store(fault)),
    }
}

/// Creates the store of node `node`, 1 to 9, in a database without a table.
///
/// The tokens of the users file are imported at the given moment, in seconds since 1970-01-01 00:00:00 UTC, 0 to
/// 1099511627775. Only the skew and the drift of the settings are used. A time token's factors that such a node may
/// have accepted up to the moment are not free.
///
/// # Errors
/// - Returns `Users` if the users file has a fault or cannot be read. The database is not opened.
/// - Returns `Store(AlreadyThere)` if the database holds a store.
/// - Returns `Store(Unusable)` if the database has other tables.
/// - Returns `Store(Disk)` or `Store(Memory)` if the store meets one of these failures.
/// - Returns `Memory` if the allocator refuses the memory.
pub fn init_store<R: Read + Drop, S: Alter + Drop, D: Database<S>>(
    alloc: Global,
    users: R,
    settings: Settings,
    moment: u64,
    node: u8,
    database: D,
) -> Result<SqlStore<S>, Fault>
    requires moment { IsMoment moment }
    requires node { IsNode node }
    ensures made { IfOk result (λ store. IfSome (R.remaining users)
        (HasMade S.Store D.finds settings moment 16777216 node store)) }
    ensures fault { IfErr result (λ fault. IfSome (R.remaining users) (IsRefused settings moment 16777216 fault)) }
{
    let (_users, store) = create_store(alloc, users, settings, moment, node, database)?;
    Ok(store)
}
