//! The command `migrate` by names: upgrades a store of version 2 to version 3.

ghost use Rattle.std.specs.Prelude.{◌≡◌, ◌≤◌, false, length, IfErr, IfOk, IfSome};
ghost use Rattle.floor_sql.specs.Calls.{IsOpened};
ghost use Rattle.otp_core.specs.Limits.{default_limits};
ghost use Rattle.oathd_database.specs.Fault.{IsStoreFault};
ghost use Rattle.oathd_floors.specs.Named.{HasNamed, IsNamed, IsUnnamed};

use crate::fault::NamingFault;
use crate::kinds::check_kinds;
use floor_sql::{Refusal, SqlStore};
use floor_store::{FloorStore, StoreFault};
use oathd_database::{Database, Fault};
use oathd_roster::{NamedCluster, read_named_users};
use otp_core::Settings;
use roster_sql::{Bond, Entry, name_tables};
use sqlite::{Alter, Connection};
use std::alloc::Global;
use std::io::Read;
use token_file::Book;

/// Opens the store of `node` in the tables of `conn`, which has the tokens of `book` and no names.
fn open_numbered<S: Alter + Drop>(
    alloc: Global,
    conn: Connection<S>,
    node: u8,
    book: &Book,
) -> Result<SqlStore<S>, Fault>
    requires { conn.in_transaction ≡ false }
    ensures opened { IfOk result (IsOpened S.Store conn node (length book.now)) }
    ensures each { IfOk result (λ store. length store.mirror.rows ≡ length book.now) }
    ensures fault { IfErr result IsStoreFault }
{
    let tokens = book.len() as u32;
    let store = match SqlStore::open(alloc, conn, node, tokens) {
        Ok(store) => store,
        Err((_, fault)) => return Err(Fault::Store(fault)),
    };
    if store.tokens() != tokens {
        // The disk returned something other than what was written.
        return Err(Fault::Store(StoreFault::Unusable));
    }
    Ok(store)
}

/// Gives the tokens of the store of `node` in the tables of `conn` names, and binds the store.
fn name_rows<S: Alter + Drop>(
    mut conn: Connection<S>,
    node: u8,
    entries: &[Entry],
    own: &Bond,
) -> Result<Connection<S>, Fault>
    requires idle { conn.in_transaction ≡ false }
    requires numbers { length entries.now ≤ 10000 }
    ensures named { IfOk result (IsNamed S.Store node entries.now own.now conn) }
    ensures fault { IfErr result IsStoreFault }
{
    match name_tables(&mut conn, node, entries, own) {
        Ok(()) => Ok(conn),
        Err(Refusal(fault)) => Err(Fault::Store(fault)),
    }
}

/// Gives the tokens of a stopped node's store of version 2 their names, and binds it to the cluster.
///
/// The store has the tokens of the users file, in its order, as far as [its rows tell](crate::is_of_kind).
/// It is then of version 3, in one transaction. Everything else stays. Returns the connection to it.
///
/// # Errors
/// - Returns the errors of [`read_named_users`]. The database is not opened.
/// - Returns `Roster(Command(Store(Unusable)))` if the tables hold no store of version 2, of the node, with as many
///   tokens.
/// - Returns `OtherKind` with the first row that is not of the kind of its token. Nothing is written.
/// - Returns `Roster(Command(Store(Disk)))` or `Roster(Command(Store(Memory)))` if the store meets such a failure.
pub fn name_store<R: Read + Drop, S: Alter + Drop, D: Database<S>>(
    alloc: Global,
    users: R,
    node: u8,
    cluster: &NamedCluster,
    database: D,
) -> Result<Connection<S>, NamingFault>
    ensures named { IfOk result (λ conn. IfSome (R.remaining users)
        (HasNamed S.Store D.finds cluster.now default_limits 16777216 node conn)) }
    ensures fault { IfErr result (λ fault. IfSome (R.remaining users)
        (IsUnnamed S.Store D.finds cluster.now default_limits 16777216 node fault)) }
{
    let named = read_named_users(alloc, users, Settings::default(), 0, &cluster.salt)?;
    let conn = database.connect()?;
    let store = open_numbered(alloc, conn, node, &named.users.book)?;
    check_kinds(&named.users.book, &store)?;
    let conn = name_rows(store.close(), node, &named.entries, &cluster.bond)?;
    Ok(conn)
}
