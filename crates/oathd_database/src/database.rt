//! The trait of a database that holds a store, and the opening of its store.
//!
//! Floor: the first free factor of a token at a node.

ghost use Rattle.std.specs.Prelude.{◌≡◌, false, length, IfErr, IfOk, IfSome};
ghost use Rattle.sqlite.specs.Held.{Held, state};
ghost use Rattle.sqlite.specs.State.{HasCleanDisk};
ghost use Rattle.floor_sql.specs.Calls.{IsOpened};
ghost use Rattle.oathd_database.specs.Commands.{HasOpened, IsRefused};
ghost use Rattle.oathd_database.specs.Fault.{IsStoreFault};
ghost use Rattle.oathd_database.specs.Users.{IsImported};

use crate::fault::Fault;
use crate::users::{Users, read_users};
use floor_sql::{SqlStore, StoreFiles};
use floor_store::{FloorStore, StoreFault};
use otp_core::Settings;
use sqlite::{Alter, Connection};
use std::alloc::Global;
use std::io::Read;

/// A database that can be opened once. Opening it may create a missing file, with no table.
pub trait Database<S: Alter>: Drop {
    // What a connection shows that was just opened.
    ghost finds: { Held S → Type 0 };

    /// Returns the files that a store in it watches, before it is opened, or None if it lies in no file.
    fn files(&self) -> Option<StoreFiles> {
        None
    }

    /// Opens the database. The connection is outside a transaction and has no limit on its steps.
    ///
    /// # Errors
    /// - Returns `Disk` if the database cannot be opened.
    /// - Returns `Unusable` if it has to hold a store and is an empty file.
    fn connect(self) -> Result<Connection<S>, StoreFault>
        ensures idle { IfOk result (λ conn. conn.in_transaction ≡ false) }
        ensures found { IfOk result (λ conn. HasCleanDisk (state S.Store conn) → finds conn) };
}

/// Opens the store of `node` in the tables of `conn`. It has the tokens of the users file.
fn open_numbered<S: Alter + Drop>(
    alloc: Global,
    conn: Connection<S>,
    node: u8,
    users: &Users,
) -> Result<SqlStore<S>, Fault>
    requires { conn.in_transaction ≡ false }
    ensures opened { IfOk result (IsOpened S.Store conn node (length users.now.book)) }
    ensures tokens { IfOk result (λ store. length store.mirror.rows ≡ length users.now.book) }
    ensures fault { IfErr result IsStoreFault }
{
    let tokens = users.book.len() as u32;
    let store = match SqlStore::open(alloc, conn, node, tokens) {
        Ok(store) => store,
        Err((_, fault)) => return Err(Fault::Store(fault)),
    };
    if store.tokens() != tokens {
        // The disk returned something other than what was written.
        return Err(Fault::Store(StoreFault::Unusable));
    }
    Ok(store)
}

/// Opens the store of the node that the tables of `conn` name.
fn open_named<S: Alter + Drop>(
    alloc: Global,
    conn: Connection<S>,
    node: Option<u8>,
    users: &Users,
) -> Result<SqlStore<S>, Fault>
    requires { conn.in_transaction ≡ false }
    ensures opened { IfOk result (HasOpened S.Store (λ first. first ≡ conn) node (length users.now.book)) }
    ensures tokens { IfOk result (λ store. length store.mirror.rows ≡ length users.now.book) }
    ensures fault { IfErr result IsStoreFault }
{
    if let Some(node) = node {
        return open_numbered(alloc, conn, node, users);
    }
    match SqlStore::node_of(conn) {
        Ok((conn, node)) => open_numbered(alloc, conn, node, users),
        Err((_, fault)) => Err(Fault::Store(fault)),
    }
}

/// Reads a users file, and opens the store of its tokens.
///
/// The store belongs to the given node, or, without one, to the node that the tables name. The floors are the store's.
/// The settings are the server's. The store watches the files of the database.
///
/// # Errors
/// - Returns `Users` if the users file has a fault or cannot be read. The database is not opened.
/// - Returns `Store(Unusable)` if the tables hold no such store.
/// - Returns `Store(Disk)` or `Store(Memory)` if the store meets one of these failures.
/// - Returns `Memory` if the allocator refuses the memory.
pub fn open_store<R: Read + Drop, S: Alter + Drop, D: Database<S>>(
    alloc: Global,
    users: R,
    settings: Settings,
    node: Option<u8>,
    database: D,
) -> Result<(Users, SqlStore<S>), Fault>
    ensures users { IfOk result (λ opened. IfSome (R.remaining users)
        (IsImported settings 0 16777216 opened.0.book opened.0.floors.items)) }
    ensures tokens { IfOk result (λ opened. length opened.1.mirror.rows ≡ length opened.0.book) }
    ensures opened { IfOk result (λ opened. HasOpened S.Store D.finds node (length opened.0.book) opened.1) }
    ensures fault { IfErr result (λ fault. IfSome (R.remaining users) (IsRefused settings 0 16777216 fault)) }
{
    let users = read_users(alloc, users, settings, 0)?;
    let files = database.files();
    let conn = database.connect()?;
    let mut store = open_named(alloc, conn, node, &users)?;
    store.watch(files);
    Ok((users, store))
}
