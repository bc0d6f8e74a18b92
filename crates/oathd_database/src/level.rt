//! The command `level`: raises the floors of a stopped node to the greatest in floors files.
//!
//! Floor: the first free factor of a token at a node.

ghost use Rattle.std.specs.Prelude.{◌≡◌, ◌<◌, ◌≤◌, length, map, None, Option, IfErr, IfOk, IfSome};
ghost use Rattle.otp_core.specs.Limits.{default_limits};
ghost use Rattle.floor_store.specs.Held.{MayPut};
ghost use Rattle.floors_file.specs.Floors.{floors_value};
ghost use Rattle.oathd_database.specs.Level.{HasLevelled, IsNotLevelled, Levels, told_at, told_by};
ghost use Rattle.vote_core.specs.Rows.{row as row_in};
ghost use Rattle.vote_core.specs.Voting.{raise};

use crate::database::{Database, open_store};
use crate::fault::Fault;
use crate::gather::{GatherFault, read_files};
use crate::users::token_at;
use floor_sql::SqlStore;
use floor_store::{FloorStore, Row, StoreFault};
use floors_file::{Floors, greatest};
use otp_core::{Next, Settings};
use sqlite::Alter;
use std::alloc::Global;
use std::io::Read;
use token_file::Book;

/// Returns the row of `token`.
fn read_row<S: FloorStore>(store: &S, token: u32) -> Result<Row, StoreFault>
    requires { token < length (S.held store.now).content.rows }
    ensures { (S.held store.now).is_clean → IfOk result (λ row. row ≡ row_in (S.held store.now).content token) }
{
    store.row(token)
}

/// Puts a greater floor of `token`, as a node does after a message with it.
#[tactic(auto, unfolding(vote_core::specs::Voting::raise))]
fn raise_row<S: FloorStore>(store: &mut S, token: u32, floor: Next) -> Result<(), StoreFault>
    requires { token < length (S.held store.old).content.rows }
    ensures { MayPut S.held store.old store.new (raise token floor (S.held store.old).content) result }
{
    let row = read_row(store, token)?;
    if row.next().value() < floor.value() {
        store.put(token, row.with_next(floor), None)?;
    }
    Ok(())
}

/// Puts the floor `told` of `token`, if there is one and it is greater.
fn level_row<S: FloorStore>(store: &mut S, token: u32, told: Option<Next>) -> Result<(), StoreFault>
    requires { token < length (S.held store.old).content.rows }
    ensures { MayPut S.held store.old store.new (told_at token told (S.held store.old).content) result }
{
    match told {
        Some(floor) => raise_row(store, token, floor),
        None => Ok(()),
    }
}

/// Raises each lower floor of a token of `book` to the greatest in the floors files for its user, and commits.
///
/// A user of no file keeps its floor. The rest of a row stays. The store commits in batches: a stop or a fault leaves a
/// prefix of the rows raised and the other rows unchanged.
///
/// # Errors
/// Returns the errors of the store.
pub fn level_rows<S: FloorStore>(
    store: &mut S,
    book: &Book,
    files: &[Floors<'_>],
) -> Result<(), StoreFault>
    requires each { length (S.held store.old).content.rows ≡ length book.now }
    requires few { length book.now ≤ 10000 }
    ensures { Levels S.held store.old store.new (told_by (map floors_value files.now) book.now) result }
{
    for token in 0..store.tokens() {
        let told = greatest(token_at(book, token).name(), files);
        level_row(store, token, told)?;
    }
    store.commit()
}

/// Raises the floors of a stopped node's store to the greatest in the texts of floors files, as [`level_rows`] does.
///
/// Messages of other members with these floors would have the same effect.
///
/// # Errors
/// - Returns `Floors` with the first text that is not a floors file. The database is not opened.
/// - Returns `Command` with the errors of [`open_store`](crate::open_store) and [`level_rows`].
pub fn level_store<R: Read + Drop, S: Alter + Drop, D: Database<S>>(
    alloc: Global,
    users: R,
    node: u8,
    texts: &[Vec<u8>],
    database: D,
) -> Result<SqlStore<S>, GatherFault>
    ensures levelled { IfOk result (λ store. IfSome (R.remaining users)
        (HasLevelled S.Store D.finds default_limits 16777216 node (map (λ text. text.items) texts.now) store)) }
    ensures fault { IfErr result (λ fault. IfSome (R.remaining users)
        (IsNotLevelled default_limits 16777216 (map (λ text. text.items) texts.now) fault)) }
{
    let files = match read_files(alloc, texts) {
        Ok(files) => files,
        Err(fault) => return Err(fault),
    };
    let (users, mut store) = match open_store(
        alloc,
        users,
        Settings::default(),
        Some(node),
        database,
    ) {
        Ok(opened) => opened,
        Err(fault) => return Err(GatherFault::Command(fault)),
    };
    match level_rows(&mut store, &users.book, &files) {
        Ok(()) => Ok(store),
        Err(fault) => Err(GatherFault::Command(Fault::Store(fault))),
    }
}
