//! The command `floors`: prints the floors file of a stopped node.
//!
//! Floor: the first free factor of a token at a node.

ghost use Rattle.std.specs.Prelude.{◌≡◌, ◌≤◌, ◌<◌, length, slice_get, Some, IfErr, IfOk, IfSome, OnOk};
ghost use Rattle.std.specs.Io.KnownBytes.{Appends};
ghost use Rattle.otp_core.specs.Limits.{default_limits};
ghost use Rattle.floors_file.specs.Floors.{floors_value};
ghost use Rattle.floors_file.specs.Writing.{floors_text};
ghost use Rattle.oathd_database.specs.Commands.{EndsOutput};
ghost use Rattle.oathd_database.specs.Fault.{IsOpenFault};
ghost use Rattle.oathd_database.specs.Floors.{HasToldFloors, IsToldFault, told_floors};
ghost use Rattle.oathd_database.specs.declared.fault.Fault.TheVariants.{CannotWrite};

use crate::database::{Database, open_store};
use crate::fault::Fault;
use crate::users::token_at;
use floor_store::{FloorStore, StoreFault};
use floors_file::{Floor, Floors, Head, write_floors};
use otp_core::{Next, Settings};
use sqlite::Alter;
use std::alloc::Global;
use std::io::{Read, Write};
use token_file::Book;

/// Returns the floor of `token` in `store`.
fn next_of<S: FloorStore>(store: &S, token: u32) -> Result<Next, StoreFault>
    requires { token < length (S.held store.now).content.rows }
    ensures { (S.held store.now).is_clean → IfOk result (λ next. IfSome
        (slice_get (S.held store.now).content.rows token) (λ row. row.next ≡ next)) }
{
    Ok(store.row(token)?.next())
}

/// Returns the content of a floors file: the floor of each token of `book` in the store of a node, at a moment.
///
/// # Errors
/// - Returns `Store` if the store is broken.
/// - Returns `Memory` if the allocator refuses the memory.
pub fn floors_of<'a, S: FloorStore>(
    alloc: Global,
    book: &'a Book,
    store: &S,
    node: u8,
    members: u8,
    moment: u64,
) -> Result<Floors<'a>, Fault>
    requires each { length (S.held store.now).content.rows ≡ length book.now }
    requires few { length book.now ≤ 10000 }
    ensures told { (S.held store.now).is_clean → IfOk result (λ floors.
        floors_value floors ≡ told_floors node members moment book.now (S.held store.now).content) }
    ensures fault { IfErr result IsOpenFault }
{
    let boot = store.boot()?;
    let mut rows = Vec::new(alloc);
    for token in 0..store.tokens() {
        let next = next_of(store, token)?;
        let user = token_at(book, token).name();
        match rows.push(Floor { user, next }) {
            Ok(()) => {}
            Err(_) => return Err(Fault::Memory),
        }
    }
    let head = Head {
        node,
        members,
        boot,
        moment,
    };
    Ok(Floors { head, rows })
}

/// Writes `floors` and flushes.
fn write_flushed<W: Write>(writer: &mut W, floors: &Floors<'_>) -> Result<(), Fault>
    ensures written { OnOk result (Appends (W.contents writer.old) (W.contents writer.new)
        (floors_text (floors_value floors.now))) }
    ensures fault { IfErr result (λ fault. fault ≡ CannotWrite) }
{
    if write_floors(writer, floors).is_err() {
        return Err(Fault::CannotWrite);
    }
    match writer.flush() {
        Ok(()) => Ok(()),
        Err(_) => Err(Fault::CannotWrite),
    }
}

/// Writes the floors file of a node from its store, and flushes.
fn write_told<S: FloorStore, W: Write>(
    alloc: Global,
    book: &Book,
    store: &S,
    node: u8,
    members: u8,
    moment: u64,
    writer: &mut W,
) -> Result<(), Fault>
    requires each { length (S.held store.now).content.rows ≡ length book.now }
    requires few { length book.now ≤ 10000 }
    ensures written { (S.held store.now).is_clean → OnOk result (Appends (W.contents writer.old)
        (W.contents writer.new)
        (floors_text (told_floors node members moment book.now (S.held store.now).content))) }
    ensures fault { IfErr result IsToldFault }
{
    let floors = floors_of(alloc, book, store, node, members, moment)?;
    write_flushed(writer, &floors)
}

/// Writes the floors file of a stopped node. Its store does not change.
///
/// The file has the node's number, the number of members, the store's boot, and the moment in seconds since 1970-01-01
/// 00:00:00 UTC. A row follows for each token of the users file, with its floor.
///
/// # Errors
/// - Returns the errors of [`open_store`].
/// - Returns `CannotWrite` if the output fails. A prefix of the text may have been written.
pub fn floors_store<R: Read + Drop, S: Alter + Drop, D: Database<S>, W: Write>(
    alloc: Global,
    users: R,
    node: u8,
    members: u8,
    moment: u64,
    database: D,
    writer: &mut W,
) -> Result<(), Fault>
    ensures told { IfOk result (λ _. IfSome (R.remaining users) (HasToldFloors S.Store D.finds default_limits 16777216
        node members moment (W.contents writer.old) (W.contents writer.new))) }
    ensures fault { IfErr result (λ fault. IfSome (R.remaining users) (EndsOutput default_limits 0 16777216 fault)) }
{
    let (users, store) = open_store(alloc, users, Settings::default(), Some(node), database)?;
    write_told(alloc, &users.book, &store, node, members, moment, writer)
}
