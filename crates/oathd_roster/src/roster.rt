//! The rows of a store as text, with their names and the users of their tokens.

ghost use Rattle.std.specs.Prelude.{◌≡◌, ◌<◌, ◌≤◌, length, slice_get, Some, IfErr, IfSome, OnOk};
ghost use Rattle.std.specs.Io.KnownBytes.{Appends};
ghost use Rattle.seated_store.specs.Seats.{token_of};
ghost use Rattle.oathd_database.specs.Fault.{IsOutputFault};
ghost use Rattle.oathd_roster.specs.Roster.{WritesRow, roster_line, roster_text, row_end, row_start, user_text};

use floor_store::FloorStore;
use oathd_database::Fault;
use otp_core::Next;
use roster_sql::Entry;
use std::io::{self, Write};
use token_file::{Book, Token, TokenId};
use token_names::Name;

/// Returns the token whose seat is the row, or None.
fn seated_token(seats: &[u32], row: u32) -> Option<usize>
    ensures token { result ≡ token_of seats.now row }
    ensures within { IfSome result (λ token. token < length seats.now) }
{
    seats.iter().position(|&seat| seat == row)
}

/// Returns the token with the number `token`.
fn token_in(book: &Book, token: u32) -> &Token
    requires within { token < length book.now }
    requires few { length book.now ≤ 10000 }
    ensures { slice_get book.now token ≡ Some result.now }
{
    book.token(TokenId::new(token).unwrap())
}

/// Returns the user of the token whose seat is the row, or `-` if there is none.
fn user_at<'a>(book: &'a Book, seats: &[u32], row: u32) -> &'a [u8]
    requires few { length book.now ≤ 10000 }
    requires each { length seats.now ≡ length book.now }
    ensures { result.now ≡ user_text book.now (token_of seats.now row) }
{
    match seated_token(seats, row) {
        Some(token) => token_in(book, token as u32).name(),
        None => b"-",
    }
}

/// Writes the number and the name of a row.
#[tactic(auto, unfolding(crate::specs::Roster::row_start))]
fn write_start<W: Write>(writer: &mut W, number: u32, name: Name) -> io::Result<()>
    ensures { OnOk result (Appends (W.contents writer.old) (W.contents writer.new) (row_start number name)) }
{
    write!(writer, "row {number} ")?;
    writer.write_all(&name.digits())
}

/// Writes the floor and the user of a row, and ends the line.
#[tactic(auto, unfolding(crate::specs::Roster::row_end))]
fn write_end<W: Write>(writer: &mut W, floor: Next, user: &[u8]) -> io::Result<()>
    ensures { OnOk result (Appends (W.contents writer.old) (W.contents writer.new) (row_end floor user.now)) }
{
    write!(writer, " {} ", floor.value())?;
    writer.write_all(user)?;
    writer.write_all(b"\n")
}

/// Writes the line of a row.
fn write_line<W: Write>(
    writer: &mut W,
    number: u32,
    name: Name,
    floor: Next,
    user: &[u8],
) -> io::Result<()>
    ensures { OnOk result (Appends (W.contents writer.old) (W.contents writer.new)
        (roster_line number name floor user.now)) }
{
    write_start(writer, number, name)?;
    write_end(writer, floor, user)
}

/// Writes the line of the row `number` of a store with the entries `roster`.
fn write_row<S: FloorStore, W: Write>(
    book: &Book,
    seats: &[u32],
    roster: &[Entry],
    store: &S,
    writer: &mut W,
    number: u32,
) -> Result<(), Fault>
    requires few { length book.now ≤ 10000 }
    requires each { length seats.now ≡ length book.now }
    requires entry { number < length roster.now }
    requires row { number < length (S.held store.now).content.rows }
    ensures written { (S.held store.now).is_clean → OnOk result (WritesRow book.now seats.now roster.now
        (S.held store.now).content.rows number (W.contents writer.old) (W.contents writer.new)) }
    ensures fault { IfErr result (IsOutputFault (S.held store.now).fault) }
{
    let row = store.row(number)?;
    let name = Name::new(roster[number as usize].name);
    let user = user_at(book, seats, number);
    write_line(writer, number, name, row.next(), user).map_err(|_| Fault::CannotWrite)
}

/// Writes a line `row NUMBER NAME FLOOR USER` for each row of a store with the entries `roster`, in order. Flushes.
///
/// The user is that of the token of the book whose seat is the row, or `-` if there is none.
///
/// # Errors
/// - Returns `Store` if the store is broken.
/// - Returns `CannotWrite` if the output fails. A prefix of the text may have been written.
pub fn write_roster<S: FloorStore, W: Write>(
    book: &Book,
    seats: &[u32],
    roster: &[Entry],
    store: &S,
    writer: &mut W,
) -> Result<(), Fault>
    requires few { length book.now ≤ 10000 }
    requires each { length seats.now ≡ length book.now }
    requires rows { length (S.held store.now).content.rows ≡ length roster.now }
    ensures written { (S.held store.now).is_clean → OnOk result (Appends (W.contents writer.old)
        (W.contents writer.new) (roster_text book.now seats.now roster.now (S.held store.now).content.rows)) }
    ensures fault { IfErr result (IsOutputFault (S.held store.now).fault) }
{
    for number in 0..store.tokens() {
        write_row(book, seats, roster, store, writer, number)?;
    }
    writer.flush().map_err(|_| Fault::CannotWrite)
}
