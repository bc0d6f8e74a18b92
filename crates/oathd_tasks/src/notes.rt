//! Writes what the command `check` notes of files that it takes.

ghost use Rattle.std.specs.Prelude.{◌≡◌, ◌≤◌, ◌-◌, ◌/◌, IfOk, OnOk, if◌then◌else◌, []};
ghost use Rattle.std.specs.Option.{option_map};
ghost use Rattle.std.specs.Io.KnownBytes.{Appends};
ghost use Rattle.oathd_tasks.specs.Notes.{AreNoted, case_text, count_text, empty_text, found_text, head, if_found, if_shared, members_text, notes_text, printed, row_text, rows_text, shared_text, shown};
ghost use Rattle.oathd_tasks.specs.Tally.{found_value, tally_value};

use crate::shared::shared_in;
use crate::tally::{Found, Tally, tally_of};
use otp_core::Settings;
use shared_secrets::SharedSecret;
use std::alloc::{AllocError, Global};
use std::io::{self, ErrorKind, Write};

/// The most bytes of a word that are printed.
const MAX_SHOWN_LEN: usize = 64;

/// Returns a byte of a word as it is printed: a graphic byte of ASCII, or `?`.
pub fn printed(byte: u8) -> u8
    ensures { result ≡ printed byte }
{
    if 33 <= byte && byte <= 126 {
        byte
    } else {
        b'?'
    }
}

/// Returns a word of a file as it is printed.
fn shown(alloc: Global, word: &[u8]) -> Result<Vec<u8>, AllocError>
    ensures { IfOk result (λ text. text.items ≡ shown word.now) }
{
    word.iter()
        .take(MAX_SHOWN_LEN)
        .map(|byte| printed(*byte))
        .collect(alloc)
}

/// Writes a word of a file as it is printed.
pub(crate) fn write_shown<W: Write>(alloc: Global, writer: &mut W, word: &[u8]) -> io::Result<()>
    ensures { OnOk result (Appends (W.contents writer.old) (W.contents writer.new) (shown word.now)) }
{
    match shown(alloc, word) {
        Ok(text) => writer.write_all(&text),
        Err(_) => Err(io::Error::from(ErrorKind::OutOfMemory)),
    }
}

/// Writes the beginning of a note on the file at `path`.
#[tactic(auto, unfolding(crate::specs::Notes::head))]
fn write_head<W: Write>(writer: &mut W, path: &str) -> io::Result<()>
    ensures { OnOk result (Appends (W.contents writer.old) (W.contents writer.new) (head path.now)) }
{
    write!(writer, "oathd: note: {path}: ")
}

/// Writes the line and the first field of a row.
#[tactic(auto, unfolding(crate::specs::Notes::row_text))]
fn write_row<W: Write>(alloc: Global, writer: &mut W, found: Found<'_>) -> io::Result<()>
    ensures { OnOk result (Appends (W.contents writer.old) (W.contents writer.new)
        (row_text (found_value found.entry))) }
{
    write!(writer, "line {}: ", found.line)?;
    write_shown(alloc, writer, found.word)
}

/// Writes the note on ignored rows.
#[tactic(auto, unfolding(crate::specs::Notes::found_text))]
fn write_found<W: Write>(
    alloc: Global,
    writer: &mut W,
    path: &str,
    count: u64,
    found: Found<'_>,
) -> io::Result<()>
    ensures { OnOk result (Appends (W.contents writer.old) (W.contents writer.new)
        (found_text path.now count (found_value found.entry))) }
{
    write_head(writer, path)?;
    write!(writer, "ignored {count}, first ")?;
    write_row(alloc, writer, found)?;
    writer.write_all(b"\n  a row begins with a type, as HOTP or HOTP/T30, and a comment with #\n")
}

/// Writes the note on a type in another case.
#[tactic(auto, unfolding(crate::specs::Notes::case_text))]
fn write_case<W: Write>(
    alloc: Global,
    writer: &mut W,
    path: &str,
    found: Found<'_>,
) -> io::Result<()>
    ensures { OnOk result (Appends (W.contents writer.old) (W.contents writer.new)
        (case_text path.now (found_value found.entry))) }
{
    write_head(writer, path)?;
    write_row(alloc, writer, found)?;
    writer.write_all(b" is ignored: a type is in upper case\n")
}

/// Writes the note on ignored rows, if there are any.
fn write_ignored<W: Write>(
    alloc: Global,
    writer: &mut W,
    path: &str,
    tally: &Tally<'_>,
) -> io::Result<()>
    ensures { OnOk result (Appends (W.contents writer.old) (W.contents writer.new)
        (if_found (found_text path.now tally.now.ignored) (option_map found_value tally.now.first))) }
{
    match tally.first {
        Some(found) => write_found(alloc, writer, path, tally.ignored, found),
        None => Ok(()),
    }
}

/// Writes the note on a type in another case, if there is one.
fn write_other_case<W: Write>(
    alloc: Global,
    writer: &mut W,
    path: &str,
    tally: &Tally<'_>,
) -> io::Result<()>
    ensures { OnOk result (Appends (W.contents writer.old) (W.contents writer.new)
        (if_found (case_text path.now) (option_map found_value tally.now.in_another_case))) }
{
    match tally.in_another_case {
        Some(found) => write_case(alloc, writer, path, found),
        None => Ok(()),
    }
}

/// Writes the note on a book without tokens, if it has none.
#[tactic(auto, unfolding(crate::specs::Notes::empty_text))]
fn write_empty<W: Write>(writer: &mut W, path: &str, has_token: bool) -> io::Result<()>
    ensures { OnOk result (Appends (W.contents writer.old) (W.contents writer.new)
        (if has_token then [] else empty_text path.now)) }
{
    if has_token {
        return Ok(());
    }
    write_head(writer, path)?;
    writer.write_all(b"no row has a token: each login is refused as UNKNOWN\n")
}

/// Writes the notes on the rows of the users file at `path`.
fn write_rows<W: Write>(
    alloc: Global,
    writer: &mut W,
    path: &str,
    tally: &Tally<'_>,
) -> io::Result<()>
    ensures { OnOk result (Appends (W.contents writer.old) (W.contents writer.new)
        (rows_text path.now (tally_value tally.now))) }
{
    write_ignored(alloc, writer, path, tally)?;
    write_other_case(alloc, writer, path, tally)?;
    write_empty(writer, path, tally.has_token)
}

/// Writes the note on an even number of members.
#[tactic(auto, unfolding(crate::specs::Notes::members_text))]
fn write_members<W: Write>(writer: &mut W, path: &str, members: u64) -> io::Result<()>
    requires { 1 ≤ members }
    ensures { OnOk result (Appends (W.contents writer.old) (W.contents writer.new) (members_text path.now members)) }
{
    let fewer = members - 1;
    let lost = fewer / 2;
    write_head(writer, path)?;
    write!(
        writer,
        "{members} members bear the loss of {lost}, as {fewer} would: take an odd number\n"
    )
}

/// Writes the note on the number of members, if it is even.
fn write_count<W: Write>(writer: &mut W, path: &str, members: u64) -> io::Result<()>
    requires { 1 ≤ members }
    ensures { OnOk result (Appends (W.contents writer.old) (W.contents writer.new) (count_text path.now members)) }
{
    if members % 2 == 0 {
        return write_members(writer, path, members);
    }
    Ok(())
}

/// Writes the note on two rows with one secret.
#[tactic(auto, unfolding(crate::specs::Notes::shared_text))]
fn write_shared<W: Write>(writer: &mut W, path: &str, rows: SharedSecret) -> io::Result<()>
    ensures { OnOk result (Appends (W.contents writer.old) (W.contents writer.new) (shared_text path.now rows)) }
{
    let SharedSecret { first, second } = rows;
    write_head(writer, path)?;
    write!(
        writer,
        "rows {first} and {second} have one secret: each accepts its codes\n"
    )
}

/// Writes the note on two rows with one secret, if there are any.
fn write_if_shared<W: Write>(
    writer: &mut W,
    path: &str,
    shared: Option<SharedSecret>,
) -> io::Result<()>
    ensures { OnOk result (Appends (W.contents writer.old) (W.contents writer.new) (if_shared path.now shared)) }
{
    match shared {
        Some(rows) => write_shared(writer, path, rows),
        None => Ok(()),
    }
}

/// Writes the notes on the users file at `users` with the text `rows`, of which `shared` have one secret, and on the
/// number of members in the cluster file at `cluster`.
fn write_each<W: Write>(
    alloc: Global,
    writer: &mut W,
    users: &str,
    rows: &[u8],
    shared: Option<SharedSecret>,
    cluster: &str,
    members: u64,
) -> io::Result<()>
    requires { 1 ≤ members }
    ensures { OnOk result (Appends (W.contents writer.old) (W.contents writer.new)
        (notes_text users.now rows.now shared cluster.now members)) }
{
    let Ok(tally) = tally_of(alloc, rows) else {
        return Err(io::Error::from(ErrorKind::OutOfMemory));
    };
    write_rows(alloc, writer, users, &tally)?;
    write_if_shared(writer, users, shared)?;
    write_count(writer, cluster, members)
}

/// Writes the notes on the users file at `users` with the text `rows`, which a node with these settings takes, and on
/// the number of members in the cluster file at `cluster`.
pub(crate) fn write_notes<W: Write>(
    alloc: Global,
    writer: &mut W,
    users: &str,
    rows: &[u8],
    settings: Settings,
    cluster: &str,
    members: u64,
) -> io::Result<()>
    requires { 1 ≤ members }
    ensures { OnOk result (AreNoted settings users.now rows.now cluster.now members
        (W.contents writer.old) (W.contents writer.new)) }
{
    match shared_in(alloc, rows, settings) {
        Ok(shared) => write_each(alloc, writer, users, rows, shared, cluster, members),
        Err(_) => Err(io::Error::from(ErrorKind::OutOfMemory)),
    }
}
