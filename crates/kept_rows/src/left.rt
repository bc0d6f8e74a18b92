//! Reports the rows of a users file that are left out.

ghost use Rattle.std.specs.Prelude.{◌≡◌, IfOk, OnOk, map, take};
ghost use Rattle.std.specs.Io.KnownBytes.{Appends};
ghost use Rattle.token_file.specs.Fields.{fields_of};
ghost use Rattle.kept_rows.specs.Left.{first_line, first_of, head, is_comment, left_from, left_text, printed, report, report_of, shown};

use crate::rows::{is_at, lines_in};
use std::alloc::{AllocError, Global};
use std::io::{self, ErrorKind, Write};
use token_file::first_field;

/// The most bytes of a user that are printed.
const MAX_SHOWN_LEN: usize = 64;

/// Returns whether a field begins a comment.
fn is_comment(field: &[u8]) -> bool
    ensures { result ≡ is_comment field.now }
{
    field.first() == Some(&b'#')
}

/// Returns a byte of a user as it is printed: a graphic byte of ASCII, or `?`.
fn printed(byte: u8) -> u8
    ensures { result ≡ printed byte }
{
    if 33 <= byte && byte <= 126 {
        byte
    } else {
        b'?'
    }
}

/// Returns the first field of a line, or no bytes if it has none.
fn first_of(line: &[u8]) -> &[u8]
    ensures { result.now ≡ first_of (fields_of line.now) }
{
    match first_field(line) {
        Some((field, _)) => field,
        None => b"",
    }
}

/// Returns a user as it is printed.
fn shown(alloc: Global, user: &[u8]) -> Result<Vec<u8>, AllocError>
    ensures { IfOk result (λ text. text.items ≡ shown user.now) }
{
    user.iter()
        .take(MAX_SHOWN_LEN)
        .map(|byte| printed(*byte))
        .collect(alloc)
}

/// Writes a user as it is printed.
fn write_shown<W: Write>(alloc: Global, writer: &mut W, user: &[u8]) -> io::Result<()>
    ensures { OnOk result (Appends (W.contents writer.old) (W.contents writer.new) (shown user.now)) }
{
    match shown(alloc, user) {
        Ok(text) => writer.write_all(&text),
        Err(_) => Err(io::Error::from(ErrorKind::OutOfMemory)),
    }
}

/// Writes the beginning of a report, with the number of a line.
#[tactic(auto, unfolding(crate::specs::Left::head))]
fn write_head<W: Write>(writer: &mut W, number: u64) -> io::Result<()>
    ensures { OnOk result (Appends (W.contents writer.old) (W.contents writer.new) (head number)) }
{
    write!(writer, "enrol left line={number} user=")
}

/// Writes the report of the row of a user, by the number of its line.
#[tactic(auto, unfolding(crate::specs::Left::report))]
fn write_report<W: Write>(alloc: Global, writer: &mut W, number: u64, user: &[u8]) -> io::Result<()>
    ensures { OnOk result (Appends (W.contents writer.old) (W.contents writer.new) (report number user.now)) }
{
    write_head(writer, number)?;
    write_shown(alloc, writer, user)?;
    writer.write_all(b"\n")
}

/// Writes the report of a line, unless it has no field or is a comment.
fn write_row<W: Write>(alloc: Global, writer: &mut W, number: u64, line: &[u8]) -> io::Result<()>
    ensures { OnOk result (Appends (W.contents writer.old) (W.contents writer.new)
        (report_of number (fields_of line.now))) }
{
    match first_field(line) {
        Some((field, rest)) if !is_comment(field) => {
            write_report(alloc, writer, number, first_of(rest))
        }
        _ => Ok(()),
    }
}

/// Writes the reports of lines, from 1 on, but for the kept ones, which they have in their order.
fn write_lines<W: Write>(
    alloc: Global,
    writer: &mut W,
    lines: &[&[u8]],
    kept: &[&[u8]],
) -> io::Result<()>
    ensures { OnOk result (Appends (W.contents writer.old) (W.contents writer.new)
        (left_from (map (λ line. line.now) kept.now) 1 (map (λ line. line.now) lines.now))) }
{
    let mut number: u64 = 1;
    let mut place: usize = 0;
    for line in lines {
        if is_at(kept, place, line) {
            place += 1;
        } else {
            write_row(alloc, writer, number, line)?;
        }
        number += 1;
    }
    Ok(())
}

/// Writes what is told first.
fn write_first<W: Write>(writer: &mut W) -> io::Result<()>
    ensures { OnOk result (Appends (W.contents writer.old) (W.contents writer.new) first_line) }
{
    writer.write_all(b"enrol refused Full\n")
}

/// Writes that a store has no room for some rows of `text`, and each of them: `enrol refused Full`, then lines
/// `enrol left line=K user=NAME`, by the number of the row's line and its second field. `kept` has the other rows, in
/// their order. Comments and lines without fields are no rows.
///
/// # Errors
///
/// - Returns the writer's error, or `OutOfMemory`. A prefix of the lines may have been written.
pub fn write_left<W: Write>(
    alloc: Global,
    writer: &mut W,
    text: &[u8],
    kept: &[u8],
) -> io::Result<()>
    ensures { OnOk result (Appends (W.contents writer.old) (W.contents writer.new)
        (left_text text.now kept.now)) }
{
    let (Ok(lines), Ok(kept)) = (lines_in(alloc, text), lines_in(alloc, kept)) else {
        return Err(io::Error::from(ErrorKind::OutOfMemory));
    };
    write_first(writer)?;
    write_lines(alloc, writer, &lines, &kept)?;
    Ok(())
}
