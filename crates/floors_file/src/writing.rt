ghost use Rattle.std.specs.Prelude.{◌≡◌, OnOk, length, map};
ghost use Rattle.std.specs.List.{flat_map};
ghost use Rattle.std.specs.Io.KnownBytes.{Appends};
ghost use Rattle.floors_file.specs.Floors.{floor_value, floors_value};
ghost use Rattle.floors_file.specs.Writing.{floor_text, floors_text, head_text, row_text};

use crate::floors::{Floor, Floors, Head};
use std::io::{self, Write};

/// Writes the first line.
#[tactic(auto, unfolding(crate::specs::Writing::head_text))]
fn write_head<W: Write>(writer: &mut W, head: Head, tokens: u64) -> io::Result<()>
    ensures { OnOk result (Appends (W.contents writer.old) (W.contents writer.new) (head_text head tokens)) }
{
    let Head {
        node,
        members,
        boot,
        moment,
    } = head;
    write!(
        writer,
        "floors 1 {node} {members} {boot} {moment} {tokens}\n"
    )
}

/// Writes the line of a user.
#[tactic(auto, unfolding(crate::specs::Writing::row_text))]
fn write_row<W: Write>(writer: &mut W, row: &Floor<'_>) -> io::Result<()>
    ensures { OnOk result (Appends (W.contents writer.old) (W.contents writer.new) (floor_text row.now)) }
{
    writer.write_all(row.user)?;
    write!(writer, " {}\n", row.next.value())
}

/// Writes the lines of users.
fn write_rows<W: Write>(writer: &mut W, rows: &[Floor<'_>]) -> io::Result<()>
    ensures { OnOk result (Appends (W.contents writer.old) (W.contents writer.new) (flat_map floor_text rows.now)) }
{
    for row in rows {
        write_row(writer, row)?;
    }
    Ok(())
}

/// Writes the text of floors, which [`read_floors`](crate::read_floors) reads back (`floors_read_back`).
///
/// # Errors
///
/// - Returns the writer's error. A prefix of the text may have been written.
pub fn write_floors<W: Write>(writer: &mut W, floors: &Floors<'_>) -> io::Result<()>
    ensures { OnOk result (Appends (W.contents writer.old) (W.contents writer.new)
        (floors_text (floors_value floors.now))) }
{
    write_head(writer, floors.head, floors.rows.len() as u64)?;
    write_rows(writer, &floors.rows)
}
