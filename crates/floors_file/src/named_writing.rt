ghost use Rattle.std.specs.Prelude.{◌≡◌, ◌++◌, ◌∷◌, [], IfOk, OnOk};
ghost use Rattle.std.specs.List.{flat_map};
ghost use Rattle.std.specs.Io.KnownBytes.{Appends};
ghost use Rattle.hex.specs.Hex.{encode_lower};
ghost use Rattle.floors_file.specs.Named.{named_head_value};
ghost use Rattle.floors_file.specs.NamedWriting.{body_text, heard_text, named_floors_text, named_head_text, named_row_text};

use crate::named::{HeardBoot, NamedFloor, NamedHead};
use crate::sealed::mac_line;
use std::alloc::Global;
use std::io::{self, Write};
use token_names::{NAME_LEN, Name};

/// Writes the life, the last field of the first line.
fn write_life<W: Write>(writer: &mut W, life: &[u8]) -> io::Result<()>
    ensures { OnOk result (Appends (W.contents writer.old) (W.contents writer.new) (32 ∷ life.now ++ 10 ∷ [])) }
{
    writer.write_all(b" ")?;
    writer.write_all(life)?;
    writer.write_all(b"\n")
}

/// Writes the first line.
#[tactic(auto, unfolding(crate::specs::NamedWriting::named_head_text))]
fn write_named_head<W: Write>(writer: &mut W, head: NamedHead<'_>, rows: u64) -> io::Result<()>
    ensures { OnOk result (Appends (W.contents writer.old) (W.contents writer.new)
        (named_head_text (named_head_value head.entry) rows)) }
{
    let NamedHead {
        node,
        members,
        boot,
        moment,
        names,
        life,
    } = head;
    write!(writer, "floors 2 {node} {members} {boot} {moment} {rows} ")?;
    writer.write_all(names)?;
    write_life(writer, life)
}

/// Writes the seed, the second field of a name's line.
fn write_seed<W: Write>(writer: &mut W, seed: [u8; NAME_LEN]) -> io::Result<()>
    ensures { OnOk result (Appends (W.contents writer.old) (W.contents writer.new) (32 ∷ encode_lower seed)) }
{
    writer.write_all(b" ")?;
    writer.write_all(&Name::new(seed).digits())
}

/// Writes the line of a name.
#[tactic(auto, unfolding(crate::specs::NamedWriting::named_row_text))]
fn write_named_row<W: Write>(writer: &mut W, row: NamedFloor) -> io::Result<()>
    ensures { OnOk result (Appends (W.contents writer.old) (W.contents writer.new) (named_row_text row)) }
{
    writer.write_all(&row.name.digits())?;
    write_seed(writer, row.seed)?;
    write!(writer, " {}\n", row.next.value())
}

/// Writes the lines of names.
fn write_named_rows<W: Write>(writer: &mut W, rows: &[NamedFloor]) -> io::Result<()>
    ensures { OnOk result (Appends (W.contents writer.old) (W.contents writer.new)
        (flat_map named_row_text rows.now)) }
{
    for row in rows {
        write_named_row(writer, *row)?;
    }
    Ok(())
}

/// Writes the line of a boot that the node heard.
#[tactic(auto, unfolding(crate::specs::NamedWriting::heard_text))]
fn write_heard_boot<W: Write>(writer: &mut W, one: HeardBoot) -> io::Result<()>
    ensures { OnOk result (Appends (W.contents writer.old) (W.contents writer.new) (heard_text one)) }
{
    let HeardBoot { member, boot } = one;
    write!(writer, "heard {member} {boot}\n")
}

/// Writes the lines of boots that the node heard.
fn write_heard<W: Write>(writer: &mut W, heard: &[HeardBoot]) -> io::Result<()>
    ensures { OnOk result (Appends (W.contents writer.old) (W.contents writer.new) (flat_map heard_text heard.now)) }
{
    for one in heard {
        write_heard_boot(writer, *one)?;
    }
    Ok(())
}

/// Writes the lines before the MAC.
fn write_body<W: Write>(
    writer: &mut W,
    head: NamedHead<'_>,
    rows: &[NamedFloor],
    heard: &[HeardBoot],
) -> io::Result<()>
    ensures { OnOk result (Appends (W.contents writer.old) (W.contents writer.new)
        (body_text (record { head = named_head_value head.entry; rows = rows.now; heard = heard.now }))) }
{
    write_named_head(writer, head, rows.len() as u64)?;
    write_named_rows(writer, rows)?;
    write_heard(writer, heard)
}

/// Returns the lines before the MAC.
fn body_of(
    alloc: Global,
    head: NamedHead<'_>,
    rows: &[NamedFloor],
    heard: &[HeardBoot],
) -> io::Result<Vec<u8>>
    ensures { IfOk result (λ body. body.items
        ≡ body_text (record { head = named_head_value head.entry; rows = rows.now; heard = heard.now })) }
{
    let mut body = Vec::new(alloc);
    write_body(&mut body, head, rows, heard)?;
    Ok(body)
}

/// Writes the text of floors by names, with the MAC under the cluster's own `key`.
///
/// [`read_named_floors`](crate::read_named_floors) reads it back (`named_floors_read_back`).
///
/// # Errors
///
/// - Returns `OutOfMemory` if the allocator refuses the memory for the text. Nothing has been written.
/// - Returns the writer's error. A prefix of the text may have been written.
pub fn write_named_floors<W: Write>(
    alloc: Global,
    writer: &mut W,
    key: &[u8],
    head: NamedHead<'_>,
    rows: &[NamedFloor],
    heard: &[HeardBoot],
) -> io::Result<()>
    ensures { OnOk result (Appends (W.contents writer.old) (W.contents writer.new) (named_floors_text key.now
        (record { head = named_head_value head.entry; rows = rows.now; heard = heard.now }))) }
{
    let body = body_of(alloc, head, rows, heard)?;
    writer.write_all(&body)?;
    writer.write_all(&mac_line(key, &body))
}
