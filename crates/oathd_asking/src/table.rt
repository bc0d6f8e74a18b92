//! The table of a cluster's members, from the texts of their states.

ghost use Rattle.std.specs.Prelude.{◌≡◌, count_by, find, length, map, OnOk};
ghost use Rattle.std.specs.Io.KnownBytes.{Appends};
ghost use Rattle.std.specs.List.{list_all};
ghost use Rattle.std.specs.Option.{option_map};
ghost use Rattle.oathd_asking.specs.Table as spec;
ghost use Rattle.oathd_asking.specs.Table.{begins_with_heard, field_of, fields_in, is_told, member_is_heard, note_of, says_heard};
ghost use Rattle.field_text.specs.Cut.{halves_of};

use field_text::cut_at;
use std::io::{self, Write};

/// What a table says of a cluster.
#[derive(Clone, Copy, Debug, PartialEq, Eq)]
pub enum Health {
    /// Each member answers and hears all others, and none differs.
    Well,
    /// A majority of the members answers.
    Degraded,
    /// No majority of the members answers.
    NoMajority,
}

/// What a table says of a member.
#[derive(Clone, Copy, Debug, PartialEq, Eq)]
pub(crate) enum Note {
    /// It hears all others, and is as the first one.
    Well,
    /// It doesn't hear all others.
    HearsNotAll,
    /// It has another book than the first one.
    BookDiffers,
    /// It has another fingerprint than the first one.
    FingerprintDiffers,
    /// It doesn't tell its state.
    Silent,
}

/// The first line of a table.
const HEAD: &[u8] = b"node boot heard tokens fingerprint book note\n";

/// Returns what follows a line's first word, if it is the word.
fn fields_in<'t>(line: &'t [u8], word: &[u8]) -> Option<&'t [u8]>
    ensures { option_map (λ fields. fields.now) result ≡ fields_in word.now (halves_of 32 line.now) }
{
    let (first, fields) = cut_at(line, b' ')?;
    if first == word { Some(fields) } else { None }
}

/// Returns what follows the word in the first line of a state that begins with it, or `-` if there is none.
fn field<'t>(text: &'t [u8], word: &[u8]) -> &'t [u8]
    ensures { result.now ≡ field_of text.now word.now }
{
    let mut rest = text;
    while let Some((line, behind)) = cut_at(rest, b'\n') {
        if let Some(fields) = fields_in(line, word) {
            return fields;
        }
        rest = behind;
    }
    b"-"
}

/// Returns whether what a node sees of a member begins with `heard`.
fn begins_with_heard(seen: &[u8]) -> bool
    ensures { result ≡ begins_with_heard (halves_of 32 seen.now) }
{
    match cut_at(seen, b' ') {
        Some((word, _)) => word == b"heard".as_slice(),
        None => false,
    }
}

/// Returns whether the fields of a member say that it is heard.
fn says_heard(fields: &[u8]) -> bool
    ensures { result ≡ says_heard (halves_of 32 fields.now) }
{
    match cut_at(fields, b' ') {
        Some((_, seen)) => begins_with_heard(seen),
        None => false,
    }
}

/// Returns whether a line says that a member is heard.
fn is_heard(line: &[u8]) -> bool
    ensures { result ≡ spec.is_heard line.now }
{
    match cut_at(line, b' ') {
        Some((word, fields)) => word == b"member".as_slice() && says_heard(fields),
        None => false,
    }
}

/// Returns the number of members that a line says to be heard: 0 or 1.
fn heard_at(line: &[u8]) -> usize
    ensures { result ≡ spec.heard_at line.now }
{
    if is_heard(line) { 1 } else { 0 }
}

/// Returns the number of members that a node with this state hears, itself included.
fn heard_of(text: &[u8]) -> usize
    ensures { result ≡ spec.heard_of text.now }
{
    let mut heard = 1;
    let mut rest = text;
    while let Some((line, behind)) = cut_at(rest, b'\n') {
        heard += heard_at(line);
        rest = behind;
    }
    heard
}

/// Returns the state of the first member that tells it, or None.
fn first_told(texts: &[Vec<u8>]) -> Option<&Vec<u8>>
    ensures { option_map (λ text. text.now) result ≡ find (λ text. is_told text.items) texts.now }
{
    texts.iter().find(|text| !text.is_empty())
}

/// Returns the state of the first member that tells it, or an empty one.
fn first_of(texts: &[Vec<u8>]) -> &[u8]
    ensures { result.now ≡ spec.first_of (map (λ text. text.items) texts.now) }
{
    match first_told(texts) {
        Some(text) => text.as_slice(),
        None => b"",
    }
}

/// Returns what is to be said of a member's state beside that of the first.
fn note_of(text: &[u8], first: &[u8], members: usize) -> Note
    ensures { result ≡ note_of first.now members text.now }
{
    if text.is_empty() {
        Note::Silent
    } else if field(text, b"fingerprint") != field(first, b"fingerprint") {
        Note::FingerprintDiffers
    } else if field(text, b"book") != field(first, b"book") {
        Note::BookDiffers
    } else if heard_of(text) < members {
        Note::HearsNotAll
    } else {
        Note::Well
    }
}

/// Returns whether nothing is wrong with a member.
fn is_well(note: Note) -> bool
    ensures { result ≡ spec.is_well note }
{
    match note {
        Note::Well => true,
        Note::HearsNotAll | Note::BookDiffers | Note::FingerprintDiffers | Note::Silent => false,
    }
}

/// Returns whether nothing is wrong with any member, beside the first of so many.
fn are_well_beside(texts: &[Vec<u8>], first: &[u8], members: usize) -> bool
    ensures { result ≡ list_all (λ text. spec.is_well (note_of first.now members text.items)) texts.now }
{
    texts
        .iter()
        .all(|text| is_well(note_of(text.as_slice(), first, members)))
}

/// Returns whether nothing is wrong with any member.
fn are_well(texts: &[Vec<u8>]) -> bool
    ensures { result ≡ spec.are_well (map (λ text. text.items) texts.now) }
{
    are_well_beside(texts, first_of(texts), texts.len())
}

/// Returns the number of members that tell their states.
fn told_in(texts: &[Vec<u8>]) -> usize
    ensures { result ≡ count_by is_told (map (λ text. text.items) texts.now) }
{
    texts.iter().filter(|text| !text.is_empty()).count()
}

/// Returns what the states of all members say of a cluster. The state of a member that doesn't tell it is empty.
pub fn health_of(texts: &[Vec<u8>]) -> Health
    ensures { result ≡ spec.health_of (map (λ text. text.items) texts.now) }
{
    if are_well(texts) {
        Health::Well
    } else if texts.len() / 2 < told_in(texts) {
        Health::Degraded
    } else {
        Health::NoMajority
    }
}

/// Returns the words of a note.
fn note_text(note: Note) -> &'static [u8]
    ensures { result.now ≡ spec.note_text note }
{
    match note {
        Note::Well => b"ok",
        Note::HearsNotAll => b"hears not all",
        Note::BookDiffers => b"book differs",
        Note::FingerprintDiffers => b"fingerprint differs",
        Note::Silent => b"silent",
    }
}

/// Writes how many members are heard of how many.
#[tactic(auto, unfolding(crate::specs::Table::heard_text))]
fn write_heard<W: Write>(writer: &mut W, heard: usize, members: usize) -> io::Result<()>
    ensures { OnOk result (Appends (W.contents writer.old) (W.contents writer.new)
        (spec.heard_text heard members)) }
{
    write!(writer, " {heard}/{members} ")
}

/// Writes the number of a member, its boot, and how many members it hears.
#[tactic(auto, unfolding(crate::specs::Table::begin_text))]
fn write_begin<W: Write>(writer: &mut W, number: u64, members: usize, text: &[u8]) -> io::Result<()>
    ensures { OnOk result (Appends (W.contents writer.old) (W.contents writer.new)
        (spec.begin_text number members text.now)) }
{
    write!(writer, "{number} ")?;
    writer.write_all(field(text, b"boot"))?;
    write_heard(writer, heard_of(text), members)
}

/// Writes the tokens, the fingerprint and the book of a member.
#[tactic(auto, unfolding(crate::specs::Table::prints_text))]
fn write_prints<W: Write>(writer: &mut W, text: &[u8]) -> io::Result<()>
    ensures { OnOk result (Appends (W.contents writer.old) (W.contents writer.new) (spec.prints_text text.now)) }
{
    writer.write_all(field(text, b"tokens"))?;
    writer.write_all(b" ")?;
    writer.write_all(field(text, b"fingerprint"))?;
    writer.write_all(b" ")?;
    writer.write_all(field(text, b"book"))?;
    writer.write_all(b" ")
}

/// Writes the row of a member that tells its state.
#[tactic(auto, unfolding(crate::specs::Table::told_text))]
fn write_told<W: Write>(
    writer: &mut W,
    number: u64,
    members: usize,
    text: &[u8],
    note: Note,
) -> io::Result<()>
    ensures { OnOk result (Appends (W.contents writer.old) (W.contents writer.new)
        (spec.told_text number members text.now note)) }
{
    write_begin(writer, number, members, text)?;
    write_prints(writer, text)?;
    writer.write_all(note_text(note))?;
    writer.write_all(b"\n")
}

/// Writes the row of a member that doesn't tell its state.
#[tactic(auto, unfolding(crate::specs::Table::silent_text))]
fn write_silent<W: Write>(writer: &mut W, number: u64) -> io::Result<()>
    ensures { OnOk result (Appends (W.contents writer.old) (W.contents writer.new) (spec.silent_text number)) }
{
    write!(writer, "{number} - - - - - silent\n")
}

/// Writes the row of a member.
fn write_row<W: Write>(
    writer: &mut W,
    first: &[u8],
    members: usize,
    number: u64,
    text: &[u8],
) -> io::Result<()>
    ensures { OnOk result (Appends (W.contents writer.old) (W.contents writer.new)
        (spec.row_text first.now members number text.now)) }
{
    match note_of(text, first, members) {
        Note::Silent => write_silent(writer, number),
        note => write_told(writer, number, members, text, note),
    }
}

/// Writes the rows of all members.
fn write_rows<W: Write>(writer: &mut W, first: &[u8], texts: &[Vec<u8>]) -> io::Result<()>
    ensures { OnOk result (Appends (W.contents writer.old) (W.contents writer.new)
        (spec.rows_text first.now (length texts.now) 1 (map (λ text. text.items) texts.now))) }
{
    let mut number: u64 = 1;
    for text in texts {
        write_row(writer, first, texts.len(), number, text.as_slice())?;
        number += 1;
    }
    Ok(())
}

/// Writes a table with a row for each member, from the states of all members. The state of a member that doesn't tell
/// it is empty.
///
/// # Errors
/// Returns the error of the writer if it fails.
pub fn write_table<W: Write>(writer: &mut W, texts: &[Vec<u8>]) -> io::Result<()>
    ensures { OnOk result (Appends (W.contents writer.old) (W.contents writer.new)
        (spec.table_text (map (λ text. text.items) texts.now))) }
{
    writer.write_all(HEAD)?;
    write_rows(writer, first_of(texts), texts)
}
