ghost use Rattle.std.specs.Prelude.{◌≡◌, ◌≤◌, ◌+◌, [], IfErr, IfOk, OnOk, Ok, Err, false, length, map, codes};
ghost use Rattle.std.specs.List.{list_any};
ghost use Rattle.std.specs.Str.{bytes_eq};
ghost use Rattle.token_file.specs.Fields.{lines_of};
ghost use Rattle.floors_file.specs.Fields.{fields_left, fields_of};
ghost use Rattle.floors_file.specs.Floors.{floor_value, floors_value};
ghost use Rattle.floors_file.specs.Reading.{end_of, first_line, floors_of, has_user, head_numbers, head_of, is_memory, new_row, next_row, ranged, row_of, row_value, rows_from};

use crate::fault::{FloorsFault, LineFault};
use crate::fields::{last_number, next_field, number_field};
use crate::floors::{Floor, Floors, Head};
use field_text::{cut_at, is_word};
use otp_core::{COUNTS_END, MAX_MEMBERS, MAX_TOKENS, MOMENTS_END, Next};
use std::alloc::Global;

/// The numbers of the first line.
#[derive(Clone, Copy)]
pub(crate) struct HeadLine {
    pub(crate) head: Head,
    pub(crate) tokens: u64,
}

/// Returns a first line of the given numbers, with at most `most` rows.
pub(crate) fn ranged(
    most: u64,
    node: u64,
    members: u64,
    boot: u64,
    moment: u64,
    tokens: u64,
) -> Result<HeadLine, LineFault>
    ensures { result ≡ ranged most (record {
      head = record { node = node; members = members; boot = boot; moment = moment };
      tokens = tokens;
    }) }
{
    let is_head = 1 <= node
        && node <= members
        && members <= MAX_MEMBERS as u64
        && boot < COUNTS_END
        && moment < MOMENTS_END
        && tokens <= most;
    if !is_head {
        return Err(LineFault::Range);
    }
    let head = Head {
        node: node as u8,
        members: members as u8,
        boot,
        moment,
    };
    Ok(HeadLine { head, tokens })
}

/// Returns the numbers of a first line.
fn head_numbers(rest: Option<&[u8]>) -> Result<HeadLine, LineFault>
    ensures { result ≡ head_numbers (fields_left rest.entry) }
{
    let (node, rest) = number_field(rest)?;
    let (members, rest) = number_field(rest)?;
    let (boot, rest) = number_field(rest)?;
    let (moment, rest) = number_field(rest)?;
    let tokens = last_number(rest)?;
    ranged(MAX_TOKENS as u64, node, members, boot, moment, tokens)
}

/// Returns whether two texts are equal.
pub(crate) fn is_same(text: &[u8], other: &[u8]) -> bool
    ensures { result ≡ bytes_eq text.now other.now }
{
    text == other
}

/// Returns the numbers of the first line.
fn read_head(line: &[u8]) -> Result<HeadLine, LineFault>
    ensures { result ≡ head_of (fields_of line.now) }
{
    let (word, rest) = next_field(Some(line))?;
    if !is_same(word, b"floors") {
        return Err(LineFault::NotFloors);
    }
    let (version, rest) = next_field(rest)?;
    if !is_same(version, b"1") {
        return Err(LineFault::Version);
    }
    head_numbers(rest)
}

/// Returns whether one of the rows is a user's, row by row.
fn has_row(user: &[u8], rows: &[Floor<'_>]) -> bool
    ensures { result ≡ list_any (λ row. bytes_eq row.user.now user.now) rows.now }
{
    rows.iter().any(|row| is_same(row.user, user))
}

/// Returns whether one of the rows is a user's.
pub(crate) fn has_user(user: &[u8], rows: &[Floor<'_>]) -> bool
    ensures { result ≡ has_user user.now (map floor_value rows.now) }
{
    has_row(user, rows)
}

/// Returns the row of a user, after other rows.
fn new_row<'a>(rows: &[Floor<'_>], user: &'a [u8], next: u64) -> Result<Floor<'a>, LineFault>
    ensures { row_value result ≡ new_row (map floor_value rows.now) user.now next }
{
    let Some(next) = Next::new(next) else {
        return Err(LineFault::Range);
    };
    if has_user(user, rows) {
        return Err(LineFault::Twice);
    }
    Ok(Floor { user, next })
}

/// Returns the row of a line, after other rows.
fn read_row<'a>(rows: &[Floor<'_>], line: &'a [u8]) -> Result<Floor<'a>, LineFault>
    ensures { row_value result ≡ row_of (map floor_value rows.now) (fields_of line.now) }
{
    let (user, rest) = next_field(Some(line))?;
    if !is_word(user) {
        return Err(LineFault::UserName);
    }
    let next = last_number(rest)?;
    new_row(rows, user, next)
}

/// Returns one more row, if there are fewer than `tokens`.
fn next_row<'a>(tokens: u64, rows: &[Floor<'_>], line: &'a [u8]) -> Result<Floor<'a>, LineFault>
    ensures { row_value result ≡ next_row tokens (map floor_value rows.now) line.now }
{
    if rows.len() as u64 >= tokens {
        return Err(LineFault::TooMany);
    }
    read_row(rows, line)
}

/// Checks the part after the last LF, after all rows.
fn check_end(tokens: u64, rows: &[Floor<'_>], line: &[u8]) -> Result<(), LineFault>
    ensures ok { OnOk result (end_of tokens (map floor_value rows.now) line.now ≡ Ok (map floor_value rows.now)) }
    ensures fault { IfErr result (λ fault. end_of tokens (map floor_value rows.now) line.now ≡ Err fault) }
{
    if !line.is_empty() {
        return Err(LineFault::NoEnd);
    }
    if (rows.len() as u64) < tokens {
        return Err(LineFault::TooFew);
    }
    Ok(())
}

/// Returns a fault at the line after the rows.
fn at_row(rows: &[Floor<'_>], kind: LineFault) -> FloorsFault
    ensures line { result.line ≡ length rows.now + 2 }
    ensures kind { result.kind ≡ kind }
{
    FloorsFault {
        line: rows.len() as u64 + 2,
        kind,
    }
}

/// Returns the `tokens` rows of a text.
fn read_rows(alloc: Global, tokens: u64, text: &[u8]) -> Result<Vec<Floor<'_>>, FloorsFault>
    ensures rows { IfOk result (λ rows. rows_from tokens [] (lines_of text.now) ≡ Ok (map floor_value rows.items)) }
    ensures fault { IfErr result (λ fault. is_memory fault.kind ≡ false →
        rows_from tokens [] (lines_of text.now) ≡ Err (fault.line, fault.kind)) }
{
    let mut rows = Vec::new(alloc);
    let mut rest = text;
    while let Some((line, behind)) = cut_at(rest, b'\n') {
        match next_row(tokens, &rows, line) {
            Ok(row) => match rows.push(row) {
                Ok(()) => {}
                Err(_) => return Err(at_row(&rows, LineFault::Memory)),
            },
            Err(kind) => return Err(at_row(&rows, kind)),
        }
        rest = behind;
    }
    match check_end(tokens, &rows, rest) {
        Ok(()) => Ok(rows),
        Err(kind) => Err(at_row(&rows, kind)),
    }
}

/// Returns a fault at the first line.
pub(crate) fn at_first(kind: LineFault) -> FloorsFault
    ensures { result ≡ record { line = 1; kind = kind } }
{
    FloorsFault { line: 1, kind }
}

/// Returns the fault of a first line that no LF ends.
fn unended(line: &[u8]) -> LineFault
    ensures { Err result ≡ first_line [] line.now }
{
    match read_head(line) {
        Ok(_) => LineFault::NoEnd,
        Err(kind) => kind,
    }
}

/// Reads the text of a floors file. The result borrows the text.
///
/// # Errors
///
/// - Returns the first fault of the first faulty line.
/// - Returns `NoEnd`, `TooFew` and `TooMany` with the line that shows them.
/// - Returns `Memory` if the allocator refuses the memory for a row. It can come at any row.
pub fn read_floors(alloc: Global, text: &[u8]) -> Result<Floors<'_>, FloorsFault>
    ensures floors { IfOk result (λ floors. floors_of text.now ≡ Ok (floors_value floors)) }
    ensures fault { IfErr result (λ fault. is_memory fault.kind ≡ false →
        floors_of text.now ≡ Err (fault.line, fault.kind)) }
{
    let Some((first, rest)) = cut_at(text, b'\n') else {
        return Err(at_first(unended(text)));
    };
    let line = match read_head(first) {
        Ok(line) => line,
        Err(kind) => return Err(at_first(kind)),
    };
    let rows = read_rows(alloc, line.tokens, rest)?;
    Ok(Floors {
        head: line.head,
        rows,
    })
}
