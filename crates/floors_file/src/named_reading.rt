ghost use Rattle.std.specs.Prelude.{◌≡◌, ◌≤◌, ◌+◌, [], IfErr, IfOk, Ok, Err, false, nat_lt};
ghost use Rattle.std.specs.List.{list_all};
ghost use Rattle.token_file.specs.Fields.{lines_of};
ghost use Rattle.floors_file.specs.Fields.{fields_left, fields_of};
ghost use Rattle.floors_file.specs.Named.{named_head_value, named_value};
ghost use Rattle.floors_file.specs.NamedReading.{bytes_field, bytes_of_field, bytes_value, first_named, heard_from, heard_of, is_heard_next, is_names_word, named_floors_of, named_head_of, named_line_value, named_numbers, named_of_lines, named_ranged, named_row_of, named_rows_from, new_heard, new_named_row, row_fault};
ghost use Rattle.floors_file.specs.Reading.{is_memory};

use crate::fault::{FloorsFault, LineFault};
use crate::fields::{last_field, last_number, next_field, number_field};
use crate::floors::Head;
use crate::named::{HeardBoot, MAX_NAMED_ROWS, NamedFloor, NamedFloors, NamedHead};
use crate::named_rows::NamedRows;
use crate::reading::{at_first, is_same, ranged};
use crate::sealed::body_of;
use field_text::{cut_at, is_word};
use hex::FromHex;
use otp_core::{COUNTS_END, Next};
use std::alloc::Global;
use token_names::{NAME_LEN, Name};

/// The minimum length of a names word, in bytes.
const MIN_NAMES_LEN: usize = 12;

/// The first line: the head, and the number of rows.
#[derive(Clone, Copy)]
pub(crate) struct NamedLine<'a> {
    head: NamedHead<'a>,
    rows: u64,
}

/// Returns whether a word can be a names word: 12 to 64 bytes without a blank.
fn is_names_word(word: &[u8]) -> bool
    ensures { result ≡ is_names_word word.now }
{
    MIN_NAMES_LEN <= word.len() && is_word(word)
}

/// Returns the head of a node at a time, in the cluster of a names word and a life.
fn with_cluster<'a>(head: Head, names: &'a [u8], life: &'a [u8]) -> NamedHead<'a>
    ensures { result ≡ record {
      node = head.node;
      members = head.members;
      boot = head.boot;
      moment = head.moment;
      names = names.entry;
      life = life.entry;
    } }
{
    NamedHead {
        node: head.node,
        members: head.members,
        boot: head.boot,
        moment: head.moment,
        names,
        life,
    }
}

/// Returns the first line of the given fields.
#[tactic(auto, using(crate::proofs::NamedReadingLemmas::tokens_few))]
fn named_ranged<'a>(
    node: u64,
    members: u64,
    boot: u64,
    moment: u64,
    rows: u64,
    names: &'a [u8],
    life: &'a [u8],
) -> Result<NamedLine<'a>, LineFault>
    ensures line { named_line_value result ≡ named_ranged (record {
      head = record {
        node = node;
        members = members;
        boot = boot;
        moment = moment;
        names = names.now;
        life = life.now;
      };
      rows = rows;
    }) }
    ensures few { IfOk result (λ line. line.rows ≤ 65536) }
{
    if !is_names_word(names) {
        return Err(LineFault::NamesWord);
    }
    let line = ranged(MAX_NAMED_ROWS, node, members, boot, moment, rows)?;
    if !is_word(life) {
        return Err(LineFault::Life);
    }
    Ok(NamedLine {
        head: with_cluster(line.head, names, life),
        rows: line.tokens,
    })
}

/// Returns the first line after its version.
fn named_numbers(rest: Option<&[u8]>) -> Result<NamedLine<'_>, LineFault>
    ensures line { named_line_value result ≡ named_numbers (fields_left rest.entry) }
    ensures few { IfOk result (λ line. line.rows ≤ 65536) }
{
    let (node, rest) = number_field(rest)?;
    let (members, rest) = number_field(rest)?;
    let (boot, rest) = number_field(rest)?;
    let (moment, rest) = number_field(rest)?;
    let (rows, rest) = number_field(rest)?;
    let (names, rest) = next_field(rest)?;
    let life = last_field(rest)?;
    named_ranged(node, members, boot, moment, rows, names, life)
}

/// Returns the first line.
fn read_named_head(line: &[u8]) -> Result<NamedLine<'_>, LineFault>
    ensures line { named_line_value result ≡ named_head_of (fields_of line.now) }
    ensures few { IfOk result (λ line. line.rows ≤ 65536) }
{
    let (word, rest) = next_field(Some(line))?;
    if !is_same(word, b"floors") {
        return Err(LineFault::NotFloors);
    }
    let (version, rest) = next_field(rest)?;
    if !is_same(version, b"2") {
        return Err(LineFault::Version);
    }
    named_numbers(rest)
}

/// Returns the 16 bytes of a field, or None if the field is not their lower case hexadecimal digits.
fn bytes_of_field(field: &[u8]) -> Option<[u8; NAME_LEN]>
    ensures { result ≡ bytes_of_field field.now }
{
    let Ok(bytes) = <[u8; NAME_LEN] as FromHex>::from_hex(field) else {
        return None;
    };
    if is_same(&Name::new(bytes).digits(), field) {
        Some(bytes)
    } else {
        None
    }
}

/// Returns the 16 bytes of the first field, and the rest after it.
fn bytes_field(rest: Option<&[u8]>) -> Result<([u8; NAME_LEN], Option<&[u8]>), LineFault>
    ensures { bytes_value result ≡ bytes_field (fields_left rest.entry) }
{
    let (field, rest) = next_field(rest)?;
    match bytes_of_field(field) {
        Some(bytes) => Ok((bytes, rest)),
        None => Err(LineFault::Name),
    }
}

/// Returns the row of a name, a seed and a floor, after other rows.
fn new_named_row(
    rows: &NamedRows,
    name: Name,
    seed: [u8; NAME_LEN],
    next: u64,
) -> Result<NamedFloor, LineFault>
    ensures { result ≡ new_named_row rows.now name seed next }
{
    let Some(next) = Next::new(next) else {
        return Err(LineFault::Range);
    };
    if rows.find(name).is_some() {
        return Err(LineFault::Twice);
    }
    Ok(NamedFloor { name, seed, next })
}

/// Returns the row of a line, after other rows.
fn read_named_row(rows: &NamedRows, line: &[u8]) -> Result<NamedFloor, LineFault>
    ensures { result ≡ named_row_of rows.now (fields_of line.now) }
{
    let (name, rest) = bytes_field(Some(line))?;
    let (seed, rest) = bytes_field(rest)?;
    let next = last_number(rest)?;
    new_named_row(rows, Name::new(name), seed, next)
}

/// Returns the fault of a part that has no LF, where a row should be.
fn row_fault(line: &[u8]) -> LineFault
    ensures { result ≡ row_fault line.now }
{
    if line.is_empty() {
        LineFault::TooFew
    } else {
        LineFault::NoEnd
    }
}

/// Returns the first `count` rows of a text, which follow the first line, and the rest of the text.
fn read_named_rows(
    alloc: Global,
    count: u64,
    text: &[u8],
) -> Result<(NamedRows, &[u8]), FloorsFault>
    requires { count ≤ 65536 }
    ensures rows { IfOk result (λ read. named_rows_from 2 count [] (lines_of text.now)
        ≡ Ok (read.0, lines_of read.1.now)) }
    ensures fault { IfErr result (λ fault. is_memory fault.kind ≡ false →
        named_rows_from 2 count [] (lines_of text.now) ≡ Err (fault.line, fault.kind)) }
{
    let mut rows = NamedRows::new(alloc);
    let mut rest = text;
    for number in 0..count {
        let line = number + 2;
        let Some((row, behind)) = cut_at(rest, b'\n') else {
            return Err(FloorsFault {
                line,
                kind: row_fault(rest),
            });
        };
        match read_named_row(&rows, row) {
            Ok(row) => match rows.push(row) {
                Ok(()) => {}
                Err(_) => return Err(FloorsFault {
                    line,
                    kind: LineFault::Memory,
                }),
            },
            Err(kind) => return Err(FloorsFault { line, kind }),
        }
        rest = behind;
    }
    Ok((rows, rest))
}

/// Returns whether the members of earlier lines are below a member.
fn are_below(heard: &[HeardBoot], member: u8) -> bool
    ensures { result ≡ list_all (λ before. nat_lt before.member member) heard.now }
{
    heard.iter().all(|before| before.member < member)
}

/// Returns whether the member of a boot is not the node, and is above the members of earlier lines.
fn is_heard_next(head: NamedHead<'_>, heard: &[HeardBoot], one: HeardBoot) -> bool
    ensures { result ≡ is_heard_next (named_head_value head.entry) heard.now one }
{
    one.member != head.node && are_below(heard, one.member)
}

/// Returns one more boot, after others.
fn new_heard(
    head: NamedHead<'_>,
    heard: &[HeardBoot],
    member: u64,
    boot: u64,
) -> Result<HeardBoot, LineFault>
    ensures { result ≡ new_heard (named_head_value head.entry) heard.now (record { member = member; boot = boot }) }
{
    if member == 0 || member > u64::from(head.members) || boot >= COUNTS_END {
        return Err(LineFault::Range);
    }
    let one = HeardBoot {
        member: member as u8,
        boot,
    };
    if is_heard_next(head, heard, one) {
        Ok(one)
    } else {
        Err(LineFault::Heard)
    }
}

/// Returns the boot of a line, after others.
fn read_heard_boot(
    head: NamedHead<'_>,
    heard: &[HeardBoot],
    line: &[u8],
) -> Result<HeardBoot, LineFault>
    ensures { result ≡ heard_of (named_head_value head.entry) heard.now (fields_of line.now) }
{
    let (word, rest) = next_field(Some(line))?;
    if !is_same(word, b"heard") {
        return Err(LineFault::TooMany);
    }
    let (member, rest) = number_field(rest)?;
    let boot = last_number(rest)?;
    new_heard(head, heard, member, boot)
}

/// Returns the boots of a text, whose first line has the number `first`.
fn read_heard(
    alloc: Global,
    head: NamedHead<'_>,
    first: u64,
    text: &[u8],
) -> Result<Vec<HeardBoot>, FloorsFault>
    requires { first ≤ 65538 }
    ensures heard { IfOk result (λ heard. heard_from first (named_head_value head.entry) [] (lines_of text.now)
        ≡ Ok heard.items) }
    ensures fault { IfErr result (λ fault. is_memory fault.kind ≡ false →
        heard_from first (named_head_value head.entry) [] (lines_of text.now) ≡ Err (fault.line, fault.kind)) }
{
    let mut heard = Vec::new(alloc);
    let mut rest = text;
    while let Some((row, behind)) = cut_at(rest, b'\n') {
        let line = first + heard.len() as u64;
        match read_heard_boot(head, &heard, row) {
            Ok(one) => match heard.push(one) {
                Ok(()) => {}
                Err(_) => return Err(FloorsFault {
                    line,
                    kind: LineFault::Memory,
                }),
            },
            Err(kind) => return Err(FloorsFault { line, kind }),
        }
        rest = behind;
    }
    if rest.is_empty() {
        Ok(heard)
    } else {
        Err(FloorsFault {
            line: first + heard.len() as u64,
            kind: LineFault::NoEnd,
        })
    }
}

/// Returns the fault of a first line that no LF ends.
fn unended(line: &[u8]) -> LineFault
    ensures { Err result ≡ first_named [] line.now }
{
    match read_named_head(line) {
        Ok(_) => LineFault::NoEnd,
        Err(kind) => kind,
    }
}

/// Reads the lines before the MAC.
fn read_lines(alloc: Global, text: &[u8]) -> Result<NamedFloors<'_>, FloorsFault>
    ensures floors { IfOk result (λ floors. named_of_lines (lines_of text.now) ≡ Ok (named_value floors)) }
    ensures fault { IfErr result (λ fault. is_memory fault.kind ≡ false →
        named_of_lines (lines_of text.now) ≡ Err (fault.line, fault.kind)) }
{
    let Some((first, rest)) = cut_at(text, b'\n') else {
        return Err(at_first(unended(text)));
    };
    let line = match read_named_head(first) {
        Ok(line) => line,
        Err(kind) => return Err(at_first(kind)),
    };
    let (rows, rest) = match read_named_rows(alloc, line.rows, rest) {
        Ok(read) => read,
        Err(fault) => return Err(fault),
    };
    let heard = read_heard(alloc, line.head, line.rows + 2, rest)?;
    Ok(NamedFloors {
        head: line.head,
        rows: rows.into_rows(),
        heard,
    })
}

/// Reads the text of a floors file by names, whose MAC is under the cluster's own `key`. The result borrows the text.
///
/// # Errors
///
/// - Returns `BadMac` with the number of the last line if that line is not the MAC of the bytes before it.
/// - Returns the first fault of the first faulty line.
/// - Returns `NoEnd`, `TooFew` and `TooMany` with the line that shows them.
/// - Returns `Memory` if the allocator refuses the memory for a line. It can come at any line.
pub fn read_named_floors<'a>(
    alloc: Global,
    key: &[u8],
    text: &'a [u8],
) -> Result<NamedFloors<'a>, FloorsFault>
    ensures floors { IfOk result (λ floors. named_floors_of key.now text.now ≡ Ok (named_value floors)) }
    ensures fault { IfErr result (λ fault. is_memory fault.kind ≡ false →
        named_floors_of key.now text.now ≡ Err (fault.line, fault.kind)) }
{
    let body = body_of(key, text)?;
    read_lines(alloc, body)
}
