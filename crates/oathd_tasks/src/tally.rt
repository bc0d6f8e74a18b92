//! Counts the rows of a users file that are ignored.

ghost use Rattle.std.specs.Prelude.{◌≡◌, ◌<◌, ◌≤◌, ◌==◌, IfOk, is_some};
ghost use Rattle.std.specs.Str.{bytes_eq};
ghost use Rattle.std.specs.Option.{option_map};
ghost use Rattle.token_file.specs.Fields.{fields_of};
ghost use Rattle.token_file.specs.TypeWord.{event_type_of, time_type_of};
ghost use Rattle.token_file.specs.declared.token.Kind.{Kind};
ghost use Rattle.oathd_tasks.specs.Tally.{after_fields, after_form, first_of, form_of, found_value, is_comment, is_type, no_rows, tally_of, tally_value};

use std::alloc::{AllocError, Global};
use token_file::first_field;

/// The form of a row of a users file.
#[derive(Clone, Copy, Debug, PartialEq, Eq)]
pub(crate) enum Form {
    /// The row has no field, or is a comment.
    Nothing,
    /// The row has a type, so it holds a token.
    Holds,
    /// The row has no type.
    Ignored,
    /// The row has no type, and its first field in upper case is one.
    InAnotherCase,
}

/// The first field of a row, with the number of its line.
#[derive(Clone, Copy, Debug, PartialEq, Eq)]
pub(crate) struct Found<'a> {
    /// The number of the line, from 1.
    pub line: u64,
    /// The first field.
    pub word: &'a [u8],
}

/// What the rows of a users file are.
#[derive(Clone, Copy, Debug, PartialEq, Eq)]
pub(crate) struct Tally<'a> {
    /// Whether some row holds a token.
    pub has_token: bool,
    /// The number of rows that are ignored, though they are no comments.
    pub ignored: u64,
    /// The first ignored row.
    pub first: Option<Found<'a>>,
    /// The first ignored row whose type is in another case.
    pub in_another_case: Option<Found<'a>>,
}

/// Returns whether two words have the same bytes.
fn is_same(word: &[u8], other: &[u8]) -> bool
    ensures { result ≡ bytes_eq word.now other.now }
{
    word == other
}

/// Returns whether a word is the type of an event token.
fn is_event_type(word: &[u8]) -> bool
    ensures { result ≡ is_some (event_type_of word.now) }
{
    is_same(word, b"HOTP")
        || is_same(word, b"HOTP/E")
        || is_same(word, b"HOTP/E/6")
        || is_same(word, b"HOTP/E/7")
        || is_same(word, b"HOTP/E/8")
}

/// Returns whether a word ends the type of a time token, after its step.
fn is_time_suffix(suffix: &[u8]) -> bool
    ensures { (kind : Kind) → result ≡ is_some (time_type_of kind suffix.now) }
{
    is_same(suffix, b"")
        || is_same(suffix, b"/6")
        || is_same(suffix, b"/7")
        || is_same(suffix, b"/8")
        || is_same(suffix, b"/6/SHA256")
        || is_same(suffix, b"/7/SHA256")
        || is_same(suffix, b"/8/SHA256")
        || is_same(suffix, b"/6/SHA512")
        || is_same(suffix, b"/7/SHA512")
        || is_same(suffix, b"/8/SHA512")
}

/// Returns whether a word is the type of a token.
fn is_type(word: &[u8]) -> bool
    ensures { result ≡ is_type word.now }
{
    if let Some(suffix) = word.strip_prefix(b"HOTP/T30".as_slice()) {
        is_time_suffix(suffix)
    } else if let Some(suffix) = word.strip_prefix(b"HOTP/T60".as_slice()) {
        is_time_suffix(suffix)
    } else {
        is_event_type(word)
    }
}

/// Returns whether a word begins a comment.
fn is_comment(word: &[u8]) -> bool
    ensures { result ≡ is_comment word.now }
{
    word.first() == Some(&b'#')
}

/// Returns the form of a row, by its first field.
fn form_of(alloc: Global, word: &[u8]) -> Result<Form, AllocError>
    ensures { IfOk result (λ form. form ≡ form_of word.now) }
{
    if is_type(word) {
        return Ok(Form::Holds);
    }
    if is_comment(word) {
        return Ok(Form::Nothing);
    }
    let upper = word.to_ascii_uppercase(alloc)?;
    if is_type(&upper) {
        return Ok(Form::InAnotherCase);
    }
    Ok(Form::Ignored)
}

/// Returns `earlier`, or `found` if it is None.
fn first_of<'a>(earlier: Option<Found<'a>>, found: Found<'a>) -> Option<Found<'a>>
    ensures { option_map found_value result
        ≡ first_of (option_map found_value earlier.entry) (found_value found.entry) }
{
    match earlier {
        Some(earlier) => Some(earlier),
        None => Some(found),
    }
}

/// Returns a tally after one more row, by its form.
fn after_form<'a>(tally: Tally<'a>, form: Form, found: Found<'a>) -> Tally<'a>
    requires { tally.ignored < found.line }
    ensures value { tally_value result ≡ after_form form (found_value found.entry) (tally_value tally.entry) }
    ensures bound { result.ignored ≤ found.entry.line }
{
    let first = first_of(tally.first, found);
    match form {
        Form::Nothing => tally,
        Form::Holds => Tally {
            has_token: true,
            ..tally
        },
        Form::Ignored => Tally {
            ignored: tally.ignored + 1,
            first,
            ..tally
        },
        Form::InAnotherCase => Tally {
            ignored: tally.ignored + 1,
            first,
            in_another_case: first_of(tally.in_another_case, found),
            ..tally
        },
    }
}

/// Returns a tally after the line `number`.
fn after_line<'a>(
    alloc: Global,
    tally: Tally<'a>,
    number: u64,
    line: &'a [u8],
) -> Result<Tally<'a>, AllocError>
    requires { tally.ignored < number }
    ensures value { IfOk result (λ new.
        tally_value new ≡ after_fields number (fields_of line.now) (tally_value tally.entry)) }
    ensures bound { IfOk result (λ new. new.ignored ≤ number) }
{
    let Some((word, _)) = first_field(line) else {
        return Ok(tally);
    };
    let form = form_of(alloc, word)?;
    Ok(after_form(tally, form, Found { line: number, word }))
}

/// Returns whether a byte ends a line.
fn is_line_end(byte: &u8) -> bool
    ensures { result ≡ (byte.now == 10) }
{
    *byte == b'\n'
}

/// Returns the tally of a users file.
///
/// # Errors
/// Returns `AllocError` if the allocator refuses the memory.
pub(crate) fn tally_of(alloc: Global, text: &[u8]) -> Result<Tally<'_>, AllocError>
    ensures { IfOk result (λ tally. tally_value tally ≡ tally_of text.now) }
{
    let mut tally = Tally {
        has_token: false,
        ignored: 0,
        first: None,
        in_another_case: None,
    };
    let mut number: u64 = 0;
    for line in text.split(is_line_end) {
        number += 1;
        tally = after_line(alloc, tally, number, line)?;
    }
    Ok(tally)
}
