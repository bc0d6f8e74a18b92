ghost use Rattle.std.specs.Prelude.{◌≡◌, ◌++◌, ◌+◌, ◌≤◌, length, IfSome};
ghost use Rattle.std.specs.Fmt.{decimal};
ghost use Rattle.std.specs.Option.{option_map};
ghost use Rattle.operator_text.specs.Request as spec;
ghost use Rattle.operator_text.specs.Request.{IsWish, request_text, wish_of};

use crate::number::line_number;
use arrayvec::ArrayVec;
use field_text::{cut_at, is_word};
use itoa::Buffer;

/// The maximum length of a request, in bytes: `UNLOCK` and the longest name.
pub const MAX_REQUEST_LEN: usize = 71;

/// A report of a node. Its text is a list of lines.
#[derive(Clone, Copy, Debug, PartialEq, Eq)]
pub enum Report {
    /// The node, its boot, its clock and its numbers.
    Status,
    /// The failures of tokens.
    Gates,
    /// The floors of tokens.
    Floors,
    /// The factors that the node granted.
    Passes,
    /// The rows of the node's store.
    Roster,
}

/// A request of an operator.
#[derive(Clone, Copy, Debug, PartialEq, Eq)]
pub enum Request<'a> {
    /// Asks for the lines of a report from the given number on.
    Page { report: Report, from: u32 },
    /// Asks the node to open the gate of the user's token.
    Unlock(&'a [u8]),
    /// Asks the node to end when no line waits.
    Drain,
}

impl<'a> Request<'a> {
    /// Returns whether the request changes something at the node. Any other request may be repeated at will.
    pub fn changes(&self) -> bool
        ensures { result ≡ spec.changes (wish_of self.now) }
    {
        match self {
            Request::Page { .. } => false,
            Request::Unlock(_) | Request::Drain => true,
        }
    }
}

/// Returns the report of a word, or None.
fn report_of(word: &[u8]) -> Option<Report>
    ensures { result ≡ spec.report_of word.now }
{
    if word == b"STATUS".as_slice() {
        Some(Report::Status)
    } else if word == b"GATES".as_slice() {
        Some(Report::Gates)
    } else if word == b"FLOORS".as_slice() {
        Some(Report::Floors)
    } else if word == b"PASSES".as_slice() {
        Some(Report::Passes)
    } else if word == b"ROSTER".as_slice() {
        Some(Report::Roster)
    } else {
        None
    }
}

/// Returns the request for a user's gate, or None if `user` is no name.
fn unlock(user: &[u8]) -> Option<Request<'_>>
    ensures { option_map wish_of result ≡ spec.unlock_of user.now }
{
    if is_word(user) {
        Some(Request::Unlock(user))
    } else {
        None
    }
}

/// Returns the request of a word and its field, or None.
fn read_with<'a>(word: &[u8], field: &'a [u8]) -> Option<Request<'a>>
    ensures { option_map wish_of result ≡ spec.wish_with word.now field.now }
{
    if word == b"UNLOCK".as_slice() {
        return unlock(field);
    }
    let report = report_of(word)?;
    let from = line_number(field)?;
    Some(Request::Page { report, from })
}

/// Returns the request of a text, or None if the text is no request.
///
/// A request is `STATUS`, `GATES`, `FLOORS`, `PASSES` or `ROSTER` with the number of a line, `UNLOCK` with a user, or
/// `DRAIN`. One space divides the word from its field. No other byte follows.
pub fn read_request(text: &[u8]) -> Option<Request<'_>>
    ensures { option_map wish_of result ≡ spec.request_at text.now }
{
    match cut_at(text, b' ') {
        Some((word, field)) => read_with(word, field),
        None if text == b"DRAIN".as_slice() => Some(Request::Drain),
        None => None,
    }
}

/// Returns the word of a report.
fn word_of(report: Report) -> &'static [u8]
    ensures word { result.now ≡ spec.report_word report }
    ensures len { length result.now ≤ 6 }
{
    match report {
        Report::Status => b"STATUS",
        Report::Gates => b"GATES",
        Report::Floors => b"FLOORS",
        Report::Passes => b"PASSES",
        Report::Roster => b"ROSTER",
    }
}

/// Returns the first text followed by the second.
fn joined(first: &[u8], second: &[u8]) -> ArrayVec<u8, MAX_REQUEST_LEN>
    requires { length first.now + length second.now ≤ 71 }
    ensures { result.items ≡ first.now ++ second.now }
{
    let mut out = ArrayVec::new();
    let _ = out.try_extend_from_slice(first);
    let _ = out.try_extend_from_slice(second);
    out
}

/// Returns the text of a request for the lines of a report.
fn write_page(report: Report, from: u32) -> ArrayVec<u8, MAX_REQUEST_LEN>
    ensures { result.items ≡ request_text (spec.Lines report from) }
{
    let mut out = joined(word_of(report), b" ");
    let _ = out.try_extend_from_slice(Buffer::new().format(from).as_bytes());
    out
}

/// Returns the text of a request, whose user is a name.
pub fn write_request(request: &Request<'_>) -> ArrayVec<u8, MAX_REQUEST_LEN>
    requires { IsWish (wish_of request.now) }
    ensures { result.items ≡ request_text (wish_of request.now) }
{
    match request {
        Request::Page { report, from } => write_page(*report, *from),
        Request::Unlock(user) => joined(b"UNLOCK ", user),
        Request::Drain => joined(b"DRAIN", b""),
    }
}
