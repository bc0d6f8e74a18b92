//! The values of a STATUS report.

ghost use Rattle.std.specs.Prelude.{◌≡◌, ◌++◌, ◌∷◌, ◌+◌, ◌<◌, ◌≤◌, [], All, length, map, slice_get};
ghost use Rattle.std.specs.Option.{option_map};
ghost use Rattle.arrayvec.specs.ArrayVec.{array_vec_len};
ghost use Rattle.status_text.specs.Status as spec;
ghost use Rattle.status_text.specs.Status.{HasPrints};
ghost use Rattle.status_text.specs.StatusLine.{IsStatusLine, line_text};
ghost use Rattle.status_text.specs.declared.status_line.StatusLine.TheVariants as Variants;

use crate::status_line::{Quantity, Refusal, StatusLine};
use arrayvec::ArrayVec;
use gatekeeping::{Bucket, CommitTimes, MAX_OTHERS, Other, Refused, Seen};
use operator_text::MAX_LINE_LEN;
use sealed_port::{Cause, Unopened};

/// The maximum number of lines of a STATUS report.
pub const MAX_STATUS_LINES: usize = 49;

/// The version of a program.
#[derive(Clone, Copy, Debug, PartialEq, Eq)]
pub struct Version {
    pub major: u16,
    pub minor: u16,
    pub patch: u16,
}

/// The rows of a store, also of retired tokens.
#[derive(Clone, Copy, Debug, PartialEq, Eq)]
pub struct Rows {
    pub number: u32,
    /// The maximum number.
    pub limit: u32,
}

/// The values of a node that a STATUS report tells.
#[derive(Debug, Drop)]
pub struct Status {
    /// The number of the node, and the number of members.
    pub node: u8,
    pub members: u8,
    /// The number of the node's boot.
    pub boot: u64,
    /// The version of the node's program.
    pub version: Version,
    /// The clock, and the time at which the process began, in seconds since 1970-01-01 00:00:00 UTC.
    pub clock: u64,
    pub started: u64,
    /// The fingerprint of the key under which the node tags its datagrams: 16 hexadecimal digits.
    pub fingerprint: [u8; 16],
    /// The print of the users file's rows, if the store knows tokens by their names: 16 hexadecimal digits.
    pub book: Option<[u8; 16]>,
    /// The rows of the store, if it knows tokens by their names.
    pub rows: Option<Rows>,
    /// The number of the tokens, of the lines that wait for votes, and of the tokens that are closed.
    pub tokens: u32,
    pub pending: u32,
    pub closed: u32,
    /// The number of datagrams that the node received, of the replies that it sent, and of the lines that it accepted.
    pub received: u64,
    pub replied: u64,
    pub accepted: u64,
    pub refused: Refused,
    /// The number of the node's ticks, and of the datagrams of its largest batch.
    pub ticks: u64,
    pub largest_batch: u64,
    /// The commits of batches, by the time that they took.
    pub commit_times: CommitTimes,
    pub unopened: Unopened,
    /// The other members, in ascending order.
    pub others: ArrayVec<Other, MAX_OTHERS>,
}

/// The lines of a report.
type Lines = ArrayVec<StatusLine, MAX_STATUS_LINES>;

/// Appends a line of a quantity.
fn push_quantity(lines: &mut Lines, quantity: Quantity, number: u64)
    requires { array_vec_len lines.old < 49 }
    ensures items { lines.new.items ≡ lines.old.items ++ Variants.Number quantity number ∷ [] }
    ensures len { array_vec_len lines.new ≡ array_vec_len lines.old + 1 }
    ensures each { All IsStatusLine lines.old.items → All IsStatusLine lines.new.items }
{
    lines.push(StatusLine::Number(quantity, number));
}

/// Appends a line of a refusal, if its number isn't 0.
fn push_refusal(lines: &mut Lines, refusal: Refusal, number: u64)
    requires { array_vec_len lines.old < 49 }
    ensures items { lines.new.items ≡ lines.old.items ++ spec.if_any (Variants.Refused refusal) number }
    ensures len { array_vec_len lines.new ≤ array_vec_len lines.old + 1 }
    ensures each { All IsStatusLine lines.old.items → All IsStatusLine lines.new.items }
{
    if number != 0 {
        lines.push(StatusLine::Refused(refusal, number));
    }
}

/// Appends a line of a bucket, if its number isn't 0.
fn push_commit(lines: &mut Lines, bucket: Bucket, number: u64)
    requires { array_vec_len lines.old < 49 }
    ensures items { lines.new.items ≡ lines.old.items ++ spec.if_any (Variants.Commits bucket) number }
    ensures len { array_vec_len lines.new ≤ array_vec_len lines.old + 1 }
    ensures each { All IsStatusLine lines.old.items → All IsStatusLine lines.new.items }
{
    if number != 0 {
        lines.push(StatusLine::Commits(bucket, number));
    }
}

/// Appends a line of a cause, if its number isn't 0.
fn push_cause(lines: &mut Lines, cause: Cause, number: u64)
    requires { array_vec_len lines.old < 49 }
    ensures items { lines.new.items ≡ lines.old.items ++ spec.if_any (Variants.Unopened cause) number }
    ensures len { array_vec_len lines.new ≤ array_vec_len lines.old + 1 }
    ensures each { All IsStatusLine lines.old.items → All IsStatusLine lines.new.items }
{
    if number != 0 {
        lines.push(StatusLine::Unopened(cause, number));
    }
}

/// Appends the line of a node.
fn push_node(lines: &mut Lines, node: u8, members: u8)
    requires { array_vec_len lines.old < 49 }
    ensures items { lines.new.items ≡ lines.old.items ++ Variants.Node node members ∷ [] }
    ensures len { array_vec_len lines.new ≡ array_vec_len lines.old + 1 }
    ensures each { All IsStatusLine lines.old.items → All IsStatusLine lines.new.items }
{
    lines.push(StatusLine::Node(node, members));
}

/// Appends the line of a version.
fn push_version(lines: &mut Lines, major: u16, minor: u16, patch: u16)
    requires { array_vec_len lines.old < 49 }
    ensures items { lines.new.items ≡ lines.old.items ++ Variants.Version major minor patch ∷ [] }
    ensures len { array_vec_len lines.new ≡ array_vec_len lines.old + 1 }
    ensures each { All IsStatusLine lines.old.items → All IsStatusLine lines.new.items }
{
    lines.push(StatusLine::Version(major, minor, patch));
}

/// Appends the line of a store's rows, if there are any to tell.
fn push_rows(lines: &mut Lines, rows: Option<Rows>)
    requires { array_vec_len lines.old < 49 }
    ensures items { lines.new.items ≡ lines.old.items ++ spec.rows_lines rows }
    ensures len { array_vec_len lines.new ≤ array_vec_len lines.old + 1 }
    ensures each { All IsStatusLine lines.old.items → All IsStatusLine lines.new.items }
{
    if let Some(rows) = rows {
        lines.push(StatusLine::Rows(rows.number, rows.limit));
    }
}

/// Appends the line of another member.
fn push_member(lines: &mut Lines, number: u8, seen: Seen)
    requires { array_vec_len lines.old < 49 }
    ensures items { lines.new.items ≡ lines.old.items ++ Variants.Member number seen ∷ [] }
    ensures len { array_vec_len lines.new ≡ array_vec_len lines.old + 1 }
    ensures each { All IsStatusLine lines.old.items → All IsStatusLine lines.new.items }
{
    lines.push(StatusLine::Member(number, seen));
}

/// Appends the lines of refusals.
fn push_refused(lines: &mut Lines, refused: &Refused)
    requires { array_vec_len lines.old ≤ 39 }
    ensures items { lines.new.items ≡ lines.old.items ++ spec.refused_lines refused.now }
    ensures len { array_vec_len lines.new ≤ array_vec_len lines.old + 10 }
    ensures each { All IsStatusLine lines.old.items → All IsStatusLine lines.new.items }
{
    push_refusal(lines, Refusal::BadLine, refused.bad_line);
    push_refusal(lines, Refusal::Clock, refused.clock);
    push_refusal(lines, Refusal::Busy, refused.busy);
    push_refusal(lines, Refusal::Unknown, refused.unknown);
    push_refusal(lines, Refusal::Throttled, refused.throttled);
    push_refusal(lines, Refusal::Password, refused.password);
    push_refusal(lines, Refusal::Exhausted, refused.exhausted);
    push_refusal(lines, Refusal::Invalid, refused.invalid);
    push_refusal(lines, Refusal::Spent, refused.spent);
    push_refusal(lines, Refusal::Timeout, refused.timeout);
}

/// Appends the lines of commits.
fn push_commits(lines: &mut Lines, times: &CommitTimes)
    requires { array_vec_len lines.old ≤ 41 }
    ensures items { lines.new.items ≡ lines.old.items ++ spec.commit_lines times.now }
    ensures len { array_vec_len lines.new ≤ array_vec_len lines.old + 8 }
    ensures each { All IsStatusLine lines.old.items → All IsStatusLine lines.new.items }
{
    push_commit(lines, Bucket::One, times.one);
    push_commit(lines, Bucket::Two, times.two);
    push_commit(lines, Bucket::Five, times.five);
    push_commit(lines, Bucket::Ten, times.ten);
    push_commit(lines, Bucket::Twenty, times.twenty);
    push_commit(lines, Bucket::Fifty, times.fifty);
    push_commit(lines, Bucket::Hundred, times.hundred);
    push_commit(lines, Bucket::More, times.more);
}

/// Appends the lines of datagrams that were not opened.
fn push_unopened(lines: &mut Lines, unopened: &Unopened)
    requires { array_vec_len lines.old ≤ 43 }
    ensures items { lines.new.items ≡ lines.old.items ++ spec.unopened_lines unopened.now }
    ensures len { array_vec_len lines.new ≤ array_vec_len lines.old + 6 }
    ensures each { All IsStatusLine lines.old.items → All IsStatusLine lines.new.items }
{
    push_cause(lines, Cause::Form, unopened.form);
    push_cause(lines, Cause::Tag, unopened.tag);
    push_cause(lines, Cause::Early, unopened.early);
    push_cause(lines, Cause::Late, unopened.late);
    push_cause(lines, Cause::Again, unopened.again);
    push_cause(lines, Cause::Limited, unopened.limited);
}

/// Appends the lines of other members.
fn push_others(lines: &mut Lines, others: &[Other])
    requires { array_vec_len lines.old + length others.now ≤ 49 }
    ensures items { lines.new.items ≡ lines.old.items ++ map spec.other_line others.now }
    ensures each { All IsStatusLine lines.old.items → All IsStatusLine lines.new.items }
{
    for other in others {
        push_member(lines, other.number, other.seen);
    }
}

/// Returns the text of the line with the given number, or None.
fn text_at(lines: &[StatusLine], number: u32) -> Option<ArrayVec<u8, MAX_LINE_LEN>>
    ensures { option_map (λ text. text.items) result ≡ slice_get (map line_text lines.now) number }
{
    match lines.get(number as usize) {
        Some(line) => Some(line.text()),
        None => None,
    }
}

impl Status {
    /// Appends the lines of the node, its process and its keys.
    fn push_identity(&self, lines: &mut Lines)
        requires { array_vec_len lines.old ≤ 43 }
        ensures items { lines.new.items ≡ lines.old.items ++ spec.identity_lines self.now }
        ensures len { array_vec_len lines.new ≡ array_vec_len lines.old + 6 }
        ensures each { HasPrints self.now → All IsStatusLine lines.old.items → All IsStatusLine lines.new.items }
    {
        push_node(lines, self.node, self.members);
        push_quantity(lines, Quantity::Boot, self.boot);
        push_version(
            lines,
            self.version.major,
            self.version.minor,
            self.version.patch,
        );
        push_quantity(lines, Quantity::Clock, self.clock);
        push_quantity(lines, Quantity::Started, self.started);
        lines.push(StatusLine::Fingerprint(self.fingerprint));
    }

    /// Appends the line of the book, if the store knows tokens by their names.
    fn push_book(&self, lines: &mut Lines)
        requires { array_vec_len lines.old < 49 }
        ensures items { lines.new.items ≡ lines.old.items ++ spec.book_lines self.now.book }
        ensures len { array_vec_len lines.new ≤ array_vec_len lines.old + 1 }
        ensures each { HasPrints self.now → All IsStatusLine lines.old.items → All IsStatusLine lines.new.items }
    {
        if let Some(digits) = self.book {
            lines.push(StatusLine::Book(digits));
        }
    }

    /// Appends the lines of the node's tokens and answers.
    fn push_tokens(&self, lines: &mut Lines)
        requires { array_vec_len lines.old ≤ 43 }
        ensures items { lines.new.items ≡ lines.old.items ++ spec.token_lines self.now }
        ensures len { array_vec_len lines.new ≡ array_vec_len lines.old + 6 }
        ensures each { All IsStatusLine lines.old.items → All IsStatusLine lines.new.items }
    {
        push_quantity(lines, Quantity::Tokens, u64::from(self.tokens));
        push_quantity(lines, Quantity::Pending, u64::from(self.pending));
        push_quantity(lines, Quantity::Closed, u64::from(self.closed));
        push_quantity(lines, Quantity::Received, self.received);
        push_quantity(lines, Quantity::Replied, self.replied);
        push_quantity(lines, Quantity::Accepted, self.accepted);
    }

    /// Appends the lines of the node's ticks, batches and commits.
    fn push_batches(&self, lines: &mut Lines)
        requires { array_vec_len lines.old ≤ 38 }
        ensures items { lines.new.items ≡ lines.old.items ++ spec.batch_lines self.now }
        ensures len { array_vec_len lines.new ≤ array_vec_len lines.old + 11 }
        ensures each { All IsStatusLine lines.old.items → All IsStatusLine lines.new.items }
    {
        push_quantity(lines, Quantity::Ticks, self.ticks);
        push_quantity(lines, Quantity::LargestBatch, self.largest_batch);
        push_quantity(lines, Quantity::Commits, self.commit_times.commits());
        push_commits(lines, &self.commit_times);
    }

    /// Returns the lines of the report.
    pub fn lines(&self) -> ArrayVec<StatusLine, MAX_STATUS_LINES>
        ensures items { result.items ≡ spec.status_lines self.now }
        // the laws of pages hold for the report
        ensures each { HasPrints self.now → All IsStatusLine result.items }
    {
        let mut lines = ArrayVec::new();
        self.push_identity(&mut lines);
        self.push_book(&mut lines);
        push_rows(&mut lines, self.rows);
        self.push_tokens(&mut lines);
        push_refused(&mut lines, &self.refused);
        self.push_batches(&mut lines);
        push_unopened(&mut lines, &self.unopened);
        push_others(&mut lines, &self.others);
        lines
    }

    /// Returns the text of the line with the given number, with its LF, or None if the report has no such line.
    pub fn write_line(&self, number: u32) -> Option<ArrayVec<u8, MAX_LINE_LEN>>
        ensures { option_map (λ text. text.items) result ≡ slice_get (spec.status_text self.now) number }
    {
        text_at(&self.lines(), number)
    }
}
