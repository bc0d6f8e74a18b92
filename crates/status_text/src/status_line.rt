//! The lines of a STATUS report.

ghost use Rattle.std.specs.Prelude.{◌≡◌, ◌++◌, ◌+◌, ◌≤◌, codes, length};
ghost use Rattle.std.specs.Fmt.{decimal};
ghost use Rattle.arrayvec.specs.ArrayVec.{array_vec_len};
ghost use Rattle.status_text.specs.StatusLine as spec;
ghost use Rattle.status_text.specs.declared.status_line.StatusLine.TheVariants as Lines;

use arrayvec::ArrayVec;
use gatekeeping::{Bucket, Seen};
use itoa::Buffer;
use operator_text::MAX_LINE_LEN;
use sealed_port::Cause;

/// A number of a node.
#[derive(Clone, Copy, Debug, PartialEq, Eq)]
pub enum Quantity {
    /// The boot of the node's store.
    Boot,
    /// The clock, in seconds since 1970-01-01 00:00:00 UTC.
    Clock,
    /// The time at which the process began, on the same clock.
    Started,
    /// The tokens.
    Tokens,
    /// The lines that wait for votes.
    Pending,
    /// The tokens that are closed by their failures.
    Closed,
    /// The datagrams that the node received.
    Received,
    /// The replies that the node sent.
    Replied,
    /// The lines that the node accepted.
    Accepted,
    /// The ticks of the node.
    Ticks,
    /// The datagrams of the largest batch.
    LargestBatch,
    /// The commits of batches.
    Commits,
}

/// The reason of a refusal, in the order in which a node looks for one.
#[derive(Clone, Copy, Debug, PartialEq, Eq)]
pub enum Refusal {
    BadLine,
    Clock,
    Busy,
    Unknown,
    Throttled,
    Password,
    Exhausted,
    Invalid,
    Spent,
    Timeout,
}

/// A line of a STATUS report.
#[derive(Clone, Copy, Debug, PartialEq, Eq)]
pub enum StatusLine {
    /// The number of the node, and the number of members.
    Node(u8, u8),
    /// The version of the program.
    Version(u16, u16, u16),
    /// The fingerprint of the cluster's key: 16 hexadecimal digits.
    Fingerprint([u8; 16]),
    /// The print of the rows of the users file: 16 hexadecimal digits.
    Book([u8; 16]),
    /// The number of the store's rows, and the maximum number.
    Rows(u32, u32),
    Number(Quantity, u64),
    /// The number of refusals for a reason.
    Refused(Refusal, u64),
    /// The number of commits in a bucket.
    Commits(Bucket, u64),
    /// The number of datagrams that the node's gate didn't open for a cause.
    Unopened(Cause, u64),
    /// What the node sees of the member with the given number.
    Member(u8, Seen),
}

impl Default for StatusLine {
    /// Returns the line of a node without a number.
    fn default() -> Self {
        StatusLine::Node(0, 0)
    }
}

/// Returns the word of a quantity.
fn quantity_word(quantity: Quantity) -> &'static [u8]
    ensures word { result.now ≡ spec.quantity_word quantity }
    ensures len { length result.now ≤ 20 }
{
    match quantity {
        Quantity::Boot => b"boot",
        Quantity::Clock => b"clock",
        Quantity::Started => b"started",
        Quantity::Tokens => b"tokens",
        Quantity::Pending => b"pending",
        Quantity::Closed => b"closed",
        Quantity::Received => b"received",
        Quantity::Replied => b"replied",
        Quantity::Accepted => b"accepted",
        Quantity::Ticks => b"ticks",
        Quantity::LargestBatch => b"largest-batch",
        Quantity::Commits => b"commits",
    }
}

/// Returns the words of a refusal.
fn refusal_words(refusal: Refusal) -> &'static [u8]
    ensures words { result.now ≡ spec.refusal_words refusal }
    ensures len { length result.now ≤ 20 }
{
    match refusal {
        Refusal::BadLine => b"refused BADLINE",
        Refusal::Clock => b"refused CLOCK",
        Refusal::Busy => b"refused BUSY",
        Refusal::Unknown => b"refused UNKNOWN",
        Refusal::Throttled => b"refused THROTTLED",
        Refusal::Password => b"refused PASSWORD",
        Refusal::Exhausted => b"refused EXHAUSTED",
        Refusal::Invalid => b"refused INVALID",
        Refusal::Spent => b"refused SPENT",
        Refusal::Timeout => b"refused TIMEOUT",
    }
}

/// Returns the words of a bucket.
fn bucket_words(bucket: Bucket) -> &'static [u8]
    ensures words { result.now ≡ spec.bucket_words bucket }
    ensures len { length result.now ≤ 20 }
{
    match bucket {
        Bucket::One => b"commit-millis 1",
        Bucket::Two => b"commit-millis 2",
        Bucket::Five => b"commit-millis 5",
        Bucket::Ten => b"commit-millis 10",
        Bucket::Twenty => b"commit-millis 20",
        Bucket::Fifty => b"commit-millis 50",
        Bucket::Hundred => b"commit-millis 100",
        Bucket::More => b"commit-millis more",
    }
}

/// Returns the words of a cause.
fn cause_words(cause: Cause) -> &'static [u8]
    ensures words { result.now ≡ spec.cause_words cause }
    ensures len { length result.now ≤ 20 }
{
    match cause {
        Cause::Form => b"unopened form",
        Cause::Tag => b"unopened tag",
        Cause::Early => b"unopened early",
        Cause::Late => b"unopened late",
        Cause::Again => b"unopened again",
        Cause::Limited => b"unopened limited",
    }
}

/// Appends bytes.
fn push(line: &mut ArrayVec<u8, MAX_LINE_LEN>, bytes: &[u8])
    requires { array_vec_len line.old + length bytes.now ≤ 512 }
    ensures bytes { line.new.items ≡ line.old.items ++ bytes.now }
    ensures len { array_vec_len line.new ≡ array_vec_len line.old + length bytes.now }
{
    let _ = line.try_extend_from_slice(bytes);
}

/// Appends bytes and a number.
fn push_number(line: &mut ArrayVec<u8, MAX_LINE_LEN>, bytes: &[u8], number: u64)
    requires { array_vec_len line.old + length bytes.now ≤ 400 }
    ensures bytes { line.new.items ≡ line.old.items ++ bytes.now ++ decimal number }
    ensures len { array_vec_len line.new ≤ array_vec_len line.old + length bytes.now + 40 }
{
    push(line, bytes);
    push(line, Buffer::new().format(number).as_bytes());
}

/// Returns a line of words and a number.
fn number_line(words: &[u8], number: u64) -> ArrayVec<u8, MAX_LINE_LEN>
    requires { length words.now ≤ 20 }
    ensures { result.items ≡ spec.number_line words.now number }
{
    let mut line = ArrayVec::new();
    push(&mut line, words);
    push_number(&mut line, b" ", number);
    push(&mut line, b"\n");
    line
}

/// Returns a line of a word and 16 hexadecimal digits.
fn digits_line(word: &[u8], digits: &[u8; 16]) -> ArrayVec<u8, MAX_LINE_LEN>
    requires { length word.now ≤ 20 }
    ensures { result.items ≡ spec.digits_line word.now digits.now }
{
    let mut line = ArrayVec::new();
    push(&mut line, word);
    push(&mut line, b" ");
    push(&mut line, digits);
    push(&mut line, b"\n");
    line
}

/// Returns the line of a node.
fn node_line(node: u8, members: u8) -> ArrayVec<u8, MAX_LINE_LEN>
    ensures { result.items ≡ spec.line_text (Lines.Node node members) }
{
    let mut line = ArrayVec::new();
    push_number(&mut line, b"node ", u64::from(node));
    push_number(&mut line, b" of ", u64::from(members));
    push(&mut line, b"\n");
    line
}

/// Returns the line of a store's rows.
fn rows_line(rows: u32, limit: u32) -> ArrayVec<u8, MAX_LINE_LEN>
    ensures { result.items ≡ spec.line_text (Lines.Rows rows limit) }
{
    let mut line = ArrayVec::new();
    push_number(&mut line, b"rows ", u64::from(rows));
    push_number(&mut line, b" of ", u64::from(limit));
    push(&mut line, b"\n");
    line
}

/// Returns the line of a version.
fn version_line(major: u16, minor: u16, patch: u16) -> ArrayVec<u8, MAX_LINE_LEN>
    ensures { result.items ≡ spec.line_text (Lines.Version major minor patch) }
{
    let mut line = ArrayVec::new();
    push_number(&mut line, b"version ", u64::from(major));
    push_number(&mut line, b".", u64::from(minor));
    push_number(&mut line, b".", u64::from(patch));
    push(&mut line, b"\n");
    line
}

/// Appends what a node sees of a member.
fn push_seen(line: &mut ArrayVec<u8, MAX_LINE_LEN>, seen: Seen)
    requires { array_vec_len line.old ≤ 100 }
    ensures bytes { line.new.items ≡ line.old.items ++ spec.seen_text seen }
    ensures len { array_vec_len line.new ≤ array_vec_len line.old + 50 }
{
    match seen {
        Seen::Heard(seconds) => push_number(line, b" heard ", seconds),
        Seen::Silent => push(line, b" silent"),
        Seen::Differs => push(line, b" differs"),
    }
}

/// Returns the line of a member.
fn member_line(number: u8, seen: Seen) -> ArrayVec<u8, MAX_LINE_LEN>
    ensures { result.items ≡ spec.line_text (Lines.Member number seen) }
{
    let mut line = ArrayVec::new();
    push_number(&mut line, b"member ", u64::from(number));
    push_seen(&mut line, seen);
    push(&mut line, b"\n");
    line
}

impl StatusLine {
    /// Returns the text of the line, with its LF.
    pub fn text(&self) -> ArrayVec<u8, MAX_LINE_LEN>
        ensures { result.items ≡ spec.line_text self.now }
    {
        match self {
            StatusLine::Node(node, members) => node_line(*node, *members),
            StatusLine::Version(major, minor, patch) => version_line(*major, *minor, *patch),
            StatusLine::Fingerprint(digits) => digits_line(b"fingerprint", digits),
            StatusLine::Book(digits) => digits_line(b"book", digits),
            StatusLine::Rows(rows, limit) => rows_line(*rows, *limit),
            StatusLine::Number(quantity, number) => number_line(quantity_word(*quantity), *number),
            StatusLine::Refused(refusal, number) => number_line(refusal_words(*refusal), *number),
            StatusLine::Commits(bucket, number) => number_line(bucket_words(*bucket), *number),
            StatusLine::Unopened(cause, number) => number_line(cause_words(*cause), *number),
            StatusLine::Member(number, seen) => member_line(*number, *seen),
        }
    }
}
