//! The numbers of datagrams, answers and quiet turns.

ghost use Rattle.std.specs.Prelude.{◌≡◌, ℕ, List};
ghost use Rattle.datagram_port.specs.Port.{Quiet, Received};
ghost use Rattle.datagram_port.specs.declared.port.Sender.{Sender as AnySender};
ghost use Rattle.sealed_port.specs.Causes.{one_more};
ghost use Rattle.count_port.specs.Counts as spec;
ghost use Rattle.count_port.specs.Counts.{counts_after, ticks_of, with_answer, with_reason};

use field_text::cut_at;
use gatekeeping::Refused;

/// The number of datagrams after which a tick follows.
const DATAGRAMS_OF_A_TICK: u64 = 64;

/// The numbers of datagrams, answers and quiet turns. None goes beyond `u64::MAX`.
#[derive(Clone, Copy, Debug, Default, PartialEq, Eq)]
pub struct Counts {
    /// The number of datagrams that the node received, of the replies that it sent, and of the lines that it accepted.
    pub received: u64,
    pub replied: u64,
    pub accepted: u64,
    pub refused: Refused,
    /// The number of quiet turns.
    pub quiets: u64,
}

/// Returns the text behind the first space, or nothing.
fn rest_of(text: &[u8]) -> &[u8]
    ensures { result.now ≡ spec.rest_of text.now }
{
    match cut_at(text, b' ') {
        Some((_, rest)) => rest,
        None => b"",
    }
}

/// Returns the text before the first space, or the whole text.
fn field_of(text: &[u8]) -> &[u8]
    ensures { result.now ≡ spec.field_of text.now }
{
    match cut_at(text, b' ') {
        Some((field, _)) => field,
        None => text,
    }
}

/// Returns the third of an answer's fields: the reason of a refusal.
fn reason_of(answer: &[u8]) -> &[u8]
    ensures { result.now ≡ spec.reason_of answer.now }
{
    field_of(rest_of(rest_of(answer)))
}

/// Returns a number with one more, at most `u64::MAX`.
pub(crate) fn one_more(number: u64) -> u64
    ensures { result ≡ one_more number }
{
    number.saturating_add(1)
}

/// Returns the numbers of refusals with one more of a reason.
fn with_reason(refused: Refused, reason: &[u8]) -> Refused
    ensures { result ≡ with_reason reason.now refused }
{
    let mut refused = refused;
    if reason == b"BADLINE".as_slice() {
        refused.bad_line = one_more(refused.bad_line);
    } else if reason == b"CLOCK".as_slice() {
        refused.clock = one_more(refused.clock);
    } else if reason == b"BUSY".as_slice() {
        refused.busy = one_more(refused.busy);
    } else if reason == b"UNKNOWN".as_slice() {
        refused.unknown = one_more(refused.unknown);
    } else if reason == b"THROTTLED".as_slice() {
        refused.throttled = one_more(refused.throttled);
    } else if reason == b"PASSWORD".as_slice() {
        refused.password = one_more(refused.password);
    } else if reason == b"EXHAUSTED".as_slice() {
        refused.exhausted = one_more(refused.exhausted);
    } else if reason == b"INVALID".as_slice() {
        refused.invalid = one_more(refused.invalid);
    } else if reason == b"SPENT".as_slice() {
        refused.spent = one_more(refused.spent);
    } else if reason == b"TIMEOUT".as_slice() {
        refused.timeout = one_more(refused.timeout);
    }
    refused
}

impl Counts {
    /// Counts a datagram that the node received.
    pub(crate) fn datagram(&mut self)
        ensures { (sender : AnySender) (bytes : List ℕ) → self.new ≡ counts_after (Received sender bytes) self.old }
    {
        self.received = one_more(self.received);
    }

    /// Counts a quiet turn.
    pub(crate) fn quiet(&mut self)
        ensures { self.new ≡ counts_after Quiet self.old }
    {
        self.quiets = one_more(self.quiets);
    }

    /// Counts an answer to a client.
    pub(crate) fn answer(&mut self, answer: &[u8])
        ensures { self.new ≡ with_answer answer.now self.old }
    {
        self.replied = one_more(self.replied);
        if field_of(answer) == b"OK".as_slice() {
            self.accepted = one_more(self.accepted);
        } else {
            self.refused = with_reason(self.refused, reason_of(answer));
        }
    }

    /// Returns the number of ticks: one follows each quiet turn, and each 64th datagram.
    pub fn ticks(&self) -> u64
        ensures { result ≡ ticks_of self.now }
    {
        self.quiets
            .saturating_add(self.received / DATAGRAMS_OF_A_TICK)
    }
}
