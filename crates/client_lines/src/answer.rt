ghost use Rattle.std.specs.Prelude.{◌≡◌, ◌↔◌, ◌+◌, ◌≤◌, ◌++◌, length, IsTrue, IsSome, IfSome};
ghost use Rattle.std.specs.Fmt.{decimal};
ghost use Rattle.arrayvec.specs.ArrayVec.{array_vec_len};
ghost use Rattle.client_lines.specs.Answer.{answer_bytes, reply_bytes};
ghost use Rattle.client_lines.specs.Field.{IsNonce};
ghost use Rattle.client_lines.specs.declared.answer.Outcome.TheVariants.{Refused};

use arrayvec::ArrayVec;
use itoa::Buffer;
use otp_core::Factor;
use std::marker::Model;

/// The capacity for an answer, in bytes. It equals the capacity for a datagram to a peer, so that a node keeps both in
/// arrays of one type.
pub const MAX_ANSWER_LEN: usize = 64;

/// The maximum length of a nonce, in bytes.
const MAX_NONCE_LEN: usize = 20;

/// The nonce of a line, by which a client matches answers with lines: 1 to 20 ASCII letters or digits.
#[derive(Debug, Drop, PartialEq, Eq)]
pub struct Nonce {
    text: ArrayVec<u8, MAX_NONCE_LEN>,
}

impl Model for Nonce {
    ghost use Rattle.std.specs.Prelude.{ℕ, List};
    ghost use Rattle.client_lines.specs.Field.{IsNonce};

    ghost Value = { List ℕ };

    ghost view = { λ nonce. nonce.text.items };

    ghost invariant = { λ nonce. IsNonce nonce.text.items };

    ghost inverse = { λ text. record { text = record { items = text } } };
}

/// Returns whether `text` is 1 to 20 ASCII letters or digits.
pub(crate) fn is_nonce(text: &[u8]) -> bool
    ensures { IsTrue result ↔ IsNonce text.now }
{
    1 <= text.len()
        && text.len() <= MAX_NONCE_LEN
        && text.iter().all(|byte| byte.is_ascii_alphanumeric())
}

impl Nonce {
    /// Returns the nonce with the text `text`, or None if it is not 1 to 20 ASCII letters or digits.
    pub fn new(text: &[u8]) -> Option<Self>
        ensures valid { IsSome result ↔ IsNonce text.now }
        ensures value { IfSome result (λ nonce. nonce ≡ text.now) }
    {
        if !is_nonce(text) {
            return None;
        }
        let text = ArrayVec::try_from(text).ok()?;
        Some(Nonce { text })
    }

    /// Returns the bytes of the nonce.
    pub fn as_slice(&self) -> &[u8]
        ensures value { result.now ≡ self.now }
        ensures range { IsNonce result.now }
    {
        &self.text
    }
}

impl Default for Nonce {
    /// Returns the nonce `0`.
    fn default() -> Self {
        Nonce::new(b"0").unwrap()
    }
}

/// The reason why a line is refused.
#[derive(Clone, Copy, Debug, PartialEq, Eq)]
pub enum Reason {
    /// No such user.
    Unknown,
    /// The password does not fit the token's column.
    Password,
    /// The token is closed for the given number of seconds.
    Throttled(u64),
    /// The code fits no factor of the window.
    Invalid,
    /// Too few members remain that may grant the factors.
    Spent,
    /// Too few members granted the factors in time.
    Timeout,
    /// The maximum number of submissions wait.
    Busy,
    /// The moment is outside the range.
    Clock,
    /// The token has no factor left.
    Exhausted,
}

/// The outcome of a line.
#[derive(Clone, Copy, Debug, PartialEq, Eq)]
pub enum Outcome {
    /// The line is accepted. The factor is the last one that it used up.
    Accepted(Factor),
    Refused(Reason),
}

/// The answer to a line.
#[derive(Debug, Drop, PartialEq, Eq)]
pub enum Answer {
    /// The line is not in the grammar.
    BadLine,
    Reply(Nonce, Outcome),
}

/// Appends `bytes`.
fn push_all(out: &mut ArrayVec<u8, MAX_ANSWER_LEN>, bytes: &[u8])
    requires { array_vec_len out.old + length bytes.now ≤ 64 }
    ensures { out.new.items ≡ out.old.items ++ bytes.now }
{
    let _ = out.try_extend_from_slice(bytes);
}

/// Returns `nonce` between two texts.
fn around(front: &[u8], nonce: &Nonce, back: &[u8]) -> ArrayVec<u8, MAX_ANSWER_LEN>
    requires { length front.now + length back.now ≤ 44 }
    ensures text { result.items ≡ front.now ++ nonce.now ++ back.now }
    ensures len { length result.items ≤ length front.now + 20 + length back.now }
{
    let mut out = ArrayVec::new();
    push_all(&mut out, front);
    push_all(&mut out, nonce.as_slice());
    push_all(&mut out, back);
    out
}

/// Returns `nonce` between two texts, followed by `number`.
fn numbered(front: &[u8], nonce: &Nonce, back: &[u8], number: u64) -> ArrayVec<u8, MAX_ANSWER_LEN>
    requires { length front.now + length back.now ≤ 24 }
    ensures { result.items ≡ front.now ++ nonce.now ++ back.now ++ decimal number }
{
    let mut out = around(front, nonce, back);
    push_all(&mut out, Buffer::new().format(number).as_bytes());
    out
}

/// Returns the bytes of a refusal of a line with the nonce `nonce`.
fn write_refusal(nonce: &Nonce, reason: Reason) -> ArrayVec<u8, MAX_ANSWER_LEN>
    ensures { result.items ≡ reply_bytes nonce.now (Refused reason) }
{
    match reason {
        Reason::Unknown => around(b"NO ", nonce, b" UNKNOWN"),
        Reason::Password => around(b"NO ", nonce, b" PASSWORD"),
        Reason::Throttled(seconds) => numbered(b"NO ", nonce, b" THROTTLED ", seconds),
        Reason::Invalid => around(b"NO ", nonce, b" INVALID"),
        Reason::Spent => around(b"NO ", nonce, b" SPENT"),
        Reason::Timeout => around(b"NO ", nonce, b" TIMEOUT"),
        Reason::Busy => around(b"NO ", nonce, b" BUSY"),
        Reason::Clock => around(b"NO ", nonce, b" CLOCK"),
        Reason::Exhausted => around(b"NO ", nonce, b" EXHAUSTED"),
    }
}

/// Returns the bytes of the answer to a line with the nonce `nonce`.
pub fn write_reply(nonce: &Nonce, outcome: Outcome) -> ArrayVec<u8, MAX_ANSWER_LEN>
    ensures { result.items ≡ reply_bytes nonce.now outcome }
{
    match outcome {
        Outcome::Accepted(factor) => numbered(b"OK ", nonce, b" ", factor.value()),
        Outcome::Refused(reason) => write_refusal(nonce, reason),
    }
}

/// Returns the bytes of an answer, without a line end.
pub fn write_answer(answer: &Answer) -> ArrayVec<u8, MAX_ANSWER_LEN>
    ensures { result.items ≡ answer_bytes answer.now }
{
    match answer {
        Answer::BadLine => {
            let mut out = ArrayVec::new();
            push_all(&mut out, b"NO - BADLINE");
            out
        }
        Answer::Reply(nonce, outcome) => write_reply(nonce, *outcome),
    }
}
