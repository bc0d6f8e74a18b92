//! A kept answer, and the number of comparisons of two answers.

ghost use Rattle.std.specs.Prelude.{◌≡◌, ◌+◌, ◌<◌, ◌≤◌, length, IfSome};
ghost use Rattle.std.specs.Option.{option_copied};
ghost use Rattle.answer_ring.specs.Answers.{answer_order, kept_answer, kept_with};

use crate::answers::Answers;
use arrayvec::ArrayVec;
use client_lines::{MAX_ANSWER_LEN, MAX_LINE_LEN};
use std::cmp::Ordering;
use std::marker::Model;

/// An answer to a client's line. The line has no LF at its end.
#[derive(Drop)]
pub struct Kept {
    client: u64,
    line: ArrayVec<u8, MAX_LINE_LEN>,
    answer: ArrayVec<u8, MAX_ANSWER_LEN>,
}

impl Model for Kept {
    ghost use Rattle.answer_ring.specs.Answers.{KeptAnswer};

    ghost Value = { KeptAnswer };

    ghost view = { λ k. record { client = k.client; line = k.line.items; text = k.answer.items } };
}

impl Kept {
    /// Returns an answer to `client` and `line`, of at most [`MAX_ANSWER_LEN`] and [`MAX_LINE_LEN`] bytes.
    pub fn new(client: u64, line: &[u8], answer: &[u8]) -> Self
        requires line { length line.now ≤ 256 }
        requires answer { length answer.now ≤ 64 }
        ensures { result ≡ record { client = client; line = line.now; text = answer.now } }
    {
        Kept {
            client,
            line: ArrayVec::try_from(line).unwrap(),
            answer: ArrayVec::try_from(answer).unwrap(),
        }
    }

    /// Returns the bytes of the answer.
    pub fn answer(&self) -> &[u8]
        ensures value { result.now ≡ self.now.text }
        ensures len { length result.now ≤ 64 }
    {
        self.answer.as_slice()
    }

    /// Compares two answers by client, and by the bytes of a client's lines. Counts one comparison.
    #[tactic(auto, unfolding(crate::specs::Answers::answer_order))]
    pub fn compare(&self, other: &Kept, count: &mut Count) -> Ordering
        requires { count.old < u64.MAX }
        ensures order { result ≡ answer_order self.now other.now }
        ensures counted { count.new ≡ count.old + 1 }
    {
        count.compared += 1;
        self.client
            .cmp(&other.client)
            .then(self.line.as_slice().cmp(other.line.as_slice()))
    }
}

/// The number of comparisons of two answers.
#[derive(Drop)]
pub struct Count {
    compared: u64,
}

impl Model for Count {
    ghost use Rattle.std.specs.Prelude.{ℕ};

    ghost Value = { ℕ };

    ghost view = { λ c. c.compared };
}

impl Count {
    fn new() -> Self
        ensures { result ≡ 0 }
    {
        Count { compared: 0 }
    }
}

/// Returns the newest kept answer to `client` and `line`, or None. `line` has at most [`MAX_LINE_LEN`] bytes.
pub fn answer_again<'a>(answers: &'a Answers, client: u64, line: &[u8]) -> Option<&'a [u8]>
    requires { length line.now ≤ 256 }
    ensures value { option_copied result ≡ kept_answer answers.now client line.now }
    ensures len { IfSome result (λ answer. length answer.now ≤ 64) }
{
    answers.find(&Kept::new(client, line, &[]), &mut Count::new())
}

/// Keeps an answer of at most [`MAX_ANSWER_LEN`] bytes to `client` and `line`, which has at most [`MAX_LINE_LEN`]
/// bytes.
pub fn keep(answers: &mut Answers, client: u64, line: &[u8], answer: &[u8])
    requires line { length line.now ≤ 256 }
    requires answer { length answer.now ≤ 64 }
    ensures { answers.new ≡ kept_with answers.old (record { client = client; line = line.now; text = answer.now }) }
{
    answers.put(Kept::new(client, line, answer), &mut Count::new())
}
