//! The last answers, which are returned again.

use answer_ring::{Answers, MAX_ANSWER_LEN, MAX_LINE_LEN, answer_again, keep};
use std::alloc::Global;

/// Returns whether the answer to a client's line is `answer`, or missing if `answer` is None.
fn is_given(answers: &Answers, client: u64, line: &[u8; 8], answer: Option<&[u8; 8]>) -> bool {
    match (answer_again(answers, client, line), answer) {
        (Some(found), Some(answer)) => found == answer.as_slice(),
        (None, None) => true,
        _ => false,
    }
}

/// Returns the client and the line of a number, whose answer is the number. Each line repeats after 15,000 numbers.
fn line_of(number: u64) -> (u64, [u8; 8]) {
    (number / 5 % 3000, (number % 5).to_be_bytes())
}

/// Keeps the answers to 10,240 lines.
fn fill(answers: &mut Answers) {
    for number in 0..10240u64 {
        let (client, line) = line_of(number);
        keep(answers, client, &line, &number.to_be_bytes());
    }
}

/// Returns whether exactly the last 1,024 lines of `fill` have an answer.
fn are_the_last(answers: &Answers) -> bool {
    for number in 0..10240u64 {
        let (client, line) = line_of(number);
        let answer = number.to_be_bytes();
        let want = if number < 10240 - 1024 {
            None
        } else {
            Some(&answer)
        };
        if !is_given(answers, client, &line, want) {
            return false;
        }
    }
    true
}

/// Returns whether the longest line keeps its longest answer, which is the newer of two.
fn keeps_the_longest(answers: &mut Answers) -> bool {
    let line = [b'a'; MAX_LINE_LEN];
    let answer = [b'b'; MAX_ANSWER_LEN];
    keep(answers, u64::MAX, &line, b"first");
    keep(answers, u64::MAX, &line, &answer);
    match answer_again(answers, u64::MAX, &line) {
        Some(found) => found == answer.as_slice(),
        None => false,
    }
}

/// Returns whether a ring keeps the last answers, and none after it is cleared.
fn keeps(alloc: Global) -> Option<bool> {
    let mut answers = Answers::new(alloc).ok()?;
    fill(&mut answers);
    let are_kept = are_the_last(&answers) && keeps_the_longest(&mut answers);
    answers.clear();
    let (client, line) = line_of(10239);
    Some(are_kept && is_given(&answers, client, &line, None))
}

#[test]
fn ten_rings_keep_the_last(rt: HostRuntime) {
    assert!(rt; keeps(rt.alloc()) == Some(true));
}
