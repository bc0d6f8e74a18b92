//! A node by its calls, from bytes to bytes.

use crate::steps::{
    ASK_1_2, ASK_1_3, GRANT_2_1, Out, Step, book_of, count_of_node, count_steps, opened, zeros,
};
use floor_store::MemStore;
use oath_node::{Event, Node, Scratch};
use otp_core::Next;
use std::alloc::Global;
use vote_core::Place;

/// An Ask of node 1 to node 2 with one byte more.
const LONGER_ASK: [u8; 60] = [
    0x4f, 0x56, 2, 1, 1, 2, 0, 0, 0, 0, 1, 0, 0, 0, 0, 0, 0, 0, 1, 0, 0, 0, 0, 0, 0, 0, 0, 0, 0, 0,
    0, 0, 0, 0, 0, 0, 0, 0, 0, 0, 0, 0, 0, 0x0c, 0x53, 0x1f, 0xa7, 0x11, 0xe9, 0x66, 0xd0, 0xa9,
    0xbd, 0xa8, 3, 0x85, 0x1c, 0x99, 0x19, 0,
];

/// Node 2 of three grants an Ask, twice. It drops an Ask from another member, or with one byte more.
const GRANTED: &[Step] = &[
    Step::Heard(1, &LONGER_ASK, &[]),
    Step::Heard(3, &ASK_1_2, &[]),
    Step::Heard(1, &ASK_1_2, &[Out::Sent(1, &GRANT_2_1)]),
    Step::Heard(1, &ASK_1_2, &[Out::Sent(1, &GRANT_2_1)]),
];

/// A submission at node 1 of three waits, is accepted by the second vote, and its answer is kept.
const ACCEPTED: &[Step] = &[
    Step::Line(
        7,
        1000,
        b"CHECK a silver 755224 -",
        &[Out::Sent(2, &ASK_1_2), Out::Sent(3, &ASK_1_3)],
    ),
    Step::Line(7, 1000, b"CHECK a silver 755224 -", &[]),
    Step::Heard(2, &GRANT_2_1, &[Out::Told(7, b"OK a 0")]),
    Step::Line(
        7,
        1001,
        b"CHECK a silver 755224 -",
        &[Out::Told(7, b"OK a 0")],
    ),
];

/// A restart keeps the gate of a node alone.
const RESTARTED: &[Step] = &[
    Step::Line(
        7,
        100,
        b"CHECK 1 silver 000000 -",
        &[Out::Told(7, b"NO 1 INVALID")],
    ),
    Step::Restarts,
    Step::Line(
        7,
        104,
        b"CHECK 1 silver 755224 -",
        &[Out::Told(7, b"NO 1 THROTTLED 1")],
    ),
    Step::Line(
        7,
        105,
        b"CHECK 2 silver 755224 -",
        &[Out::Told(7, b"OK 2 0")],
    ),
];

/// An unlocking opens the gate, and keeps the floor, the first free factor, and the answers.
const UNLOCKED: &[Step] = &[
    Step::Line(
        7,
        100,
        b"CHECK 1 silver 755224 -",
        &[Out::Told(7, b"OK 1 0")],
    ),
    Step::Line(
        7,
        100,
        b"CHECK 2 silver 000000 -",
        &[Out::Told(7, b"NO 2 INVALID")],
    ),
    Step::Unlocks,
    Step::Line(
        7,
        101,
        b"CHECK 3 silver 755224 -",
        &[Out::Told(7, b"NO 3 INVALID")],
    ),
    Step::Line(
        7,
        101,
        b"CHECK 1 silver 755224 -",
        &[Out::Told(7, b"OK 1 0")],
    ),
    Step::Unlocks,
    Step::Line(
        7,
        101,
        b"CHECK 4 silver 287082 -",
        &[Out::Told(7, b"OK 4 1")],
    ),
];

#[test]
fn ask_bytes(rt: HostRuntime) {
    assert!(rt; count_of_node(rt.alloc(), 2, 3, GRANTED) == Some(4));
}

#[test]
fn second_vote(rt: HostRuntime) {
    assert!(rt; count_of_node(rt.alloc(), 1, 3, ACCEPTED) == Some(4));
}

#[test]
fn unlocking_opens_a_gate(rt: HostRuntime) {
    assert!(rt; count_of_node(rt.alloc(), 1, 1, UNLOCKED) == Some(7));
}

#[test]
fn gate_survives_restart(rt: HostRuntime) {
    assert!(rt; count_of_node(rt.alloc(), 1, 1, RESTARTED) == Some(4));
}

/// The code of a time step is accepted once, and not in the next step.
const TIME_STEPS: &[Step] = &[
    Step::Line(
        7,
        59,
        b"CHECK 1 silver 287082 -",
        &[Out::Told(7, b"OK 1 1")],
    ),
    Step::Line(
        7,
        61,
        b"CHECK 2 silver 287082 -",
        &[Out::Told(7, b"NO 2 INVALID")],
    ),
];

/// Returns the number of time steps that have their outputs, at a node alone with a time token whose floor (first free
/// factor) is 0.
fn count_of_time_steps(alloc: Global) -> Option<usize> {
    let users = b"HOTP/T30 silver - 3132333435363738393031323334353637383930";
    let (place, key, floors) = (Place::new(1, 1)?, zeros()?, [Next::new(0)?]);
    let (book, _imported) = book_of(alloc, users)?;
    let mut node = opened(alloc, &book, &key, &floors, place)?;
    Some(count_steps(&mut node, TIME_STEPS))
}

#[test]
fn time_step_is_taken_once(rt: HostRuntime) {
    assert!(rt; count_of_time_steps(rt.alloc()) == Some(2));
}

/// The names of 33 users.
const NAMES: &[u8; 33] = b"abcdefghijklmnopqrstuvwxyzABCDEFG";

/// The users file of the 33 users.
const USERS: &[u8] = b"HOTP a - 31\nHOTP b - 31\nHOTP c - 31\nHOTP d - 31\n\
HOTP e - 31\nHOTP f - 31\nHOTP g - 31\nHOTP h - 31\nHOTP i - 31\n\
HOTP j - 31\nHOTP k - 31\nHOTP l - 31\nHOTP m - 31\nHOTP n - 31\n\
HOTP o - 31\nHOTP p - 31\nHOTP q - 31\nHOTP r - 31\nHOTP s - 31\n\
HOTP t - 31\nHOTP u - 31\nHOTP v - 31\nHOTP w - 31\nHOTP x - 31\n\
HOTP y - 31\nHOTP z - 31\nHOTP A - 31\nHOTP B - 31\nHOTP C - 31\n\
HOTP D - 31\nHOTP E - 31\nHOTP F - 31\nHOTP G - 31\n";

/// The line of the last user, and its reply.
const BUSY: &[Step] = &[Step::Line(
    7,
    1000,
    b"CHECK 1 G 517846 -",
    &[Out::Told(7, b"NO 1 BUSY")],
)];

/// Returns whether a line begins a proposal.
fn begins(node: &mut Node<'_, MemStore>, scratch: &mut Scratch, line: &[u8]) -> bool {
    let event = Event::Client {
        client: 7,
        moment: 1000,
        line,
    };
    match node.handle(event, scratch) {
        Ok(outputs) => outputs.begun().is_some() && outputs.pass().is_none(),
        Err(_) => false,
    }
}

/// Returns the number of users whose line begins a proposal, in order, before the first one whose line doesn't.
fn count_begun(node: &mut Node<'_, MemStore>) -> usize {
    let mut scratch = Scratch::new();
    let mut line = *b"CHECK 1 a 517846 -";
    for (place, name) in NAMES.iter().enumerate() {
        line[8] = *name;
        if !begins(node, &mut scratch, &line) {
            return place;
        }
    }
    NAMES.len()
}

/// Returns whether 32 submissions wait, and the node replies BUSY to the next one.
fn gets_busy(node: &mut Node<'_, MemStore>) -> bool {
    count_begun(node) == 32 && count_steps(node, BUSY) == 1
}

/// Returns whether a fresh node of the 33 users gets busy.
fn is_busy_at_last(alloc: Global) -> Option<bool> {
    let place = Place::new(1, 3)?;
    let key = zeros()?;
    let (book, floors) = book_of(alloc, USERS)?;
    let mut node = opened(alloc, &book, &key, &floors, place)?;
    Some(gets_busy(&mut node))
}

#[test]
fn thirty_three_submissions(rt: HostRuntime) {
    assert!(rt; is_busy_at_last(rt.alloc()) == Some(true));
}
