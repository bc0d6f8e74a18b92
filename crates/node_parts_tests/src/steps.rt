//! Steps of a node, each with its outputs, and the bytes of a vote among three.

use floor_store::{FloorStore, MemStore};
use oath_node::{Event, Item, Node, Outputs, Scratch};
use otp_core::{Next, Settings};
use std::alloc::Global;
use token_file::{Book, FromRead, read_book};
use vote_core::Place;
use vote_wire::ClusterKey;

/// The token of RFC 4226, Appendix D.
pub(crate) const SILVER: &[u8] = b"HOTP silver - 3132333435363738393031323334353637383930";

// The bytes of one vote under 32 zeros: token 0, factors 0 to 0, proposal 0 of boot 1 of node 1 or of node 2.

/// Node 1 asks node 2.
pub(crate) const ASK_1_2: [u8; 59] = [
    0x4f, 0x56, 2, 1, 1, 2, 0, 0, 0, 0, 1, 0, 0, 0, 0, 0, 0, 0, 1, 0, 0, 0, 0, 0, 0, 0, 0, 0, 0, 0,
    0, 0, 0, 0, 0, 0, 0, 0, 0, 0, 0, 0, 0, 0x0c, 0x53, 0x1f, 0xa7, 0x11, 0xe9, 0x66, 0xd0, 0xa9,
    0xbd, 0xa8, 3, 0x85, 0x1c, 0x99, 0x19,
];

/// Node 1 asks node 3.
pub(crate) const ASK_1_3: [u8; 59] = [
    0x4f, 0x56, 2, 1, 1, 3, 0, 0, 0, 0, 1, 0, 0, 0, 0, 0, 0, 0, 1, 0, 0, 0, 0, 0, 0, 0, 0, 0, 0, 0,
    0, 0, 0, 0, 0, 0, 0, 0, 0, 0, 0, 0, 0, 0x81, 0xde, 0x72, 0x15, 0xe8, 0x96, 0x2a, 0x73, 0xb2,
    0x8d, 0x69, 0x92, 0x12, 0x83, 0xf4, 0xc1,
];

/// Node 2 grants node 1.
pub(crate) const GRANT_2_1: [u8; 59] = [
    0x4f, 0x56, 2, 2, 2, 1, 0, 0, 0, 0, 1, 0, 0, 0, 0, 0, 0, 0, 1, 0, 0, 0, 0, 0, 0, 0, 0, 0, 0, 0,
    0, 0, 0, 0, 0, 0, 0, 0, 0, 0, 0, 0, 0, 0x12, 0x15, 0x87, 0x3a, 0xcb, 0xf1, 0x24, 0x46, 0xb7,
    0xa5, 0xe9, 0x75, 0xd1, 0xe9, 0x14, 0x72,
];

/// Node 3 grants node 1.
pub(crate) const GRANT_3_1: [u8; 59] = [
    0x4f, 0x56, 2, 2, 3, 1, 0, 0, 0, 0, 1, 0, 0, 0, 0, 0, 0, 0, 1, 0, 0, 0, 0, 0, 0, 0, 0, 0, 0, 0,
    0, 0, 0, 0, 0, 0, 0, 0, 0, 0, 0, 0, 0, 3, 0x19, 0x9e, 0xcc, 0x58, 0xa8, 0xfc, 0xc2, 0x1a, 0x0c,
    0xba, 0xcc, 0x23, 0xd4, 0x5d, 0xa4,
];

/// Node 2 asks node 1.
pub(crate) const ASK_2_1: [u8; 59] = [
    0x4f, 0x56, 2, 1, 2, 1, 0, 0, 0, 0, 2, 0, 0, 0, 0, 0, 0, 0, 1, 0, 0, 0, 0, 0, 0, 0, 0, 0, 0, 0,
    0, 0, 0, 0, 0, 0, 0, 0, 0, 0, 0, 0, 0, 0x73, 0x4c, 0x55, 0x79, 0xc6, 0x7b, 0x39, 0xbc, 0x50,
    0xd8, 0xf9, 0x9b, 8, 0x29, 0x4a, 0x72,
];

/// Node 2 asks node 3.
pub(crate) const ASK_2_3: [u8; 59] = [
    0x4f, 0x56, 2, 1, 2, 3, 0, 0, 0, 0, 2, 0, 0, 0, 0, 0, 0, 0, 1, 0, 0, 0, 0, 0, 0, 0, 0, 0, 0, 0,
    0, 0, 0, 0, 0, 0, 0, 0, 0, 0, 0, 0, 0, 0xf1, 0xde, 0xb8, 0x11, 0x36, 0x42, 0x0c, 0x33, 0xe3,
    0x48, 0x99, 0x8c, 0xc1, 0xd3, 0x84, 0xa3,
];

/// Node 3 denies node 2. The floor of node 3, its first free factor, is 1.
pub(crate) const DENY_3_2: [u8; 51] = [
    0x4f, 0x56, 2, 3, 3, 2, 0, 0, 0, 0, 2, 0, 0, 0, 0, 0, 0, 0, 1, 0, 0, 0, 0, 0, 0, 0, 0, 0, 0, 0,
    0, 0, 0, 0, 1, 0x49, 0xe4, 0x9e, 0xe2, 0x3e, 0x42, 0x8c, 0x7b, 0x7e, 0x69, 0x1e, 0xe9, 0xb3,
    0x30, 0x92, 7,
];

/// An output of a node.
pub(crate) enum Out {
    /// A datagram to a member.
    Sent(u8, &'static [u8]),
    /// A reply to a client.
    Told(u64, &'static [u8]),
}

/// A step of a node, with all its outputs.
pub(crate) enum Step {
    /// A client's line at a moment.
    Line(u64, u64, &'static [u8], &'static [Out]),
    /// The bytes of a member.
    Heard(u8, &'static [u8], &'static [Out]),
    /// A restart, which has no outputs.
    Restarts,
    /// The unlocking of the first token.
    Unlocks,
}

/// Returns whether an item is the output `out`.
fn is_out(item: &Item, out: &Out) -> bool {
    match (item, out) {
        (Item::Datagram { to, bytes }, Out::Sent(member, sent)) => {
            to == member && bytes.as_slice() == *sent
        }
        (Item::Reply { client, bytes }, Out::Told(receiver, told)) => {
            client == receiver && bytes.as_slice() == *told
        }
        _ => false,
    }
}

/// Returns whether the outputs are exactly `outs`.
fn are_out(outputs: &Outputs<'_>, outs: &[Out]) -> bool {
    let mut items = outputs.items();
    for out in outs {
        let Some(item) = items.next() else {
            return false;
        };
        if !is_out(&item, out) {
            return false;
        }
    }
    items.next().is_none()
}

/// Returns whether an event has exactly the outputs `outs`.
fn takes<S: FloorStore>(
    node: &mut Node<'_, S>,
    scratch: &mut Scratch,
    event: Event<'_>,
    outs: &[Out],
) -> bool {
    match node.handle(event, scratch) {
        Ok(outputs) => are_out(&outputs, outs),
        Err(_) => false,
    }
}

/// Returns whether a step has the outputs that it names.
fn goes<S: FloorStore>(node: &mut Node<'_, S>, scratch: &mut Scratch, step: &Step) -> bool {
    match *step {
        Step::Line(client, moment, line, outs) => {
            let event = Event::Client {
                client,
                moment,
                line,
            };
            takes(node, scratch, event, outs)
        }
        Step::Heard(from, bytes, outs) => takes(node, scratch, Event::Peer { from, bytes }, outs),
        Step::Restarts => node.restart().is_ok(),
        Step::Unlocks => node.store().tokens() > 0 && node.open_gate(0).is_ok(),
    }
}

/// Returns the number of steps that have their outputs, before the first one that doesn't.
pub(crate) fn count_steps<S: FloorStore>(node: &mut Node<'_, S>, steps: &[Step]) -> usize {
    let mut scratch = Scratch::new();
    for (place, step) in steps.iter().enumerate() {
        if !goes(node, &mut scratch, step) {
            return place;
        }
    }
    steps.len()
}

/// Returns the settings: a look-ahead of 5, a skew of 1 and a range of 9.
pub(crate) fn settings() -> Option<Settings> {
    Settings::new(5, 1, 9)
}

/// Returns the key of 32 zeros, for a cluster that needs none.
pub(crate) fn zeros() -> Option<ClusterKey> {
    ClusterKey::new(&[0; 32])
}

/// Reads the tokens of a users file, and their floors.
pub(crate) fn book_of(alloc: Global, users: &[u8]) -> Option<(Book, Vec<Next>)> {
    let settings = settings()?;
    read_book(alloc, &mut FromRead::new(users), settings, 0).ok()
}

/// Creates a store in memory with the given floors.
pub(crate) fn memory(alloc: Global, floors: &[Next]) -> Option<MemStore> {
    if floors.len() > 10_000 {
        return None;
    }
    MemStore::new(alloc, floors).ok()
}

/// Opens the node of the given tokens at a place, over a fresh store in memory.
pub(crate) fn opened<'b>(
    alloc: Global,
    book: &'b Book,
    key: &'b ClusterKey,
    floors: &[Next],
    place: Place,
) -> Option<Node<'b, MemStore>> {
    let settings = settings()?;
    let store = memory(alloc, floors)?;
    if store.tokens() as usize != book.len() {
        return None;
    }
    Node::open(alloc, book, settings, place, key, store).ok()
}

/// Returns the number of steps of a fresh node of the one token that have their outputs.
pub(crate) fn count_of_node(alloc: Global, me: u8, n: u8, steps: &[Step]) -> Option<usize> {
    let place = Place::new(me, n)?;
    let key = zeros()?;
    let (book, floors) = book_of(alloc, SILVER)?;
    let mut node = opened(alloc, &book, &key, &floors, place)?;
    Some(count_steps(&mut node, steps))
}
