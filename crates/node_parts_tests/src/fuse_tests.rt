//! A node whose store fails at each of its writes in turn.

use crate::steps::{
    ASK_1_2, ASK_1_3, ASK_2_1, ASK_2_3, DENY_3_2, GRANT_3_1, Out, SILVER, Step, book_of,
    count_of_node, count_steps, memory, settings, zeros,
};
use floor_store::{FloorStore, FuseStore, MemStore, StoreFault};
use oath_node::{Event, Node, NodeFault, OpenFault, Outputs, Scratch};
use std::alloc::Global;
use token_file::Book;
use vote_core::Place;
use vote_wire::ClusterKey;

/// A store in memory that fails at one write.
type Fuse = FuseStore<MemStore>;

/// The steps of node 1 of three: a client sends it a code, which node 3 grants.
const FIRST: &[Step] = &[
    Step::Line(
        7,
        1000,
        b"CHECK a silver 755224 -",
        &[Out::Sent(2, &ASK_1_2), Out::Sent(3, &ASK_1_3)],
    ),
    Step::Heard(3, &GRANT_3_1, &[Out::Told(7, b"OK a 0")]),
];

/// The steps of node 2 of three: another client sends it the same code, which node 3 denies.
const SECOND: &[Step] = &[
    Step::Line(
        8,
        1000,
        b"CHECK b silver 755224 -",
        &[Out::Sent(1, &ASK_2_1), Out::Sent(3, &ASK_2_3)],
    ),
    Step::Heard(3, &DENY_3_2, &[]),
];

/// The steps of node 3 of three, with two Asks of node 1.
const THIRD: &[Step] = &[
    Step::Heard(1, &ASK_1_3, &[Out::Sent(1, &GRANT_3_1)]),
    Step::Heard(1, &ASK_1_3, &[Out::Sent(1, &GRANT_3_1)]),
    Step::Heard(2, &ASK_2_3, &[Out::Sent(2, &DENY_3_2)]),
];

/// Returns whether a node refuses a tick and a restart, because its store stopped it.
fn is_stopped(node: &mut Node<'_, Fuse>) -> bool {
    let mut scratch = Scratch::new();
    let ticked = match node.handle(Event::Tick, &mut scratch) {
        Ok(_) => None,
        Err(fault) => Some(fault),
    };
    !node.is_running()
        && ticked == Some(NodeFault::Stopped)
        && node.restart() == Err(NodeFault::Store(StoreFault::Disk))
}

/// Returns the store after the steps of node 3, and the number of steps that have their outputs before the store fails.
///
/// Returns None if a step fails for another reason.
fn steps_of_third(
    alloc: Global,
    book: &Book,
    key: &ClusterKey,
    store: Fuse,
    steps: &[Step],
) -> Option<(Fuse, usize)> {
    let settings = settings()?;
    let place = Place::new(3, 3)?;
    if store.tokens() as usize != book.len() {
        return None;
    }
    match Node::open(alloc, book, settings, place, key, store) {
        Ok(mut node) => {
            let count = count_steps(&mut node, steps);
            if count < steps.len() && !is_stopped(&mut node) {
                return None;
            }
            Some((node.close(), count))
        }
        Err((store, OpenFault::Store(StoreFault::Disk))) => Some((store, 0)),
        Err(_) => None,
    }
}

/// Returns the boot of node 3 after all its steps.
///
/// If a write fails, the remaining steps run over the mended store. Returns None if a step has other outputs, or if
/// `blows` doesn't say whether a write failed.
fn boot_of_third(
    alloc: Global,
    book: &Book,
    key: &ClusterKey,
    store: Fuse,
    blows: bool,
) -> Option<u64> {
    let (store, count) = steps_of_third(alloc, book, key, store, THIRD)?;
    if store.is_broken() != blows {
        return None;
    }
    let store = FuseStore::new(store.mend(), 9, false);
    let rest = THIRD.get(count..)?;
    let (store, count) = steps_of_third(alloc, book, key, store, rest)?;
    if count != rest.len() {
        return None;
    }
    store.boot().ok()
}

/// Returns the boot of a fresh node 3 of the one token, after all its steps.
fn boot_of_fresh_third(alloc: Global, writes: u64, after: bool, blows: bool) -> Option<u64> {
    let key = zeros()?;
    let (book, floors) = book_of(alloc, SILVER)?;
    let store = FuseStore::new(memory(alloc, &floors)?, writes, after);
    boot_of_third(alloc, &book, &key, store, blows)
}

/// Runs of node 3, each with four values:
///
/// - the number of writes that pass
/// - whether the change of the next write is kept
/// - whether there is a next write
/// - the last boot
const WRITES: &[(u64, bool, bool, u64)] = &[
    (0, false, true, 1),
    (0, true, true, 2),
    (1, false, true, 2),
    (1, true, true, 2),
    (2, false, true, 2),
    (2, true, true, 2),
    (3, false, true, 2),
    (3, true, true, 2),
    (4, false, true, 2),
    (4, true, true, 2),
    (5, false, false, 2),
    (5, true, false, 2),
];

/// Each write of node 3 fails in turn, lost or kept: its boot, the put of its Grant, and the commit of each step.
///
/// There is no sixth write. In each run node 3 grants the code to node 1 alone. Node 1 replies OK to its client, and
/// node 2 doesn't.
#[test]
fn each_write_fails(rt: HostRuntime) {
    assert!(rt; count_of_node(rt.alloc(), 1, 3, FIRST) == Some(2));
    assert!(rt; count_of_node(rt.alloc(), 2, 3, SECOND) == Some(2));
    for &(writes, after, blows, boot) in WRITES {
        assert!(rt; boot_of_fresh_third(rt.alloc(), writes, after, blows) == Some(boot));
    }
}

/// Takes three lines in one batch, with the first three codes of the token. Returns their outputs after the commit.
fn take_batch<'b, S: FloorStore>(node: &mut Node<'b, S>) -> Result<[Outputs<'b>; 3], NodeFault> {
    let first = node.take_line(7, 1000, b"CHECK a silver 755224 -")?;
    let second = node.take_line(8, 1000, b"CHECK b silver 287082 -")?;
    let third = node.take_line(9, 1000, b"CHECK c silver 359152 -")?;
    node.commit()?;
    Ok([first, second, third])
}

/// Returns the store of a node alone after the batch, and the number of outputs that it returned.
fn store_of_batch(
    alloc: Global,
    book: &Book,
    key: &ClusterKey,
    store: Fuse,
) -> Option<(Fuse, usize)> {
    let settings = settings()?;
    let place = Place::new(1, 1)?;
    if store.tokens() as usize != book.len() {
        return None;
    }
    let mut node = Node::open(alloc, book, settings, place, key, store).ok()?;
    let count = match take_batch(&mut node) {
        Ok(outputs) => outputs.len(),
        Err(_) => 0,
    };
    Some((node.close(), count))
}

/// Returns the floor of the one token (its first free factor), after a node was opened over the mended store.
fn next_after_restart(alloc: Global, book: &Book, key: &ClusterKey, store: Fuse) -> Option<u64> {
    let store = FuseStore::new(store.mend(), 1, false);
    let (store, _) = steps_of_third(alloc, book, key, store, &[])?;
    if store.tokens() == 0 {
        return None;
    }
    Some(store.row(0).ok()?.next().value())
}

/// Returns the floor after the batch over a fresh store, and the number of outputs that the node returned.
fn left_by_batch(alloc: Global, writes: u64, after: bool) -> Option<(u64, usize)> {
    let key = zeros()?;
    let (book, floors) = book_of(alloc, SILVER)?;
    let store = FuseStore::new(memory(alloc, &floors)?, writes, after);
    let (store, count) = store_of_batch(alloc, &book, &key, store)?;
    Some((next_after_restart(alloc, &book, &key, store)?, count))
}

/// Runs of a batch, each with four values:
///
/// - the number of writes that pass
/// - whether the change of the next write is kept
/// - the number of lines that are kept
/// - the number of outputs
const BATCHES: &[(u64, bool, u64, usize)] = &[
    (1, false, 0, 0),
    (1, true, 1, 0),
    (2, false, 1, 0),
    (2, true, 2, 0),
    (3, false, 2, 0),
    (3, true, 3, 0),
    (4, false, 3, 0),
    (4, true, 3, 0),
    (5, false, 3, 3),
];

/// Each put of a batch of three lines fails in turn, and its commit. A prefix of the lines is kept. The node returns no
/// output before the commit.
#[test]
fn each_write_of_a_batch_fails(rt: HostRuntime) {
    for &(writes, after, kept, count) in BATCHES {
        assert!(rt; left_by_batch(rt.alloc(), writes, after) == Some((kept, count)));
    }
}
