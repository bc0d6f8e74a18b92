//! The losses of stores, and their replacements. Floor: the first free factor of a token at a node.

ghost use Rattle.std.specs.Prelude.{◌≡◌, ◌<◌, ◌≤◌, ◌^◌, ◌&&◌, nat_le, nat_lt, ℕ, List, IfOk, length, true};
ghost use Rattle.otp_core.specs.Acceptance.{majority_of, size};
ghost use Rattle.vote_core.specs.NodeSet.{with_node};
ghost use Rattle.vote_core.specs.Rows.{row};
ghost use Rattle.vote_core.specs.Schedule.{all_most, greatest, last_boot};
ghost use Rattle.oath_node.specs.Machine.{Config};
ghost use Rattle.cluster_sim.specs.Journal.{IsRun, Plays, PlaysAt, simulation_of, used_in};
ghost use Rattle.cluster_sim.specs.Losses.{AreGreatest, are_lost, list_of};
ghost use Rattle.cluster_sim.specs.World.{World, floor_in, world_after_anew, world_after_loss};

use crate::journal::Journal;
use crate::simulation::{Shared, index_of};
use floor_store::{COUNTS_END, FloorStore, MemStore};
use oath_node::Node;
use otp_core::Next;
use std::alloc::{AllocError, Global};
use vote_core::{Place, majority};

/// The last boot of a node.
const LAST_BOOT: u64 = COUNTS_END - 1;

/// Returns the floor 0: no factor is used up.
fn none_used() -> Next
    ensures { result ≡ 0 }
{
    match Next::new(0) {
        Some(next) => next,
        None => unreachable!(),
    }
}

/// Returns the node's floor of `token`, or 0 if the node has no such token.
fn next_of(node: &Node<'_, MemStore>, token: u32) -> Next
    ensures { result ≡ (row node.now.store token).next }
{
    let store = node.store();
    if token < store.tokens() {
        if let Ok(row) = store.row(token) {
            return row.next();
        }
    }
    none_used()
}

/// Returns the greatest floor of `token` at the nodes, except the node `gone` and the lost nodes.
fn greatest_next(nodes: &[Node<'_, MemStore>], journal: &Journal, gone: u64, token: u32) -> Next
    ensures { (config : Config) (key : List ℕ) (world : World)
        → IsRun config key world (simulation_of nodes.now journal.now)
        → result ≡ greatest world.n (with_node gone world.lost) (λ node. (row (world.nodes node).content token).next) }
{
    let mut greatest = none_used();
    for (index, node) in nodes.iter().enumerate() {
        let number = index as u64 + 1;
        if number == gone || journal.used_boot(number).is_some() {
            continue;
        }
        let next = next_of(node, token);
        if greatest < next {
            greatest = next;
        }
    }
    greatest
}

/// Returns the greatest floor of each of the `tokens` tokens at the nodes, except the node `gone` and the lost nodes.
fn least_of(
    alloc: Global,
    nodes: &[Node<'_, MemStore>],
    journal: &Journal,
    gone: u64,
    tokens: u32,
) -> Result<Vec<Next>, AllocError>
    ensures { (config : Config) (key : List ℕ) (world : World)
        → IsRun config key world (simulation_of nodes.now journal.now)
        → IfOk result (λ least. AreGreatest world gone tokens least.items) }
{
    let mut least = Vec::new(alloc);
    for token in 0..tokens {
        least.push(greatest_next(nodes, journal, gone, token))?;
    }
    Ok(least)
}

/// Removes the store of `node`, if it has one.
pub(crate) fn lose(
    nodes: &[Node<'_, MemStore>],
    journal: &mut Journal,
    alloc: Global,
    node: u64,
) -> Result<(), AllocError>
    ensures { (key : List ℕ) → Plays key (λ config world. world_after_loss node world)
        (simulation_of nodes.now journal.old) (simulation_of nodes.now journal.new) result }
{
    let Some(index) = index_of(nodes.len(), node) else {
        return Ok(());
    };
    if journal.used_boot(node).is_some() {
        return Ok(());
    }
    let store = nodes[index].store();
    let Ok(used) = store.boot() else {
        unreachable!()
    };
    let least = least_of(alloc, nodes, journal, node, store.tokens())?;
    journal.lose(node, used, least)
}

/// Returns the number of the nodes 1 to `nodes` that have lost their stores.
fn lost_count(journal: &Journal, nodes: u8) -> u8
    ensures { result ≡ size nodes (are_lost journal.now.losses) }
{
    let mut count = 0;
    for index in 0..nodes {
        if journal.used_boot(u64::from(index) + 1).is_some() {
            count += 1;
        }
    }
    count
}

/// Returns the floor of `token` in `floors`, or 0 if the list is too short.
fn floor_of(floors: &[Next], token: usize) -> Next
    ensures { result ≡ floor_in floors.now token }
{
    match floors.get(token) {
        Some(next) => *next,
        None => none_used(),
    }
}

/// Returns a list of `tokens` floors: the first ones of `floors`, and 0 for each missing one.
fn filled(alloc: Global, tokens: usize, floors: &[Next]) -> Result<Vec<Next>, AllocError>
    ensures { IfOk result (λ list. list.items ≡ list_of tokens (floor_in floors.now)) }
{
    let mut list = Vec::new(alloc);
    for token in 0..tokens {
        list.push(floor_of(floors, token))?;
    }
    Ok(list)
}

/// Returns whether no floor in `floors` is below the one in `least`.
fn are_enough(least: &[Next], tokens: usize, floors: &[Next]) -> bool
    ensures { result ≡ all_most tokens (floor_in least.now) (floor_in floors.now) }
{
    for token in 0..tokens {
        if floor_of(floors, token) < floor_of(least, token) {
            return false;
        }
    }
    true
}

/// Returns whether a node that lost its store, and used the boots up to `used`, may get a replacement at `boot`.
fn may_be_anew(
    journal: &Journal,
    nodes: u8,
    tokens: usize,
    used: u64,
    boot: u64,
    floors: &[Next],
) -> bool
    ensures test { result ≡ (nat_lt (size nodes (are_lost journal.now.losses)) (majority_of nodes)
        && (nat_lt used boot
        && (nat_le boot last_boot && all_most tokens (floor_in journal.now.least) (floor_in floors.now)))) }
    ensures first { result ≡ true → 1 ≤ boot }
    ensures last { result ≡ true → boot < 2 ^ 62 }
{
    lost_count(journal, nodes) < majority(nodes)
        && used < boot
        && boot <= LAST_BOOT
        && are_enough(journal.least.as_slice(), tokens, floors)
}

/// Replaces the store of a lost node, if the rules allow it, and opens the node on it.
pub(crate) fn renew<'b>(
    nodes: &mut [Node<'b, MemStore>],
    journal: &mut Journal,
    shared: &Shared<'b>,
    node: u64,
    boot: u64,
    floors: &[Next],
) -> Result<(), AllocError>
    requires { length nodes.old ≤ 9 }
    ensures plays { let config : Config = record { book = shared.now.book.now; limits = shared.now.settings } in
        (event : ℕ) → PlaysAt config shared.now.key.now (world_after_anew event node boot (floor_in floors.now))
        (simulation_of nodes.old journal.old) (simulation_of nodes.new journal.new) result }
    ensures len { length nodes.new ≡ length nodes.old }
{
    let Some(index) = index_of(nodes.len(), node) else {
        return Ok(());
    };
    let Some(used) = journal.used_boot(node) else {
        return Ok(());
    };
    let tokens = shared.book.len();
    if !may_be_anew(journal, nodes.len() as u8, tokens, used, boot, floors) {
        return Ok(());
    }
    let list = filled(shared.alloc, tokens, floors)?;
    let Some(place) = Place::new(node as u8, nodes.len() as u8) else {
        unreachable!()
    };
    nodes[index] = Node::in_memory_at(
        shared.alloc,
        shared.book,
        shared.settings,
        place,
        shared.key,
        boot - 1,
        list.as_slice(),
    )?;
    journal.renew(node)
}
