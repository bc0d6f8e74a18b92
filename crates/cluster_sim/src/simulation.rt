//! The nodes of a simulation, over stores in memory, and the effects of events on them.

ghost use Rattle.std.specs.Prelude.{◌≡◌, ◌+◌, ◌<◌, ◌≤◌, ℕ, Bool, List, IfNone, IfSome, OnOk, Some, false, length, map, slice_get, true};
ghost use Rattle.vote_core.specs.Schedule.{is_member};
ghost use Rattle.oath_node.specs.Hosted.{envelope_at, event_of as node_event_of};
ghost use Rattle.oath_node.specs.Machine.{Config, NodeState};
ghost use Rattle.cluster_sim.specs.Journal.{AreHosts, IsAsked, IsRun, Plays, PlaysAt, journal_with_outputs, letter_of, simulation_of, told_act, told_turn, world_by_event};
ghost use Rattle.cluster_sim.specs.Run.{act_of, event_of};
ghost use Rattle.cluster_sim.specs.World as spec;
ghost use Rattle.cluster_sim.specs.World.{Cut, Deliver, Noise, World, node_of, world_after_restart};

use crate::hosting::{hand, reopen};
use crate::journal::Journal;
use crate::losses::{lose, renew};
use crate::script::{Act, WorldEvent};
use floor_store::MemStore;
use oath_node::{Event, Node, Outputs, Scratch};
use otp_core::Settings;
use std::alloc::{AllocError, Global};
use token_file::Book;
use vote_wire::{ClusterKey, one_spelling, read_message};

/// The parts that all nodes of a cluster share, and the allocator.
#[derive(Clone, Copy)]
pub(crate) struct Shared<'b> {
    pub(crate) alloc: Global,
    pub(crate) book: &'b Book,
    pub(crate) settings: Settings,
    pub(crate) key: &'b ClusterKey,
}

/// Returns the index of `node` among `len` nodes, or None if it isn't one of 1 to `len`.
pub(crate) fn index_of(len: usize, node: u64) -> Option<usize>
    ensures place { IfSome result (λ k. k + 1 ≡ node) }
    ensures within { IfSome result (λ k. k < len) }
    ensures member { IfSome result (λ k. is_member len node ≡ true) }
    ensures none { IfNone result (is_member len node ≡ false) }
{
    if 1 <= node && node <= len as u64 {
        Some((node - 1) as usize)
    } else {
        None
    }
}

/// Passes `event` to `node`, which has its store. Returns its outputs, or None if there is no such node or no output.
fn ask<'b: 'k, 'k>(
    nodes: &mut [Node<'b, MemStore>],
    node: u64,
    event: Event<'_>,
    scratch: &'k mut Scratch,
) -> Option<Outputs<'k>>
    ensures asks { (config : Config) (key : List ℕ) (n : ℕ) (lost : ℕ → Bool) (x : ℕ → NodeState)
        → n ≡ length nodes.old → lost node ≡ false → AreHosts config key n lost x nodes.old
        → IsAsked config key n lost x node (node_event_of key event.entry) nodes.new result }
    ensures len { length nodes.new ≡ length nodes.old }
    ensures member { IfSome result (λ _. is_member (length nodes.old) node ≡ true) }
{
    let index = index_of(nodes.len(), node)?;
    hand(&mut nodes[index], event, scratch)
}

/// Records a node's outputs of an event in the journal.
fn take(
    journal: &mut Journal,
    event: u64,
    node: u64,
    is_told: bool,
    outputs: &Option<Outputs<'_>>,
) -> Result<(), AllocError>
    requires { IfSome outputs.now (λ _. is_member 9 node ≡ true) }
    ensures { OnOk result (journal.new ≡ journal_with_outputs event node is_told outputs.now journal.old) }
{
    if let Some(outputs) = outputs {
        let node = node as u8;
        journal.note(event, node, outputs.begun(), outputs.pass())?;
        if is_told {
            journal.tell(event, node, outputs)?;
        }
    }
    Ok(())
}

/// Passes an event to `node`, and records its outputs in the journal.
fn turn(
    nodes: &mut [Node<'_, MemStore>],
    journal: &mut Journal,
    event: u64,
    node: u64,
    is_told: bool,
    what: Event<'_>,
) -> Result<(), AllocError>
    requires { length nodes.old ≤ 9 }
    ensures plays { (key : List ℕ) → Plays key (told_turn is_told event node (Some (node_event_of key what.entry)))
        (simulation_of nodes.old journal.old) (simulation_of nodes.new journal.new) result }
    ensures len { length nodes.new ≡ length nodes.old }
{
    if journal.used_boot(node).is_some() {
        return Ok(());
    }
    let mut scratch = Scratch::new();
    let outputs = ask(nodes, node, what, &mut scratch);
    take(journal, event, node, is_told, &outputs)
}

/// Delivers the datagram number `k` to `node`.
fn deliver(
    nodes: &mut [Node<'_, MemStore>],
    journal: &mut Journal,
    event: u64,
    node: u64,
    k: u64,
    is_told: bool,
) -> Result<(), AllocError>
    requires { length nodes.old ≤ 9 }
    ensures plays { (key : List ℕ) → Plays key (told_act is_told event (Deliver node k))
        (simulation_of nodes.old journal.old) (simulation_of nodes.new journal.new) result }
    ensures len { length nodes.new ≡ length nodes.old }
{
    one_spelling();
    if journal.used_boot(node).is_some() {
        return Ok(());
    }
    let Some(datagram) = journal.datagram(k) else {
        return Ok(());
    };
    let what = Event::Peer {
        from: datagram.from,
        bytes: datagram.bytes.as_slice(),
    };
    let mut scratch = Scratch::new();
    let outputs = ask(nodes, node, what, &mut scratch);
    take(journal, event, node, is_told, &outputs)
}

/// Returns whether `bytes` are a datagram of `node` under the key.
fn is_from(key: &ClusterKey, node: u64, bytes: &[u8]) -> bool
    ensures { result ≡ spec.is_from node (envelope_at key.now bytes.now) }
{
    match read_message(key, bytes) {
        Some((sender, _, _)) => u64::from(sender) == node,
        None => false,
    }
}

/// Passes bytes from the address of the node `from` to `node`, if they are noise.
fn disturb(
    nodes: &mut [Node<'_, MemStore>],
    journal: &mut Journal,
    key: &ClusterKey,
    event: u64,
    node: u64,
    from: u64,
    bytes: &[u8],
    is_told: bool,
) -> Result<(), AllocError>
    requires { length nodes.old ≤ 9 }
    ensures plays { Plays key.now (told_act is_told event (Noise node from (envelope_at key.now bytes.now)))
        (simulation_of nodes.old journal.old) (simulation_of nodes.new journal.new) result }
    ensures len { length nodes.new ≡ length nodes.old }
{
    if is_from(key, from, bytes) {
        return Ok(());
    }
    let Ok(from) = u8::try_from(from) else {
        return Ok(());
    };
    turn(
        nodes,
        journal,
        event,
        node,
        is_told,
        Event::Peer { from, bytes },
    )
}

/// Performs an act in an event. The journal records the datagrams and replies if `is_told`; otherwise they are lost.
pub(crate) fn perform(
    nodes: &mut [Node<'_, MemStore>],
    journal: &mut Journal,
    key: &ClusterKey,
    event: u64,
    act: Act<'_>,
    is_told: bool,
) -> Result<(), AllocError>
    requires { length nodes.old ≤ 9 }
    ensures plays { Plays key.now (told_act is_told event (act_of key.now act.entry))
        (simulation_of nodes.old journal.old) (simulation_of nodes.new journal.new) result }
    ensures len { length nodes.new ≡ length nodes.old }
{
    match act {
        Act::Client {
            node,
            client,
            moment,
            line,
        } => turn(
            nodes,
            journal,
            event,
            node,
            is_told,
            Event::Client {
                client,
                moment,
                line,
            },
        ),
        Act::Deliver { node, k } => deliver(nodes, journal, event, node, k, is_told),
        Act::Tick { node } => turn(nodes, journal, event, node, is_told, Event::Tick),
        Act::Noise { node, from, bytes } => {
            disturb(nodes, journal, key, event, node, from, bytes, is_told)
        }
    }
}

/// Returns the node that a stop inside `act` restarts, or None.
fn target_of(journal: &Journal, act: Act<'_>) -> Option<u64>
    ensures { (key : List ℕ) (world : World) → journal.now.sent ≡ map (letter_of key) world.sent
        → result ≡ node_of (act_of key act.entry) world }
{
    match act {
        Act::Client { node, .. } => Some(node),
        Act::Tick { node } => Some(node),
        Act::Noise { node, .. } => Some(node),
        Act::Deliver { node, k } => journal.datagram(k).map(|_| node),
    }
}

/// Restarts `node`, if there is such a node and it has its store.
fn reopen_at(nodes: &mut [Node<'_, MemStore>], journal: &Journal, node: u64)
    ensures restarts { (config : Config) (key : List ℕ) (world : World)
        → IsRun config key world (simulation_of nodes.old journal.now)
        → IsRun config key (world_after_restart (Some node) world) (simulation_of nodes.new journal.now) }
    ensures len { length nodes.new ≡ length nodes.old }
{
    if journal.used_boot(node).is_some() {
        return;
    }
    if let Some(index) = index_of(nodes.len(), node) {
        reopen(&mut nodes[index]);
    }
}

/// Restarts `node`, if it is not None.
fn reopen_if(nodes: &mut [Node<'_, MemStore>], journal: &Journal, node: Option<u64>)
    ensures restarts { (config : Config) (key : List ℕ) (world : World)
        → IsRun config key world (simulation_of nodes.old journal.now)
        → IsRun config key (world_after_restart node world) (simulation_of nodes.new journal.now) }
    ensures len { length nodes.new ≡ length nodes.old }
{
    if let Some(node) = node {
        reopen_at(nodes, journal, node);
    }
}

/// Stops a node inside an act.
fn cut(
    nodes: &mut [Node<'_, MemStore>],
    journal: &mut Journal,
    key: &ClusterKey,
    event: u64,
    kept: bool,
    act: Act<'_>,
) -> Result<(), AllocError>
    requires { length nodes.old ≤ 9 }
    ensures plays { Plays key.now
        (world_by_event event (Cut kept (act_of key.now act.entry)))
        (simulation_of nodes.old journal.old) (simulation_of nodes.new journal.new) result }
    ensures len { length nodes.new ≡ length nodes.old }
{
    let target = target_of(journal, act);
    if kept {
        perform(nodes, journal, key, event, act, false)?;
        reopen_if(nodes, journal, target);
        Ok(())
    } else {
        reopen_if(nodes, journal, target);
        Ok(())
    }
}

/// Performs the event `event`, which has the number `number`.
pub(crate) fn happen<'b>(
    nodes: &mut [Node<'b, MemStore>],
    journal: &mut Journal,
    shared: &Shared<'b>,
    number: u64,
    event: WorldEvent<'_>,
) -> Result<(), AllocError>
    requires { length nodes.old ≤ 9 }
    ensures plays { let config : Config = record { book = shared.now.book.now; limits = shared.now.settings } in
        PlaysAt config shared.now.key.now (world_by_event number (event_of shared.now.key.now event.entry) config)
        (simulation_of nodes.old journal.old) (simulation_of nodes.new journal.new) result }
    ensures len { length nodes.new ≡ length nodes.old }
{
    match event {
        WorldEvent::Happens(act) => perform(nodes, journal, shared.key, number, act, true),
        WorldEvent::Cut { kept, act } => cut(nodes, journal, shared.key, number, kept, act),
        WorldEvent::Restart { node } => {
            reopen_at(nodes, journal, node);
            Ok(())
        }
        WorldEvent::Lost { node } => lose(nodes, journal, shared.alloc, node),
        WorldEvent::Anew { node, boot, floors } => renew(
            nodes, journal, shared, node, boot, floors,
        ),
    }
}
