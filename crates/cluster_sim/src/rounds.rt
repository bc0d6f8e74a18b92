//! Rounds: each line arrives alone, and the live members answer it before the next line arrives.

ghost use Rattle.std.specs.Prelude.{[], ◌≡◌, ◌≤◌, ◌∷◌, ◌&&◌, ℕ, List, IfOk, Some, length, map, slice_get};
ghost use Rattle.std.specs.Global.{Vec};
ghost use Rattle.cluster_sim.specs.Journal.{simulation_of};
ghost use Rattle.cluster_sim.specs.Run.{act_of, event_of, run_of, round_line, round_lines};
ghost use Rattle.cluster_sim.specs.RoundRun.{PlaysEvents, deliveries_from, delivery_of};
ghost use Rattle.cluster_sim.specs.Rounds.{AreAtLive, AreServable, AreServed, EndInSweep, HaveNumbers, events_with_rounds, is_live, round_events, rounds_events};
ghost use Rattle.cluster_sim.specs.World.{Happens, report_of, world_of};

use crate::fault::SimFault;
use crate::journal::{Datagram, Journal};
use crate::laws::{rounds_are_the_reference, sweep_levels};
use crate::report::Report;
use crate::run::{events_are_in_range, floors_are_in_range, open_nodes, play, report_of_journal};
use crate::script::{Act, WorldEvent};
use crate::simulation::{Shared, perform};
use floor_store::MemStore;
use oath_node::{Node, rulings_have_grounds};
use otp_core::{Next, Settings};
use std::alloc::Global;
use std::fmt;
use token_file::Book;
use vote_wire::ClusterKey;

/// A client's line at a node, with its moment in seconds since 1970-01-01 00:00:00 UTC. Nodes have numbers from 1 on.
#[derive(Clone, Copy)]
pub struct RoundLine<'a> {
    pub node: u64,
    pub client: u64,
    pub moment: u64,
    pub line: &'a [u8],
}

/// Shows no byte of the line, because it may have codes and a password.
impl<'a> fmt::Debug for RoundLine<'a> {
    fn fmt<W: fmt::Write>(&self, f: &mut fmt::Formatter<W>) -> fmt::Result {
        f.debug_struct("RoundLine")
            .field("node", &self.node)
            .field("client", &self.client)
            .field("moment", &self.moment)
            .finish_non_exhaustive()
    }
}

/// Returns whether `node` is in `live`.
fn is_among(live: &[u8], node: u8) -> bool
    ensures { result ≡ is_live live.now node }
{
    for member in live {
        if *member == node {
            return true;
        }
    }
    false
}

/// Returns whether a datagram goes from a live member to a live member.
fn is_between_live(live: &[u8], datagram: &Datagram) -> bool
    ensures { result ≡ (is_live live.now datagram.now.sender && is_live live.now datagram.now.receiver) }
{
    is_among(live, datagram.from) && is_among(live, datagram.to)
}

/// Performs one act. Returns the number of the next event.
fn play_one(
    nodes: &mut [Node<'_, MemStore>],
    journal: &mut Journal,
    key: &ClusterKey,
    number: u64,
    act: Act<'_>,
) -> Result<u64, SimFault>
    requires { length nodes.old ≤ 9 }
    ensures plays { PlaysEvents key.now number (λ config world. Happens (act_of key.now act.entry) ∷ [])
        (simulation_of nodes.old journal.old) (simulation_of nodes.new journal.new) result }
    ensures len { length nodes.new ≡ length nodes.old }
{
    // No run has 2^64 events.
    let Some(next) = number.checked_add(1) else {
        return Err(SimFault::Memory);
    };
    perform(nodes, journal, key, number, act, true)?;
    Ok(next)
}

/// Delivers the datagram number `k`, if it goes from a live member to a live member. Returns the number of the next
/// event.
fn hand_on_one(
    nodes: &mut [Node<'_, MemStore>],
    journal: &mut Journal,
    key: &ClusterKey,
    live: &[u8],
    k: u64,
    number: u64,
) -> Result<u64, SimFault>
    requires { length nodes.old ≤ 9 }
    ensures plays { PlaysEvents key.now number (λ config world. delivery_of live.now k world)
        (simulation_of nodes.old journal.old) (simulation_of nodes.new journal.new) result }
    ensures len { length nodes.new ≡ length nodes.old }
{
    let Some(datagram) = journal.datagram(k) else {
        return Ok(number);
    };
    if !is_between_live(live, datagram) {
        return Ok(number);
    }
    let node = u64::from(datagram.to);
    play_one(nodes, journal, key, number, Act::Deliver { node, k })
}

/// Delivers the datagrams from number `first` on that were sent before this call, if they go between live members.
/// Returns the number of the next event.
fn hand_on(
    nodes: &mut [Node<'_, MemStore>],
    journal: &mut Journal,
    key: &ClusterKey,
    live: &[u8],
    first: u64,
    number: u64,
) -> Result<u64, SimFault>
    requires { length nodes.old ≤ 9 }
    ensures plays { PlaysEvents key.now number (λ config world. deliveries_from live.now first world)
        (simulation_of nodes.old journal.old) (simulation_of nodes.new journal.new) result }
    ensures len { length nodes.new ≡ length nodes.old }
{
    let mut next = number;
    for k in first..journal.sent_count() {
        next = hand_on_one(nodes, journal, key, live, k, next)?;
    }
    Ok(next)
}

/// Plays a round: the line, its datagrams between live members, and their datagrams between live members. Returns the
/// number of the next event.
fn play_round(
    nodes: &mut [Node<'_, MemStore>],
    journal: &mut Journal,
    key: &ClusterKey,
    live: &[u8],
    number: u64,
    line: RoundLine<'_>,
) -> Result<u64, SimFault>
    requires { length nodes.old ≤ 9 }
    ensures plays { PlaysEvents key.now number
        (λ config world. round_events config live.now number world (round_line line.entry))
        (simulation_of nodes.old journal.old) (simulation_of nodes.new journal.new) result }
    ensures len { length nodes.new ≡ length nodes.old }
{
    let RoundLine {
        node,
        client,
        moment,
        line,
    } = line;
    let act = Act::Client {
        node,
        client,
        moment,
        line,
    };
    let first = journal.sent_count();
    let asked = play_one(nodes, journal, key, number, act)?;
    let second = journal.sent_count();
    let answered = hand_on(nodes, journal, key, live, first, asked)?;
    hand_on(nodes, journal, key, live, second, answered)
}

/// Plays a round for each line, in order. Returns the number of the next event.
fn play_rounds(
    nodes: &mut [Node<'_, MemStore>],
    journal: &mut Journal,
    key: &ClusterKey,
    live: &[u8],
    number: u64,
    lines: &[RoundLine<'_>],
) -> Result<u64, SimFault>
    requires { length nodes.old ≤ 9 }
    ensures plays { PlaysEvents key.now number
        (λ config world. rounds_events config live.now number world (round_lines lines.now))
        (simulation_of nodes.old journal.old) (simulation_of nodes.new journal.new) result }
    ensures len { length nodes.new ≡ length nodes.old }
{
    let mut next = number;
    for line in lines {
        next = play_round(nodes, journal, key, live, next, *line)?;
    }
    Ok(next)
}

/// Runs a script and the rounds: opens the nodes, performs the events, plays the rounds, and returns the report.
fn run_script_and_rounds(
    alloc: Global,
    book: &Book,
    settings: Settings,
    key: &ClusterKey,
    floors: &[Vec<Next>],
    before: &[WorldEvent<'_>],
    live: &[u8],
    lines: &[RoundLine<'_>],
) -> Result<Report, SimFault>
    requires last { length floors.now ≤ 9 }
    requires each { (k : ℕ) (list : Vec ℕ) → slice_get floors.now k ≡ Some list
        → length list.items ≡ length book.now }
    ensures { let run = run_of book.now settings key.now floors.now before.now in
        let all = events_with_rounds run.config run.start run.events live.now (round_lines lines.now) in
        IfOk result (λ report. report ≡ report_of run.config run.start all) }
{
    // For the proof: there are at most 10,000 tokens.
    let _tokens = book.len();
    rulings_have_grounds();
    floors_are_in_range(floors);
    events_are_in_range(before);
    let mut nodes = open_nodes(alloc, book, settings, key, floors)?;
    let mut journal = Journal::new(alloc);
    let shared = Shared {
        alloc,
        book,
        settings,
        key,
    };
    let cluster: &mut [Node<'_, MemStore>] = &mut nodes;
    play(cluster, &mut journal, &shared, before)?;
    let _next = play_rounds(cluster, &mut journal, key, live, before.len() as u64, lines)?;
    Ok(report_of_journal(journal))
}

/// Runs a script in the way in which [`run_world`](crate::run_world) does, and plays a round for each line.
///
/// In a round the line arrives at its node. Each datagram from a live member to a live member arrives too, in the order
/// of sending, until all have arrived. All other datagrams of the round are lost. Returns the report of all events.
///
/// # Errors
/// Returns `Memory` if the allocator refuses the memory. There is no report.
pub fn run_rounds(
    alloc: Global,
    book: &Book,
    settings: Settings,
    key: &ClusterKey,
    floors: &[Vec<Next>],
    before: &[WorldEvent<'_>],
    live: &[u8],
    lines: &[RoundLine<'_>],
) -> Result<Report, SimFault>
    requires first { 1 ≤ length floors.now }
    requires last { length floors.now ≤ 9 }
    requires each { (k : ℕ) (list : Vec ℕ) → slice_get floors.now k ≡ Some list
        → length list.items ≡ length book.now }

    // The report is exactly the report of the earlier events followed by a round for each line.
    ensures report { let run = run_of book.now settings key.now floors.now before.now in
        let all = events_with_rounds run.config run.start run.events live.now (round_lines lines.now) in
        IfOk result (λ report. report ≡ report_of run.config run.start all) }

    // If a strict majority is settled after the earlier events, each line is answered within its own round, as one
    // server answers it. The members are settled again.
    ensures served { let run = run_of book.now settings key.now floors.now before.now in
        let old = world_of run.config run.start run.events in
        let rounds = rounds_events run.config live.now (length run.events) old (round_lines lines.now) in
        AreServable run.config live.now old (round_lines lines.now) → IfOk result (λ report.
        AreServed run.config run.start run.events rounds live.now (round_lines lines.now) report.answers) }

    // A sweep at the end of the earlier events settles such a majority.
    ensures levelled { let run = run_of book.now settings key.now floors.now before.now in
        let old = world_of run.config run.start run.events in
        let rounds = rounds_events run.config live.now (length run.events) old (round_lines lines.now) in
        EndInSweep run.config run.start run.events live.now
        → AreAtLive live.now (round_lines lines.now) → HaveNumbers live.now old (round_lines lines.now)
        → IfOk result (λ report.
        AreServed run.config run.start run.events rounds live.now (round_lines lines.now) report.answers) }
{
    sweep_levels();
    rounds_are_the_reference();
    run_script_and_rounds(alloc, book, settings, key, floors, before, live, lines)
}
