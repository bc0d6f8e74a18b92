//! The run of a script, from the opening of the nodes to the report. Floor: the first free factor of a token at a node.

ghost use Rattle.std.specs.Prelude.{[], ◌≡◌, ◌≤◌, ◌++◌, ℕ, List, IfOk, OnOk, Some, length, map, slice_get, slice_index_or};
ghost use Rattle.std.specs.Global.{Vec};
ghost use Rattle.otp_core.specs.Acceptance.{HaveSingleUse, KeepRealTimeOrder};
ghost use Rattle.otp_core.specs.Range.{IsNext};
ghost use Rattle.admit_core.specs.Throttle.{SpacesFailures};
ghost use Rattle.vote_core.specs.Safety.{HaveMajority};
ghost use Rattle.oath_node.specs.Machine.{Config};
ghost use Rattle.cluster_sim.specs.Answered.{AreAnswered, NamePasses, TellTruth};
ghost use Rattle.cluster_sim.specs.Journal.{AreSpelledAlong, IsRun, no_journal, simulation_of};
ghost use Rattle.cluster_sim.specs.Run.{HaveFloorsInRange, event_of, floor_lists, run_of};
ghost use Rattle.cluster_sim.specs.Justified.{AreJustified};
ghost use Rattle.cluster_sim.specs.Results.{results_of};
ghost use Rattle.cluster_sim.specs.Rounds.{AreRounds, AreServable, AreServed, RoundLine};
ghost use Rattle.cluster_sim.specs.SingleNode.{opening_server, reference_answers};
ghost use Rattle.cluster_sim.specs.World.{World, WorldEvent as Event, first_start, floor_at, floor_before, opening_world, report_of, world_after_events, world_of};

use crate::fault::SimFault;
use crate::journal::Journal;
use crate::laws::{
    answers_belong_to_passes, one_node_is_the_reference, rounds_are_the_reference, world_is_safe,
};
use crate::report::Report;
use crate::script::WorldEvent;
use crate::simulation::{Shared, happen};
use floor_store::MemStore;
use oath_node::{Node, rulings_have_grounds};
use otp_core::{Next, Settings};
use std::alloc::{AllocError, Global};
use token_file::Book;
use vote_core::Place;
use vote_wire::ClusterKey;

/// Proves that each floor of the list is in range, as its type says.
fn list_is_in_range(list: &[Next])
    ensures { (token : ℕ) → IsNext (slice_index_or list.now token 0) }
{
    for next in list {
        // For the proof: a floor is in range.
        let _value = next.value();
    }
}

/// Proves that each floor of each node is in range.
pub(crate) fn floors_are_in_range(floors: &[Vec<Next>])
    ensures { (node token : ℕ) → IsNext (floor_at (floor_lists floors.now) node token) }
{
    for list in floors {
        list_is_in_range(list.as_slice());
    }
}

/// Opens a node for each list of floors, in order.
pub(crate) fn open_nodes<'b>(
    alloc: Global,
    book: &'b Book,
    settings: Settings,
    key: &'b ClusterKey,
    floors: &[Vec<Next>],
) -> Result<Vec<Node<'b, MemStore>>, SimFault>
    requires last { length floors.now ≤ 9 }
    requires each { (k : ℕ) (list : Vec ℕ) → slice_get floors.now k ≡ Some list
        → length list.items ≡ length book.now }
    ensures { let config : Config = record { book = book.now; limits = settings } in
        let opening = opening_world config (first_start (floor_lists floors.now)) in
        IfOk result (λ nodes. IsRun config key.now opening (simulation_of nodes.items no_journal)) }
{
    let mut nodes = Vec::new(alloc);
    for (index, list) in floors.iter().enumerate() {
        let Some(place) = Place::new(index as u8 + 1, floors.len() as u8) else {
            unreachable!()
        };
        let node = Node::in_memory(alloc, book, settings, place, key, list.as_slice())?;
        nodes.push(node)?;
    }
    Ok(nodes)
}

/// Performs the events, in order.
pub(crate) fn play<'b>(
    nodes: &mut [Node<'b, MemStore>],
    journal: &mut Journal,
    shared: &Shared<'b>,
    events: &[WorldEvent<'_>],
) -> Result<(), AllocError>
    requires { length nodes.old ≤ 9 }
    ensures { (world : World) →
        let config : Config = record { book = shared.now.book.now; limits = shared.now.settings } in
        let key = shared.now.key.now in
        let happens = map (event_of key) events.now in
        AreSpelledAlong config happens world
        → IsRun config key world (simulation_of nodes.old journal.old)
        → OnOk result (IsRun config key (world_after_events config 0 happens world)
        (simulation_of nodes.new journal.new)) }
{
    for (number, event) in events.iter().enumerate() {
        happen(nodes, journal, shared, number as u64, *event)?;
    }
    Ok(())
}

/// Proves that each floor of a replacement store is in range.
pub(crate) fn events_are_in_range(events: &[WorldEvent<'_>])
    ensures { (key : List ℕ) → HaveFloorsInRange (map (event_of key) events.now) }
{
    for event in events {
        if let WorldEvent::Anew { floors, .. } = event {
            list_is_in_range(floors);
        }
    }
}

/// Runs a script: opens the nodes, performs the events, and returns the report.
fn run_script(
    alloc: Global,
    book: &Book,
    settings: Settings,
    key: &ClusterKey,
    floors: &[Vec<Next>],
    events: &[WorldEvent<'_>],
) -> Result<Report, SimFault>
    requires last { length floors.now ≤ 9 }
    requires each { (k : ℕ) (list : Vec ℕ) → slice_get floors.now k ≡ Some list
        → length list.items ≡ length book.now }
    ensures { let run = run_of book.now settings key.now floors.now events.now in
        IfOk result (λ report. report ≡ report_of run.config run.start run.events) }
{
    // For the proof: there are at most 10,000 tokens.
    let _tokens = book.len();
    rulings_have_grounds();
    floors_are_in_range(floors);
    events_are_in_range(events);
    let mut nodes = open_nodes(alloc, book, settings, key, floors)?;
    let mut journal = Journal::new(alloc);
    let shared = Shared {
        alloc,
        book,
        settings,
        key,
    };
    play(&mut nodes, &mut journal, &shared, events)?;
    Ok(report_of_journal(journal))
}

/// Returns the report of the journal.
pub(crate) fn report_of_journal(journal: Journal) -> Report
    ensures { result ≡ record {
      passes = journal.passes;
      answers = journal.answers;
      sent = length journal.sent;
    } }
{
    let Journal {
        sent,
        starts: _,
        passes,
        answers,
        losses: _,
        least: _,
    } = journal;
    Report::new(passes, answers, sent.len() as u64)
}

/// Runs a script, and returns its acceptances and replies.
///
/// Opens one node for each list of `floors`, each over a store in memory of its own. All nodes have the same book,
/// settings and key.
///
/// # Errors
/// Returns `Memory` if the allocator refuses the memory. There is no report.
pub fn run_world(
    alloc: Global,
    book: &Book,
    settings: Settings,
    key: &ClusterKey,
    floors: &[Vec<Next>],
    events: &[WorldEvent<'_>],
) -> Result<Report, SimFault>
    requires first { 1 ≤ length floors.now }
    requires last { length floors.now ≤ 9 }
    requires each { (k : ℕ) (list : Vec ℕ) → slice_get floors.now k ≡ Some list
        → length list.items ≡ length book.now }

    // The report is exactly the run's: the acceptances, the replies, and the number of datagrams sent.
    ensures report { let run = run_of book.now settings key.now floors.now events.now in
        IfOk result (λ report. report ≡ report_of run.config run.start run.events) }

    // No factor is used up twice. A proposal that begins after an acceptance is accepted above it.
    ensures single_use { IfOk result (λ report. HaveSingleUse report.passes) }
    ensures in_order { IfOk result (λ report. KeepRealTimeOrder report.passes) }

    // Each acceptance has a majority of nodes that gave its factors to no other.
    ensures majority { let run = run_of book.now settings key.now floors.now events.now in
        let floor = floor_before run.config run.start run.events in
        IfOk result (λ report. HaveMajority (length floors.now) floor report.passes) }

    // The client's line with which it began justifies each acceptance.
    ensures justified { let run = run_of book.now settings key.now floors.now events.now in
        IfOk result (λ report. AreJustified run.config run.start run.events report.passes) }

    // Each `OK` belongs to an acceptance, and no other answer begins like one. Each acceptance is answered, except one
    // in a stop.
    ensures told { let run = run_of book.now settings key.now floors.now events.now in
        IfOk result (λ report. NamePasses run.events report.passes report.answers) }
    ensures no_other { let run = run_of book.now settings key.now floors.now events.now in
        IfOk result (λ report. TellTruth run.events report.passes report.answers) }
    ensures answered { let run = run_of book.now settings key.now floors.now events.now in
        IfOk result (λ report. AreAnswered run.events report.answers report.passes) }

    // A single node answers as the reference server does.
    ensures single_node { let run = run_of book.now settings key.now floors.now events.now in
        let server = opening_server run.config (slice_index_or (floor_lists floors.now) 0 []) in
        length floors.now ≡ 1
        → IfOk result (λ report. report.answers ≡ reference_answers run.config 0 run.events server) }

    // If the events end in rounds among members that are settled then, each line of the rounds is answered within its
    // own round, as one server answers it. The members are settled again.
    ensures served { let run = run_of book.now settings key.now floors.now events.now in
        (before rounds : List Event) (live : List ℕ) (lines : List RoundLine) → run.events ≡ before ++ rounds
        → AreServable run.config live (world_of run.config run.start before) lines
        → AreRounds run.config live (length before) (world_of run.config run.start before) lines rounds
        → IfOk result (λ report. AreServed run.config run.start before rounds live lines report.answers) }

    // The failures of a token at a node are far apart.
    ensures spaced { let run = run_of book.now settings key.now floors.now events.now in
        (node token : ℕ) → SpacesFailures (results_of run.config run.start run.events node token) }
{
    world_is_safe();
    answers_belong_to_passes();
    one_node_is_the_reference();
    rounds_are_the_reference();
    run_script(alloc, book, settings, key, floors, events)
}
