ghost use Rattle.std.specs.Prelude.{◌≡◌, ◌+◌, ◌≤◌, ℕ, IfErr, IfOk, IfSome, OnOk, Some, length, map};
ghost use Rattle.std.specs.Prelude.{replicate, slice_get, take};
ghost use Rattle.std.specs.Global.{Vec};
ghost use Rattle.std.specs.Io.KnownBytes.{Appends};
ghost use Rattle.cluster_sim.specs.Run.{floor_lists};
ghost use Rattle.cluster_sim.specs.World.{first_start, report_of};
ghost use Rattle.oath_node.specs.Machine.{Config};
ghost use Rattle.otp_core.specs.Range.{IsMoment};
ghost use Rattle.oathd_sim.specs.Event.{script_value};
ghost use Rattle.oathd_sim.specs.ReportText.{report_text};
ghost use Rattle.token_file.specs.UsersFile.{import_of};
ghost use Rattle.users_input.specs.Input.{lines_between, pieces_of};
ghost use Rattle.oathd_sim.specs.Parts.{IsGivenUp};
ghost use Rattle.oathd_sim.specs.Sim.{EndsSo, IsCutSo, Reports, script_events, script_lines, sim_of};
ghost use Rattle.oathd_sim.specs.Sim.{sim_of_script, sim_read};

use crate::fault::Fault;
use crate::parts::{Parts, read_parts};
use crate::reading::read_lines;
use crate::report::write_report;
use crate::script::Script;
use bumpalo::Bump;
use cluster_sim::{Report, run_rounds, run_world};
use otp_core::{Next, Settings};
use std::alloc::Global;
use std::io::{BufRead, BufReader, Read, Write};
use token_file::Book;
use users_input::{Input, Retrying};
use vote_wire::ClusterKey;

/// Returns `count` copies of a list of floors (floor: the first free factor).
fn copies(alloc: Global, floors: &[Next], count: u8) -> Result<Vec<Vec<Next>>, Fault>
    ensures same { IfOk result (λ lists. map (λ list. list.items) lists.items ≡ replicate count floors.now) }
    ensures fault { IfErr result (λ fault. fault ≡ Fault.Memory) }
{
    let mut lists = Vec::new(alloc);
    for done in 0..count {
        lists.push(floors.to_vec(alloc)?)?;
    }
    Ok(lists)
}

/// Returns the report of a script, over nodes with these floors.
fn run_script(
    alloc: Global,
    book: &Book,
    settings: Settings,
    key: &ClusterKey,
    floors: &[Vec<Next>],
    script: &Script<'_>,
) -> Result<Report, Fault>
    requires first { 1 ≤ length floors.now }
    requires last { length floors.now ≤ 9 }
    requires each { (k : ℕ) (list : Vec ℕ) → slice_get floors.now k ≡ Some list
        → length list.items ≡ length book.now }
    ensures report { let config : Config = record { book = book.now; limits = settings } in
        let lists = floor_lists floors.now in
        let events = script_events config lists key.now (script_value script.now) in
        IfOk result (λ report. report ≡ report_of config (first_start lists) events) }
    ensures fault { IfErr result (λ fault. fault ≡ Fault.Memory) }
{
    let events = script.events.as_slice();
    let rounds = script.rounds.as_slice();
    if rounds.is_empty() {
        return Ok(run_world(alloc, book, settings, key, floors, events)?);
    }
    Ok(run_rounds(
        alloc,
        book,
        settings,
        key,
        floors,
        events,
        &script.live,
        rounds,
    )?)
}

/// Returns the report of a script, over `nodes` nodes that open with the floors of the users file.
fn report_on(
    alloc: Global,
    nodes: u8,
    settings: Settings,
    key: &ClusterKey,
    parts: &Parts,
) -> Result<Report, Fault>
    requires first { 1 ≤ nodes }
    requires last { nodes ≤ 9 }
    ensures report { (moment : ℕ) → IfOk result (λ report. sim_of_script
        (record { nodes = nodes; limits = settings; moment = moment; key = key.now })
        (import_of parts.now.book parts.now.floors.items)
        (script_lines nodes parts.now.first
        (lines_between parts.now.script.is_cut (pieces_of parts.now.script.bytes.items)))
        ≡ Reports report) }
    ensures fault { (moment : ℕ) → IfErr result (IsGivenUp (sim_of_script
        (record { nodes = nodes; limits = settings; moment = moment; key = key.now })
        (import_of parts.now.book parts.now.floors.items)
        (script_lines nodes parts.now.first
        (lines_between parts.now.script.is_cut (pieces_of parts.now.script.bytes.items))))) }
{
    let arena = Bump::new(alloc);
    let script = read_lines(
        alloc,
        &arena,
        nodes,
        parts.first,
        &parts.script.bytes,
        parts.script.is_cut,
    )?;
    let floors = copies(alloc, &parts.floors, nodes)?;
    run_script(alloc, &parts.book, settings, key, &floors, &script)
}

/// Writes a report and flushes.
fn print_report<W: Write>(writer: &mut W, report: &Report) -> Result<(), Fault>
    ensures written { OnOk result (Appends (W.contents writer.old) (W.contents writer.new) (report_text report.now)) }
    ensures fault { IfErr result (λ fault. fault ≡ Fault.CannotWrite) }
{
    write_report(writer, report).map_err(|_| Fault::CannotWrite)?;
    writer.flush().map_err(|_| Fault::CannotWrite)
}

/// Reads a users file and a script, runs the script, and writes the report.
fn simulate<B: BufRead + Drop, W: Write>(
    alloc: Global,
    nodes: u8,
    settings: Settings,
    moment: u64,
    key: &ClusterKey,
    input: Input<B>,
    writer: &mut W,
) -> Result<(), Fault>
    requires first { 1 ≤ nodes }
    requires last { nodes ≤ 9 }
    requires moment { IsMoment moment }
    ensures ends { IfSome (B.remaining input.reader) (λ text. EndsSo (sim_read
        (record { nodes = nodes; limits = settings; moment = moment; key = key.now }) 16777216 input.room text)
        result (W.contents writer.old) (W.contents writer.new)) }
    ensures cut { IfErr result (λ fault. IfSome (B.remaining input.reader) (λ text.
        IsCutSo settings moment 16777216 input.room text fault)) }
{
    let parts = read_parts(alloc, settings, moment, input)?;
    let report = report_on(alloc, nodes, settings, key, &parts)?;
    print_report(writer, &report)
}

/// Reads a users file, a line `%%` and a script, runs the script over `nodes` nodes, 1 to 9, and writes the report.
/// Flushes.
///
/// Each node opens with the floors of the users file. The script's events are run first, then a round among its live
/// members for each further line. Nothing is written unless the whole script is good. At most `limit` bytes and one
/// more are read: a line that continues past the limit is bad. The users are imported at the given moment, in seconds
/// since 1970-01-01 00:00:00 UTC, 0 to 1099511627775. The script and the report are held in memory.
///
/// # Errors
/// - Returns `Users` if the users file has a fault, or the input fails within it. Nothing is written.
/// - Returns `CannotRead` if the input fails after the users file. Nothing is written.
/// - Returns `ScriptLine` with the number, from 1 in the whole input, of the script's first bad line. Nothing is
///   written.
/// - Returns `Memory` if the allocator refuses the memory. Nothing is written.
/// - Returns `CannotWrite` if the output fails.
pub fn run_sim<R: Read, W: Write>(
    alloc: Global,
    nodes: u8,
    settings: Settings,
    moment: u64,
    key: &ClusterKey,
    limit: u32,
    reader: &mut R,
    writer: &mut W,
) -> Result<(), Fault>
    requires first { 1 ≤ nodes }
    requires last { nodes ≤ 9 }
    requires moment { IsMoment moment }
    ensures ends { IfSome (R.remaining reader.old) (λ text. EndsSo (sim_of
        (record { nodes = nodes; limits = settings; moment = moment; key = key.now }) 16777216 limit text)
        result (W.contents writer.old) (W.contents writer.new)) }
    ensures cut { IfErr result (λ fault. IfSome (R.remaining reader.old) (λ text.
        IsCutSo settings moment 16777216 limit (take (limit + 1) text) fault)) }
{
    let part = Retrying::new(reader).take(u64::from(limit) + 1);
    let Ok(held) = BufReader::new(alloc, part) else {
        return Err(Fault::Memory);
    };
    simulate(
        alloc,
        nodes,
        settings,
        moment,
        key,
        Input::new(held, limit),
        writer,
    )
}
