ghost use Rattle.std.specs.Prelude.{◌≡◌, ◌≤◌, ◌==◌, IfErr, IfOk, Ok};
ghost use Rattle.oathd_sim.specs.Event.{empty_script, script_value};
ghost use Rattle.oathd_sim.specs.Reading.{IsRefused, Takes};
ghost use Rattle.oathd_sim.specs.Script.{script_of, with_line};

use crate::line::{is_remark, read_event};
use crate::rounds::{MAX_NODES, read_live, read_round};
use crate::script_fault::{LineFault, ScriptFault};
use arrayvec::ArrayVec;
use bumpalo::Bump;
use cluster_sim::{RoundLine, WorldEvent};
use std::alloc::Global;

/// The content of a script.
#[derive(Drop)]
pub struct Script<'a> {
    /// The events, in order.
    pub events: Vec<WorldEvent<'a>>,
    /// The live members after the events: a strict majority, in ascending order. Empty if no line names them.
    pub live: ArrayVec<u8, MAX_NODES>,
    /// The clients' lines at live members, each in a round of its own.
    pub rounds: Vec<RoundLine<'a>>,
}

impl<'a> Script<'a> {
    /// Returns an empty script.
    fn new(alloc: Global) -> Self
        ensures { script_value result ≡ empty_script }
    {
        Script {
            events: Vec::new(alloc),
            live: ArrayVec::new(),
            rounds: Vec::new(alloc),
        }
    }

    /// Adds a line to a script of `nodes` nodes. After an error the content is unspecified.
    fn take_line(&mut self, arena: &'a Bump, nodes: u8, line: &'a [u8]) -> Result<(), LineFault>
        requires { nodes ≤ 9 }
        ensures { Takes (with_line nodes (script_value self.old) line.now) (script_value self.new) result }
    {
        if is_remark(line) {
            return Ok(());
        }
        if !self.live.is_empty() {
            let round = read_round(&self.live, line).ok_or(LineFault::Form)?;
            self.rounds.push(round)?;
        } else if let Some(live) = read_live(nodes, line) {
            self.live = live;
        } else {
            let event = read_event(arena, line)?;
            self.events.push(event)?;
        }
        Ok(())
    }
}

/// Returns whether a byte ends a line.
fn is_line_end(byte: &u8) -> bool
    ensures { result ≡ (byte.now == 10) }
{
    *byte == b'\n'
}

/// Reads a script for a cluster of `nodes` nodes, at most 9: its events, its live members and its rounds.
///
/// Each is on a line of its own; live members and rounds are optional. Empty lines and lines that begin with `#` are
/// remarks. The result borrows the text. The bytes of noises and the floors (first free factors) are allocated in the
/// arena. Time and memory are proportional to the text.
///
/// # Errors
/// - Returns `Line` with the number, from 1, of the first line that is not in the grammar or out of its place.
/// - Returns `Memory` if the allocator refuses the memory.
pub fn read_script<'a>(
    alloc: Global,
    arena: &'a Bump,
    nodes: u8,
    text: &'a [u8],
) -> Result<Script<'a>, ScriptFault>
    requires { nodes ≤ 9 }
    ensures script { IfOk result (λ script. script_of nodes text.now ≡ Ok (script_value script)) }
    ensures fault { IfErr result (IsRefused (script_of nodes text.now)) }
{
    let mut script = Script::new(alloc);
    let mut number: u64 = 0;
    for line in text.split(is_line_end) {
        number += 1;
        match script.take_line(arena, nodes, line) {
            Ok(()) => {}
            Err(LineFault::Form) => return Err(ScriptFault::Line(number)),
            Err(LineFault::Memory) => return Err(ScriptFault::Memory),
        }
    }
    Ok(script)
}
