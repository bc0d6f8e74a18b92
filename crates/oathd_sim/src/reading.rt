ghost use Rattle.std.specs.Prelude.{◌≡◌, ◌==◌, ◌≤◌, ◌+◌, ◌-◌, IfErr, IfOk, Err, Ok, count_by};
ghost use Rattle.oathd_sim.specs.Event.{script_value};
ghost use Rattle.oathd_sim.specs.Reading.{IsRefused};
ghost use Rattle.oathd_sim.specs.Sim.{script_lines};
ghost use Rattle.users_input.specs.Input.{lines_between, pieces_of};

use crate::script::{Script, read_script};
use crate::script_fault::ScriptFault;
use bumpalo::Bump;
use std::alloc::Global;

/// Returns the number of lines of a text. The last one may be empty.
fn line_count(text: &[u8]) -> u64
    ensures { result ≡ count_by (λ byte. byte == 10) text.now + 1 }
{
    text.iter().filter(|byte| **byte == b'\n').count() as u64 + 1
}

/// Returns the fault of the script's line `number`, in a script whose first line is the line `first` of the input.
fn bad_line(first: u64, number: u64) -> ScriptFault
    requires { 1 ≤ number }
    ensures { IsRefused (Err (first + (number - 1))) result }
{
    match first.checked_add(number - 1) {
        Some(number) => ScriptFault::Line(number),
        // No input has this many lines.
        None => ScriptFault::Memory,
    }
}

/// Reads a script for `nodes` nodes, whose first line is the line `first` of the input. If the last line is cut, it is
/// bad.
pub(crate) fn read_lines<'a>(
    alloc: Global,
    arena: &'a Bump,
    nodes: u8,
    first: u64,
    text: &'a [u8],
    is_cut: bool,
) -> Result<Script<'a>, ScriptFault>
    requires { nodes ≤ 9 }
    ensures script { IfOk result (λ script.
        script_lines nodes first (lines_between is_cut (pieces_of text.now)) ≡ Ok (script_value script)) }
    ensures fault { IfErr result
        (IsRefused (script_lines nodes first (lines_between is_cut (pieces_of text.now)))) }
{
    let script = match read_script(alloc, arena, nodes, text) {
        Ok(script) => script,
        Err(ScriptFault::Line(number)) => return Err(bad_line(first, number)),
        Err(ScriptFault::Memory) => return Err(ScriptFault::Memory),
    };
    if is_cut {
        return Err(bad_line(first, line_count(text)));
    }
    Ok(script)
}
