ghost use Rattle.std.specs.Prelude.{◌≡◌, IfErr, OnOk};
ghost use Rattle.std.specs.Io.KnownBytes.{Appends};
ghost use Rattle.std.specs.List.{flat_map};
ghost use Rattle.oathd_sim.specs.ReportText.{answer_line, pass_line, report_text, sent_line};

use cluster_sim::{Report, WorldAnswer, WorldPass};
use program_edge::{OutsideFault, write_line};
use std::io::Write;

/// Writes an accepted submission.
fn write_pass<W: Write>(writer: &mut W, pass: &WorldPass) -> Result<(), OutsideFault>
    ensures written { OnOk result (Appends (W.contents writer.old) (W.contents writer.new) (pass_line pass.now)) }
    ensures fault { IfErr result (λ fault. fault ≡ OutsideFault.CannotWrite) }
{
    let WorldPass {
        began,
        ended,
        node,
        token,
        span,
    } = *pass;
    let (lo, hi) = (span.lo().value(), span.hi().value());
    write!(writer, "pass {began} {ended} {node} {token} {lo} {hi}\n").map_err(
        |_| OutsideFault::CannotWrite,
    )
}

/// Writes an answer to a client.
fn write_answer<W: Write>(writer: &mut W, answer: &WorldAnswer) -> Result<(), OutsideFault>
    ensures written { OnOk result (Appends (W.contents writer.old) (W.contents writer.new) (answer_line answer.now)) }
    ensures fault { IfErr result (λ fault. fault ≡ OutsideFault.CannotWrite) }
{
    let WorldAnswer {
        event,
        node,
        client,
        ..
    } = answer;
    write!(writer, "answer {event} {node} {client} ").map_err(|_| OutsideFault::CannotWrite)?;
    write_line(writer, &answer.bytes)
}

/// Writes the number of datagrams sent.
fn write_sent<W: Write>(writer: &mut W, count: u64) -> Result<(), OutsideFault>
    ensures written { OnOk result (Appends (W.contents writer.old) (W.contents writer.new) (sent_line count)) }
    ensures fault { IfErr result (λ fault. fault ≡ OutsideFault.CannotWrite) }
{
    write!(writer, "sent {count}\n").map_err(|_| OutsideFault::CannotWrite)
}

/// Writes accepted submissions, one on each line.
fn write_passes<W: Write>(writer: &mut W, passes: &[WorldPass]) -> Result<(), OutsideFault>
    ensures written { OnOk result (Appends (W.contents writer.old) (W.contents writer.new)
        (flat_map pass_line passes.now)) }
    ensures fault { IfErr result (λ fault. fault ≡ OutsideFault.CannotWrite) }
{
    for pass in passes {
        write_pass(writer, pass)?;
    }
    Ok(())
}

/// Writes answers to clients, one on each line.
fn write_answers<W: Write>(writer: &mut W, answers: &[WorldAnswer]) -> Result<(), OutsideFault>
    ensures written { OnOk result (Appends (W.contents writer.old) (W.contents writer.new)
        (flat_map answer_line answers.now)) }
    ensures fault { IfErr result (λ fault. fault ≡ OutsideFault.CannotWrite) }
{
    for answer in answers {
        write_answer(writer, answer)?;
    }
    Ok(())
}

/// Writes a run's passes, its answers and the number of datagrams sent, one on each line.
///
/// # Errors
/// Returns `CannotWrite` if the output fails. A prefix of the text may have been written.
pub fn write_report<W: Write>(writer: &mut W, report: &Report) -> Result<(), OutsideFault>
    ensures written { OnOk result (Appends (W.contents writer.old) (W.contents writer.new) (report_text report.now)) }
    ensures fault { IfErr result (λ fault. fault ≡ OutsideFault.CannotWrite) }
{
    write_passes(writer, report.passes())?;
    write_answers(writer, report.answers())?;
    write_sent(writer, report.sent())
}
