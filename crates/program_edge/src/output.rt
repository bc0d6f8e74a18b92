ghost use Rattle.std.specs.Prelude.{◌≡◌, ◌⊎◌, IfErr, IsOk, OnOk};
ghost use Rattle.std.specs.Io.KnownBytes.{Appends, Keeps};
ghost use Rattle.program_edge.specs.Line.{line_of};

use crate::fault::OutsideFault;
use std::io::Write;

/// Writes a text and an LF.
///
/// # Errors
/// Returns `CannotWrite` if the output fails.
pub fn write_line<W: Write>(writer: &mut W, text: &[u8]) -> Result<(), OutsideFault>
    ensures written { OnOk result (Appends (W.contents writer.old) (W.contents writer.new) (line_of text.now)) }
    ensures fault { IfErr result (λ fault. fault ≡ OutsideFault.CannotWrite) }
{
    writer
        .write_all(text)
        .map_err(|_| OutsideFault::CannotWrite)?;
    writer
        .write_all(b"\n")
        .map_err(|_| OutsideFault::CannotWrite)
}

/// Flushes a buffering writer at the end of a run. Returns the run's own end, or `CannotWrite` if the writer fails.
pub fn flushed<W: Write, F: From<OutsideFault> + Drop>(
    writer: &mut W,
    end: Result<(), F>,
) -> Result<(), F>
    ensures bytes { Keeps (W.contents writer.old) (W.contents writer.new) }
    ensures ok { OnOk result (IsOk end) }
    ensures fault { IfErr result (λ fault. (end ≡ Err fault) ⊎ F.from_gives OutsideFault.CannotWrite fault) }
{
    match writer.flush() {
        Ok(()) => end,
        Err(_) => Err(F::from(OutsideFault::CannotWrite)),
    }
}
