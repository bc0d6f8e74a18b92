//! The text of `audit`: the passes of a store.

ghost use Rattle.std.specs.Prelude.{◌≡◌, ◌≢◌, ◌<◌, IfErr, OnOk};
ghost use Rattle.std.specs.Io.KnownBytes.{Appends};
ghost use Rattle.sqlite.specs.Held.{state};
ghost use Rattle.sqlite.specs.State.{HasCleanDisk};
ghost use Rattle.oathd_database.specs.Fault.{IsOutputFault};
ghost use Rattle.oathd_database.specs.Tables.{KeepsTables, WritesAudit};
ghost use Rattle.oathd_database.specs.Text.{audit_text, pass_line};

use crate::fault::Fault;
use floor_sql::SqlStore;
use floor_store::Pass;
use sqlite::Alter;
use std::alloc::Global;
use std::io::Write;

/// Writes one pass after its number.
fn write_pass<W: Write>(writer: &mut W, number: u64, pass: Pass) -> Result<(), Fault>
    ensures written { OnOk result (Appends (W.contents writer.old) (W.contents writer.new) (pass_line number pass)) }
    ensures fault { IfErr result (λ fault. fault ≡ Fault.CannotWrite) }
{
    let (lo, hi) = (pass.span().lo().value(), pass.span().hi().value());
    let (token, boot, seq) = (pass.token(), pass.boot(), pass.seq());
    write!(writer, "pass {number} {token} {lo} {hi} {boot} {seq}\n").map_err(|_| Fault::CannotWrite)
}

/// Writes passes in order, one on each line, numbered from 1.
///
/// # Errors
/// Returns `CannotWrite` if the output fails. A prefix of the text may have been written.
pub fn write_passes<W: Write>(writer: &mut W, passes: &[Pass]) -> Result<(), Fault>
    ensures written { OnOk result (Appends (W.contents writer.old) (W.contents writer.new) (audit_text passes.now)) }
    ensures fault { IfErr result (λ fault. fault ≡ Fault.CannotWrite) }
{
    for (index, pass) in passes.iter().enumerate() {
        write_pass(writer, index as u64 + 1, *pass)?;
    }
    Ok(())
}

/// Writes the committed passes of a store in order of commit, and flushes.
///
/// Each has a line `pass NUMBER TOKEN LO HI BOOT SEQ`, with numbers from 1.
///
/// # Errors
/// - Returns `Store` if the store is broken, or breaks at this call. Nothing is written.
/// - Returns `CannotWrite` if the output fails. A prefix of the text may have been written.
pub fn write_audit<S: Alter, W: Write>(
    alloc: Global,
    store: &mut SqlStore<S>,
    writer: &mut W,
) -> Result<(), Fault>
    ensures written { HasCleanDisk (state S.Store store.new.conn)
        → OnOk result (WritesAudit S.Store store.new (W.contents writer.old) (W.contents writer.new)) }
    ensures keeps { KeepsTables S.Store store.old store.new }
    ensures fault { IfErr result (IsOutputFault store.new.fault) }
    ensures silent { IfErr result (λ fault. fault ≢ Fault.CannotWrite → writer.new ≡ writer.old) }
{
    let passes = store.passes(alloc)?;
    write_passes(writer, &passes)?;
    writer.flush().map_err(|_| Fault::CannotWrite)
}
