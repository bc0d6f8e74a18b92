ghost use Rattle.std.specs.Prelude.{◌≡◌, ◌+◌, ◌<◌, ◌↔◌, IfSome, IfNone, IsNone, OnOk, IfErr};
ghost use Rattle.std.specs.Io.KnownBytes.{Appends};
ghost use Rattle.program_edge.specs.Line.{line_of};
ghost use Rattle.otp_core.specs.Range.{IsFactor};
ghost use Rattle.oathtool_core.specs.Offset.{HasNoNearest, HasNoOffset, IsLeastOffset, IsNearestOffset};

use crate::codes::{Generator, factor_after};
use crate::fault::Fault;
use itoa::{Buffer, Integer};
use otp_core::Factor;
use program_edge::write_line;
use std::io::Write;

/// Returns the least offset in the window at which the code is the OTP, or None.
pub(crate) fn find_offset_hotp(
    generator: Generator<'_>,
    first: Factor,
    window: u64,
    otp: &[u8],
) -> Option<u64>
    requires { IsFactor (first + window) }
    ensures some { IfSome result (IsLeastOffset generator.entry otp.now first window) }
    ensures none { IfNone result (HasNoOffset generator.entry otp.now first window) }
{
    let codes = generator.codes();
    for offset in 0..window + 1 {
        if generator.matches(&codes, factor_after(first, offset), otp) {
            return Some(offset);
        }
    }
    None
}

/// Returns the step at `distance` before another, or `None` if it is below 0.
fn factor_before(step: Factor, distance: u64) -> Option<Factor>
    ensures none { IsNone result ↔ (step < distance) }
    ensures value { IfSome result (λ factor. factor + distance ≡ step) }
{
    Factor::new(step.value().checked_sub(distance)?)
}

/// Returns the offset of the nearest step in the window, before or after, whose code is the OTP, or None. Of two, it is
/// the one before.
pub(crate) fn find_offset_totp(
    generator: Generator<'_>,
    step: Factor,
    window: u64,
    otp: &[u8],
) -> Option<i64>
    requires { IsFactor (step + window) }
    ensures some { IfSome result (IsNearestOffset generator.entry otp.now step window) }
    ensures none { IfNone result (HasNoNearest generator.entry otp.now step window) }
{
    let codes = generator.codes();
    for distance in 0..window + 1 {
        if let Some(before) = factor_before(step, distance) {
            if generator.matches(&codes, before, otp) {
                return Some(-(distance as i64));
            }
        }
        if generator.matches(&codes, factor_after(step, distance), otp) {
            return Some(distance as i64);
        }
    }
    None
}

/// Writes an offset in decimal and an LF.
pub(crate) fn write_offset<W: Write, I: Integer>(writer: &mut W, offset: I) -> Result<(), Fault>
    ensures written { OnOk result
        (Appends (W.contents writer.old) (W.contents writer.new) (line_of (I.text offset))) }
    ensures fault { IfErr result (λ fault. fault ≡ Fault.CannotWrite) }
{
    write_line(writer, Buffer::new().format(offset).as_bytes())?;
    Ok(())
}
