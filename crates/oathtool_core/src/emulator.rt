ghost use Rattle.oathtool_core.specs.Run.{EndsSo};

use crate::codes::codes_from;
use crate::fault::Fault;
use crate::offset::{find_offset_hotp, find_offset_totp, write_offset};
use crate::plan::Plan;
use crate::words::{Mode, Words};
use std::alloc::Global;
use std::io::Write;

/// Writes what the words ask for: codes, or the offset of an OTP.
///
/// Without an OTP, it writes the code of the first factor and of each further one in the window, upwards, one on each
/// line. With an OTP, it writes the offset in decimal on one line. A code based on a counter has the least offset in
/// the window. A code based on time has the offset of the nearest time step, before or after; of two, the one before.
///
/// `clock` is the current time in seconds since 1970-01-01 00:00:00 UTC, or `None` without a clock. It is used only if
/// codes are based on time and the words have no time.
///
/// # Errors
/// - Returns `BadTime` if a time is wrong, also for codes based on a counter.
/// - Returns `BadStepSize` if the step size is wrong, also for codes based on a counter.
/// - Returns `BadKey` if the key is wrong.
/// - Returns `NoClock` if the clock is used, and is missing or is 2^40 or above.
/// - Returns `BeforeStart` if the time is before the start.
/// - Returns `FactorTooLarge` if the window's last factor is above 2^62 - 1.
/// - Returns `NoMatch` if the OTP is none of the codes.
/// - Returns `CannotWrite` if the output fails. It keeps what was written.
///
/// The first of these errors is returned. Only `CannotWrite` can follow a write. `Memory` may replace any of them.
pub fn run<W: Write>(
    alloc: Global,
    words: &Words<'_>,
    clock: Option<u64>,
    writer: &mut W,
) -> Result<(), Fault>
    ensures ends { EndsSo words.now clock result (W.contents writer.old) (W.contents writer.new) }
{
    let plan = Plan::new(alloc, words, clock)?;
    let generator = plan.generator(words);
    let Some(otp) = words.otp else {
        return codes_from(generator, plan.first, words.window, writer);
    };
    match words.mode {
        Mode::Hotp => {
            match find_offset_hotp(generator, plan.first, words.window, otp.as_bytes()) {
                Some(offset) => write_offset(writer, offset),
                None => Err(Fault::NoMatch),
            }
        }
        Mode::Totp(_) => {
            match find_offset_totp(generator, plan.first, words.window, otp.as_bytes()) {
                Some(offset) => write_offset(writer, offset),
                None => Err(Fault::NoMatch),
            }
        }
    }
}
