ghost use Rattle.std.specs.Prelude.{◌≡◌, ◌≢◌, ◌⊎◌, IfErr, IfOk};
ghost use Rattle.clap.specs.Values.{kind_of};

use clap::Error;
use clap::error::ErrorKind;
use program_edge::{OutsideFault, USAGE};
use std::io::Write;

/// Writes clap's text and returns the exit status. The help and the version go to `output`, and any other text to
/// `errors`.
///
/// A failure to write an error does not change the status.
pub fn explain<O: Write, E: Write>(
    output: &mut O,
    errors: &mut E,
    error: &Error,
) -> Result<u8, OutsideFault>
    ensures memory { kind_of error.now ≡ ErrorKind.OutOfMemory → result ≡ Err OutsideFault.Memory }
    ensures output { kind_of error.now ≢ ErrorKind.OutOfMemory
        → IfErr result (λ fault. fault ≡ OutsideFault.CannotWrite) }
    ensures help { kind_of error.now ≡ ErrorKind.DisplayHelp → IfOk result (λ status. status ≡ 0) }
    ensures version { kind_of error.now ≡ ErrorKind.DisplayVersion → IfOk result (λ status. status ≡ 0) }
    ensures usage { (kind_of error.now ≢ ErrorKind.DisplayHelp) → (kind_of error.now ≢ ErrorKind.DisplayVersion)
        → (kind_of error.now ≢ ErrorKind.OutOfMemory) → result ≡ Ok 2 }

    // Each text goes to one of the two writers.
    ensures no_error { (kind_of error.now ≡ ErrorKind.DisplayHelp) ⊎ (kind_of error.now ≡ ErrorKind.DisplayVersion)
        → errors.new ≡ errors.old }
    ensures no_output { (kind_of error.now ≢ ErrorKind.DisplayHelp) → (kind_of error.now ≢ ErrorKind.DisplayVersion)
        → output.new ≡ output.old }
{
    match error.kind() {
        ErrorKind::OutOfMemory => Err(OutsideFault::Memory),
        ErrorKind::DisplayHelp | ErrorKind::DisplayVersion => {
            match write!(output, "{error}") {
                Ok(()) => Ok(0),
                Err(_) => Err(OutsideFault::CannotWrite),
            }
        }
        _ => {
            let _ = write!(errors, "{error}");
            Ok(USAGE)
        }
    }
}
