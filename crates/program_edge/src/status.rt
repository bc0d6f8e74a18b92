ghost use Rattle.std.specs.Prelude.{◌≡◌, IfErr, IfOk, OnOk};

use std::fmt::Display;
use std::io::Write;

/// The exit status for words that ask for nothing, and for values out of their ranges.
pub const USAGE: u8 = 2;

/// A fault that ends a run of a program. Its text lacks the program's name.
pub trait ProgramFault: Copy + Display {
    ghost use Rattle.std.specs.Prelude.{ℕ};

    ghost status_of: { Self → ℕ };

    /// Returns the exit status of a run that ends with the fault.
    fn status(self) -> u8
        ensures { result ≡ status_of self };
}

/// Returns the exit status for the end of a run. Writes a fault's text to `errors`, after the program's name.
///
/// A failure of that write changes nothing.
pub fn exit_status<W: Write, F: ProgramFault>(
    errors: &mut W,
    program: &str,
    end: Result<u8, F>,
) -> u8
    ensures ended { IfOk end (λ status. result ≡ status) }
    ensures fault { IfErr end (λ fault. result ≡ F.status_of fault) }
    ensures silent { OnOk end (errors.new ≡ errors.old) }
{
    match end {
        Ok(status) => status,
        Err(fault) => {
            let _ = write!(errors, "{program}: {fault}\n");
            fault.status()
        }
    }
}
