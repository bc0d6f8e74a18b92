//! The times of quiet turns.

ghost use Rattle.std.specs.Prelude.{◌≡◌, ◌<◌, ◌^◌, IfSome};
ghost use Rattle.udp_port.specs.Pace.{due_after, due_after_quiet, due_after_start, is_due};

use otp_core::MOMENTS_END;
use std::time::Clock as TimeSource;

/// The time from one quiet turn to the next, in milliseconds.
pub const QUIET_MILLIS: u64 = 200;

/// The due time of the next quiet turn, in milliseconds since the start of a clock, after the clock told a moment.
#[derive(Clone, Copy, Default)]
pub(crate) struct Pace {
    due: Option<u64>,
}

/// Returns the current moment of a monotonic clock, in milliseconds since its start, or None if it fails.
pub(crate) fn millis_of<R: TimeSource>(clock: &R) -> Option<u64>
    ensures { IfSome result (λ moment. moment < 2 ^ 63) }
{
    let now = clock.monotonic().ok()?;
    if now.as_secs() >= MOMENTS_END {
        return None;
    }
    Some(now.as_secs() * 1000 + u64::from(now.subsec_millis()))
}

/// Returns the due time of the next quiet turn after one at `moment`, which was due at `due`.
fn due_after(moment: u64, due: u64) -> u64
    requires { moment < 2 ^ 63 }
    ensures { result ≡ due_after moment due }
{
    if due <= moment && moment - due < QUIET_MILLIS {
        due + QUIET_MILLIS
    } else {
        moment + QUIET_MILLIS
    }
}

impl Pace {
    /// Begins a receive at `moment`, which is None if the clock fails. Returns whether the receive is quiet at once.
    pub(crate) fn begin(&mut self, moment: Option<u64>) -> bool
        requires { IfSome moment (λ moment. moment < 2 ^ 63) }
        ensures quiet { result ≡ is_due moment self.old.due }
        ensures due { self.new.due ≡ due_after_start moment self.old.due }
    {
        let Some(moment) = moment else { return false };
        let Some(due) = self.due else {
            self.due = Some(moment + QUIET_MILLIS);
            return false;
        };
        if moment < due {
            return false;
        }
        self.due = Some(due_after(moment, due));
        true
    }

    /// Ends a wait that was quiet at `moment`, which is None if the clock fails.
    pub(crate) fn end_wait(&mut self, moment: Option<u64>)
        requires { IfSome moment (λ moment. moment < 2 ^ 63) }
        ensures { self.new.due ≡ due_after_quiet moment self.old.due }
    {
        if let Some(moment) = moment {
            self.due = Some(match self.due {
                Some(due) => due_after(moment, due),
                None => moment + QUIET_MILLIS,
            });
        }
    }
}
