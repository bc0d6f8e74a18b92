//! The system's clock.

ghost use Rattle.std.specs.Prelude.{◌≡◌, IfSome};
ghost use Rattle.otp_core.specs.Range.{IsMoment};

use datagram_port::Clock;
use otp_core::MOMENTS_END;
use std::io::{self, ErrorKind};
use std::time::{Clock as TimeSource, Duration, SystemTime, UNIX_EPOCH};

/// The system's clock, which tells whole seconds. It keeps no record.
///
/// It fails if the system has no clock. It also fails if the clock is set before 1970-01-01 00:00:00 UTC, or 2^40
/// seconds or more after it.
#[derive(Drop)]
pub struct SystemClock<'a, R: TimeSource> {
    source: &'a R,
}

impl<'a, R: TimeSource> SystemClock<'a, R> {
    /// Returns the clock of `source`.
    pub fn new(source: &'a R) -> Self
        ensures { result.source ≡ source.entry }
    {
        SystemClock { source }
    }

    /// Returns the current time, or None if the clock fails.
    fn now(&self) -> Option<u64>
        ensures { IfSome result IsMoment }
    {
        let now = SystemTime::now(self.source).ok()?;
        let seconds = now.duration_since(UNIX_EPOCH).ok()?.as_secs();
        if seconds >= MOMENTS_END {
            return None;
        }
        Some(seconds)
    }
}

impl<R: TimeSource> Clock for SystemClock<'_, R> {
    fn moment(&mut self) -> Option<u64> {
        self.now()
    }
}

/// A clock that always fails. For a port over it, time passes only when a wait of its socket ends.
#[derive(Clone, Copy)]
pub struct NoClock;

impl TimeSource for NoClock {
    fn monotonic(&self) -> io::Result<Duration> {
        Err(ErrorKind::Unsupported.into())
    }

    fn since_1970(&self) -> io::Result<Duration> {
        Err(ErrorKind::Unsupported.into())
    }
}
