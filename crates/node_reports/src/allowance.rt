//! The time that the requests of readers may take.

ghost use Rattle.std.specs.Prelude.{◌≡◌};
ghost use Rattle.node_reports.specs.Allowance as spec;
ghost use Rattle.node_reports.specs.Allowance.{full, paid, refilled};

use otp_core::MOMENTS_END;
use std::time::Clock as TimeSource;

/// The time that readers may have used, in microseconds.
const MAX_MICROS: u64 = 1_000_000;

/// The time in which one microsecond is given back, in microseconds. So readers may use 2 per cent of it.
const SPAN_MICROS: u64 = 50;

/// What a request takes if the clock doesn't tell its time, in microseconds.
const UNTIMED_MICROS: u64 = 1_000;

/// The time that the requests of readers may take: a second at first. They get 2 per cent of the time that passes back.
///
/// Moments are microseconds since the start of a monotonic clock. No time passes while the clock fails.
#[derive(Clone, Copy, Debug, PartialEq, Eq)]
pub struct Allowance {
    /// The time that readers used and that was not given back, in microseconds. It may exceed a second by one request.
    used: u64,
    /// The spans since the start of the clock for which time was given back, or None if the clock told no moment.
    spans: Option<u64>,
}

/// Returns the current moment of a monotonic clock, in microseconds since its start, or None if it fails.
pub(crate) fn micros_of<N: TimeSource>(clock: &N) -> Option<u64> {
    let now = clock.monotonic().ok()?;
    if now.as_secs() >= MOMENTS_END {
        return None;
    }
    Some(now.as_secs() * 1_000_000 + u64::from(now.subsec_micros()))
}

/// Returns the time of a request that began and ended at moments of the clock.
fn cost(began: Option<u64>, ended: Option<u64>) -> u64
    ensures { result ≡ spec.cost began ended }
{
    match (began, ended) {
        (Some(began), Some(ended)) => ended.saturating_sub(began),
        _ => UNTIMED_MICROS,
    }
}

impl Allowance {
    /// Returns the allowance of readers that used nothing.
    pub fn full() -> Self
        ensures { result ≡ full }
    {
        Allowance {
            used: 0,
            spans: None,
        }
    }

    /// Returns whether nothing is left.
    pub fn is_empty(&self) -> bool
        ensures { result ≡ spec.is_empty self.now }
    {
        self.used >= MAX_MICROS
    }

    /// Returns the allowance at a moment, which is None if the clock fails. Each span gives back one microsecond.
    pub fn refilled(&self, moment: Option<u64>) -> Self
        ensures { result ≡ refilled moment self.now }
    {
        let Some(moment) = moment else {
            return *self;
        };
        let spans = moment / SPAN_MICROS;
        match self.spans {
            Some(last) => Allowance {
                used: self.used.saturating_sub(spans.saturating_sub(last)),
                spans: Some(last.max(spans)),
            },
            None => Allowance {
                used: self.used,
                spans: Some(spans),
            },
        }
    }

    /// Returns the allowance after a request that began and ended at moments of the clock.
    pub fn paid(&self, began: Option<u64>, ended: Option<u64>) -> Self
        ensures { result ≡ paid began ended self.now }
    {
        let refilled = self.refilled(began);
        Allowance {
            used: refilled.used.saturating_add(cost(began, ended)),
            spans: refilled.spans,
        }
    }
}
