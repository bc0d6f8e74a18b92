ghost use Rattle.std.specs.Prelude.{ℕ, ◌<◌, ◌≤◌, pos, ◌+ℤ◌, IfSome, IfNone};
ghost use Rattle.admit_core.specs.Window.{InCheckWindow, InResyncWindow, InWindow, IsWithinReach, IsWithinSkew, IsFactorBetween, AreEnds};
ghost use Rattle.otp_core.specs.Range.{IsMoment};
ghost use Rattle.otp_core.specs.Totp.{step_of};

use otp_core::{Drift, FACTORS_END, Factor, Next, Settings, step};
use token_file::{Kind, Token};

/// The maximum factor.
const LAST_FACTOR: u64 = FACTORS_END - 1;

/// Returns the first and the last factor that a check may take, or None if there is none.
///
/// The sources are RFC 4226, sections 7.2 and 7.4, and RFC 6238, sections 5.2 and 6.
///
/// A time token's window moves with the drift of its clock, which is first brought to the nearest drift that `settings`
/// allow. `moment` is in seconds since 1970-01-01 00:00:00 UTC.
pub fn window(
    token: &Token,
    next: Next,
    drift: Drift,
    moment: u64,
    settings: &Settings,
) -> Option<(Factor, Factor)>
    requires { IsMoment moment }
    ensures ends { IfSome result
        (λ ends. AreEnds (InCheckWindow token.now.kind settings.now next drift moment) ends.0 ends.1) }
    ensures none { IfNone result
        ((number : ℕ) → InCheckWindow token.now.kind settings.now next drift moment number → ⊥) }
{
    window_of(
        token.kind(),
        settings.look_ahead(),
        settings,
        next,
        drift,
        moment,
    )
}

/// Returns the first and the last factor that a resynchronization may take, or None if there is none.
///
/// The sources are RFC 4226, section 7.4, and RFC 6238, sections 5.2 and 6.
///
/// A time token has the window of a check.
pub fn resync_window(
    token: &Token,
    next: Next,
    drift: Drift,
    moment: u64,
    settings: &Settings,
) -> Option<(Factor, Factor)>
    requires { IsMoment moment }
    ensures ends { IfSome result
        (λ ends. AreEnds (InResyncWindow token.now.kind settings.now next drift moment) ends.0 ends.1) }
    ensures none { IfNone result
        ((number : ℕ) → InResyncWindow token.now.kind settings.now next drift moment number → ⊥) }
{
    window_of(
        token.kind(),
        settings.range(),
        settings,
        next,
        drift,
        moment,
    )
}

/// Returns the ends of a window by the kind of its token, with the reach of an event token.
fn window_of(
    kind: Kind,
    reach: u64,
    settings: &Settings,
    next: Next,
    drift: Drift,
    moment: u64,
) -> Option<(Factor, Factor)>
    requires reach { reach ≤ 1000 }
    requires moment { IsMoment moment }
    ensures ends { IfSome result
        (λ ends. AreEnds (InWindow kind reach settings.now next drift moment) ends.0 ends.1) }
    ensures none { IfNone result
        ((number : ℕ) → InWindow kind reach settings.now next drift moment number → ⊥) }
{
    match kind.period() {
        Some(period) => {
            let drift = Drift::allowed(i64::from(drift.steps()), *settings);
            steps_around(next, drift, moment, period, settings.skew())
        }
        None => reach_from(next, reach),
    }
}

/// Returns the floor (the first free factor) and the last of the next `reach` factors.
fn reach_from(next: Next, reach: u64) -> Option<(Factor, Factor)>
    requires { reach ≤ 1000 }
    ensures ends { IfSome result (λ ends. AreEnds (IsWithinReach next reach) ends.0 ends.1) }
    ensures none { IfNone result ((number : ℕ) → IsWithinReach next reach number → ⊥) }
{
    let first = next.value();
    ends(first, first + reach)
}

/// Returns the first and the last free step that is at most `skew` steps before or after the step at the token's clock.
fn steps_around(
    next: Next,
    drift: Drift,
    moment: u64,
    period: u64,
    skew: u64,
) -> Option<(Factor, Factor)>
    requires moment { IsMoment moment }
    requires period { 0 < period }
    requires skew { skew ≤ 10 }
    ensures ends { IfSome result
        (λ ends. AreEnds (IsWithinSkew next (pos (step_of moment 0 period) +ℤ drift) skew) ends.0 ends.1) }
    ensures none { IfNone result
        ((number : ℕ) → IsWithinSkew next (pos (step_of moment 0 period) +ℤ drift) skew number → ⊥) }
{
    let now = step(moment, 0, period)?.value() as i64 + i64::from(drift.steps());
    let last = now + skew as i64;
    if last < 0 {
        return None;
    }
    let first = (next.value() as i64).max(now - skew as i64);
    ends(first as u64, last as u64)
}

/// Returns the first and the last factor between two numbers, or None.
fn ends(first: u64, last: u64) -> Option<(Factor, Factor)>
    ensures ends { IfSome result (λ ends. AreEnds (IsFactorBetween first last) ends.0 ends.1) }
    ensures none { IfNone result ((number : ℕ) → IsFactorBetween first last number → ⊥) }
{
    let last = last.min(LAST_FACTOR);
    if first > last {
        return None;
    }
    Some((Factor::new(first)?, Factor::new(last)?))
}
