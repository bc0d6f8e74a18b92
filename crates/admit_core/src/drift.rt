ghost use Rattle.std.specs.Prelude.{◌≡◌};
ghost use Rattle.admit_core.specs.Drift.{kept_drift};
ghost use Rattle.otp_core.specs.Range.{IsMoment};

use otp_core::{Drift, Factor, Settings, step};
use token_file::Token;

/// Returns the drift that an acceptance keeps (RFC 6238, section 6).
///
/// It is `hi` less the time step of `moment`, brought to the nearest drift that the settings allow. An event token
/// keeps no drift. `moment` is the time at which the line was received, in seconds since 1970-01-01 00:00:00 UTC.
pub fn drift_after(token: &Token, hi: Factor, moment: u64, settings: &Settings) -> Drift
    requires { IsMoment moment }
    ensures { result ≡ kept_drift token.now.kind settings.now moment hi }
{
    let now = match token.kind().period() {
        Some(period) => step(moment, 0, period),
        None => None,
    };
    match now {
        Some(now) => Drift::allowed(hi.value() as i64 - now.value() as i64, *settings),
        None => Drift::default(),
    }
}
