ghost use Rattle.std.specs.Prelude.{◌≡◌, ◌↔◌, IsSome, IfSome};
ghost use Rattle.otp_core.specs.Limits.{allowed_drift};
ghost use Rattle.otp_core.specs.Range.{IsDrift};

use crate::settings::Settings;
use std::marker::Model;

/// The number of time steps by which a time token's clock is ahead of the server's (RFC 6238, section 6): -10 to 10.
/// It is negative if the clock lags. The default is 0.
#[derive(Clone, Copy, Debug, PartialEq, Eq)]
pub struct Drift {
    steps: i8,
}

impl Model for Drift {
    ghost use Rattle.std.specs.Prelude.{ℤ};
    ghost use Rattle.otp_core.specs.Range.{IsDrift};

    ghost Value = { ℤ };

    ghost view = { λ drift. drift.steps };

    ghost invariant = { λ drift. IsDrift drift.steps };

    ghost inverse = { λ steps. record { steps = steps } };
}

impl Drift {
    /// Returns the drift of `steps`, or None if it is below -10 or above 10.
    pub fn new(steps: i8) -> Option<Self>
        ensures valid { IsSome result ↔ IsDrift steps }
        ensures value { IfSome result (λ drift. drift ≡ steps) }
    {
        if -10 <= steps && steps <= 10 {
            Some(Drift { steps })
        } else {
            None
        }
    }

    /// Returns the drift nearest to `steps` that `settings` allow.
    pub fn allowed(steps: i64, settings: Settings) -> Self
        ensures { result ≡ allowed_drift settings steps }
    {
        let limit = settings.drift() as i64;
        Drift {
            steps: steps.clamp(-limit, limit) as i8,
        }
    }

    /// Returns the number of steps.
    pub fn steps(self) -> i8
        ensures value { result ≡ self }
        ensures range { IsDrift result }
    {
        self.steps
    }
}

impl Default for Drift {
    ghost use Rattle.std.specs.Prelude.{pos};

    ghost is_default = { λ drift. drift ≡ pos 0 };

    /// Returns the drift of 0 steps.
    fn default() -> Self {
        Drift { steps: 0 }
    }
}
