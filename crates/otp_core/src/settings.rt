ghost use Rattle.std.specs.Prelude.{◌≡◌, ◌↔◌, ◌≤◌, IsSome, IfSome};
ghost use Rattle.otp_core.specs.Limits.{Limits, AreLimits, default_limits, limits_of};

use std::marker::Model;

/// The maximum number of counters above the floor that a check looks at.
const MAX_LOOK_AHEAD: u64 = 100;

/// The maximum number of time steps before and after the current one.
const MAX_SKEW: u64 = 10;

/// The maximum number of counters above the floor that a resynchronization looks at.
const MAX_RANGE: u64 = 1000;

/// The maximum drift of a token's clock, in time steps.
const MAX_DRIFT: u64 = 10;

/// The settings of a server: how far it looks for a code.
///
/// Floor: the first free factor of a token.
#[derive(Clone, Copy, Debug, PartialEq, Eq)]
pub struct Settings {
    look_ahead: u64,
    skew: u64,
    range: u64,
    drift: u64,
}

impl Model for Settings {
    ghost use Rattle.otp_core.specs.Limits.{Limits, AreLimits};

    ghost Value = { Limits };

    ghost view = { λ settings. record {
      look_ahead = settings.look_ahead;
      skew = settings.skew;
      range = settings.range;
      drift = settings.drift;
    } };

    ghost invariant = { λ settings. AreLimits (record {
      look_ahead = settings.look_ahead;
      skew = settings.skew;
      range = settings.range;
      drift = settings.drift;
    }) };

    ghost inverse = { λ limits. record {
      look_ahead = limits.look_ahead;
      skew = limits.skew;
      range = limits.range;
      drift = limits.drift;
    } };
}

impl Settings {
    /// Returns the settings with no drift, or None if the look-ahead is above 100, the skew above 10 or the
    /// range above 1,000.
    pub fn new(look_ahead: u64, skew: u64, range: u64) -> Option<Self>
        ensures valid { IsSome result ↔ AreLimits (limits_of look_ahead skew range) }
        ensures value { IfSome result (λ settings. settings ≡ limits_of look_ahead skew range) }
    {
        if look_ahead > MAX_LOOK_AHEAD || skew > MAX_SKEW || range > MAX_RANGE {
            return None;
        }
        Some(Settings {
            look_ahead,
            skew,
            range,
            drift: 0,
        })
    }

    /// Returns the settings with the drift `drift`, or None if it is above 10.
    pub fn with_drift(self, drift: u64) -> Option<Self>
        ensures valid { IsSome result ↔ (drift ≤ 10) }
        ensures value { IfSome result (λ settings. settings ≡ record self { drift = drift }) }
    {
        if drift > MAX_DRIFT {
            return None;
        }
        Some(Settings { drift, ..self })
    }

    /// Returns the number of factors above the floor that a check of an event token may take (RFC 4226,
    /// section 7.2): 0 to 100.
    pub fn look_ahead(self) -> u64
        ensures value { result ≡ self.look_ahead }
        ensures range { result ≤ 100 }
    {
        self.look_ahead
    }

    /// Returns the number of time steps before and after the current one that a time token may take (RFC 6238,
    /// section 5.2): 0 to 10.
    pub fn skew(self) -> u64
        ensures value { result ≡ self.skew }
        ensures range { result ≤ 10 }
    {
        self.skew
    }

    /// Returns the number of factors above the floor that a resynchronization of an event token may take
    /// (RFC 4226, section 7.4): 0 to 1,000.
    pub fn range(self) -> u64
        ensures value { result ≡ self.range }
        ensures range { result ≤ 1000 }
    {
        self.range
    }

    /// Returns the number of time steps by which a time token's clock may have drifted, ahead or behind (RFC 6238,
    /// section 6): 0 to 10.
    pub fn drift(self) -> u64
        ensures value { result ≡ self.drift }
        ensures range { result ≤ 10 }
    {
        self.drift
    }
}

impl Default for Settings {
    ghost is_default = { λ settings. settings ≡ default_limits };

    /// Returns the settings with a look-ahead of 10, a skew of 1, a range of 100 and no drift.
    fn default() -> Self {
        Settings {
            look_ahead: 10,
            skew: 1,
            range: 100,
            drift: 0,
        }
    }
}
