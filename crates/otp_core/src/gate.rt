ghost use Rattle.std.specs.Prelude.{◌≡◌, ◌+◌, ◌-◌, ◌^◌, ◌≤◌, ◌↔◌, IsTrue, IsSome, IfSome};
ghost use Rattle.otp_core.specs.Gate.{GateRecord, IsGate, clear_gate, with_failure};
ghost use Rattle.otp_core.specs.Range.{IsMoment};

use std::marker::Model;

/// The maximum number of failures that count.
const MAX_FAILS: u64 = 10_000;

/// The number of seconds for which each failure that counts closes a token.
const SECONDS_PER_FAILURE: u64 = 5;

/// The latest moment from which a gate can be open.
const LAST_UNTIL: u64 = (1 << 40) + 50_000;

/// The state that opens or closes a token at one node (RFC 4226, section 7.3).
///
/// It has the number of failures since the last acceptance, and the moment from which the token is open. Moments are
/// seconds since 1970-01-01 00:00:00 UTC.
#[derive(Clone, Copy, Debug, PartialEq, Eq)]
pub struct Gate {
    fails: u64,
    until: u64,
}

impl Model for Gate {
    ghost Value = { GateRecord };

    ghost view = { λ gate. record { fails = gate.fails; until = gate.until } };

    ghost invariant = { λ gate. IsGate gate.fails gate.until };

    ghost inverse = { λ gate. record { fails = gate.fails; until = gate.until } };
}

impl Gate {
    /// Returns the gate with these numbers, or None if more than 10,000 failures count or `until` is above
    /// 2^40 + 50,000.
    pub fn new(fails: u64, until: u64) -> Option<Self>
        ensures valid { IsSome result ↔ IsGate fails until }
        ensures value { IfSome result (λ gate. gate ≡ record { fails = fails; until = until }) }
    {
        if fails <= MAX_FAILS && until <= LAST_UNTIL {
            Some(Gate { fails, until })
        } else {
            None
        }
    }

    /// Returns the number of failures that count.
    pub fn fails(self) -> u64
        ensures value { result ≡ self.fails }
        ensures range { result ≤ 10000 }
    {
        self.fails
    }

    /// Returns the moment from which the token is open.
    pub fn until(self) -> u64
        ensures value { result ≡ self.until }
        ensures range { result ≤ 2 ^ 40 + 50000 }
    {
        self.until
    }

    /// Returns whether the token is open at `moment`.
    pub fn is_open(self, moment: u64) -> bool
        ensures { IsTrue result ↔ (self.until ≤ moment) }
    {
        self.until <= moment
    }

    /// Returns the number of seconds after `moment` until the token is open, or 0 if it is open.
    pub fn wait(self, moment: u64) -> u64
        ensures { result ≡ self.until - moment }
    {
        self.until.saturating_sub(moment)
    }

    /// Counts a failure. Closes the token from `moment` for 5 seconds for each failure that counts, so for
    /// 50,000 seconds at most.
    pub fn fail(&mut self, moment: u64)
        requires { IsMoment moment }
        ensures { self.new ≡ with_failure self.old moment }
    {
        let fails = MAX_FAILS.min(self.fails + 1);
        *self = Gate {
            fails,
            until: moment + SECONDS_PER_FAILURE * fails,
        };
    }

    /// Clears all failures, as an acceptance does.
    pub fn clear(&mut self)
        ensures { self.new ≡ clear_gate }
    {
        *self = Gate::default();
    }
}

impl Default for Gate {
    ghost is_default = { λ gate. gate ≡ clear_gate };

    fn default() -> Self {
        Gate { fails: 0, until: 0 }
    }
}
