ghost use Rattle.std.specs.Prelude.{◌≡◌, ◌+◌, ◌↔◌, IsSome, IfSome};
ghost use Rattle.otp_core.specs.Range.{IsFactor, IsNext};

use std::marker::Model;

/// The end of the factors: no token has factor 2^62. A floor of 2^62 says that no factor is left.
pub const FACTORS_END: u64 = 1 << 62;

/// A moving factor: the counter of an event token, or the step of a time token. It is at most
/// 2^62 - 1.
#[derive(Clone, Copy, Debug, PartialEq, Eq, PartialOrd, Ord, Hash)]
pub struct Factor {
    value: u64,
}

impl Model for Factor {
    ghost use Rattle.std.specs.Prelude.{ℕ};
    ghost use Rattle.otp_core.specs.Range.{IsFactor};

    ghost Value = { ℕ };

    ghost view = { λ factor. factor.value };

    ghost invariant = { λ factor. IsFactor factor.value };

    ghost inverse = { λ n. record { value = n } };
}

impl Factor {
    /// Returns the factor with the number `value`, or None if it is above 2^62 - 1.
    pub fn new(value: u64) -> Option<Self>
        ensures valid { IsSome result ↔ IsFactor value }
        ensures value { IfSome result (λ factor. factor ≡ value) }
    {
        if value < FACTORS_END {
            Some(Factor { value })
        } else {
            None
        }
    }

    /// Returns the number of the factor.
    pub fn value(self) -> u64
        ensures value { result ≡ self }
        ensures range { IsFactor result }
    {
        self.value
    }
}

/// The floor of a token: its first free factor. 2^62 means that no factor is left.
#[derive(Clone, Copy, Debug, PartialEq, Eq, PartialOrd, Ord, Hash)]
pub struct Next {
    value: u64,
}

impl Model for Next {
    ghost use Rattle.std.specs.Prelude.{ℕ};
    ghost use Rattle.otp_core.specs.Range.{IsNext};

    ghost Value = { ℕ };

    ghost view = { λ next. next.value };

    ghost invariant = { λ next. IsNext next.value };

    ghost inverse = { λ n. record { value = n } };
}

impl Next {
    /// Returns the floor with the number `value`, or None if it is above 2^62.
    pub fn new(value: u64) -> Option<Self>
        ensures valid { IsSome result ↔ IsNext value }
        ensures value { IfSome result (λ next. next ≡ value) }
    {
        if value <= FACTORS_END {
            Some(Next { value })
        } else {
            None
        }
    }

    /// Returns the floor of a token whose factors up to `last` are used up.
    pub fn after(last: Factor) -> Self
        ensures { result ≡ last + 1 }
    {
        Next {
            value: last.value + 1,
        }
    }

    /// Returns the number of the floor.
    pub fn value(self) -> u64
        ensures value { result ≡ self }
        ensures range { IsNext result }
    {
        self.value
    }
}
