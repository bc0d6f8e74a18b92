ghost use Rattle.std.specs.Prelude.{◌≡◌, ◌+◌, ◌↔◌, IsSome, IfSome};
ghost use Rattle.floor_store.specs.Range.{IsSpan};
ghost use Rattle.floor_store.specs.Records.{SpanRecord, span_of};
ghost use Rattle.otp_core.specs.Range.{IsFactor};

use otp_core::{Factor, Next};
use std::marker::Model;

/// The factors that a proposal uses up: one, or two consecutive ones.
#[derive(Clone, Copy, Debug, PartialEq, Eq)]
pub struct Span {
    lo: Factor,
    hi: Factor,
}

impl Model for Span {
    ghost Value = { SpanRecord };

    ghost view = { λ s. record { lo = s.lo; hi = s.hi } };

    ghost invariant = { λ s. IsSpan s.lo s.hi };

    ghost inverse = { λ v. record { lo = v.lo; hi = v.hi } };
}

impl Span {
    /// Returns the span from `lo` to `hi`, or None if they are neither one factor nor two consecutive ones.
    pub fn new(lo: Factor, hi: Factor) -> Option<Self>
        ensures valid { IsSome result ↔ IsSpan lo hi }
        ensures value { IfSome result (λ span. span ≡ span_of lo hi) }
    {
        if lo.value() <= hi.value() && hi.value() <= lo.value() + 1 {
            Some(Span { lo, hi })
        } else {
            None
        }
    }

    /// Returns the span of one factor.
    pub fn one(factor: Factor) -> Self
        ensures { result ≡ span_of factor factor }
    {
        Span {
            lo: factor,
            hi: factor,
        }
    }

    /// Returns the span of the factor `first` and the next one.
    pub fn two(first: Factor) -> Self
        requires { IsFactor (first + 1) }
        ensures { result ≡ span_of first (first + 1) }
    {
        Span {
            lo: first,
            hi: Factor::new(first.value() + 1).unwrap(),
        }
    }

    /// Returns the first factor.
    pub fn lo(self) -> Factor
        ensures value { result ≡ self.lo }
        ensures span { IsSpan self.lo self.hi }
    {
        self.lo
    }

    /// Returns the last factor, which is the first or the one after it.
    pub fn hi(self) -> Factor
        ensures value { result ≡ self.hi }
        ensures span { IsSpan self.lo self.hi }
    {
        self.hi
    }

    /// Returns the floor after the span is used up: the first free factor.
    pub fn next(self) -> Next
        ensures { result ≡ self.hi + 1 }
    {
        Next::after(self.hi)
    }
}
