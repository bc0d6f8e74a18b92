ghost use Rattle.std.specs.Prelude.{◌≡◌, ◌≤◌, ◌↔◌, IsSome, IfSome};
ghost use Rattle.otp_core.specs.Code.{IsCode, decimal_digits};

use arrayvec::ArrayVec;
use std::marker::Model;

/// The maximum number of digits of a code.
const MAX_DIGITS: usize = 8;

/// The number of digits of a code.
#[derive(Clone, Copy, Debug, PartialEq, Eq, Hash)]
pub enum Digits {
    Six,
    Seven,
    Eight,
}

impl Digits {
    ghost use Rattle.otp_core.specs.Digits.{count_of};

    /// Returns the variant for `count` digits, or None if `count` is not 6, 7 or 8.
    pub fn new(count: usize) -> Option<Self>
        ensures valid { IsSome result ↔ ((6 ≤ count) × (count ≤ 8)) }
        ensures value { IfSome result (λ digits. count_of digits ≡ count) }
    {
        match count {
            6 => Some(Digits::Six),
            7 => Some(Digits::Seven),
            8 => Some(Digits::Eight),
            _ => None,
        }
    }

    /// Returns the number of digits.
    pub fn count(self) -> usize
        ensures { result ≡ count_of self }
    {
        match self {
            Digits::Six => 6,
            Digits::Seven => 7,
            Digits::Eight => 8,
        }
    }
}

/// A one-time password: 6 to 8 ASCII digits.
#[derive(Debug, Drop, PartialEq, Eq)]
pub struct Code {
    digits: ArrayVec<u8, MAX_DIGITS>,
}

impl Model for Code {
    ghost use Rattle.std.specs.Prelude.{ℕ, List};
    ghost use Rattle.otp_core.specs.Code.{IsCode};

    ghost Value = { List ℕ };

    ghost view = { λ code. code.digits.items };

    ghost invariant = { λ code. IsCode code.digits.items };

    ghost inverse = { λ text. record { digits = record { items = text } } };
}

impl Code {
    ghost use Rattle.otp_core.specs.Digits.{count_of};

    /// Returns the code with the text `text`, or None if it is not 6 to 8 ASCII digits.
    pub fn new(text: &[u8]) -> Option<Self>
        ensures valid { IsSome result ↔ IsCode text.now }
        ensures value { IfSome result (λ code. code ≡ text.now) }
    {
        if text.len() < 6 || !text.iter().all(|byte| byte.is_ascii_digit()) {
            return None;
        }
        let digits = ArrayVec::try_from(text).ok()?;
        Some(Code { digits })
    }

    /// Returns the last `digits` digits of `number`, padded with zeros on the left.
    pub(crate) fn of_number(number: u32, digits: Digits) -> Self
        ensures { result ≡ decimal_digits (count_of digits) number }
    {
        let count = digits.count() as u32;
        let mut text = ArrayVec::new();
        for place in 0..count {
            let power = 10u32.pow(count - 1 - place);
            text.push(b'0' + (number / power % 10) as u8);
        }
        Code { digits: text }
    }

    /// Returns the digits, in ASCII.
    pub fn as_slice(&self) -> &[u8]
        ensures value { result.now ≡ self.now }
        ensures digits { IsCode result.now }
    {
        &self.digits
    }
}
