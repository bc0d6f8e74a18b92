ghost use Rattle.std.specs.Prelude.{◌≡◌};
ghost use Rattle.oathtool_core.specs.declared.fault.Fault.TheVariants.{BadKey};

use program_edge::{OutsideFault, ProgramFault, USAGE};
use secret_text::SecretFault;
use thiserror::Error;

/// A fault that ends a run. Its text lacks the program's name.
#[derive(Clone, Copy, Debug, PartialEq, Eq, Error)]
pub enum Fault {
    /// `--start-time` or `--now` is not a valid time.
    #[error("a time is @SECONDS or 'YYYY-MM-DD hh:mm:ss UTC', from 1970 on and below 2^40 seconds")]
    BadTime,
    /// The step size is out of range.
    #[error("a time step size is 1 to 1000000 seconds, with or without a final 's'")]
    BadStepSize,
    /// KEY is not a valid secret.
    #[error("bad key: {0}")]
    BadKey(SecretFault),
    /// The clock is missing or out of range.
    #[error("no clock")]
    NoClock,
    /// The time is before the start of the time steps.
    #[error("the time is before the start time")]
    BeforeStart,
    /// A factor would be above 2^62 - 1.
    #[error("a counter or time step is above 4611686018427387903")]
    FactorTooLarge,
    /// OTP is none of the codes.
    #[error("no match")]
    NoMatch,
    /// The allocator refused the memory.
    #[error("out of memory")]
    Memory,
    /// Standard output failed.
    #[error("cannot write")]
    CannotWrite,
    /// A word of the process is not UTF-8.
    #[error("a word is not text")]
    NotText,
}

impl ProgramFault for Fault {
    ghost use Rattle.oathtool_core.specs.Fault.{status_of};

    ghost status_of = { status_of };

    fn status(self) -> u8 {
        match self {
            Fault::BadTime
            | Fault::BadStepSize
            | Fault::BeforeStart
            | Fault::FactorTooLarge
            | Fault::NotText => USAGE,
            Fault::BadKey(_)
            | Fault::NoClock
            | Fault::NoMatch
            | Fault::Memory
            | Fault::CannotWrite => 1,
        }
    }
}

impl From<OutsideFault> for Fault {
    ghost use Rattle.oathtool_core.specs.Fault.{outside_fault_of};

    ghost from_gives = { λ outside fault. fault ≡ outside_fault_of outside };

    fn from(fault: OutsideFault) -> Self {
        match fault {
            OutsideFault::Memory => Fault::Memory,
            OutsideFault::CannotWrite => Fault::CannotWrite,
            OutsideFault::NotText => Fault::NotText,
        }
    }
}

impl From<SecretFault> for Fault {
    ghost from_gives = { λ key fault. fault ≡ BadKey key };

    fn from(fault: SecretFault) -> Self {
        Fault::BadKey(fault)
    }
}
