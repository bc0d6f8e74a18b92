ghost use Rattle.std.specs.Prelude.{◌≡◌, ◌+◌, IfOk, IfErr, ◌↔◌, IsTrue, option_map};
ghost use Rattle.std.specs.Result.{result_err};
ghost use Rattle.otp_core.specs.Range.{IsFactor};
ghost use Rattle.oathtool_core.specs.Key.{IsKeyOf, key_refusal};
ghost use Rattle.oathtool_core.specs.Plan.{HasTimes, IsGenerator, IsNoTimeGiven, IsReady, IsTimeGiven, IsTimesFault, Stops, first_of};

use crate::codes::Generator;
use crate::fault::Fault;
use crate::step_size::read_step_size;
use crate::time::{TimeFault, read_time};
use crate::words::{Mode, Words};
use hmac_core::Hash;
use otp_core::{Factor, MOMENTS_END, Secret, step};
use secret_text::{SecretFault, read_base32, read_hex};
use std::alloc::Global;

/// The times of the words, in seconds. `time` is None if the clock is used.
#[derive(Clone, Copy)]
pub(crate) struct Times {
    pub start: u64,
    pub time: Option<u64>,
    pub step_size: u64,
}

/// The secret and the first factor of a run.
#[derive(Drop)]
pub(crate) struct Plan {
    pub secret: Secret,
    /// The counter or the time step of the first code.
    pub first: Factor,
}

impl From<TimeFault> for Fault {
    ghost use Rattle.oathtool_core.specs.TimeFault.{fault_of};

    ghost from_gives = { λ time fault. fault ≡ fault_of time };

    fn from(fault: TimeFault) -> Self {
        match fault {
            TimeFault::Memory => Fault::Memory,
            TimeFault::BadTime => Fault::BadTime,
        }
    }
}

/// Reads an optional time.
fn read_given(alloc: Global, text: Option<&str>) -> Result<Option<u64>, TimeFault>
    ensures some { IfOk result (IsTimeGiven (option_map (λ text. text.now) text.entry)) }
    ensures bad { result ≡ Err TimeFault.BadTime → IsNoTimeGiven (option_map (λ text. text.now) text.entry) }
{
    let Some(text) = text else {
        return Ok(None);
    };
    match read_time(alloc, text.as_bytes()) {
        Ok(seconds) => Ok(Some(seconds)),
        Err(fault) => Err(fault),
    }
}

/// Reads the times and the step size.
fn read_times(alloc: Global, words: &Words<'_>) -> Result<Times, Fault>
    ensures times { IfOk result (HasTimes words.now) }
    ensures fault { IfErr result (IsTimesFault words.now) }
{
    let start = read_time(alloc, words.start.as_bytes())?;
    let time = read_given(alloc, words.time)?;
    let Some(step_size) = read_step_size(words.step_size.as_bytes()) else {
        return Err(Fault::BadStepSize);
    };
    Ok(Times {
        start,
        time,
        step_size,
    })
}

/// Reads KEY, in hexadecimal or in base32.
fn read_key(text: &[u8], is_base32: bool) -> Result<Secret, SecretFault>
    ensures fault { result_err result ≡ key_refusal is_base32 text.now }
    ensures found { IfOk result (IsKeyOf is_base32 text.now) }
{
    if is_base32 {
        read_base32(text)
    } else {
        read_hex(text)
    }
}

/// Returns the counter or the time step of the first code. `clock` is the current time, if there is a clock.
fn first_factor(words: &Words<'_>, times: &Times, clock: Option<u64>) -> Result<Factor, Fault>
    requires { HasTimes words.now times.now }
    ensures { result ≡ first_of words.now times.now clock }
{
    if words.mode == Mode::Hotp {
        return Ok(words.counter);
    }
    let moment = match (times.time, clock) {
        (Some(moment), _) => moment,
        (None, Some(moment)) if moment < MOMENTS_END => moment,
        _ => return Err(Fault::NoClock),
    };
    step(moment, times.start, times.step_size).ok_or(Fault::BeforeStart)
}

/// Returns whether all factors of the window are in range.
fn is_range(first: Factor, window: u64) -> bool
    ensures { IsTrue result ↔ IsFactor (first + window) }
{
    match first.value().checked_add(window) {
        Some(last) => Factor::new(last).is_some(),
        None => false,
    }
}

impl Plan {
    /// Reads the words, in the order of their faults.
    pub(crate) fn new(alloc: Global, words: &Words<'_>, clock: Option<u64>) -> Result<Self, Fault>
        ensures ready { IfOk result (IsReady words.now clock) }
        ensures stops { IfErr result (Stops words.now clock) }
    {
        let times = read_times(alloc, words)?;
        let secret = read_key(words.key.as_bytes(), words.is_base32)?;
        let first = first_factor(words, &times, clock)?;
        if !is_range(first, words.window) {
            return Err(Fault::FactorTooLarge);
        }
        Ok(Plan { secret, first })
    }

    /// Returns the parameters of the codes.
    pub(crate) fn generator(&self, words: &Words<'_>) -> Generator<'_>
        ensures { IsGenerator words.now self.now.secret result }
    {
        let hash = match words.mode {
            Mode::Hotp => Hash::Sha1,
            Mode::Totp(hash) => hash,
        };
        Generator {
            hash,
            key: self.secret.as_slice(),
            digits: words.digits,
        }
    }
}
