ghost use Rattle.std.specs.Prelude.{◌≡◌, ◌↔◌, ◌∷◌, ◌==◌, ℕ, ℤ, pos, ◌*ℤ◌, ◌<ℤ◌, ◌<◌, ◌^◌, List, length, slice_index, IfErr, IfNone, IfOk, IfSome, IsNone, OnErr};
ghost use Rattle.jiff.specs.Words.{epoch_day};
ghost use Rattle.oathtool_core.specs.Time.{IsDateText, IsEitherText, IsNamedDay, IsNoDay, IsTimeOf, IsTimeText, fields_of, has_marks};

use field_text::read_number;
use jiff::Error as DateError;
use jiff::civil::Date;
use otp_core::MOMENTS_END;
use std::alloc::Global;
use thiserror::Error;

/// The number of seconds of a day.
const SECONDS_A_DAY: u64 = 86_400;

/// The reason why a text gives no time.
#[derive(Clone, Copy, Debug, PartialEq, Eq, Error)]
pub enum TimeFault {
    /// The allocator refused the memory.
    #[error("out of memory")]
    Memory,
    /// The text has neither form, names no day of the calendar, or is out of range.
    #[error("bad time")]
    BadTime,
}

impl From<DateError> for TimeFault {
    ghost use Rattle.jiff.specs.Words.{IsRange};
    ghost use Rattle.oathtool_core.specs.declared.time.TimeFault.TheVariants.{BadTime};

    ghost from_gives = { λ error fault. IsRange error → fault ≡ BadTime };

    fn from(error: DateError) -> Self {
        match error {
            DateError::OutOfMemory => TimeFault::Memory,
            _ => TimeFault::BadTime,
        }
    }
}

/// The numbers of a text `YYYY-MM-DD hh:mm:ss UTC`.
#[derive(Clone, Copy)]
struct Fields {
    year: u64,
    month: u64,
    day: u64,
    hour: u64,
    minute: u64,
    second: u64,
}

/// Returns whether the byte at `place` is `mark`.
fn is_at(text: &[u8], place: usize, mark: u8) -> bool
    requires { place < length text.now }
    ensures { result ≡ (slice_index text.now place == mark) }
{
    text[place] == mark
}

/// Returns whether a text has the length and the separators of `YYYY-MM-DD hh:mm:ss UTC`.
fn has_date_marks(text: &[u8]) -> bool
    ensures { result ≡ has_marks text.now }
{
    if text.len() != 23 {
        return false;
    }
    is_at(text, 4, b'-')
        & is_at(text, 7, b'-')
        & is_at(text, 10, b' ')
        & is_at(text, 13, b':')
        & is_at(text, 16, b':')
        & is_at(text, 19, b' ')
        & is_at(text, 20, b'U')
        & is_at(text, 21, b'T')
        & is_at(text, 22, b'C')
}

/// Returns the numbers of a text `YYYY-MM-DD hh:mm:ss UTC`, or `None` for any other text.
fn read_fields(text: &[u8]) -> Option<Fields>
    ensures { result ≡ fields_of text.now }
{
    if !has_date_marks(text) {
        return None;
    }
    Some(Fields {
        year: read_number(&text[0..4])?,
        month: read_number(&text[5..7])?,
        day: read_number(&text[8..10])?,
        hour: read_number(&text[11..13])?,
        minute: read_number(&text[14..16])?,
        second: read_number(&text[17..19])?,
    })
}

/// Returns the day of the calendar with these numbers.
fn day_of(fields: &Fields) -> Result<Date, TimeFault>
    ensures day { IfOk result (IsNamedDay fields.now) }
    ensures none { OnErr result (IsNoDay fields.now) }
    ensures bad { IfErr result (λ fault. fault ≡ TimeFault.BadTime) }
{
    let year = i16::try_from(fields.year).or(Err(TimeFault::BadTime))?;
    let month = i8::try_from(fields.month).or(Err(TimeFault::BadTime))?;
    let day = i8::try_from(fields.day).or(Err(TimeFault::BadTime))?;
    Ok(Date::new(year, month, day)?)
}

/// Returns the seconds from 1970 to the start of a day, or `None` if the day is before 1970.
#[tactic(auto, using(std::proofs::lemmas::Int::ints))]
fn seconds_to(day: Date) -> Option<u64>
    ensures some { IfSome result (λ seconds. pos seconds ≡ epoch_day day *ℤ pos 86_400) }
    ensures range { IfSome result (λ seconds. seconds < 2 ^ 40) }
    ensures none { IsNone result ↔ (epoch_day day <ℤ pos 0) }
{
    let days = u64::try_from(day.to_plain().to_unix_epoch_day()).ok()?;
    Some(days * SECONDS_A_DAY)
}

/// Returns the time with these numbers, in seconds since 1970.
fn time_of(fields: &Fields) -> Result<u64, TimeFault>
    ensures some { IfOk result (IsTimeOf fields.now) }
    ensures none { OnErr result ((seconds : ℕ) → IsTimeOf fields.now seconds → ⊥) }
    ensures bad { IfErr result (λ fault. fault ≡ TimeFault.BadTime) }
{
    if fields.hour > 23 || fields.minute > 59 || fields.second > 59 {
        return Err(TimeFault::BadTime);
    }
    let day = day_of(fields)?;
    let Some(start) = seconds_to(day) else {
        return Err(TimeFault::BadTime);
    };
    Ok(start + fields.hour * 3600 + fields.minute * 60 + fields.second)
}

/// Reads a time `YYYY-MM-DD hh:mm:ss UTC`.
fn read_date_time(text: &[u8]) -> Result<u64, TimeFault>
    ensures some { IfOk result (IsDateText text.now) }
    ensures none { OnErr result ((seconds : ℕ) → IsDateText text.now seconds → ⊥) }
    ensures bad { IfErr result (λ fault. fault ≡ TimeFault.BadTime) }
{
    match read_fields(text) {
        Some(fields) => time_of(&fields),
        None => Err(TimeFault::BadTime),
    }
}

/// Returns the text after a leading `@`, or None without one.
fn after_at(text: &[u8]) -> Option<&[u8]>
    ensures some { IfSome result (λ rest. text.now ≡ 64 ∷ rest.now) }
    ensures none { IfNone result ((rest : List ℕ) → text.now ≡ 64 ∷ rest → ⊥) }
{
    let (first, rest) = text.split_first()?;
    if *first == b'@' { Some(rest) } else { None }
}

/// Reads a time in either form, in or out of range.
fn read_either(text: &[u8]) -> Result<u64, TimeFault>
    ensures some { IfOk result (IsEitherText text.now) }
    ensures none { OnErr result ((seconds : ℕ) → IsEitherText text.now seconds → ⊥) }
    ensures bad { IfErr result (λ fault. fault ≡ TimeFault.BadTime) }
{
    let Some(digits) = after_at(text) else {
        return read_date_time(text);
    };
    match read_number(digits) {
        Some(seconds) => Ok(seconds),
        None => Err(TimeFault::BadTime),
    }
}

/// Reads a time in one of two forms, `@SECONDS` or `YYYY-MM-DD hh:mm:ss UTC`, and returns its seconds since 1970-01-01
/// 00:00:00 UTC. They are below 2^40. The second form has exactly 23 bytes, and names a day of the Gregorian calendar.
///
/// # Errors
/// - Returns `BadTime` if the text has neither form, names no day, or gives a time before 1970 or from 2^40 seconds on.
/// - Returns `Memory` if the calendar does. Reading itself does not allocate.
pub fn read_time(_alloc: Global, text: &[u8]) -> Result<u64, TimeFault>
    ensures some { IfOk result (IsTimeText text.now) }
    ensures bad { (result ≡ Err TimeFault.BadTime) ↔ ((seconds : ℕ) → IsTimeText text.now seconds → ⊥) }
{
    let seconds = read_either(text)?;
    if seconds >= MOMENTS_END {
        return Err(TimeFault::BadTime);
    }
    Ok(seconds)
}
