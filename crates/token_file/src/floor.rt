ghost use Rattle.std.specs.Prelude.{◌≡◌, ◌≤◌, ◌^◌};
ghost use Rattle.std.specs.Option.{option_copied};
ghost use Rattle.otp_core.specs.Range.{IsMoment};
ghost use Rattle.token_file.specs.Row.{first_free, is_taken, step_floor};

use crate::entry::Entry;
use crate::token::Token;
use otp_core::{Factor, Next, Settings, code};

/// Returns whether the last accepted code is the code of the counter.
fn is_last_taken(token: &Token, counter: u64, last: Option<&[u8]>) -> bool
    ensures { result ≡ is_taken token.now counter (option_copied last.entry) }
{
    match (last, Factor::new(counter)) {
        (Some(last), Some(factor)) => {
            let code = code(
                token.hash(),
                token.secret().as_slice(),
                factor,
                token.digits(),
            );
            last == code.as_slice()
        }
        _ => false,
    }
}

/// Returns the floor of a time token after an import: its first free factor. The steps up to the step of `moment` and
/// the skew are used up.
fn step_floor_of(period: u64, settings: Settings, moment: u64) -> u64
    requires moment { IsMoment moment }
    requires period { 30 ≤ period }
    ensures value { result ≡ step_floor period settings.skew moment }
    ensures bound { result ≤ 2 ^ 62 }
{
    moment / period + settings.skew() + 1
}

/// Returns the floor of a row's token after its import: its first free factor.
pub(crate) fn first_floor(entry: &Entry<'_>, settings: Settings, moment: u64) -> Next
    requires { IsMoment moment }
    ensures { result
        ≡ first_free settings.skew moment entry.now.token entry.now.counter (option_copied entry.now.last) }
{
    let value = match entry.token.kind().period() {
        Some(period) => step_floor_of(period, settings, moment),
        None if is_last_taken(&entry.token, entry.counter, entry.last) => entry.counter + 1,
        None => entry.counter,
    };
    Next::new(value).unwrap()
}
