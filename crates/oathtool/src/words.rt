ghost use Rattle.std.specs.Prelude.{◌≡◌, IfSome, IfNone, IfOk, option_map};
ghost use Rattle.clap.specs.Matches.{found_of};
ghost use Rattle.hmac_core.specs.declared.hash.Hash.{Hash as AnyHash};
ghost use Rattle.oathtool_core.specs.Words.{HasWindow};
ghost use Rattle.oathtool_core.specs.declared.words.Mode.{Mode as AnyMode};
ghost use Rattle.oathtool_core.specs.declared.words.Words.{Words as AnyWords};
ghost use Rattle.oathtool.specs.Words.{AsksFor, IsMode, IsNameOf};

use clap::{Arg, ArgAction, ArgMatches, Command, Error};
use command_line::{NumberOption, VERSION, number_error, number_of};
use hmac_core::Hash;
use oathtool_core::{MAX_WINDOW, Mode, Words};
use otp_core::{Digits, FACTORS_END, Factor};
use std::alloc::{AllocError, Global};

/// The names of the hashes of time-based codes.
const HASH_NAMES: [&str; 3] = ["SHA1", "SHA256", "SHA512"];

/// The possible numbers of digits of a code.
const DIGIT_COUNTS: [&str; 3] = ["6", "7", "8"];

/// The counter of the first code.
const COUNTER: NumberOption = NumberOption {
    name: "counter",
    short: Some('c'),
    value_name: "COUNTER",
    most: FACTORS_END - 1,
    default: "0",
    help: "The counter at which the codes begin,\n0 to 4611686018427387903 (HOTP)",
};

/// The number of further codes, or the greatest offset of an OTP.
const WINDOW: NumberOption = NumberOption {
    name: "window",
    short: Some('w'),
    value_name: "WIDTH",
    most: MAX_WINDOW,
    default: "0",
    help: "How many more codes to print, or how far to look for OTP,\n0 to 1000",
};

/// The options with a number.
const NUMBERS: [NumberOption; 2] = [COUNTER, WINDOW];

/// The text of the help after the options.
const PROGRAM_HELP: &str = "\
Examples:
  oathtool -w 9 3132333435363738393031323334353637383930
    prints the first ten codes of that key
  oathtool --totp -b \"gezd gnbv gy3t qojq gezd gnbv gy3t qojq\"
    prints its code of this moment

KEY can be seen by other users of the machine while the program runs, and stays
in the shell's history: give keys of test tokens, or use a machine of your own.

The status is 0, or 1 where OTP isn't found, KEY is bad, or memory, clock or
output fail, or 2 where the words are wrong or a value is out of range.";

/// Returns an option with a text.
fn text<'a>(alloc: Global, name: &'a str, short: char, value: &'a str, help: &'a str) -> Arg<'a> {
    Arg::new(alloc, name)
        .long(name)
        .short(short)
        .value_name(value)
        .action(ArgAction::Set)
        .help(help)
}

/// Returns an option without a value.
fn flag<'a>(alloc: Global, name: &'a str, help: &'a str) -> Arg<'a> {
    Arg::new(alloc, name)
        .long(name)
        .action(ArgAction::SetTrue)
        .help(help)
}

/// Returns the option for codes based on a counter.
fn hotp_arg<'a>(alloc: Global) -> Result<Arg<'a>, AllocError> {
    flag(
        alloc,
        "hotp",
        "Codes based on a counter (HOTP, RFC 4226), with SHA-1. This is the\ndefault",
    )
    .conflicts_with("totp")
}

/// Returns the option for codes based on time, whose value may name the hash.
fn totp_arg<'a>(alloc: Global) -> Arg<'a> {
    Arg::new(alloc, "totp")
        .long("totp")
        .value_name("MODE")
        .action(ArgAction::Set)
        .num_args(0..=1)
        .require_equals(true)
        .default_missing_value("SHA1")
        .value_parser(HASH_NAMES.as_slice())
        .ignore_case(true)
        .help(
            "Codes based on time (TOTP, RFC 6238), with this hash, in any case.\nSHA1 where none is named",
        )
}

/// Adds the options for the kind of code.
fn with_modes<'a>(alloc: Global, command: Command<'a>) -> Result<Command<'a>, AllocError> {
    command.arg(hotp_arg(alloc)?)?.arg(totp_arg(alloc))
}

/// Returns the option for the number of digits of a code.
fn digits_arg<'a>(alloc: Global) -> Arg<'a> {
    text(alloc, "digits", 'd', "DIGITS", "How many digits a code has")
        .value_parser(DIGIT_COUNTS.as_slice())
        .default_value("6")
}

/// Adds the options with a number.
fn with_numbers<'a>(alloc: Global, command: Command<'a>) -> Result<Command<'a>, AllocError> {
    command
        .arg(COUNTER.arg(alloc))?
        .arg(digits_arg(alloc))?
        .arg(WINDOW.arg(alloc))
}

/// Returns the option for the length of a time step.
fn step_size_arg<'a>(alloc: Global) -> Arg<'a> {
    text(
        alloc,
        "time-step-size",
        's',
        "SECONDS",
        "How long a time step is, 1 to 1000000 seconds, with or without a\nfinal s (TOTP)",
    )
    .default_value("30s")
}

/// Returns the option for the start of the time steps.
fn start_arg<'a>(alloc: Global) -> Arg<'a> {
    text(
        alloc,
        "start-time",
        'S',
        "TIME",
        "The time from which time steps are counted, @SECONDS or\n'YYYY-MM-DD hh:mm:ss UTC' (TOTP)",
    )
    .default_value("1970-01-01 00:00:00 UTC")
}

/// Returns the option for the time of the codes.
fn now_arg<'a>(alloc: Global) -> Arg<'a> {
    text(
        alloc,
        "now",
        'N',
        "TIME",
        "The time of the codes, in the same two forms (TOTP)\n[default: the clock]",
    )
}

/// Adds the options of time-based codes.
fn with_times<'a>(alloc: Global, command: Command<'a>) -> Result<Command<'a>, AllocError> {
    command
        .arg(step_size_arg(alloc))?
        .arg(start_arg(alloc))?
        .arg(now_arg(alloc))
}

/// Returns the option for the encoding of the key.
fn base32_arg<'a>(alloc: Global) -> Arg<'a> {
    flag(
        alloc,
        "base32",
        "KEY is in base32, in any case, with or without spaces and a final\npadding, and not in hexadecimal",
    )
    .short('b')
}

/// Returns the argument for the key.
fn key_arg<'a>(alloc: Global) -> Arg<'a> {
    Arg::new(alloc, "KEY")
        .required(true)
        .action(ArgAction::Set)
        .help("The secret, 1 to 128 bytes in hexadecimal, or in base32 with -b")
}

/// Returns the argument for a code, which is optional.
fn otp_arg<'a>(alloc: Global) -> Arg<'a> {
    Arg::new(alloc, "OTP").action(ArgAction::Set).help(
        "A code to look for. Its offset is printed: from the counter on, or the\nnearest to the time step, -w to w",
    )
}

/// Returns the whole command line.
fn command<'a>(alloc: Global) -> Result<Command<'a>, AllocError> {
    let command = Command::new(alloc, "oathtool")
        .version(VERSION)
        .about(
            "Makes one-time passwords of OATH tokens, HOTP (RFC 4226) and TOTP (RFC 6238),\n\
            or finds how far one is from the counter or time step",
        )
        .next_line_help(true)
        .after_help(PROGRAM_HELP);
    let command = with_modes(alloc, command)?.arg(base32_arg(alloc))?;
    let command = with_numbers(alloc, command)?;
    let command = with_times(alloc, command)?;
    command.arg(key_arg(alloc))?.arg(otp_arg(alloc))
}

/// Returns the hash called `name`, in any case, or None.
fn hash_named(name: &str) -> Option<Hash>
    ensures some { IfSome result (IsNameOf name.now) }
    ensures none { IfNone result ((hash : AnyHash) → IsNameOf name.now hash → ⊥) }
{
    if name.eq_ignore_ascii_case("SHA1") {
        Some(Hash::Sha1)
    } else if name.eq_ignore_ascii_case("SHA256") {
        Some(Hash::Sha256)
    } else if name.eq_ignore_ascii_case("SHA512") {
        Some(Hash::Sha512)
    } else {
        None
    }
}

/// Returns the mode for the value of `--totp`, or for HOTP without that option, or None if no hash has this name.
fn mode_of(totp: Option<&str>) -> Option<Mode>
    ensures some { IfSome result (IsMode (option_map (λ text. text.now) totp.entry)) }
    ensures none { IfNone result ((mode : AnyMode) → IsMode (option_map (λ text. text.now) totp.entry) mode → ⊥) }
{
    match totp {
        None => Some(Mode::Hotp),
        Some(name) => Some(Mode::Totp(hash_named(name)?)),
    }
}

/// Returns the words for the values that clap found, or `None` if one is out of its range or a number has anything but
/// digits.
fn words_of<'a>(matches: &ArgMatches<'a>) -> Option<Words<'a>>
    ensures some { IfSome result (AsksFor (found_of matches.now)) }
    ensures none { IfNone result ((words : AnyWords) → AsksFor (found_of matches.now) words → ⊥) }
{
    let window = number_of(matches, "window")?;
    if window > MAX_WINDOW {
        return None;
    }
    Some(Words {
        mode: mode_of(matches.get_str("totp"))?,
        is_base32: matches.get_flag("base32"),
        counter: Factor::new(number_of(matches, "counter")?)?,
        digits: Digits::new(usize::try_from(number_of(matches, "digits")?).ok()?)?,
        window,
        step_size: matches.get_str("time-step-size")?,
        start: matches.get_str("start-time")?,
        time: matches.get_str("now"),
        key: matches.get_str("KEY")?,
        otp: matches.get_str("OTP"),
    })
}

/// Returns what `words` ask for. The first word is the program's name.
///
/// # Errors
/// Returns clap's error, which has its text. Help and version go to standard output. The error for a wrong number names
/// the option and its range.
pub(crate) fn read_words<'a>(alloc: Global, words: &'a [String]) -> Result<Words<'a>, Error>
    ensures { IfOk result HasWindow }
{
    let mut command = command(alloc)?;
    let matches = command.try_get_matches_from_mut(words)?;
    match words_of(&matches) {
        Some(words) => Ok(words),
        None => Err(number_error(alloc, &mut command, &matches, &NUMBERS)?),
    }
}
