ghost use Rattle.std.specs.Prelude.{◌≡◌, IfOk, find, not};
ghost use Rattle.std.specs.Option.{option_copied};
ghost use Rattle.clap.specs.Matches.{found_of};
ghost use Rattle.clap.specs.Values.{kind_of};
ghost use Rattle.command_line.specs.Number.{is_in_range, number_at};

use clap::error::ErrorKind;
use clap::{Arg, ArgAction, ArgMatches, Command, Error};
use field_text::read_number;
use std::alloc::{AllocError, Global};

/// An option whose value is a number from 0 to `most`, in decimal digits alone.
#[derive(Clone, Copy, Debug)]
pub struct NumberOption {
    /// Its name, for clap too, without the dashes.
    pub name: &'static str,
    pub short: Option<char>,
    /// The name of its value in the help.
    pub value_name: &'static str,
    pub most: u64,
    pub default: &'static str,
    pub help: &'static str,
}

impl NumberOption {
    /// Returns the option for clap, which accepts any text.
    pub fn arg<'a>(&self, alloc: Global) -> Arg<'a> {
        let arg = Arg::new(alloc, self.name)
            .long(self.name)
            .value_name(self.value_name)
            .action(ArgAction::Set)
            .default_value(self.default)
            .help(self.help);
        match self.short {
            Some(short) => arg.short(short),
            None => arg,
        }
    }

    /// Returns whether its value is a number in its range.
    pub fn is_in_range(&self, matches: &ArgMatches<'_>) -> bool
        ensures { result ≡ is_in_range (found_of matches.now) self.now }
    {
        match number_of(matches, self.name) {
            Some(number) => number <= self.most,
            None => false,
        }
    }
}

/// Returns the value of the option `name`, or `None` if it has anything but digits.
pub fn number_of(matches: &ArgMatches<'_>, name: &str) -> Option<u64>
    ensures { result ≡ number_at (found_of matches.now) name.now }
{
    read_number(matches.get_str(name)?.as_bytes())
}

/// Returns the first of `options` whose value is not a number in its range, or None.
pub fn first_out_of_range<'o>(
    matches: &ArgMatches<'_>,
    options: &'o [NumberOption],
) -> Option<&'o NumberOption>
    ensures { option_copied result ≡ find (λ option. not (is_in_range (found_of matches.now) option)) options.now }
{
    options.iter().find(|option| !option.is_in_range(matches))
}

/// Returns the error that names the first of `options` whose value is not a number in its range, and that range.
///
/// The error has the usage of the command.
pub fn number_error(
    alloc: Global,
    command: &mut Command<'_>,
    matches: &ArgMatches<'_>,
    options: &[NumberOption],
) -> Result<Error, AllocError>
    ensures { IfOk result (λ error. kind_of error ≡ ErrorKind.ValueValidation) }
{
    let Some(option) = first_out_of_range(matches, options) else {
        return command.error(ErrorKind::ValueValidation, "a value is out of its range");
    };
    let NumberOption {
        name,
        value_name,
        most,
        ..
    } = *option;
    let value = matches.get_str(name).unwrap_or("");
    let text = format!(in alloc;
        "invalid value '{value}' for '--{name} <{value_name}>': {value_name} is 0 to {most}, in decimal digits alone"
    )?;
    command.error(ErrorKind::ValueValidation, text.as_str())
}
