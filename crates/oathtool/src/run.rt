use crate::words::read_words;
use command_line::explain;
use oathtool_core::Fault;
use program_edge::{exit_status, flushed};
use std::alloc::Global;
use std::io::Write;

/// The program's name, which precedes the text of a fault.
pub(crate) const PROGRAM: &str = "oathtool";

/// Reads the words and writes what they ask for, or clap's text. Flushes the output, also after a fault. Returns the
/// exit status.
fn follow<O: Write, E: Write>(
    alloc: Global,
    words: &[String],
    clock: Option<u64>,
    output: &mut O,
    errors: &mut E,
) -> Result<u8, Fault> {
    match read_words(alloc, words) {
        Ok(words) => {
            let end = oathtool_core::run(alloc, &words, clock, output);
            flushed(output, end)?;
            Ok(0)
        }
        Err(error) => {
            let status = explain(output, errors, &error)?;
            flushed::<O, Fault>(output, Ok(()))?;
            Ok(status)
        }
    }
}

/// Carries out the words of the process, the first of which is the program's name. Returns the exit status.
///
/// The output gets what the run prints, the help and the version, and is flushed. The errors get a fault's text, and
/// clap's text about wrong words. `clock` is the current time in seconds since 1970-01-01 00:00:00 UTC, if there is a
/// clock.
pub(crate) fn run<O: Write, E: Write>(
    alloc: Global,
    words: &[String],
    clock: Option<u64>,
    output: &mut O,
    errors: &mut E,
) -> u8 {
    let end = follow(alloc, words, clock, output, errors);
    exit_status(errors, PROGRAM, end)
}
