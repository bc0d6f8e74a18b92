//! Makes and finds one-time passwords, as OATH Toolkit's `oathtool` does.
#![tactic(auto)]

mod run;
mod words;

use oathtool_core::Fault;
use program_edge::{exit_status, process_words};
use run::{PROGRAM, run};
use std::io::{self, BufWriter};
use std::process::ExitCode;
use std::time::{SystemTime, UNIX_EPOCH};

/// Returns the current time in seconds since 1970-01-01 00:00:00 UTC, or `None` without a clock.
fn clock(rt: &HostRuntime) -> Option<u64> {
    let now = SystemTime::now(rt).ok()?;
    Some(now.duration_since(UNIX_EPOCH).ok()?.as_secs())
}

/// Carries out the words of the process, over standard output and standard error. Returns the exit status.
fn run_process(rt: &HostRuntime) -> Result<u8, Fault> {
    let words = process_words(rt, rt.alloc())?;
    let mut output = BufWriter::new(rt.alloc(), io::writer(rt)).map_err(|_| Fault::Memory)?;
    let errors = rt.stderr();
    Ok(run(
        rt.alloc(),
        &words,
        clock(rt),
        &mut output,
        &mut io::writer(&errors),
    ))
}

fn main(rt: HostRuntime) -> ExitCode {
    let end = run_process(&rt);
    let errors = rt.stderr();
    ExitCode::from(exit_status(&mut io::writer(&errors), PROGRAM, end))
}
