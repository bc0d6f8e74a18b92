//! `oathd` without the commands over a database, and so without SQLite: it compiles in less than half of the time.
//!
//! `tools/program` runs it for the other commands if there is no current build of `oathd`.
#![tactic(auto)]

use oathd_tasks::{Fault, run};
use program_edge::process_words;
use std::io;
use std::process::ExitCode;

fn main(rt: HostRuntime) -> ExitCode {
    let alloc = rt.alloc();
    let words = process_words(&rt, alloc);
    let mut text = Vec::new(alloc);
    let errors = rt.stderr();
    ExitCode::from(run::<Fault, _, _, _>(
        alloc,
        &rt,
        &words,
        &mut text,
        &mut rt.reader(),
        &mut io::writer(&rt),
        &mut io::writer(&errors),
    ))
}
