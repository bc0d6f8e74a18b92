//! The validation server's program.
#![tactic(auto)]

mod performing;
mod tasks;
mod told;

use oathd_tasks::run;
use program_edge::process_words;
use std::io;
use std::process::ExitCode;
use told::EndFault;

fn main(rt: HostRuntime) -> ExitCode {
    let alloc = rt.alloc();
    let words = process_words(&rt, alloc);
    let mut text = Vec::new(alloc);
    let errors = rt.stderr();
    ExitCode::from(run::<EndFault, _, _, _>(
        alloc,
        &rt,
        &words,
        &mut text,
        &mut rt.reader(),
        &mut io::writer(&rt),
        &mut io::writer(&errors),
    ))
}
