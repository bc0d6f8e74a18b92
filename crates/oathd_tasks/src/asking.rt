//! Opens the socket of an operator.

use crate::fault::Fault;
use crate::key::file_text;
use clients_file::{MAX_CLIENTS_LEN, OperatorEntry, read_operator};
use oathd_asking::{AskFault, Asker};
use std::alloc::Global;
use std::net::Net;
use std::rt::Files;
use std::time::Clock as TimeSource;

/// Returns the program's fault for the end of a command to running nodes.
pub(crate) fn asked<'a>(end: Result<(), AskFault<'a>>) -> Result<(), Fault<'a>> {
    match end {
        Ok(()) => Ok(()),
        Err(fault) => Err(Fault::Ask(fault)),
    }
}

/// Returns the operator whose key file is at `path`.
pub(crate) fn operator_at<'a, F: Files>(
    alloc: Global,
    files: &F,
    path: &'a str,
) -> Result<OperatorEntry, Fault<'a>> {
    let text = file_text(alloc, files, path, MAX_CLIENTS_LEN as u32)?;
    match read_operator(alloc, &text) {
        Ok(operator) => Ok(operator),
        Err(fault) => Err(Fault::Ask(AskFault::OperatorFile(fault))),
    }
}

/// Returns the socket of an operator.
pub(crate) fn asker<'a, N: Net + TimeSource>(outside: &N) -> Result<Asker<'_, N>, Fault<'a>> {
    match Asker::new(outside) {
        Ok(asker) => Ok(asker),
        Err(fault) => Err(Fault::Ask(fault)),
    }
}
