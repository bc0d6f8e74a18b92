//! The run of the command `check`: what it prints, what it notes, and what it says of a fault.

ghost use Rattle.std.specs.Prelude.{◌≤◌, IfErr, IfOk, IfSome, Some, length};
ghost use Rattle.cluster_file.specs.ClusterFile.{cluster_value};
ghost use Rattle.oathd_tasks.specs.Check.{CheckEndsSo};

use crate::advice::{Sources, reason_of, write_advice};
use crate::check::check;
use crate::cluster::cluster_in;
use crate::fault::Fault;
use crate::notes::write_notes;
use cluster_file::KeySource;
use program_edge::OutsideFault;
use std::alloc::Global;
use std::fs;
use std::io::{BufWriter, Read, Write};
use std::rt::Files;

/// The files that the words of a check name.
#[derive(Clone, Copy)]
pub(crate) struct CheckWords<'a> {
    /// The path of the users file.
    pub(crate) users: &'a str,
    /// The path of the cluster file.
    pub(crate) cluster: &'a str,
    /// The text of the cluster file.
    pub(crate) text: &'a [u8],
}

/// Returns why the file at `path` cannot be read now, and what to do.
fn reason_at<F: Files>(files: &F, path: &str) -> &'static str {
    let mut first = [0];
    match fs::open(files, path) {
        Ok(mut file) => match file.read(&mut first) {
            Ok(_) => "it can be read now: try again",
            Err(error) => reason_of(error.kind()),
        },
        Err(error) => reason_of(error.kind()),
    }
}

/// Returns the path of the key file that the text of a cluster file names, or no bytes.
fn key_path(alloc: Global, text: &[u8]) -> &[u8] {
    match cluster_in(alloc, text) {
        Ok(cluster) => match cluster.key {
            KeySource::File(path) => path,
            KeySource::Given(_) => b"",
        },
        Err(_) => b"",
    }
}

/// Carries out a check over a buffer of the output. `rows` takes the text of the users file.
pub(crate) fn check_buffered<'a, F: Files, O: Write>(
    alloc: Global,
    files: &F,
    words: CheckWords<'a>,
    rows: &mut Vec<u8>,
    output: &mut O,
) -> Result<(), Fault<'a>> {
    match BufWriter::new(alloc, &mut *output) {
        Ok(mut held) => check(alloc, files, words.text, words.users, rows, &mut held),
        Err(_) => Err(Fault::from(OutsideFault::Memory)),
    }
}

/// Writes what a check that found no fault notes of the files. A failure of that write changes nothing.
pub(crate) fn note<E: Write>(alloc: Global, words: CheckWords<'_>, rows: &[u8], errors: &mut E) {
    match cluster_in(alloc, words.text) {
        Ok(cluster) => {
            let members = cluster.members.len() as u64;
            let (users, settings) = (words.users, cluster.settings);
            let _ = write_notes(alloc, errors, users, rows, settings, words.cluster, members);
        }
        Err(_) => {}
    }
}

/// Writes where the fault of a check is, and what to do. A failure of that write changes nothing.
pub(crate) fn advise<F: Files, E: Write>(
    alloc: Global,
    files: &F,
    words: CheckWords<'_>,
    rows: &[u8],
    fault: Fault<'_>,
    errors: &mut E,
) {
    let reason = match fault {
        Fault::CannotReadFile(path) => reason_at(files, path),
        _ => "",
    };
    let sources = Sources {
        users: words.users.as_bytes(),
        rows,
        cluster: words.cluster.as_bytes(),
        key: key_path(alloc, words.text),
        reason,
    };
    let _ = write_advice(alloc, errors, &sources, fault);
}
