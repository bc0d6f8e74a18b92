//! The run of a program: from its words to its exit status.
//!
//! A program has a type of faults, which also says what its tasks do (`TaskFault`).

ghost use Rattle.oathd_words.specs.Words.{IsInRange};

use crate::cluster::cluster_text;
use crate::fault::Fault;
use crate::told_check::{CheckWords, advise, check_buffered, note};
use command_line::explain;
use oathd_words::{Task, read_words};
use program_edge::{OutsideFault, ProgramFault, exit_status};
use std::alloc::Global;
use std::io::{BufWriter, Read, Write};

/// The name of the program in front of the text of a fault.
pub const PROGRAM: &str = "oathd";

/// The faults of a program, and what its tasks do.
pub trait TaskFault<'a>: ProgramFault + From<Fault<'a>> {
    ghost use Rattle.std.specs.Prelude.{◌≡◌};
    ghost use Rattle.oathd_words.specs.Words.{IsInRange};

    /// What a report says of the words of a task.
    type Names: Copy;

    /// Returns what a report of the task's fault says of its words, before the task is carried out.
    fn names_of(rt: &HostRuntime, task: &Task<'a>) -> Self::Names;

    /// Carries out a task, with the text of the cluster file that it names.
    ///
    /// `held` buffers the output until it is flushed.
    fn perform_task<R: Read, O: Write>(
        alloc: Global,
        rt: &HostRuntime,
        task: Task<'a>,
        cluster: &'a [u8],
        reader: &mut R,
        held: &mut O,
    ) -> Result<(), Self>
        requires { IsInRange task };

    /// Writes the text of the fault to the errors, after the program's name. Returns the exit status.
    fn report<E: Write>(
        self,
        alloc: Global,
        rt: &HostRuntime,
        names: Self::Names,
        cluster: &'a [u8],
        errors: &mut E,
    ) -> u8
        ensures { result ≡ Self.status_of self };
}

/// Carries out a task over a buffer of the output, with the text of the cluster file that it names.
fn perform_buffered<'a, T: TaskFault<'a>, R: Read, O: Write>(
    alloc: Global,
    rt: &HostRuntime,
    task: Task<'a>,
    cluster: &'a [u8],
    reader: &mut R,
    output: &mut O,
) -> Result<(), T>
    requires { IsInRange task }
{
    match BufWriter::new(alloc, &mut *output) {
        Ok(mut held) => T::perform_task(alloc, rt, task, cluster, reader, &mut held),
        Err(_) => Err(T::from(Fault::from(OutsideFault::Memory))),
    }
}

/// Carries out a check, and writes what it notes, or its fault and what to do about it, to the errors. Returns the exit
/// status.
fn follow_check<'a, T: TaskFault<'a>, O: Write, E: Write>(
    alloc: Global,
    rt: &HostRuntime,
    words: CheckWords<'a>,
    names: T::Names,
    output: &mut O,
    errors: &mut E,
) -> u8 {
    let mut rows = Vec::new(alloc);
    match check_buffered(alloc, rt, words, &mut rows, output) {
        Ok(()) => {
            note(alloc, words, &rows, errors);
            0
        }
        Err(fault) => {
            let status = T::from(fault).report(alloc, rt, names, words.text, errors);
            advise(alloc, rt, words, &rows, fault, errors);
            status
        }
    }
}

/// Carries out a task with the text of the cluster file that it names. Returns the exit status.
fn follow_with<'a, T: TaskFault<'a>, R: Read, O: Write, E: Write>(
    alloc: Global,
    rt: &HostRuntime,
    task: Task<'a>,
    names: T::Names,
    text: &'a [u8],
    reader: &mut R,
    output: &mut O,
    errors: &mut E,
) -> u8
    requires { IsInRange task }
{
    if let Task::Check { users, cluster } = task {
        let words = CheckWords {
            users,
            cluster,
            text,
        };
        return follow_check::<T, O, E>(alloc, rt, words, names, output, errors);
    }
    match perform_buffered::<T, R, O>(alloc, rt, task, text, reader, output) {
        Ok(()) => 0,
        Err(fault) => fault.report(alloc, rt, names, text, errors),
    }
}

/// Reads the cluster file that a task names, if any, into `text`, and carries out the task. Returns the exit status.
fn follow_task<'a, T: TaskFault<'a>, R: Read, O: Write, E: Write>(
    alloc: Global,
    rt: &HostRuntime,
    task: Task<'a>,
    text: &'a mut Vec<u8>,
    reader: &mut R,
    output: &mut O,
    errors: &mut E,
) -> u8
    requires { IsInRange task }
{
    let names = T::names_of(rt, &task);
    let path = task.cluster_path();
    match cluster_text(alloc, rt, path) {
        Ok(read) => *text = read,
        Err(fault) => {
            let status = T::from(fault).report(alloc, rt, names, b"", errors);
            if let Task::Check { users, cluster } = task {
                let words = CheckWords {
                    users,
                    cluster,
                    text: b"",
                };
                advise(alloc, rt, words, b"", fault, errors);
            }
            return status;
        }
    }
    follow_with::<T, R, O, E>(
        alloc,
        rt,
        task,
        names,
        text.as_slice(),
        reader,
        output,
        errors,
    )
}

/// Carries out what the words ask for, or writes clap's text. Returns the exit status.
fn follow<'a, T: TaskFault<'a>, R: Read, O: Write, E: Write>(
    alloc: Global,
    rt: &HostRuntime,
    words: &'a [String],
    text: &'a mut Vec<u8>,
    reader: &mut R,
    output: &mut O,
    errors: &mut E,
) -> u8 {
    match read_words(alloc, words) {
        Ok(task) => follow_task::<T, R, O, E>(alloc, rt, task, text, reader, output, errors),
        Err(error) => match explain(output, errors, &error) {
            Ok(status) => status,
            Err(fault) => exit_status(errors, PROGRAM, Err(T::from(Fault::from(fault)))),
        },
    }
}

/// Carries out what the words of the process ask for, if they could be read. Writes the text of a fault to the errors,
/// after the program's name. Returns the exit status.
///
/// `text` takes the text of the cluster file that the words name.
pub fn run<'a, T: TaskFault<'a>, R: Read, O: Write, E: Write>(
    alloc: Global,
    rt: &HostRuntime,
    words: &'a Result<Vec<String>, OutsideFault>,
    text: &'a mut Vec<u8>,
    reader: &mut R,
    output: &mut O,
    errors: &mut E,
) -> u8 {
    match words {
        Ok(words) => follow::<T, R, O, E>(alloc, rt, words, text, reader, output, errors),
        Err(fault) => exit_status(errors, PROGRAM, Err(T::from(Fault::from(*fault)))),
    }
}
