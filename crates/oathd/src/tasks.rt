//! Carries out the tasks of the program, and reports their faults with their causes.

use crate::performing::perform as perform_action;
use crate::told::{EndFault, ReplacedFault, ToldFault};
use oathd_causes::{
    Cause, Names, database_cause, names_cause, path_advice, roster_cause, seats_cause, task_cause,
};
use oathd_site::{Fault, Site};
use oathd_tasks::{PROGRAM, TaskFault, perform};
use oathd_words::Task;
use program_edge::exit_status;
use sqlite::Unknown;
use std::alloc::Global;
use std::io::{Read, Write};

/// Returns the cause of the fault that ended a command over a database, or None if the fault has none.
///
/// `text` is the content of the cluster file that the words name.
fn cause_of<'a>(
    alloc: Global,
    rt: &HostRuntime,
    names: Names<'a>,
    text: &'a [u8],
    fault: Fault<'a>,
) -> Option<Cause<'a>> {
    match fault {
        Fault::Task(fault) => task_cause(alloc, rt, names, text, fault),
        Fault::Database(fault) => database_cause(alloc, rt, names, text, fault),
        Fault::Floors(fault) => Some(Cause::Floors(path_advice(fault))),
        Fault::Roster(fault) => Some(roster_cause(alloc, rt, names, text, fault)),
        Fault::Seats(fault) => seats_cause(names, fault),
        Fault::Names(fault) => names_cause(names, fault),
    }
}

impl<'a> TaskFault<'a> for EndFault<'a> {
    /// The names in the words of a command over a database.
    type Names = Option<Names<'a>>;

    fn names_of(rt: &HostRuntime, task: &Task<'a>) -> Option<Names<'a>> {
        Names::of(rt, task)
    }

    fn perform_task<R: Read, O: Write>(
        alloc: Global,
        rt: &HostRuntime,
        task: Task<'a>,
        cluster: &'a [u8],
        reader: &mut R,
        held: &mut O,
    ) -> Result<(), Self> {
        let end = match task {
            Task::Store {
                database,
                users,
                action,
            } => {
                let site = Site {
                    alloc,
                    rt,
                    database,
                    users,
                    cluster,
                };
                perform_action(&site, Unknown, action, held)
            }
            task => match perform(alloc, rt, &task, cluster, reader, held) {
                Ok(()) => Ok(()),
                Err(fault) => Err(Fault::Task(fault)),
            },
        };
        match end {
            Ok(()) => Ok(()),
            Err(fault) => Err(EndFault(fault)),
        }
    }

    /// Its cause follows on the next line if the task names a database.
    fn report<E: Write>(
        self,
        alloc: Global,
        rt: &HostRuntime,
        names: Option<Names<'a>>,
        cluster: &'a [u8],
        errors: &mut E,
    ) -> u8 {
        let EndFault(fault) = self;
        let cause = match names {
            Some(names) => cause_of(alloc, rt, names, cluster, fault),
            None => None,
        };
        match cause {
            Some(cause) if cause.is_replaced() => {
                let replaced = ReplacedFault { fault, cause };
                exit_status::<E, ReplacedFault>(errors, PROGRAM, Err(replaced))
            }
            Some(cause) => {
                let told = ToldFault { fault, cause };
                exit_status::<E, ToldFault>(errors, PROGRAM, Err(told))
            }
            None => exit_status::<E, Self>(errors, PROGRAM, Err(self)),
        }
    }
}
