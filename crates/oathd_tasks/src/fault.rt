use crate::commands::perform;
use crate::program::{PROGRAM, TaskFault};
use clients_file::ClientsFault;
use cluster_file::ClusterFault;
use oathd_asking::AskFault;
use oathd_words::Task;
use program_edge::{OutsideFault, ProgramFault, exit_status};
use std::alloc::Global;
use std::io::{Read, Write};
use thiserror::Error;

/// A fault that ends a command without a database. Its text lacks the program's name.
#[derive(Clone, Copy, Debug, PartialEq, Eq, Error)]
pub enum Fault<'a> {
    /// A fault of a run over the input, of reading the words, or of the key.
    #[error("{0}")]
    Run(oathd_lines::Fault),
    /// A fault of a simulation.
    #[error("{0}")]
    Sim(oathd_sim::Fault),
    /// A fault of a cluster.
    #[error("{0}")]
    Cluster(oathd_cluster::Fault),
    /// The file at this path cannot be read.
    #[error("cannot read {0}")]
    CannotReadFile(&'a str),
    /// The command needs a database, and this program has none.
    #[error("no databases")]
    NoDatabases,
    /// The cluster file has a fault.
    #[error("cluster {0}")]
    ClusterFile(ClusterFault),
    /// The cluster file has no member with this number.
    #[error("cluster has no member {0}")]
    NoMember(u8),
    /// The path of the key in the cluster file is not UTF-8.
    #[error("cluster key-file is not text")]
    KeyPath,
    /// A fault of a command to running nodes.
    #[error("{0}")]
    Ask(AskFault<'a>),
    /// The clients file has a fault.
    #[error("clients {0}")]
    ClientsFile(ClientsFault),
    /// The users file begins with a byte order mark, which hides its first row.
    #[error("users line 1: ByteOrderMark")]
    ByteOrderMark,
    /// The system gives no random bytes.
    #[error("no random bytes")]
    NoRandom,
}

impl ProgramFault for Fault<'_> {
    ghost use Rattle.oathd_tasks.specs.Fault.{status_of};

    ghost status_of = { status_of };

    fn status(self) -> u8 {
        match self {
            Fault::Run(fault) => fault.status(),
            Fault::Cluster(fault) => fault.status(),
            Fault::Ask(fault) => fault.status(),
            Fault::Sim(_)
            | Fault::CannotReadFile(_)
            | Fault::NoDatabases
            | Fault::ClusterFile(_)
            | Fault::NoMember(_)
            | Fault::KeyPath
            | Fault::ClientsFile(_)
            | Fault::ByteOrderMark
            | Fault::NoRandom => 1,
        }
    }
}

impl From<OutsideFault> for Fault<'_> {
    fn from(fault: OutsideFault) -> Self {
        Fault::Run(oathd_lines::Fault::from(fault))
    }
}

impl From<oathd_lines::Fault> for Fault<'_> {
    fn from(fault: oathd_lines::Fault) -> Self {
        Fault::Run(fault)
    }
}

impl<'a> TaskFault<'a> for Fault<'a> {
    type Names = ();

    fn names_of(_rt: &HostRuntime, _task: &Task<'a>) {}

    fn perform_task<R: Read, O: Write>(
        alloc: Global,
        rt: &HostRuntime,
        task: Task<'a>,
        cluster: &'a [u8],
        reader: &mut R,
        held: &mut O,
    ) -> Result<(), Self> {
        perform(alloc, rt, &task, cluster, reader, held)
    }

    fn report<E: Write>(
        self,
        _alloc: Global,
        _rt: &HostRuntime,
        _names: (),
        _cluster: &'a [u8],
        errors: &mut E,
    ) -> u8 {
        exit_status::<E, Self>(errors, PROGRAM, Err(self))
    }
}
