use clients_file::OperatorFault;
use program_edge::ProgramFault;
use std::net::SocketAddrV4;
use thiserror::Error;

/// A fault that ends a command to running nodes. Its text lacks the program's name.
#[derive(Clone, Copy, Debug, PartialEq, Eq, Error)]
pub enum AskFault<'a> {
    /// The allocator refused the memory.
    #[error("out of memory")]
    Memory,
    /// Standard output failed.
    #[error("cannot write")]
    CannotWrite,
    /// The clock tells no time.
    #[error("no clock")]
    NoClock,
    /// The key file of the operator has a fault.
    #[error("bad operator file: {0}")]
    OperatorFile(OperatorFault),
    /// No token of the node has this user.
    #[error("no such user: {0}")]
    NoUser(&'a str),
    /// The key of the operator has no right to the request.
    #[error("the node at {0} refuses: NO RIGHT")]
    NoRight(SocketAddrV4),
    /// The node doesn't know the request.
    #[error("the node at {0} refuses: NO REQUEST")]
    NoRequest(SocketAddrV4),
    /// The node has no such report.
    #[error("the node at {0} refuses: NO REPORT")]
    NoReport(SocketAddrV4),
    /// The node is busy with the requests of readers.
    #[error("the node at {0} refuses: NO BUSY")]
    Busy(SocketAddrV4),
    /// A member is silent, or it differs from the first.
    #[error("not all members are well")]
    Degraded,
    /// No majority of the members answers.
    #[error("no majority of the members answers")]
    NoMajority,
    /// The socket failed.
    #[error("socket")]
    Socket,
    /// No report came.
    #[error("no answer from {0}")]
    NoAnswer(SocketAddrV4),
}

impl ProgramFault for AskFault<'_> {
    ghost use Rattle.oathd_asking.specs.Fault.{status_of};

    ghost status_of = { status_of };

    fn status(self) -> u8 {
        match self {
            AskFault::Memory
            | AskFault::CannotWrite
            | AskFault::NoClock
            | AskFault::OperatorFile(_)
            | AskFault::NoUser(_)
            | AskFault::NoRight(_)
            | AskFault::NoRequest(_)
            | AskFault::NoReport(_)
            | AskFault::Busy(_)
            | AskFault::Degraded => 1,
            AskFault::NoMajority => 2,
            AskFault::Socket | AskFault::NoAnswer(_) => 4,
        }
    }
}
