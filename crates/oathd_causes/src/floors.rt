//! Says what to do about floors files that are not enough for a new store.

ghost use Rattle.std.specs.Prelude.{◌≡◌};
ghost use Rattle.oathd_causes.specs.Floors.{file_advice as spec_file_advice, floors_advice as spec_floors_advice, path_advice as spec_path_advice};

use floors_file::{FileFault, FilesFault};
use oathd_site::PathFault;
use thiserror::Error;

/// What to do about a fault of floors files.
#[derive(Clone, Copy, Debug, PartialEq, Eq, Error)]
pub enum FloorsAdvice {
    #[error("name the node itself in --lost too")]
    NameItself,
    /// The node that is neither lost nor has a file.
    #[error("take the floors file of node {0}, or name {0} in --lost if its database is lost")]
    TakeFile(u8),
    #[error("name each lost member once in --lost, and no other number")]
    NameEachOnce,
    #[error("most databases are lost: take more files, or make all databases anew with floors from the logs")]
    MakeAllAnew,
    #[error("take it again by oathd floors")]
    TakeAgain,
    #[error("it is of a node that --lost names: leave it out")]
    LeaveOut,
    #[error("a later file is of the same node: leave one out")]
    LeaveOneOut,
    #[error("take all files with the same number of members")]
    TakeWithSameMembers,
    #[error("take all files of one cluster")]
    TakeOfOneCluster,
    #[error("it was read before --since: take it again by oathd floors")]
    TakeLater,
    #[error("its boot is not below the new one: set the clock of this machine")]
    SetTheClock,
    #[error("use the users file with which it was taken, or take it again")]
    UseItsUsersFile,
    #[error("it was read at a time that lies ahead: set the clocks of this machine and of its node")]
    SetTheClocks,
}

/// Returns what to do about the fault of one file.
pub fn file_advice(fault: FileFault) -> FloorsAdvice
    ensures { result ≡ spec_file_advice fault }
{
    match fault {
        FileFault::IsLost => FloorsAdvice::LeaveOut,
        FileFault::SameNode => FloorsAdvice::LeaveOneOut,
        FileFault::Members => FloorsAdvice::TakeWithSameMembers,
        FileFault::Older => FloorsAdvice::TakeLater,
        FileFault::Boot => FloorsAdvice::SetTheClock,
        FileFault::Cluster => FloorsAdvice::TakeOfOneCluster,
        FileFault::NoFloor(_) | FileFault::NoUser(_) => FloorsAdvice::UseItsUsersFile,
    }
}

/// Returns what to do about a fault of the files.
pub fn floors_advice(fault: FilesFault) -> FloorsAdvice
    ensures { result ≡ spec_floors_advice fault }
{
    match fault {
        FilesFault::File(_, fault) => file_advice(fault),
        FilesFault::NotLost => FloorsAdvice::NameItself,
        FilesFault::Missing(node) => FloorsAdvice::TakeFile(node),
        FilesFault::Surplus => FloorsAdvice::NameEachOnce,
        FilesFault::TooManyLost => FloorsAdvice::MakeAllAnew,
    }
}

/// Returns what to do about a fault of floors files that are named by their paths.
pub fn path_advice(fault: PathFault<'_>) -> FloorsAdvice
    ensures { result ≡ spec_path_advice fault.entry }
{
    match fault {
        PathFault::TooLong(_) | PathFault::Line(_, _) => FloorsAdvice::TakeAgain,
        PathFault::NoUser(_, line) => file_advice(FileFault::NoUser(line)),
        PathFault::File(_, fault) => file_advice(fault),
        PathFault::Ahead(_) => FloorsAdvice::SetTheClocks,
        PathFault::Files(fault) => floors_advice(fault),
    }
}
