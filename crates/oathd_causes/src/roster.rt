//! Says what to do about a store by names, and about a cluster file that gives names or none.

ghost use Rattle.std.specs.Prelude.{◌≡◌};
ghost use Rattle.oathd_causes.specs.Roster.{names_advice as spec_names_advice};

use crate::cause::Cause;
use crate::database::bond_cause_in;
use crate::named::StoreCause;
use crate::names::Names;
use cluster_file::read_cluster;
use oathd_roster::RosterFault;
use oathd_seats::SeatsFault;
use oathd_site::NamesFault;
use std::alloc::Global;
use thiserror::Error;

/// What to do about a token that has the name of another one.
const SAME_NAME_ADVICE: &str =
    "the token in that row has the name of an earlier one: give its user another secret";

/// What to do about words, a cluster file or a users file that don't fit a store by names.
#[derive(Clone, Copy, Debug, PartialEq, Eq, Error)]
pub enum NamesAdvice {
    #[error("it gives names: oathd init takes --begins for a cluster that never served, else --lost or --anew")]
    Begin,
    #[error("give names WORD in it, or leave --begins and --cluster out")]
    GiveNames,
    #[error("it gives names: give --since SECONDS, a time after the last node that is lost or replaced had stopped")]
    GiveSince,
    #[error("--reload is for stores by names: give names WORD in it, or leave --reload out")]
    GiveNamesToReload,
    #[error("it gives names: say by --members-were how many members the cluster had until now")]
    GiveMembersWere,
    /// The number of members that the cluster had, and the number of members in the file.
    #[error("it has {1} members, until now {0}: votes count among {0} alone. Keep {0}; change it later by init --anew")]
    KeepMembers(u8, u8),
    /// The number of the row.
    #[error("row {0} is of another kind than the store's row {0}: give the file with which it was made, in its order")]
    KeepRows(u32),
}

/// Returns what to do about a fault of names.
pub fn names_advice(fault: NamesFault) -> NamesAdvice
    ensures { result ≡ spec_names_advice fault }
{
    match fault {
        NamesFault::PlainInit => NamesAdvice::Begin,
        NamesFault::NoNames => NamesAdvice::GiveNames,
        NamesFault::NoSince => NamesAdvice::GiveSince,
        NamesFault::PlainReload => NamesAdvice::GiveNamesToReload,
        NamesFault::NoMembersWere => NamesAdvice::GiveMembersWere,
        NamesFault::OtherMembers(were, members) => NamesAdvice::KeepMembers(were, members),
        NamesFault::OtherKind(row) => NamesAdvice::KeepRows(row),
    }
}

/// Returns the cause of a fault of names, with the path of the file that has it, or None if the words name none.
pub fn names_cause(names: Names<'_>, fault: NamesFault) -> Option<Cause<'_>> {
    let path = match fault {
        NamesFault::OtherKind(_) => names.users,
        _ => names.cluster?,
    };
    Some(Cause::Names(path, names_advice(fault)))
}

/// Returns what differs between the cluster of a store and that of the cluster file with this text, or None.
fn cluster_cause(
    alloc: Global,
    rt: &HostRuntime,
    database: &str,
    text: &[u8],
) -> Option<StoreCause> {
    match read_cluster(alloc, text) {
        Ok(cluster) => bond_cause_in(rt, database, &cluster),
        Err(_) => None,
    }
}

/// Returns the cause of a fault of a command over a store by names, and of no other one.
///
/// `text` is the content of the cluster file that the words name.
pub fn roster_cause<'a>(
    alloc: Global,
    rt: &HostRuntime,
    names: Names<'a>,
    text: &[u8],
    fault: RosterFault,
) -> Cause<'a> {
    let cause = match fault {
        RosterFault::AnotherCluster => cluster_cause(alloc, rt, names.database, text),
        RosterFault::Full => Some(StoreCause::Full),
        RosterFault::SameName(_) => return Cause::Advice(names.users, SAME_NAME_ADVICE),
        RosterFault::Command(_) => return Cause::Path(names.users),
    };
    match cause {
        Some(cause) => Cause::Store(names.database, cause),
        None => Cause::Path(names.database),
    }
}

/// Returns what to say of a user who is in no row of the users file.
pub fn no_user_cause(names: Names<'_>) -> Cause<'_> {
    Cause::NoUser(names.users)
}

/// Returns the cause of a fault of a command that looks at a store by names, or None if the fault has none.
pub fn seats_cause<'a>(names: Names<'a>, fault: SeatsFault<'_>) -> Option<Cause<'a>> {
    match fault {
        SeatsFault::NotEnrolled(_) => Some(Cause::Enrol(names.users)),
        SeatsFault::NoUser(_) => Some(no_user_cause(names)),
        SeatsFault::Roster(_) => None,
    }
}
