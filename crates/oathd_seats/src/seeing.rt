//! The store that a command sees, by the places or the names of the tokens of a users file.

ghost use Rattle.std.specs.Prelude.{◌≡◌, length, IfErr, IfOk, IfSome};
ghost use Rattle.oathd_database.specs.Users.{IsImported};
ghost use Rattle.oathd_seats.specs.Fault.{IsPlace, look_fault_of};
ghost use Rattle.oathd_seats.specs.Seen.{HasPlaced, HasSeen, HasSeenNamed, IsNotPlaced, IsNotSeen, IsNotSeenNamed};

use crate::fault::SeatsFault;
use crate::naming::Naming;
use floor_sql::SqlStore;
use floor_store::FloorStore;
use named_store::{LookFault, Looked, look_named};
use oathd_database::{Database, Users, open_store};
use oathd_roster::{NamedCluster, NamedUsers, RosterFault, read_named_users};
use otp_core::Settings;
use seated_store::{SeatedStore, own_seats};
use sqlite::Alter;
use std::alloc::Global;
use std::io::Read;

/// Reads a users file, and opens the store of its tokens, each in the row of its place.
///
/// The store belongs to the given node, or, without one, to the node that the tables name. The settings are the
/// server's.
///
/// # Errors
/// Returns the errors of [`open_store`] as `Roster(Command)`.
fn see_placed<'a, R: Read + Drop, S: Alter + Drop, D: Database<S>>(
    alloc: Global,
    users: R,
    settings: Settings,
    node: Option<u8>,
    database: D,
) -> Result<(Users, SeatedStore<SqlStore<S>>), SeatsFault<'a>>
    ensures users { IfOk result (λ seen. IfSome (R.remaining users)
        (IsImported settings 0 16777216 seen.0.book seen.0.floors.items)) }
    ensures seen { IfOk result (λ seen. HasPlaced S.Store D.finds node seen.0.book seen.1) }
    ensures each { IfOk result (λ seen. length seen.1.seats ≡ length seen.0.book) }
    ensures fault { IfErr result (λ fault. IfSome (R.remaining users) (IsNotPlaced settings 16777216 fault)) }
{
    let (users, store) = open_store(alloc, users, settings, node, database)?;
    let seats = own_seats(alloc, store.tokens())?;
    Ok((users, SeatedStore::new(store, seats)))
}

/// Returns the fault of a command if a store is not seen by names.
fn fault_of<'a>(fault: LookFault) -> SeatsFault<'a>
    requires { IsPlace fault }
    ensures { result ≡ look_fault_of fault }
{
    match fault {
        LookFault::NotEnrolled { token } => SeatsFault::NotEnrolled(token + 1),
        LookFault::Named(fault) => SeatsFault::Roster(RosterFault::from(fault)),
    }
}

/// Reads a users file, and opens the store of `node` for its tokens, each of which has a row. Nothing is enrolled.
///
/// The store has to be bound to the cluster. A token is found at the row with its name. The settings are the server's.
///
/// # Errors
/// - Returns the errors of [`read_named_users`] as `Roster`. The database is not opened.
/// - Returns `NotEnrolled` with the first row of the users file whose token the store hasn't.
/// - Returns `Roster(AnotherCluster)` if the store is bound to another cluster.
/// - Returns `Roster(Command(Store(Unusable)))` if the tables hold no such store.
/// - Returns `Roster(Command(Store(Disk)))` or `Roster(Command(Store(Memory)))` if the store meets such a failure.
pub(crate) fn see_named<'a, R: Read + Drop, S: Alter + Drop, D: Database<S>>(
    alloc: Global,
    users: R,
    settings: Settings,
    node: u8,
    cluster: &NamedCluster,
    database: D,
) -> Result<(NamedUsers, Looked<S>), SeatsFault<'a>>
    ensures users { IfOk result (λ seen. IfSome (R.remaining users)
        (IsImported settings 0 16777216 seen.0.users.book seen.0.users.floors.items)) }
    ensures seen { IfOk result (λ seen. HasSeenNamed S.Store D.finds cluster.now node seen.0.users.book
        seen.1.roster.items seen.1.store) }
    ensures seats { IfOk result (λ seen. seen.1.seats.items ≡ seen.1.store.seats) }
    ensures each { IfOk result (λ seen. length seen.1.store.seats ≡ length seen.0.users.book) }
    ensures fault { IfErr result (λ fault. IfSome (R.remaining users)
        (IsNotSeenNamed S.Store D.finds cluster.now settings 16777216 node fault)) }
{
    let named = read_named_users(alloc, users, settings, 0, &cluster.salt)?;
    let files = database.files();
    let conn = database.connect()?;
    match look_named(alloc, conn, node, &named.entries, &cluster.bond, files) {
        Ok(looked) => Ok((named, looked)),
        Err((_left, fault)) => Err(fault_of(fault)),
    }
}

/// Reads a users file, and opens the store of its tokens. Nothing is enrolled. The settings are the server's.
///
/// # Errors
/// - Returns `Roster` with the errors of `open_store`, or by names with those of `read_named_users`. The database is
///   not opened if the users file has a fault.
/// - Returns `NotEnrolled` with the first row of the users file whose name the store hasn't.
/// - Returns `Roster(AnotherCluster)` if the store is bound to another cluster.
/// - Returns `Roster(Command(Store))` if the tables hold no such store, or the store fails.
pub(crate) fn see_store<'a, R: Read + Drop, S: Alter + Drop, D: Database<S>>(
    alloc: Global,
    users: R,
    settings: Settings,
    naming: Naming<'_>,
    database: D,
) -> Result<(Users, SeatedStore<SqlStore<S>>), SeatsFault<'a>>
    ensures users { IfOk result (λ seen. IfSome (R.remaining users)
        (IsImported settings 0 16777216 seen.0.book seen.0.floors.items)) }
    ensures seen { IfOk result (λ seen. HasSeen S.Store D.finds naming.entry seen.0.book seen.1) }
    ensures each { IfOk result (λ seen. length seen.1.seats ≡ length seen.0.book) }
    ensures fault { IfErr result (λ fault. IfSome (R.remaining users)
        (IsNotSeen S.Store D.finds naming.entry settings 16777216 fault)) }
{
    match naming {
        Naming::ByPlace(node) => see_placed(alloc, users, settings, node, database),
        Naming::ByName(node, cluster) => {
            let (named, looked) = see_named(alloc, users, settings, node, cluster, database)?;
            Ok((named.users, looked.store))
        }
    }
}
