//! The command `roster`: prints the rows of a store, with their names and the users of their tokens.

ghost use Rattle.std.specs.Prelude.{IfErr, IfOk, IfSome};
ghost use Rattle.oathd_seats.specs.Commands.{EndsOutputNamed, HasToldRoster};

use crate::fault::SeatsFault;
use crate::seeing::see_named;
use oathd_database::Database;
use oathd_roster::{NamedCluster, write_roster};
use otp_core::Settings;
use sqlite::Alter;
use std::alloc::Global;
use std::io::{Read, Write};

/// Writes a line `row NUMBER NAME FLOOR USER` for each row of the store of `node`, and flushes.
///
/// The store does not change.
/// The number is from 0, as `audit` counts tokens. The name is in lower case hexadecimal. The floor is the first free
/// factor of the row's token at the node. The user is that of the token of the users file, or `-` for a retired token,
/// which the users file hasn't.
///
/// # Errors
/// - Returns `Roster` with the errors of `read_named_users`. The database is not opened.
/// - Returns `NotEnrolled` with the first row of the users file whose token the store hasn't.
/// - Returns `Roster(AnotherCluster)` if the store is bound to another cluster.
/// - Returns `Roster(Command(Store))` if the tables hold no such store, or the store fails.
/// - Returns `Roster(Command(CannotWrite))` if the output fails.
pub fn roster_named_store<'a, R: Read + Drop, S: Alter + Drop, D: Database<S>, W: Write>(
    alloc: Global,
    users: R,
    settings: Settings,
    node: u8,
    cluster: &NamedCluster,
    database: D,
    writer: &mut W,
) -> Result<(), SeatsFault<'a>>
    ensures told { IfOk result (λ _. IfSome (R.remaining users) (HasToldRoster S.Store D.finds cluster.now
        settings 16777216 node (W.contents writer.old) (W.contents writer.new))) }
    ensures fault { IfErr result (λ fault. IfSome (R.remaining users)
        (EndsOutputNamed S.Store D.finds cluster.now settings 16777216 node fault)) }
{
    let (named, looked) = see_named(alloc, users, settings, node, cluster, database)?;
    let store = looked.store.into_inner();
    write_roster(
        &named.users.book,
        &looked.seats,
        &looked.roster,
        &store,
        writer,
    )?;
    Ok(())
}
