//! The command `export`: prints the users file with the floors of its tokens in a store.

ghost use Rattle.std.specs.Prelude.{IfErr, IfOk, IfSome};
ghost use Rattle.oathd_seats.specs.Commands.{EndsOutput, HasExported};

use crate::fault::SeatsFault;
use crate::naming::Naming;
use crate::seeing::see_store;
use oathd_database::{Database, write_rows};
use otp_core::Settings;
use sqlite::Alter;
use std::alloc::Global;
use std::io::{Read, Write};

/// Writes each token of the users file with its floor in the store, as [`write_rows`] does.
///
/// The store does not change.
///
/// A floor is the first free factor of a token at a node. The tokens stand in the order of the users file. By names,
/// retired tokens, which the users file hasn't, are left out.
///
/// # Errors
/// - Returns `Roster` with the errors of `read_users`, or by names with those of `read_named_users`. The database is
///   not opened.
/// - Returns `NotEnrolled` with the first row of the users file whose name the store hasn't.
/// - Returns `Roster(AnotherCluster)` if the store is bound to another cluster.
/// - Returns `Roster(Command(Store))` if the tables hold no such store, or the store fails.
/// - Returns `Roster(Command(CannotWrite))` if the output fails.
pub fn export_store<'a, R: Read + Drop, S: Alter + Drop, D: Database<S>, W: Write>(
    alloc: Global,
    users: R,
    settings: Settings,
    naming: Naming<'_>,
    database: D,
    writer: &mut W,
) -> Result<(), SeatsFault<'a>>
    ensures exported { IfOk result (λ _. IfSome (R.remaining users) (HasExported S.Store D.finds naming.entry settings
        16777216 (W.contents writer.old) (W.contents writer.new))) }
    ensures fault { IfErr result (λ fault. IfSome (R.remaining users)
        (EndsOutput S.Store D.finds naming.entry settings 16777216 fault)) }
{
    let (users, store) = see_store(alloc, users, settings, naming, database)?;
    write_rows(&users.book, &store, writer)?;
    Ok(())
}
