//! The command `gates`: prints the gates that have failures of the tokens of a users file.

ghost use Rattle.std.specs.Prelude.{IfErr, IfOk, IfSome};
ghost use Rattle.oathd_seats.specs.Commands.{EndsOutput, HasToldGates};

use crate::fault::SeatsFault;
use crate::naming::Naming;
use crate::seeing::see_store;
use oathd_database::{Database, write_gates};
use otp_core::Settings;
use sqlite::Alter;
use std::alloc::Global;
use std::io::{Read, Write};

/// Writes the gates that have failures in a store, as [`write_gates`] does. The store does not change.
///
/// The tokens stand in the order of the users file. By names, retired tokens, which the users file hasn't, are left
/// out.
///
/// # Errors
/// Returns the errors of [`export_store`](crate::export_store).
pub fn gates_store<'a, R: Read + Drop, S: Alter + Drop, D: Database<S>, W: Write>(
    alloc: Global,
    users: R,
    settings: Settings,
    naming: Naming<'_>,
    database: D,
    writer: &mut W,
) -> Result<(), SeatsFault<'a>>
    ensures told { IfOk result (λ _. IfSome (R.remaining users) (HasToldGates S.Store D.finds naming.entry settings
        16777216 (W.contents writer.old) (W.contents writer.new))) }
    ensures fault { IfErr result (λ fault. IfSome (R.remaining users)
        (EndsOutput S.Store D.finds naming.entry settings 16777216 fault)) }
{
    let (users, store) = see_store(alloc, users, settings, naming, database)?;
    write_gates(&users.book, &store, writer)?;
    Ok(())
}
