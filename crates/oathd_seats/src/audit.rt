//! The command `audit`: prints the passes of a store.

ghost use Rattle.std.specs.Prelude.{IfErr, IfOk, IfSome};
ghost use Rattle.oathd_seats.specs.Commands.{EndsOutput, HasAudited};

use crate::fault::SeatsFault;
use crate::naming::Naming;
use crate::seeing::see_store;
use oathd_database::{Database, write_audit};
use otp_core::Settings;
use sqlite::Alter;
use std::alloc::Global;
use std::io::{Read, Write};

/// Writes the committed passes of a store, as [`write_audit`] does. The store does not change.
///
/// The token of a pass is a row of the store, from 0. By names, that is a number as
/// [`roster_named_store`](crate::roster_named_store) counts them, and the passes of retired tokens, which the users
/// file hasn't, are written too.
///
/// # Errors
/// Returns the errors of [`export_store`](crate::export_store).
pub fn audit_store<'a, R: Read + Drop, S: Alter + Drop, D: Database<S>, W: Write>(
    alloc: Global,
    users: R,
    settings: Settings,
    naming: Naming<'_>,
    database: D,
    writer: &mut W,
) -> Result<(), SeatsFault<'a>>
    ensures audited { IfOk result (λ _. IfSome (R.remaining users) (HasAudited S.Store D.finds naming.entry settings
        16777216 (W.contents writer.old) (W.contents writer.new))) }
    ensures fault { IfErr result (λ fault. IfSome (R.remaining users)
        (EndsOutput S.Store D.finds naming.entry settings 16777216 fault)) }
{
    let (_users, store) = see_store(alloc, users, settings, naming, database)?;
    let mut store = store.into_inner();
    write_audit(alloc, &mut store, writer)?;
    Ok(())
}
