//! The command `unlock`: clears a user's failures.

ghost use Rattle.std.specs.Prelude.{◌≡◌, ◌<◌, length, slice_get, Some, IfErr, IfOk, IfSome};
ghost use Rattle.oathd_seats.specs.Unlock.{IsNotUnlocked, Unlocks};

use crate::fault::SeatsFault;
use crate::naming::Naming;
use crate::seeing::see_store;
use floor_sql::SqlStore;
use oathd_database::{Database, Fault, open_gate};
use oathd_roster::RosterFault;
use otp_core::Settings;
use sqlite::Alter;
use std::alloc::Global;
use std::io::Read;

/// Returns the row of a token.
fn seat_at(seats: &[u32], token: u32) -> u32
    requires { token < length seats.now }
    ensures { slice_get seats.now token ≡ Some result }
{
    seats[token as usize]
}

/// Clears the gate of a user's token at a stopped node, and returns the store. The rows of other tokens stay.
///
/// The token is found in the users file by its user, and in the store as `naming` says.
///
/// # Errors
/// - Returns the errors of [`export_store`](crate::export_store) that are of the users file or the store. Nothing is
///   written.
/// - Returns `NoUser` if no token of the users file has this name. Nothing is written.
/// - Returns `Roster(Command(Store))` if the store breaks at the write.
pub fn unlock_store<'a, R: Read + Drop, S: Alter + Drop, D: Database<S>>(
    alloc: Global,
    users: R,
    settings: Settings,
    naming: Naming<'_>,
    user: &'a str,
    database: D,
) -> Result<SqlStore<S>, SeatsFault<'a>>
    ensures unlocked { IfOk result (λ store. IfSome (R.remaining users)
        (Unlocks S.Store D.finds naming.entry settings 16777216 user.now store)) }
    ensures fault { IfErr result (λ fault. IfSome (R.remaining users)
        (IsNotUnlocked S.Store D.finds naming.entry settings 16777216 user.now fault)) }
{
    let (users, store) = match see_store(alloc, users, settings, naming, database) {
        Ok(seen) => seen,
        Err(fault) => return Err(fault),
    };
    let token = match users.book.find(user.as_bytes()) {
        Some(token) => token,
        None => return Err(SeatsFault::NoUser(user)),
    };
    let row = seat_at(store.seats(), token.value());
    let mut store = store.into_inner();
    match open_gate(&mut store, row) {
        Ok(()) => Ok(store),
        Err(fault) => Err(SeatsFault::Roster(RosterFault::Command(Fault::Store(fault)))),
    }
}
