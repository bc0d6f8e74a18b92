ghost use Rattle.std.specs.Prelude.{◌≡◌, length, IfErr, IfOk, IfSome};
ghost use Rattle.otp_core.specs.Range.{IsMoment};
ghost use Rattle.named_store.specs.Entries.{entries_of as spec_entries_of};
ghost use Rattle.named_store.specs.Seating.{AreDistinct};
ghost use Rattle.oathd_database.specs.Users.{IsImported};
ghost use Rattle.oathd_roster.specs.Users.{IsUnnamed};

use crate::fault::RosterFault;
use named_store::entries_of;
use oathd_database::{Users, read_users};
use otp_core::Settings;
use roster_sql::Entry;
use std::alloc::Global;
use std::io::Read;
use token_names::Salt;

/// The tokens of a users file, the floors of their import (floor: the first free factor), and their entries.
#[derive(Drop)]
pub struct NamedUsers {
    pub users: Users,
    /// The entry of each token, in the order of the rows.
    pub entries: Vec<Entry>,
    ghost each: { length entries.items ≡ length users.book },
    ghost distinct: { AreDistinct entries.items },
}

/// Reads a users file to its end, imports its tokens at the given moment, and computes their entries under `salt`.
///
/// The moment is in seconds since 1970-01-01 00:00:00 UTC, 0 to 1099511627775.
///
/// # Errors
/// - Returns the errors of [`read_users`].
/// - Returns `SameName` with the first row whose token has the name of an earlier one.
/// - Returns `Command(Memory)` if the allocator refuses the memory.
pub fn read_named_users<R: Read + Drop>(
    alloc: Global,
    reader: R,
    settings: Settings,
    moment: u64,
    salt: &Salt,
) -> Result<NamedUsers, RosterFault>
    requires { IsMoment moment }
    ensures imported { IfOk result (λ named. IfSome (R.remaining reader)
        (IsImported settings moment 16777216 named.users.book named.users.floors.items)) }
    ensures entries { IfOk result (λ named. named.entries.items ≡ spec_entries_of salt.now named.users.book) }
    ensures fault { IfErr result (λ fault. IfSome (R.remaining reader)
        (IsUnnamed salt.now settings moment 16777216 fault)) }
{
    let users = read_users(alloc, reader, settings, moment)?;
    let entries = entries_of(alloc, salt, &users.book)?;
    Ok(NamedUsers { users, entries })
}
