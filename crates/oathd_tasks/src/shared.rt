//! Finds the rows of a users file that have one secret.

ghost use Rattle.std.specs.Prelude.{IfOk};
ghost use Rattle.oathd_tasks.specs.Notes.{IsSharedOf};

use crate::check::tokens_of;
use oathd_lines::Fault;
use otp_core::Settings;
use shared_secrets::{SharedSecret, shared_secret};
use std::alloc::Global;

/// Returns the first two rows of a users file that have one secret, as a node with these settings reads it, or None.
///
/// # Errors
///
/// - Returns `Users` with the first faulty line.
/// - Returns `Memory` if the allocator refuses the memory.
pub fn shared_in(
    alloc: Global,
    rows: &[u8],
    settings: Settings,
) -> Result<Option<SharedSecret>, Fault>
    ensures { IfOk result (IsSharedOf settings rows.now) }
{
    let book = match tokens_of(alloc, rows, settings) {
        Ok(book) => book,
        Err(fault) => return Err(Fault::Users(fault)),
    };
    match shared_secret(alloc, &book) {
        Ok(shared) => Ok(shared),
        Err(_) => Err(Fault::Memory),
    }
}
