//! The write of `unlock`: clears a token's failures.

ghost use Rattle.std.specs.Prelude.{◌<◌, length};
ghost use Rattle.floor_store.specs.Held.{MayWrite};
ghost use Rattle.oathd_database.specs.Unlock.{unlocked_content};

use floor_store::{FloorStore, StoreFault};
use otp_core::Gate;

/// Clears the gate of a token, by one put and its commit: it has no failures and is open. Everything else in the store
/// stays.
///
/// # Errors
/// Returns the fault that broke the store.
pub fn open_gate<S: FloorStore>(store: &mut S, token: u32) -> Result<(), StoreFault>
    requires { token < length (S.held store.old).content.rows }
    ensures { MayWrite S.held store.old store.new (unlocked_content (S.held store.old).content token) result }
{
    let row = match store.row(token) {
        Ok(row) => row,
        Err(fault) => return Err(fault),
    };
    match store.put(token, row.with_gate(Gate::default()), None) {
        Ok(()) => store.commit(),
        Err(fault) => Err(fault),
    }
}
