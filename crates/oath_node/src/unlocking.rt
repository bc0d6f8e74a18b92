//! The unlocking of a token in a node's store.

ghost use Rattle.std.specs.Prelude.{◌≡◌, ◌<◌, length, None, IfErr, OnOk};
ghost use Rattle.floor_store.specs.Held.{Breaks, IsSettled, MayPut, MayWrite};
ghost use Rattle.otp_core.specs.Gate.{clear_gate};
ghost use Rattle.vote_core.specs.Schedule.{content_with_gate};

use crate::rules::row_of;
use floor_store::{FloorStore, StoreFault};

/// Puts a clear gate of a token: the token has no failures, and is open.
fn put_clear_gate<S: FloorStore>(store: &mut S, token: u32) -> Result<(), StoreFault>
    requires { token < length (S.held store.old).content.rows }
    ensures puts { MayPut S.held store.old store.new
        (content_with_gate token clear_gate (S.held store.old).content) result }
    ensures breaks { IfErr result (Breaks S.held store.old store.new) }
{
    let row = row_of(store, token)?;
    let mut gate = row.gate();
    gate.clear();
    store.put(token, row.with_gate(gate), None)
}

/// Clears the gate of a token by one put and its commit. Everything else in the store stays.
pub(crate) fn unlock<S: FloorStore>(store: &mut S, token: u32) -> Result<(), StoreFault>
    requires works { (S.held store.old).fault ≡ None }
    requires token { token < length (S.held store.old).content.rows }
    ensures writes { MayWrite S.held store.old store.new
        (content_with_gate token clear_gate (S.held store.old).content) result }
    ensures settled { (S.held store.new).is_clean → OnOk result (IsSettled (S.held store.new)) }
    ensures breaks { IfErr result (Breaks S.held store.old store.new) }
{
    match put_clear_gate(store, token) {
        Ok(()) => store.commit(),
        Err(fault) => Err(fault),
    }
}
