//! Looks at a store of version 3 by the names of the tokens of a users file. Enrols nothing.

ghost use Rattle.std.specs.Prelude.{◌≡◌, ◌≤◌, false, length, IfOk, IfErr};
ghost use Rattle.sqlite.specs.Held.{state};
ghost use Rattle.sqlite.specs.State.{HasCleanDisk};
ghost use Rattle.floor_sql.specs.Calls.{HandsBack};
ghost use Rattle.named_store.specs.Looked.{HasLooked, IsLookFault, IsUnseen};

use crate::fault::{LookFault, NamedFault};
use crate::opening::{open_counted, seated_at};
use crate::reading::find_tokens;
use floor_sql::{SqlStore, StoreFiles};
use floor_store::StoreFault;
use roster_sql::{Bond, Entry};
use seated_store::SeatedStore;
use sqlite::{Alter, Connection};
use std::alloc::Global;

/// A store that is seen by names, with the entries of all its rows.
#[derive(Drop)]
pub struct Looked<S: Alter> {
    /// The entry of each row. Retired tokens have rows.
    pub roster: Vec<Entry>,
    /// The row of each token of the users file, in its order.
    pub seats: Vec<u32>,
    /// The store of these rows.
    pub store: SeatedStore<SqlStore<S>>,
}

/// Opens the store of `node` for the tokens with the entries `names`, each of which has a row.
///
/// The seat of a token is the row with its name. Nothing is enrolled or written. `own` is the cluster that the store
/// has to be bound to. The store watches `files`, if they are given.
///
/// The connection must be outside a transaction and have no limit on its steps. Returns it beside an error, with its
/// tables as they were.
///
/// # Errors
/// - Returns `NotEnrolled` with the place, from 0, of the first token that has no row.
/// - Returns `Named` with `AnotherCluster` if the store is bound to another cluster.
/// - Returns `Named` with `Store(Unusable)` if the tables are not of version 3 or of another node, or a value is out of
///   range. So it does if two rows have one name, or two tokens do.
/// - Returns `Named` with `Store(Memory)` or `Store(Disk)` if the allocator or the database fails.
pub fn look_named<S: Alter>(
    alloc: Global,
    mut conn: Connection<S>,
    node: u8,
    names: &[Entry],
    own: &Bond,
    files: Option<StoreFiles>,
) -> Result<Looked<S>, (Connection<S>, LookFault)>
    requires idle { conn.in_transaction ≡ false }
    requires tokens { length names.now ≤ 10000 }
    ensures looked { IfOk result (λ looked.
        HasLooked S.Store conn node names.now own.now looked.roster.items looked.store) }
    ensures seats { IfOk result (λ looked. looked.seats.items ≡ looked.store.seats) }
    ensures fault { IfErr result (λ e. HasCleanDisk (state S.Store e.0)
        → IsUnseen (state S.Store conn).now node names.now own.now e.1) }
    ensures known { IfErr result (λ e. IsLookFault names.now e.1) }
    ensures kept { IfErr result (λ e. HandsBack S.Store conn e.0 (λ _. ⊥)) }
{
    // For the proof: outside a transaction the connection shows the last commit.
    let _ = conn.is_autocommit();
    let (roster, seating) = match find_tokens(alloc, &mut conn, node, names, own) {
        Ok(found) => found,
        Err(fault) => return Err((conn, LookFault::Named(fault))),
    };
    if let Some(token) = seating.places.first() {
        return Err((conn, LookFault::NotEnrolled { token: *token }));
    }
    let Ok(seats) = Vec::from_slice(alloc, &seating.seats) else {
        return Err((
            conn,
            LookFault::Named(NamedFault::Store(StoreFault::Memory)),
        ));
    };
    let rows = roster.len() as u32;
    match open_counted(alloc, conn, node, rows) {
        Ok(store) => {
            let store = seated_at(store, files, seating.seats);
            Ok(Looked {
                roster,
                seats,
                store,
            })
        }
        Err((conn, fault)) => Err((conn, LookFault::Named(NamedFault::Store(fault)))),
    }
}
