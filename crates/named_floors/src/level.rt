//! Raises the floors of a store to the gathered floors of their names.

ghost use Rattle.std.specs.Prelude.{◌≡◌, ◌<◌, length, IfOk, Option};
ghost use Rattle.floor_store.specs.Held.{MayPut};
ghost use Rattle.named_floors.specs.Level.{HasFloors, Levels, raised, row_of, told_at, told_by};

use crate::rows::entry_at;
use floor_store::{FloorStore, Row, StoreFault};
use floors_file::NamedFloor;
use otp_core::Next;
use roster_sql::{Entry, NAME_LEN};
use std::alloc::{AllocError, Global};
use std::collections::BTreeMap;

/// Returns the index of `gathered`: the floor of each name.
fn floors_by_name(
    alloc: Global,
    gathered: &[NamedFloor],
) -> Result<BTreeMap<[u8; NAME_LEN], Next>, AllocError>
    ensures { IfOk result (HasFloors gathered.now) }
{
    let mut index = BTreeMap::new(alloc);
    for place in (0..gathered.len()).rev() {
        let row = gathered[place];
        index.insert(row.name.bytes(), row.next)?;
    }
    Ok(index)
}

/// Reads the row of `token`.
fn read_row<S: FloorStore>(store: &S, token: u32) -> Result<Row, StoreFault>
    requires { token < length (S.held store.now).content.rows }
    ensures { (S.held store.now).is_clean → IfOk result (λ row. row ≡ row_of (S.held store.now).content token) }
{
    store.row(token)
}

/// Puts the floor of `token` if it is greater than the row's.
#[tactic(auto, unfolding(crate::specs::Level::raised))]
fn raise_row<S: FloorStore>(store: &mut S, token: u32, floor: Next) -> Result<(), StoreFault>
    requires { token < length (S.held store.old).content.rows }
    ensures { MayPut S.held store.old store.new (raised token floor (S.held store.old).content) result }
{
    let row = read_row(store, token)?;
    if row.next().value() < floor.value() {
        store.put(token, row.with_next(floor), None)?;
    }
    Ok(())
}

/// Puts the floor `told` of `token`, if there is one and it is greater than the row's.
fn level_row<S: FloorStore>(store: &mut S, token: u32, told: Option<Next>) -> Result<(), StoreFault>
    requires { token < length (S.held store.old).content.rows }
    ensures { MayPut S.held store.old store.new (told_at token told (S.held store.old).content) result }
{
    match told {
        Some(floor) => raise_row(store, token, floor),
        None => Ok(()),
    }
}

/// Raises each lower floor of a row to the gathered floor of its name, and commits.
///
/// `roster` has the entry of each row. A row whose name is not gathered keeps its floor, and a name without a row is
/// passed over. The rest of a row stays. A stop or a fault leaves a prefix of the rows raised and the others unchanged.
///
/// # Errors
/// - Returns `Memory` if the allocator refuses the memory for an index. The store is then unchanged.
/// - Returns the errors of the store.
pub fn level_named<S: FloorStore>(
    alloc: Global,
    store: &mut S,
    roster: &[Entry],
    gathered: &[NamedFloor],
) -> Result<(), StoreFault>
    requires { length (S.held store.old).content.rows ≡ length roster.now }
    ensures { Levels S.held store.old store.new (told_by gathered.now roster.now) result }
{
    let Ok(index) = floors_by_name(alloc, gathered) else {
        return Err(StoreFault::Memory);
    };
    for token in 0..store.tokens() {
        let told = index.get(&entry_at(roster, token).name).copied();
        level_row(store, token, told)?;
    }
    store.commit()
}
