//! Finds the floor of a token that a store hasn't.

ghost use Rattle.std.specs.Prelude.{◌≡◌, ◌<◌, length, All, IsTrue, IfOk, IfErr, OnOk};
ghost use Rattle.std.specs.BTreeMap as tree;
ghost use Rattle.std.specs.Ordering.{nat_cmp};
ghost use Rattle.std.specs.Cmp.Lexicographic.{slice_cmp};
ghost use Rattle.floor_store.specs.Fault.{is_failure};
ghost use Rattle.named_store.specs.Floors.{AddsFloor, HasGreatest, lifted_by, rise as spec_rise, seeded_floors as spec_seeded_floors};

use floor_sql::{Put, Refusal};
use floor_store::Row;
use otp_core::Next;
use roster_sql::{Entry, NAME_LEN};
use std::alloc::Global;
use std::collections::BTreeMap;

/// Returns the floor of each token at the given places, in order.
///
/// It is the greatest of the token's own floor and of the floors `held` of all rows with its seed. A device that gets
/// another name goes on where it was.
///
/// # Errors
/// Returns `Memory` if the allocator refuses the memory.
pub fn seeded_floors(
    alloc: Global,
    roster: &[Entry],
    held: &[Next],
    names: &[Entry],
    floors: &[Next],
    places: &[u32],
) -> Result<Vec<Next>, Refusal>
    requires rows { length held.now ≡ length roster.now }
    requires tokens { length floors.now ≡ length names.now }
    requires places { All (λ place. place < length names.now) places.now }
    ensures floors { IfOk result (λ all.
        all.items ≡ spec_seeded_floors roster.now held.now names.now floors.now places.now) }
    ensures failure { IfErr result (λ e. IsTrue (is_failure e.0)) }
{
    let greatest = greatest_floors(alloc, roster, held)?;
    let mut all = Vec::with_capacity(alloc, places.len())?;
    for place in places {
        let at = *place as usize;
        all.push(lifted(&greatest, &names[at].seed, floors[at]))?;
    }
    Ok(all)
}

/// Returns the greater of `floor` and the floor at the seed in the index `greatest`.
fn lifted(greatest: &BTreeMap<[u8; NAME_LEN], Next>, seed: &[u8; NAME_LEN], floor: Next) -> Next
    ensures { result ≡ lifted_by (tree.get (slice_cmp nat_cmp) greatest.now seed.now) floor }
{
    match greatest.get(seed) {
        Some(next) if floor.value() < next.value() => *next,
        _ => floor,
    }
}

/// Adds the floor `next` of a row to an index of the greatest floors.
fn add_floor(
    greatest: &mut BTreeMap<[u8; NAME_LEN], Next>,
    entry: Entry,
    next: Next,
) -> Result<(), Refusal>
    ensures adds { OnOk result (AddsFloor entry next greatest.old greatest.new) }
    ensures failure { IfErr result (λ e. IsTrue (is_failure e.0)) }
{
    let new = lifted(greatest, &entry.seed, next);
    let _former = greatest.insert(entry.seed, new)?;
    Ok(())
}

/// Returns the index of the greatest floor of each seed.
pub(crate) fn greatest_floors(
    alloc: Global,
    roster: &[Entry],
    held: &[Next],
) -> Result<BTreeMap<[u8; NAME_LEN], Next>, Refusal>
    requires { length held.now ≡ length roster.now }
    ensures floors { IfOk result (HasGreatest roster.now held.now) }
    ensures failure { IfErr result (λ e. IsTrue (is_failure e.0)) }
{
    let mut greatest = BTreeMap::new(alloc);
    for row in 0..roster.len() {
        let entry = roster[row];
        let next = held[row];
        add_floor(&mut greatest, entry, next)?;
    }
    Ok(greatest)
}

/// Returns the put that raises a row to the greatest floor of its seed, or None if it has no lower one.
pub(crate) fn rise_of(
    greatest: &BTreeMap<[u8; NAME_LEN], Next>,
    seed: &[u8; NAME_LEN],
    token: u32,
    row: Row,
) -> Option<Put>
    ensures { result ≡ spec_rise token row (lifted_by (tree.get (slice_cmp nat_cmp) greatest.now seed.now) row.next) }
{
    let floor = lifted(greatest, seed, row.next());
    if row.next().value() < floor.value() {
        Some(Put {
            token,
            row: row.with_next(floor),
            pass: None,
        })
    } else {
        None
    }
}
