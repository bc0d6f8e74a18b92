//! Finds the rows that stay.

ghost use Rattle.std.specs.Prelude.{◌≡◌, IfOk, OnOk};
ghost use Rattle.std.specs.BTreeMap as tree;
ghost use Rattle.std.specs.Ordering.{nat_cmp};
ghost use Rattle.std.specs.Cmp.Lexicographic.{slice_cmp};
ghost use Rattle.named_store.specs.Floors.{lifted_by};
ghost use Rattle.retired_rows.specs.Staying.{AddsRow, HasGreatestOf, can_go, goes as spec_goes, is_above, named_rows, reaches, staying as spec_staying};

use crate::row::NumberedRow;
use otp_core::Next;
use roster_sql::NAME_LEN;
use std::alloc::{AllocError, Global};
use std::collections::BTreeMap;

/// Returns the greater of the floor of a row and the floor at its seed in the index `greatest`.
fn lifted(greatest: &BTreeMap<[u8; NAME_LEN], Next>, row: &NumberedRow) -> Next
    ensures { result ≡ lifted_by (tree.get (slice_cmp nat_cmp) greatest.now row.now.entry.seed) row.now.row.next }
{
    let floor = row.row.next();
    match greatest.get(&row.entry.seed) {
        Some(next) if floor.value() < next.value() => *next,
        _ => floor,
    }
}

/// Adds the floor of a row to an index of the greatest floors.
fn add_row(
    greatest: &mut BTreeMap<[u8; NAME_LEN], Next>,
    row: &NumberedRow,
) -> Result<(), AllocError>
    ensures { OnOk result (AddsRow row.now greatest.old greatest.new) }
{
    let new = lifted(greatest, row);
    let _former = greatest.insert(row.entry.seed, new)?;
    Ok(())
}

/// Returns the index of the greatest floor of each seed.
fn greatest_floors(
    alloc: Global,
    rows: &[NumberedRow],
) -> Result<BTreeMap<[u8; NAME_LEN], Next>, AllocError>
    ensures { IfOk result (HasGreatestOf rows.now) }
{
    let mut greatest = BTreeMap::new(alloc);
    for row in rows {
        add_row(&mut greatest, row)?;
    }
    Ok(greatest)
}

/// Returns the index of the greatest floor of each seed, of the rows alone that the users file has.
fn greatest_named_floors(
    alloc: Global,
    rows: &[NumberedRow],
) -> Result<BTreeMap<[u8; NAME_LEN], Next>, AllocError>
    ensures { IfOk result (HasGreatestOf (named_rows rows.now)) }
{
    let mut greatest = BTreeMap::new(alloc);
    for row in rows {
        if row.is_named {
            add_row(&mut greatest, row)?;
        }
    }
    Ok(greatest)
}

/// Returns whether the index `greatest` has a greater floor than the row at its seed.
fn has_above(greatest: &BTreeMap<[u8; NAME_LEN], Next>, row: &NumberedRow) -> bool
    ensures { result ≡ is_above (tree.get (slice_cmp nat_cmp) greatest.now row.now.entry.seed) row.now.row.next }
{
    match greatest.get(&row.entry.seed) {
        Some(top) => row.row.next().value() < top.value(),
        None => false,
    }
}

/// Returns whether the index `greatest` has a floor at the row's seed that is at least the row's floor.
fn has_reached(greatest: &BTreeMap<[u8; NAME_LEN], Next>, row: &NumberedRow) -> bool
    ensures { result ≡ reaches (tree.get (slice_cmp nat_cmp) greatest.now row.now.entry.seed) row.now.row.next }
{
    match greatest.get(&row.entry.seed) {
        Some(top) => row.row.next().value() <= top.value(),
        None => false,
    }
}

/// Returns whether a row goes, by the greatest floors of all rows and those of the rows that the users file has.
fn goes(
    all: &BTreeMap<[u8; NAME_LEN], Next>,
    named: &BTreeMap<[u8; NAME_LEN], Next>,
    row: &NumberedRow,
) -> bool
    ensures { result ≡ can_go (tree.get (slice_cmp nat_cmp) all.now row.now.entry.seed)
        (tree.get (slice_cmp nat_cmp) named.now row.now.entry.seed) row.now }
{
    !row.is_named && (has_above(all, row) || has_reached(named, row))
}

/// Returns the rows that stay, in order.
///
/// A row that the users file has stays. A retired row goes if a row with its seed has a greater floor, or if the users
/// file has a row with its seed and a floor that is at least as great. The greatest floor of each seed stays.
///
/// # Errors
/// Returns `AllocError` if the allocator refuses the memory.
pub fn staying_rows(alloc: Global, rows: &[NumberedRow]) -> Result<Vec<NumberedRow>, AllocError>
    ensures { IfOk result (λ kept. kept.items ≡ spec_staying rows.now) }
{
    let all = greatest_floors(alloc, rows)?;
    let named = greatest_named_floors(alloc, rows)?;
    let mut kept = Vec::new(alloc);
    for row in rows {
        if !goes(&all, &named, row) {
            kept.push(*row)?;
        }
    }
    Ok(kept)
}
