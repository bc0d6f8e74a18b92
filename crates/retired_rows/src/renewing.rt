//! Computes the puts that fill a new store with the rows that stay.

ghost use Rattle.std.specs.Prelude.{◌≡◌, ◌<◌, ◌≤◌, ◌+◌, ◌++◌, All, IfOk, OnOk, length, option_map, option_to_list};
ghost use Rattle.retired_rows.specs.Renewed.{HasPlaces, pass_put, puts_of, renumbered_pass, row_puts};

use crate::row::NumberedRow;
use floor_sql::Put;
use floor_store::Pass;
use std::alloc::{AllocError, Global};
use std::collections::BTreeMap;

/// Returns the index of the rows, with the place of each number. Of two rows with one number it has the first.
fn places_of(alloc: Global, kept: &[NumberedRow]) -> Result<BTreeMap<u32, u32>, AllocError>
    requires { length kept.now ≤ 65536 }
    ensures { IfOk result (HasPlaces kept.now) }
{
    let mut places = BTreeMap::new(alloc);
    for place in (0..kept.len()).rev() {
        let _former = places.insert(kept[place].token, place as u32)?;
    }
    Ok(places)
}

/// Returns the pass with the token `place`.
fn renumber(pass: Pass, place: u32) -> Pass
    requires { place < 65536 }
    ensures { result ≡ record pass { token = place } }
{
    Pass::new(place, pass.span(), pass.boot(), pass.seq()).unwrap()
}

/// Returns the put of a pass, or None if no row has its token.
fn put_of(kept: &[NumberedRow], places: &BTreeMap<u32, u32>, pass: Pass) -> Option<Put>
    requires rows { length kept.now ≤ 65536 }
    requires places { HasPlaces kept.now places.now }
    ensures { result ≡ option_map (pass_put kept.now) (renumbered_pass kept.now pass) }
{
    let Some(place) = places.get(&pass.token()).copied() else {
        return None;
    };
    Some(Put {
        token: place,
        row: kept[place as usize].row,
        pass: Some(renumber(pass, place)),
    })
}

/// Adds a value to others, if it is Some.
fn push_some<T: Copy>(all: &mut Vec<T>, item: Option<T>) -> Result<(), AllocError>
    ensures { OnOk result (all.new.items ≡ all.old.items ++ option_to_list item) }
{
    if let Some(item) = item {
        all.push(item)?;
    }
    Ok(())
}

/// Adds the put of each row without a pass, in order.
fn push_rows(puts: &mut Vec<Put>, kept: &[NumberedRow]) -> Result<(), AllocError>
    requires { length kept.now ≤ 65536 }
    ensures { OnOk result (puts.new.items ≡ puts.old.items ++ row_puts kept.now) }
{
    for place in 0..kept.len() {
        puts.push(Put {
            token: place as u32,
            row: kept[place].row,
            pass: None,
        })?;
    }
    Ok(())
}

/// Returns the puts that fill a new store with the rows `kept`. The new number of a row is its place in `kept`.
///
/// The puts of the passes come first, in order, each with the new number of its token. A pass whose token is the number
/// of no row is left out. A put of each row without a pass follows, so that the store has each row as it is in `kept`.
///
/// # Errors
/// Returns `AllocError` if the allocator refuses the memory.
pub fn renewing_puts(
    alloc: Global,
    kept: &[NumberedRow],
    passes: &[Pass],
) -> Result<Vec<Put>, AllocError>
    requires { length kept.now ≤ 65536 }
    ensures puts { IfOk result (λ puts. puts.items ≡ puts_of kept.now passes.now) }
    ensures within { IfOk result (λ puts. All (λ put. put.token < length kept.now) puts.items) }
    ensures count { IfOk result (λ puts. length puts.items ≤ length passes.now + length kept.now) }
{
    let places = places_of(alloc, kept)?;
    let mut puts = Vec::new(alloc);
    for pass in passes {
        let put = put_of(kept, &places, *pass);
        push_some(&mut puts, put)?;
    }
    push_rows(&mut puts, kept)?;
    Ok(puts)
}
