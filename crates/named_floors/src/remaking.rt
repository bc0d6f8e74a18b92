//! Finds the rows of a store that is made from floors files by names.

ghost use Rattle.std.specs.Prelude.{◌≡◌, ◌≤◌, length, IsTrue, IfErr, IfOk, OnOk};
ghost use Rattle.std.specs.Ordering.{nat_cmp};
ghost use Rattle.std.specs.Cmp.Lexicographic.{slice_cmp};
ghost use Rattle.std.specs.BTreeMap as tree;
ghost use Rattle.floor_store.specs.Fault.{is_failure};
ghost use Rattle.floor_store.specs.declared.fault.StoreFault.TheVariants.{Memory, Unusable};
ghost use Rattle.named_store.specs.Seating.{AreDistinct};
ghost use Rattle.named_floors.specs.Remade.{AddsSeed, HasSeeds, entry_with, gathered_entries as spec_gathered_entries, gathered_floors as spec_gathered_floors, remade_entries, remade_floors};

use floor_sql::Refusal;
use floor_store::StoreFault;
use floors_file::NamedFloor;
use named_store::{find_seats, seeded_floors};
use otp_core::Next;
use roster_sql::{Entry, NAME_LEN};
use std::alloc::Global;
use std::collections::BTreeMap;

/// The rows of a store that is made from floors files.
#[derive(Drop)]
pub struct RemadeRows {
    /// The name and the seed of each row. No two rows have one name.
    pub entries: Vec<Entry>,
    /// The floor of each row.
    pub floors: Vec<Next>,
}

/// Adds the seed of an entry to an index, under its name.
fn add_seed(
    index: &mut BTreeMap<[u8; NAME_LEN], [u8; NAME_LEN]>,
    entry: Entry,
) -> Result<(), Refusal>
    ensures adds { OnOk result (AddsSeed entry index.old index.new) }
    ensures failure { IfErr result (λ e. e.0 ≡ Memory) }
{
    index.insert(entry.name, entry.seed)?;
    Ok(())
}

/// Returns the index of `names`: the seed of each name.
fn index_of(
    alloc: Global,
    names: &[Entry],
) -> Result<BTreeMap<[u8; NAME_LEN], [u8; NAME_LEN]>, Refusal>
    ensures seeds { IfOk result (HasSeeds names.now) }
    ensures failure { IfErr result (λ e. e.0 ≡ Memory) }
{
    let mut index = BTreeMap::new(alloc);
    for place in (0..names.len()).rev() {
        let entry = names[place];
        add_seed(&mut index, entry)?;
    }
    Ok(index)
}

/// Returns the entry of a gathered row, with the seed that the index has for its name, or else its own.
fn entry_of(index: &BTreeMap<[u8; NAME_LEN], [u8; NAME_LEN]>, row: NamedFloor) -> Entry
    ensures { result ≡ entry_with (tree.get (slice_cmp nat_cmp) index.now row.name) row }
{
    let name = row.name.bytes();
    let seed = index.get(&name).copied().unwrap_or(row.seed);
    Entry { name, seed }
}

/// Returns the entry of each gathered row: its name, and the seed of the token with that name, or else its own.
fn gathered_entries(
    alloc: Global,
    gathered: &[NamedFloor],
    names: &[Entry],
) -> Result<Vec<Entry>, Refusal>
    ensures entries { IfOk result (λ all. all.items ≡ spec_gathered_entries names.now gathered.now) }
    ensures failure { IfErr result (λ e. e.0 ≡ Memory) }
{
    let index = index_of(alloc, names)?;
    let mut all = Vec::with_capacity(alloc, gathered.len())?;
    for row in gathered {
        all.push(entry_of(&index, *row))?;
    }
    Ok(all)
}

/// Returns the floor of each gathered row.
fn gathered_floors(alloc: Global, gathered: &[NamedFloor]) -> Result<Vec<Next>, Refusal>
    ensures floors { IfOk result (λ all. all.items ≡ spec_gathered_floors gathered.now) }
    ensures failure { IfErr result (λ e. e.0 ≡ Memory) }
{
    let mut all = Vec::with_capacity(alloc, gathered.len())?;
    for row in gathered {
        all.push(row.next)?;
    }
    Ok(all)
}

/// Returns the rows of a store that is made from the rows `gathered` of floors files.
///
/// Each gathered row keeps its floor. It gets the seed of the token with its name, or keeps its own if no token has the
/// name. The tokens whose names no gathered row has follow in order. The floor of each is the greatest of its own floor
/// and the floors of the gathered rows with its seed.
///
/// # Errors
/// - Returns `Unusable` if two gathered rows have one name, or two tokens do.
/// - Returns `Memory` if the allocator refuses the memory.
pub fn remade(
    alloc: Global,
    gathered: &[NamedFloor],
    names: &[Entry],
    floors: &[Next],
) -> Result<RemadeRows, Refusal>
    requires rows { length gathered.now ≤ 65536 }
    requires tokens { length names.now ≤ 10000 }
    requires counted { length floors.now ≡ length names.now }
    ensures entries { IfOk result (λ r. r.entries.items ≡ remade_entries gathered.now names.now) }
    ensures floors { IfOk result (λ r. r.floors.items ≡ remade_floors gathered.now names.now floors.now) }
    ensures distinct { OnOk result (AreDistinct (remade_entries gathered.now names.now)) }
    ensures unusable { IfErr result (λ e. e.0 ≡ Unusable
        → ¬ (AreDistinct (spec_gathered_entries names.now gathered.now) × AreDistinct names.now)) }
    ensures failure { IfErr result (λ e. IsTrue (is_failure e.0)) }
{
    let mut entries = gathered_entries(alloc, gathered, names)?;
    let mut held = gathered_floors(alloc, gathered)?;
    let seating = find_seats(alloc, &entries, names)?;
    let raised = match seeded_floors(alloc, &entries, &held, names, floors, &seating.places) {
        Ok(raised) => raised,
        Err(_) => return Err(Refusal(StoreFault::Memory)),
    };
    entries.extend_from_slice(&seating.entries)?;
    held.extend_from_slice(&raised)?;
    Ok(RemadeRows {
        entries,
        floors: held,
    })
}
