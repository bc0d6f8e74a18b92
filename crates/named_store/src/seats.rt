//! Finds the row of each token in a store, by its name.

ghost use Rattle.std.specs.Prelude.{◌≡◌, ◌+◌, ◌≤◌, ◌++◌, ◌∷◌, [], length, is_some, if◌then◌else◌, IsTrue, IfOk, IfErr, OnOk};
ghost use Rattle.std.specs.Option.{unwrap_or};
ghost use Rattle.floor_store.specs.Fault.{is_failure};
ghost use Rattle.floor_store.specs.declared.fault.StoreFault.TheVariants.{Memory, Unusable};
ghost use Rattle.named_store.specs.Seating.{AddsName, AreDistinct, AreNew, AreSeatsOf, HasRowsOf};

use floor_sql::Refusal;
use floor_store::StoreFault;
use roster_sql::{Entry, NAME_LEN};
use std::alloc::Global;
use std::collections::BTreeMap;

/// The rows of tokens in a store, and the tokens that it hasn't.
#[derive(Drop)]
pub struct Seating {
    /// The row of each token. The new tokens have rows behind the others, in order.
    pub seats: Vec<u32>,
    /// The places of the new tokens.
    pub places: Vec<u32>,
    /// The entries of the new tokens.
    pub entries: Vec<Entry>,
}

impl Seating {
    /// Seats a token in its row, or in a new one behind the others.
    fn seat(&mut self, rows: u32, row: Option<u32>, place: u32, entry: Entry) -> Result<(), Refusal>
        requires { rows + length self.old.entries.items ≤ 80000 }
        ensures seats { OnOk result (self.new.seats.items
            ≡ self.old.seats.items ++ unwrap_or row (rows + length self.old.entries.items) ∷ []) }
        ensures places { OnOk result (self.new.places.items
            ≡ (if is_some row then self.old.places.items else self.old.places.items ++ place ∷ [])) }
        ensures entries { OnOk result (self.new.entries.items
            ≡ (if is_some row then self.old.entries.items else self.old.entries.items ++ entry ∷ [])) }
        ensures failure { IfErr result (λ e. e.0 ≡ Memory) }
    {
        let Some(row) = row else {
            self.seats.push(rows + self.entries.len() as u32)?;
            self.places.push(place)?;
            self.entries.push(entry)?;
            return Ok(());
        };
        self.seats.push(row)?;
        Ok(())
    }
}

/// Adds the name of an entry to an index, with its row. Returns the row that it had there, or None.
fn add_name(
    index: &mut BTreeMap<[u8; NAME_LEN], u32>,
    entry: Entry,
    row: u32,
) -> Result<Option<u32>, Refusal>
    ensures adds { IfOk result (λ former. AddsName entry row former index.old index.new) }
    ensures failure { IfErr result (λ e. e.0 ≡ Memory) }
{
    let former = index.insert(entry.name, row)?;
    Ok(former)
}

/// Returns the index of a roster: the row of each name.
fn index_of(alloc: Global, roster: &[Entry]) -> Result<BTreeMap<[u8; NAME_LEN], u32>, Refusal>
    requires { length roster.now ≤ 65536 }
    ensures rows { IfOk result (HasRowsOf roster.now) }
    ensures distinct { OnOk result (AreDistinct roster.now) }
    ensures unusable { IfErr result (λ e. e.0 ≡ Unusable → ¬ AreDistinct roster.now) }
    ensures failure { IfErr result (λ e. IsTrue (is_failure e.0)) }
{
    let mut index = BTreeMap::new(alloc);
    for row in 0..roster.len() {
        let entry = roster[row];
        let former = add_name(&mut index, entry, row as u32)?;
        if former.is_some() {
            return Err(Refusal(StoreFault::Unusable));
        }
    }
    Ok(index)
}

/// Returns the seats of the tokens with the entries `names` in a store with the entries `roster`.
///
/// A token is known by its name. The seed of a token that has a row is not compared.
///
/// # Errors
/// - Returns `Unusable` if two rows of the store have one name, or two tokens do.
/// - Returns `Memory` if the allocator refuses the memory.
pub fn find_seats(alloc: Global, roster: &[Entry], names: &[Entry]) -> Result<Seating, Refusal>
    requires rows { length roster.now ≤ 65536 }
    requires tokens { length names.now ≤ 10000 }
    ensures seats { IfOk result (λ all. AreSeatsOf roster.now names.now all.seats.items) }
    ensures fresh { IfOk result (λ all. AreNew roster.now names.now all.places.items all.entries.items) }
    ensures distinct { OnOk result (AreDistinct roster.now × AreDistinct names.now) }
    ensures unusable { IfErr result (λ e. e.0 ≡ Unusable → ¬ (AreDistinct roster.now × AreDistinct names.now)) }
    ensures failure { IfErr result (λ e. IsTrue (is_failure e.0)) }
{
    // No two tokens have one name.
    index_of(alloc, names)?;
    let index = index_of(alloc, roster)?;
    let mut all = Seating {
        seats: Vec::with_capacity(alloc, names.len())?,
        places: Vec::new(alloc),
        entries: Vec::new(alloc),
    };
    for place in 0..names.len() {
        let entry = names[place];
        let row = index.get(&entry.name).copied();
        all.seat(roster.len() as u32, row, place as u32, entry)?;
    }
    Ok(all)
}
