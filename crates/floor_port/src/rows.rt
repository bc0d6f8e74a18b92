//! The floors of the rows of a book.

ghost use Rattle.std.specs.Prelude.{◌≡◌, ◌+◌, ◌-◌, ◌<◌, ◌≤◌, length, take, drop, Some, IfOk, IfSome};
ghost use Rattle.arrayvec.specs.ArrayVec.{array_vec_len};
ghost use Rattle.floor_port.specs.Rows as spec;
ghost use Rattle.named_port.specs.Names.{number_of};

use crate::body::MAX_FLOORS;
use crate::floor::NamedFloor;
use crate::fresh::Fresh;
use arrayvec::ArrayVec;
use named_port::Names;
use otp_core::Next;
use std::alloc::{AllocError, Global};
use std::marker::Model;
use token_names::Name;

/// The rows of a book, with the floors that the node bears witness to, and those that it knows. The floors of fresh
/// rows are not told yet.
#[derive(Drop)]
pub(crate) struct Rows<'k> {
    names: &'k Names,
    told: Vec<u64>,
    known: Vec<u64>,
    turn: usize,
    fresh: Fresh,
}

impl<'k> Model for Rows<'k> {
    ghost use Rattle.floor_port.specs.Rows.{AreRows, RowsRecord};

    ghost Value = { RowsRecord };

    ghost view = { λ rows. record {
      names = rows.names.now;
      told = rows.told.items;
      known = rows.known.items;
      turn = rows.turn;
      fresh = rows.fresh;
    } };

    ghost invariant = { λ rows. AreRows (record {
      names = rows.names.now;
      told = rows.told.items;
      known = rows.known.items;
      turn = rows.turn;
      fresh = rows.fresh;
    }) };
}

/// Returns the numbers of floors.
fn numbers_of(alloc: Global, floors: &[Next]) -> Result<Vec<u64>, AllocError>
    ensures { IfOk result (λ numbers. numbers.items ≡ floors.now) }
{
    let mut numbers = Vec::with_capacity(alloc, floors.len())?;
    for place in 0..floors.len() {
        numbers.push(floors[place].value())?;
    }
    Ok(numbers)
}

/// Returns the row of a name, or None.
fn row_of(names: &Names, name: Name) -> Option<u32>
    ensures row { result ≡ number_of names.now name }
    ensures within { IfSome result (λ row. row < length names.now) }
{
    names.number(name)
}

/// Raises the floor of a row, if there is the row and `next` is greater. Returns whether it did.
fn raise(floors: &mut [u64], row: Option<u32>, next: u64) -> bool
    requires { IfSome row (λ row. row < length floors.old) }
    ensures news { result ≡ spec.is_above floors.old row next }
    ensures floors { floors.new ≡ spec.raised floors.old row next }
{
    let Some(row) = row else {
        return false;
    };
    let place = row as usize;
    if floors[place] < next {
        floors[place] = next;
        return true;
    }
    false
}

/// Returns the rows of the names of floors.
fn rows_of(names: &Names, floors: &[NamedFloor]) -> ArrayVec<Option<u32>, MAX_FLOORS>
    requires { length floors.now ≤ 20 }
    ensures { result.items ≡ spec.rows_of names.now floors.now }
{
    let mut rows = ArrayVec::new();
    for place in 0..floors.len() {
        rows.push(row_of(names, floors[place].name));
    }
    rows
}

/// Raises the floors of the given rows to those told. Returns the news. The names are for the clauses.
fn raise_all(
    known: &mut [u64],
    _names: &Names,
    floors: &[NamedFloor],
    rows: &[Option<u32>],
) -> ArrayVec<NamedFloor, MAX_FLOORS>
    requires few { length floors.now ≤ 20 }
    requires each { length known.old ≡ length _names.now }
    requires rows { rows.now ≡ spec.rows_of _names.now floors.now }
    ensures news { result.items ≡ spec.news _names.now known.old floors.now }
    ensures known { known.new ≡ spec.after_floors _names.now known.old floors.now }
{
    let mut news = ArrayVec::new();
    for place in 0..floors.len() {
        let floor = floors[place];
        if raise(known, rows[place], floor.next) {
            news.push(floor);
        }
    }
    news
}

/// Returns the floors of the rows from `first` to `last`, without `last`, that aren't fresh.
fn floors_between(
    names: &Names,
    told: &[u64],
    fresh: &Fresh,
    first: usize,
    last: usize,
) -> ArrayVec<NamedFloor, MAX_FLOORS>
    requires rows { (length told.now ≡ length names.now) × (length told.now ≤ 10000) }
    requires places { (first ≤ last) × ((last ≤ length told.now) × (last ≤ first + 20)) }
    ensures floors { result.items
        ≡ spec.not_fresh fresh.now first (take (last - first) (drop first (spec.named_floors names.now told.now))) }
{
    let mut floors = ArrayVec::new();
    for row in first..last {
        let Some(name) = names.name(row as u32) else {
            return floors;
        };
        if !fresh.has(row as u32) {
            floors.push(NamedFloor {
                name,
                next: told[row],
            });
        }
    }
    floors
}

impl<'k> Rows<'k> {
    /// Returns the rows of a book with the floors of a store.
    pub(crate) fn new(alloc: Global, names: &'k Names, floors: &[Next]) -> Result<Self, AllocError>
        requires few { length floors.now ≤ 10000 }
        requires each { length floors.now ≡ length names.now }
        ensures { IfOk result (λ rows. rows ≡ spec.new_rows names.now floors.now) }
    {
        Ok(Rows {
            names,
            told: numbers_of(alloc, floors)?,
            known: numbers_of(alloc, floors)?,
            turn: 0,
            fresh: Fresh::new(),
        })
    }

    /// Returns the names.
    pub(crate) fn names(&self) -> &'k Names
        ensures { result.now ≡ self.now.names }
    {
        self.names
    }

    /// Returns the number of rows.
    pub(crate) fn len(&self) -> usize
        ensures { result ≡ length self.now.told }
    {
        self.told.len()
    }

    /// Returns the floors that the node bears witness to.
    pub(crate) fn told(&self) -> &[u64]
        ensures { result.now ≡ self.now.told }
    {
        self.told.as_slice()
    }

    /// Returns the number of datagrams that the floors of all rows take.
    pub(crate) fn turns(&self) -> usize
        ensures { result ≡ spec.turns_of self.now }
    {
        self.told.len().div_ceil(MAX_FLOORS)
    }

    /// Notes a floor that the node bears witness to.
    pub(crate) fn note_witness(&mut self, floor: NamedFloor)
        ensures { self.new ≡ spec.after_witness self.old (Some floor) }
    {
        let row = row_of(self.names, floor.name);
        if raise(self.told.as_mut_slice(), row, floor.next) {
            self.fresh.note(row);
        }
        raise(self.known.as_mut_slice(), row, floor.next);
    }

    /// Returns the rows of the names of floors.
    pub(crate) fn rows_of(&self, floors: &[NamedFloor]) -> ArrayVec<Option<u32>, MAX_FLOORS>
        requires { length floors.now ≤ 20 }
        ensures { result.items ≡ spec.rows_of self.now.names floors.now }
    {
        rows_of(self.names, floors)
    }

    /// Notes floors of the given rows that the node is told. Returns those that are news.
    pub(crate) fn take_news(
        &mut self,
        floors: &[NamedFloor],
        rows: &[Option<u32>],
    ) -> ArrayVec<NamedFloor, MAX_FLOORS>
        requires few { length floors.now ≤ 20 }
        requires rows { rows.now ≡ spec.rows_of self.old.names floors.now }
        ensures news { result.items ≡ spec.news self.old.names self.old.known floors.now }
        ensures rows { self.new ≡ spec.after_news self.old floors.now }
    {
        raise_all(self.known.as_mut_slice(), self.names, floors, rows)
    }

    /// Returns the floors that are told next, and goes on to the rows after them. They are those of the next 20 rows
    /// that aren't fresh.
    pub(crate) fn take_turn(&mut self) -> ArrayVec<NamedFloor, MAX_FLOORS>
        ensures floors { result.items ≡ spec.next_floors self.old }
        ensures rows { self.new ≡ spec.after_turn self.old }
        ensures most { array_vec_len result ≤ 20 }
    {
        let first = self.turn;
        let next = first + MAX_FLOORS;
        let told = self.told.as_slice();
        if told.len() <= next {
            self.turn = 0;
            return floors_between(self.names, told, &self.fresh, first, told.len());
        }
        self.turn = next;
        floors_between(self.names, told, &self.fresh, first, next)
    }

    /// Notes that the floors of a quiet turn were told. No row is fresh.
    pub(crate) fn note_telling(&mut self)
        ensures { self.new ≡ spec.after_telling self.old }
    {
        self.fresh.clear();
    }
}
