//! Rows of names with an index, which finds a name in logarithmic time.

ghost use Rattle.std.specs.Prelude.{◌≡◌, ◌<◌, ◌∷◌, [], ◌++◌, length, IfSome, None, OnErr, OnOk};
ghost use Rattle.floors_file.specs.Gathered.{greater};
ghost use Rattle.floors_file.specs.NamedRows.{place_of_name, raised_at, with_row};

use crate::named::NamedFloor;
use otp_core::Next;
use std::alloc::{AllocError, Global};
use std::collections::BTreeMap;
use std::marker::Model;
use token_names::{NAME_LEN, Name};

/// Rows with an index of the places of their names.
#[derive(Drop)]
pub(crate) struct NamedRows {
    rows: Vec<NamedFloor>,
    index: BTreeMap<[u8; NAME_LEN], usize>,
}

impl Model for NamedRows {
    ghost use Rattle.std.specs.Prelude.{List};
    ghost use Rattle.floors_file.specs.declared.named.NamedFloor.{NamedFloor};
    ghost use Rattle.floors_file.specs.NamedRows.{HasPlaces};

    ghost Value = { List NamedFloor };

    ghost view = { λ rows. rows.rows.items };

    ghost invariant = { λ rows. HasPlaces rows.rows.items rows.index };
}

/// Returns the greater of two floors.
fn greater(one: Next, other: Next) -> Next
    ensures { result ≡ greater one other }
{
    if one.value() <= other.value() {
        other
    } else {
        one
    }
}

impl NamedRows {
    /// Returns no rows.
    pub(crate) fn new(alloc: Global) -> Self
        ensures { result ≡ [] }
    {
        NamedRows {
            rows: Vec::new(alloc),
            index: BTreeMap::new(alloc),
        }
    }

    /// Returns the rows.
    pub(crate) fn into_rows(self) -> Vec<NamedFloor>
        ensures { result.items ≡ self }
    {
        self.rows
    }

    /// Returns the place of a name, or None.
    pub(crate) fn find(&self, name: Name) -> Option<usize>
        ensures place { result ≡ place_of_name name self.now }
        ensures within { IfSome result (λ place. place < length self.now) }
    {
        self.index.get(&name.bytes()).copied()
    }

    /// Adds a row at the end. Its name must be new.
    pub(crate) fn push(&mut self, row: NamedFloor) -> Result<(), AllocError>
        requires { place_of_name row.name self.old ≡ None }
        ensures ok { OnOk result (self.new ≡ self.old ++ row ∷ []) }
        ensures err { OnErr result (self.new ≡ self.old) }
    {
        let name = row.name.bytes();
        let place = self.rows.len();
        self.rows.push(row)?;
        match self.index.insert(name, place) {
            Ok(_) => Ok(()),
            Err(_) => {
                self.rows.pop();
                Err(AllocError)
            }
        }
    }

    /// Raises the floor at a place to `next`, if it is lower.
    fn raise(&mut self, place: usize, next: Next)
        requires { place < length self.old }
        ensures { self.new ≡ raised_at place next self.old }
    {
        let row = self.rows[place];
        let seed = row.seed;
        self.rows[place] = NamedFloor {
            name: row.name,
            seed,
            next: greater(row.next, next),
        };
    }

    /// Adds a row, or raises the floor of its name.
    pub(crate) fn merge(&mut self, row: NamedFloor) -> Result<(), AllocError>
        ensures { OnOk result (self.new ≡ with_row self.old row) }
    {
        match self.find(row.name) {
            Some(place) => {
                self.raise(place, row.next);
                Ok(())
            }
            None => self.push(row),
        }
    }
}
