//! The names of the tokens of a book, with an index.
//!
//! The index has names by their values, numbers of 128 bits: two of them are compared at once, and not byte by byte.

ghost use Rattle.std.specs.Prelude.{◌≡◌, ◌<◌, ◌≤◌, length, slice_get, map, IfOk, IfSome};
ghost use Rattle.token_names.specs.Names.{AreDistinct};
ghost use Rattle.named_port.specs.Names.{HasNumbers, IsName, number_of, value_of};

use std::alloc::{AllocError, Global};
use std::collections::BTreeMap;
use std::marker::Model;
use token_names::Name;

/// The names of the tokens of a book, at most 10,000, in the order of its rows. No two are the same.
#[derive(Drop)]
pub struct Names {
    names: Vec<Name>,
    index: BTreeMap<u128, u32>,
}

impl Model for Names {
    ghost use Rattle.std.specs.Prelude.{ℕ, List};
    ghost use Rattle.named_port.specs.Names.{IsIndexed};

    ghost Value = { List (List ℕ) };

    ghost view = { λ names. names.names.items };

    ghost invariant = { λ names. IsIndexed names.names.items names.index };
}

/// Returns the value of `name`: the number that its bytes write, the highest first.
fn value_of_name(name: Name) -> u128
    ensures value { result ≡ value_of name }
    ensures name { IsName name }
{
    u128::from_be_bytes(name.bytes())
}

/// Returns the index of `names`: the number of each, under its value.
fn index_of(alloc: Global, names: &[Name]) -> Result<BTreeMap<u128, u32>, AllocError>
    requires { length names.now ≤ 10000 }
    ensures { IfOk result (HasNumbers names.now) }
{
    let mut index = BTreeMap::new(alloc);
    for number in (0..names.len()).rev() {
        index.insert(value_of_name(names[number]), number as u32)?;
    }
    Ok(index)
}

impl Names {
    /// Returns the names with an index.
    pub fn new(alloc: Global, names: Vec<Name>) -> Result<Self, AllocError>
        requires few { length names.items ≤ 10000 }
        requires distinct { AreDistinct names.items }
        ensures { IfOk result (λ indexed. indexed ≡ names.items) }
    {
        let index = index_of(alloc, &names)?;
        Ok(Names { names, index })
    }

    /// Returns the name of the token with the number `number`, or None.
    pub fn name(&self, number: u32) -> Option<Name>
        ensures name { result ≡ slice_get self.now number }
        ensures own { IfSome result (λ name. number_of self.now name ≡ Some number) }
    {
        self.names.get(number as usize).copied()
    }

    /// Returns the number of the token with the name `name`, or None.
    pub fn number(&self, name: Name) -> Option<u32>
        ensures number { result ≡ number_of self.now name }
        ensures named { IfSome result (λ number. slice_get self.now number ≡ Some name) }
    {
        self.index.get(&value_of_name(name)).copied()
    }
}
