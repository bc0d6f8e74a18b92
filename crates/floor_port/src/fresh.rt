//! The rows whose floors are not told yet.

ghost use Rattle.std.specs.Prelude.{◌≡◌, []};
ghost use Rattle.floor_port.specs.Rows as spec;

use arrayvec::ArrayVec;
use std::marker::Model;

/// The maximum number of fresh rows.
const MAX_FRESH: usize = 64;

/// The fresh rows: the node raised the floor of each by a witness since the last quiet turn.
///
/// The first 64 are remembered. The floor of a further one is told at the next quiet turn.
#[derive(Drop)]
pub(crate) struct Fresh {
    rows: ArrayVec<u32, MAX_FRESH>,
}

impl Model for Fresh {
    ghost use Rattle.std.specs.Prelude.{ℕ, List};

    ghost Value = { List ℕ };

    ghost view = { λ fresh. fresh.rows.items };
}

impl Fresh {
    /// Returns that no row is fresh.
    pub(crate) fn new() -> Self
        ensures { result ≡ [] }
    {
        Fresh {
            rows: ArrayVec::new(),
        }
    }

    /// Returns whether a row is fresh.
    pub(crate) fn has(&self, row: u32) -> bool
        ensures { result ≡ spec.is_fresh self.now row }
    {
        self.rows.as_slice().contains(&row)
    }

    /// Notes that a row is fresh, if there is the row.
    pub(crate) fn note(&mut self, row: Option<u32>)
        ensures { self.new ≡ spec.with_fresh self.old row }
    {
        if let Some(row) = row {
            if !self.rows.is_full() && !self.has(row) {
                self.rows.push(row);
            }
        }
    }

    /// Notes that no row is fresh.
    pub(crate) fn clear(&mut self)
        ensures { self.new ≡ [] }
    {
        self.rows.clear();
    }
}
