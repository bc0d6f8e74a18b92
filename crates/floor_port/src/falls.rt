//! The members whose floors fell, for a log.

ghost use Rattle.std.specs.Prelude.{◌≡◌, [], drop, slice_get};
ghost use Rattle.floor_port.specs.Claims as spec;

use arrayvec::ArrayVec;
use gatekeeping::Fell;
use std::marker::Model;

/// The number of places for falls. A member falls once at most.
const PLACES: usize = 10;

/// The falls that a log wasn't told of yet, in order.
#[derive(Drop)]
pub(crate) struct Falls {
    fells: ArrayVec<Fell, PLACES>,
}

impl Model for Falls {
    ghost use Rattle.std.specs.Prelude.{List};
    ghost use Rattle.gatekeeping.specs.declared.gatekeeper.Fell.{Fell as FellMember};

    ghost Value = { List FellMember };

    ghost view = { λ falls. falls.fells.items };
}

impl Falls {
    /// Returns no falls.
    pub(crate) fn new() -> Self
        ensures { result ≡ [] }
    {
        Falls {
            fells: ArrayVec::new(),
        }
    }

    /// Notes a fall, if there was one.
    pub(crate) fn note(&mut self, fell: Option<Fell>)
        ensures { self.new ≡ spec.with_fell self.old fell }
    {
        if let Some(fell) = fell {
            if !self.fells.is_full() {
                self.fells.push(fell);
            }
        }
    }

    /// Takes the first fall, or None.
    pub(crate) fn take_first(&mut self) -> Option<Fell>
        ensures first { result ≡ slice_get self.old 0 }
        ensures rest { self.new ≡ drop 1 self.old }
    {
        self.fells.pop_at(0)
    }
}
