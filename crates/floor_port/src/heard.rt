//! The greatest boot in which each member was heard.

ghost use Rattle.std.specs.Prelude.{◌≡◌, slice_index};
ghost use Rattle.floor_port.specs.Packer.{with_boot};

use gatekeeping::PLACES;
use std::marker::Model;

/// The greatest boot in which each member was heard or was known at the start, from member 0 to 9, or 0.
#[derive(Drop)]
pub(crate) struct Heard {
    boots: [u64; PLACES],
}

impl Model for Heard {
    ghost use Rattle.std.specs.Prelude.{ℕ, List};

    ghost Value = { List ℕ };

    ghost view = { λ heard. heard.boots };
}

impl Heard {
    /// Returns the boots that are known at the start.
    pub(crate) fn new(known: [u64; PLACES]) -> Self
        ensures { result ≡ known }
    {
        Heard { boots: known }
    }

    /// Returns the boot of a member, or 0.
    pub(crate) fn boot_of(&self, member: u8) -> u64
        ensures { result ≡ slice_index self.now member }
    {
        self.boots.get(usize::from(member)).copied().unwrap_or(0)
    }

    /// Notes that a member was heard in a boot.
    pub(crate) fn note(&mut self, member: u8, boot: u64)
        ensures { self.new ≡ with_boot self.old member boot }
    {
        let place = usize::from(member);
        if place < PLACES && self.boots[place] < boot {
            self.boots[place] = boot;
        }
    }
}
