//! The parts that wait to be sent to a member.

ghost use Rattle.std.specs.Option.{option_map};
ghost use Rattle.std.specs.Prelude.{◌≡◌, [], ◌∷◌, ◌++◌, true};
ghost use Rattle.bundle_port.specs.Bundle.{is_part};
ghost use Rattle.bundle_port.specs.Bundler as spec;

use crate::bundle::{HEAD, HEAD_LEN, append};
use arrayvec::ArrayVec;
use datagram_port::MAX_DATAGRAM_LEN;
use std::marker::Model;

/// The parts that wait to be sent to a member, as the bundle of them.
#[derive(Drop)]
pub(crate) struct Waiting {
    bytes: ArrayVec<u8, MAX_DATAGRAM_LEN>,
}

impl Model for Waiting {
    ghost use Rattle.std.specs.Prelude.{◌≡◌, ℕ, List};
    ghost use Rattle.bundle_port.specs.Bundle.{bundle_bytes, parts_behind};

    ghost Value = { List (List ℕ) };

    ghost view = { λ waiting. parts_behind 3 waiting.bytes.items };

    ghost invariant = { λ waiting. waiting.bytes.items ≡ bundle_bytes (parts_behind 3 waiting.bytes.items) };
}

impl Waiting {
    /// Returns that nothing waits.
    pub(crate) fn new() -> Self
        ensures { result ≡ [] }
    {
        let mut bytes = ArrayVec::new();
        append(&mut bytes, &HEAD);
        Waiting { bytes }
    }

    /// Returns whether there is room for another part.
    pub(crate) fn has_room(&self, part: &[u8]) -> bool
        ensures { result ≡ spec.has_room self.now part.now }
    {
        part.len() < MAX_DATAGRAM_LEN - self.bytes.len()
    }

    /// Appends a part.
    pub(crate) fn push(&mut self, part: &[u8])
        requires part { is_part part.now ≡ true }
        requires room { spec.has_room self.old part.now ≡ true }
        ensures { self.new ≡ self.old ++ part.now ∷ [] }
    {
        self.bytes.push(part.len() as u8);
        append(&mut self.bytes, part);
    }

    /// Returns the datagram of the parts, or None if nothing waits. One part alone is itself the datagram.
    pub(crate) fn datagram(&self) -> Option<&[u8]>
        ensures { option_map (λ bytes. bytes.now) result ≡ spec.datagram_of self.now }
    {
        let bytes = self.bytes.as_slice();
        if bytes.len() <= HEAD_LEN {
            return None;
        }
        let len = bytes[HEAD_LEN] as usize;
        if bytes.len() - HEAD_LEN - 1 == len {
            return Some(&bytes[HEAD_LEN + 1..]);
        }
        Some(bytes)
    }

    /// Forgets the parts.
    pub(crate) fn clear(&mut self)
        ensures { self.new ≡ [] }
    {
        self.bytes.truncate(HEAD_LEN);
    }
}
