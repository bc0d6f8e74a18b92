//! The trait of a clock, which tells a node the time.

/// A clock. If it keeps a record of the moments that it told, each call appends one.
pub trait Clock {
    ghost use Rattle.std.specs.Prelude.{ℕ, ◌∷◌, [], List, Option, None};
    ghost use Rattle.datagram_port.specs.Port.{Grows};

    // The moments that it told, in order. None: it keeps no record, or could not keep it.
    ghost moments: { Self → Option (List (Option ℕ)) } = { λ _. None };

    /// Returns the current time in seconds since 1970-01-01 00:00:00 UTC, or None if the clock fails.
    fn moment(&mut self) -> Option<u64>
        ensures { Grows (moments self.old) (moments self.new) (result ∷ []) };
}
