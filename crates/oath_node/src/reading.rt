//! The trait of what is read of a node's store beside its rows.

use floor_store::{FloorStore, StoreFault};

/// What is read of a node's store beside its rows.
pub trait StoreReading<S: FloorStore> {
    ghost use Rattle.std.specs.Prelude.{IfErr};
    ghost use Rattle.floor_store.specs.Held.{Breaks, Puts};

    /// Reads something of the store, which keeps its content.
    ///
    /// # Errors
    /// Returns the fault that broke the store, before the call or in it.
    fn read(&mut self, store: &mut S) -> Result<(), StoreFault>
        ensures keeps { Puts S.held store.old store.new (S.held store.old).content result }
        ensures breaks { IfErr result (Breaks S.held store.old store.new) };
}
