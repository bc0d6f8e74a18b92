//! The passes of a store.

ghost use Rattle.std.specs.Prelude.{◌≡◌, IfErr, OnOk};
ghost use Rattle.sqlite.specs.Held.{state};
ghost use Rattle.sqlite.specs.State.{HasCleanDisk};
ghost use Rattle.floor_sql.specs.Held.{HasCommitted, sql_held};
ghost use Rattle.floor_store.specs.Held.{Breaks, Puts};
ghost use Rattle.oath_node.specs.Reading.{ReadsNode};
ghost use Rattle.seated_store.specs.Seated.{seated_held};

use floor_sql::SqlStore;
use floor_store::{Pass, StoreFault};
use oath_node::{Node, NodeFault, StoreReading};
use seated_store::{BelowReading, SeatedStore};
use sqlite::Alter;
use std::alloc::Global;

/// A list of the committed passes of a store, in the order of their commits.
#[derive(Drop)]
pub struct PassList {
    alloc: Global,
    passes: Vec<Pass>,
}

impl PassList {
    /// Returns a list that was not read yet.
    pub fn new(alloc: Global) -> Self {
        PassList {
            alloc,
            passes: Vec::new(alloc),
        }
    }

    /// Returns the passes.
    pub fn passes(self) -> Vec<Pass>
        ensures { result ≡ self.passes }
    {
        let PassList { passes, .. } = self;
        passes
    }

    /// Reads the passes of a store.
    #[tactic(auto, using(crate::proofs::PassLemmas::audit_keeps))]
    fn read_all<A: Alter>(&mut self, store: &mut SqlStore<A>) -> Result<(), StoreFault>
        ensures keeps { Puts (sql_held A.Store) store.old store.new store.old.mirror result }
        ensures breaks { IfErr result (Breaks (sql_held A.Store) store.old store.new) }
        ensures list { HasCleanDisk (state A.Store store.new.conn)
            → OnOk result (HasCommitted A.Store store.new self.new.passes.items) }
    {
        match store.passes(self.alloc) {
            Ok(passes) => {
                self.passes = passes;
                Ok(())
            }
            Err(fault) => Err(fault),
        }
    }
}

impl<A: Alter> BelowReading<SqlStore<A>> for PassList {
    fn read(&mut self, store: &mut SqlStore<A>) -> Result<(), StoreFault>
        ensures keeps { Puts (sql_held A.Store) store.old store.new store.old.mirror result }
        ensures breaks { IfErr result (Breaks (sql_held A.Store) store.old store.new) }
        ensures list { HasCleanDisk (state A.Store store.new.conn)
            → OnOk result (HasCommitted A.Store store.new self.new.passes.items) }
    {
        self.read_all(store)
    }
}

impl<A: Alter> StoreReading<SqlStore<A>> for PassList {
    fn read(&mut self, store: &mut SqlStore<A>) -> Result<(), StoreFault> {
        self.read_all(store)
    }
}

impl<A: Alter> StoreReading<SeatedStore<SqlStore<A>>> for PassList {
    fn read(&mut self, store: &mut SeatedStore<SqlStore<A>>) -> Result<(), StoreFault> {
        store.read_below(self)
    }
}

/// Returns the committed passes of the store of a node, in the order of their commits. The store keeps its content.
///
/// # Errors
/// Returns `Store` if the store fails, or the allocator refuses the memory. The node is stopped.
pub(crate) fn passes_of<A: Alter + Drop>(
    alloc: Global,
    node: &mut Node<'_, SeatedStore<SqlStore<A>>>,
) -> Result<Vec<Pass>, NodeFault>
    ensures { ReadsNode (seated_held (sql_held A.Store)) node.old node.new result }
{
    let mut list = PassList::new(alloc);
    match node.read(&mut list) {
        Ok(()) => Ok(list.passes()),
        Err(fault) => Err(fault),
    }
}
