//! The trait of the source of the reports on a store.

use floor_store::{FloorStore, Pass, StoreFault};
use oath_node::{Node, NodeFault};
use operator_text::Report;
use std::alloc::Global;

/// The source of the reports on a node over a store.
pub trait ReportSource<S: FloorStore> {
    ghost use Rattle.std.specs.Prelude.{◌≡◌, ℕ, List, IfOk, IfSome, Option};
    ghost use Rattle.oath_node.specs.Reading.{ReadsNode};
    ghost use Rattle.operator_text.specs.declared.request.Report.{Report as AnyReport};

    // What the text of a report on a store says at a moment.
    ghost says: { Self → S → AnyReport → ℕ → List ℕ → Type 0 };

    // The number of all rows of a store, if it knows tokens by their names.
    ghost rows: { S → Option ℕ };

    /// Returns the number of all rows of the store, also of retired tokens, if it knows tokens by their names.
    fn all_rows(&self, store: &S) -> Option<u32>
        ensures { result ≡ rows store.now };

    /// Returns the text of a report on the store, at the given moment, or None if there is no such report.
    ///
    /// # Errors
    /// Returns `Memory` if the allocator refuses the memory, or the fault that broke the store.
    fn text(
        &self,
        alloc: Global,
        store: &S,
        report: Report,
        moment: u64,
    ) -> Result<Option<Vec<u8>>, StoreFault>
        ensures { IfOk result (λ told. IfSome told (λ text.
            says self.now store.now report moment text.items)) };

    /// Returns the committed passes of the store of a node, in the order of their commits. The store keeps its content.
    ///
    /// # Errors
    /// Returns `Store` if the store fails, or the allocator refuses the memory. The node is stopped.
    fn passes(&self, alloc: Global, node: &mut Node<'_, S>) -> Result<Vec<Pass>, NodeFault>
        ensures reads { ReadsNode S.held node.old node.new result };
}
