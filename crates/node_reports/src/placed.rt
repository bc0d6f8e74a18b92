//! The reports of a node over a store that has each token in the row of its place in the users file.

ghost use Rattle.std.specs.Prelude.{◌≡◌, ◌≤◌, length, IfOk};
ghost use Rattle.floors_file.specs.Writing.{floors_text};
ghost use Rattle.oathd_database.specs.Floors.{told_floors};

use crate::named::{gates_text, store_fault_of};
use crate::passes::passes_of;
use crate::source::ReportSource;
use floor_sql::SqlStore;
use floor_store::{FloorStore, Pass, StoreFault};
use floors_file::write_floors;
use oath_node::{Node, NodeFault};
use oathd_database::floors_of;
use operator_text::Report;
use seated_store::SeatedStore;
use sqlite::Alter;
use std::alloc::Global;
use token_file::Book;
use vote_core::Place;

/// What the reports of a node over a store by place tell beside its store.
#[derive(Drop)]
pub struct PlacedRows<'r> {
    /// The number of the node, and the number of members.
    pub place: Place,
    /// The tokens of the users file.
    pub book: &'r Book,
}

/// Returns the text of `oathd floors` for a store with the tokens of a book, at a moment.
fn floors_text<S: FloorStore>(
    alloc: Global,
    book: &Book,
    store: &S,
    place: Place,
    moment: u64,
) -> Result<Vec<u8>, StoreFault>
    requires each { length (S.held store.now).content.rows ≡ length book.now }
    requires few { length book.now ≤ 10000 }
    ensures { (S.held store.now).is_clean → IfOk result (λ text. text.items
        ≡ floors_text (told_floors place.me place.n moment book.now (S.held store.now).content)) }
{
    let floors = match floors_of(alloc, book, store, place.me(), place.n(), moment) {
        Ok(floors) => floors,
        Err(fault) => return Err(store_fault_of(fault)),
    };
    let mut text = Vec::new(alloc);
    match write_floors(&mut text, &floors) {
        Ok(()) => Ok(text),
        Err(_) => Err(StoreFault::Memory),
    }
}

impl<A: Alter + Drop> ReportSource<SeatedStore<SqlStore<A>>> for PlacedRows<'_> {
    ghost use Rattle.std.specs.Prelude.{None};
    ghost use Rattle.node_reports.specs.Reports.{IsPlacedText};

    ghost says = { IsPlacedText A.Store };

    ghost rows = { λ _. None };

    fn all_rows(&self, _store: &SeatedStore<SqlStore<A>>) -> Option<u32> {
        None
    }

    fn text(
        &self,
        alloc: Global,
        store: &SeatedStore<SqlStore<A>>,
        report: Report,
        moment: u64,
    ) -> Result<Option<Vec<u8>>, StoreFault> {
        if store.tokens() as usize != self.book.len() {
            // The node was opened for these tokens.
            return Err(StoreFault::Unusable);
        }
        match report {
            Report::Gates => Ok(Some(gates_text(alloc, self.book, store)?)),
            Report::Floors => {
                Ok(Some(floors_text(alloc, self.book, store, self.place, moment)?))
            }
            Report::Status | Report::Passes | Report::Roster => Ok(None),
        }
    }

    fn passes(
        &self,
        alloc: Global,
        node: &mut Node<'_, SeatedStore<SqlStore<A>>>,
    ) -> Result<Vec<Pass>, NodeFault> {
        passes_of(alloc, node)
    }
}
