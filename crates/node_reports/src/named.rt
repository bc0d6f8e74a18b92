//! The reports of a node over a store that has its tokens by their names.

ghost use Rattle.std.specs.Prelude.{◌≡◌, ◌≤◌, length, replicate, IfOk};
ghost use Rattle.floors_file.specs.NamedWriting.{named_floors_text};
ghost use Rattle.named_floors.specs.Told.{telling_value, told_named};
ghost use Rattle.oathd_roster.specs.Roster.{roster_text};
ghost use Rattle.node_reports.specs.Reports.{telling_of};
ghost use Rattle.oathd_database.specs.Gates.{gates_text};

use crate::passes::passes_of;
use crate::source::ReportSource;
use floor_sql::SqlStore;
use floor_store::{FloorStore, Pass, StoreFault};
use floors_file::write_named_floors;
use named_floors::{TellingNode, named_floors_of};
use oath_node::{Node, NodeFault};
use oathd_database::{Fault, write_gates};
use oathd_roster::write_roster;
use operator_text::Report;
use roster_sql::{Bond, Entry};
use seated_store::SeatedStore;
use sqlite::Alter;
use std::alloc::Global;
use token_file::Book;

/// What the reports of a node over a store by names tell beside its store.
#[derive(Drop)]
pub struct NamedRows<'r> {
    /// The number of the node.
    pub node: u8,
    /// The tokens of the users file.
    pub book: &'r Book,
    /// The entry of each row of the store, also of a retired token.
    pub roster: Vec<Entry>,
    /// The cluster.
    pub own: &'r Bond,
    /// The own key of the cluster, under which floors files have their MAC.
    pub key: &'r [u8],
}

/// Returns the fault of a store for the fault of a command that writes to a text in memory.
pub(crate) fn store_fault_of(fault: Fault) -> StoreFault
    ensures { (broken : StoreFault) → fault ≡ Fault.Store broken → result ≡ broken }
{
    match fault {
        Fault::Store(fault) => fault,
        // The writes to a text in memory fail only for want of memory.
        _ => StoreFault::Memory,
    }
}

/// Returns the text of `oathd gates` for a store with the tokens of a book.
pub fn gates_text<S: FloorStore>(
    alloc: Global,
    book: &Book,
    store: &S,
) -> Result<Vec<u8>, StoreFault>
    requires { length (S.held store.now).content.rows ≡ length book.now }
    ensures { (S.held store.now).is_clean → IfOk result (λ text.
        text.items ≡ gates_text book.now (S.held store.now).content.rows) }
{
    let mut text = Vec::new(alloc);
    match write_gates(book, store, &mut text) {
        Ok(()) => Ok(text),
        Err(fault) => Err(store_fault_of(fault)),
    }
}

/// Returns the text of `oathd roster` for a store with the entries `roster`, whose tokens of a book have the rows
/// `seats`.
pub fn roster_text<S: FloorStore>(
    alloc: Global,
    book: &Book,
    seats: &[u32],
    roster: &[Entry],
    store: &S,
) -> Result<Vec<u8>, StoreFault>
    requires few { length book.now ≤ 10000 }
    requires each { length seats.now ≡ length book.now }
    requires rows { length (S.held store.now).content.rows ≡ length roster.now }
    ensures { (S.held store.now).is_clean → IfOk result (λ text.
        text.items ≡ roster_text book.now seats.now roster.now (S.held store.now).content.rows) }
{
    let mut text = Vec::new(alloc);
    match write_roster(book, seats, roster, store, &mut text) {
        Ok(()) => Ok(text),
        Err(fault) => Err(store_fault_of(fault)),
    }
}

/// Returns the text of `oathd floors` for a store by names with the entries `roster`, with its MAC under the cluster's
/// own key. The node tells no boots of other members.
pub fn floors_text<S: FloorStore>(
    alloc: Global,
    key: &[u8],
    telling: TellingNode<'_>,
    roster: &[Entry],
    store: &S,
) -> Result<Vec<u8>, StoreFault>
    requires { length (S.held store.now).content.rows ≡ length roster.now }
    ensures { (S.held store.now).is_clean → IfOk result (λ text. text.items ≡ named_floors_text key.now
        (told_named (telling_value telling.entry) roster.now (replicate 10 0) (S.held store.now).content)) }
{
    let floors = named_floors_of(alloc, store, roster, telling, &[0; 10])?;
    let (head, rows, heard) = (floors.head, &floors.rows, &floors.heard);
    let mut text = Vec::new(alloc);
    match write_named_floors(alloc, &mut text, key, head, rows, heard) {
        Ok(()) => Ok(text),
        Err(_) => Err(StoreFault::Memory),
    }
}

impl NamedRows<'_> {
    /// Returns the node that tells its floors at a moment.
    fn telling(&self, moment: u64) -> TellingNode<'_>
        ensures { telling_value result ≡ telling_of self.now moment }
    {
        TellingNode {
            node: self.node,
            members: self.own.members(),
            moment,
            names: self.own.names(),
            life: self.own.life(),
        }
    }
}

impl<A: Alter + Drop> ReportSource<SeatedStore<SqlStore<A>>> for NamedRows<'_> {
    ghost use Rattle.node_reports.specs.Reports.{IsNamedText, rows_below};

    ghost says = { IsNamedText A.Store };

    ghost rows = { rows_below };

    fn all_rows(&self, store: &SeatedStore<SqlStore<A>>) -> Option<u32> {
        Some(store.inner().tokens())
    }

    fn text(
        &self,
        alloc: Global,
        store: &SeatedStore<SqlStore<A>>,
        report: Report,
        moment: u64,
    ) -> Result<Option<Vec<u8>>, StoreFault> {
        let rows = store.inner();
        let are_fit = store.tokens() as usize == self.book.len();
        if !are_fit || rows.tokens() as usize != self.roster.len() {
            // The node was opened for these tokens.
            return Err(StoreFault::Unusable);
        }
        match report {
            Report::Gates => Ok(Some(gates_text(alloc, self.book, store)?)),
            Report::Floors => {
                let telling = self.telling(moment);
                Ok(Some(floors_text(alloc, self.key, telling, &self.roster, rows)?))
            }
            Report::Roster => {
                Ok(Some(roster_text(alloc, self.book, store.seats(), &self.roster, rows)?))
            }
            Report::Status | Report::Passes => Ok(None),
        }
    }

    fn passes(
        &self,
        alloc: Global,
        node: &mut Node<'_, SeatedStore<SqlStore<A>>>,
    ) -> Result<Vec<Pass>, NodeFault> {
        passes_of(alloc, node)
    }
}
