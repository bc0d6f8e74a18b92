//! The command `serve` over a store that has its tokens by their names.

ghost use Rattle.std.specs.Prelude.{◌≡◌, ◌⊎◌, None, Some, false, if◌then◌else◌, length, map, Ok, Err, IfErr, IfOk, IfSome};
ghost use Rattle.otp_core.specs.Range.{IsMoment};
ghost use Rattle.cluster_file.specs.Rows.{book_print_of};
ghost use Rattle.node_reports.specs.Responder.{ResponderAnswers};
ghost use Rattle.oathd_database.specs.Fault.{IsOpenFault};
ghost use Rattle.node_serving.specs.Stretches.{unasked};
ghost use Rattle.store_serving.specs.Ends.{IsEarlyFault};
ghost use Rattle.store_serving.specs.Log.{roster_at};
ghost use Rattle.store_serving.specs.Served.{EndsServingRows, HasServedRows, IsNamingOf, IsServedOver};

use crate::floors::floors_of;
use crate::names::names_in;
use crate::naming::{Naming, Speech};
use crate::serve::{info_of, serve_opened};
use cluster_file::book_print;
use floor_port::Membership;
use floor_store::FloorStore;
use kept_rows::write_left;
use named_port::Names;
use named_store::RowCounts;
use node_log::{Roster, Start};
use node_reports::{NamedRows, NodeInfo, ReportSource};
use node_serving::{KeptSocket, ServeLog, Serving, Stop, log_of, open_node, start_of, tag_key};
use oath_node::Served;
use oathd_database::{Database, Fault};
use oathd_roster::{NamedCluster, NamedUsers, RosterFault, open_named_store};
use sqlite::Alter;
use std::alloc::Global;
use std::io::Write;
use std::net::Net;
use std::time::Clock as TimeSource;
use token_file::Book;
use vote_core::Place;
use vote_wire::ClusterKey;

/// Returns the content of the log's line of a store's rows, or None if there is no log.
///
/// The store was opened for the tokens of `book`, whose print is `print`.
fn roster_of(is_logged: bool, counts: RowCounts, book: &Book, print: [u8; 16]) -> Option<Roster>
    ensures { result ≡ (if is_logged then Some (roster_at counts book.now print) else None) }
{
    if !is_logged {
        return None;
    }
    // At most 10,000.
    let tokens = book.len() as u32;
    Some(Roster {
        rows: counts.all,
        enrolled: counts.enrolled,
        retired: counts.all.saturating_sub(tokens),
        book: print,
    })
}

/// Returns the names of the tokens of a users file, with their index.
fn indexed_names(alloc: Global, named: &NamedUsers) -> Result<Names, Fault>
    ensures names { IfOk result (λ names. names ≡ map (λ entry. entry.name) named.now.entries.items) }
    ensures fault { IfErr result (λ fault. fault ≡ Fault.Memory) }
{
    // At most 10,000.
    let _tokens = named.users.book.len();
    let Ok(names) = names_in(alloc, &named.entries) else {
        return Err(Fault::Memory);
    };
    match Names::new(alloc, names) {
        Ok(names) => Ok(names),
        Err(_) => Err(Fault::Memory),
    }
}

/// Writes the log's lines of the rows of a users file that are left out, if there are such rows and a log. A failed
/// write is ignored.
fn tell_left<W: Write>(
    alloc: Global,
    is_logged: bool,
    text: &[u8],
    kept: Option<&[u8]>,
    writer: &mut W,
)
    ensures unlogged { is_logged ≡ false → writer.new ≡ writer.old }
{
    let Some(kept) = kept else {
        return;
    };
    if is_logged {
        let _written = write_left(alloc, writer, text, kept);
        let _flushed = writer.flush();
    }
}

/// Returns what the ports of a node by names translate and tell by in a new boot, over a store that was opened for the
/// tokens of `named`, and the content of its log's first line.
///
/// # Errors
/// - Returns `Memory` if the allocator refuses the memory.
/// - Returns `Store` with the fault that broke the store.
fn naming_of<S: FloorStore>(
    alloc: Global,
    named: &NamedUsers,
    store: &S,
    serving: &Serving<'_>,
    socket: &KeptSocket,
) -> Result<(Naming, Start), Fault>
    requires { length (S.held store.now).content.rows ≡ length named.now.users.book }
    ensures naming { IfOk result (λ made. IsNamingOf serving.now named.now.users.book
        (map (λ entry. entry.name) named.now.entries.items) (S.held store.now) made.0) }
    ensures heard { IfOk result (λ made. (made.0.node.gone_back ≡ socket.now.gone_back)
        × (made.0.node.known ≡ socket.now.heard)) }
    ensures fault { IfErr result IsOpenFault }
{
    let (book, place) = (&named.users.book, serving.place);
    let key = tag_key(alloc, serving.key.again(), book)?;
    let names = indexed_names(alloc, named)?;
    let address = serving.members[usize::from(place.me()) - 1];
    let boot = match store.boot() {
        Ok(boot) => boot,
        Err(fault) => return Err(Fault::Store(fault)),
    };
    let start = start_of(place, address, boot, book, &key);
    let floors = floors_of(alloc, book, store)?;
    let node = Membership {
        me: place.me(),
        boot: start.boot,
        members: place.n(),
        gone_back: socket.gone_back,
        known: socket.heard,
    };
    let naming = Naming {
        key,
        names,
        node,
        floors,
    };
    Ok((naming, start))
}

/// Returns the log of a node, or None if there is none, and what stays of the node, which begins at `moment`.
///
/// Its store was opened for the tokens of `book`, and has `counts` rows.
fn log_and_info(
    alloc: Global,
    naming: &Naming,
    place: Place,
    moment: u64,
    start: Start,
    counts: RowCounts,
    book: &Book,
    is_logged: bool,
) -> Result<(Option<ServeLog>, NodeInfo), Fault>
    ensures unlogged { IfOk result (λ made. is_logged ≡ false → made.0 ≡ None) }
    ensures logged { IfOk result (λ made. IfSome made.0 (λ log.
        log.roster ≡ Some (roster_at counts book.now (book_print_of naming.now.key book.now)))) }
    ensures info { IfOk result (λ made.
        (made.1.place ≡ place) × (made.1.book ≡ Some (book_print_of naming.now.key book.now))) }
    ensures fault { IfErr result (λ fault. fault ≡ Fault.Memory) }
{
    let Ok(print) = book_print(alloc, &naming.key, book) else {
        return Err(Fault::Memory);
    };
    let roster = roster_of(is_logged, counts, book, print);
    let log = log_of(is_logged, start, roster, place);
    Ok((log, info_of(place, moment, start, Some(print))))
}

/// Opens a node by names over a store in a new boot, and serves it as [`serve_opened`] does. The store was opened for
/// the tokens of `named`, and has `counts` rows.
///
/// # Errors
/// - Returns `Store` with the fault that broke the store, or `Memory` if the allocator refuses the memory.
/// - Returns the errors of [`serve_opened`].
fn serve_over<
    S: FloorStore + Drop,
    T: ReportSource<S> + Drop,
    N: Net + TimeSource,
    W: Write,
    U: Stop + Drop,
>(
    alloc: Global,
    outside: &N,
    moment: u64,
    named: &NamedUsers,
    counts: RowCounts,
    store: S,
    serving: Serving<'_>,
    source: T,
    socket: &mut KeptSocket,
    until: U,
    writer: &mut W,
) -> Result<(Served, U), Fault>
    requires { length (S.held store).content.rows ≡ length named.now.users.book }
    ensures served { IfOk result (λ served. IsServedOver S.held serving.entry named.now.users.book
        (map (λ entry. entry.name) named.now.entries.items) store (ResponderAnswers (U.answers served.1))
        (Ok served.0)) }
    ensures fault { IfErr result (λ fault. IsEarlyFault fault ⊎ IsServedOver S.held serving.entry named.now.users.book
        (map (λ entry. entry.name) named.now.entries.items) store (ResponderAnswers unasked) (Err fault)) }
    ensures unlogged { serving.entry.is_logged ≡ false → writer.new ≡ writer.old }
{
    let book = &named.users.book;
    let (naming, start) = naming_of(alloc, named, &store, &serving, socket)?;
    let bare = ClusterKey::bare();
    let mut node = open_node(alloc, book, serving.settings, serving.place, &bare, store)?;
    let (place, is_logged) = (serving.place, serving.is_logged);
    let (log, info) = log_and_info(
        alloc, &naming, place, moment, start, counts, book, is_logged,
    )?;
    let speech = Speech::Names(&naming);
    serve_opened(
        alloc, &mut node, outside, speech, log, info, book, serving, source, socket, until, writer,
    )
}

/// Opens a node over its store by names in a new boot, binds a UDP socket to its address, and serves it for the given
/// turns, or until `until` ends them. Returns `until` too.
///
/// The socket is bound if `socket` isn't yet, and stays bound. Nothing is taken from a member that went back, as long
/// as `socket` is kept. No sealed line is opened up to the latest moment that the last node over `socket` opened.
///
/// The store is opened as [`open_named_store`] does for the users file with this text. If it has no room for the new
/// rows, the node is served for the other ones, and the log has a line of each row that is left out before its first
/// one. The node speaks to the other members by the names of its tokens,
/// under the key of `serving`. In the process, it speaks to its port under the bare key. It tells the other members the
/// floors of its tokens in bulk, and takes theirs ([`floor_port`]). The datagrams to a member between two waits are
/// joined ([`bundle_port`]).
/// A log has a line of the store's rows after its first one. All else is as in
/// [`serve_store`](crate::serve_store).
///
/// # Errors
/// - Returns the errors of [`open_named_store`].
/// - Returns `Command` with the errors of [`open_node`].
/// - Returns `Command(Memory)` if the allocator refuses the memory for the floors, or for the log's line of rows.
/// - Returns `Command(Store)` with the fault that broke the store.
/// - Returns `Command(Socket)` if the socket cannot be bound.
/// - Returns `Command` with the errors of [`front_of`].
/// - Returns `Command` with the errors of [`serve_port`](node_serving::serve_port).
pub fn serve_named_store<
    S: Alter + Drop,
    D: Database<S>,
    N: Net + TimeSource,
    W: Write,
    U: Stop + Drop,
>(
    alloc: Global,
    outside: &N,
    text: &[u8],
    moment: u64,
    serving: Serving<'_>,
    cluster: &NamedCluster,
    database: D,
    socket: &mut KeptSocket,
    until: U,
    writer: &mut W,
) -> Result<(Served, U), RosterFault>
    requires { IsMoment moment }
    ensures served { IfOk result (λ served. HasServedRows S.Store D.finds cluster.now moment serving.entry
        (U.answers served.1) (Ok served.0) text.now) }
    ensures fault { IfErr result (λ fault. EndsServingRows S.Store D.finds cluster.now moment serving.entry fault
        text.now) }
    ensures unlogged { serving.entry.is_logged ≡ false → writer.new ≡ writer.old }
{
    let (node, settings) = (serving.place.me(), serving.settings);
    let own_key = serving.key.again();
    let (named, store, counts, rows, kept) = open_named_store(
        alloc, text, settings, moment, node, cluster, database,
    )?;
    tell_left(alloc, serving.is_logged, text, kept.as_deref(), writer);
    let source = NamedRows {
        node,
        book: &named.users.book,
        roster: rows,
        own: &cluster.bond,
        key: own_key.own().as_slice(),
    };
    let served = serve_over(
        alloc, outside, moment, &named, counts, store, serving, source, socket, until, writer,
    )?;
    Ok(served)
}
