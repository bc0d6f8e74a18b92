//! The command `serve` over a store that has each token in the row of its place in the users file.

ghost use Rattle.std.specs.Prelude.{◌≡◌, ◌⊎◌, false, length, Ok, Err, IfErr, IfOk, IfSome};
ghost use Rattle.node_reports.specs.Responder.{ResponderAnswers};
ghost use Rattle.node_serving.specs.Stretches.{unasked};
ghost use Rattle.store_serving.specs.Ends.{IsEarlyFault};
ghost use Rattle.store_serving.specs.Placed.{EndsServing, HasServed, IsServedPlaced, never};

use crate::naming::Speech;
use crate::serve::{info_of, serve_opened};
use datagram_port::Clock;
use floor_store::FloorStore;
use node_reports::{PlacedRows, ReportSource};
use node_serving::{KeptSocket, Serving, log_of, open_node, start_of, tag_key};
use oath_node::{Never, Served};
use oathd_database::{Database, Fault, open_store};
use seated_store::{SeatedStore, own_seats};
use sqlite::Alter;
use std::alloc::Global;
use std::io::{Read, Write};
use std::net::Net;
use std::time::Clock as TimeSource;
use token_file::Book;
use udp_port::SystemClock;

/// Opens a node over a store in a new boot, and serves it over a UDP socket at its address. The store was opened for
/// the tokens of `book`.
///
/// # Errors
/// - Returns `Store` with the fault that broke the store, or `Memory` if the allocator refuses the memory.
/// - Returns the errors of [`serve_opened`].
fn serve_placed<S: FloorStore + Drop, T: ReportSource<S> + Drop, N: Net + TimeSource, W: Write>(
    alloc: Global,
    outside: &N,
    book: &Book,
    store: S,
    serving: Serving<'_>,
    source: T,
    writer: &mut W,
) -> Result<Served, Fault>
    requires { length (S.held store).content.rows ≡ length book.now }
    ensures served { IfOk result (λ served. IsServedPlaced S.held serving.entry book.now store (ResponderAnswers never)
        (Ok served)) }
    ensures fault { IfErr result (λ fault. IsEarlyFault fault
        ⊎ IsServedPlaced S.held serving.entry book.now store (ResponderAnswers unasked) (Err fault)) }
    ensures unlogged { serving.entry.is_logged ≡ false → writer.new ≡ writer.old }
{
    let place = serving.place;
    let key = tag_key(alloc, serving.key.again(), book)?;
    let address = serving.members[usize::from(place.me()) - 1];
    let start = start_of(place, address, store.boot()?, book, &key);
    let moment = SystemClock::new(outside).moment().unwrap_or(0);
    let (log, info) = (
        log_of(serving.is_logged, start, None, place),
        info_of(place, moment, start, None),
    );
    let mut node = open_node(alloc, book, serving.settings, place, &key, store)?;
    let mut socket = KeptSocket::new();
    let speech = Speech::Places(&key);
    let (served, _until) = serve_opened(
        alloc,
        &mut node,
        outside,
        speech,
        log,
        info,
        book,
        serving,
        source,
        &mut socket,
        Never,
        writer,
    )?;
    Ok(served)
}

/// Opens a node over its store in a new boot, binds a UDP socket to its address, and serves it for the given turns, or
/// until an operator ends it.
///
/// The store has the tokens of the users file, each in the row of its place. A turn is one receive of at most 200
/// milliseconds. A datagram from a member's address is that member's; a datagram from any other address is a client's.
/// `serving` says which lines of clients the node takes. With a log, its lines go to the writer. A failed write ends
/// the log, but not the node. Without a log nothing is written. Operators of a clients file may ask the node, and
/// unlock its users.
///
/// # Errors
/// - Returns the errors of [`open_store`].
/// - Returns the errors of [`open_node`].
/// - Returns `Socket` if the socket cannot be bound.
/// - Returns the errors of [`front_of`](node_serving::front_of).
/// - Returns the errors of [`serve_port`](node_serving::serve_port).
pub fn serve_store<R: Read + Drop, S: Alter + Drop, D: Database<S>, N: Net + TimeSource, W: Write>(
    alloc: Global,
    outside: &N,
    users: R,
    serving: Serving<'_>,
    database: D,
    writer: &mut W,
) -> Result<Served, Fault>
    ensures served { IfOk result (λ served. IfSome (R.remaining users)
        (HasServed S.Store D.finds serving.entry never (Ok served))) }
    ensures fault { IfErr result (λ fault. IfSome (R.remaining users)
        (EndsServing S.Store D.finds serving.entry fault)) }
    ensures unlogged { serving.entry.is_logged ≡ false → writer.new ≡ writer.old }
{
    let (place, settings) = (serving.place, serving.settings);
    let (users, store) = open_store(alloc, users, settings, Some(place.me()), database)?;
    let Ok(seats) = own_seats(alloc, store.tokens()) else {
        return Err(Fault::Memory);
    };
    let store = SeatedStore::new(store, seats);
    let book = &users.book;
    let source = PlacedRows { place, book };
    serve_placed(alloc, outside, book, store, serving, source, writer)
}
