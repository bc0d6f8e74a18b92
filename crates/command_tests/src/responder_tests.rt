//! A reader that asks a node for more than readers have time for.

use arrayvec::ArrayVec;
use datagram_port::{Coming, ListClock, ListPort, Port, PortEntry, Sender};
use floor_store::{MemStore, Pass, StoreFault};
use node_reports::{NodeInfo, ReportSource, Responder, version_of};
use node_serving::Attend;
use oath_node::{Never, Node, NodeFault, StoreReading};
use operator_text::Report;
use otp_core::{Next, Settings};
use replay_window::{Ahead, Window};
use sealed_port::{Client, Failures, Gate, Operator, SealedPort};
use sealed_wire::{ClientKey, Head, Kind, MAX_SEALED_LEN, Right, seal};
use std::alloc::Global;
use std::cell::Cell;
use std::io;
use std::test::Fail;
use std::time::{Clock as TimeSource, Duration};
use token_file::{Book, FromRead, read_book};
use vote_core::Place;
use vote_wire::ClusterKey;

/// The token of RFC 4226, Appendix D.
const SILVER: &[u8] = b"HOTP silver - 3132333435363738393031323334353637383930";

/// The bytes of a sealed datagram before its text.
const HEAD_LEN: usize = 15;

/// A clock in microseconds, which goes on by 1.2 s each time that it is asked.
#[derive(Drop)]
struct Slow(Cell<u64>);

impl TimeSource for Slow {
    fn monotonic(&self) -> io::Result<Duration> {
        let now = self.0.get();
        self.0.set(now.saturating_add(1_200_000));
        Ok(Duration::from_micros(now))
    }

    fn since_1970(&self) -> io::Result<Duration> {
        Ok(Duration::from_secs(1_800_000_000))
    }
}

/// A reading that reads nothing.
#[derive(Drop)]
struct Nothing;

impl StoreReading<MemStore> for Nothing {
    fn read(&mut self, _store: &mut MemStore) -> Result<(), StoreFault> {
        Ok(())
    }
}

/// A source without reports, and without passes.
#[derive(Drop)]
struct NoReports;

impl ReportSource<MemStore> for NoReports {
    ghost use Rattle.std.specs.Prelude.{◌≡◌, None, ⊤};
    ghost use Rattle.oath_node.specs.Reading.{ReadsNode};

    ghost says = { λ _ _ _ _ _. ⊤ };

    ghost rows = { λ _. None };

    fn all_rows(&self, _store: &MemStore) -> Option<u32> {
        None
    }

    fn text(
        &self,
        _alloc: Global,
        _store: &MemStore,
        _report: Report,
        _moment: u64,
    ) -> Result<Option<Vec<u8>>, StoreFault> {
        Ok(None)
    }

    fn passes(&self, alloc: Global, node: &mut Node<'_, MemStore>) -> Result<Vec<Pass>, NodeFault> {
        match node.read(&mut Nothing) {
            Ok(()) => Ok(Vec::new(alloc)),
            Err(fault) => Err(fault),
        }
    }
}

/// Returns the request `STATUS 0` of reader 258 at a moment in microseconds.
fn request_at(moment: u64) -> Result<ArrayVec<u8, MAX_SEALED_LEN>, Fail> {
    let key = ClientKey::new(&[0; 32]).ok_or("a key")?;
    let head = Head {
        kind: Kind::Request,
        client: 258,
        node: 2,
        moment,
    };
    Ok(seal(&key, &[], head, b"STATUS 0"))
}

/// Returns a datagram from an address.
fn from<'a>(bytes: &'a [u8]) -> Coming<'a> {
    Coming::Datagram {
        sender: Sender::Client(7),
        bytes,
    }
}

/// Returns the port of node 2 over `comings`, which opens the requests of reader 258.
fn port<'a>(
    alloc: Global,
    comings: &'a [Coming<'a>],
) -> Result<SealedPort<ListPort<'a>, ListClock<'a>>, Fail> {
    let key = ClientKey::new(&[0; 32]).ok_or("a key")?;
    let mut operators = Vec::new(alloc);
    let reader = Client::new(258, key, Window::new(0, Ahead::default()));
    operators.push(Operator::new(reader, Right::Reader))?;
    let gate = Gate::new(
        2,
        Vec::new(alloc),
        operators,
        Vec::new(alloc),
        Failures::new(None),
    );
    Ok(SealedPort::new(
        ListPort::new(alloc, comings),
        ListClock::new(alloc, &[100; 3]),
        gate,
    ))
}

/// Returns the node of a book, which has one token.
fn node<'b>(
    alloc: Global,
    book: &'b Book,
    key: &'b ClusterKey,
    place: Place,
) -> Result<Node<'b, MemStore>, Fail> {
    let floors = [Next::new(0).ok_or("a floor")?];
    let store = MemStore::new(alloc, &floors).ok().ok_or("a store")?;
    if book.len() != 1 {
        return Err(Fail::new("one token"));
    }
    let node = Node::open(alloc, book, Settings::default(), place, key, store);
    node.ok().ok_or_else(|| Fail::new("a node"))
}

/// Returns whether a responder was asked three times, and its clock went on by a minute before the third one.
fn ask_thrice(
    alloc: Global,
    book: &Book,
    node: &Node<'_, MemStore>,
    place: Place,
    port: &mut SealedPort<ListPort<'_>, ListClock<'_>>,
) -> bool {
    let clock = Slow(Cell::new(0));
    let info = NodeInfo {
        place,
        version: version_of(b"0.9.0"),
        started: 1_700_000_000,
        fingerprint: *b"b1061f3a2d61dfbd",
        book: None,
    };
    let mut responder = Responder::new(alloc, &clock, info, book, NoReports, Never);
    let first = responder.ends(node, port, 9);
    let second = responder.ends(node, port, 8);
    clock.0.set(62_000_000);
    let third = responder.ends(node, port, 7);
    !first && !second && !third
}

/// Returns whether an entry is a report whose text begins with `text`.
fn is_report(entry: &PortEntry, text: &[u8]) -> bool {
    match entry {
        PortEntry::Offered { to, bytes } => {
            let told = bytes.as_slice().get(HEAD_LEN..);
            *to == Sender::Client(7) && told.is_some_and(|told| told.starts_with(text))
        }
        _ => false,
    }
}

/// Returns the number of entries that are a report whose text begins with `text`.
fn reports(port: &ListPort<'_>, text: &[u8]) -> usize {
    match port.record() {
        Some(entries) => entries
            .iter()
            .filter(|entry| is_report(entry, text))
            .count(),
        None => 0,
    }
}

/// A reader is served, refused when a request took 1.2 s, and served again a minute later.
#[test]
fn busy_reader_waits(rt: HostRuntime) -> Result<(), Fail> {
    let alloc = rt.alloc();
    let first = request_at(100_000_000)?;
    let second = request_at(100_000_001)?;
    let third = request_at(100_000_002)?;
    let comings = [from(&first), from(&second), from(&third)];
    let (Some(key), Some(place)) = (ClusterKey::new(&[0; 32]), Place::new(2, 3)) else {
        return Err(Fail::new("a key"));
    };
    let read = read_book(alloc, &mut FromRead::new(SILVER), Settings::default(), 0);
    let (book, _) = read.ok().ok_or("a book")?;
    let node = node(alloc, &book, &key, place)?;
    let mut port = port(alloc, &comings)?;
    for _ in 0..3 {
        let _stand_in = port.receive(&mut [0; 512]);
    }
    assert!(rt; ask_thrice(alloc, &book, &node, place, &mut port));
    let below = port.into_inner();
    assert!(rt; reports(&below, b"node 2 of 3\n") == 2);
    assert!(rt; reports(&below, b"NO BUSY\n") == 1);
    Ok(())
}
