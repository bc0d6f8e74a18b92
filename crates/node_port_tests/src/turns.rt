//! Turns over a port in memory.

use datagram_port::{Coming, ListClock, ListPort, Port, PortEntry, Sender};
use floor_store::{FloorStore, FuseStore, MemStore};
use oath_node::{Node, ServeFault, Served, Until, run_turns, run_turns_until};
use otp_core::{Next, Settings};
use std::alloc::Global;
use std::test::Fail;
use token_file::{Book, FromRead, read_book};
use vote_core::Place;
use vote_wire::ClusterKey;

/// The token of RFC 4226, Appendix D.
const SILVER: &[u8] = b"HOTP silver - 3132333435363738393031323334353637383930";

fn silver(alloc: Global) -> Result<(Book, Vec<Next>), Fail> {
    let mut source = FromRead::new(SILVER);
    match read_book(alloc, &mut source, Settings::default(), 0) {
        Ok(read) => Ok(read),
        Err(fault) => Err(fault.into()),
    }
}

/// Creates a fresh store in memory.
fn store_of(alloc: Global, book: &Book, floors: &[Next]) -> Result<MemStore, Fail> {
    if floors.len() > 10_000 || floors.len() != book.len() {
        return Err("another number of tokens".into());
    }
    Ok(MemStore::new(alloc, floors)?)
}

/// Opens node 1 of `nodes` nodes over a store.
fn first_of<'b, S: FloorStore + Drop>(
    alloc: Global,
    nodes: u8,
    book: &'b Book,
    key: &'b ClusterKey,
    store: S,
) -> Result<Node<'b, S>, Fail> {
    let place = Place::new(1, nodes).ok_or("a place")?;
    if usize::try_from(store.tokens()) != Ok(book.len()) {
        return Err("another number of tokens".into());
    }
    match Node::open(alloc, book, Settings::default(), place, key, store) {
        Ok(node) => Ok(node),
        Err((_, fault)) => Err(fault.into()),
    }
}

/// Returns the result of five turns of a node alone.
fn served(
    alloc: Global,
    port: &mut ListPort<'_>,
    clock: &mut ListClock<'_>,
) -> Result<Served, Fail> {
    let key = ClusterKey::new(&[0; 32]).ok_or("a key")?;
    let (book, floors) = silver(alloc)?;
    let store = store_of(alloc, &book, &floors)?;
    let mut node = first_of(alloc, 1, &book, &key, store)?;
    match run_turns(&mut node, port, clock, 5) {
        Ok(served) => Ok(served),
        Err(fault) => Err(fault.into()),
    }
}

/// Returns whether an entry is the datagram `text` to client 7.
fn is_answer(entry: Option<&PortEntry>, text: &[u8]) -> bool {
    match entry {
        Some(PortEntry::Offered { to, bytes }) => {
            *to == Sender::Client(7) && bytes.as_slice() == text
        }
        _ => false,
    }
}

/// Returns whether a port in memory recorded its datagrams, the first one cut to 512 bytes, and two answers.
fn has_answered(entries: &[PortEntry]) -> bool {
    let is_cut = match entries.first() {
        Some(PortEntry::Received { bytes, .. }) => bytes.as_slice() == [7; 512].as_slice(),
        _ => false,
    };
    is_cut
        && entries.len() == 7
        && is_answer(entries.get(3), b"OK 1 0")
        && is_answer(entries.get(6), b"NO - BADLINE")
}

/// Checks that a node answers each line once, whether the port takes answers or not.
///
/// The turns are a long datagram of a member, a right line, a bad line, a receive that fails and a quiet one.
#[test]
fn lines_are_answered_once(rt: HostRuntime) -> Result<(), Fail> {
    let alloc = rt.alloc();
    let (sender, member) = (Sender::Client(7), Sender::Peer(2));
    let (line, long) = (b"CHECK 1 silver 755224 -".as_slice(), [7; 600]);
    let comings = [
        Coming::Datagram {
            sender: member,
            bytes: &long,
        },
        Coming::Fault,
        Coming::Datagram {
            sender,
            bytes: line,
        },
        Coming::Quiet,
        Coming::Datagram {
            sender,
            bytes: b"CHECK",
        },
    ];
    for takes_answers in [true, false] {
        let mut port = ListPort::new(alloc, &comings);
        if !takes_answers {
            port.fail_sends();
        }
        let mut clock = ListClock::new(alloc, &[100, 101, 102]);
        let end = served(alloc, &mut port, &mut clock)?;
        assert!(rt;
            end == Served {
                received: 3,
                replied: 2
            }
        );
        assert!(rt; has_answered(port.record().ok_or("no record")?));
        assert!(rt; clock.record().ok_or("no record")? == [Some(100), Some(101)].as_slice());
    }
    Ok(())
}

/// Returns the result of a batch of three lines at a node alone, and the number of writes that passed.
///
/// The store lets `writes` writes pass. The result is None if a fault ended the turns.
fn batch_of_three(
    alloc: Global,
    port: &mut ListPort<'_>,
    writes: u64,
) -> Result<(Option<Served>, u64), Fail> {
    let key = ClusterKey::new(&[0; 32]).ok_or("a key")?;
    let (book, floors) = silver(alloc)?;
    let store = FuseStore::new(store_of(alloc, &book, &floors)?, writes, false);
    let mut node = first_of(alloc, 1, &book, &key, store)?;
    let mut clock = ListClock::new(alloc, &[100, 100, 100]);
    let end = run_turns(&mut node, port, &mut clock, 3);
    Ok((end.ok(), node.close().passed()))
}

/// Checks that a node keeps three queued lines by one commit, and answers them after it.
///
/// If the commit fails the node answers nothing.
#[test]
fn lines_that_come_together_are_kept_at_once(rt: HostRuntime) -> Result<(), Fail> {
    let alloc = rt.alloc();
    let line = |bytes| Coming::Datagram {
        sender: Sender::Client(7),
        bytes,
    };
    let comings = [
        line(b"CHECK 1 silver 755224 -".as_slice()),
        line(b"CHECK".as_slice()),
        line(b"CHECK 2 silver 287082 -".as_slice()),
    ];
    // The boot, two acceptances and their commit pass.
    let mut port = ListPort::new(alloc, &comings);
    let (served, passed) = batch_of_three(alloc, &mut port, 4)?;
    assert!(rt;
        served
            == Some(Served {
                received: 3,
                replied: 3
            })
            && passed == 4
    );
    let entries = port.record().ok_or("no record")?;
    assert!(rt; entries.len() == 6 && is_answer(entries.get(3), b"OK 1 0"));
    assert!(rt; is_answer(entries.get(5), b"OK 2 1"));
    // The commit fails.
    let mut port = ListPort::new(alloc, &comings);
    let (served, passed) = batch_of_three(alloc, &mut port, 3)?;
    assert!(rt; served == None && passed == 3);
    assert!(rt; port.record().ok_or("no record")?.len() == 3);
    Ok(())
}

/// Checks that a pause ends a batch: the node keeps the later lines by another commit.
#[test]
fn lines_that_come_apart_are_kept_apart(rt: HostRuntime) -> Result<(), Fail> {
    let alloc = rt.alloc();
    let line = Coming::Datagram {
        sender: Sender::Client(7),
        bytes: b"CHECK".as_slice(),
    };
    let comings = [line, Coming::Pause, line, line];
    let mut port = ListPort::new(alloc, &comings);
    let (served, passed) = batch_of_three(alloc, &mut port, 9)?;
    assert!(rt;
        served
            == Some(Served {
                received: 3,
                replied: 3
            })
            && passed == 3
    );
    let entries = port.record().ok_or("no record")?;
    assert!(rt; is_answer(entries.get(1), b"NO - BADLINE"));
    assert!(rt; entries.len() == 6 && is_answer(entries.get(5), b"NO - BADLINE"));
    Ok(())
}

/// Returns whether an entry is a datagram to a member.
fn is_to_member(entry: &PortEntry) -> bool {
    match entry {
        PortEntry::Offered {
            to: Sender::Peer(_),
            ..
        } => true,
        _ => false,
    }
}

/// Returns the end of `turns` turns of node 1 of three over a port, and the number of ticks.
///
/// A tick sends two datagrams to members, and nothing else sends any.
fn turns_of_three(
    alloc: Global,
    comings: &[Coming<'_>],
    turns: u32,
) -> Result<(Result<Served, ServeFault>, usize), Fail> {
    let key = ClusterKey::new(&[0; 32]).ok_or("a key")?;
    let (book, floors) = silver(alloc)?;
    let store = store_of(alloc, &book, &floors)?;
    let mut node = first_of(alloc, 3, &book, &key, store)?;
    let mut port = ListPort::new(alloc, comings);
    let mut clock = ListClock::new(alloc, &[100; 64]);
    let end = run_turns(&mut node, &mut port, &mut clock, u64::from(turns));
    let mut sent: usize = 0;
    for entry in port.record().ok_or("no record")? {
        if is_to_member(entry) {
            sent = sent.saturating_add(1);
        }
    }
    Ok((end, sent / 2))
}

/// Checks that a tick follows each quiet turn and each 64th datagram, and no fault.
///
/// The 16th fault in a row ends a run.
#[test]
fn turns_tick_and_end(rt: HostRuntime) -> Result<(), Fail> {
    let bad_line = Coming::Datagram {
        sender: Sender::Client(7),
        bytes: b"CHECK".as_slice(),
    };
    let (none, all) = (
        Served {
            received: 0,
            replied: 0,
        },
        Served {
            received: 64,
            replied: 64,
        },
    );
    for (coming, turns, wanted) in [
        (Coming::Quiet, 10, (Ok(none), 10)),
        (bad_line, 64, (Ok(all), 1)),
        (Coming::Fault, 16, (Err(ServeFault::Port), 0)),
        (Coming::Fault, 15, (Ok(none), 0)),
    ] {
        let comings = [coming; 64];
        assert!(rt;
            turns_of_three(rt.alloc(), &comings, turns)? == wanted,
            "{turns}"
        );
    }
    Ok(())
}

/// Ends the turns after the second batch, and keeps what it was told last.
#[derive(Drop, Default)]
struct Second {
    batches: u8,
    left: u64,
    is_waiting: bool,
}

impl<S: FloorStore, P: Port> Until<S, P> for Second {
    fn ends(&mut self, node: &Node<'_, S>, _port: &mut P, left: u64) -> bool {
        self.batches = self.batches.saturating_add(1);
        self.left = left;
        self.is_waiting = node.is_waiting();
        self.batches == 2
    }
}

/// Checks that turns end after the batch at which they are told to, while a line waits for votes.
#[test]
fn turns_end_early(rt: HostRuntime) -> Result<(), Fail> {
    let alloc = rt.alloc();
    let key = ClusterKey::new(&[0; 32]).ok_or("a key")?;
    let (book, floors) = silver(alloc)?;
    let store = store_of(alloc, &book, &floors)?;
    let mut node = first_of(alloc, 3, &book, &key, store)?;
    let line = Coming::Datagram {
        sender: Sender::Client(7),
        bytes: b"CHECK 1 silver 755224 -",
    };
    let comings = [line, Coming::Quiet];
    let mut port = ListPort::new(alloc, &comings);
    let mut clock = ListClock::new(alloc, &[100]);
    let mut until = Second::default();
    let end = run_turns_until(&mut node, &mut port, &mut clock, 5, &mut until);
    assert!(rt; end.ok().map(|served| served.received) == Some(1));
    assert!(rt; until.batches == 2 && until.left == 3 && until.is_waiting);
    assert!(rt; node.is_waiting());
    Ok(())
}
