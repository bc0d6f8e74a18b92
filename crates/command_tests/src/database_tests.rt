//! The commands over a database in memory: a store is created, exported, served, audited and exported again.

use datagram_port::{Coming, ListClock, ListPort, PortEntry, Sender};
use floor_sql::SqlStore;
use floor_store::{FloorStore, StoreFault};
use gatekeeping::Gatekeeper;
use node_serving::{Attend, Attended, open_node, serve_node};
use oath_node::{Never, Node, NodeFault, Served};
use oathd_database::{Database, Fault, init_store, open_store, write_audit, write_rows};
use otp_core::Settings;
use sqlite::{Connection, MemStore};
use std::alloc::Global;
use vote_core::Place;
use vote_wire::ClusterKey;

/// The token of RFC 4226, Appendix D.
pub(crate) const SILVER: &[u8] = b"HOTP silver - 3132333435363738393031323334353637383930\n";

/// A database in memory.
#[derive(Drop)]
pub(crate) struct InMemory(pub(crate) Connection<MemStore>);

impl Database<MemStore> for InMemory {
    ghost finds = { λ _. Unit {0} };

    fn connect(self) -> Result<Connection<MemStore>, StoreFault> {
        let InMemory(conn) = self;
        if conn.is_autocommit() {
            Ok(conn)
        } else {
            Err(StoreFault::Disk)
        }
    }
}

/// Closes a store, and returns its database.
pub(crate) fn closed(store: SqlStore<MemStore>) -> InMemory {
    InMemory(store.close())
}

/// Creates the store of a node with the token, and returns its database.
pub(crate) fn made(alloc: Global, node: u8) -> Result<InMemory, Fault> {
    let Ok(conn) = Connection::open_in_memory(alloc) else {
        return Err(Fault::Memory);
    };
    if node < 1 || node > 9 {
        return Err(Fault::Store(StoreFault::Unusable));
    }
    let store = init_store(alloc, SILVER, Settings::default(), 0, node, InMemory(conn))?;
    Ok(closed(store))
}

/// Returns the database of a store, or `CannotWrite` if its rows followed by its passes are not written as `text`.
fn written(alloc: Global, database: InMemory, text: &[u8]) -> Result<InMemory, Fault> {
    let (users, mut store) = open_store(alloc, SILVER, Settings::default(), None, database)?;
    let mut written = Vec::new(alloc);
    let ends = (
        write_rows(&users.book, &store, &mut written),
        write_audit(alloc, &mut store, &mut written),
    );
    if ends == (Ok(()), Ok(())) && written.as_slice() == text {
        Ok(closed(store))
    } else {
        Err(Fault::CannotWrite)
    }
}

/// Returns the database of node 1's store after the node served the datagrams of a port, and the end of the turns.
fn turned<U: Attend<SqlStore<MemStore>>>(
    alloc: Global,
    database: InMemory,
    port: &mut ListPort<'_>,
    moments: &[u64],
    turns: u32,
    until: &mut Attended<U>,
) -> Result<(InMemory, Result<Served, Fault>), Fault> {
    let settings = Settings::default();
    let (Some(key), Some(place)) = (ClusterKey::new(&[0; 32]), Place::new(1, 1)) else {
        return Err(Fault::Socket);
    };
    let (users, store) = open_store(alloc, SILVER, settings, Some(1), database)?;
    let mut node = open_node(alloc, &users.book, settings, place, &key, store)?;
    let mut clock = ListClock::new(alloc, moments);
    let end = serve_node(&mut node, port, &mut clock, u64::from(turns), until);
    Ok((closed(node.close()), end))
}

/// Returns whether the second entry of a port's record is the datagram `line` to client 7.
fn is_offered(port: &ListPort<'_>, line: &[u8]) -> bool {
    match port.record() {
        Some([_, PortEntry::Offered { to, bytes }, ..]) => {
            *to == Sender::Client(7) && bytes.as_slice() == line
        }
        _ => false,
    }
}

const FRESH: &[u8] = b"HOTP/E/6\tsilver\t-\t3132333435363738393031323334353637383930\t0\n";

const USED: &[u8] =
    b"HOTP/E/6\tsilver\t-\t3132333435363738393031323334353637383930\t1\npass 1 0 0 0 1 0\n";

/// Returns whether a code is accepted once, and is used up in the store afterwards.
fn keeps_a_code(alloc: Global) -> Result<bool, Fault> {
    let comings = [Coming::Datagram {
        sender: Sender::Client(7),
        bytes: b"CHECK 1 silver 755224 -",
    }];
    let mut port = ListPort::new(alloc, &comings);
    let database = written(alloc, made(alloc, 1)?, FRESH)?;
    let (database, end) = turned(
        alloc,
        database,
        &mut port,
        &[100],
        3,
        &mut Attended::new(Never),
    )?;
    let _database = written(alloc, database, USED)?;
    let (received, replied) = (1, 1);
    Ok(end == Ok(Served { received, replied }) && is_offered(&port, b"OK 1 0"))
}

#[test]
fn keeps_what_it_served(rt: HostRuntime) {
    assert!(rt; keeps_a_code(rt.alloc()) == Ok(true));
}

/// Returns the end of the turns of node 1 without a clock, over a port with the given events.
fn end_of(alloc: Global, comings: &[Coming<'_>]) -> Result<Served, Fault> {
    let mut port = ListPort::new(alloc, comings);
    let (_database, end) = turned(
        alloc,
        made(alloc, 1)?,
        &mut port,
        &[],
        17,
        &mut Attended::new(Never),
    )?;
    end
}

/// The faults that end turns.
#[test]
fn names_what_ended_the_turns(rt: HostRuntime) {
    let line = [Coming::Datagram {
        sender: Sender::Client(7),
        bytes: b"CHECK",
    }];
    assert!(rt; end_of(rt.alloc(), &[Coming::Fault; 16]) == Err(Fault::Socket));
    assert!(rt; end_of(rt.alloc(), &line) == Err(Fault::NoClock));
}

/// Ends the turns after each batch, and lets them go on after the first one.
#[derive(Drop)]
struct GoesOnOnce {
    went_on: bool,
}

impl<S: FloorStore> Attend<S> for GoesOnOnce {
    ghost use Rattle.std.specs.Prelude.{⊤};

    ghost acts = { λ _ _ _. ⊤ };

    fn ends<P: Gatekeeper>(&mut self, _node: &Node<'_, S>, _port: &mut P, _left: u64) -> bool {
        true
    }

    fn act<P: Gatekeeper>(
        &mut self,
        _node: &mut Node<'_, S>,
        _port: &mut P,
    ) -> Result<bool, NodeFault> {
        if self.went_on {
            return Ok(false);
        }
        self.went_on = true;
        Ok(true)
    }
}

/// Returns the end of five turns in two stretches, and the number of turns that are left after it.
fn end_of_stretches(alloc: Global) -> Result<(Result<Served, Fault>, u64), Fault> {
    let line = Coming::Datagram {
        sender: Sender::Client(7),
        bytes: b"CHECK".as_slice(),
    };
    let comings = [line, Coming::Pause, line, line];
    let mut port = ListPort::new(alloc, &comings);
    let mut until = Attended::new(GoesOnOnce { went_on: false });
    let (_database, end) = turned(
        alloc,
        made(alloc, 1)?,
        &mut port,
        &[100, 100, 100],
        5,
        &mut until,
    )?;
    Ok((end, until.left))
}

/// The turns that are left after an act are served, and the counts are those of all stretches.
#[test]
fn counts_all_stretches(rt: HostRuntime) {
    let all = Served {
        received: 3,
        replied: 3,
    };
    assert!(rt; end_of_stretches(rt.alloc()) == Ok((Ok(all), 2)));
}
