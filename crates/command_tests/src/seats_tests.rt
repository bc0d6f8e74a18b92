//! Two tokens of a store of three, in another order than their rows. The token of row 1 is retired.

use floor_sql::SqlStore;
use floor_store::{FloorStore, Pass, Span, StoreFault};
use oathd_database::{Database, Fault, init_store};
use oathd_roster::{NamedCluster, RosterFault, read_named_users};
use oathd_seats::{
    Naming, SeatsFault, audit_store, export_store, gates_store, roster_named_store, unlock_store,
};
use otp_core::{Factor, Gate, Next, Settings};
use program_edge::ProgramFault;
use roster_sql::{Bond, Entry, NAME_LEN, make_named};
use sqlite::{Connection, MemStore};
use std::alloc::Global;
use std::test::Fail;
use token_names::Salt;

/// The tokens of the rows 2 and 0.
const USERS: &[u8] = b"HOTP/T30/8/SHA256 ann - 00FF\n\
    HOTP silver pw 3132333435363738393031323334353637383930\n";

/// The same, and a token without a row before the last.
const WITH_NEW: &[u8] = b"HOTP/T30/8/SHA256 ann - 00FF\n\
    HOTP bob - 0102\n\
    HOTP silver pw 3132333435363738393031323334353637383930\n";

/// The rows of the store. The names are as Python's hmac computes them under the salt `names-of-site-1`.
const ROSTER: &[u8] = b"row 0 5cb0460e92720059b321966bf3ace45e 20 silver\n\
    row 1 03030303030303030303030303030303 30 -\n\
    row 2 e2329dda198989c3be495e9bada26a6c 40 ann\n";

/// The users file with the floors of the store. That of a time token is not written.
const EXPORT: &[u8] = b"HOTP/T30/8/SHA256\tann\t-\t00ff\n\
    HOTP/E/6\tsilver\tpw\t3132333435363738393031323334353637383930\t20\n";

/// The users file with the floors of a new store by places.
const PLACED: &[u8] = b"HOTP/T30/8/SHA256\tann\t-\t00ff\n\
    HOTP/E/6\tsilver\tpw\t3132333435363738393031323334353637383930\t0\n";

/// The gate of silver in it.
const PLACED_GATES: &[u8] = b"gate silver 1 105\n";

/// The pass of the retired token in a used store.
const AUDIT: &[u8] = b"pass 1 1 29 29 7 1\n";

/// The gate of ann in a used store.
const GATES: &[u8] = b"gate ann 1 105\n";

/// A database in memory.
#[derive(Drop)]
struct InMemory(Connection<MemStore>);

impl Database<MemStore> for InMemory {
    ghost finds = { λ _. Unit {0} };

    fn connect(self) -> Result<Connection<MemStore>, StoreFault> {
        let InMemory(conn) = self;
        if conn.is_autocommit() {
            Ok(conn)
        } else {
            Err(StoreFault::Disk)
        }
    }
}

/// Returns a cluster in the given life.
fn cluster_in(life: &[u8]) -> Option<NamedCluster> {
    let salt = Salt::new(b"names-of-site-1")?;
    let bond = Bond::new(b"names-of-site-1", life, 1)?;
    let is_fresh = false;
    Some(NamedCluster {
        salt,
        bond,
        is_fresh,
    })
}

/// Creates the store of node 3 at boot 7, with the floors 20, 30 and 40.
fn made(alloc: Global, cluster: &NamedCluster) -> Result<InMemory, RosterFault> {
    let named = read_named_users(alloc, USERS, Settings::default(), 0, &cluster.salt)?;
    let Ok(mut conn) = Connection::open_in_memory(alloc) else {
        return Err(RosterFault::Command(Fault::Memory));
    };
    let (Some(first), Some(second), Some(third)) = (Next::new(20), Next::new(30), Next::new(40))
    else {
        return Err(RosterFault::Full);
    };
    let (Some(ann), Some(silver)) = (named.entries.first(), named.entries.get(1)) else {
        return Err(RosterFault::Full);
    };
    if !conn.is_autocommit() {
        return Err(RosterFault::Full);
    }
    let retired = Entry {
        name: [3; NAME_LEN],
        seed: [4; NAME_LEN],
    };
    let entries = [*silver, retired, *ann];
    let floors = [first, second, third];
    match make_named(&mut conn, 3, 7, &floors, &entries, &cluster.bond) {
        Ok(()) => Ok(InMemory(conn)),
        Err(refusal) => Err(RosterFault::from(refusal.0)),
    }
}

/// Returns the rows of the store that is made for `own`, and the users file with its floors.
///
/// The store is opened for the given node and cluster, with the tokens of `users`.
fn printed(
    alloc: Global,
    own: &NamedCluster,
    node: u8,
    cluster: &NamedCluster,
    users: &[u8],
) -> Result<(Vec<u8>, Vec<u8>), SeatsFault<'static>> {
    let settings = Settings::default();
    let (mut roster, mut export) = (Vec::new(alloc), Vec::new(alloc));
    let database = made(alloc, own)?;
    roster_named_store(alloc, users, settings, node, cluster, database, &mut roster)?;
    let database = made(alloc, own)?;
    let naming = Naming::ByName(node, cluster);
    export_store(alloc, users, settings, naming, database, &mut export)?;
    Ok((roster, export))
}

/// Clears the failures of a user.
fn unlocked<'a>(
    alloc: Global,
    user: &'a str,
    cluster: &NamedCluster,
    database: InMemory,
) -> Result<SqlStore<MemStore>, SeatsFault<'a>> {
    let (settings, naming) = (Settings::default(), Naming::ByName(3, cluster));
    unlock_store(alloc, USERS, settings, naming, user, database)
}

/// Returns a pass of the retired token.
fn pass_of_retired() -> Option<Pass> {
    Pass::new(1, Span::one(Factor::new(29)?), 7, 1)
}

/// Returns a database whose store has a failure of ann, and a pass of the retired token.
fn used(alloc: Global, cluster: &NamedCluster) -> Result<InMemory, SeatsFault<'static>> {
    let mut store = unlocked(alloc, "ann", cluster, made(alloc, cluster)?)?;
    let (Some(gate), Some(pass)) = (Gate::new(1, 105), pass_of_retired()) else {
        return Err(SeatsFault::Roster(RosterFault::Full));
    };
    if store.tokens() != 3 {
        return Err(SeatsFault::Roster(RosterFault::Full));
    }
    let (retired, ann) = (store.row(1)?, store.row(2)?);
    store.put(1, retired, Some(pass))?;
    if store.tokens() != 3 {
        return Err(SeatsFault::Roster(RosterFault::Full));
    }
    store.put(2, ann.with_gate(gate), None)?;
    store.commit()?;
    Ok(InMemory(store.close()))
}

/// Returns the database of a used store, after the failures of ann are cleared.
fn cleared(alloc: Global, cluster: &NamedCluster) -> Result<InMemory, SeatsFault<'static>> {
    let store = unlocked(alloc, "ann", cluster, used(alloc, cluster)?)?;
    Ok(InMemory(store.close()))
}

/// Returns the passes of the store in one database, and the gates of the store in the other.
fn looked(
    alloc: Global,
    cluster: &NamedCluster,
    first: InMemory,
    second: InMemory,
) -> Result<(Vec<u8>, Vec<u8>), SeatsFault<'static>> {
    let settings = Settings::default();
    let (mut audit, mut gates) = (Vec::new(alloc), Vec::new(alloc));
    let naming = Naming::ByName(3, cluster);
    audit_store(alloc, USERS, settings, naming, first, &mut audit)?;
    gates_store(alloc, USERS, settings, naming, second, &mut gates)?;
    Ok((audit, gates))
}

#[test]
fn rows_are_printed(rt: HostRuntime) -> Result<(), Fail> {
    let alloc = rt.alloc();
    let own = cluster_in(b"1").ok_or("range")?;
    let (roster, export) = printed(alloc, &own, 3, &own, USERS)?;
    assert!(rt; roster.as_slice() == ROSTER && export.as_slice() == EXPORT);
    Ok(())
}

/// A new token, a store of another cluster, and a store of another node.
#[test]
fn stores_are_refused(rt: HostRuntime) -> Result<(), Fail> {
    let alloc = rt.alloc();
    let own = cluster_in(b"1").ok_or("range")?;
    let other = cluster_in(b"2").ok_or("range")?;
    let Err(new) = printed(alloc, &own, 3, &own, WITH_NEW) else {
        return Err(Fail::new("a new token"));
    };
    assert!(rt; new == SeatsFault::NotEnrolled(2));
    let Err(another) = printed(alloc, &own, 3, &other, USERS) else {
        return Err(Fail::new("another cluster"));
    };
    assert!(rt; another == SeatsFault::Roster(RosterFault::AnotherCluster));
    let Err(node) = printed(alloc, &own, 2, &own, USERS) else {
        return Err(Fail::new("another node"));
    };
    assert!(rt; node == SeatsFault::from(StoreFault::Unusable));
    Ok(())
}

/// The failures of a user are cleared. The passes stay.
#[test]
fn tokens_are_unlocked(rt: HostRuntime) -> Result<(), Fail> {
    let alloc = rt.alloc();
    let own = cluster_in(b"1").ok_or("range")?;
    let (audit, gates) = looked(alloc, &own, used(alloc, &own)?, used(alloc, &own)?)?;
    assert!(rt; audit.as_slice() == AUDIT && gates.as_slice() == GATES);
    let (audit, gates) = looked(alloc, &own, cleared(alloc, &own)?, cleared(alloc, &own)?)?;
    assert!(rt; audit.as_slice() == AUDIT && gates.is_empty());
    let Err(nobody) = unlocked(alloc, "eve", &own, used(alloc, &own)?) else {
        return Err(Fail::new("nobody"));
    };
    assert!(rt; nobody == SeatsFault::NoUser("eve") && nobody.status() == 1);
    Ok(())
}

/// The text and the exit status of each fault.
#[test]
fn faults_are_told(rt: HostRuntime) -> Result<(), Fail> {
    let alloc = rt.alloc();
    let new = SeatsFault::NotEnrolled(2);
    assert!(rt;
        format!(in alloc; "{new}")?.as_str() == "users: NotEnrolled 2" && new.status() == 1
    );
    let nobody = SeatsFault::NoUser("eve");
    assert!(rt; format!(in alloc; "{nobody}")?.as_str() == "no such user: eve");
    let disk = SeatsFault::from(StoreFault::Disk);
    assert!(rt; format!(in alloc; "{disk}")?.as_str() == "store: Disk" && disk.status() == 3);
    Ok(())
}

/// Returns a database whose store of node 3 has the tokens of `USERS` by places, and a failure of silver.
fn placed(alloc: Global) -> Result<InMemory, SeatsFault<'static>> {
    let Ok(conn) = Connection::open_in_memory(alloc) else {
        return Err(SeatsFault::from(Fault::Memory));
    };
    let mut store = init_store(alloc, USERS, Settings::default(), 0, 3, InMemory(conn))?;
    let Some(gate) = Gate::new(1, 105) else {
        return Err(SeatsFault::from(Fault::Memory));
    };
    if store.tokens() != 2 {
        return Err(SeatsFault::from(Fault::Memory));
    }
    let silver = store.row(1)?;
    store.put(1, silver.with_gate(gate), None)?;
    store.commit()?;
    Ok(InMemory(store.close()))
}

/// Returns the users file and the gates of the store in the databases, by places.
fn seen(
    alloc: Global,
    node: Option<u8>,
    first: InMemory,
    second: InMemory,
) -> Result<(Vec<u8>, Vec<u8>), SeatsFault<'static>> {
    let (settings, naming) = (Settings::default(), Naming::ByPlace(node));
    let (mut export, mut gates) = (Vec::new(alloc), Vec::new(alloc));
    export_store(alloc, USERS, settings, naming, first, &mut export)?;
    gates_store(alloc, USERS, settings, naming, second, &mut gates)?;
    Ok((export, gates))
}

/// Returns the database of the store by places, after the failures of silver are cleared.
fn opened(alloc: Global) -> Result<InMemory, SeatsFault<'static>> {
    let (settings, naming) = (Settings::default(), Naming::ByPlace(Some(3)));
    let store = unlock_store(alloc, USERS, settings, naming, "silver", placed(alloc)?)?;
    Ok(InMemory(store.close()))
}

/// By places: what is printed of a store of any node and of its own, another node, and an unlocking.
#[test]
fn places_are_seen(rt: HostRuntime) -> Result<(), Fail> {
    let alloc = rt.alloc();
    let (export, gates) = seen(alloc, None, placed(alloc)?, placed(alloc)?)?;
    assert!(rt; export.as_slice() == PLACED && gates.as_slice() == PLACED_GATES);
    let (export, gates) = seen(alloc, Some(3), placed(alloc)?, opened(alloc)?)?;
    assert!(rt; export.as_slice() == PLACED && gates.is_empty());
    let Err(node) = seen(alloc, Some(2), placed(alloc)?, placed(alloc)?) else {
        return Err(Fail::new("another node"));
    };
    assert!(rt; node == SeatsFault::from(StoreFault::Unusable));
    Ok(())
}
