use floor_sql::{Format, SqlStore, is_of_format};
use floor_store::{FloorStore, Row, StoreFault};
use otp_core::Next;
use roster_sql::{
    Bond, Entry, NAME_LEN, enrol, make_named, name_tables, node_of_named, read_bond, read_roster,
};
use sqlite::{Alter, Connection, MemStore};
use std::alloc::Global;

/// Creates a store of version 2 of node 3 in memory, with two tokens, and returns its connection.
fn made(alloc: Global) -> Result<Connection<MemStore>, StoreFault> {
    let Some(floor) = Next::new(9) else {
        return Err(StoreFault::Unusable);
    };
    let Ok(conn) = Connection::open_in_memory(alloc) else {
        return Err(StoreFault::Memory);
    };
    match SqlStore::init(alloc, conn, 3, &[floor; 2]) {
        Ok(store) => Ok(store.close()),
        Err((_conn, fault)) => Err(fault),
    }
}

/// Returns an entry of one byte for its name and one for its seed.
fn entry(name: u8, seed: u8) -> Entry {
    Entry {
        name: [name; NAME_LEN],
        seed: [seed; NAME_LEN],
    }
}

/// Gives the store of `node` the names and the bond.
fn named(
    conn: &mut Connection<MemStore>,
    node: u8,
    entries: &[Entry],
    own: &Bond,
) -> Result<(), StoreFault> {
    if !conn.is_autocommit() || entries.len() > 10_000 {
        return Err(StoreFault::Disk);
    }
    match name_tables(conn, node, entries, own) {
        Ok(()) => Ok(()),
        Err(refusal) => Err(refusal.0),
    }
}

/// Returns whether the store lists exactly the given entries.
fn lists<S: Alter>(alloc: Global, conn: &mut Connection<S>, entries: &[Entry]) -> bool {
    if !is_of_format(conn.schema(), Format::Named) || entries.len() > 10_000 {
        return false;
    }
    match read_roster(alloc, conn, entries.len() as u32) {
        Ok(list) => list.as_slice() == entries,
        Err(_) => false,
    }
}

/// Returns whether the store is bound to a cluster with these words and so many members.
fn is_bound<S: Alter>(conn: &mut Connection<S>, names: &[u8], life: &[u8], members: u8) -> bool {
    if !is_of_format(conn.schema(), Format::Named) {
        return false;
    }
    match read_bond(conn) {
        Ok(own) => own.names() == names && own.life() == life && own.members() == members,
        Err(_) => false,
    }
}

/// Returns whether a store of two tokens gets names once, from its own node, for each of its tokens, and keeps them.
fn gets_names(alloc: Global, own: &Bond) -> Result<bool, StoreFault> {
    let mut conn = made(alloc)?;
    let entries = [entry(1, 2), entry(3, 4)];
    let other = named(&mut conn, 4, &entries, own) == Err(StoreFault::Unusable);
    let few = named(&mut conn, 3, &entries[..1], own) == Err(StoreFault::Unusable);
    let unnamed = is_of_format(conn.schema(), Format::Numbered);
    named(&mut conn, 3, &entries, own)?;
    let again = named(&mut conn, 3, &entries, own) == Err(StoreFault::Unusable);
    let kept = lists(alloc, &mut conn, &entries) && is_bound(&mut conn, b"names", b"life", 5);
    Ok(other && few && unnamed && again && kept)
}

/// Opens a store with names in the given format, and returns the number of its tokens.
fn opened(alloc: Global, own: &Bond, format: Format) -> Result<u32, StoreFault> {
    let mut conn = made(alloc)?;
    named(&mut conn, 3, &[entry(1, 2), entry(3, 4)], own)?;
    if !conn.is_autocommit() {
        return Err(StoreFault::Disk);
    }
    match SqlStore::open_as(alloc, conn, format, 3, 2) {
        Ok(store) => Ok(store.tokens()),
        Err((_conn, fault)) => Err(fault),
    }
}

#[test]
fn a_store_gets_names(rt: HostRuntime) {
    let Some(own) = Bond::new(b"names", b"life", 5) else {
        assert!(rt; false, "range");
        return;
    };
    assert!(rt; gets_names(rt.alloc(), &own) == Ok(true));
    assert!(rt; opened(rt.alloc(), &own, Format::Named) == Ok(2));
    assert!(rt; opened(rt.alloc(), &own, Format::Numbered) == Err(StoreFault::Unusable));
    assert!(rt; Bond::new(&[0; 65], b"life", 5).is_none());
}

/// Creates a store of version 3 of node 3 in memory, at boot 7.
fn made_named(
    alloc: Global,
    floors: &[Next],
    entries: &[Entry],
    own: &Bond,
) -> Result<Connection<MemStore>, StoreFault> {
    let Ok(mut conn) = Connection::open_in_memory(alloc) else {
        return Err(StoreFault::Memory);
    };
    makes(&mut conn, floors, entries, own)?;
    Ok(conn)
}

/// Creates a store of version 3 of node 3 over a connection, at boot 7.
pub(crate) fn makes<S: Alter>(
    conn: &mut Connection<S>,
    floors: &[Next],
    entries: &[Entry],
    own: &Bond,
) -> Result<(), StoreFault> {
    if !conn.is_autocommit() || floors.len() > 100 || entries.len() != floors.len() {
        return Err(StoreFault::Spent);
    }
    match make_named(conn, 3, 7, floors, entries, own) {
        Ok(()) => Ok(()),
        Err(refusal) => Err(refusal.0),
    }
}

/// Enrols tokens in the store of `node` that has the given number of tokens.
pub(crate) fn enrols<S: Alter>(
    conn: &mut Connection<S>,
    node: u8,
    tokens: u32,
    floors: &[Next],
    entries: &[Entry],
) -> Result<(), StoreFault> {
    if !conn.is_autocommit()
        || tokens > 100
        || floors.len() > 100
        || entries.len() != floors.len()
    {
        return Err(StoreFault::Spent);
    }
    match enrol(conn, node, tokens, 0, &[], floors, entries) {
        Ok(()) => Ok(()),
        Err(refusal) => Err(refusal.0),
    }
}

/// Returns whether the store is of node 3, has the given entries, and is bound to the cluster of the tests.
pub(crate) fn names<S: Alter>(alloc: Global, conn: &mut Connection<S>, entries: &[Entry]) -> bool {
    let Ok((node, tokens)) = node_of_named(conn) else {
        return false;
    };
    node == 3
        && tokens as usize == entries.len()
        && lists(alloc, conn, entries)
        && is_bound(conn, b"names", b"life", 5)
}

/// Opens the store of node 3 of version 3 that a connection holds.
fn opened_named(
    alloc: Global,
    conn: Connection<MemStore>,
    tokens: u32,
) -> Result<SqlStore<MemStore>, StoreFault> {
    if !conn.is_autocommit() || tokens > 10_000 {
        return Err(StoreFault::Spent);
    }
    match SqlStore::open_as(alloc, conn, Format::Named, 3, tokens) {
        Ok(store) => Ok(store),
        Err((_conn, fault)) => Err(fault),
    }
}

/// Returns whether the store has the opening row with the given floor of a token.
fn has_floor(store: &SqlStore<MemStore>, token: u32, floor: Next) -> bool {
    token < store.tokens() && store.row(token) == Ok(Row::opening(floor))
}

/// Returns four floors.
pub(crate) fn four_floors() -> Option<[Next; 4]> {
    Some([Next::new(9)?, Next::new(5)?, Next::new(6)?, Next::new(7)?])
}

/// Returns four entries.
pub(crate) fn four_entries() -> [Entry; 4] {
    [entry(1, 2), entry(3, 4), entry(5, 6), entry(7, 8)]
}

/// Returns whether a store of one token has all four after two enrolments.
fn grows(alloc: Global, floors: &[Next; 4], own: &Bond) -> Result<bool, StoreFault> {
    let entries = four_entries();
    let mut conn = made_named(alloc, &[floors[0]], &[entries[0]], own)?;
    let made = names(alloc, &mut conn, &[entries[0]]);
    enrols(
        &mut conn,
        3,
        1,
        &[floors[1], floors[2]],
        &[entries[1], entries[2]],
    )?;
    let more = names(alloc, &mut conn, &[entries[0], entries[1], entries[2]]);
    enrols(&mut conn, 3, 3, &[floors[3]], &[entries[3]])?;
    let all = names(alloc, &mut conn, &entries);
    Ok(made && more && all && is_grown(alloc, conn, floors)?)
}

/// Returns whether the store has four tokens with the given floors, at boot 7.
fn is_grown(
    alloc: Global,
    conn: Connection<MemStore>,
    floors: &[Next; 4],
) -> Result<bool, StoreFault> {
    let store = opened_named(alloc, conn, 4)?;
    Ok(
        store.boot() == Ok(7)
            && has_floor(&store, 0, floors[0])
            && has_floor(&store, 1, floors[1])
            && has_floor(&store, 2, floors[2])
            && has_floor(&store, 3, floors[3]),
    )
}

/// Returns whether an enrolment is refused for another node and for another number of tokens, and changes nothing.
fn refuses(alloc: Global, floors: &[Next; 4], own: &Bond) -> Result<bool, StoreFault> {
    let entries = four_entries();
    let mut conn = made_named(alloc, &[floors[0]], &[entries[0]], own)?;
    let other = enrols(&mut conn, 4, 1, &[floors[1]], &[entries[1]]) == Err(StoreFault::Unusable);
    let more = enrols(&mut conn, 3, 2, &[floors[1]], &[entries[1]]) == Err(StoreFault::Unusable);
    let again = makes(&mut conn, &[floors[0]], &[entries[0]], own) == Err(StoreFault::AlreadyThere);
    Ok(other && more && again && names(alloc, &mut conn, &[entries[0]]))
}

/// Returns whether a transaction that stops at its second token leaves the store as it was.
fn stops(alloc: Global, floors: &[Next; 4], own: &Bond) -> Result<bool, StoreFault> {
    let entries = four_entries();
    let mut conn = made_named(alloc, &[floors[0]], &[entries[0]], own)?;
    // The second new token has a row of `drift` already.
    if !runs(&mut conn, "INSERT INTO drift (token, steps) VALUES (2, 0)") {
        return Ok(false);
    }
    let new = [entries[1], entries[2]];
    let stopped = enrols(&mut conn, 3, 1, &[floors[1], floors[2]], &new) == Err(StoreFault::Disk);
    let kept = names(alloc, &mut conn, &[entries[0]]);
    enrols(&mut conn, 3, 1, &[floors[1]], &[entries[1]])?;
    Ok(stopped && kept && names(alloc, &mut conn, &[entries[0], entries[1]]))
}

/// Returns whether a statement runs.
fn runs(conn: &mut Connection<MemStore>, sql: &str) -> bool {
    conn.execute(sql, &[]).is_ok()
}

/// Returns whether a database with a table of another name takes no store.
fn is_foreign(alloc: Global, floors: &[Next; 4], own: &Bond) -> Result<bool, StoreFault> {
    let Ok(mut conn) = Connection::open_in_memory(alloc) else {
        return Err(StoreFault::Memory);
    };
    if !runs(&mut conn, "CREATE TABLE note (id INTEGER PRIMARY KEY)") {
        return Ok(false);
    }
    let entries = four_entries();
    Ok(makes(&mut conn, floors, &entries, own) == Err(StoreFault::Unusable))
}

#[test]
fn a_store_enrols_tokens(rt: HostRuntime) {
    let (Some(own), Some(floors)) = (Bond::new(b"names", b"life", 5), four_floors()) else {
        assert!(rt; false, "range");
        return;
    };
    assert!(rt; grows(rt.alloc(), &floors, &own) == Ok(true));
    assert!(rt; refuses(rt.alloc(), &floors, &own) == Ok(true));
    assert!(rt; stops(rt.alloc(), &floors, &own) == Ok(true));
    assert!(rt; is_foreign(rt.alloc(), &floors, &own) == Ok(true));
}
