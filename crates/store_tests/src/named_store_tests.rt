use floor_sql::SqlStore;
use floor_store::{FloorStore, Row, StoreFault};
use named_store::{LookFault, Looked, NamedFault, entries_of, look_named, open_named};
use otp_core::{Next, Settings};
use roster_sql::{Bond, Entry, NAME_LEN, make_named};
use seated_store::SeatedStore;
use sqlite::{Connection, MemStore};
use std::alloc::Global;
use std::test::Fail;
use token_file::{FromRead, read_book};
use token_names::{Name, Salt};

/// A store that was opened by names.
type Opened = SeatedStore<SqlStore<MemStore>>;

/// The rows of two tokens.
const ROWS: &[u8] =
    b"HOTP silver pw 3132333435363738393031323334353637383930 7\nHOTP/T30/8/SHA256 ann - 00FF\n";

/// The name and the seed of each token of [`ROWS`] under the salt `names-of-site-1`, as Python's hmac computes them.
const ENTRIES: [[&str; 2]; 2] = [
    [
        "5cb0460e92720059b321966bf3ace45e",
        "4b1d67ac07a043cad8bcc7ec0a00202b",
    ],
    [
        "e2329dda198989c3be495e9bada26a6c",
        "ed76c9713d62b9bfbbb5e80400be4737",
    ],
];

/// Returns an entry of one byte for its name and one for its seed.
fn entry(name: u8, seed: u8) -> Entry {
    Entry {
        name: [name; NAME_LEN],
        seed: [seed; NAME_LEN],
    }
}

/// Creates a store of version 3 of node 3 in memory, at boot 7, with three tokens.
fn made(alloc: Global, floors: &[Next; 5], own: &Bond) -> Result<Connection<MemStore>, NamedFault> {
    let Ok(mut conn) = Connection::open_in_memory(alloc) else {
        return Err(NamedFault::Store(StoreFault::Memory));
    };
    if !conn.is_autocommit() {
        return Err(NamedFault::Full);
    }
    let entries = [entry(1, 1), entry(3, 4), entry(5, 1)];
    match make_named(&mut conn, 3, 7, &floors[..3], &entries, own) {
        Ok(()) => Ok(conn),
        Err(refusal) => Err(NamedFault::Store(refusal.0)),
    }
}

/// Opens the store of node 3 that a connection holds.
fn opens(
    alloc: Global,
    conn: Connection<MemStore>,
    names: &[Entry],
    floors: &[Next],
    own: &Bond,
) -> Result<Opened, NamedFault> {
    if !conn.is_autocommit() || names.len() > 100 || floors.len() != names.len() {
        return Err(NamedFault::Full);
    }
    match open_named(alloc, conn, 3, names, floors, own) {
        Ok(store) => Ok(store),
        Err((_conn, fault)) => Err(fault),
    }
}

/// Returns the fault of an opening.
fn fault_of(opened: Result<Opened, NamedFault>) -> Option<NamedFault> {
    match opened {
        Ok(_store) => None,
        Err(fault) => Some(fault),
    }
}

/// Returns whether the rows of a store are opening rows with the given floors, at boot 7.
fn shows(store: &Opened, floors: &[Next]) -> bool {
    if store.boot() != Ok(7) || store.tokens() as usize != floors.len() {
        return false;
    }
    for token in 0..floors.len() {
        if token >= store.tokens() as usize {
            return false;
        }
        if store.row(token as u32) != Ok(Row::opening(floors[token])) {
            return false;
        }
    }
    true
}

/// Returns the connection of a store, and the number of its rows.
fn closed(store: Opened) -> (Connection<MemStore>, u32) {
    let inner = store.into_inner();
    let rows = inner.tokens();
    (inner.close(), rows)
}

/// Returns five floors.
fn five_floors() -> Option<[Next; 5]> {
    Some([
        Next::new(20)?,
        Next::new(30)?,
        Next::new(40)?,
        Next::new(5)?,
        Next::new(50)?,
    ])
}

/// Returns whether the same tokens are seen in another order, and no row is new. Two rows have one seed: each of them
/// has the greater floor.
fn other_order(alloc: Global, floors: &[Next; 5], own: &Bond) -> Result<bool, NamedFault> {
    let names = [entry(5, 1), entry(1, 9), entry(3, 4)];
    let store = opens(alloc, made(alloc, floors, own)?, &names, &floors[..3], own)?;
    let order = shows(&store, &[floors[2], floors[2], floors[1]]);
    let (_conn, rows) = closed(store);
    Ok(order && rows == 3)
}

/// Returns whether a new token goes on where a row with its seed was, and the row of a retired one stays.
fn one_retired(alloc: Global, floors: &[Next; 5], own: &Bond) -> Result<bool, NamedFault> {
    let names = [entry(8, 1), entry(3, 4), entry(9, 2)];
    let own_floors = [floors[3], floors[3], floors[4]];
    let store = opens(alloc, made(alloc, floors, own)?, &names, &own_floors, own)?;
    let new = shows(&store, &[floors[2], floors[1], floors[4]]);
    let (conn, rows) = closed(store);
    // The next start finds the rows.
    let store = opens(alloc, conn, &names, &own_floors, own)?;
    let again = shows(&store, &[floors[2], floors[1], floors[4]]);
    let (_conn, same) = closed(store);
    Ok(new && rows == 5 && again && same == 5)
}

/// Returns whether a row that comes back has the floor of the row that its device had meanwhile, and the row of a
/// retired token stays.
fn comes_back(alloc: Global, floors: &[Next; 5], own: &Bond) -> Result<bool, NamedFault> {
    let now = [entry(5, 1), entry(3, 4)];
    let store = opens(alloc, made(alloc, floors, own)?, &now, &floors[..2], own)?;
    let before = shows(&store, &[floors[2], floors[1]]);
    let (conn, rows) = closed(store);
    let back = [entry(1, 1), entry(3, 4)];
    let store = opens(alloc, conn, &back, &floors[..2], own)?;
    let after = shows(&store, &[floors[2], floors[1]]);
    let (conn, same) = closed(store);
    let store = opens(alloc, conn, &now, &floors[..2], own)?;
    let again = shows(&store, &[floors[2], floors[1]]);
    Ok(before && rows == 3 && after && same == 3 && again)
}

/// Returns whether a store is refused to another cluster, and to tokens with one name.
fn refused(
    alloc: Global,
    floors: &[Next; 5],
    own: &Bond,
    other: &Bond,
) -> Result<bool, NamedFault> {
    let names = [entry(1, 1), entry(5, 1)];
    let another = opens(
        alloc,
        made(alloc, floors, own)?,
        &names,
        &floors[..2],
        other,
    );
    let twice = [entry(9, 1), entry(9, 2)];
    let same = opens(alloc, made(alloc, floors, own)?, &twice, &floors[..2], own);
    Ok(
        fault_of(another) == Some(NamedFault::AnotherCluster)
            && fault_of(same) == Some(NamedFault::Store(StoreFault::Unusable)),
    )
}

/// Looks at the store of node 3 that a connection holds.
fn looks(
    alloc: Global,
    conn: Connection<MemStore>,
    names: &[Entry],
    own: &Bond,
) -> Result<Looked<MemStore>, (Connection<MemStore>, LookFault)> {
    if !conn.is_autocommit() || names.len() > 100 {
        return Err((conn, LookFault::Named(NamedFault::Full)));
    }
    look_named(alloc, conn, 3, names, own, None)
}

/// Returns whether two of three tokens are seen in another order, beside the entries of all rows.
fn looked_at(alloc: Global, floors: &[Next; 5], own: &Bond) -> Result<bool, NamedFault> {
    let names = [entry(5, 1), entry(1, 9)];
    let Ok(looked) = looks(alloc, made(alloc, floors, own)?, &names, own) else {
        return Ok(false);
    };
    let order = shows(&looked.store, &[floors[2], floors[0]]);
    let rows = [entry(1, 1), entry(3, 4), entry(5, 1)];
    let named = looked.roster.as_slice() == rows.as_slice();
    Ok(order && named && looked.seats.as_slice() == [2, 0].as_slice())
}

/// Returns whether a new token is told, and not enrolled.
fn not_enrolled(alloc: Global, floors: &[Next; 5], own: &Bond) -> Result<bool, NamedFault> {
    let names = [entry(5, 1), entry(8, 1), entry(9, 1)];
    let Err((conn, fault)) = looks(alloc, made(alloc, floors, own)?, &names, own) else {
        return Ok(false);
    };
    let rows = match looks(alloc, conn, &[entry(3, 4)], own) {
        Ok(looked) => looked.roster.len(),
        Err(_) => 0,
    };
    Ok(fault == LookFault::NotEnrolled { token: 1 } && rows == 3)
}

/// Returns whether a store is not shown to another cluster.
fn not_shown(
    alloc: Global,
    floors: &[Next; 5],
    own: &Bond,
    other: &Bond,
) -> Result<bool, NamedFault> {
    match looks(alloc, made(alloc, floors, own)?, &[entry(8, 1)], other) {
        Ok(_) => Ok(false),
        Err((_, fault)) => Ok(fault == LookFault::Named(NamedFault::AnotherCluster)),
    }
}

/// Returns whether an entry has the name and the seed that are written in hexadecimal.
fn is_written(entry: Entry, digits: [&str; 2]) -> bool {
    let name = Name::new(entry.name).digits();
    let seed = Name::new(entry.seed).digits();
    name.as_slice() == digits[0].as_bytes() && seed.as_slice() == digits[1].as_bytes()
}

/// The entries of a book are in the order of its rows.
#[test]
fn entries_in_order(rt: HostRuntime) -> Result<(), Fail> {
    let salt = Salt::new(b"names-of-site-1").ok_or_else(|| Fail::new("no salt"))?;
    let settings = Settings::new(10, 1, 100).unwrap();
    let (book, _) = read_book(rt.alloc(), &mut FromRead::new(ROWS), settings, 59)?;
    let entries = entries_of(rt.alloc(), &salt, &book)?;
    assert!(rt; entries.len() == ENTRIES.len());
    for (entry, digits) in entries.iter().zip(ENTRIES) {
        assert!(rt; is_written(*entry, digits));
    }
    Ok(())
}

#[test]
fn a_store_is_opened_by_names(rt: HostRuntime) {
    let (Some(own), Some(floors)) = (Bond::new(b"names", b"life", 5), five_floors()) else {
        assert!(rt; false, "range");
        return;
    };
    let Some(other) = Bond::new(b"names", b"another life", 5) else {
        assert!(rt; false, "range");
        return;
    };
    assert!(rt; other_order(rt.alloc(), &floors, &own) == Ok(true));
    assert!(rt; one_retired(rt.alloc(), &floors, &own) == Ok(true));
    assert!(rt; comes_back(rt.alloc(), &floors, &own) == Ok(true));
    assert!(rt; refused(rt.alloc(), &floors, &own, &other) == Ok(true));
}

#[test]
fn a_store_is_looked_at_by_names(rt: HostRuntime) {
    let (Some(own), Some(floors)) = (Bond::new(b"names", b"life", 5), five_floors()) else {
        assert!(rt; false, "range");
        return;
    };
    let Some(other) = Bond::new(b"names", b"another life", 5) else {
        assert!(rt; false, "range");
        return;
    };
    assert!(rt; looked_at(rt.alloc(), &floors, &own) == Ok(true));
    assert!(rt; not_enrolled(rt.alloc(), &floors, &own) == Ok(true));
    assert!(rt; not_shown(rt.alloc(), &floors, &own, &other) == Ok(true));
}

/// The text of each fault.
#[test]
fn faults_are_told(rt: HostRuntime) -> Result<(), Fail> {
    let alloc = rt.alloc();
    let new = LookFault::NotEnrolled { token: 1 };
    assert!(rt; format!(in alloc; "{new}")?.as_str() == "NotEnrolled 1");
    let another = LookFault::Named(NamedFault::AnotherCluster);
    assert!(rt; format!(in alloc; "{another}")?.as_str() == "AnotherCluster");
    assert!(rt; format!(in alloc; "{}", NamedFault::Full)?.as_str() == "Full");
    let disk = NamedFault::Store(StoreFault::Disk);
    assert!(rt; format!(in alloc; "{disk}")?.as_str() == "Disk");
    Ok(())
}
