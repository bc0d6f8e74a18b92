use floor_store::{FloorStore, MemStore, StoreFault};
use floors_file::{HeardBoot, NamedFloor, NamedFloors, NamedHead};
use named_floors::{TellingNode, level_named, make_from_floors, named_floors_of, remade};
use named_store::{NamedFault, open_named};
use otp_core::Next;
use roster_sql::{Bond, Entry, NAME_LEN};
use sqlite::Connection;
use std::alloc::Global;
use token_names::Name;

/// Returns an entry of one byte for its name and one for its seed.
fn entry(name: u8, seed: u8) -> Entry {
    Entry {
        name: [name; NAME_LEN],
        seed: [seed; NAME_LEN],
    }
}

/// Returns a row of one byte for its name and one for its seed.
fn row(name: u8, seed: u8, next: Next) -> NamedFloor {
    NamedFloor {
        name: Name::new([name; NAME_LEN]),
        seed: [seed; NAME_LEN],
        next,
    }
}

/// Returns five floors.
fn five_floors() -> Option<[Next; 5]> {
    Some([
        Next::new(20)?,
        Next::new(30)?,
        Next::new(40)?,
        Next::new(5)?,
        Next::new(50)?,
    ])
}

/// Returns a node that tells its floors.
fn telling(node: u8, members: u8) -> TellingNode<'static> {
    TellingNode {
        node,
        members,
        moment: 100,
        names: b"names-of-site-1",
        life: b"2026-11a",
    }
}

/// Returns a store in memory at boot 7, with two rows.
fn store_of(alloc: Global, floors: &[Next; 5]) -> Result<MemStore, StoreFault> {
    MemStore::new_at(alloc, 7, &floors[..2])
}

/// Returns whether a store has the given floors.
fn has(store: &MemStore, floors: &[Next]) -> bool {
    for token in 0..floors.len() {
        if token >= store.tokens() as usize {
            return false;
        }
        match store.row(token as u32) {
            Ok(row) => {
                if row.next() != floors[token] {
                    return false;
                }
            }
            Err(_) => return false,
        }
    }
    store.tokens() as usize == floors.len()
}

/// Returns whether the file of a node has the floors of its store and the boots of the other members.
fn is_told(alloc: Global, floors: &[Next; 5]) -> Result<bool, StoreFault> {
    let store = store_of(alloc, floors)?;
    let roster = [entry(1, 1), entry(3, 4)];
    if store.tokens() != 2 {
        return Ok(false);
    }
    let heard = [9, 5, 6, 0, 8, 3, 0, 0, 0, 4];
    let told = named_floors_of(alloc, &store, &roster, telling(2, 4), &heard)?;
    let rows = [row(1, 1, floors[0]), row(3, 4, floors[1])];
    let boots = [
        HeardBoot { member: 1, boot: 5 },
        HeardBoot { member: 4, boot: 8 },
    ];
    Ok(
        told.head.node == 2
            && told.head.members == 4
            && told.head.boot == 7
            && told.head.moment == 100
            && told.head.names == b"names-of-site-1".as_slice()
            && told.head.life == b"2026-11a".as_slice()
            && told.rows.as_slice() == rows.as_slice()
            && told.heard.as_slice() == boots.as_slice(),
    )
}

/// Returns whether only greater floors of gathered names are taken.
fn is_levelled(alloc: Global, floors: &[Next; 5]) -> Result<bool, StoreFault> {
    let mut store = store_of(alloc, floors)?;
    let roster = [entry(1, 1), entry(3, 4)];
    if store.tokens() != 2 {
        return Ok(false);
    }
    let gathered = [
        row(5, 3, floors[4]),
        row(3, 4, floors[2]),
        row(1, 1, floors[3]),
    ];
    level_named(alloc, &mut store, &roster, &gathered)?;
    Ok(has(&store, &[floors[0], floors[2]]))
}

/// Returns whether gathered rows and new tokens have rows.
fn is_remade(alloc: Global, floors: &[Next; 5]) -> Result<bool, StoreFault> {
    let gathered = [row(1, 2, floors[0]), row(3, 4, floors[1])];
    let names = [entry(8, 4), entry(3, 4), entry(9, 2), entry(6, 5)];
    let own = [floors[3], floors[4], floors[3], floors[3]];
    let rows = match remade(alloc, &gathered, &names, &own) {
        Ok(rows) => rows,
        Err(refusal) => return Err(refusal.0),
    };
    let entries = [
        entry(1, 2),
        entry(3, 4),
        entry(8, 4),
        entry(9, 2),
        entry(6, 5),
    ];
    let next = [floors[0], floors[1], floors[1], floors[0], floors[3]];
    Ok(rows.entries.as_slice() == entries.as_slice() && rows.floors.as_slice() == next.as_slice())
}

/// Returns the file of a node, with two rows.
fn file_of(
    alloc: Global,
    node: u8,
    rows: &[NamedFloor],
) -> Result<NamedFloors<'static>, NamedFault> {
    let mut all = Vec::new(alloc);
    if all.extend_from_slice(rows).is_err() {
        return Err(NamedFault::Store(StoreFault::Memory));
    }
    let head = NamedHead {
        node,
        members: 3,
        boot: 6,
        moment: 100,
        names: b"names-of-site-1",
        life: b"2026-11a",
    };
    Ok(NamedFloors {
        head,
        rows: all,
        heard: Vec::new(alloc),
    })
}

/// Returns whether a store that is made from two files is opened with their greatest floors.
fn is_made(alloc: Global, floors: &[Next; 5], own: &Bond) -> Result<bool, NamedFault> {
    let Ok(mut conn) = Connection::open_in_memory(alloc) else {
        return Err(NamedFault::Store(StoreFault::Memory));
    };
    let files = [
        file_of(alloc, 1, &[row(1, 2, floors[0]), row(3, 4, floors[3])])?,
        file_of(alloc, 2, &[row(3, 4, floors[2]), row(5, 6, floors[1])])?,
    ];
    let names = [entry(3, 4), entry(8, 4)];
    let mine = [floors[3], floors[0]];
    if !conn.is_autocommit() {
        return Err(NamedFault::Full);
    }
    make_from_floors(alloc, &mut conn, 3, 9, &names, &mine, &files, own)?;
    if !conn.is_autocommit() {
        return Err(NamedFault::Full);
    }
    let store = match open_named(alloc, conn, 3, &names, &mine, own) {
        Ok(store) => store,
        Err((_conn, fault)) => return Err(fault),
    };
    if store.tokens() != 2 {
        return Ok(false);
    }
    let next = match (store.row(0), store.row(1)) {
        (Ok(first), Ok(second)) => [first.next(), second.next()],
        _ => return Ok(false),
    };
    let boot = store.boot();
    let rows = store.into_inner().tokens();
    Ok(boot == Ok(9) && rows == 4 && next == [floors[2], floors[2]])
}

/// Returns the floors of the tokens `names` in a store that is made from two files of three rows together.
///
/// The store is made with the first two tokens, and opened with all. It has five rows then.
fn remade_floors(
    alloc: Global,
    floors: &[Next; 5],
    names: &[Entry; 3],
    own: &Bond,
) -> Result<[Next; 3], NamedFault> {
    let Ok(mut conn) = Connection::open_in_memory(alloc) else {
        return Err(NamedFault::Store(StoreFault::Memory));
    };
    let files = [
        file_of(alloc, 1, &[row(1, 2, floors[0]), row(3, 4, floors[3])])?,
        file_of(alloc, 2, &[row(3, 4, floors[2]), row(5, 6, floors[1])])?,
    ];
    let mine = [floors[3], floors[3], floors[3]];
    if !conn.is_autocommit() {
        return Err(NamedFault::Full);
    }
    make_from_floors(alloc, &mut conn, 3, 9, &names[..2], &mine[..2], &files, own)?;
    if !conn.is_autocommit() {
        return Err(NamedFault::Full);
    }
    let store = match open_named(alloc, conn, 3, names, &mine, own) {
        Ok(store) => store,
        Err((_conn, fault)) => return Err(fault),
    };
    if store.tokens() != 3 {
        return Err(NamedFault::Full);
    }
    let next = match (store.row(0), store.row(1), store.row(2)) {
        (Ok(first), Ok(second), Ok(third)) => [first.next(), second.next(), third.next()],
        _ => return Err(NamedFault::Full),
    };
    if store.into_inner().tokens() != 5 {
        return Err(NamedFault::Full);
    }
    Ok(next)
}

/// A renamed user's token begins at the floor of its former row. So does a retired token that comes back later under
/// another name.
#[test]
fn secrets_are_known_again(rt: HostRuntime) {
    let (Some(own), Some(floors)) = (Bond::new(b"names", b"life", 3), five_floors()) else {
        assert!(rt; false, "range");
        return;
    };
    let names = [entry(5, 6), entry(8, 4), entry(9, 2)];
    let want = [floors[1], floors[2], floors[0]];
    assert!(rt; remade_floors(rt.alloc(), &floors, &names, &own) == Ok(want));
}

#[test]
fn floors_go_by_names(rt: HostRuntime) {
    let (Some(own), Some(floors)) = (Bond::new(b"names", b"life", 3), five_floors()) else {
        assert!(rt; false, "range");
        return;
    };
    assert!(rt; is_told(rt.alloc(), &floors) == Ok(true));
    assert!(rt; is_levelled(rt.alloc(), &floors) == Ok(true));
    assert!(rt; is_remade(rt.alloc(), &floors) == Ok(true));
    assert!(rt; is_made(rt.alloc(), &floors, &own) == Ok(true));
}
