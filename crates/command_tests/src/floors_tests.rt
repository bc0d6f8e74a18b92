//! The store of node 3 has three tokens, of which that of row 1 is retired.
//!
//! Python's hmac computed the names under the salt `names-of-site-1`, and the MACs.

use floor_sql::SqlStore;
use floor_store::StoreFault;
use floors_file::{FileFault, FilesFault, FloorsFault, LineFault};
use oathd_database::{Database, Fault, init_store};
use oathd_floors::{
    Former, NamedFloorsFault, NamingFault, drop_retired_rows, level_named_store, name_store,
    remake_named_store, tell_named_floors,
};
use oathd_roster::{NamedCluster, RosterFault, read_named_users};
use otp_core::{Next, Settings};
use program_edge::ProgramFault;
use roster_sql::{Bond, Entry, NAME_LEN, make_named};
use sqlite::{Connection, MemStore};
use std::alloc::Global;
use std::test::Fail;
use token_names::Salt;
use vote_core::Place;

/// The key of all files here.
const KEY: &[u8] = b"own-key-of-site-1";

/// The tokens of the rows 2 and 0.
const USERS: &[u8] = b"HOTP/T30/8/SHA256 ann - 00FF\n\
    HOTP silver pw 3132333435363738393031323334353637383930\n";

/// The same in another order.
const SWAPPED: &[u8] = b"HOTP silver pw 3132333435363738393031323334353637383930\n\
    HOTP/T30/8/SHA256 ann - 00FF\n";

/// The same as `USERS`, and a token without a row.
const WITH_NEW: &[u8] = b"HOTP/T30/8/SHA256 ann - 00FF\n\
    HOTP bob - 0102\n\
    HOTP silver pw 3132333435363738393031323334353637383930\n";

/// The floors file of the store of node 3.
const TOLD: &[u8] = b"floors 2 3 3 7 95 3 names-of-site-1 1\n\
    5cb0460e92720059b321966bf3ace45e 4b1d67ac07a043cad8bcc7ec0a00202b 20\n\
    03030303030303030303030303030303 04040404040404040404040404040404 30\n\
    e2329dda198989c3be495e9bada26a6c ed76c9713d62b9bfbbb5e80400be4737 40\n\
    mac 379207d4ece9525cbb77fdc0b8e60ccc3330188095d64f130525fadfc98a239c\n";

/// The floors file of node 1, which lacks the retired token.
const FIRST: &[u8] = b"floors 2 1 3 6 90 2 names-of-site-1 1\n\
    5cb0460e92720059b321966bf3ace45e 4b1d67ac07a043cad8bcc7ec0a00202b 25\n\
    e2329dda198989c3be495e9bada26a6c ed76c9713d62b9bfbbb5e80400be4737 35\n\
    heard 3 5\n\
    mac 746325e08f6366836d3e973883aed3002fb11d12a351fa914d83c0e27542cb60\n";

/// The floors file of node 2, which lacks ann.
const SECOND: &[u8] = b"floors 2 2 3 8 91 2 names-of-site-1 1\n\
    03030303030303030303030303030303 04040404040404040404040404040404 33\n\
    5cb0460e92720059b321966bf3ace45e 4b1d67ac07a043cad8bcc7ec0a00202b 22\n\
    mac cee765821ac91b6996af741f314521aa0d5b45267f83ab66a12cf0a416c24421\n";

/// The floors file of node 3 after its floors were raised by both files.
const LEVELLED: &[u8] = b"floors 2 3 3 7 95 3 names-of-site-1 1\n\
    5cb0460e92720059b321966bf3ace45e 4b1d67ac07a043cad8bcc7ec0a00202b 25\n\
    03030303030303030303030303030303 04040404040404040404040404040404 33\n\
    e2329dda198989c3be495e9bada26a6c ed76c9713d62b9bfbbb5e80400be4737 40\n\
    mac 90ae9820676a0415c8e934a0ee2816a1dea118e091eec190d861b348c911db3f\n";

/// The floors file of a store in place of that of node 3, from both files. The last token is new.
const REMADE: &[u8] = b"floors 2 3 3 104857600 95 4 names-of-site-1 1\n\
    5cb0460e92720059b321966bf3ace45e 4b1d67ac07a043cad8bcc7ec0a00202b 25\n\
    e2329dda198989c3be495e9bada26a6c ed76c9713d62b9bfbbb5e80400be4737 35\n\
    03030303030303030303030303030303 04040404040404040404040404040404 33\n\
    9098d0b999ff17923d9ac73f83a8f293 7693b1c76bc320d1a120a31ec5247d00 0\n\
    mac d2178ef0924a701279b8ab408d9bd24953d3860a4eab335289eaad6013a8fea9\n";

/// The same for a store of node 1 in another life of the cluster.
const ANEW: &[u8] = b"floors 2 1 3 104857600 95 4 names-of-site-1 2\n\
    5cb0460e92720059b321966bf3ace45e 4b1d67ac07a043cad8bcc7ec0a00202b 25\n\
    e2329dda198989c3be495e9bada26a6c ed76c9713d62b9bfbbb5e80400be4737 35\n\
    03030303030303030303030303030303 04040404040404040404040404040404 33\n\
    9098d0b999ff17923d9ac73f83a8f293 7693b1c76bc320d1a120a31ec5247d00 0\n\
    mac 9c21ff2f87dcf96fdf9ff39316874b35e35f52611127707fc9124ab26c876d7c\n";

/// The floors file of a store of version 2 whose tokens got names.
const NAMED: &[u8] = b"floors 2 3 3 0 95 2 names-of-site-1 1\n\
    e2329dda198989c3be495e9bada26a6c ed76c9713d62b9bfbbb5e80400be4737 40000002\n\
    5cb0460e92720059b321966bf3ace45e 4b1d67ac07a043cad8bcc7ec0a00202b 0\n\
    mac 4f989faa949a1a6626965c682dc0234755aacdc54f8cf4730c441d44f7e71378\n";

/// A database in memory.
#[derive(Drop)]
struct InMemory(Connection<MemStore>);

impl Database<MemStore> for InMemory {
    ghost finds = { λ _. Unit {0} };

    fn connect(self) -> Result<Connection<MemStore>, StoreFault> {
        let InMemory(conn) = self;
        if conn.is_autocommit() {
            Ok(conn)
        } else {
            Err(StoreFault::Disk)
        }
    }
}

/// Returns the cluster of three members in the given life.
fn cluster_in(life: &[u8]) -> Option<NamedCluster> {
    let salt = Salt::new(b"names-of-site-1")?;
    let bond = Bond::new(b"names-of-site-1", life, 3)?;
    let is_fresh = false;
    Some(NamedCluster {
        salt,
        bond,
        is_fresh,
    })
}

/// Returns a database without a table.
fn empty(alloc: Global) -> Result<InMemory, RosterFault> {
    match Connection::open_in_memory(alloc) {
        Ok(conn) => Ok(InMemory(conn)),
        Err(_) => Err(RosterFault::Command(Fault::Memory)),
    }
}

/// Returns the entries of the rows.
fn entries(alloc: Global, cluster: &NamedCluster) -> Result<[Entry; 3], RosterFault> {
    let named = read_named_users(alloc, USERS, Settings::default(), 0, &cluster.salt)?;
    let (Some(ann), Some(silver)) = (named.entries.first(), named.entries.get(1)) else {
        return Err(RosterFault::Full);
    };
    let retired = Entry {
        name: [3; NAME_LEN],
        seed: [4; NAME_LEN],
    };
    Ok([*silver, retired, *ann])
}

/// Creates the store of node 3 at boot 7, with the floors 20, 30 and 40.
fn made(alloc: Global, cluster: &NamedCluster) -> Result<InMemory, RosterFault> {
    let entries = entries(alloc, cluster)?;
    let (Some(first), Some(second), Some(third)) = (Next::new(20), Next::new(30), Next::new(40))
    else {
        return Err(RosterFault::Full);
    };
    made_of(alloc, cluster, &entries, &[first, second, third])
}

/// Creates the same store with a row more: the token of the first row had another name, and the floor 20.
fn made_with_former(alloc: Global, cluster: &NamedCluster) -> Result<InMemory, RosterFault> {
    let [silver, retired, ann] = entries(alloc, cluster)?;
    let (Some(first), Some(second), Some(third)) = (Next::new(20), Next::new(30), Next::new(40))
    else {
        return Err(RosterFault::Full);
    };
    let name = [5; NAME_LEN];
    let entries = [silver, Entry { name, ..silver }, retired, ann];
    made_of(alloc, cluster, &entries, &[first, first, second, third])
}

/// Creates the store of node 3 at boot 7, with these entries and floors.
fn made_of(
    alloc: Global,
    cluster: &NamedCluster,
    entries: &[Entry],
    floors: &[Next],
) -> Result<InMemory, RosterFault> {
    let InMemory(mut conn) = empty(alloc)?;
    if !conn.is_autocommit() || floors.len() > 9 || entries.len() != floors.len() {
        return Err(RosterFault::Full);
    }
    match make_named(&mut conn, 3, 7, floors, entries, &cluster.bond) {
        Ok(()) => Ok(InMemory(conn)),
        Err(refusal) => Err(RosterFault::from(refusal.0)),
    }
}

/// Returns the floors file of the store of a node.
fn told(
    alloc: Global,
    node: u8,
    cluster: &NamedCluster,
    database: InMemory,
) -> Result<Vec<u8>, RosterFault> {
    let mut text = Vec::new(alloc);
    tell_named_floors(alloc, node, 95, cluster, KEY, database, &mut text)?;
    Ok(text)
}

/// Returns the database of a closed store.
fn closed(store: SqlStore<MemStore>) -> InMemory {
    InMemory(store.close())
}

/// Returns the texts of the files of the nodes 1 and 2.
fn two_files(alloc: Global) -> Result<Vec<Vec<u8>>, Fail> {
    let mut texts = Vec::new(alloc);
    texts.push(FIRST.to_vec(alloc)?)?;
    texts.push(SECOND.to_vec(alloc)?)?;
    Ok(texts)
}

/// Returns the floors file of the store of node 3 after its floors were raised at `now`.
fn levelled(
    alloc: Global,
    now: u64,
    cluster: &NamedCluster,
    key: &[u8],
    texts: &[Vec<u8>],
) -> Result<Vec<u8>, NamedFloorsFault> {
    let database = made(alloc, cluster)?;
    let store = level_named_store(alloc, 3, now, cluster, key, texts, database)?;
    let text = told(alloc, 3, cluster, closed(store))?;
    Ok(text)
}

/// Returns what is written of the store of the member `me` in place of its former one, and the store's floors file.
///
/// The store is made at the moment 100, from files that were read after the moment 89.
fn remade(
    alloc: Global,
    me: u8,
    cluster: &NamedCluster,
    lost: Option<&[u8]>,
    texts: &[Vec<u8>],
) -> Result<(Vec<u8>, Vec<u8>), NamedFloorsFault> {
    let Some(place) = Place::new(me, 3) else {
        return Err(NamedFloorsFault::Roster(RosterFault::Full));
    };
    let former = Former {
        lost,
        since: 89,
        now: 100,
        texts,
    };
    let (settings, database) = (Settings::default(), empty(alloc)?);
    let mut written = Vec::new(alloc);
    let store = remake_named_store(
        alloc,
        WITH_NEW,
        settings,
        100,
        place,
        cluster,
        KEY,
        former,
        database,
        &mut written,
    )?;
    let text = told(alloc, me, cluster, closed(store.into_inner()))?;
    Ok((written, text))
}

/// Returns the floors file of a store of version 2 of 2008 whose tokens got names by `users`.
fn named(alloc: Global, users: &[u8], cluster: &NamedCluster) -> Result<Vec<u8>, NamingFault> {
    let database = empty(alloc)?;
    let store = init_store(
        alloc,
        USERS,
        Settings::default(),
        1_200_000_000,
        3,
        database,
    )?;
    let conn = name_store(alloc, users, 3, cluster, closed(store))?;
    let text = told(alloc, 3, cluster, InMemory(conn))?;
    Ok(text)
}

/// Returns what is written when needless rows are dropped, and the store's floors file then.
fn dropped(
    alloc: Global,
    cluster: &NamedCluster,
    database: InMemory,
) -> Result<(Vec<u8>, Vec<u8>), RosterFault> {
    let (settings, mut written) = (Settings::default(), Vec::new(alloc));
    let conn = drop_retired_rows(alloc, USERS, settings, 3, cluster, database, &mut written)?;
    let text = told(alloc, 3, cluster, InMemory(conn))?;
    Ok((written, text))
}

/// The former row of a token is dropped. The row of a token that left is not.
#[test]
fn needless_rows_are_dropped(rt: HostRuntime) -> Result<(), Fail> {
    let alloc = rt.alloc();
    let own = cluster_in(b"1").ok_or("range")?;
    let (written, text) = dropped(alloc, &own, made_with_former(alloc, &own)?)?;
    assert!(rt; written.as_slice() == b"dropped 1\nrows 3 of 65536\n".as_slice());
    assert!(rt; text.as_slice() == TOLD);
    let (written, text) = dropped(alloc, &own, made(alloc, &own)?)?;
    assert!(rt; written.as_slice() == b"dropped 0\nrows 3 of 65536\n".as_slice());
    assert!(rt; text.as_slice() == TOLD);
    Ok(())
}

#[test]
fn floors_are_told(rt: HostRuntime) -> Result<(), Fail> {
    let alloc = rt.alloc();
    let own = cluster_in(b"1").ok_or("range")?;
    let other = cluster_in(b"2").ok_or("range")?;
    let text = told(alloc, 3, &own, made(alloc, &own)?)?;
    assert!(rt; text.as_slice() == TOLD);
    let Err(another) = told(alloc, 3, &other, made(alloc, &own)?) else {
        return Err(Fail::new("another cluster"));
    };
    assert!(rt; another == RosterFault::AnotherCluster);
    let Err(node) = told(alloc, 2, &own, made(alloc, &own)?) else {
        return Err(Fail::new("another node"));
    };
    assert!(rt; node == RosterFault::from(StoreFault::Unusable));
    Ok(())
}

#[test]
fn floors_are_raised(rt: HostRuntime) -> Result<(), Fail> {
    let alloc = rt.alloc();
    let own = cluster_in(b"1").ok_or("range")?;
    let text = levelled(alloc, 91, &own, KEY, &two_files(alloc)?)?;
    assert!(rt; text.as_slice() == LEVELLED);
    let text = levelled(alloc, 91, &own, KEY, &[])?;
    assert!(rt; text.as_slice() == TOLD);
    Ok(())
}

/// Files under another key, of another life, and of a later moment.
#[test]
fn files_are_refused(rt: HostRuntime) -> Result<(), Fail> {
    let alloc = rt.alloc();
    let own = cluster_in(b"1").ok_or("range")?;
    let other = cluster_in(b"2").ok_or("range")?;
    let texts = two_files(alloc)?;
    let Err(key) = levelled(alloc, 91, &own, b"own-key-of-site-2", &texts) else {
        return Err(Fail::new("another key"));
    };
    let bad = FloorsFault {
        line: 5,
        kind: LineFault::BadMac,
    };
    assert!(rt; key == NamedFloorsFault::Floors(1, bad));
    let Err(life) = levelled(alloc, 91, &other, KEY, &texts) else {
        return Err(Fail::new("another life"));
    };
    let strange = FilesFault::File(1, FileFault::Cluster);
    assert!(rt; life == NamedFloorsFault::Files(strange));
    let Err(moment) = levelled(alloc, 90, &own, KEY, &texts) else {
        return Err(Fail::new("a later moment"));
    };
    assert!(rt; moment == NamedFloorsFault::Ahead(2));
    Ok(())
}

/// The store of a lost node, and that of a member of a cluster that is replaced.
#[test]
fn stores_are_made_again(rt: HostRuntime) -> Result<(), Fail> {
    let alloc = rt.alloc();
    let own = cluster_in(b"1").ok_or("range")?;
    let anew = cluster_in(b"2").ok_or("range")?;
    let texts = two_files(alloc)?;
    let (written, text) = remade(alloc, 3, &own, Some(&[3]), &texts)?;
    assert!(rt; written.as_slice() == b"made node 3 of 3: boot 104857600, tokens 3\n".as_slice());
    assert!(rt; text.as_slice() == REMADE);
    let (written, text) = remade(alloc, 1, &anew, None, &texts)?;
    assert!(rt; written.as_slice() == b"made node 1 of 3: boot 104857600, tokens 3\n".as_slice());
    assert!(rt; text.as_slice() == ANEW);
    let mut first = Vec::new(alloc);
    first.push(FIRST.to_vec(alloc)?)?;
    let Err(missing) = remade(alloc, 3, &own, Some(&[3]), &first) else {
        return Err(Fail::new("a missing file"));
    };
    assert!(rt; missing == NamedFloorsFault::Files(FilesFault::Missing(2)));
    Ok(())
}

#[test]
fn tokens_get_names(rt: HostRuntime) -> Result<(), Fail> {
    let alloc = rt.alloc();
    let own = cluster_in(b"1").ok_or("range")?;
    let text = named(alloc, USERS, &own)?;
    assert!(rt; text.as_slice() == NAMED);
    let Err(fault) = named(alloc, SWAPPED, &own) else {
        return Err(Fail::new("rows of other kinds"));
    };
    assert!(rt; format!(in alloc; "{fault}")?.as_str() == "users: OtherKind 2");
    Ok(())
}

/// The text and the exit status of each fault.
#[test]
fn faults_are_told(rt: HostRuntime) -> Result<(), Fail> {
    let alloc = rt.alloc();
    let another = NamedFloorsFault::from(RosterFault::AnotherCluster);
    assert!(rt;
        format!(in alloc; "{another}")?.as_str() == "store: Unusable" && another.status() == 3
    );
    let bad = FloorsFault {
        line: 5,
        kind: LineFault::BadMac,
    };
    let floors = NamedFloorsFault::Floors(1, bad);
    assert!(rt;
        format!(in alloc; "{floors}")?.as_str() == "floors 1 line 5: BadMac" && floors.status() == 1
    );
    let ahead = NamedFloorsFault::Ahead(2);
    assert!(rt; format!(in alloc; "{ahead}")?.as_str() == "floors 2: Ahead" && ahead.status() == 1);
    let files = NamedFloorsFault::Files(FilesFault::NotLost);
    assert!(rt; format!(in alloc; "{files}")?.as_str() == "floors: NotLost" && files.status() == 1);
    Ok(())
}
