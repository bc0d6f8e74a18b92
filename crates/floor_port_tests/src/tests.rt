//! A port over a port in memory, for the node 2 of three with a book of three rows.

ghost use Rattle.std.specs.Prelude.{◌≡◌, ◌≤◌, length, true, IfOk};
ghost use Rattle.datagram_port.specs.Port.{IsWithin};

use arrayvec::ArrayVec;
use datagram_port::{Coming, ListPort, Port, PortEntry, Received, Sender};
use floor_port::{FloorPort, MAX_FLOORS, Membership, NamedFloor, floors_body, floors_told};
use gatekeeping::{Fell, PLACES};
use named_port::Names;
use named_wire::{Head, Kind, MAX_DATAGRAM_LEN, read_datagram, write_datagram};
use otp_core::{MAX_TOKENS, Next, Settings};
use std::alloc::Global;
use std::test::Fail;
use token_file::{FromRead, read_book};
use token_names::{Name, Salt, names_of};
use vote_wire::ClusterKey;

/// The book.
const ROWS: &[u8] = b"HOTP/E/6 ann - 31\nHOTP/E/6 bob - 32\nHOTP/E/6 cid - 33\n";

/// A book of 21 rows.
const MORE_ROWS: &[u8] = b"\
    HOTP/E/6 u00 - 31\n\
    HOTP/E/6 u01 - 32\n\
    HOTP/E/6 u02 - 33\n\
    HOTP/E/6 u03 - 34\n\
    HOTP/E/6 u04 - 35\n\
    HOTP/E/6 u05 - 36\n\
    HOTP/E/6 u06 - 37\n\
    HOTP/E/6 u07 - 38\n\
    HOTP/E/6 u08 - 39\n\
    HOTP/E/6 u09 - 3a\n\
    HOTP/E/6 u10 - 3b\n\
    HOTP/E/6 u11 - 3c\n\
    HOTP/E/6 u12 - 3d\n\
    HOTP/E/6 u13 - 3e\n\
    HOTP/E/6 u14 - 3f\n\
    HOTP/E/6 u15 - 40\n\
    HOTP/E/6 u16 - 41\n\
    HOTP/E/6 u17 - 42\n\
    HOTP/E/6 u18 - 43\n\
    HOTP/E/6 u19 - 44\n\
    HOTP/E/6 u20 - 45\n";

/// The node.
const NODE: Membership = Membership {
    me: 2,
    boot: 5,
    members: 3,
    gone_back: [false; PLACES],
    known: [0; PLACES],
};

/// Returns the names of the book in its order.
fn list(alloc: Global) -> Result<Vec<Name>, Fail> {
    let salt = Salt::new(b"names-of-site-1").ok_or_else(|| Fail::new("no salt"))?;
    let settings = Settings::new(10, 1, 100).unwrap();
    let (book, _) = read_book(alloc, &mut FromRead::new(ROWS), settings, 59)?;
    Ok(names_of(alloc, &salt, &book)?)
}

/// Returns the names of a book with their index.
fn names(alloc: Global, rows: &[u8]) -> Result<Names, Fail> {
    let salt = Salt::new(b"names-of-site-1").ok_or_else(|| Fail::new("no salt"))?;
    let settings = Settings::new(10, 1, 100).unwrap();
    let (book, _) = read_book(alloc, &mut FromRead::new(rows), settings, 59)?;
    let names = names_of(alloc, &salt, &book)?;
    if names.len() > MAX_TOKENS {
        return Err(Fail::new("too many names"));
    }
    Ok(Names::new(alloc, names)?)
}

/// Returns whether a book has the given number of rows, at least one.
#[tactic(auto, using(floor_port::proofs::RowLemmas::rows_are))]
fn has_rows(names: &Names, rows: u32) -> bool
    requires { 1 ≤ rows }
    ensures { result ≡ true → length names.now ≡ rows }
{
    let Some(_last) = names.name(rows - 1) else {
        return false;
    };
    match names.name(rows) {
        Some(_) => false,
        None => true,
    }
}

/// Returns a port of the node over a port in memory. Its store has the given floor for each of the rows.
fn port_over<'k>(
    alloc: Global,
    comings: &'k [Coming<'k>],
    key: &'k ClusterKey,
    names: &'k Names,
    floors: &[Next],
) -> Result<FloorPort<'k, ListPort<'k>>, Fail> {
    port_that_knows(alloc, comings, key, names, NODE, floors)
}

/// Returns a port of a node over a port in memory, as [`port_over`] does.
fn port_that_knows<'k>(
    alloc: Global,
    comings: &'k [Coming<'k>],
    key: &'k ClusterKey,
    names: &'k Names,
    node: Membership,
    floors: &[Next],
) -> Result<FloorPort<'k, ListPort<'k>>, Fail> {
    let rows = floors.len();
    if rows < 1 || rows > MAX_TOKENS || !has_rows(names, rows as u32) {
        return Err(Fail::new("another number of rows"));
    }
    let below = ListPort::new(alloc, comings);
    Ok(FloorPort::new(alloc, below, key, names, node, floors)?)
}

/// Returns the cluster's key.
fn key() -> Result<ClusterKey, Fail> {
    ClusterKey::new(&[7; 32]).ok_or_else(|| Fail::new("no key"))
}

/// Returns the head of a datagram of node 1 for node 2.
fn head(kind: Kind) -> Head {
    Head {
        kind,
        from: 1,
        to: 2,
        boot: 4,
    }
}

/// Returns the name at a place of a list.
fn name_at(list: &[Name], place: usize) -> Result<Name, Fail> {
    list.get(place).copied().ok_or_else(|| Fail::new("no name"))
}

/// Returns a datagram of node 1 that tells the floors of the three rows.
fn floors(alloc: Global, nexts: [u64; 3]) -> Result<Vec<u8>, Fail> {
    let list = list(alloc)?;
    let mut floors = [NamedFloor::default(); 3];
    for place in 0..3 {
        floors[place] = NamedFloor {
            name: name_at(&list, place)?,
            next: nexts[place],
        };
    }
    let body = floors_body(&floors);
    Ok(write_datagram::<MAX_DATAGRAM_LEN>(&key()?, head(Kind::Floors), &body).to_vec(alloc)?)
}

/// A datagram from member 1.
fn from_1<'a>(bytes: &'a [u8]) -> Coming<'a> {
    Coming::Datagram {
        sender: Sender::Peer(1),
        bytes,
    }
}

/// Returns the length of a received datagram of member 1.
fn len_of(received: Received) -> Result<usize, Fail>
    requires { IsWithin received }
    ensures { IfOk result (λ len. len ≤ 512) }
{
    match received {
        Received::Datagram {
            sender: Sender::Peer(1),
            len,
        } => Ok(len),
        _ => Err(Fail::new("no datagram of member 1")),
    }
}

/// Returns the floor of a datagram of one floor.
fn told(bytes: &[u8]) -> Result<NamedFloor, Fail> {
    let key = key()?;
    let (read, body) = read_datagram(&key, bytes).ok_or_else(|| Fail::new("no datagram"))?;
    if read != head(Kind::Floor) {
        return Err(Fail::new("another head"));
    }
    let floors = floors_told(Kind::Floor, body).ok_or_else(|| Fail::new("no floor"))?;
    Ok(floors[0])
}

/// The news of a datagram of floors are handed in one by one, in order, and once.
#[test]
fn news_are_handed_in(rt: HostRuntime) -> Result<(), Fail> {
    let alloc = rt.alloc();
    let key = key()?;
    let names = names(alloc, ROWS)?;
    let list = list(alloc)?;
    let floor = Next::new(5).ok_or("a floor")?;
    let datagram = floors(alloc, [6, 5, 9])?;
    let comings = [from_1(&datagram), from_1(&datagram)];
    let mut port = port_over(alloc, &comings, &key, &names, &[floor; 3])?;
    let mut buffer = [0; 512];
    let first = NamedFloor {
        name: name_at(&list, 0)?,
        next: 6,
    };
    let third = NamedFloor {
        name: name_at(&list, 2)?,
        next: 9,
    };
    let len = len_of(port.receive(&mut buffer))?;
    assert!(rt; told(&buffer[..len])? == first);
    let len = len_of(port.poll(&mut buffer).ok_or("a floor is left")?)?;
    assert!(rt; told(&buffer[..len])? == third);
    let len = len_of(port.receive(&mut buffer))?;
    assert!(rt; &buffer[..len] == datagram.as_slice());
    assert!(rt; port.poll(&mut buffer).is_none());
    Ok(())
}

/// A Floor is handed in as it came: where it is news, where it isn't, and where it has another sender.
#[test]
fn single_floors(rt: HostRuntime) -> Result<(), Fail> {
    let alloc = rt.alloc();
    let key = key()?;
    let names = names(alloc, ROWS)?;
    let list = list(alloc)?;
    let floor = Next::new(5).ok_or("a floor")?;
    let mut body = [0; 24];
    body[..16].copy_from_slice(&name_at(&list, 1)?.bytes());
    body[23] = 7;
    let told_7 = write_datagram::<MAX_DATAGRAM_LEN>(&key, head(Kind::Floor), &body).to_vec(alloc)?;
    body[23] = 5;
    let told_5 = write_datagram::<MAX_DATAGRAM_LEN>(&key, head(Kind::Floor), &body).to_vec(alloc)?;
    let comings = [
        from_1(&told_5),
        from_1(&told_7),
        Coming::Datagram {
            sender: Sender::Peer(3),
            bytes: &told_7,
        },
        from_1(&told_7),
    ];
    let mut port = port_over(alloc, &comings, &key, &names, &[floor; 3])?;
    let mut buffer = [0; 512];
    let len = len_of(port.receive(&mut buffer))?;
    assert!(rt; &buffer[..len] == told_5.as_slice());
    let len = len_of(port.receive(&mut buffer))?;
    assert!(rt; &buffer[..len] == told_7.as_slice());
    let from_3 = Received::Datagram {
        sender: Sender::Peer(3),
        len: 54,
    };
    assert!(rt; port.receive(&mut buffer) == from_3);
    assert!(rt; buffer.as_slice().starts_with(&told_7));
    let len = len_of(port.receive(&mut buffer))?;
    assert!(rt; &buffer[..len] == told_7.as_slice());
    Ok(())
}

/// Returns a Grant of the node to member 3, of the second row's factor 7.
fn grant(alloc: Global) -> Result<Vec<u8>, Fail> {
    let list = list(alloc)?;
    let mut body = [0; 41];
    body[..16].copy_from_slice(&name_at(&list, 1)?.bytes());
    body[39] = 7;
    body[40] = 7;
    let head = Head {
        kind: Kind::Grant,
        from: 2,
        to: 3,
        boot: 5,
    };
    Ok(write_datagram::<MAX_DATAGRAM_LEN>(&key()?, head, &body).to_vec(alloc)?)
}

/// Returns the floors that the port below was offered for member 3, at a place of its record.
fn told_to_3(
    entries: &[PortEntry],
    place: usize,
) -> Result<ArrayVec<NamedFloor, MAX_FLOORS>, Fail> {
    let Some(PortEntry::Offered { to, bytes }) = entries.get(place) else {
        return Err(Fail::new("no offer"));
    };
    let (read, body) = read_datagram(&key()?, bytes).ok_or_else(|| Fail::new("no datagram"))?;
    let head = Head {
        kind: Kind::Floors,
        from: 2,
        to: 3,
        boot: 5,
    };
    if *to != Sender::Peer(3) || read != head {
        return Err(Fail::new("another head"));
    }
    floors_told(read.kind, body).ok_or_else(|| Fail::new("no floors"))
}

/// A floor that the node raised by a Grant is not told at the next quiet turn. It is told at the one after it.
#[test]
fn floors_are_told(rt: HostRuntime) -> Result<(), Fail> {
    let alloc = rt.alloc();
    let key = key()?;
    let names = names(alloc, ROWS)?;
    let list = list(alloc)?;
    let floor = Next::new(5).ok_or("a floor")?;
    let mut port = port_over(alloc, &[], &key, &names, &[floor; 3])?;
    assert!(rt; port.send(Sender::Peer(3), &grant(alloc)?));
    let mut buffer = [0; 512];
    assert!(rt; port.receive(&mut buffer) == Received::Quiet);
    assert!(rt; port.receive(&mut buffer) == Received::Quiet);
    let below = port.into_inner();
    let entries = below.record().ok_or("a record")?;
    assert!(rt; entries.len() == 7);
    let third = NamedFloor {
        name: name_at(&list, 2)?,
        next: 5,
    };
    let first = told_to_3(entries, 3)?;
    assert!(rt; first.len() == 2 && first[0].next == 5 && first[1] == third);
    let second = told_to_3(entries, 6)?;
    assert!(rt;
        second.len() == 3 && second[0].next == 5 && second[1].next == 8 && second[2] == third
    );
    Ok(())
}

/// Returns the number of offers of a port after some receives.
fn offers_after(alloc: Global, comings: &[Coming<'_>]) -> Result<usize, Fail> {
    let key = key()?;
    let names = names(alloc, MORE_ROWS)?;
    let floor = Next::new(5).ok_or("a floor")?;
    let mut port = port_over(alloc, comings, &key, &names, &[floor; 21])?;
    let mut buffer = [0; 512];
    for _ in 0..comings.len() {
        port.receive(&mut buffer);
    }
    let below = port.into_inner();
    let entries = below.record().ok_or("a record")?;
    let mut offers = 0usize;
    for place in 0..entries.len() {
        if let PortEntry::Offered { .. } = entries[place] {
            offers = offers.saturating_add(1);
        }
    }
    Ok(offers)
}

/// In a fast round all 21 floors are told at once: at the start, and after a silent member told floors. Other bytes
/// from its address begin none.
#[test]
fn rounds_are_fast_at_the_start(rt: HostRuntime) -> Result<(), Fail> {
    let alloc = rt.alloc();
    let quiet = Coming::Quiet;
    let told = write_datagram::<MAX_DATAGRAM_LEN>(&key()?, head(Kind::Floor), &[0; 24]);
    let (heard, other) = (from_1(&told), from_1(b"OV"));
    assert!(rt; offers_after(alloc, &[quiet])? == 4);
    assert!(rt; offers_after(alloc, &[quiet, other, quiet, quiet])? == 8);
    assert!(rt; offers_after(alloc, &[quiet, quiet])? == 6);
    assert!(rt; offers_after(alloc, &[quiet, heard, quiet, quiet])? == 10);
    assert!(rt; offers_after(alloc, &[quiet, heard, quiet, heard, quiet])? == 10);
    Ok(())
}

/// Returns a datagram of a member for node 2, in a boot, that tells the same floor of the three rows.
fn floors_in(alloc: Global, from: u8, boot: u64, next: u64) -> Result<Vec<u8>, Fail> {
    let list = list(alloc)?;
    let mut floors = [NamedFloor::default(); 3];
    for place in 0..3 {
        floors[place] = NamedFloor {
            name: name_at(&list, place)?,
            next,
        };
    }
    let head = Head {
        kind: Kind::Floors,
        from,
        to: 2,
        boot,
    };
    let body = floors_body(&floors);
    Ok(write_datagram::<MAX_DATAGRAM_LEN>(&key()?, head, &body).to_vec(alloc)?)
}

/// A lower floor in the same boot, or in an older one, is no fall.
#[test]
fn lower_floors_that_are_no_fall(rt: HostRuntime) -> Result<(), Fail> {
    let alloc = rt.alloc();
    let key = key()?;
    let names = names(alloc, ROWS)?;
    let floor = Next::new(5).ok_or("a floor")?;
    let of_boot_4 = floors_in(alloc, 1, 4, 5)?;
    let lower = floors_in(alloc, 1, 4, 4)?;
    let older = floors_in(alloc, 1, 3, 3)?;
    let comings = [from_1(&of_boot_4), from_1(&lower), from_1(&older)];
    let mut port = port_over(alloc, &comings, &key, &names, &[floor; 3])?;
    let mut buffer = [0; 512];
    for _ in 0..3 {
        assert!(rt; len_of(port.receive(&mut buffer))? == of_boot_4.len());
        assert!(rt; port.take_fell().is_none());
    }
    Ok(())
}

/// A member whose floors fall in a later boot is silent from then on, and another one is heard.
#[test]
fn floors_that_fall(rt: HostRuntime) -> Result<(), Fail> {
    let alloc = rt.alloc();
    let key = key()?;
    let names = names(alloc, ROWS)?;
    let floor = Next::new(5).ok_or("a floor")?;
    let of_boot_4 = floors_in(alloc, 1, 4, 5)?;
    let fallen = floors_in(alloc, 1, 5, 4)?;
    let of_3 = floors_in(alloc, 3, 2, 4)?;
    let from_3 = Coming::Datagram {
        sender: Sender::Peer(3),
        bytes: &of_3,
    };
    let comings = [
        from_1(&of_boot_4),
        from_1(&fallen),
        from_1(&of_boot_4),
        from_1(b"OV"),
        from_3,
    ];
    let mut port = port_over(alloc, &comings, &key, &names, &[floor; 3])?;
    let mut buffer = [0; 512];
    assert!(rt; len_of(port.receive(&mut buffer))? == of_boot_4.len());
    for _ in 0..3 {
        assert!(rt; len_of(port.receive(&mut buffer))? == 0);
    }
    let name = name_at(&list(alloc)?, 0)?.bytes();
    assert!(rt; port.take_fell() == Some(Fell { member: 1, name }));
    let heard = Received::Datagram {
        sender: Sender::Peer(3),
        len: of_3.len(),
    };
    assert!(rt; port.receive(&mut buffer) == heard && port.take_fell().is_none());
    assert!(rt; port.gone_back()[1] && !port.gone_back()[3]);
    Ok(())
}

/// A member that is known to have gone back is silent from the start, and another one is heard.
#[test]
fn members_known_to_have_gone_back(rt: HostRuntime) -> Result<(), Fail> {
    let alloc = rt.alloc();
    let key = key()?;
    let names = names(alloc, ROWS)?;
    let floor = Next::new(5).ok_or("a floor")?;
    let of_1 = floors_in(alloc, 1, 4, 5)?;
    let of_3 = floors_in(alloc, 3, 2, 4)?;
    let from_3 = Coming::Datagram {
        sender: Sender::Peer(3),
        bytes: &of_3,
    };
    let comings = [from_1(&of_1), from_1(b"OV"), from_3];
    let mut gone_back = [false; PLACES];
    gone_back[1] = true;
    let node = Membership { gone_back, ..NODE };
    let mut port = port_that_knows(alloc, &comings, &key, &names, node, &[floor; 3])?;
    let mut buffer = [0; 512];
    for _ in 0..2 {
        assert!(rt; len_of(port.receive(&mut buffer))? == 0);
    }
    let heard = Received::Datagram {
        sender: Sender::Peer(3),
        len: of_3.len(),
    };
    assert!(rt; port.receive(&mut buffer) == heard);
    assert!(rt; port.take_fell().is_none() && port.gone_back() == gone_back);
    Ok(())
}
