//! Floors files by names whose MACs Python's hmac computed, and files that were edited, cut or made under another key.

use floors_file::{
    Asked, FileFault, FilesFault, FloorsFault, HeardBoot, LineFault, NamedFloor, NamedFloors,
    check_named_anew, check_named_lost, gather_named, read_named_floors, write_named_floors,
};
use std::alloc::Global;
use std::test::Fail;
use token_names::Name;

/// The key of all files here.
const KEY: &[u8] = b"own-key-of-site-1";

/// The file of node 1.
const ONE: &[u8] = b"floors 2 1 3 7 100 2 names-of-site-1 2026-11a\n\
    5cb0460e92720059b321966bf3ace45e 36481363024771233ac9437d29c9be7f 5\n\
    e2329dda198989c3be495e9bada26a6c 00000000000000000000000000000000 0\n\
    heard 3 7\n\
    mac 7b536afb3dbad66be02584c68900a372b7a0da641924ca3f334dc8d6b1cd4b5f\n";

/// The file of node 2, with the names in another order, another seed of the first, and one more name.
const TWO: &[u8] = b"floors 2 2 3 6 101 3 names-of-site-1 2026-11a\n\
    e2329dda198989c3be495e9bada26a6c 00000000000000000000000000000000 3\n\
    5cb0460e92720059b321966bf3ace45e 11acba361ed553d6e50a21b85927a086 4\n\
    a94a7035cb37132f9354055c54723721 11acba361ed553d6e50a21b85927a086 4611686018427387904\n\
    heard 1 7\n\
    heard 3 4\n\
    mac 0749dbe5eca5ea5e0fe666a3b6be7506f776dc76a2c9321f12fc3f6c5e09d38d\n";

/// A file of node 2 in a life that differs by the case of a letter.
const OTHER_LIFE: &[u8] = b"floors 2 2 3 6 101 0 names-of-site-1 2026-11A\n\
    mac ac82012c541ad8ca0f7a5c91a9931b7b98642f6dd20a293afab665bdab22751e\n";

/// A file without rows and boots, with the greatest numbers and a life of 64 bytes.
const EMPTY: &[u8] = b"floors 2 3 9 4611686018427387903 1099511627775 0 twelve-bytes \
    aaaaaaaaaaaaaaaaaaaaaaaaaaaaaaaaaaaaaaaaaaaaaaaaaaaaaaaaaaaaaaaa\n\
    mac 1c04e9468dbcdd7980e7f5ad0de751e5cc6dc93625fdcf50b5089c78701640e0\n";

/// A file that announces a row and has none.
const TOO_FEW: &[u8] = b"floors 2 2 3 6 101 1 names-of-site-1 2026-11a\n\
    mac 925b580d42f3c24416275f42e37d36fb7e0a45c019df8aed54d94effa0e834b7\n";

/// A file whose life has 65 bytes.
const LONG_LIFE: &[u8] = b"floors 2 2 3 6 101 0 names-of-site-1 \
    aaaaaaaaaaaaaaaaaaaaaaaaaaaaaaaaaaaaaaaaaaaaaaaaaaaaaaaaaaaaaaaaa\n\
    mac ee76a605ffca4328545b96ae276db589806de965e89953662220b8d5a4e99192\n";

/// Reads a file under [`KEY`].
fn read(alloc: Global, text: &[u8]) -> Result<NamedFloors<'_>, FloorsFault> {
    read_named_floors(alloc, KEY, text)
}

/// Returns whether a file is read, and written again as the same text.
fn is_written_back(alloc: Global, text: &[u8]) -> Result<bool, Fail> {
    let floors = read(alloc, text)?;
    let mut written = Vec::new(alloc);
    write_named_floors(
        alloc,
        &mut written,
        KEY,
        floors.head,
        &floors.rows,
        &floors.heard,
    )?;
    Ok(written.as_slice() == text)
}

/// Returns whether a text is refused for its MAC.
fn is_bad(alloc: Global, key: &[u8], text: &[u8]) -> bool {
    match read_named_floors(alloc, key, text) {
        Ok(_) => false,
        Err(fault) => fault.kind == LineFault::BadMac,
    }
}

/// Returns the digits of the name and of the seed of a row, and its floor, as a row of a file has them.
fn text_of(alloc: Global, row: &NamedFloor) -> Result<String, Fail> {
    let seed = Name::new(row.seed);
    Ok(format!(in alloc; "{} {} {}", row.name, seed, row.next.value())?)
}

/// Returns whether the rows have the given texts.
fn are(alloc: Global, rows: &[NamedFloor], want: &[&str]) -> Result<bool, Fail> {
    for (row, text) in rows.iter().zip(want) {
        if text_of(alloc, row)?.as_str() != *text {
            return Ok(false);
        }
    }
    Ok(rows.len() == want.len())
}

/// Each file is written back to the byte.
#[test]
fn files_written_back(rt: HostRuntime) -> Result<(), Fail> {
    for text in [ONE, TWO, OTHER_LIFE, EMPTY] {
        assert!(rt; is_written_back(rt.alloc(), text)?);
    }
    Ok(())
}

/// The content of a file.
#[test]
fn content_of_a_file(rt: HostRuntime) -> Result<(), Fail> {
    let floors = read(rt.alloc(), TWO)?;
    let head = floors.head;
    assert!(rt; head.node == 2 && head.members == 3 && head.boot == 6 && head.moment == 101);
    assert!(rt; head.names == b"names-of-site-1".as_slice() && head.life == b"2026-11a".as_slice());
    assert!(rt;
        are(
            rt.alloc(),
            &floors.rows,
            &[
                "e2329dda198989c3be495e9bada26a6c 00000000000000000000000000000000 3",
                "5cb0460e92720059b321966bf3ace45e 11acba361ed553d6e50a21b85927a086 4",
                "a94a7035cb37132f9354055c54723721 11acba361ed553d6e50a21b85927a086 4611686018427387904",
            ]
        )?
    );
    let heard = [
        HeardBoot { member: 1, boot: 7 },
        HeardBoot { member: 3, boot: 4 },
    ];
    assert!(rt; floors.heard.as_slice() == heard.as_slice());
    Ok(())
}

/// Every prefix of a file is refused for its MAC, and so is a file with another byte or under another key.
#[test]
fn cut_and_edited_files(rt: HostRuntime) -> Result<(), Fail> {
    for len in 0..ONE.len() {
        assert!(rt; is_bad(rt.alloc(), KEY, &ONE[..len]));
        let mut edited = Vec::new(rt.alloc());
        edited.extend_from_slice(ONE)?;
        edited[len] ^= 1;
        assert!(rt; is_bad(rt.alloc(), KEY, &edited));
    }
    assert!(rt; is_bad(rt.alloc(), b"own-key-of-site-2", ONE));
    Ok(())
}

/// A fault of a file with a right MAC, and the texts of faults.
#[test]
fn fault_of_a_line(rt: HostRuntime) -> Result<(), Fail> {
    let Err(fault) = read(rt.alloc(), TOO_FEW) else {
        return Err(Fail::new("a file with too few rows was read"));
    };
    assert!(rt; format!(in rt.alloc(); "{fault}")?.as_str() == "line 2: TooFew");
    let Err(fault) = read(rt.alloc(), LONG_LIFE) else {
        return Err(Fail::new("a file with a long life was read"));
    };
    assert!(rt; format!(in rt.alloc(); "{fault}")?.as_str() == "line 1: Life");
    let Err(fault) = read(rt.alloc(), &ONE[1..]) else {
        return Err(Fail::new("a cut file was read"));
    };
    assert!(rt; format!(in rt.alloc(); "{fault}")?.as_str() == "line 5: BadMac");
    let other = FilesFault::File(2, FileFault::Cluster);
    assert!(rt; format!(in rt.alloc(); "{other}")?.as_str() == "floors 2: Cluster");
    Ok(())
}

/// The greatest floors of two files with the first seeds, in order of first appearance.
#[test]
fn gathered_floors(rt: HostRuntime) -> Result<(), Fail> {
    let alloc = rt.alloc();
    let files = [read(alloc, ONE)?, read(alloc, TWO)?];
    assert!(rt;
        are(
            alloc,
            &gather_named(alloc, &files)?,
            &[
                "5cb0460e92720059b321966bf3ace45e 36481363024771233ac9437d29c9be7f 5",
                "e2329dda198989c3be495e9bada26a6c 00000000000000000000000000000000 3",
                "a94a7035cb37132f9354055c54723721 11acba361ed553d6e50a21b85927a086 4611686018427387904",
            ]
        )?
    );
    Ok(())
}

/// Files that are enough, and a file of another life.
#[test]
fn checked_files(rt: HostRuntime) -> Result<(), Fail> {
    let alloc = rt.alloc();
    let asked = Asked {
        since: 100,
        boot: 8,
    };
    let files = [read(alloc, ONE)?, read(alloc, TWO)?];
    assert!(rt; check_named_lost(asked, 3, &[3], &files) == Ok(()));
    assert!(rt; check_named_anew(asked, &files) == Ok(()));
    let files = [read(alloc, ONE)?, read(alloc, OTHER_LIFE)?];
    let other = Err(FilesFault::File(2, FileFault::Cluster));
    assert!(rt; check_named_lost(asked, 3, &[3], &files) == other);
    assert!(rt; check_named_anew(asked, &files) == other);
    Ok(())
}
