//! Stores in memory, and stores with a fuse. A floor is the first free factor of a token at a node.

ghost use Rattle.std.specs.Prelude.{◌<◌, length};

use floor_store::{FloorStore, FuseStore, MemStore, Pass, Proposal, Row, Span, StoreFault};
use otp_core::{Factor, Next};
use std::alloc::{AllocError, Global};

/// Returns a store of two tokens.
fn stored(alloc: Global) -> Option<MemStore> {
    let floors = [Next::new(0)?, Next::new(7)?];
    MemStore::new(alloc, &floors).ok()
}

/// Returns whether each call on the first of two tokens has the effect that the trait promises.
fn keeps<S: FloorStore>(store: &mut S, row: Row, pass: Option<Pass>) -> Option<bool> {
    if store.tokens() != 2 || store.is_broken() {
        return None;
    }
    let other = store.row(1).ok()?;
    store.put(0, row, pass).ok()?;
    store.commit().ok()?;
    let raised = store.raise_boot().ok()?;
    let is_kept = store.row(0).ok()? == row && store.row(1).ok()? == other;
    Some(is_kept && raised == 1 && store.boot().ok()? == 1)
}

/// Returns whether the calls on a fresh store have their effects, for a row with a grant and a pass.
fn keeps_a_grant(alloc: Global) -> Option<bool> {
    let proposal = Proposal::new(2, 1, 3)?;
    let span = Span::new(Factor::new(7)?, Factor::new(8)?)?;
    let row = Row::opening(Next::new(0)?).with_next(Next::new(9)?);
    let row = Row::new(row.next(), Some((proposal, span)), row.gate(), row.drift());
    let mut store = stored(alloc)?;
    keeps(&mut store, row, Pass::new(0, span, 1, 3))
}

#[test]
fn each_call_in_memory(rt: HostRuntime) {
    assert!(rt; keeps_a_grant(rt.alloc()) == Some(true));
}

/// Returns the faults of six calls: a put, its commit, a raise of the boot, a second put, and the two reads.
fn faults<S: FloorStore>(store: &mut S, first: Row, second: Row) -> [Option<StoreFault>; 6]
    requires { 0 < length (S.held store.old).content.rows }
{
    [
        store.put(0, first, None).err(),
        store.commit().err(),
        store.raise_boot().err(),
        store.put(0, second, None).err(),
        store.row(0).err(),
        store.boot().err(),
    ]
}

/// Returns the floor of the first token, and the boot.
fn held(store: &MemStore) -> Option<(u64, u64)> {
    if store.tokens() == 0 {
        return None;
    }
    Some((store.row(0).ok()?.next().value(), store.boot().ok()?))
}

/// Returns the first of six calls that fails if `writes` writes pass, and the content of the mended store. All later
/// calls fail too.
fn blown(alloc: Global, writes: u64, after: bool) -> Option<(usize, (u64, u64))> {
    let (first, second) = (Row::opening(Next::new(1)?), Row::opening(Next::new(2)?));
    let mut fuse = FuseStore::new(stored(alloc)?, writes, after);
    if fuse.tokens() == 0 {
        return None;
    }
    let told = faults(&mut fuse, first, second);
    let place = told.iter().position(|fault| fault.is_some())?;
    if !told[place..]
        .iter()
        .all(|fault| *fault == Some(StoreFault::Disk))
    {
        return None;
    }
    if fuse.passed() != writes || !fuse.is_broken() {
        return None;
    }
    Some((place, held(&fuse.mend())?))
}

/// The four writes, each of which fails with its change lost or kept: the first call that fails, and the content left.
const WRITES: &[(u64, bool, usize, (u64, u64))] = &[
    (0, false, 0, (0, 0)),
    (0, true, 0, (1, 0)),
    (1, false, 1, (1, 0)),
    (1, true, 1, (1, 0)),
    (2, false, 2, (1, 0)),
    (2, true, 2, (1, 1)),
    (3, false, 3, (1, 1)),
    (3, true, 3, (2, 1)),
];

#[test]
fn fuses(rt: HostRuntime) {
    for &(writes, after, place, left) in WRITES {
        assert!(rt; blown(rt.alloc(), writes, after) == Some((place, left)));
    }
}

/// The text of each fault of a store.
const FAULTS: &[(StoreFault, &str)] = &[
    (StoreFault::Memory, "Memory"),
    (StoreFault::Disk, "Disk"),
    (StoreFault::Spent, "Spent"),
    (StoreFault::Unusable, "Unusable"),
    (StoreFault::AlreadyThere, "AlreadyThere"),
];

#[test]
fn store_faults(rt: HostRuntime) -> Result<(), AllocError> {
    for &(fault, text) in FAULTS {
        assert!(rt; format!(in rt.alloc(); "{fault}")?.as_str() == text);
    }
    Ok(())
}
