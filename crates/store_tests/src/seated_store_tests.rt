//! Two of three rows in another order, over a store in memory and one with a fuse.

ghost use Rattle.std.specs.Prelude.{◌≡◌, ◌∷◌, [], IfOk, length, false};
ghost use Rattle.floor_store.specs.Content.{opening_content};

use floor_store::{FloorStore, FuseStore, MemStore, Pass, Row, Span, StoreFault};
use otp_core::{Factor, Next};
use seated_store::SeatedStore;
use std::alloc::Global;
use std::test::Fail;

/// Returns a store of three tokens, with the floors 5, 7 and 9.
fn stored(alloc: Global) -> Result<MemStore, Fail>
    ensures { IfOk result (λ store. length store.rows ≡ 3) }
{
    let floors = [
        Next::new(5).unwrap(),
        Next::new(7).unwrap(),
        Next::new(9).unwrap(),
    ];
    Ok(MemStore::new(alloc, &floors)?)
}

/// Returns the last row and the first one of a store of three rows.
fn seated<S: FloorStore + Drop>(alloc: Global, inner: S) -> Result<SeatedStore<S>, Fail>
    requires { length (S.held inner).content.rows ≡ 3 }
    ensures { IfOk result (λ store. (store.inner ≡ inner) × (store.seats ≡ 2 ∷ 0 ∷ []) × (store.is_unusable ≡ false)) }
{
    Ok(SeatedStore::new(inner, vec![in alloc; 2, 0]?))
}

/// Returns the floors of a store's first two tokens.
fn floors<S: FloorStore>(store: &S) -> Result<(u64, u64), StoreFault>
    requires { length (S.held store.now).content.rows ≡ 2 }
{
    Ok((store.row(0)?.next().value(), store.row(1)?.next().value()))
}

/// Returns a pass of a token.
fn pass_of(token: u32) -> Option<Pass> {
    Pass::new(token, Span::one(Factor::new(6)?), 1, 0)
}

/// Rows are read, put, committed and opened again by their seats.
#[test]
fn two_of_three_rows(rt: HostRuntime) -> Result<(), Fail> {
    let mut store = seated(rt.alloc(), stored(rt.alloc())?)?;
    assert!(rt; store.tokens() == 2 && floors(&store) == Ok((9, 5)));
    let row = Row::opening(Next::new(20).unwrap());
    assert!(rt; store.put(0, row, pass_of(1)) == Ok(()));
    assert!(rt; store.commit() == Ok(()) && store.raise_boot() == Ok(1));
    assert!(rt; floors(&store) == Ok((20, 5)) && !store.is_broken());
    let inner = store.into_inner();
    assert!(rt; inner.boot() == Ok(1) && inner.row(2) == Ok(row));
    Ok(())
}

/// A pass of a token without a seat breaks the store, and changes nothing below.
#[test]
fn pass_without_a_seat(rt: HostRuntime) -> Result<(), Fail> {
    let mut store = seated(rt.alloc(), stored(rt.alloc())?)?;
    let row = Row::opening(Next::new(20).unwrap());
    let fault = StoreFault::Unusable;
    assert!(rt; store.put(0, row, pass_of(2)) == Err(fault) && store.is_broken());
    assert!(rt; store.row(0) == Err(fault) && store.boot() == Err(fault));
    assert!(rt; store.put(0, row, None) == Err(fault) && store.commit() == Err(fault));
    assert!(rt; store.raise_boot() == Err(fault) && store.tokens() == 2);
    let inner = store.into_inner();
    assert!(rt; inner.boot() == Ok(0) && inner.row(2).is_ok_and(|row| row.next().value() == 9));
    Ok(())
}

/// A fault of the store below is the fault of the seated store.
#[test]
fn broken_store_below(rt: HostRuntime) -> Result<(), Fail> {
    let mut store = seated(rt.alloc(), FuseStore::new(stored(rt.alloc())?, 1, false))?;
    let row = Row::opening(Next::new(20).unwrap());
    let fault = StoreFault::Disk;
    assert!(rt; store.put(1, row, None) == Ok(()) && floors(&store) == Ok((9, 20)));
    assert!(rt; store.commit() == Err(fault) && store.is_broken());
    assert!(rt; store.put(1, row, pass_of(2)) == Err(fault) && store.row(1) == Err(fault));
    let inner = store.into_inner().mend();
    assert!(rt; inner.row(0) == Ok(row));
    Ok(())
}
