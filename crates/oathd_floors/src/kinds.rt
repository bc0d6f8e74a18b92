//! Compares the rows of a store with the kinds of the tokens of a users file.
//!
//! Floor: the first free factor of a token at a node.

ghost use Rattle.std.specs.Prelude.{◌≡◌, ◌<◌, length, IfErr, IfOk, None};
ghost use Rattle.oathd_floors.specs.Kinds.{ComparesRow, IsOfOtherKind, first_other as spec_first_other, is_of_kind as spec_is_of_kind};

use crate::fault::NamingFault;
use floor_store::{FloorStore, Row, StoreFault};
use token_file::{Book, Kind, TokenId};

/// The earliest floor of a token with time steps, in seconds since 1970-01-01 00:00:00 UTC: 2004-01-10 13:37:04 UTC.
const EARLIEST: u64 = 1 << 30;

/// Returns whether `row` may be of a token of this kind.
pub fn is_of_kind(kind: Kind, row: Row) -> bool
    ensures { result ≡ spec_is_of_kind kind row }
{
    match kind.period() {
        None => row.drift().steps() == 0,
        Some(period) => EARLIEST <= row.next().value().saturating_mul(period),
    }
}

/// Returns whether the row of a token in `store` is of its kind.
fn is_own_row<S: FloorStore>(book: &Book, store: &S, id: TokenId) -> Result<bool, StoreFault>
    requires book { id < length book.now }
    requires store { id < length (S.held store.now).content.rows }
    ensures { (S.held store.now).is_clean
        → IfOk result (ComparesRow book.now (S.held store.now).content.rows id) }
{
    let row = store.row(id.value())?;
    Ok(is_of_kind(book.token(id).kind(), row))
}

/// Returns the number, from 1, of the first row of `store` that is not of the kind of its token, or None.
fn first_other<S: FloorStore>(book: &Book, store: &S) -> Result<Option<u32>, StoreFault>
    requires { length (S.held store.now).content.rows ≡ length book.now }
    ensures { (S.held store.now).is_clean
        → IfOk result (λ row. row ≡ spec_first_other book.now (S.held store.now).content.rows) }
{
    for token in 0..book.len() as u32 {
        let id = TokenId::new(token).unwrap();
        if !is_own_row(book, store, id)? {
            return Ok(Some(token + 1));
        }
    }
    Ok(None)
}

/// Checks that each row of `store` is of the kind of its token.
pub(crate) fn check_kinds<S: FloorStore>(book: &Book, store: &S) -> Result<(), NamingFault>
    requires { length (S.held store.now).content.rows ≡ length book.now }
    ensures own { IfOk result (λ _. (S.held store.now).is_clean
        → spec_first_other book.now (S.held store.now).content.rows ≡ None) }
    ensures fault { IfErr result (IsOfOtherKind (S.held store.now).is_clean book.now
        (S.held store.now).content.rows) }
{
    match first_other(book, store) {
        Ok(None) => Ok(()),
        Ok(Some(number)) => Err(NamingFault::OtherKind(number)),
        Err(fault) => Err(NamingFault::from(fault)),
    }
}
