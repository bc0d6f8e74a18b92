ghost use Rattle.std.specs.Prelude.{◌≡◌, ◌<◌, ◌≤◌, length, slice_get, IfErr, IfOk, IfSome};
ghost use Rattle.oathd_database.specs.Fault.{IsOpenFault};
ghost use Rattle.store_serving.specs.Through.{floors_in};

use floor_store::{FloorStore, StoreFault};
use oathd_database::Fault;
use otp_core::Next;
use std::alloc::Global;
use token_file::Book;

/// Returns the floor of a token in `store`.
fn next_of<S: FloorStore>(store: &S, token: u32) -> Result<Next, StoreFault>
    requires { token < length (S.held store.now).content.rows }
    ensures { (S.held store.now).is_clean → IfOk result (λ next. IfSome
        (slice_get (S.held store.now).content.rows token) (λ row. row.next ≡ next)) }
{
    Ok(store.row(token)?.next())
}

/// Returns the floor of each token of `book` in `store`, in order. Floor: the first free factor of a token.
///
/// # Errors
/// - Returns `Store` with the fault that broke the store.
/// - Returns `Memory` if the allocator refuses the memory.
pub(crate) fn floors_of<S: FloorStore>(
    alloc: Global,
    book: &Book,
    store: &S,
) -> Result<Vec<Next>, Fault>
    requires { length (S.held store.now).content.rows ≡ length book.now }
    ensures floors { (S.held store.now).is_clean → IfOk result (λ floors.
        floors.items ≡ floors_in (S.held store.now).content) }
    ensures each { IfOk result (λ floors. length floors.items ≡ length (S.held store.now).content.rows) }
    ensures few { IfOk result (λ floors. length floors.items ≤ 10000) }
    ensures fault { IfErr result IsOpenFault }
{
    // For the proof: a book states its limit when it returns its number of tokens.
    let _tokens = book.len();
    let mut floors = Vec::new(alloc);
    for token in 0..store.tokens() {
        let next = match next_of(store, token) {
            Ok(next) => next,
            Err(fault) => return Err(Fault::Store(fault)),
        };
        match floors.push(next) {
            Ok(()) => {}
            Err(_) => return Err(Fault::Memory),
        }
    }
    Ok(floors)
}
