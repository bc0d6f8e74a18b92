//! The seats of a store by position: each token is in the row of its place in the users file.

ghost use Rattle.std.specs.Prelude.{◌≡◌, IfOk};
ghost use Rattle.seated_store.specs.Places.{own_seats};

use std::alloc::{AllocError, Global};

/// Returns the seats of a store in which each of `tokens` tokens is in the row of its place.
///
/// # Errors
/// Fails only if the allocator refuses the memory.
pub fn own_seats(alloc: Global, tokens: u32) -> Result<Vec<u32>, AllocError>
    ensures { IfOk result (λ seats. seats.items ≡ own_seats tokens) }
{
    let mut seats = Vec::with_capacity(alloc, tokens as usize)?;
    for token in 0..tokens {
        seats.push(token)?;
    }
    Ok(seats)
}
