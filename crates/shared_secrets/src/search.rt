ghost use Rattle.std.specs.Prelude.{IfOk};
ghost use Rattle.shared_secrets.specs.Repeat.{IsSharedIn};
ghost use Rattle.shared_secrets.specs.Seed.{seeds_of};

use crate::key::key_of;
use crate::shared::SharedSecret;
use std::alloc::{AllocError, Global};
use std::collections::BTreeMap;
use token_file::{Book, TokenId};

/// Returns the first row of a book whose seed an earlier row has, with that row, or None if all seeds are distinct.
///
/// # Errors
///
/// Returns `AllocError` if the allocator refuses the memory.
pub fn shared_secret(alloc: Global, book: &Book) -> Result<Option<SharedSecret>, AllocError>
    ensures { IfOk result (IsSharedIn (seeds_of book.now)) }
{
    let mut rows = BTreeMap::new(alloc);
    for row in 0..book.len() as u32 {
        let token = book.token(TokenId::new(row).unwrap());
        match rows.insert(key_of(token), row) {
            Ok(Some(first)) => {
                return Ok(Some(SharedSecret {
                    first: first + 1,
                    second: row + 1,
                }));
            }
            Ok(None) => {}
            Err(_) => return Err(AllocError),
        }
    }
    Ok(None)
}
