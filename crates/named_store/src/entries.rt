//! Computes the entries of the tokens of a users file.

ghost use Rattle.std.specs.Prelude.{◌≡◌, length, vec_len, IfOk, IfErr};
ghost use Rattle.token_names.specs.Names.{IsFaultOf, names_of as spec_names_of};
ghost use Rattle.named_store.specs.Entries.{entries_of as spec_entries_of};
ghost use Rattle.named_store.specs.Seating.{AreDistinct};

use roster_sql::Entry;
use std::alloc::Global;
use token_file::{Book, TokenId};
use token_names::{NamesFault, Salt, names_of, seed_of};

/// Returns the entries of the tokens of a book, in the order of their rows: the name and the seed of each.
///
/// # Errors
/// - Returns `Memory` if the allocator refuses the memory.
/// - Returns `SameName` with the first row whose name an earlier row has.
pub fn entries_of(alloc: Global, salt: &Salt, book: &Book) -> Result<Vec<Entry>, NamesFault>
    ensures entries { IfOk result (λ entries. entries.items ≡ spec_entries_of salt.now book.now) }
    ensures count { IfOk result (λ entries. vec_len entries ≡ length book.now) }
    ensures distinct { IfOk result (λ entries. AreDistinct entries.items) }
    ensures fault { IfErr result (IsFaultOf (spec_names_of salt.now book.now)) }
{
    let names = names_of(alloc, salt, book)?;
    let mut entries = Vec::with_capacity(alloc, book.len())?;
    for row in 0..book.len() as u32 {
        let token = book.token(TokenId::new(row).unwrap());
        let name = names[row as usize].bytes();
        let seed = seed_of(salt, token);
        if entries.push(Entry { name, seed }).is_err() {
            return Err(NamesFault::Memory);
        }
    }
    Ok(entries)
}
