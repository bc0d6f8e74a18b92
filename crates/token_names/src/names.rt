ghost use Rattle.std.specs.Prelude.{◌≡◌, IfOk, IfErr, OnOk};
ghost use Rattle.token_names.specs.Names.{AreDistinct, IsFaultOf, names_of as spec_names_of};

use crate::fault::NamesFault;
use crate::name::Name;
use crate::salt::{Salt, name_of};
use std::alloc::Global;
use std::collections::BTreeSet;
use token_file::{Book, TokenId};

/// Returns the names of the tokens of a book, in the order of their rows.
///
/// # Errors
///
/// - Returns `Memory` if the allocator refuses the memory.
/// - Returns `SameName` with the first row whose name an earlier row has.
pub fn names_of(alloc: Global, salt: &Salt, book: &Book) -> Result<Vec<Name>, NamesFault>
    ensures names { IfOk result (λ names. names.items ≡ spec_names_of salt.now book.now) }
    ensures distinct { OnOk result (AreDistinct (spec_names_of salt.now book.now)) }
    ensures fault { IfErr result (IsFaultOf (spec_names_of salt.now book.now)) }
{
    let mut names = Vec::with_capacity(alloc, book.len())?;
    let mut seen = BTreeSet::new(alloc);
    for row in 0..book.len() as u32 {
        let token = book.token(TokenId::new(row).unwrap());
        let name = name_of(salt, token);
        match seen.insert(name.bytes()) {
            Ok(true) => {}
            Ok(false) => return Err(NamesFault::SameName { row: row + 1 }),
            Err(_) => return Err(NamesFault::Memory),
        }
        if names.push(name).is_err() {
            return Err(NamesFault::Memory);
        }
    }
    Ok(names)
}
