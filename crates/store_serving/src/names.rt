ghost use Rattle.std.specs.Prelude.{◌≡◌, map, IfOk};

use roster_sql::Entry;
use std::alloc::{AllocError, Global};
use token_names::Name;

/// Returns the names of entries, in their order.
pub(crate) fn names_in(alloc: Global, entries: &[Entry]) -> Result<Vec<Name>, AllocError>
    ensures { IfOk result (λ names. names.items ≡ map (λ entry. entry.name) entries.now) }
{
    let mut names = Vec::with_capacity(alloc, entries.len())?;
    for entry in entries {
        names.push(Name::new(entry.name))?;
    }
    Ok(names)
}
