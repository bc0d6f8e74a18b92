//! Returns the entries and the floors of rows.

ghost use Rattle.std.specs.Prelude.{◌≡◌, IfOk, length, map};

use crate::row::NumberedRow;
use otp_core::Next;
use roster_sql::Entry;
use std::alloc::{AllocError, Global};

/// Returns the entry of each row, in order.
///
/// # Errors
/// Returns `AllocError` if the allocator refuses the memory.
pub fn entries_of_rows(alloc: Global, rows: &[NumberedRow]) -> Result<Vec<Entry>, AllocError>
    ensures entries { IfOk result (λ entries. entries.items ≡ map (λ row. row.entry) rows.now) }
    ensures count { IfOk result (λ entries. length entries.items ≡ length rows.now) }
{
    rows.iter().map(|row| row.entry).collect(alloc)
}

/// Returns the floor of each row, in order.
///
/// # Errors
/// Returns `AllocError` if the allocator refuses the memory.
pub fn floors_of_rows(alloc: Global, rows: &[NumberedRow]) -> Result<Vec<Next>, AllocError>
    ensures floors { IfOk result (λ floors. floors.items ≡ map (λ row. row.row.next) rows.now) }
    ensures count { IfOk result (λ floors. length floors.items ≡ length rows.now) }
{
    rows.iter().map(|row| row.row.next()).collect(alloc)
}
