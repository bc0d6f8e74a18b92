//! Reads the entry of a row.

ghost use Rattle.std.specs.Prelude.{◌≡◌, ◌<◌, length, slice_get, Some};

use roster_sql::Entry;

/// Returns the entry of the row with the number `token`.
pub(crate) fn entry_at(roster: &[Entry], token: u32) -> Entry
    requires { token < length roster.now }
    ensures { slice_get roster.now token ≡ Some result }
{
    roster[token as usize]
}
