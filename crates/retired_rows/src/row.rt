use floor_store::Row;
use roster_sql::Entry;

/// A row of a store by names.
#[derive(Clone, Copy, Debug)]
pub struct NumberedRow {
    /// The number of the row, by which passes name it.
    pub token: u32,
    /// The name of the token, and the seed of its secret.
    pub entry: Entry,
    /// The floor of the token, with its last grant, its gate and its drift.
    pub row: Row,
    /// Whether the users file has a token with this name.
    pub is_named: bool,
}
