//! Drops retired rows of a store by names without forgetting a floor.
//!
//! A floor is the first free factor of a token at a node. A store by names has a row for each name that it ever had. A
//! row is *retired* if the users file has no token with its name.
//!
//! A seed names a device. A token is enrolled with at least the greatest floor of all rows with its seed. So a retired
//! row can be dropped if another row with its seed stays and has a floor that is at least as great.
//!
//! 1. [`staying_rows`] returns the rows of a store without those that can be dropped.
//! 2. [`renewing_puts`] returns the puts that fill a new store with these rows.
//! 3. [`entries_of_rows`] and [`floors_of_rows`] return what the new store is created from.
#![tactic(auto)]

mod laws;
mod parts;
mod renewing;
mod row;
mod staying;

pub use laws::{
    floors_stay, named_rows_stay, renewals_are_worked, renewed_content_is, returns_are_not_lower,
    rules_can_be_broken, staying_rows_are_worked,
};
pub use parts::{entries_of_rows, floors_of_rows};
pub use renewing::renewing_puts;
pub use row::NumberedRow;
pub use staying::staying_rows;
