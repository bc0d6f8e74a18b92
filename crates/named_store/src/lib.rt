//! Opens a store of version 3 for the tokens of a users file, by their names.
//!
//! A store only gains rows. Each row has a name, and the users file has a token for each name that it shows:
//!
//! 1. The *seat* of a token is the row with its name.
//! 2. A token without a row is enrolled. It gets a row behind the others.
//! 3. A row without a token stays, and is not seen.
//!
//! [`open_named`] does all of this at a start, and returns the rows of the seats as a store. [`look_named`] only looks.
//! It enrols nothing, and refuses tokens without a row. [`entries_of`] computes the name and the seed of each token.
#![tactic(auto)]

mod entries;
mod fault;
mod floors;
mod laws;
mod looking;
mod opening;
mod reading;
mod seats;

pub use entries::entries_of;
pub use fault::{LookFault, NamedFault};
pub use floors::seeded_floors;
pub use laws::{
    entries_are_worked, floors_are_kept, floors_are_worked, full_stores_are_worked,
    looks_are_worked, seats_are_worked,
};
pub use looking::{Looked, look_named};
pub use opening::{RowCounts, enrol_and_count, open_named};
pub use seats::{Seating, find_seats};
