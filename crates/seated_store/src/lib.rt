//! A store that shows some rows of another store, in an order of its own.
//!
//! It shows the rows that a users file has, in the order of its lines. The other rows of the store below stay as they
//! are, and are not seen.
#![tactic(auto)]

mod laws;
mod places;
mod store;

pub use laws::{places_are_the_store, places_are_worked, seats_are_worked, seats_can_be_broken};
pub use places::own_seats;
pub use store::{BelowReading, SeatedStore};
