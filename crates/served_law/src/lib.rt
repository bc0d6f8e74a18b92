//! The laws that join the stores that `oathd` opens, by names or by place, to the stores of histories.
//!
//! In a history, all nodes have the same numbers for tokens: the places of their names in one list. A store that is
//! opened by names has a row for each name that it ever enrolled. The laws say which store of a history it is, and that
//! a node that is served over it is a member of that history. By place the number of a token is its place in the users
//! file. `book_law` and `name_law` have the histories.
#![tactic(auto)]

mod instance;
mod laws;
mod order_laws;
mod placed;
mod run_laws;
mod store_laws;
mod worked;

pub use instance::{lone_places_are_worked, lone_runs_are_worked};
pub use laws::{
    named_translators_are_first, opened_names_are_enrolled, opened_names_are_seated,
    opened_names_have_rows, served_devices_are_safe, served_names_are_processes,
    served_names_are_safe, served_names_are_seated, served_names_are_uses, served_names_have_steps,
    served_names_open_greatest,
};
pub use order_laws::{
    clearings_can_be_broken, orders_of_runs_can_be_broken, runs_in_order_can_be_broken,
};
pub use placed::{
    orders_of_places_can_be_broken, placed_runs_can_be_broken, placed_uses_can_be_broken,
    served_places_are_processes, served_places_are_safe, served_places_have_steps,
};
pub use run_laws::{
    commands_can_be_broken, devices_can_be_broken, named_uses_can_be_broken, runs_can_be_broken,
    stretches_are_numbered,
};
pub use store_laws::{orders_can_be_broken, stores_can_be_broken};
pub use worked::{enrolments_are_worked, openings_are_worked, rows_are_worked, rows_can_be_broken};
