//! The histories of nodes whose users files, settings and keys change, and the law about all of them.
//!
//! In a history processes open the stores of nodes, each under terms of its own: a book, limits, a key and seats. The
//! promises about acceptances and answers hold in every history.
#![tactic(auto)]

mod action_laws;
mod laws;
mod part_laws;
mod seed_laws;
mod write_laws;

pub use action_laws::{actions_are_worked, losses_are_worked};
pub use laws::{
    answers_are_worked, answers_can_be_broken, books_are_safe, books_are_worked,
    books_can_be_broken, grounds_are_worked, held_floors_raise_no_further, histories_keep_uses,
    opened_gates_are_actions, results_are_noted, served_nodes_are_processes,
    stretches_are_processes, told_floors_can_be_broken, uses_are_worked, uses_can_be_broken,
};
pub use part_laws::{
    parts_are_worked, parts_can_be_broken, stretches_are_worked, stretches_can_be_broken,
};
pub use seed_laws::{
    devices_are_safe, devices_can_be_broken, uses_of_devices_can_be_broken, uses_open_stores,
};
pub use write_laws::{commands_are_actions, commands_are_worked, cut_openings_are_actions};
