//! The commands of `oathd` without a database: `lines`, `sim`, `cluster`, `check`, `new-key` and `secret`.
//!
//! They keep nothing between two runs. [`perform`] carries out a task over an input and an output; a [`Fault`] ends it.
//! [`run`] is the whole run of a program, with or without the commands over a database ([`TaskFault`]).
//! The commands over a database are in other crates, so that a program without them needs no SQLite.
#![tactic(auto)]

mod advice;
mod asking;
mod check;
mod clients;
mod cluster;
mod commands;
mod fault;
mod key;
mod laws;
mod new_cluster;
mod new_key;
mod notes;
mod program;
mod secret_input;
mod setup;
mod shared;
mod tally;
mod told_check;

pub use advice::{PATH_ADVICE, RowAdvice, clients_advice, cluster_advice, row_advice};
pub use clients::clients_at;
pub use cluster::{cluster_in, cluster_key, cluster_text, member_place};
pub use commands::perform;
pub use fault::Fault;
pub use key::{file_text, read_key};
pub use laws::{
    advice_is_worked, checks_can_be_broken, clients_can_be_broken, ends_can_be_broken,
    keys_can_be_broken, notes_are_worked, setups_can_be_broken, shared_notes_can_be_broken,
    tasks_can_be_broken,
};
pub use notes::printed;
pub use program::{PROGRAM, TaskFault, run};
pub use shared::shared_in;
