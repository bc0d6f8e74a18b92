//! The command line of `oathd`: the commands for clap, and the values that clap finds, read as a [`Task`].
#![tactic(auto)]

mod command_words;
mod former_words;
mod help;
mod inquiry_words;
mod laws;
mod members;
mod nodes_words;
mod option_words;
mod store_words;
mod words;

pub use former_words::{CountWords, FormerWords};
pub use inquiry_words::Inquiry;
pub use laws::{
    client_words_are_worked, former_words_are_worked, log_words_are_worked, looks_are_worked,
    members_can_be_broken, named_words_are_worked, paths_are_worked, ranges_can_be_broken,
};
pub use members::read_members;
pub use nodes_words::NodesWords;
pub use store_words::{Action, ClientWords, ClusterWords, ImportWords, LogWords, Look, Owner};
pub use words::{Task, read_words};
