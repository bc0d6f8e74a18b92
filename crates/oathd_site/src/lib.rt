//! What the commands of `oathd` over a database have in common: the database and the files that their words name, how
//! these files are read, and the faults that end the program.
#![tactic(auto)]

mod fault;
mod files_before;
mod floors;
mod names;
mod site;
mod users;

pub use fault::Fault;
pub use files_before::FilesBefore;
pub use floors::{PathFault, floors_texts, with_named_paths, with_paths};
pub use names::{NamesFault, named_cluster};
pub use site::{Site, present_moment};
pub use users::{checked_users_text, users_text};
