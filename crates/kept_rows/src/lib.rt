//! The rows of a users file that a node keeps if its store has no room for the others, and the log's lines of those.
#![tactic(auto)]

mod laws;
mod left;
mod rows;

pub use laws::{kept_rows_are_lines, kept_rows_are_worked, left_rows_are_worked};
pub use left::write_left;
pub use rows::lines_in;
