//! The report STATUS: a [`Status`] has the values of a node, and a [`StatusLine`] is a line of their text.
//!
//! They are lines of a report, so that the laws of pages hold for them (the law [`status_is_a_report`]). No function
//! allocates.
#![tactic(auto)]

mod laws;
mod status;
mod status_line;

pub use laws::{
    commits_are_worked, status_is_a_report, status_lines_are_worked, status_lines_can_be_broken,
    statuses_are_worked,
};
pub use status::{MAX_STATUS_LINES, Rows, Status, Version};
pub use status_line::{Quantity, Refusal, StatusLine};
