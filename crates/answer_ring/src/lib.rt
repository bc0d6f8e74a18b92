//! The last answers of a node, which it repeats to the same client and line.
//!
//! A ring keeps the answers in their order of arrival. A fixed index in order of client and line finds one in few
//! comparisons.
#![tactic(auto)]

mod answers;
mod kept;
mod laws;

pub use answers::Answers;
pub use client_lines::{MAX_ANSWER_LEN, MAX_LINE_LEN};
pub use kept::{Count, Kept, answer_again, keep};
pub use laws::kept_answers_are_worked;
