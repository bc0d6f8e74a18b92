//! The lines of clients and the answers to them, as bytes.
//!
//! [`read_line`] reads a client's line. It accepts exactly the grammar (the law [`grammar_is_read`]). [`write_answer`]
//! writes an answer. No function allocates.
#![tactic(auto)]

mod answer;
mod laws;
mod line;

pub use answer::{Answer, MAX_ANSWER_LEN, Nonce, Outcome, Reason, write_answer, write_reply};
pub use laws::{answers_are_worked, grammar_is_read, lines_are_worked};
pub use line::{Codes, Line, MAX_LINE_LEN, read_line, without_lf};
