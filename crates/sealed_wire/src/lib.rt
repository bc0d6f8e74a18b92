//! Sealed datagrams between clients and nodes, as bytes.
//!
//! A client's line and a node's answer each stand between a head and a tag. The tag is HMAC-SHA-256 under the key that
//! the client shares with the nodes. An answer's tag also covers the line's tag, so that it answers only its line.
//! [`open`] accepts what [`seal`] writes and nothing else (the law [`one_spelling`]).
//!
//! An operator's request and a node's report on it have the same form. A report may be longer: [`seal_report`] writes
//! it, and [`open_report`] accepts it. No function allocates.
#![tactic(auto)]

mod bytes;
mod head;
mod key;
mod laws;
mod reading;
mod right;
mod writing;

pub use head::{Head, Kind};
pub use key::{ClientKey, TAG_LEN, tag};
pub use laws::{
    answers_are_for_their_lines, heads_are_worked, one_report, one_spelling,
    reports_are_for_their_requests, reports_are_worked, sealed_are_worked, what_is_read_was_made,
};
pub use reading::{client_of, head_of, open, open_report};
pub use right::Right;
pub use writing::{
    MAX_REPORT_LEN, MAX_REPORT_TEXT_LEN, MAX_SEALED_LEN, MAX_TEXT_LEN, seal, seal_report,
};
