//! The datagrams that members send each other, as bytes.
//!
//! A datagram carries one message of [`vote_core`] from one member to another. It ends with a tag, which only a holder
//! of the cluster's key can make. Under the bare key, which is for a port in the same process, anybody can.
//! [`read_message`] accepts what [`write_message`] writes and nothing else (the law [`one_spelling`]). No function
//! allocates.
#![tactic(auto)]

mod bytes;
mod key;
mod laws;
mod reading;
mod writing;

pub use client_lines::{
    Answer, Codes, Line, Nonce, Outcome, Reason, read_line, write_answer, write_reply,
};
pub use key::{ClusterKey, tag};
pub use laws::{
    bare_key_is_worked, bodies_are_worked, datagrams_are_worked, keys_are_worked, one_spelling,
};
pub use reading::read_message;
pub use writing::{MAX_SENT_LEN, write_message};
