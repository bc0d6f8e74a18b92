//! The histories of nodes that speak to each other by the names of tokens, and the laws about their datagrams.
//!
//! Each process has its own numbers for the tokens of its users file. A translator below its port turns the numbers
//! into names, and the names of other processes into numbers. The laws say which envelopes the datagrams tell. A
//! history in which no datagram is forged, byte for byte, is one of `book_law`, whose promises hold.
#![tactic(auto)]

mod laws;
mod worked;

pub use laws::{
    named_datagrams_tell_envelopes, named_ports_tell_envelopes, seated_stores_keep_other_rows,
    unforged_devices_are_safe, unforged_names_are_genuine, unforged_names_are_safe,
};
pub use worked::{
    names_are_worked, names_can_be_broken, ports_can_be_broken, stores_below_can_be_broken,
    unforged_histories_can_be_broken, unforged_names_can_be_broken,
};
