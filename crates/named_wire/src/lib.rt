//! The datagrams between members that know tokens by their names, version 3.
//!
//! A datagram has a head, a body of any bytes, and a tag of both under the cluster's key.
#![tactic(auto)]

mod bytes;
mod head;
mod laws;
mod reading;
mod tags;
mod writing;

pub use head::{Head, Kind};
pub use laws::{datagrams_are_worked, heads_are_worked, one_spelling};
pub use reading::read_datagram;
pub use writing::{MAX_BODY_LEN, MAX_DATAGRAM_LEN, write_datagram, write_parts};
