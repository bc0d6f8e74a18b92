//! The surroundings of a datagram server: a port, which receives and sends datagrams, and a clock.
//!
//! A [`Port`] returns at most one datagram for each receive or poll, and sends datagrams. A receive waits for a
//! datagram, a poll doesn't. A [`Clock`] tells the time. Both may keep a record of their calls. [`ListPort`] and
//! [`ListClock`] are in memory and keep one.
#![tactic(auto)]

mod clock;
mod laws;
mod list_port;
mod port;

pub use clock::Clock;
pub use laws::{records_are_worked, records_can_be_broken};
pub use list_port::{Coming, ListClock, ListPort, PortEntry};
pub use port::{MAX_DATAGRAM_LEN, Port, Received, Sender};
