//! A node's port over a UDP socket, and the system's clock as a node's.
//!
//! A datagram from the address of a member is the member's. One from any other address is a client's, whose number is
//! the address. The port passes over a client's datagram that is an answer of a node, which begins with `OK ` or `NO `.
//! With [`UdpPort::taking_loopback_alone`] it also passes over the datagrams of clients outside 127.0.0.0/8.
//!
//! The port's record is made of the calls of its socket, each with its arguments and its result. The functions `hear`
//! and `tell` call the socket, and note the call. No clause says that a note is what the system call saw.
//!
//! The caller binds the socket and sets its read timeout to the time from one quiet turn to the next. Without a timeout
//! a receive waits for a datagram for ever, and the node learns of no time that passes. A poll switches the socket to
//! non-blocking mode. The next receive or send switches it back.
//!
//! ```rust
//! use std::net::{SocketAddr, UdpSocket};
//! use std::time::Duration;
//! use udp_port::{QUIET_MILLIS, SystemClock, UdpPort};
//!
//! let socket = UdpSocket::bind(&rt, SocketAddr::V4(members[0]))?;
//! socket.set_read_timeout(Some(Duration::from_millis(QUIET_MILLIS)))?;
//! let mut port = UdpPort::new(socket, members, &rt);
//! let mut clock = SystemClock::new(&rt);
//! let served = run_turns(&mut node, &mut port, &mut clock, turns)?;
//! ```
#![tactic(auto)]

mod address;
mod calls;
mod clock;
mod laws;
mod pace;
mod port;

pub use address::{client_address, client_number};
pub use clock::{NoClock, SystemClock};
pub use laws::{
    addresses_are_worked, addresses_can_be_broken, calls_are_worked, quiet_turns_are_worked,
    quiet_turns_keep_their_pace, receipts_are_worked, receives_can_be_broken,
};
pub use pace::QUIET_MILLIS;
pub use port::{MAX_MEMBERS, UdpPort};
