//! The log of a node: a line for each answer to a client, and for each member that becomes heard or silent.
//!
//! A [`LogPort`] is a node's port over another one. It remembers the client, the nonce and the user of each client's
//! line. It writes the line of an answer after the node offered it. Nothing that it keeps or writes has room for a
//! code, a password or a secret (`codes_are_not_told`). A member is heard by datagrams that the node reads. Once a
//! minute the port asks the one below, a [`Gatekeeper`](gatekeeping::Gatekeeper), which datagrams it passed over. Then
//! it writes their numbers, whose floor fell, and from which members datagrams came that the node can't read. If a
//! write fails, the log ends and the node continues.
#![tactic(auto)]

mod asked;
mod bad_lines;
mod differing;
mod laws;
mod log;
mod members;
mod minute;
mod port;
mod text;

pub use asked::{Asked, AskedLines, MAX_ASKED};
pub use bad_lines::BadLines;
pub use laws::{
    bad_lines_are_worked, codes_are_not_told, differing_are_worked, lines_are_worked,
    logs_can_be_broken, minutes_are_worked, records_are_worked, texts_are_worked,
};
pub use log::Log;
pub use members::Member;
pub use minute::Minute;
pub use port::LogPort;
pub use text::{Roster, Start, write_answered, write_end, write_roster, write_start};
