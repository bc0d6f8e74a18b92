//! A port that tells floors in bulk: up to 20 in a datagram, and all of a node's floors in turn.
//!
//! A [`FloorPort`] is a node's port over another one. On both sides the datagrams of members are of version 3, under
//! the cluster's key. At each quiet turn the port tells the other members floors that its node bears witness to. It
//! unpacks what members tell: of a datagram with news it hands in each floor that is news as one datagram. All other
//! datagrams pass unchanged, also those that tell no news, those whose tag is wrong, and those of an older boot than
//! one that the port heard the member in. The port by names above drops the last.
//!
//! A floor that the node raised by a witness since the last quiet turn is fresh. The port tells it at a later quiet
//! turn. The datagrams of the vote may still be on their way, and a member that knows the floor before the vote denies
//! it. The port remembers 64 fresh floors. It tells further ones at the next quiet turn.
//!
//! A member that tells a lower floor of a token in a later boot went back to an old store. The port notes its fall for
//! the log. From then on it hands in each datagram of the member without bytes.
#![tactic(auto)]

mod body;
mod claims;
mod falls;
mod floor;
mod fresh;
mod gatekeeper;
mod heard;
mod laws;
mod pace;
mod packer;
mod port;
mod record;
mod rows;
mod witness;
mod worked;

pub use body::{MAX_FLOORS, floors_body, floors_told};
pub use floor::NamedFloor;
pub use laws::{
    fallen_members_are_silent, falls_are_true, floors_one_spelling, floors_rise, fresh_floors_wait,
    noted_floors_are_taken, what_is_handed_in_was_told, what_is_told_is_the_nodes,
};
pub use packer::Membership;
pub use port::FloorPort;
pub use witness::witness_of;
pub use worked::{
    bodies_are_worked, boots_are_worked, calls_are_worked, calls_can_be_broken, falls_are_worked,
    fresh_rows_are_worked, noted_floors_can_be_dropped, offers_are_worked, paces_are_worked,
    packers_are_worked, promises_can_be_broken, rows_are_worked, setups_are_worked,
    setups_can_be_broken, silences_are_worked, witnesses_are_worked,
};
