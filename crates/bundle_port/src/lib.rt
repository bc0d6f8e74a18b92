//! A port that joins the datagrams which a node sends to a member into one.
//!
//! A [`BundlePort`] is a node's port over another one. A datagram of 32 to 255 bytes to a member waits until the next
//! receive. The receive first offers what waits to the port below, joined into one datagram for each member. A flush
//! offers it too, and receives nothing. The port takes the bundles of other members apart, and hands in their parts one
//! by one. All other datagrams pass unchanged. The port knows no keys, and nothing of what is in the datagrams.
//!
//! The lane of a member is calm after eight receives in a row before each of which at most one datagram was offered to
//! it. Then the first datagram after a receive is offered at once: a lone datagram has no other one to wait for. A
//! flush counts as a receive.
#![tactic(auto)]

mod bundle;
mod bundler;
mod gatekeeper;
mod lane;
mod laws;
mod left;
mod port;
mod record;
mod waiting;
mod worked;

pub use bundle::is_bundle;
pub use laws::{
    hands_in, offers_are_joined, one_spelling, parts_are_handed_in, parts_are_offers,
    parts_are_read_back,
};
pub use port::BundlePort;
pub use worked::{
    bundles_are_worked, calls_are_worked, calls_can_be_broken, flushes_are_worked,
    lanes_are_worked, lists_are_worked, offers_are_worked, promises_can_be_broken,
    receives_are_worked,
};
