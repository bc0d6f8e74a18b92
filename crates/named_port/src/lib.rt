//! A port that speaks to members of tokens by their names, and to its node by the numbers of its own book.
//!
//! A [`NamedPort`] is a node's port over another one. A node and its port speak in numbered datagrams, of version 2,
//! under the bare key: they stay in the process. Members speak in named datagrams, of version 3, under the cluster's
//! key. The port translates one datagram into one. It hands a member's datagram without a translation to the node as
//! one without bytes, which the node drops. So it drops a datagram whose tag is wrong, also one under the bare key, and
//! one whose head has an older boot than its member was heard in ([`Older`](gatekeeping::Older)). It notes which
//! members differ, for the log: their datagrams are under another key, of another version, or of a token whose name the
//! book hasn't. Clients' datagrams pass unchanged.
//!
//! An Ask and a Grant by name have packed fields: without the node of the proposal, which is one of the two ends, and
//! with the low byte of the last factor alone.
#![tactic(auto)]

mod gatekeeper;
mod laws;
mod names;
mod port;
mod record;
mod translator;
mod wire;
mod worked;

pub use laws::{
    boots_are_the_greatest, named_one_spelling, packed_fields_tell, what_is_handed_in_came,
    what_is_offered_is_the_nodes,
};
pub use names::Names;
pub use port::NamedPort;
pub use wire::{MAX_NAMED_LEN, MAX_NUMBERED_LEN, last_factor, named, numbered};
pub use worked::{
    boots_are_worked, calls_are_worked, calls_can_be_broken, differing_is_worked,
    events_are_worked, fields_are_worked, receives_can_be_broken, setups_are_worked,
    setups_can_be_broken, translations_are_worked,
};
