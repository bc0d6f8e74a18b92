//! The command `serve`: a node over a store and a socket, for the clients and operators that its clients file names.
//!
//! [`serve_store`] opens the store of a users file by place, [`serve_named_store`] by the names of its tokens, and each
//! serves the node of the store. A node by names speaks by the same names, and tells its floors in bulk. Both answer
//! operators.
#![tactic(auto)]

mod floors;
mod laws;
mod named;
mod names;
mod naming;
mod placed;
mod serve;

pub use laws::{ends_can_be_broken, served_can_be_broken};
pub use named::serve_named_store;
pub use placed::serve_store;
