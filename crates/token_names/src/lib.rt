//! The names and seeds of tokens, which are the same at each member of a cluster.
//!
//! A name is the first 16 bytes of HMAC-SHA-256 of the token's type, user and secret under a public word of the
//! cluster. The row, the password and the counter are no part of it. A seed is the MAC of the kind and the secret
//! alone. A device that gets another user has another name and the same seed.
#![tactic(auto)]

mod fault;
mod identity;
mod laws;
mod name;
mod names;
mod salt;
mod seed;

pub use fault::NamesFault;
pub use identity::{MAX_IDENTITY_LEN, identity_of};
pub use laws::{
    devices_keep_their_seeds, identities_are_worked, identities_tell, names_are_worked,
    names_can_be_broken, names_tell, passwords_are_left_out, seed_texts_tell, seeds_are_no_names,
    seeds_are_worked, seeds_tell,
};
pub use name::{NAME_LEN, Name};
pub use names::names_of;
pub use salt::{Salt, name_of};
pub use seed::seed_of;
