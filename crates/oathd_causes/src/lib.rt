//! The cause of a fault of `oathd`: its path or address, and what was found there.
//!
//! A fault of a command says only what failed. A cause is found by looking after the failure. If the file or the
//! address changed in between, it may not be what made the command fail. Looking keeps nothing: a file is opened and
//! its first bytes are read, a socket is bound and closed, or a database is opened, which locks it meanwhile. A file is
//! written beside a database and removed, to see whether the disk is full. The
//! causes of the kinds of errors, those in the row that names a store's node, and what to do about a file are defined
//! (`causes_are_worked`, `store_causes_are_worked`, `remedies_are_worked`); no contract says that a file really has its
//! cause.
#![tactic(auto)]

mod address;
mod cause;
mod database;
mod file;
mod floors;
mod key;
mod laws;
mod named;
mod names;
mod remedy;
mod roster;
mod socket;
mod space;
mod user;

pub use address::{AddressCause, address_cause, address_in};
pub use cause::{Cause, database_cause, task_cause};
pub use database::{Expected, store_cause};
pub use file::{FileCause, file_cause, file_cause_of};
pub use floors::{FloorsAdvice, file_advice, floors_advice, path_advice};
pub use key::{KeyCause, key_cause};
pub use laws::{
    advice_is_worked, bond_causes_are_worked, causes_are_worked, names_are_worked,
    remedies_are_worked, store_causes_are_worked,
};
pub use named::{Bound, Named, StoreCause, bond_cause, named_cause};
pub use names::Names;
pub use remedy::{FileRemedy, FileRole, file_remedy};
pub use roster::{
    NamesAdvice, names_advice, names_cause, no_user_cause, roster_cause, seats_cause,
};
pub use socket::{SocketCause, socket_cause};
pub use user::User;
