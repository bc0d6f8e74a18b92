//! The clients file, which says from whom a node takes lines: clients that seal them, and addresses that do not.
//!
//! [`read_clients`] reads the file. A client has a number and a key that it shares with the nodes. An operator has them
//! too, and a right to send requests. No two of them have the same number or the same key (`files_have_clients`). A key
//! that is another one followed by zeros is the same key to HMAC-SHA-256 (`same_blocks_have_same_tags`). Lines of the
//! plain addresses are taken without a seal. These addresses are in 127.0.0.0/8.
#![tactic(auto)]

mod address;
mod clients;
mod fault;
mod fields;
mod laws;
mod operator;
mod reading;
mod said;
mod word;

pub use clients::{ClientEntry, Clients, OperatorEntry};
pub use fault::{ClientsFault, LineFault};
pub use laws::{
    clients_can_be_broken, fields_are_worked, files_are_worked, files_have_clients,
    lines_are_worked, same_blocks_have_same_tags,
};
pub use operator::{OperatorFault, read_operator};
pub use reading::{MAX_CLIENTS_LEN, read_clients};
pub use sealed_wire::Right;
