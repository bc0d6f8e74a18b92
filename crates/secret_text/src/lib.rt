//! Secrets as text: base32 (RFC 4648) and hexadecimal.
#![tactic(auto)]

mod base32;
mod bits;
mod fault;
mod hexadecimal;
mod laws;

pub use base32::{read_base32, write_base32};
pub use fault::SecretFault;
pub use hexadecimal::read_hex;
pub use laws::{reads_what_it_wrote, texts_are_worked};
