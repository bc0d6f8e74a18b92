//! The command `serve` of `oathd`: serves a node as its words ask for, and takes a changed users file again.
#![tactic(auto)]

mod laws;
mod refusal;
mod reload;
mod serving;
mod shared;
mod watch;

pub use laws::{boots_are_worked, reasons_are_worked, texts_are_worked};
pub use serving::serve_logged;
