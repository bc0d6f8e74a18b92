//! The commands of `oathd` over the store of a stopped node.
#![tactic(auto)]

mod acting;
mod laws;
mod looks;
mod named;
mod plain;

pub use acting::perform;
pub use laws::actions_are_worked;
