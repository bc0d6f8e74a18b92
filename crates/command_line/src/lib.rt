//! The shared part of the programs' command lines: clap's texts, and options with a number.
#![tactic(auto)]

mod clap_error;
mod laws;
mod number;

pub use clap_error::explain;
pub use laws::numbers_are_worked;
pub use number::{NumberOption, first_out_of_range, number_error, number_of};

/// The version of the programs.
pub const VERSION: &str = "0.1.0";
