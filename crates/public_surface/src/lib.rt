//! Checks that every public name stands under the crate that callers know it by.
//!
//! A name that moves to another crate stays importable from its first one. This crate imports all of them, and has a
//! [`Port`] of the two required calls, so a change that loses a name doesn't compile.
#![tactic(auto)]

mod names;
mod silent;

pub use silent::SilentPort;
