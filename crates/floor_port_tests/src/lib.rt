//! The tests of `floor_port`, by its public calls alone. They are a crate of their own, since a crate is proved again
//! with its tests.
#![tactic(auto)]

#[cfg(test)]
mod tests;
