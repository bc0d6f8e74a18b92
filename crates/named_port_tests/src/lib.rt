//! The tests of `named_port`, with `named_wire`, by their public calls alone. They are a crate of their own, since a
//! crate is proved again with its tests.
#![tactic(auto)]

#[cfg(test)]
mod named_port_tests;
#[cfg(test)]
mod named_wire_tests;
