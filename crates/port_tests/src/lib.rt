//! The tests of `bundle_port`, `count_port` and `sealed_port`, by their public calls alone. They are a crate of their
//! own, since a crate is proved again with its tests.
#![tactic(auto)]

#[cfg(test)]
mod bundle_port_tests;
#[cfg(test)]
mod count_port_tests;
#[cfg(test)]
mod entries;
#[cfg(test)]
mod sealed_port_tests;
