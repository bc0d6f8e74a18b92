//! The tests of the turns of `oath_node`, and of `udp_port` and `oathd_cluster`, by their public calls alone. They are
//! a crate of their own, since a crate is proved again with its tests.
#![tactic(auto)]

#[cfg(test)]
mod clusters;
#[cfg(test)]
mod rounds;
#[cfg(test)]
mod sockets;
#[cfg(test)]
mod turns;
