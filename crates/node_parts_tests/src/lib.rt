//! The tests of a node, of the crates below it, and of clusters in memory, by their public calls alone: `hmac_core`,
//! `otp_core`, `field_text`, `secret_text`, `token_file`, `floors_file`, `floor_store`, `vote_core`, `vote_wire`,
//! `answer_ring`, `oath_node` and `cluster_sim`. They are a crate of their own, since a crate is proved again with its
//! tests.
#![tactic(auto)]

#[cfg(test)]
mod cluster_sim_tests;
#[cfg(test)]
mod code_tests;
#[cfg(test)]
mod file_tests;
#[cfg(test)]
mod fuse_tests;
#[cfg(test)]
mod line_tests;
#[cfg(test)]
mod node_tests;
#[cfg(test)]
mod ring_tests;
#[cfg(test)]
mod steps;
#[cfg(test)]
mod store_tests;
#[cfg(test)]
mod text_tests;
#[cfg(test)]
mod vote_tests;
