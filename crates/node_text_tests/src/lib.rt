//! The tests of what is written for people, by the public calls alone: `log_writer`, `node_log`, `oathd_asking`,
//! `oathd_lines`, `oathd_sim`, `operator_text` and `status_text`. They are a crate of their own, since a crate is
//! proved again with its tests.
#![tactic(auto)]

#[cfg(test)]
mod failing;
#[cfg(test)]
mod log_writer_tests;
#[cfg(test)]
mod node_log_tests;
#[cfg(test)]
mod oathd_asking_tests;
#[cfg(test)]
mod oathd_lines_tests;
#[cfg(test)]
mod oathd_sim_tests;
#[cfg(test)]
mod operator_text_tests;
#[cfg(test)]
mod status_text_tests;
