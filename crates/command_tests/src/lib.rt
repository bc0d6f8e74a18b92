//! The tests of the commands over a database, and of what a running node reports, by their public calls alone:
//! `oathd_database`, `node_serving`, `oathd_roster`, `oathd_seats`, `oathd_floors` and `node_reports`. They are a crate
//! of their own, since a crate is proved again with its tests.
#![tactic(auto)]

#[cfg(test)]
mod database_tests;
#[cfg(test)]
mod floors_tests;
#[cfg(test)]
mod node_reports_tests;
#[cfg(test)]
mod oathd_roster_tests;
#[cfg(test)]
mod responder_tests;
#[cfg(test)]
mod seats_tests;
#[cfg(test)]
mod serving_tests;
#[cfg(test)]
mod vote_tests;
