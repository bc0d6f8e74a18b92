//! The tests of the crates that read a site's files, by their public calls alone: `clients_file`, `floors_file`,
//! `kept_rows`, `shared_secrets` and `token_names`. They are a crate of their own, since a crate is proved again with
//! its tests.
#![tactic(auto)]

#[cfg(test)]
mod clients_file_tests;
#[cfg(test)]
mod floors_file_tests;
#[cfg(test)]
mod kept_rows_tests;
#[cfg(test)]
mod shared_secrets_tests;
#[cfg(test)]
mod token_names_tests;
