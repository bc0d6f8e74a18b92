//! The tests of stores in tables of SQLite, by their public calls alone: `floor_sql`, `named_store`, `seated_store` and
//! `named_floors`. They are a crate of their own, since a crate is proved again with its tests.
#![tactic(auto)]

#[cfg(test)]
mod floor_sql_tests;
#[cfg(test)]
mod named_floors_tests;
#[cfg(test)]
mod named_store_tests;
#[cfg(test)]
mod seated_store_tests;
