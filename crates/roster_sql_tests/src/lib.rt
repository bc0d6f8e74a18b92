//! The tests of `roster_sql`: names in tables of SQLite, by its public calls alone. They are a crate of their own,
//! since a crate is proved again with its tests.
#![tactic(auto)]

#[cfg(test)]
mod stop_tests;
#[cfg(test)]
mod tests;
