//! The texts of the statements.

// Statements that make the tables, and insert into them.

pub const CREATE_ROSTER: &str =
    "CREATE TABLE roster (token INTEGER PRIMARY KEY, name BLOB NOT NULL, seed BLOB NOT NULL) STRICT";

pub const CREATE_BOND: &str =
    "CREATE TABLE bond (id INTEGER PRIMARY KEY CHECK (id = 1), names BLOB NOT NULL, \
        life BLOB NOT NULL, members INTEGER NOT NULL) STRICT";

pub const INSERT_ENTRY: &str = "INSERT INTO roster (token, name, seed) VALUES (?1, ?2, ?3)";

pub const INSERT_BOND: &str = "INSERT INTO bond (id, names, life, members) VALUES (1, ?1, ?2, ?3)";

// Statements about the row of `self`.

pub const UPDATE_VERSION: &str = "UPDATE self SET version = 3 WHERE id = 1";

pub const UPDATE_TOKENS: &str = "UPDATE self SET tokens = ?1 WHERE id = 1";

// Statements that read the tables.

pub const SELECT_ENTRY: &str = "SELECT token, name, seed FROM roster WHERE token = ?1";

pub const SELECT_BOND: &str = "SELECT id, names, life, members FROM bond WHERE id = 1";
