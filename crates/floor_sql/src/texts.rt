//! The texts of the statements. Statements about `self`, `floor` and `pass` mean the same in versions 1 and 2.

// Statements that create the tables and insert their first rows.

pub const CREATE_SELF: &str =
    "CREATE TABLE self (id INTEGER PRIMARY KEY CHECK (id = 1), version INTEGER NOT NULL, \
        node INTEGER NOT NULL, tokens INTEGER NOT NULL, boot INTEGER NOT NULL) STRICT";

pub const CREATE_FLOOR: &str =
    "CREATE TABLE floor (token INTEGER PRIMARY KEY, next INTEGER NOT NULL, \
        g_node INTEGER, g_boot INTEGER, g_seq INTEGER, g_lo INTEGER, g_hi INTEGER, \
        fails INTEGER NOT NULL, until INTEGER NOT NULL) STRICT";

pub const CREATE_PASS: &str =
    "CREATE TABLE pass (number INTEGER PRIMARY KEY, token INTEGER NOT NULL, \
        lo INTEGER NOT NULL, hi INTEGER NOT NULL, boot INTEGER NOT NULL, seq INTEGER NOT NULL) STRICT";

pub const INSERT_SELF: &str =
    "INSERT INTO self (id, version, node, tokens, boot) VALUES (1, 2, ?1, ?2, ?3)";

pub const INSERT_FLOOR: &str =
    "INSERT INTO floor (token, next, fails, until) VALUES (?1, ?2, 0, 0)";

// Statements that upgrade version 1 to version 2.

pub const CREATE_DRIFT: &str =
    "CREATE TABLE drift (token INTEGER PRIMARY KEY, steps INTEGER NOT NULL) STRICT";

pub const INSERT_DRIFT: &str = "INSERT INTO drift (token, steps) VALUES (?1, 0)";

pub const UPDATE_VERSION: &str = "UPDATE self SET version = 2 WHERE id = 1";

// Statements that read the tables.

pub const SELECT_SELF: &str = "SELECT id, version, node, tokens, boot FROM self WHERE id = 1";

pub const SELECT_FLOOR: &str =
    "SELECT token, next, g_node, g_boot, g_seq, g_lo, g_hi, fails, until FROM floor WHERE token = ?1";

pub const SELECT_DRIFT: &str = "SELECT token, steps FROM drift WHERE token = ?1";

pub const SELECT_PASSES: &str = "SELECT number, token, lo, hi, boot, seq FROM pass ORDER BY number";

// Statements of a put and of a raise of the boot.

pub const UPDATE_FLOOR: &str =
    "UPDATE floor SET next = ?2, g_node = ?3, g_boot = ?4, g_seq = ?5, g_lo = ?6, g_hi = ?7, \
        fails = ?8, until = ?9 WHERE token = ?1";

pub const UPDATE_DRIFT: &str = "UPDATE drift SET steps = ?2 WHERE token = ?1";

pub const INSERT_PASS: &str =
    "INSERT INTO pass (number, token, lo, hi, boot, seq) VALUES (?1, ?2, ?3, ?4, ?5, ?6)";

pub const UPDATE_BOOT: &str = "UPDATE self SET boot = ?1 WHERE id = 1";
