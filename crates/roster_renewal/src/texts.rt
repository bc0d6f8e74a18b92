//! The texts of the statements that drop the tables. The table that was created last is dropped first.

pub const DROP_BOND: &str = "DROP TABLE bond";

pub const DROP_ROSTER: &str = "DROP TABLE roster";

pub const DROP_DRIFT: &str = "DROP TABLE drift";

pub const DROP_PASS: &str = "DROP TABLE pass";

pub const DROP_FLOOR: &str = "DROP TABLE floor";

pub const DROP_SELF: &str = "DROP TABLE self";
