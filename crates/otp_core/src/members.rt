/// The maximum number of members of a cluster. They are numbered from 1.
pub const MAX_MEMBERS: u8 = 9;
