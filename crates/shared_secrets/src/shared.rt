/// Two rows of a users file that have one seed, by their numbers from 1.
#[derive(Clone, Copy, Debug, PartialEq, Eq)]
pub struct SharedSecret {
    /// The earlier row.
    pub first: u32,
    /// The later row.
    pub second: u32,
}
