/// The numbers of a node's refusals, by their reasons.
#[derive(Clone, Copy, Debug, Default, PartialEq, Eq)]
pub struct Refused {
    pub bad_line: u64,
    pub clock: u64,
    pub busy: u64,
    pub unknown: u64,
    pub throttled: u64,
    pub password: u64,
    pub exhausted: u64,
    pub invalid: u64,
    pub spent: u64,
    pub timeout: u64,
}
