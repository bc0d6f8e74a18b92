use thiserror::Error;

/// The fault of a clients file, with the line that was read.
#[derive(Clone, Copy, Debug, PartialEq, Eq, Error)]
#[error("line {line}: {kind}")]
pub struct ClientsFault {
    /// The number of the line, from 1.
    pub line: u64,
    /// The fault of the line.
    pub kind: LineFault,
}

/// A fault at a line of a clients file.
#[derive(Clone, Copy, Debug, PartialEq, Eq, Error)]
pub enum LineFault {
    /// The first field is not a word of a clients file.
    #[error("UnknownWord")]
    UnknownWord,
    /// The line has too few fields for its word.
    #[error("MissingField")]
    MissingField,
    /// The line has too many fields for its word.
    #[error("SurplusField")]
    SurplusField,
    /// The number is not in decimal digits, or is not in the word's range.
    #[error("BadNumber")]
    BadNumber,
    /// An earlier line has the same number of a client or operator, or is an earlier `ahead` or `failures`.
    #[error("Twice")]
    Twice,
    /// The key is not 16 to 64 bytes in hexadecimal.
    #[error("BadKey")]
    BadKey,
    /// An earlier client or operator has the same key: the two could answer for each other.
    #[error("SameKey")]
    SameKey,
    /// The address is not an IPv4 address.
    #[error("BadAddress")]
    BadAddress,
    /// The address is not in 127.0.0.0/8.
    #[error("NotLoopback")]
    NotLoopback,
    /// The file has 64 clients and operators or 16 plain addresses before the line.
    #[error("TooMany")]
    TooMany,
    /// No line names a client or a plain address.
    #[error("NoClient")]
    NoClient,
    /// The file has more than 65,536 bytes. The line is the one with the first byte above the limit.
    #[error("TooLong")]
    TooLong,
    /// The allocator refused the memory for a line.
    #[error("out of memory")]
    Memory,
}
