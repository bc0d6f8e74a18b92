use thiserror::Error;

/// The fault of a cluster file, with the line that was read.
#[derive(Clone, Copy, Debug, PartialEq, Eq, Error)]
#[error("line {line}: {kind}")]
pub struct ClusterFault {
    /// The number of the line, from 1.
    pub line: u64,
    /// The fault of the line.
    pub kind: LineFault,
}

/// A fault at a line of a cluster file.
#[derive(Clone, Copy, Debug, PartialEq, Eq, Error)]
pub enum LineFault {
    /// The first field is not a word of a cluster file.
    #[error("UnknownWord")]
    UnknownWord,
    /// The line has too few fields for its word.
    #[error("MissingField")]
    MissingField,
    /// The line has too many fields for its word.
    #[error("SurplusField")]
    SurplusField,
    /// The file has nine members before the line.
    #[error("TooManyMembers")]
    TooManyMembers,
    /// The member's number is not the next one, from 1.
    #[error("MemberNumber")]
    MemberNumber,
    /// The member's address is not an IPv4 address with a port.
    #[error("BadAddress")]
    BadAddress,
    /// Another member has the same address.
    #[error("TwiceAddress")]
    TwiceAddress,
    /// Another line gives the same value.
    #[error("Twice")]
    Twice,
    /// The setting's number is not in decimal digits, or is above the setting's maximum.
    #[error("BadNumber")]
    BadNumber,
    /// The key is not 16 to 64 bytes in hexadecimal.
    #[error("BadKey")]
    BadKey,
    /// The life has more than 64 bytes.
    #[error("BadLife")]
    BadLife,
    /// No line names a member.
    #[error("NoMember")]
    NoMember,
    /// No line gives the key or its path.
    #[error("NoKey")]
    NoKey,
    /// No line gives the life.
    #[error("NoLife")]
    NoLife,
    /// The file has more than 65,536 bytes. The line is the one with the first byte above the limit.
    #[error("TooLong")]
    TooLong,
    /// The allocator refused the memory for a member.
    #[error("out of memory")]
    Memory,
    /// The salt of the names has fewer than 12 or more than 64 bytes.
    #[error("BadNames")]
    BadNames,
    /// The value of `new-tokens` is not `fresh`.
    #[error("BadNewTokens")]
    BadNewTokens,
    /// A line gives `new-tokens`, and no line gives the names.
    #[error("NoNames")]
    NoNames,
}
