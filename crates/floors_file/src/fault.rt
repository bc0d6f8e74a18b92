use thiserror::Error;

/// The fault of a floors file, with the line that was read.
#[derive(Clone, Copy, Debug, PartialEq, Eq, Error)]
#[error("line {line}: {kind}")]
pub struct FloorsFault {
    /// The number of the line, from 1.
    pub line: u64,
    /// The fault of the line.
    pub kind: LineFault,
}

/// A fault at a line of a floors file.
#[derive(Clone, Copy, Debug, PartialEq, Eq, Error)]
pub enum LineFault {
    /// The first line doesn't begin with the word `floors`.
    #[error("NotFloors")]
    NotFloors,
    /// The version of the first line is not the reader's.
    #[error("Version")]
    Version,
    /// The line has too few fields.
    #[error("MissingField")]
    MissingField,
    /// The line has too many fields.
    #[error("SurplusField")]
    SurplusField,
    /// A field is not a number in decimal digits without leading zeros.
    #[error("Number")]
    Number,
    /// A number is out of its range. Every number from 2^64 on is.
    #[error("Range")]
    Range,
    /// The user is not a name of 1 to 64 bytes without blanks.
    #[error("UserName")]
    UserName,
    /// An earlier line has the same user, or the same name.
    #[error("Twice")]
    Twice,
    /// The file ends before the last row that its first line announces.
    #[error("TooFew")]
    TooFew,
    /// The file has more rows than its first line announces.
    #[error("TooMany")]
    TooMany,
    /// No LF ends the line.
    #[error("NoEnd")]
    NoEnd,
    /// The last line is not the MAC of the bytes before it under the cluster's key.
    #[error("BadMac")]
    BadMac,
    /// The names word is not a word of 12 to 64 bytes without blanks.
    #[error("NamesWord")]
    NamesWord,
    /// The name or the seed is not 32 lower case hexadecimal digits.
    #[error("Name")]
    Name,
    /// The member is the file's node, or not above the member of the line before.
    #[error("Heard")]
    Heard,
    /// The life is not a word of 1 to 64 bytes without blanks.
    #[error("Life")]
    Life,
    /// The allocator refused the memory for a row.
    #[error("out of memory")]
    Memory,
}
