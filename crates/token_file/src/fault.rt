use thiserror::Error;

/// The fault of a users file, with the line that was read.
#[derive(Clone, Copy, Debug, PartialEq, Eq, Error)]
#[error("line {line}: {kind}")]
pub struct FileFault {
    /// The number of the line, from 1.
    pub line: u32,
    /// The fault of the line.
    pub kind: LineFault,
}

/// A fault at a line of a users file.
#[derive(Clone, Copy, Debug, PartialEq, Eq, Error)]
pub enum LineFault {
    /// A line with a type has fewer than four fields.
    #[error("MissingField")]
    MissingField,
    /// The secret is not a secret in hexadecimal.
    #[error("BadSecret")]
    BadSecret,
    /// The counter of an event token is not a number of 1 to 19 digits that is at most 2^62.
    #[error("BadCounter")]
    BadCounter,
    /// An earlier line has a token with the same name.
    #[error("DuplicateUser")]
    DuplicateUser,
    /// The user or the password has more than 64 bytes.
    #[error("NameTooLong")]
    NameTooLong,
    /// The line holds the 10,001st token.
    #[error("TooMany")]
    TooMany,
    /// The line has more than 4,096 bytes.
    #[error("LineTooLong")]
    LineTooLong,
    /// A pull failed while the line was read.
    #[error("cannot read")]
    Read,
    /// The allocator refused the memory for the line's token.
    #[error("out of memory")]
    Memory,
    /// The file has more than 16,777,216 bytes. The line is the one with the first byte above the limit.
    #[error("FileTooLong")]
    FileTooLong,
}
