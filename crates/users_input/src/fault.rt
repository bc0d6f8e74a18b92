use thiserror::Error;
use token_file::FileFault;

/// The reason why an input is not read further.
#[derive(Clone, Copy, Debug, PartialEq, Eq, Error)]
pub enum InputFault {
    /// The allocator refused the memory.
    #[error("out of memory")]
    Memory,
    /// The reader failed.
    #[error("cannot read -")]
    CannotRead,
}

/// The reason why the users file of an input is not accepted.
#[derive(Clone, Copy, Debug, PartialEq, Eq, Error)]
pub enum UsersFault {
    /// The allocator refused the memory.
    #[error("out of memory")]
    Memory,
    /// The file has a fault.
    #[error("users {0}")]
    File(FileFault),
}
