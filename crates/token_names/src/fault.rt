use std::alloc::AllocError;
use thiserror::Error;

/// The reason why a book has no names.
#[derive(Clone, Copy, Debug, PartialEq, Eq, Error)]
pub enum NamesFault {
    /// The allocator refused the memory.
    #[error("out of memory")]
    Memory,
    /// An earlier row has the same name. The type, user and secret are the same, or the MACs collide.
    #[error("row {row}: SameName")]
    SameName {
        /// The number of the later row, from 1.
        row: u32,
    },
}

impl From<AllocError> for NamesFault {
    ghost use Rattle.std.specs.Prelude.{◌≡◌};
    ghost use Rattle.token_names.specs.declared.fault.NamesFault.TheVariants.{Memory};

    ghost from_gives = { λ _ fault. fault ≡ Memory };

    fn from(_: AllocError) -> Self {
        NamesFault::Memory
    }
}
