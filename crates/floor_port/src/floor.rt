//! The floor of a token with a name.

use token_names::{NAME_LEN, Name};

/// The name of a token and a floor of it.
#[derive(Clone, Copy, Debug, PartialEq, Eq)]
pub struct NamedFloor {
    /// The name of the token.
    pub name: Name,
    /// The floor.
    pub next: u64,
}

impl Default for NamedFloor {
    fn default() -> Self {
        NamedFloor {
            name: Name::new([0; NAME_LEN]),
            next: 0,
        }
    }
}
