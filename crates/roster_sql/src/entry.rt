//! What a store keeps of a token beside its row, and of its cluster.

ghost use Rattle.std.specs.Prelude.{◌≡◌, ◌≤◌, length, None, IfSome};

use arrayvec::ArrayVec;
use std::marker::Model;

/// The length of a name and of a seed, in bytes.
pub const NAME_LEN: usize = 16;

/// The maximum length of a word of the cluster, in bytes.
pub const MAX_WORD_LEN: usize = 64;

/// The name of a token, and the seed by which its secret is known in other tokens.
#[derive(Clone, Copy, Debug, PartialEq, Eq)]
pub struct Entry {
    /// The name of the token.
    pub name: [u8; NAME_LEN],
    /// The seed of its secret.
    pub seed: [u8; NAME_LEN],
}

/// The cluster that a store is bound to.
#[derive(Debug, Drop)]
pub struct Bond {
    names: ArrayVec<u8, MAX_WORD_LEN>,
    life: ArrayVec<u8, MAX_WORD_LEN>,
    members: u8,
}

impl Model for Bond {
    ghost use Rattle.roster_sql.specs.Roster.{BondRecord};

    ghost Value = { BondRecord };

    ghost view = { λ b. record { names = b.names.items; life = b.life.items; members = b.members } };
}

impl Bond {
    /// Returns the bond to a cluster with these words and so many members, or None if a word has more than 64 bytes.
    pub fn new(names: &[u8], life: &[u8], members: u8) -> Option<Self>
        ensures value { IfSome result (λ bond.
            bond ≡ record { names = names.now; life = life.now; members = members }) }
        ensures none { result ≡ None → ¬ ((length names.now ≤ 64) × (length life.now ≤ 64)) }
    {
        let names = ArrayVec::try_from(names).ok()?;
        let life = ArrayVec::try_from(life).ok()?;
        Some(Bond {
            names,
            life,
            members,
        })
    }

    /// Returns the word of the names.
    pub fn names(&self) -> &[u8]
        ensures { result.now ≡ self.now.names }
    {
        &self.names
    }

    /// Returns the life.
    pub fn life(&self) -> &[u8]
        ensures { result.now ≡ self.now.life }
    {
        &self.life
    }

    /// Returns the number of members.
    pub fn members(&self) -> u8
        ensures { result ≡ self.now.members }
    {
        self.members
    }
}
