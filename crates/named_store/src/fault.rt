//! The faults of an opening by names.

use floor_sql::Refusal;
use floor_store::StoreFault;
use thiserror::Error;

/// The reason why a store isn't opened for the tokens of a users file.
#[derive(Clone, Copy, Debug, PartialEq, Eq, Error)]
pub enum NamedFault {
    /// The store is bound to another cluster.
    #[error("AnotherCluster")]
    AnotherCluster,
    /// The store would have more than 65,536 rows. Rows of retired tokens count.
    #[error("Full")]
    Full,
    /// The store has a fault.
    #[error("{0}")]
    Store(StoreFault),
}

/// The reason why a store isn't seen by the names of the tokens of a users file.
#[derive(Clone, Copy, Debug, PartialEq, Eq, Error)]
pub enum LookFault {
    /// The token at this place of the users file, from 0, is the first one without a row.
    #[error("NotEnrolled {token}")]
    NotEnrolled { token: u32 },
    /// The store is not opened. It is never full.
    #[error("{0}")]
    Named(NamedFault),
}

impl From<Refusal> for NamedFault {
    ghost use Rattle.std.specs.Prelude.{◌≡◌};
    ghost use Rattle.named_store.specs.declared.fault.NamedFault.TheVariants.{Store};

    ghost from_gives = { λ refusal fault. fault ≡ Store refusal.0 };

    fn from(refusal: Refusal) -> NamedFault {
        NamedFault::Store(refusal.0)
    }
}
