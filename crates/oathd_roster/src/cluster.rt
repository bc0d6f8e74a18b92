ghost use Rattle.std.specs.Prelude.{◌≡◌};

use roster_sql::Bond;
use token_names::Salt;

/// A cluster whose tokens have names.
#[derive(Drop)]
pub struct NamedCluster {
    /// The word under which its tokens have their names.
    pub salt: Salt,
    /// The bond of its members' stores.
    pub bond: Bond,
    /// Whether the secrets of new tokens are new.
    pub is_fresh: bool,
    ghost bound: { bond.names ≡ salt },
}
