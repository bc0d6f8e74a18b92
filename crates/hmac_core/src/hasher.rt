ghost use Rattle.std.specs.Prelude.{◌≡◌, ◌++◌, ℕ, List};
ghost use Rattle.hmac_core.specs.Digest.{digest_bytes};
ghost use Rattle.hmac_core.specs.Hash.{digest_of};
ghost use Rattle.hmac_core.specs.Hasher.{HasTaken};
ghost use Rattle.hmac_core.specs.declared.hash.Hash.{Hash};

use crate::hash::{Digest, Hash};
use sha1::Sha1;
use sha2::{Digest as _, Sha256, Sha512};

/// A hash that has taken a prefix of a message. Any number of messages can continue from it.
#[derive(Drop)]
pub(crate) enum Hasher {
    Sha1(Sha1),
    Sha256(Sha256),
    Sha512(Sha512),
}

impl Hasher {
    /// Returns a hasher that has taken `first`.
    pub(crate) fn new(hash: Hash, first: &[u8]) -> Self
        ensures { HasTaken result hash first.now }
    {
        match hash {
            Hash::Sha1 => {
                let mut hasher = Sha1::new();
                hasher.update(first);
                Hasher::Sha1(hasher)
            }
            Hash::Sha256 => Hasher::Sha256(Sha256::new_with_prefix(first)),
            Hash::Sha512 => Hasher::Sha512(Sha512::new_with_prefix(first)),
        }
    }

    /// Returns the digest of the prefix followed by `rest`. The state stays.
    pub(crate) fn digest_with(&self, rest: &[u8]) -> Digest
        ensures { (hash : Hash) (first : List ℕ) → HasTaken self.now hash first →
            digest_bytes result ≡ digest_of hash (first ++ rest.now) }
    {
        match self {
            Hasher::Sha1(hasher) => {
                let mut hasher = hasher.clone().unwrap();
                hasher.update(rest);
                Digest::Sha1(hasher.finalize())
            }
            Hasher::Sha256(hasher) => {
                let hasher = hasher.clone().unwrap().chain_update(rest);
                Digest::Sha256(hasher.finalize())
            }
            Hasher::Sha512(hasher) => {
                let hasher = hasher.clone().unwrap().chain_update(rest);
                Digest::Sha512(hasher.finalize())
            }
        }
    }
}
