ghost use Rattle.std.specs.Prelude.{◌≡◌, ◌≤◌, ℕ, List, length, take};
ghost use Rattle.hmac_core.specs.Hash.{block_len_of, digest_of, mac_of};
ghost use Rattle.hmac_core.specs.Hmac.{block_key, xor_each, with_zeros};
ghost use Rattle.hmac_core.specs.Keyed.{IsKeyed};
ghost use Rattle.hmac_core.specs.declared.hash.Hash.{Hash};

use crate::hash::{Hash, MAX_BLOCK_LEN};
use crate::hasher::Hasher;
use crate::mac::Mac;

/// The byte that pads the inner key (RFC 2104, section 2).
const IPAD: u8 = 0x36;

/// The byte that pads the outer key (RFC 2104, section 2).
const OPAD: u8 = 0x5c;

/// A key that is set up for many messages (RFC 2104, section 4).
///
/// Each MAC continues from the states of the hash after the key's two blocks. A short message takes half the time of
/// [`hmac`](crate::hmac).
#[derive(Drop)]
pub struct Keyed {
    inner: Hasher,
    outer: Hasher,
}

impl Keyed {
    /// Sets up a key of any length.
    #[tactic(auto, unfolding(crate::specs::Keyed::IsKeyed))]
    pub fn new(hash: Hash, key: &[u8]) -> Self
        ensures { IsKeyed result hash key.now }
    {
        let block_len = hash.block_len();
        let key = block_of(hash, key);
        Keyed {
            inner: Hasher::new(hash, &xored(key, IPAD)[..block_len]),
            outer: Hasher::new(hash, &xored(key, OPAD)[..block_len]),
        }
    }

    /// Returns the MAC of `msg` under the key.
    #[tactic(auto, unfolding(crate::specs::Keyed::IsKeyed))]
    pub fn mac(&self, msg: &[u8]) -> Mac
        ensures { (hash : Hash) (key : List ℕ) → IsKeyed self.now hash key →
            result ≡ mac_of hash key msg.now }
    {
        let inner = self.inner.digest_with(msg);
        Mac::from(self.outer.digest_with(inner.as_slice()))
    }
}

/// Returns an array that begins with the key's block of the hash.
///
/// The block is the key, or its digest if the key is longer than a block. Zeros follow.
fn block_of(hash: Hash, key: &[u8]) -> [u8; MAX_BLOCK_LEN]
    ensures { take (block_len_of hash) result ≡ block_key (digest_of hash) (block_len_of hash) key.now }
{
    if key.len() <= hash.block_len() {
        padded(key)
    } else {
        padded(hash.digest(key).as_slice())
    }
}

/// Returns `bytes` followed by zeros.
fn padded(bytes: &[u8]) -> [u8; MAX_BLOCK_LEN]
    requires { length bytes.now ≤ MAX_BLOCK_LEN }
    ensures { result ≡ with_zeros MAX_BLOCK_LEN bytes.now }
{
    let mut block = [0; MAX_BLOCK_LEN];
    block[..bytes.len()].copy_from_slice(bytes);
    block
}

/// Returns the block with each byte xor the pad.
fn xored(mut block: [u8; MAX_BLOCK_LEN], pad: u8) -> [u8; MAX_BLOCK_LEN]
    ensures { result ≡ xor_each pad block }
{
    for byte in &mut block {
        *byte ^= pad;
    }
    block
}
