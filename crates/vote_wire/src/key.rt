ghost use Rattle.std.specs.Prelude.{◌≡◌, ◌↔◌, IsSome, IsTrue, IfOk, IfSome, Ok};
ghost use Rattle.std.specs.Result.{result_err};
ghost use Rattle.hex.specs.Hex.{decode_of};
ghost use Rattle.vote_wire.specs.Key.{IsClusterKey, IsKeyOrBare, bare, key_refusal_of, tag_of};

use arrayvec::ArrayVec;
use hmac_core::{Hash, Keyed};
use secret_text::{SecretFault, read_hex};
use std::fmt;
use std::marker::Model;

/// The minimum length of a key, in bytes.
const MIN_KEY_LEN: usize = 16;

/// The maximum length of a key, in bytes.
const MAX_KEY_LEN: usize = 64;

/// The length of a tag, in bytes.
pub(crate) const TAG_LEN: usize = 16;

/// The key that all members of a cluster share, of 16 to 64 bytes, set up for the tags of datagrams.
///
/// Or the bare key, which has no bytes, and for which nothing is tagged.
#[derive(Drop)]
pub struct ClusterKey {
    bytes: ArrayVec<u8, MAX_KEY_LEN>,
    keyed: Keyed,
}

impl Model for ClusterKey {
    ghost use Rattle.std.specs.Prelude.{ℕ, List};
    ghost use Rattle.hmac_core.specs.Keyed.{IsKeyed};
    ghost use Rattle.hmac_core.specs.declared.hash.Hash.{Hash};
    ghost use Rattle.vote_wire.specs.Key.{IsKeyOrBare};

    ghost Value = { List ℕ };

    ghost view = { λ key. key.bytes.items };

    ghost invariant = { λ key. IsKeyOrBare key.bytes.items × IsKeyed key.keyed Hash.Sha256 key.bytes.items };
}

impl ClusterKey {
    /// Returns the key of `bytes`, or None if they are fewer than 16 or more than 64.
    pub fn new(bytes: &[u8]) -> Option<Self>
        ensures valid { IsSome result ↔ IsClusterKey bytes.now }
        ensures value { IfSome result (λ key. key ≡ bytes.now) }
    {
        if bytes.len() < MIN_KEY_LEN {
            return None;
        }
        let keyed = Keyed::new(Hash::Sha256, bytes);
        let bytes = ArrayVec::try_from(bytes).ok()?;
        Some(ClusterKey { bytes, keyed })
    }

    /// Returns the bare key: the tag of all bytes under it is 16 zeros.
    ///
    /// A node speaks under it if its port, in the same process, tags what goes out and looks at the tags of what comes.
    pub fn bare() -> Self
        ensures { result ≡ bare }
    {
        ClusterKey {
            bytes: ArrayVec::new(),
            keyed: Keyed::new(Hash::Sha256, &[]),
        }
    }

    /// Reads a key in hexadecimal: two digits a byte, in either case, and nothing else.
    ///
    /// # Errors
    ///
    /// - Returns the errors of [`read_hex`], in their order.
    /// - Returns `BadLength` if the key has fewer than 16 bytes.
    /// - Returns `TooLong` if the key has more than 64 bytes.
    pub fn read(text: &[u8]) -> Result<Self, SecretFault>
        ensures fault { result_err result ≡ key_refusal_of text.now }
        ensures value { IfOk result (λ key. decode_of text.now ≡ Ok key) }
    {
        let secret = read_hex(text)?;
        let bytes = secret.as_slice();
        if bytes.len() < MIN_KEY_LEN {
            return Err(SecretFault::BadLength);
        }
        ClusterKey::new(bytes).ok_or(SecretFault::TooLong)
    }

    /// Returns the bytes of the key. The bare key has none.
    pub fn as_slice(&self) -> &[u8]
        ensures value { result.now ≡ self.now }
        ensures len { IsKeyOrBare result.now }
    {
        &self.bytes
    }
}

/// Shows no byte of the key.
impl fmt::Debug for ClusterKey {
    fn fmt<W: fmt::Write>(&self, f: &mut fmt::Formatter<W>) -> fmt::Result {
        f.write_str("ClusterKey(..)")
    }
}

/// Returns the tag of `bytes` under a key: the first 16 bytes of their HMAC-SHA-256 (RFC 2104, sections 2 and 5).
///
/// Under the bare key it is 16 zeros.
#[tactic(auto, unfolding(crate::specs::Key::tag_of))]
pub fn tag(key: &ClusterKey, bytes: &[u8]) -> [u8; TAG_LEN]
    ensures { result ≡ tag_of key.now bytes.now }
{
    let mut tag = [0; TAG_LEN];
    if key.bytes.is_empty() {
        return tag;
    }
    let mac = key.keyed.mac(bytes);
    tag.copy_from_slice(&mac.as_slice()[..TAG_LEN]);
    tag
}

/// Returns whether two tags are equal. Compares all bytes, wherever the first difference is.
pub(crate) fn are_equal(left: &[u8; TAG_LEN], right: &[u8; TAG_LEN]) -> bool
    ensures { IsTrue result ↔ (left.now ≡ right.now) }
{
    let mut differing = 0;
    for place in 0..TAG_LEN {
        differing += u32::from(left[place] != right[place]);
    }
    differing == 0
}
