ghost use Rattle.std.specs.Prelude.{◌≡◌};
ghost use Rattle.shared_secrets.specs.Seed.{key_of as spec_key_of, kind_byte as spec_kind_byte, seed_of};

use arrayvec::ArrayVec;
use otp_core::MAX_SECRET_LEN;
use token_file::{Kind, Token};

/// The maximum length of a key, in bytes: a byte for the kind, and a secret.
const MAX_KEY_LEN: usize = 1 + MAX_SECRET_LEN;

/// The key of a seed. Tokens of one seed have one key, and others have others.
pub(crate) type Key = ArrayVec<u8, MAX_KEY_LEN>;

/// Returns the byte of a kind in a key.
fn kind_byte(kind: Kind) -> u8
    ensures { result ≡ spec_kind_byte kind }
{
    match kind {
        Kind::Event => 0,
        Kind::Time30 => 30,
        Kind::Time60 => 60,
    }
}

/// Returns the key of a token's seed.
pub(crate) fn key_of(token: &Token) -> Key
    ensures { result.items ≡ spec_key_of (seed_of token.now) }
{
    let mut key = ArrayVec::new();
    key.push(kind_byte(token.kind()));
    let _ = key.try_extend_from_slice(token.secret().as_slice());
    key
}
