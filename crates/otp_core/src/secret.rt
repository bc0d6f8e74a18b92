ghost use Rattle.std.specs.Prelude.{◌≡◌, ◌↔◌, IsSome, IfSome};
ghost use Rattle.otp_core.specs.Range.{IsSecret};

use arrayvec::ArrayVec;
use std::fmt;
use std::marker::Model;

/// The maximum length of a secret, in bytes.
pub const MAX_SECRET_LEN: usize = 128;

/// The secret that a token shares with the server: 1 to 128 bytes.
#[derive(Drop, PartialEq, Eq)]
pub struct Secret {
    bytes: ArrayVec<u8, MAX_SECRET_LEN>,
}

impl Model for Secret {
    ghost use Rattle.std.specs.Prelude.{ℕ, List};
    ghost use Rattle.otp_core.specs.Range.{IsSecret};

    ghost Value = { List ℕ };

    ghost view = { λ secret. secret.bytes.items };

    ghost invariant = { λ secret. IsSecret secret.bytes.items };

    ghost inverse = { λ bytes. record { bytes = record { items = bytes } } };
}

impl Secret {
    /// Returns the secret of `bytes`, or None if it has no byte or more than 128.
    pub fn new(bytes: &[u8]) -> Option<Self>
        ensures valid { IsSome result ↔ IsSecret bytes.now }
        ensures value { IfSome result (λ secret. secret ≡ bytes.now) }
    {
        if bytes.is_empty() {
            return None;
        }
        let bytes = ArrayVec::try_from(bytes).ok()?;
        Some(Secret { bytes })
    }

    /// Returns the bytes of the secret.
    pub fn as_slice(&self) -> &[u8]
        ensures value { result.now ≡ self.now }
        ensures len { IsSecret result.now }
    {
        &self.bytes
    }
}

/// Shows no byte of the secret.
impl fmt::Debug for Secret {
    fn fmt<W: fmt::Write>(&self, f: &mut fmt::Formatter<W>) -> fmt::Result {
        f.write_str("Secret(..)")
    }
}
