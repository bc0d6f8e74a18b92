ghost use Rattle.std.specs.Prelude.{◌≡◌, ◌↔◌, length, IsSome, IfSome};
ghost use Rattle.hmac_core.specs.Mac.{IsMacLen};

use crate::hash::Digest;
use std::marker::Model;

/// A message authentication code, of 20, 32 or 64 bytes.
#[derive(Clone, Copy, Debug, PartialEq, Eq)]
pub struct Mac {
    digest: Digest,
}

impl Model for Mac {
    ghost use Rattle.std.specs.Prelude.{ℕ, List};
    ghost use Rattle.hmac_core.specs.Digest.{HasDigestLen, digest_bytes, digest_of_bytes, digest_of_bytes-digest_bytes};

    ghost Value = { List ℕ };

    ghost view = { λ mac. digest_bytes mac.digest };

    ghost invariant = { λ mac. HasDigestLen mac.digest };

    ghost inverse = { λ bytes. record { digest = digest_of_bytes bytes } };

    ghost use Rattle.std.proofs.Common.{ap};
    ghost use Rattle.hmac_core.specs.declared.hash.Digest.{Digest};

    ghost inverse_ok = { λ mac h.
        ap (λ (d : Digest). record { digest = d }) (digest_of_bytes-digest_bytes mac.digest h) };
}

impl Mac {
    /// Returns the MAC of `bytes`, or None if no hash has digests of their length.
    pub fn new(bytes: &[u8]) -> Option<Self>
        ensures valid { IsSome result ↔ IsMacLen (length bytes.now) }
        ensures value { IfSome result (λ mac. mac ≡ bytes.now) }
    {
        let digest = match bytes.len() {
            20 => Digest::Sha1(bytes.try_into().ok()?),
            32 => Digest::Sha256(bytes.try_into().ok()?),
            64 => Digest::Sha512(bytes.try_into().ok()?),
            _ => return None,
        };
        Some(Mac { digest })
    }

    /// Returns the bytes of the MAC.
    pub fn as_slice(&self) -> &[u8]
        ensures bytes { result.now ≡ self.now }
        ensures len { IsMacLen (length result.now) }
    {
        self.digest.as_slice()
    }
}

impl From<Digest> for Mac {
    ghost use Rattle.hmac_core.specs.Digest.{digest_bytes};

    ghost from_gives = { λ digest mac. mac ≡ digest_bytes digest };

    fn from(digest: Digest) -> Self {
        Mac { digest }
    }
}
