ghost use Rattle.std.specs.Prelude.{◌≡◌, ◌∷◌, [], codes, replicate};
ghost use Rattle.sha2.specs.declared.Sha512.{Sha512};
ghost use Rattle.hmac_core.specs.Broken.{empty_key};
ghost use Rattle.hmac_core.specs.declared.hash.Hash.{Hash};
ghost use Rattle.hmac_core.specs.declared.hasher.Hasher.{Hasher};
ghost use Rattle.hmac_core.specs.declared.keyed.Keyed.{Keyed};
ghost use Rattle.hmac_core.specs.Examples.{mac_of_sha1, mac_of_sha256, mac_of_sha512, mac_of_long_key, mac_of_block_key};
ghost use Rattle.hmac_core.specs.Hash.{mac_of};
ghost use Rattle.hmac_core.specs.Keyed.{IsKeyed};
ghost use Rattle.hmac_core.specs.Mac.{IsMacLen};

/// Worked cases. MACs of the standards, with a key shorter than a block, as long, and longer.
pub fn macs_are_worked()
    ensures sha1 { mac_of Hash.Sha1 (replicate 20 0x0b) (codes "Hi There") ≡ mac_of_sha1 }
    ensures sha256 { mac_of Hash.Sha256 (replicate 20 0x0b) (codes "Hi There") ≡ mac_of_sha256 }
    ensures sha512 { mac_of Hash.Sha512 (replicate 20 0x0b) (codes "Hi There") ≡ mac_of_sha512 }
    ensures block_key { mac_of Hash.Sha1 (replicate 64 0xaa) (codes "Hi There") ≡ mac_of_block_key }
    ensures long_key { mac_of Hash.Sha1 (replicate 80 0xaa)
        (codes "Test Using Larger Than Block-Size Key - Hash Key First") ≡ mac_of_long_key }
    ensures lens { IsMacLen 20 × IsMacLen 32 × IsMacLen 64 × (IsMacLen 28 → ⊥) × (IsMacLen 48 → ⊥) }
{}

/// Counterexamples: each promise of a key that was set up fails for a minimal one.
///
/// The empty key keeps them. A hasher in the place of the other, a state of another hash, and a state of another key
/// break them.
pub fn set_up_keys_can_be_broken()
    ensures set_up { IsKeyed empty_key Hash.Sha1 [] }
    ensures inner_is_the_outer { (keyed : Keyed) → IsKeyed keyed Hash.Sha1 [] →
        IsKeyed (record keyed { inner = keyed.outer }) Hash.Sha1 [] → ⊥ }
    ensures outer_is_the_inner { (keyed : Keyed) → IsKeyed keyed Hash.Sha1 [] →
        IsKeyed (record keyed { outer = keyed.inner }) Hash.Sha1 [] → ⊥ }
    ensures two_hashes { (keyed : Keyed) → IsKeyed keyed Hash.Sha1 [] → IsKeyed keyed Hash.Sha256 [] → ⊥ }
    ensures sha512_for_sha256 { (inner outer : Sha512) →
        IsKeyed (record { inner = Hasher.Sha512 inner; outer = Hasher.Sha512 outer }) Hash.Sha256 [] → ⊥ }
    ensures two_keys_of_sha1 { (keyed : Keyed) → IsKeyed keyed Hash.Sha1 [] → IsKeyed keyed Hash.Sha1 (7 ∷ []) → ⊥ }
    ensures two_keys_of_sha256 { (keyed : Keyed) → IsKeyed keyed Hash.Sha256 [] →
        IsKeyed keyed Hash.Sha256 (7 ∷ []) → ⊥ }
    ensures two_keys_of_sha512 { (keyed : Keyed) → IsKeyed keyed Hash.Sha512 [] →
        IsKeyed keyed Hash.Sha512 (7 ∷ []) → ⊥ }
{}
