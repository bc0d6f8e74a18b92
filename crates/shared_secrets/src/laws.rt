ghost use Rattle.std.specs.Prelude.{◌≡◌, [], ◌∷◌, codes, None, Some};
ghost use Rattle.hmac_core.specs.declared.hash.Hash.{Hash};
ghost use Rattle.otp_core.specs.declared.digits.Digits.{Digits};
ghost use Rattle.token_file.specs.Examples.{event_token, password, time_token, token_of};
ghost use Rattle.token_file.specs.declared.token.Kind.{Kind};
ghost use Rattle.shared_secrets.specs.Examples.{event_seed, seed, shared_by, two_bytes};
ghost use Rattle.shared_secrets.specs.Repeat.{AreDistinct, IsFirstRepeat, IsSharedIn};
ghost use Rattle.shared_secrets.specs.Seed.{key_of, seed_of, seeds_of};

/// Worked cases. The seed of each kind, the key of a seed, and tokens that differ in one part.
pub fn seeds_are_worked()
    ensures event { seed_of (event_token (codes "u")) ≡ event_seed 49 }
    ensures time { seed_of (time_token Kind.Time60) ≡ seed Kind.Time60 49 }
    ensures another_user { seed_of (token_of (codes "v") (password (codes "pw")) Kind.Time30 Digits.Seven Hash.Sha256)
        ≡ seed_of (time_token Kind.Time30) }
    ensures another_kind { seed_of (time_token Kind.Time60) ≡ seed_of (time_token Kind.Time30) → ⊥ }
    ensures another_secret { seed_of two_bytes ≡ seed_of (event_token (codes "u")) → ⊥ }
    ensures in_order { seeds_of (time_token Kind.Time30 ∷ event_token (codes "u") ∷ [])
        ≡ seed Kind.Time30 49 ∷ event_seed 49 ∷ [] }
    ensures keys { key_of (event_seed 49) ∷ key_of (seed Kind.Time30 49) ∷ key_of (seed Kind.Time60 49) ∷ []
        ≡ (0 ∷ 49 ∷ []) ∷ (30 ∷ 49 ∷ []) ∷ (60 ∷ 49 ∷ []) ∷ [] }
{}

/// Counterexamples: each promise of distinct seeds and of the first repeat fails for a minimal one.
pub fn repeats_can_be_broken()
    ensures distinct { AreDistinct (event_seed 1 ∷ event_seed 2 ∷ seed Kind.Time30 1 ∷ []) }
    ensures not_distinct { AreDistinct (event_seed 1 ∷ event_seed 2 ∷ event_seed 1 ∷ []) → ⊥ }

    ensures repeat { IsFirstRepeat (event_seed 1 ∷ event_seed 2 ∷ event_seed 1 ∷ event_seed 2 ∷ []) (shared_by 1 3) }
    ensures second_repeat { IsFirstRepeat (event_seed 1 ∷ event_seed 2 ∷ event_seed 1 ∷ event_seed 2 ∷ [])
        (shared_by 2 4) → ⊥ }
    ensures repeat_of_another { IsFirstRepeat (event_seed 1 ∷ event_seed 2 ∷ event_seed 1 ∷ []) (shared_by 2 3) → ⊥ }
    ensures repeat_of_itself { IsFirstRepeat (event_seed 1 ∷ event_seed 1 ∷ []) (shared_by 2 2) → ⊥ }
    ensures row_0 { IsFirstRepeat (event_seed 1 ∷ event_seed 1 ∷ []) (shared_by 0 2) → ⊥ }
    ensures past_the_rows { IsFirstRepeat (event_seed 1 ∷ []) (shared_by 2 3) → ⊥ }

    ensures shared { IsSharedIn (event_seed 1 ∷ event_seed 1 ∷ []) (Some (shared_by 1 2)) }
    ensures shared_is_missed { IsSharedIn (event_seed 1 ∷ event_seed 1 ∷ []) None → ⊥ }
    ensures none { IsSharedIn (event_seed 1 ∷ event_seed 2 ∷ []) None }
    ensures none_is_told { IsSharedIn (event_seed 1 ∷ event_seed 2 ∷ []) (Some (shared_by 1 2)) → ⊥ }
{}
