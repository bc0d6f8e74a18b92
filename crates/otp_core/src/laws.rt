ghost use Rattle.std.specs.Prelude.{◌≡◌, ◌<◌, ◌==◌, nat_le, if◌then◌else◌, ℕ, true, pos, negsuc, [], ◌∷◌, codes, map, replicate};
ghost use Rattle.std.specs.List.{range_with_len};
ghost use Rattle.hmac_core.specs.declared.hash.Hash.{Hash};
ghost use Rattle.otp_core.specs.Acceptance.{HasMajority, HaveSingleUse, KeepRealTimeOrder, LetsGo, majority_of, size};
ghost use Rattle.otp_core.specs.Code.{IsCode, decimal_digits};
ghost use Rattle.otp_core.specs.Codes.{AreCodesOf};
ghost use Rattle.otp_core.specs.Digits.{count_of};
ghost use Rattle.otp_core.specs.Examples.{accepted, accepted_at, accepted_at_node, accepted_of_other, codes_of_empty_key, floor_back_in, floor_of_first, floor_until, secret_of_20, secret_of_32, secret_of_64, witnessed};
ghost use Rattle.otp_core.specs.Gate.{IsGate, clear_gate, with_failure};
ghost use Rattle.otp_core.specs.Hotp.{code_of, factor_mac, truncation_of};
ghost use Rattle.otp_core.specs.Limits.{AreLimits, allowed_drift, default_limits, limits_of};
ghost use Rattle.otp_core.specs.Range.{IsDrift, IsFactor, IsMoment, IsNext, IsSecret};
ghost use Rattle.otp_core.specs.Totp.{step_of};
ghost use Rattle.otp_core.specs.declared.digits.Digits.{Digits};
ghost use Rattle.otp_core.specs.declared.hotp.Codes.{Codes};

/// Worked cases. The vectors of RFC 4226, appendix D, and RFC 6238, appendix B.
pub fn codes_are_worked()
    ensures truncation { truncation_of (factor_mac Hash.Sha1 secret_of_20 0) ≡ 0x4c93cf18 }
    ensures table { map (λ counter. code_of Hash.Sha1 secret_of_20 counter 6) (range_with_len 0 10)
        ≡ codes "755224" ∷ codes "287082" ∷ codes "359152" ∷ codes "969429" ∷ codes "338314" ∷ codes "254676"
        ∷ codes "287922" ∷ codes "162583" ∷ codes "399871" ∷ codes "520489" ∷ [] }
    ensures seven_digits { code_of Hash.Sha1 secret_of_20 0 7 ≡ codes "4755224" }
    ensures eight_digits { code_of Hash.Sha1 secret_of_20 0 8 ≡ codes "84755224" }
    ensures sha1 { code_of Hash.Sha1 secret_of_20 (step_of 59 0 30) 8 ≡ codes "94287082" }
    ensures sha256 { code_of Hash.Sha256 secret_of_32 (step_of 59 0 30) 8 ≡ codes "46119246" }
    ensures sha512 { code_of Hash.Sha512 secret_of_64 (step_of 59 0 30) 8 ≡ codes "90693936" }
    ensures late { code_of Hash.Sha1 secret_of_20 (step_of 20000000000 0 30) 8 ≡ codes "65353130" }
    ensures zeros_before { decimal_digits 6 42 ≡ codes "000042" }
{}

/// Worked cases. The ranges of the numbers at their ends, and time steps.
pub fn ranges_are_worked()
    ensures factors { IsFactor 4611686018427387903 × (IsFactor 4611686018427387904 → ⊥) }
    ensures nexts { IsNext 4611686018427387904 × (IsNext 4611686018427387905 → ⊥) }
    ensures moments { IsMoment 1099511627775 × (IsMoment 1099511627776 → ⊥) }
    ensures secrets { (IsSecret [] → ⊥) × IsSecret (7 ∷ []) × IsSecret (replicate 128 7)
        × (IsSecret (replicate 129 7) → ⊥) }
    ensures limits { AreLimits (record { look_ahead = 100; skew = 10; range = 1000; drift = 10 })
        × (AreLimits (limits_of 101 0 0) → ⊥) × (AreLimits (limits_of 0 11 0) → ⊥)
        × (AreLimits (limits_of 0 0 1001) → ⊥) × (AreLimits (record (limits_of 0 0 0) { drift = 11 }) → ⊥) }
    ensures defaults { default_limits ≡ record { look_ahead = 10; skew = 1; range = 100; drift = 0 } }
    ensures counts { (count_of Digits.Six ≡ 6) × (count_of Digits.Seven ≡ 7) × (count_of Digits.Eight ≡ 8) }
    ensures codes { IsCode (codes "012345") × IsCode (codes "23456789") }
    ensures short_code { IsCode (codes "12345") → ⊥ }
    ensures long_code { IsCode (codes "123456789") → ⊥ }
    ensures no_digits { (IsCode (codes "12345/") → ⊥) × (IsCode (codes ":23456") → ⊥) }
    ensures steps { (step_of 29 0 30 ≡ 0) × (step_of 59 0 30 ≡ 1) × (step_of 60 0 30 ≡ 2) × (step_of 119 0 60 ≡ 1)
        × (step_of 159 100 30 ≡ 1) }
{}

/// Worked cases. A failure, a gate without failures, and the ranges of a gate's numbers.
pub fn gates_are_worked()
    ensures after_failures { map (λ fails. with_failure (record { fails = fails; until = 3 }) 100)
        (0 ∷ 1 ∷ 9999 ∷ 10000 ∷ [])
        ≡ record { fails = 1; until = 105 } ∷ record { fails = 2; until = 110 }
        ∷ record { fails = 10000; until = 50100 } ∷ record { fails = 10000; until = 50100 } ∷ [] }
    ensures clear { clear_gate ≡ record { fails = 0; until = 0 } }
    ensures widest { IsGate 10000 1099511677776 }
    ensures too_many_failures { IsGate 10001 0 → ⊥ }
    ensures too_late { IsGate 0 1099511677777 → ⊥ }
{}

/// Worked cases. The ranges of a drift at their ends, and the nearest allowed drift.
pub fn drifts_are_worked()
    ensures drifts { IsDrift (negsuc 9) × IsDrift (pos 10) }
    ensures beyond { (IsDrift (negsuc 10) → ⊥) × (IsDrift (pos 11) → ⊥) }
    ensures allowed { map (allowed_drift (record default_limits { drift = 3 }))
        (negsuc 3 ∷ negsuc 2 ∷ negsuc 1 ∷ pos 0 ∷ pos 3 ∷ pos 4 ∷ [])
        ≡ negsuc 2 ∷ negsuc 2 ∷ negsuc 1 ∷ pos 0 ∷ pos 3 ∷ pos 3 ∷ [] }
    ensures none_allowed { map (allowed_drift default_limits) (negsuc 9 ∷ pos 0 ∷ pos 10 ∷ [])
        ≡ pos 0 ∷ pos 0 ∷ pos 0 ∷ [] }
{}

/// Counterexamples: each promise of acceptances and codes fails for a minimal one.
///
/// One code twice, and an older code after a newer one, break the promises of acceptances. They do so if the factors
/// overlap at one end alone, at any two nodes, and with another acceptance between them. Codes of another key or of
/// another length break the promise of codes.
pub fn acceptances_can_be_broken()
    ensures twice { HaveSingleUse (accepted_at 0 5 ∷ accepted_at 1 5 ∷ []) → ⊥ }
    ensures twice_at_hi { HaveSingleUse (accepted 0 0 4 5 ∷ accepted_at 1 5 ∷ []) → ⊥ }
    ensures twice_at_lo { HaveSingleUse (accepted 0 0 4 5 ∷ accepted_at 1 4 ∷ []) → ⊥ }
    ensures both_at_once { HaveSingleUse (accepted_at 0 5 ∷ accepted_of_other 0 6 ∷ []) → ⊥ }
    ensures both_at_once_at_nodes { (node : ℕ) →
        HaveSingleUse (accepted_at 0 5 ∷ accepted_of_other 1 9 ∷ accepted_at_node node 0 6 ∷ []) → ⊥ }
    ensures twice_at_nodes { (node : ℕ) →
        HaveSingleUse (accepted_at 0 5 ∷ accepted_of_other 1 9 ∷ accepted_at_node node 2 5 ∷ []) → ⊥ }
    ensures two_tokens { HaveSingleUse (accepted_at 0 5 ∷ accepted_of_other 1 5 ∷ []) }
    ensures two_factors { HaveSingleUse (accepted 0 0 4 5 ∷ accepted_at 1 6 ∷ []) }
    ensures older { KeepRealTimeOrder (accepted_at 0 5 ∷ accepted_at 1 4 ∷ []) → ⊥ }
    ensures older_listed_first { KeepRealTimeOrder (accepted_at 1 4 ∷ accepted_at 0 5 ∷ []) → ⊥ }
    ensures again { KeepRealTimeOrder (accepted_at 0 5 ∷ accepted_at 1 5 ∷ []) → ⊥ }
    ensures again_at_hi { KeepRealTimeOrder (accepted 0 0 4 5 ∷ accepted_at 1 5 ∷ []) → ⊥ }
    ensures again_at_lo { KeepRealTimeOrder (accepted_at 0 5 ∷ accepted 1 1 5 6 ∷ []) → ⊥ }
    ensures older_at_nodes { (node : ℕ) →
        KeepRealTimeOrder (accepted_at 0 5 ∷ accepted_of_other 1 9 ∷ accepted_at_node node 2 4 ∷ []) → ⊥ }
    ensures at_once { KeepRealTimeOrder (accepted 0 1 5 5 ∷ accepted 1 2 4 4 ∷ []) }
    ensures older_of_other { KeepRealTimeOrder (accepted_at 0 5 ∷ accepted_of_other 1 4 ∷ []) }
    ensures codes_of_a_key { AreCodesOf codes_of_empty_key Hash.Sha1 [] 6 }
    ensures codes_of_two_keys { (codes : Codes) → AreCodesOf codes Hash.Sha1 [] 6 →
        AreCodesOf codes Hash.Sha1 (7 ∷ []) 6 → ⊥ }
    ensures codes_of_two_lengths { (codes : Codes) → AreCodesOf codes Hash.Sha1 [] 6 →
        AreCodesOf codes Hash.Sha1 [] 7 → ⊥ }
{}

/// Counterexamples: witnesses that give up the factors too early, too late or not for good, and too few witnesses.
pub fn witnesses_can_be_refused()
    ensures ends { LetsGo (floor_until 1) witnessed 1 1 × LetsGo (floor_until 3) witnessed 1 3 }
    ensures early { LetsGo (floor_until 0) witnessed 1 0 → ⊥ }
    ensures late { LetsGo (floor_until 4) witnessed 1 4 → ⊥ }
    ensures let_go_before { LetsGo (floor_until 1) witnessed 1 2 → ⊥ }
    ensures one_not_free { LetsGo (λ node token event. if nat_le event 2 then (if node == 1 then 4 else 5) else 6)
        witnessed 2 2 → ⊥ }
    ensures one_too_few { LetsGo (λ node token event. if nat_le event 2 then 4 else 5) witnessed 1 2 → ⊥ }
    ensures back { (later : ℕ) → 2 < later → LetsGo (floor_back_in later) witnessed 1 2 → ⊥ }
    ensures majorities { map majority_of (range_with_len 1 9)
        ≡ 1 ∷ 2 ∷ 2 ∷ 3 ∷ 3 ∷ 4 ∷ 4 ∷ 5 ∷ 5 ∷ [] }
    ensures members { (size 3 (λ node. true) ≡ 3) × (size 3 (λ node. node == 1) ≡ 1) × (size 3 (λ node. node == 3) ≡ 1)
        × (size 3 (λ node. node == 0) ≡ 0) × (size 3 (λ node. node == 4) ≡ 0) }
    ensures enough { HasMajority 1 (floor_of_first 1) witnessed × HasMajority 2 (floor_of_first 2) witnessed
        × HasMajority 3 (floor_of_first 2) witnessed × HasMajority 4 (floor_of_first 3) witnessed }
    ensures too_few { (HasMajority 1 (floor_of_first 0) witnessed → ⊥)
        × (HasMajority 2 (floor_of_first 1) witnessed → ⊥) × (HasMajority 3 (floor_of_first 1) witnessed → ⊥)
        × (HasMajority 4 (floor_of_first 2) witnessed → ⊥) }
{}
