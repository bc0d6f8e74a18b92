ghost use Rattle.std.specs.Prelude.{◌≡◌, ◌+◌, ◌<◌, ◌≤◌, ◌^◌, ◌⊎◌, ◌++◌, ℕ, pos, negsuc, true, false, List, [], ◌∷◌, map, codes, Option, Some, None, Ok, Err};
ghost use Rattle.program_edge.specs.declared.fault.OutsideFault.TheVariants.{Memory as OutsideMemory, CannotWrite as OutsideCannotWrite, NotText as OutsideNotText};
ghost use Rattle.program_edge.specs.Line.{line_of};
ghost use Rattle.hmac_core.specs.declared.hash.Hash.TheVariants.{Sha1, Sha256, Sha512};
ghost use Rattle.otp_core.specs.Hotp.{code_of};
ghost use Rattle.otp_core.specs.declared.digits.Digits.TheVariants.{Eight};
ghost use Rattle.secret_text.specs.declared.fault.SecretFault.{SecretFault};
ghost use Rattle.secret_text.specs.declared.fault.SecretFault.TheVariants.{BadCharacter, BadLength, Empty};
ghost use Rattle.oathtool_core.specs.Codes.{Matches, code_at};
ghost use Rattle.oathtool_core.specs.Examples.{GivesOnly, IsOr, all_lack_marks, all_lack_numbers, badly_marked, badly_numbered, times_from_100};
ghost use Rattle.oathtool_core.specs.Fault.{outside_fault_of, status_of};
ghost use Rattle.oathtool_core.specs.Key.{IsKeyOf, key_refusal};
ghost use Rattle.oathtool_core.specs.Offset.{HasNoNearest, HasNoOffset, IsLeastOffset, IsNearestOffset};
ghost use Rattle.oathtool_core.specs.Plan.{HasBadTime, HasKey, HasTimes, IsGenerator, IsNoTime, IsReady, IsTimeGiven, Stops, first_of, hash_of, moment_of, step_at, time_text};
ghost use Rattle.oathtool_core.specs.Run.{EndsSo, FindsNone, IsPrinted, IsUnmatched, otp_text};
ghost use Rattle.oathtool_core.specs.StepSize.{step_size_of};
ghost use Rattle.oathtool_core.specs.Time.{fields_of};
ghost use Rattle.oathtool_core.specs.TimeFault.{fault_of};
ghost use Rattle.oathtool_core.specs.Words.{HasWindow};
ghost use Rattle.oathtool_core.specs.declared.codes.Generator.{Generator};
ghost use Rattle.oathtool_core.specs.declared.fault.Fault.{Fault};
ghost use Rattle.oathtool_core.specs.declared.fault.Fault.TheVariants.{BadTime, BadStepSize, BadKey, NoClock, BeforeStart, FactorTooLarge, NoMatch, Memory, CannotWrite, NotText};
ghost use Rattle.oathtool_core.specs.declared.plan.Plan.{Plan};
ghost use Rattle.oathtool_core.specs.declared.plan.Times.{Times};
ghost use Rattle.oathtool_core.specs.declared.time.TimeFault.TheVariants.{BadTime as NoTime, Memory as NoMemory};
ghost use Rattle.oathtool_core.specs.declared.words.Mode.TheVariants.{Hotp, Totp};
ghost use Rattle.oathtool_core.specs.declared.words.Words.{Words};

/// Worked cases. Times as text. The date of 2005 is from RFC 6238, Appendix B.
pub fn times_are_worked()
    ensures marks { all_lack_marks badly_marked ≡ true }
    ensures numbers { all_lack_numbers badly_numbered ≡ true }
    ensures fields { fields_of (codes "2005-03-18 01:58:29 UTC")
        ≡ Some (record { year = 2005; month = 3; day = 18; hour = 1; minute = 58; second = 29 }) }
    ensures first_second { GivesOnly (codes "@0") 0 }
    ensures last_second { GivesOnly (codes "@1099511627775") 1099511627775 }
    ensures beyond_the_last { IsNoTime (codes "@1099511627776") }
    ensures no_seconds { IsNoTime (codes "@") }
    ensures no_mark { IsNoTime (codes "59") }
    ensures first_date { GivesOnly (codes "1970-01-01 00:00:00 UTC") 0 }
    ensures end_of_day { GivesOnly (codes "1970-01-01 23:59:59 UTC") 86399 }
    ensures before_the_first { IsNoTime (codes "1969-12-31 23:59:59 UTC") }
    ensures date_of_2005 { GivesOnly (codes "2005-03-18 01:58:29 UTC") 1111111109 }
    ensures leap_day { GivesOnly (codes "2000-02-29 00:00:00 UTC") 951782400 }
    ensures no_leap_day { IsNoTime (codes "2100-02-29 00:00:00 UTC") }
    ensures hour_24 { IsNoTime (codes "2005-03-18 24:58:29 UTC") }
    ensures minute_60 { IsNoTime (codes "2005-03-18 01:60:29 UTC") }
    ensures second_60 { IsNoTime (codes "2005-03-18 01:58:60 UTC") }
{}

/// Worked cases. The step size, the key, the first factor, the parameters of codes, and the exit status of each fault.
pub fn plans_are_worked()
    ensures step_sizes { map step_size_of
        (codes "1" ∷ codes "30s" ∷ codes "1000000" ∷ codes "1000000s" ∷ codes "0" ∷ codes "0s" ∷ codes "1000001"
        ∷ codes "30S" ∷ codes "30ss" ∷ codes "s" ∷ codes "" ∷ [])
        ≡ Some 1 ∷ Some 30 ∷ Some 1000000 ∷ Some 1000000 ∷ None ∷ None ∷ None ∷ None ∷ None ∷ None ∷ None ∷ [] }
    ensures key_refusals { key_refusal true (codes "ME") ∷ key_refusal false (codes "61")
        ∷ key_refusal true (codes "61")
        ∷ key_refusal false (codes "ME") ∷ key_refusal true (codes "M") ∷ key_refusal false (codes "6") ∷ []
        ≡ None ∷ None ∷ Some (BadCharacter 1) ∷ Some (BadCharacter 0) ∷ Some BadLength ∷ Some BadLength ∷ [] }
    ensures key_in_base32 { IsKeyOf true (codes "ME") (97 ∷ []) }
    ensures no_other_key { IsKeyOf true (codes "ME") (98 ∷ []) → ⊥ }
    ensures key_in_hexadecimal { IsKeyOf false (codes "61") (97 ∷ []) }
    ensures moments { moment_of (Some 7) None ∷ moment_of (Some 7) (Some 5) ∷ moment_of None None
        ∷ moment_of None (Some 1099511627775) ∷ moment_of None (Some 1099511627776) ∷ []
        ≡ Some 7 ∷ Some 7 ∷ None ∷ Some 1099511627775 ∷ None ∷ [] }
    ensures steps { map (step_at (times_from_100 None))
        (None ∷ Some 99 ∷ Some 100 ∷ Some 129 ∷ Some 130 ∷ [])
        ≡ Err NoClock ∷ Err BeforeStart ∷ Ok 0 ∷ Ok 0 ∷ Ok 1 ∷ [] }
    ensures first_counter { (words : Words) →
        first_of (record words { mode = Hotp; counter = 7; window = 3 }) (times_from_100 (Some 99)) None ≡ Ok 7 }
    ensures first_step_of_time { (words : Words) →
        first_of (record words { mode = Totp Sha256; counter = 7; window = 3 }) (times_from_100 (Some 160)) (Some 130)
        ≡ Ok 2 }
    ensures first_step_of_clock { (words : Words) →
        first_of (record words { mode = Totp Sha1; counter = 7; window = 3 }) (times_from_100 None) (Some 130) ≡ Ok 1 }
    ensures no_times { (words : Words) (clock : Option ℕ) (plan : Plan) → HasBadTime words
        → IsReady words clock plan → ⊥ }
    ensures no_step_size { (words : Words) (clock : Option ℕ) (plan : Plan)
        → step_size_of words.step_size.now ≡ None → IsReady words clock plan → ⊥ }
    ensures one_step { (words : Words) (plan : Plan) → words.start.now ≡ codes "@0"
        → time_text words ≡ Some (codes "@59") → words.step_size.now ≡ codes "30"
        → IsReady (record words { mode = Totp Sha1; window = 0 }) None plan → plan.first ≡ 1 }
    ensures last_factor { (words : Words) (clock : Option ℕ) (plan : Plan) →
        IsReady (record words { window = 1 }) clock (record plan { first = 4611686018427387903 }) → ⊥ }
    ensures given_times { (text : List ℕ) (seconds : ℕ) →
        IsTimeGiven None None × (IsTimeGiven None (Some seconds) → ⊥) × (IsTimeGiven (Some text) None → ⊥) }
    ensures given_time { IsTimeGiven (Some (codes "@7")) (Some 7) }
    ensures texts { (words : Words) → let given = record words { time = Some words.start; otp = Some words.key } in
        (time_text given ≡ Some words.start.now) × (otp_text given ≡ Some words.key.now) }
    ensures no_texts { (words : Words) → let given = record words { time = None; otp = None } in
        (time_text given ≡ None) × (otp_text given ≡ None) }
    ensures bad_start { (words : Words) → IsNoTime words.start.now → HasBadTime words }
    ensures bad_now { (words : Words) (text : List ℕ) → time_text words ≡ Some text → IsNoTime text
        → HasBadTime words }
    ensures hashes { map hash_of (Hotp ∷ Totp Sha1 ∷ Totp Sha256 ∷ Totp Sha512 ∷ [])
        ≡ Sha1 ∷ Sha1 ∷ Sha256 ∷ Sha512 ∷ [] }
    ensures generator { (words : Words) (secret : List ℕ) (generator : Generator) →
        IsGenerator (record words { mode = Totp Sha512; digits = Eight }) secret generator →
        (generator.hash ≡ Sha512) × (generator.key.now ≡ secret) × (generator.digits ≡ Eight) }
    ensures window { (words : Words) → HasWindow (record words { window = 1000 })
        × (HasWindow (record words { window = 1001 }) → ⊥) }
    ensures statuses { map status_of
        (BadTime ∷ BadStepSize ∷ BadKey Empty ∷ NoClock ∷ BeforeStart ∷ FactorTooLarge ∷ NoMatch ∷ Memory ∷ CannotWrite
        ∷ NotText ∷ [])
        ≡ 2 ∷ 2 ∷ 1 ∷ 1 ∷ 2 ∷ 2 ∷ 1 ∷ 1 ∷ 1 ∷ 2 ∷ [] }
    ensures outside_faults { map outside_fault_of (OutsideMemory ∷ OutsideCannotWrite ∷ OutsideNotText ∷ [])
        ≡ Memory ∷ CannotWrite ∷ NotText ∷ [] }
    ensures time_faults { map fault_of (NoTime ∷ NoMemory ∷ []) ≡ BadTime ∷ Memory ∷ [] }
{}

/// Order of faults: the first fault in this order ends a run, and nothing is printed.
///
/// The order is: a bad time, a bad step size, a bad key, a fault of the first factor, a factor out of range. The
/// allocator may refuse memory at any step.
pub fn faults_are_in_order()
    ensures time { (words : Words) (clock : Option ℕ) (fault : Fault) → HasBadTime words
        → Stops words clock fault → IsOr BadTime fault }
    ensures step_size { (words : Words) (clock : Option ℕ) (fault : Fault) → (HasBadTime words → ⊥)
        → step_size_of words.step_size.now ≡ None → Stops words clock fault → IsOr BadStepSize fault }
    ensures key { (words : Words) (clock : Option ℕ) (fault : Fault) (times : Times) (refusal : SecretFault)
        → HasTimes words times → key_refusal words.is_base32 words.key.now ≡ Some refusal
        → Stops words clock fault → IsOr (BadKey refusal) fault }
    ensures first { (words : Words) (clock : Option ℕ) (fault : Fault) (times : Times) (secret : List ℕ)
        (refusal : Fault)
        → HasTimes words times → HasKey words secret → first_of words times clock ≡ Err refusal
        → Stops words clock fault → IsOr refusal fault }
    ensures range { (words : Words) (clock : Option ℕ) (fault : Fault) (times : Times) (secret : List ℕ) (first : ℕ)
        → HasTimes words times → HasKey words secret → first_of words times clock ≡ Ok first
        → 2 ^ 62 ≤ first + words.window → Stops words clock fault → IsOr FactorTooLarge fault }
    ensures none { (words : Words) (clock : Option ℕ) (fault : Fault) (times : Times) (secret : List ℕ) (first : ℕ)
        → HasTimes words times → HasKey words secret → first_of words times clock ≡ Ok first
        → first + words.window < 2 ^ 62 → Stops words clock fault → fault ≡ Memory }
{}

/// Worked cases. The offset of an OTP, by the codes that it equals, and the output.
pub fn offsets_are_worked()
    // From counter 9 on, with a window of 1: the least offset.
    ensures counter { (generator : Generator) (otp : List ℕ) → (Matches generator otp 9 → ⊥) → Matches generator otp 10
        → IsLeastOffset generator otp 9 1 1 }
    ensures counter_beyond { (generator : Generator) (otp : List ℕ) → IsLeastOffset generator otp 9 1 2 → ⊥ }
    ensures counter_later { (generator : Generator) (otp : List ℕ) → Matches generator otp 10
        → IsLeastOffset generator otp 9 3 2 → ⊥ }
    ensures counter_unmatched { (generator : Generator) (otp : List ℕ) → (Matches generator otp 11 → ⊥)
        → IsLeastOffset generator otp 9 3 2 → ⊥ }
    ensures counter_none { (generator : Generator) (otp : List ℕ) → (Matches generator otp 9 → ⊥)
        → (Matches generator otp 10 → ⊥) → HasNoOffset generator otp 9 1 }
    ensures counter_some { (generator : Generator) (otp : List ℕ) → HasNoOffset generator otp 9 1
        → (Matches generator otp 9 → ⊥) × (Matches generator otp 10 → ⊥) }

    // Around step 9, with a window of 1: the nearest step, and of two the one before.
    ensures before { (generator : Generator) (otp : List ℕ) → (Matches generator otp 9 → ⊥) → Matches generator otp 8
        → IsNearestOffset generator otp 9 1 (negsuc 0) }
    ensures after_unmatched_before { (generator : Generator) (otp : List ℕ) → (Matches generator otp 8 → ⊥)
        → (Matches generator otp 9 → ⊥) → Matches generator otp 10 → IsNearestOffset generator otp 9 1 (pos 1) }
    ensures after_matched_before { (generator : Generator) (otp : List ℕ) → Matches generator otp 8
        → IsNearestOffset generator otp 9 1 (pos 1) → ⊥ }
    ensures at_the_step { (generator : Generator) (otp : List ℕ) → Matches generator otp 9
        → IsNearestOffset generator otp 9 1 (pos 0) × (IsNearestOffset generator otp 9 1 (pos 1) → ⊥)
        × (IsNearestOffset generator otp 9 1 (negsuc 0) → ⊥) }
    ensures step_unmatched { (generator : Generator) (otp : List ℕ) → (Matches generator otp 8 → ⊥)
        → (Matches generator otp 10 → ⊥) → (IsNearestOffset generator otp 9 1 (pos 1) → ⊥)
        × (IsNearestOffset generator otp 9 1 (negsuc 0) → ⊥) }
    ensures nearer { (generator : Generator) (otp : List ℕ)
        → (Matches generator otp 8 → (IsNearestOffset generator otp 9 3 (pos 2) → ⊥)
        × (IsNearestOffset generator otp 9 3 (negsuc 1) → ⊥))
        × (Matches generator otp 10 → (IsNearestOffset generator otp 9 3 (pos 2) → ⊥)
        × (IsNearestOffset generator otp 9 3 (negsuc 1) → ⊥)) }
    ensures step_beyond { (generator : Generator) (otp : List ℕ) → (IsNearestOffset generator otp 9 1 (pos 2) → ⊥)
        × (IsNearestOffset generator otp 9 1 (negsuc 1) → ⊥) }
    ensures below_0 { (generator : Generator) (otp : List ℕ) → IsNearestOffset generator otp 1 5 (negsuc 1) → ⊥ }
    ensures step_none { (generator : Generator) (otp : List ℕ) → (Matches generator otp 8 → ⊥)
        → (Matches generator otp 9 → ⊥) → (Matches generator otp 10 → ⊥) → HasNoNearest generator otp 9 1 }
    ensures step_some { (generator : Generator) (otp : List ℕ) → HasNoNearest generator otp 9 1
        → (Matches generator otp 8 → ⊥) × (Matches generator otp 9 → ⊥) × (Matches generator otp 10 → ⊥) }

    // The output, and an OTP that is none of the codes.
    ensures matches { (generator : Generator) (otp : List ℕ) → Matches generator otp 9 → code_at generator 9 ≡ otp }
    ensures code { (generator : Generator) → code_at (record generator { hash = Sha256; digits = Eight }) 5
        ≡ code_of Sha256 generator.key.now 5 8 }
    ensures codes { (generator : Generator) (text : List ℕ) → IsPrinted Hotp None generator 5 1 text
        → text ≡ line_of (code_at generator 5) ++ line_of (code_at generator 6) }
    ensures least_printed { (generator : Generator) (otp : List ℕ) → IsLeastOffset generator otp 9 20 12
        → IsPrinted Hotp (Some otp) generator 9 20 (codes "12" ++ 10 ∷ []) }
    ensures nearest_printed { (generator : Generator) (otp : List ℕ) → IsNearestOffset generator otp 9 20 (negsuc 2)
        → IsPrinted (Totp Sha1) (Some otp) generator 9 20 (codes "-3" ++ 10 ∷ []) }
    ensures nearest_after_printed { (generator : Generator) (otp : List ℕ) → IsNearestOffset generator otp 9 20 (pos 3)
        → IsPrinted (Totp Sha1) (Some otp) generator 9 20 (codes "3" ++ 10 ∷ []) }
    ensures least_alone { (generator : Generator) (otp text : List ℕ) → Matches generator otp 9
        → IsPrinted Hotp (Some otp) generator 9 1 text → text ≡ codes "0" ++ 10 ∷ [] }
    ensures nearest_alone { (generator : Generator) (otp text : List ℕ) → Matches generator otp 9
        → IsPrinted (Totp Sha1) (Some otp) generator 9 1 text → text ≡ codes "0" ++ 10 ∷ [] }
    ensures unmatched { (generator : Generator) (otp : List ℕ) → Matches generator otp 9
        → (IsUnmatched Hotp (Some otp) generator 9 1 → ⊥) × (IsUnmatched (Totp Sha1) (Some otp) generator 9 1 → ⊥) }
{}

/// Ends: a failed run has written nothing, unless the output failed. A successful run has printed exactly what its
/// words ask for.
///
/// Assume that the times, the key and the first factor are good, and that the window is in range. Then a run fails only
/// if the allocator refuses memory, the output fails, or nothing matches. Nothing matches only if the words have an OTP
/// and it is none of the codes.
pub fn ends_are_told()
    ensures nothing_written { (words : Words) (clock : Option ℕ) (fault : Fault) (text : List ℕ)
        → EndsSo words clock (Err fault) (Some []) (Some text) → (fault ≡ CannotWrite → ⊥) → text ≡ [] }
    ensures nothing_known { (words : Words) (clock : Option ℕ) (fault : Fault)
        → EndsSo words clock (Err fault) (Some []) None → fault ≡ CannotWrite }
    ensures nothing_stops { (words : Words) (clock : Option ℕ) (fault : Fault) (times : Times) (secret : List ℕ)
        (first : ℕ) (old new : Option (List ℕ))
        → HasTimes words times → HasKey words secret → first_of words times clock ≡ Ok first
        → first + words.window < 2 ^ 62 → EndsSo words clock (Err fault) old new
        → (fault ≡ Memory) ⊎ ((fault ≡ NoMatch) ⊎ (fault ≡ CannotWrite)) }
    ensures no_otp { (words : Words) (clock : Option ℕ) (old new : Option (List ℕ))
        → FindsNone (record words { otp = None }) clock old new → ⊥ }
    ensures matched { (words : Words) (clock : Option ℕ) (old new : Option (List ℕ)) → words.key.now ≡ codes "61"
        → otp_text words ≡ Some (code_of Sha1 (97 ∷ []) 7 8)
        → FindsNone (record words {
          mode = Hotp;
          counter = 7;
          window = 0;
          digits = Eight;
          is_base32 = false;
        }) clock old new → ⊥ }
    ensures one_code { (words : Words) (clock : Option ℕ) (text : List ℕ) → words.key.now ≡ codes "61"
        → EndsSo (record words {
          mode = Hotp;
          counter = 7;
          window = 0;
          digits = Eight;
          is_base32 = false;
          otp = None;
        }) clock (Ok tt) (Some []) (Some text)
        → text ≡ line_of (code_of Sha1 (97 ∷ []) 7 8) }
{}
