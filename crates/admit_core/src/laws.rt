ghost use Rattle.std.specs.Prelude.{◌≡◌, ℕ, ℤ, pos, negsuc, ◌-◌, ◌*◌, ◌+◌, ◌<◌, ◌≤◌, ◌↔◌, List, [], ◌∷◌, ◌++◌, codes, length, map, replicate, Some, None, Contains};
ghost use Rattle.std.specs.List.{range_with_len};
ghost use Rattle.hmac_core.specs.declared.hash.Hash.{Hash};
ghost use Rattle.admit_core.specs.Drift.{kept_drift, token_step};
ghost use Rattle.admit_core.specs.Entitled.{IsEntitled};
ghost use Rattle.admit_core.specs.Examples.{checked, drifting, right, some_limits, token_of, token_of_equal_codes, token_of_kind, token_of_sha256, token_with, wrong};
ghost use Rattle.admit_core.specs.Fit.{Fits, InWindowOf, IsLeastBetween, NoneBetween, least_fit, IsLeastFit, NothingFits};
ghost use Rattle.otp_core.specs.Submission.{Check, Resync, Submission};
ghost use Rattle.otp_core.specs.Gate.{clear_gate, with_failure};
ghost use Rattle.admit_core.specs.Password.{PasswordFits};
ghost use Rattle.admit_core.specs.Throttle.{Result, Failed, Accepted, counted_failures, gate_after, wait_after, IsOpenAfter, AreGated, SpacesFailures};
ghost use Rattle.otp_core.specs.Examples.{secret_of_20};
ghost use Rattle.otp_core.specs.Limits.{Limits, limits_of};
ghost use Rattle.otp_core.specs.declared.digits.Digits.{Digits};
ghost use Rattle.admit_core.specs.Undrifted.{InUndriftedWindow, undrifted_numbers};
ghost use Rattle.admit_core.specs.Window.{InCheckWindow, InResyncWindow, InWindow, AreEnds, window_numbers};
ghost use Rattle.token_file.specs.Credential.{Credential, period_of};
ghost use Rattle.token_file.specs.declared.token.Kind.{Kind};
ghost use Rattle.token_file.specs.declared.token.Password.{Password};

/// Gates: the two numbers of a gate tell when the token is open, as the list of results does.
///
/// Each failure changes them as [`Gate::fail`](crate::Gate::fail) does, and each acceptance as
/// [`Gate::clear`](crate::Gate::clear) does.
pub fn gate_keeps_throttle()
    ensures start { gate_after [] ≡ clear_gate }
    ensures failed { (results : List Result) (moment : ℕ) →
        gate_after (Failed moment ∷ results) ≡ with_failure (gate_after results) moment }
    ensures accepted { (results : List Result) → gate_after (Accepted ∷ results) ≡ clear_gate }
    ensures open { (results : List Result) (moment : ℕ) →
        ((gate_after results).until ≤ moment) ↔ IsOpenAfter results moment }
    ensures wait { (results : List Result) (moment : ℕ) →
        (gate_after results).until - moment ≡ wait_after results moment }
{}

/// Throttle: k consecutive failures span at least 5k(k - 1)/2 seconds, for k up to 10,000.
///
/// Each failure must have come while the token was open.
pub fn failures_are_spaced()
    ensures { (results : List Result) → AreGated results → SpacesFailures results }
{}

/// Smallest fit: the first fit of a window's list is the smallest fit of the window, and exists exactly if something in
/// the window fits. The searches find it between the ends of the window.
pub fn least_fit_is_least()
    ensures some { (credential : Credential) (limits : Limits) (next : ℕ) (drift : ℤ) (moment : ℕ)
        (submission : Submission) (lo hi : ℕ) →
        (least_fit credential limits next drift moment submission ≡ Some (lo, hi))
        ↔ IsLeastFit credential limits next drift moment submission lo hi }
    ensures none { (credential : Credential) (limits : Limits) (next : ℕ) (drift : ℤ) (moment : ℕ)
        (submission : Submission) →
        (least_fit credential limits next drift moment submission ≡ None)
        ↔ NothingFits credential limits next drift moment submission }
    ensures numbers { (kind : Kind) (reach : ℕ) (limits : Limits) (next : ℕ) (drift : ℤ) (moment number : ℕ) →
        Contains (window_numbers kind reach limits next drift moment) number
        ↔ InWindow kind reach limits next drift moment number }

    // from the contracts of the windows and the searches
    ensures found { (credential : Credential) (limits : Limits) (next : ℕ) (drift : ℤ) (moment : ℕ)
        (submission : Submission) (first last lo hi : ℕ) →
        AreEnds (InWindowOf credential limits next drift moment submission) first last →
        IsLeastBetween credential first last submission lo hi →
        least_fit credential limits next drift moment submission ≡ Some (lo, hi) }
    ensures missed { (credential : Credential) (limits : Limits) (next : ℕ) (drift : ℤ) (moment : ℕ)
        (submission : Submission) (first last : ℕ) →
        AreEnds (InWindowOf credential limits next drift moment submission) first last →
        NoneBetween credential first last submission →
        least_fit credential limits next drift moment submission ≡ None }
    ensures empty { (credential : Credential) (limits : Limits) (next : ℕ) (drift : ℤ) (moment : ℕ)
        (submission : Submission) →
        ((number : ℕ) → InWindowOf credential limits next drift moment submission number → ⊥) →
        least_fit credential limits next drift moment submission ≡ None }
{}

/// Worked cases. The windows of event tokens and of time tokens at their ends.
pub fn windows_are_worked()
    ensures events { window_numbers Kind.Event 10 some_limits 7 (pos 0) 0 ≡ range_with_len 7 11 }
    ensures last_events { window_numbers Kind.Event 10 some_limits 4611686018427387902 (pos 0) 0
        ≡ 4611686018427387902 ∷ 4611686018427387903 ∷ [] }
    ensures no_events { window_numbers Kind.Event 10 some_limits 4611686018427387904 (pos 0) 0 ≡ [] }
    ensures steps { window_numbers Kind.Time30 10 some_limits 0 (pos 0) 0
        ∷ window_numbers Kind.Time30 10 some_limits 0 (pos 0) 59
        ∷ window_numbers Kind.Time30 10 some_limits 0 (pos 0) 90
        ∷ window_numbers Kind.Time30 10 some_limits 4 (pos 0) 90
        ∷ window_numbers Kind.Time30 10 some_limits 5 (pos 0) 90
        ∷ window_numbers Kind.Time60 10 some_limits 0 (pos 0) 59
        ∷ window_numbers Kind.Time60 10 some_limits 0 (pos 0) 120
        ∷ window_numbers Kind.Time30 10 (limits_of 3 0 8) 0 (pos 0) 90
        ∷ window_numbers Kind.Time30 10 (limits_of 3 10 8) 0 (pos 0) 60 ∷ []
        ≡ (0 ∷ 1 ∷ []) ∷ (0 ∷ 1 ∷ 2 ∷ []) ∷ (2 ∷ 3 ∷ 4 ∷ []) ∷ (4 ∷ []) ∷ [] ∷ (0 ∷ 1 ∷ []) ∷ (1 ∷ 2 ∷ 3 ∷ [])
        ∷ (3 ∷ []) ∷ range_with_len 0 13 ∷ [] }
    ensures in_events { InWindow Kind.Event 10 some_limits 7 (pos 0) 0 7
        × InWindow Kind.Event 10 some_limits 7 (pos 0) 0 17
        × InWindow Kind.Event 10 some_limits 4611686018427387902 (pos 0) 0 4611686018427387903 }
    ensures no_event_below { InWindow Kind.Event 10 some_limits 7 (pos 0) 0 6 → ⊥ }
    ensures no_event_beyond { InWindow Kind.Event 10 some_limits 7 (pos 0) 0 18 → ⊥ }
    ensures no_event_at_the_end { InWindow Kind.Event 10 some_limits 4611686018427387902 (pos 0) 0
        4611686018427387904 → ⊥ }
    ensures check_window { InCheckWindow Kind.Event some_limits 7 (pos 0) 0 10
        × (InCheckWindow Kind.Event some_limits 7 (pos 0) 0 11 → ⊥) }
    ensures resync_window { InResyncWindow Kind.Event some_limits 7 (pos 0) 0 15
        × (InResyncWindow Kind.Event some_limits 7 (pos 0) 0 16 → ⊥) }
    ensures in_steps { InWindow Kind.Time30 10 some_limits 0 (pos 0) 90 2
        × InWindow Kind.Time30 10 some_limits 0 (pos 0) 90 4
        × InWindow Kind.Time60 10 some_limits 0 (pos 0) 120 1 × InWindow Kind.Time60 10 some_limits 0 (pos 0) 120 3
        × InWindow Kind.Time30 10 (limits_of 3 0 8) 0 (pos 0) 90 3 }
    ensures no_step_before { (InWindow Kind.Time30 10 some_limits 0 (pos 0) 90 1 → ⊥)
        × (InWindow Kind.Time30 10 (limits_of 3 0 8) 0 (pos 0) 90 2 → ⊥) }
    ensures no_step_after { (InWindow Kind.Time30 10 some_limits 0 (pos 0) 90 5 → ⊥)
        × (InWindow Kind.Time30 10 (limits_of 3 0 8) 0 (pos 0) 90 4 → ⊥) }
    ensures no_step_below { InWindow Kind.Time30 10 some_limits 4 (pos 0) 90 3 → ⊥ }
    ensures in_drifted_steps { InWindow Kind.Time30 10 (drifting 3) 0 (negsuc 1) 90 0
        × InWindow Kind.Time30 10 (drifting 3) 0 (negsuc 1) 90 2 × InWindow Kind.Time30 10 (drifting 3) 0 (pos 2) 90 4
        × InWindow Kind.Time30 10 (drifting 3) 0 (pos 2) 90 6 × InWindow Kind.Time30 10 (drifting 3) 0 (pos 9) 90 7 }
    ensures no_drifted_step { (InWindow Kind.Time30 10 (drifting 3) 0 (negsuc 1) 90 3 → ⊥)
        × (InWindow Kind.Time30 10 (drifting 3) 0 (pos 2) 90 3 → ⊥)
        × (InWindow Kind.Time30 10 (drifting 3) 0 (pos 2) 90 7 → ⊥)
        × (InWindow Kind.Time30 10 (drifting 3) 0 (pos 9) 90 8 → ⊥) }
    ensures ends { AreEnds (λ number. number < 5) 0 4 × (AreEnds (λ number. number < 5) 0 5 → ⊥)
        × (AreEnds (λ number. number < 5) 1 4 → ⊥) × (AreEnds (λ number. ⊥) 1 0 → ⊥) }
{}

/// Worked cases. The steps at the clocks of time tokens, the windows around them, and the drifts that acceptances keep.
///
/// One window is empty and one begins below 0. An event token has no drift.
pub fn drifts_are_worked()
    ensures clocks { map (λ drift. token_step (drifting 3) drift 8) (negsuc 9 ∷ negsuc 1 ∷ pos 0 ∷ pos 3 ∷ pos 10 ∷ [])
        ≡ pos 5 ∷ pos 6 ∷ pos 8 ∷ pos 11 ∷ pos 11 ∷ [] }
    ensures behind { window_numbers Kind.Time30 10 (drifting 10) 2 (pos 0) 120
        ∷ window_numbers Kind.Time30 10 (drifting 10) 4 (negsuc 0) 180
        ∷ window_numbers Kind.Time30 10 (drifting 10) 5 (negsuc 1) 240
        ∷ window_numbers Kind.Time30 10 (drifting 10) 6 (negsuc 2) 270 ∷ []
        ≡ (3 ∷ 4 ∷ 5 ∷ []) ∷ (4 ∷ 5 ∷ 6 ∷ []) ∷ (5 ∷ 6 ∷ 7 ∷ []) ∷ (6 ∷ 7 ∷ []) ∷ [] }
    ensures brought_nearer { window_numbers Kind.Time30 10 (drifting 1) 0 (negsuc 2) 240
        ∷ window_numbers Kind.Time30 10 (drifting 1) 0 (pos 3) 240
        ∷ window_numbers Kind.Time30 10 (drifting 0) 0 (negsuc 2) 240 ∷ []
        ≡ (6 ∷ 7 ∷ 8 ∷ []) ∷ (8 ∷ 9 ∷ 10 ∷ []) ∷ (7 ∷ 8 ∷ 9 ∷ []) ∷ [] }
    ensures ahead { window_numbers Kind.Time60 10 (drifting 10) 0 (pos 2) 120 ≡ 3 ∷ 4 ∷ 5 ∷ [] }
    ensures below_0 { window_numbers Kind.Time30 10 (drifting 10) 0 (negsuc 1) 30
        ∷ window_numbers Kind.Time30 10 (drifting 10) 0 (negsuc 0) 0
        ∷ window_numbers Kind.Time30 10 (drifting 10) 0 (negsuc 1) 0
        ∷ window_numbers Kind.Time30 10 (drifting 10) 0 (negsuc 9) 0 ∷ []
        ≡ (0 ∷ []) ∷ (0 ∷ []) ∷ [] ∷ [] ∷ [] }
    ensures events { window_numbers Kind.Event 3 (drifting 10) 7 (negsuc 4) 240
        ∷ window_numbers Kind.Event 3 (drifting 10) 7 (pos 5) 240 ∷ [] ≡ replicate 2 (7 ∷ 8 ∷ 9 ∷ 10 ∷ []) }
    ensures kept { kept_drift Kind.Time30 (drifting 10) 120 3 ∷ kept_drift Kind.Time30 (drifting 10) 180 4
        ∷ kept_drift Kind.Time30 (drifting 10) 240 5 ∷ kept_drift Kind.Time30 (drifting 10) 269 8
        ∷ kept_drift Kind.Time30 (drifting 10) 60 4 ∷ kept_drift Kind.Time60 (drifting 10) 120 3 ∷ []
        ≡ negsuc 0 ∷ negsuc 1 ∷ negsuc 2 ∷ pos 0 ∷ pos 2 ∷ pos 1 ∷ [] }
    ensures kept_nearer { kept_drift Kind.Time30 (drifting 1) 180 4 ∷ kept_drift Kind.Time30 (drifting 1) 60 4
        ∷ kept_drift Kind.Time30 (drifting 0) 120 3 ∷ [] ≡ negsuc 0 ∷ pos 1 ∷ pos 0 ∷ [] }
    ensures no_drift_of_events { kept_drift Kind.Event (drifting 10) 120 3 ≡ pos 0 }
{}

/// No drift: if the settings allow no drift, every window is the one without drift, whatever drift is stored, and an
/// acceptance keeps 0.
pub fn no_drift_is_as_before()
    ensures window { (kind : Kind) (reach : ℕ) (limits : Limits) (next : ℕ) (drift : ℤ) (moment number : ℕ) →
        limits.drift ≡ 0 → InWindow kind reach limits next drift moment number
        ↔ InUndriftedWindow (period_of kind) reach limits next moment number }
    ensures numbers { (kind : Kind) (reach : ℕ) (limits : Limits) (next : ℕ) (drift : ℤ) (moment : ℕ) →
        limits.drift ≡ 0 → window_numbers kind reach limits next drift moment
        ≡ undrifted_numbers (period_of kind) reach limits next moment }
    ensures kept { (kind : Kind) (limits : Limits) (moment hi : ℕ) →
        limits.drift ≡ 0 → kept_drift kind limits moment hi ≡ pos 0 }
{}

/// Worked cases. Fits of a token with the codes of the standards, within the window and past each of its ends.
pub fn fits_are_worked()
    ensures checks { least_fit (token_of_kind Kind.Event) some_limits 0 (pos 0) 0 (Check (codes "755224"))
        ∷ least_fit (token_of_kind Kind.Event) some_limits 0 (pos 0) 0 (Check (codes "969429"))
        ∷ least_fit (token_of_kind Kind.Event) some_limits 0 (pos 0) 0 (Check (codes "338314"))
        ∷ least_fit (token_of_kind Kind.Event) some_limits 1 (pos 0) 0 (Check (codes "338314"))
        ∷ least_fit (token_of_kind Kind.Event) some_limits 1 (pos 0) 0 (Check (codes "755224")) ∷ []
        ≡ Some (0, 0) ∷ Some (3, 3) ∷ None ∷ Some (4, 4) ∷ None ∷ [] }
    ensures resyncs { least_fit (token_of_kind Kind.Event) some_limits 0 (pos 0) 0
        (Resync (codes "162583") (codes "399871"))
        ∷ least_fit (token_of_kind Kind.Event) (limits_of 100 1 7) 0 (pos 0) 0
        (Resync (codes "162583") (codes "399871"))
        ∷ least_fit (token_of_kind Kind.Event) some_limits 0 (pos 0) 0 (Resync (codes "399871") (codes "162583"))
        ∷ least_fit (token_of_kind Kind.Event) some_limits 0 (pos 0) 0 (Resync (codes "287922") (codes "399871"))
        ∷ least_fit (token_of_kind Kind.Event) some_limits 1 (pos 0) 0 (Resync (codes "755224") (codes "287082")) ∷ []
        ≡ Some (7, 8) ∷ None ∷ None ∷ None ∷ None ∷ [] }
    ensures equal_codes { least_fit token_of_equal_codes some_limits 0 (pos 0) 0 (Check (codes "132707"))
        ∷ least_fit token_of_equal_codes some_limits 1 (pos 0) 0 (Check (codes "132707"))
        ∷ least_fit token_of_equal_codes some_limits 0 (pos 0) 0 (Resync (codes "132707") (codes "132707")) ∷ []
        ≡ Some (0, 0) ∷ Some (1, 1) ∷ Some (0, 1) ∷ [] }
    ensures steps { least_fit (token_of_kind Kind.Time30) some_limits 0 (pos 0) 59 (Check (codes "359152"))
        ∷ least_fit (token_of_kind Kind.Time30) some_limits 0 (pos 0) 59 (Check (codes "969429"))
        ∷ least_fit (token_of_kind Kind.Time30) some_limits 0 (pos 0) 59 (Resync (codes "287082") (codes "359152"))
        ∷ least_fit (token_of_kind Kind.Time60) some_limits 0 (pos 0) 59 (Check (codes "359152")) ∷ []
        ≡ Some (2, 2) ∷ None ∷ Some (1, 2) ∷ None ∷ [] }
    ensures drifts { map (λ drift. least_fit (token_of_kind Kind.Time30) (drifting 10) 2 drift 240
        (Check (codes "254676")))
        (negsuc 2 ∷ negsuc 1 ∷ negsuc 0 ∷ pos 0 ∷ []) ≡ Some (5, 5) ∷ Some (5, 5) ∷ None ∷ None ∷ [] }
    ensures other_codes { least_fit (token_of Password.NoneAllowed secret_of_20 Kind.Event Digits.Eight Hash.Sha1)
        some_limits 0 (pos 0) 0 (Check (codes "84755224")) ≡ Some (0, 0) }
    ensures other_hashes { least_fit token_of_sha256 some_limits 0 (pos 0) 59 (Check (codes "46119246")) ≡ Some (1, 1) }
    ensures fits { Fits (token_of_kind Kind.Event) (Check (codes "755224")) 0 0
        × (Fits (token_of_kind Kind.Event) (Check (codes "755224")) 0 1 → ⊥) }
    ensures fits_in_a_row { Fits (token_of_kind Kind.Event) (Resync (codes "755224") (codes "287082")) 0 1
        × (Fits token_of_equal_codes (Resync (codes "132707") (codes "132707")) 0 0 → ⊥) }
    ensures not_least { (IsLeastFit token_of_equal_codes some_limits 0 (pos 0) 0 (Check (codes "132707")) 1 1 → ⊥)
        × (IsLeastBetween token_of_equal_codes 0 2 (Check (codes "132707")) 1 1 → ⊥) }
    ensures below { (IsLeastFit (token_of_kind Kind.Event) some_limits 1 (pos 0) 0 (Check (codes "755224")) 0 0 → ⊥)
        × (IsLeastBetween (token_of_kind Kind.Event) 1 2 (Check (codes "755224")) 0 0 → ⊥) }
    ensures beyond { (IsLeastFit (token_of_kind Kind.Event) some_limits 0 (pos 0) 0 (Check (codes "338314")) 4 4 → ⊥)
        × (IsLeastFit (token_of_kind Kind.Event) (limits_of 100 1 7) 0 (pos 0) 0
        (Resync (codes "162583") (codes "399871")) 7 8 → ⊥)
        × (IsLeastBetween (token_of_kind Kind.Event) 0 7 (Resync (codes "162583") (codes "399871")) 7 8 → ⊥) }
    ensures something_fits { (NothingFits (token_of_kind Kind.Event) some_limits 0 (pos 0) 0
        (Check (codes "969429")) → ⊥)
        × (NoneBetween (token_of_kind Kind.Event) 3 3 (Check (codes "969429")) → ⊥) }
{}

/// Worked cases. The delay of RFC 4226, section 7.3, with T = 5 seconds.
pub fn throttle_is_worked()
    ensures gates { map gate_after ([] ∷ (Failed 100 ∷ []) ∷ (Failed 105 ∷ Failed 100 ∷ [])
        ∷ (Accepted ∷ Failed 100 ∷ []) ∷ (Failed 130 ∷ Accepted ∷ Failed 105 ∷ Failed 100 ∷ []) ∷ [])
        ≡ record { fails = 0; until = 0 } ∷ record { fails = 1; until = 105 } ∷ record { fails = 2; until = 115 }
        ∷ record { fails = 0; until = 0 } ∷ record { fails = 1; until = 135 } ∷ [] }
    ensures many { map (λ count. gate_after (replicate count (Failed 7))) (9999 ∷ 10000 ∷ 10001 ∷ [])
        ≡ record { fails = 9999; until = 50002 } ∷ record { fails = 10000; until = 50007 }
        ∷ record { fails = 10000; until = 50007 } ∷ [] }
    ensures waits { map (wait_after (Failed 105 ∷ Failed 100 ∷ [])) (105 ∷ 114 ∷ 115 ∷ 200 ∷ []) ≡ 10 ∷ 1 ∷ 0 ∷ 0 ∷ [] }
    ensures open { IsOpenAfter [] 0 × IsOpenAfter (Accepted ∷ Failed 100 ∷ []) 0 × IsOpenAfter (Failed 100 ∷ []) 105
        × IsOpenAfter (Failed 105 ∷ Failed 100 ∷ []) 115 }
    ensures closed { (IsOpenAfter (Failed 100 ∷ []) 104 → ⊥) × (IsOpenAfter (Failed 105 ∷ Failed 100 ∷ []) 114 → ⊥) }
    ensures gated { AreGated (Failed 115 ∷ Failed 105 ∷ Failed 100 ∷ [])
        × AreGated (Failed 100 ∷ Accepted ∷ Failed 100 ∷ []) }
    ensures not_gated { (AreGated (Failed 104 ∷ Failed 100 ∷ []) → ⊥)
        × (AreGated (Failed 200 ∷ Failed 104 ∷ Failed 100 ∷ []) → ⊥)
        × (AreGated (Accepted ∷ Failed 104 ∷ Failed 100 ∷ []) → ⊥) }
{}

/// Counterexamples: each promise of an acceptance and of the throttle fails for a minimal one.
pub fn entitlements_can_be_broken()
    ensures passwords { PasswordFits Password.NoneAllowed None × PasswordFits Password.NotChecked None
        × PasswordFits Password.NotChecked wrong × PasswordFits checked right }
    ensures password_where_none_is { PasswordFits Password.NoneAllowed right → ⊥ }
    ensures no_password { PasswordFits checked None → ⊥ }
    ensures wrong_password { PasswordFits checked wrong → ⊥ }
    ensures entitled { IsEntitled (token_of_kind Kind.Event) some_limits 105 (Check (codes "755224")) None 0 (pos 0)
        (Failed 100 ∷ []) 0 0 }
    ensures with_a_password { IsEntitled (token_of_kind Kind.Event) some_limits 105
        (Check (codes "755224")) right 0 (pos 0)
        [] 0 0 → ⊥ }
    ensures without_a_password { IsEntitled (token_with checked) some_limits 105 (Check (codes "755224")) None 0 (pos 0)
        [] 0 0 → ⊥ }
    ensures with_another_password { IsEntitled (token_with checked) some_limits 105
        (Check (codes "755224")) wrong 0 (pos 0)
        [] 0 0 → ⊥ }
    ensures a_second_early { IsEntitled (token_of_kind Kind.Event) some_limits 104 (Check (codes "755224")) None 0
        (pos 0) (Failed 100 ∷ []) 0 0 → ⊥ }
    ensures past_all_moments { IsEntitled (token_of_kind Kind.Event) some_limits 1099511627776 (Check (codes "755224"))
        None 0 (pos 0) [] 0 0 → ⊥ }
    ensures not_the_least { IsEntitled token_of_equal_codes some_limits 0 (Check (codes "132707")) None 0
        (pos 0) [] 1 1 → ⊥ }
    ensures below_the_window { IsEntitled (token_of_kind Kind.Event) some_limits 0 (Check (codes "755224")) None 1
        (pos 0) [] 0 0 → ⊥ }
    ensures beyond_the_window { IsEntitled (token_of_kind Kind.Event) some_limits 0
        (Check (codes "338314")) None 0 (pos 0)
        [] 4 4 → ⊥ }
    ensures spaced { SpacesFailures (Failed 115 ∷ Failed 105 ∷ Failed 100 ∷ [])
        × SpacesFailures (Failed 100 ∷ Accepted ∷ Failed 100 ∷ []) }
    ensures two_too_near { SpacesFailures (Failed 104 ∷ Failed 100 ∷ []) → ⊥ }
    ensures three_too_near { SpacesFailures (Failed 114 ∷ Failed 105 ∷ Failed 100 ∷ []) → ⊥ }
    ensures older_too_near { SpacesFailures (Failed 200 ∷ Failed 104 ∷ Failed 100 ∷ Accepted ∷ []) → ⊥ }
    ensures ten_thousand { (newer older : List Result) (first last : ℕ) (between : List ℕ) →
        SpacesFailures (newer ++ (Failed last ∷ (map Failed between ++ (Failed first ∷ older)))) →
        length between ≡ 9998 → 2 * first + 499950000 ≤ 2 * last }
{}
