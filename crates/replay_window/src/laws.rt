ghost use Rattle.std.specs.Prelude.{◌≡◌, ◌∷◌, ◌<◌, ◌≤◌, [], List, ℕ, Some, None, eqb, false, true, is_none, replicate, map};
ghost use Rattle.std.specs.List.{AllByRecursion, IsDistinct};
ghost use Rattle.replay_window.specs.Boots.{AreHandedOn, AreMarked, Boot, admitted_over, window_run};
ghost use Rattle.replay_window.specs.Examples.{arrival_at, boot_at, life_at, life_of_two, window_at};
ghost use Rattle.replay_window.specs.Lives.{AreInOrder, Arrival, Life, admitted, admitted_in};
ghost use Rattle.replay_window.specs.Window.{IsAhead, WindowRecord, is_early, is_fresh, is_timely, kept_of, latest_of, refusal_of, window_above, window_from, with_moment, with_seen};
ghost use Rattle.replay_window.specs.declared.refusal.Refusal.TheVariants.{Again, Early, Late};

/// No replay: a window admits no moment twice, and none up to its mark, in every schedule.
pub fn once_is_enough()
    ensures once { (window : WindowRecord) (arrivals : List Arrival) → IsDistinct eqb (admitted window arrivals) }
    ensures above { (window : WindowRecord) (arrivals : List Arrival) →
        AllByRecursion (λ moment. window.low < moment) (admitted window arrivals) }
{}

/// No replay over incarnations: no moment is admitted twice over the incarnations of a process.
///
/// Each incarnation may have a maximum lead of its own. The law holds if the first mark of each incarnation is at or
/// above all moments that earlier ones could admit.
pub fn lives_are_one()
    ensures { (lives : List Life) → AreInOrder lives → IsDistinct eqb (admitted_in lives) }
{}

/// The latest moment: no moment that a window admitted is later than the latest one of the window afterwards.
///
/// The first mark of the window isn't later either.
pub fn latest_is_a_bound()
    ensures admitted { (window : WindowRecord) (arrivals : List Arrival) →
        AllByRecursion (λ moment. moment ≤ latest_of (window_run window arrivals)) (admitted window arrivals) }
    ensures mark { (window : WindowRecord) (arrivals : List Arrival) →
        window.low ≤ latest_of (window_run window arrivals) }
{}

/// No replay over boots: no moment is admitted twice over the boots of one process.
///
/// The law holds if the first mark of each boot is at or above all moments that earlier ones admitted. The clock may be
/// set back. It is enough that each boot begins at or above the latest moment of the window at the end of the boot
/// before it.
pub fn boots_are_one()
    ensures once { (boots : List Boot) → AreMarked boots → IsDistinct eqb (admitted_over boots) }
    ensures handed { (boots : List Boot) → AreHandedOn boots → AreMarked boots }
{}

/// Reasons: a window refuses a moment for a reason exactly if it doesn't admit it.
pub fn refusals_have_reasons()
    ensures { (window : WindowRecord) (now moment : ℕ) →
        is_none (refusal_of window now moment) ≡ is_fresh window now moment }
{}

/// Worked cases. Admitted and kept moments, with a maximum lead of 5 seconds.
pub fn windows_are_worked()
    ensures leads { IsAhead 1 × IsAhead 60 }
    ensures no_lead { IsAhead 0 → ⊥ }
    ensures far_lead { IsAhead 61 → ⊥ }
    ensures start { window_from 100 5 ≡ record { ahead = 5; low = 105000000; seen = [] } }
    ensures above { window_above 7 5 ≡ record { ahead = 5; low = 7; seen = [] } }
    ensures latest { map (λ seen. latest_of (window_at 5 seen)) ([] ∷ (4 ∷ []) ∷ (6 ∷ 9 ∷ []) ∷ (9 ∷ 6 ∷ []) ∷ [])
        ≡ 5 ∷ 5 ∷ 9 ∷ 9 ∷ [] }
    ensures near { map (λ moment. is_timely 5 100 moment)
        (39999999 ∷ 40000000 ∷ 100000000 ∷ 105000000 ∷ 105000001 ∷ [])
        ≡ false ∷ true ∷ true ∷ true ∷ false ∷ [] }
    ensures nearer { map (λ moment. is_timely 2 100 moment) (102000000 ∷ 102000001 ∷ []) ≡ true ∷ false ∷ [] }
    ensures last_clock { is_timely 5 1099511627776 1099511627776000000 ≡ false }
    ensures early { map (λ moment. is_early 5 100 moment) (105000000 ∷ 105000001 ∷ []) ≡ false ∷ true ∷ [] }
    ensures never_early { is_early 5 1099511627776 18446744073709551615 ≡ false }
    ensures mark { map (λ moment. is_fresh (window_at 95000000 []) 100 moment)
        (95000000 ∷ 95000001 ∷ []) ≡ false ∷ true ∷ [] }
    ensures seen { map (λ moment. is_fresh (window_at 0 (99000000 ∷ 101000000 ∷ [])) 100 moment)
        (99000000 ∷ 100000000 ∷ 101000000 ∷ []) ≡ false ∷ true ∷ false ∷ [] }
    ensures reasons { map (λ moment. refusal_of (window_at 95000000 (99000000 ∷ [])) 100 moment)
        (39999999 ∷ 95000000 ∷ 99000000 ∷ 100000000 ∷ 105000001 ∷ [])
        ≡ Some Late ∷ Some Again ∷ Some Again ∷ None ∷ Some Early ∷ [] }
    ensures late_clock { refusal_of (window_at 0 []) 1099511627776 18446744073709551615 ≡ Some Late }
    ensures order { with_moment (1 ∷ 3 ∷ []) 2 ≡ 1 ∷ 2 ∷ 3 ∷ [] }
    ensures last { with_moment (1 ∷ 3 ∷ []) 4 ≡ 1 ∷ 3 ∷ 4 ∷ [] }
    ensures room { kept_of (window_at 5 []) (replicate 64 7) ≡ window_at 5 (replicate 64 7) }
    ensures full { kept_of (window_at 5 []) (6 ∷ replicate 64 7) ≡ window_at 6 (replicate 64 7) }
    ensures lower { kept_of (window_at 8 []) (6 ∷ replicate 64 7) ≡ window_at 8 (replicate 64 7) }
{}

/// Counterexamples: incarnations that are in order, and each premise that fails.
///
/// The moment of second 15 arrives in each incarnation, which began at a second with a maximum lead.
pub fn lives_can_be_broken()
    // With a lead of 5 seconds, second 10 can admit second 15. A lead of 2 seconds is enough from second 13 on.
    ensures in_order { AreInOrder (life_at 5 5 10 ∷ life_at 13 2 13 ∷ life_at 13 2 14 ∷ []) }
    ensures once { admitted_in (life_at 5 5 10 ∷ life_at 13 2 13 ∷ []) ≡ 15000000 ∷ [] }
    ensures shorter_lead { AreInOrder (life_at 5 5 10 ∷ life_at 12 2 13 ∷ []) → ⊥ }
    ensures shorter_lead_repeats { admitted_in (life_at 5 5 10 ∷ life_at 12 2 13 ∷ []) ≡ 15000000 ∷ 15000000 ∷ [] }
    ensures set_back { AreInOrder (life_at 5 5 10 ∷ life_at 9 5 10 ∷ []) → ⊥ }
    ensures set_back_repeats { admitted_in (life_at 5 5 10 ∷ life_at 9 5 10 ∷ []) ≡ 15000000 ∷ 15000000 ∷ [] }
    ensures second_arrival { AreInOrder (life_of_two 5 5 9 11 ∷ life_at 10 5 14 ∷ []) → ⊥ }
    ensures second_later { AreInOrder (life_at 5 5 10 ∷ life_at 10 5 10 ∷ life_at 9 5 10 ∷ []) → ⊥ }
    ensures second_and_third { AreInOrder (life_at 5 1 8 ∷ life_at 8 5 12 ∷ life_at 11 5 14 ∷ []) → ⊥ }
    ensures distinct { IsDistinct eqb (15000000 ∷ 15000000 ∷ []) → ⊥ }
    ensures last_distinct { IsDistinct eqb (14000000 ∷ 15000000 ∷ 15000000 ∷ []) → ⊥ }
{}

/// Counterexamples: boots of one process that are handed on, and each premise that fails.
///
/// The moment of second 15 arrives in each boot, which began at a mark.
pub fn boots_can_be_broken()
    // A boot that begins at the latest moment of the one before admits nothing that it admitted. A mark below repeats.
    ensures handed { AreHandedOn (boot_at 9000000 10 ∷ boot_at 15000000 10 ∷ boot_at 15000000 9 ∷ []) }
    ensures marked { AreMarked (boot_at 9000000 10 ∷ boot_at 15000000 10 ∷ []) }
    ensures once { admitted_over (boot_at 9000000 10 ∷ boot_at 15000000 10 ∷ []) ≡ 15000000 ∷ [] }
    ensures lower { AreMarked (boot_at 9000000 10 ∷ boot_at 14999999 10 ∷ []) → ⊥ }
    ensures lower_not_handed { AreHandedOn (boot_at 9000000 10 ∷ boot_at 14999999 10 ∷ []) → ⊥ }
    ensures lower_repeats { admitted_over (boot_at 9000000 10 ∷ boot_at 14999999 10 ∷ [])
        ≡ 15000000 ∷ 15000000 ∷ [] }
    ensures third_lower { AreMarked (boot_at 9000000 10 ∷ boot_at 15000000 10 ∷ boot_at 14999999 10 ∷ []) → ⊥ }
    ensures third_not_handed { AreHandedOn (boot_at 9000000 10 ∷ boot_at 15000000 10 ∷ boot_at 14999999 10 ∷ [])
        → ⊥ }
    // the first one admits nothing, so that it is marked in all others
    ensures second_and_third { AreMarked (boot_at 15000000 10 ∷ boot_at 9000000 10 ∷ boot_at 14999999 10 ∷ [])
        → ⊥ }
    // The latest moment is that at the end of the boot.
    ensures begun { window_run (window_at 9000000 []) (arrival_at 10 ∷ [])
        ≡ window_at 9000000 (15000000 ∷ []) }
    ensures refused { window_run (window_at 15000000 []) (arrival_at 10 ∷ []) ≡ window_at 15000000 [] }
{}
