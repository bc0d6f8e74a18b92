ghost use Rattle.oathd_database.specs.declared.fault.Fault.TheVariants as faults;
ghost use Rattle.oathd_roster.specs.declared.fault.RosterFault.TheVariants as roster;
ghost use Rattle.oathd_serving.specs.declared.refusal.Refusal.TheVariants as reasons;
ghost use Rattle.oathd_site.specs.declared.fault.Fault.TheVariants as program;
ghost use Rattle.std.specs.Prelude.{◌≡◌, ◌+◌, ◌∷◌, ℕ, [], None, Some, false, true};
ghost use Rattle.otp_core.specs.Limits.{default_limits};
ghost use Rattle.oathd_serving.specs.Reload.{AreBoots, IsNextOf, IsNextText, answers_of, file_reason_of, named_reason_of, reason_of};
ghost use Rattle.oathd_serving.specs.declared.watch.Found.TheVariants.{Unread};

/// Worked cases. The answers of a watch, and boots one after another.
pub fn boots_are_worked()
    ensures no_line { answers_of 7 100 100 7 false true }
    ensures after_two_seconds { answers_of 7 100 2100 7 true true }
    ensures no_end { answers_of 7 100 100 7 true false }
    ensures too_early { answers_of 7 100 2099 7 true true → ⊥ }
    ensures another_number { answers_of 7 100 100 6 false true → ⊥ }
    ensures boots { AreBoots {A = ℕ} (λ turns left. left + 3 ≡ turns) 9 3 (6 ∷ 3 ∷ []) }
    ensures no_boot { AreBoots {A = ℕ} (λ turns left. ⊥) 9 9 [] }
    ensures another_end { AreBoots {A = ℕ} (λ turns left. left + 3 ≡ turns) 9 6 (6 ∷ 3 ∷ []) → ⊥ }
    ensures first_of_more { AreBoots {A = ℕ} (λ turns left. left + 3 ≡ turns) 10 3 (6 ∷ 3 ∷ []) → ⊥ }
    ensures second_of_more { AreBoots {A = ℕ} (λ turns left. left + 3 ≡ turns) 9 2 (6 ∷ 2 ∷ []) → ⊥ }
{}

/// Worked cases. The text of the next boot.
pub fn texts_are_worked()
    ensures nothing_found { IsNextOf default_limits [] (7 ∷ []) None (7 ∷ []) }
    ensures unread { IsNextOf default_limits [] (7 ∷ []) (Some (Unread reasons.CannotRead)) (7 ∷ []) }
    ensures unread_stays { IsNextOf default_limits [] (7 ∷ []) (Some (Unread reasons.CannotRead)) (8 ∷ []) → ⊥ }
    ensures nothing_stays { IsNextOf default_limits [] (7 ∷ []) None (8 ∷ []) → ⊥ }
    ensures same { IsNextText default_limits [] (7 ∷ []) (7 ∷ []) }
    ensures another { IsNextText default_limits [] (7 ∷ []) [] → ⊥ }
{}

/// Worked cases. The reasons of refusals.
pub fn reasons_are_worked()
    ensures memory { reason_of faults.Memory ≡ reasons.Memory }
    ensures socket { reason_of faults.Socket ≡ reasons.CannotRead }
    ensures same_name { named_reason_of (roster.SameName 3) ≡ reasons.SameName 3 }
    ensures full { named_reason_of roster.Full ≡ reasons.CannotRead }
    ensures another_cluster { named_reason_of roster.AnotherCluster ≡ reasons.CannotRead }
    ensures command { named_reason_of (roster.Command faults.Memory) ≡ reasons.Memory }
    ensures of_program { file_reason_of (program.Database faults.Memory) ≡ reasons.Memory }
    ensures other_fault { file_reason_of (program.Roster roster.Full) ≡ reasons.CannotRead }
{}
