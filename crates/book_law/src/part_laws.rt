//! The worked cases of processes in parts, and of stretches of turns.

ghost use Rattle.std.specs.Prelude.{◌≡◌, ℕ, [], ◌∷◌, List, true, Option, Some, None, Ok, codes};
ghost use Rattle.client_lines.specs.declared.answer.Outcome.TheVariants.{Accepted, Refused};
ghost use Rattle.client_lines.specs.declared.answer.Reason.TheVariants.{Invalid};
ghost use Rattle.cluster_sim.specs.Examples.{told_outcome};
ghost use Rattle.datagram_port.specs.Port.{PortEvent, Quiet};
ghost use Rattle.floor_store.specs.Broken.{SmallStore, holding, small_held};
ghost use Rattle.floor_store.specs.Content.{Content};
ghost use Rattle.oath_node.specs.Broken.{fallen_node, keyed, small_node};
ghost use Rattle.oath_node.specs.Machine.{NodeEvent, Tick, opened_node};
ghost use Rattle.oath_node.specs.UnlockExamples.{both_closed, first_unlocked, over};
ghost use Rattle.vote_core.specs.Schedule.{last_boot};
ghost use Rattle.book_law.specs.Examples.{alone, first_key, maple, maple_first, shut_rows, silver, silver_alone, silver_row, stopped_machine, terms_of, two_rows};
ghost use Rattle.book_law.specs.Lives.{OpensGate, Opens, Setting, Stops, Store, Terms, ToClient, seen_in, store_under, store_with_rows};
ghost use Rattle.book_law.specs.PartExamples.{answers_in_parts, cut_part, fault_came, faulted, idle_in_parts, idle_part, login_part, nothing_came, parts_among_another, replied, right_part, silent_part, silver_opened, silver_taken, wrong_part};
ghost use Rattle.book_law.specs.Stretches.{ActsAs, AreServed, token_cleared, tokens_cleared};
ghost use Rattle.book_law.specs.Uses.{AreOffersOfUses, AreUses, HasUses, IsProcess, IsProcessIn, Part, ServesInParts, StoreUse, WasProcessIn, clearing, entries_in, first_store, offers_recorded, state_cleared, store_after};

/// Worked cases.
pub fn parts_are_worked()
    // A process is one part, and the other way round.
    ensures one { (setting : Setting) (node : ℕ) (terms : Terms) (port : List ℕ) (found : Store)
        (taken : List NodeEvent) (entries : List PortEvent) (left : Content)
        → IsProcess setting node terms port found taken entries left
        → IsProcessIn setting node terms port found
        (record { taken = taken; entries = entries; cleared = None } ∷ []) left }
    ensures of_one { (setting : Setting) (node : ℕ) (terms : Terms) (port : List ℕ) (found : Store)
        (taken : List NodeEvent) (entries : List PortEvent) (left : Content)
        → IsProcessIn setting node terms port found
        (record { taken = taken; entries = entries; cleared = None } ∷ []) left
        → IsProcess setting node terms port found taken entries left }
    // After a wrong code an operator clears the gate, and the right code is accepted 4 seconds later.
    ensures cleared_between { IsProcessIn alone 1 silver_alone [] silver_row
        (wrong_part (Some 0) ∷ right_part (Accepted 0) None ∷ []) silver_taken }
    ensures in_order { IsProcessIn alone 1 silver_alone [] silver_row
        (login_part ∷ right_part (Refused Invalid) (Some 0) ∷ []) silver_taken }
    // The last part may end before its turns do, or before its offers.
    ensures cut_at_the_end { IsProcessIn alone 1 silver_alone [] silver_row (idle_part None ∷ cut_part ∷ [])
        silver_opened }
    ensures silent_at_the_end { IsProcessIn alone 1 silver_alone [] silver_row (idle_part None ∷ silent_part ∷ [])
        silver_taken }
    ensures no_part { IsProcessIn alone 1 silver_alone [] silver_row [] silver_opened }
    // The token 3 has the number 0 of the process, and the row 1 of the store.
    ensures clears { state_cleared (terms_of first_key (maple ∷ silver ∷ []) (3 ∷ 5 ∷ [])) (Some 3)
        (opened_node (seen_in shut_rows (3 ∷ 5 ∷ []))) ≡ opened_node (seen_in (two_rows None) (3 ∷ 5 ∷ [])) }
    ensures clears_nothing { state_cleared maple_first None stopped_machine ≡ stopped_machine }
    ensures no_clearing { clearing 1 None ≡ [] }
    ensures one_clearing { clearing 1 (Some 0) ≡ OpensGate 1 0 ∷ [] }
    ensures entries { entries_in (cut_part ∷ idle_part None ∷ cut_part ∷ []) ≡ Quiet ∷ Quiet ∷ [] }

    // As uses of a store.
    ensures uses { AreUses alone 1 silver_row idle_in_parts }
    ensures after { store_after alone idle_in_parts silver_row
        ≡ store_under (0 ∷ []) silver_opened silver_row }
    ensures actions { HasUses alone 1 silver_row idle_in_parts parts_among_another }
    ensures recorded { offers_recorded answers_in_parts
        ≡ replied (codes "3") (Refused Invalid) ∷ replied (codes "4") (Accepted 0) ∷ [] }
    ensures replies { AreOffersOfUses answers_in_parts (ToClient (told_outcome 1 1 7 (codes "3") (Refused Invalid))
        ∷ ToClient (told_outcome 4 1 7 (codes "4") (Accepted 0)) ∷ []) }
{}

/// Counterexamples: each condition of a process in parts fails for a minimal one.
pub fn parts_can_be_broken()
    ensures no_row_there { IsProcessIn alone 1 silver_alone [] (first_store alone 1) [] silver_opened → ⊥ }
    ensures no_boot_there { IsProcessIn alone 1 silver_alone [] (store_with_rows last_boot (0 ∷ []) (λ token. 0)) []
        silver_opened → ⊥ }
    ensures left_as_found { IsProcessIn alone 1 silver_alone [] silver_row [] silver_row.content → ⊥ }
    // The right code comes 4 seconds after the wrong one, and no gate is cleared between them.
    ensures never_cleared { IsProcessIn alone 1 silver_alone [] silver_row
        (wrong_part None ∷ right_part (Accepted 0) None ∷ []) silver_taken → ⊥ }
    ensures cleared_before { IsProcessIn alone 1 silver_alone [] silver_row
        (idle_part (Some 0) ∷ wrong_part None ∷ right_part (Accepted 0) None ∷ []) silver_taken → ⊥ }
    ensures another_cleared { IsProcessIn alone 1 silver_alone [] silver_row
        (wrong_part (Some 1) ∷ right_part (Accepted 0) None ∷ []) silver_taken → ⊥ }
    // The code that is refused as used comes first.
    ensures out_of_order { IsProcessIn alone 1 silver_alone [] silver_row
        (right_part (Refused Invalid) (Some 0) ∷ login_part ∷ []) silver_taken → ⊥ }
    ensures cut_before_the_end { IsProcessIn alone 1 silver_alone [] silver_row (cut_part ∷ idle_part None ∷ [])
        silver_opened → ⊥ }
    ensures silent_before_the_end { IsProcessIn alone 1 silver_alone [] silver_row
        (silent_part ∷ idle_part None ∷ []) silver_taken → ⊥ }
    ensures ticked_unasked { IsProcessIn alone 1 silver_alone [] silver_row
        (record (idle_part None) { taken = Tick ∷ [] } ∷ []) silver_opened → ⊥ }
    ensures replied_unmade { IsProcessIn alone 1 silver_alone [] silver_row
        (record (idle_part None) { entries = replied [] (Refused Invalid) ∷ [] } ∷ []) silver_opened → ⊥ }

    // As uses of a store.
    ensures is_a_process { (setting : Setting) (node : ℕ) (store : Store) (terms : Terms) (port : List ℕ)
        (parts : List Part) (left : Content) (uses : List StoreUse)
        → AreUses setting node store (ServesInParts terms port parts left ∷ uses)
        → IsProcessIn setting node terms port store parts left }
    ensures after_another_use { (setting : Setting) (node : ℕ) (store : Store) (terms : Terms) (port : List ℕ)
        (parts : List Part) (left : Content) (uses : List StoreUse)
        → AreUses setting node store (ServesInParts terms port parts left ∷ uses)
        → AreUses setting node (store_under terms.seats left store) uses }
    ensures clearing_is_missing { HasUses alone 1 silver_row idle_in_parts (Opens 1 silver_alone ∷ Stops 1 ∷ []) → ⊥ }
    ensures another_gate_is_cleared { HasUses alone 1 silver_row idle_in_parts
        (Opens 1 silver_alone ∷ OpensGate 1 1 ∷ Stops 1 ∷ []) → ⊥ }
    ensures reply_is_missing { AreOffersOfUses answers_in_parts [] → ⊥ }
    ensures cleared_by_nobody { WasProcessIn alone 1 silver_alone [] silver_row [] (Quiet ∷ []) silver_opened → ⊥ }
{}

/// Worked cases.
pub fn stretches_are_worked()
    ensures no_number { token_cleared maple_first None ≡ None }
    ensures own_number { token_cleared maple_first (Some 1) ≡ Some 0 }
    ensures no_seat { token_cleared maple_first (Some 2) ≡ None }
    // The first stretch is the last one of the list.
    ensures tokens { tokens_cleared maple_first (faulted (Some 1) ∷ faulted None ∷ faulted (Some 0) ∷ []) (None ∷ [])
        ≡ Some 1 ∷ None ∷ Some 0 ∷ None ∷ [] }
    ensures none { AreServed small_held small_node nothing_came [] small_node nothing_came }
    ensures one { AreServed small_held small_node nothing_came (faulted None ∷ []) small_node fault_came }
    ensures nothing { ActsAs small_held None small_node small_node (Ok true) }
    ensures unlocks { ActsAs small_held (Some 0) (over (holding both_closed)) (over (holding first_unlocked))
        (Ok true) }
{}

/// Counterexamples: each condition of stretches fails for a minimal one.
pub fn stretches_can_be_broken()
    ensures none_of_another_node { AreServed small_held small_node nothing_came [] (keyed small_node) nothing_came → ⊥ }
    ensures none_with_an_entry { AreServed small_held small_node nothing_came [] small_node fault_came → ⊥ }
    ensures one_of_another_start { AreServed small_held (keyed small_node) nothing_came (faulted None ∷ []) small_node
        fault_came → ⊥ }
    ensures one_that_was_not_served { AreServed small_held small_node nothing_came (faulted None ∷ []) small_node
        nothing_came → ⊥ }
    ensures one_with_another_act { AreServed small_held small_node nothing_came (faulted None ∷ []) (keyed small_node)
        fault_came → ⊥ }
    ensures one_that_is_not_clean { AreServed small_held fallen_node nothing_came
        (record (faulted None) { from = fallen_node; stood = fallen_node } ∷ []) fallen_node fault_came → ⊥ }
    ensures unlocks_another { ActsAs small_held (Some 1) (over (holding both_closed)) (over (holding first_unlocked))
        (Ok true) → ⊥ }
    ensures unlocks_without_a_number { ActsAs small_held None (over (holding both_closed))
        (over (holding first_unlocked)) (Ok true) → ⊥ }
{}
