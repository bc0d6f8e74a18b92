ghost use Rattle.std.specs.Prelude.{ℕ, [], ◌∷◌};
ghost use Rattle.sqlite.specs.Effect.{Database};
ghost use Rattle.roster_sql.specs.Examples.{entry_of, one_token, other_bond, small_bond};
ghost use Rattle.roster_renewal.specs.Examples.{RenewsBy, RenewsOne, one_pass, pass_at, put_at};
ghost use Rattle.roster_renewal.specs.Renewed.{AreOf, Renews};

/// Counterexamples: the new tables have the node, the boot, the floors, the entries, the bond, and the puts in order.
pub fn renewals_can_be_broken()
    ensures opens { (old : Database) → RenewsOne 1 4 (9 ∷ []) [] old }
    ensures puts { (old : Database) → RenewsOne 1 4 (7 ∷ []) (put_at 5 ∷ put_at 9 ∷ []) old }
    ensures passes { (old : Database) → RenewsBy 1 4 (7 ∷ []) (pass_at 9 ∷ []) old one_pass }
    ensures another_node { (old : Database) → RenewsOne 2 4 (9 ∷ []) [] old → ⊥ }
    ensures another_boot { (old : Database) → RenewsOne 1 0 (9 ∷ []) [] old → ⊥ }
    ensures another_floor { (old : Database) → RenewsOne 1 4 (5 ∷ []) [] old → ⊥ }
    ensures put_is_missing { (old : Database) → RenewsOne 1 4 (9 ∷ []) (put_at 5 ∷ []) old → ⊥ }
    ensures puts_in_another_order { (old : Database)
        → RenewsOne 1 4 (7 ∷ []) (put_at 9 ∷ put_at 5 ∷ []) old → ⊥ }
    ensures pass_is_missing { (old : Database) → RenewsOne 1 4 (9 ∷ []) (pass_at 9 ∷ []) old → ⊥ }
    ensures pass_of_no_put { (old : Database) → RenewsBy 1 4 (9 ∷ []) [] old one_pass → ⊥ }
    ensures no_entry { (old : Database) → Renews 1 4 (9 ∷ []) [] small_bond [] old one_token → ⊥ }
    ensures another_seed { (old : Database)
        → Renews 1 4 (9 ∷ []) (entry_of 1 5 ∷ []) small_bond [] old one_token → ⊥ }
    ensures another_bond { (old : Database)
        → Renews 1 4 (9 ∷ []) (entry_of 1 2 ∷ []) other_bond [] old one_token → ⊥ }
    ensures put_of_a_row { (next : ℕ) → AreOf 1 (put_at next ∷ []) }
    ensures put_of_no_row { (next : ℕ) → AreOf 0 (put_at next ∷ []) → ⊥ }
{}
