ghost use Rattle.std.specs.Prelude.{◌≡◌, [], ◌∷◌, map, replicate, List, ℕ, None, false, true};
ghost use Rattle.std.specs.Borrow.{Bor};
ghost use Rattle.std.specs.Global.{Vec};
ghost use Rattle.oathd_acts.specs.Acting.{IsStopped, creates};
ghost use Rattle.oathd_words.specs.Broken.{at_member, at_node, begin_at, drop_at, floors_of, init_at, level_by, look_at_any, migrate_at, remake_at, roster_at, serve_for};
ghost use Rattle.oathd_words.specs.declared.former_words.FormerWords.{FormerWords as AnyFormer};
ghost use Rattle.oathd_words.specs.declared.store_words.Look.TheVariants.{Export};

/// Worked cases: the actions that create a store, and the one that serves it.
pub fn actions_are_worked()
    ensures creates { map creates (init_at None 1 ∷ begin_at 1 ∷ []) ≡ true ∷ true ∷ [] }
    ensures remake { (former : AnyFormer) → creates (remake_at None former 1) ≡ true }
    ensures found { map creates (serve_for 0 1 ∷ look_at_any Export ∷ floors_of 1 ∷ roster_at 1 ∷ drop_at 1
        ∷ migrate_at (at_node 1) ∷ migrate_at (at_member 1) ∷ [])
        ≡ replicate 7 false }
    ensures level { (floors : Vec (Bor (List ℕ))) → (creates (level_by floors (at_node 1)) ≡ false)
        × (creates (level_by floors (at_member 1)) ≡ false) }
    ensures stopped { IsStopped (init_at None 1) × IsStopped (look_at_any Export) × IsStopped (begin_at 1)
        × IsStopped (floors_of 1) × IsStopped (roster_at 1) × IsStopped (migrate_at (at_node 1)) }
    ensures served { IsStopped (serve_for 0 1) → ⊥ }
{}
