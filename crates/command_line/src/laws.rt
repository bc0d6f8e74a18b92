ghost use Rattle.std.specs.Prelude.{◌≡◌, false, true, [], ◌∷◌, map, Some, None};
ghost use Rattle.command_line.specs.Number.{is_up_to};

/// Worked cases. The ends of a range.
pub fn numbers_are_worked()
    ensures in_range { map (is_up_to 9) (Some 0 ∷ Some 9 ∷ []) ≡ true ∷ true ∷ [] }
    ensures out_of_range { map (is_up_to 9) (None ∷ Some 10 ∷ []) ≡ false ∷ false ∷ [] }
{}
