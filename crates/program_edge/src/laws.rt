ghost use Rattle.std.specs.Prelude.{◌≡◌, [], ◌∷◌, codes};
ghost use Rattle.program_edge.specs.Line.{line_of};

/// Worked cases. Lines of output.
pub fn lines_are_worked()
    ensures line { line_of (codes "OK") ≡ 79 ∷ 75 ∷ 10 ∷ [] }
    ensures empty { line_of [] ≡ 10 ∷ [] }
{}
