ghost use Rattle.std.specs.Prelude.{◌≡◌, [], ◌∷◌, Some, None, codes, map, false, true};
ghost use Rattle.users_input.specs.Examples.{text_of_two_parts};
ghost use Rattle.users_input.specs.Input.{HasLine, HasRoom, IsReadTo, TakesLine, has_marker, lines_of, rest_part, users_file};
ghost use Rattle.users_input.specs.Users.{HasRest, IsFilled, is_failed, numbered, rest_left, users_left};
ghost use Rattle.users_input.specs.declared.fault.InputFault.TheVariants.{CannotRead};
ghost use Rattle.users_input.specs.declared.input.NextLine.TheVariants.{Cut, End, Whole};
ghost use Rattle.users_input.specs.declared.users.Stage.TheVariants.{Failed, Rest, Users};

/// Worked cases. The lines of inputs, and their two parts.
pub fn inputs_are_worked()
    // the lines up to a limit; a line that continues past it is None
    ensures whole { lines_of 6 (codes "ab\ncde") ≡ Some (codes "ab") ∷ Some (codes "cde") ∷ [] }
    ensures cut { lines_of 5 (codes "ab\ncde") ≡ Some (codes "ab") ∷ None ∷ [] }
    ensures cut_behind_lf { lines_of 3 (codes "ab\ncde") ≡ Some (codes "ab") ∷ None ∷ [] }
    ensures lf_at_the_end { lines_of 3 (codes "ab\n") ≡ Some (codes "ab") ∷ [] }
    ensures empty_lines { lines_of 9 (codes "\n\nab") ≡ Some [] ∷ Some [] ∷ Some (codes "ab") ∷ [] }
    ensures nothing { lines_of 0 [] ≡ [] }
    ensures nothing_read { lines_of 0 (codes "a") ≡ None ∷ [] }

    // the users file, and the lines after the first `%%`
    ensures users { users_file (lines_of 99 text_of_two_parts) text_of_two_parts ≡ codes "a\nb\n" }
    ensures rest { rest_part (lines_of 99 text_of_two_parts)
        ≡ Some (codes "c") ∷ Some (codes "%%") ∷ Some (codes "d") ∷ [] }
    ensures no_users { users_file (lines_of 99 (codes "%%\nc")) (codes "%%\nc") ≡ [] }
    ensures only_rest { rest_part (lines_of 99 (codes "%%\nc")) ≡ Some (codes "c") ∷ [] }
    ensures users_to_marker { users_file (lines_of 99 (codes "a\n%%")) (codes "a\n%%") ≡ codes "a\n" }
    ensures no_rest { rest_part (lines_of 99 (codes "a\n%%")) ≡ [] }
    ensures no_marker { users_file (lines_of 99 (codes "a\nb")) (codes "a\nb") ≡ codes "a\nb" }
    ensures no_marker_read { users_file (lines_of 2 (codes "a\nb")) (codes "a\nb") ≡ codes "a\nb" }
    ensures carriage_return { has_marker (lines_of 99 (codes "%%\r\nc")) ≡ false }
    ensures space_behind { has_marker (lines_of 99 (codes "%% \nc")) ≡ false }
    ensures one_percent { has_marker (lines_of 99 (codes "%\nc")) ≡ false }
    ensures three_percents { has_marker (lines_of 99 (codes "%%%\nc")) ≡ false }
    ensures cut_marker { has_marker (lines_of 2 (codes "%%\n")) ≡ false }

    // each line has its number
    ensures numbers { numbered 4 (lines_of 4 (codes "a\n\nbc"))
        ≡ (4, Some (codes "a")) ∷ (5, Some []) ∷ (6, None) ∷ [] }
{}

/// Counterexamples: each promise of the next line of an input fails for a minimal one.
pub fn inputs_can_be_broken()
    ensures takes { TakesLine Whole (codes "a\n") 5 (codes "a\nb") 3 (Some (codes "b")) }
    ensures takes_cut { TakesLine Cut (codes "a") 1 (codes "ab") 0 (Some (codes "b")) }
    ensures takes_end { TakesLine End [] 5 [] 5 (Some []) }
    ensures takes_remaining { TakesLine Whole (codes "a\n") 5 (codes "a\nb") 3 None → ⊥ }
    ensures takes_other_rest { TakesLine Whole (codes "a\n") 5 (codes "a\nb") 3 (Some (codes "c")) → ⊥ }
    ensures takes_parts { TakesLine Whole (codes "a\nz") 5 (codes "a") 4 (Some []) → ⊥ }
    ensures takes_next { TakesLine Whole (codes "a\n") 5 (codes "a\nb") 0 (Some (codes "b")) → ⊥ }
    ensures takes_no_lf { TakesLine Whole (codes "a") 2 (codes "a\nb") 0 (Some (codes "\nb")) → ⊥ }
    ensures takes_cut_short { TakesLine Cut (codes "a") 1 (codes "ab") 1 (Some (codes "b")) → ⊥ }
    ensures takes_no_cut { TakesLine Cut (codes "a") 2 (codes "ab") 0 (Some (codes "b")) → ⊥ }
    ensures takes_no_end { TakesLine End [] 5 (codes "a") 5 (Some (codes "a")) → ⊥ }

    ensures line { HasLine Whole (codes "\n") × HasLine Cut (codes "a") × HasLine End [] }
    ensures no_whole_line { HasLine Whole [] → ⊥ }
    ensures no_cut_line { HasLine Cut [] → ⊥ }
    ensures line_behind_the_end { HasLine End (codes "a") → ⊥ }
    ensures room { HasRoom Whole 3 2 × HasRoom Cut 3 3 × HasRoom End 3 3 }
    ensures whole_in_no_room { HasRoom Whole 3 3 → ⊥ }
    ensures cut_in_more_room { HasRoom Cut 3 4 → ⊥ }
    ensures end_in_more_room { HasRoom End 3 4 → ⊥ }

    ensures read_to { IsReadTo 2 (codes "ab") (codes "ab") false × IsReadTo 1 (codes "ab") (codes "a") true }
    ensures read_less { IsReadTo 2 (codes "ab") (codes "a") false → ⊥ }
    ensures cut_is_not_told { IsReadTo 1 (codes "ab") (codes "a") false → ⊥ }

    ensures rest { HasRest ((4, Some (codes "a")) ∷ []) 4 9 (Some (codes "a")) }
    ensures rest_of_nothing { HasRest ((4, Some (codes "a")) ∷ []) 4 9 None → ⊥ }
    ensures rest_with_other_numbers { HasRest ((5, Some (codes "a")) ∷ []) 4 9 (Some (codes "a")) → ⊥ }
    ensures rest_is_lost { HasRest [] 4 9 (Some (codes "a")) → ⊥ }

    ensures filled { IsFilled Users (codes "\n") × IsFilled Rest [] }
    ensures not_filled { IsFilled Users [] → ⊥ }
{}

/// Worked cases. The rest of a users file, and the lines after it, at each stage of the reading.
pub fn stages_are_worked()
    ensures users { users_left Users 99 (codes "a\n") (codes "b\n%%\nc") ≡ codes "a\nb\n" }
    ensures users_pulled { users_left Rest 99 (codes "a") (codes "b\n") ≡ codes "a" }
    ensures rest_of_users { rest_left Users 1 99 (codes "a\n") (codes "b\n%%\nc") ≡ (4, Some (codes "c")) ∷ [] }
    ensures rest { rest_left Rest 3 99 [] (codes "c\nd")
        ≡ (4, Some (codes "c")) ∷ (5, Some (codes "d")) ∷ [] }
    ensures users_of_failed { users_left (Failed CannotRead) 99 (codes "a") (codes "b\n%%\nc") ≡ codes "ab\n" }
    ensures rest_of_failed { rest_left (Failed CannotRead) 1 99 (codes "%") (codes "%\nc")
        ≡ (3, Some (codes "c")) ∷ [] }
    ensures failed { map is_failed (Users ∷ Rest ∷ Failed CannotRead ∷ []) ≡ false ∷ false ∷ true ∷ [] }
{}
