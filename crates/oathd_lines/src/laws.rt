ghost use Rattle.std.specs.Prelude.{◌≡◌, [], ◌∷◌, ◌++◌, ℕ, List, Option, Some, None, Result, Ok, Err, codes, false, take};
ghost use Rattle.otp_core.specs.Limits.{Limits};
ghost use Rattle.secret_text.specs.declared.fault.SecretFault.TheVariants.{BadLength, Empty};
ghost use Rattle.program_edge.specs.declared.fault.OutsideFault.TheVariants as outside;
ghost use Rattle.token_file.specs.declared.fault.LineFault.TheVariants.{FileTooLong, MissingField, Read};
ghost use Rattle.oathd_lines.specs.Client.{client_line_of, client_lines};
ghost use Rattle.oathd_lines.specs.Examples.{IsCutAt, answered, fault_at, line_saying, lines_before, run_at_most, run_at_step_5};
ghost use Rattle.oathd_lines.specs.Fault.{IsOutside, outside_fault_of, status_of};
ghost use Rattle.users_input.specs.Input.{lines_of};
ghost use Rattle.oathd_lines.specs.Run.{Answered, EndsSo, IsTaken, Refused, WritesFirst, clients_of, end_of, output_of, run_of, run_of_input};
ghost use Rattle.oathd_lines.specs.Secret.{EndsWithText};
ghost use Rattle.oathd_lines.specs.declared.fault.Fault.{Fault};
ghost use Rattle.oathd_lines.specs.declared.fault.Fault.TheVariants.{BadKey, CannotRead, CannotWrite, InputLine, Memory, NotText, Users};

/// Worked cases. Lines of clients.
pub fn client_lines_are_worked()
    ensures line { client_line_of (codes "7 100 CHECK 1") ≡ Some (line_saying 7 100 (codes "CHECK 1")) }
    ensures nothing_said { client_line_of (codes "7 100 ") ≡ Some (line_saying 7 100 []) }
    ensures zeros { client_line_of (codes "007 00 x") ≡ Some (line_saying 7 0 (codes "x")) }
    ensures longest { client_line_of (codes "18446744073709551615 18446744073709551615 x")
        ≡ Some (line_saying 18446744073709551615 18446744073709551615 (codes "x")) }
    ensures client_too_great { client_line_of (codes "18446744073709551616 100 x") ≡ None }
    ensures moment_too_great { client_line_of (codes "7 18446744073709551616 x") ≡ None }
    ensures two_fields { client_line_of (codes "7 100") ≡ None }
    ensures one_field { client_line_of (codes "7") ≡ None }
    ensures empty { client_line_of [] ≡ None }
    ensures sign_of_client { client_line_of (codes "+7 100 x") ≡ None }
    ensures sign_of_moment { client_line_of (codes "7 -1 x") ≡ None }
    ensures two_spaces { client_line_of (codes "7  100 x") ≡ None }
    ensures space_before { client_line_of (codes " 7 100 x") ≡ None }
    ensures tab { client_line_of (codes "7\t100 x") ≡ None }

    // lines end at the first bad line
    ensures good { client_lines 3 (Some (codes "7 1 x") ∷ Some (codes "8 2 y") ∷ [])
        ≡ lines_before None (line_saying 7 1 (codes "x") ∷ line_saying 8 2 (codes "y") ∷ []) }
    ensures bad { client_lines 3 (Some (codes "7 1 x") ∷ Some [] ∷ Some (codes "8 2 y") ∷ [])
        ≡ lines_before (Some 4) (line_saying 7 1 (codes "x") ∷ []) }
    ensures cut { client_lines 3 (Some (codes "7 1 x") ∷ None ∷ [])
        ≡ lines_before (Some 4) (line_saying 7 1 (codes "x") ∷ []) }
    ensures numbers { clients_of (lines_of 99 (codes "a\n%%\n7 1 x\n\n"))
        ≡ lines_before (Some 4) (line_saying 7 1 (codes "x") ∷ []) }
{}

/// Worked cases. Runs: their answers, their output and their ends.
pub fn runs_are_worked()
    ensures answered { run_at_most 99 99 (codes "#\n%%\n7 1 CHECK 1 a 755224 -\n7 1 x\n7 1\n7 1 x\n")
        ≡ Answered (codes "NO 1 UNKNOWN" ∷ codes "NO - BADLINE" ∷ []) (Some 5) }
    ensures refused { run_at_most 99 99 (codes "#\nHOTP a -\n%%\n7 1 x\n") ≡ Refused (fault_at 2 MissingField) }
    ensures again { run_at_most 199 299 (codes "HOTP silver pw 3132333435363738393031323334353637383930\n%%\n"
        ++ codes "7 100 CHECK 1 silver 755224 -\n7 101 CHECK 1 silver 755224 -\n8 102 CHECK 1 silver 755224 -\n")
        ≡ Answered (codes "NO 1 PASSWORD" ∷ codes "NO 1 PASSWORD" ∷ codes "NO 1 THROTTLED 3" ∷ []) None }
    // no step up to the import's step and the skew is free
    ensures moment { run_at_step_5 1 (codes "254676") ≡ Answered (codes "NO 1 INVALID" ∷ []) None }
    ensures skew_of_the_node { run_at_step_5 0 (codes "287922") ≡ Answered (codes "NO 1 INVALID" ∷ []) None }
    ensures skew_of_the_import { run_at_step_5 3 (codes "162583") ≡ Answered (codes "NO 1 INVALID" ∷ []) None }
    ensures longest { run_at_most 2 99 (codes "#\n%%\n7 1 x\n") ≡ Answered (codes "NO - BADLINE" ∷ []) None }
    ensures too_long { run_at_most 1 99 (codes "#\n%%\n7 1 x\n") ≡ Refused (fault_at 1 FileTooLong) }
    ensures to_the_limit { run_at_most 2 2 (codes "##") ≡ Answered [] None }
    ensures past_the_limit { run_at_most 2 2 (codes "###") ≡ Refused (fault_at 1 FileTooLong) }
    ensures two_past_the_limit { run_at_most 3 2 (codes "####") ≡ Answered [] None }
    ensures output { output_of answered ≡ codes "OK 1 0\nNO 2 INVALID\n" }
    ensures no_output { output_of (Refused (fault_at 1 MissingField)) ≡ [] }
    ensures end { end_of answered ≡ Err (InputLine 7) }
    ensures end_of_all { end_of (Answered [] None) ≡ Ok tt }
    ensures end_of_users { end_of (Refused (fault_at 2 MissingField)) ≡ Err (Users (fault_at 2 MissingField)) }
    ensures limit { (limits : Limits) (moment : ℕ) (text : List ℕ) → run_of_input limits moment text
        ≡ run_of (record { limits = limits; moment = moment }) 16777216 16777216 text }
    ensures status { (line : ℕ) → status_of (InputLine line) ≡ 1 }
    ensures memory { (status_of Memory ≡ 1) × (outside_fault_of outside.Memory ≡ Memory) }
    ensures read { status_of CannotRead ≡ 1 }
    ensures write { (status_of CannotWrite ≡ 1) × (outside_fault_of outside.CannotWrite ≡ CannotWrite) }
    ensures users { status_of (Users (fault_at 1 MissingField)) ≡ 1 }
    ensures key { status_of (BadKey Empty) ≡ 1 }
    ensures text { (status_of NotText ≡ 2) × (outside_fault_of outside.NotText ≡ NotText) }
{}

/// Counterexamples: each promise of a run's end, and of a failure within its users file, fails for a minimal one.
pub fn runs_can_be_broken()
    ensures kept { EndsSo answered (Err (InputLine 7)) (Some []) (Some (codes "OK 1 0\nNO 2 INVALID\n")) }
    ensures lost_answer { EndsSo answered (Err (InputLine 7)) (Some []) (Some (codes "OK 1 0\n")) → ⊥ }
    ensures other_line { EndsSo answered (Err (InputLine 8)) (Some []) (Some (codes "OK 1 0\nNO 2 INVALID\n")) → ⊥ }
    ensures overlooked { EndsSo answered (Ok tt) (Some []) (Some (codes "OK 1 0\nNO 2 INVALID\n")) → ⊥ }
    ensures first_answers { EndsSo answered (Err Memory) (Some []) (Some (codes "OK 1 0\n"))
        × EndsSo answered (Err CannotRead) (Some []) (Some (codes "OK 1 0\n")) }
    ensures memory { EndsSo answered (Err Memory) (Some []) (Some (codes "NO 2 INVALID\n")) → ⊥ }
    ensures memory_more { EndsSo answered (Err Memory) (Some []) (Some (codes "OK 1 0\nNO 2 INVALID\n\n")) → ⊥ }
    ensures memory_users { EndsSo (Refused (fault_at 2 MissingField)) (Err Memory) (Some []) (Some (codes "\n")) → ⊥ }
    ensures read { EndsSo answered (Err CannotRead) (Some []) (Some (codes "NO 2 INVALID\n")) → ⊥ }
    ensures read_more { EndsSo answered (Err CannotRead) (Some []) (Some (codes "OK 1 0\nNO 2 INVALID\n\n")) → ⊥ }
    ensures read_users { EndsSo (Refused (fault_at 2 MissingField)) (Err CannotRead) (Some []) (Some []) → ⊥ }
    ensures first { WritesFirst answered (Some []) (Some (codes "OK 1 0\n")) }
    ensures first_in_part { WritesFirst answered (Some []) (Some (codes "OK 1 0")) → ⊥ }
    ensures first_of_no_users { WritesFirst (Refused (fault_at 2 MissingField)) (Some []) (Some (codes "\n")) → ⊥ }
    ensures taken { IsTaken answered }
    ensures not_taken { IsTaken (Refused (fault_at 2 MissingField)) → ⊥ }
    ensures users { EndsSo answered (Err (Users (fault_at 1 MissingField))) (Some []) (Some []) → ⊥ }
    ensures users_line { EndsSo (Refused (fault_at 2 MissingField)) (Err (Users (fault_at 1 MissingField)))
        (Some []) (Some []) → ⊥ }
    ensures users_output { EndsSo (Refused (fault_at 2 MissingField)) (Err (Users (fault_at 2 MissingField)))
        (Some []) (Some (codes "\n")) → ⊥ }
    ensures no_text { EndsSo answered (Err NotText) (Some []) (Some (codes "OK 1 0\nNO 2 INVALID\n")) → ⊥ }
    ensures cut { (moment : ℕ) → IsCutAt moment 99 99 (codes "#\n#") (Users (fault_at 2 Read)) }
    ensures cut_at_another_line { (moment : ℕ) → IsCutAt moment 99 99 (codes "#") (Users (fault_at 2 Read)) → ⊥ }
    ensures cut_behind_a_fault { (moment : ℕ) → IsCutAt moment 99 99 (codes "HOTP\n") (Users (fault_at 2 Read)) → ⊥ }
    ensures cut_past_the_longest { (moment : ℕ) → IsCutAt moment 1 99 (codes "#\n") (Users (fault_at 2 Read)) → ⊥ }
    ensures cut_behind_the_users { (moment : ℕ) → IsCutAt moment 99 99 (codes "%%\n") (Users (fault_at 2 Read)) → ⊥ }
    ensures cut_marker { (moment : ℕ) → IsCutAt moment 99 2 (codes "%%\n") (Users (fault_at 2 Read)) }
    ensures cut_by_no_read { IsCutAt 0 99 99 [] (Users (fault_at 7 MissingField)) × IsCutAt 0 99 99 [] Memory }
    ensures secret { EndsWithText (codes "666f6f626172") (Ok tt) (Some []) (Some (codes "MZXW6YTBOI======\n")) }
    ensures secret_lf { EndsWithText (codes "666f6f626172") (Ok tt) (Some []) (Some (codes "MZXW6YTBOI======")) → ⊥ }
    ensures refused_key { EndsWithText (codes "666") (Err (BadKey BadLength)) (Some []) (Some []) }
    ensures other_fault { EndsWithText (codes "666") (Err (BadKey Empty)) (Some []) (Some []) → ⊥ }
    ensures taken_key { EndsWithText (codes "666") (Ok tt) (Some []) (Some []) → ⊥ }
    ensures silent_key { EndsWithText (codes "666") (Err CannotWrite) (Some []) (Some []) → ⊥ }
    ensures outside { IsOutside Memory × IsOutside CannotRead × IsOutside CannotWrite }
    ensures inside { (IsOutside (InputLine 1) → ⊥) × (IsOutside (BadKey Empty) → ⊥) × (IsOutside NotText → ⊥)
        × (IsOutside (Users (fault_at 1 MissingField)) → ⊥) }
{}
