ghost use Rattle.std.specs.Prelude.{◌≡◌, ◌++◌, [], ◌∷◌, ℕ, List, Some, Ok, Err, codes, false, map, true};
ghost use Rattle.otp_core.specs.Limits.{default_limits};
ghost use Rattle.token_file.specs.UsersFile.{import_of};
ghost use Rattle.token_file.specs.declared.fault.LineFault.TheVariants.{BadSecret, FileTooLong, MissingField, Read};
ghost use Rattle.token_file.specs.Examples.{event_token};
ghost use Rattle.oath_node.specs.Hosted.{envelope_at};
ghost use Rattle.oath_node.specs.Machine.{Config};
ghost use Rattle.cluster_sim.specs.World as world;
ghost use Rattle.cluster_sim.specs.World.{ReportValue, first_start, report_of};
ghost use Rattle.oathd_sim.specs.ReportText.{report_text};
ghost use Rattle.oathd_sim.specs.declared.script_fault.ScriptFault.TheVariants as script;
ghost use Rattle.users_input.specs.declared.fault.InputFault.TheVariants as input;
ghost use Rattle.users_input.specs.declared.fault.UsersFault.TheVariants as users;
ghost use Rattle.oathd_sim.specs.Broken.{IsUnreadFor, fault_at, one_tick};
ghost use Rattle.oathd_sim.specs.Examples.{IsCutAt, line_of_15, one_node, printed_at_step_5};
ghost use Rattle.oathd_sim.specs.Fault.{input_fault_of, script_fault_of, users_fault_of};
ghost use Rattle.oathd_sim.specs.Parts.{HasParts, IsGivenUp, IsUnread};
ghost use Rattle.oathd_sim.specs.declared.fault.Fault.TheVariants.{CannotRead, CannotWrite, Memory, ScriptLine, Users};
ghost use Rattle.oathd_sim.specs.Event.{Anew, Cut, Deliver, Happens, Lost, Noise, Restart, Says, Ticks};
ghost use Rattle.oathd_sim.specs.Event.{empty_script, eventful};
ghost use Rattle.oathd_sim.specs.Sim.{BadScript, EndsSo, IsTaken, Refused, Reports};
ghost use Rattle.oathd_sim.specs.Sim.{event_under, output_of, script_events, script_read, sim_of, sim_of_script};

/// Worked cases. Scripts in whole inputs: lines are numbered from 1, and the users file and `%%` count.
pub fn scripts_are_worked()
    ensures good { script_read 3 99 (codes "#\n%%\ntick 1") ≡ Ok (eventful (Happens (Ticks 1) ∷ [])) }
    ensures after_users { script_read 3 99 (codes "#\n\n%%\ntick 1\ntick\n") ≡ Err 5 }
    ensures no_users { script_read 3 99 (codes "%%\ntick\n") ≡ Err 2 }
    ensures remarks { script_read 3 99 (codes "%%\n# one\n\ntick\ntick\n") ≡ Err 4 }
    ensures marker_again { script_read 3 99 (codes "%%\ntick 1\n%%\n") ≡ Err 3 }
    ensures no_marker { script_read 3 99 (codes "#\ntick\n") ≡ Ok empty_script }
    ensures nothing_after { script_read 3 99 (codes "#\n%%") ≡ Ok empty_script }

    // the line that the limit cuts is bad, whatever it begins with
    ensures to_the_limit { script_read 3 13 (codes "%%\ntick 1\n# b") ≡ Ok (eventful (Happens (Ticks 1) ∷ [])) }
    ensures cut { script_read 3 12 (codes "%%\ntick 1\n# b") ≡ Err 3 }
    ensures cut_after_lf { script_read 3 10 (codes "%%\ntick 1\n# b") ≡ Err 3 }
    ensures cut_at_lf { script_read 3 9 (codes "%%\ntick 1\n# b") ≡ Err 2 }
    ensures cut_after_marker { script_read 3 3 (codes "%%\ntick 1\n# b") ≡ Err 2 }
{}

/// Worked cases. Outputs of simulations, and a script's events under a key.
pub fn simulations_are_worked()
    // no step up to the import's step and the skew is free
    ensures moment { printed_at_step_5 1 (codes "254676") ≡ codes "answer 0 1 7 NO 1 INVALID\nsent 0\n" }
    ensures skew_of_the_nodes { printed_at_step_5 0 (codes "287922") ≡ codes "answer 0 1 7 NO 1 INVALID\nsent 0\n" }
    ensures skew_of_the_import { printed_at_step_5 3 (codes "162583") ≡ codes "answer 0 1 7 NO 1 INVALID\nsent 0\n" }

    // one byte past the limit is read, and a line that continues there is bad
    ensures at_the_limit { output_of (sim_of (one_node []) 99 18 line_of_15)
        ≡ codes "answer 0 1 7 NO - BADLINE\nsent 0\n" }
    ensures past_the_limit { sim_of (one_node []) 99 17 line_of_15 ≡ BadScript 2 }

    // noise is read under the key
    ensures noise { (key bytes : List ℕ) → event_under key (Happens (Noise 1 2 bytes))
        ≡ world.Happens (world.Noise 1 2 (envelope_at key bytes)) }
    ensures noise_in_a_stop { (key bytes : List ℕ) → event_under key (Cut true (Noise 1 2 bytes))
        ≡ world.Cut true (world.Noise 1 2 (envelope_at key bytes)) }
    ensures noise_of_a_script { (config : Config) (key bytes : List ℕ)
        → script_events config ([] ∷ []) key (eventful (Happens (Noise 1 2 bytes) ∷ []))
        ≡ world.Happens (world.Noise 1 2 (envelope_at key bytes)) ∷ [] }
    ensures noise_of_a_simulation { (key bytes : List ℕ)
        → sim_of_script (one_node key) (import_of [] []) (Ok (eventful (Happens (Noise 1 2 bytes) ∷ [])))
        ≡ Reports (report_of (record { book = []; limits = default_limits }) (first_start ([] ∷ []))
        (world.Happens (world.Noise 1 2 (envelope_at key bytes)) ∷ [])) }
    ensures other_events { map (event_under []) (Happens (Says 1 7 5 (codes "x")) ∷ Happens (Deliver 1 2)
        ∷ Cut false (Ticks 1) ∷ Restart 1 ∷ Lost 1 ∷ Anew 1 2 (3 ∷ []) ∷ [])
        ≡ world.Happens (world.Says 1 7 5 (codes "x")) ∷ world.Happens (world.Deliver 1 2)
        ∷ world.Cut false (world.Ticks 1) ∷ world.Restart 1 ∷ world.Lost 1 ∷ world.Anew 1 2 (3 ∷ []) ∷ [] }
{}

/// Worked cases. A simulation's fault for each fault of its parts.
pub fn faults_are_worked()
    ensures inputs { map input_fault_of (input.Memory ∷ input.CannotRead ∷ []) ≡ Memory ∷ CannotRead ∷ [] }
    ensures users { map users_fault_of (users.Memory ∷ users.File (fault_at 2 MissingField) ∷ [])
        ≡ Memory ∷ Users (fault_at 2 MissingField) ∷ [] }
    ensures scripts { map script_fault_of (script.Memory ∷ script.Line 4 ∷ []) ≡ Memory ∷ ScriptLine 4 ∷ [] }
{}

/// Counterexamples: each promise of a simulation's end, of an input's parts, and of a failure within its users file
/// fails for a minimal one.
pub fn simulations_can_be_broken()
    ensures reported { (report : ReportValue) →
        EndsSo (Reports report) (Ok tt) (Some []) (Some (report_text report)) }
    ensures reported_more { (report : ReportValue) →
        EndsSo (Reports report) (Ok tt) (Some []) (Some (report_text report ++ 10 ∷ [])) → ⊥ }
    ensures bad_line { EndsSo (BadScript 4) (Err (ScriptLine 4)) (Some []) (Some []) }
    ensures bad_line_overlooked { EndsSo (BadScript 4) (Ok tt) (Some []) (Some []) → ⊥ }
    ensures other_line { EndsSo (BadScript 4) (Err (ScriptLine 5)) (Some []) (Some []) → ⊥ }
    ensures bad_line_prints { EndsSo (BadScript 4) (Err (ScriptLine 4)) (Some []) (Some (codes "\n")) → ⊥ }
    ensures memory { EndsSo (BadScript 4) (Err Memory) (Some []) (Some []) }
    ensures memory_prints { EndsSo (BadScript 4) (Err Memory) (Some []) (Some (codes "\n")) → ⊥ }
    ensures read { EndsSo (BadScript 4) (Err CannotRead) (Some []) (Some []) }
    ensures read_prints { EndsSo (BadScript 4) (Err CannotRead) (Some []) (Some (codes "\n")) → ⊥ }
    ensures read_users { EndsSo (Refused (fault_at 2 MissingField)) (Err CannotRead) (Some []) (Some []) → ⊥ }
    ensures written { (report : ReportValue) → EndsSo (Reports report) (Err CannotWrite) (Some []) (Some []) }
    ensures written_of_a_bad_line { EndsSo (BadScript 4) (Err CannotWrite) (Some []) (Some []) → ⊥ }
    ensures users { EndsSo (Refused (fault_at 2 MissingField)) (Err (Users (fault_at 2 MissingField)))
        (Some []) (Some []) }
    ensures users_line { EndsSo (Refused (fault_at 2 MissingField)) (Err (Users (fault_at 1 MissingField)))
        (Some []) (Some []) → ⊥ }
    ensures users_kind { EndsSo (Refused (fault_at 2 MissingField)) (Err (Users (fault_at 2 BadSecret)))
        (Some []) (Some []) → ⊥ }
    ensures users_print { EndsSo (Refused (fault_at 2 MissingField)) (Err (Users (fault_at 2 MissingField)))
        (Some []) (Some (codes "\n")) → ⊥ }
    ensures users_are_good { EndsSo (BadScript 4) (Err (Users (fault_at 2 MissingField))) (Some []) (Some []) → ⊥ }
    ensures taken { IsTaken (BadScript 4) }
    ensures not_taken { IsTaken (Refused (fault_at 2 MissingField)) → ⊥ }
    ensures given_up { IsGivenUp (BadScript 4) (ScriptLine 4) × IsGivenUp (BadScript 4) Memory }
    ensures given_up_at_another { IsGivenUp (BadScript 4) (ScriptLine 5) → ⊥ }
    ensures given_up_for_no_reason { IsGivenUp (BadScript 4) CannotRead → ⊥ }
    ensures given_up_by_the_output { IsGivenUp (BadScript 4) CannotWrite → ⊥ }
    ensures given_up_by_the_users { IsGivenUp (BadScript 4) (Users (fault_at 2 MissingField)) → ⊥ }
    ensures unread { IsUnreadFor (codes "HOTP a -\n") (Users (fault_at 1 MissingField)) }
    ensures unread_by_the_input { IsUnreadFor one_tick CannotRead }
    ensures unread_at_another { IsUnreadFor (codes "HOTP a -\n") (Users (fault_at 2 MissingField)) → ⊥ }
    ensures unread_for_another_fault { IsUnreadFor (codes "HOTP a -\n") (Users (fault_at 1 BadSecret)) → ⊥ }
    ensures unread_past_the_longest { IsUnread default_limits 0 1 99 (codes "#\n") (Users (fault_at 1 FileTooLong)) }
    ensures unread_cut { IsUnreadFor [] (Users (fault_at 1 Read)) }
    ensures unread_cut_at_another_line { IsUnreadFor [] (Users (fault_at 2 Read)) → ⊥ }
    ensures unread_behind_a_bad_file { IsUnreadFor (codes "HOTP a -\n%%\n") CannotRead → ⊥ }
    ensures unread_by_the_output { IsUnreadFor one_tick CannotWrite → ⊥ }
    ensures unread_by_the_script { IsUnreadFor one_tick (ScriptLine 3) → ⊥ }
    ensures parts { HasParts default_limits 0 99 99 one_tick [] [] 3 (codes "tick 1") false }
    ensures parts_book { HasParts default_limits 0 99 99 one_tick (event_token (codes "a") ∷ []) [] 3 (codes "tick 1")
        false → ⊥ }
    ensures parts_import { HasParts default_limits 0 99 99 one_tick [] (5 ∷ []) 3 (codes "tick 1") false → ⊥ }
    ensures parts_number { HasParts default_limits 0 99 99 one_tick [] [] 4 (codes "tick 1") false → ⊥ }
    ensures parts_script { HasParts default_limits 0 99 99 one_tick [] [] 3 (codes "tick 2") false → ⊥ }
    ensures parts_cut { HasParts default_limits 0 99 99 one_tick [] [] 3 (codes "tick 1") true → ⊥ }
    ensures cut { (moment : ℕ) → IsCutAt moment 99 99 (codes "#\n#") (Users (fault_at 2 Read)) }
    ensures cut_at_another_line { (moment : ℕ) → IsCutAt moment 99 99 (codes "#") (Users (fault_at 2 Read)) → ⊥ }
    ensures cut_behind_a_fault { (moment : ℕ) → IsCutAt moment 99 99 (codes "HOTP\n") (Users (fault_at 2 Read)) → ⊥ }
    ensures cut_past_the_longest { (moment : ℕ) → IsCutAt moment 1 99 (codes "#\n") (Users (fault_at 2 Read)) → ⊥ }
    ensures cut_behind_the_users { (moment : ℕ) → IsCutAt moment 99 99 (codes "%%\n") (Users (fault_at 2 Read)) → ⊥ }
    ensures cut_marker { (moment : ℕ) → IsCutAt moment 99 2 (codes "%%\n") (Users (fault_at 2 Read)) }
    ensures cut_by_no_read { IsCutAt 0 99 99 [] (Users (fault_at 7 MissingField)) × IsCutAt 0 99 99 [] Memory }
{}
