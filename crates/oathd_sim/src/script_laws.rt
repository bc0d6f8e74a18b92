ghost use Rattle.std.specs.Prelude.{◌≡◌, ◌↔◌, ℕ, List, [], ◌∷◌, ◌++◌, None, Some, Ok, Err};
ghost use Rattle.std.specs.Prelude.{codes, false, replicate, true};
ghost use Rattle.cluster_sim.specs.Rounds.{RoundLine};
ghost use Rattle.oathd_sim.specs.Event.{Anew, Cut, Deliver, Event, Happens, Lost, Noise, Restart, Says, Ticks};
ghost use Rattle.oathd_sim.specs.Event.{ScriptRecord, empty_script, eventful};
ghost use Rattle.oathd_sim.specs.Grammar.{HasFirstBad, IsEventLine, IsLiveLine, IsRoundLine, IsScript};
ghost use Rattle.oathd_sim.specs.Reading.{IsRefused};
ghost use Rattle.oathd_sim.specs.ReportText.{report_text};
ghost use Rattle.oathd_sim.specs.Script.{bytes_of, event_line, live_line, round_among, script_of};
ghost use Rattle.oathd_sim.specs.declared.script_fault.ScriptFault.TheVariants.{Line, Memory};

/// Grammar of lines: a line is in the grammar if and only if the readers' functions accept it, with the same content.
pub fn grammar_is_read()
    ensures event { (line : List ℕ) (event : Event) → IsEventLine line event ↔ (event_line line ≡ Some event) }
    ensures live { (nodes : ℕ) (line live : List ℕ) → IsLiveLine nodes line live ↔ (live_line nodes line ≡ Some live) }
    ensures round { (live line : List ℕ) (round : RoundLine)
        → IsRoundLine live line round ↔ (round_among live line ≡ Some round) }
{}

/// Grammar of scripts: a text is a script if and only if `script_of` accepts it, and the first bad line is the one it
/// names.
pub fn scripts_are_in_the_grammar()
    ensures script { (nodes : ℕ) (text : List ℕ) (script : ScriptRecord)
        → IsScript nodes text script ↔ (script_of nodes text ≡ Ok script) }
    ensures fault { (nodes : ℕ) (text : List ℕ) (number : ℕ)
        → HasFirstBad nodes text number ↔ (script_of nodes text ≡ Err number) }
{}

/// Worked cases. Lines of events.
pub fn lines_are_worked()
    // each form
    ensures client { event_line (codes "client 2 7 100 CHECK 1") ≡ Some (Happens (Says 2 7 100 (codes "CHECK 1"))) }
    ensures deliver { event_line (codes "deliver 3 12") ≡ Some (Happens (Deliver 3 12)) }
    ensures tick { event_line (codes "tick 1") ≡ Some (Happens (Ticks 1)) }
    ensures noise { event_line (codes "noise 1 2 00fF") ≡ Some (Happens (Noise 1 2 (0 ∷ 255 ∷ []))) }
    ensures restart { event_line (codes "restart 3") ≡ Some (Restart 3) }
    ensures store_lost { event_line (codes "lost 3") ≡ Some (Lost 3) }
    ensures store_anew { event_line (codes "anew 3 5 12 0 7") ≡ Some (Anew 3 5 (12 ∷ 0 ∷ 7 ∷ [])) }
    ensures last_next { event_line (codes "anew 1 2 4611686018427387904") ≡ Some (Anew 1 2 (4611686018427387904 ∷ [])) }
    ensures kept { event_line (codes "cut kept tick 1") ≡ Some (Cut true (Ticks 1)) }
    ensures lost { event_line (codes "cut lost deliver 3 0") ≡ Some (Cut false (Deliver 3 0)) }
    ensures kept_line { event_line (codes "cut kept client 1 2 3 x") ≡ Some (Cut true (Says 1 2 3 (codes "x"))) }
    ensures lost_noise { event_line (codes "cut lost noise 1 2 ab") ≡ Some (Cut false (Noise 1 2 (171 ∷ []))) }

    // the fields
    ensures nothing_said { event_line (codes "client 1 2 3 ") ≡ Some (Happens (Says 1 2 3 [])) }
    ensures spaces_said { event_line (codes "client 1 2 3  a b ") ≡ Some (Happens (Says 1 2 3 (codes " a b "))) }
    ensures zeros { event_line (codes "tick 007") ≡ Some (Happens (Ticks 7)) }
    ensures greatest { event_line (codes "tick 18446744073709551615") ≡ Some (Happens (Ticks 18446744073709551615)) }
    ensures from_above { event_line (codes "noise 1 256 00") ≡ Some (Happens (Noise 1 256 (0 ∷ []))) }
    ensures longest_noise { bytes_of (replicate 1024 48) ≡ Some (replicate 512 0) }

    // other forms
    ensures other_word { event_line (codes "ticks 1") ≡ None }
    ensures upper_case { event_line (codes "TICK 1") ≡ None }
    ensures word_alone { event_line (codes "tick") ≡ None }
    ensures no_number { event_line (codes "tick ") ≡ None }
    ensures sign { event_line (codes "tick +1") ≡ None }
    ensures too_great { event_line (codes "tick 18446744073709551616") ≡ None }
    ensures two_spaces { event_line (codes "deliver 3  12") ≡ None }
    ensures two_spaces_first { event_line (codes "tick  1") ≡ None }
    ensures space_before { event_line (codes " tick 1") ≡ None }
    ensures space_behind { event_line (codes "tick 1 ") ≡ None }
    ensures carriage_return { event_line (codes "tick 1\r") ≡ None }
    ensures field_more { event_line (codes "deliver 3 12 1") ≡ None }
    ensures no_line { event_line (codes "client 1 2 3") ≡ None }
    ensures odd { event_line (codes "noise 1 2 abc") ≡ None }
    ensures no_digits { event_line (codes "noise 1 2 ") ≡ None }
    ensures no_digit { event_line (codes "noise 1 2 0g") ≡ None }
    ensures two_noises { event_line (codes "noise 1 2 ab cd") ≡ None }
    ensures too_long { bytes_of (replicate 1026 48) ≡ None }
    ensures lost_two { event_line (codes "lost 1 2") ≡ None }
    ensures anew_no_next { event_line (codes "anew 1 2") ≡ None }
    ensures anew_empty_next { event_line (codes "anew 1 2 ") ≡ None }
    ensures anew_two_spaces { event_line (codes "anew 1 2 3  4") ≡ None }
    ensures anew_great_next { event_line (codes "anew 1 2 4611686018427387905") ≡ None }
    ensures anew_bad_next { event_line (codes "anew 1 2 3 x") ≡ None }
    ensures cut_lost { event_line (codes "cut kept lost 1") ≡ None }
    ensures cut_restart { event_line (codes "cut kept restart 1") ≡ None }
    ensures cut_cut { event_line (codes "cut kept cut lost tick 1") ≡ None }
    ensures cut_else { event_line (codes "cut off tick 1") ≡ None }
    ensures cut_of_nothing { event_line (codes "cut kept") ≡ None }
    ensures empty { event_line [] ≡ None }
{}

/// Worked cases. Lines with live members, and rounds among them.
pub fn rounds_are_worked()
    // live members
    ensures live { live_line 3 (codes "live 1 2") ≡ Some (1 ∷ 2 ∷ []) }
    ensures all { live_line 3 (codes "live 1 2 3") ≡ Some (1 ∷ 2 ∷ 3 ∷ []) }
    ensures last { live_line 3 (codes "live 02 3") ≡ Some (2 ∷ 3 ∷ []) }
    ensures alone { live_line 1 (codes "live 1") ≡ Some (1 ∷ []) }
    ensures nine { live_line 9 (codes "live 1 2 3 4 9") ≡ Some (1 ∷ 2 ∷ 3 ∷ 4 ∷ 9 ∷ []) }

    // no strict majority
    ensures half { live_line 4 (codes "live 1 2") ≡ None }
    ensures few { live_line 3 (codes "live 1") ≡ None }

    // not ascending, and not a node of the cluster
    ensures twice { live_line 3 (codes "live 1 1") ≡ None }
    ensures descending { live_line 3 (codes "live 2 1") ≡ None }
    ensures zero { live_line 3 (codes "live 0 1") ≡ None }
    ensures beyond { live_line 3 (codes "live 2 4") ≡ None }
    ensures far_beyond { live_line 3 (codes "live 1 258") ≡ None }

    // other forms
    ensures nobody { live_line 3 (codes "live ") ≡ None }
    ensures live_alone { live_line 3 (codes "live") ≡ None }
    ensures two_spaces { live_line 3 (codes "live 1  2") ≡ None }
    ensures space_behind { live_line 3 (codes "live 1 2 ") ≡ None }
    ensures comma { live_line 3 (codes "live 1,2") ≡ None }
    ensures no_event { event_line (codes "live 1 2") ≡ None }

    // rounds
    ensures round { round_among (1 ∷ 2 ∷ []) (codes "round 2 7 100 CHECK 1")
        ≡ Some (record { node = 2; client = 7; moment = 100; line = codes "CHECK 1" }) }
    ensures nothing_said { round_among (1 ∷ []) (codes "round 1 7 100 ")
        ≡ Some (record { node = 1; client = 7; moment = 100; line = [] }) }
    ensures elsewhere { round_among (1 ∷ 2 ∷ []) (codes "round 3 7 100 CHECK 1") ≡ None }
    ensures beyond_a_byte { round_among (1 ∷ 2 ∷ []) (codes "round 257 7 100 CHECK 1") ≡ None }
    ensures no_line { round_among (1 ∷ 2 ∷ []) (codes "round 1 7 100") ≡ None }
    ensures client { round_among (1 ∷ 2 ∷ []) (codes "client 1 7 100 CHECK 1") ≡ None }
    ensures round_is_no_event { event_line (codes "round 1 7 100 CHECK 1") ≡ None }
{}

/// Worked cases. Whole scripts.
pub fn scripts_are_read()
    ensures events { script_of 3 (codes "tick 1\ndeliver 2 0\n")
        ≡ Ok (eventful (Happens (Ticks 1) ∷ Happens (Deliver 2 0) ∷ [])) }
    ensures last_line { script_of 3 (codes "tick 1\ntick 2")
        ≡ Ok (eventful (Happens (Ticks 1) ∷ Happens (Ticks 2) ∷ [])) }
    ensures nothing { script_of 3 [] ≡ Ok empty_script }
    ensures remarks { script_of 3 (codes "# one\n\ntick 1\n#\n\n") ≡ Ok (eventful (Happens (Ticks 1) ∷ [])) }
    ensures no_node { script_of 3 (codes "tick 4") ≡ Ok (eventful (Happens (Ticks 4) ∷ [])) }
    ensures first { script_of 3 (codes "tick\ntick 1\n") ≡ Err 1 }
    ensures counted { script_of 3 (codes "# one\n\ntick 1\ntick\n") ≡ Err 4 }
    ensures first_of_two { script_of 3 (codes "tick 1\ntick\ntick\n") ≡ Err 2 }
    ensures last_bad { script_of 3 (codes "tick 1\ntick") ≡ Err 2 }
    ensures blank { script_of 3 (codes "tick 1\n \n") ≡ Err 2 }
    ensures remark_behind { script_of 3 (codes "tick 1\n #\n") ≡ Err 2 }

    // rounds after the events
    ensures rounds { script_of 3 (codes "tick 1\nlive 1 2\nround 2 7 9 a\nround 1 8 9 b\n") ≡ Ok (record {
      events = Happens (Ticks 1) ∷ [];
      live = 1 ∷ 2 ∷ [];
      rounds = record { node = 2; client = 7; moment = 9; line = codes "a" }
          ∷ record { node = 1; client = 8; moment = 9; line = codes "b" } ∷ [];
    }) }
    ensures remarks_among { script_of 3 (codes "# one\nlive 1 2\n\n# two\nround 2 7 9 a") ≡ Ok (record {
      events = [];
      live = 1 ∷ 2 ∷ [];
      rounds = record { node = 2; client = 7; moment = 9; line = codes "a" } ∷ [];
    }) }
    ensures live_alone { script_of 3 (codes "tick 1\nlive 2 3\n")
        ≡ Ok (record { events = Happens (Ticks 1) ∷ []; live = 2 ∷ 3 ∷ []; rounds = [] }) }
    ensures round_before { script_of 3 (codes "tick 1\nround 2 7 9 a\nlive 1 2\n") ≡ Err 2 }
    ensures round_elsewhere { script_of 3 (codes "live 1 2\nround 1 7 9 a\nround 3 7 9 b\n") ≡ Err 3 }
    ensures event_behind { script_of 3 (codes "live 1 2\n# one\ntick 1\nround 1 7 9 a\n") ≡ Err 3 }
    ensures live_again { script_of 3 (codes "live 1 2\nlive 1 2\n") ≡ Err 2 }
    ensures no_majority { script_of 4 (codes "tick 1\nlive 1 2\nround 1 7 9 a\n") ≡ Err 2 }
{}

/// Worked cases. Reports as text.
pub fn reports_are_worked()
    ensures nothing { report_text (record { passes = []; answers = []; sent = 0 }) ≡ codes "sent 0\n" }
    ensures order { report_text (record {
      passes = record { began = 0; ended = 12; node = 1; token = 0; lo = 3; hi = 4 }
          ∷ record { began = 13; ended = 14; node = 2; token = 1; lo = 5; hi = 5 } ∷ [];
      answers = record { event = 12; node = 1; client = 7; bytes = codes "OK 1 4" }
          ∷ record { event = 2; node = 3; client = 8; bytes = codes "NO - BADLINE" } ∷ [];
      sent = 18446744073709551615;
    }) ≡ codes "pass 0 12 1 0 3 4\npass 13 14 2 1 5 5\n" ++ codes "answer 12 1 7 OK 1 4\nanswer 2 3 8 NO - BADLINE\n"
        ++ codes "sent 18446744073709551615\n" }
{}

/// Counterexamples: a refusal names the first bad line, and no line before or after it.
pub fn scripts_can_be_broken()
    ensures kept { IsRefused (script_of 3 (codes "tick 1\ntick\ntick\n")) (Line 2) }
    ensures line_before { IsRefused (script_of 3 (codes "tick 1\ntick\ntick\n")) (Line 1) → ⊥ }
    ensures second_bad { IsRefused (script_of 3 (codes "tick 1\ntick\ntick\n")) (Line 3) → ⊥ }
    ensures good { IsRefused (script_of 3 (codes "tick 1\n")) (Line 1) → ⊥ }
    ensures memory { IsRefused (script_of 3 (codes "tick 1\n")) Memory }
{}
