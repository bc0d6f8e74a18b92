ghost use Rattle.std.specs.Prelude.{◌≡◌, ◌≤◌, ◌+◌, ◌-◌, ◌^◌, ◌++◌, ◌∷◌, [], ℕ, List, None, Some, false, true, codes, length, replicate, take};
ghost use Rattle.log_writer.specs.Examples.{begun, two, waiting_of};
ghost use Rattle.log_writer.specs.Line.{first_end, taken_at, with_bytes};
ghost use Rattle.log_writer.specs.Syslog.{Grows, lost_after, lost_line, message_of, offers_of};
ghost use Rattle.log_writer.specs.Waiting.{WaitingRecord, after_write, before, count_ends, counted, handed, is_full, is_quiet, new_waiting};

/// Worked cases. Writes, and what waits after them.
pub fn lines_are_worked()
    ensures piece { after_write (codes "de") (begun (codes "c")) ≡ begun (codes "cde") }
    ensures ended { after_write (codes "d\ne") (begun (codes "c")) ≡ waiting_of (codes "a\nbc\ncd\n") 0 false }
    ensures end { after_write (codes "\n") (begun []) ≡ waiting_of (codes "a\nbc\n\n") 0 false }
    ensures taken { taken_at (first_end (codes "d\ne\n")) (codes "d\ne\n") ≡ 2 }
    ensures taken_all { taken_at (first_end (codes "de")) (codes "de") ≡ 2 }
    ensures long { with_bytes (replicate 1000 7) (7 ∷ 7 ∷ 7 ∷ []) ≡ replicate 1002 7 }
    ensures roomy { (waiting : WaitingRecord) → length waiting.lines ≡ 7189 → is_full waiting ≡ false }
    ensures full { (waiting : WaitingRecord) → length waiting.lines ≡ 7190 → is_full waiting ≡ true }
    ensures quiet { is_quiet (record new_waiting { line = codes "a" }) ≡ true }
    ensures lines { is_quiet (waiting_of two 0 false) ≡ false }
    ensures lost { is_quiet (waiting_of [] 1 false) ≡ false }
{}

/// Worked cases. A writer that takes all, some or nothing of what is handed to it.
pub fn faults_are_worked()
    ensures well { handed (waiting_of two 0 false) 0 5 ≡ new_waiting }
    ensures refused { handed (waiting_of two 0 false) 0 0 ≡ waiting_of [] 2 false }
    ensures one { handed (waiting_of two 0 false) 0 2 ≡ waiting_of [] 1 false }
    ensures cut { handed (waiting_of two 0 false) 0 3 ≡ waiting_of [] 1 true }
    ensures before_end { handed (waiting_of two 0 false) 0 4 ≡ waiting_of [] 1 true }
    ensures nothing { before (waiting_of two 0 false) ≡ [] }
    ensures told { before (waiting_of two 12 false) ≡ codes "dropped lines=12\n" }
    ensures told_cut { before (waiting_of two 1 true) ≡ codes "\ndropped lines=1\n" }
    // the writer works again
    ensures again { handed (waiting_of two 12 false) 17 5 ≡ new_waiting }
    ensures again_cut { handed (waiting_of two 1 true) 17 5 ≡ new_waiting }
    ensures again_one { handed (waiting_of two 1 true) 17 2 ≡ waiting_of [] 1 false }
    // the line of lost lines is refused too
    ensures still { handed (waiting_of two 12 false) 0 0 ≡ waiting_of [] 14 false }
    ensures still_cut { handed (waiting_of two 1 true) 0 0 ≡ waiting_of [] 3 true }
    ensures ended { handed (waiting_of two 1 true) 1 0 ≡ waiting_of [] 3 false }
    ensures cut_again { handed (waiting_of two 1 true) 5 0 ≡ waiting_of [] 3 true }
    ensures begun { handed (begun (codes "c")) 0 5 ≡ record new_waiting { line = codes "c" } }
    ensures most { counted (2 ^ 64 - 1 + 2) ≡ 2 ^ 64 - 1 }
{}

/// Worked cases. The datagrams for a line, and the lines that are lost.
pub fn messages_are_worked()
    ensures message { message_of (codes "end a=1") ≡ codes "<86>1 - - oathd - - - end a=1" }
    ensures lost { message_of (lost_line 12) ≡ codes "<86>1 - - oathd - - - dropped lines=12" }
    ensures sent { offers_of two 0 true true ≡ (message_of two, true) ∷ [] }
    ensures refused { offers_of two 0 true false ≡ (message_of two, false) ∷ [] }
    ensures told { offers_of two 3 true true ≡ (message_of (lost_line 3), true) ∷ (message_of two, true) ∷ [] }
    ensures untold { offers_of two 3 false true ≡ (message_of (lost_line 3), false) ∷ [] }
    ensures none_lost { lost_after 3 true true ≡ 0 }
    ensures one_lost { lost_after 3 true false ≡ 1 }
    ensures more_lost { lost_after 3 false true ≡ 4 }
    ensures grows { Grows (Some []) (Some ((two, true) ∷ [])) ((two, true) ∷ []) }
    ensures grows_by_another { Grows (Some []) (Some ((two, true) ∷ [])) ((two, false) ∷ []) → ⊥ }
    ensures is_lost { Grows (Some []) None [] → ⊥ }
{}

/// Count: each line that waits is taken or counted, and a line that says how many were lost has their number.
pub fn lines_are_counted()
    ensures each { (waiting : WaitingRecord) (passed : ℕ) →
        count_ends (take passed waiting.lines) + (handed waiting (length (before waiting)) passed).dropped
        ≡ count_ends waiting.lines }
    ensures none { (waiting : WaitingRecord) →
        (handed waiting (length (before waiting)) (length waiting.lines)).dropped ≡ 0 }
{}
