ghost use Rattle.std.specs.Prelude.{◌≡◌, ◌↔◌, ◌∷◌, ◌++◌, [], ℕ, List, Some, None, codes, map};
ghost use Rattle.otp_core.specs.Submission.{Check, Resync};
ghost use Rattle.client_lines.specs.Answer.{answer_bytes};
ghost use Rattle.client_lines.specs.Codes.{submission_of};
ghost use Rattle.client_lines.specs.Examples.{check_request, check_text, check_with, letters};
ghost use Rattle.client_lines.specs.Request.{IsLine, Request, request_at};
ghost use Rattle.client_lines.specs.declared.answer.Answer.TheVariants.{BadLine, Reply};
ghost use Rattle.client_lines.specs.declared.answer.Outcome.TheVariants.{Accepted, Refused};
ghost use Rattle.client_lines.specs.declared.answer.Reason.TheVariants.{Busy, Clock, Exhausted, Invalid, Password, Spent, Throttled, Timeout, Unknown};
ghost use Rattle.client_lines.specs.declared.line.Codes.TheVariants.{One, Two};

/// Grammar: the reader accepts a line exactly if it is in the grammar.
pub fn grammar_is_read()
    ensures { (bytes : List ℕ) (request : Request)
        → IsLine bytes request ↔ (request_at bytes ≡ Some request) }
{}

/// Worked cases. Lines and their requests.
pub fn lines_are_worked()
    ensures check { request_at (codes "CHECK 1 silver 755224 -") ≡ check_with None }
    ensures password { request_at (codes "CHECK 1 silver 755224 pw") ≡ check_with (Some (codes "pw")) }
    ensures plus { request_at (codes "CHECK 1 silver 755224 +") ≡ check_with (Some (codes "+")) }
    ensures two_marks { request_at (codes "CHECK 1 silver 755224 --") ≡ check_with (Some (codes "--")) }
    ensures resync { request_at (codes "RESYNC aZ9 silver 755224 12345678 -") ≡ Some (record {
      nonce = codes "aZ9";
      user = codes "silver";
      submission = Resync (codes "755224") (codes "12345678");
      password = None;
    }) }
    ensures submissions { map submission_of (One (codes "755224") ∷ Two (codes "755224") (codes "287082") ∷ [])
        ≡ Check (codes "755224") ∷ Resync (codes "755224") (codes "287082") ∷ [] }

    // one LF at the end, and no other one
    ensures lf { request_at (codes "CHECK 1 silver 755224 -" ++ 10 ∷ []) ≡ check_with None }
    ensures two_lfs { request_at (codes "CHECK 1 silver 755224 -" ++ 10 ∷ 10 ∷ []) ≡ None }
    ensures cr_lf { request_at (codes "CHECK 1 silver 755224 -" ++ 13 ∷ 10 ∷ []) ≡ None }
    ensures empty { request_at [] ≡ None }
    ensures space_before { request_at (codes " CHECK 1 silver 755224 -") ≡ None }
    ensures space_behind { request_at (codes "CHECK 1 silver 755224 - ") ≡ None }
    ensures two_spaces { request_at (codes "CHECK  1 silver 755224 -") ≡ None }
    ensures tab { request_at (codes "CHECK 1 silver" ++ 9 ∷ codes "755224 -") ≡ None }

    // the words and the number of fields
    ensures lower_case { request_at (codes "check 1 silver 755224 -") ≡ None }
    ensures other_word { request_at (codes "RECHECK 1 silver 755224 -") ≡ None }
    ensures few { request_at (codes "CHECK 1 silver 755224") ≡ None }
    ensures check_of_two { request_at (codes "CHECK 1 silver 755224 287082 -") ≡ None }
    ensures resync_of_one { request_at (codes "RESYNC 1 silver 755224 -") ≡ None }
    ensures many { request_at (codes "RESYNC 1 silver 755224 287082 - -") ≡ None }

    // the ends of each field
    ensures longest { request_at (check_text (letters 20) (letters 64) (codes "12345678") (letters 64))
        ≡ check_request (letters 20) (letters 64) (codes "12345678") (letters 64) }
    ensures nonce { request_at (check_text (letters 21) (letters 64) (codes "12345678") (letters 64)) ≡ None }
    ensures user { request_at (check_text (letters 20) (letters 65) (codes "12345678") (letters 64)) ≡ None }
    ensures password_length { request_at (check_text (letters 20) (letters 64) (codes "12345678") (letters 65)) ≡ None }
    ensures code_of_5 { request_at (codes "CHECK 1 silver 75522 -") ≡ None }
    ensures code_of_9 { request_at (codes "CHECK 1 silver 755224000 -") ≡ None }
    ensures letter_in_code { request_at (codes "CHECK 1 silver 75522a -") ≡ None }
    ensures first_code { request_at (codes "RESYNC 1 silver 75522 287082 -") ≡ None }
    ensures second_code { request_at (codes "RESYNC 1 silver 755224 28708 -") ≡ None }
    ensures empty_nonce { request_at (codes "CHECK  silver 755224 -") ≡ None }
    ensures empty_user { request_at (codes "CHECK 1  755224 -") ≡ None }
    ensures empty_password { request_at (codes "CHECK 1 silver 755224 ") ≡ None }
    ensures underscore { request_at (codes "CHECK 1_ silver 755224 -") ≡ None }
    ensures form_feed { request_at (check_text (codes "1") (97 ∷ 12 ∷ []) (codes "755224") (codes "pw"))
        ≡ check_request (codes "1") (97 ∷ 12 ∷ []) (codes "755224") (codes "pw") }
    ensures tab_in_user { request_at (check_text (codes "1") (97 ∷ 9 ∷ []) (codes "755224") (codes "pw")) ≡ None }
    ensures resync_nonce { request_at (codes "RESYNC 1_ silver 755224 287082 -") ≡ None }
    ensures resync_user { request_at (codes "RESYNC 1 " ++ letters 65 ++ codes " 755224 287082 -") ≡ None }
    ensures resync_password { request_at (codes "RESYNC 1 silver 755224 287082 " ++ letters 65) ≡ None }
{}

/// Worked cases. The text of each answer.
pub fn answers_are_worked()
    ensures bad_line { answer_bytes BadLine ≡ codes "NO - BADLINE" }
    ensures accepted { answer_bytes (Reply (codes "a1") (Accepted 4611686018427387903))
        ≡ codes "OK a1 4611686018427387903" }
    ensures first { answer_bytes (Reply (codes "a1") (Accepted 0)) ≡ codes "OK a1 0" }
    ensures unknown { answer_bytes (Reply (codes "a1") (Refused Unknown)) ≡ codes "NO a1 UNKNOWN" }
    ensures password { answer_bytes (Reply (codes "a1") (Refused Password)) ≡ codes "NO a1 PASSWORD" }
    ensures throttled { answer_bytes (Reply (codes "a1") (Refused (Throttled 50000))) ≡ codes "NO a1 THROTTLED 50000" }
    ensures invalid { answer_bytes (Reply (codes "a1") (Refused Invalid)) ≡ codes "NO a1 INVALID" }
    ensures spent { answer_bytes (Reply (codes "a1") (Refused Spent)) ≡ codes "NO a1 SPENT" }
    ensures timeout { answer_bytes (Reply (codes "a1") (Refused Timeout)) ≡ codes "NO a1 TIMEOUT" }
    ensures busy { answer_bytes (Reply (codes "a1") (Refused Busy)) ≡ codes "NO a1 BUSY" }
    ensures clock { answer_bytes (Reply (codes "a1") (Refused Clock)) ≡ codes "NO a1 CLOCK" }
    ensures exhausted { answer_bytes (Reply (codes "a1") (Refused Exhausted)) ≡ codes "NO a1 EXHAUSTED" }
{}
