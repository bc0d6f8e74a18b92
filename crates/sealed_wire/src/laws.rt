ghost use Rattle.std.specs.Prelude.{◌≡◌, ◌↔◌, ◌∷◌, ◌++◌, ◌≤◌, [], ℕ, List, Some, None, codes, false, length, map, replicate, slice_set, take, true};
ghost use Rattle.sealed_wire.specs.Body.{IsHead, head_at, head_bytes};
ghost use Rattle.sealed_wire.specs.Bytes.{AreBytes};
ghost use Rattle.sealed_wire.specs.Examples.{answer_head, answer_head_bytes, line_head, line_head_bytes, line_tag, report_head_bytes, report_of_request, report_text, request_head, request_tag, sealed_answer, sealed_line, sealed_report, sealed_request};
ghost use Rattle.sealed_wire.specs.Making.{AreMakings, IsAnswerTo, IsApart, IsMade, IsUnforged, Making, bound_len, making_tag, text_len};
ghost use Rattle.sealed_wire.specs.Report.{IsReportOf, is_report, report_at, report_head, report_head_at};
ghost use Rattle.sealed_wire.specs.Sealed.{IsSealedOf, body_of, client_of, head_of, sealed_at, sealed_bytes};
ghost use Rattle.sealed_wire.specs.declared.head.Head.{Head};
ghost use Rattle.sealed_wire.specs.declared.head.Kind.TheVariants.{Answer, Line, Report, Request};

/// One spelling: under each key a head and a text have one spelling, and a datagram one reading.
pub fn one_spelling()
    ensures reading { (key bound bytes text : List ℕ) (head : Head) → AreBytes bytes → IsHead head →
        IsSealedOf key bound head text bytes ↔ (sealed_at key bound bytes ≡ Some (head, text)) }
    ensures again { (key bound text : List ℕ) (head : Head) → IsHead head → length text ≤ 256 →
        sealed_at key bound (sealed_bytes key bound head text) ≡ Some (head, text) }
    // The client whose key opens a datagram is the one that it names.
    ensures client { (key bound bytes text : List ℕ) (head : Head) → sealed_at key bound bytes ≡ Some (head, text) →
        client_of bytes ≡ Some head.client }
    // Its head is the one that it has whatever its tag.
    ensures head { (key bound bytes text : List ℕ) (head : Head) → sealed_at key bound bytes ≡ Some (head, text) →
        head_of bytes ≡ Some head }
{}

/// Authenticity: a holder of the key made every datagram that is read under it, with the same bound bytes, unless a tag
/// was forged.
///
/// A line was made for the node and the moment that it names, whatever address it comes from.
pub fn what_is_read_was_made()
    ensures { (key bytes bound text : List ℕ) (head : Head) (made : List Making) → AreBytes bytes →
        AreMakings key made → length bound ≡ bound_len head.kind → IsUnforged key made bound bytes →
        sealed_at key bound bytes ≡ Some (head, text) →
        IsMade made (record { bound = bound; head = head; text = text }) }
{}

/// Answers: a holder of the key made an answer, which a client reads with its line's tag, for exactly the line.
///
/// It holds if no tag was forged, and if no two sealed texts have the same tag.
pub fn answers_are_for_their_lines()
    ensures { (key bytes answer : List ℕ) (head : Head) (made : List Making) (line : Making) → AreBytes bytes →
        AreMakings key made → IsMade made line → IsUnforged key made (making_tag key line) bytes →
        sealed_at key (making_tag key line) bytes ≡ Some (head, answer) → head.kind ≡ Answer →
        IsAnswerTo key made line head answer }
{}

/// One spelling of reports: under each key a report's head and text have one spelling, and a datagram one reading as a
/// report.
pub fn one_report()
    ensures reading { (key bound bytes text : List ℕ) (head : Head) → AreBytes bytes → IsHead head →
        IsReportOf key bound head text bytes ↔ (report_at key bound bytes ≡ Some (head, text)) }
    ensures again { (key bound text : List ℕ) (request : Head) → IsHead request → length text ≤ 1024 →
        report_at key bound (sealed_bytes key bound (report_head request) text) ≡ Some (report_head request, text) }
{}

/// Reports: a holder of the key made a report, which an operator reads with its request's tag, for exactly the request.
///
/// It holds if no tag was forged, and if no two sealed texts have the same tag. A report belongs to one tag alone, if
/// the texts under its tag differ.
pub fn reports_are_for_their_requests()
    ensures read { (key bytes text : List ℕ) (head : Head) (made : List Making) (request : Making) → AreBytes bytes →
        AreMakings key made → IsMade made request → IsUnforged key made (making_tag key request) bytes →
        report_at key (making_tag key request) bytes ≡ Some (head, text) →
        IsAnswerTo key made request head text }
    ensures one_tag { (key bytes tag other : List ℕ) (read again : Head × List ℕ) →
        report_at key tag bytes ≡ Some read → report_at key other bytes ≡ Some again →
        IsApart key (body_of bytes ++ tag) (body_of bytes ++ other) → tag ≡ other }
{}

/// Worked cases. A line and its answer under a key of 32 zeros, and their readings.
///
/// The readings are under another key, with and without the line's tag, with another tag, and with another byte of the
/// head.
pub fn sealed_are_worked()
    ensures line { sealed_bytes (replicate 32 0) [] line_head (codes "CHECK k1 ann 755224 -") ≡ sealed_line }
    ensures answer { sealed_bytes (replicate 32 0) line_tag answer_head (codes "OK k1 0") ≡ sealed_answer }
    ensures line_read { sealed_at (replicate 32 0) [] sealed_line
        ≡ Some (line_head, codes "CHECK k1 ann 755224 -") }
    ensures answer_read { sealed_at (replicate 32 0) line_tag sealed_answer ≡ Some (answer_head, codes "OK k1 0") }
    ensures unbound { sealed_at (replicate 32 0) [] sealed_answer ≡ None }
    ensures bound { sealed_at (replicate 32 0) line_tag sealed_line ≡ None }
    ensures key { sealed_at (replicate 32 1) [] sealed_line ≡ None }
    ensures last_byte { sealed_at (replicate 32 0) [] (slice_set sealed_line 67 0) ≡ None }
    ensures node { sealed_at (replicate 32 0) [] (slice_set sealed_line 6 3) ≡ None }
    ensures no_tag { sealed_at (replicate 32 0) [] (line_head_bytes ++ codes "CHECK k1 ann 755224 -") ≡ None }
    ensures client { client_of sealed_line ≡ Some 258 }
    ensures short { client_of (replicate 46 0) ≡ None }
    ensures head { head_of sealed_line ≡ Some line_head }
    ensures head_with_a_wrong_tag { head_of (slice_set sealed_line 67 0) ≡ Some line_head }
    ensures head_without_a_tag { head_of (take 46 sealed_line) ≡ None }
{}

/// Worked cases. A request and the report on it under a key of 32 zeros, and readings of the report.
///
/// The readings are under another key, with another tag, and with another byte of the head. A report may have 1,024
/// bytes of text, and no other datagram is read as a report.
pub fn reports_are_worked()
    ensures request { sealed_bytes (replicate 32 0) [] request_head (codes "STATUS") ≡ sealed_request }
    ensures report { sealed_bytes (replicate 32 0) request_tag (report_head request_head) report_text
        ≡ sealed_report }
    ensures read { report_at (replicate 32 0) request_tag sealed_report ≡ Some (report_of_request, report_text) }
    ensures unbound { report_at (replicate 32 0) [] sealed_report ≡ None }
    ensures another_request { report_at (replicate 32 0) line_tag sealed_report ≡ None }
    ensures key { report_at (replicate 32 1) request_tag sealed_report ≡ None }
    ensures answer { report_at (replicate 32 0) line_tag sealed_answer ≡ None }
    ensures kinds { map is_report (Line ∷ Answer ∷ Request ∷ Report ∷ []) ≡ false ∷ false ∷ false ∷ true ∷ [] }
    ensures kind { map (λ kind. report_head_at (slice_set report_head_bytes 3 kind)) (1 ∷ 2 ∷ 3 ∷ 5 ∷ [])
        ≡ replicate 4 None }
    ensures longest { report_head_at (report_head_bytes ++ replicate 1024 32) ≡ Some report_of_request }
    ensures too_long { report_head_at (report_head_bytes ++ replicate 1025 32) ≡ None }
    ensures texts { map text_len (Line ∷ Answer ∷ Request ∷ Report ∷ []) ≡ 256 ∷ 256 ∷ 256 ∷ 1024 ∷ [] }
{}

/// Worked cases. Heads, and their readings with one other byte.
pub fn heads_are_worked()
    ensures line { head_bytes line_head ≡ line_head_bytes }
    ensures answer { head_bytes answer_head ≡ answer_head_bytes }
    ensures read { head_at line_head_bytes ≡ Some line_head }
    ensures longest { head_at (line_head_bytes ++ replicate 256 32) ≡ Some line_head }
    ensures too_long { head_at (line_head_bytes ++ replicate 257 32) ≡ None }
    ensures too_short { head_at (take 14 line_head_bytes) ≡ None }
    ensures mark_0 { head_at (slice_set line_head_bytes 0 0x4e) ≡ None }
    ensures mark_1 { head_at (slice_set line_head_bytes 1 0x56) ≡ None }
    ensures version { head_at (slice_set line_head_bytes 2 2) ≡ None }
    ensures kind_0 { head_at (slice_set line_head_bytes 3 0) ≡ None }
    ensures kind_5 { head_at (slice_set line_head_bytes 3 5) ≡ None }
    ensures request { head_at (slice_set line_head_bytes 3 3) ≡ Some (record line_head { kind = Request }) }
    ensures report { head_at (slice_set line_head_bytes 3 4) ≡ Some (record line_head { kind = Report }) }
    ensures node { head_at (slice_set line_head_bytes 6 3) ≡ Some (record line_head { node = 3 }) }
{}
