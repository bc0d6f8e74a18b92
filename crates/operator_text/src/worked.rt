//! Worked cases of requests and pages.

ghost use Rattle.std.specs.Prelude.{◌≡◌, ◌∷◌, ◌++◌, ◌-◌, ◌^◌, [], ℕ, List, Some, None, codes, false, length, map, replicate, true};
ghost use Rattle.std.specs.List.{concat};
ghost use Rattle.operator_text.specs.Examples.{full_part, letters, line_of, open_part, page_read, three_lines};
ghost use Rattle.operator_text.specs.Number.{line_number};
ghost use Rattle.operator_text.specs.Page.{AreLines, IsLine, new_part, page_of, part_text, pushed, takes};
ghost use Rattle.operator_text.specs.Pages.{are_whole, joined, pages_of};
ghost use Rattle.operator_text.specs.Reading.{page_at};
ghost use Rattle.operator_text.specs.Reply.{reply_at, reply_text};
ghost use Rattle.operator_text.specs.Request.{Ending, IsWish, Lines, OpenGate, changes, request_at, request_text};
ghost use Rattle.operator_text.specs.declared.reply.Reply.TheVariants.{Busy, Draining, NoReport, NoRequest, NoRight, NoUser, Unlocked};
ghost use Rattle.operator_text.specs.declared.request.Report.TheVariants.{Floors, Gates, Passes, Roster, Status};

/// Worked cases. The texts of requests and their readings, and texts that are no requests.
pub fn requests_are_worked()
    ensures texts { map request_text (Lines Status 0 ∷ Lines Gates 7 ∷ Lines Floors 4294967295 ∷ Lines Passes 10
        ∷ Lines Roster 1 ∷ OpenGate (codes "ann") ∷ Ending ∷ []) ≡ codes "STATUS 0" ∷ codes "GATES 7"
        ∷ codes "FLOORS 4294967295" ∷ codes "PASSES 10" ∷ codes "ROSTER 1" ∷ codes "UNLOCK ann" ∷ codes "DRAIN" ∷ [] }
    ensures readings { map request_at (codes "STATUS 0" ∷ codes "GATES 7" ∷ codes "FLOORS 4294967295"
        ∷ codes "PASSES 10" ∷ codes "ROSTER 1" ∷ codes "UNLOCK ann" ∷ codes "DRAIN" ∷ [])
        ≡ Some (Lines Status 0) ∷ Some (Lines Gates 7) ∷ Some (Lines Floors 4294967295) ∷ Some (Lines Passes 10)
        ∷ Some (Lines Roster 1) ∷ Some (OpenGate (codes "ann")) ∷ Some Ending ∷ [] }
    ensures changes { map changes (Lines Status 0 ∷ Lines Roster 0 ∷ OpenGate [] ∷ Ending ∷ [])
        ≡ false ∷ false ∷ true ∷ true ∷ [] }
    ensures numbers { map line_number (codes "0" ∷ codes "10" ∷ codes "4294967295" ∷ [])
        ≡ Some 0 ∷ Some 10 ∷ Some 4294967295 ∷ [] }
    ensures no_numbers { map line_number (codes "00" ∷ codes "01" ∷ codes "4294967296" ∷ codes "" ∷ codes "+1"
        ∷ codes "18446744073709551616" ∷ codes "1a" ∷ codes "-" ∷ []) ≡ replicate 8 None }
    ensures spaces { map request_at (codes " STATUS 0" ∷ codes "STATUS  0" ∷ codes "STATUS 0 " ∷ codes "DRAIN "
        ∷ codes "UNLOCK  ann" ∷ codes "UNLOCK ann " ∷ codes "STATUS\t0" ∷ []) ≡ replicate 7 None }
    ensures ends { map request_at (codes "STATUS 0\n" ∷ codes "UNLOCK ann\n" ∷ codes "DRAIN\n" ∷ codes "DRAIN\r\n" ∷ [])
        ≡ replicate 4 None }
    ensures words { map request_at (codes "status 0" ∷ codes "Drain" ∷ codes "unlock ann" ∷ codes "RESTATUS 0"
        ∷ codes "ROWS 0" ∷ []) ≡ replicate 5 None }
    ensures fields { map request_at ([] ∷ codes "STATUS" ∷ codes "STATUS " ∷ codes "STATUS 0 1" ∷ codes "UNLOCK"
        ∷ codes "UNLOCK ann bob" ∷ codes "DRAIN 0" ∷ []) ≡ replicate 7 None }
    ensures leading_zero { map request_at (codes "STATUS 00" ∷ codes "GATES 07" ∷ []) ≡ None ∷ None ∷ [] }
    ensures beyond_32_bits { request_at (codes "PASSES 4294967296") ≡ None }
    ensures empty_user { request_at (codes "UNLOCK ") ≡ None }
    ensures longest_user { request_at (codes "UNLOCK " ++ letters 64) ≡ Some (OpenGate (letters 64)) }
    ensures user_of_65 { request_at (codes "UNLOCK " ++ letters 65) ≡ None }
    ensures longest { length (request_text (OpenGate (letters 64))) ≡ 71 }
{}

/// Counterexamples: wishes that a request has, and others.
pub fn wishes_can_be_broken()
    ensures number { IsWish (Lines Status 4294967295) }
    ensures number_of_33_bits { IsWish (Lines Status 4294967296) → ⊥ }
    ensures user { IsWish (OpenGate (letters 64)) }
    ensures no_user { IsWish (OpenGate []) → ⊥ }
    ensures user_with_space { IsWish (OpenGate (codes "ann bob")) → ⊥ }
    ensures ending { IsWish Ending }
{}

/// Worked cases. The texts of replies, and texts that are no replies.
pub fn replies_are_worked()
    ensures texts { map reply_text (NoRequest ∷ NoRight ∷ NoReport ∷ NoUser ∷ Busy ∷ Unlocked ∷ Draining ∷ [])
        ≡ codes "NO REQUEST\n" ∷ codes "NO RIGHT\n" ∷ codes "NO REPORT\n" ∷ codes "NO USER\n" ∷ codes "NO BUSY\n"
        ∷ codes "unlocked\n" ∷ codes "draining\n" ∷ [] }
    ensures others { map reply_at ([] ∷ codes "NO BUSY" ∷ codes "NO busy\n" ∷ codes "NO BUSY 1\n" ∷ codes "BUSY\n" ∷ [])
        ≡ replicate 5 None }
{}

/// Worked cases. Pages of lines that fit, fill the page or don't fit.
pub fn pages_are_worked()
    ensures no_line { page_of 0 [] ≡ codes "end\n" }
    ensures no_line_left { page_of 9 [] ≡ codes "end\n" }
    ensures one_line { page_of 5 (codes "a\n" ∷ []) ≡ codes "a\nend\n" }
    ensures three { page_of 0 three_lines ≡ codes "a\nb\nc\nend\n" }
    ensures longest_line { page_of 0 (line_of 511 ∷ []) ≡ line_of 511 ++ codes "end\n" }
    ensures full { page_of 0 (line_of 503 ∷ line_of 503 ∷ []) ≡ line_of 503 ++ line_of 503 ++ codes "end\n" }
    ensures one_byte_more { page_of 0 (line_of 503 ∷ line_of 504 ∷ []) ≡ line_of 503 ++ codes "next 1\n" }
    ensures after_full { page_of 7 (line_of 503 ∷ line_of 503 ∷ codes "\n" ∷ [])
        ≡ line_of 503 ++ line_of 503 ++ codes "next 9\n" }
    // a shorter line doesn't take the place of one that didn't fit
    ensures in_order { page_of 0 (line_of 511 ∷ line_of 511 ∷ codes "a\n" ∷ []) ≡ line_of 511 ++ codes "next 1\n" }
    ensures longest { length (page_of 4294967290 (line_of 503 ∷ line_of 503 ∷ codes "\n" ∷ [])) ≡ 1024 }
    ensures last_number { page_of 4294967294 (codes "a\n" ∷ codes "b\n" ∷ []) ≡ codes "a\nnext 4294967295\n" }
    ensures no_number { page_of 4294967295 (codes "a\n" ∷ []) ≡ codes "next 4294967295\n" }
    ensures ends_inside { page_of 0 (codes "end\n" ∷ codes "next 5\n" ∷ []) ≡ codes "end\nnext 5\nend\n" }
{}

/// Worked cases. Pushes to a page, and its text.
pub fn pushes_are_worked()
    ensures new { new_part 5 ≡ open_part [] 5 }
    ensures one { pushed (new_part 5) (codes "a\n") ≡ open_part (codes "a\n") 6 }
    ensures two { pushed (open_part (codes "a\n") 6) (codes "b\n") ≡ open_part (codes "a\nb\n") 7 }
    ensures last_byte { pushed (open_part (letters 1007) 6) (codes "\n") ≡ open_part (line_of 1007) 7 }
    ensures no_byte { pushed (open_part (letters 1008) 6) (codes "\n") ≡ full_part (letters 1008) 6 }
    ensures after_a_refusal { pushed (full_part [] 6) (codes "a\n") ≡ full_part [] 6 }
    ensures last_number { pushed (new_part 4294967294) (codes "a\n") ≡ open_part (codes "a\n") 4294967295 }
    ensures no_number { pushed (new_part 4294967295) (codes "a\n") ≡ full_part [] 4294967295 }
    ensures taken { map (λ part. takes part (codes "\n")) (new_part 5 ∷ open_part (letters 1007) 5
        ∷ open_part (letters 1008) 5 ∷ full_part [] 5 ∷ new_part 4294967295 ∷ [])
        ≡ true ∷ true ∷ false ∷ false ∷ false ∷ [] }
    ensures texts { map part_text (new_part 5 ∷ open_part (codes "a\n") 6 ∷ full_part [] 5
        ∷ full_part (codes "a\n") 6 ∷ [])
        ≡ codes "end\n" ∷ codes "a\nend\n" ∷ codes "next 5\n" ∷ codes "a\nnext 6\n" ∷ [] }
{}

/// Worked cases. Readings of pages, and bytes that are no page.
pub fn readings_are_worked()
    ensures last { page_at (codes "a\nb\nend\n") ≡ page_read (codes "a\nb\n") None }
    ensures next { page_at (codes "a\nb\nnext 2\n") ≡ page_read (codes "a\nb\n") (Some 2) }
    ensures no_line { page_at (codes "end\n") ≡ page_read [] None }
    ensures no_line_yet { page_at (codes "next 0\n") ≡ page_read [] (Some 0) }
    ensures empty_line { page_at (codes "\nend\n") ≡ page_read (codes "\n") None }
    ensures empty_lines { page_at (codes "\n\nend\n") ≡ page_read (codes "\n\n") None }
    ensures last_number { page_at (codes "next 4294967295\n") ≡ page_read [] (Some 4294967295) }
    // the last line alone decides
    ensures ends_inside { page_at (codes "end\nnext 5\nend\n") ≡ page_read (codes "end\nnext 5\n") None }
    ensures two_ends { page_at (codes "end\nend\n") ≡ page_read (codes "end\n") None }
    ensures no_last_line { map page_at ([] ∷ codes "\n" ∷ codes "a\n" ∷ codes "end\n\n" ∷ codes "end\na\n" ∷ [])
        ≡ replicate 5 None }
    ensures no_lf { map page_at (codes "end" ∷ codes "next 1" ∷ codes "a\nend" ∷ codes "end\n " ∷ [])
        ≡ replicate 4 None }
    ensures words { map page_at (codes "END\n" ∷ codes "end \n" ∷ codes " end\n" ∷ codes "Next 1\n" ∷ codes "nextt 1\n"
        ∷ codes "end\r\n" ∷ codes "aend\n" ∷ []) ≡ replicate 7 None }
    ensures numbers { map page_at (codes "next\n" ∷ codes "next \n" ∷ codes "next  1\n" ∷ codes "next 1 \n"
        ∷ codes "next 01\n" ∷ codes "next 4294967296\n" ∷ codes "next 1 2\n" ∷ []) ≡ replicate 7 None }
{}

/// Counterexamples: the pages of reports, and pages that no report has.
pub fn reports_can_be_broken()
    ensures no_line { pages_of [] ≡ codes "end\n" ∷ [] }
    ensures one_page { pages_of three_lines ≡ codes "a\nb\nc\nend\n" ∷ [] }
    ensures two_pages { pages_of (line_of 511 ∷ line_of 511 ∷ [])
        ≡ (line_of 511 ++ codes "next 1\n") ∷ (line_of 511 ++ codes "end\n") ∷ [] }
    ensures joined { joined (codes "a\nnext 1\n" ∷ codes "b\nc\nend\n" ∷ []) ≡ concat three_lines }
    ensures skipped { joined (codes "a\nnext 2\n" ∷ codes "c\nend\n" ∷ []) ≡ concat three_lines → ⊥ }
    ensures repeated { joined (codes "a\nb\nnext 1\n" ∷ codes "b\nc\nend\n" ∷ []) ≡ concat three_lines → ⊥ }
    ensures swapped { joined (codes "b\nc\nend\n" ∷ codes "a\nnext 1\n" ∷ []) ≡ concat three_lines → ⊥ }
    ensures no_page { joined (codes "a\n" ∷ codes "b\nc\nend\n" ∷ []) ≡ codes "b\nc\n" }
    ensures whole { map are_whole ((codes "a\nend\n" ∷ []) ∷ (codes "a\nnext 1\n" ∷ codes "b\nend\n" ∷ []) ∷ [])
        ≡ true ∷ true ∷ [] }
    ensures not_whole { map are_whole ([] ∷ (codes "a\nnext 1\n" ∷ []) ∷ (codes "a\nend\n" ∷ codes "b\nend\n" ∷ [])
        ∷ (codes "a\n" ∷ []) ∷ []) ≡ replicate 4 false }
{}

/// Counterexamples: lines, and bytes that are no line.
pub fn lines_can_be_broken()
    ensures line { IsLine (line_of 511) }
    ensures empty { IsLine (codes "\n") }
    ensures long { IsLine (line_of 512) → ⊥ }
    ensures no_lf { IsLine (codes "a") → ⊥ }
    ensures nothing { IsLine [] → ⊥ }
    ensures two_lfs { IsLine (codes "a\nb\n") → ⊥ }
    ensures lines { AreLines (codes "a\n" ∷ codes "b\n" ∷ []) }
    ensures second_is_none { AreLines (codes "a\n" ∷ codes "b" ∷ []) → ⊥ }
    ensures many { (lines : List (List ℕ)) → length lines ≡ 2 ^ 32 → AreLines lines → ⊥ }
{}
