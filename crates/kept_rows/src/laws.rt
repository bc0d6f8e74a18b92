ghost use Rattle.std.specs.Prelude.{◌≡◌, ℕ, ◌+◌, ◌≤◌, ◌==◌, ◌++◌, ◌∷◌, [], Bool, List, codes, filter, length, map, replicate, true, false};
ghost use Rattle.token_file.specs.Fields.{lines_of};
ghost use Rattle.kept_rows.specs.Kept.{kept_rows};
ghost use Rattle.kept_rows.specs.Left.{is_next, left_from, left_text, printed, shown};

/// Kept rows: each line of the text that is to be kept is there, and no other line of the text, in its order.
pub fn kept_rows_are_lines()
    ensures lines { (is_kept : List ℕ → Bool) (text : List ℕ) → lines_of (kept_rows is_kept text)
        ≡ filter is_kept (lines_of text) ++ [] ∷ [] }
    ensures short { (is_kept : List ℕ → Bool) (text : List ℕ) → length (kept_rows is_kept text) ≤ length text + 1 }
{}

/// Worked cases. The lines of a text that are kept: those of one byte, and none.
pub fn kept_rows_are_worked()
    ensures some { kept_rows (λ line. length line == 1) (codes "a\nbc\n\nd\n") ≡ codes "a\nd\n" }
    ensures order { kept_rows (λ line. length line == 1) (codes "c\nxx\na\nc\n") ≡ codes "c\na\nc\n" }
    ensures no_last_end { kept_rows (λ line. length line == 1) (codes "a\nb") ≡ codes "a\nb\n" }
    ensures no_text { kept_rows (λ line. length line == 1) [] ≡ [] }
    ensures none { kept_rows (λ line. false) (codes "a\n") ≡ [] }
    ensures bytes_alone { kept_rows (λ line. true) (codes "a\r\nB") ≡ codes "a\r\nB\n" }
{}

/// Worked cases. The reports of the rows that are left out.
pub fn left_rows_are_worked()
    ensures new { left_text (codes "HOTP a - 31\n# HOTP c\n\n HOTP\tb - 32\nHOTP/E d") (codes "HOTP a - 31\n")
        ≡ codes "enrol refused Full\nenrol left line=4 user=b\nenrol left line=5 user=d\n" }
    ensures before { left_text (codes "x b\n\nx a\nx c\n") (codes "x a\n")
        ≡ codes "enrol refused Full\nenrol left line=1 user=b\nenrol left line=4 user=c\n" }
    ensures all_kept { left_text (codes "a v\nb u\n") (codes "a v\nb u\n") ≡ codes "enrol refused Full\n" }
    ensures no_rows { left_text (codes "#\n#x y\n \t\n") [] ≡ codes "enrol refused Full\n" }
    ensures no_user { left_text (codes "HOTP") [] ≡ codes "enrol refused Full\nenrol left line=1 user=\n" }
    ensures second_of_two { left_from (codes "x a" ∷ []) 7 (codes "x a" ∷ codes "x a" ∷ [])
        ≡ codes "enrol left line=8 user=a\n" }
    ensures nexts { map (is_next (codes "a" ∷ codes "b" ∷ [])) (codes "a" ∷ codes "b" ∷ codes "A" ∷ [] ∷ [])
        ≡ true ∷ false ∷ false ∷ false ∷ [] }
    ensures no_next { is_next [] [] ≡ false }
    ensures bytes { map printed (32 ∷ 33 ∷ 126 ∷ 127 ∷ 200 ∷ []) ≡ 63 ∷ 33 ∷ 126 ∷ 63 ∷ 63 ∷ [] }
    ensures long_user { shown (replicate 65 97) ≡ replicate 64 97 }
{}
