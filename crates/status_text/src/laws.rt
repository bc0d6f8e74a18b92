//! Laws and worked cases of STATUS reports.

ghost use Rattle.std.specs.Prelude.{◌≡◌, ◌∷◌, ◌++◌, ◌^◌, ◌<◌, [], All, List, None, Some, codes, drop, length, map, replicate, take};
ghost use Rattle.gatekeeping.specs.Commits.{commits_of};
ghost use Rattle.status_text.specs.Examples.{commits_once, first_status, no_commits, refused_once, unopened_once};
ghost use Rattle.operator_text.specs.Page.{AreLines, IsLine};
ghost use Rattle.status_text.specs.Status.{commit_lines, refused_lines, status_text, unopened_lines};
ghost use Rattle.status_text.specs.StatusLine.{IsStatusLine, line_text};
ghost use Rattle.status_text.specs.declared.status_line.Quantity.TheVariants as Quantities;
ghost use Rattle.gatekeeping.specs.declared.others.Seen.TheVariants.{Differs, Heard, Silent};
ghost use Rattle.status_text.specs.declared.status_line.StatusLine.{StatusLine};
ghost use Rattle.status_text.specs.declared.status_line.StatusLine.TheVariants.{Book, Fingerprint, Member, Node, Number, Rows, Version};

/// Reports: the texts of a STATUS report are lines, so that the laws of pages hold for it.
pub fn status_is_a_report()
    ensures line { (line : StatusLine) → IsStatusLine line → IsLine (line_text line) }
    ensures lines { (lines : List StatusLine) → All IsStatusLine lines → length lines < 2 ^ 32 →
        AreLines (map line_text lines) }
{}

/// Worked cases. The text of each line.
pub fn status_lines_are_worked()
    ensures node { line_text (Node 1 3) ≡ codes "node 1 of 3\n" }
    ensures version { line_text (Version 0 9 10) ≡ codes "version 0.9.10\n" }
    ensures fingerprint { line_text (Fingerprint (codes "b1061f3a2d61dfbd")) ≡ codes "fingerprint b1061f3a2d61dfbd\n" }
    ensures book { line_text (Book (codes "2a8f4a2865495c60")) ≡ codes "book 2a8f4a2865495c60\n" }
    ensures rows { map line_text (Rows 2 65536 ∷ Rows 4294967295 4294967295 ∷ [])
        ≡ codes "rows 2 of 65536\n" ∷ codes "rows 4294967295 of 4294967295\n" ∷ [] }
    ensures times { map line_text (Number Quantities.Boot 7 ∷ Number Quantities.Clock 1800000000
        ∷ Number Quantities.Started 1700000000 ∷ []) ≡ codes "boot 7\n" ∷ codes "clock 1800000000\n"
        ∷ codes "started 1700000000\n" ∷ [] }
    ensures tokens { map line_text (Number Quantities.Tokens 2 ∷ Number Quantities.Pending 0
        ∷ Number Quantities.Closed 1 ∷ []) ≡ codes "tokens 2\n" ∷ codes "pending 0\n" ∷ codes "closed 1\n" ∷ [] }
    ensures datagrams { map line_text (Number Quantities.Received 18446744073709551615 ∷ Number Quantities.Replied 4
        ∷ Number Quantities.Accepted 3 ∷ Number Quantities.Ticks 5 ∷ []) ≡ codes "received 18446744073709551615\n"
        ∷ codes "replied 4\n" ∷ codes "accepted 3\n" ∷ codes "ticks 5\n" ∷ [] }
    ensures refusals { map line_text (refused_lines refused_once) ≡ codes "refused BADLINE 1\n"
        ∷ codes "refused CLOCK 2\n" ∷ codes "refused BUSY 3\n" ∷ codes "refused UNKNOWN 4\n"
        ∷ codes "refused THROTTLED 5\n" ∷ codes "refused PASSWORD 6\n" ∷ codes "refused EXHAUSTED 7\n"
        ∷ codes "refused INVALID 8\n" ∷ codes "refused SPENT 9\n" ∷ codes "refused TIMEOUT 10\n" ∷ [] }
    ensures batches { map line_text (Number Quantities.LargestBatch 64 ∷ Number Quantities.Commits 9 ∷ [])
        ≡ codes "largest-batch 64\n" ∷ codes "commits 9\n" ∷ [] }
    ensures commits { map line_text (commit_lines commits_once) ≡ codes "commit-millis 1 1\n"
        ∷ codes "commit-millis 2 2\n" ∷ codes "commit-millis 5 3\n" ∷ codes "commit-millis 10 4\n"
        ∷ codes "commit-millis 20 5\n" ∷ codes "commit-millis 50 6\n" ∷ codes "commit-millis 100 7\n"
        ∷ codes "commit-millis more 8\n" ∷ [] }
    ensures causes { map line_text (unopened_lines unopened_once) ≡ codes "unopened form 1\n"
        ∷ codes "unopened tag 2\n" ∷ codes "unopened early 3\n" ∷ codes "unopened late 4\n"
        ∷ codes "unopened again 5\n" ∷ codes "unopened limited 6\n" ∷ [] }
    ensures members { map line_text (Member 2 (Heard 3) ∷ Member 3 Silent ∷ Member 9 Differs ∷ [])
        ≡ codes "member 2 heard 3\n" ∷ codes "member 3 silent\n" ∷ codes "member 9 differs\n" ∷ [] }
{}

/// Worked cases. The lines of reports: without a book, rows, refusals, commits, datagrams and members, and with all of
/// them.
pub fn statuses_are_worked()
    ensures least { status_text first_status ≡ codes "node 1 of 3\n" ∷ codes "boot 7\n" ∷ codes "version 0.9.0\n"
        ∷ codes "clock 1800000000\n" ∷ codes "started 1700000000\n" ∷ codes "fingerprint b1061f3a2d61dfbd\n"
        ∷ codes "tokens 2\n" ∷ codes "pending 0\n" ∷ codes "closed 1\n" ∷ codes "received 6\n" ∷ codes "replied 4\n"
        ∷ codes "accepted 3\n" ∷ codes "ticks 5\n" ∷ codes "largest-batch 3\n" ∷ codes "commits 0\n" ∷ [] }
    ensures book { take 2 (drop 5 (status_text (record first_status { book = Some (codes "2a8f4a2865495c60") })))
        ≡ codes "fingerprint b1061f3a2d61dfbd\n" ∷ codes "book 2a8f4a2865495c60\n" ∷ [] }
    ensures rows { take 3 (drop 6 (status_text (record first_status
        { book = Some (codes "2a8f4a2865495c60"); rows = Some (record { number = 3; limit = 65536 }) })))
        ≡ codes "book 2a8f4a2865495c60\n" ∷ codes "rows 3 of 65536\n" ∷ codes "tokens 2\n" ∷ [] }
    ensures refused { take 4 (drop 11 (status_text (record first_status
        { refused = record first_status.refused { clock = 8; spent = 1 } })))
        ≡ codes "accepted 3\n" ∷ codes "refused CLOCK 8\n" ∷ codes "refused SPENT 1\n" ∷ codes "ticks 5\n" ∷ [] }
    ensures commits { drop 13 (status_text (record first_status
        { commit_times = record no_commits { five = 20; more = 1 } }))
        ≡ codes "largest-batch 3\n" ∷ codes "commits 21\n" ∷ codes "commit-millis 5 20\n"
        ∷ codes "commit-millis more 1\n" ∷ [] }
    ensures unopened { drop 14 (status_text (record first_status
        { unopened = record first_status.unopened { tag = 8; limited = 1 } }))
        ≡ codes "commits 0\n" ∷ codes "unopened tag 8\n" ∷ codes "unopened limited 1\n" ∷ [] }
    ensures others { drop 14 (status_text (record first_status {
      unopened = record first_status.unopened { form = 1 };
      others = record { items = record { number = 2; seen = Heard 0 } ∷ record { number = 3; seen = Silent } ∷ [] };
    }))
        ≡ codes "commits 0\n" ∷ codes "unopened form 1\n" ∷ codes "member 2 heard 0\n"
        ∷ codes "member 3 silent\n" ∷ [] }
    ensures most { length (status_text (record first_status {
      book = Some (replicate 16 48);
      rows = Some (record { number = 3; limit = 65536 });
      refused = refused_once;
      commit_times = commits_once;
      unopened = unopened_once;
      others = record { items = replicate 8 (record { number = 2; seen = Silent }) };
    })) ≡ 49 }
{}

/// Worked cases. The number of all commits.
pub fn commits_are_worked()
    ensures none { commits_of no_commits ≡ 0 }
    ensures each { commits_of commits_once ≡ 36 }
    ensures most { commits_of (record no_commits { one = 18446744073709551614; more = 2 }) ≡ 18446744073709551615 }
{}

/// Counterexamples: values of lines that a report has, and others.
pub fn status_lines_can_be_broken()
    ensures number { IsStatusLine (Number Quantities.Boot 18446744073709551615) }
    ensures number_of_65_bits { IsStatusLine (Number Quantities.Boot 18446744073709551616) → ⊥ }
    ensures rows { IsStatusLine (Rows 18446744073709551615 18446744073709551615) }
    ensures rows_of_65_bits { IsStatusLine (Rows 18446744073709551616 1) → ⊥ }
    ensures limit_of_65_bits { IsStatusLine (Rows 1 18446744073709551616) → ⊥ }
    ensures digits { IsStatusLine (Fingerprint (codes "b1061f3a2d61dfbd")) }
    ensures digits_of_17 { IsStatusLine (Fingerprint (codes "b1061f3a2d61dfbd0")) → ⊥ }
    ensures lf { IsStatusLine (Book (codes "b1061f3a2d61dfb\n")) → ⊥ }
    ensures seen { IsStatusLine (Member 2 (Heard 18446744073709551616)) → ⊥ }
    ensures unseen { IsStatusLine (Member 2 Silent) }
{}
