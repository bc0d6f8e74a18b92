ghost use Rattle.std.specs.Prelude.{◌≡◌, [], ◌∷◌, List, ℕ, None, Some, Ok, codes, false, is_some, map, replicate, true};
ghost use Rattle.std.specs.List.{concat};
ghost use Rattle.clients_file.specs.declared.clients.OperatorEntry.{OperatorEntry as AnyOperator};
ghost use Rattle.operator_text.specs.Page.{AreLines};
ghost use Rattle.operator_text.specs.Pages.{next_in};
ghost use Rattle.operator_text.specs.Reading.{page_at};
ghost use Rattle.operator_text.specs.declared.request.Report.{Report as AnyReport};
ghost use Rattle.oathd_asking.specs.Examples.{end_status, hears_one, hears_two, other_book, other_fingerprint, prints};
ghost use Rattle.oathd_asking.specs.Report.{ArePages, IsReportText, Tells, page_request};
ghost use Rattle.oathd_asking.specs.Sent.{begins_more};
ghost use Rattle.oathd_asking.specs.Survey.{survey_end};
ghost use Rattle.oathd_asking.specs.Table.{field_of, health_of, heard_of, note_of, table_text};
ghost use Rattle.oathd_asking.specs.declared.table.Health.TheVariants as healths;
ghost use Rattle.oathd_asking.specs.declared.table.Note.TheVariants.{BookDiffers, FingerprintDiffers, HearsNotAll, Silent, Well};

/// Whole reports: if a node answers each request for a report by the page of its lines, then the text that was put
/// together is these lines in their order.
pub fn reports_are_whole()
    ensures { (operator : AnyOperator) (node : ℕ) (report : AnyReport) (lines : List (List ℕ)) (text : List ℕ)
        → AreLines lines → Tells operator node report lines → IsReportText operator node report text
        → text ≡ concat lines }
{}

/// Counterexamples: a page that is there twice, a missing last page, and one after the last are no report.
pub fn pages_can_be_broken()
    ensures none { (operator : AnyOperator) (node : ℕ) (report : AnyReport)
        → ArePages operator node report [] 0 → ⊥ }
    ensures twice { (operator : AnyOperator) (node : ℕ) (report : AnyReport) (page : List ℕ) (pages : List (List ℕ))
        → ArePages operator node report (page ∷ page ∷ pages) 0 → ⊥ }
    ensures cut_short { (operator : AnyOperator) (node : ℕ) (report : AnyReport) (page : List ℕ)
        → page_at page ≡ Some (record { lines = codes "a\n"; next = Some 1 })
        → ArePages operator node report (page ∷ []) 0 → ⊥ }
    ensures after_the_last { (operator : AnyOperator) (node : ℕ) (report : AnyReport) (first second : List ℕ)
        → page_at first ≡ Some (record { lines = codes "a\n"; next = None })
        → ArePages operator node report (first ∷ second ∷ []) 0 → ⊥ }
{}

/// First pages: a page on a request for the lines from 0 on begins a report with more pages exactly if it names the next
/// page.
pub fn first_pages_begin_reports()
    ensures { (report : AnyReport) (page : List ℕ)
        → begins_more (page_request report 0) page ≡ is_some (next_in (page_at page)) }
{}

/// Worked cases. First pages that others follow, and pages that count on any sending.
pub fn first_pages_are_worked()
    ensures first { map (begins_more (codes "GATES 0")) (codes "a\nnext 1\n" ∷ codes "next 0\n" ∷ [])
        ≡ true ∷ true ∷ [] }
    ensures whole { map (begins_more (codes "GATES 0")) (codes "a\nend\n" ∷ codes "next 1\nend\n" ∷ [])
        ≡ false ∷ false ∷ [] }
    ensures refused { map (begins_more (codes "GATES 0")) (codes "NO RIGHT\n" ∷ codes "NO REPORT\n" ∷ [] ∷ [])
        ≡ replicate 3 false }
    ensures others { map (λ text. begins_more text (codes "a\nnext 9\n")) (codes "GATES 1" ∷ codes "GATES 10"
        ∷ codes "UNLOCK 0" ∷ codes "DRAIN" ∷ []) ≡ replicate 4 false }
{}

/// Worked cases. What is said of members, and of the cluster.
pub fn surveys_are_worked()
    ensures fields { map (field_of hears_one) (codes "book" ∷ codes "boot" ∷ codes "member" ∷ [])
        ≡ codes "b" ∷ codes "-" ∷ codes "2 heard 0" ∷ [] }
    ensures heard { map heard_of (hears_two ∷ hears_one ∷ prints ∷ codes "member 2 heard 0" ∷ [])
        ≡ 3 ∷ 2 ∷ 1 ∷ 1 ∷ [] }
    ensures notes { map (note_of hears_two 3) (hears_two ∷ hears_one ∷ other_book ∷ other_fingerprint ∷ [] ∷ [])
        ≡ Well ∷ HearsNotAll ∷ BookDiffers ∷ FingerprintDiffers ∷ Silent ∷ [] }
    ensures well { health_of (hears_two ∷ hears_two ∷ hears_two ∷ []) ≡ healths.Well }
    ensures alone { health_of (prints ∷ []) ≡ healths.Well }
    ensures degraded { map health_of ((hears_two ∷ hears_two ∷ hears_one ∷ []) ∷ (hears_two ∷ hears_two ∷ [] ∷ [])
        ∷ ([] ∷ hears_two ∷ other_book ∷ []) ∷ (hears_two ∷ other_fingerprint ∷ []) ∷ [])
        ≡ healths.Degraded ∷ healths.Degraded ∷ healths.Degraded ∷ healths.Degraded ∷ [] }
    ensures no_majority { map health_of ((hears_two ∷ [] ∷ [] ∷ []) ∷ (hears_two ∷ [] ∷ []) ∷ ([] ∷ []) ∷ [])
        ≡ healths.NoMajority ∷ healths.NoMajority ∷ healths.NoMajority ∷ [] }
    ensures statuses { map end_status (map survey_end (healths.Well ∷ healths.Degraded ∷ healths.NoMajority ∷ []))
        ≡ 0 ∷ 1 ∷ 2 ∷ [] }
    ensures table { table_text (hears_one ∷ [] ∷ [])
        ≡ codes "node boot heard tokens fingerprint book note\n1 - 2/2 - f b ok\n2 - - - - - silent\n" }
{}

/// Counterexamples: a cluster of two members of which one is silent or differs doesn't end a survey well.
pub fn surveys_can_be_broken()
    ensures one_of_two { survey_end (health_of (hears_one ∷ [] ∷ [])) ≡ Ok tt → ⊥ }
    ensures another_of_two { survey_end (health_of (hears_one ∷ other_book ∷ [])) ≡ Ok tt → ⊥ }
    ensures both { survey_end (health_of (hears_one ∷ hears_one ∷ [])) ≡ Ok tt }
{}
