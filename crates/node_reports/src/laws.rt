ghost use Rattle.std.specs.Prelude.{◌≡◌, ◌∷◌, ◌++◌, [], ℕ, IsTrue, List, None, Option, Some, codes, false, map, true};
ghost use Rattle.operator_text.specs.Pages.{are_whole, joined, pages_of};
ghost use Rattle.operator_text.specs.declared.reply.Reply.TheVariants.{Busy, NoRequest, NoRight, NoUser};
ghost use Rattle.operator_text.specs.declared.request.Report.TheVariants.{Gates};
ghost use Rattle.sealed_wire.specs.declared.right.Right.TheVariants.{Operator, Reader};
ghost use Rattle.token_file.specs.Credential.{Credential};
ghost use Rattle.node_reports.specs.Allowance.{AreBounded, IsBetween, Timed, cost, full, is_empty, paid, refilled, time_of};
ghost use Rattle.node_reports.specs.Responder.{ChangesNothing, charged, decision_at, decision_in};
ghost use Rattle.node_reports.specs.NodeStatus.{rows_within};
ghost use Rattle.node_reports.specs.Text.{IsText, lines_of};
ghost use Rattle.node_reports.specs.declared.allowance.Allowance.{Allowance};
ghost use Rattle.node_reports.specs.declared.responder.Decision.TheVariants.{Drain, OpenGate, Page, Refused};

use operator_text::pages_are_the_report;

/// Whole texts: the pages of a report, put together, are its text.
///
/// Each page is what [`page_of_text`](crate::page_of_text) returns for the `next` of the page before.
pub fn pages_are_the_text()
    ensures joined { (text : List ℕ) → IsText text → joined (pages_of (lines_of text)) ≡ text }
    ensures whole { (text : List ℕ) → IsText text → IsTrue (are_whole (pages_of (lines_of text))) }
{
    pages_are_the_report();
}

/// Worked cases. The lines of texts.
pub fn texts_are_worked()
    ensures nothing { lines_of [] ≡ [] }
    ensures one { lines_of (codes "a\n") ≡ codes "a\n" ∷ [] }
    ensures two { lines_of (codes "a\nbc\n") ≡ codes "a\n" ∷ codes "bc\n" ∷ [] }
    ensures empty_line { lines_of (codes "\n\n") ≡ codes "\n" ∷ codes "\n" ∷ [] }
    // bytes after the last LF are no line
    ensures no_end { lines_of (codes "a\nb") ≡ codes "a\n" ∷ [] }
    ensures no_lf { lines_of (codes "ab") ≡ [] }
    ensures text { IsText (codes "a\nbc\n") }
    ensures no_text { IsText (codes "a\nb") → ⊥ }
{}

/// Worked cases. What a state tells of the rows of a store.
pub fn rows_are_worked()
    ensures by_names { rows_within (Some 52429) ≡ Some (record { number = 52429; limit = 65536 }) }
    ensures by_position { rows_within None ≡ None }
{}

/// Readers: whatever the text of a reader's request, it neither opens a gate nor ends the node.
pub fn readers_change_nothing()
    ensures asked { (book : List Credential) → (text : List ℕ) → ChangesNothing (decision_in book Reader text) }
    ensures under { (moment : Option ℕ) → (allowance : Allowance) → (book : List Credential) → (text : List ℕ)
        → ChangesNothing (decision_at moment allowance book Reader text) }
{}

/// Counterexamples: what an operator asks for does change something, and the same texts of a reader are refused.
pub fn readers_can_be_broken()
    ensures unlocks { (token : Credential) → token.name ≡ codes "ann"
        → decision_in (token ∷ []) Operator (codes "UNLOCK ann") ≡ OpenGate 0 }
    ensures unlocks_nobody { decision_in [] Operator (codes "UNLOCK ann") ≡ Refused NoUser }
    ensures drains { decision_in [] Operator (codes "DRAIN") ≡ Drain }
    ensures reads { decision_in [] Reader (codes "GATES 7") ≡ Page Gates 7 }
    ensures asks_nothing { decision_in [] Reader (codes "GATES") ≡ Refused NoRequest }
    ensures no_unlock { (book : List Credential) → decision_in book Reader (codes "UNLOCK ann") ≡ Refused NoRight }
    ensures no_drain { (book : List Credential) → decision_in book Reader (codes "DRAIN") ≡ Refused NoRight }
    ensures served { decision_at None full [] Reader (codes "GATES 7") ≡ Page Gates 7 }
    ensures busy { (book : List Credential) → (text : List ℕ)
        → decision_at None (record full { used = 1000000 }) book Reader text ≡ Refused Busy }
    // a second that was used up at the start of the clock: 50 microseconds give back one
    ensures later { decision_at (Some 50) (record { used = 1000000; spans = Some 0 }) [] Reader (codes "GATES 7")
        ≡ Page Gates 7 }
    ensures operator { (book : List Credential) → (text : List ℕ)
        → decision_at None (record full { used = 1000000 }) book Operator text ≡ decision_in book Operator text }
    ensures gate { (token : ℕ) → ChangesNothing (OpenGate token) → ⊥ }
    ensures end { ChangesNothing Drain → ⊥ }
{}

/// Bounded readers: the requests of readers, of any number, take at most a second of the time between two moments, one
/// of them, and 2 per cent of it.
pub fn readers_are_bounded()
    ensures { (requests : List Timed) → AreBounded requests }
{}

/// Counterexamples: requests between two moments, and others.
pub fn requests_can_be_broken()
    ensures between { IsBetween 3 3 5 (record { began = 3; ended = 8 }) }
    ensures early { IsBetween 4 9 5 (record { began = 3; ended = 8 }) → ⊥ }
    ensures late { IsBetween 0 2 5 (record { began = 3; ended = 8 }) → ⊥ }
    ensures long { IsBetween 0 9 4 (record { began = 3; ended = 8 }) → ⊥ }
{}

/// Worked cases. What readers used, at moments of the clock and after requests.
pub fn allowances_are_worked()
    ensures empty { map is_empty (full ∷ record full { used = 999999 } ∷ record full { used = 1000000 }
        ∷ record full { used = 1000001 } ∷ []) ≡ false ∷ false ∷ true ∷ true ∷ [] }
    ensures first_moment { refilled (Some 149) (record full { used = 10 }) ≡ record { used = 10; spans = Some 2 } }
    ensures part_of_a_span { refilled (Some 149) (record { used = 10; spans = Some 2 })
        ≡ record { used = 10; spans = Some 2 } }
    ensures spans { refilled (Some 250) (record { used = 10; spans = Some 2 }) ≡ record { used = 7; spans = Some 5 } }
    ensures long { refilled (Some 5000) (record { used = 10; spans = Some 2 }) ≡ record { used = 0; spans = Some 100 } }
    // what was given back isn't given back again
    ensures back { refilled (Some 50) (record { used = 10; spans = Some 2 }) ≡ record { used = 10; spans = Some 2 } }
    ensures no_clock { refilled None (record { used = 10; spans = Some 2 }) ≡ record { used = 10; spans = Some 2 } }
    ensures costs { cost (Some 5) (Some 48005) ∷ cost (Some 5) (Some 4) ∷ cost (Some 5) None ∷ cost None (Some 5)
        ∷ cost None None ∷ [] ≡ 48000 ∷ 0 ∷ 1000 ∷ 1000 ∷ 1000 ∷ [] }
    ensures paid { paid (Some 150) (Some 350) (record { used = 10; spans = Some 2 })
        ≡ record { used = 209; spans = Some 3 } }
    // what exceeds a second is owed
    ensures owed { paid (Some 100) (Some 48100) (record { used = 999999; spans = Some 2 })
        ≡ record { used = 1047999; spans = Some 2 } }
    ensures most { paid None None (record full { used = 18446744073709551600 })
        ≡ record full { used = 18446744073709551615 } }
    ensures keys { charged Reader (Some 0) (Some 7) full ∷ charged Operator (Some 0) (Some 7) full ∷ []
        ≡ record { used = 7; spans = Some 0 } ∷ full ∷ [] }
    // the first two take 1,200,000 microseconds together, and the third one is refused
    ensures times { time_of full (record { began = 0; ended = 600000 } ∷ record { began = 600000; ended = 1200000 }
        ∷ record { began = 1200000; ended = 1800000 } ∷ []) ≡ 1200000 }
    // of the 1,188,000 that are owed, 188,000 are given back at 10,000,000, and 188,001 at 10,000,050
    ensures later { time_of full (record { began = 0; ended = 600000 } ∷ record { began = 600000; ended = 1200000 }
        ∷ record { began = 10000000; ended = 10000007 } ∷ record { began = 10000050; ended = 10000057 } ∷ [])
        ≡ 1200007 }
{}
