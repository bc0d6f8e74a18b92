//! Facts about the definitions of `specs/`.

ghost use Rattle.std.specs.declared.cmp.Ordering.TheVariants.{Less, Equal, Greater};
ghost use Rattle.std.specs.Prelude.{◌≡◌, ◌<◌, List, [], ◌∷◌, ◌++◌, Some, None, drop, length};
ghost use Rattle.answer_ring.specs.AnswerExamples.{kept_of, three_kept};
ghost use Rattle.answer_ring.specs.AnswerIndex.{place_order};
ghost use Rattle.answer_ring.specs.Answers.{KeptAnswer, answer_order, kept_answer, kept_with};

/// Worked cases. Kept and found answers, and the orders of answers and of their places.
#[tactic(auto, unfolding(crate::specs::Answers::answer_order, crate::specs::AnswerIndex::place_order))]
pub fn kept_answers_are_worked()
    ensures room { (kept : List KeptAnswer) (answer : KeptAnswer) → length kept < 1024 →
        kept_with kept answer ≡ kept ++ answer ∷ [] }
    ensures full { (kept : List KeptAnswer) (answer : KeptAnswer) → length kept ≡ 1024 →
        kept_with kept answer ≡ drop 1 kept ++ answer ∷ [] }
    ensures newest { kept_answer three_kept 7 (1 ∷ []) ≡ Some (6 ∷ []) }
    ensures other_client { kept_answer three_kept 8 (1 ∷ []) ≡ Some (9 ∷ []) }
    ensures no_client { kept_answer three_kept 9 (1 ∷ []) ≡ None }
    ensures no_line { kept_answer three_kept 7 (1 ∷ 1 ∷ []) ≡ None }
    ensures none { kept_answer [] 7 (1 ∷ []) ≡ None }
    ensures lower_client { answer_order (kept_of 7 2 5) (kept_of 8 1 5) ≡ Less }
    ensures higher_client { answer_order (kept_of 8 1 5) (kept_of 7 2 5) ≡ Greater }
    ensures lower_line { answer_order (kept_of 7 1 6) (kept_of 7 2 5) ≡ Less }
    ensures higher_line { answer_order (kept_of 7 2 5) (kept_of 7 1 6) ≡ Greater }
    ensures same_line { answer_order (kept_of 7 1 5) (kept_of 7 1 6) ≡ Equal }
    ensures same_place { place_order three_kept 0 0 ≡ Equal }
    ensures earlier_client { place_order three_kept 2 1 ≡ Less }
    ensures older { place_order three_kept 0 2 ≡ Less }
    ensures newer { place_order three_kept 2 0 ≡ Greater }
    ensures later_client { place_order three_kept 1 2 ≡ Greater }
{}
