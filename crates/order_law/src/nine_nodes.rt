//! A worked interleaving of as many nodes and tokens as a cluster may have.

ghost use Rattle.std.specs.Prelude.{◌≡◌, [], ◌∷◌, codes};
ghost use Rattle.client_lines.specs.declared.answer.Outcome.TheVariants.{Accepted};
ghost use Rattle.cluster_sim.specs.Examples.{told_outcome};
ghost use Rattle.otp_core.specs.Acceptance.{HaveSingleUse, KeepRealTimeOrder};
ghost use Rattle.vote_core.specs.Cases.{accepted};
ghost use Rattle.vote_core.specs.Safety.{HaveMajority};
ghost use Rattle.book_law.specs.Justified.{JustifiesAll};
ghost use Rattle.book_law.specs.Lives.{accepted_in, answered_in, floor_in};
ghost use Rattle.order_law.specs.Interleavings.{IsCausal, history_of};
ghost use Rattle.order_law.specs.NineNodes.{five_of_nine, four_of_nine, nine};

use crate::laws::causal_interleavings_are_safe;

/// Worked cases: a login at one of nine nodes needs Grants of four others.
///
/// The law of causal interleavings is used here. So no premise of it rules out nine nodes, 10,000 tokens, or Grants.
pub fn nine_nodes_are_safe()
    ensures causal { IsCausal nine five_of_nine }
    ensures too_few { accepted_in nine (history_of four_of_nine) ≡ [] }
    ensures accepted { accepted_in nine (history_of five_of_nine) ≡ accepted 10 30 1 0 0 0 ∷ [] }
    ensures answered { answered_in nine (history_of five_of_nine)
        ≡ told_outcome 30 1 7 (codes "1") (Accepted 0) ∷ [] }
    ensures single_use { HaveSingleUse (accepted_in nine (history_of five_of_nine)) }
    ensures in_order { KeepRealTimeOrder (accepted_in nine (history_of five_of_nine)) }
    ensures majority { HaveMajority 9 (floor_in nine (history_of five_of_nine))
        (accepted_in nine (history_of five_of_nine)) }
    ensures justified { JustifiesAll nine (history_of five_of_nine) (accepted_in nine (history_of five_of_nine)) }
{
    causal_interleavings_are_safe();
}
