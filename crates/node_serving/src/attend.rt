//! The trait of what is asked after each batch of a served node, and may act on it.

ghost use Rattle.std.specs.Prelude.{◌≡◌};

use floor_store::FloorStore;
use gatekeeping::{Gatekeeper, PLACES};
use oath_node::{Never, Node, NodeFault, Until};

/// What may end the turns of a node after a batch. It knows neither the node's store nor its port.
pub trait Stop {
    ghost use Rattle.std.specs.Prelude.{⊤, ℕ, Bool};

    // What holds after an answer: of itself, of the number of turns that are left, of whether a client's line waits for
    // votes, and of the answer.
    ghost answers: { Self → ℕ → Bool → Bool → Type 0 } = { λ _ _ _ _. ⊤ };

    /// Returns whether the turns end after this batch, of which `left` are left. `is_waiting` says whether a client's
    /// line waits for votes.
    fn stops(&mut self, is_waiting: bool, left: u64) -> bool
        ensures { answers self.new left is_waiting result };
}

impl Stop for Never {
    ghost use Rattle.std.specs.Prelude.{◌≡◌, false};

    ghost answers = { λ _ _ _ ends. ends ≡ false };

    fn stops(&mut self, _is_waiting: bool, _left: u64) -> bool {
        false
    }
}

/// What is asked after each batch of a served node, over any port, and may act on the node then. Everything that the
/// node put is committed.
pub trait Attend<S: FloorStore> {
    ghost use Rattle.std.specs.Prelude.{◌≡◌, ◌≢◌, ⊤, ℕ, Bool, Result, Ok, false};
    ghost use Rattle.oath_node.specs.Hosted.{Hosted, IsSameNode, is_waiting};
    ghost use Rattle.oath_node.specs.declared.fault.NodeFault.{NodeFault as FaultOfNode};
    ghost use Rattle.node_serving.specs.Stretches.{no_acts};

    // What holds after an answer: of itself, of the number of turns that are left, of whether a client's line waits for
    // votes, and of the answer.
    ghost answers: { Self → ℕ → Bool → Bool → Type 0 } = { λ _ _ _ _. ⊤ };

    // What an act does to the node. By default there is none.
    ghost acts: { Hosted S → Hosted S → Result Bool FaultOfNode → Type 0 } = { no_acts };

    /// Returns whether the turns end after this batch. `left` turns are left.
    fn ends<P: Gatekeeper>(&mut self, node: &Node<'_, S>, port: &mut P, left: u64) -> bool
        ensures answers { answers self.new left (is_waiting node.now) result }
        ensures events { P.events port.new ≡ P.events port.old }
        ensures stays { P.setup port.new ≡ P.setup port.old };

    /// Acts on the node after its turns ended, and returns true if the turns that are left are served then. Returns
    /// false if there is nothing to do.
    ///
    /// # Errors
    /// Returns the fault of the node, which is stopped then.
    fn act<P: Gatekeeper>(
        &mut self,
        node: &mut Node<'_, S>,
        port: &mut P,
    ) -> Result<bool, NodeFault>
        ensures acts { result ≢ Ok false → acts node.old node.new result }
        ensures rests { result ≡ Ok false → (self.new ≡ self.old) × (node.new ≡ node.old) }
        ensures same { IsSameNode node.old node.new }
        ensures events { P.events port.new ≡ P.events port.old }
        ensures stays { P.setup port.new ≡ P.setup port.old };
}

impl<S: FloorStore> Attend<S> for Never {
    ghost use Rattle.std.specs.Prelude.{◌≡◌, false};

    ghost answers = { λ _ _ _ ends. ends ≡ false };

    fn ends<P: Gatekeeper>(&mut self, _node: &Node<'_, S>, _port: &mut P, _left: u64) -> bool {
        false
    }

    fn act<P: Gatekeeper>(
        &mut self,
        _node: &mut Node<'_, S>,
        _port: &mut P,
    ) -> Result<bool, NodeFault> {
        Ok(false)
    }
}

/// What is asked after each batch of a served node, the number of turns that were left at the last question, and of the
/// members, from member 0 to 9, which went back until the turns ended, and the greatest boot in which each was heard.
///
/// `opened` is the latest moment of the sealed lines and requests that the port opened, or one after it. It is None
/// until the turns ended.
#[derive(Drop)]
pub struct Attended<U> {
    pub attendant: U,
    pub left: u64,
    pub gone_back: [bool; PLACES],
    pub heard: [u64; PLACES],
    pub opened: Option<u64>,
}

impl<U> Attended<U> {
    /// Returns what is asked, before the first question.
    pub fn new(attendant: U) -> Self
        ensures { result.attendant ≡ attendant }
    {
        Attended {
            attendant,
            left: 0,
            gone_back: [false; PLACES],
            heard: [0; PLACES],
            opened: None,
        }
    }
}

impl<S: FloorStore, P: Gatekeeper, U: Attend<S>> Until<S, P> for Attended<U> {
    ghost use Rattle.std.specs.Prelude.{◌≡◌};

    ghost answers = { λ attended left is_waiting ends.
        (attended.left ≡ left) × U.answers attended.attendant left is_waiting ends };

    fn ends(&mut self, node: &Node<'_, S>, port: &mut P, left: u64) -> bool {
        self.left = left;
        let ends = self.attendant.ends(node, port, left);
        if ends {
            let gone_back = port.gone_back();
            self.gone_back = gone_back;
            let heard = port.heard();
            self.heard = heard;
            self.opened = Some(port.opened());
        }
        ends
    }
}
