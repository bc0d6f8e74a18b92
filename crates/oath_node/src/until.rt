//! The trait of what may end a node's turns before all are served.

use crate::node::Node;
use datagram_port::Port;
use floor_store::FloorStore;

/// Tells a node after each batch whether its turns end there. Everything that the node put is committed then.
pub trait Until<S: FloorStore, P: Port> {
    ghost use Rattle.std.specs.Prelude.{◌≡◌, ⊤, ℕ, Bool};
    ghost use Rattle.oath_node.specs.Hosted.{is_waiting};

    // What holds after an answer: of itself, of the number of turns that are left, of whether a client's line waits for
    // votes, and of the answer.
    ghost answers: { Self → ℕ → Bool → Bool → Type 0 } = { λ _ _ _ _. ⊤ };

    /// Returns whether the turns end after this batch.
    ///
    /// `left` turns are left. The port receives nothing here, and the node offers it nothing.
    fn ends(&mut self, node: &Node<'_, S>, port: &mut P, left: u64) -> bool
        ensures answers { answers self.new left (is_waiting node.now) result }
        ensures events { P.events port.new ≡ P.events port.old }
        ensures stays { P.setup port.new ≡ P.setup port.old };
}

/// Serves all turns: never ends them early.
#[derive(Clone, Copy, Debug, Default)]
pub struct Never;

impl<S: FloorStore, P: Port> Until<S, P> for Never {
    ghost use Rattle.std.specs.Prelude.{◌≡◌, false};

    ghost answers = { λ _ _ _ ends. ends ≡ false };

    fn ends(&mut self, _node: &Node<'_, S>, _port: &mut P, _left: u64) -> bool {
        false
    }
}
