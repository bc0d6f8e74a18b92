//! What a gate that drains answers by itself.

ghost use Rattle.std.specs.Prelude.{◌≡◌, ℕ, List, [], ◌∷◌, None, Option, Some, false, true};
ghost use Rattle.datagram_port.specs.Port.{Received};
ghost use Rattle.datagram_port.specs.declared.port.Sender.TheVariants.{Client};
ghost use Rattle.sealed_port.specs.Draining.{IsTurnedAway, busy_answer, gate_handled, own_answer, turns_away};
ghost use Rattle.sealed_port.specs.Gate.{GateRecord, Sealed, SealedLine, answered, opened};
ghost use Rattle.sealed_port.specs.Port.{handed_line, node_number};
ghost use Rattle.sealed_port.specs.Requests.{gate_came};
ghost use Rattle.sealed_port.specs.Runs.{Comes, Step, gate_run, steps_for};

/// Draining: a gate that drains answers each new line by itself.
///
/// The answer is sealed under the key of the line's client, bound to the line's tag, for the line's address. It is one
/// of a run of the gate, so the law of answers speaks of it too.
pub fn what_is_turned_away_is_answered()
    ensures answered { (gate : GateRecord) (now : Option ℕ) (address : ℕ) (bytes : List ℕ) (line : SealedLine) →
        opened gate now bytes ≡ Some line → turns_away gate line ≡ true → IsTurnedAway gate now address bytes line }
    ensures run { (gate : GateRecord) (now : Option ℕ) (address : ℕ) (bytes : List ℕ) →
        gate_handled gate now address bytes ≡ gate_run gate (steps_for gate now address bytes) }
    ensures sealed { (gate : GateRecord) (now : Option ℕ) (address : ℕ) (bytes : List ℕ) (sealed : Sealed) →
        own_answer gate now address bytes ≡ Some sealed → (line : SealedLine) × (opened gate now bytes ≡ Some line)
        × (answered (gate_run gate (Comes now address bytes ∷ [])) line.client (busy_answer line.line)
        ≡ Some sealed) }
{}

/// Draining lasts: a gate that drains goes on to drain, and any other hands in each line that it opens.
pub fn draining_lasts()
    ensures lasts { (gate : GateRecord) (steps : List Step) → gate.drains ≡ true →
        (gate_run gate steps).drains ≡ true }
    ensures hands_in { (gate : GateRecord) (line : SealedLine) → gate.drains ≡ false →
        handed_line gate (Some line) ≡ Some (Received (Client (node_number line.client)) line.line) }
    ensures answers_nothing { (gate : GateRecord) (now : Option ℕ) (address : ℕ) (bytes : List ℕ) →
        gate.drains ≡ false → (own_answer gate now address bytes ≡ None)
        × (gate_handled gate now address bytes ≡ gate_came gate now address bytes) }
{}
