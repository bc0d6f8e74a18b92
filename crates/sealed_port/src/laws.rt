ghost use Rattle.std.specs.Prelude.{◌≡◌, ℕ, List, [], Option, Some, is_none, is_some};
ghost use Rattle.std.specs.List.{IsDistinct};
ghost use Rattle.sealed_wire.specs.Bytes.{AreBytes};
ghost use Rattle.sealed_wire.specs.Making.{AreMakings, IsMade, IsUnforged, Making, making_tag};
ghost use Rattle.sealed_wire.specs.Sealed.{sealed_at};
ghost use Rattle.sealed_wire.specs.declared.head.Head.{Head};
ghost use Rattle.sealed_wire.specs.declared.head.Kind.TheVariants.{Answer};
ghost use Rattle.sealed_port.specs.World.{GatesAnswer, IsAnswered};
ghost use Rattle.sealed_port.specs.Gate.{GateRecord, Sealed, SealedLine, answered, cause_of, opened};
ghost use Rattle.sealed_port.specs.Runs.{AreGatesInOrder, GateLife, IsAnswerOf, IsOpenedOf, Step, gate_run, is_same, opened_in, opened_over};

/// No replay: a gate opens no moment of a client twice, in every schedule of datagrams and answers.
///
/// Over incarnations of its process, it opens none twice if the first mark of each client's window is at or above all
/// moments that the client's earlier windows could admit.
pub fn nothing_is_opened_twice()
    ensures once { (gate : GateRecord) (steps : List Step) → IsDistinct is_same (opened_in gate steps) }
    ensures over_lives { (lives : List GateLife) → AreGatesInOrder lives → IsDistinct is_same (opened_over lives) }
{}

/// Opened lines: a gate opens only a line that is sealed under the key of the client that it names, for the gate's
/// node.
///
/// The client's window admits its moment at the clock's second.
pub fn what_is_opened_is_sealed()
    ensures { (gate : GateRecord) (now : Option ℕ) (bytes : List ℕ) (line : SealedLine) →
        opened gate now bytes ≡ Some line → IsOpenedOf gate now bytes line }
{}

/// Causes: a gate has a cause exactly for a datagram that it doesn't open.
pub fn what_is_not_opened_has_a_cause()
    ensures { (gate : GateRecord) (now : Option ℕ) (bytes : List ℕ) →
        is_none (opened gate now bytes) ≡ is_some (cause_of gate now bytes) }
{}

/// Answers: a sealed answer is for a line that the gate opened, and a client reads only the answer to its own line.
///
/// A gate seals an answer under the key of the line's client, bound to the line's tag, for the line's address. Of the
/// answers that a client reads with its line's tag, the gate of the line's node sealed each after it opened exactly the
/// line. The second holds if no tag was forged, if no two sealed texts have the same tag, and if gates sealed all
/// answers under the key.
pub fn answers_are_for_their_lines()
    ensures sealed { (gate : GateRecord) (steps : List Step) (client : ℕ) (answer : List ℕ) (sealed : Sealed) →
        gate.asked ≡ [] → answered (gate_run gate steps) client answer ≡ Some sealed →
        IsAnswerOf (gate_run gate steps) (opened_in gate steps) client answer sealed }
    ensures read { (key bytes answer : List ℕ) (head : Head) (made : List Making) (line : Making) (client : ℕ) →
        AreBytes bytes → AreMakings key made → IsMade made line → GatesAnswer key made client →
        IsUnforged key made (making_tag key line) bytes →
        sealed_at key (making_tag key line) bytes ≡ Some (head, answer) → head.kind ≡ Answer →
        IsAnswered line head answer bytes }
{}
