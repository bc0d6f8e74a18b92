ghost use Rattle.std.specs.Prelude.{◌≡◌, ◌++◌, ◌||◌, ℕ, List, [], Option, None, Some, is_none, true};
ghost use Rattle.std.specs.List.{IsDistinct};
ghost use Rattle.sealed_wire.specs.Bytes.{AreBytes};
ghost use Rattle.sealed_wire.specs.Making.{AreMakings, IsMade, IsUnforged, Making, making_tag};
ghost use Rattle.sealed_wire.specs.Report.{report_at};
ghost use Rattle.sealed_wire.specs.Sealed.{head_of};
ghost use Rattle.sealed_wire.specs.declared.head.Head.{Head};
ghost use Rattle.sealed_port.specs.Aside.{AsideRecord};
ghost use Rattle.sealed_port.specs.Gate.{GateRecord, Sealed, named, opened};
ghost use Rattle.sealed_port.specs.ReportWorld.{GatesReport, IsReportFor, IsReported};
ghost use Rattle.sealed_port.specs.RequestRuns.{AreOperatorsInOrder, IsRequestOf, aside_in, aside_over, is_same_request, taken_in};
ghost use Rattle.sealed_port.specs.Requests.{operator_named, reported, requested};
ghost use Rattle.sealed_port.specs.Runs.{GateLife, Step, gate_run};

/// No replay of requests: a gate sets aside no moment of an operator twice, and no request is taken twice.
///
/// The requests are taken in the order in which they were set aside. Over incarnations of its process, a gate sets none
/// aside twice if the windows begin high enough. The first mark of each operator's window must be at or above all
/// moments that the operator's earlier windows could admit.
pub fn nothing_is_taken_twice()
    ensures once { (gate : GateRecord) (steps : List Step) → IsDistinct is_same_request (aside_in gate steps) }
    ensures over_lives { (lives : List GateLife) → AreOperatorsInOrder lives →
        IsDistinct is_same_request (aside_over lives) }
    ensures order { (gate : GateRecord) (steps : List Step) → gate.aside ++ aside_in gate steps
        ≡ taken_in gate steps ++ (gate_run gate steps).aside }
    ensures taken { (gate : GateRecord) (steps : List Step) → gate.aside ≡ [] →
        IsDistinct is_same_request (taken_in gate steps) }
{}

/// Opened requests: a gate sets aside only a request that is sealed under the key of the operator that it names, for
/// the gate's node.
///
/// The operator's window admits its moment at the clock's second.
pub fn what_is_set_aside_is_sealed()
    ensures { (gate : GateRecord) (now : Option ℕ) (address : ℕ) (bytes : List ℕ) (request : AsideRecord) →
        requested gate now address bytes ≡ Some request → IsRequestOf gate now address bytes request }
{}

/// Apart: a line of an operator is not opened as a line, and a request of a client is not set aside.
///
/// No datagram is both opened as a line and set aside as a request.
pub fn lines_and_requests_are_apart()
    ensures line { (gate : GateRecord) (now : Option ℕ) (bytes : List ℕ) (head : Head) → head_of bytes ≡ Some head →
        named head.client gate.clients ≡ None → opened gate now bytes ≡ None }
    ensures request { (gate : GateRecord) (now : Option ℕ) (address : ℕ) (bytes : List ℕ) (head : Head) →
        head_of bytes ≡ Some head → operator_named head.client gate.operators ≡ None →
        requested gate now address bytes ≡ None }
    ensures both { (gate : GateRecord) (now : Option ℕ) (address : ℕ) (bytes : List ℕ) →
        (is_none (opened gate now bytes) || is_none (requested gate now address bytes)) ≡ true }
{}

/// Reports: a sealed report is for its request, and an operator reads only the report on its own request.
///
/// A gate seals a report under the key of the request's operator, bound to the request's tag, for the request's
/// address. Of the reports that an operator reads with its request's tag, the gate of the request's node made each
/// after it opened exactly the request. The second has three premises. No tag was forged. No two sealed texts have the
/// same tag. Gates sealed all reports under the key.
pub fn reports_are_for_their_requests()
    ensures sealed { (gate : GateRecord) (request : AsideRecord) (page : List ℕ) (sealed : Sealed) →
        reported gate request page ≡ Some sealed → IsReportFor gate request page sealed }
    ensures read { (key bytes text : List ℕ) (head : Head) (made : List Making) (request : Making) (number : ℕ) →
        AreBytes bytes → AreMakings key made → IsMade made request → GatesReport key made number →
        IsUnforged key made (making_tag key request) bytes →
        report_at key (making_tag key request) bytes ≡ Some (head, text) → IsReported request head }
{}
