//! Worked cases of a gate with an operator: operator 258's request for node 2, and the report on it.

ghost use Rattle.std.specs.Prelude.{◌≡◌, ◌∷◌, [], None, Ok, Some, false, map, replicate, slice_set, true};
ghost use Rattle.std.specs.List.{IsDistinct};
ghost use Rattle.sealed_wire.specs.Bytes.{AreBytes};
ghost use Rattle.sealed_wire.specs.Examples.{report_text, sealed_line, sealed_report, sealed_request};
ghost use Rattle.sealed_wire.specs.Making.{AreMakings, IsMade, IsUnforged, making_tag};
ghost use Rattle.sealed_wire.specs.Report.{report_at};
ghost use Rattle.sealed_wire.specs.declared.head.Kind.TheVariants.{Answer, Line, Report, Request};
ghost use Rattle.datagram_port.specs.Port.{Received};
ghost use Rattle.datagram_port.specs.declared.port.Received.TheVariants.{Datagram};
ghost use Rattle.datagram_port.specs.declared.port.Sender.TheVariants.{Client, Peer};
ghost use Rattle.sealed_port.specs.Aside.{has_room, oldest, others};
ghost use Rattle.sealed_port.specs.Causes.{nothing};
ghost use Rattle.sealed_port.specs.Examples.{failed_at, failures_in, first_gate, plain_address, window_at, zeros};
ghost use Rattle.sealed_port.specs.Gate.{cause_of};
ghost use Rattle.sealed_port.specs.Port.{counted_after, gate_after, handed_in, stand_in};
ghost use Rattle.sealed_port.specs.ReportWorld.{GatesReport, IsAmongRequests};
ghost use Rattle.sealed_port.specs.RequestExamples.{asked_gate, gate_of_operator, making_of_report, operator_at, operator_gate, operator_life, request_and_report, request_at, request_making, silent_operator_life, status_request};
ghost use Rattle.sealed_port.specs.RequestRuns.{AreOperatorsInOrder, aside_in, is_same_request, taken_in};
ghost use Rattle.sealed_port.specs.Requests.{asks, gate_taken, is_request, operator_with, reported, request_cause, request_ruling, requested};
ghost use Rattle.sealed_port.specs.Runs.{Answers, Comes, Takes};
ghost use Rattle.sealed_port.specs.Setup.{gate_setup};
ghost use Rattle.sealed_port.specs.declared.cause.Cause.TheVariants.{Again, Early, Form, Late, Tag};

/// Worked cases. Rulings of a gate on the request, sealed at second 1 with a lead of 2 seconds, and on other datagrams.
pub fn requests_are_worked()
    ensures request { request_ruling operator_gate (Some 1) 7 sealed_request ≡ Ok status_request }
    ensures second_operator { requested (record operator_gate
        { operators = operator_at 7 (window_at 0 []) ∷ operator_at 258 (window_at 0 []) ∷ [] }) (Some 1) 7
        sealed_request ≡ Some status_request }
    ensures forms { map (request_cause operator_gate (Some 1) 7) ([] ∷ sealed_line ∷ sealed_report ∷ [])
        ≡ replicate 3 (Some Form) }
    ensures another_node { request_cause (record operator_gate { node = 3 }) (Some 1) 7 sealed_request ≡ Some Form }
    ensures of_a_client { request_cause first_gate (Some 1) 7 sealed_request ≡ Some Form }
    ensures wrong_tag { request_cause operator_gate (Some 1) 7 (slice_set sealed_request 52 0) ≡ Some Tag }
    ensures no_clock { request_cause operator_gate None 7 sealed_request ≡ Some Early }
    ensures early { request_cause (gate_of_operator (record (window_at 0 []) { ahead = 0 }) []) (Some 0) 7
        sealed_request ≡ Some Early }
    ensures last { requested operator_gate (Some 61) 7 sealed_request ≡ Some status_request }
    ensures late { request_cause operator_gate (Some 62) 7 sealed_request ≡ Some Late }
    ensures seen { request_cause (gate_of_operator (window_at 0 (1000000 ∷ [])) []) (Some 1) 7 sealed_request
        ≡ Some Again }
    ensures mark { request_cause (gate_of_operator (window_at 1000000 []) []) (Some 1) 7 sealed_request
        ≡ Some Again }
    ensures last_room { requested (gate_of_operator (window_at 0 []) (replicate 7 status_request)) (Some 1) 7
        sealed_request ≡ Some status_request }
    ensures no_room { request_cause (gate_of_operator (window_at 0 []) (replicate 8 status_request)) (Some 1) 7
        sealed_request ≡ Some Again }
    ensures no_limit { requested (record operator_gate { failures = failures_in 0 (failed_at 258 2 ∷ []) }) (Some 1) 7
        sealed_request ≡ Some status_request }
    ensures line_of_an_operator { cause_of operator_gate (Some 1) sealed_line ≡ Some Form }
    ensures kinds { map is_request (Line ∷ Answer ∷ Request ∷ Report ∷ []) ≡ false ∷ false ∷ true ∷ false ∷ [] }
    ensures asks { map asks (sealed_request ∷ sealed_line ∷ [] ∷ []) ≡ true ∷ false ∷ false ∷ [] }
    ensures rooms { map has_room ([] ∷ replicate 7 status_request ∷ replicate 8 status_request ∷ [])
        ≡ true ∷ true ∷ false ∷ [] }
{}

/// Worked cases. What a gate with an operator hands in, counts, keeps and sends.
pub fn asides_are_worked()
    ensures handed { handed_in operator_gate (Some 1) (Received (Client 7) sealed_request)
        ≡ Some (Received (Peer 0) []) }
    ensures passed_over { map (λ now. handed_in operator_gate now (Received (Client 7) sealed_request))
        (None ∷ Some 62 ∷ []) ≡ replicate 2 None }
    ensures plain { handed_in operator_gate (Some 1) (Received (Client plain_address) sealed_request)
        ≡ Some (Received (Client plain_address) sealed_request) }
    ensures stands { map stand_in (Some status_request ∷ None ∷ []) ≡ Some (Datagram (Peer 0) 0) ∷ None ∷ [] }
    ensures after { gate_after operator_gate (Some 1) (Received (Client 7) sealed_request) ≡ asked_gate }
    ensures behind { gate_after (gate_of_operator (window_at 0 []) (request_at 7 9 ∷ [])) (Some 1)
        (Received (Client 7) sealed_request)
        ≡ gate_of_operator (window_at 0 (1000000 ∷ [])) (request_at 7 9 ∷ status_request ∷ []) }
    ensures after_late { gate_after operator_gate (Some 62) (Received (Client 7) sealed_request) ≡ operator_gate }
    ensures counts { map (λ now. counted_after operator_gate nothing now (Received (Client 7) sealed_request))
        (Some 1 ∷ Some 62 ∷ None ∷ []) ≡ nothing ∷ record nothing { late = 1 } ∷ record nothing { early = 1 } ∷ [] }
    ensures another_window { operator_with 7 1000000 (operator_at 258 (window_at 0 []))
        ≡ operator_at 258 (window_at 0 []) }
    ensures taken { gate_taken asked_gate ≡ gate_of_operator (window_at 0 (1000000 ∷ [])) [] }
    ensures oldest { (oldest (status_request ∷ request_at 7 9 ∷ []) ≡ Some status_request) × (oldest [] ≡ None) }
    ensures others { (others (status_request ∷ request_at 7 9 ∷ []) ≡ request_at 7 9 ∷ []) × (others [] ≡ []) }
    ensures report { reported asked_gate status_request report_text
        ≡ Some (record { address = 7; bytes = sealed_report }) }
    ensures unknown { reported asked_gate (request_at 7 9) report_text ≡ None }
    ensures long { reported asked_gate status_request (replicate 1025 10) ≡ None }
    ensures setup { gate_setup operator_gate
        ≡ record (gate_setup first_gate) {
          clients = [];
          operators = record { number = 258; key = zeros; ahead = 2 } ∷ [];
        } }
    ensures setup_stays { gate_setup asked_gate ≡ gate_setup operator_gate }
{}

/// Worked cases. The requests that are set aside and taken in a run: a copy is not set aside.
pub fn runs_of_requests_are_worked()
    ensures aside { aside_in operator_gate (Comes (Some 1) 7 sealed_request ∷ Comes (Some 1) 8 sealed_request
        ∷ Answers 258 [] ∷ Takes ∷ []) ≡ status_request ∷ [] }
    ensures taken { taken_in operator_gate (Takes ∷ Comes (Some 1) 7 sealed_request ∷ Answers 258 [] ∷ Takes ∷ Takes
        ∷ []) ≡ status_request ∷ [] }
    ensures same { map (is_same_request status_request) (status_request ∷ request_at 258 1000000 ∷ request_at 258 9
        ∷ request_at 7 1000000 ∷ []) ≡ true ∷ true ∷ false ∷ false ∷ [] }
{}

/// Counterexamples: lists of requests, and incarnations of a gate whose clock told second 10.
///
/// With a lead of 2 seconds the gate can set aside a request of second 12.
pub fn requests_can_be_broken()
    ensures among { IsAmongRequests (request_at 7 9 ∷ status_request ∷ []) status_request }
    ensures not_among { IsAmongRequests (request_at 7 9 ∷ []) status_request → ⊥ }
    ensures in_order { AreOperatorsInOrder (operator_life 0 ∷ operator_life 12000000 ∷ operator_life 12000001 ∷ []) }
    ensures low_mark { AreOperatorsInOrder (operator_life 0 ∷ operator_life 11999999 ∷ []) → ⊥ }
    ensures last_low_mark { AreOperatorsInOrder (operator_life 0 ∷ operator_life 12000000 ∷ operator_life 11999999 ∷ [])
        → ⊥ }
    // the first one's clock told nothing, so that it is before all others
    ensures low_mark_of_the_second { AreOperatorsInOrder (silent_operator_life ∷ operator_life 0
        ∷ operator_life 11999999 ∷ []) → ⊥ }
    ensures distinct { IsDistinct is_same_request (status_request ∷ request_at 7 9 ∷ []) }
    ensures twice { IsDistinct is_same_request (status_request ∷ status_request ∷ []) → ⊥ }
    ensures last_twice { IsDistinct is_same_request (request_at 7 9 ∷ status_request ∷ status_request ∷ []) → ⊥ }
{}

/// Premises: the law of reports has something to say of operator 258's request, and of node 2's report on it.
pub fn report_premises_can_be_met()
    ensures bytes { AreBytes sealed_report }
    ensures makings { AreMakings zeros request_and_report }
    ensures request { IsMade request_and_report request_making }
    ensures gates { GatesReport zeros request_and_report 258 }
    ensures unforged { IsUnforged zeros request_and_report (making_tag zeros request_making) sealed_report }
    ensures read { report_at zeros (making_tag zeros request_making) sealed_report
        ≡ Some (making_of_report.head, making_of_report.text) }
{}
