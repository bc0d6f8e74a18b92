//! Worked cases of a gate: client 258's line for node 2, and other datagrams.

ghost use Rattle.std.specs.Prelude.{◌≡◌, ℕ, ◌++◌, ◌∷◌, [], ◌-◌, ◌^◌, None, Ok, Some, codes, false, map, replicate, slice_set, true};
ghost use Rattle.std.specs.List.{IsDistinct};
ghost use Rattle.sealed_wire.specs.Bytes.{AreBytes};
ghost use Rattle.sealed_wire.specs.Examples.{sealed_answer, sealed_line};
ghost use Rattle.sealed_wire.specs.Making.{AreMakings, IsMade, IsUnforged, making_tag};
ghost use Rattle.sealed_wire.specs.Sealed.{sealed_at};
ghost use Rattle.sealed_port.specs.World.{GatesAnswer};
ghost use Rattle.sealed_wire.specs.declared.head.Kind.TheVariants.{Answer, Line, Report, Request};
ghost use Rattle.datagram_port.specs.Port.{Faulted, Offered, PortEvent, Quiet, Received};
ghost use Rattle.datagram_port.specs.Setup.{GateSetup, Setup};
ghost use Rattle.datagram_port.specs.declared.port.Received.TheVariants.{Datagram, Fault, Quiet as QuietReceive};
ghost use Rattle.datagram_port.specs.declared.port.Sender.TheVariants.{Client, Peer};
ghost use Rattle.replay_window.specs.declared.refusal.Refusal.TheVariants.{Again as OldMoment, Early as EarlyMoment, Late as LateMoment};
ghost use Rattle.sealed_port.specs.Asked.{clashes, nonce_in, nonce_of, place_of, remembered, with_one, without};
ghost use Rattle.sealed_port.specs.Failures.{failed_after, failures_after, failures_at, is_failure, is_limited, with_one_of};
ghost use Rattle.sealed_port.specs.Causes.{cause_by, counted, nothing};
ghost use Rattle.sealed_port.specs.Examples.{asked_at, asked_line, check_line, client_at, failed_at, failures_in, first_gate, gate_at, later_gate, life_at, no_limit, opened_line, passed_at, plain_address, silent_life, answer_making, line_making, two_makings, window_at, zeros};
ghost use Rattle.sealed_port.specs.Gate.{admits, answered, cause_of, failures_told, gate_answered, gate_with, is_line, is_plain, opened, refusal_in, ruling, with_moment};
ghost use Rattle.sealed_port.specs.Setup.{AreHeard, IsHandedFor, gate_setup, sealed_setup};
ghost use Rattle.sealed_port.specs.Port.{ArePassedOver, Opens, PassesOver, counted_after, counted_over, gate_after, gate_offered, handed_in, offered, sealed_from, told_for};
ghost use Rattle.sealed_port.specs.Runs.{Answers, AreGatesInOrder, Comes, IsAmong, WasTold, gate_run, is_same, opened_in};
ghost use Rattle.sealed_port.specs.declared.cause.Cause.TheVariants.{Again, Early, Form, Late, Limited, Tag};

/// Worked cases. Rulings of a gate on the line, sealed at second 1 with a lead of 2 seconds, and on other datagrams.
pub fn rulings_are_worked()
    ensures line { ruling first_gate (Some 1) sealed_line ≡ Ok opened_line }
    ensures second_client { opened (record first_gate
        { clients = client_at 7 (window_at 0 []) ∷ client_at 258 (window_at 0 []) ∷ [] }) (Some 1) sealed_line
        ≡ Some opened_line }
    ensures short { cause_of first_gate (Some 1) [] ≡ Some Form }
    ensures answer { cause_of first_gate (Some 1) sealed_answer ≡ Some Form }
    ensures another_node { cause_of (record first_gate { node = 3 }) (Some 1) sealed_line ≡ Some Form }
    ensures no_client { cause_of (record first_gate { clients = [] }) (Some 1) sealed_line ≡ Some Form }
    ensures wrong_tag { cause_of first_gate (Some 1) (slice_set sealed_line 67 0) ≡ Some Tag }
    ensures no_clock { cause_of first_gate None sealed_line ≡ Some Early }
    ensures no_clock_and_no_form { cause_of first_gate None [] ≡ Some Form }
    ensures early { cause_of (record first_gate
        { clients = client_at 258 (record (window_at 0 []) { ahead = 0 }) ∷ [] }) (Some 0) sealed_line ≡ Some Early }
    ensures last { opened first_gate (Some 61) sealed_line ≡ Some opened_line }
    ensures late { cause_of first_gate (Some 62) sealed_line ≡ Some Late }
    ensures seen { cause_of (gate_at (window_at 0 (1000000 ∷ [])) []) (Some 1) sealed_line ≡ Some Again }
    ensures mark { cause_of (gate_at (window_at 1000000 []) []) (Some 1) sealed_line ≡ Some Again }
    ensures nonce { cause_of (gate_at (window_at 0 []) (asked_at 258 (codes "k1") [] ∷ [])) (Some 1) sealed_line
        ≡ Some Again }
    ensures same_line { opened (gate_at (window_at 0 []) (asked_line ∷ [])) (Some 1) sealed_line
        ≡ Some opened_line }
    // two failures of client 258 in the clock's minute are its limit
    ensures limited { cause_of (record first_gate { failures = failures_in 0 (failed_at 258 2 ∷ []) }) (Some 1)
        sealed_line ≡ Some Limited }
    ensures below_the_limit { opened (record first_gate { failures = failures_in 0 (failed_at 258 1 ∷ []) }) (Some 1)
        sealed_line ≡ Some opened_line }
    ensures kinds { map is_line (Line ∷ Answer ∷ Request ∷ Report ∷ []) ≡ true ∷ false ∷ false ∷ false ∷ [] }
    ensures unknown_client { (admits None 1 1000000 ≡ false) × (refusal_in None 1 1000000 ≡ None) }
    ensures reasons { map cause_by (None ∷ Some EarlyMoment ∷ Some LateMoment ∷ Some OldMoment ∷ [])
        ≡ Again ∷ Early ∷ Late ∷ Again ∷ [] }
{}

/// Worked cases. The failures of clients in a minute, of which two are the limit, and the answers that are failures.
pub fn failures_are_worked()
    ensures answers { map is_failure (codes "NO k1 INVALID" ∷ codes "NO k1 PASSWORD" ∷ codes "NO k1 UNKNOWN"
        ∷ codes "NO k1 THROTTLED 5" ∷ codes "OK k1 0" ∷ codes "NO - BADLINE" ∷ codes "NO k1" ∷ [])
        ≡ true ∷ true ∷ replicate 5 false }
    ensures limited { map (λ failures. is_limited failures 60 258) (failures_in 1 (failed_at 258 2 ∷ [])
        ∷ failures_in 1 (failed_at 7 2 ∷ failed_at 258 3 ∷ []) ∷ failures_in 1 (failed_at 258 1 ∷ [])
        ∷ failures_in 1 (failed_at 7 2 ∷ []) ∷ failures_in 0 (failed_at 258 2 ∷ []) ∷ [])
        ≡ true ∷ true ∷ replicate 3 false }
    ensures last_second { is_limited (failures_in 1 (failed_at 258 2 ∷ [])) 119 258 ≡ true }
    ensures next_minute { is_limited (failures_in 1 (failed_at 258 2 ∷ [])) 120 258 ≡ false }
    ensures no_limit { is_limited (record no_limit { failed = failed_at 258 99 ∷ [] }) 0 258 ≡ false }
    ensures same_minute { failures_at 119 (failures_in 1 (failed_at 258 2 ∷ []))
        ≡ failures_in 1 (failed_at 258 2 ∷ []) }
    ensures another_minute { failures_at 120 (failures_in 1 (failed_at 258 2 ∷ [])) ≡ failures_in 2 [] }
    ensures no_clock { failures_told None (failures_in 1 (failed_at 258 2 ∷ []))
        ≡ failures_in 1 (failed_at 258 2 ∷ []) }
    ensures first { failures_after 258 (codes "NO k1 INVALID") (failures_in 1 (failed_at 7 1 ∷ []))
        ≡ failures_in 1 (failed_at 7 1 ∷ failed_at 258 1 ∷ []) }
    ensures one_more { failures_after 258 (codes "NO k1 INVALID") (failures_in 1 (failed_at 7 1 ∷ failed_at 258 1 ∷ []))
        ≡ failures_in 1 (failed_at 7 1 ∷ failed_at 258 2 ∷ []) }
    ensures no_failure { failures_after 258 (codes "OK k1 0") (failures_in 1 []) ≡ failures_in 1 [] }
    ensures room { failed_after 258 (replicate 63 (failed_at 7 1))
        ≡ replicate 63 (failed_at 7 1) ++ failed_at 258 1 ∷ [] }
    ensures full { failed_after 258 (replicate 64 (failed_at 7 1)) ≡ replicate 64 (failed_at 7 1) }
    ensures most { with_one_of 258 (failed_at 258 (2 ^ 64 - 1)) ≡ failed_at 258 (2 ^ 64 - 1) }
{}

/// Worked cases. The lines without an answer, and their nonces.
pub fn asked_lines_are_worked()
    ensures nonces { map nonce_in (check_line ∷ codes "CHECK" ∷ []) ≡ codes "k1" ∷ codes "-" ∷ [] }
    ensures answers { map nonce_of (codes "OK k1 0" ∷ codes "NO k1" ∷ codes "OK" ∷ [])
        ≡ codes "k1" ∷ codes "k1" ∷ [] ∷ [] }
    ensures clash { map (λ one. clashes 258 check_line (one ∷ []))
        (asked_at 258 (codes "k1") [] ∷ asked_line ∷ asked_at 258 (codes "k2") [] ∷ asked_at 7 (codes "k1") [] ∷ [])
        ≡ true ∷ false ∷ false ∷ false ∷ [] }
    ensures second_clash { clashes 258 check_line (asked_line ∷ asked_at 258 (codes "k1") [] ∷ []) ≡ true }
    ensures place { place_of 258 (codes "k1") (asked_at 7 (codes "k1") [] ∷ asked_line ∷ asked_line ∷ []) ≡ Some 1 }
    ensures no_place { place_of 258 (codes "k1") (asked_at 258 (codes "k2") [] ∷ []) ≡ None }
    ensures one_less { without (Some 1) (asked_line ∷ asked_at 7 [] [] ∷ []) ≡ asked_line ∷ [] }
    ensures all { without None (asked_line ∷ []) ≡ asked_line ∷ [] }
    ensures replaced { remembered (asked_line ∷ asked_at 7 [] [] ∷ []) (asked_at 258 (codes "k1") [])
        ≡ asked_at 7 [] [] ∷ asked_at 258 (codes "k1") [] ∷ [] }
    ensures room { with_one (replicate 95 asked_line) (asked_at 7 [] [])
        ≡ replicate 95 asked_line ++ asked_at 7 [] [] ∷ [] }
    ensures full { with_one (asked_at 7 [] [] ∷ replicate 95 asked_line) asked_line ≡ replicate 96 asked_line }
    ensures newest { with_one (replicate 96 asked_line) (asked_at 7 [] [])
        ≡ replicate 95 asked_line ++ asked_at 7 [] [] ∷ [] }
    ensures opened { gate_with first_gate (Some 1) 7 (Some opened_line) ≡ later_gate }
    ensures unopened { gate_with first_gate (Some 1) 7 None ≡ first_gate }
    ensures windows { map (with_moment 258 9) (client_at 7 (window_at 0 []) ∷ client_at 258 (window_at 0 []) ∷ [])
        ≡ client_at 7 (window_at 0 []) ∷ client_at 258 (window_at 0 (9 ∷ [])) ∷ [] }
{}

/// Worked cases. Sealed answers.
pub fn sealed_answers_are_worked()
    ensures answer { answered later_gate 258 (codes "OK k1 0") ≡ Some (record { address = 7; bytes = sealed_answer }) }
    ensures another_nonce { answered later_gate 258 (codes "OK k2 0") ≡ None }
    ensures another_client { answered later_gate 259 (codes "OK k1 0") ≡ None }
    ensures unknown_client { answered (record later_gate { clients = [] }) 258 (codes "OK k1 0") ≡ None }
    ensures long { answered later_gate 258 (codes "OK k1 " ++ replicate 251 48) ≡ None }
    ensures forgotten { gate_answered later_gate 258 (codes "OK k1 0") ≡ gate_at (window_at 0 (1000000 ∷ [])) [] }
    ensures kept { gate_answered later_gate 258 (codes "OK k2 0") ≡ later_gate }
    ensures failed { gate_answered (record first_gate { failures = failures_in 0 [] }) 258 (codes "NO k1 INVALID")
        ≡ record first_gate { failures = failures_in 0 (failed_at 258 1 ∷ []) } }
    ensures begun { gate_with (record first_gate { failures = failures_in 0 (failed_at 258 1 ∷ []) }) (Some 60) 7
        (Some opened_line) ≡ record later_gate { failures = failures_in 1 [] } }
    ensures opened { opened_in first_gate (Comes (Some 1) 7 sealed_line ∷ Comes (Some 1) 8 sealed_line
        ∷ Answers 258 (codes "OK k1 0") ∷ []) ≡ asked_line ∷ [] }
    ensures run { gate_run first_gate (Comes (Some 1) 7 sealed_line ∷ Answers 258 (codes "OK k1 0") ∷ [])
        ≡ gate_at (window_at 0 (1000000 ∷ [])) [] }
{}

/// Worked cases. The events that a gate hands in, passes over and offers.
pub fn events_are_worked()
    ensures plain { map (is_plain first_gate) (plain_address ∷ 7 ∷ []) ≡ true ∷ false ∷ [] }
    ensures line { handed_in first_gate (Some 1) (Received (Client 7) sealed_line)
        ≡ Some (Received (Client 281474976710914) check_line) }
    ensures passed_over { handed_in first_gate (Some 1) (Received (Client 7) (codes "CHECK")) ≡ None }
    ensures handed_in_unchanged { map (handed_in first_gate None)
        (Received (Client plain_address) (codes "CHECK") ∷ Received (Peer 3) [] ∷ Quiet ∷ Faulted ∷ [])
        ≡ Some (Received (Client plain_address) (codes "CHECK")) ∷ Some (Received (Peer 3) []) ∷ Some Quiet
        ∷ Some Faulted ∷ [] }
    ensures after_a_line { gate_after first_gate (Some 1) (Received (Client 7) sealed_line) ≡ later_gate }
    ensures after_others { map (gate_after first_gate (Some 1)) (Received (Client plain_address) sealed_line
        ∷ Received (Client 7) [] ∷ Received (Peer 3) sealed_line ∷ Quiet ∷ Faulted ∷ []) ≡ replicate 5 first_gate }
    ensures told { map (told_for first_gate (Some 1)) (Received (Client 7) [] ∷ Received (Client plain_address) []
        ∷ Received (Peer 3) [] ∷ Quiet ∷ Faulted ∷ []) ≡ (Some 1 ∷ []) ∷ replicate 4 [] }
    ensures sealed { map (sealed_from first_gate) (Datagram (Client 7) 5 ∷ Datagram (Client plain_address) 5
        ∷ Datagram (Peer 7) 5 ∷ QuietReceive ∷ Fault ∷ []) ≡ Some (7, 5) ∷ replicate 4 None }
    ensures answer { offered later_gate (Client 281474976710914) (codes "OK k1 0")
        ≡ Offered (Client 7) sealed_answer ∷ [] }
    ensures answered { gate_offered later_gate (Client 281474976710914) (codes "OK k1 0")
        ≡ gate_at (window_at 0 (1000000 ∷ [])) [] }
    ensures unanswered { map (λ number. offered later_gate (Client number) (codes "OK k1 0"))
        (281474976710915 ∷ 281474976776192 ∷ 281474976710655 ∷ [])
        ≡ [] ∷ [] ∷ (Offered (Client 281474976710655) (codes "OK k1 0") ∷ []) ∷ [] }
    ensures beyond { offered (record later_gate {
      clients = client_at 65536 (window_at 0 []) ∷ [];
      asked = asked_at 65536 (codes "k1") [] ∷ [];
    }) (Client 281474976776192) (codes "OK k1 0") ≡ [] }
    ensures member { offered later_gate (Peer 3) [] ≡ Offered (Peer 3) [] ∷ [] }
    ensures gates { map (λ to. gate_offered later_gate to (codes "OK k1 0"))
        (Client 281474976776450 ∷ Client 258 ∷ Peer 2 ∷ []) ≡ replicate 3 later_gate }
{}

/// Worked cases. The numbers of unopened datagrams.
pub fn numbers_are_worked()
    ensures one { map (counted nothing) (None ∷ Some Form ∷ Some Tag ∷ Some Early ∷ Some Late ∷ Some Again
        ∷ Some Limited ∷ []) ≡ nothing ∷ record nothing { form = 1 } ∷ record nothing { tag = 1 }
        ∷ record nothing { early = 1 } ∷ record nothing { late = 1 } ∷ record nothing { again = 1 }
        ∷ record nothing { limited = 1 } ∷ [] }
    ensures most { map (λ cause. counted (record {
      form = 2 ^ 64 - 1;
      tag = 2 ^ 64 - 1;
      early = 2 ^ 64 - 1;
      late = 2 ^ 64 - 1;
      again = 2 ^ 64 - 1;
      limited = 2 ^ 64 - 1;
    }) (Some cause)) (Form ∷ Tag ∷ Early ∷ Late ∷ Again ∷ Limited ∷ [])
        ≡ replicate 6 (record {
          form = 2 ^ 64 - 1;
          tag = 2 ^ 64 - 1;
          early = 2 ^ 64 - 1;
          late = 2 ^ 64 - 1;
          again = 2 ^ 64 - 1;
          limited = 2 ^ 64 - 1;
        }) }
    ensures event { map (counted_after first_gate nothing (Some 1)) (Received (Client 7) []
        ∷ Received (Client plain_address) [] ∷ Received (Peer 3) [] ∷ Quiet ∷ Faulted ∷ [])
        ≡ record nothing { form = 1 } ∷ replicate 4 nothing }
    ensures opened { counted_after first_gate nothing (Some 1) (Received (Client 7) sealed_line) ≡ nothing }
    ensures two { counted_over first_gate nothing (record { now = None; address = 7; bytes = sealed_line }
        ∷ record { now = None; address = 7; bytes = [] } ∷ []) ≡ record nothing { form = 1; early = 1 } }
{}

/// Counterexamples: minimal values that keep a promise of a port or a run, and values that break one part of it.
///
/// A datagram without bytes from address 7 is passed over, and the clock fails.
pub fn promises_can_be_broken()
    ensures passed { ArePassedOver first_gate (passed_at 7 ∷ passed_at 8 ∷ []) }
    ensures second_is_plain { ArePassedOver first_gate (passed_at 7 ∷ passed_at plain_address ∷ []) → ⊥ }
    ensures passes { PassesOver (Some []) (Some (Received (Client 7) [] ∷ [])) (Some []) (Some (None ∷ []))
        first_gate first_gate nothing (record nothing { form = 1 }) 1 }
    ensures opens { Opens (Some []) (Some (Received (Client 7) [] ∷ Quiet ∷ [])) (Some []) (Some (None ∷ []))
        first_gate first_gate nothing (record nothing { form = 1 }) Quiet }
    ensures unrecorded { PassesOver (Some []) (Some []) (Some []) (Some (None ∷ []))
        first_gate first_gate nothing (record nothing { form = 1 }) 1 → ⊥ }
    ensures unasked { PassesOver (Some []) (Some (Received (Client 7) [] ∷ [])) (Some []) (Some [])
        first_gate first_gate nothing (record nothing { form = 1 }) 1 → ⊥ }
    ensures another_number { PassesOver (Some []) (Some (Received (Client 7) [] ∷ [])) (Some []) (Some (None ∷ []))
        first_gate first_gate nothing (record nothing { form = 1 }) 2 → ⊥ }
    ensures another_gate { PassesOver (Some []) (Some (Received (Client 7) [] ∷ [])) (Some []) (Some (None ∷ []))
        first_gate later_gate nothing (record nothing { form = 1 }) 1 → ⊥ }
    ensures among { IsAmong (asked_at 7 [] [] ∷ asked_line ∷ []) asked_line }
    ensures not_among { IsAmong (asked_at 7 [] [] ∷ []) asked_line → ⊥ }
    ensures told { WasTold 5 (Comes None 7 [] ∷ Answers 7 [] ∷ Comes (Some 5) 7 [] ∷ []) }
    ensures untold { WasTold 5 (Comes (Some 4) 7 [] ∷ []) → ⊥ }
{}

/// Counterexamples: incarnations of a gate whose clock told second 10. With a lead of 2 seconds it can open second 12.
pub fn lives_can_be_broken()
    ensures in_order { AreGatesInOrder (life_at 0 ∷ life_at 12000000 ∷ life_at 12000001 ∷ []) }
    ensures low_mark { AreGatesInOrder (life_at 0 ∷ life_at 11999999 ∷ []) → ⊥ }
    ensures last_low_mark { AreGatesInOrder (life_at 0 ∷ life_at 12000000 ∷ life_at 11999999 ∷ []) → ⊥ }
    // the first one's clock told nothing, so that it is before all others
    ensures low_mark_of_the_second { AreGatesInOrder (silent_life ∷ life_at 0 ∷ life_at 11999999 ∷ []) → ⊥ }
    ensures same { map (is_same asked_line) (asked_at 258 [] [] ∷ asked_at 7 [] [] ∷ record asked_line { moment = 9 }
        ∷ []) ≡ true ∷ false ∷ false ∷ [] }
    ensures distinct { IsDistinct is_same (asked_line ∷ asked_at 7 [] [] ∷ []) }
    ensures twice { IsDistinct is_same (asked_line ∷ asked_line ∷ []) → ⊥ }
    ensures last_twice { IsDistinct is_same (asked_at 7 [] [] ∷ asked_line ∷ asked_line ∷ []) → ⊥ }
{}

/// Premises: the law of answers has something to say of client 258's line, and of node 2's answer to it.
pub fn premises_can_be_met()
    ensures bytes { AreBytes sealed_answer }
    ensures makings { AreMakings zeros two_makings }
    ensures line { IsMade two_makings line_making }
    ensures gates { GatesAnswer zeros two_makings 258 }
    ensures unforged { IsUnforged zeros two_makings (making_tag zeros line_making) sealed_answer }
    ensures read { sealed_at zeros (making_tag zeros line_making) sealed_answer
        ≡ Some (answer_making.head, answer_making.text) }
{}

/// Worked cases. What stays of a gate, and of a port with the gate.
pub fn setups_are_worked()
    ensures gate { gate_setup (record later_gate {
      clients = client_at 7 (window_at 0 []) ∷ client_at 258
          (record (window_at 5 (1000000 ∷ [])) { ahead = 60 }) ∷ [];
      failures = failures_in 3 (failed_at 7 1 ∷ []);
    })
        ≡ record {
          node = 2;
          clients = record { number = 7; key = zeros; ahead = 2 }
              ∷ record { number = 258; key = zeros; ahead = 60 } ∷ [];
          operators = [];
          plain = 2130706433 ∷ [];
          most = Some 2;
        } }
    ensures opening { gate_setup later_gate ≡ gate_setup first_gate }
    ensures port { (below : Setup)
        → sealed_setup first_gate (Some below) ≡ Some (record below { gate = Some (gate_setup first_gate) }) }
    ensures none { sealed_setup first_gate None ≡ None }
{}

/// Counterexamples: the record of a gate's port. Each of its datagrams was handed in for one of the port below.
pub fn records_can_be_broken()
    ensures heard { AreHeard (gate_setup later_gate) (Received (Peer 3) [] ∷ Received (Client 7) sealed_line ∷ [])
        (Quiet ∷ Received (Client 281474976710914) check_line ∷ Offered (Peer 3) [] ∷ Faulted ∷ []) }
    ensures nothing_below { AreHeard (gate_setup first_gate) [] (Received (Peer 3) [] ∷ []) → ⊥ }
    ensures second_of_nothing { AreHeard (gate_setup first_gate) [] (Quiet ∷ Received (Peer 3) [] ∷ []) → ⊥ }
    ensures another_member { AreHeard (gate_setup first_gate) (Received (Peer 3) [] ∷ []) (Received (Peer 2) [] ∷ [])
        → ⊥ }
    ensures plain_line { AreHeard (gate_setup first_gate) (Received (Client 7) [] ∷ []) (Received (Client 7) [] ∷ [])
        → ⊥ }
    ensures of_a_plain_address { AreHeard (gate_setup first_gate) (Received (Client plain_address) [] ∷ [])
        (Received (Client plain_address) [] ∷ []) }
    // any gate hands in nothing for a port that received nothing, and nothing for a byte if nobody may speak plainly
    ensures for_nothing { (setup : GateSetup) (event : PortEvent) → IsHandedFor setup [] event → ⊥ }
    ensures for_a_byte { (setup : GateSetup) (address byte : ℕ) (event : PortEvent) → setup.plain ≡ [] →
        IsHandedFor setup (Received (Client address) (byte ∷ []) ∷ []) event → ⊥ }
{}
