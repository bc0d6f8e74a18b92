//! Worked cases of a gate that drains.

ghost use Rattle.std.specs.Prelude.{◌≡◌, ◌∷◌, [], None, Some, codes, false, map, replicate, true};
ghost use Rattle.sealed_wire.specs.Examples.{sealed_line, sealed_request};
ghost use Rattle.datagram_port.specs.Port.{Faulted, Offered, Quiet, Received};
ghost use Rattle.datagram_port.specs.declared.port.Sender.TheVariants.{Client, Peer};
ghost use Rattle.sealed_port.specs.Asked.{waits};
ghost use Rattle.sealed_port.specs.Causes.{nothing};
ghost use Rattle.sealed_port.specs.DrainExamples.{answered_gate, draining_gate, other_line, sealed_busy, waiting_gate};
ghost use Rattle.sealed_port.specs.Draining.{busy_answer, gate_drained};
ghost use Rattle.sealed_port.specs.Examples.{asked_at, asked_line, check_line, first_gate, later_gate, plain_address};
ghost use Rattle.sealed_port.specs.Port.{counted_after, gate_after, handed_in, own_offers};
ghost use Rattle.sealed_port.specs.RequestExamples.{asked_gate, operator_gate, status_request};
ghost use Rattle.sealed_port.specs.RequestRuns.{aside_in, taken_in};
ghost use Rattle.sealed_port.specs.Runs.{Answers, Comes, Drains, Takes, WasTold, gate_run, opened_in, steps_for};
ghost use Rattle.sealed_port.specs.Setup.{gate_setup};

/// Worked cases. A gate that drains answers client 258's line, passes over a copy, and hands in a line that waits.
pub fn draining_is_worked()
    ensures before { own_offers first_gate (Some 1) (Received (Client 7) sealed_line) ≡ [] }
    ensures answer { own_offers draining_gate (Some 1) (Received (Client 7) sealed_line)
        ≡ Offered (Client 7) sealed_busy ∷ [] }
    ensures handed { handed_in draining_gate (Some 1) (Received (Client 7) sealed_line) ≡ Some (Received (Peer 0) []) }
    ensures after { gate_after draining_gate (Some 1) (Received (Client 7) sealed_line) ≡ answered_gate [] }
    ensures counts { map (λ gate. counted_after gate nothing (Some 1) (Received (Client 7) sealed_line))
        (draining_gate ∷ answered_gate [] ∷ []) ≡ nothing ∷ record nothing { again = 1 } ∷ [] }
    ensures copy { handed_in (answered_gate []) (Some 1) (Received (Client 8) sealed_line) ≡ None }
    ensures copy_unanswered { own_offers (answered_gate []) (Some 1) (Received (Client 8) sealed_line) ≡ [] }
    // the line waits, and so it is no new one
    ensures waiting { handed_in (waiting_gate (asked_line ∷ [])) (Some 1) (Received (Client 7) sealed_line)
        ≡ Some (Received (Client 281474976710914) check_line) }
    ensures waiting_unanswered { own_offers (waiting_gate (asked_line ∷ [])) (Some 1)
        (Received (Client 7) sealed_line) ≡ [] }
    ensures waiting_after { gate_after (waiting_gate (asked_line ∷ [])) (Some 1) (Received (Client 7) sealed_line)
        ≡ answered_gate (asked_line ∷ []) }
    // two other lines wait, one of client 258 and one of client 7 with the nonce
    ensures others_wait { own_offers (waiting_gate (other_line ∷ asked_at 7 (codes "k1") [] ∷ [])) (Some 1)
        (Received (Client 7) sealed_line) ≡ Offered (Client 7) sealed_busy ∷ [] }
    ensures others_stay { gate_after (waiting_gate (other_line ∷ asked_at 7 (codes "k1") [] ∷ [])) (Some 1)
        (Received (Client 7) sealed_line) ≡ answered_gate (other_line ∷ asked_at 7 (codes "k1") [] ∷ []) }
    ensures no_clock { own_offers draining_gate None (Received (Client 7) sealed_line) ≡ [] }
{}

/// Worked cases. What else a gate that drains makes of datagrams, and its answers.
pub fn drained_events_are_worked()
    ensures answers { map busy_answer (check_line ∷ codes "RESYNC k2 ann 755224 287082 -" ∷ codes "CHECK k1" ∷ [])
        ≡ codes "NO k1 BUSY" ∷ codes "NO k2 BUSY" ∷ codes "NO - BADLINE" ∷ [] }
    ensures waits { map (λ one. waits 258 check_line (one ∷ []))
        (asked_line ∷ other_line ∷ asked_at 7 (codes "k1") [] ∷ []) ≡ true ∷ replicate 2 false }
    ensures plain { handed_in draining_gate (Some 1) (Received (Client plain_address) check_line)
        ≡ Some (Received (Client plain_address) check_line) }
    ensures others { map (own_offers draining_gate (Some 1)) (Received (Client plain_address) sealed_line
        ∷ Received (Client 7) [] ∷ Received (Peer 3) sealed_line ∷ Quiet ∷ Faulted ∷ Offered (Peer 3) [] ∷ [])
        ≡ replicate 6 [] }
    ensures after_others { map (gate_after draining_gate (Some 1)) (Received (Client plain_address) sealed_line
        ∷ Received (Client 7) [] ∷ Received (Peer 3) sealed_line ∷ Quiet ∷ Faulted ∷ []) ≡ replicate 5 draining_gate }
    ensures request { handed_in (gate_drained operator_gate) (Some 1) (Received (Client 7) sealed_request)
        ≡ Some (Received (Peer 0) []) }
    ensures request_unanswered { own_offers (gate_drained operator_gate) (Some 1) (Received (Client 7) sealed_request)
        ≡ [] }
    ensures set_aside { gate_after (gate_drained operator_gate) (Some 1) (Received (Client 7) sealed_request)
        ≡ gate_drained asked_gate }
    ensures setup { gate_setup draining_gate ≡ gate_setup first_gate }
{}

/// Worked cases. Runs in which a gate begins to drain: its answer is the run's, and a request is set aside and taken.
pub fn runs_that_drain_are_worked()
    ensures drains { gate_run first_gate (Drains ∷ []) ≡ draining_gate }
    ensures still { gate_run later_gate (Drains ∷ Drains ∷ []) ≡ gate_drained later_gate }
    ensures opened { opened_in first_gate (Drains ∷ Comes (Some 1) 7 sealed_line ∷ Answers 258 (codes "NO k1 BUSY")
        ∷ Comes (Some 1) 8 sealed_line ∷ []) ≡ asked_line ∷ [] }
    ensures after { gate_run first_gate (Drains ∷ Comes (Some 1) 7 sealed_line ∷ Answers 258 (codes "NO k1 BUSY")
        ∷ []) ≡ answered_gate [] }
    ensures steps { steps_for draining_gate (Some 1) 7 sealed_line
        ≡ Comes (Some 1) 7 sealed_line ∷ Answers 258 (codes "NO k1 BUSY") ∷ [] }
    ensures steps_before { steps_for first_gate (Some 1) 7 sealed_line ≡ Comes (Some 1) 7 sealed_line ∷ [] }
    ensures aside { aside_in operator_gate (Drains ∷ Comes (Some 1) 7 sealed_request ∷ []) ≡ status_request ∷ [] }
    ensures taken { taken_in asked_gate (Drains ∷ Takes ∷ []) ≡ status_request ∷ [] }
    ensures told { WasTold 5 (Drains ∷ Comes (Some 5) 7 [] ∷ []) }
    ensures untold { WasTold 5 (Drains ∷ []) → ⊥ }
{}
