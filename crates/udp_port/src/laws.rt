ghost use Rattle.std.specs.Prelude.{◌≡◌, ℕ, ◌+◌, ◌*◌, Bool, Err, ◌<◌, ◌≤◌, ◌∷◌, [], List, Ok, Some, None, true, false, ◌++◌, codes, length, map, replicate};
ghost use Rattle.std.specs.declared.io.ErrorKind.TheVariants.{ConnectionRefused, ConnectionReset, Interrupted, NotFound, TimedOut, WouldBlock};
ghost use Rattle.std.specs.declared.net.socket_addr.SocketAddr.TheVariants.{V4, V6};
ghost use Rattle.std.specs.declared.net.socket_addr.SocketAddrV6.{SocketAddrV6};
ghost use Rattle.std.specs.declared.net.socket_addr.SocketAddrV4.{SocketAddrV4};
ghost use Rattle.std.specs.declared.io.Error.{Error};
ghost use Rattle.std.specs.IoError.{error_kind};
ghost use Rattle.datagram_port.specs.declared.port.Sender.TheVariants.{Client, Peer};
ghost use Rattle.datagram_port.specs.declared.port.Received.TheVariants.{Datagram, Fault, Quiet};
ghost use Rattle.datagram_port.specs.Port.{Faulted, Offered, Quiet as QuietEvent, Received as ReceivedEvent};
ghost use Rattle.udp_port.specs.declared.calls.Call.{Call};
ghost use Rattle.udp_port.specs.declared.calls.Call.TheVariants.{GivenUp, Hear, Send, Stuck, Turn};
ghost use Rattle.udp_port.specs.declared.calls.Heard.TheVariants.{Datagram as Came, Failed, Other};
ghost use Rattle.udp_port.specs.Address.{HasNoAddress, IsAddressOf, number_of, sender_of};
ghost use Rattle.udp_port.specs.Calls.{Perseveres, events_of_calls, is_given_up};
ghost use Rattle.udp_port.specs.Examples.{at_host, at_local, events_by_one, received_by_one, received_from};
ghost use Rattle.udp_port.specs.Pace.{AreClose, AreUpTo, due_after_quiet, due_after_start, interval, is_due, last_of, paced_of};
ghost use Rattle.udp_port.specs.Receipt.{failure_of, heard_of, is_answer, is_loopback, receipt_of};

/// Worked cases. Numbers of addresses, and senders.
pub fn addresses_are_worked()
    ensures number { number_of (at_local 5000) ≡ 139637976798088 }
    ensures second { sender_of (at_local 1 ∷ at_local 2 ∷ []) (at_local 2) ≡ Peer 2 }
    ensures first { sender_of (at_local 2 ∷ at_local 2 ∷ []) (at_local 2) ≡ Peer 1 }
    ensures other_port { sender_of (at_local 1 ∷ at_local 2 ∷ []) (at_local 3) ≡ Client 139637976793091 }
    ensures other_host { sender_of (at_local 1 ∷ at_local 2 ∷ []) (at_host 10 1) ≡ Client 10995116343297 }
{}

/// Worked cases. Answers of nodes, and results of receives.
pub fn receipts_are_worked()
    ensures no { is_answer (codes "NO - BADLINE") ≡ true }
    ensures ok { is_answer (codes "OK 1 0") ≡ true }
    ensures shortest { is_answer (codes "NO ") ≡ true }
    ensures no_space { is_answer (codes "OK") ≡ false }
    ensures small { is_answer (codes "no - BADLINE") ≡ false }
    ensures inside { is_answer (codes "CHECK 1 NO 755224 -") ≡ false }
    // a port that skips answers passes over a client's answer, but not over a member's
    ensures client { received_by_one true 12 (at_local 2) (codes "NO - BADLINE") ≡ None }
    ensures heard { received_by_one false 4 (at_local 2) (codes "NO 1") ≡ Some (Datagram (Client 139637976793090) 4) }
    ensures member { received_by_one true 12 (at_local 1) (codes "NO - BADLINE") ≡ Some (Datagram (Peer 1) 12) }
    ensures line { received_by_one true 7 (at_local 2) (codes "CHECK 1LINE")
        ≡ Some (Datagram (Client 139637976793090) 7) }
    // the port ignores bytes that an earlier datagram left in the buffer
    ensures left { received_by_one true 2 (at_local 2) (codes "NO - BADLINE")
        ≡ Some (Datagram (Client 139637976793090) 2) }
    // a port that takes clients of its host alone passes over another host's client, but not over its member
    ensures own_host { received_from true (at_local 1) ≡ Some (Datagram (Client 139637976793089) 1) }
    ensures another_host { received_from true (at_host 126 1) ≡ None }
    ensures any_host { received_from false (at_host 126 1) ≡ Some (Datagram (Client 138538465165313) 1) }
    ensures member_elsewhere { received_from true (at_host 10 1) ≡ Some (Datagram (Peer 1) 1) }
    ensures loopback { map is_loopback (139637976727551 ∷ 139637976727552 ∷ 140737488355327 ∷ 140737488355328 ∷ [])
        ≡ false ∷ true ∷ true ∷ false ∷ [] }
    ensures no_datagram { failure_of WouldBlock ≡ Some Quiet }
    ensures in_time { failure_of TimedOut ≡ Some Quiet }
    ensures signal { failure_of Interrupted ≡ None }
    ensures nobody { failure_of ConnectionRefused ≡ None }
    ensures gone { failure_of ConnectionReset ≡ None }
    ensures fault { failure_of NotFound ≡ Some Fault }
{}

/// Worked cases. The events of a port's calls.
pub fn calls_are_worked()
    ensures heard { heard_of (Ok (7, V4 (at_local 2))) ≡ Came 7 (at_local 2) }
    ensures received { events_by_one ((Hear true (Came 1 (at_local 1)), 7 ∷ 8 ∷ []) ∷ [])
        ≡ ReceivedEvent (Peer 1) (7 ∷ []) ∷ [] }
    // a wait that ends is a quiet turn, and a poll that finds nothing is no event
    ensures waited { events_by_one ((Hear true (Failed WouldBlock), []) ∷ []) ≡ QuietEvent ∷ [] }
    ensures polled { events_by_one ((Hear false (Failed WouldBlock), []) ∷ []) ≡ [] }
    ensures found { events_by_one ((Hear false (Came 1 (at_local 1)), 7 ∷ 8 ∷ []) ∷ [])
        ≡ ReceivedEvent (Peer 1) (7 ∷ []) ∷ [] }
    ensures faults { events_by_one ((Hear true Other, []) ∷ (Hear false Other, []) ∷ (Stuck, []) ∷ [])
        ≡ Faulted ∷ Faulted ∷ Faulted ∷ [] }
    // the port passes over a signal and an answer, in a receive and in a poll
    ensures passed_over { events_by_one ((Hear true (Failed Interrupted), []) ∷ (Hear false (Failed Interrupted), [])
        ∷ (Hear true (Came 3 (at_local 2)), codes "NO ") ∷ (Hear false (Came 3 (at_local 2)), codes "OK ") ∷ []) ≡ [] }
    ensures turn { events_by_one ((Turn, []) ∷ []) ≡ QuietEvent ∷ [] }
    ensures given_up { events_by_one ((GivenUp, []) ∷ []) ≡ QuietEvent ∷ [] }
    ensures gives_up { map is_given_up (GivenUp ∷ Turn ∷ Stuck ∷ Hear true (Failed WouldBlock) ∷ Send (Peer 2) true
        ∷ []) ≡ true ∷ replicate 4 false }
    ensures sent { events_by_one ((Send (Peer 2) false, 5 ∷ []) ∷ (Send (Peer 1) true, 6 ∷ []) ∷ [])
        ≡ Offered (Peer 2) (5 ∷ []) ∷ Offered (Peer 1) (6 ∷ []) ∷ [] }
    ensures settings { events_of_calls false true [] ((Hear true (Came 1 (at_host 10 1)), 7 ∷ []) ∷ []) ≡ [] }
{}

/// Worked cases. The due times of quiet turns.
pub fn quiet_turns_are_worked()
    ensures start { due_after_start (Some 1000) None ≡ Some 1200 }
    ensures no_start { is_due (Some 1000) None ≡ false }
    ensures before { is_due (Some 1199) (Some 1200) ≡ false }
    ensures still { due_after_start (Some 1199) (Some 1200) ≡ Some 1200 }
    ensures due { is_due (Some 1200) (Some 1200) ≡ true }
    ensures on_time { due_after_start (Some 1200) (Some 1200) ≡ Some 1400 }
    ensures late { due_after_start (Some 1399) (Some 1200) ≡ Some 1400 }
    ensures later { due_after_start (Some 1400) (Some 1200) ≡ Some 1600 }
    // a wait that ends is quiet at any moment
    ensures waited { due_after_quiet (Some 1350) (Some 1200) ≡ Some 1400 }
    ensures waited_early { due_after_quiet (Some 1199) (Some 1200) ≡ Some 1399 }
    ensures waited_first { due_after_quiet (Some 1000) None ≡ Some 1200 }
    ensures no_clock { is_due None (Some 1200) ≡ false }
    ensures no_clock_start { due_after_start None (Some 1200) ≡ Some 1200 }
    ensures no_clock_wait { due_after_quiet None (Some 1200) ≡ Some 1200 }
    // datagrams come at 166, 332, 498 and so on, and after a quiet receive the next begins at once
    ensures each_166 { paced_of 200 (166 ∷ 332 ∷ 332 ∷ 498 ∷ 498 ∷ 664 ∷ 664 ∷ 830 ∷ 830 ∷ 996 ∷ 1162 ∷ 1162 ∷ [])
        ≡ record { quiets = 5; due = 1200 } }
{}

/// Pace: the number of quiet turns without a wait is at most the number of elapsed intervals plus one.
///
/// If the receives begin at most an interval apart, there are no fewer.
pub fn quiet_turns_keep_their_pace()
    ensures most { (due last : ℕ) (moments : List ℕ) → due ≤ last + interval → AreUpTo last moments
        → due + interval * (paced_of due moments).quiets ≤ last + interval }
    ensures all { (before due : ℕ) (moments : List ℕ) → before < due → due ≤ before + interval → AreClose before moments
        → last_of before moments < due + interval * (paced_of due moments).quiets }
{}

/// Counterexamples: the calls of a receive that may pass over one datagram. Any receive that gives up made its maximum
/// of other calls.
pub fn receives_can_be_broken()
    ensures turn { Perseveres 1 [] ((Turn, []) ∷ []) }
    ensures gives_up { Perseveres 1 [] ((Hear true (Failed Interrupted), []) ∷ (GivenUp, []) ∷ []) }
    ensures gives_up_at_once { Perseveres 1 [] ((GivenUp, []) ∷ []) → ⊥ }
    ensures gives_up_after { (most : ℕ) (others : List (Call × List ℕ)) →
        Perseveres most [] (others ++ (GivenUp, []) ∷ []) → length others ≡ most }
    ensures nothing { Perseveres 1 [] [] → ⊥ }
{}

/// Counterexamples: each promise of an address and of moments fails for a minimal one. The result of any receive that
/// failed is the result of its kind.
pub fn addresses_can_be_broken()
    ensures member { IsAddressOf (at_local 1 ∷ at_local 2 ∷ []) (Peer 2) (at_local 2) }
    ensures member_0 { IsAddressOf (at_local 1 ∷ []) (Peer 0) (at_local 1) → ⊥ }
    ensures another_member { IsAddressOf (at_local 1 ∷ at_local 2 ∷ []) (Peer 1) (at_local 2) → ⊥ }
    ensures no_member { IsAddressOf (at_local 1 ∷ []) (Peer 2) (at_local 1) → ⊥ }
    ensures client { IsAddressOf [] (Client 139637976793093) (at_local 5) }
    ensures another_client { IsAddressOf [] (Client 139637976793092) (at_local 5) → ⊥ }
    ensures beyond_the_members { HasNoAddress (at_local 1 ∷ []) (Peer 2) × HasNoAddress [] (Peer 0) }
    ensures last_member { HasNoAddress (at_local 1 ∷ []) (Peer 1) → ⊥ }
    ensures beyond_the_clients { HasNoAddress [] (Client 281474976710656) }
    ensures last_client { HasNoAddress [] (Client 281474976710655) → ⊥ }
    ensures up_to { AreUpTo 5 (5 ∷ 0 ∷ []) }
    ensures later { AreUpTo 5 (6 ∷ []) → ⊥ }
    ensures second_later { AreUpTo 5 (5 ∷ 6 ∷ []) → ⊥ }
    ensures close { AreClose 0 (200 ∷ 200 ∷ 400 ∷ []) }
    ensures far { AreClose 0 (201 ∷ []) → ⊥ }
    ensures back { AreClose 5 (4 ∷ []) → ⊥ }
    ensures second_far { AreClose 0 (200 ∷ 401 ∷ []) → ⊥ }
    ensures failed { (skips alone : Bool) (members : List SocketAddrV4) (error : Error) (buffer : List ℕ) →
        receipt_of skips alone members (heard_of (Err error)) buffer ≡ failure_of (error_kind error) }
    ensures of_another_kind { (skips alone : Bool) (members : List SocketAddrV4) (length : ℕ) (address : SocketAddrV6)
        (buffer : List ℕ) → receipt_of skips alone members (heard_of (Ok (length, V6 address))) buffer ≡ Some Fault }
{}
