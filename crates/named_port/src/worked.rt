ghost use Rattle.std.specs.Prelude.{◌≡◌, [], ◌∷◌, ◌++◌, Some, None, codes, drop, false, map, replicate, slice_set, take, true};
ghost use Rattle.datagram_port.specs.Port.{Faulted, Offered, Quiet, Received};
ghost use Rattle.datagram_port.specs.declared.port.Sender.TheVariants.{Client, Peer};
ghost use Rattle.named_wire.specs.declared.head.Head.{Head};
ghost use Rattle.named_wire.specs.declared.head.Kind.TheVariants.{Ask, Deny, Floor, Floors, Grant};
ghost use Rattle.vote_wire.specs.Examples.{ask_body, eight_bytes};
ghost use Rattle.gatekeeping.specs.Members.{nobody_heard};
ghost use Rattle.gatekeeping.specs.Members.{only};
ghost use Rattle.named_port.specs.Examples.{bare_setup, floor_6, floor_7, floor_from, floor_head, from_3, name_with, named_ask, names_of_1, names_of_2, node_1, node_2, node_2_after, node_2_knowing, numbered_ask, older, packed_ask, packed_vote_of, renumbered_ask, short_names, vote_of, zeros};
ghost use Rattle.named_port.specs.Names.{number_of};
ghost use Rattle.named_port.specs.Port.{Polls, Receives};
ghost use Rattle.named_port.specs.Runs.{Has, IsAfter, after_events, at_start, below_events, boot_told, greatest_boot, handed_events};
ghost use Rattle.named_port.specs.Setup.{named_setup};
ghost use Rattle.named_port.specs.Translator.{after_event, after_read, between, differs, handed_in, marked, new_translator, offered, translated};
ghost use Rattle.named_port.specs.Wire.{is_named, is_numbered, last_factor, named_at, numbered_at, numbered_of, packed, unpacked};

/// Worked cases. An Ask of node 1 with the number of its token, with the name, and with the number at node 2.
pub fn translations_are_worked()
    ensures numbers { map (number_of names_of_2) (name_with 0xbb ∷ name_with 0xaa ∷ name_with 0xcc ∷ [])
        ≡ Some 0 ∷ Some 1 ∷ None ∷ [] }
    ensures named { named_at zeros names_of_1 2 numbered_ask ≡ Some named_ask }
    ensures numbered { numbered_at zeros names_of_2 named_ask ≡ Some renumbered_ask }
    ensures back { numbered_at zeros names_of_1 named_ask ≡ Some numbered_ask }
    ensures key { numbered_at (replicate 32 1) names_of_2 named_ask ≡ None }
    ensures no_name { numbered_at zeros (name_with 0xbb ∷ name_with 0xcc ∷ []) named_ask ≡ None }
    ensures no_number { named_at zeros [] 2 numbered_ask ≡ None }
    ensures no_tag { map (named_at zeros names_of_1 2) ([] ∷ replicate 15 0 ∷ []) ≡ None ∷ None ∷ [] }
    ensures kinds { map (λ kind. named_at zeros names_of_1 2 (slice_set numbered_ask 3 kind)) (0 ∷ 5 ∷ 6 ∷ [])
        ≡ None ∷ None ∷ None ∷ [] }
    ensures another_node { map (λ node. named_at zeros names_of_1 2 (slice_set numbered_ask 10 node)) (1 ∷ 2 ∷ [])
        ≡ Some named_ask ∷ None ∷ [] }
    ensures lengths { map (λ len. is_numbered (take len ask_body)) (17 ∷ 18 ∷ []) ≡ false ∷ true ∷ [] }
    ensures marks { map (λ place. is_numbered (slice_set ask_body place 3)) (0 ∷ 1 ∷ 2 ∷ 3 ∷ [])
        ≡ false ∷ false ∷ false ∷ true ∷ [] }
    ensures bodies { map (λ len. is_named (floor_head Floor 3 7) (replicate len 0)) (23 ∷ 24 ∷ [])
        ≡ false ∷ true ∷ [] }
    ensures wrong_last { numbered_of names_of_2 (floor_head Ask 1 2) (name_with 0xaa ++ slice_set packed_ask 24 3)
        ≡ None }
    ensures several { numbered_of names_of_2 (floor_head Floors 3 7) (name_with 0xbb ++ replicate 8 0) ≡ None }
{}

/// Worked cases. The fields of votes of node 1, with the node and the last factor and without them.
pub fn fields_are_worked()
    ensures ask { packed Ask 1 2 (drop 10 ask_body) ≡ Some packed_ask }
    ensures grant { packed Grant 2 1 (vote_of 1 (eight_bytes 5) (eight_bytes 6))
        ≡ Some (packed_vote_of (eight_bytes 5) 6) }
    ensures another_node { packed Ask 2 1 (drop 10 ask_body) ∷ packed Grant 1 2 (drop 10 ask_body) ∷ []
        ≡ None ∷ None ∷ [] }
    ensures no_span { map (λ last. packed Ask 1 2 (vote_of 1 (eight_bytes 5) last))
        (eight_bytes 4 ∷ eight_bytes 7 ∷ slice_set (eight_bytes 5) 6 1 ∷ []) ≡ None ∷ None ∷ None ∷ [] }
    ensures lengths { map (λ len. packed Ask 1 2 (take len (drop 10 ask_body ++ 0 ∷ []))) (32 ∷ 33 ∷ 34 ∷ [])
        ≡ None ∷ Some packed_ask ∷ None ∷ [] }
    ensures others { map (λ kind. packed kind 1 2 (replicate 25 1)) (Deny ∷ Floor ∷ Floors ∷ [])
        ≡ Some (replicate 25 1) ∷ Some (replicate 25 1) ∷ None ∷ [] }
    ensures long { map (λ kind. packed kind 1 2 (replicate 26 1)) (Deny ∷ Floor ∷ []) ≡ None ∷ None ∷ [] }

    ensures ask_again { unpacked Ask 1 2 packed_ask ≡ Some (drop 10 ask_body) }
    ensures grant_again { unpacked Grant 2 1 (packed_vote_of (eight_bytes 5) 6)
        ≡ Some (vote_of 1 (eight_bytes 5) (eight_bytes 6)) }
    ensures over_255 { unpacked Grant 2 1 (packed_vote_of (eight_bytes 255) 0)
        ≡ Some (vote_of 1 (eight_bytes 255) (slice_set (eight_bytes 0) 6 1)) }
    ensures wrong_last { map (λ low. unpacked Ask 1 2 (packed_vote_of (eight_bytes 5) low)) (4 ∷ 7 ∷ [])
        ≡ None ∷ None ∷ [] }
    ensures lengths_again { map (λ len. unpacked Ask 1 2 (take len (packed_ask ++ 0 ∷ []))) (24 ∷ 25 ∷ 26 ∷ [])
        ≡ None ∷ Some (drop 10 ask_body) ∷ None ∷ [] }
    ensures others_again { map (λ kind. unpacked kind 1 2 (replicate 25 1)) (Deny ∷ Floor ∷ Floors ∷ [])
        ≡ Some (replicate 25 1) ∷ Some (replicate 25 1) ∷ None ∷ [] }
    ensures long_again { map (λ kind. unpacked kind 1 2 (replicate 26 1)) (Deny ∷ Floor ∷ []) ≡ None ∷ None ∷ [] }

    ensures last { map (last_factor 511) (254 ∷ 255 ∷ 0 ∷ 1 ∷ []) ≡ None ∷ Some 511 ∷ Some 512 ∷ None ∷ [] }
    ensures greatest { map (last_factor 18446744073709551615) (255 ∷ 0 ∷ [])
        ≡ Some 18446744073709551615 ∷ None ∷ [] }
{}

/// Worked cases. The boots of members 1 and 3 at node 2, which knows none of them at its start, or one of member 3.
pub fn boots_are_worked()
    ensures first { after_read node_2 (floor_from 3 7) ≡ node_2_after 0 7 }
    ensures equal { after_read (node_2_after 0 7) (floor_from 3 7) ≡ node_2_after 0 7 }
    ensures greater { after_read (node_2_after 0 7) (floor_from 3 8) ≡ node_2_after 0 8 }
    ensures older { after_read (node_2_after 0 7) (floor_from 3 6) ≡ record (node_2_after 0 7) { older = older 3 6 } }
    ensures older_after_greater { after_read (after_read (node_2_after 0 7) (floor_from 3 8)) (floor_from 3 7)
        ≡ record (node_2_after 0 8) { older = older 3 7 } }
    ensures members_apart { after_read (node_2_after 0 7) (floor_from 1 6) ≡ node_2_after 6 7 }
    ensures unread { after_read (node_2_after 0 7) None ≡ node_2_after 0 7 }

    ensures equal_is_taken { translated (node_2_after 0 7) (floor_from 3 7) ≡ translated node_2 (floor_from 3 7) }
    ensures other_is_taken { translated (node_2_after 0 7) (floor_from 1 6) ≡ translated node_2 (floor_from 1 6) }
    ensures older_is_dropped { translated (node_2_after 0 7) (floor_from 3 6) ≡ None }
    ensures unread_is_dropped { translated (node_2_after 0 7) None ≡ None }

    ensures known { node_2_knowing 7 ≡ record (node_2_after 0 7) { known = slice_set nobody_heard 3 7 } }
    ensures known_is_taken { translated (node_2_knowing 7) (floor_from 3 7) ≡ translated node_2 (floor_from 3 7) }
    ensures known_is_kept { after_read (node_2_knowing 7) (floor_from 1 6)
        ≡ record (node_2_after 6 7) { known = slice_set nobody_heard 3 7 } }
    ensures older_than_known { translated (node_2_knowing 7) (floor_from 3 6) ≡ None }
    ensures older_than_known_is_noted { after_read (node_2_knowing 7) (floor_from 3 6)
        ≡ record (node_2_knowing 7) { older = older 3 6 } }

    ensures sent { between 3 2 (floor_from 3 7) ≡ floor_from 3 7 }
    ensures sent_by_another { between 1 2 (floor_from 3 7) ≡ None }
    ensures sent_to_another { between 3 1 (floor_from 3 7) ≡ None }
{}

/// Worked cases. Events of the port below, what is handed in for them, and offers.
pub fn events_are_worked()
    ensures handed { handed_in node_2 (Received (Peer 1) named_ask) ≡ Received (Peer 1) renumbered_ask }
    ensures heard { after_event node_2 (Received (Peer 1) named_ask) ≡ node_2_after 2 0 }
    ensures older { handed_in (node_2_after 3 0) (Received (Peer 1) named_ask) ≡ Received (Peer 1) [] }
    ensures older_is_noted { after_event (node_2_after 3 0) (Received (Peer 1) named_ask)
        ≡ record (node_2_after 3 0) { older = older 1 2 } }
    ensures by_another { handed_in node_2 (Received (Peer 3) named_ask) ≡ Received (Peer 3) [] }
    ensures by_another_is_unheard { after_event node_2 (Received (Peer 3) named_ask)
        ≡ record node_2 { differing = only 3 } }
    ensures version_2 { handed_in node_2 (Received (Peer 1) numbered_ask) ≡ Received (Peer 1) [] }
    ensures unchanged { map (handed_in node_2)
        (Received (Client 1) named_ask ∷ Quiet ∷ Faulted ∷ Offered (Peer 1) named_ask ∷ [])
        ≡ Received (Client 1) named_ask ∷ Quiet ∷ Faulted ∷ Offered (Peer 1) named_ask ∷ [] }
    ensures unheard { map (after_event node_2)
        (Received (Client 1) named_ask ∷ Quiet ∷ Faulted ∷ Offered (Peer 1) named_ask ∷ []) ≡ replicate 4 node_2 }

    ensures offered { offered node_1 (Peer 2) numbered_ask ≡ Offered (Peer 2) named_ask ∷ [] }
    ensures offered_without_name { offered node_1 (Peer 2) (slice_set numbered_ask 9 2) ≡ [] }
    ensures offered_to_client { offered node_1 (Client 2) numbered_ask ≡ Offered (Client 2) numbered_ask ∷ [] }

    // a Floor of member 3 in boot 7, and one in boot 6
    ensures run { after_events node_2 (from_3 floor_7 ∷ from_3 floor_6 ∷ [])
        ≡ record (node_2_after 0 7) { older = older 3 6 } }
    ensures greatest { greatest_boot zeros 2 3 (from_3 floor_7 ∷ from_3 floor_6 ∷ []) ≡ 7 }
    ensures greatest_at_last { greatest_boot zeros 2 3 (from_3 floor_6 ∷ from_3 floor_7 ∷ []) ≡ 7 }
    ensures none_of_another { greatest_boot zeros 2 1 (from_3 floor_7 ∷ from_3 floor_6 ∷ []) ≡ 0 }
    ensures none_to_another { greatest_boot zeros 1 3 (from_3 floor_7 ∷ from_3 floor_6 ∷ []) ≡ 0 }
    ensures none_by_others { map (boot_told zeros 2 3) (Received (Client 3) floor_7 ∷ Quiet ∷ Faulted
        ∷ Offered (Peer 3) floor_7 ∷ Received (Peer 1) floor_7 ∷ []) ≡ replicate 5 0 }
{}

/// Worked cases. The members that differ: their datagrams are under another key, of another version, or of a name that
/// the book hasn't. Those without bytes, of an older boot or of several tokens don't show it.
pub fn differing_is_worked()
    ensures known { differs node_2 named_ask (floor_from 3 7) ≡ false }
    ensures unread { map (λ bytes. differs node_2 bytes None) ([] ∷ (0 ∷ []) ∷ (0 ∷ 0 ∷ []) ∷ [])
        ≡ false ∷ true ∷ true ∷ [] }
    ensures no_name { differs (record node_2 { names = [] }) named_ask (floor_from 3 7) ≡ true }
    ensures older { differs (record (node_2_after 0 7) { names = [] }) named_ask (floor_from 3 6) ≡ false }
    ensures several { differs node_2 named_ask (Some (floor_head Floors 3 7, name_with 0xbb)) ≡ false }
    ensures no_fields { differs node_2 named_ask (Some (floor_head Floor 3 7, name_with 0xbb)) ≡ true }

    ensures unshown { marked false 3 (only 1) ≡ only 1 }
    ensures second { marked true 3 (only 1) ≡ slice_set (only 1) 3 true }
    ensures again { marked true 1 (only 1) ≡ only 1 }
    ensures stranger { marked true 10 (only 1) ≡ only 1 }

    ensures by_name { after_event (record node_2 { names = name_with 0xbb ∷ [] }) (Received (Peer 1) named_ask)
        ≡ record (node_2_after 2 0) { names = name_with 0xbb ∷ []; differing = only 1 } }
    ensures version_2 { after_event node_2 (Received (Peer 1) numbered_ask) ≡ record node_2 { differing = only 1 } }
    ensures key { after_event (record node_2 { key = replicate 32 1 }) (Received (Peer 1) named_ask)
        ≡ record node_2 { key = replicate 32 1; differing = only 1 } }
    ensures without_bytes { after_event node_2 (Received (Peer 1) []) ≡ node_2 }
    ensures stays { after_event (record node_2 { differing = only 3 }) (Received (Peer 1) named_ask)
        ≡ record (node_2_after 2 0) { differing = only 3 } }
    ensures both { after_events node_2 (Received (Peer 1) numbered_ask ∷ from_3 numbered_ask ∷ [])
        ≡ record node_2 { differing = slice_set (only 1) 3 true } }
{}

/// Worked cases. The events of a node's port and of the port below for some calls.
pub fn calls_are_worked()
    ensures handed { handed_events (node_2_after 0 7) (from_3 floor_6 ∷ Quiet ∷ Offered (Client 1) [] ∷ [])
        ≡ Received (Peer 3) [] ∷ Quiet ∷ Offered (Client 1) [] ∷ [] }
    ensures below { below_events node_1 (Offered (Peer 2) numbered_ask ∷ Quiet ∷ Offered (Peer 2) [] ∷ Faulted
        ∷ Received (Client 1) [] ∷ Offered (Client 1) [] ∷ [])
        ≡ Offered (Peer 2) named_ask ∷ Quiet ∷ Faulted ∷ Received (Client 1) [] ∷ Offered (Client 1) [] ∷ [] }
    ensures start { at_start (record (node_2_after 0 7) { older = older 3 6; differing = only 1 }) ≡ node_2 }
    ensures knowing_start { at_start (record (node_2_knowing 7) { heard = replicate 10 8 }) ≡ node_2_knowing 7 }
{}

/// Counterexamples: each promise of a port after calls fails for a minimal one.
pub fn calls_can_be_broken()
    ensures after { IsAfter (Some (Quiet ∷ Faulted ∷ [])) node_2 (Quiet ∷ Faulted ∷ []) }
    ensures no_record { IsAfter None node_2 (Quiet ∷ []) }
    ensures unrecorded { IsAfter (Some []) node_2 (Quiet ∷ []) → ⊥ }
    ensures second_unrecorded { IsAfter (Some (Quiet ∷ [])) node_2 (Quiet ∷ Faulted ∷ []) → ⊥ }
    ensures unheard { IsAfter None (node_2_after 0 7) [] → ⊥ }
    ensures known { IsAfter None (node_2_knowing 7) [] }
    ensures has { Has (Quiet ∷ Faulted ∷ []) Faulted }
    ensures has_not { Has (Quiet ∷ []) Faulted → ⊥ }
{}

/// Counterexamples: each promise of a receive and of a poll fails for a minimal one.
pub fn receives_can_be_broken()
    ensures receives { Receives (Some []) (Some (Quiet ∷ [])) node_2 node_2 Quiet }
    ensures receives_client { Receives (Some []) (Some (Received (Client 1) (codes "CHECK") ∷ [])) node_2 node_2
        (Received (Client 1) (codes "CHECK")) }
    ensures unrecorded { Receives (Some []) (Some []) node_2 node_2 Quiet → ⊥ }
    ensures recorded_twice { Receives (Some []) (Some (Quiet ∷ Quiet ∷ [])) node_2 node_2 Quiet → ⊥ }
    ensures another_event { Receives (Some []) (Some (Quiet ∷ [])) node_2 node_2 Faulted → ⊥ }
    ensures another_translator { Receives (Some []) (Some (Quiet ∷ [])) node_2 (node_2_after 0 7) Quiet → ⊥ }
    ensures polls { Polls (Some []) (Some (Quiet ∷ [])) node_2 node_2 (Some Quiet) }
    ensures polls_nothing { Polls (Some []) (Some []) node_2 node_2 None }
    ensures polls_nothing_and_receives { Polls (Some []) (Some (Quiet ∷ [])) node_2 node_2 None → ⊥ }
    ensures polls_nothing_and_hears { Polls (Some []) (Some []) node_2 (node_2_after 0 7) None → ⊥ }
{}

/// Worked cases. The setup of a port by names, over a port without names, over one with names, and over none.
pub fn setups_are_worked()
    ensures names { named_setup (new_translator (7 ∷ []) short_names 3 5 nobody_heard) (Some bare_setup)
        ≡ Some (record bare_setup {
          namings = record { key = 7 ∷ []; names = nobody_heard ∷ (1 ∷ []) ∷ (2 ∷ []) ∷ []; me = 3; boot = 5 } ∷ [];
        }) }
    ensures over_names { named_setup (new_translator [] [] 4 6 nobody_heard)
        (named_setup (new_translator (7 ∷ []) short_names 3 5 nobody_heard) (Some bare_setup))
        ≡ Some (record bare_setup {
          namings = record { key = []; names = nobody_heard ∷ []; me = 4; boot = 6 }
              ∷ record { key = 7 ∷ []; names = nobody_heard ∷ short_names; me = 3; boot = 5 } ∷ [];
        }) }
    ensures over_none { named_setup (new_translator (7 ∷ []) short_names 3 5 nobody_heard) None ≡ None }
    ensures heard { named_setup (record (node_2_after 3 7) { older = older 3 6; differing = only 1 }) (Some bare_setup)
        ≡ named_setup node_2 (Some bare_setup) }
{}

/// Counterexamples: the setup of a port by names is another one for another key, other names, another node or boot, or
/// other boots that it knew at its start.
pub fn setups_can_be_broken()
    ensures another_key { named_setup (new_translator (7 ∷ []) short_names 3 5 nobody_heard) (Some bare_setup)
        ≡ named_setup (new_translator (8 ∷ []) short_names 3 5 nobody_heard) (Some bare_setup) → ⊥ }
    ensures another_name { named_setup (new_translator (7 ∷ []) short_names 3 5 nobody_heard) (Some bare_setup)
        ≡ named_setup (new_translator (7 ∷ []) ((1 ∷ []) ∷ (3 ∷ []) ∷ []) 3 5 nobody_heard) (Some bare_setup) → ⊥ }
    ensures another_order { named_setup (new_translator (7 ∷ []) short_names 3 5 nobody_heard) (Some bare_setup)
        ≡ named_setup (new_translator (7 ∷ []) ((2 ∷ []) ∷ (1 ∷ []) ∷ []) 3 5 nobody_heard) (Some bare_setup) → ⊥ }
    ensures fewer_names { named_setup (new_translator (7 ∷ []) short_names 3 5 nobody_heard) (Some bare_setup)
        ≡ named_setup (new_translator (7 ∷ []) ((1 ∷ []) ∷ []) 3 5 nobody_heard) (Some bare_setup) → ⊥ }
    ensures another_node { named_setup (new_translator (7 ∷ []) short_names 3 5 nobody_heard) (Some bare_setup)
        ≡ named_setup (new_translator (7 ∷ []) short_names 4 5 nobody_heard) (Some bare_setup) → ⊥ }
    ensures another_boot { named_setup (new_translator (7 ∷ []) short_names 3 5 nobody_heard) (Some bare_setup)
        ≡ named_setup (new_translator (7 ∷ []) short_names 3 6 nobody_heard) (Some bare_setup) → ⊥ }
    ensures another_start { named_setup (new_translator (7 ∷ []) short_names 3 5 (0 ∷ 6 ∷ [])) (Some bare_setup)
        ≡ named_setup (new_translator (7 ∷ []) short_names 3 5 (0 ∷ 7 ∷ [])) (Some bare_setup) → ⊥ }
    ensures no_names { named_setup (new_translator (7 ∷ []) short_names 3 5 nobody_heard) (Some bare_setup)
        ≡ Some bare_setup → ⊥ }
{}
