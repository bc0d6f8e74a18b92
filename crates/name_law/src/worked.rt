//! Worked cases and counterexamples of datagrams by names.

ghost use Rattle.std.specs.Prelude.{◌≡◌, [], ◌∷◌, Some, None, map, replicate, slice_set, false};
ghost use Rattle.book_law.specs.Broken.{ask_comes, ask_comes_early, forged, forged_in_a_stop, tells, to_nobody};
ghost use Rattle.book_law.specs.Examples.{ask_for, maple_first, other_key, silver, terms_of, three};
ghost use Rattle.book_law.specs.Lives.{Down, Enrols, Opens, Raises, Remakes, ToPeer, first_state, named_envelope, store_with_rows};
ghost use Rattle.book_law.specs.Uses.{ToClientOwn, ToPeerOwn};
ghost use Rattle.datagram_port.specs.Port.{Offered, Quiet};
ghost use Rattle.datagram_port.specs.declared.port.Sender.TheVariants.{Client as FromLine, Peer as FromMember};
ghost use Rattle.floor_store.specs.Broken.{holding, small_held};
ghost use Rattle.floor_store.specs.Content.{with_next_boot};
ghost use Rattle.floor_store.specs.Examples.{content_at, free_row};
ghost use Rattle.named_port.specs.Examples.{name_with, named_ask, names_of_1, names_of_2, node_2, node_2_after, numbered_ask, renumbered_ask, zeros};
ghost use Rattle.oath_node.specs.Machine.{Client, Peer, Tick};
ghost use Rattle.name_law.specs.Datagrams.{AreNames, IsReadable, IsSpelled, IsTranslatorOf, bytes_for, handed_bytes, name_at, named_datagram, numbered_envelope, own_datagram, own_names, own_number};
ghost use Rattle.name_law.specs.Examples.{all_names, ask_for_factor, ask_of, ask_to, asked, came, denial_of, floor_of, floors, grant_of, other_ask, pass_of, past_floors, sealed_ask, sealed_floor, seated, seen, silver_told, terms_1, terms_2, three_of, user_names};
ghost use Rattle.name_law.specs.Ports.{AreSeated, ReadsEvent, first_translator, named_offer};
ghost use Rattle.name_law.specs.Stores.{IsUnder, KeepsOthers, LeavesUnder};
ghost use Rattle.name_law.specs.Unforged.{IsSized, IsUnforged, IsUnforgedAction, IsUnforgedAt, IsUnforgedHistory, IsVoteFor, ReadsOffered, TellsVote, WereOffered};

use oath_node::rulings_have_grounds;

/// Worked cases. An Ask of node 1 with its number of the token, with the token's name, and with node 2's number.
pub fn names_are_worked()
    ensures names_of_1 { own_names all_names (2 ∷ 0 ∷ []) ≡ names_of_1 }
    ensures names_of_2 { own_names all_names (1 ∷ 2 ∷ []) ≡ names_of_2 }
    ensures unknown_name { name_at all_names 3 ≡ [] }
    ensures numbers { map (own_number (1 ∷ 2 ∷ [])) (0 ∷ 1 ∷ 2 ∷ []) ≡ None ∷ Some 0 ∷ Some 1 ∷ [] }
    ensures canonical { named_envelope (2 ∷ 0 ∷ []) (ask_of 0) ≡ ask_of 2 }
    ensures own { own_datagram (ask_of 0) ≡ numbered_ask }
    ensures named { named_datagram all_names 2 sealed_ask ≡ named_ask }
    ensures number { numbered_envelope (ask_of 2) 1 ≡ ask_of 1 }
    ensures numbered { bytes_for (ask_of 2) (Some 1) ≡ renumbered_ask }
    ensures no_number { bytes_for (ask_of 2) None ≡ [] }

    // what the translator of node 2 hands in for the named Ask
    ensures handed { handed_bytes node_2 1 named_ask ≡ renumbered_ask }
    ensures another_key { handed_bytes (record node_2 { key = replicate 32 1 }) 1 named_ask ≡ [] }
    ensures no_name { handed_bytes (record node_2 { names = name_with 0xbb ∷ name_with 0xcc ∷ [] }) 1 named_ask ≡ [] }
    ensures another_order { handed_bytes (record node_2 { names = name_with 0xaa ∷ name_with 0xbb ∷ [] }) 1 named_ask
        ≡ numbered_ask }
    ensures same_boot { handed_bytes (node_2_after 2 0) 1 named_ask ≡ renumbered_ask }
    ensures older_boot { handed_bytes (node_2_after 3 0) 1 named_ask ≡ [] }
    ensures another_address { handed_bytes node_2 3 named_ask ≡ [] }
    ensures another_node { handed_bytes (record node_2 { me = 3 }) 1 named_ask ≡ [] }
{}

/// Counterexamples: each condition of names, of a translator and of a readable datagram fails for a minimal one.
pub fn names_can_be_broken()
    ensures names { AreNames all_names }
    ensures same_name { AreNames (name_with 1 ∷ name_with 2 ∷ name_with 1 ∷ []) → ⊥ }
    ensures short_name { AreNames (name_with 1 ∷ (2 ∷ []) ∷ []) → ⊥ }

    ensures translator { IsTranslatorOf all_names 2 terms_2 (node_2_after 3 7) }
    ensures translator_under_another_key { IsTranslatorOf all_names 2 terms_2
        (record node_2 { key = replicate 32 1 }) → ⊥ }
    ensures translator_in_another_order { IsTranslatorOf all_names 2 (seated (2 ∷ 1 ∷ [])) node_2 → ⊥ }
    ensures translator_of_another { IsTranslatorOf all_names 3 terms_2 node_2 → ⊥ }

    ensures spelled { IsSpelled (ask_of 2) }
    ensures spelled_whatever_the_token { IsSpelled (ask_of 10000) }
    ensures unspelled_to_itself { IsSpelled (ask_to 1).envelope → ⊥ }
    ensures unspelled_factor { IsSpelled (ask_for_factor past_floors).envelope → ⊥ }

    ensures readable { IsReadable all_names terms_2 2 sealed_ask }
    ensures readable_without_a_number { IsReadable all_names (seated (1 ∷ 0 ∷ [])) 2 sealed_ask }
    ensures unreadable_names { IsReadable (name_with 1 ∷ name_with 2 ∷ name_with 1 ∷ []) terms_2 2 sealed_ask → ⊥ }
    ensures unreadable_seats { IsReadable all_names (seated (2 ∷ 2 ∷ [])) 2 sealed_ask → ⊥ }
    ensures unreadable_key { IsReadable all_names terms_2 2 (other_ask (replicate 32 1)) → ⊥ }
    ensures unreadable_token { IsReadable (name_with 1 ∷ name_with 2 ∷ []) terms_2 2 sealed_ask → ⊥ }
    ensures unreadable_ends { IsReadable all_names terms_2 2 (ask_to 1) → ⊥ }
    ensures unreadable_boot { IsReadable all_names terms_2 18446744073709551616 sealed_ask → ⊥ }
{}

/// Counterexamples: each condition of ranges, of an offered datagram and of an unforged input fails for a minimal one.
pub fn unforged_names_can_be_broken()
    ensures sized { IsSized all_names (three_of 3 (sealed_ask ∷ [])) }
    ensures sized_names { IsSized (name_with 1 ∷ name_with 1 ∷ []) (three_of 2 []) → ⊥ }
    ensures sized_tokens { IsSized all_names (three_of 4 []) → ⊥ }
    ensures sized_nodes { IsSized all_names (record (three_of 3 []) { n = 10 }) → ⊥ }
    ensures sized_old { IsSized all_names (three_of 3 (sealed_ask ∷ ask_to 1 ∷ [])) → ⊥ }

    ensures offered { WereOffered all_names zeros asked named_ask }
    ensures offered_later { WereOffered all_names zeros (ToPeer (ask_to 3) ∷ asked) named_ask }
    ensures never_offered { WereOffered all_names zeros [] named_ask → ⊥ }
    ensures offered_under_another_key { WereOffered all_names (replicate 32 1) asked named_ask → ⊥ }
    ensures offered_with_another_byte { WereOffered all_names zeros asked (slice_set named_ask 20 0) → ⊥ }

    ensures read { ReadsOffered all_names 2 terms_2 asked 1 (Some (ask_of 1)) }
    ensures read_nothing { ReadsOffered all_names 2 terms_2 [] 1 None }
    ensures forged { ReadsOffered all_names 2 terms_2 [] 1 (Some (ask_of 1)) → ⊥ }
    ensures forged_token { ReadsOffered all_names 2 terms_2 asked 1 (Some (ask_of 0)) → ⊥ }
    ensures forged_grant { ReadsOffered all_names 2 terms_2 asked 1 (Some (grant_of 1)) → ⊥ }
    ensures forged_denial { ReadsOffered all_names 2 terms_2 [] 1 (Some (denial_of 1)) → ⊥ }
    ensures free_floor { ReadsOffered all_names 2 terms_2 [] 1 (Some (floor_of 1)) }
    ensures forged_to_a_process { IsUnforged all_names 2 terms_2 [] (Peer 1 (Some (ask_of 1))) → ⊥ }
    ensures free_line { IsUnforged all_names 2 terms_2 [] (Client 7 100 []) }
    ensures free_time { IsUnforged all_names 2 terms_2 [] Tick }
    ensures free_without_a_process { IsUnforgedAt all_names 2 (Down (store_with_rows 0 [] (λ token. 0))) []
        (Peer 1 (Some (ask_of 1))) }

    ensures vote { IsVoteFor zeros 1 2 named_ask }
    ensures vote_from_another { IsVoteFor zeros 3 2 named_ask → ⊥ }
    ensures vote_for_another { IsVoteFor zeros 1 3 named_ask → ⊥ }
    ensures floor_is_no_vote { IsVoteFor zeros 1 2 (named_datagram all_names 2 sealed_floor) → ⊥ }
    ensures tells_a_vote { TellsVote all_names 2 terms_2 1 named_ask }
    ensures tells_a_floor { TellsVote all_names 2 terms_2 1 (named_datagram all_names 2 sealed_floor) → ⊥ }
    ensures tells_from_another { TellsVote all_names 2 terms_2 3 (named_datagram all_names 2 sealed_ask) → ⊥ }
{}

/// Counterexamples: actions out of range, and histories with a datagram that no process offered before.
pub fn unforged_histories_can_be_broken()
    ensures book { IsUnforgedAction all_names (first_state three) (Opens 1 (terms_of zeros (silver ∷ []) [])) }
    ensures large_book { IsUnforgedAction all_names (first_state three)
        (Opens 1 (terms_of zeros (replicate 10001 silver) [])) → ⊥ }
    ensures enrolled { IsUnforgedAction all_names (first_state three) (Enrols 1 0 4611686018427387904) }
    ensures enrolled_too_high { IsUnforgedAction all_names (first_state three) (Enrols 1 0 past_floors) → ⊥ }
    ensures raised { IsUnforgedAction all_names (first_state three) (Raises 1 0 4611686018427387904) }
    ensures raised_too_high { IsUnforgedAction all_names (first_state three) (Raises 1 0 past_floors) → ⊥ }
    ensures remade { IsUnforgedAction all_names (first_state three) (Remakes 1 1 [] (λ token. 4611686018427387904)) }
    ensures remade_too_high { IsUnforgedAction all_names (first_state three)
        (Remakes 1 1 [] (λ token. past_floors)) → ⊥ }

    ensures history { IsUnforgedHistory user_names three (ask_comes maple_first (ask_for 1)) }
    ensures early { IsUnforgedHistory user_names three ask_comes_early → ⊥ }
    ensures another_token { IsUnforgedHistory user_names three (ask_comes maple_first (ask_for 0)) → ⊥ }
    ensures under_another_key { IsUnforgedHistory user_names three (ask_comes other_key (ask_for 1)) → ⊥ }
    ensures forged { IsUnforgedHistory user_names three forged → ⊥ }
    ensures forged_in_a_stop { IsUnforgedHistory user_names three forged_in_a_stop → ⊥ }
    ensures to_nobody { IsUnforgedHistory user_names three to_nobody }
    // Nobody need have offered a datagram that only tells a floor.
    ensures told_by_nobody { IsUnforgedHistory user_names three (tells 0 9) }
{
    rulings_have_grounds();
}

/// Counterexamples: each promise of the store below a seated store fails for a minimal one.
pub fn stores_below_can_be_broken()
    ensures same { IsUnder (1 ∷ []) (floors 5 9 (pass_of 0)) (floors 5 9 (pass_of 0)) }
    ensures put { IsUnder (1 ∷ []) (floors 5 9 None) (floors 5 7 None) }
    ensures put_with_a_pass { IsUnder (1 ∷ []) (floors 5 9 (pass_of 0)) (floors 5 7 (pass_of 1)) }
    ensures put_in_two_rows { IsUnder (1 ∷ 0 ∷ []) (floors 5 9 None) (floors 6 7 None) }
    ensures raised_boot { IsUnder (1 ∷ []) (floors 5 9 None) (with_next_boot (floors 5 9 None)) }
    ensures put_in_another_row { IsUnder (1 ∷ []) (floors 5 9 None) (floors 6 9 None) → ⊥ }
    ensures put_in_another_row_as_well { IsUnder (1 ∷ []) (floors 5 9 None) (floors 6 7 None) → ⊥ }
    ensures lost_row { IsUnder (1 ∷ []) (floors 5 9 None) (content_at 4 (free_row 5 ∷ [])) → ⊥ }
    ensures pass_of_another_row { IsUnder (1 ∷ []) (floors 5 9 None) (floors 5 9 (pass_of 0)) → ⊥ }
    ensures lost_pass { IsUnder (1 ∷ []) (floors 5 9 (pass_of 0)) (floors 5 9 None) → ⊥ }

    ensures keeps { KeepsOthers small_held (1 ∷ []) (floors 5 9 None) (holding (floors 5 7 None)) }
    ensures keeps_not { KeepsOthers small_held (1 ∷ []) (floors 5 9 None) (holding (floors 6 9 None)) → ⊥ }
    ensures keeps_not_by_a_stop { KeepsOthers small_held (1 ∷ []) (floors 5 9 None)
        (record (holding (floors 5 7 None)) { other = floors 6 9 None }) → ⊥ }
    ensures fallen { KeepsOthers small_held (1 ∷ []) (floors 5 9 None)
        (record (holding (floors 6 9 None)) { is_clean = false }) }

    ensures leaves { LeavesUnder small_held (1 ∷ []) (floors 5 9 None) (seen 7) (holding (floors 5 7 None)) }
    ensures leaves_another_row { LeavesUnder small_held (1 ∷ []) (floors 5 9 None) (seen 7) (holding (floors 6 7 None))
        → ⊥ }
    ensures leaves_another_floor { LeavesUnder small_held (1 ∷ []) (floors 5 9 None) (seen 8)
        (holding (floors 5 7 None)) → ⊥ }
{}

/// Worked cases and counterexamples: each condition of what a process reads and offers at its port.
pub fn ports_can_be_broken()
    ensures start { first_translator all_names 2 terms_2 5 (replicate 10 0) ≡ node_2 }
    ensures offer { named_offer all_names terms_1 2 (ToPeerOwn (ask_of 0)) ≡ Offered (FromMember 2) named_ask }
    ensures answer { named_offer all_names terms_1 2 (ToClientOwn silver_told)
        ≡ Offered (FromLine 7) silver_told.bytes }

    ensures reads { ReadsEvent all_names 2 terms_2 (Quiet ∷ came named_ask ∷ []) 1 (Some (ask_of 1)) }
    ensures reads_nothing { ReadsEvent all_names 2 terms_2 (Quiet ∷ came [] ∷ []) 1 None }
    ensures reads_no_event { ReadsEvent all_names 2 terms_2 (Quiet ∷ []) 1 None → ⊥ }
    ensures reads_from_another { ReadsEvent all_names 2 terms_2 (came named_ask ∷ []) 3 (Some (ask_of 1)) → ⊥ }
    ensures reads_without_bytes { ReadsEvent all_names 2 terms_2 (came [] ∷ []) 1 (Some (ask_of 1)) → ⊥ }

    ensures seated { AreSeated terms_2 (ToPeerOwn (ask_of 1) ∷ ToClientOwn silver_told ∷ []) }
    ensures past_the_seats { AreSeated terms_2 (ToPeerOwn (ask_of 1) ∷ ToPeerOwn (ask_of 2) ∷ []) → ⊥ }
    ensures unspelled { AreSeated terms_2 (ToPeerOwn (record (ask_of 1) { receiver = 1 }) ∷ []) → ⊥ }
{}
