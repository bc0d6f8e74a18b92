ghost use Rattle.std.specs.Prelude.{◌≡◌, [], ◌∷◌, ◌++◌, Some, None, false, map, replicate, slice_set, take, true};
ghost use Rattle.datagram_port.specs.Port.{Faulted, Offered, Quiet, Received};
ghost use Rattle.datagram_port.specs.declared.port.Sender.TheVariants.{Client, Peer};
ghost use Rattle.bundle_port.specs.Bundle.{bundle_bytes, is_bundle, is_part, parts_at, parts_from, parts_or_itself};
ghost use Rattle.bundle_port.specs.Bundler.{after_event, after_flush, after_left, after_offer, calm_after, datagram_of, first_part, flush_offers, goes_at_once, handed_in, has_room, is_calm, new_bundler, new_lane, offers_at, one_more, waiting_for};
ghost use Rattle.bundle_port.specs.Examples.{both, bundle_of_both, calm_for, first, from_1, lane_of, left_with, of_len, second, waiting_with, with_lane};
ghost use Rattle.bundle_port.specs.Promises.{HandsIn, JoinsOffers, all_offered, all_received, are_parts, datagrams_from, left_from, own_offers};
ghost use Rattle.bundle_port.specs.Runs.{Flush, IsAfter, Left, Offer, Polls, Waits, after_calls, below_events, handed_events, may_call, may_make};

/// Worked cases. Bundles, and datagrams that are none.
pub fn bundles_are_worked()
    ensures written { bundle_bytes both ≡ bundle_of_both }
    ensures read { parts_at bundle_of_both ≡ Some both }
    ensures one { parts_at (0x4f ∷ 0x42 ∷ 1 ∷ 32 ∷ second) ≡ Some (second ∷ []) }
    ensures without_parts { parts_at (bundle_bytes []) ≡ None }
    ensures no_bytes { parts_at [] ≡ None }
    ensures cut { map (λ len. parts_at (take len bundle_of_both)) (4 ∷ 36 ∷ 69 ∷ []) ≡ replicate 3 None }
    ensures left_over { parts_at (bundle_of_both ++ 1 ∷ []) ≡ None }
    ensures short_parts { map parts_at (bundle_bytes ([] ∷ []) ∷ bundle_bytes (of_len 31 ∷ [])
        ∷ (bundle_of_both ++ 0 ∷ []) ∷ []) ≡ replicate 3 None }
    ensures other_heads { map parts_at (slice_set bundle_of_both 0 0x4e ∷ slice_set bundle_of_both 1 0x56
        ∷ slice_set bundle_of_both 2 2 ∷ []) ≡ replicate 3 None }
    ensures lengths { map (λ len. is_part (of_len len)) (0 ∷ 31 ∷ 32 ∷ 255 ∷ 256 ∷ [])
        ≡ false ∷ false ∷ true ∷ true ∷ false ∷ [] }
    ensures most { map (λ len. is_bundle (bundle_bytes (of_len 255 ∷ of_len len ∷ []))) (252 ∷ 253 ∷ [])
        ≡ true ∷ false ∷ [] }
    ensures itself { map parts_or_itself (bundle_of_both ∷ first ∷ []) ≡ both ∷ (first ∷ []) ∷ [] }
    ensures earlier { map (parts_from (7 ∷ 8 ∷ 32 ∷ second)) (2 ∷ 35 ∷ 36 ∷ [])
        ≡ Some (second ∷ []) ∷ Some [] ∷ None ∷ [] }
{}

/// Worked cases. What waits, and what is offered.
pub fn offers_are_worked()
    ensures waits { offers_at new_bundler (Peer 2) first ≡ [] }
    ensures waiting { after_offer new_bundler (Peer 2) first ≡ with_lane new_bundler 2 (lane_of (first ∷ []) 1 0) }
    ensures second_waits { offers_at (with_lane new_bundler 2 (lane_of (first ∷ []) 1 0)) (Peer 2) second ≡ [] }
    ensures second_waiting { after_offer (with_lane new_bundler 2 (lane_of (first ∷ []) 1 0)) (Peer 2) second
        ≡ waiting_with 2 both }
    ensures lengths { map (λ len. offers_at new_bundler (Peer 2) (of_len len)) (0 ∷ 31 ∷ 32 ∷ 255 ∷ 256 ∷ [])
        ≡ (Offered (Peer 2) [] ∷ []) ∷ (Offered (Peer 2) (of_len 31) ∷ []) ∷ [] ∷ []
        ∷ (Offered (Peer 2) (of_len 256) ∷ []) ∷ [] }
    ensures in_order { offers_at (waiting_with 2 both) (Peer 2) []
        ≡ Offered (Peer 2) bundle_of_both ∷ Offered (Peer 2) [] ∷ [] }
    ensures in_order_after { after_offer (waiting_with 2 both) (Peer 2) [] ≡ waiting_with 2 [] }
    ensures room { map (λ len. has_room (of_len 255 ∷ []) (of_len len)) (252 ∷ 253 ∷ []) ≡ true ∷ false ∷ [] }
    ensures sixth { offers_at (waiting_with 2 (replicate 5 (of_len 79))) (Peer 2) (of_len 79) ≡ [] }
    ensures sixth_after { after_offer (waiting_with 2 (replicate 5 (of_len 79))) (Peer 2) (of_len 79)
        ≡ waiting_with 2 (replicate 6 (of_len 79)) }
    ensures seventh { offers_at (waiting_with 2 (replicate 6 (of_len 79))) (Peer 2) (of_len 79)
        ≡ Offered (Peer 2) (bundle_bytes (replicate 6 (of_len 79))) ∷ [] }
    ensures seventh_after { after_offer (waiting_with 2 (replicate 6 (of_len 79))) (Peer 2) (of_len 79)
        ≡ waiting_with 2 (of_len 79 ∷ []) }
    ensures members { map (λ member. offers_at new_bundler (Peer member) second) (0 ∷ 1 ∷ 9 ∷ 10 ∷ [])
        ≡ (Offered (Peer 0) second ∷ []) ∷ [] ∷ [] ∷ (Offered (Peer 10) second ∷ []) ∷ [] }
    ensures members_after { map (λ member. after_offer new_bundler (Peer member) second) (0 ∷ 1 ∷ 9 ∷ 10 ∷ [])
        ≡ new_bundler ∷ with_lane new_bundler 1 (lane_of (second ∷ []) 1 0)
        ∷ with_lane new_bundler 9 (lane_of (second ∷ []) 1 0) ∷ new_bundler ∷ [] }
    ensures client { offers_at (waiting_with 2 both) (Client 2) first ≡ Offered (Client 2) first ∷ [] }
    ensures client_after { after_offer (waiting_with 2 both) (Client 2) first ≡ waiting_with 2 both }
    ensures datagrams { map datagram_of ([] ∷ (first ∷ []) ∷ both ∷ []) ≡ None ∷ Some first ∷ Some bundle_of_both ∷ [] }
    ensures flush { flush_offers (with_lane (waiting_with 1 both) 3 (lane_of (first ∷ []) 1 0))
        ≡ Offered (Peer 1) bundle_of_both ∷ Offered (Peer 3) first ∷ [] }
    ensures flush_after { after_flush (waiting_with 2 both) ≡ with_lane (calm_for 1) 2 new_lane }
    ensures waiting_for { map (waiting_for (waiting_with 1 both)) (0 ∷ 1 ∷ 2 ∷ 10 ∷ []) ≡ [] ∷ both ∷ [] ∷ [] ∷ [] }
    ensures waiting_for_last { map (waiting_for (waiting_with 9 both)) (9 ∷ 10 ∷ []) ≡ both ∷ [] ∷ [] }
{}

/// Worked cases. When a lane is calm, and what is sent at once.
pub fn lanes_are_worked()
    ensures count { map one_more (0 ∷ 1 ∷ 2 ∷ []) ≡ 1 ∷ 2 ∷ 2 ∷ [] }
    ensures busy_wait { map (λ offered. calm_after (lane_of [] offered 3)) (0 ∷ 1 ∷ 2 ∷ []) ≡ 4 ∷ 4 ∷ 0 ∷ [] }
    ensures most { map (λ calm. calm_after (lane_of [] 1 calm)) (0 ∷ 6 ∷ 7 ∷ 8 ∷ []) ≡ 1 ∷ 7 ∷ 8 ∷ 8 ∷ [] }
    ensures calm { map is_calm (lane_of [] 0 7 ∷ lane_of [] 0 8 ∷ lane_of [] 1 8 ∷ lane_of [] 2 8 ∷ [])
        ≡ false ∷ true ∷ false ∷ false ∷ [] }
    ensures lengths { map (λ len. goes_at_once (lane_of [] 0 8) (of_len len)) (31 ∷ 32 ∷ 255 ∷ 256 ∷ [])
        ≡ false ∷ true ∷ true ∷ false ∷ [] }
    ensures quiet_waits { map (λ waits. below_events new_bundler
        (replicate waits (Waits Quiet) ++ Offer (Peer 2) first ∷ [])) (7 ∷ 8 ∷ 9 ∷ [])
        ≡ replicate 7 Quiet ∷ (replicate 8 Quiet ++ Offered (Peer 2) first ∷ [])
        ∷ (replicate 9 Quiet ++ Offered (Peer 2) first ∷ []) ∷ [] }
    ensures at_once { offers_at (calm_for 8) (Peer 2) first ≡ Offered (Peer 2) first ∷ [] }
    ensures at_once_after { after_offer (calm_for 8) (Peer 2) first ≡ with_lane (calm_for 8) 2 (lane_of [] 1 8) }
    ensures ninth { below_events (calm_for 7)
        (Offer (Peer 2) first ∷ Waits Quiet ∷ Offer (Peer 2) first ∷ Waits Quiet ∷ Offer (Peer 2) second ∷ [])
        ≡ Offered (Peer 2) first ∷ Quiet ∷ Offered (Peer 2) first ∷ Quiet ∷ Offered (Peer 2) second ∷ [] }
    ensures second_waits { after_calls (calm_for 8) (Offer (Peer 2) first ∷ Offer (Peer 2) second ∷ [])
        ≡ with_lane (calm_for 8) 2 (lane_of (second ∷ []) 2 8) }
    ensures later_are_joined { below_events (calm_for 8)
        (Offer (Peer 2) [] ∷ Offer (Peer 2) first ∷ Offer (Peer 2) second ∷ Waits Quiet ∷ [])
        ≡ Offered (Peer 2) [] ∷ Offered (Peer 2) bundle_of_both ∷ Quiet ∷ [] }
    ensures busy_again { after_calls (calm_for 8) (Offer (Peer 2) first ∷ Offer (Peer 2) second ∷ Waits Quiet ∷ [])
        ≡ with_lane (calm_for 8) 2 new_lane }
    ensures own_lane { below_events (calm_for 8)
        (Offer (Peer 2) first ∷ Offer (Peer 3) second ∷ Offer (Peer 2) second ∷ Offer (Peer 4) first ∷ [])
        ≡ Offered (Peer 2) first ∷ Offered (Peer 3) second ∷ Offered (Peer 4) first ∷ [] }
    ensures no_part { after_offer (calm_for 8) (Peer 2) [] ≡ with_lane (calm_for 8) 2 (lane_of [] 1 8) }
    ensures two_of_no_part { after_calls (calm_for 8) (Offer (Peer 2) [] ∷ Offer (Peer 2) [] ∷ Waits Quiet ∷ [])
        ≡ with_lane (calm_for 8) 2 new_lane }
    ensures clients { after_offer (calm_for 8) (Client 2) first ≡ calm_for 8 }
    ensures polls { after_calls (calm_for 7) (Polls Faulted ∷ []) ≡ calm_for 7 }
{}

/// Worked cases. The parts of a bundle of member 1, handed in one by one.
pub fn receives_are_worked()
    ensures handed { handed_in (from_1 bundle_of_both) ≡ from_1 first }
    ensures left { after_event new_bundler (from_1 bundle_of_both) ≡ left_with (second ∷ []) }
    ensures next { after_left (left_with both) ≡ left_with (second ∷ []) }
    ensures no_part { first_part [] ≡ [] }
    ensures unchanged { map handed_in (Received (Client 1) bundle_of_both ∷ from_1 (take 7 bundle_of_both) ∷ Quiet
        ∷ Faulted ∷ Offered (Peer 1) bundle_of_both ∷ [])
        ≡ Received (Client 1) bundle_of_both ∷ from_1 (take 7 bundle_of_both) ∷ Quiet
        ∷ Faulted ∷ Offered (Peer 1) bundle_of_both ∷ [] }
    ensures unchanged_left { map (after_event (left_with both)) (Received (Client 1) bundle_of_both
        ∷ from_1 (take 7 bundle_of_both) ∷ Quiet ∷ Faulted ∷ Offered (Peer 1) bundle_of_both ∷ [])
        ≡ replicate 5 (left_with both) }
{}

/// Worked cases. The events of a node's port and of the port below for some calls.
pub fn calls_are_worked()
    ensures handed { handed_events new_bundler
        (Offer (Peer 2) first ∷ Waits (from_1 bundle_of_both) ∷ Left ∷ Polls (from_1 bundle_of_both) ∷ [])
        ≡ Offered (Peer 2) first ∷ from_1 first ∷ from_1 second ∷ from_1 first ∷ [] }
    ensures below { below_events new_bundler
        (Offer (Peer 2) first ∷ Waits (from_1 bundle_of_both) ∷ Left ∷ Polls (from_1 bundle_of_both) ∷ [])
        ≡ Offered (Peer 2) first ∷ from_1 bundle_of_both ∷ from_1 bundle_of_both ∷ [] }
    ensures joined { below_events new_bundler
        (Offer (Peer 3) first ∷ Offer (Peer 2) first ∷ Offer (Peer 2) second ∷ Waits Quiet ∷ Waits Quiet ∷ [])
        ≡ Offered (Peer 2) bundle_of_both ∷ Offered (Peer 3) first ∷ Quiet ∷ Quiet ∷ [] }
    ensures polled { below_events new_bundler (Offer (Peer 2) first ∷ Polls Faulted ∷ []) ≡ Faulted ∷ [] }
    ensures after { after_calls new_bundler (Waits (from_1 bundle_of_both) ∷ Offer (Peer 2) first ∷ Left ∷ [])
        ≡ record (left_with []) { lanes = (with_lane (calm_for 1) 2 (lane_of (first ∷ []) 1 1)).lanes } }
    ensures after_flush { after_calls new_bundler (Offer (Peer 2) first ∷ Waits Quiet ∷ []) ≡ calm_for 1 }
    ensures after_poll { after_calls new_bundler (Offer (Peer 2) first ∷ Polls Faulted ∷ [])
        ≡ with_lane new_bundler 2 (lane_of (first ∷ []) 1 0) }
    ensures may { map (may_call new_bundler) (Waits (from_1 []) ∷ Waits Quiet ∷ Waits Faulted ∷ Polls (from_1 [])
        ∷ Polls Faulted ∷ Offer (Client 1) [] ∷ []) ≡ replicate 6 true }
    ensures may_not { map (may_call new_bundler) (Left ∷ Polls Quiet ∷ Waits (Offered (Peer 1) [])
        ∷ Polls (Offered (Peer 1) []) ∷ []) ≡ replicate 4 false }
    ensures may_when_left { map (may_call (left_with both)) (Left ∷ Offer (Client 1) [] ∷ []) ≡ replicate 2 true }
    ensures may_not_when_left { map (may_call (left_with both)) (Waits (from_1 []) ∷ Waits Quiet ∷ Waits Faulted
        ∷ Polls (from_1 []) ∷ Polls Quiet ∷ Polls Faulted ∷ []) ≡ replicate 6 false }
    ensures twice { map (may_make (left_with (second ∷ []))) ((Left ∷ Waits Quiet ∷ []) ∷ (Left ∷ Left ∷ []) ∷ [])
        ≡ true ∷ false ∷ [] }
{}

/// Worked cases. What waits is offered at a flush, and nothing is handed in. A later wait offers nothing again.
pub fn flushes_are_worked()
    ensures offered { below_events new_bundler (Offer (Peer 2) first ∷ Offer (Peer 2) second ∷ Flush ∷ [])
        ≡ Offered (Peer 2) bundle_of_both ∷ [] }
    ensures handed { handed_events new_bundler (Offer (Peer 2) first ∷ Flush ∷ Waits (from_1 second) ∷ [])
        ≡ Offered (Peer 2) first ∷ from_1 second ∷ [] }
    ensures offered_once { below_events new_bundler (Offer (Peer 2) first ∷ Offer (Peer 2) second ∷ Flush ∷ Waits Quiet
        ∷ []) ≡ Offered (Peer 2) bundle_of_both ∷ Quiet ∷ [] }
    ensures in_order { below_events new_bundler (Offer (Peer 3) second ∷ Offer (Peer 2) first ∷ Flush
        ∷ Offer (Peer 2) second ∷ Flush ∷ [])
        ≡ Offered (Peer 2) first ∷ Offered (Peer 3) second ∷ Offered (Peer 2) second ∷ [] }
    ensures nothing_waits { below_events new_bundler (Flush ∷ Flush ∷ []) ≡ [] }
    ensures after { after_calls new_bundler (Offer (Peer 2) first ∷ Flush ∷ []) ≡ calm_for 1 }
    ensures busy { after_calls (calm_for 8) (Offer (Peer 2) first ∷ Offer (Peer 2) second ∷ Flush ∷ [])
        ≡ with_lane (calm_for 8) 2 new_lane }
    ensures left { after_calls (left_with both) (Flush ∷ [])
        ≡ record (left_with both) { lanes = (calm_for 1).lanes } }
    ensures own { own_offers 2 (Offer (Peer 2) first ∷ Flush ∷ Offer (Peer 2) second ∷ []) ≡ both }
    ensures may { map (λ bundler. may_call bundler Flush) (new_bundler ∷ left_with both ∷ []) ≡ replicate 2 true }
{}

/// Worked cases. What was offered to a member or came from it, in order.
pub fn lists_are_worked()
    ensures parts { map are_parts ([] ∷ both ∷ ([] ∷ []) ∷ (first ∷ [] ∷ []) ∷ []) ≡ true ∷ true ∷ false ∷ false ∷ [] }
    ensures own { own_offers 2 (Offer (Peer 2) first ∷ Offer (Peer 3) [] ∷ Offer (Client 2) [] ∷ Left ∷ Waits Quiet
        ∷ Polls Faulted ∷ Offer (Peer 2) second ∷ []) ≡ both }
    ensures offered { all_offered 2 (Offered (Peer 2) bundle_of_both ∷ Offered (Peer 3) first ∷ Offered (Client 2) []
        ∷ Quiet ∷ Faulted ∷ Received (Peer 2) first ∷ Offered (Peer 2) second ∷ []) ≡ both ++ second ∷ [] }
    ensures received { all_received 1 (from_1 bundle_of_both ∷ Received (Peer 3) first ∷ Received (Client 1) []
        ∷ Quiet ∷ Faulted ∷ Offered (Peer 1) first ∷ from_1 second ∷ []) ≡ both ++ second ∷ [] }
    ensures datagrams { datagrams_from 1 (from_1 bundle_of_both ∷ Received (Peer 3) first ∷ Received (Client 1) []
        ∷ Quiet ∷ Faulted ∷ Offered (Peer 1) first ∷ from_1 second ∷ []) ≡ bundle_of_both ∷ second ∷ [] }
    ensures left { map (left_from (left_with both)) (1 ∷ 2 ∷ []) ≡ both ∷ [] ∷ [] }
    ensures bundle_as_an_offer { all_offered 2 (below_events new_bundler
        (Offer (Peer 2) bundle_of_both ∷ Waits Quiet ∷ [])) ≡ both }
{}

/// Counterexamples: each promise of a port after calls fails for a minimal one.
pub fn calls_can_be_broken()
    ensures after { IsAfter (Some (Faulted ∷ from_1 first ∷ [])) (calm_for 1)
        (Waits Faulted ∷ Polls (from_1 first) ∷ []) }
    ensures no_record { IsAfter None (calm_for 1) (Waits Faulted ∷ []) }
    ensures unrecorded { IsAfter (Some []) (calm_for 1) (Waits Faulted ∷ []) → ⊥ }
    ensures second_unrecorded { IsAfter (Some (Faulted ∷ [])) (calm_for 1)
        (Waits Faulted ∷ Polls (from_1 first) ∷ []) → ⊥ }
    ensures another_bundler { IsAfter (Some (Faulted ∷ [])) (with_lane (calm_for 1) 2 (lane_of both 0 1))
        (Waits Faulted ∷ []) → ⊥ }
    ensures uncounted_wait { IsAfter (Some (Faulted ∷ [])) new_bundler (Waits Faulted ∷ []) → ⊥ }
    ensures quiet_poll { IsAfter (Some (Quiet ∷ [])) new_bundler (Polls Quiet ∷ []) → ⊥ }
    ensures flushed { IsAfter (Some (Offered (Peer 2) first ∷ [])) (calm_for 1) (Offer (Peer 2) first ∷ Flush ∷ []) }
    ensures kept_at_flush { IsAfter (Some []) (calm_for 1) (Offer (Peer 2) first ∷ Flush ∷ []) → ⊥ }
    ensures waits_after_flush { IsAfter (Some (Offered (Peer 2) first ∷ []))
        (with_lane (calm_for 1) 2 (lane_of (first ∷ []) 0 1)) (Offer (Peer 2) first ∷ Flush ∷ []) → ⊥ }
{}

/// Counterexamples: each promise of what is handed in and of what is offered fails for a minimal one.
pub fn promises_can_be_broken()
    ensures received { HandsIn (Waits Quiet ∷ Waits Faulted ∷ []) Faulted }
    ensures polled { HandsIn (Waits Quiet ∷ Polls Faulted ∷ []) Faulted }
    ensures offered { HandsIn (Offer (Peer 2) first ∷ []) (Offered (Peer 2) first) }
    ensures part { HandsIn (Waits (from_1 bundle_of_both) ∷ []) (from_1 second) }
    ensures not_received { HandsIn [] (from_1 first) → ⊥ }
    ensures from_another { HandsIn (Waits (from_1 bundle_of_both) ∷ []) (Received (Peer 3) first) → ⊥ }
    ensures no_part { HandsIn (Waits (from_1 first) ∷ []) (from_1 second) → ⊥ }
    ensures joined { JoinsOffers (Offer (Peer 2) first ∷ Offer (Peer 2) second ∷ []) (Peer 2) bundle_of_both }
    ensures first_not_offered { JoinsOffers (Offer (Peer 2) second ∷ []) (Peer 2) bundle_of_both → ⊥ }
    ensures second_not_offered { JoinsOffers (Offer (Peer 2) first ∷ []) (Peer 2) bundle_of_both → ⊥ }
    ensures to_another { JoinsOffers (Offer (Peer 2) first ∷ Offer (Peer 2) second ∷ []) (Peer 3) bundle_of_both → ⊥ }
    ensures to_a_client { JoinsOffers (Offer (Peer 2) first ∷ Offer (Peer 2) second ∷ []) (Client 2) bundle_of_both
        → ⊥ }
    ensures no_bundle { JoinsOffers (Offer (Peer 2) first ∷ []) (Peer 2) first → ⊥ }
    ensures in_order { all_offered 2 (Offered (Peer 2) first ∷ Offered (Peer 2) second ∷ [])
        ≡ own_offers 2 (Offer (Peer 2) first ∷ Offer (Peer 2) second ∷ []) }
    ensures reordered { all_offered 2 (Offered (Peer 2) second ∷ Offered (Peer 2) first ∷ [])
        ≡ own_offers 2 (Offer (Peer 2) first ∷ Offer (Peer 2) second ∷ []) → ⊥ }
    ensures at_once_while_others_wait { all_offered 2 (below_events (with_lane new_bundler 2 (lane_of (first ∷ []) 0 8))
        (Offer (Peer 2) second ∷ Waits Quiet ∷ [])) ≡ both → ⊥ }
{}
