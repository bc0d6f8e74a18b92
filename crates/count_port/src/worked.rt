//! Worked cases of the numbers and of the members.

ghost use Rattle.std.specs.Prelude.{◌≡◌, ◌∷◌, ◌-◌, ◌^◌, [], ℕ, List, None, Some, codes, false, map, true};
ghost use Rattle.datagram_port.specs.Port.{Faulted, Offered, Quiet, Received};
ghost use Rattle.datagram_port.specs.declared.port.Sender.TheVariants.{Client, Peer};
ghost use Rattle.gatekeeping.specs.Read.{is_read};
ghost use Rattle.gatekeeping.specs.declared.others.Seen.TheVariants.{Differs, Heard, Silent};
ghost use Rattle.count_port.specs.Counts.{counts_after, ticks_of};
ghost use Rattle.count_port.specs.Examples.{after_answer, differing_2, member_2, member_3, no_refusal, nothing_counted, refused_once};
ghost use Rattle.count_port.specs.Members.{differing, heard, members_after, new_member, rested, seen_after, seen_of, with_datagram};
ghost use Rattle.count_port.specs.declared.members.Member.{Member};

/// Worked cases. What is counted of each entry of a port's record.
pub fn counts_are_worked()
    ensures client { counts_after (Received (Client 7) []) nothing_counted ≡ record nothing_counted { received = 1 } }
    ensures member { counts_after (Received (Peer 2) []) nothing_counted ≡ record nothing_counted { received = 1 } }
    ensures quiet { counts_after Quiet nothing_counted ≡ record nothing_counted { quiets = 1 } }
    ensures fault { counts_after Faulted nothing_counted ≡ nothing_counted }
    ensures sent { counts_after (Offered (Peer 2) (codes "OK k1 0")) nothing_counted ≡ nothing_counted }
    ensures accepted { after_answer (codes "OK k1 0") ≡ record nothing_counted { replied = 1; accepted = 1 } }
    ensures refused { after_answer (codes "NO k1 INVALID")
        ≡ record nothing_counted { replied = 1; refused = record no_refusal { invalid = 1 } } }
    ensures throttled { after_answer (codes "NO k1 THROTTLED 5")
        ≡ record nothing_counted { replied = 1; refused = record no_refusal { throttled = 1 } } }
    ensures no_reason { after_answer (codes "NO k1") ≡ record nothing_counted { replied = 1 } }
    ensures other_reason { after_answer (codes "NO k1 WHY") ≡ record nothing_counted { replied = 1 } }
    ensures bad_line { refused_once (codes "BADLINE") ≡ record no_refusal { bad_line = 1 } }
    ensures clock { refused_once (codes "CLOCK") ≡ record no_refusal { clock = 1 } }
    ensures busy { refused_once (codes "BUSY") ≡ record no_refusal { busy = 1 } }
    ensures unknown { refused_once (codes "UNKNOWN") ≡ record no_refusal { unknown = 1 } }
    ensures password { refused_once (codes "PASSWORD") ≡ record no_refusal { password = 1 } }
    ensures exhausted { refused_once (codes "EXHAUSTED") ≡ record no_refusal { exhausted = 1 } }
    ensures spent { refused_once (codes "SPENT") ≡ record no_refusal { spent = 1 } }
    ensures timeout { refused_once (codes "TIMEOUT") ≡ record no_refusal { timeout = 1 } }
    ensures full { counts_after (Received (Client 7) []) (record nothing_counted { received = 2 ^ 64 - 1 })
        ≡ record nothing_counted { received = 2 ^ 64 - 1 } }
    ensures ticks { map ticks_of (record nothing_counted { received = 63; quiets = 2 }
        ∷ record nothing_counted { received = 64; quiets = 2 } ∷ record nothing_counted { received = 128 } ∷ [])
        ≡ 2 ∷ 3 ∷ 2 ∷ [] }
{}

/// Worked cases. A member is silent five seconds after its last datagram that the node can read.
pub fn members_are_worked()
    ensures new { new_member 2 ≡ member_2 None }
    ensures heard_again { map (heard 2) (differing_2 (Some 30) ∷ member_3 ∷ []) ≡ member_2 (Some 0) ∷ member_3 ∷ [] }
    ensures differs { map (differing 2) (member_2 (Some 4) ∷ member_3 ∷ []) ≡ differing_2 (Some 4) ∷ member_3 ∷ [] }
    ensures rests { map rested (differing_2 (Some 4) ∷ member_3 ∷ []) ≡ differing_2 (Some 5) ∷ member_3 ∷ [] }
    // A datagram without bytes is none that anybody sent.
    ensures empty { (key : List ℕ) (members : List Member) → with_datagram key 2 [] members ≡ members }
    ensures read { (key bytes : List ℕ) (byte : ℕ) (members : List Member) → is_read key 2 (byte ∷ bytes) ≡ true
        → with_datagram key 2 (byte ∷ bytes) members ≡ map (heard 2) members }
    ensures unread { (key bytes : List ℕ) (byte : ℕ) (members : List Member) → is_read key 2 (byte ∷ bytes) ≡ false
        → with_datagram key 2 (byte ∷ bytes) members ≡ map (differing 2) members }
    ensures of_a_client { members_after [] (Received (Client 2) (0 ∷ [])) (member_2 None ∷ []) ≡ member_2 None ∷ [] }
    ensures of_a_member { (key bytes : List ℕ) (members : List Member)
        → members_after key (Received (Peer 2) bytes) members ≡ with_datagram key 2 bytes members }
    ensures quiet { members_after [] Quiet (member_2 (Some 0) ∷ []) ≡ member_2 (Some 1) ∷ [] }
    ensures fault { members_after [] Faulted (member_2 (Some 0) ∷ []) ≡ member_2 (Some 0) ∷ [] }
    ensures sent { members_after [] (Offered (Peer 2) (0 ∷ [])) (member_2 None ∷ []) ≡ member_2 None ∷ [] }
    ensures seconds { map seen_after (None ∷ Some 0 ∷ Some 4 ∷ Some 5 ∷ Some 24 ∷ Some 25 ∷ [])
        ≡ Silent ∷ Heard 0 ∷ Heard 0 ∷ Heard 1 ∷ Heard 4 ∷ Silent ∷ [] }
    ensures seen { seen_of (member_2 (Some 5)) ≡ record { number = 2; seen = Heard 1 } }
    ensures seen_to_differ { seen_of (differing_2 (Some 5)) ≡ record { number = 2; seen = Differs } }
{}
