ghost use Rattle.std.specs.Prelude.{◌≡◌, ℕ, ◌-◌, ◌^◌, ◌∷◌, ◌++◌, [], List, None, Some, codes, false, flat_map, map, replicate, slice_set, true};
ghost use Rattle.datagram_port.specs.Port.{Faulted, Offered, Quiet, Received};
ghost use Rattle.datagram_port.specs.declared.port.Sender.TheVariants.{Client, Peer};
ghost use Rattle.client_lines.specs.Request.{Request, request_at};
ghost use Rattle.node_log.specs.Asked.{AskedLine, nonce_of, place_of, user_at, with_line, with_one, without};
ghost use Rattle.node_log.specs.Examples.{ann, bob, fell_3, made_by_2, member, minute, second, two_lines};
ghost use Rattle.sealed_port.specs.Causes.{nothing};
ghost use Rattle.node_log.specs.BadLines.{bad_lines_after, new_second};
ghost use Rattle.gatekeeping.specs.Members.{nobody, only};
ghost use Rattle.node_log.specs.Differing.{differing_text, either};
ghost use Rattle.node_log.specs.Members.{member_line};
ghost use Rattle.node_log.specs.Minute.{fell_line, minute_after, minute_at_receive, minute_text, new_minute, older_line, unopened_line};
ghost use Rattle.node_log.specs.Log.{Remembers, Tells, asked_after, asked_after_all, differing_after, differing_at_receive, members_after, told_of};
ghost use Rattle.node_log.specs.Text.{answered_line, client_text, end_line, roster_line, shown_user, start_line};
ghost use Rattle.vote_wire.specs.Key.{bare};

/// Worked cases. The lines of a log, byte by byte.
///
/// They are an acceptance, a refusal without a remembered line, and names that would end their quotation or their line.
pub fn texts_are_worked()
    ensures accepted { answered_line 139637976793089 (Some (codes "ann")) (codes "OK k1 37")
        ≡ codes "accepted from=127.0.0.1:1 OK k1 37 user=\"ann\"\n" }
    ensures refused { answered_line 281474976710655 None (codes "NO - BADLINE")
        ≡ codes "refused from=255.255.255.255:65535 NO - BADLINE\n" }
    ensures address { client_text 1108152156166 ≡ codes "1.2.3.4:6" }
    // the clients of the clients file come after the last address
    ensures sealed { answered_line 281474976710663 (Some (codes "ann")) (codes "OK k1 37")
        ≡ codes "accepted from=client:7 OK k1 37 user=\"ann\"\n" }
    ensures clients { map client_text (281474976710656 ∷ 281474976776191 ∷ [])
        ≡ codes "client:0" ∷ codes "client:65535" ∷ [] }
    ensures name { shown_user (Some (33 ∷ 34 ∷ 92 ∷ 126 ∷ 127 ∷ 10 ∷ 32 ∷ 255 ∷ []))
        ≡ codes " user=\"!\\x22\\x5c~\\x7f\\x0a\\x20\\xff\"" }
    ensures nobody { shown_user None ≡ [] }
    ensures start { start_line (record {
      node = 1;
      members = 3;
      address = 139637976793089;
      boot = 7;
      tokens = 2;
      fingerprint = codes "b1061f3a2d61dfbd";
    }) ≡ codes "start node=1 of=3 at=127.0.0.1:1 boot=7 tokens=2 fingerprint=b1061f3a2d61dfbd\n" }
    ensures roster { roster_line (record { rows = 10; enrolled = 2; retired = 3; book = codes "4a7512ffe7c9b201" })
        ≡ codes "roster rows=10 enrolled=2 retired=3 book=4a7512ffe7c9b201\n" }
    ensures end { end_line 12 8 ≡ codes "end received=12 replied=8\n" }
{}

/// Worked cases. The remembered lines, and the line that an answer answers.
pub fn lines_are_worked()
    ensures remembered { with_line 7 (codes "CHECK k1 ann 755224 -") [] ≡ ann ∷ [] }
    ensures both { with_line 7 (codes "RESYNC k2 bob 287082 359152 pin\n") (ann ∷ []) ≡ two_lines }
    ensures outside { with_line 7 (codes "CHECK k1 ann 755224") two_lines ≡ two_lines }
    ensures nonce { nonce_of (codes "NO k2 THROTTLED 5") ≡ codes "k2" }
    ensures word { nonce_of (codes "OK") ≡ [] }
    ensures place { place_of 7 (codes "OK k2 1") two_lines ≡ Some 1 }
    ensures stranger { place_of 8 (codes "OK k2 1") two_lines ≡ None }
    ensures user { user_at (Some 1) two_lines ≡ Some (codes "bob") }
    ensures others { without (Some 0) two_lines ≡ bob ∷ [] }
    // the 96th has room, and the 97th replaces the first
    ensures room { with_one (ann ∷ replicate 94 bob) bob ≡ ann ∷ replicate 95 bob }
    ensures full { with_one (ann ∷ replicate 95 bob) bob ≡ replicate 96 bob }
{}

/// Worked cases. The text of a record, entry by entry.
///
/// A client's datagram is a remembered line. The first datagram that a member made makes one line that the member is
/// heard. An answer has its line, and a datagram to a member has none. The 25th consecutive quiet turn makes a member
/// silent, and no other one does.
pub fn records_are_worked()
    ensures asked { asked_after (Received (Client 7) (codes "CHECK k1 ann 755224 -")) [] ≡ ann ∷ [] }
    ensures received { told_of bare (Received (Client 7) (codes "CHECK k1 ann 755224 -")) [] (member 2 false 0 ∷ [])
        new_second ≡ [] }
    ensures answered { told_of bare (Offered (Client 7) (codes "OK k1 0")) two_lines [] new_second
        ≡ answered_line 7 (Some (codes "ann")) (codes "OK k1 0") }
    ensures once { asked_after (Offered (Client 7) (codes "OK k1 0")) two_lines ≡ bob ∷ [] }
    ensures sent { told_of bare (Offered (Peer 2) (codes "OK k1 0")) two_lines (member 2 false 0 ∷ []) new_second
        ≡ [] }
    ensures heard { told_of bare (Received (Peer 2) made_by_2) [] (member 2 false 9 ∷ member 3 false 9 ∷ [])
        new_second ≡ codes "heard member=2\n" }
    ensures known { told_of bare (Received (Peer 2) made_by_2) [] (member 2 true 9 ∷ []) new_second ≡ [] }
    ensures now_heard { members_after bare (Received (Peer 2) made_by_2) (member 2 false 9 ∷ member 3 false 9 ∷ [])
        ≡ member 2 true 0 ∷ member 3 false 9 ∷ [] }
    ensures unread { map (λ bytes. told_of bare (Received (Peer 2) bytes) [] (member 2 false 9 ∷ []) new_second)
        ([] ∷ (79 ∷ []) ∷ []) ≡ [] ∷ [] ∷ [] }
    ensures not_heard { map (λ bytes. members_after bare (Received (Peer 2) bytes) (member 2 false 9 ∷ []))
        ([] ∷ (79 ∷ []) ∷ []) ≡ replicate 2 (member 2 false 9 ∷ []) }
    ensures of_another { told_of bare (Received (Peer 3) made_by_2) [] (member 2 false 9 ∷ member 3 false 9 ∷ [])
        new_second ≡ [] }
    ensures silent { told_of bare Quiet [] (member 2 true 23 ∷ member 3 true 24 ∷ member 4 false 25 ∷ [])
        new_second ≡ codes "silent member=3\n" }
    ensures now_silent { members_after bare Quiet (member 2 true 23 ∷ member 3 true 24 ∷ member 4 false 25 ∷ [])
        ≡ member 2 true 24 ∷ member 3 false 25 ∷ member 4 false 25 ∷ [] }
    ensures fault { told_of bare Faulted two_lines (member 2 true 24 ∷ []) new_second ≡ [] }
    ensures whole { asked_after_all (Received (Client 7) (codes "CHECK k1 ann 755224 -") ∷ Quiet
        ∷ Received (Client 7) (codes "RESYNC k2 bob 287082 359152 pin") ∷ Faulted
        ∷ Received (Peer 2) (codes "CHECK k1 ann 755224 -") ∷ Offered (Peer 2) (codes "OK k2 0")
        ∷ Offered (Client 7) (codes "OK k1 0") ∷ []) [] ≡ bob ∷ [] }
{}

/// Worked cases. The members that differ: a datagram with bytes came from their address that they didn't make.
pub fn differing_are_worked()
    ensures unread { differing_after bare (Received (Peer 2) (79 ∷ [])) (only 4) ≡ slice_set (only 4) 2 true }
    ensures read { differing_after bare (Received (Peer 2) made_by_2) (only 4) ≡ only 4 }
    ensures of_another { differing_after bare (Received (Peer 3) made_by_2) nobody ≡ only 3 }
    ensures without_bytes { differing_after bare (Received (Peer 2) []) nobody ≡ nobody }
    ensures others { map (λ entry. differing_after bare entry (only 4)) (Received (Client 7) (79 ∷ []) ∷ Quiet
        ∷ Faulted ∷ Offered (Peer 2) (79 ∷ []) ∷ []) ≡ replicate 4 (only 4) }
    ensures begins { map (λ quiets. differing_at_receive (minute quiets) (only 4)) (299 ∷ 300 ∷ [])
        ≡ only 4 ∷ nobody ∷ [] }
    ensures both { either (only 4) (slice_set (only 1) 9 true) ≡ slice_set (slice_set (only 1) 4 true) 9 true }
    ensures one { map (either nobody) (only 0 ∷ only 7 ∷ []) ≡ nobody ∷ only 7 ∷ [] }
    ensures nobody_else { either (only 7) nobody ≡ only 7 }
{}

/// Worked cases. The lines of the datagrams that a port passed over, and the minutes of a log.
pub fn minutes_are_worked()
    ensures line { unopened_line (record { form = 1; tag = 12; early = 2; late = 3; again = 4; limited = 5 })
        ≡ codes "unopened form=1 tag=12 early=2 late=3 again=4 limited=5\n" }
    ensures words { map unopened_line (record nothing { tag = 12; late = 3 } ∷ record nothing { form = 1 }
        ∷ record nothing { early = 1 } ∷ record nothing { again = 10 } ∷ record nothing { limited = 1 } ∷ nothing ∷ [])
        ≡ codes "unopened tag=12 late=3\n" ∷ codes "unopened form=1\n" ∷ codes "unopened early=1\n"
        ∷ codes "unopened again=10\n" ∷ codes "unopened limited=1\n" ∷ [] ∷ [] }
    ensures told { map (λ quiets. minute_text (minute quiets) (record nothing { tag = 1 }) None None nobody)
        (299 ∷ 300 ∷ [])
        ≡ [] ∷ codes "unopened tag=1\n" ∷ [] }
    ensures older { older_line (record { member = 3; boot = 12 }) ≡ codes "older member=3 boot=12\n" }
    ensures both { minute_text (minute 300) (record nothing { tag = 1 }) (Some (record { member = 2; boot = 7 })) None
        nobody
        ≡ codes "unopened tag=1\nolder member=2 boot=7\n" }
    ensures fell { fell_line fell_3 ≡ codes "fell member=3 name=0123456789abcdef0a0a0a0a0a0a0a0a\n" }
    ensures fell_alone { map (λ quiets. minute_text (minute quiets) nothing None (Some fell_3) nobody) (299 ∷ 300 ∷ [])
        ≡ [] ∷ codes "fell member=3 name=0123456789abcdef0a0a0a0a0a0a0a0a\n" ∷ [] }
    ensures nobody_differs { differing_text nobody ≡ [] }
    ensures differs { map differing_text (only 1 ∷ only 3 ∷ only 9 ∷ [])
        ≡ codes "differs member=1\n" ∷ codes "differs member=3\n" ∷ codes "differs member=9\n" ∷ [] }
    ensures no_member { map differing_text (only 0 ∷ replicate 11 true ∷ [])
        ≡ [] ∷ flat_map (member_line (codes "differs")) (1 ∷ 2 ∷ 3 ∷ 4 ∷ 5 ∷ 6 ∷ 7 ∷ 8 ∷ 9 ∷ []) ∷ [] }
    ensures two_differ { differing_text (slice_set (only 4) 2 true) ≡ codes "differs member=2\ndiffers member=4\n" }
    ensures all { minute_text (minute 300) (record nothing { tag = 1 }) (Some (record { member = 2; boot = 7 }))
        (Some fell_3) (slice_set (only 4) 2 true)
        ≡ codes "unopened tag=1\nolder member=2 boot=7\nfell member=3 name=0123456789abcdef0a0a0a0a0a0a0a0a\n"
        ++ codes "differs member=2\ndiffers member=4\n" }
    ensures differs_alone { map (λ quiets. minute_text (minute quiets) nothing None None (only 3)) (299 ∷ 300 ∷ [])
        ≡ [] ∷ codes "differs member=3\n" ∷ [] }
    ensures begins { map (λ quiets. minute_at_receive (minute quiets)) (299 ∷ 300 ∷ []) ≡ minute 299 ∷ minute 0 ∷ [] }
    ensures quiet { map (λ quiets. minute_after Quiet (minute quiets)) (0 ∷ 299 ∷ 300 ∷ [])
        ≡ minute 1 ∷ minute 300 ∷ minute 300 ∷ [] }
    ensures others { map (λ entry. minute_after entry (minute 7)) (Received (Peer 2) [] ∷ Faulted
        ∷ Offered (Peer 2) [] ∷ []) ≡ replicate 3 (minute 7) }
    ensures new { new_minute ≡ minute 0 }
{}

/// Worked cases. The answers `NO - BADLINE` of a second: the eleventh has no line, and the fifth quiet turn counts it.
pub fn bad_lines_are_worked()
    ensures tenth { told_of bare (Offered (Client 7) (codes "NO - BADLINE")) [] [] (second 0 9)
        ≡ answered_line 7 None (codes "NO - BADLINE") }
    ensures eleventh { told_of bare (Offered (Client 7) (codes "NO - BADLINE")) [] [] (second 0 10) ≡ [] }
    ensures another_answer { told_of bare (Offered (Client 7) (codes "NO k1 UNKNOWN")) [] [] (second 0 10)
        ≡ answered_line 7 None (codes "NO k1 UNKNOWN") }
    ensures sealed { told_of bare (Offered (Client 281474976710663) (codes "NO - BADLINE")) [] [] (second 0 10)
        ≡ answered_line 281474976710663 None (codes "NO - BADLINE") }
    ensures counted { bad_lines_after (Offered (Client 7) (codes "NO - BADLINE")) (second 3 10) ≡ second 3 11 }
    ensures most { bad_lines_after (Offered (Client 7) (codes "NO - BADLINE")) (second 0 (2 ^ 64 - 1))
        ≡ second 0 (2 ^ 64 - 1) }
    ensures uncounted { map (λ entry. bad_lines_after entry (second 3 10)) (Offered (Client 7) (codes "NO k1 UNKNOWN")
        ∷ Offered (Client 281474976710663) (codes "NO - BADLINE") ∷ Offered (Peer 2) (codes "NO - BADLINE")
        ∷ Received (Client 7) [] ∷ Faulted ∷ []) ≡ replicate 5 (second 3 10) }
    ensures quiet { map (bad_lines_after Quiet) (second 3 12 ∷ second 4 12 ∷ []) ≡ second 4 12 ∷ new_second ∷ [] }
    ensures more { map (told_of bare Quiet [] []) (second 4 133 ∷ second 4 11 ∷ second 4 10 ∷ second 3 133 ∷ [])
        ≡ codes "badline more=123\n" ∷ codes "badline more=1\n" ∷ [] ∷ [] ∷ [] }
    ensures with_silence { told_of bare Quiet [] (member 2 true 24 ∷ []) (second 4 12)
        ≡ codes "silent member=2\nbadline more=2\n" }
{}

/// No secrets: the log remembers and writes the same for two lines that differ only in codes and passwords.
pub fn codes_are_not_told()
    ensures { (line other : List ℕ) (request changed : Request) → request_at line ≡ Some request
        → request_at other ≡ Some changed → request.nonce ≡ changed.nonce → request.user ≡ changed.user
        → (client : ℕ) (asked : List AskedLine) → with_line client line asked ≡ with_line client other asked }
{}

/// Counterexamples: each promise of a log's text and of its remembered lines fails for a minimal one.
pub fn logs_can_be_broken()
    ensures tells { Tells false false (Some (98 ∷ [])) (Some (98 ∷ 97 ∷ [])) (97 ∷ []) }
    ensures tells_until_it_fails { Tells false true (Some []) (Some (98 ∷ [])) (97 ∷ []) }
    ensures tells_once_over { Tells true true (Some []) (Some []) (97 ∷ []) }
    ensures tells_nothing { Tells false false (Some []) (Some []) (97 ∷ []) → ⊥ }
    ensures tells_another_text { Tells false false (Some []) (Some (98 ∷ [])) (97 ∷ []) → ⊥ }
    ensures tells_again { Tells true false (Some []) (Some (97 ∷ [])) (97 ∷ []) → ⊥ }
    ensures tells_when_over { Tells true true (Some []) (Some (97 ∷ [])) (97 ∷ []) → ⊥ }

    ensures remembers { Remembers (Some (Received (Client 7) (codes "CHECK k1 ann 755224 -") ∷ [])) (ann ∷ []) }
    ensures remembers_without_a_record { Remembers None (ann ∷ []) }
    ensures remembers_more { Remembers (Some []) (ann ∷ []) → ⊥ }
    ensures remembers_less { Remembers (Some (Received (Client 7) (codes "CHECK k1 ann 755224 -") ∷ [])) [] → ⊥ }
{}
