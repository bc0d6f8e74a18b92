ghost use Rattle.std.specs.Prelude.{◌≡◌, ◌↔◌, ◌++◌, ◌^◌, ◌<◌, ◌≤◌, [], ◌∷◌, ℕ, List, Some, None, codes, length, map, replicate, slice_set, take, true, false};
ghost use Rattle.named_wire.specs.Bytes.{AreBytes};
ghost use Rattle.named_wire.specs.Datagram.{IsDatagramOf, datagram_at, datagram_bytes};
ghost use Rattle.named_wire.specs.Examples.{ask_bytes, ask_head, ask_head_bytes};
ghost use Rattle.named_wire.specs.Head.{IsHead, are_ends, head_at, head_bytes, kind_byte, kind_of};
ghost use Rattle.named_wire.specs.declared.head.Head.{Head};
ghost use Rattle.named_wire.specs.declared.head.Kind.TheVariants.{Ask, Grant, Deny, Floor, Floors};

/// One spelling: under each key a head and a body have one spelling, and a datagram one reading.
pub fn one_spelling()
    ensures reading { (key bytes body : List ℕ) (head : Head) → AreBytes bytes → head.boot < 2 ^ 64 →
        IsDatagramOf key head body bytes ↔ (datagram_at key bytes ≡ Some (head, body)) }
    ensures again { (key body : List ℕ) (head : Head) → IsHead head → length body ≤ 481 →
        datagram_at key (datagram_bytes key head body) ≡ Some (head, body) }
{}

/// Worked cases. A datagram under a key of 32 zeros, and its readings under another key and with other bytes.
pub fn datagrams_are_worked()
    ensures bytes { datagram_bytes (replicate 32 0) ask_head (codes "ask") ≡ ask_bytes }
    ensures read { datagram_at (replicate 32 0) ask_bytes ≡ Some (ask_head, codes "ask") }
    ensures key { datagram_at (replicate 32 1) ask_bytes ≡ None }
    ensures last_byte { datagram_at (replicate 32 0) (slice_set ask_bytes 32 0) ≡ None }
    ensures boot { datagram_at (replicate 32 0) (slice_set ask_bytes 13 3) ≡ None }
    ensures no_tag { datagram_at (replicate 32 0) (ask_head_bytes ++ codes "ask") ≡ None }
{}

/// Worked cases. Kinds, ends, and heads with one other byte.
pub fn heads_are_worked()
    ensures kinds { map kind_of (0 ∷ 1 ∷ 2 ∷ 3 ∷ 4 ∷ 5 ∷ 6 ∷ [])
        ≡ None ∷ Some Ask ∷ Some Grant ∷ Some Deny ∷ Some Floor ∷ Some Floors ∷ None ∷ [] }
    ensures kind_bytes { map kind_byte (Ask ∷ Grant ∷ Deny ∷ Floor ∷ Floors ∷ []) ≡ 1 ∷ 2 ∷ 3 ∷ 4 ∷ 5 ∷ [] }
    ensures ends { are_ends 1 9 ∷ are_ends 9 1 ∷ are_ends 0 1 ∷ are_ends 1 0 ∷ are_ends 10 1 ∷ are_ends 1 10
        ∷ are_ends 5 5 ∷ [] ≡ true ∷ true ∷ false ∷ false ∷ false ∷ false ∷ false ∷ [] }
    ensures ask { head_bytes ask_head ≡ ask_head_bytes }
    ensures read { head_at ask_head_bytes ≡ Some ask_head }
    ensures longest { head_at (ask_head_bytes ++ replicate 481 0) ≡ Some ask_head }
    ensures too_long { head_at (ask_head_bytes ++ replicate 482 0) ≡ None }
    ensures too_short { head_at (take 13 ask_head_bytes) ≡ None }
    ensures mark_0 { head_at (slice_set ask_head_bytes 0 0x4e) ≡ None }
    ensures mark_1 { head_at (slice_set ask_head_bytes 1 0x53) ≡ None }
    ensures version { head_at (slice_set ask_head_bytes 2 2) ≡ None }
    ensures kind { head_at (slice_set ask_head_bytes 3 6) ≡ None }
    ensures from { head_at (slice_set ask_head_bytes 4 2) ≡ None }
    ensures to { head_at (slice_set ask_head_bytes 5 1) ≡ None }
    ensures boot { (head : Head) → IsHead (record head { boot = 18446744073709551616 }) → ⊥ }
{}
