ghost use Rattle.std.specs.Prelude.{◌≡◌, ◌↔◌, ◌∷◌, ◌++◌, [], ℕ, List, Some, None, codes, replicate, take, slice_set};
ghost use Rattle.floor_store.specs.Records.{span_of};
ghost use Rattle.secret_text.specs.declared.fault.SecretFault.{SecretFault};
ghost use Rattle.vote_core.specs.declared.message.Message.{Message};
ghost use Rattle.vote_core.specs.declared.message.Message.TheVariants.{Deny, Floor, Grant};
ghost use Rattle.vote_wire.specs.Body.{HasSpelling, body_at, body_bytes};
ghost use Rattle.vote_wire.specs.Bytes.{AreBytes};
ghost use Rattle.vote_wire.specs.Datagram.{IsDatagramOf, datagram_at, datagram_bytes};
ghost use Rattle.vote_wire.specs.Examples.{ask, ask_body, ask_of, ask_tag, ask_with, deny, deny_body, floor, floor_body, grant, grant_body, read_again, tag_of_the_standard};
ghost use Rattle.vote_wire.specs.Key.{IsClusterKey, IsKeyOrBare, bare, key_refusal_of, tag_of};

/// One spelling: under each key a message from one node to another has one spelling, and a datagram one reading.
pub fn one_spelling()
    ensures spelling { (key bytes : List ℕ) (from to : ℕ) (message : Message) → AreBytes bytes →
        IsDatagramOf key bytes from to message
        ↔ (HasSpelling from to message × (bytes ≡ datagram_bytes key from to message)) }
    ensures reading { (key bytes : List ℕ) (from to : ℕ) (message : Message) →
        IsDatagramOf key bytes from to message ↔ (datagram_at key bytes ≡ Some (from, to, message)) }
    ensures again { (key : List ℕ) (from to : ℕ) (message : Message) → HasSpelling from to message →
        datagram_at key (datagram_bytes key from to message) ≡ Some (from, to, message) }
{}

/// Worked cases. A datagram under a key of 32 zeros, and its reading with another key, another tag and another body.
///
/// The tag of a test case of RFC 4231.
pub fn datagrams_are_worked()
    ensures tag { tag_of (replicate 20 0x0b) (codes "Hi There") ≡ tag_of_the_standard }
    ensures bytes { datagram_bytes (replicate 32 0) 1 2 ask ≡ ask_body ++ ask_tag }
    ensures read { datagram_at (replicate 32 0) (ask_body ++ ask_tag) ≡ Some (1, 2, ask) }
    ensures key { datagram_at (replicate 32 1) (ask_body ++ ask_tag) ≡ None }
    ensures first_byte { datagram_at (replicate 32 0) (ask_body ++ slice_set ask_tag 0 0xc3) ≡ None }
    ensures last_byte { datagram_at (replicate 32 0) (ask_body ++ slice_set ask_tag 15 0x9b) ≡ None }
    ensures body { datagram_at (replicate 32 0) (slice_set ask_body 42 2 ++ ask_tag) ≡ None }
    ensures no_tag { datagram_at (replicate 32 0) ask_body ≡ None }
{}

/// Worked cases. The bare key: its tags, and the readings of a datagram under it, of a tagged one, and under a key.
pub fn bare_key_is_worked()
    ensures tag { tag_of bare (codes "Hi There") ≡ replicate 16 0 }
    ensures bytes { datagram_bytes bare 1 2 ask ≡ ask_body ++ replicate 16 0 }
    ensures read { datagram_at bare (ask_body ++ replicate 16 0) ≡ Some (1, 2, ask) }
    ensures tagged { datagram_at bare (ask_body ++ ask_tag) ≡ None }
    ensures under_a_key { datagram_at (replicate 32 0) (ask_body ++ replicate 16 0) ≡ None }
    ensures is_no_key { IsClusterKey bare → ⊥ }
    ensures is_allowed { IsKeyOrBare bare }
    ensures few_bytes { IsKeyOrBare (replicate 15 0) → ⊥ }
{}

/// Worked cases. The body of a datagram of each kind, and its reading with one other byte.
pub fn bodies_are_worked()
    ensures ask { body_bytes 1 2 ask ≡ ask_body }
    ensures grant { body_bytes 2 1 grant ≡ grant_body }
    ensures deny { body_bytes 3 2 deny ≡ deny_body }
    ensures floor { body_bytes 1 3 floor ≡ floor_body }
    ensures ask_read { body_at ask_body ≡ Some (1, 2, ask) }
    ensures grant_read { body_at grant_body ≡ Some (2, 1, grant) }
    ensures deny_read { body_at deny_body ≡ Some (3, 2, deny) }
    ensures floor_read { body_at floor_body ≡ Some (1, 3, floor) }

    // the lengths
    ensures longer_ask { body_at (ask_body ++ 0 ∷ []) ≡ None }
    ensures longer_deny { body_at (deny_body ++ 0 ∷ []) ≡ None }
    ensures longer_floor { body_at (floor_body ++ 0 ∷ []) ≡ None }
    ensures shorter_ask { body_at (take 42 ask_body) ≡ None }
    ensures shorter_deny { body_at (take 34 deny_body) ≡ None }
    ensures shorter_floor { body_at (take 17 floor_body) ≡ None }
    ensures empty { body_at [] ≡ None }

    // the mark, the version, the kind and the ends
    ensures mark_0 { ask_with 0 0x4e ≡ None }
    ensures mark_1 { ask_with 1 0x57 ≡ None }
    ensures version_1 { ask_with 2 1 ≡ None }
    ensures version_3 { ask_with 2 3 ≡ None }
    ensures kind_0 { ask_with 3 0 ≡ None }
    ensures kind_5 { ask_with 3 5 ≡ None }
    ensures another_kind { ask_with 3 3 ≡ None }
    ensures from_0 { ask_with 4 0 ≡ None }
    ensures from_10 { ask_with 4 10 ≡ None }
    ensures floor_from_0 { read_again 0 8 (Floor 0 0) ≡ None }
    ensures floor_from_10 { read_again 10 8 (Floor 0 0) ≡ None }
    ensures to_0 { ask_with 5 0 ≡ None }
    ensures to_10 { ask_with 5 10 ≡ None }
    ensures to_itself { ask_with 5 1 ≡ None }
    ensures token { read_again 9 8 (Floor 9999 0) ≡ Some (9, 8, Floor 9999 0) }
    ensures token_of_10000 { read_again 9 8 (Floor 10000 0) ≡ None }

    // the proposal: of the sender in an Ask, of the receiver in the answers
    ensures ask_of_another { ask_with 10 2 ≡ None }
    ensures grant_of_another { read_again 2 3 grant ≡ None }
    ensures deny_of_another { read_again 3 1 deny ≡ None }
    ensures node_0 { read_again 1 2 (Grant (record { node = 0; boot = 0; seq = 0 }) 0 (span_of 0 0)) ≡ None }
    ensures last_numbers { let last : ℕ = 4611686018427387903 in
        read_again 1 2 (ask_of last last 9999 last last) ≡ Some (1, 2, ask_of last last 9999 last last) }
    ensures boot { read_again 1 2 (ask_of 4611686018427387904 0 0 0 0) ≡ None }
    ensures seq { read_again 1 2 (ask_of 0 4611686018427387904 0 0 0) ≡ None }

    // the factors, and the floor
    ensures one_factor { read_again 1 2 (ask_of 0 0 0 5 5) ≡ Some (1, 2, ask_of 0 0 0 5 5) }
    ensures two_factors { read_again 1 2 (ask_of 0 0 0 5 6) ≡ Some (1, 2, ask_of 0 0 0 5 6) }
    ensures three_factors { read_again 1 2 (ask_of 0 0 0 5 7) ≡ None }
    ensures no_factor { read_again 1 2 (ask_of 0 0 0 5 4) ≡ None }
    ensures hi { read_again 1 2 (ask_of 0 0 0 4611686018427387903 4611686018427387904) ≡ None }
    ensures lo { read_again 1 2 (ask_of 0 0 0 4611686018427387904 4611686018427387904) ≡ None }
    ensures none_free { read_again 1 3 (Floor 0 4611686018427387904) ≡ Some (1, 3, Floor 0 4611686018427387904) }
    ensures next { read_again 1 3 (Floor 0 4611686018427387905) ≡ None }
    ensures denied_boot { read_again 3 2 (Deny (record { node = 2; boot = 4611686018427387904; seq = 0 }) 0 1) ≡ None }
    ensures denied_next { read_again 3 2 (Deny (record { node = 2; boot = 1; seq = 0 }) 0 4611686018427387905) ≡ None }
{}

/// Worked cases. Refused texts of keys, the shortest and the longest accepted text, and the limits of a key's length.
pub fn keys_are_worked()
    ensures empty { key_refusal_of [] ≡ Some SecretFault.Empty }
    ensures digit { key_refusal_of (codes "0g") ≡ Some (SecretFault.BadCharacter 1) }
    ensures odd { key_refusal_of (replicate 31 0x30) ≡ Some SecretFault.BadLength }
    ensures short { key_refusal_of (replicate 30 0x30) ≡ Some SecretFault.BadLength }
    ensures shortest { key_refusal_of (replicate 32 0x30) ≡ None }
    ensures longest { key_refusal_of (replicate 128 0x30) ≡ None }
    ensures long { key_refusal_of (replicate 130 0x30) ≡ Some SecretFault.TooLong }
    ensures fewest_bytes { IsClusterKey (replicate 16 0) }
    ensures few_bytes { IsClusterKey (replicate 15 0) → ⊥ }
    ensures most_bytes { IsClusterKey (replicate 64 0) }
    ensures many_bytes { IsClusterKey (replicate 65 0) → ⊥ }
{}
