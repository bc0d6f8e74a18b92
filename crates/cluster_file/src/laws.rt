ghost use Rattle.std.specs.Prelude.{◌≡◌, ◌<◌, ◌^◌, ◌++◌, ◌∷◌, [], codes, length, map, replicate, true, false, Some, None, Ok, Err};
ghost use Rattle.std.specs.Net.Grammar.{IsSocketV4Text};
ghost use Rattle.std.specs.declared.net.socket_addr.SocketAddrV4.{SocketAddrV4 as AnyAddress};
ghost use Rattle.std.specs.Prelude.{List, ℕ, ◌↔◌, ◌⊎◌};
ghost use Rattle.std.specs.Cmp.Lexicographic.{slice_cmp};
ghost use Rattle.std.specs.List.Sorted.{IsPermutation, IsSorted};
ghost use Rattle.std.specs.Ordering.{nat_cmp};
ghost use Rattle.cluster_file.specs.Address.{IsAddress, address_of, address_text, address_value, is_among};
ghost use Rattle.token_file.specs.Credential.{Credential};
ghost use Rattle.token_file.specs.Examples.{event_token, time_token};
ghost use Rattle.token_file.specs.Writing.{IsCredential};
ghost use Rattle.std.specs.List.{AllByRecursion};
ghost use Rattle.token_file.specs.declared.token.Kind.TheVariants.{Event, Time30, Time60};
ghost use Rattle.cluster_file.specs.Check.{check_text, is_kind, named_check_text, named_summary_text, summary_text};
ghost use Rattle.cluster_file.specs.ClusterFile.{ClusterRecord, cluster_of, is_memory, outcome_of};
ghost use Rattle.cluster_file.specs.Examples.{address_at, after_each, after_text, all_given, faults, key_of_32, least_shared, named_file, named_key, nameless_file, salt, small_cluster, small_file, text_of, three_cluster, three_file, three_key, three_named, three_shared, two_tokens, two_turned, with_members, word_of, zeros};
ghost use Rattle.cluster_file.specs.Fields.{fresh_of, key_of, life_of, salt_of, word_of as spec_word_of};
ghost use Rattle.cluster_file.specs.Key.{IsCollision, fingerprint_of, shared_key_of};
ghost use Rattle.cluster_file.specs.Rows.{PrintsCollide, RowsCollide, book_print_of, in_order, macs_text, rows_text};
ghost use Rattle.cluster_file.specs.Said.{Given, InFile, nothing_said};
ghost use Rattle.cluster_file.specs.Shared.{IsShared, Shared, shared_of, shared_text};
ghost use Rattle.cluster_file.specs.declared.fault.LineFault.{LineFault};
ghost use Rattle.cluster_file.specs.declared.word.Word.{Word};

/// Injective: equal shared texts have the same names, life, members, settings and tokens, each in the same order.
pub fn shared_texts_tell()
    ensures { (a b : Shared) → IsShared a → IsShared b → shared_text a ≡ shared_text b → a ≡ b }
{}

/// Range: the shared values of a cluster file with a book of tokens are values that `shared_texts_tell` covers.
pub fn clusters_are_shared()
    ensures { (text : List ℕ) (cluster : ClusterRecord) (book : List Credential) → cluster_of text ≡ Ok cluster →
        AllByRecursion IsCredential book → IsShared (shared_of cluster book) }
{}

/// Different keys: members with different shared values have different shared keys, unless their texts collide under
/// HMAC-SHA-256.
pub fn shared_keys_tell()
    ensures { (key : List ℕ) (a b : Shared) → IsShared a → IsShared b → (a ≡ b → ⊥) →
        shared_key_of key a ≡ shared_key_of key b → IsCollision key (shared_text a) (shared_text b) }
{}

/// Addresses: the texts that are read as an address are exactly its spellings in std's grammar.
pub fn addresses_are_spelled()
    ensures { (text : List ℕ) (address : AnyAddress) →
        (address_of text ≡ Some (address_value address)) ↔ IsSocketV4Text text address }
{}

/// Worked cases. The fields of lines.
pub fn fields_are_worked()
    ensures words { map spec_word_of (codes "member" ∷ codes "look-ahead" ∷ codes "skew" ∷ codes "range"
        ∷ codes "drift" ∷ codes "key-file" ∷ codes "key" ∷ codes "life" ∷ codes "names" ∷ codes "new-tokens" ∷ [])
        ≡ Some Word.Member ∷ Some Word.LookAhead ∷ Some Word.Skew ∷ Some Word.Range ∷ Some Word.Drift
        ∷ Some Word.KeyFile ∷ Some Word.Key ∷ Some Word.Life ∷ Some Word.Names ∷ Some Word.NewTokens ∷ [] }
    ensures no_words { map spec_word_of (codes "members" ∷ codes "Member" ∷ codes "keyfile" ∷ codes "lif" ∷ [] ∷ [])
        ≡ replicate 5 None }
    ensures no_new_words { map spec_word_of (codes "name" ∷ codes "Names" ∷ codes "new_tokens" ∷ codes "new-token" ∷ [])
        ≡ replicate 4 None }
    ensures addresses { map address_of (codes "192.0.2.1:7101" ∷ codes "192.0.2.255:07101" ∷ codes "0.0.0.0:65535" ∷ [])
        ≡ Some (address_at 1) ∷ Some (address_at 255)
        ∷ Some (record { octets = 0 ∷ 0 ∷ 0 ∷ 0 ∷ []; port = 65535 }) ∷ [] }
    ensures no_addresses { map address_of (codes "192.0.2.1" ∷ codes "192.0.2.1:" ∷ codes "192.0.2.1:65536"
        ∷ codes "192.0.2.01:1" ∷ codes "192.0.2.256:1" ∷ codes "192.0.2:1" ∷ codes "host:1" ∷ codes "[::1]:1"
        ∷ codes "192.0.2.1:1x" ∷ [] ∷ []) ≡ replicate 10 None }
    ensures address { address_text (address_at 1) ≡ codes "192.0.2.1:7101" }
    ensures among { map (λ address. is_among address (address_at 1 ∷ address_at 2 ∷ []))
        (address_at 1 ∷ address_at 2 ∷ address_at 3 ∷ record { octets = 192 ∷ 0 ∷ 2 ∷ 1 ∷ []; port = 7102 } ∷ [])
        ≡ true ∷ true ∷ false ∷ false ∷ [] }
    ensures keys { map key_of (zeros 32 ∷ zeros 30 ∷ zeros 33 ∷ zeros 128 ∷ zeros 130 ∷ codes "zz" ∷ [])
        ≡ Ok (replicate 16 0) ∷ Err LineFault.BadKey ∷ Err LineFault.BadKey ∷ Ok (replicate 64 0)
        ∷ Err LineFault.BadKey ∷ Err LineFault.BadKey ∷ [] }
    ensures lives { map life_of (word_of 1 ∷ word_of 64 ∷ word_of 65 ∷ [])
        ≡ Ok (word_of 1) ∷ Ok (word_of 64) ∷ Err LineFault.BadLife ∷ [] }
    ensures salts { map salt_of (word_of 12 ∷ word_of 64 ∷ word_of 11 ∷ word_of 65 ∷ codes "with a blank" ∷ [])
        ≡ Ok (word_of 12) ∷ Ok (word_of 64) ∷ Err LineFault.BadNames ∷ Err LineFault.BadNames
        ∷ Err LineFault.BadNames ∷ [] }
    ensures fresh { map fresh_of (codes "fresh" ∷ codes "Fresh" ∷ codes "import" ∷ [] ∷ [])
        ≡ Ok tt ∷ Err LineFault.BadNewTokens ∷ Err LineFault.BadNewTokens ∷ Err LineFault.BadNewTokens ∷ [] }
{}

/// Worked cases. Lines of a cluster file.
pub fn lines_are_worked()
    ensures passed_over { after_each nothing_said ([] ∷ codes "  " ∷ codes "# member" ∷ codes " #member" ∷ [])
        ≡ replicate 4 (Ok nothing_said) }
    ensures members { after_each (with_members (1 ∷ [])) (codes "member 2 192.0.2.2:7101"
        ∷ codes " member  2 192.0.2.2:7101 " ∷ codes "member 02 192.0.2.2:7101" ∷ [])
        ≡ replicate 3 (Ok (with_members (1 ∷ 2 ∷ []))) }
    ensures last_member { after_text (with_members (1 ∷ 2 ∷ 3 ∷ 4 ∷ 5 ∷ 6 ∷ 7 ∷ 8 ∷ []))
        (codes "member 9 192.0.2.9:7101") ≡ Ok (with_members (1 ∷ 2 ∷ 3 ∷ 4 ∷ 5 ∷ 6 ∷ 7 ∷ 8 ∷ 9 ∷ [])) }
    ensures too_many { after_text (with_members (1 ∷ 2 ∷ 3 ∷ 4 ∷ 5 ∷ 6 ∷ 7 ∷ 8 ∷ 9 ∷ [])) (codes "member 1 host")
        ≡ Err LineFault.TooManyMembers }
    ensures member_numbers { after_each (with_members (1 ∷ [])) (codes "member 1 host" ∷ codes "member 3 192.0.2.3:7101"
        ∷ codes "member x 192.0.2.2:7101" ∷ []) ≡ replicate 3 (Err LineFault.MemberNumber) }
    ensures bad_addresses { after_each (with_members (1 ∷ [])) (codes "member 2 host:7101"
        ∷ codes "member 2 192.0.2.2" ∷ []) ≡ replicate 2 (Err LineFault.BadAddress) }
    ensures twice_address { after_text (with_members (1 ∷ 2 ∷ [])) (codes "member 3 192.0.2.1:7101")
        ≡ Err LineFault.TwiceAddress }
    ensures settings { after_each nothing_said (codes "look-ahead 100" ∷ codes "skew 10" ∷ codes "range 1000"
        ∷ codes "drift 10" ∷ codes "look-ahead 0" ∷ [])
        ≡ Ok (record nothing_said { look_ahead = Some 100 }) ∷ Ok (record nothing_said { skew = Some 10 })
        ∷ Ok (record nothing_said { range = Some 1000 }) ∷ Ok (record nothing_said { drift = Some 10 })
        ∷ Ok (record nothing_said { look_ahead = Some 0 }) ∷ [] }
    ensures bad_numbers { after_each nothing_said (codes "look-ahead 101" ∷ codes "skew 11" ∷ codes "range 1001"
        ∷ codes "drift 11" ∷ codes "skew x" ∷ codes "skew -1" ∷ codes "skew +1" ∷ [])
        ≡ replicate 7 (Err LineFault.BadNumber) }
    ensures key_and_life { after_each nothing_said (codes "key-file k" ∷ (codes "key " ++ zeros 32)
        ∷ codes "life a#b" ∷ []) ≡ Ok (record nothing_said { key = Some (InFile (codes "k")) })
        ∷ Ok (record nothing_said { key = Some (Given (replicate 16 0)) })
        ∷ Ok (record nothing_said { life = Some (codes "a#b") }) ∷ [] }
    ensures bad_key_and_life { after_each nothing_said (codes "key 00" ∷ (codes "life " ++ word_of 65) ∷ [])
        ≡ Err LineFault.BadKey ∷ Err LineFault.BadLife ∷ [] }
    ensures names_and_new_tokens { after_each nothing_said ((codes "names " ++ word_of 12)
        ∷ codes "new-tokens fresh" ∷ [])
        ≡ Ok (record nothing_said { names = Some (word_of 12) }) ∷ Ok (record nothing_said { fresh = true }) ∷ [] }
    ensures bad_names_and_new_tokens { after_each nothing_said ((codes "names " ++ word_of 11)
        ∷ (codes "names " ++ word_of 65) ∷ codes "new-tokens old" ∷ [])
        ≡ Err LineFault.BadNames ∷ Err LineFault.BadNames ∷ Err LineFault.BadNewTokens ∷ [] }
    ensures twice { after_each all_given (codes "look-ahead 101" ∷ codes "skew 1" ∷ codes "range 1" ∷ codes "drift 1"
        ∷ codes "key-file k" ∷ codes "key 00" ∷ (codes "life " ++ word_of 65) ∷ (codes "names " ++ word_of 11)
        ∷ codes "new-tokens old" ∷ []) ≡ replicate 9 (Err LineFault.Twice) }
    ensures unknown { after_each nothing_said (codes "members 1 192.0.2.1:7101" ∷ codes "x" ∷ [])
        ≡ replicate 2 (Err LineFault.UnknownWord) }
    ensures missing { after_each all_given (codes "member" ∷ codes "member 1" ∷ codes "look-ahead" ∷ codes "skew"
        ∷ codes "range" ∷ codes "drift" ∷ codes "key-file" ∷ codes "key" ∷ codes "life" ∷ codes "names"
        ∷ codes "new-tokens" ∷ []) ≡ replicate 11 (Err LineFault.MissingField) }
    ensures surplus { after_each all_given (codes "member x host #" ∷ codes "look-ahead x #" ∷ codes "skew 1 2"
        ∷ codes "range 1 2" ∷ codes "drift 1 2" ∷ codes "key-file a b" ∷ codes "key 0 0" ∷ codes "life a b"
        ∷ codes "names a b" ∷ codes "new-tokens a b" ∷ []) ≡ replicate 10 (Err LineFault.SurplusField) }
{}

/// Worked cases. Cluster files.
pub fn files_are_worked()
    ensures small { cluster_of (text_of small_file) ≡ Ok small_cluster }
    ensures no_last_end { cluster_of (codes "life a" ++ 10 ∷ codes "key-file /etc/k" ++ 13 ∷ 10 ∷
        codes "member 1 192.0.2.1:7101") ≡ Ok small_cluster }
    ensures three { cluster_of (text_of three_file) ≡ Ok three_cluster }
    ensures empty { map cluster_of ([] ∷ (10 ∷ []) ∷ codes "life a" ∷ [])
        ≡ Err (1, LineFault.NoMember) ∷ Err (2, LineFault.NoMember) ∷ Err (1, LineFault.NoMember) ∷ [] }
    ensures no_member { cluster_of (text_of (codes "key-file k" ∷ codes "life a" ∷ [])) ≡ Err (3, LineFault.NoMember) }
    ensures no_key { cluster_of (text_of (codes "member 1 192.0.2.1:7101" ∷ [])) ≡ Err (2, LineFault.NoKey) }
    ensures no_life { cluster_of (text_of (codes "member 1 192.0.2.1:7101" ∷ codes "key-file k" ∷ []))
        ≡ Err (3, LineFault.NoLife) }
    ensures first_fault { cluster_of (text_of (codes "#" ∷ codes "skew 1" ∷ codes "skew 1" ∷ codes "x" ∷ []))
        ≡ Err (3, LineFault.Twice) }
    ensures two_keys { cluster_of (text_of ((codes "key " ++ zeros 32) ∷ codes "key-file k" ∷ []))
        ≡ Err (2, LineFault.Twice) }
    ensures as_long_as_may_be { outcome_of 47 (text_of small_file) ≡ Ok small_cluster }
    ensures too_long { map (λ limit. outcome_of limit (text_of small_file)) (46 ∷ 40 ∷ 39 ∷ 23 ∷ 0 ∷ [])
        ≡ Err (3, LineFault.TooLong) ∷ Err (3, LineFault.TooLong) ∷ Err (2, LineFault.TooLong)
        ∷ Err (1, LineFault.TooLong) ∷ Err (1, LineFault.TooLong) ∷ [] }
    ensures named { cluster_of (text_of named_file) ≡ Ok (record small_cluster { names = Some salt; fresh = true }) }
    ensures names_alone { cluster_of (text_of (small_file ++ (codes "names " ++ salt) ∷ []))
        ≡ Ok (record small_cluster { names = Some salt }) }
    ensures no_names { cluster_of (text_of nameless_file) ≡ Err (5, LineFault.NoNames) }
    ensures no_life_before_no_names { cluster_of (text_of (codes "new-tokens fresh" ∷ codes "member 1 192.0.2.1:7101"
        ∷ codes "key-file k" ∷ [])) ≡ Err (4, LineFault.NoLife) }
    ensures bad_names { cluster_of (text_of (codes "names short" ∷ small_file)) ≡ Err (1, LineFault.BadNames) }
    ensures faults { map is_memory faults ≡ replicate 18 false ++ true ∷ [] }
{}

/// Worked cases. A shared text, its key and its fingerprint.
pub fn keys_are_worked()
    ensures text { shared_text three_shared ≡ text_of (codes "wakdulg 1" ∷ codes "life 2026-11a"
        ∷ codes "member 1 192.0.2.1:7101" ∷ codes "member 2 192.0.2.2:7101" ∷ codes "member 3 192.0.2.3:7101"
        ∷ codes "look-ahead 10" ∷ codes "skew 2" ∷ codes "range 100" ∷ codes "drift 0"
        ∷ (codes "HOTP/E/6" ++ 9 ∷ codes "a" ++ 9 ∷ codes "-" ++ 9 ∷ codes "31" ++ 9 ∷ codes "0")
        ∷ (codes "HOTP/T60/6" ++ 9 ∷ codes "u" ++ 9 ∷ codes "-" ++ 9 ∷ codes "31") ∷ []) }
    ensures key { shared_key_of key_of_32 three_shared ≡ three_key }
    ensures fingerprint { fingerprint_of three_key ≡ codes "b1061f3a2d61dfbd" }
    ensures named_text { shared_text (shared_of three_named two_tokens) ≡ text_of (codes "wakdulg 2"
        ∷ codes "names names-of-site-1" ∷ codes "life 2026-11a" ∷ codes "member 1 192.0.2.1:7101"
        ∷ codes "member 2 192.0.2.2:7101" ∷ codes "member 3 192.0.2.3:7101" ∷ codes "look-ahead 10" ∷ codes "skew 2"
        ∷ codes "range 100" ∷ codes "drift 0" ∷ []) }
    ensures all_rows { shared_of (record three_named { names = None }) two_tokens ≡ three_shared }
    ensures any_book { (book : List Credential) → shared_of three_named book ≡ shared_of three_named [] }
    ensures fresh_is_not_shared { (cluster : ClusterRecord) (book : List Credential) →
        shared_of (record cluster { fresh = true }) book ≡ shared_of (record cluster { fresh = false }) book }
    ensures named_key { shared_key_of key_of_32 (shared_of three_named two_tokens) ≡ named_key }
    ensures named_fingerprint { fingerprint_of named_key ≡ codes "d30fb1a6e97b9a96" }
{}

/// Order: the MACs of a text are those that are given, in the ascending order of their bytes.
pub fn macs_are_in_order()
    ensures same { (macs : List (List ℕ)) → IsPermutation macs (in_order macs) }
    ensures sorted { (macs : List (List ℕ)) → IsSorted (slice_cmp nat_cmp) (in_order macs) }
{}

/// One print: books with the same rows in another order have the same print.
pub fn book_prints_agree()
    ensures { (key : List ℕ) (a b : List Credential) → IsPermutation a b → book_print_of key a ≡ book_print_of key b }
{}

/// Different prints: books with equal prints have the same rows in some order. Otherwise two of their rows have the
/// same MAC, or the texts of their MACs have the same print.
pub fn book_prints_tell()
    ensures { (key : List ℕ) (a b : List Credential) → AllByRecursion IsCredential a → AllByRecursion IsCredential b →
        book_print_of key a ≡ book_print_of key b →
        IsPermutation a b ⊎ (RowsCollide key a b ⊎ PrintsCollide key (rows_text key a) (rows_text key b)) }
{}

/// Worked cases. MACs in order, and the print of two rows in either order.
pub fn prints_are_worked()
    ensures order { in_order ((2 ∷ 1 ∷ []) ∷ (1 ∷ 9 ∷ []) ∷ (2 ∷ 0 ∷ []) ∷ (1 ∷ 9 ∷ []) ∷ [])
        ≡ (1 ∷ 9 ∷ []) ∷ (1 ∷ 9 ∷ []) ∷ (2 ∷ 0 ∷ []) ∷ (2 ∷ 1 ∷ []) ∷ [] }
    ensures falling { IsSorted (slice_cmp nat_cmp) ((2 ∷ []) ∷ (1 ∷ []) ∷ []) → ⊥ }
    ensures another { IsPermutation {X = List ℕ} ((1 ∷ []) ∷ (2 ∷ []) ∷ []) ((1 ∷ []) ∷ (1 ∷ []) ∷ []) → ⊥ }
    ensures text { macs_text ((1 ∷ 9 ∷ []) ∷ (2 ∷ 0 ∷ []) ∷ []) ≡ codes "book" ++ 1 ∷ 9 ∷ 2 ∷ 0 ∷ [] }
    ensures no_rows { book_print_of named_key [] ≡ codes "94012bc68c053927" }
    ensures rows { book_print_of named_key two_tokens ≡ codes "d60705cd526c6467" }
    ensures turned { book_print_of named_key two_turned ≡ codes "d60705cd526c6467" }
{}

/// Counterexamples: each promise of addresses, shared values and collisions fails for a minimal one.
///
/// No collision is known, so no example keeps the promise of one.
pub fn shared_values_can_be_broken()
    ensures address { IsAddress (address_at 255) }
    ensures no_octets { IsAddress (record { octets = []; port = 0 }) → ⊥ }
    ensures octet_of_256 { IsAddress (record { octets = 256 ∷ 0 ∷ 0 ∷ 0 ∷ []; port = 0 }) → ⊥ }
    ensures port_of_65536 { (last : ℕ) → last < 2 ^ 8
        → IsAddress (record { octets = 0 ∷ 0 ∷ 0 ∷ last ∷ []; port = 65536 }) → ⊥ }

    ensures shared { IsShared least_shared × IsShared three_shared × IsShared (shared_of three_named two_tokens) }
    ensures salt_of_a_byte { IsShared (record least_shared { names = Some (codes "a") }) → ⊥ }
    ensures life_of_two_words { IsShared (record least_shared { life = codes "a b" }) → ⊥ }
    ensures member_of_no_octets { IsShared (record least_shared {
      members = record { octets = []; port = 0 } ∷ [];
    }) → ⊥ }
    ensures look_ahead_of_101 { IsShared (record least_shared {
      settings = record { look_ahead = 101; skew = 0; range = 0; drift = 0 };
    }) → ⊥ }
    ensures user_of_two_words { IsShared (record least_shared { book = event_token (codes "a b") ∷ [] }) → ⊥ }

    ensures one_text { IsCollision [] [] [] → ⊥ }
    ensures two_macs { IsCollision [] [] (0 ∷ []) → ⊥ }

    ensures one_row { RowsCollide [] (event_token (codes "a") ∷ []) (event_token (codes "a") ∷ []) → ⊥ }
    ensures other_rows { RowsCollide named_key (event_token (codes "a") ∷ []) (time_token Time60 ∷ []) → ⊥ }
    ensures row_of_no_book { RowsCollide [] [] (event_token (codes "a") ∷ []) → ⊥ }
    ensures row_of_no_other_book { RowsCollide [] (event_token (codes "a") ∷ []) [] → ⊥ }
    ensures one_printed_text { PrintsCollide [] [] [] → ⊥ }
    ensures two_prints { PrintsCollide [] [] (0 ∷ []) → ⊥ }
{}

/// Worked cases. The printed text of a check.
pub fn checks_are_worked()
    ensures kinds { map (λ kind. map (is_kind kind) (Event ∷ Time30 ∷ Time60 ∷ [])) (Event ∷ Time30 ∷ Time60 ∷ [])
        ≡ (true ∷ false ∷ false ∷ []) ∷ (false ∷ true ∷ false ∷ []) ∷ (false ∷ false ∷ true ∷ []) ∷ [] }
    ensures summary { summary_text three_shared (codes "b1061f3a2d61dfbd") ≡ text_of (codes "life 2026-11a"
        ∷ codes "member 1 192.0.2.1:7101" ∷ codes "member 2 192.0.2.2:7101" ∷ codes "member 3 192.0.2.3:7101"
        ∷ codes "look-ahead 10" ∷ codes "skew 2" ∷ codes "range 100" ∷ codes "drift 0" ∷ codes "tokens HOTP/E 1"
        ∷ codes "tokens HOTP/T30 0" ∷ codes "tokens HOTP/T60 1" ∷ codes "fingerprint b1061f3a2d61dfbd" ∷ []) }
    ensures check { check_text key_of_32 three_shared ≡ summary_text three_shared (codes "b1061f3a2d61dfbd") }
    ensures without_names { (cluster : ClusterRecord) (book : List Credential) (fingerprint print : List ℕ) →
        cluster.names ≡ None →
        named_summary_text cluster book fingerprint print ≡ summary_text (shared_of cluster book) fingerprint }
    ensures shared_with_names { summary_text (shared_of three_named two_tokens) (codes "d30fb1a6e97b9a96")
        ≡ text_of (codes "life 2026-11a" ∷ codes "names names-of-site-1" ∷ codes "member 1 192.0.2.1:7101"
        ∷ codes "member 2 192.0.2.2:7101" ∷ codes "member 3 192.0.2.3:7101" ∷ codes "look-ahead 10" ∷ codes "skew 2"
        ∷ codes "range 100" ∷ codes "drift 0" ∷ codes "fingerprint d30fb1a6e97b9a96" ∷ []) }
    ensures named { named_check_text key_of_32 three_named two_tokens ≡ text_of (codes "life 2026-11a"
        ∷ codes "names names-of-site-1" ∷ codes "member 1 192.0.2.1:7101" ∷ codes "member 2 192.0.2.2:7101"
        ∷ codes "member 3 192.0.2.3:7101" ∷ codes "look-ahead 10" ∷ codes "skew 2" ∷ codes "range 100"
        ∷ codes "drift 0" ∷ codes "tokens HOTP/E 1" ∷ codes "tokens HOTP/T30 0" ∷ codes "tokens HOTP/T60 1"
        ∷ codes "rows 2" ∷ codes "fingerprint d30fb1a6e97b9a96" ∷ codes "book d60705cd526c6467" ∷ []) }
{}
