ghost use Rattle.std.specs.Prelude.{◌≡◌, ◌++◌, ◌∷◌, [], List, ℕ, codes, length, map, replicate, true, false, Some, None, Ok, Err};
ghost use Rattle.std.specs.List.{range_with_len};
ghost use Rattle.field_text.specs.Number.{number_of};
ghost use Rattle.sealed_wire.specs.Key.{IsClientKey, tag_of};
ghost use Rattle.sealed_wire.specs.declared.right.Right.TheVariants.{Operator, Reader};
ghost use Rattle.clients_file.specs.Address.{is_loopback, loopback_of, octets_of};
ghost use Rattle.clients_file.specs.Clients.{AreClients, AreTwo, IsLoopback};
ghost use Rattle.clients_file.specs.ClientsFile.{ClientsRecord, clients_of, is_memory, outcome_of};
ghost use Rattle.clients_file.specs.Examples.{after_each, after_text, client_at, client_line, faults, key_at, key_text, local_at, operator_at, operator_line, operators_clients, operators_file, small_clients, small_file, text_of, whole_clients, whole_file, with_ahead, with_clients, with_failures, with_operators, with_plain, zeros};
ghost use Rattle.clients_file.specs.Fields.{key_of, number_within, word_of};
ghost use Rattle.clients_file.specs.Said.{block_of, has_block, has_number, has_operator, nothing_said, operators_have};
ghost use Rattle.clients_file.specs.declared.fault.LineFault.{LineFault};
ghost use Rattle.clients_file.specs.declared.word.Word.{Word};

/// Apart: a clients file that is read gives no two of its clients and operators the same number or the same key.
///
/// All its plain addresses are in 127.0.0.0/8, and all its counts are in their ranges.
pub fn files_have_clients()
    ensures { (text : List ℕ) (clients : ClientsRecord) → clients_of text ≡ Ok clients → AreClients clients }
{}

/// Same tags: keys with the same block have the same tag of each text. So two clients with such keys could answer for
/// each other.
pub fn same_blocks_have_same_tags()
    ensures { (key other text : List ℕ) → IsClientKey key → IsClientKey other → block_of key ≡ block_of other →
        tag_of key text ≡ tag_of other text }
{}

/// Worked cases. The fields of lines.
pub fn fields_are_worked()
    ensures words { map word_of (codes "client" ∷ codes "plain" ∷ codes "ahead" ∷ codes "failures" ∷ [])
        ≡ Some Word.Client ∷ Some Word.Plain ∷ Some Word.Ahead ∷ Some Word.Failures ∷ [] }
    ensures words_of_operators { map word_of (codes "operator" ∷ codes "reader" ∷ [])
        ≡ Some Word.Operator ∷ Some Word.Reader ∷ [] }
    ensures no_words { map word_of (codes "clients" ∷ codes "Client" ∷ codes "plai" ∷ codes "operators" ∷ [] ∷ [])
        ≡ replicate 5 None }
    ensures numbers { map (λ text. number_within 1 60 (number_of text)) (codes "1" ∷ codes "060" ∷ codes "0"
        ∷ codes "61" ∷ codes "-1" ∷ [] ∷ []) ≡ Ok 1 ∷ Ok 60 ∷ replicate 4 (Err LineFault.BadNumber) }
    ensures addresses { map octets_of (codes "127.0.0.1" ∷ codes "192.0.2.255" ∷ [])
        ≡ Some (127 ∷ 0 ∷ 0 ∷ 1 ∷ []) ∷ Some (192 ∷ 0 ∷ 2 ∷ 255 ∷ []) ∷ [] }
    ensures no_addresses { map octets_of (codes "127.0.0.1:7101" ∷ codes "127.0.0" ∷ codes "127.0.0.01"
        ∷ codes "127.0.0.256" ∷ codes "localhost" ∷ codes "::1" ∷ [] ∷ []) ≡ replicate 7 None }
    ensures loopback { map (λ text. loopback_of (octets_of text)) (codes "127.0.0.1" ∷ codes "127.255.255.255"
        ∷ codes "126.255.255.255" ∷ codes "128.0.0.0" ∷ codes "localhost" ∷ [])
        ≡ Ok 2130706433 ∷ Ok 2147483647 ∷ Err LineFault.NotLoopback ∷ Err LineFault.NotLoopback
        ∷ Err LineFault.BadAddress ∷ [] }
    ensures keys { map key_of (zeros 32 ∷ zeros 30 ∷ zeros 33 ∷ zeros 128 ∷ zeros 130 ∷ codes "zz" ∷ [])
        ≡ Ok (replicate 16 0) ∷ Err LineFault.BadKey ∷ Err LineFault.BadKey ∷ Ok (replicate 64 0)
        ∷ Err LineFault.BadKey ∷ Err LineFault.BadKey ∷ [] }
    // a key that is followed by zeros is the same key
    ensures blocks { map (λ key. has_block (block_of key) (client_at 1 ∷ client_at 2 ∷ []))
        (key_at 1 ∷ key_at 2 ∷ (key_at 2 ++ 0 ∷ []) ∷ key_at 3 ∷ (key_at 2 ++ 1 ∷ []) ∷ [])
        ≡ true ∷ true ∷ true ∷ false ∷ false ∷ [] }
    ensures used { map (λ number. has_number number (client_at 1 ∷ client_at 2 ∷ [])) (1 ∷ 2 ∷ 3 ∷ [])
        ≡ true ∷ true ∷ false ∷ [] }
    ensures used_by_operators { map (λ number. has_operator number (operator_at Operator 1 ∷ operator_at Reader 2 ∷ []))
        (1 ∷ 2 ∷ 3 ∷ []) ≡ true ∷ true ∷ false ∷ [] }
    ensures blocks_of_operators { map (λ key. operators_have (block_of key)
        (operator_at Operator 1 ∷ operator_at Reader 2 ∷ [])) (key_at 1 ∷ (key_at 2 ++ 0 ∷ []) ∷ key_at 3 ∷ [])
        ≡ true ∷ true ∷ false ∷ [] }
{}

/// Worked cases. Lines of a clients file.
pub fn lines_are_worked()
    ensures passed_over { after_each nothing_said ([] ∷ codes "  " ∷ codes "# client" ∷ codes " #client" ∷ [])
        ≡ replicate 4 (Ok nothing_said) }
    ensures clients { after_each (with_clients (7 ∷ [])) (client_line (codes "8") (codes "08")
        ∷ (codes " " ++ client_line (codes " 8 ") (codes "08 ")) ∷ client_line (codes "008") (codes "08") ∷ [])
        ≡ replicate 3 (Ok (with_clients (7 ∷ 8 ∷ []))) }
    ensures numbers { after_each nothing_said (client_line (codes "0") (codes "00")
        ∷ client_line (codes "65535") (codes "00") ∷ [])
        ≡ Ok (record nothing_said { clients = record { number = 0; key = key_at 0 } ∷ [] })
        ∷ Ok (record nothing_said { clients = record { number = 65535; key = key_at 0 } ∷ [] }) ∷ [] }
    ensures bad_numbers { after_each nothing_said (codes "client 65536 x" ∷ codes "client x x"
        ∷ codes "client -1 x" ∷ []) ≡ replicate 3 (Err LineFault.BadNumber) }
    ensures twice_number { after_text (with_clients (7 ∷ 8 ∷ [])) (codes "client 7 x") ≡ Err LineFault.Twice }
    ensures bad_keys { after_each (with_clients (7 ∷ [])) (codes "client 8 00" ∷ codes "client 8 x" ∷ [])
        ≡ replicate 2 (Err LineFault.BadKey) }
    ensures same_key { after_each (with_clients (7 ∷ 8 ∷ [])) (client_line (codes "9") (codes "07")
        ∷ client_line (codes "9") (codes "0700") ∷ []) ≡ replicate 2 (Err LineFault.SameKey) }
    ensures last_client { after_text (with_clients (range_with_len 0 63)) (client_line (codes "63") (codes "3f"))
        ≡ Ok (with_clients (range_with_len 0 64)) }
    ensures too_many_clients { after_each (with_clients (range_with_len 0 64)) (client_line (codes "64") (codes "40")
        ∷ client_line (codes "64") (codes "3f") ∷ codes "client 63 x" ∷ [])
        ≡ Err LineFault.TooMany ∷ Err LineFault.SameKey ∷ Err LineFault.Twice ∷ [] }
    ensures operator { after_text (with_operators (7 ∷ []) (8 ∷ []))
        (operator_line (codes "operator") (codes "9") (codes "09")) ≡ Ok (with_operators (7 ∷ []) (8 ∷ 9 ∷ [])) }
    ensures reader { after_text (with_clients (7 ∷ [])) (operator_line (codes "reader") (codes "9") (codes "09"))
        ≡ Ok (record (with_clients (7 ∷ [])) { operators = operator_at Reader 9 ∷ [] }) }
    ensures client_after_operators { after_text (with_operators (7 ∷ []) (8 ∷ []))
        (client_line (codes "9") (codes "09")) ≡ Ok (with_operators (7 ∷ 9 ∷ []) (8 ∷ [])) }
    ensures numbers_of_operators { after_each (with_operators (7 ∷ []) (8 ∷ [])) (codes "operator 7 x"
        ∷ codes "operator 8 x" ∷ codes "reader 8 x" ∷ codes "client 8 x" ∷ []) ≡ replicate 4 (Err LineFault.Twice) }
    ensures keys_of_operators { after_each (with_operators (7 ∷ []) (8 ∷ []))
        (operator_line (codes "operator") (codes "9") (codes "07")
        ∷ operator_line (codes "reader") (codes "9") (codes "0800") ∷ client_line (codes "9") (codes "08") ∷ [])
        ≡ replicate 3 (Err LineFault.SameKey) }
    ensures last_operator { after_text (with_operators (range_with_len 0 62) (62 ∷ []))
        (operator_line (codes "operator") (codes "63") (codes "3f"))
        ≡ Ok (with_operators (range_with_len 0 62) (62 ∷ 63 ∷ [])) }
    ensures too_many_operators { after_each (with_operators (range_with_len 0 62) (62 ∷ 63 ∷ []))
        (operator_line (codes "operator") (codes "64") (codes "40") ∷ client_line (codes "64") (codes "40") ∷ [])
        ≡ replicate 2 (Err LineFault.TooMany) }
    ensures bad_operators { after_each nothing_said (codes "operator 65536 x" ∷ codes "reader 9 00" ∷ codes "operator 9"
        ∷ codes "reader 9 x #" ∷ []) ≡ Err LineFault.BadNumber ∷ Err LineFault.BadKey ∷ Err LineFault.MissingField
        ∷ Err LineFault.SurplusField ∷ [] }
    ensures plain { after_each (with_plain (1 ∷ [])) (codes "plain 127.0.0.2" ∷ codes "plain 127.0.0.1" ∷ [])
        ≡ Ok (with_plain (1 ∷ 2 ∷ [])) ∷ Ok (with_plain (1 ∷ 1 ∷ [])) ∷ [] }
    ensures bad_addresses { after_each nothing_said (codes "plain localhost" ∷ codes "plain 127.0.0.1:7101"
        ∷ codes "plain 192.0.2.1" ∷ [])
        ≡ Err LineFault.BadAddress ∷ Err LineFault.BadAddress ∷ Err LineFault.NotLoopback ∷ [] }
    ensures last_plain { after_text (with_plain (range_with_len 0 15)) (codes "plain 127.0.0.15")
        ≡ Ok (with_plain (range_with_len 0 16)) }
    ensures too_many_plain { after_each (with_plain (range_with_len 0 16)) (codes "plain 127.0.0.16"
        ∷ codes "plain 10.0.0.1" ∷ []) ≡ Err LineFault.TooMany ∷ Err LineFault.NotLoopback ∷ [] }
    ensures ahead { after_each nothing_said (codes "ahead 1" ∷ codes "ahead 60" ∷ [])
        ≡ Ok (with_ahead 1) ∷ Ok (with_ahead 60) ∷ [] }
    ensures bad_ahead { after_each (with_ahead 2) (codes "ahead 0" ∷ codes "ahead 61" ∷ codes "ahead x" ∷ [])
        ≡ replicate 3 (Err LineFault.BadNumber) }
    ensures twice_ahead { after_text (with_ahead 2) (codes "ahead 2") ≡ Err LineFault.Twice }
    ensures failures { after_each (with_ahead 2) (codes "failures 1" ∷ codes "failures 65535" ∷ [])
        ≡ Ok (record (with_ahead 2) { failures = Some 1 }) ∷ Ok (record (with_ahead 2) { failures = Some 65535 }) ∷ [] }
    ensures bad_failures { after_each (with_failures 2) (codes "failures 0" ∷ codes "failures 65536"
        ∷ codes "failures x" ∷ []) ≡ replicate 3 (Err LineFault.BadNumber) }
    ensures twice_failures { after_text (with_failures 2) (codes "failures 2") ≡ Err LineFault.Twice }
    ensures unknown { after_each nothing_said (codes "clients" ∷ codes "operators 900 x" ∷ codes "x #" ∷ [])
        ≡ replicate 3 (Err LineFault.UnknownWord) }
    ensures missing { after_each (with_ahead 2) (codes "client" ∷ codes "client x" ∷ codes "plain" ∷ codes "ahead"
        ∷ codes "failures" ∷ [])
        ≡ replicate 5 (Err LineFault.MissingField) }
    ensures surplus { after_each (with_ahead 2) (codes "client x y #" ∷ codes "plain x #" ∷ codes "ahead x #"
        ∷ codes "failures x #" ∷ []) ≡ replicate 4 (Err LineFault.SurplusField) }
{}

/// Worked cases. Clients files.
pub fn files_are_worked()
    ensures small { clients_of (text_of small_file) ≡ Ok small_clients }
    ensures whole { clients_of (text_of whole_file) ≡ Ok whole_clients }
    ensures no_last_end { clients_of (codes "plain 127.0.0.1" ++ 13 ∷ 10 ∷ codes "ahead 60")
        ≡ Ok (record { clients = []; operators = []; plain = local_at 1 ∷ []; ahead = 60; failures = None }) }
    ensures with_operators { clients_of (text_of operators_file) ≡ Ok operators_clients }
    ensures operators_alone { clients_of (text_of (operator_line (codes "reader") (codes "9") (codes "09") ∷ []))
        ≡ Err (2, LineFault.NoClient) }
    ensures no_client { map clients_of ([] ∷ (10 ∷ []) ∷ codes "ahead 5" ∷ text_of (codes "# client" ∷ []) ∷ [])
        ≡ Err (1, LineFault.NoClient) ∷ Err (2, LineFault.NoClient) ∷ Err (1, LineFault.NoClient)
        ∷ Err (2, LineFault.NoClient) ∷ [] }
    ensures first_fault { clients_of (text_of (codes "#" ∷ codes "ahead 1" ∷ codes "ahead 1" ∷ codes "x" ∷ []))
        ≡ Err (3, LineFault.Twice) }
    ensures fault_before_the_end { clients_of (text_of (codes "x" ∷ small_file)) ≡ Err (1, LineFault.UnknownWord) }
    ensures as_long_as_may_be { outcome_of 42 (text_of small_file) ≡ Ok small_clients }
    ensures too_long { map (λ limit. outcome_of limit (text_of small_file ++ text_of small_file))
        (83 ∷ 42 ∷ 41 ∷ 0 ∷ []) ≡ Err (2, LineFault.TooLong) ∷ Err (2, LineFault.TooLong) ∷ Err (1, LineFault.TooLong)
        ∷ Err (1, LineFault.TooLong) ∷ [] }
    ensures faults { map is_memory faults ≡ replicate 12 false ++ true ∷ [] }
{}

/// Counterexamples: each promise of a clients file fails for a minimal one.
pub fn clients_can_be_broken()
    ensures clients { AreClients whole_clients }
    ensures nobody { AreClients (record whole_clients { clients = []; plain = [] }) → ⊥ }
    ensures with_operators { AreClients operators_clients }
    ensures sixty_five { (clients : ClientsRecord) → AreClients clients → length clients.clients ≡ 65 → ⊥ }
    ensures thirty_three_each { (clients : ClientsRecord) → AreClients clients → length clients.clients ≡ 33 →
        length clients.operators ≡ 33 → ⊥ }
    ensures same_operator { AreClients (record small_clients {
      operators = operator_at Operator 8 ∷ operator_at Reader 9 ∷ record (operator_at Reader 10) { number = 8 } ∷ [];
    }) → ⊥ }
    ensures operator_with_the_key { AreClients (record small_clients {
      operators = operator_at Operator 8 ∷ record (operator_at Reader 9) { key = key_at 8 } ∷ [];
    }) → ⊥ }
    ensures operator_and_client { AreClients (record small_clients {
      operators = operator_at Operator 8 ∷ record (operator_at Reader 9) { number = 7 } ∷ [];
    }) → ⊥ }
    ensures operator_with_a_clients_key { AreClients (record whole_clients {
      operators = operator_at Operator 9 ∷ record (operator_at Reader 10) { key = key_at 8 } ∷ [];
    }) → ⊥ }
    ensures same_number { AreClients (record whole_clients {
      clients = client_at 7 ∷ client_at 8 ∷ record { number = 7; key = key_at 9 } ∷ [];
    }) → ⊥ }
    ensures same_key { AreClients (record whole_clients {
      clients = client_at 7 ∷ client_at 8 ∷ record { number = 9; key = key_at 8 } ∷ [];
    }) → ⊥ }
    ensures same_block { AreTwo (client_at 8) (record { number = 9; key = key_at 8 ++ 0 ∷ [] }) → ⊥ }
    ensures seventeen_addresses { AreClients (record whole_clients { plain = replicate 17 (local_at 1) }) → ⊥ }
    ensures second_address { AreClients (record whole_clients { plain = local_at 1 ∷ 2147483648 ∷ [] }) → ⊥ }
    ensures loopback { IsLoopback 2147483647 }
    ensures below_loopback { IsLoopback 2130706431 → ⊥ }
    ensures no_seconds { AreClients (record whole_clients { ahead = 0 }) → ⊥ }
    ensures sixty_one_seconds { AreClients (record whole_clients { ahead = 61 }) → ⊥ }
    ensures no_failures { AreClients (record whole_clients { failures = Some 0 }) → ⊥ }
    ensures many_failures { AreClients (record whole_clients { failures = Some 65536 }) → ⊥ }
{}
