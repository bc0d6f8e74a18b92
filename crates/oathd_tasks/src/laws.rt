ghost use Rattle.std.specs.Prelude.{◌≡◌, [], ◌∷◌, ◌++◌, List, ℕ, None, Some, Option, Ok, codes, false, map, replicate, true};
ghost use Rattle.otp_core.specs.Limits.{default_limits, limits_of};
ghost use Rattle.secret_text.specs.declared.fault.SecretFault.TheVariants.{BadLength, Empty};
ghost use Rattle.token_file.specs.declared.fault.LineFault.TheVariants as users;
ghost use Rattle.cluster_file.specs.Examples.{small_cluster};
ghost use Rattle.cluster_file.specs.Said.{Given, InFile};
ghost use Rattle.cluster_file.specs.declared.fault.LineFault.TheVariants.{NoKey, NoMember as NoMembers};
ghost use Rattle.oathd_lines.specs.Examples.{fault_at, time_line};
ghost use Rattle.oathd_lines.specs.declared.fault.Fault.TheVariants.{BadKey, CannotRead, CannotWrite, InputLine, Memory, NotText, Users};
ghost use Rattle.oathd_cluster.specs.declared.fault.Fault.TheVariants as clusters;
ghost use Rattle.oathd_sim.specs.declared.fault.Fault.TheVariants as sims;
ghost use Rattle.oathd_words.specs.declared.store_words.Action.TheVariants.{Look};
ghost use Rattle.oathd_words.specs.declared.store_words.Look.TheVariants.{Export};
ghost use Rattle.oathd_words.specs.declared.store_words.Owner.TheVariants.{Any};
ghost use Rattle.oathd_words.specs.declared.words.Task.TheVariants as tasks;
ghost use Rattle.oathd_tasks.specs.Broken.{EndsGiven, EndsNamed, checked, clients_fault, done, ended_by, file_fault, found_at, given_nodes, given_row, keyed, keyed_cluster, keyed_text, marked, named_nodes, narrow_limits, no_path, nodes_with_key, one_token, run_ended_by, setup_of, shared_rows, small_text, told_sources, users_fault, usual_setup, word};
ghost use Rattle.shared_secrets.specs.Examples.{shared_by};
ghost use Rattle.clients_file.specs.declared.fault.LineFault.TheVariants.{NoClient, UnknownWord};
ghost use Rattle.oathd_tasks.specs.Advice.{advice_text, clients_advice, is_base32_in, line_at, row_advice, user_in};
ghost use Rattle.oathd_tasks.specs.Check.{CheckEndsSo, HasChecked, HasTokens, IsKeyIn, IsOfClusterFile, has_mark};
ghost use Rattle.oathd_tasks.specs.Clients.{IsOfClients, IsOfClientsFile};
ghost use Rattle.oathd_tasks.specs.File.{IsOfFile};
ghost use Rattle.oathd_tasks.specs.NewCluster.{NewClusterEndsSo, new_cluster_text};
ghost use Rattle.oathd_tasks.specs.NewKey.{NewKeyEndsSo};
ghost use Rattle.oathd_tasks.specs.Nodes.{ClusterEndsSo, EndsAsAsked, EndsWithSetup, InputEndsSo, IsKeyOf, IsOfKey, IsOfSetup, IsSetup, LinesEndSo, SecretEndsSo, SimEndsSo};
ghost use Rattle.oathd_tasks.specs.Notes.{AreNoted, IsSharedOf, notes_text, printed, rows_text, shown};
ghost use Rattle.oathd_tasks.specs.Tally.{form_of, no_rows, tally_of};
ghost use Rattle.oathd_tasks.specs.declared.tally.Form.TheVariants.{Holds, Ignored, InAnotherCase, Nothing};
ghost use Rattle.oathd_tasks.specs.declared.fault.Fault.TheVariants.{ByteOrderMark, CannotReadFile, Cluster, KeyPath, NoDatabases, NoMember, NoRandom, Run, Sim};

/// Counterexamples: each promise of a key, and of the reason why there is none, fails for a minimal one.
pub fn keys_can_be_broken()
    ensures key_of { IsKeyOf no_path (replicate 32 0) × IsKeyOf (Some (codes "k")) [] }
    ensures key_of_31_zeros { IsKeyOf no_path (replicate 31 0) → ⊥ }
    ensures key_in { IsKeyIn (Given (7 ∷ [])) (7 ∷ []) × IsKeyIn (InFile []) [] }
    ensures another_key_in { IsKeyIn (Given (7 ∷ [])) (8 ∷ []) → ⊥ }
    ensures of_key { IsOfKey (Run Memory) × IsOfKey (Run (BadKey Empty)) × IsOfKey (CannotReadFile (word []))
        × IsOfKey KeyPath }
    ensures of_key_by_a_run { (IsOfKey (Run CannotRead) → ⊥) × (IsOfKey (Run CannotWrite) → ⊥)
        × (IsOfKey (Run (Users (fault_at 1 users.MissingField))) → ⊥) × (IsOfKey (Run (InputLine 1)) → ⊥)
        × (IsOfKey (Run NotText) → ⊥) }
    ensures a_file { IsOfFile (Run Memory) × IsOfFile (CannotReadFile (word [])) }
    ensures a_file_by_a_key { (IsOfFile (Run (BadKey Empty)) → ⊥) × (IsOfFile KeyPath → ⊥) }
    ensures a_file_by_another { (IsOfFile (Run CannotRead) → ⊥) × (IsOfFile (Run CannotWrite) → ⊥)
        × (IsOfFile NoDatabases → ⊥) × (IsOfFile (file_fault 1 NoMembers) → ⊥) }
    ensures of_key_by_another { (IsOfKey (Sim sims.Memory) → ⊥) × (IsOfKey (Cluster clusters.Memory) → ⊥)
        × (IsOfKey NoDatabases → ⊥) × (IsOfKey (file_fault 1 NoMembers) → ⊥) × (IsOfKey (NoMember 1) → ⊥) }

    ensures of_file { IsOfClusterFile [] (Run Memory) × IsOfClusterFile [] (file_fault 1 NoMembers) }
    ensures of_file_at_another_line { IsOfClusterFile [] (file_fault 2 NoMembers) → ⊥ }
    ensures of_file_of_another_kind { IsOfClusterFile [] (file_fault 1 NoKey) → ⊥ }
    ensures of_file_by_a_run { (IsOfClusterFile [] (Run CannotRead) → ⊥) × (IsOfClusterFile [] (Run CannotWrite) → ⊥)
        × (IsOfClusterFile [] (Run (BadKey Empty)) → ⊥) }
    ensures of_file_by_another { (IsOfClusterFile [] (Sim sims.Memory) → ⊥)
        × (IsOfClusterFile [] (Cluster clusters.Memory) → ⊥) × (IsOfClusterFile [] (CannotReadFile (word [])) → ⊥)
        × (IsOfClusterFile [] NoDatabases → ⊥) × (IsOfClusterFile [] (NoMember 1) → ⊥)
        × (IsOfClusterFile [] KeyPath → ⊥) }

    ensures of_setup { IsOfSetup (given_nodes 2) [] KeyPath × IsOfSetup named_nodes [] KeyPath
        × IsOfSetup named_nodes [] (file_fault 1 NoMembers) }
    ensures of_setup_of_no_file { IsOfSetup (given_nodes 2) [] (file_fault 1 NoMembers) → ⊥ }
    ensures of_setup_at_another_line { IsOfSetup named_nodes [] (file_fault 2 NoMembers) → ⊥ }
    ensures of_setup_by_another { (IsOfSetup (given_nodes 2) [] NoDatabases → ⊥)
        × (IsOfSetup named_nodes [] NoDatabases → ⊥) }
{}

/// Counterexamples: the words or the cluster file determine the setup of nodes. Any other number in it is wrong.
pub fn setups_can_be_broken()
    ensures given { IsSetup (given_nodes 2) 5 [] usual_setup × IsSetup nodes_with_key 5 [] (keyed [] usual_setup) }
    ensures given_nodes { IsSetup (given_nodes 2) 5 [] (setup_of 3 default_limits 5) → ⊥ }
    ensures given_limits { IsSetup (given_nodes 2) 5 [] (setup_of 2 narrow_limits 5) → ⊥ }
    ensures given_moment { IsSetup (given_nodes 2) 5 [] (setup_of 2 default_limits 6) → ⊥ }
    ensures given_key { IsSetup (given_nodes 2) 5 [] (keyed [] usual_setup) → ⊥ }
    ensures named { IsSetup named_nodes 5 small_text (keyed [] (setup_of 1 default_limits 5))
        × IsSetup named_nodes 5 keyed_text (keyed (replicate 16 0) (setup_of 1 default_limits 5)) }
    ensures named_text { IsSetup named_nodes 5 [] (setup_of 1 default_limits 5) → ⊥ }
    ensures named_nodes { IsSetup named_nodes 5 small_text (setup_of 2 default_limits 5) → ⊥ }
    ensures named_limits { IsSetup named_nodes 5 small_text (setup_of 1 narrow_limits 5) → ⊥ }
    ensures named_moment { IsSetup named_nodes 5 small_text (setup_of 1 default_limits 6) → ⊥ }
    ensures named_key { IsSetup named_nodes 5 keyed_text (setup_of 1 default_limits 5) → ⊥ }

    // a command ends as its setup demands, or with a fault of the setup
    ensures ends { EndsGiven (λ setup. setup ≡ usual_setup) done [] }
    ensures ends_with_another { EndsGiven (λ setup. setup ≡ setup_of 3 default_limits 5) done [] → ⊥ }
    ensures ends_with_none { EndsGiven (λ setup. ⊥) done [] → ⊥ }
    ensures ends_by_a_fault { EndsGiven (λ setup. ⊥) (ended_by KeyPath) [] }
    ensures ends_by_another { EndsGiven (λ setup. ⊥) (ended_by NoDatabases) [] → ⊥ }
    ensures ends_by_a_fault_and_writes { EndsGiven (λ setup. ⊥) (ended_by KeyPath) (codes "x") → ⊥ }
    ensures ends_named { EndsNamed [] (λ setup. ⊥) (ended_by (file_fault 1 NoMembers)) [] }
    ensures ends_named_at_another_line { EndsNamed [] (λ setup. ⊥) (ended_by (file_fault 2 NoMembers)) [] → ⊥ }
{}

/// Counterexamples: each promise of what a check reads and writes fails for a minimal one.
pub fn checks_can_be_broken()
    ensures tokens { HasTokens default_limits [] [] × HasTokens default_limits one_token (codes "HOTP a - 31") }
    ensures tokens_of_nothing { HasTokens default_limits one_token [] → ⊥ }
    ensures tokens_left_out { HasTokens default_limits [] (codes "HOTP a - 31") → ⊥ }
    ensures has_checked { HasChecked [] small_cluster (Some []) (Some []) (Some (checked [])) }
    ensures has_checked_tokens { HasChecked [] small_cluster (Some []) (Some []) (Some (checked one_token)) → ⊥ }
    ensures has_checked_written { HasChecked [] small_cluster None (Some []) (Some []) → ⊥ }
    ensures checks { CheckEndsSo small_text None done (Some []) (Some (checked one_token)) }
    ensures checks_no_file { CheckEndsSo [] None done (Some []) (Some (checked one_token)) → ⊥ }
    ensures checks_under_the_key { (old new : Option (List ℕ)) → CheckEndsSo keyed_text None done old new
        → HasChecked (replicate 16 0) keyed_cluster None old new }
    ensures checks_and_cannot_write { CheckEndsSo [] None (run_ended_by CannotWrite) (Some []) (Some (codes "x")) }
    ensures checks_a_bad_file { CheckEndsSo [] None (ended_by (file_fault 1 NoMembers)) (Some []) (Some []) }
    ensures checks_another_line { CheckEndsSo [] None (ended_by (file_fault 2 NoMembers))
        (Some []) (Some []) → ⊥ }
    ensures checks_another_kind { CheckEndsSo [] None (ended_by (file_fault 1 NoKey))
        (Some []) (Some []) → ⊥ }
    ensures checks_a_bad_file_and_writes { CheckEndsSo [] None (ended_by (file_fault 1 NoMembers)) (Some [])
        (Some (codes "x")) → ⊥ }
    ensures checks_bad_users { CheckEndsSo small_text None (run_ended_by (Users (fault_at 1 users.MissingField)))
        (Some []) (Some []) }
    ensures checks_bad_users_and_writes { CheckEndsSo small_text None
        (run_ended_by (Users (fault_at 1 users.MissingField))) (Some []) (Some (codes "x")) → ⊥ }
    ensures checks_no_key_and_writes { CheckEndsSo small_text None (ended_by KeyPath)
        (Some []) (Some (codes "x")) → ⊥ }
    ensures marks { map has_mark (marked ∷ (239 ∷ 187 ∷ 191 ∷ []) ∷ (239 ∷ 187 ∷ []) ∷ [] ∷ codes "HOTP" ∷ [])
        ≡ true ∷ true ∷ false ∷ false ∷ false ∷ [] }
    ensures checks_marked_users { CheckEndsSo small_text (Some marked) (ended_by ByteOrderMark) (Some []) (Some []) }
    ensures checks_users_as_marked { CheckEndsSo small_text (Some []) (ended_by ByteOrderMark)
        (Some []) (Some []) → ⊥ }
    ensures checks_marked_users_and_writes { CheckEndsSo small_text (Some marked) (ended_by ByteOrderMark)
        (Some []) (Some (codes "x")) → ⊥ }
    ensures checks_past_a_mark { (old new : Option (List ℕ)) → CheckEndsSo small_text (Some marked) done old new → ⊥ }
{}

/// Worked cases. The rows of a users file, and what is noted of them and of the number of members.
pub fn notes_are_worked()
    ensures forms { map form_of (codes "HOTP" ∷ codes "HOTP/T60/8" ∷ codes "#" ∷ codes "#HOTP" ∷ codes "hotp"
        ∷ codes "Hotp/t30" ∷ codes "TOTP" ∷ codes "HOTP/T31" ∷ [] ∷ [])
        ≡ Holds ∷ Holds ∷ Nothing ∷ Nothing ∷ InAnotherCase ∷ InAnotherCase ∷ Ignored ∷ Ignored ∷ Ignored ∷ [] }
    ensures tally { tally_of (codes "# a\n\nHOTP a - 00\nTOTP b\nhotp c\nhotp/t30 d\nx") ≡ record {
      has_token = true;
      ignored = 4;
      first = found_at 4 (codes "TOTP");
      in_another_case = found_at 5 (codes "hotp");
    } }
    ensures tally_of_nothing { map tally_of ([] ∷ codes "# HOTP a - 00\n" ∷ []) ≡ no_rows ∷ no_rows ∷ [] }
    ensures bytes { map printed (32 ∷ 33 ∷ 126 ∷ 127 ∷ 200 ∷ []) ≡ 63 ∷ 33 ∷ 126 ∷ 63 ∷ 63 ∷ [] }
    ensures long_word { shown (replicate 65 97) ≡ replicate 64 97 }
    ensures rows { rows_text (codes "u") (tally_of (codes "x\nTotp b"))
        ≡ codes "oathd: note: u: ignored 2, first line 1: x\n"
        ++ codes "  a row begins with a type, as HOTP or HOTP/T30, and a comment with #\n"
        ++ codes "oathd: note: u: no row has a token: each login is refused as UNKNOWN\n" }
    ensures another_case { rows_text (codes "u") (tally_of (codes "HOTP a - 00\nhotp b - 00"))
        ≡ codes "oathd: note: u: ignored 1, first line 2: hotp\n"
        ++ codes "  a row begins with a type, as HOTP or HOTP/T30, and a comment with #\n"
        ++ codes "oathd: note: u: line 2: hotp is ignored: a type is in upper case\n" }
    ensures no_note { notes_text (codes "u") (codes "HOTP a - 00") None (codes "c") 3 ≡ [] }
    ensures members { notes_text (codes "u") (codes "HOTP a - 00") None (codes "c") 4
        ≡ codes "oathd: note: c: 4 members bear the loss of 1, as 3 would: take an odd number\n" }
    ensures shared { notes_text (codes "u") (codes "HOTP a - 00\nHOTP b - 00\nx") (Some (shared_by 1 2)) (codes "c") 4
        ≡ codes "oathd: note: u: ignored 1, first line 3: x\n"
        ++ codes "  a row begins with a type, as HOTP or HOTP/T30, and a comment with #\n"
        ++ codes "oathd: note: u: rows 1 and 2 have one secret: each accepts its codes\n"
        ++ codes "oathd: note: c: 4 members bear the loss of 1, as 3 would: take an odd number\n" }
{}

/// Counterexamples: each promise of the note on two rows with one secret fails for a minimal one.
pub fn shared_notes_can_be_broken()
    ensures rows { IsSharedOf default_limits shared_rows (Some (shared_by 1 3)) }
    ensures other_rows { IsSharedOf default_limits shared_rows (Some (shared_by 1 2)) → ⊥ }
    ensures rows_are_missed { IsSharedOf default_limits shared_rows None → ⊥ }
    ensures no_rows { IsSharedOf default_limits [] None }
    ensures rows_of_none { IsSharedOf default_limits [] (Some (shared_by 1 3)) → ⊥ }
    ensures no_note { AreNoted default_limits (codes "u") (codes "HOTP a - 31") (codes "c") 3 (Some []) (Some []) }
    ensures note_is_missed { AreNoted default_limits (codes "u") shared_rows (codes "c") 3 (Some []) (Some []) → ⊥ }
{}

/// Worked cases. Where a fault is, and what to do.
pub fn advice_is_worked()
    ensures lines { map (line_at (codes "a\nb")) (0 ∷ 1 ∷ 2 ∷ 3 ∷ []) ≡ codes "a" ∷ codes "a" ∷ codes "b" ∷ [] ∷ [] }
    ensures users { map user_in ([] ∷ (codes "HOTP" ∷ []) ∷ (codes "HOTP" ∷ codes "a" ∷ []) ∷ [])
        ≡ None ∷ None ∷ Some (codes "a") ∷ [] }
    ensures secrets { map is_base32_in (given_row [] ∷ given_row (codes "MZXW6===") ∷ given_row (codes "MZXW61") ∷ [])
        ≡ false ∷ true ∷ false ∷ [] }
    ensures base32 { advice_text (told_sources (codes "HOTP a - 31\nHOTP eve - MZXW6==="))
        (users_fault 2 users.BadSecret)
        ≡ codes "  u line 2, user eve: the secret is base32, and oathd reads hexadecimal: "
        ++ codes "oathtool -v -b SECRET of OATH Toolkit prints it so\n" }
    ensures row { map (row_advice (codes "HOTP a - 31\nHOTP eve - MZXW6==="))
        (fault_at 1 users.BadSecret ∷ fault_at 2 users.DuplicateUser ∷ [])
        ≡ codes "a secret has 2 to 256 hexadecimal digits, two for each byte"
        ∷ codes "one token for each user, and an earlier row has this one" ∷ [] }
    ensures clients { map clients_advice (UnknownWord ∷ NoClient ∷ [])
        ≡ codes "a line begins with client, plain, ahead or failures, and a space"
        ∷ codes "add a line client NUMBER KEY, with a key of oathd new-key, or a line plain 127.0.0.1" ∷ [] }
    ensures no_user { advice_text (told_sources (codes "HOTP")) (users_fault 1 users.MissingField)
        ≡ codes "  u line 1: a row has a type, a user, a password column (- for none) and a secret\n" }
    ensures cluster { advice_text (told_sources []) (file_fault 3 NoKey)
        ≡ codes "  c line 3: add a line key-file PATH\n" }
    ensures key { advice_text (told_sources []) (Run (BadKey Empty))
        ≡ codes "  k: a key has 32 to 128 hexadecimal digits, two for each byte: oathd new-key prints one\n" }
    ensures file { advice_text (told_sources []) (CannotReadFile (word (codes "f"))) ≡ codes "  f: r\n" }
    ensures path { advice_text (told_sources []) KeyPath
        ≡ codes "  c: the path of the key is to be UTF-8: rename the file\n" }
    ensures mark { advice_text (told_sources []) ByteOrderMark
        ≡ codes "  u line 1: the file begins with a byte order mark: save the file as UTF-8 without one\n" }
    ensures none { map (advice_text (told_sources [])) (Run Memory ∷ Run CannotWrite ∷ NoDatabases ∷ [])
        ≡ [] ∷ [] ∷ [] ∷ [] }
{}

/// Counterexamples: each promise of a command's end fails for a minimal one.
pub fn ends_can_be_broken()
    ensures lines { LinesEndSo usual_setup (Some []) done (Some []) (Some []) }
    ensures lines_write_more { LinesEndSo usual_setup (Some []) done (Some []) (Some (codes "\n")) → ⊥ }
    ensures lines_of_an_unknown_input { LinesEndSo usual_setup None done (Some []) (Some (codes "\n")) }
    ensures bad_line { LinesEndSo usual_setup (Some (codes "%%\n\n")) (run_ended_by (InputLine 2)) (Some []) (Some []) }
    ensures bad_line_overlooked { LinesEndSo usual_setup (Some (codes "%%\n\n")) done (Some []) (Some []) → ⊥ }
    ensures another_bad_line { LinesEndSo usual_setup (Some (codes "%%\n\n")) (run_ended_by (InputLine 3))
        (Some []) (Some []) → ⊥ }
    ensures lines_at_the_moment { LinesEndSo (setup_of 1 default_limits 150) (Some (time_line (codes "254676"))) done
        (Some []) (Some (codes "NO 1 INVALID\n")) }
    ensures lines_with_the_limits { LinesEndSo (setup_of 1 narrow_limits 150) (Some (time_line (codes "287922"))) done
        (Some []) (Some (codes "NO 1 INVALID\n")) }
    ensures lines_end_by_another { (LinesEndSo usual_setup None (ended_by NoDatabases) (Some []) (Some []) → ⊥)
        × (LinesEndSo usual_setup None (ended_by KeyPath) (Some []) (Some []) → ⊥)
        × (LinesEndSo usual_setup None (ended_by (Sim sims.Memory)) (Some []) (Some []) → ⊥) }

    ensures sim { SimEndsSo usual_setup (Some []) done (Some []) (Some (codes "sent 0\n")) }
    ensures sim_writes_nothing { SimEndsSo usual_setup (Some []) done (Some []) (Some []) → ⊥ }
    ensures sim_of_an_unknown_input { SimEndsSo usual_setup None done (Some []) (Some []) }
    ensures bad_script { SimEndsSo usual_setup (Some (codes "%%\nlive 1 2 3")) (ended_by (Sim (sims.ScriptLine 2)))
        (Some []) (Some []) }
    ensures bad_script_overlooked { SimEndsSo usual_setup (Some (codes "%%\nlive 1 2 3")) done (Some [])
        (Some (codes "sent 0\n")) → ⊥ }
    ensures another_bad_script { SimEndsSo usual_setup (Some (codes "%%\nlive 1 2 3"))
        (ended_by (Sim (sims.ScriptLine 3))) (Some []) (Some []) → ⊥ }
    ensures script_of_three { SimEndsSo (setup_of 3 default_limits 5) (Some (codes "%%\nlive 1 2 3"))
        (ended_by (Sim (sims.ScriptLine 2))) (Some []) (Some []) → ⊥ }
    ensures sim_ends_by_another { (SimEndsSo usual_setup None (ended_by NoDatabases) (Some []) (Some []) → ⊥)
        × (SimEndsSo usual_setup None (run_ended_by Memory) (Some []) (Some []) → ⊥)
        × (SimEndsSo usual_setup None (ended_by (Cluster clusters.Memory)) (Some []) (Some []) → ⊥) }

    ensures cluster { ClusterEndsSo 2 (Some (codes "2 1 x")) done (Some []) (Some (codes "2 -\n")) }
    ensures cluster_writes_nothing { ClusterEndsSo 2 (Some (codes "2 1 x")) done (Some []) (Some []) → ⊥ }
    ensures cluster_of_one { ClusterEndsSo 1 (Some (codes "2 1 x")) (ended_by (Cluster (clusters.InputLine 1)))
        (Some []) (Some []) }
    ensures cluster_of_one_overlooked { ClusterEndsSo 1 (Some (codes "2 1 x")) done (Some [])
        (Some (codes "2 -\n")) → ⊥ }
    ensures cluster_of_one_at_another { ClusterEndsSo 1 (Some (codes "2 1 x"))
        (ended_by (Cluster (clusters.InputLine 2))) (Some []) (Some []) → ⊥ }
    ensures cluster_without_users { ClusterEndsSo 2 None (ended_by (CannotReadFile (word []))) (Some []) (Some []) }
    ensures cluster_without_users_writes { ClusterEndsSo 2 None (ended_by (CannotReadFile (word []))) (Some [])
        (Some (codes "x")) → ⊥ }
    ensures cluster_ends_by_another { (ClusterEndsSo 2 None (ended_by NoDatabases) (Some []) (Some []) → ⊥)
        × (ClusterEndsSo 2 None (run_ended_by Memory) (Some []) (Some []) → ⊥)
        × (ClusterEndsSo 2 None (ended_by (Sim sims.Memory)) (Some []) (Some []) → ⊥) }

    ensures secret { SecretEndsSo (codes "00") done (Some []) (Some (codes "AA======\n")) }
    ensures secret_is_lost { SecretEndsSo (codes "00") done (Some []) (Some []) → ⊥ }
    ensures refused_secret { SecretEndsSo (codes "666") (run_ended_by (BadKey BadLength)) (Some []) (Some [])
        × SecretEndsSo (codes "666") (run_ended_by CannotWrite) (Some []) (Some []) }
    ensures refused_for_another_fault { SecretEndsSo (codes "666") (run_ended_by (BadKey Empty)) (Some []) (Some [])
        → ⊥ }
    ensures refused_and_writes { SecretEndsSo (codes "666") (run_ended_by (BadKey BadLength)) (Some [])
        (Some (codes "x")) → ⊥ }
    ensures input_secret { InputEndsSo (Some (codes "00\n")) done (Some []) (Some (codes "AA======\n"))
        × InputEndsSo (Some (codes "00")) done (Some []) (Some (codes "AA======\n")) }
    ensures input_secret_is_lost { InputEndsSo (Some (codes "00")) done (Some []) (Some []) → ⊥ }
    ensures input_secret_of_another { InputEndsSo (Some (codes "01\n")) done (Some []) (Some (codes "AA======\n")) → ⊥ }
    ensures no_input { InputEndsSo None (run_ended_by CannotRead) (Some []) (Some [])
        × InputEndsSo None (run_ended_by Memory) (Some []) (Some []) }
    ensures no_input_and_writes { InputEndsSo None (run_ended_by Memory) (Some []) (Some (codes "x")) → ⊥ }
    ensures input_secret_ends_by_another { (InputEndsSo None (ended_by NoDatabases) (Some []) (Some []) → ⊥)
        × (InputEndsSo None (ended_by KeyPath) (Some []) (Some []) → ⊥) }
    ensures secret_ends_by_another { (SecretEndsSo (codes "00") (ended_by NoDatabases) (Some []) (Some []) → ⊥)
        × (SecretEndsSo (codes "00") (ended_by (Sim sims.Memory)) (Some []) (Some []) → ⊥) }
{}

/// Counterexamples: a task ends as its own command does, with its own words.
pub fn tasks_can_be_broken()
    ensures lines { EndsAsAsked (tasks.Lines (given_nodes 1) 150) [] (Some (time_line (codes "254676"))) done
        (Some []) (Some (codes "NO 1 INVALID\n")) }
    ensures lines_end_as_lines { EndsAsAsked (tasks.Lines (given_nodes 1) 5) [] (Some (codes "%%\n\n")) done
        (Some []) (Some []) → ⊥ }
    ensures lines_of_a_bad_file { EndsAsAsked (tasks.Lines named_nodes 5) [] None (ended_by (file_fault 1 NoMembers))
        (Some []) (Some []) }
    ensures sim { EndsAsAsked (tasks.Sim (given_nodes 2) 5) [] (Some (codes "%%\nlive 1 2 3"))
        (ended_by (Sim (sims.ScriptLine 2))) (Some []) (Some []) }
    ensures sim_ends_as_sims { EndsAsAsked (tasks.Sim (given_nodes 2) 5) [] (Some (codes "%%\nlive 1 2 3")) done
        (Some []) (Some (codes "sent 0\n")) → ⊥ }
    ensures cluster { EndsAsAsked (tasks.Cluster (word []) (given_nodes 1) 5) [] (Some (codes "2 1 x"))
        (ended_by (Cluster (clusters.InputLine 1))) (Some []) (Some []) }
    ensures cluster_ends_as_clusters { EndsAsAsked (tasks.Cluster (word []) (given_nodes 1) 5) [] (Some (codes "2 1 x"))
        done (Some []) (Some (codes "2 -\n")) → ⊥ }
    ensures store { EndsAsAsked (tasks.Store (word []) (word []) (Look Any Export)) [] None (ended_by NoDatabases)
        (Some []) (Some []) }
    ensures store_is_done { EndsAsAsked (tasks.Store (word []) (word []) (Look Any Export)) [] None done
        (Some []) (Some []) → ⊥ }
    ensures store_writes { EndsAsAsked (tasks.Store (word []) (word []) (Look Any Export)) [] None
        (ended_by NoDatabases) (Some []) (Some (codes "x")) → ⊥ }
    ensures check { EndsAsAsked (tasks.Check (word []) (word [])) [] None (ended_by (file_fault 1 NoMembers))
        (Some []) (Some []) }
    ensures check_of_no_file { EndsAsAsked (tasks.Check (word []) (word [])) [] None done
        (Some []) (Some (checked [])) → ⊥ }
    ensures secret { EndsAsAsked (tasks.Secret (word (codes "00"))) [] None done (Some []) (Some (codes "AA======\n")) }
    ensures secret_of_another { EndsAsAsked (tasks.Secret (word (codes "01"))) [] None done
        (Some []) (Some (codes "AA======\n")) → ⊥ }
{}

/// Counterexamples: each promise of a new key's end, and of why there are no clients, fails for a minimal one.
pub fn clients_can_be_broken()
    ensures new_key { NewKeyEndsSo done (Some []) (Some (replicate 64 48 ++ 10 ∷ [])) }
    ensures new_key_is_lost { NewKeyEndsSo done (Some []) (Some []) → ⊥ }
    ensures no_random { NewKeyEndsSo (ended_by NoRandom) (Some []) (Some []) }
    ensures no_random_and_writes { NewKeyEndsSo (ended_by NoRandom) (Some []) (Some (codes "x")) → ⊥ }
    ensures new_cluster_is_lost { NewClusterEndsSo done (Some []) (Some []) → ⊥ }
    ensures new_cluster_without_random { NewClusterEndsSo (ended_by NoRandom) (Some []) (Some (codes "x")) → ⊥ }
    ensures new_cluster_ends_by_another { NewClusterEndsSo (run_ended_by Memory) (Some []) (Some []) → ⊥ }
    ensures new_cluster { new_cluster_text (replicate 16 0)
        ≡ codes "names 00000000000000000000000000000000\nlife 1\nkey-file key\n" }
    ensures new_key_ends_by_another { (NewKeyEndsSo (run_ended_by Memory) (Some []) (Some []) → ⊥)
        × (NewKeyEndsSo (ended_by NoDatabases) (Some []) (Some []) → ⊥) }

    ensures of_clients { IsOfClients [] (Run Memory) × IsOfClients [] (clients_fault 1 NoClient)
        × IsOfClientsFile (Run Memory) × IsOfClientsFile (clients_fault 1 NoClient) }
    ensures of_clients_at_another_line { IsOfClients [] (clients_fault 2 NoClient) → ⊥ }
    ensures of_clients_of_another_kind { IsOfClients [] (clients_fault 1 UnknownWord) → ⊥ }
    ensures of_clients_by_another { (IsOfClients [] NoDatabases → ⊥) × (IsOfClients [] (CannotReadFile (word [])) → ⊥)
        × (IsOfClients [] (Run CannotRead) → ⊥) × (IsOfClientsFile NoDatabases → ⊥)
        × (IsOfClientsFile (Run CannotRead) → ⊥) × (IsOfClientsFile (Run (BadKey Empty)) → ⊥)
        × (IsOfClientsFile KeyPath → ⊥) }
{}
