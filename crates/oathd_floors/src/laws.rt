ghost use Rattle.std.specs.Prelude.{◌≡◌, ℕ, List, [], ◌∷◌, None, Some, Ok, Err, codes, false, map, true, replicate, pos, negsuc};
ghost use Rattle.floors_file.specs.Named.{NamedFloorsRecord};
ghost use Rattle.floors_file.specs.NamedExamples.{named_row};
ghost use Rattle.floors_file.specs.declared.fault.LineFault.TheVariants as lines;
ghost use Rattle.floors_file.specs.declared.gathered.FileFault.TheVariants.{Cluster};
ghost use Rattle.floors_file.specs.declared.gathered.FilesFault.TheVariants.{File, NotLost};
ghost use Rattle.floor_sql.specs.Broken.{small_content, tables_at};
ghost use Rattle.floor_store.specs.Content.{accepted_row, opening_row};
ghost use Rattle.floor_store.specs.declared.fault.StoreFault.TheVariants.{Disk, Unusable};
ghost use Rattle.named_store.specs.declared.fault.LookFault.TheVariants as look;
ghost use Rattle.named_store.specs.declared.fault.NamedFault.TheVariants as named;
ghost use Rattle.oathd_database.specs.Broken.{IsOfOne, fallen, new_store, no_users, shows_any, shows_none, small_conn, still, users_fault};
ghost use Rattle.oathd_database.specs.declared.fault.Fault.TheVariants.{CannotWrite, Memory, NoClock, Socket, Store};
ghost use Rattle.oathd_floors.specs.Examples.{at_line, file_with, heads, head_of, named_store, one_entry, one_named, own_head, small_cluster, taking_at, told_text};
ghost use Rattle.oathd_floors.specs.Fault.{floors_status};
ghost use Rattle.oathd_floors.specs.Files.{AreTaken, IsUntaken, TakingRecord, file_of, files_after, is_kin, is_memory_of, refusal_of, taken_of};
ghost use Rattle.oathd_floors.specs.Kinds.{IsOfOtherKind, first_other, is_of_kind, is_of_period};
ghost use Rattle.oathd_floors.specs.Levelled.{HasLevelled, IsNotLevelled};
ghost use Rattle.oathd_floors.specs.Named.{HasNamed, HasOtherKind, IsUnnamed};
ghost use Rattle.oathd_floors.specs.Rows.{HasRows, IsNotRead, IsUnbound, rows_fault_of};
ghost use Rattle.oathd_floors.specs.Told.{EndsTold, HasTold, told_file};
ghost use Rattle.oathd_floors.specs.declared.fault.NamedFloorsFault.{NamedFloorsFault};
ghost use Rattle.oathd_floors.specs.declared.fault.NamedFloorsFault.TheVariants.{Roster, Floors, Ahead, Files};
ghost use Rattle.oathd_floors.specs.declared.fault.NamingFault.TheVariants as naming;
ghost use Rattle.oathd_roster.specs.declared.fault.RosterFault.TheVariants.{AnotherCluster, Command, Full, SameName};
ghost use Rattle.otp_core.specs.Limits.{default_limits};
ghost use Rattle.roster_sql.specs.Examples.{entry_of, first_content, other_bond, small_bond};
ghost use Rattle.token_file.specs.Examples.{event_token, time_token};
ghost use Rattle.token_file.specs.declared.fault.LineFault.TheVariants.{MissingField};
ghost use Rattle.token_file.specs.declared.token.Kind.TheVariants.{Event, Time30, Time60};

/// Worked cases. The exit status for each fault.
pub fn faults_are_worked()
    ensures statuses { map floors_status (Roster (Command Memory) ∷ Roster (Command Socket) ∷ Roster AnotherCluster
        ∷ []) ≡ 1 ∷ 4 ∷ 3 ∷ [] }
    ensures of_files { map floors_status (Floors 1 (at_line 2 lines.TooMany) ∷ Ahead 1 ∷ Files NotLost ∷ [])
        ≡ replicate 3 1 }
    ensures memory { map is_memory_of (Floors 1 (at_line 2 lines.Memory) ∷ Floors 1 (at_line 2 lines.TooMany)
        ∷ Roster (Command Memory) ∷ Ahead 1 ∷ Files NotLost ∷ []) ≡ true ∷ replicate 4 false }
    ensures of_rows { map rows_fault_of (look.NotEnrolled 0 ∷ look.Named named.AnotherCluster
        ∷ look.Named (named.Store Disk) ∷ [])
        ≡ Command (Store Unusable) ∷ AnotherCluster ∷ Command (Store Disk) ∷ [] }
{}

/// Worked cases. Which floors files a command takes.
pub fn files_are_worked()
    ensures of_the_cluster { map (is_kin (taking_at false)) heads ≡ true ∷ replicate 3 false }
    ensures of_its_names { map (is_kin (taking_at true)) heads ≡ true ∷ false ∷ true ∷ true ∷ [] }
    ensures moments { map (λ moment. refusal_of (taking_at false) 2 (own_head moment)) (10 ∷ 11 ∷ [])
        ≡ None ∷ Some (Ahead 2) ∷ [] }
    ensures stranger { refusal_of (taking_at false) 3 (head_of (codes "another-word") (codes "1") 3 11)
        ≡ Some (Files (File 3 Cluster)) }
    ensures unread { taken_of (taking_at false) 4 (Err (2, lines.BadMac)) ≡ Err (Floors 4 (at_line 2 lines.BadMac)) }
    ensures none { files_after (taking_at false) [] [] ≡ Ok [] }
    ensures two { (taking : TakingRecord) (one two : List ℕ) (first second : NamedFloorsRecord)
        → file_of taking 1 one ≡ Ok first → file_of taking 2 two ≡ Ok second
        → files_after taking [] (one ∷ two ∷ []) ≡ Ok (first ∷ second ∷ []) }
    ensures second_fault { (taking : TakingRecord) (one two : List ℕ) (first : NamedFloorsRecord)
        (fault : NamedFloorsFault) → file_of taking 1 one ≡ Ok first → file_of taking 2 two ≡ Err fault
        → files_after taking [] (one ∷ two ∷ []) ≡ Err fault }
    ensures first_fault { (taking : TakingRecord) (one two : List ℕ) (fault : NamedFloorsFault)
        → file_of taking 1 one ≡ Err fault → files_after taking [] (one ∷ two ∷ []) ≡ Err fault }
{}

/// Worked cases. The floors file of a stopped node has a row for each row of its store, and no boot.
pub fn told_are_worked()
    ensures file { told_file 2 100 small_bond one_entry first_content ≡ record {
      head = record {
        node = 2;
        members = 3;
        boot = 4;
        moment = 100;
        names = codes "a-public-word";
        life = codes "1";
      };
      rows = named_row (replicate 16 1) (replicate 16 2) 9 ∷ [];
      heard = [];
    } }
{}

/// Counterexamples: each promise about texts that are not taken fails for a minimal one.
pub fn floors_can_be_broken()
    ensures memory { IsUntaken (taking_at false) [] (Roster (Command Memory)) }
    ensures of_a_store { IsUntaken (taking_at false) [] (Roster (Command (Store Disk))) → ⊥ }
    ensures no_text { IsUntaken (taking_at false) [] (Ahead 1) → ⊥ }
    ensures none_strange { IsUntaken (taking_at false) [] (Files NotLost) → ⊥ }
    ensures taken { AreTaken (taking_at false) [] }
    ensures untaken { (text : List ℕ) (fault : NamedFloorsFault) → file_of (taking_at false) 1 text ≡ Err fault
        → AreTaken (taking_at false) (text ∷ []) → ⊥ }
{}

/// Counterexamples: each promise of a store that is opened with its rows, or is not, fails for a minimal one.
pub fn rows_can_be_broken()
    ensures rows { HasRows one_named shows_any small_bond 1 one_entry (named_store first_content) }
    ensures rows_found { HasRows one_named shows_none small_bond 1 one_entry (named_store first_content) → ⊥ }
    ensures rows_node { HasRows one_named shows_any small_bond 2 one_entry (named_store first_content) → ⊥ }
    ensures rows_bond { HasRows one_named shows_any other_bond 1 one_entry (named_store first_content) → ⊥ }
    ensures rows_roster { HasRows one_named shows_any small_bond 1 (entry_of 3 2 ∷ []) (named_store first_content)
        → ⊥ }
    ensures rows_content { HasRows one_named shows_any small_bond 1 one_entry (named_store (small_content 4)) → ⊥ }
    ensures rows_passes { HasRows one_named shows_any small_bond 1 one_entry
        (record (named_store first_content) { passes = 1 }) → ⊥ }
    ensures rows_kept { HasRows fallen shows_any small_bond 1 []
        (record (new_store 4 []) { conn = record small_conn { in_transaction = true } }) → ⊥ }
    ensures rows_distinct { HasRows fallen shows_any small_bond 1 (entry_of 1 2 ∷ entry_of 1 4 ∷ []) (new_store 4 [])
        → ⊥ }
    ensures rows_sound { HasRows fallen shows_any small_bond 1 [] (record (new_store 4 []) { fault = Some Disk }) → ⊥ }

    ensures unbound { IsUnbound one_named shows_any other_bond }
    ensures unbound_found { IsUnbound one_named shows_none other_bond → ⊥ }
    ensures unbound_bond { IsUnbound one_named shows_any small_bond → ⊥ }

    ensures read_fault { IsNotRead fallen shows_any small_bond (Command (Store Disk)) }
    ensures read_bond { IsNotRead one_named shows_any small_bond AnotherCluster → ⊥ }
    ensures read_socket { IsNotRead fallen shows_any small_bond (Command Socket) → ⊥ }
    ensures read_same { IsNotRead fallen shows_any small_bond (SameName 1) → ⊥ }
    ensures read_full { IsNotRead fallen shows_any small_bond Full → ⊥ }
{}

/// Counterexamples: each promise of a floors file that is written, or is not, fails for a minimal one.
pub fn told_can_be_broken()
    ensures told { (key : List ℕ)
        → HasTold one_named shows_any small_bond key 1 100 (Some []) (Some (told_text key 1)) }
    ensures told_found { (key : List ℕ)
        → HasTold one_named shows_none small_bond key 1 100 (Some []) (Some (told_text key 1)) → ⊥ }
    ensures told_node { (key : List ℕ)
        → HasTold one_named shows_any small_bond key 2 100 (Some []) (Some (told_text key 2)) → ⊥ }
    ensures told_bond { (key text : List ℕ)
        → HasTold one_named shows_any other_bond key 1 100 (Some []) (Some text) → ⊥ }
    ensures told_written { (key text : List ℕ)
        → HasTold one_named shows_any small_bond key 1 100 (Some []) (Some text) → text ≡ told_text key 1 }

    ensures output { EndsTold fallen shows_none small_bond (Command CannotWrite) }
    ensures memory { EndsTold fallen shows_none small_bond (Command Memory) }
    ensures store { EndsTold fallen shows_none small_bond (Command (Store Disk)) }
    ensures another { EndsTold one_named shows_any other_bond AnotherCluster }
    ensures same_bond { EndsTold one_named shows_any small_bond AnotherCluster → ⊥ }
    ensures clock { EndsTold fallen shows_any small_bond (Command NoClock) → ⊥ }
    ensures users { EndsTold fallen shows_any small_bond (Command (users_fault 1 MissingField)) → ⊥ }
    ensures socket { EndsTold fallen shows_any small_bond (Command Socket) → ⊥ }
    ensures same_name { EndsTold fallen shows_any small_bond (SameName 1) → ⊥ }
    ensures full { EndsTold fallen shows_any small_bond Full → ⊥ }
{}

/// Counterexamples: each promise of a store whose floors are raised, or are not, fails for a minimal one.
pub fn levels_can_be_broken()
    ensures levelled { HasLevelled one_named shows_any (taking_at false) 1 [] (named_store first_content) }
    ensures levelled_taken { (text : List ℕ) (fault : NamedFloorsFault) → file_of (taking_at false) 1 text ≡ Err fault
        → HasLevelled one_named shows_any (taking_at false) 1 (text ∷ []) (named_store first_content) → ⊥ }
    ensures levelled_found { HasLevelled one_named shows_none (taking_at false) 1 [] (named_store first_content) → ⊥ }
    ensures levelled_node { HasLevelled one_named shows_any (taking_at false) 2 [] (named_store first_content) → ⊥ }
    ensures levelled_lower { (text : List ℕ)
        → file_of (taking_at false) 1 text ≡ Ok (file_with (named_row (replicate 16 1) (replicate 16 2) 7 ∷ []))
        → HasLevelled one_named shows_any (taking_at false) 1 (text ∷ []) (named_store first_content) }
    ensures levelled_greater { (text : List ℕ)
        → file_of (taking_at false) 1 text ≡ Ok (file_with (named_row (replicate 16 1) (replicate 16 2) 12 ∷ []))
        → HasLevelled one_named shows_any (taking_at false) 1 (text ∷ []) (named_store first_content) → ⊥ }
    ensures levelled_rows { HasLevelled one_named shows_any (taking_at false) 1 [] (named_store (small_content 4)) → ⊥ }

    ensures memory { IsNotLevelled fallen shows_none (taking_at false) [] (Roster (Command Memory)) }
    ensures store { IsNotLevelled fallen shows_none (taking_at false) [] (Roster (Command (Store Disk))) }
    ensures store_untaken { (text : List ℕ) (fault : NamedFloorsFault) → file_of (taking_at false) 1 text ≡ Err fault
        → IsNotLevelled fallen shows_any (taking_at false) (text ∷ []) (Roster (Command (Store Disk))) → ⊥ }
    ensures another { IsNotLevelled one_named shows_any (record (taking_at false) { own = other_bond }) []
        (Roster AnotherCluster) }
    ensures same_bond { IsNotLevelled one_named shows_any (taking_at false) [] (Roster AnotherCluster) → ⊥ }
    ensures another_untaken { (text : List ℕ) (fault : NamedFloorsFault) → file_of (taking_at false) 1 text ≡ Err fault
        → IsNotLevelled fallen shows_any (taking_at false) (text ∷ []) (Roster AnotherCluster) → ⊥ }
    ensures output { IsNotLevelled fallen shows_any (taking_at false) [] (Roster (Command CannotWrite)) → ⊥ }
    ensures clock { IsNotLevelled fallen shows_any (taking_at false) [] (Roster (Command NoClock)) → ⊥ }
    ensures users { IsNotLevelled fallen shows_any (taking_at false) []
        (Roster (Command (users_fault 1 MissingField))) → ⊥ }
    ensures socket { IsNotLevelled fallen shows_any (taking_at false) [] (Roster (Command Socket)) → ⊥ }
    ensures same_name { IsNotLevelled fallen shows_any (taking_at false) [] (Roster (SameName 1)) → ⊥ }
    ensures full { IsNotLevelled fallen shows_any (taking_at false) [] (Roster Full) → ⊥ }
    ensures none { IsNotLevelled fallen shows_any (taking_at false) [] (Ahead 1) → ⊥ }
{}

/// Worked cases. A row tells by its drift that it is not of events, and by its floor that it is not of time steps.
pub fn kinds_are_worked()
    ensures events { map (λ drift. is_of_kind Event (accepted_row drift (opening_row 7)))
        (pos 0 ∷ pos 1 ∷ negsuc 0 ∷ []) ≡ true ∷ false ∷ false ∷ [] }
    ensures counters { map (λ kind. is_of_kind kind (opening_row 7)) (Event ∷ Time30 ∷ Time60 ∷ [])
        ≡ true ∷ false ∷ false ∷ [] }
    ensures steps_of_30 { map (λ next. is_of_kind Time30 (opening_row next)) (35791394 ∷ 35791395 ∷ [])
        ≡ false ∷ true ∷ [] }
    ensures steps_of_60 { map (λ next. is_of_kind Time60 (opening_row next)) (17895697 ∷ 17895698 ∷ [])
        ≡ false ∷ true ∷ [] }
    ensures earliest { map (λ next. is_of_period (Some 32) (opening_row next)) (33554431 ∷ 33554432 ∷ [])
        ≡ false ∷ true ∷ [] }

    // the floors of 2026-11-29 of both kinds, each read as the other one
    ensures read_as_30 { is_of_kind Time30 (opening_row 29932560) ≡ false }
    ensures read_as_60 { is_of_kind Time60 (opening_row 59865120) ≡ true }
    ensures drifted { is_of_kind Time30 (accepted_row (pos 1) (opening_row 59865120)) ≡ true }

    ensures none { first_other (event_token (codes "a") ∷ time_token Time30 ∷ [])
        (opening_row 7 ∷ opening_row 59865120 ∷ []) ≡ None }
    ensures first { first_other (time_token Time30 ∷ event_token (codes "a") ∷ []) (opening_row 7
        ∷ opening_row 59865120 ∷ []) ≡ Some 1 }
    ensures last { first_other (event_token (codes "a") ∷ time_token Time60 ∷ time_token Time30 ∷ [])
        (opening_row 7 ∷ opening_row 59865120 ∷ opening_row 29932560 ∷ []) ≡ Some 3 }
    ensures no_rows { first_other [] [] ∷ first_other (time_token Time30 ∷ []) [] ∷ first_other [] (opening_row 7 ∷ [])
        ∷ [] ≡ replicate 3 None }
{}

/// Counterexamples: each promise of a store whose tokens get names, or do not, fails for a minimal one.
pub fn names_can_be_broken()
    ensures named { HasNamed fallen shows_any small_cluster default_limits 11 1 small_conn [] }
    ensures named_import { HasNamed fallen shows_any small_cluster default_limits 11 1 small_conn no_users → ⊥ }
    ensures named_found { HasNamed (still (tables_at 4 [])) shows_none small_cluster default_limits 11 1 small_conn []
        → ⊥ }
    ensures named_idle { HasNamed fallen shows_any small_cluster default_limits 11 1
        (record small_conn { in_transaction = true }) [] → ⊥ }
    ensures named_node { HasNamed (still (tables_at 4 [])) shows_any small_cluster default_limits 11 2 small_conn []
        → ⊥ }
    ensures named_tokens { (users : List ℕ) → IsOfOne 0 11 users
        → HasNamed (still (tables_at 4 [])) shows_any small_cluster default_limits 11 1 small_conn users → ⊥ }
    ensures named_tables { HasNamed (still (tables_at 4 [])) shows_any small_cluster default_limits 11 1 small_conn []
        → ⊥ }

    ensures other { HasOtherKind fallen shows_any default_limits 11 1 1 [] }
    ensures other_import { HasOtherKind fallen shows_any default_limits 11 1 1 no_users → ⊥ }
    ensures other_tokens { (users : List ℕ) → IsOfOne 0 11 users
        → HasOtherKind (still (tables_at 4 [])) shows_any default_limits 11 1 1 users → ⊥ }
    ensures other_row { HasOtherKind (still (tables_at 4 [])) shows_any default_limits 11 1 1 [] → ⊥ }

    ensures memory { IsUnnamed fallen shows_any small_cluster default_limits 6 1 (naming.Roster (Command Memory))
        no_users }
    ensures store { IsUnnamed fallen shows_any small_cluster default_limits 6 1 (naming.Roster (Command (Store Disk)))
        (codes "# none") }
    ensures before_import { IsUnnamed fallen shows_any small_cluster default_limits 6 1
        (naming.Roster (Command (Store Disk))) no_users → ⊥ }
    ensures users { IsUnnamed fallen shows_any small_cluster default_limits 6 1
        (naming.Roster (Command (users_fault 1 MissingField))) no_users }
    ensures wrong_users { IsUnnamed fallen shows_any small_cluster default_limits 6 1
        (naming.Roster (Command (users_fault 1 MissingField))) (codes "# none") → ⊥ }
    ensures output { IsUnnamed fallen shows_any small_cluster default_limits 6 1 (naming.Roster (Command CannotWrite))
        (codes "# none") → ⊥ }
    ensures same_name { IsUnnamed fallen shows_any small_cluster default_limits 6 1 (naming.Roster (SameName 1))
        (codes "# none") → ⊥ }
    ensures another { IsUnnamed fallen shows_any small_cluster default_limits 6 1 (naming.Roster AnotherCluster)
        (codes "# none") → ⊥ }
    ensures full { IsUnnamed fallen shows_any small_cluster default_limits 6 1 (naming.Roster Full) (codes "# none")
        → ⊥ }
    ensures unread_kind { IsUnnamed fallen shows_any small_cluster default_limits 6 1 (naming.OtherKind 1) no_users
        → ⊥ }
{}
