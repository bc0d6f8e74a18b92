ghost use Rattle.std.specs.Prelude.{◌≡◌, ℕ, List, [], ◌∷◌, ◌++◌, None, Some, codes, map, true};
ghost use Rattle.floor_store.specs.Examples.{free_row, old_pass};
ghost use Rattle.floor_store.specs.declared.fault.StoreFault.TheVariants.{Disk};
ghost use Rattle.named_store.specs.Examples.{retired};
ghost use Rattle.named_store.specs.declared.fault.LookFault.TheVariants as look;
ghost use Rattle.named_store.specs.declared.fault.NamedFault.TheVariants as named;
ghost use Rattle.floor_sql.specs.Broken.{tables_at};
ghost use Rattle.otp_core.specs.Limits.{default_limits};
ghost use Rattle.roster_sql.specs.Examples.{entry_of};
ghost use Rattle.oathd_database.specs.Broken.{IsOfOne, fallen, new_store, no_users, one_book, shows_any, shows_none, still, two_disks};
ghost use Rattle.oathd_database.specs.Text.{audit_text};
ghost use Rattle.oathd_database.specs.declared.fault.Fault.TheVariants.{CannotWrite, Memory, Socket, Store};
ghost use Rattle.oathd_roster.specs.declared.fault.RosterFault.TheVariants.{AnotherCluster, Command, Full};
ghost use Rattle.oathd_seats.specs.Commands.{EndsOutput, HasAudited, HasExported, HasToldGates, HasToldRoster};
ghost use Rattle.oathd_seats.specs.Examples.{ann_and_bob, by_names, nobody, nothing_seen, one_named, one_seen, small_cluster, two_seen};
ghost use Rattle.oathd_seats.specs.Fault.{look_fault_of, seats_status};
ghost use Rattle.oathd_seats.specs.Seen.{HasPlaced, IsNotSeen};
ghost use Rattle.oathd_seats.specs.Unlock.{IsNotUnlocked, Unlocks};
ghost use Rattle.oathd_roster.specs.Roster.{roster_line, roster_text, user_text};
ghost use Rattle.oathd_seats.specs.declared.fault.SeatsFault.TheVariants.{NotEnrolled, Roster};
ghost use Rattle.oathd_seats.specs.declared.naming.Naming.TheVariants.{ByPlace};

/// Worked cases: each fault, and its exit status.
pub fn faults_are_worked()
    ensures statuses { map seats_status (Roster (Command Memory) ∷ Roster (Command Socket) ∷ Roster AnotherCluster
        ∷ NotEnrolled 3 ∷ nobody (codes "eve") ∷ []) ≡ 1 ∷ 4 ∷ 3 ∷ 1 ∷ 1 ∷ [] }
    ensures first_row { look_fault_of (look.NotEnrolled 0) ≡ NotEnrolled 1 }
    ensures third_row { look_fault_of (look.NotEnrolled 2) ≡ NotEnrolled 3 }
    ensures another_cluster { look_fault_of (look.Named named.AnotherCluster) ≡ Roster AnotherCluster }
    ensures of_the_disk { look_fault_of (look.Named (named.Store Disk)) ≡ Roster (Command (Store Disk)) }
{}

/// Worked cases: the rows of a store whose second token is retired, and whose other two are in the other order.
pub fn rosters_are_worked()
    ensures line { roster_line 7 (entry_of 171 1).name 20 (codes "ann")
        ≡ codes "row 7 abababababababababababababababab 20 ann\n" }
    ensures one_retired { roster_text ann_and_bob (2 ∷ 0 ∷ []) retired (free_row 20 ∷ free_row 30 ∷ free_row 40 ∷ [])
        ≡ codes "row 0 01010101010101010101010101010101 20 bob\n"
        ++ codes "row 1 03030303030303030303030303030303 30 -\n"
        ++ codes "row 2 05050505050505050505050505050505 40 ann\n" }
    ensures no_rows { roster_text ann_and_bob [] [] [] ≡ [] }
    ensures no_users { roster_text [] [] (entry_of 1 2 ∷ []) (free_row 5 ∷ [])
        ≡ codes "row 0 01010101010101010101010101010101 5 -\n" }
    ensures first_user { user_text ann_and_bob (Some 0) ≡ codes "ann" }
    ensures second_user { user_text ann_and_bob (Some 1) ≡ codes "bob" }
    ensures no_user { user_text ann_and_bob None ≡ codes "-" }
    ensures past_the_last { user_text ann_and_bob (Some 2) ≡ codes "-" }
{}

/// Counterexamples: promises of the commands by names fail for a minimal one.
pub fn seats_can_be_broken()
    // the users file of a store is written
    ensures exported { HasExported fallen shows_any by_names default_limits 11 (Some []) (Some []) [] }
    ensures exported_import { HasExported fallen shows_any by_names default_limits 11 (Some []) (Some [])
        no_users → ⊥ }
    ensures exported_found { HasExported one_named shows_none by_names default_limits 11 (Some []) (Some [])
        [] → ⊥ }
    ensures exported_written { HasExported one_named shows_any by_names default_limits 11 (Some [])
        (Some (codes "x")) [] → ⊥ }

    // the gates, the passes and the rows of a store are written
    ensures gates_import { HasToldGates fallen shows_any by_names default_limits 11 (Some []) (Some [])
        no_users → ⊥ }
    ensures gates_written { HasToldGates one_named shows_any by_names default_limits 11 (Some [])
        (Some (codes "x")) [] → ⊥ }
    ensures audited_import { HasAudited fallen shows_any by_names default_limits 11 (Some []) (Some [])
        no_users → ⊥ }
    ensures roster_import { HasToldRoster fallen shows_any small_cluster default_limits 11 1 (Some []) (Some [])
        no_users → ⊥ }
    ensures roster_written { HasToldRoster one_named shows_any small_cluster default_limits 11 1 (Some [])
        (Some (codes "x")) [] → ⊥ }

    // no store is seen, or no token is unlocked
    ensures full { IsNotSeen fallen shows_any by_names default_limits 11 (Roster Full) [] → ⊥ }
    ensures new_in_row_0 { IsNotSeen fallen shows_any by_names default_limits 11 (NotEnrolled 0) [] → ⊥ }
    ensures new_past_the_last { IsNotSeen one_named shows_any by_names default_limits 11 (NotEnrolled 1) [] → ⊥ }
    ensures nobody { IsNotUnlocked fallen shows_any by_names default_limits 11 (codes "b")
        (nobody (codes "b")) [] }
    ensures nobody_else { IsNotUnlocked fallen shows_any by_names default_limits 11 (codes "c")
        (nobody (codes "b")) [] → ⊥ }
{}

/// Counterexamples: promises of the commands by places fail for a minimal one.
pub fn places_can_be_broken()
    // the store is seen
    ensures placed { HasPlaced fallen shows_any (Some 1) [] nothing_seen }
    ensures placed_of_any { HasPlaced fallen shows_any None one_book one_seen }
    ensures placed_given { HasPlaced (still (tables_at 4 [])) shows_any (Some 2) [] nothing_seen → ⊥ }
    ensures placed_found { HasPlaced (still (tables_at 4 [])) shows_none None [] nothing_seen → ⊥ }
    ensures placed_tokens { HasPlaced (still (tables_at 4 [])) shows_any None one_book one_seen → ⊥ }
    ensures placed_seats { HasPlaced fallen shows_any None ann_and_bob (two_seen (1 ∷ 0 ∷ [])) → ⊥ }
    ensures placed_rows { HasPlaced fallen shows_any None one_book (two_seen (0 ∷ [])) → ⊥ }
    ensures placed_works { HasPlaced fallen shows_any None [] (record nothing_seen { is_unusable = true }) → ⊥ }

    // the users file, the gates and the passes of a store are written
    ensures exported { (users : List ℕ) → IsOfOne 0 11 users
        → HasExported fallen shows_any (ByPlace None) default_limits 11 (Some []) (Some []) users }
    ensures exported_longest { HasExported fallen shows_any (ByPlace None) default_limits 5 (Some []) (Some [])
        (codes "# none") → ⊥ }
    ensures exported_tokens { (users : List ℕ) → IsOfOne 0 11 users
        → HasExported (still (tables_at 4 [])) shows_any (ByPlace None) default_limits 11 (Some []) (Some []) users
        → ⊥ }
    ensures told_node { HasToldGates (still (tables_at 4 [])) shows_any (ByPlace (Some 2)) default_limits 11 (Some [])
        (Some []) [] → ⊥ }
    ensures audited_kept { HasAudited two_disks shows_any (ByPlace (Some 1)) default_limits 11 (Some [])
        (Some (audit_text (old_pass ∷ []))) [] → ⊥ }
    ensures audited_written { HasAudited (still (tables_at 4 [])) shows_any (ByPlace (Some 1)) default_limits 11
        (Some []) (Some (codes "x")) [] → ⊥ }

    // a user's token is unlocked, or no token is
    ensures unlocks { (users : List ℕ) → IsOfOne 0 11 users
        → Unlocks fallen shows_any (ByPlace (Some 1)) default_limits 11 (codes "a") (new_store 4 (0 ∷ [])) users }
    ensures unlocks_known { (users : List ℕ) → IsOfOne 0 11 users
        → Unlocks fallen shows_any (ByPlace (Some 1)) default_limits 11 (codes "b") (new_store 4 (0 ∷ [])) users → ⊥ }
    ensures unlocks_writes { (users : List ℕ) → IsOfOne 0 11 users
        → Unlocks fallen shows_any (ByPlace (Some 1)) default_limits 11 (codes "a")
        (record (new_store 4 (0 ∷ [])) { fault = Some Disk }) users → ⊥ }
    ensures not_unlocked_before_import { IsNotUnlocked fallen shows_any (ByPlace (Some 1)) default_limits 11
        (codes "a") (Roster (Command (Store Disk))) no_users → ⊥ }
    ensures not_unlocked_output { IsNotUnlocked fallen shows_any (ByPlace (Some 1)) default_limits 11 (codes "a")
        (Roster (Command CannotWrite)) [] → ⊥ }
    ensures nobody_known { (users : List ℕ) → IsOfOne 0 11 users
        → IsNotUnlocked fallen shows_any (ByPlace (Some 1)) default_limits 11 (codes "a") (nobody (codes "a")) users
        → ⊥ }

    // by places there is no fault of names
    ensures another_cluster { EndsOutput fallen shows_any (ByPlace None) default_limits 11 (Roster AnotherCluster) []
        → ⊥ }
    ensures not_enrolled { EndsOutput fallen shows_any (ByPlace None) default_limits 11 (NotEnrolled 1) [] → ⊥ }
    ensures output { EndsOutput fallen shows_any (ByPlace None) default_limits 11 (Roster (Command CannotWrite)) [] }
    ensures output_before_import { EndsOutput fallen shows_any (ByPlace None) default_limits 11
        (Roster (Command CannotWrite)) no_users → ⊥ }
{}
