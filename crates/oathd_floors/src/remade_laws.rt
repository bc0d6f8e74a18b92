ghost use Rattle.std.specs.Prelude.{◌≡◌, ℕ, List, [], ◌∷◌, None, Some, Ok, Err, codes, length, true};
ghost use Rattle.std.specs.Global.{Vec};
ghost use Rattle.floor_sql.specs.Broken.{small_content};
ghost use Rattle.floor_store.specs.declared.fault.StoreFault.TheVariants.{Disk};
ghost use Rattle.floors_file.specs.Named.{NamedFloorsRecord};
ghost use Rattle.floors_file.specs.NamedGathered.{gathered_rows};
ghost use Rattle.floors_file.specs.declared.gathered.FileFault.TheVariants.{Boot, Older};
ghost use Rattle.floors_file.specs.declared.gathered.FilesFault.TheVariants.{File, NotLost, TooManyLost};
ghost use Rattle.floors_file.specs.declared.named.NamedFloor.{NamedFloor};
ghost use Rattle.oathd_database.specs.Broken.{fallen, lost_nodes, no_users, shows_any, shows_none, users_fault};
ghost use Rattle.oathd_database.specs.Lost.{boot_at};
ghost use Rattle.oathd_database.specs.declared.fault.Fault.TheVariants.{CannotWrite, Memory, NoClock, Socket, Store};
ghost use Rattle.oathd_database.specs.Made.{store_line};
ghost use Rattle.oathd_floors.specs.Examples.{IsKeptOf, IsNotRemadeOf, IsRemadeOf, alone, alone_with, former_of, member, named_conn, named_store, none_named, none_seen, small_cluster, taking_at};
ghost use Rattle.oathd_floors.specs.Files.{file_of};
ghost use Rattle.oathd_floors.specs.Remade.{HasFault, HasGathered, IsGathered, IsInsufficient, IsMadeAgain, IsNotMadeAgain, IsNotRemade, IsTooFull};
ghost use Rattle.oathd_floors.specs.declared.fault.NamedFloorsFault.{NamedFloorsFault};
ghost use Rattle.oathd_floors.specs.declared.fault.NamedFloorsFault.TheVariants.{Roster, Ahead, Files};
ghost use Rattle.oathd_floors.specs.declared.remaking.Former.{Former};
ghost use Rattle.oathd_roster.specs.declared.fault.RosterFault.TheVariants.{AnotherCluster, Command, Full, SameName};
ghost use Rattle.otp_core.specs.Limits.{default_limits};
ghost use Rattle.roster_sql.specs.Examples.{entry_of, other_bond, small_bond};
ghost use Rattle.token_file.specs.declared.fault.LineFault.TheVariants.{MissingField};

/// Counterexamples: each promise of files that are sufficient, or are not, fails for a minimal one.
///
/// Each text is the file of the only node of a former life, at boot 5, that was read at the moment 9.
pub fn gatherings_can_be_broken()
    ensures gathered { (text : Vec ℕ) → file_of (taking_at true) 1 text.items ≡ Ok alone
        → IsGathered (codes "key") small_bond 1 (former_of 8 None (text ∷ [])) (alone ∷ []) }
    ensures gathered_taken { (text : Vec ℕ) → file_of (taking_at true) 1 text.items ≡ Ok alone
        → IsGathered (codes "key") small_bond 1 (former_of 8 None (text ∷ [])) (alone ∷ alone ∷ []) → ⊥ }
    ensures gathered_late { (text : Vec ℕ) → IsGathered (codes "key") small_bond 1 (former_of 9 None (text ∷ []))
        (alone ∷ []) → ⊥ }
    ensures gathered_lost { (text : Vec ℕ)
        → IsGathered (codes "key") small_bond 1 (former_of 8 (lost_nodes (2 ∷ [])) (text ∷ [])) (alone ∷ []) → ⊥ }
    ensures gathered_none { IsGathered (codes "key") small_bond 1 (former_of 8 None []) [] → ⊥ }

    ensures fault { HasFault (codes "key") small_bond 1 (former_of 8 None []) TooManyLost }
    ensures fault_taken { (text : Vec ℕ) (fault : NamedFloorsFault) → file_of (taking_at true) 1 text.items ≡ Err fault
        → HasFault (codes "key") small_bond 1 (former_of 8 None (text ∷ [])) TooManyLost → ⊥ }
    ensures fault_told { HasFault (codes "key") small_bond 1 (former_of 8 None []) NotLost → ⊥ }
    ensures fault_older { (text : Vec ℕ) → file_of (taking_at true) 1 text.items ≡ Ok alone
        → HasFault (codes "key") small_bond 1 (former_of 9 None (text ∷ [])) (File 1 Older) }
    ensures fault_boot { (text : Vec ℕ) → file_of (taking_at true) 1 text.items ≡ Ok alone
        → HasFault (codes "key") small_bond 1 (former_of 8 None (text ∷ [])) (File 1 Boot) → ⊥ }

    ensures memory { IsInsufficient (codes "key") small_bond 1 (former_of 8 None []) (Roster (Command Memory)) }
    ensures of_a_store { IsInsufficient (codes "key") small_bond 1 (former_of 8 None []) (Roster (Command (Store Disk)))
        → ⊥ }
    ensures too_few { IsInsufficient (codes "key") small_bond 1 (former_of 8 None []) (Files TooManyLost) }
    ensures none_strange { IsInsufficient (codes "key") small_bond 1 (former_of 8 None []) (Files NotLost) → ⊥ }
    ensures no_text { IsInsufficient (codes "key") small_bond 1 (former_of 8 None []) (Ahead 1) → ⊥ }

    ensures has { (text : Vec ℕ) → file_of (taking_at true) 1 text.items ≡ Ok alone
        → HasGathered small_cluster (codes "key") default_limits 0 11 1 (former_of 8 None (text ∷ [])) [] }
    ensures has_import { (former : Former) → HasGathered small_cluster (codes "key") default_limits 0 11 1 former
        no_users → ⊥ }
    ensures has_files { HasGathered small_cluster (codes "key") default_limits 0 11 1 (former_of 8 None []) [] → ⊥ }
    ensures too_full { (text : Vec ℕ) → file_of (taking_at true) 1 text.items ≡ Ok alone
        → IsTooFull small_cluster (codes "key") default_limits 0 11 1 (former_of 8 None (text ∷ [])) [] → ⊥ }
    ensures room { (text : Vec ℕ) (rows : List NamedFloor)
        → file_of (taking_at true) 1 text.items ≡ Ok (alone_with rows)
        → length (gathered_rows (alone_with rows ∷ [])) ≡ 65536
        → IsTooFull small_cluster (codes "key") default_limits 0 11 1 (former_of 8 None (text ∷ [])) [] → ⊥ }
    ensures no_room { (text : Vec ℕ) (rows : List NamedFloor)
        → file_of (taking_at true) 1 text.items ≡ Ok (alone_with rows)
        → length (gathered_rows (alone_with rows ∷ [])) ≡ 65537
        → IsTooFull small_cluster (codes "key") default_limits 0 11 1 (former_of 8 None (text ∷ [])) [] }
{}

/// Counterexamples: each promise of a store that is made again, or is not, fails for a minimal one.
pub fn makings_can_be_broken()
    ensures again { IsMadeAgain fallen shows_any 1 (boot_at 10) [] [] [] small_bond none_seen }
    ensures again_found { IsMadeAgain none_named shows_none 1 (boot_at 10) [] [] [] small_bond none_seen → ⊥ }
    ensures again_node { IsMadeAgain none_named shows_any 2 (boot_at 10) [] [] [] small_bond none_seen → ⊥ }
    ensures again_boot { IsMadeAgain none_named shows_any 1 (boot_at 11) [] [] [] small_bond none_seen → ⊥ }
    ensures again_bond { IsMadeAgain none_named shows_any 1 (boot_at 10) [] [] [] other_bond none_seen → ⊥ }
    ensures again_survives { IsMadeAgain none_named (λ conn. conn ≡ named_conn) 1 (boot_at 10) [] [] [] small_bond
        (record none_seen { inner = record none_seen.inner { conn = record named_conn { step_limit = Some 7 } } })
        → ⊥ }
    ensures again_seated { IsMadeAgain none_named shows_any 1 (boot_at 10) [] [] [] small_bond
        (record none_seen { inner = named_store (small_content 4) }) → ⊥ }
    ensures again_each { IsMadeAgain fallen shows_any 1 (boot_at 10) [] [] [] small_bond
        (record none_seen { seats = 0 ∷ [] }) → ⊥ }
    ensures again_works { IsMadeAgain none_named shows_any 1 (boot_at 10) [] [] [] small_bond
        (record none_seen { is_unusable = true }) → ⊥ }

    ensures store { IsNotMadeAgain [] [] (Command (Store Disk)) }
    ensures memory { IsNotMadeAgain [] [] (Command Memory) → ⊥ }
    ensures same_name { IsNotMadeAgain [] [] (SameName 1) → ⊥ }
    ensures another { IsNotMadeAgain [] [] AnotherCluster → ⊥ }
    ensures few { IsNotMadeAgain [] (entry_of 1 2 ∷ entry_of 3 4 ∷ []) Full → ⊥ }
    ensures room { (files : List NamedFloorsRecord) → length (gathered_rows files) ≡ 65536
        → IsNotMadeAgain files [] Full → ⊥ }
    ensures no_room { (files : List NamedFloorsRecord) → length (gathered_rows files) ≡ 65537
        → IsNotMadeAgain files [] Full }
{}

/// Counterexamples: each promise of a replacement store whose line is written, or is not, fails for a minimal one.
///
/// Each text is the file of the only node of a former life, at boot 5, that was read at the moment 9.
pub fn replacements_can_be_broken()
    ensures remade { (text : Vec ℕ) → file_of (taking_at true) 1 text.items ≡ Ok alone
        → IsRemadeOf fallen 1 (former_of 8 None (text ∷ [])) [] [] }
    ensures remade_import { (former : Former) (line : List ℕ) → IsRemadeOf none_named 1 former line no_users → ⊥ }
    ensures remade_gathered { (line : List ℕ) → IsRemadeOf none_named 1 (former_of 8 None []) line [] → ⊥ }
    ensures remade_node { (former : Former) (line : List ℕ) → IsRemadeOf none_named 2 former line [] → ⊥ }
    ensures remade_boot { (former : Former) (line : List ℕ) → former.now ≡ 11
        → IsRemadeOf none_named 1 former line [] → ⊥ }
    ensures remade_written { (former : Former) (line : List ℕ) → IsRemadeOf none_named 1 former line []
        → line ≡ store_line (member 1) (small_content (boot_at 10)) }

    ensures kept { (text : Vec ℕ) → file_of (taking_at true) 1 text.items ≡ Ok alone
        → IsKeptOf fallen 1 (former_of 8 None (text ∷ [])) [] }
    ensures kept_import { (former : Former) → IsKeptOf none_named 1 former no_users → ⊥ }
    ensures kept_gathered { IsKeptOf none_named 1 (former_of 8 None []) [] → ⊥ }
    ensures kept_node { (former : Former) → IsKeptOf none_named 2 former [] → ⊥ }
{}

/// Counterexamples: each fault of a command that makes a store again has its cause.
///
/// Without a text the files are insufficient.
pub fn remaking_faults_can_be_broken()
    ensures memory { IsNotRemadeOf none_named [] (Roster (Command Memory)) no_users }
    ensures output { (text : Vec ℕ) → file_of (taking_at true) 1 text.items ≡ Ok alone
        → IsNotRemadeOf fallen (text ∷ []) (Roster (Command CannotWrite)) [] }
    ensures output_before_files { IsNotRemadeOf none_named [] (Roster (Command CannotWrite)) [] → ⊥ }
    ensures output_before_store { (former : Former) → IsNotRemade none_named shows_none small_cluster (codes "key")
        default_limits 0 11 (member 1) former (Roster (Command CannotWrite)) [] → ⊥ }
    ensures clock { IsNotRemadeOf none_named [] (Roster (Command NoClock)) [] → ⊥ }
    ensures users { IsNotRemadeOf none_named [] (Roster (Command (users_fault 1 MissingField))) no_users }
    ensures wrong_users { IsNotRemadeOf none_named [] (Roster (Command (users_fault 1 MissingField))) (codes "# none")
        → ⊥ }
    ensures store { (text : Vec ℕ) → file_of (taking_at true) 1 text.items ≡ Ok alone
        → IsNotRemadeOf fallen (text ∷ []) (Roster (Command (Store Disk))) [] }
    ensures store_before_import { (texts : List (Vec ℕ))
        → IsNotRemadeOf none_named texts (Roster (Command (Store Disk))) no_users → ⊥ }
    ensures store_before_files { IsNotRemadeOf none_named [] (Roster (Command (Store Disk))) [] → ⊥ }
    ensures socket { IsNotRemadeOf none_named [] (Roster (Command Socket)) [] → ⊥ }
    ensures same_name { IsNotRemadeOf none_named [] (Roster (SameName 1)) [] → ⊥ }
    ensures another { IsNotRemadeOf none_named [] (Roster AnotherCluster) [] → ⊥ }
    ensures full { IsNotRemadeOf none_named [] (Roster Full) [] → ⊥ }
    ensures files { IsNotRemadeOf none_named [] (Files TooManyLost) [] }
    ensures files_before_import { IsNotRemadeOf none_named [] (Files TooManyLost) no_users → ⊥ }
    ensures other_files { IsNotRemadeOf none_named [] (Files NotLost) [] → ⊥ }
    ensures ahead_before_import { (texts : List (Vec ℕ)) → IsNotRemadeOf none_named texts (Ahead 1) no_users → ⊥ }
{}
