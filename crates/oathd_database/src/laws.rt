//! Laws about floors files that were read at the right time, counterexamples, and worked cases.
//!
//! Floor: the first free factor of a token at a node.

ghost use Rattle.std.specs.Prelude.{◌≡◌, ◌≤◌, ℕ, ◌+◌, List, [], ◌∷◌, ◌++◌, None, Ok, Some, codes, length, map, slice_index, true};
ghost use Rattle.std.specs.declared.fs.attrs.Metadata.{Metadata};
ghost use Rattle.otp_core.specs.Gate.{clear_gate};
ghost use Rattle.otp_core.specs.Limits.{Limits, default_limits};
ghost use Rattle.token_file.specs.Credential.{Credential};
ghost use Rattle.token_file.specs.Examples.{event_token, time_token};
ghost use Rattle.token_file.specs.UsersFile.{book_of};
ghost use Rattle.token_file.specs.Writing.{row_text};
ghost use Rattle.token_file.specs.declared.fault.LineFault.TheVariants.{BadSecret, MissingField, Read};
ghost use Rattle.token_file.specs.declared.token.Kind.TheVariants.{Time30, Time60};
ghost use Rattle.floor_store.specs.Broken.{booted, broken_at, done, failed, fallen_at, holding, small_held, store_at, unsettled_at};
ghost use Rattle.floor_store.specs.Examples.{content_at, free_row, granted_row, later_row, new_pass, old_pass, two_rows};
ghost use Rattle.floor_store.specs.Records.{RowRecord};
ghost use Rattle.floor_store.specs.declared.fault.StoreFault.TheVariants.{Disk, Spent, Unusable};
ghost use Rattle.floor_sql.specs.Broken.{put_of, tables_at};
ghost use Rattle.floor_sql.specs.Schema.{floor_schema, undrifted_schema};
ghost use Rattle.vote_core.specs.Cases.{alone, own_floors};
ghost use Rattle.vote_core.specs.Safety.{MayOpen};
ghost use Rattle.vote_core.specs.Schedule.{Event, Opening, acceptances, all_most, cluster_before, first_opening};
ghost use Rattle.floors_file.specs.Examples.{first_floors, second_floors};
ghost use Rattle.floors_file.specs.Floors.{FloorsRecord};
ghost use Rattle.floors_file.specs.Gathered.{gathered_floors, is_among, lost_fault, members_of};
ghost use Rattle.floors_file.specs.declared.fault.LineFault.TheVariants.{NoEnd, NotFloors};
ghost use Rattle.floors_file.specs.declared.gathered.Asked.{Asked};
ghost use Rattle.floors_file.specs.declared.gathered.FileFault.TheVariants.{Boot};
ghost use Rattle.floors_file.specs.declared.gathered.FilesFault.TheVariants.{File, NotLost, TooManyLost};
ghost use Rattle.oath_node.specs.declared.fault.NodeFault.TheVariants.{Spent as NodeSpent, Stopped, Store as NodeStore};
ghost use Rattle.oath_node.specs.declared.fault.OpenFault.TheVariants.{Memory as OpenMemory, Store as OpenStore};
ghost use Rattle.oath_node.specs.declared.serve_fault.ServeFault.TheVariants.{Clock, Node, Port};
ghost use Rattle.oathd_database.specs.Anew.{AreAbove, AreMadeAnew, IsSameUser};
ghost use Rattle.oathd_database.specs.Broken.{IsOfClock, IsOfOne, asked_for, conn_of, drifting, failing, fallen, floors_fault, floors_text, lost_nodes, migrating, new_store, no_floors, no_users, one_book, shows_any, shows_none, small_conn, still, users_fault, whole};
ghost use Rattle.oathd_database.specs.Commands.{EndsOutput, HasImport, HasMade, HasMigrated, HasOpened, IsRefused};
ghost use Rattle.oathd_database.specs.Examples.{gate_with, opening_at, row_with, store_with, told_alone, two_closed};
ghost use Rattle.oathd_database.specs.Fault.{IsOpenFault, IsOutputFault, open_fault_of, serve_fault_of, status_of};
ghost use Rattle.oathd_database.specs.File.{IsEmptyFile};
ghost use Rattle.oathd_database.specs.Floors.{HasToldFloors, IsToldFault, told_floors, told_rows};
ghost use Rattle.oathd_database.specs.Gates.{gate_line, gate_row, gate_text, gates_text};
ghost use Rattle.oathd_database.specs.Gather.{gather_status};
ghost use Rattle.oathd_database.specs.Level.{HasLevelled, IsNotLevelled, IsPartLevelled, Levels, levelled, levelled_rows, told_by};
ghost use Rattle.oathd_database.specs.Lost.{HasFault, HasRemade, IsGathered, IsNotRemade, IsUngathered, IsUngatheredFor};
ghost use Rattle.oathd_database.specs.Reach.{AreFound, AreReadAfter, IsLastLoss};
ghost use Rattle.oathd_database.specs.Tables.{KeepsTables, WritesAudit};
ghost use Rattle.oathd_database.specs.Text.{WritesToken, audit_text, export_text};
ghost use Rattle.oathd_database.specs.Unlock.{HasUser, LacksUser, unlocked_content};
ghost use Rattle.oathd_database.specs.Users.{IsImported, IsUnread, drifted_floors};
ghost use Rattle.oathd_database.specs.declared.fault.Fault.TheVariants.{CannotWrite, Memory, NoClock, Socket, Store};
ghost use Rattle.oathd_database.specs.declared.gather.GatherFault.TheVariants.{Command, Files};

use vote_core::floors_tell_all;

/// Reach: after `check_lost` accepts floors files, their greatest floors are at least those that `Replaced` demands.
///
/// Each file was read after the last loss of the cluster, and every node that is named lost is lost.
pub fn files_reach()
    ensures { (n tokens : ℕ) (opening : Opening) (events : List Event) → MayOpen n tokens opening
        → (loss : ℕ) → IsLastLoss n tokens opening events loss
        → (book : List Credential) (own : List ℕ) (files : List FloorsRecord) → AreFound book
        → length own ≡ length book → AreReadAfter n tokens opening events loss book files
        → (asked : Asked) (node : ℕ) (lost : List ℕ) → lost_fault asked node lost book files ≡ None
        → members_of files ≡ n
        → ((other : ℕ) → is_among other lost ≡ true
        → (cluster_before n tokens opening events (loss + 1)).lost other ≡ true)
        → all_most (length book) (cluster_before n tokens opening events (length events)).least
        (slice_index (gathered_floors files book own)) ≡ true }
{
    floors_tell_all();
}

/// Replaced clusters: after `check_anew` accepts floors files, no factor of a user is accepted again.
///
/// Each file was read after the last acceptance of the former cluster (`AreMadeAnew`). The new nodes may open, whatever
/// earlier datagrams are still on their way. Their acceptances for a user begin above all former ones for the same
/// user. No new floor of a user is below the least floor of the same user at the former members' opening.
pub fn files_reach_anew()
    ensures may_open { (n tokens : ℕ) (opening : Opening) (events : List Event) (former book : List Credential)
        (files : List FloorsRecord) (members : ℕ) (next : Opening)
        → AreMadeAnew n tokens opening events former book files members next → MayOpen members (length book) next }
    ensures above { (n tokens : ℕ) (opening : Opening) (events : List Event) (former book : List Credential)
        (files : List FloorsRecord) (members : ℕ) (next : Opening)
        → AreMadeAnew n tokens opening events former book files members next → (later : List Event)
        → AreAbove former book (acceptances n tokens opening events)
        (acceptances members (length book) next later) }
    ensures no_lower { (n tokens : ℕ) (opening : Opening) (events : List Event) (former book : List Credential)
        (files : List FloorsRecord) (members : ℕ) (next : Opening)
        → AreMadeAnew n tokens opening events former book files members next
        → (old new least : ℕ) → IsSameUser former book old new
        → ((node : ℕ) → 1 ≤ node → node ≤ n → least ≤ opening.floor node old)
        → (node : ℕ) → 1 ≤ node → node ≤ members → least ≤ next.floor node new }
{}

/// Worked cases. One node used factors up to 13 in two boots. A floors file of it and a new users file, which has
/// another user first, replace its store.
pub fn anew_is_worked()
    ensures { AreMadeAnew 1 1 (first_opening own_floors) alone (event_token (codes "a") ∷ [])
        (event_token (codes "b") ∷ event_token (codes "a") ∷ []) (told_alone 14 ∷ []) 1 (opening_at 3 14) }
{}

/// Worked cases. `level` takes a greater floor and ignores a smaller or equal one. A user of no file keeps its floor.
/// Grants, gates, drifts, the boot and the last pass stay.
pub fn levelling_is_worked()
    ensures told { told_by (first_floors ∷ second_floors ∷ [])
        (event_token (codes "c") ∷ event_token (codes "a") ∷ event_token (codes "b") ∷ [])
        ≡ None ∷ Some 5 ∷ Some 3 ∷ [] }
    ensures rows { levelled_rows (Some 7 ∷ Some 1 ∷ Some 3 ∷ None ∷ [])
        (granted_row ∷ later_row ∷ free_row 3 ∷ free_row 9 ∷ [])
        ≡ record granted_row { next = 7 } ∷ later_row ∷ free_row 3 ∷ free_row 9 ∷ [] }
    ensures first_alone { levelled_rows (Some 7 ∷ []) (free_row 6 ∷ free_row 6 ∷ []) ≡ free_row 7 ∷ free_row 6 ∷ [] }
    ensures no_row { levelled_rows (Some 7 ∷ []) [] ≡ [] }
    ensures content { levelled (Some 7 ∷ Some 1 ∷ []) (two_rows granted_row later_row (Some old_pass))
        ≡ two_rows (record granted_row { next = 7 }) later_row (Some old_pass) }
{}

/// Worked cases. A drift raises the imported floors of time tokens, at most to the last one.
pub fn drifted_floors_are_worked()
    ensures later { drifted_floors 2 (event_token (codes "a") ∷ time_token Time30 ∷ time_token Time60 ∷ [])
        (5 ∷ 5 ∷ 0 ∷ []) ≡ 5 ∷ 7 ∷ 2 ∷ [] }
    ensures none { drifted_floors 0 (time_token Time30 ∷ []) (5 ∷ []) ≡ 5 ∷ [] }
    ensures last { drifted_floors 10 (time_token Time30 ∷ []) (4611686018427387900 ∷ []) ≡ 4611686018427387904 ∷ [] }
    ensures fewer { drifted_floors 1 (time_token Time30 ∷ []) [] ≡ [] }
    ensures no_token { drifted_floors 1 [] (5 ∷ []) ≡ [] }
{}

/// Counterexamples: each promise of an import, and of the fault that ends a command, fails for a minimal one.
pub fn imports_can_be_broken()
    ensures imported { IsImported default_limits 0 6 [] [] (codes "# none") }
    ensures imported_book { (users : List ℕ) → IsOfOne 0 11 users → IsImported default_limits 0 11 [] [] users → ⊥ }
    ensures imported_floors { (users : List ℕ) → IsOfOne 0 11 users
        → IsImported default_limits 0 11 one_book (1 ∷ []) users
        → ⊥ }
    ensures imported_longest { IsImported default_limits 0 5 [] [] (codes "# none") → ⊥ }
    ensures imported_at_the_moment { (limits : Limits) (moment : ℕ) (users : List ℕ)
        → IsImported limits moment 11 one_book (0 ∷ []) users
        → book_of 11 (record { skew = limits.skew; moment = moment }) users
        ≡ Ok (record { book = one_book; floors = 0 ∷ [] }) }
    ensures import { HasImport default_limits 0 6 (codes "# none") }
    ensures import_imported { HasImport default_limits 0 6 no_users → ⊥ }
    ensures import_longest { HasImport default_limits 0 5 (codes "# none") → ⊥ }

    // a users file that is not imported
    ensures unread { IsUnread default_limits 0 6 (users_fault 1 MissingField) no_users }
    ensures unread_for_memory { IsUnread default_limits 0 6 Memory (codes "# none") }
    ensures unread_in_line_1 { IsUnread default_limits 0 6 (users_fault 1 Read) [] }
    ensures unread_in_line_2 { IsUnread default_limits 0 6 (users_fault 2 Read) [] → ⊥ }
    ensures unread_line { IsUnread default_limits 0 6 (users_fault 2 MissingField) no_users → ⊥ }
    ensures unread_kind { IsUnread default_limits 0 6 (users_fault 1 BadSecret) no_users → ⊥ }
    ensures unread_output { IsUnread default_limits 0 6 CannotWrite no_users → ⊥ }
    ensures unread_clock { IsUnread default_limits 0 6 NoClock no_users → ⊥ }
    ensures unread_store { IsUnread default_limits 0 6 (Store Disk) no_users → ⊥ }
    ensures unread_socket { IsUnread default_limits 0 6 Socket no_users → ⊥ }

    // the faults of a command that creates, opens or migrates a store
    ensures refused { IsRefused default_limits 0 6 (Store Disk) (codes "# none") }
    ensures refused_for_memory { IsRefused default_limits 0 6 Memory no_users }
    ensures refused_users { IsRefused default_limits 0 6 (users_fault 1 MissingField) no_users }
    ensures refused_wrong_users { IsRefused default_limits 0 6 (users_fault 1 MissingField) (codes "# none") → ⊥ }
    ensures refused_before_import { IsRefused default_limits 0 6 (Store Disk) no_users → ⊥ }
    ensures refused_output { IsRefused default_limits 0 6 CannotWrite (codes "# none") → ⊥ }
    ensures refused_clock { IsRefused default_limits 0 6 NoClock (codes "# none") → ⊥ }
    ensures refused_socket { IsRefused default_limits 0 6 Socket (codes "# none") → ⊥ }

    // the faults of a command that writes
    ensures output { EndsOutput default_limits 0 6 CannotWrite (codes "# none") }
    ensures output_store { EndsOutput default_limits 0 6 (Store Disk) (codes "# none") }
    ensures output_for_memory { EndsOutput default_limits 0 6 Memory no_users }
    ensures output_users { EndsOutput default_limits 0 6 (users_fault 1 MissingField) no_users }
    ensures output_wrong_users { EndsOutput default_limits 0 6 (users_fault 1 MissingField) (codes "# none") → ⊥ }
    ensures output_before_import { EndsOutput default_limits 0 6 CannotWrite no_users → ⊥ }
    ensures output_store_before_import { EndsOutput default_limits 0 6 (Store Disk) no_users → ⊥ }
    ensures output_clock { EndsOutput default_limits 0 6 NoClock (codes "# none") → ⊥ }
    ensures output_socket { EndsOutput default_limits 0 6 Socket (codes "# none") → ⊥ }

    // the faults of a store's calls, and an empty file
    ensures of_output { IsOutputFault None CannotWrite × IsOutputFault (Some Disk) (Store Disk) }
    ensures of_output_works { IsOutputFault None (Store Disk) → ⊥ }
    ensures of_output_other { IsOutputFault (Some Unusable) (Store Disk) → ⊥ }
    ensures of_output_memory { IsOutputFault (Some Disk) Memory → ⊥ }
    ensures of_output_clock { IsOutputFault (Some Disk) NoClock → ⊥ }
    ensures of_output_users { IsOutputFault (Some Disk) (users_fault 1 MissingField) → ⊥ }
    ensures of_output_socket { IsOutputFault (Some Disk) Socket → ⊥ }
    ensures of_opening { IsOpenFault Memory × IsOpenFault (Store Disk) }
    ensures of_opening_output { IsOpenFault CannotWrite → ⊥ }
    ensures of_opening_clock { IsOpenFault NoClock → ⊥ }
    ensures of_opening_users { IsOpenFault (users_fault 1 MissingField) → ⊥ }
    ensures of_opening_socket { IsOpenFault Socket → ⊥ }
    ensures of_telling { IsToldFault Memory × IsToldFault CannotWrite × IsToldFault (Store Disk) }
    ensures of_telling_clock { IsToldFault NoClock → ⊥ }
    ensures of_telling_users { IsToldFault (users_fault 1 MissingField) → ⊥ }
    ensures of_telling_socket { IsToldFault Socket → ⊥ }
    ensures empty { (found : Metadata) → IsEmptyFile (record found { mode = 33152; size = 0 }) }
    ensures filled { (found : Metadata) → IsEmptyFile (record found { mode = 33152; size = 1 }) → ⊥ }
    ensures no_file { (found : Metadata) → IsEmptyFile (record found { mode = 16832; size = 0 }) → ⊥ }
{}

/// Counterexamples: each promise of a command over a database fails for a minimal one.
pub fn commands_can_be_broken()
    // a store is created
    ensures made { (users : List ℕ) → IsOfClock users
        → HasMade fallen shows_any (drifting 2) 59 15 1 (new_store 0 (5 ∷ [])) users }
    ensures made_import { HasMade fallen shows_any default_limits 0 11 1 (new_store 0 []) no_users → ⊥ }
    ensures made_drift { (users : List ℕ) → IsOfClock users
        → HasMade fallen shows_any (drifting 2) 59 15 1 (new_store 0 (3 ∷ [])) users → ⊥ }
    ensures made_longest { HasMade fallen shows_any default_limits 0 5 1 (new_store 0 []) (codes "# none") → ⊥ }
    ensures made_boot { (users : List ℕ) → IsOfOne 0 11 users
        → HasMade fallen shows_any default_limits 0 11 1 (new_store 1 (0 ∷ [])) users → ⊥ }
    ensures made_node { HasMade (still (tables_at 0 [])) shows_any default_limits 0 11 2 (new_store 0 []) [] → ⊥ }
    ensures made_found { HasMade (still (tables_at 0 [])) shows_none default_limits 0 11 1 (new_store 0 []) [] → ⊥ }

    // a store is opened
    ensures opened { HasOpened fallen shows_any (Some 1) 0 (new_store 4 []) × HasOpened fallen shows_any None 0
        (new_store 4 []) }
    ensures opened_given { HasOpened (still (tables_at 4 [])) shows_any (Some 2) 0 (new_store 4 []) → ⊥ }
    ensures opened_tokens { HasOpened (still (tables_at 4 [])) shows_any None 1 (new_store 4 []) → ⊥ }
    ensures opened_content { HasOpened (still (tables_at 4 [])) shows_any None 0 (new_store 5 []) → ⊥ }
    ensures opened_broken { HasOpened fallen shows_any None 0 (record (new_store 4 []) { fault = Some Disk }) → ⊥ }
    ensures opened_found { HasOpened (still (tables_at 4 [])) shows_none None 0 (new_store 4 []) → ⊥ }
    ensures opened_on_a_fallen_disk { HasOpened fallen shows_none (Some 1) 0 (new_store 4 []) }

    // a store is migrated
    ensures migrated { (users : List ℕ) → IsOfOne 0 11 users
        → HasMigrated fallen shows_any default_limits 0 11 1 small_conn users }
    ensures migrated_import { HasMigrated fallen shows_any default_limits 0 11 1 small_conn no_users → ⊥ }
    ensures migrated_longest { HasMigrated fallen shows_any default_limits 0 5 1 small_conn (codes "# none") → ⊥ }
    ensures migrated_idle { (users : List ℕ) → IsOfOne 0 11 users
        → HasMigrated fallen shows_any default_limits 0 11 1 (record small_conn { in_transaction = true }) users → ⊥ }
    ensures migrated_node { HasMigrated migrating shows_any default_limits 0 11 2 (conn_of floor_schema 1) [] → ⊥ }
    ensures migrated_found { HasMigrated migrating shows_none default_limits 0 11 1 (conn_of floor_schema 1) [] → ⊥ }
    ensures migrated_tokens { (users : List ℕ) → IsOfOne 0 11 users
        → HasMigrated migrating shows_any default_limits 0 11 1 (conn_of floor_schema 1) users → ⊥ }

    // the tables of a store stay, and its passes are written
    ensures kept { KeepsTables (still (tables_at 4 [])) (new_store 4 []) (new_store 4 []) }
    ensures kept_mirror { KeepsTables fallen (new_store 4 []) (new_store 5 []) → ⊥ }
    ensures kept_staged { KeepsTables fallen (record (new_store 4 []) { staged = put_of 0 (free_row 5) None ∷ [] })
        (new_store 4 []) → ⊥ }
    ensures kept_passes { KeepsTables fallen (record (new_store 4 []) { passes = 1 }) (new_store 4 []) → ⊥ }
    ensures kept_tables { KeepsTables (still (tables_at 4 [])) (new_store 4 [])
        (record (new_store 4 []) { conn = conn_of undrifted_schema 0 }) → ⊥ }
    ensures kept_survives { KeepsTables fallen (new_store 4 [])
        (record (new_store 4 []) { conn = record small_conn { step_limit = Some 7 } }) → ⊥ }
    ensures audit { WritesAudit (still (tables_at 4 [])) (new_store 4 []) (Some []) (Some []) }
    ensures audit_committed { WritesAudit (still (tables_at 4 [])) (new_store 4 []) (Some [])
        (Some (audit_text (old_pass ∷ []))) → ⊥ }
    ensures audit_written { WritesAudit (still (tables_at 4 [])) (new_store 4 []) (Some []) (Some (codes "x")) → ⊥ }

    // the floors file of a store is written
    ensures told { (users : List ℕ) → IsOfOne 0 11 users
        → HasToldFloors fallen shows_any default_limits 11 1 3 5 (Some []) (Some []) users }
    ensures told_import { HasToldFloors fallen shows_any default_limits 11 1 3 5 (Some []) (Some []) no_users → ⊥ }
    ensures told_longest { HasToldFloors fallen shows_any default_limits 5 1 3 5 (Some []) (Some []) (codes "# none")
        → ⊥ }
    ensures told_opened { HasToldFloors (still (tables_at 4 [])) shows_any default_limits 11 2 3 5 (Some [])
        (Some (codes "floors 1 2 3 4 5 0\n")) [] → ⊥ }
    ensures told_written { HasToldFloors (still (tables_at 4 [])) shows_any default_limits 11 1 3 5 (Some [])
        (Some (codes "x")) [] → ⊥ }
{}

/// Counterexamples: each promise of a command over floors files fails for a minimal one.
pub fn floors_can_be_broken()
    // floors files are sufficient, or have a fault
    ensures gathered { IsGathered (asked_for 8) 1 None one_book (0 ∷ []) (floors_text (codes "a 5") ∷ []) (5 ∷ []) }
    ensures gathered_read { IsGathered (asked_for 8) 1 None [] [] (codes "x" ∷ []) [] → ⊥ }
    ensures gathered_told { IsGathered (asked_for 7) 1 None one_book (0 ∷ []) (floors_text (codes "a 5") ∷ []) (5 ∷ [])
        → ⊥ }
    ensures gathered_greatest { IsGathered (asked_for 8) 1 None one_book (0 ∷ []) (floors_text (codes "a 5") ∷ [])
        (6 ∷ []) → ⊥ }
    ensures gathered_lost { IsGathered (asked_for 8) 1 (lost_nodes (2 ∷ [])) one_book (0 ∷ [])
        (floors_text (codes "a 5") ∷ []) (5 ∷ []) → ⊥ }
    ensures fault { HasFault (asked_for 7) 1 None one_book (floors_text (codes "a 5") ∷ []) (File 1 Boot) }
    ensures fault_read { HasFault (asked_for 8) 1 None [] (codes "x" ∷ []) TooManyLost → ⊥ }
    ensures fault_told { HasFault (asked_for 7) 1 None one_book (floors_text (codes "a 5") ∷ []) TooManyLost → ⊥ }
    ensures fault_of_none { HasFault (asked_for 8) 1 None one_book (floors_text (codes "a 5") ∷ []) (File 1 Boot) → ⊥ }
    ensures fault_of_lost { HasFault (asked_for 8) 1 (lost_nodes (2 ∷ [])) one_book (floors_text (codes "a 5") ∷ [])
        NotLost }

    // nothing is gathered
    ensures ungathered { IsUngathered (asked_for 8) 1 None [] (codes "x" ∷ []) (floors_fault 1 1 NotFloors) }
    ensures ungathered_files { IsUngathered (asked_for 8) 1 None [] [] (Files TooManyLost) }
    ensures ungathered_memory { IsUngathered (asked_for 8) 1 None [] [] (Command Memory) }
    ensures ungathered_command { IsUngathered (asked_for 8) 1 None [] [] (Command (Store Disk)) → ⊥ }
    ensures ungathered_number { IsUngathered (asked_for 8) 1 None [] (codes "x" ∷ []) (floors_fault 2 1 NotFloors) → ⊥ }
    ensures ungathered_line { IsUngathered (asked_for 8) 1 None [] (codes "x" ∷ []) (floors_fault 1 2 NotFloors) → ⊥ }
    ensures ungathered_kind { IsUngathered (asked_for 8) 1 None [] (codes "x" ∷ []) (floors_fault 1 1 NoEnd) → ⊥ }
    ensures ungathered_other { IsUngathered (asked_for 8) 1 None [] [] (Files NotLost) → ⊥ }
    ensures ungathered_for { (users : List ℕ) → IsOfOne 0 11 users
        → IsUngatheredFor default_limits 0 11 whole [] (Files TooManyLost) users }
    ensures ungathered_for_import { IsUngatheredFor default_limits 0 11 whole [] (Files TooManyLost) no_users → ⊥ }
    ensures ungathered_for_cause { (users : List ℕ) → IsOfOne 0 11 users
        → IsUngatheredFor default_limits 0 11 whole [] (Files NotLost) users → ⊥ }

    // no store is replaced
    ensures not_remade { (users : List ℕ) → IsOfOne 0 11 users
        → IsNotRemade default_limits 0 11 whole [] (Files TooManyLost) users }
    ensures not_remade_floors { (users : List ℕ) → IsOfOne 0 11 users
        → IsNotRemade default_limits 0 11 whole (codes "x" ∷ []) (floors_fault 1 1 NotFloors) users }
    ensures not_remade_store { (users : List ℕ) → IsOfOne 0 11 users
        → IsNotRemade default_limits 0 11 whole [] (Command (Store Disk)) users }
    ensures not_remade_output { (users : List ℕ) → IsOfOne 0 11 users
        → IsNotRemade default_limits 0 11 whole [] (Command CannotWrite) users → ⊥ }
    ensures not_remade_before_import { IsNotRemade default_limits 0 11 whole [] (Files TooManyLost) no_users → ⊥ }
    ensures not_remade_other { (users : List ℕ) → IsOfOne 0 11 users
        → IsNotRemade default_limits 0 11 whole [] (Files NotLost) users → ⊥ }
    ensures not_remade_number { (users : List ℕ) → IsOfOne 0 11 users
        → IsNotRemade default_limits 0 11 whole (codes "x" ∷ []) (floors_fault 2 1 NotFloors) users → ⊥ }

    // a store is replaced
    ensures remade { (users : List ℕ) → IsOfOne 1 11 users
        → HasRemade fallen shows_any default_limits 1 11 whole (floors_text (codes "a 5") ∷ [])
        (new_store 1048576 (5 ∷ [])) users }
    ensures remade_import { HasRemade fallen shows_any default_limits 1 11 whole (floors_text (codes "a 5") ∷ [])
        (new_store 1048576 (5 ∷ [])) no_users → ⊥ }
    ensures remade_gathered { (users : List ℕ) → IsOfOne 1 11 users
        → HasRemade fallen shows_any default_limits 1 11 whole [] (new_store 1048576 (5 ∷ [])) users → ⊥ }
    ensures remade_floors { (users : List ℕ) → IsOfOne 1 11 users
        → HasRemade fallen shows_any default_limits 1 11 whole (floors_text (codes "a 5") ∷ [])
        (new_store 1048576 (0 ∷ [])) users → ⊥ }
    ensures remade_boot { (users : List ℕ) → IsOfOne 1 11 users
        → HasRemade fallen shows_any default_limits 1 11 whole (floors_text (codes "a 5") ∷ []) (new_store 0 (5 ∷ []))
        users → ⊥ }
    ensures remade_own { (users : List ℕ) → IsOfClock users
        → HasRemade fallen shows_any (drifting 2) 59 15 whole (floors_text (codes "a 5") ∷ [])
        (new_store 61865984 (3 ∷ [])) users → ⊥ }
    ensures remade_since { (users : List ℕ) → IsOfOne 1 11 users
        → HasRemade fallen shows_any default_limits 1 11 (record whole { since = 1 }) (floors_text (codes "a 5") ∷ [])
        (new_store 1048576 (5 ∷ [])) users → ⊥ }
    ensures remade_node { HasRemade (still (tables_at 1048576 [])) shows_any default_limits 1 11
        (record whole { node = 2 }) (no_floors ∷ []) (new_store 1048576 []) [] → ⊥ }
    ensures remade_found { HasRemade (still (tables_at 1048576 [])) shows_none default_limits 1 11 whole []
        (new_store 1048576 []) [] → ⊥ }

    // the floors of a store are raised
    ensures part { IsPartLevelled (Some 7 ∷ Some 8 ∷ []) (two_rows (free_row 5) (free_row 6) None)
        (two_rows (free_row 7) (free_row 6) None) }
    ensures part_is { IsPartLevelled [] (content_at 4 (free_row 5 ∷ [])) (content_at 4 (free_row 7 ∷ [])) → ⊥ }
    ensures part_boot { IsPartLevelled (Some 7 ∷ []) (content_at 4 (free_row 5 ∷ [])) (content_at 5 (free_row 5 ∷ []))
        → ⊥ }
    ensures levels { Levels small_held (holding (content_at 4 (free_row 5 ∷ [])))
        (holding (content_at 4 (free_row 7 ∷ []))) (Some 7 ∷ []) done }
    ensures levels_failed { Levels small_held (holding (content_at 4 (free_row 5 ∷ [])))
        (failing (content_at 4 (free_row 5 ∷ []))) (Some 7 ∷ []) failed }
    ensures levels_ok { Levels small_held (holding (content_at 4 (free_row 5 ∷ [])))
        (holding (content_at 4 (free_row 5 ∷ []))) (Some 7 ∷ []) done → ⊥ }
    ensures levels_err { Levels small_held (store_at 0) (broken_at 1) [] failed → ⊥ }
    ensures levels_left { Levels small_held (store_at 0) (record (broken_at 0) { other = booted 1 }) [] failed → ⊥ }
    ensures levels_settled { Levels small_held (unsettled_at 0 1) (unsettled_at 0 1) [] done → ⊥ }
    ensures levels_clean { Levels small_held (fallen_at 0) (store_at 0) [] done → ⊥ }
    ensures levelled { (users : List ℕ) → IsOfOne 0 11 users
        → HasLevelled fallen shows_any default_limits 11 1 [] (new_store 4 []) users }
    ensures levelled_import { HasLevelled fallen shows_any default_limits 11 1 [] (new_store 4 []) no_users → ⊥ }
    ensures levelled_longest { HasLevelled fallen shows_any default_limits 5 1 [] (new_store 4 []) (codes "# none")
        → ⊥ }
    ensures levelled_read { (users : List ℕ) → IsOfOne 0 11 users
        → HasLevelled fallen shows_any default_limits 11 1 (codes "x" ∷ []) (new_store 4 []) users → ⊥ }
    ensures levelled_opened { HasLevelled (still (tables_at 4 [])) shows_any default_limits 11 2 [] (new_store 4 []) []
        → ⊥ }
    ensures levelled_levels { HasLevelled (still (tables_at 4 [])) shows_any default_limits 11 1 [] (new_store 5 []) []
        → ⊥ }
    ensures not_levelled { IsNotLevelled default_limits 11 (codes "x" ∷ []) (floors_fault 1 1 NotFloors) no_users }
    ensures not_levelled_store { (users : List ℕ) → IsOfOne 0 11 users
        → IsNotLevelled default_limits 11 [] (Command (Store Disk)) users }
    ensures not_levelled_number { IsNotLevelled default_limits 11 (codes "x" ∷ []) (floors_fault 2 1 NotFloors) no_users
        → ⊥ }
    ensures not_levelled_kind { IsNotLevelled default_limits 11 [] (floors_fault 1 1 NotFloors) no_users → ⊥ }
    ensures not_levelled_files { (users : List ℕ) → IsOfOne 0 11 users
        → IsNotLevelled default_limits 11 [] (Files TooManyLost) users → ⊥ }
    ensures not_levelled_output { (users : List ℕ) → IsOfOne 0 11 users
        → IsNotLevelled default_limits 11 [] (Command CannotWrite) users → ⊥ }
    ensures not_levelled_before_import { IsNotLevelled default_limits 11 [] (Command (Store Disk)) no_users → ⊥ }
{}

/// Worked cases. The users file, the passes and the floors file of a store, as text.
pub fn texts_are_worked()
    ensures exported { (first second : Credential) (row later : RowRecord)
        → export_text (first ∷ second ∷ []) (row ∷ later ∷ [])
        ≡ row_text first row.next ++ row_text second later.next ++ [] }
    ensures exported_no_row { export_text one_book [] ≡ [] }
    ensures exported_no_token { export_text [] (free_row 5 ∷ []) ≡ [] }
    ensures passes { audit_text (old_pass ∷ new_pass ∷ []) ≡ codes "pass 1 0 5 5 4 8\npass 2 1 0 1 4 9\n" }
    ensures no_passes { audit_text [] ≡ [] }
    ensures told { told_floors 2 3 59 (event_token (codes "a") ∷ event_token (codes "b") ∷ [])
        (two_rows granted_row later_row (Some old_pass)) ≡ record {
          head = record { node = 2; members = 3; boot = 4; moment = 59 };
          rows = record { user = codes "a"; next = 6 } ∷ record { user = codes "b"; next = 2 } ∷ [];
        } }
    ensures told_no_row { told_rows one_book [] ≡ [] }
    ensures told_no_token { told_rows [] (free_row 5 ∷ []) ≡ [] }
{}

/// Worked cases. The exit statuses, and a command's fault for each fault of a node.
pub fn faults_are_worked()
    ensures statuses { map status_of (Memory ∷ CannotWrite ∷ NoClock ∷ users_fault 1 MissingField ∷ Store Disk ∷ Socket
        ∷ []) ≡ 1 ∷ 1 ∷ 1 ∷ 1 ∷ 3 ∷ 4 ∷ [] }
    ensures of_floors { map gather_status (Command Memory ∷ Command (Store Disk) ∷ Command Socket
        ∷ floors_fault 1 1 NotFloors ∷ Files TooManyLost ∷ []) ≡ 1 ∷ 3 ∷ 4 ∷ 1 ∷ 1 ∷ [] }
    ensures openings { map open_fault_of (OpenMemory ∷ OpenStore Unusable ∷ []) ≡ Memory ∷ Store Unusable ∷ [] }
    ensures turns { map serve_fault_of (Node (NodeStore Unusable) ∷ Node Stopped ∷ Node NodeSpent ∷ Port ∷ Clock ∷ [])
        ≡ Store Unusable ∷ Store Spent ∷ Store Spent ∷ Socket ∷ NoClock ∷ [] }
{}

/// Worked cases. Gates as text: a token without failures has no line, whatever its moment.
pub fn gates_are_worked()
    ensures line { gate_line (codes "ann") (gate_with 3 115) ≡ codes "gate ann 3 115\n" }
    ensures one { gate_text (event_token (codes "ann")) (gate_with 1 0) ≡ codes "gate ann 1 0\n" }
    ensures none { gate_text (event_token (codes "ann")) (gate_with 0 115) ≡ [] }
    ensures rows { gates_text (event_token (codes "a") ∷ event_token (codes "b") ∷ event_token (codes "c") ∷ [])
        (row_with (gate_with 2 10) ∷ row_with clear_gate ∷ row_with (gate_with 10000 1099511677775) ∷ [])
        ≡ codes "gate a 2 10\ngate c 10000 1099511677775\n" }
    ensures no_rows { gates_text [] [] ≡ [] }
{}

/// Worked cases. Unlocking clears the gate of one row. The other rows, the rest of the row, the boot and the last pass
/// stay. The number of no token changes nothing.
pub fn unlocking_is_worked()
    ensures first { unlocked_content (store_with two_closed) 0
        ≡ store_with (row_with clear_gate ∷ row_with (gate_with 1 105) ∷ []) }
    ensures second { unlocked_content (store_with two_closed) 1
        ≡ store_with (row_with (gate_with 3 115) ∷ row_with clear_gate ∷ []) }
    ensures open_one { unlocked_content (store_with (row_with clear_gate ∷ [])) 0
        ≡ store_with (row_with clear_gate ∷ []) }
    ensures no_token { unlocked_content (store_with two_closed) 2 ≡ store_with two_closed }
{}

/// Counterexamples: each promise of `gates` and `unlock` fails for a minimal one.
pub fn gates_can_be_broken()
    // a user in a users file, and a user that it lacks
    ensures user { (users : List ℕ) → IsOfOne 0 11 users → HasUser default_limits 11 (codes "a") users }
    ensures user_import { HasUser default_limits 11 (codes "a") no_users → ⊥ }
    ensures user_of_nobody { (users : List ℕ) → IsOfOne 0 11 users → HasUser default_limits 11 (codes "b") users → ⊥ }
    ensures lacks { LacksUser default_limits 11 (codes "a") [] }
    ensures lacks_import { LacksUser default_limits 11 (codes "a") no_users → ⊥ }
    ensures lacks_longest { LacksUser default_limits 5 (codes "a") (codes "# none") → ⊥ }
    ensures lacks_known { (users : List ℕ) → IsOfOne 0 11 users → LacksUser default_limits 11 (codes "a") users → ⊥ }

    // the gate of a token is written
    ensures gate { WritesToken gate_row (event_token (codes "a") ∷ []) (row_with (gate_with 2 10) ∷ []) 0 (Some [])
        (Some (codes "gate a 2 10\n")) }
    ensures gate_token { WritesToken gate_row (event_token (codes "a") ∷ []) (row_with (gate_with 2 10) ∷ []) 0
        (Some []) (Some (codes "gate b 2 10\n")) → ⊥ }
    ensures gate_row { WritesToken gate_row (event_token (codes "a") ∷ []) (row_with (gate_with 2 10) ∷ []) 0 (Some [])
        (Some (codes "gate a 3 10\n")) → ⊥ }
    ensures gate_written { WritesToken gate_row (event_token (codes "a") ∷ []) (row_with clear_gate ∷ []) 0 (Some [])
        (Some (codes "x")) → ⊥ }
{}
