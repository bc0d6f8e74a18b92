//! The laws of floors by names, and the worked cases and counterexamples of their definitions.

ghost use Rattle.std.specs.Prelude.{◌≡◌, ℕ, List, [], ◌∷◌, true, false, length, map, replicate, slice_get, Some, None, Ok, Err, ⊤};
ghost use Rattle.sqlite.specs.Effect.{Database};
ghost use Rattle.sqlite.specs.Held.{Held as Conn, state};
ghost use Rattle.sqlite.specs.State.{HasCleanDisk};
ghost use Rattle.sqlite.specs.Tree.{Trees};
ghost use Rattle.floor_sql.specs.Created.{has_own_table, no_schema};
ghost use Rattle.floor_sql.specs.Shown.{IsLeft};
ghost use Rattle.floor_store.specs.Broken.{booted, broken_at, done, failed, fallen_at, holding, small_held, store_at, unsettled_at};
ghost use Rattle.floor_store.specs.Examples.{content_at, free_row, granted_row, later_row, old_pass, two_rows};
ghost use Rattle.floor_store.specs.declared.fault.StoreFault.TheVariants.{AlreadyThere, Spent, Unusable};
ghost use Rattle.floors_file.specs.declared.named.NamedFloor.{NamedFloor};
ghost use Rattle.floors_file.specs.NamedExamples.{heard_boot};
ghost use Rattle.floors_file.specs.NamedGathered.{AreDifferent};
ghost use Rattle.named_store.specs.Seating.{AreDistinct, has_name};
ghost use Rattle.named_store.specs.declared.fault.NamedFault.TheVariants.{AnotherCluster, Full, Store};
ghost use Rattle.roster_sql.specs.Examples.{entry_of};
ghost use Rattle.roster_sql.specs.declared.entry.Entry.{Entry};
ghost use Rattle.named_floors.specs.Examples.{failing, gathered_two, name_of, own_two, row_of, telling};
ghost use Rattle.named_floors.specs.Level.{IsPartLevelled, Levels, levelled, levelled_rows, told_by};
ghost use Rattle.named_floors.specs.Made.{IsUnmade, Makes};
ghost use Rattle.named_floors.specs.Remade.{HasRemade, IsTaken, gathered_entries, remade_entries, remade_floors, seed_in};
ghost use Rattle.named_floors.specs.Told.{told_heard, told_named, told_rows};

use sqlite::Alter;

/// Worked cases. The file has a row for each row of the store. It has no boot of the node, of a number without a
/// member, or of 0.
pub fn told_are_worked()
    ensures rows { told_rows (entry_of 1 2 ∷ entry_of 3 4 ∷ []) (free_row 5 ∷ granted_row ∷ [])
        ≡ row_of 1 2 5 ∷ row_of 3 4 6 ∷ [] }
    ensures no_rows { told_rows [] [] ≡ [] }
    ensures row_without_an_entry { told_rows [] (free_row 5 ∷ []) ≡ [] }
    ensures entry_without_a_row { told_rows (entry_of 1 2 ∷ []) [] ≡ [] }
    ensures others { told_heard 2 3 (9 ∷ 7 ∷ 8 ∷ 6 ∷ 5 ∷ []) ≡ heard_boot 1 7 ∷ heard_boot 3 6 ∷ [] }
    ensures never_heard { told_heard 3 3 (9 ∷ 0 ∷ 8 ∷ []) ≡ heard_boot 2 8 ∷ [] }
    ensures none_heard { told_heard 1 3 (replicate 10 0) ≡ [] }
    ensures file { told_named (telling 2) (entry_of 1 2 ∷ []) (0 ∷ 7 ∷ 8 ∷ 0 ∷ []) (content_at 4 (free_row 5 ∷ []))
        ≡ record {
          head = record { node = 2; members = 3; boot = 4; moment = 100; names = name_of 110; life = name_of 108 };
          rows = row_of 1 2 5 ∷ [];
          heard = heard_boot 1 7 ∷ [];
        } }
{}

/// Worked cases. A gathered row is first, with its own floor. It has the seed of the token with its name, or its own. A
/// new token has the greatest floor of its seed.
pub fn remade_are_worked()
    ensures seeds { map (λ name. seed_in name own_two) (name_of 3 ∷ name_of 5 ∷ name_of 7 ∷ [])
        ≡ Some (name_of 4) ∷ Some (name_of 6) ∷ None ∷ [] }
    ensures first_of_two { seed_in (name_of 3) (entry_of 3 4 ∷ entry_of 3 6 ∷ []) ≡ Some (name_of 4) }
    ensures entries { remade_entries gathered_two own_two ≡ entry_of 1 2 ∷ entry_of 3 4 ∷ entry_of 5 6 ∷ [] }
    ensures floors { remade_floors gathered_two own_two (40 ∷ 50 ∷ []) ≡ 10 ∷ 20 ∷ 50 ∷ [] }
    ensures seeded_entries { remade_entries gathered_two (entry_of 5 4 ∷ entry_of 3 4 ∷ [])
        ≡ entry_of 1 2 ∷ entry_of 3 4 ∷ entry_of 5 4 ∷ [] }
    ensures seeded { remade_floors gathered_two (entry_of 5 4 ∷ entry_of 3 4 ∷ []) (15 ∷ 0 ∷ []) ≡ 10 ∷ 20 ∷ 20 ∷ [] }
    ensures own_is_greater { remade_floors gathered_two (entry_of 5 4 ∷ entry_of 3 4 ∷ []) (25 ∷ 0 ∷ [])
        ≡ 10 ∷ 20 ∷ 25 ∷ [] }
    ensures renamed_entries { remade_entries gathered_two (entry_of 5 2 ∷ entry_of 6 7 ∷ [])
        ≡ entry_of 1 2 ∷ entry_of 3 7 ∷ entry_of 5 2 ∷ entry_of 6 7 ∷ [] }
    ensures renamed { remade_floors gathered_two (entry_of 5 2 ∷ entry_of 6 7 ∷ []) (3 ∷ 4 ∷ [])
        ≡ 10 ∷ 20 ∷ 10 ∷ 20 ∷ [] }
    ensures nothing_gathered { remade_floors [] own_two (40 ∷ 50 ∷ []) ≡ 40 ∷ 50 ∷ [] }
    ensures no_tokens { remade_entries gathered_two [] ≡ entry_of 1 2 ∷ entry_of 3 7 ∷ [] }
{}

/// Worked cases. A greater floor is taken, and a smaller or an equal one is ignored. Other names are passed over. The
/// grants, the boot and the last pass stay.
pub fn levels_are_worked()
    ensures told { told_by gathered_two (entry_of 5 6 ∷ entry_of 3 4 ∷ entry_of 1 2 ∷ [])
        ≡ None ∷ Some 20 ∷ Some 10 ∷ [] }
    ensures rows { levelled_rows (Some 7 ∷ Some 1 ∷ Some 3 ∷ None ∷ [])
        (granted_row ∷ later_row ∷ free_row 3 ∷ free_row 9 ∷ [])
        ≡ record granted_row { next = 7 } ∷ later_row ∷ free_row 3 ∷ free_row 9 ∷ [] }
    ensures first_alone { levelled_rows (Some 7 ∷ []) (free_row 6 ∷ free_row 6 ∷ []) ≡ free_row 7 ∷ free_row 6 ∷ [] }
    ensures no_row { levelled_rows (Some 7 ∷ []) [] ≡ [] }
    ensures content { levelled (Some 7 ∷ Some 1 ∷ []) (two_rows granted_row later_row (Some old_pass))
        ≡ two_rows (record granted_row { next = 7 }) later_row (Some old_pass) }
{}

/// Nothing is lost: each gathered row is there with its floor, and with its seed if no token has its name. Each token
/// whose name is not gathered is there too.
///
/// The floor of its row is then at least its own floor, and at least the floor of each gathered row with its seed.
pub fn remade_lose_nothing()
    ensures gathered { (gathered : List NamedFloor) (names : List Entry) (floors : List ℕ) (place : ℕ)
        (row : NamedFloor) → slice_get gathered place ≡ Some row
        → HasRemade gathered names floors place row }
    ensures tokens { (gathered : List NamedFloor) (names : List Entry) (floors : List ℕ) (token : ℕ) (e : Entry)
        (floor : ℕ) → slice_get names token ≡ Some e → slice_get floors token ≡ Some floor
        → has_name (gathered_entries names gathered) e.name ≡ false → IsTaken gathered names floors e floor }
{}

/// No two rows have one name, if no two gathered rows have one and no two tokens do.
pub fn remade_are_distinct()
    ensures { (gathered : List NamedFloor) (names : List Entry) → AreDifferent gathered → AreDistinct names
        → AreDistinct (remade_entries gathered names) }
{}

/// Counterexamples: each promise of raised floors and of a remade store fails for a minimal one.
pub fn floors_can_be_broken()
    ensures row { HasRemade gathered_two own_two (40 ∷ 50 ∷ []) 1 (row_of 3 7 20) }
    ensures row_named { HasRemade gathered_two own_two (40 ∷ 50 ∷ []) 1 (row_of 1 7 20) → ⊥ }
    ensures row_floor { HasRemade gathered_two own_two (40 ∷ 50 ∷ []) 1 (row_of 3 7 10) → ⊥ }
    ensures row_with_its_seed { HasRemade gathered_two own_two (40 ∷ 50 ∷ []) 0 (row_of 1 2 10) }
    ensures first_seed { HasRemade gathered_two own_two (40 ∷ 50 ∷ []) 0 (row_of 1 7 10) → ⊥ }
    ensures second_seed { HasRemade gathered_two [] [] 1 (row_of 3 2 20) → ⊥ }
    ensures taken { IsTaken gathered_two own_two (40 ∷ 50 ∷ []) (entry_of 5 6) 50 }
    ensures taken_entry { IsTaken gathered_two own_two (40 ∷ 50 ∷ []) (entry_of 7 6) 0 → ⊥ }
    ensures taken_own { IsTaken gathered_two own_two (40 ∷ 50 ∷ []) (entry_of 5 6) 51 → ⊥ }
    ensures taken_seeded { IsTaken gathered_two (entry_of 1 4 ∷ entry_of 3 4 ∷ []) (0 ∷ 0 ∷ []) (entry_of 1 4) 0 → ⊥ }
    ensures part { IsPartLevelled (Some 7 ∷ Some 8 ∷ []) (two_rows (free_row 5) (free_row 6) None)
        (two_rows (free_row 7) (free_row 6) None) }
    ensures part_is { IsPartLevelled [] (content_at 4 (free_row 5 ∷ [])) (content_at 4 (free_row 7 ∷ [])) → ⊥ }
    ensures part_boot { IsPartLevelled (Some 7 ∷ []) (content_at 4 (free_row 5 ∷ [])) (content_at 5 (free_row 5 ∷ []))
        → ⊥ }
    ensures levels { Levels small_held (holding (content_at 4 (free_row 5 ∷ [])))
        (holding (content_at 4 (free_row 7 ∷ []))) (Some 7 ∷ []) done }
    ensures levels_failed { Levels small_held (holding (content_at 4 (free_row 5 ∷ [])))
        (failing (content_at 4 (free_row 5 ∷ []))) (Some 7 ∷ []) failed }
    ensures levels_ok { Levels small_held (holding (content_at 4 (free_row 5 ∷ free_row 6 ∷ [])))
        (holding (content_at 4 (free_row 7 ∷ free_row 6 ∷ []))) (Some 7 ∷ Some 8 ∷ []) done → ⊥ }
    ensures levels_err { Levels small_held (store_at 0) (broken_at 1) [] failed → ⊥ }
    ensures levels_left { Levels small_held (store_at 0) (record (broken_at 0) { other = booted 1 }) [] failed → ⊥ }
    ensures levels_settled { Levels small_held (unsettled_at 0 1) (unsettled_at 0 1) [] done → ⊥ }
    ensures levels_intact { Levels small_held (broken_at 0) (broken_at 0) [] done → ⊥ }
    ensures levels_stays { Levels small_held (broken_at 0) (record (broken_at 0) { failures = 2 }) [] failed → ⊥ }
    ensures levels_count { Levels small_held (record (store_at 0) { failures = 1 }) (store_at 0) [] done → ⊥ }
    ensures levels_tokens { Levels small_held (store_at 0)
        (record (fallen_at 0) { content = content_at 0 (free_row 5 ∷ []) }) [] done → ⊥ }
    ensures levels_clean { Levels small_held (fallen_at 0) (store_at 0) [] done → ⊥ }
{}

/// Worked cases, and counterexamples: each fault of a store from floors files has its cause.
pub fn faults_are_worked()
    ensures alike { (db : Database) → IsUnmade gathered_two (entry_of 5 6 ∷ entry_of 5 4 ∷ []) db (Store Unusable) }
    ensures there { (db : Database) → has_own_table db.schema ≡ true
        → IsUnmade gathered_two own_two db (Store AlreadyThere) }
    ensures unusable { (trees : Trees)
        → IsUnmade gathered_two own_two (record { schema = no_schema; trees = trees }) (Store Unusable) → ⊥ }
    ensures already_there { (trees : Trees)
        → IsUnmade gathered_two own_two (record { schema = no_schema; trees = trees }) (Store AlreadyThere) → ⊥ }
    ensures spent { (db : Database) → IsUnmade gathered_two own_two db (Store Spent) → ⊥ }
    ensures full { (db : Database) → IsUnmade gathered_two own_two db Full → ⊥ }
    ensures room { (db : Database) (gathered : List NamedFloor) → length gathered ≡ 65536
        → IsUnmade gathered [] db Full → ⊥ }
    ensures no_room { (db : Database) (gathered : List NamedFloor) → length gathered ≡ 65537
        → IsUnmade gathered [] db Full }
    ensures another_cluster { (db : Database) → IsUnmade gathered_two own_two db AnotherCluster → ⊥ }
{}

/// Counterexamples: each promise of a store from floors files, over any store of bytes, fails for a minimal one.
pub fn makings_can_be_broken<S: Alter>()
    ensures idle { (conn : Conn S) → Makes S.Store {A = ℕ} conn (record conn { in_transaction = true })
        (λ old new. ⊤) (λ db fault. ⊤) (Err Full) → ⊥ }
    ensures ok { (conn : Conn S) → HasCleanDisk (state S.Store conn)
        → Makes S.Store {A = ℕ} conn conn (λ old new. ⊥) (λ db fault. ⊤) (Ok 0) → ⊥ }
    ensures err { (old new : Conn S) → HasCleanDisk (state S.Store new)
        → (IsLeft (state S.Store old) (state S.Store new) → ⊥)
        → Makes S.Store {A = ℕ} old new (λ old new. ⊤) (λ db fault. ⊤) (Err Full) → ⊥ }
    ensures cause { (conn : Conn S) → HasCleanDisk (state S.Store conn)
        → Makes S.Store {A = ℕ} conn conn (λ old new. ⊤) (λ db fault. ⊥) (Err Full) → ⊥ }
    ensures survives { (conn : Conn S) → conn.step_limit ≡ None → Makes S.Store {A = ℕ} conn
        (record conn { step_limit = Some 7 }) (λ old new. ⊤) (λ db fault. ⊤) (Err Full) → ⊥ }
{}
