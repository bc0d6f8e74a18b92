//! The laws of a store across stops, and the worked cases and counterexamples of its definitions.

ghost use Rattle.std.specs.Prelude.{◌≡◌, ◌≢◌, ℕ, ℤ, ◌+◌, length, map, pos, false, true, List, [], ◌∷◌, None, Some, Ok, Err, IsTrue, ⊤};
ghost use Rattle.sqlite_disk.specs.declared.Disk.{Ghosts};
ghost use Rattle.sqlite.specs.declared.types.Value.TheVariants.{Int, Null};
ghost use Rattle.sqlite.specs.Effect.{Database};
ghost use Rattle.sqlite.specs.Order.{Row};
ghost use Rattle.sqlite.specs.declared.transaction.Transaction.{Transaction};
ghost use Rattle.sqlite_wal.specs.Recovery.{Image};
ghost use Rattle.sqlite_store.specs.declared.store.FileStore.{FileStore};
ghost use Rattle.floor_store.specs.Examples.{free_row, new_pass, old_pass, proposal, two_rows};
ghost use Rattle.floor_store.specs.Content.{Content, opening_content};
ghost use Rattle.floor_store.specs.Records.{span_of};
ghost use Rattle.floor_sql.specs.Broken.{IsOne, IsSecond, db_at, db_of, old_db_at, old_db_of, named_db, old_token_db, put_of, refused, showing, shut_state, small_content, small_db, small_state, tables_at, token_content, token_db, token_db_of, trees_of};
ghost use Rattle.floor_sql.specs.Created.{AreMade, IsForeign, Opens, first_schema, no_schema};
ghost use Rattle.floor_sql.specs.Folder.{room_after};
ghost use Rattle.floor_sql.specs.Held.{HasAudit, HasCommitted, HasSame, HasTables, HasTablesAs, Leaves, Mirrors, MirrorsLast, SqlHeld, failures_of};
ghost use Rattle.floor_sql.specs.Migrate.{HoldsUndrifted, IsMigrated, IsUsableUndrifted, Migrates};
ghost use Rattle.floor_sql.specs.Schema.{floor_schema, most_rows, schema_of, undrifted_schema};
ghost use Rattle.floor_sql.specs.declared.schema.Format.TheVariants.{Named, Numbered};
ghost use Rattle.floor_sql.specs.Shown.{IsLeft, IsRead, ShowsNode};
ghost use Rattle.floor_sql.specs.Staged.{CanPut, HasRows, MakesAll, MakesPuts, passes_in, with_boot, with_puts};
ghost use Rattle.floor_sql.specs.Stored.{Commits, HasKey, HasOneRow, HasRow, Holds, HoldsRow, IsAppended, IsDrifted, IsUpdated, KeepsCommit, MayCommit, Raises, drift_columns, drift_row, drift_values, floor_row, pass_row, self_row, version_row};
ghost use Rattle.floor_sql.specs.Usable.{HasOnly, HasUsableDrift, HasUsableFloor, HasUsableNode, HasUsablePasses, HasUsableRow, HasUsableSelf, HasUsableVersion, IsAudit, IsGrant, IsNode, IsOwn, IsRow, IsSpanOfFactors, IsUsable, IsUsableAs};
ghost use Rattle.floor_sql.specs.Steps.{Changes, ReadsOnly, ReadsTables, StepsInside, Transacts};
ghost use Rattle.floor_sql.specs.Calls.{HandsBack, IsMade, IsOfNode, IsOpened, IsSound, KeepsTables, ReadsAudit, Stages};
ghost use Rattle.floor_sql.specs.declared.put.Put.{Put};
ghost use Rattle.floor_store.specs.declared.fault.StoreFault.TheVariants.{Disk, Memory, Spent, Unusable};
ghost use Rattle.sqlite.specs.Held.{Held as Conn, state};
ghost use Rattle.sqlite.specs.State.{HasCleanDisk};
ghost use Rattle.floor_sql.specs.Refusals.{fault_of};
ghost use Rattle.sqlite.specs.declared.error.Error.TheVariants.{SqlInputError, SqliteFailure};
ghost use Rattle.sqlite.specs.declared.error.ErrorCode.TheVariants.{DatabaseCorrupt, OutOfMemory, SystemIoFailure};
ghost use Rattle.sqlite_resolve.specs.declared.error.CompileError.{CompileError};
ghost use Rattle.floor_sql.specs.Reopened.{IsNextLife, FindsWhatIsLeft};

use sqlite::Alter;
use sqlite_disk::Disk;

/// Durability: an opening finds what a stop left of a store in files, on any two disks.
pub fn stores_are_opened_again<D: Disk, E: Disk>()
    ensures { (store : SqlHeld (FileStore D D.Disk)) (left : Image) (again : SqlHeld (FileStore E E.Disk))
        → IsNextLife store left again → FindsWhatIsLeft store again }
{}

/// Counterexamples: each promise of connections and tables fails for a minimal one.
pub fn connections_can_be_broken()
    // A query, a refusal, and a commit.
    ensures read { IsRead (small_state 1 1) (small_state 1 1) }
    ensures read_is_open { IsRead (small_state 1 1) (shut_state 1 1) → ⊥ }
    ensures read_now { IsRead (small_state 1 1) (small_state 2 1) → ⊥ }
    ensures read_committed { IsRead (small_state 1 1) (small_state 1 2) → ⊥ }
    ensures left { IsLeft (small_state 1 0) (small_state 1 0) }
    ensures left_at_the_commit { IsLeft (small_state 1 0) (small_state 0 0) }
    ensures left_was_open { IsLeft (shut_state 1 1) (small_state 1 1) → ⊥ }
    ensures left_committed { IsLeft (small_state 1 0) (small_state 1 1) → ⊥ }
    ensures left_now { IsLeft (small_state 1 0) (small_state 2 0) → ⊥ }
    ensures same { HasSame (small_state 1 1) (small_state 1 1) }
    ensures same_now { HasSame (small_state 1 1) (small_state 2 1) → ⊥ }
    ensures same_committed { HasSame (small_state 1 1) (small_state 1 2) → ⊥ }
    ensures commits { Commits IsSecond (small_state 1 1) (small_state 2 2) }
    ensures commits_is_open { Commits IsSecond (small_state 1 1) (shut_state 2 2) → ⊥ }
    ensures commits_committed { Commits IsSecond (small_state 1 1) (small_state 1 1) → ⊥ }
    ensures commits_now { Commits IsSecond (small_state 1 1) (small_state 1 2) → ⊥ }
    ensures keeps { KeepsCommit (small_state 1 1) (small_state 1 1) }
    ensures keeps_was_open { KeepsCommit (shut_state 1 1) (small_state 1 1) → ⊥ }
    ensures keeps_committed { KeepsCommit (small_state 1 1) (small_state 1 2) → ⊥ }
    ensures keeps_now { KeepsCommit (small_state 1 1) (small_state 2 1) → ⊥ }
    ensures may_commit { MayCommit IsSecond (small_state 1 1) (small_db 2).trees }
    ensures may_commit_change { MayCommit (λ old new. ⊥) (small_state 1 1) (small_db 2).trees → ⊥ }
    ensures may_commit_trees { (rows : ℕ) → MayCommit IsSecond (small_state 1 1) (small_db (rows + 3)).trees → ⊥ }

    // Rows.
    ensures shows { ShowsNode (Int (pos 1) ∷ Int (pos 2) ∷ Int (pos 3) ∷ []) 2 3 }
    ensures shows_id { ShowsNode (Int (pos 2) ∷ Int (pos 2) ∷ Int (pos 3) ∷ []) 2 3 → ⊥ }
    ensures shows_version { ShowsNode (Int (pos 1) ∷ Int (pos 1) ∷ Int (pos 3) ∷ []) 2 3 → ⊥ }
    ensures shows_node { ShowsNode (Int (pos 1) ∷ Int (pos 2) ∷ Int (pos 4) ∷ []) 2 3 → ⊥ }
    ensures row { HasRow (drift_row 5 (pos 3) ∷ []) 5 drift_columns (drift_values 5 (pos 3)) }
    ensures row_place { HasRow [] 5 drift_columns (drift_values 5 (pos 3)) → ⊥ }
    ensures row_shows { HasRow (drift_row 5 (pos 3) ∷ []) 5 drift_columns (drift_values 5 (pos 4)) → ⊥ }
    ensures one_row { HasOneRow (drift_row 5 (pos 3) ∷ drift_row 6 (pos 3) ∷ []) 5 }
    ensures no_row { HasOneRow (drift_row 6 (pos 3) ∷ []) 5 → ⊥ }
    ensures two_rows { HasOneRow (drift_row 5 (pos 3) ∷ drift_row 5 (pos 4) ∷ []) 5 → ⊥ }
    ensures no_key { HasKey [] 5 → ⊥ }
    ensures other_key { HasKey (drift_row 6 (pos 3) ∷ []) 5 → ⊥ }
    ensures holds_row { HoldsRow (trees_of [] (floor_row 0 (free_row 9) ∷ []) [] (drift_row 0 (pos 0) ∷ []))
        0 (free_row 9) }
    ensures holds_row_floor { HoldsRow (trees_of [] [] [] (drift_row 0 (pos 0) ∷ [])) 0 (free_row 9) → ⊥ }
    ensures holds_row_drift { HoldsRow (trees_of [] (floor_row 0 (free_row 9) ∷ []) [] []) 0 (free_row 9) → ⊥ }

    // Tables without a token.
    ensures holds { Holds Numbered (tables_at 4 []) (small_content 4) [] }
    ensures holds_rows { Holds Numbered (trees_of (self_row 1 1 0 ∷ []) [] [] []) (opening_content (9 ∷ [])) [] → ⊥ }
    ensures holds_self { Holds Numbered (tables_at 5 []) (small_content 4) [] → ⊥ }
    ensures holds_pass { Holds Numbered (tables_at 4 (pass_row 1 old_pass ∷ [])) (small_content 4) [] → ⊥ }
    ensures holds_last { Holds Numbered (tables_at 4 []) (record (small_content 4) { last = Some old_pass }) [] → ⊥ }
    ensures tables { HasTables (db_at 4 []) 1 0 (small_content 4) 0 }
    ensures tables_schema { HasTables (record (db_at 4 []) { schema = undrifted_schema }) 1 0 (small_content 4) 0 → ⊥ }
    ensures tables_holds { HasTables (db_at 5 []) 1 0 (small_content 4) 0 → ⊥ }
    ensures tables_node { HasTables (db_at 4 []) 2 0 (small_content 4) 0 → ⊥ }
    ensures tables_tokens { HasTables (db_at 4 []) 1 1 (small_content 4) 0 → ⊥ }
    ensures tables_count { HasTables (db_at 4 []) 1 0 (small_content 4) 1 → ⊥ }
    ensures named { HasTablesAs Named named_db 1 0 (small_content 4) 0 }
    ensures named_schema { HasTablesAs Named (record named_db { schema = floor_schema }) 1 0 (small_content 4) 0 → ⊥ }
    ensures named_version { Holds Named (tables_at 4 []) (small_content 4) [] → ⊥ }
    ensures numbered_version { Holds Numbered named_db.trees (small_content 4) [] → ⊥ }
    ensures opens { (old : Database) → Opens 1 0 [] old (db_at 0 []) }
    ensures opens_schema { (old : Database) → Opens 1 0 [] old (record (db_at 0 []) { schema = no_schema }) → ⊥ }
    ensures opens_holds { (old : Database) → Opens 1 0 [] old (db_at 1 []) → ⊥ }
    ensures opens_node { (old : Database) → Opens 2 0 [] old (db_at 0 []) → ⊥ }
    ensures opens_one { (old : Database) → Opens 1 0 [] old
        (db_of (self_row 1 0 0 ∷ self_row 1 0 0 ∷ []) [] [] []) → ⊥ }
    ensures raises { Raises 5 (db_at 4 []) (db_at 5 []) }
    ensures raises_schema { Raises 5 (db_at 4 []) (record (db_at 5 []) { schema = undrifted_schema }) → ⊥ }
    ensures raises_self { Raises 5 (db_at 4 []) (db_at 6 []) → ⊥ }
    ensures raises_others { Raises 5 (db_at 4 []) (db_at 5 (pass_row 1 old_pass ∷ [])) → ⊥ }
    ensures appended { IsAppended (pass_row 1 old_pass) (db_at 4 []) (db_at 4 (pass_row 1 old_pass ∷ [])) }
    ensures appended_schema { IsAppended (pass_row 1 old_pass) (db_at 4 [])
        (record (db_at 4 (pass_row 1 old_pass ∷ [])) { schema = undrifted_schema }) → ⊥ }
    ensures appended_pass { IsAppended (pass_row 1 old_pass) (db_at 4 []) (db_at 4 []) → ⊥ }
    ensures appended_others { IsAppended (pass_row 1 old_pass) (db_at 4 []) (db_at 5 (pass_row 1 old_pass ∷ [])) → ⊥ }
    ensures made { AreMade (record { schema = floor_schema; trees = trees_of [] [] [] [] }) }
    ensures made_schema { AreMade (record { schema = no_schema; trees = trees_of [] [] [] [] }) → ⊥ }
    ensures made_self { AreMade (db_at 0 []) → ⊥ }
    ensures made_floor { AreMade (record {
      schema = floor_schema;
      trees = trees_of [] (floor_row 0 (free_row 9) ∷ []) [] [];
    }) → ⊥ }
    ensures made_pass { AreMade (record {
      schema = floor_schema;
      trees = trees_of [] [] (pass_row 1 old_pass ∷ []) [];
    }) → ⊥ }
    ensures made_drift { AreMade (record {
      schema = floor_schema;
      trees = trees_of [] [] [] (drift_row 0 (pos 0) ∷ []);
    }) → ⊥ }
    ensures foreign_filled { IsForeign no_schema → ⊥ }
    ensures foreign_other { IsForeign first_schema → ⊥ }

    // Ranges.
    ensures nodes { IsNode 1 × IsNode 9 }
    ensures node_0 { IsNode 0 → ⊥ }
    ensures node_10 { IsNode 10 → ⊥ }
    ensures limits { most_rows 1 ∷ most_rows 2 ∷ most_rows 3 ∷ [] ≡ 10000 ∷ 10000 ∷ 65536 ∷ [] }
    ensures own { IsOwn 2 (1, 10000, 4611686018427387903) }
    ensures own_named { IsOwn 3 (1, 65536, 0) }
    ensures own_node { IsOwn 2 (0, 0, 0) → ⊥ }
    ensures own_tokens { IsOwn 2 (1, 10001, 0) → ⊥ }
    ensures own_named_tokens { IsOwn 3 (1, 65537, 0) → ⊥ }
    ensures own_boot { IsOwn 2 (1, 0, 4611686018427387904) → ⊥ }
    ensures span { IsSpanOfFactors (span_of 4611686018427387902 4611686018427387903) }
    ensures span_hi { IsSpanOfFactors (span_of 4611686018427387903 4611686018427387904) → ⊥ }
    ensures span_spanned { IsSpanOfFactors (span_of 5 7) → ⊥ }
    ensures grant { IsGrant (proposal 1 0 0, span_of 5 6) }
    ensures grant_proposal { IsGrant (proposal 0 0 0, span_of 5 5) → ⊥ }
    ensures grant_span { IsGrant (proposal 1 0 0, span_of 5 7) → ⊥ }
    ensures in_range { IsRow (free_row 4611686018427387904) }
    ensures row_next { IsRow (free_row 4611686018427387905) → ⊥ }
    ensures row_grant { IsRow (record (free_row 9) { grant = Some (proposal 0 0 0, span_of 5 5) }) → ⊥ }
    ensures row_gate { IsRow (record (free_row 9) { gate = record { fails = 10001; until = 0 } }) → ⊥ }
    ensures audit { IsAudit 10000 (record old_pass { token = 9999 }) }
    ensures audit_named { IsAudit 65536 (record old_pass { token = 65535 }) }
    ensures audit_whole { IsAudit 65537 (record old_pass { token = 65536 }) → ⊥ }
    ensures audit_token { IsAudit 10000 (record old_pass { token = 10000 }) → ⊥ }
    ensures audit_span { IsAudit 10000 (record old_pass { lo = 5; hi = 7 }) → ⊥ }
{}

/// Counterexamples: each promise of a call on a connection, over any store of bytes, fails for a minimal one.
pub fn calls_can_be_broken<S: Alter>()
    ensures reads { (conn : Conn S) → ReadsOnly S.Store {A = ℕ} conn conn (Ok 0) }
    ensures reads_read { (conn : Conn S) → HasCleanDisk (state S.Store conn) → conn.schema ≡ floor_schema
        → ReadsOnly S.Store {A = ℕ} conn (record conn { schema = no_schema }) (Ok 0) → ⊥ }
    ensures reads_failure { (conn : Conn S) → ReadsOnly S.Store {A = ℕ} conn conn (Err (refused Spent)) → ⊥ }
    ensures reads_idle { (conn : Conn S) → conn.in_transaction ≡ false
        → ReadsOnly S.Store {A = ℕ} conn (record conn { in_transaction = true }) (Ok 0) → ⊥ }
    ensures reads_crash { (conn : Conn S) → conn.step_limit ≡ None
        → ReadsOnly S.Store {A = ℕ} conn (record conn { step_limit = Some 7 }) (Ok 0) → ⊥ }
    ensures reads_tables { (conn : Conn S) → ReadsTables S.Store {A = ℕ} conn conn IsOne (λ db. ⊤) (Ok 1) }
    ensures reads_tables_only { (conn : Conn S) → conn.step_limit ≡ None
        → ReadsTables S.Store {A = ℕ} conn (record conn { step_limit = Some 7 }) IsOne (λ db. ⊤) (Ok 1) → ⊥ }
    ensures reads_tables_value { (conn : Conn S) → HasCleanDisk (state S.Store conn)
        → ReadsTables S.Store {A = ℕ} conn conn IsOne (λ db. ⊤) (Ok 2) → ⊥ }
    ensures reads_tables_unusable { (conn : Conn S) → HasCleanDisk (state S.Store conn)
        → ReadsTables S.Store {A = ℕ} conn conn IsOne (λ db. ⊤) (Err (refused Unusable)) → ⊥ }
    ensures transacts_idle { (conn : Conn S) → Transacts S.Store {A = ℕ} (λ fault. fault) conn
        (record conn { in_transaction = true }) (λ old new. ⊤) KeepsCommit (λ db. ⊤) (Err Disk) → ⊥ }
    ensures transacts_ok { (conn : Conn S) → HasCleanDisk (state S.Store conn)
        → Transacts S.Store {A = ℕ} (λ fault. fault) conn conn (λ old new. ⊥) KeepsCommit (λ db. ⊤) (Ok 0) → ⊥ }
    ensures transacts_err { (conn : Conn S) → HasCleanDisk (state S.Store conn)
        → IsTrue (state S.Store conn).is_open → (state S.Store conn).now ≢ (state S.Store conn).committed
        → Transacts S.Store {A = ℕ} (λ fault. fault) conn conn (λ old new. ⊤) KeepsCommit (λ db. ⊤) (Err Disk) → ⊥ }
    ensures transacts_failure { (conn : Conn S)
        → Transacts S.Store {A = ℕ} (λ fault. fault) conn conn (λ old new. ⊤) KeepsCommit (λ db. ⊤) (Err Spent) → ⊥ }
    ensures transacts_unusable { (conn : Conn S) → HasCleanDisk (state S.Store conn)
        → Transacts S.Store {A = ℕ} (λ fault. fault) conn conn (λ old new. ⊤) KeepsCommit (λ db. ⊥) (Err Unusable) → ⊥ }
    ensures transacts_crash { (conn : Conn S) → conn.step_limit ≡ None → Transacts S.Store {A = ℕ} (λ fault. fault) conn
        (record conn { step_limit = Some 7 }) (λ old new. ⊤) KeepsCommit (λ db. ⊤) (Err Disk) → ⊥ }
    ensures keeps_tables_idle { (conn : Conn S)
        → KeepsTables S.Store conn (record conn { in_transaction = true }) → ⊥ }
    ensures keeps_tables_read { (conn : Conn S) → HasCleanDisk (state S.Store conn) → conn.schema ≡ floor_schema
        → KeepsTables S.Store conn (record conn { schema = no_schema }) → ⊥ }
    ensures keeps_tables_survives { (conn : Conn S) → conn.step_limit ≡ None
        → KeepsTables S.Store conn (record conn { step_limit = Some 7 }) → ⊥ }
    ensures hands_back_idle { (conn : Conn S)
        → HandsBack S.Store conn (record conn { in_transaction = true }) (λ trees. ⊤) → ⊥ }
    ensures hands_back_tables { (conn : Conn S) → HasCleanDisk (state S.Store conn)
        → IsTrue (state S.Store conn).is_open → conn.schema ≡ floor_schema
        → HandsBack S.Store conn (record conn { schema = no_schema }) (λ trees. ⊤) → ⊥ }
    ensures hands_back_survives { (conn : Conn S) → conn.step_limit ≡ None
        → HandsBack S.Store conn (record conn { step_limit = Some 7 }) (λ trees. ⊤) → ⊥ }
    ensures sound_works { (store : SqlHeld S) → IsSound S.Store (record store { fault = Some Disk }) → ⊥ }
    ensures sound_idle { (store : SqlHeld S) (put : Put) → IsSound S.Store (record store { staged = put ∷ [] }) → ⊥ }
    ensures stages_waits { (store : SqlHeld S) (put : Put) → store.staged ≡ [] → Stages store store put → ⊥ }
    ensures made_content { (old : Conn S) (store : SqlHeld S)
        → IsMade S.Store old 1 0 [] (record store { mirror = small_content 1 }) → ⊥ }
    ensures made_no_passes { (old : Conn S) (store : SqlHeld S)
        → IsMade S.Store old 1 0 [] (record store { passes = 1 }) → ⊥ }
    ensures made_sound { (old : Conn S) (store : SqlHeld S)
        → IsMade S.Store old 1 0 [] (record store { fault = Some Disk }) → ⊥ }
    ensures opened_sound { (old : Conn S) (store : SqlHeld S)
        → IsOpened S.Store old 1 0 (record store { fault = Some Disk }) → ⊥ }
    ensures audit_intact { (store : SqlHeld S) → store.fault ≡ Some Disk
        → ReadsAudit S.Store {A = ℕ} store store (Ok 0) → ⊥ }
    ensures audit_stays { (store : SqlHeld S) → store.fault ≡ Some Disk
        → ReadsAudit S.Store {A = ℕ} store (record store { fault = Some Memory }) (Err Disk) → ⊥ }
    ensures audit_content { (store : SqlHeld S) → store.passes ≡ 0 → store.fault ≡ None
        → ReadsAudit S.Store {A = ℕ} store (record store { passes = 1 }) (Ok 0) → ⊥ }
    ensures audit_survives { (store : SqlHeld S) → store.conn.step_limit ≡ None → store.fault ≡ None
        → ReadsAudit S.Store {A = ℕ} store (record store { conn = record store.conn { step_limit = Some 7 } }) (Ok 0)
        → ⊥ }
    ensures reads_left { (old new : Conn S) → HasCleanDisk (state S.Store new) → IsTrue (state S.Store new).is_open
        → (state S.Store new).committed ≢ (state S.Store old).committed
        → ReadsOnly S.Store {A = ℕ} old new (Err (refused Disk)) → ⊥ }
    ensures sound_settled { (store : SqlHeld S) (content : Content) → Leaves S.Store store.conn content
        → content ≢ store.mirror → IsSound S.Store store → ⊥ }
    ensures stages_commits { (store : SqlHeld S) (put : Put) → length store.staged ≡ 79 → Stages store store put → ⊥ }
    ensures made_tables { (old : Conn S) (store : SqlHeld S) → HasCleanDisk (state S.Store store.conn)
        → store.conn.schema ≡ no_schema → IsMade S.Store old 1 0 [] store → ⊥ }
    ensures made_survives { (old : Conn S) (store : SqlHeld S) → old.step_limit ≡ None
        → IsMade S.Store old 1 0 [] (record store { conn = record store.conn { step_limit = Some 7 } }) → ⊥ }
    ensures opened_content { (old : Conn S) (store : SqlHeld S) → HasCleanDisk (state S.Store store.conn)
        → IsOpened S.Store old 1 1 (record store { mirror = small_content 0 }) → ⊥ }
    ensures opened_kept { (old : Conn S) (store : SqlHeld S)
        → IsOpened S.Store old 1 0 (record store { conn = record store.conn { in_transaction = true } }) → ⊥ }
    ensures audit_tables { (store : SqlHeld S) → HasCleanDisk (state S.Store store.conn)
        → IsTrue (state S.Store store.conn).is_open → store.conn.schema ≡ floor_schema → store.fault ≡ None
        → ReadsAudit S.Store {A = ℕ} store (record store { conn = record store.conn { schema = no_schema } }) (Ok 0)
        → ⊥ }
    ensures migrated_idle { (conn : Conn S) → IsMigrated S.Store 1 0 conn (record conn { in_transaction = true }) → ⊥ }
    ensures migrated_tables { (conn : Conn S) → HasCleanDisk (state S.Store conn) → conn.schema ≡ no_schema
        → IsMigrated S.Store 1 0 conn conn → ⊥ }
    ensures migrated_survives { (conn : Conn S) → conn.step_limit ≡ None
        → IsMigrated S.Store 1 0 conn (record conn { step_limit = Some 7 }) → ⊥ }
{}

/// Counterexamples: each promise of a step of a transaction, over any store of bytes, fails for a minimal one.
pub fn steps_can_be_broken<S: Alter>()
    ensures steps { (tx : Transaction S) → IsTrue (state S.Store tx.conn.now).in_transaction
        → StepsInside S.Store {A = ℕ} tx tx (Ok 0) }
    ensures steps_same_reference { (old new : Transaction S) → new.conn.ghost_name ≢ old.conn.ghost_name
        → StepsInside S.Store {A = ℕ} old new (Ok 0) → ⊥ }
    ensures steps_goes { (tx : Transaction S) → HasCleanDisk (state S.Store tx.conn.now)
        → tx.conn.now.in_transaction ≡ false → StepsInside S.Store {A = ℕ} tx tx (Ok 0) → ⊥ }
    ensures steps_kept { (old new : Transaction S) → HasCleanDisk (state S.Store new.conn.now)
        → IsTrue (state S.Store new.conn.now).is_open
        → (state S.Store new.conn.now).committed ≢ (state S.Store old.conn.now).committed
        → StepsInside S.Store {A = ℕ} old new (Ok 0) → ⊥ }
    ensures steps_failure { (tx : Transaction S) → StepsInside S.Store {A = ℕ} tx tx (Err (refused Spent)) → ⊥ }
    ensures steps_crash { (old new : Transaction S) → new.conn.now.step_limit ≢ old.conn.now.step_limit
        → StepsInside S.Store {A = ℕ} old new (Ok 0) → ⊥ }
    ensures changes { (tx : Transaction S) → IsTrue (state S.Store tx.conn.now).in_transaction
        → Changes S.Store {A = ℕ} tx tx (λ old new. ⊤) (λ db. ⊥) (Ok 0) }
    ensures changes_steps { (tx : Transaction S)
        → Changes S.Store {A = ℕ} tx tx (λ old new. ⊤) (λ db. ⊤) (Err (refused Spent)) → ⊥ }
    ensures changes_made { (tx : Transaction S) → HasCleanDisk (state S.Store tx.conn.now)
        → Changes S.Store {A = ℕ} tx tx (λ old new. ⊥) (λ db. ⊤) (Ok 0) → ⊥ }
    ensures changes_unusable { (tx : Transaction S) → HasCleanDisk (state S.Store tx.conn.now)
        → Changes S.Store {A = ℕ} tx tx (λ old new. ⊤) (λ db. ⊥) (Err (refused Unusable)) → ⊥ }
{}

/// Counterexamples: each promise of the tables that an opening and a migration accept fails for a minimal one.
pub fn tables_can_be_broken()
    // One row and no other.
    ensures only { HasOnly (drift_row 5 (pos 3) ∷ drift_row 6 (pos 3) ∷ []) 5 drift_columns (drift_values 5 (pos 3)) }
    ensures only_none { HasOnly [] 5 drift_columns (drift_values 5 (pos 3)) → ⊥ }
    ensures only_two { HasOnly (drift_row 5 (pos 3) ∷ drift_row 5 (pos 3) ∷ []) 5 drift_columns
        (drift_values 5 (pos 3)) → ⊥ }
    ensures only_shows { (steps : ℕ) → HasOnly (drift_row 5 (pos steps) ∷ []) 5 drift_columns
        (drift_values 5 (pos (steps + 1))) → ⊥ }

    // The node that the tables name.
    ensures names { HasUsableNode (db_at 4 []) }
    ensures names_schema { HasUsableNode (old_db_of (self_row 1 0 4 ∷ []) [] []) → ⊥ }
    ensures names_nowhere { HasUsableNode (db_of [] [] [] []) → ⊥ }
    ensures names_twice { HasUsableNode (db_of (self_row 1 0 4 ∷ self_row 1 0 4 ∷ []) [] [] []) → ⊥ }
    ensures names_at_version_1 { (boot : ℕ) → HasUsableNode (db_of (version_row 1 1 0 boot ∷ []) [] [] []) → ⊥ }
    ensures names_no_number { (boot : ℕ) → HasUsableNode
        (db_of ((Int (pos 1) ∷ Null ∷ Int (pos 2) ∷ Null ∷ Int (pos 0) ∷ Int (pos boot) ∷ []) ∷ []) [] [] []) → ⊥ }
    ensures names_node_10 { (boot : ℕ) → HasUsableNode (db_of (self_row 10 0 boot ∷ []) [] [] []) → ⊥ }
    ensures of_node { IsOfNode (db_at 4 []) 1 }
    ensures of_node_schema { IsOfNode (old_db_of (self_row 1 0 4 ∷ []) [] []) 1 → ⊥ }
    ensures of_node_nowhere { IsOfNode (db_of [] [] [] []) 1 → ⊥ }
    ensures of_node_at_version_1 { IsOfNode (db_of (version_row 1 1 0 4 ∷ []) [] [] []) 1 → ⊥ }
    ensures of_another_node { IsOfNode (db_at 4 []) 2 → ⊥ }

    // The row of `self`.
    ensures version { HasUsableVersion (tables_at 4611686018427387903 []) 2 1 0 }
    ensures version_boot { (more : ℕ) → HasUsableVersion (tables_at (more + 4611686018427387904) []) 2 1 0 → ⊥ }
    ensures version_1 { (boot : ℕ) → HasUsableVersion (tables_at boot []) 1 1 0 → ⊥ }
    ensures version_of_node_2 { (boot : ℕ) → HasUsableVersion (tables_at boot []) 2 2 0 → ⊥ }
    ensures version_of_a_token { (boot : ℕ) → HasUsableVersion (tables_at boot []) 2 1 1 → ⊥ }
    ensures own_row { HasUsableSelf (trees_of (self_row 9 10000 4 ∷ []) [] [] []) 2 }
    ensures own_row_named { HasUsableSelf (trees_of (version_row 3 9 65536 4 ∷ []) [] [] []) 3 }
    ensures own_row_of_node { (boot : ℕ) → HasUsableSelf (trees_of (self_row 10 0 boot ∷ []) [] [] []) 2 → ⊥ }
    ensures own_row_of_tokens { (boot : ℕ) → HasUsableSelf (trees_of (self_row 1 10001 boot ∷ []) [] [] []) 2 → ⊥ }
    ensures own_row_of_many { (boot : ℕ) → HasUsableSelf (trees_of (version_row 3 1 65537 boot ∷ []) [] [] []) 3 → ⊥ }
    ensures own_row_version { (boot : ℕ) → HasUsableSelf (tables_at boot []) 1 → ⊥ }

    // The rows of a token.
    ensures floor { HasUsableFloor token_db.trees 0 }
    ensures floor_range { (more : ℕ)
        → HasUsableFloor (trees_of [] (floor_row 0 (free_row (more + 4611686018427387905)) ∷ []) [] []) 0 → ⊥ }
    ensures floor_none { HasUsableFloor (tables_at 4 []) 0 → ⊥ }
    ensures drift { HasUsableDrift token_db.trees 0 }
    ensures drift_range { (rows : List Row) → HasUsableDrift (trees_of rows [] [] (drift_row 0 (pos 11) ∷ [])) 0 → ⊥ }
    ensures drift_none { HasUsableDrift (tables_at 4 []) 0 → ⊥ }
    ensures token { HasUsableRow token_db.trees 0 }
    ensures token_floor { HasUsableRow (trees_of [] [] [] (drift_row 0 (pos 0) ∷ [])) 0 → ⊥ }
    ensures token_drift { HasUsableRow (trees_of [] (floor_row 0 (free_row 9) ∷ []) [] []) 0 → ⊥ }

    // The passes.
    ensures passes { HasUsablePasses (tables_at 4 (pass_row 1 (record old_pass { token = 9999 }) ∷ [])) 10000 }
    ensures passes_range { (boot : ℕ)
        → HasUsablePasses (tables_at boot (pass_row 1 (record old_pass { token = 10000 }) ∷ [])) 10000 → ⊥ }
    ensures passes_room { (rows : List Row) → length rows ≡ 4611686018427387905
        → HasUsablePasses (tables_at 4 rows) 10000 → ⊥ }
    ensures passes_numbers { (boot : ℕ) → HasUsablePasses (tables_at boot (pass_row 2 old_pass ∷ [])) 10000 → ⊥ }

    // A whole store, of version 2 and of version 1.
    ensures usable { IsUsable token_db 1 1 }
    ensures usable_schema { IsUsable (record (db_at 4 []) { schema = undrifted_schema }) 1 0 → ⊥ }
    ensures usable_of_node { IsUsable (db_of (self_row 10 0 4 ∷ []) [] [] []) 10 0 → ⊥ }
    ensures usable_few { (floors drifts : List Row)
        → IsUsable (db_of (self_row 1 10001 4 ∷ []) floors [] drifts) 1 10001 → ⊥ }
    ensures usable_self { (boot : ℕ) → IsUsable (db_at boot []) 2 0 → ⊥ }
    ensures usable_rows { (boot : ℕ) → IsUsable (db_of (self_row 1 1 boot ∷ []) [] [] []) 1 1 → ⊥ }
    ensures usable_named { IsUsableAs Named named_db 1 0 }
    ensures usable_named_pass { IsUsableAs Named (record named_db {
      trees = trees_of (version_row 3 1 0 4 ∷ []) [] (pass_row 1 (record old_pass { token = 65535 }) ∷ []) [];
    }) 1 0 }
    ensures usable_named_few { (floors drifts : List Row) → IsUsableAs Named (record named_db {
      trees = trees_of (version_row 3 1 65537 4 ∷ []) floors [] drifts;
    }) 1 65537 → ⊥ }
    ensures usable_version { (boot : ℕ) → IsUsableAs Named (record (db_at boot []) { schema = schema_of Named }) 1 0
        → ⊥ }
    ensures usable_pass_of_many { (boot : ℕ)
        → IsUsable (db_at boot (pass_row 1 (record old_pass { token = 10000 }) ∷ [])) 1 0 → ⊥ }
    ensures usable_passes { (boot : ℕ) → IsUsable (db_at boot (pass_row 2 old_pass ∷ [])) 1 0 → ⊥ }
    ensures old_usable { IsUsableUndrifted old_token_db 1 1 }
    ensures old_usable_schema { IsUsableUndrifted (record (old_db_at 4 []) { schema = floor_schema }) 1 0 → ⊥ }
    ensures old_usable_of_node { IsUsableUndrifted (old_db_of (version_row 1 10 0 4 ∷ []) [] []) 10 0 → ⊥ }
    ensures old_usable_self { (boot : ℕ) → IsUsableUndrifted (old_db_at boot []) 2 0 → ⊥ }
    ensures old_usable_floors { (boot : ℕ) → IsUsableUndrifted (old_db_of (version_row 1 1 1 boot ∷ []) [] []) 1 1 → ⊥ }
    ensures old_usable_pass_of_many { (boot : ℕ)
        → IsUsableUndrifted (old_db_at boot (pass_row 1 (record old_pass { token = 10000 }) ∷ [])) 1 0 → ⊥ }
    ensures old_usable_passes { (boot : ℕ) → IsUsableUndrifted (old_db_at boot (pass_row 2 old_pass ∷ [])) 1 0 → ⊥ }
{}

/// Counterexamples: each promise of a migration fails for a minimal one.
pub fn migrations_can_be_broken()
    ensures undrifted { HoldsUndrifted old_token_db 1 1 (token_content (free_row 9)) [] }
    ensures undrifted_schema { HoldsUndrifted (record (old_db_at 4 []) { schema = floor_schema }) 1 0
        (small_content 4) [] → ⊥ }
    ensures undrifted_floors { (next : ℕ) → HoldsUndrifted (old_db_of (version_row 1 1 1 4 ∷ []) [] []) 1 1
        (token_content (free_row next)) [] → ⊥ }
    ensures undrifted_drift { (steps : ℕ) → HoldsUndrifted old_token_db 1 1
        (token_content (record (free_row 9) { drift = pos (steps + 1) })) [] → ⊥ }
    ensures undrifted_tokens { HoldsUndrifted (old_db_of (version_row 1 1 1 4 ∷ []) [] []) 1 1 (small_content 4) []
        → ⊥ }
    ensures undrifted_self { (boot : ℕ) → HoldsUndrifted (old_db_at (boot + 1) []) 1 0 (small_content boot) [] → ⊥ }
    ensures undrifted_pass { (boot : ℕ) → HoldsUndrifted (old_db_at boot (pass_row 1 old_pass ∷ [])) 1 0
        (small_content boot) [] → ⊥ }
    ensures undrifted_last { HoldsUndrifted (old_db_at 4 []) 1 0 (record (small_content 4) { last = Some old_pass }) []
        → ⊥ }

    ensures migrates { Migrates 1 1 old_token_db token_db }
    ensures migrates_was { Migrates 1 0 (record (old_db_at 4 []) { schema = floor_schema }) (db_at 4 []) → ⊥ }
    ensures migrates_schema { Migrates 1 0 (old_db_at 4 []) (record (db_at 4 []) { schema = undrifted_schema }) → ⊥ }
    ensures migrates_holds { (boot : ℕ) → Migrates 1 0 (old_db_at boot []) (db_at (boot + 1) []) → ⊥ }
    ensures migrates_drift { Migrates 1 1 old_token_db (record token_db {
      trees = trees_of (self_row 1 1 4 ∷ []) (floor_row 0 (free_row 9) ∷ []) [] (drift_row 0 (pos 1) ∷ []);
    }) → ⊥ }
    ensures migrates_node { (boot : ℕ) → Migrates 1 0 (old_db_at boot []) (db_of (self_row 2 0 boot ∷ []) [] [] [])
        → ⊥ }
    ensures migrates_floor { (boot : ℕ) → Migrates 1 0 (old_db_at boot [])
        (db_of (self_row 1 0 boot ∷ []) (floor_row 7 (free_row 9) ∷ []) [] []) → ⊥ }
    ensures migrates_pass { (boot : ℕ) → Migrates 1 0 (old_db_at boot (pass_row 1 old_pass ∷ pass_row 2 new_pass ∷ []))
        (db_at boot (pass_row 2 new_pass ∷ pass_row 1 old_pass ∷ [])) → ⊥ }
{}

/// Worked cases. Contents after puts, and the passes among the puts.
pub fn puts_are_worked()
    ensures none { with_puts (small_content 4) [] ≡ small_content 4 }
    ensures two { with_puts (two_rows (free_row 9) (free_row 9) None)
        (put_of 1 (free_row 10) (Some new_pass) ∷ put_of 0 (free_row 11) None ∷ [])
        ≡ two_rows (free_row 11) (free_row 10) (Some new_pass) }
    ensures later { with_puts (two_rows (free_row 9) (free_row 9) None)
        (put_of 0 (free_row 10) (Some old_pass) ∷ put_of 0 (free_row 11) (Some new_pass) ∷ [])
        ≡ two_rows (free_row 11) (free_row 9) (Some new_pass) }
    ensures passes { passes_in (put_of 0 (free_row 10) (Some old_pass) ∷ put_of 1 (free_row 11) None
        ∷ put_of 0 (free_row 12) (Some new_pass) ∷ []) ≡ old_pass ∷ new_pass ∷ [] }
    ensures same_boot { with_boot None (small_content 4) ≡ small_content 4 }
    ensures boot { with_boot (Some 5) (small_content 4) ≡ small_content 5 }
    ensures failures { failures_of None ∷ failures_of (Some Disk) ∷ [] ≡ 0 ∷ 1 ∷ [] }
{}

/// Counterexamples: each promise of the content of a store's tables fails for a minimal one.
pub fn stores_can_be_broken<S: Alter>()
    // The tables hold a content, or an earlier content and the waiting puts.
    ensures mirrors { Mirrors (showing (db_at 4 []) (db_at 4 [])) (small_content 4) 0 }
    ensures mirrors_schema { Mirrors (showing (old_db_of (self_row 1 0 4 ∷ []) [] [])
        (old_db_of (self_row 1 0 4 ∷ []) [] [])) (small_content 4) 0 → ⊥ }
    ensures mirrors_holds { (boot : ℕ) → Mirrors (showing (db_at (boot + 1) []) (db_at (boot + 1) []))
        (small_content boot) 0 → ⊥ }
    ensures mirrors_count { (boot : ℕ) → Mirrors (showing (db_at boot []) (db_at boot [])) (small_content boot) 1 → ⊥ }
    ensures mirrors_settled { (boot : ℕ) → Mirrors (showing (db_at boot []) (db_at (boot + 1) []))
        (small_content boot) 0 → ⊥ }
    ensures last { (next : ℕ) → MirrorsLast (showing token_db token_db) (token_content (free_row next))
        (put_of 0 (free_row next) None ∷ []) 0 }
    ensures last_replayed { (boot : ℕ) → MirrorsLast (showing (db_at boot []) (db_at boot []))
        (small_content (boot + 1)) [] 0 → ⊥ }
    ensures last_tables { (boot : ℕ) → MirrorsLast (showing (db_at boot []) (db_at boot [])) (small_content boot) [] 1
        → ⊥ }

    // The audit list.
    ensures committed { (store : SqlHeld S) → HasCommitted S.Store store [] → store.mirror.boot ≡ 4
        → HasCommitted S.Store (record store { mirror = small_content 5 }) [] → ⊥ }
    ensures committed_holds { (store : SqlHeld S) → HasCommitted S.Store store []
        → HasCommitted S.Store store (old_pass ∷ []) → ⊥ }
    ensures audit { (store : SqlHeld S) → HasCommitted S.Store store [] → store.staged ≡ []
        → HasAudit S.Store store [] }
    ensures audit_waiting { (store : SqlHeld S) → HasCommitted S.Store store [] → store.staged ≡ []
        → HasAudit S.Store store (old_pass ∷ []) → ⊥ }

    // The rows that a write changes.
    ensures rows { HasRows token_db.trees (put_of 0 (free_row 10) None ∷ []) }
    ensures rows_none { HasRows (tables_at 4 []) [] }
    ensures rows_floor { (next : ℕ) → HasRows (trees_of [] [] [] (drift_row 0 (pos 0) ∷ []))
        (put_of 0 (free_row next) None ∷ []) → ⊥ }
    ensures rows_two { HasRows (trees_of [] (floor_row 0 (free_row 9) ∷ floor_row 0 (free_row 9) ∷ []) []
        (drift_row 0 (pos 0) ∷ [])) (put_of 0 (free_row 10) None ∷ []) → ⊥ }
    ensures rows_drift { (next : ℕ) → HasRows (trees_of [] (floor_row 0 (free_row 9) ∷ []) [] [])
        (put_of 0 (free_row next) None ∷ []) → ⊥ }
    ensures can_put { CanPut token_db 0 (put_of 0 (free_row 10) None ∷ []) }
    ensures can_put_schema { CanPut (old_db_of (self_row 1 0 4 ∷ []) [] []) 0 [] → ⊥ }
    ensures can_put_holds { (count : ℕ) → CanPut (db_of [] [] [] []) count [] → ⊥ }
    ensures can_put_count { (boot : ℕ) → CanPut (db_at boot []) 1 [] → ⊥ }
    ensures can_put_token { (boot : ℕ) → CanPut (db_at boot []) 0 (put_of 0 (free_row 10) None ∷ []) → ⊥ }
{}

/// Worked cases. The store's fault for each error of the connection.
pub fn refusals_are_worked()
    ensures memory { fault_of (SqliteFailure OutOfMemory) ≡ Memory }
    ensures disk { fault_of (SqliteFailure SystemIoFailure) ≡ Disk }
    ensures corrupt { fault_of (SqliteFailure DatabaseCorrupt) ≡ Disk }
    ensures text { (fault : CompileError) → fault_of (SqlInputError fault) ≡ Unusable }
{}

/// Worked cases. A change of a folder may have the time of the one before it for 3 s where whole seconds are kept, and
/// for 100 ms elsewhere.
pub fn folders_are_worked()
    ensures { map room_after (0 ∷ 1 ∷ 5_000_000_000 ∷ 5_000_000_001 ∷ [])
        ≡ 3_000_000_000 ∷ 100_000_000 ∷ 3_000_000_000 ∷ 100_000_000 ∷ [] }
{}

/// Counterexamples: each promise of a write to the tables fails for a minimal one.
pub fn writes_can_be_broken()
    // The row of a token, and its drift.
    ensures updated { IsUpdated 0 (floor_row 0 (free_row 10)) token_db (token_db_of (free_row 10) (pos 0)) }
    ensures updated_schema { IsUpdated 0 (floor_row 0 (free_row 10)) token_db
        (record (token_db_of (free_row 10) (pos 0)) { schema = undrifted_schema }) → ⊥ }
    ensures updated_floor { (next : ℕ) → IsUpdated 0 (floor_row 0 (free_row (next + 1)))
        (token_db_of (free_row next) (pos 0)) (token_db_of (free_row next) (pos 0)) → ⊥ }
    ensures updated_others { (next : ℕ) → IsUpdated 0 (floor_row 0 (free_row next)) token_db
        (token_db_of (free_row next) (pos 1)) → ⊥ }
    ensures drifted { IsDrifted 0 (pos 1) token_db (token_db_of (free_row 9) (pos 1)) }
    ensures drifted_schema { IsDrifted 0 (pos 1) token_db
        (record (token_db_of (free_row 9) (pos 1)) { schema = undrifted_schema }) → ⊥ }
    ensures drifted_drift { IsDrifted 0 (pos 1) token_db token_db → ⊥ }
    ensures drifted_others { (steps : ℤ) → IsDrifted 0 steps token_db (token_db_of (free_row 10) steps) → ⊥ }

    // All waiting puts, and the boot.
    ensures made { MakesPuts 0 (put_of 0 (free_row 10) None ∷ []) token_db (token_db_of (free_row 10) (pos 0)) }
    ensures made_schema { (boot : ℕ) → MakesPuts 0 [] (db_at boot [])
        (record (db_at boot []) { schema = undrifted_schema }) → ⊥ }
    ensures made_content { (next : ℕ) → MakesPuts 0 (put_of 0 (free_row (next + 10)) None ∷ []) token_db token_db → ⊥ }
    ensures made_pass { MakesPuts 0 [] (db_at 4 []) (db_at 4 (pass_row 1 old_pass ∷ [])) → ⊥ }
    ensures raised { MakesAll 0 [] (Some 5) (db_at 4 []) (db_at 5 []) }
    ensures not_raised { (boot : ℕ) → MakesAll 0 [] (Some (boot + 1)) (db_at boot []) (db_at boot []) → ⊥ }
    ensures raised_unasked { MakesAll 0 [] None (db_at 4 []) (db_at 5 []) → ⊥ }
{}
