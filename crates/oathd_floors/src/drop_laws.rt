ghost use Rattle.std.specs.Prelude.{◌≡◌, List, ℕ, [], ◌∷◌, Some, codes, false, true};
ghost use Rattle.sqlite.specs.Held.{Held as Conn, state};
ghost use Rattle.sqlite.specs.State.{HasCleanDisk};
ghost use Rattle.floor_sql.specs.Held.{SqlHeld};
ghost use Rattle.floor_store.specs.Examples.{free_row, granted_row};
ghost use Rattle.floor_store.specs.declared.fault.StoreFault.TheVariants.{Disk};
ghost use Rattle.oathd_database.specs.Broken.{fallen, no_users, shows_any, shows_none, users_fault};
ghost use Rattle.oathd_database.specs.declared.fault.Fault.TheVariants.{CannotWrite, Memory, NoClock, Socket, Store};
ghost use Rattle.oathd_floors.specs.Dropped.{ForgetsNone, HasDropped, IsLeft, IsNotDropped, IsRenewed, drop_text, dropped_text, numbered, numbered_row};
ghost use Rattle.oathd_floors.specs.Examples.{named_conn, named_store, one_entry, one_named, small_cluster};
ghost use Rattle.oathd_roster.specs.declared.fault.RosterFault.TheVariants.{AnotherCluster, Command, Full, SameName};
ghost use Rattle.otp_core.specs.Limits.{default_limits};
ghost use Rattle.retired_rows.specs.Staying.{staying};
ghost use Rattle.retired_rows.specs.declared.row.NumberedRow.{NumberedRow};
ghost use Rattle.roster_sql.specs.Examples.{entry_of, first_content, one_token, other_bond, small_bond};
ghost use Rattle.roster_sql.specs.Roster.{BondRecord};
ghost use Rattle.token_file.specs.declared.fault.LineFault.TheVariants.{MissingField};

use sqlite::Alter;

/// A drop forgets no floor. A token that is enrolled afterwards begins at least at the floor of each former row of its
/// device, also of a dropped one.
pub fn drops_forget_no_floor<S: Alter>()
    ensures { (node boot : ℕ) (own : BondRecord) (rows : List NumberedRow) (store : SqlHeld S) (new : Conn S)
        → HasCleanDisk (state S.Store new) → IsRenewed S.Store node own boot (staying rows) store new
        → ForgetsNone node own rows (state S.Store new).committed }
{}

/// Worked cases. The rows of a store with their numbers, and the text on a drop.
pub fn drops_are_worked()
    ensures row { numbered_row 7 (entry_of 1 2) (free_row 5) (entry_of 3 2 ∷ entry_of 1 4 ∷ []) ≡ record {
      token = 7;
      entry = entry_of 1 2;
      row = free_row 5;
      is_named = true;
    } }
    ensures retired { (numbered_row 7 (entry_of 1 2) (free_row 5) (entry_of 2 2 ∷ [])).is_named ≡ false }
    ensures rows { numbered 3 (entry_of 1 2 ∷ entry_of 3 4 ∷ []) (free_row 5 ∷ granted_row ∷ []) (entry_of 3 9 ∷ [])
        ≡ numbered_row 3 (entry_of 1 2) (free_row 5) [] ∷ numbered_row 4 (entry_of 3 4) granted_row (entry_of 3 4 ∷ [])
        ∷ [] }
    ensures no_rows { numbered 0 [] [] (entry_of 1 2 ∷ []) ≡ [] }
    ensures row_without_an_entry { numbered 0 [] (free_row 5 ∷ []) [] ≡ [] }
    ensures entry_without_a_row { numbered 0 (entry_of 1 2 ∷ []) [] [] ≡ [] }
    ensures counts { dropped_text (numbered_row 0 (entry_of 1 2) (free_row 5) []
        ∷ numbered_row 1 (entry_of 3 2) (free_row 7) (entry_of 3 2 ∷ []) ∷ []) ≡ drop_text 1 1 }
    ensures text { drop_text 3 12 ≡ codes "dropped 3\nrows 12 of 65536\n" }
{}

/// Counterexamples: each promise of a store whose needless rows are dropped, or are not, fails for a minimal one.
pub fn drops_can_be_broken()
    ensures forgets { ForgetsNone 1 small_bond (numbered_row 0 (entry_of 1 2) (free_row 9) []
        ∷ numbered_row 1 (entry_of 3 2) (free_row 8) [] ∷ []) one_token }
    ensures forgets_floor { ForgetsNone 1 small_bond (numbered_row 0 (entry_of 1 2) (free_row 9) []
        ∷ numbered_row 1 (entry_of 3 2) (free_row 10) [] ∷ []) one_token → ⊥ }
    ensures forgets_bond { ForgetsNone 1 other_bond [] one_token → ⊥ }

    ensures left { IsLeft one_named 1 small_bond 4 [] (named_store first_content) named_conn }
    ensures left_conn { IsLeft one_named 1 small_bond 4 [] (named_store first_content)
        (record named_conn { in_transaction = true }) → ⊥ }

    ensures dropped { HasDropped one_named shows_any small_cluster default_limits 11 1 (Some []) (Some (drop_text 0 1))
        named_conn [] }
    ensures dropped_import { HasDropped fallen shows_any small_cluster default_limits 11 1 (Some [])
        (Some (drop_text 0 0)) named_conn no_users → ⊥ }
    ensures dropped_found { HasDropped one_named shows_none small_cluster default_limits 11 1 (Some [])
        (Some (drop_text 0 1)) named_conn [] → ⊥ }
    ensures dropped_node { HasDropped one_named shows_any small_cluster default_limits 11 2 (Some [])
        (Some (drop_text 0 1)) named_conn [] → ⊥ }
    ensures dropped_text { (text : List ℕ)
        → HasDropped one_named shows_any small_cluster default_limits 11 1 (Some []) (Some text) named_conn []
        → text ≡ drop_text 0 1 }
    ensures dropped_conn { HasDropped one_named shows_any small_cluster default_limits 11 1 (Some [])
        (Some (drop_text 0 1)) (record named_conn { in_transaction = true }) [] → ⊥ }

    ensures memory { IsNotDropped fallen shows_any small_cluster default_limits 6 1 (Command Memory) no_users }
    ensures store { IsNotDropped fallen shows_any small_cluster default_limits 6 1 (Command (Store Disk))
        (codes "# none") }
    ensures before_import { IsNotDropped fallen shows_any small_cluster default_limits 6 1 (Command (Store Disk))
        no_users → ⊥ }
    ensures users { IsNotDropped fallen shows_any small_cluster default_limits 6 1
        (Command (users_fault 1 MissingField)) no_users }
    ensures wrong_users { IsNotDropped fallen shows_any small_cluster default_limits 6 1
        (Command (users_fault 1 MissingField)) (codes "# none") → ⊥ }
    ensures output { IsNotDropped fallen shows_any small_cluster default_limits 6 1 (Command CannotWrite)
        (codes "# none") }
    ensures output_before { IsNotDropped fallen shows_any small_cluster default_limits 6 1 (Command CannotWrite)
        no_users → ⊥ }
    ensures clock { IsNotDropped fallen shows_any small_cluster default_limits 6 1 (Command NoClock) (codes "# none")
        → ⊥ }
    ensures socket { IsNotDropped fallen shows_any small_cluster default_limits 6 1 (Command Socket) (codes "# none")
        → ⊥ }
    ensures same_name { IsNotDropped fallen shows_any small_cluster default_limits 6 1 (SameName 1) (codes "# none")
        → ⊥ }
    ensures same_bond { IsNotDropped one_named shows_any small_cluster default_limits 6 1 AnotherCluster
        (codes "# none") → ⊥ }
    ensures full { IsNotDropped fallen shows_any small_cluster default_limits 6 1 Full (codes "# none") → ⊥ }
{}
