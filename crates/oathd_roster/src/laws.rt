ghost use Rattle.std.specs.Prelude.{◌≡◌, ◌++◌, ◌∷◌, [], ℕ, List, None, Some, Err, codes, false, filter, map, true};
ghost use Rattle.otp_core.specs.Limits.{Limits};
ghost use Rattle.token_file.specs.Examples.{event_token};
ghost use Rattle.token_file.specs.Fields.{lines_of};
ghost use Rattle.token_file.specs.declared.fault.LineFault.TheVariants as lines;
ghost use Rattle.named_store.specs.Entries.{entries_of};
ghost use Rattle.roster_sql.specs.Examples.{entry_of};
ghost use Rattle.roster_sql.specs.declared.entry.Entry.{Entry};
ghost use Rattle.oathd_roster.specs.Enrolled.{IsRowsFault, enrolled_rows, entries_in, is_enrolled, is_row};
ghost use Rattle.floor_store.specs.declared.fault.StoreFault.TheVariants.{Disk};
ghost use Rattle.named_store.specs.declared.fault.NamedFault.TheVariants as named;
ghost use Rattle.token_names.specs.declared.fault.NamesFault.TheVariants as names;
ghost use Rattle.oathd_database.specs.declared.fault.Fault.TheVariants.{Memory, Socket, Store};
ghost use Rattle.oathd_roster.specs.Fault.{named_fault_of, names_fault_of, roster_status};
ghost use Rattle.oathd_roster.specs.declared.fault.RosterFault.TheVariants.{AnotherCluster, Command, Full, SameName};

/// Worked cases: each fault, and its exit status.
pub fn faults_are_worked()
    ensures command { roster_status (Command Socket) ≡ 4 }
    ensures same_name { roster_status (SameName 3) ≡ 1 }
    ensures another_cluster { roster_status AnotherCluster ≡ 3 }
    ensures full { roster_status Full ≡ 3 }
    ensures no_memory { names_fault_of names.Memory ≡ Command Memory }
    ensures later_row { names_fault_of (names.SameName 3) ≡ SameName 3 }
    ensures of_another { named_fault_of named.AnotherCluster ≡ AnotherCluster }
    ensures no_room { named_fault_of named.Full ≡ Full }
    ensures of_the_disk { named_fault_of (named.Store Disk) ≡ Command (Store Disk) }
{}

/// Enrolled rows: each line of the text whose token has a row in the store is kept, and no other line of the text.
pub fn enrolled_rows_are_lines()
    ensures { (salt : List ℕ) (limits : Limits) (roster : List Entry) (text : List ℕ) →
        lines_of (enrolled_rows salt limits roster text)
        ≡ filter (is_enrolled salt limits roster) (lines_of text) ++ [] ∷ [] }
{}

/// Worked cases. The rows of a users file that a store has, and the faults of an opening for them.
pub fn enrolled_rows_are_worked()
    ensures kept { (salt : List ℕ) (limits : Limits) →
        enrolled_rows salt limits (entries_of salt (event_token (codes "a") ∷ [])) (codes "# x\n\nHOTP a - 31 7\n")
        ≡ codes "HOTP a - 31 7\n" }
    ensures no_rows { (salt : List ℕ) (limits : Limits) → enrolled_rows salt limits [] (codes "HOTP a - 31\n") ≡ [] }
    ensures faulty { (salt : List ℕ) (limits : Limits) (roster : List Entry) →
        enrolled_rows salt limits roster (codes "HOTP a - zz\nHOTP a\n") ≡ [] }
    ensures rows { map (λ entry. is_row (entry_of 1 2 ∷ entry_of 3 4 ∷ []) entry)
        (Some (entry_of 1 9) ∷ Some (entry_of 3 9) ∷ Some (entry_of 2 2) ∷ None ∷ [])
        ≡ true ∷ true ∷ false ∷ false ∷ [] }
    ensures no_tokens { (salt : List ℕ) → entries_in salt (Err (7, lines.BadSecret)) ≡ [] }
    ensures memory { IsRowsFault (Command Memory) }
    ensures disk { IsRowsFault (Command (Store Disk)) }
    ensures nothing_kept { IsRowsFault Full }
    ensures socket { IsRowsFault (Command Socket) → ⊥ }
    ensures another { IsRowsFault AnotherCluster → ⊥ }
    ensures name_twice { IsRowsFault (SameName 3) → ⊥ }
{}
