ghost use Rattle.std.specs.Prelude.{◌≡◌, ◌≤◌, ◌++◌, ◌∷◌, [], codes, length, map, replicate, None, Some, Ok, Err, List, ℕ};
ghost use Rattle.token_file.specs.Fields.{lines_of};
ghost use Rattle.floors_file.specs.Examples.{asked, text_of, word_of};
ghost use Rattle.floors_file.specs.Named.{NamedFloorsRecord};
ghost use Rattle.floors_file.specs.NamedExamples.{digits_0, digits_a, digits_c, first_named_floors, heard_boot, line_a, line_b, name_0, name_a, name_b, named_floors_at, named_head_at, named_row, named_said_by, named_said_by_first, named_said_by_heard, named_said_by_row, of_other_letters, of_other_life, of_other_members, of_other_names, row_line, second_named_floors, seed_c, seed_d, seed_e, with_head};
ghost use Rattle.floors_file.specs.NamedGathered.{AreGreatest, floor_of_name, gathered_rows, named_anew_fault, named_lost_fault, rows_of, seed_of_name};
ghost use Rattle.floors_file.specs.NamedReading.{bytes_of_field, named_floors_of, named_of_lines};
ghost use Rattle.floors_file.specs.NamedWriting.{AreHeard, AreNamedFloors, AreNamedRows, body_text, named_floors_text, named_row_text};
ghost use Rattle.floors_file.specs.Sealed.{body_of, mac_digits, sealed};
ghost use Rattle.floors_file.specs.declared.fault.LineFault.{LineFault};
ghost use Rattle.floors_file.specs.declared.gathered.FileFault.{FileFault};
ghost use Rattle.floors_file.specs.declared.gathered.FilesFault.{FilesFault};

use crate::named::MAX_NAMED_FLOORS_LEN;

/// Round trip: floors by names that were written are read back under the same key, with nothing added or left out.
pub fn named_floors_read_back()
    ensures { (key : List ℕ) (floors : NamedFloorsRecord) → AreNamedFloors floors →
        named_floors_of key (named_floors_text key floors) ≡ Ok floors }
{}

/// One spelling: a text that is read is the text that is written of its floors, with the MAC under the same key.
pub fn named_floors_one_spelling()
    ensures { (key text : List ℕ) (floors : NamedFloorsRecord) → named_floors_of key text ≡ Ok floors →
        named_floors_text key floors ≡ text }
{}

/// Length: a text of floors by names has at most 5,636,600 bytes.
pub fn named_floors_fit()
    ensures { (key : List ℕ) (floors : NamedFloorsRecord) → AreNamedFloors floors →
        length (named_floors_text key floors) ≤ MAX_NAMED_FLOORS_LEN }
{}

/// Greatest floors: a file's floor is at most the gathered one of its name. Some file has the name and the floor of each
/// gathered row. Each name has the seed of its first row, in the order of the files. No two gathered rows have one
/// name.
pub fn gathered_are_greatest()
    ensures { (files : List NamedFloorsRecord) → AreGreatest (rows_of files) (gathered_rows files) }
{}

/// Worked cases. The line of a MAC.
pub fn macs_of_floors_are_worked()
    ensures opened { (key body : List ℕ) → body_of key (sealed key body) ≡ Ok body }
    ensures digits { mac_digits (codes "own-key") (codes "floors 2")
        ≡ codes "a2ddb9b79d21319b4ee033036b38a4706180d9f69637041263781cc77f06b7af" }
    ensures no_text { (key : List ℕ) → body_of key [] ≡ Err (1, LineFault.BadMac) }
    ensures no_mac { (key : List ℕ) → body_of key (text_of (codes "floors 2" ∷ word_of 68 ∷ []))
        ≡ Err (2, LineFault.BadMac) }
{}

/// Worked cases. Floors files by names, without their MAC.
pub fn named_files_are_worked()
    ensures row { named_row_text (named_row name_a seed_c 5)
        ≡ codes "aaaaaaaaaaaaaaaaaaaaaaaaaaaaaaaa cccccccccccccccccccccccccccccccc 5\n" }
    ensures two { named_said_by (codes "floors 2 1 3 7 100 2 names-of-site-1 11a" ∷ line_a (codes "5")
        ∷ line_b (codes "0") ∷ codes "heard 3 7" ∷ []) ≡ Ok first_named_floors }
    ensures written { body_text first_named_floors ≡ text_of (codes "floors 2 1 3 7 100 2 names-of-site-1 11a"
        ∷ line_a (codes "5") ∷ line_b (codes "0") ∷ codes "heard 3 7" ∷ []) }
    ensures no_rows { named_said_by_first (codes "floors 2 2 3 7 100 0 names-of-site-1 11a")
        ≡ Ok (named_floors_at 2 [] []) }
    ensures ends { map named_said_by_first (codes "floors 2 1 3 7 0 0 twelve-bytes 1"
        ∷ (codes "floors 2 1 3 7 0 0 " ++ word_of 64 ++ 32 ∷ word_of 64) ∷ [])
        ≡ Ok (with_head (record (named_head_at 1 0) { names = codes "twelve-bytes"; life = codes "1" }))
        ∷ Ok (with_head (record (named_head_at 1 0) { names = word_of 64; life = word_of 64 })) ∷ [] }
    ensures not_floors { map named_said_by_first ([] ∷ codes "mac " ∷ codes "floor 2" ∷ [])
        ≡ replicate 3 (Err (1, LineFault.NotFloors)) }
    ensures version { map named_said_by_first (codes "floors 1 1 1 1 1 0" ∷ codes "floors 02 1 1 1 1 0" ∷ [])
        ≡ replicate 2 (Err (1, LineFault.Version)) }
    ensures missing { map named_said_by_first (codes "floors 2 1 3 7 5 0" ∷ codes "floors 2 1 3 7 5 0 names-of-site-1"
        ∷ []) ≡ replicate 2 (Err (1, LineFault.MissingField)) }
    ensures surplus { named_said_by_first (codes "floors 2 1 3 7 5 0 names-of-site-1 11a ")
        ≡ Err (1, LineFault.SurplusField) }
    ensures names_word { map named_said_by_first (codes "floors 2 1 3 7 5 0 only-eleven 1"
        ∷ (codes "floors 2 0 3 7 5 0 " ++ word_of 65 ++ codes " 1") ∷ []) ≡ replicate 2 (Err (1, LineFault.NamesWord)) }
    ensures range { map named_said_by_first (codes "floors 2 4 3 7 5 0 names-of-site-1 11a"
        ∷ codes "floors 2 1 3 7 5 65537 names-of-site-1 11a" ∷ codes "floors 2 4 3 7 5 0 names-of-site-1 " ∷ [])
        ≡ replicate 3 (Err (1, LineFault.Range)) }
    ensures most_rows { named_said_by_first (codes "floors 2 1 3 7 5 65536 names-of-site-1 11a")
        ≡ Err (2, LineFault.TooFew) }
    ensures life { map named_said_by_first (codes "floors 2 1 3 7 5 0 names-of-site-1 "
        ∷ codes "floors 2 1 3 7 5 0 names-of-site-1 11\ta" ∷ (codes "floors 2 1 3 7 5 0 names-of-site-1 " ++ word_of 65)
        ∷ []) ≡ replicate 3 (Err (1, LineFault.Life)) }
    ensures names { map bytes_of_field (digits_a ∷ replicate 31 97 ∷ replicate 33 97 ∷ replicate 34 97
        ∷ replicate 32 65 ∷ replicate 32 103 ∷ []) ≡ Some name_a ∷ replicate 5 None }
    ensures rows { named_said_by_row (row_line digits_0 digits_c (codes "4611686018427387904")) ≡ Ok (record {
      head = named_head_at 2 5;
      rows = named_row name_0 seed_c 4611686018427387904 ∷ [];
      heard = [];
    }) }
    ensures row_faults { map named_said_by_row (line_a (codes "1 2") ∷ line_a (codes "01")
        ∷ line_a (codes "4611686018427387905") ∷ [])
        ≡ Err (2, LineFault.SurplusField) ∷ Err (2, LineFault.Number) ∷ Err (2, LineFault.Range) ∷ [] }
    ensures no_name { map named_said_by_row (codes "a" ∷ codes "a 1" ∷ codes "heard 3 7" ∷ [])
        ≡ replicate 3 (Err (2, LineFault.Name)) }
    ensures missing_fields { map named_said_by_row (digits_a ∷ (digits_a ++ 32 ∷ digits_c) ∷ [])
        ≡ replicate 2 (Err (2, LineFault.MissingField)) }
    ensures seeds { map (λ seed. named_said_by_row (row_line digits_a seed (codes "x"))) (codes "1" ∷ []
        ∷ replicate 31 99 ∷ replicate 33 99 ∷ replicate 32 67 ∷ [])
        ≡ replicate 5 (Err (2, LineFault.Name)) }
    ensures no_seed { named_said_by_row (digits_a ++ codes " 1") ≡ Err (2, LineFault.Name) }
    ensures twice { named_said_by (codes "floors 2 2 3 7 5 3 names-of-site-1 11a" ∷ line_a (codes "1")
        ∷ line_b (codes "1") ∷ row_line digits_a digits_c (codes "2") ∷ []) ≡ Err (4, LineFault.Twice) }
    ensures range_before_twice { named_said_by (codes "floors 2 2 3 7 5 2 names-of-site-1 11a" ∷ line_a (codes "1")
        ∷ line_a (codes "4611686018427387905") ∷ []) ≡ Err (3, LineFault.Range) }
    ensures too_few { named_said_by (codes "floors 2 2 3 7 5 2 names-of-site-1 11a" ∷ line_a (codes "1") ∷ [])
        ≡ Err (3, LineFault.TooFew) }
    ensures too_many { named_said_by_heard (line_a (codes "1")) ≡ Err (2, LineFault.TooMany) }
    ensures heard { named_said_by (codes "floors 2 2 3 7 100 0 names-of-site-1 11a" ∷ codes "heard 1 0"
        ∷ codes "heard 3 4611686018427387903" ∷ [])
        ≡ Ok (named_floors_at 2 [] (heard_boot 1 0 ∷ heard_boot 3 4611686018427387903 ∷ [])) }
    ensures heard_faults { map named_said_by_heard (codes "heard 1" ∷ codes "heard 1 1 1" ∷ codes "heard x 1"
        ∷ codes "heard 0 1" ∷ codes "heard 4 1" ∷ codes "heard 1 4611686018427387904" ∷ codes "heard 2 1" ∷ [])
        ≡ Err (2, LineFault.MissingField) ∷ Err (2, LineFault.SurplusField) ∷ Err (2, LineFault.Number)
        ∷ Err (2, LineFault.Range) ∷ Err (2, LineFault.Range) ∷ Err (2, LineFault.Range)
        ∷ Err (2, LineFault.Heard) ∷ [] }
    ensures not_ascending { map (λ line. named_said_by (codes "floors 2 2 3 7 5 0 names-of-site-1 11a"
        ∷ codes "heard 3 1" ∷ line ∷ [])) (codes "heard 3 1" ∷ codes "heard 1 1" ∷ [])
        ≡ replicate 2 (Err (3, LineFault.Heard)) }
    ensures no_end { map (λ text. named_of_lines (lines_of text)) (codes "floors 2 2 3 7 5 0 names-of-site-1 11a"
        ∷ (text_of (codes "floors 2 2 3 7 5 1 names-of-site-1 11a" ∷ []) ++ line_a (codes "1"))
        ∷ (text_of (codes "floors 2 2 3 7 5 0 names-of-site-1 11a" ∷ []) ++ codes "heard 1 1") ∷ [])
        ≡ Err (1, LineFault.NoEnd) ∷ Err (2, LineFault.NoEnd) ∷ Err (2, LineFault.NoEnd) ∷ [] }
{}

/// Worked cases. Floors of several nodes by names: their faults, and the result.
pub fn named_gathered_are_worked()
    ensures two_of_three { named_lost_fault (record asked { boot = 9 }) 3 (3 ∷ [])
        (first_named_floors ∷ second_named_floors ∷ []) ≡ None }
    ensures rows { gathered_rows (first_named_floors ∷ second_named_floors ∷ [])
        ≡ named_row name_a seed_c 5 ∷ named_row name_b seed_d 3 ∷ named_row name_0 seed_c 9 ∷ [] }
    ensures other_order { gathered_rows (second_named_floors ∷ first_named_floors ∷ [])
        ≡ named_row name_b seed_d 3 ∷ named_row name_a seed_e 5 ∷ named_row name_0 seed_c 9 ∷ [] }
    ensures floors { map (λ name. floor_of_name name (rows_of (first_named_floors ∷ second_named_floors ∷ [])))
        (name_a ∷ name_b ∷ name_0 ∷ seed_c ∷ []) ≡ Some 5 ∷ Some 0 ∷ Some 9 ∷ None ∷ [] }
    ensures seeds { map (λ name. seed_of_name name (rows_of (first_named_floors ∷ second_named_floors ∷ [])))
        (name_a ∷ name_b ∷ name_0 ∷ seed_c ∷ []) ≡ Some seed_c ∷ Some seed_d ∷ Some seed_c ∷ None ∷ [] }
    ensures no_files { gathered_rows [] ≡ [] }
    ensures not_lost { named_lost_fault asked 2 (3 ∷ []) (first_named_floors ∷ second_named_floors ∷ [])
        ≡ Some FilesFault.NotLost }
    ensures missing { named_lost_fault asked 3 (3 ∷ []) (first_named_floors ∷ []) ≡ Some (FilesFault.Missing 2) }
    ensures no_file { named_lost_fault asked 3 (3 ∷ []) [] ≡ Some FilesFault.Surplus }
    ensures too_many { named_lost_fault asked 3 (2 ∷ 3 ∷ []) (first_named_floors ∷ []) ≡ Some FilesFault.TooManyLost }
    ensures surplus { named_lost_fault asked 3 (3 ∷ 3 ∷ []) (first_named_floors ∷ second_named_floors ∷ [])
        ≡ Some FilesFault.Surplus }
    ensures is_lost { named_lost_fault asked 3 (2 ∷ 3 ∷ []) (first_named_floors ∷ second_named_floors ∷ [])
        ≡ Some (FilesFault.File 2 FileFault.IsLost) }
    ensures same_node { named_lost_fault asked 3 (3 ∷ [])
        (first_named_floors ∷ first_named_floors ∷ second_named_floors ∷ [])
        ≡ Some (FilesFault.File 1 FileFault.SameNode) }
    ensures clusters { map (λ other. named_lost_fault asked 3 (3 ∷ []) (first_named_floors ∷ other ∷ []))
        (of_other_names ∷ of_other_life ∷ of_other_letters ∷ of_other_members ∷ [])
        ≡ replicate 4 (Some (FilesFault.File 2 FileFault.Cluster)) }
    ensures older { named_lost_fault asked 3 (3 ∷ []) (with_head (named_head_at 1 99) ∷ second_named_floors ∷ [])
        ≡ Some (FilesFault.File 1 FileFault.Older) }
    ensures boot { named_lost_fault (record asked { boot = 7 }) 3 (3 ∷ []) (named_floors_at 1 [] [] ∷ [])
        ≡ Some (FilesFault.File 1 FileFault.Boot) }
    ensures heard_of_the_made { map (λ boot. named_lost_fault asked 3 (3 ∷ [])
        (first_named_floors ∷ named_floors_at 2 [] (heard_boot 3 boot ∷ []) ∷ [])) (7 ∷ 8 ∷ [])
        ≡ None ∷ Some (FilesFault.File 2 FileFault.Boot) ∷ [] }
    ensures heard_of_another { named_lost_fault asked 3 (3 ∷ [])
        (first_named_floors ∷ named_floors_at 2 [] (heard_boot 1 8 ∷ []) ∷ []) ≡ None }
    ensures anew { named_anew_fault asked (first_named_floors ∷ second_named_floors ∷ []) ≡ None }
    ensures anew_heard { named_anew_fault asked
        (first_named_floors ∷ named_floors_at 2 [] (heard_boot 1 8 ∷ []) ∷ [])
        ≡ Some (FilesFault.File 2 FileFault.Boot) }
    ensures anew_of_two_lives { named_anew_fault asked (first_named_floors ∷ of_other_letters ∷ [])
        ≡ Some (FilesFault.File 2 FileFault.Cluster) }
    ensures anew_of_one { named_anew_fault asked (second_named_floors ∷ []) ≡ Some FilesFault.TooManyLost }
    ensures anew_of_none { named_anew_fault asked [] ≡ Some FilesFault.TooManyLost }
{}

/// Counterexamples: each promise of gathered rows and of a file's rows and boots fails for a minimal one.
pub fn named_floors_can_be_broken()
    ensures greatest { AreGreatest
        (named_row name_a seed_c 4 ∷ named_row name_b seed_d 3 ∷ named_row name_a seed_e 5 ∷ [])
        (named_row name_a seed_c 5 ∷ named_row name_b seed_d 3 ∷ []) }
    ensures name_left_out { AreGreatest (named_row name_a seed_c 5 ∷ named_row name_b seed_d 3 ∷ [])
        (named_row name_a seed_c 5 ∷ []) → ⊥ }
    ensures last_floor { AreGreatest (named_row name_a seed_c 5 ∷ named_row name_a seed_c 4 ∷ [])
        (named_row name_a seed_c 4 ∷ []) → ⊥ }
    ensures second_lower { AreGreatest (named_row name_a seed_c 5 ∷ named_row name_b seed_d 3 ∷ [])
        (named_row name_a seed_c 5 ∷ named_row name_b seed_d 2 ∷ []) → ⊥ }
    ensures second_is_no_files { AreGreatest (named_row name_a seed_c 5 ∷ named_row name_b seed_d 3 ∷ [])
        (named_row name_a seed_c 5 ∷ named_row name_b seed_d 4 ∷ []) → ⊥ }
    ensures last_seed { AreGreatest (named_row name_a seed_c 4 ∷ named_row name_a seed_e 5 ∷ [])
        (named_row name_a seed_e 5 ∷ []) → ⊥ }
    ensures second_seed { AreGreatest (named_row name_a seed_c 5 ∷ named_row name_b seed_d 3 ∷ [])
        (named_row name_a seed_c 5 ∷ named_row name_b seed_c 3 ∷ []) → ⊥ }
    ensures one_name_twice { AreGreatest (named_row name_a seed_c 5 ∷ [])
        (named_row name_a seed_c 5 ∷ named_row name_a seed_c 5 ∷ []) → ⊥ }

    ensures floors { AreNamedFloors first_named_floors }
    ensures no_life { AreNamedFloors (with_head (record (named_head_at 1 0) { life = [] })) → ⊥ }
    ensures long_life { AreNamedFloors (with_head (record (named_head_at 1 0) { life = word_of 65 })) → ⊥ }
    ensures name_twice { AreNamedRows [] (named_row name_a seed_c 1 ∷ named_row name_a seed_d 1 ∷ []) → ⊥ }
    ensures short_name { AreNamedRows [] (named_row name_a seed_c 1 ∷ named_row (replicate 15 1) seed_c 1 ∷ []) → ⊥ }
    ensures no_byte { AreNamedRows [] (named_row name_a seed_c 1 ∷ named_row (replicate 16 256) seed_c 1 ∷ []) → ⊥ }
    ensures short_seed { AreNamedRows [] (named_row name_a seed_c 1 ∷ named_row name_b (replicate 15 1) 1 ∷ []) → ⊥ }
    ensures no_byte_of_a_seed { AreNamedRows [] (named_row name_a seed_c 1 ∷ named_row name_b (replicate 16 256) 1
        ∷ []) → ⊥ }
    ensures high_floor { AreNamedRows [] (named_row name_a seed_c 1 ∷ named_row name_b seed_d 4611686018427387905 ∷ [])
        → ⊥ }
    ensures own_boot { AreHeard (named_head_at 2 5) [] (heard_boot 1 1 ∷ heard_boot 2 1 ∷ []) → ⊥ }
    ensures member_twice { AreHeard (named_head_at 2 5) [] (heard_boot 3 1 ∷ heard_boot 3 1 ∷ []) → ⊥ }
    ensures descending { AreHeard (named_head_at 2 5) [] (heard_boot 3 1 ∷ heard_boot 1 1 ∷ []) → ⊥ }
    ensures no_member { AreHeard (named_head_at 2 5) [] (heard_boot 1 1 ∷ heard_boot 4 1 ∷ []) → ⊥ }
    ensures high_boot { AreHeard (named_head_at 2 5) [] (heard_boot 1 1 ∷ heard_boot 3 4611686018427387904 ∷ []) → ⊥ }
{}
