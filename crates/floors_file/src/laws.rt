ghost use Rattle.std.specs.Prelude.{◌≡◌, ◌≤◌, ◌++◌, ◌∷◌, [], codes, length, map, replicate, false, true, None, Some, Ok, Err, List, ℕ};
ghost use Rattle.token_file.specs.Examples.{event_token};
ghost use Rattle.floors_file.specs.Examples.{asked, first_floors, floors_at, head_of_node, row, said_by, said_by_first, said_by_row, second_floors, text_of, third_floors, two_users, word_of};
ghost use Rattle.floors_file.specs.Fields.{plain_number};
ghost use Rattle.floors_file.specs.Floors.{FloorsRecord};
ghost use Rattle.floors_file.specs.Gathered.{anew_fault, gathered_floors, greatest_of, is_enough, lost_fault};
ghost use Rattle.floors_file.specs.Reading.{floors_of, is_memory};
ghost use Rattle.floors_file.specs.Writing.{AreFloors, floors_text};
ghost use Rattle.floors_file.specs.declared.fault.LineFault.{LineFault};
ghost use Rattle.floors_file.specs.declared.gathered.FileFault.{FileFault};
ghost use Rattle.floors_file.specs.declared.gathered.FilesFault.{FilesFault};

use crate::floors::MAX_FLOORS_LEN;

/// Round trip: floors that were written are read back, with nothing added or left out.
pub fn floors_read_back()
    ensures { (floors : FloorsRecord) → AreFloors floors → floors_of (floors_text floors) ≡ Ok floors }
{}

/// Length: a text of floors has at most 850,053 bytes.
pub fn floors_fit()
    ensures { (floors : FloorsRecord) → AreFloors floors → length (floors_text floors) ≤ MAX_FLOORS_LEN }
{}

/// Worked cases. Floors files.
pub fn files_are_worked()
    ensures numbers { map plain_number (codes "0" ∷ codes "10" ∷ codes "00" ∷ codes "01" ∷ codes "+1" ∷ []
        ∷ codes "1x" ∷ codes "018446744073709551616" ∷ codes "18446744073709551616x" ∷ [])
        ≡ Some 0 ∷ Some 10 ∷ replicate 7 None }
    ensures great_numbers { map plain_number (codes "18446744073709551615" ∷ codes "18446744073709551616"
        ∷ codes "99999999999999999999999" ∷ []) ≡ replicate 3 (Some 18446744073709551615) }
    ensures two { said_by (codes "floors 1 1 3 7 100 2" ∷ codes "a 5" ∷ codes "b 0" ∷ []) ≡ Ok first_floors }
    ensures written { floors_text first_floors ≡ text_of (codes "floors 1 1 3 7 100 2" ∷ codes "a 5" ∷ codes "b 0"
        ∷ []) }
    ensures can_be_written { AreFloors first_floors }
    ensures no_rows { said_by_first (codes "floors 1 2 3 7 5 0") ≡ Ok (record { head = head_of_node 2 3; rows = [] }) }
    ensures ends { map said_by_first (codes "floors 1 1 1 7 5 0" ∷ codes "floors 1 9 9 7 5 0" ∷ [])
        ≡ Ok (record { head = head_of_node 1 1; rows = [] }) ∷ Ok (record { head = head_of_node 9 9; rows = [] }) ∷ [] }
    ensures last_boot { said_by_first (codes "floors 1 1 1 4611686018427387903 1099511627775 0")
        ≡ Ok (record {
          head = record { node = 1; members = 1; boot = 4611686018427387903; moment = 1099511627775 };
          rows = [];
        }) }
    ensures not_floors { map floors_of ([] ∷ (10 ∷ []) ∷ text_of (codes "floor 1 1 1 1 1 0" ∷ [])
        ∷ text_of (codes " floors 1 1 1 1 1 0" ∷ []) ∷ []) ≡ replicate 4 (Err (1, LineFault.NotFloors)) }
    ensures version { map said_by_first (codes "floors 2 1 1 1 1 0" ∷ codes "floors 01 1 1 1 1 0"
        ∷ codes "floors  1 1 1" ∷ [])
        ≡ replicate 3 (Err (1, LineFault.Version)) }
    ensures missing { map said_by_first (codes "floors" ∷ codes "floors 1" ∷ codes "floors 1 1 1 1 1" ∷ [])
        ≡ replicate 3 (Err (1, LineFault.MissingField)) }
    ensures surplus { map said_by_first (codes "floors 1 1 1 1 1 0 0" ∷ codes "floors 1 1 1 1 1 0 " ∷ [])
        ≡ replicate 2 (Err (1, LineFault.SurplusField)) }
    ensures no_number { map said_by_first (codes "floors 1 x 3 7 5 0" ∷ codes "floors 1 1 03 7 5 0"
        ∷ codes "floors 1 1 3  5 0"
        ∷ codes "floors 1 1 3 7 -5 0" ∷ codes "floors 1 18446744073709551616 3 7 5 x" ∷ [])
        ≡ replicate 5 (Err (1, LineFault.Number)) }
    ensures range { map said_by_first (codes "floors 1 0 3 7 5 0" ∷ codes "floors 1 4 3 7 5 0"
        ∷ codes "floors 1 1 10 7 5 0"
        ∷ codes "floors 1 1 3 4611686018427387904 5 0" ∷ codes "floors 1 1 3 7 1099511627776 0"
        ∷ codes "floors 1 1 3 7 5 10001" ∷ []) ≡ replicate 6 (Err (1, LineFault.Range)) }
    ensures great { map said_by_first (codes "floors 1 18446744073709551617 3 7 5 0"
        ∷ codes "floors 1 1 18446744073709551617 7 5 0" ∷ codes "floors 1 1 3 18446744073709551616 5 0"
        ∷ codes "floors 1 1 3 7 18446744073709551616 0" ∷ codes "floors 1 1 3 7 5 18446744073709551616" ∷ [])
        ≡ replicate 5 (Err (1, LineFault.Range)) }
    ensures most_tokens { said_by_first (codes "floors 1 1 3 7 5 10000") ≡ Err (2, LineFault.TooFew) }
    ensures rows { map said_by_row (codes "a 4611686018427387904" ∷ (word_of 64 ++ codes " 0") ∷ [])
        ≡ Ok (record { head = head_of_node 2 3; rows = row (codes "a") 4611686018427387904 ∷ [] })
        ∷ Ok (record { head = head_of_node 2 3; rows = row (word_of 64) 0 ∷ [] }) ∷ [] }
    ensures row_faults { map said_by_row (codes "a" ∷ codes "a 1 2" ∷ codes "a 01" ∷ codes "a 4611686018427387905"
        ∷ codes "a 18446744073709551616" ∷ (word_of 65 ++ codes " 0") ∷ codes " 1" ∷ [])
        ≡ Err (2, LineFault.MissingField) ∷ Err (2, LineFault.SurplusField) ∷ Err (2, LineFault.Number)
        ∷ Err (2, LineFault.Range) ∷ Err (2, LineFault.Range) ∷ Err (2, LineFault.UserName)
        ∷ Err (2, LineFault.UserName) ∷ [] }
    ensures twice { said_by (codes "floors 1 2 3 7 5 3" ∷ codes "a 1" ∷ codes "b 1" ∷ codes "a 1" ∷ [])
        ≡ Err (4, LineFault.Twice) }
    ensures too_few { said_by (codes "floors 1 2 3 7 5 2" ∷ codes "a 1" ∷ []) ≡ Err (3, LineFault.TooFew) }
    ensures too_many { said_by (codes "floors 1 2 3 7 5 1" ∷ codes "a 1" ∷ codes "b 1" ∷ [])
        ≡ Err (3, LineFault.TooMany) }
    ensures no_end { map floors_of (codes "floors 1 2 3 7 5 0" ∷ (codes "floors 1 2 3 7 5 1" ++ 10 ∷ codes "a 1")
        ∷ (codes "floors 1 2 3 7 5 0" ++ 10 ∷ codes "x") ∷ []) ≡ Err (1, LineFault.NoEnd) ∷ Err (2, LineFault.NoEnd)
        ∷ Err (2, LineFault.NoEnd) ∷ [] }
    ensures memory { map is_memory (LineFault.Memory ∷ LineFault.Twice ∷ []) ≡ true ∷ false ∷ [] }
{}

/// Worked cases. Floors of several nodes: their faults, and the result.
pub fn gathered_are_worked()
    ensures two_of_three { lost_fault asked 3 (3 ∷ []) two_users (first_floors ∷ second_floors ∷ []) ≡ None }
    ensures floors { gathered_floors (first_floors ∷ second_floors ∷ []) two_users (9 ∷ 9 ∷ []) ≡ 5 ∷ 3 ∷ [] }
    ensures own_floors { gathered_floors (first_floors ∷ []) (event_token (codes "c") ∷ event_token (codes "a") ∷ [])
        (9 ∷ 9 ∷ []) ≡ 9 ∷ 5 ∷ [] }
    ensures none { greatest_of (codes "c") (first_floors ∷ second_floors ∷ []) ≡ None }
    ensures not_lost { lost_fault asked 2 (3 ∷ []) two_users (first_floors ∷ second_floors ∷ [])
        ≡ Some FilesFault.NotLost }
    ensures missing { lost_fault asked 3 (3 ∷ []) two_users (first_floors ∷ []) ≡ Some (FilesFault.Missing 2) }
    ensures no_file { lost_fault asked 3 (3 ∷ []) two_users [] ≡ Some FilesFault.Surplus }
    ensures too_many { lost_fault asked 3 (2 ∷ 3 ∷ []) two_users (first_floors ∷ []) ≡ Some FilesFault.TooManyLost }
    ensures one_of_two { lost_fault asked 2 (2 ∷ []) [] (record { head = head_of_node 1 2; rows = [] } ∷ [])
        ≡ Some (FilesFault.File 1 FileFault.Older) }
    ensures surplus { lost_fault asked 3 (3 ∷ 3 ∷ []) two_users (first_floors ∷ second_floors ∷ [])
        ≡ Some FilesFault.Surplus }
    ensures no_member { lost_fault asked 4 (3 ∷ 4 ∷ []) two_users (first_floors ∷ second_floors ∷ [])
        ≡ Some FilesFault.Surplus }
    ensures is_lost { lost_fault asked 3 (2 ∷ 3 ∷ []) two_users (first_floors ∷ second_floors ∷ [])
        ≡ Some (FilesFault.File 2 FileFault.IsLost) }
    ensures same_node { lost_fault asked 3 (3 ∷ []) two_users (first_floors ∷ first_floors ∷ second_floors ∷ [])
        ≡ Some (FilesFault.File 1 FileFault.SameNode) }
    ensures members { lost_fault asked 3 (3 ∷ []) two_users
        (first_floors ∷ record { head = record { node = 2; members = 4; boot = 7; moment = 100 }; rows = [] } ∷ [])
        ≡ Some (FilesFault.File 2 FileFault.Members) }
    ensures older { lost_fault asked 3 (3 ∷ []) two_users (floors_at 1 99 [] ∷ second_floors ∷ [])
        ≡ Some (FilesFault.File 1 FileFault.Older) }
    ensures boot { lost_fault (record { since = 100; boot = 7 }) 3 (3 ∷ []) two_users (first_floors ∷ second_floors
        ∷ [])
        ≡ Some (FilesFault.File 1 FileFault.Boot) }
    ensures no_floor { lost_fault asked 3 (3 ∷ []) two_users (first_floors ∷ floors_at 2 100 (row (codes "a") 1 ∷ [])
        ∷ [])
        ≡ Some (FilesFault.File 2 (FileFault.NoFloor 2)) }
    ensures no_user { lost_fault asked 3 (3 ∷ []) (event_token (codes "b") ∷ []) (first_floors ∷ second_floors ∷ [])
        ≡ Some (FilesFault.File 1 (FileFault.NoUser 2)) }
    ensures anew { anew_fault asked two_users (second_floors ∷ third_floors ∷ []) ≡ None }
    ensures anew_with_rows { anew_fault asked (event_token (codes "c") ∷ event_token (codes "b") ∷ [])
        (second_floors ∷ third_floors ∷ []) ≡ None }
    ensures anew_in_one { anew_fault asked two_users (second_floors ∷ floors_at 3 100 (row (codes "a") 1 ∷ []) ∷ [])
        ≡ Some (FilesFault.File 2 (FileFault.NoFloor 2)) }
    ensures anew_of_one { anew_fault asked two_users (second_floors ∷ []) ≡ Some FilesFault.TooManyLost }
    ensures anew_of_none { anew_fault asked two_users [] ≡ Some FilesFault.TooManyLost }
    ensures enough { map (is_enough 1) (0 ∷ 1 ∷ []) ++ map (is_enough 2) (0 ∷ 1 ∷ []) ++ map (is_enough 3) (1 ∷ 2 ∷ [])
        ++ map (is_enough 4) (1 ∷ 2 ∷ []) ++ map (is_enough 5) (2 ∷ 3 ∷ [])
        ≡ false ∷ true ∷ false ∷ true ∷ false ∷ true ∷ false ∷ true ∷ false ∷ true ∷ [] }
{}
