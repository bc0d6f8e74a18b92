//! Worked cases and counterexamples of stores by names.

ghost use Rattle.std.specs.Prelude.{◌≡◌, ℕ, List, [], ◌∷◌, length};
ghost use Rattle.sqlite.specs.Held.{Held as Conn, state};
ghost use Rattle.sqlite.specs.State.{HasCleanDisk};
ghost use Rattle.book_law.specs.Examples.{maple_alone, maple_first, silver_first};
ghost use Rattle.book_law.specs.Lives.{Enrols, Raises, places_of};
ghost use Rattle.book_law.specs.Uses.{Writes};
ghost use Rattle.floor_store.specs.Content.{Content};
ghost use Rattle.floor_store.specs.Records.{PassRecord};
ghost use Rattle.floor_sql.specs.Held.{SqlHeld};
ghost use Rattle.named_port.specs.Examples.{name_with};
ghost use Rattle.roster_sql.specs.Roster.{BondRecord, HoldsNamed};
ghost use Rattle.roster_sql.specs.Examples.{entry_of};
ghost use Rattle.roster_sql.specs.declared.entry.Entry.{Entry};
ghost use Rattle.served_law.specs.Enrolled.{IsEnrolledFrom, enrolments, opening_uses, raises};
ghost use Rattle.served_law.specs.Examples.{RaisesSecond, Seats, after_rows, floors, former_rows, no_rows, put_of, rows_of, three_names, three_rows, three_tokens};
ghost use Rattle.served_law.specs.Seated.{AreKnown, HasKnownRows, HasRows, token_of, tokens_of};

use sqlite::Alter;

/// Worked cases: tokens of names, and the rows of a store by names.
pub fn rows_are_worked()
    ensures token { token_of three_names (name_with 0xbb) ≡ 1 }
    ensures unknown { token_of three_names (name_with 0xdd) ≡ 0 }
    ensures tokens { tokens_of three_names (name_with 0xbb ∷ name_with 0xaa ∷ []) ≡ 1 ∷ 0 ∷ [] }
    ensures rows { (three_rows 0xbb 0xcc 0xaa).names ≡ 1 ∷ 2 ∷ 0 ∷ [] }
    ensures content { (three_rows 0xbb 0xcc 0xaa).content ≡ floors 7 }
    ensures places { places_of (three_rows 0xbb 0xcc 0xaa) (1 ∷ 0 ∷ []) ≡ 0 ∷ 2 ∷ [] }
    // A row with an unknown name is mistaken for the first token's.
    ensures mistaken { places_of (three_rows 0xbb 0xaa 0xdd) (1 ∷ 0 ∷ []) ≡ 0 ∷ 2 ∷ [] }
{}

/// Worked cases: enrolments of new rows, and of a row that the store has.
pub fn enrolments_are_worked()
    ensures all { after_rows (rows_of 0xbb 0xcc 0xaa) (5 ∷ 6 ∷ 7 ∷ []) no_rows ≡ three_rows 0xbb 0xcc 0xaa }
    ensures one { enrolments 1 three_names (entry_of 0xbb 1 ∷ []) (5 ∷ []) ≡ Writes (Enrols 1 1 5) ∷ [] }
    ensures no_floors { enrolments 1 three_names (rows_of 0xbb 0xcc 0xaa) [] ≡ [] }
    ensures is_there { after_rows (entry_of 0xaa 3 ∷ []) (9 ∷ []) (three_rows 0xbb 0xcc 0xaa)
        ≡ three_rows 0xbb 0xcc 0xaa }
{}

/// Worked cases, and counterexamples: an opening that raises one row and enrols one.
pub fn openings_are_worked()
    ensures raised { raises 1 three_names former_rows (put_of 1 8 ∷ put_of 0 9 ∷ [])
        ≡ Writes (Raises 1 2 8) ∷ Writes (Raises 1 1 9) ∷ [] }
    ensures none_raised { raises 1 three_names former_rows [] ≡ [] }
    ensures raised_first { opening_uses 1 three_names former_rows (put_of 1 8 ∷ []) (entry_of 0xaa 3 ∷ []) (7 ∷ [])
        ≡ Writes (Raises 1 2 8) ∷ Writes (Enrols 1 0 7) ∷ [] }
    ensures second_row { RaisesSecond (put_of 1 8 ∷ []) }
    // A floor that isn't higher changes nothing.
    ensures not_lowered { RaisesSecond (put_of 1 8 ∷ put_of 1 7 ∷ []) }
    ensures another_row { RaisesSecond (put_of 0 8 ∷ []) → ⊥ }
    ensures another_floor { RaisesSecond (put_of 1 9 ∷ []) → ⊥ }
    ensures left_out { RaisesSecond [] → ⊥ }
{}

/// Counterexamples: each condition of rows and of a store of a history fails for a minimal one.
pub fn rows_can_be_broken<S: Alter>()
    ensures known { AreKnown three_names (rows_of 0xbb 0xcc 0xaa) }
    ensures unknown_row { AreKnown three_names (rows_of 0xbb 0xaa 0xdd) → ⊥ }

    ensures seated { Seats maple_first 0xbb 0xcc 0xaa 7 (0 ∷ 2 ∷ []) }
    ensures seated_alone { Seats maple_alone 0xbb 0xcc 0xaa 7 (0 ∷ []) }
    ensures without_a_row { Seats maple_first 0xbb 0xcc 0xcc 7 (0 ∷ 0 ∷ []) → ⊥ }
    ensures of_another_content { Seats maple_first 0xbb 0xcc 0xaa 8 (0 ∷ 2 ∷ []) → ⊥ }
    ensures in_another_order { Seats silver_first 0xbb 0xcc 0xaa 7 (0 ∷ 2 ∷ []) → ⊥ }
    ensures of_the_one_who_is_gone { Seats maple_first 0xbb 0xcc 0xaa 7 (0 ∷ 1 ∷ []) → ⊥ }

    ensures rows_of_a_content { (own : BondRecord) (store : SqlHeld S) → length store.mirror.rows ≡ 1
        → HasRows S.Store own store [] → ⊥ }
    ensures rows_of_no_disk { (own : BondRecord) (store : SqlHeld S) (rows : List Entry)
        → (HasCleanDisk (state S.Store store.conn) → ⊥) → HasKnownRows S.Store own three_names store rows → ⊥ }
    ensures rows_of_one_name { (own : BondRecord) (store : SqlHeld S) (rows : List Entry)
        → HasKnownRows S.Store own (name_with 1 ∷ name_with 1 ∷ []) store rows → ⊥ }
    ensures rows_unknown { (own : BondRecord) (store : SqlHeld S)
        → HasKnownRows S.Store own three_names store (rows_of 0xbb 0xaa 0xdd) → ⊥ }

    ensures enrolled_elsewhere { (node : ℕ) (own : BondRecord) (conn : Conn S) (store : SqlHeld S) (rows : List Entry)
        → ((c : Content) (passes : List PassRecord) (former : List Entry)
        → (was : HoldsNamed (state S.Store conn).now c passes former own) → was.holds.node ≡ node → ⊥)
        → IsEnrolledFrom S.Store three_tokens node own three_names conn store rows → ⊥ }
    ensures enrolled_in_another_boot { (node : ℕ) (own : BondRecord) (conn : Conn S) (store : SqlHeld S)
        (rows : List Entry) → ((c : Content) (passes : List PassRecord) (former : List Entry)
        → HoldsNamed (state S.Store conn).now c passes former own → c.boot ≡ 4) → store.mirror.boot ≡ 5
        → IsEnrolledFrom S.Store three_tokens node own three_names conn store rows → ⊥ }
{}
