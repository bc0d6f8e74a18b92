//! The laws about commands that write to a store, and about openings that a stop cuts off. Floor: the first free factor
//! of a token at a node.

ghost use Rattle.std.specs.Prelude.{◌≡◌, ◌⊎◌, ℕ, Bool, List, [], ◌∷◌, map, None, Some, Result, Ok, slice_get};
ghost use Rattle.floor_store.specs.Broken.{holding, small_held};
ghost use Rattle.floor_store.specs.Content.{Content, with_row};
ghost use Rattle.floor_store.specs.Held.{Commits, IsSettled, MayPut, MayWrite, RaisesBoot};
ghost use Rattle.floor_store.specs.Range.{IsCount};
ghost use Rattle.floor_store.specs.Records.{RowRecord};
ghost use Rattle.floor_store.specs.declared.fault.StoreFault.{StoreFault};
ghost use Rattle.otp_core.specs.Gate.{clear_gate};
ghost use Rattle.vote_core.specs.Rows.{row_with_gate};
ghost use Rattle.vote_core.specs.Voting.{raise};
ghost use Rattle.book_law.specs.Examples.{two_rows};
ghost use Rattle.book_law.specs.Lives.{Down, FailsToOpen, Raises, Setting, Store, Unlocks, floor_of, process_after, row_of};
ghost use Rattle.book_law.specs.Uses.{own_process};
ghost use Rattle.book_law.specs.Writes.{kept_in, raises_of, store_with_raises};

use floor_store::FloorStore;

/// Commands: over any store, what `unlock` and `level` write to the row of a token is an action of a node without a
/// process.
///
/// A stop inside a command leaves the store of a prefix of its actions.
pub fn commands_are_actions<S: FloorStore>()
    // A put of the row with a clear gate, and its commit.
    ensures unlocks { (setting : Setting) (event node token number : ℕ) (names : List ℕ) (store new : S)
        (old : RowRecord) → row_of (kept_in S.held names store) token ≡ Some number
        → slice_get (S.held store).content.rows number ≡ Some old
        → let made = with_row (S.held store).content number (row_with_gate clear_gate old) None in
        MayWrite {A = Unit {0}} {E = StoreFault} S.held store new made (Ok tt) → (S.held new).is_clean
        → process_after setting event (Unlocks node token) (Down (kept_in S.held names store))
        ≡ Down (kept_in S.held names new) }
    ensures stops_unlocking { (setting : Setting) (event node token number : ℕ) (names : List ℕ) (store new : S)
        (old : RowRecord) (result : Result (Unit {0}) StoreFault) (content : Content)
        → row_of (kept_in S.held names store) token ≡ Some number
        → slice_get (S.held store).content.rows number ≡ Some old
        → let made = with_row (S.held store).content number (row_with_gate clear_gate old) None in
        MayWrite S.held store new made result → (S.held new).is_clean → (S.held new).leaves content
        → (S.held store).leaves content
        ⊎ (process_after setting event (Unlocks node token) (Down (kept_in S.held names store))
        ≡ Down (record { names = names; content = content })) }
    // A put of a greater floor, or none. The commit keeps the content, and after it a stop leaves nothing else.
    ensures raises { (setting : Setting) (event node token number floor : ℕ) (names : List ℕ) (store new : S)
        → row_of (kept_in S.held names store) token ≡ Some number
        → MayPut {A = Unit {0}} {E = StoreFault} S.held store new (raise number floor (S.held store).content) (Ok tt)
        → (S.held new).is_clean
        → process_after setting event (Raises node token floor) (Down (kept_in S.held names store))
        ≡ Down (kept_in S.held names new) }
    ensures stops_raising { (setting : Setting) (event node token number floor : ℕ) (names : List ℕ) (store new : S)
        (result : Result (Unit {0}) StoreFault) (content : Content)
        → row_of (kept_in S.held names store) token ≡ Some number
        → MayPut S.held store new (raise number floor (S.held store).content) result
        → (S.held store).is_clean → (S.held new).leaves content
        → (S.held store).leaves content
        ⊎ (process_after setting event (Raises node token floor) (Down (kept_in S.held names store))
        ≡ Down (record { names = names; content = content })) }
    ensures commits { (store new : S) → Commits {A = Unit {0}} {E = StoreFault} S.held store new (Ok tt)
        → (S.held new).is_clean
        → ((S.held new).content ≡ (S.held store).content) × IsSettled (S.held new) }
    // Puts in order are the actions in order.
    ensures in_order { (setting : Setting) (node first : ℕ) (told : List (ℕ × ℕ)) (store : Store)
        → own_process setting node first (raises_of node told) (Down store) ≡ Down (store_with_raises told store) }
{}

/// Openings: over any store, what a stop leaves while a boot is raised is left by a process that failed to open.
pub fn cut_openings_are_actions<S: FloorStore>()
    ensures { (setting : Setting) (event node : ℕ) (names : List ℕ) (store left : S) (result : Result S StoreFault)
        (content : Content) → RaisesBoot S.held store left result → IsSettled (S.held store)
        → (S.held left).leaves content → IsCount content.boot
        → (raised : Bool) × (process_after setting event (FailsToOpen node raised) (Down (kept_in S.held names store))
        ≡ Down (record { names = names; content = content })) }
{}

/// Worked cases.
pub fn commands_are_worked()
    ensures kept { kept_in small_held (5 ∷ 3 ∷ []) (holding (two_rows None).content) ≡ two_rows None }
    ensures raises { raises_of 1 ((3, 40) ∷ (5, 60) ∷ []) ≡ Raises 1 3 40 ∷ Raises 1 5 60 ∷ [] }
    ensures raised_in_order { map (floor_of (store_with_raises ((3, 40) ∷ (5, 60) ∷ (3, 35) ∷ []) (two_rows None)))
        (3 ∷ 5 ∷ []) ≡ 40 ∷ 60 ∷ [] }
    ensures raised_by_none { store_with_raises [] (two_rows None) ≡ two_rows None }
{}
