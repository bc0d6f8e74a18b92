ghost use Rattle.std.specs.Prelude.{◌≡◌, ◌+◌, ◌<◌, ◌≤◌, ◌∷◌, [], Bool, false, length, List, map, slice_get, Some, true, ℕ, ℤ};
ghost use Rattle.floor_store.specs.Content.{Content, opening_row};
ghost use Rattle.otp_core.specs.Acceptance.{HaveSingleUse, KeepRealTimeOrder, majority_of, size};
ghost use Rattle.vote_core.specs.NodeSet.{PlaceRecord};
ghost use Rattle.vote_core.specs.BookExamples.{added_twice, crossed_again, crossed_both, outcome_in, remade_with, rows_told, turns_told};
ghost use Rattle.vote_core.specs.Books.{AreAddedFrom, AreBegun, AreHeard, blank_books, blank_opening, Course, free_in, go, happenings_by, KeepsBook};
ghost use Rattle.vote_core.specs.Cases.{accepted};
ghost use Rattle.vote_core.specs.Examples.{acceptance};
ghost use Rattle.vote_core.specs.Numbers.{HasNewRow, IsNamed, IsNamedStep, IsNamedVoter, named_message, named_turn, with_new_row};
ghost use Rattle.vote_core.specs.Roster.{after_happening, all_tokens, AreDone, AreGivenAll, AreUnbound, Does, Enrols, free_before, Happening, happenings_of, is_new, IsEnrolledFrom, posted, RaiseNone, served, SparesStore, taken, token_of};
ghost use Rattle.vote_core.specs.RosterExamples.{both_made_anew, dropped_where_unknown, enrolled_again, enrolled_again_higher, enrolled_higher, floors_told, made_anew_with, made_anew_without, none_enrolled, outcome_over, stopped_enrolments, two_made_anew, unknown_asked_for};
ghost use Rattle.vote_core.specs.Rows.{row};
ghost use Rattle.vote_core.specs.Safety.{AreDeliverable, AreFrom, AreTold, HaveMajority, MayOpen};
ghost use Rattle.vote_core.specs.Schedule.{Envelope, Event, has_store, Opening, run, start};
ghost use Rattle.vote_core.specs.Voting.{on_message, propose, tell, tick, tick_telling, VoterState};
ghost use Rattle.vote_core.specs.declared.message.Message.{Message};

/// Safety of votes over a roster: in every schedule of `n` nodes, acceptances are safe.
///
/// Each node opens with tokens of its own. A schedule may enrol tokens at one node after another while the others
/// serve.
pub fn votes_over_a_roster_are_safe()
    ensures single_use { (n tokens : ℕ) (opening : Opening) (enrolled : ℕ → ℕ → Bool) (happenings : List Happening)
        → MayOpen n tokens opening → HaveSingleUse (taken n tokens opening enrolled happenings) }
    ensures in_order { (n tokens : ℕ) (opening : Opening) (enrolled : ℕ → ℕ → Bool) (happenings : List Happening)
        → MayOpen n tokens opening → KeepRealTimeOrder (taken n tokens opening enrolled happenings) }
    ensures majority { (n tokens : ℕ) (opening : Opening) (enrolled : ℕ → ℕ → Bool) (happenings : List Happening)
        → MayOpen n tokens opening → HaveMajority n (free_before n tokens opening enrolled happenings)
        (taken n tokens opening enrolled happenings) }
    ensures proposed { (n tokens : ℕ) (opening : Opening) (enrolled : ℕ → ℕ → Bool) (happenings : List Happening)
        → MayOpen n tokens opening → AreDone happenings (taken n tokens opening enrolled happenings) }
    ensures from_floors { (n tokens : ℕ) (opening : Opening) (enrolled : ℕ → ℕ → Bool) (happenings : List Happening)
        → MayOpen n tokens opening
        → (token least : ℕ) → token < tokens → ((node : ℕ) → 1 ≤ node → node ≤ n → least ≤ opening.floor node token)
        → AreFrom token least (taken n tokens opening enrolled happenings) }
    ensures from_enrolments { (n tokens : ℕ) (opening : Opening) (enrolled : ℕ → ℕ → Bool) (happenings : List Happening)
        → MayOpen n tokens opening
        → (token least : ℕ) → token < tokens → IsEnrolledFrom token least opening enrolled happenings
        → AreFrom token least (taken n tokens opening enrolled happenings) }
{}

/// Floors over a roster tell all: no acceptance is missing from the floors of enough nodes, read after all events.
///
/// Floor: the first free factor of a token at a node. If each majority has a node that was read, the greatest floor
/// read of a token lies above each of its accepted factors. The floor of a node never falls while nobody replaces its
/// store.
pub fn floors_over_a_roster_tell_all()
    ensures rise { (n tokens : ℕ) (opening : Opening) (enrolled : ℕ → ℕ → Bool) (happenings : List Happening)
        → MayOpen n tokens opening
        → (node token first later : ℕ) → first ≤ later → SparesStore happenings node first later
        → free_before n tokens opening enrolled happenings node token first
        ≤ free_before n tokens opening enrolled happenings node token later }
    ensures told { (n tokens : ℕ) (opening : Opening) (enrolled : ℕ → ℕ → Bool) (happenings : List Happening)
        → MayOpen n tokens opening → (read : ℕ → Bool) → n < size n read + majority_of n
        → AreTold n read (free_before n tokens opening enrolled happenings) (length happenings)
        (taken n tokens opening enrolled happenings) }
{}

/// Delivery over a roster: each message sent goes to a member, comes from another member, and fits the receiver's
/// voter.
///
/// The receiver may take it after it has enrolled the message's token.
pub fn messages_over_a_roster_may_be_heard()
    ensures { (n tokens : ℕ) (opening : Opening) (enrolled : ℕ → ℕ → Bool) (happenings : List Happening)
        → MayOpen n tokens opening → AreDeliverable n tokens (posted n tokens opening enrolled happenings) }
{}

/// Free enrolment: the row of a token that is not enrolled at a node is only a bound on its floor.
///
/// Enrolling the token makes the row an opening row with the given floor. If each replacement store gets every token
/// that another member has, there is no bound: a token may be enrolled with any floor.
pub fn enrolments_are_free()
    ensures untouched { (n tokens : ℕ) (opening : Opening) (enrolled : ℕ → ℕ → Bool) (happenings : List Happening)
        → (node token : ℕ) → (served n tokens opening enrolled happenings).enrolled node token ≡ false
        → row ((served n tokens opening enrolled happenings).cluster.nodes node).content token
        ≡ opening_row (row ((served n tokens opening enrolled happenings).cluster.nodes node).content token).next }
    ensures enrolled { (n tokens : ℕ) (opening : Opening) (enrolled : ℕ → ℕ → Bool) (happenings : List Happening)
        → MayOpen n tokens opening
        → (event node : ℕ) (given : ℕ → Bool) (floor : ℕ → ℕ) (token : ℕ) → token < tokens
        → has_store (served n tokens opening enrolled happenings).cluster node ≡ true
        → is_new (served n tokens opening enrolled happenings) node given floor token ≡ true
        → row ((after_happening event (Does (Enrols node given floor))
        (served n tokens opening enrolled happenings)).cluster.nodes node).content token ≡ opening_row (floor token) }
    ensures free { (n tokens : ℕ) (opening : Opening) (enrolled : ℕ → ℕ → Bool) (happenings : List Happening)
        → AreUnbound opening enrolled → AreGivenAll n tokens opening enrolled happenings
        → (node token : ℕ) → (served n tokens opening enrolled happenings).enrolled node token ≡ false
        → row ((served n tokens opening enrolled happenings).cluster.nodes node).content token ≡ opening_row 0 }
{}

/// Fixed books: a schedule over a book that never changes is a schedule of rosters, event by event.
///
/// All tokens are enrolled at all members, and each tick tells the floor of its turn's token.
pub fn fixed_books_are_rosters()
    ensures tick { (place : PlaceRecord) (content : Content) (voter : VoterState)
        → tick place content voter ≡ tick_telling place (voter.turn ∷ []) content voter }
    ensures run { (n tokens : ℕ) (opening : Opening) (events : List Event) → RaiseNone events
        → (served n tokens opening all_tokens (happenings_of 0 events (start n tokens opening))).cluster
        ≡ run 0 events (start n tokens opening) }
{}

/// Own numbers: the actions of a voter over its own token numbers are, under canonical names, its actions over these
/// names.
///
/// A tick tells the name of the turn's token. The rows of all other tokens stay unchanged.
pub fn own_numbers_are_names()
    ensures proposed { (name : ℕ → ℕ) (place : PlaceRecord) (own canonical : Content) (voter named : VoterState)
        → IsNamed name own canonical → IsNamedVoter name (length own.rows) voter named
        → (token lo hi : ℕ) (drift : ℤ) → token < length own.rows → IsNamedStep name (length own.rows)
        (propose place token lo hi drift own voter) (propose place (name token) lo hi drift canonical named) }
    ensures heard { (name : ℕ → ℕ) (place : PlaceRecord) (own canonical : Content) (voter named : VoterState)
        → IsNamed name own canonical → IsNamedVoter name (length own.rows) voter named
        → (from : ℕ) (message : Message) → token_of message < length own.rows → IsNamedStep name (length own.rows)
        (on_message place from message own voter) (on_message place from (named_message name message) canonical named) }
    ensures ticked { (name : ℕ → ℕ) (place : PlaceRecord) (own canonical : Content) (voter named : VoterState)
        → IsNamed name own canonical → IsNamedVoter name (length own.rows) voter named
        → IsNamedStep name (length own.rows)
        (tick place own voter) (tick_telling place (named_turn name own voter) canonical named) }
    ensures told { (name : ℕ → ℕ) (place : PlaceRecord) (told : List ℕ)
        (own canonical : Content) (voter named : VoterState)
        → IsNamed name own canonical → IsNamedVoter name (length own.rows) voter named
        → ((i token : ℕ) → slice_get told i ≡ Some token → token < length own.rows)
        → IsNamedStep name (length own.rows) (tell place told own voter) (tell place (map name told) canonical named) }
    ensures enrolled { (name : ℕ → ℕ) (floor : ℕ) (own canonical new : Content)
        → IsNamed name own canonical → HasNewRow name floor own canonical new
        → IsNamed name (with_new_row floor own) new }
    ensures others_proposed { (place : PlaceRecord) (content : Content) (voter : VoterState)
        (token lo hi : ℕ) (drift : ℤ)
        → (other : ℕ) → (other ≡ token → ⊥)
        → row (propose place token lo hi drift content voter).content other ≡ row content other }
    ensures others_heard { (place : PlaceRecord) (content : Content) (voter : VoterState) (from : ℕ) (message : Message)
        → (other : ℕ) → (other ≡ token_of message → ⊥)
        → row (on_message place from message content voter).content other ≡ row content other }
{}

/// Worked cases.
pub fn rosters_are_worked()
    ensures dropped { outcome_over dropped_where_unknown ≡ record { accepted = acceptance 2 5 1 0 ∷ []; sent = 3 } }
    ensures higher { outcome_over enrolled_higher ≡ record { accepted = acceptance 3 7 1 0 ∷ []; sent = 4 } }
    ensures unknown { outcome_over unknown_asked_for ≡ record { accepted = []; sent = 0 } }
    ensures again { outcome_over enrolled_again ≡ record { accepted = acceptance 2 4 1 0 ∷ []; sent = 6 } }
    ensures again_higher { outcome_over enrolled_again_higher
        ≡ record { accepted = acceptance 2 4 1 0 ∷ acceptance 7 9 3 1 ∷ []; sent = 6 } }
    ensures anew_too_low { outcome_over (made_anew_with 0) ≡ record { accepted = acceptance 2 4 1 0 ∷ []; sent = 5 } }
    ensures anew { outcome_over (made_anew_with 1) ≡ record { accepted = acceptance 2 4 1 0 ∷ []; sent = 6 } }
    ensures later_too_low { outcome_over (made_anew_without 0)
        ≡ record { accepted = acceptance 2 4 1 0 ∷ []; sent = 5 } }
    ensures later { outcome_over (made_anew_without 1) ≡ record { accepted = acceptance 2 4 1 0 ∷ []; sent = 6 } }
    ensures both_too_low { outcome_over (both_made_anew 0) ≡ record { accepted = acceptance 2 4 1 0 ∷ []; sent = 5 } }
    ensures both { outcome_over (both_made_anew 1) ≡ record { accepted = acceptance 2 4 1 0 ∷ []; sent = 6 } }
    ensures two { outcome_over two_made_anew ≡ record { accepted = acceptance 2 4 1 0 ∷ []; sent = 5 } }
    ensures told { outcome_over floors_told ≡ record { accepted = []; sent = 6 } }
    ensures stopped { outcome_over stopped_enrolments ≡ record { accepted = []; sent = 2 } }
{}

/// Safety over own books: under the tokens' names, acceptances and messages belong to a roster, and so they are safe.
///
/// Members open without tokens. Each numbers the rows of its store in any order, and adds rows while the others serve.
pub fn own_books_are_safe()
    ensures single_use { (n tokens : ℕ) (boot : ℕ → ℕ) (old : List Envelope) (courses : List Course)
        → MayOpen n tokens (blank_opening boot old)
        → HaveSingleUse (go 0 courses (blank_books n tokens boot old)).own.accepted }
    ensures in_order { (n tokens : ℕ) (boot : ℕ → ℕ) (old : List Envelope) (courses : List Course)
        → MayOpen n tokens (blank_opening boot old)
        → KeepRealTimeOrder (go 0 courses (blank_books n tokens boot old)).own.accepted }
    ensures majority { (n tokens : ℕ) (boot : ℕ → ℕ) (old : List Envelope) (courses : List Course)
        → MayOpen n tokens (blank_opening boot old)
        → HaveMajority n (free_in (blank_books n tokens boot old) courses)
        (go 0 courses (blank_books n tokens boot old)).own.accepted }
    ensures proposed { (n tokens : ℕ) (boot : ℕ → ℕ) (old : List Envelope) (courses : List Course)
        → MayOpen n tokens (blank_opening boot old)
        → AreBegun (blank_books n tokens boot old) courses
        (go 0 courses (blank_books n tokens boot old)).own.accepted }
    ensures from_floors { (n tokens : ℕ) (boot : ℕ → ℕ) (old : List Envelope) (courses : List Course)
        → MayOpen n tokens (blank_opening boot old)
        → (token least : ℕ) → token < tokens → AreAddedFrom token least courses
        → AreFrom token least (go 0 courses (blank_books n tokens boot old)).own.accepted }
    ensures rise { (n tokens : ℕ) (boot : ℕ → ℕ) (old : List Envelope) (courses : List Course)
        → MayOpen n tokens (blank_opening boot old)
        → (node token first later : ℕ) → first ≤ later → KeepsBook courses node first later
        → free_in (blank_books n tokens boot old) courses node token first
        ≤ free_in (blank_books n tokens boot old) courses node token later }
    ensures told { (n tokens : ℕ) (boot : ℕ → ℕ) (old : List Envelope) (courses : List Course)
        → MayOpen n tokens (blank_opening boot old) → (read : ℕ → Bool) → n < size n read + majority_of n
        → AreTold n read (free_in (blank_books n tokens boot old) courses) (length courses)
        (go 0 courses (blank_books n tokens boot old)).own.accepted }
    ensures heard { (n tokens : ℕ) (boot : ℕ → ℕ) (old : List Envelope) (courses : List Course)
        → MayOpen n tokens (blank_opening boot old)
        → AreDeliverable n tokens (go 0 courses (blank_books n tokens boot old)).own.sent }
    ensures fits { (n tokens : ℕ) (boot : ℕ → ℕ) (old : List Envelope) (courses : List Course)
        → MayOpen n tokens (blank_opening boot old)
        → AreHeard n (go 0 courses (blank_books n tokens boot old)) }
    ensures accepted { (n tokens : ℕ) (boot : ℕ → ℕ) (old : List Envelope) (courses : List Course)
        → MayOpen n tokens (blank_opening boot old)
        → (go 0 courses (blank_books n tokens boot old)).own.accepted
        ≡ taken n tokens (blank_opening boot old) none_enrolled
        (happenings_by 0 courses (blank_books n tokens boot old)) }
    ensures sent { (n tokens : ℕ) (boot : ℕ → ℕ) (old : List Envelope) (courses : List Course)
        → MayOpen n tokens (blank_opening boot old)
        → (go 0 courses (blank_books n tokens boot old)).own.sent
        ≡ posted n tokens (blank_opening boot old) none_enrolled
        (happenings_by 0 courses (blank_books n tokens boot old)) }
{}

/// Worked cases.
pub fn books_are_worked()
    ensures crossed { outcome_in crossed_both
        ≡ record { accepted = accepted 4 7 1 0 0 0 ∷ accepted 8 10 2 1 3 3 ∷ []; sent = 6 } }
    ensures again { outcome_in crossed_again ≡ record { accepted = accepted 4 7 1 0 0 0 ∷ []; sent = 3 } }
    ensures twice { outcome_in added_twice ≡ record { accepted = accepted 4 7 1 0 0 0 ∷ []; sent = 3 } }
    ensures turns { outcome_in turns_told ≡ record { accepted = []; sent = 4 } }
    ensures rows { outcome_in rows_told ≡ record { accepted = []; sent = 8 } }
    ensures remade { outcome_in (remade_with 2 1)
        ≡ record { accepted = accepted 4 7 1 0 0 0 ∷ accepted 10 12 2 0 1 1 ∷ []; sent = 6 } }
    ensures remade_too_low { outcome_in (remade_with 2 0) ≡ record { accepted = accepted 4 7 1 0 0 0 ∷ []; sent = 3 } }
    ensures remade_without { outcome_in (remade_with 1 9) ≡ record { accepted = accepted 4 7 1 0 0 0 ∷ []; sent = 3 } }
{}
