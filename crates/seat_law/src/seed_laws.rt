//! The laws about votes, and about the rows of one device. Floor: the first free factor of a token at a node.

ghost use Rattle.std.specs.Prelude.{◌≡◌, ◌∷◌, [], List, true, ℕ};
ghost use Rattle.otp_core.specs.Acceptance.{Acceptance, HaveSingleUse};
ghost use Rattle.vote_core.specs.Books.{Adds, blank_opening};
ghost use Rattle.vote_core.specs.Safety.{MayOpen};
ghost use Rattle.vote_core.specs.Schedule.{acceptances, Envelope, Event, Opening};
ghost use Rattle.seat_law.specs.SeedExamples.{all_apart, all_granted, all_one, both_at_once, granted_earlier, lone, lower_row, raised_once, raised_row, renamed_back, seated_at, seats_at, starts_again, taken, votes_once};
ghost use Rattle.seat_law.specs.Examples.{adds, begins};
ghost use Rattle.seat_law.specs.Seats.{blank_sites, Breaks, Course, free_in, go, Gone, Starts};
ghost use Rattle.seat_law.specs.Seeds.{AreGivenUp, HaveSingleUseOfSeeds, IsGivenUp, KeepOrderOfSeeds};
ghost use Rattle.seat_law.specs.SeedSeats.{AreSeatsGreatest, IsOpening, SeatsGreatest};
ghost use Rattle.seat_law.specs.Votes.{HasVotes, HaveVotes, IsVote, row_before, row_in};

/// Votes: a majority of the nodes voted for each acceptance, each in an event that changed no other row of the node.
pub fn acceptances_have_votes()
    ensures schedules { (n tokens : ℕ) (opening : Opening) (events : List Event) → MayOpen n tokens opening
        → HaveVotes n (row_before n tokens opening events) (acceptances n tokens opening events) }
    ensures seats { (n tokens : ℕ) (boot : ℕ → ℕ) (old : List Envelope) (courses : List Course)
        → MayOpen n tokens (blank_opening boot old)
        → HaveVotes n (row_in (blank_sites n tokens boot old) courses)
        (go 0 courses (blank_sites n tokens boot old)).seen.own.accepted }
{}

/// Single use by seed: no two acceptances of tokens of one seed share a factor.
///
/// A majority of the nodes gave up the factors of each acceptance, in rows with the greatest floors of their seeds.
/// What begins after an acceptance of the seed is accepted above it.
pub fn seeds_are_safe()
    ensures single_use { (n : ℕ) (floor : ℕ → ℕ → ℕ → ℕ) (seed : ℕ → ℕ) (accepted : List Acceptance)
        → HaveSingleUse accepted → AreGivenUp n floor seed accepted → HaveSingleUseOfSeeds seed accepted }
    ensures in_order { (n : ℕ) (floor : ℕ → ℕ → ℕ → ℕ) (seed : ℕ → ℕ) (accepted : List Acceptance)
        → AreGivenUp n floor seed accepted → KeepOrderOfSeeds seed accepted }
    ensures tokens { (accepted : List Acceptance) → HaveSingleUse accepted
        → HaveSingleUseOfSeeds (λ token. token) accepted }
{}

/// Worked cases, and counterexamples: a node alone takes factor 0 in one row of a device and then in another one.
pub fn seeds_can_be_broken()
    ensures twice { HaveSingleUseOfSeeds all_one renamed_back → ⊥ }
    ensures once_each { HaveSingleUseOfSeeds all_apart renamed_back }
    ensures out_of_order { KeepOrderOfSeeds all_one renamed_back → ⊥ }
    ensures in_order { KeepOrderOfSeeds all_apart renamed_back }
    ensures first { IsGivenUp lower_row all_one (taken 0 0) 1 0 }
    ensures another_device { IsGivenUp lower_row all_apart (taken 1 1) 1 1 }
    ensures row_comes_back_lower { IsGivenUp lower_row all_one (taken 1 1) 1 1 → ⊥ }
    ensures row_was_raised { IsGivenUp raised_row all_one (taken 1 1) 1 1 → ⊥ }
    ensures two_rows_in_seats { IsGivenUp both_at_once all_one (taken 1 0) 1 1 → ⊥ }
    ensures second_not_given_up { AreGivenUp 1 lower_row all_one renamed_back → ⊥ }
{}

/// Worked cases, and counterexamples: each condition of a vote fails for minimal rows.
pub fn votes_can_be_broken()
    ensures vote { IsVote votes_once (taken 0 0) 1 0 }
    ensures raised { IsVote raised_once (taken 0 0) 1 0 → ⊥ }
    ensures granted_before { IsVote granted_earlier (taken 0 0) 1 0 → ⊥ }
    ensures all_rows { IsVote all_granted (taken 0 0) 1 0 → ⊥ }
    ensures another_token { IsVote votes_once (taken 0 1) 1 0 → ⊥ }
    ensures another_node { IsVote votes_once (taken 0 0) 2 0 → ⊥ }
    ensures majority { HasVotes 1 votes_once (taken 0 0) }
    ensures half { HasVotes 2 votes_once (taken 0 0) → ⊥ }
    ensures first_unvoted { HaveVotes 1 votes_once (taken 0 1 ∷ taken 0 0 ∷ []) → ⊥ }
    ensures second_unvoted { HaveVotes 1 votes_once (taken 0 0 ∷ taken 0 1 ∷ []) → ⊥ }
{}

/// Worked cases, and counterexamples: each condition of seats by seed fails for a node alone with two rows.
pub fn seats_of_seeds_can_be_broken()
    ensures own_seeds { AreSeatsGreatest all_apart (seated_at 0 4 (0 ∷ [])) 1 }
    ensures lower { AreSeatsGreatest all_one (seated_at 0 4 (0 ∷ [])) 1 → ⊥ }
    ensures both { AreSeatsGreatest all_one (seated_at 4 4 (0 ∷ 1 ∷ [])) 1 → ⊥ }
    ensures starts { IsOpening 1 (Starts 1 []) }
    ensures starts_another { IsOpening 2 (Starts 1 []) → ⊥ }
    ensures adds { IsOpening 1 (adds 1 0 0) }
    ensures adds_another { IsOpening 2 (adds 1 0 0) → ⊥ }
    ensures adds_at_a_stop { IsOpening 1 (Breaks true (Adds 1 0 0)) }
    ensures adds_another_at_a_stop { IsOpening 2 (Breaks true (Adds 1 0 0)) → ⊥ }
    ensures begins { IsOpening 1 (begins 1 0 0) → ⊥ }
    ensures goes { IsOpening 1 (Gone 1) → ⊥ }
    ensures first_start { SeatsGreatest all_one (seated_at 4 4 (0 ∷ 1 ∷ [])) starts_again → ⊥ }
    ensures last_start { SeatsGreatest all_one lone (seats_at 0 4 (0 ∷ [])) → ⊥ }
    ensures each_opening { SeatsGreatest all_apart lone (seats_at 0 4 (0 ∷ [])) }
{}

/// Single use by seed over seats: no factor of a device is accepted twice, whichever of its rows are in seats.
///
/// After each start and each new row of a node, the rows of its seats have the greatest floors of their seeds. No two
/// of them have one seed.
pub fn seats_of_seeds_are_safe()
    ensures single_use { (seed : ℕ → ℕ) (n tokens : ℕ) (boot : ℕ → ℕ) (old : List Envelope) (courses : List Course)
        → MayOpen n tokens (blank_opening boot old)
        → SeatsGreatest seed (blank_sites n tokens boot old) courses
        → HaveSingleUseOfSeeds seed (go 0 courses (blank_sites n tokens boot old)).seen.own.accepted }
    ensures in_order { (seed : ℕ → ℕ) (n tokens : ℕ) (boot : ℕ → ℕ) (old : List Envelope) (courses : List Course)
        → MayOpen n tokens (blank_opening boot old)
        → SeatsGreatest seed (blank_sites n tokens boot old) courses
        → KeepOrderOfSeeds seed (go 0 courses (blank_sites n tokens boot old)).seen.own.accepted }
    ensures majority { (seed : ℕ → ℕ) (n tokens : ℕ) (boot : ℕ → ℕ) (old : List Envelope) (courses : List Course)
        → MayOpen n tokens (blank_opening boot old)
        → SeatsGreatest seed (blank_sites n tokens boot old) courses
        → AreGivenUp n (free_in (blank_sites n tokens boot old) courses) seed
        (go 0 courses (blank_sites n tokens boot old)).seen.own.accepted }
{}
