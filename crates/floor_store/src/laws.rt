ghost use Rattle.std.specs.Prelude.{◌≡◌, ℕ, pos, negsuc, List, [], ◌∷◌, Some, None, Ok, Err, length, true, false};
ghost use Rattle.floor_store.specs.Broken.{IsBootOf, booted, broken_at, done, failed, fallen_at, fuse, holding, keeping_fuse, out_of_memory, small_fuse, small_held, spent, store_at, unsettled_at};
ghost use Rattle.floor_store.specs.Content.{IsContent, accepted_row, opening_content, opening_content_at, opening_row, with_next_boot, with_row};
ghost use Rattle.floor_store.specs.Examples.{content_at, free_row, granted_row, later_row, new_pass, old_pass, pass, proposal, two_rows};
ghost use Rattle.floor_store.specs.Fault.{IsBrokenBy, IsCounted, is_failure};
ghost use Rattle.floor_store.specs.Fuse.{Blows, Burns, IsAtEnd, Passes};
ghost use Rattle.floor_store.specs.Held.{Breaks, Commits, IsSettled, Makes, MayPut, MayWrite, OldOrNew, Puts, RaisesBoot, Reads, Writes};
ghost use Rattle.floor_store.specs.Range.{IsPass, IsProposal, IsSpan};
ghost use Rattle.floor_store.specs.Records.{RowRecord, span_of};
ghost use Rattle.floor_store.specs.declared.fault.StoreFault.TheVariants.{AlreadyThere, Disk, Memory, Spent, Unusable};

/// Worked cases. The content after each write.
pub fn contents_are_worked()
    ensures first { with_row (two_rows granted_row (free_row 9) (Some old_pass)) 0 later_row None
        ≡ two_rows later_row (free_row 9) (Some old_pass) }
    ensures second { with_row (two_rows granted_row (free_row 9) (Some old_pass)) 1 later_row (Some new_pass)
        ≡ two_rows granted_row later_row (Some new_pass) }
    ensures first_pass { with_row (two_rows granted_row (free_row 9) None) 0 later_row (Some new_pass)
        ≡ two_rows later_row (free_row 9) (Some new_pass) }
    ensures no_pass { with_row (two_rows granted_row (free_row 9) None) 1 later_row None
        ≡ two_rows granted_row later_row None }
    ensures no_row { with_row (two_rows granted_row (free_row 9) None) 2 later_row None
        ≡ two_rows granted_row (free_row 9) None }
    ensures boot { with_next_boot (two_rows granted_row later_row (Some old_pass))
        ≡ record { rows = granted_row ∷ later_row ∷ []; boot = 5; last = Some old_pass } }
    ensures opening_row { opening_row 9 ≡ free_row 9 }
    ensures accepted { accepted_row (negsuc 0) granted_row
        ≡ record granted_row { gate = record { fails = 0; until = 0 }; drift = negsuc 0 } }
    ensures accepted_in_time { accepted_row (pos 0) later_row
        ≡ record later_row { gate = record { fails = 0; until = 0 }; drift = pos 0 } }
    ensures opening { opening_content (5 ∷ 0 ∷ 5 ∷ [])
        ≡ record { rows = free_row 5 ∷ free_row 0 ∷ free_row 5 ∷ []; boot = 0; last = None } }
    ensures opening_at { opening_content_at 4194304 (5 ∷ [])
        ≡ record { rows = free_row 5 ∷ []; boot = 4194304; last = None } }
    ensures empty { opening_content [] ≡ record { rows = []; boot = 0; last = None } }
{}

/// Worked cases. The ends of each range, one beyond each end, and the faults that break a store.
pub fn ranges_are_worked()
    ensures boots { IsContent (content_at 4611686018427387903 []) }
    ensures boot_too_many { IsContent (content_at 4611686018427387904 []) → ⊥ }
    ensures tokens { (rows : List RowRecord) → length rows ≡ 65536 → IsContent (content_at 0 rows) }
    ensures token_too_many { (rows : List RowRecord) → length rows ≡ 65537 → IsContent (content_at 0 rows) → ⊥ }
    ensures first_proposal { IsProposal (proposal 1 0 0) }
    ensures last_proposal { IsProposal (proposal 9 4611686018427387903 4611686018427387903) }
    ensures node_0 { IsProposal (proposal 0 0 0) → ⊥ }
    ensures node_10 { IsProposal (proposal 10 0 0) → ⊥ }
    ensures proposal_boot { IsProposal (proposal 1 4611686018427387904 0) → ⊥ }
    ensures proposal_seq { IsProposal (proposal 1 0 4611686018427387904) → ⊥ }
    ensures span { span_of 5 6 ≡ record { lo = 5; hi = 6 } }
    ensures one_factor { IsSpan 5 5 }
    ensures two_factors { IsSpan 5 6 }
    ensures three_factors { IsSpan 5 7 → ⊥ }
    ensures backwards { IsSpan 6 5 → ⊥ }
    ensures first_pass { IsPass (pass 0 5 6 0 0) }
    ensures last_pass { IsPass (pass 65535 5 5 4611686018427387903 4611686018427387903) }
    ensures pass_token { IsPass (pass 65536 5 5 0 0) → ⊥ }
    ensures pass_boot { IsPass (pass 0 5 5 4611686018427387904 0) → ⊥ }
    ensures pass_seq { IsPass (pass 0 5 5 0 4611686018427387904) → ⊥ }
    ensures memory { is_failure Memory ≡ true }
    ensures disk { is_failure Disk ≡ true }
    ensures spent { is_failure Spent ≡ false }
    ensures unusable { is_failure Unusable ≡ true }
    ensures already_there { is_failure AlreadyThere ≡ false }
    ensures broken { IsBrokenBy (Some Disk) Disk }
    ensures works { IsBrokenBy None Disk → ⊥ }
    ensures other_fault { IsBrokenBy (Some Disk) Memory → ⊥ }
    ensures no_failure { IsBrokenBy (Some Spent) Spent → ⊥ }
    ensures same_again { IsCounted (Some Disk) 1 1 Disk }
    ensures one_more { IsCounted None 0 1 Disk }
    ensures not_counted { IsCounted None 1 1 Disk → ⊥ }
    ensures other_before { IsCounted (Some Memory) 0 1 Disk → ⊥ }
{}

/// Counterexamples: each promise of a store's call fails for a minimal one.
pub fn store_calls_can_be_broken()
    ensures settled { IsSettled (small_held (store_at 1)) }
    ensures not_settled { IsSettled (small_held (unsettled_at 1 0)) → ⊥ }
    ensures old_or_new { OldOrNew (booted 0) (booted 1) (booted 0) × OldOrNew (booted 0) (booted 1) (booted 1) }
    ensures neither { OldOrNew (booted 0) (booted 1) (booted 2) → ⊥ }

    ensures reads { Reads (small_held (store_at 3)) IsBootOf (Ok 3) }
    ensures reads_failed { Reads (small_held (broken_at 3)) IsBootOf failed }
    ensures reads_fallen { Reads (small_held (fallen_at 3)) IsBootOf (Ok 4) }
    ensures reads_ok { Reads (small_held (store_at 3)) IsBootOf (Ok 4) → ⊥ }
    ensures reads_intact { Reads (small_held (broken_at 3)) IsBootOf (Ok 3) → ⊥ }
    ensures reads_broken { Reads (small_held (store_at 3)) IsBootOf failed → ⊥ }

    ensures makes { Makes small_held (store_at 0) (store_at 1) (booted 1) done }
    ensures makes_failed { Makes small_held (store_at 0) (store_at 0) (booted 1) failed
        × Makes small_held (store_at 0) (broken_at 1) (booted 1) failed }
    ensures makes_ok { Makes small_held (store_at 0) (store_at 0) (booted 1) done → ⊥ }
    ensures makes_err { Makes small_held (store_at 0) (broken_at 2) (booted 1) failed → ⊥ }
    ensures makes_stays { Makes small_held (broken_at 0) (broken_at 1) (booted 1) failed → ⊥ }
    ensures makes_count { Makes small_held (record (store_at 0) { failures = 1 }) (store_at 1) (booted 1) done → ⊥ }
    ensures makes_clean { Makes small_held (fallen_at 0) (store_at 1) (booted 1) done → ⊥ }
    ensures makes_tokens { Makes small_held (store_at 0) (holding (content_at 0 (free_row 9 ∷ [])))
        (content_at 0 (free_row 9 ∷ [])) done → ⊥ }

    ensures puts { Puts small_held (store_at 0) (unsettled_at 1 0) (booted 1) done }
    ensures puts_makes { Puts small_held (store_at 0) (store_at 0) (booted 1) done → ⊥ }
    ensures puts_left { Puts small_held (store_at 0) (unsettled_at 1 2) (booted 1) done → ⊥ }
    ensures puts_intact { Puts small_held (store_at 0) (broken_at 1) (booted 1) done → ⊥ }

    ensures writes { Writes small_held (store_at 0) (store_at 1) (booted 1) done }
    ensures writes_failed { Writes small_held (store_at 0) (record (broken_at 0) { other = booted 1 })
        (booted 1) failed }
    ensures writes_makes { Writes small_held (store_at 0) (store_at 0) (booted 1) done → ⊥ }
    ensures writes_left { Writes small_held (store_at 0) (record (broken_at 0) { other = booted 2 })
        (booted 1) failed → ⊥ }
    ensures writes_settled { Writes small_held (store_at 0) (unsettled_at 1 0) (booted 1) done → ⊥ }
    ensures writes_intact { Writes small_held (store_at 0) (broken_at 1) (booted 1) done → ⊥ }

    ensures commits { Commits small_held (unsettled_at 1 0) (store_at 1) done }
    ensures commits_what_was_there { Commits small_held (unsettled_at 1 0) (store_at 0) done → ⊥ }
    ensures commits_all { Commits small_held (unsettled_at 1 0) (unsettled_at 1 0) done → ⊥ }

    ensures may_put { MayPut small_held (store_at 0) (unsettled_at 1 0) (booted 1) done }
    ensures may_put_makes { MayPut small_held (store_at 0) (store_at 0) (booted 1) done → ⊥ }
    ensures may_put_left { MayPut small_held (store_at 0) (unsettled_at 1 2) (booted 1) done → ⊥ }
    ensures may_put_intact { MayPut small_held (store_at 0) (broken_at 1) (booted 1) done → ⊥ }

    ensures may_write { MayWrite small_held (store_at 0) (store_at 1) (booted 1) done }
    ensures may_write_unsettled { MayWrite small_held (unsettled_at 0 1) (unsettled_at 1 0) (booted 1) done }
    ensures may_write_makes { MayWrite small_held (store_at 0) (store_at 0) (booted 1) done → ⊥ }
    ensures may_write_left { MayWrite small_held (store_at 0) (record (broken_at 0) { other = booted 2 })
        (booted 1) failed → ⊥ }
    ensures may_write_settled { MayWrite small_held (store_at 0) (unsettled_at 1 0) (booted 1) done → ⊥ }
    ensures may_write_intact { MayWrite small_held (store_at 0) (broken_at 1) (booted 1) done → ⊥ }

    ensures breaks { Breaks small_held (store_at 0) (broken_at 0) Disk }
    ensures breaks_broken { Breaks small_held (store_at 0) (record (store_at 0) { failures = 1 }) Disk → ⊥ }
    ensures breaks_counted { Breaks small_held (store_at 0) (record (broken_at 0) { failures = 0 }) Disk → ⊥ }

    ensures raises_boot { RaisesBoot small_held (store_at 0) (store_at 1) done }
    ensures raises_boot_failed { RaisesBoot small_held (store_at 0) (broken_at 0) failed }
    ensures raises_boot_writes { RaisesBoot small_held (store_at 0) (store_at 2) done → ⊥ }
    ensures raises_boot_breaks { RaisesBoot small_held (store_at 0) (store_at 0) failed → ⊥ }
    ensures raises_boot_spent { RaisesBoot small_held (store_at 4611686018427387903)
        (record (store_at 4611686018427387903) { failures = 1 }) spent → ⊥ }
    ensures raises_boot_spent_broken { RaisesBoot small_held (broken_at 4611686018427387903)
        (broken_at 4611686018427387903)
        spent → ⊥ }
    ensures raises_boot_last { RaisesBoot small_held (store_at 0) (store_at 0) spent → ⊥ }
{}

/// Counterexamples: each promise of a store with a fuse fails for a minimal one, except `ends`, which follows from
/// `passes`.
pub fn fuses_can_be_broken()
    // the contract's view of the store: a blown fuse returns Disk, and is one more failure
    ensures seen_fault { (small_fuse (fuse 1 false)).fault ≡ None }
    ensures seen_failures { (small_fuse (fuse 1 false)).failures ≡ 0 }
    ensures seen_content { (small_fuse (record (fuse 1 true) { inner = store_at 3 })).content ≡ booted 3 }
    ensures blown_fault { (small_fuse (fuse 1 true)).fault ≡ Some Disk }
    ensures blown_failures { (small_fuse (fuse 1 true)).failures ≡ 1 }
    ensures broken_fault { (small_fuse (record (fuse 1 false) { inner = broken_at 0 })).fault ≡ Some Disk }
    ensures broken_failures { (small_fuse (record (fuse 1 false) { inner = broken_at 0 })).failures ≡ 1 }
    ensures broken_and_blown { (small_fuse (record (fuse 1 true) { inner = broken_at 0 })).failures ≡ 2 }

    ensures at_end { IsAtEnd small_fuse (fuse 1 false) }
    ensures at_end_blown { IsAtEnd small_fuse (fuse 1 true) → ⊥ }
    ensures at_end_broken { IsAtEnd small_fuse (record (fuse 1 false) { inner = broken_at 0 }) → ⊥ }
    ensures at_end_one_left { IsAtEnd small_fuse (fuse 0 false) → ⊥ }

    ensures passes { Passes (fuse 0 false) (fuse 1 false) }
    ensures passes_none_left { Passes (fuse 1 false) (fuse 2 false) → ⊥ }
    ensures passes_not_counted { Passes (fuse 0 false) (fuse 0 false) → ⊥ }

    ensures blows { Blows (fuse 1 false) (fuse 1 true) }
    ensures blows_again { Blows (fuse 1 true) (fuse 1 true) → ⊥ }
    ensures blows_not { Blows (fuse 1 false) (fuse 1 false) → ⊥ }

    ensures burns { Burns small_fuse (fuse 0 false) (fuse 1 false) (booted 0) done }
    ensures burns_blown { Burns small_fuse (fuse 1 false) (fuse 1 true) (booted 0) failed }
    ensures burns_kept { Burns small_fuse (keeping_fuse 1 false) (record (keeping_fuse 1 true) { inner = store_at 1 })
        (booted 1) failed }
    ensures burns_passes { Burns small_fuse (fuse 0 false) (fuse 0 false) (booted 0) done → ⊥ }
    ensures burns_fails { Burns small_fuse (fuse 0 false) (fuse 1 false) (booted 0) failed → ⊥ }
    ensures burns_before_its_end { Burns small_fuse (fuse 0 false) (fuse 0 true) (booted 0) failed → ⊥ }
    ensures burns_by_another_fault { Burns small_fuse (fuse 1 false) (fuse 1 true) (booted 0) out_of_memory → ⊥ }
    ensures burns_not_blown { Burns small_fuse (fuse 1 false) (fuse 1 false) (booted 0) failed → ⊥ }
    ensures burns_not_lost { Burns small_fuse (fuse 1 false) (record (fuse 1 true) { inner = store_at 1 }) (booted 1)
        failed → ⊥ }
    ensures burns_not_kept { Burns small_fuse (keeping_fuse 1 false) (keeping_fuse 1 true) (booted 1) failed → ⊥ }
    ensures burns_writes { Burns small_fuse (fuse 0 false) (record (fuse 1 false) { writes = 2 }) (booted 0) done → ⊥ }
    ensures burns_after { Burns small_fuse (fuse 0 false) (keeping_fuse 1 false) (booted 0) done → ⊥ }
{}
