//! The worked cases and counterexamples of runs by names.

ghost use Rattle.std.specs.Prelude.{◌≡◌, ℕ, Bool, true, List, [], ◌∷◌, map, Option, Some, None, Result, Ok, Err};
ghost use Rattle.std.proofs.Common.{inl, inr, refl};
ghost use Rattle.sqlite.specs.Held.{Held as Conn, state};
ghost use Rattle.datagram_port.specs.Port.{PortEvent};
ghost use Rattle.floor_store.specs.Broken.{SmallStore, small_held};
ghost use Rattle.floor_store.specs.Content.{Content};
ghost use Rattle.floor_store.specs.Range.{IsCount};
ghost use Rattle.floor_store.specs.Records.{PassRecord};
ghost use Rattle.roster_sql.specs.Roster.{BondRecord, HoldsNamed};
ghost use Rattle.roster_sql.specs.declared.entry.Entry.{Entry};
ghost use Rattle.oath_node.specs.Broken.{fallen_node, small_node};
ghost use Rattle.oath_node.specs.Hosted.{Hosted};
ghost use Rattle.oath_node.specs.Reading.{ReadsNode};
ghost use Rattle.oath_node.specs.TurnServing.{ServesUntil};
ghost use Rattle.oath_node.specs.Unlocking.{UnlocksNode};
ghost use Rattle.oath_node.specs.declared.fault.NodeFault.{NodeFault};
ghost use Rattle.oath_node.specs.declared.serve_fault.ServeFault.{ServeFault};
ghost use Rattle.oath_node.specs.declared.turns.Served.{Served};
ghost use Rattle.node_serving.specs.Stretches.{AreServed, FailsToAct, Stretch, operator_acts, unasked};
ghost use Rattle.oathd_database.specs.declared.fault.Fault.{Fault};
ghost use Rattle.node_serving.specs.declared.serving.Serving.{Serving};
ghost use Rattle.store_serving.specs.Served.{HasServedNamed};
ghost use Rattle.oathd_roster.specs.declared.cluster.NamedCluster.{NamedCluster};
ghost use Rattle.book_law.specs.Lives.{Enrols, Setting, Store, Terms};
ghost use Rattle.book_law.specs.Seeds.{HaveSeedsOnce};
ghost use Rattle.book_law.specs.Stretches.{Stretch as StretchOf, token_cleared, tokens_cleared};
ghost use Rattle.book_law.specs.Uses.{AreUses, StoreUse, WasProcessIn, entries_in, store_after, written_store};
ghost use Rattle.served_law.specs.Devices.{HaveDevices, HaveOneSeed};
ghost use Rattle.served_law.specs.Enrolled.{opening_uses};
ghost use Rattle.served_law.specs.Examples.{no_rows, rows_of, three_names, three_tokens};
ghost use Rattle.served_law.specs.Processes.{AreClean, IsUse, MayEndWith, RunsIn, StaysClean, number_unlocked, stretches_of, with_numbers};
ghost use Rattle.served_law.specs.RunExamples.{stretch_from, two_commands, two_writes};
ghost use Rattle.served_law.specs.Runs.{AreNamedUses, AreOf, AreOfRun, HasUsesOf, HoldsStore, IsRunOver, IsSound, NamedRun, NamedUse, answers_of, entries_of, store_found, store_left, terms_in, view_of};
ghost use Rattle.served_law.specs.Seated.{HasKnownRows};
ghost use Rattle.served_law.specs.Uses.{RunsBy, WritesBy};

use node_serving::Stop;
use oathd_database::Database;
use sqlite::Alter;

/// Worked cases: what acts unlocked, and the stretches with these numbers.
pub fn stretches_are_numbered()
    ensures unlocks { (old new : Hosted SmallStore) (result : Result Bool NodeFault) (number : ℕ)
        (unlocks : UnlocksNode small_held old new number result)
        → number_unlocked small_held old new result (inl (number, unlocks)) ≡ Some number }
    ensures reads { (old new : Hosted SmallStore) (result : Result Bool NodeFault)
        (reads : ReadsNode small_held old new result)
        → number_unlocked small_held old new result (inr (inl reads)) ≡ None }
    ensures nothing { number_unlocked small_held small_node small_node (Ok true) (inr (inr (refl, refl))) ≡ None }
    ensures none { (are : AreServed small_held (operator_acts small_held) small_node (Some []) (Some []) 5 [] small_node
        (Some []) (Some []) 5)
        → with_numbers small_held small_node (Some []) (Some []) 5 [] small_node (Some []) (Some []) 5 are ≡ [] }
    // The first stretch is the last one of the list. Each has the clock's record at its end.
    ensures numbers { (old now : Hosted SmallStore) (first entries : Option (List PortEvent))
        (asked told : Option (List (Option ℕ))) (turns left : ℕ) (one other : Stretch SmallStore)
        (are : AreServed small_held (operator_acts small_held) old first asked turns (one ∷ other ∷ []) now entries told
        left) → map (λ (stretch : StretchOf SmallStore). stretch.unlocked)
        (with_numbers small_held old first asked turns (one ∷ other ∷ []) now entries told left are)
        ≡ number_unlocked small_held one.stood now (Ok true) are.4
        ∷ number_unlocked small_held other.stood one.from (Ok true) are.0.4 ∷ [] }
    ensures records { (old now : Hosted SmallStore) (first entries : Option (List PortEvent))
        (asked told : Option (List (Option ℕ))) (turns left : ℕ) (one other : Stretch SmallStore)
        (are : AreServed small_held (operator_acts small_held) old first asked turns (one ∷ other ∷ []) now entries told
        left) → map (λ (stretch : StretchOf SmallStore). stretch.told)
        (with_numbers small_held old first asked turns (one ∷ other ∷ []) now entries told left are)
        ≡ told ∷ one.asked ∷ [] }
{}

/// Worked cases and counterexamples: each condition of a run fails for a minimal one.
pub fn runs_can_be_broken()
    ensures clean { AreClean small_held [] small_node }
    ensures clean_again { AreClean small_held (stretch_from small_node ∷ []) small_node }
    ensures unclean { AreClean small_held [] fallen_node → ⊥ }
    ensures unclean_after_an_act { AreClean small_held (stretch_from small_node ∷ []) fallen_node → ⊥ }
    ensures unclean_at_the_start { AreClean small_held (stretch_from fallen_node ∷ []) small_node → ⊥ }
    ensures unclean_before_the_last_but_one { AreClean small_held
        (stretch_from small_node ∷ stretch_from fallen_node ∷ []) small_node → ⊥ }
    ensures unclean_in_a_run { (old new : Hosted SmallStore) (entries : List PortEvent) (turns : ℕ)
        (result : Result Served ServeFault) (run : RunsIn small_held old new entries turns unasked result)
        → (AreClean small_held run.stretches run.from → ⊥) → StaysClean small_held run → ⊥ }
    ensures unclean_at_the_end { (old : Hosted SmallStore) (entries : List PortEvent) (turns : ℕ)
        (result : Result Served ServeFault) (run : RunsIn small_held old fallen_node entries turns unasked result)
        → StaysClean small_held run → ⊥ }

    // What the end of a run cleared.
    ensures turns_clear_none { (from new : Hosted SmallStore) (first entries : Option (List PortEvent))
        (asked told : Option (List (Option ℕ))) (turns : ℕ) (end : Result Served ServeFault)
        (serves : ServesUntil small_held from new first entries asked told turns unasked end)
        → MayEndWith small_held from new first entries asked told turns unasked end (inl serves) (Some 0) → ⊥ }
    ensures act_clears_none { (from new : Hosted SmallStore) (first entries : Option (List PortEvent))
        (asked told : Option (List (Option ℕ))) (turns : ℕ) (end : Result Served ServeFault)
        (fails : FailsToAct small_held (operator_acts small_held) from new first entries asked told turns end)
        → MayEndWith small_held from new first entries asked told turns unasked end (inr fails) None }
    ensures act_clears_its_own { (from new : Hosted SmallStore) (first entries : Option (List PortEvent))
        (asked told : Option (List (Option ℕ))) (turns : ℕ) (end : Result Served ServeFault)
        (fails : FailsToAct small_held (operator_acts small_held) from new first entries asked told turns end)
        (number : ℕ) → number_unlocked small_held fails.stood new (Err fails.fault) fails.fails ≡ Some 2
        → MayEndWith small_held from new first entries asked told turns unasked end (inr fails) (Some number)
        → number ≡ 2 }

    // The use that a run is.
    ensures use_with_another_end { (old new : Hosted SmallStore) (entries recorded : List PortEvent) (turns node : ℕ)
        (result : Result Served ServeFault) (setting : Setting) (terms : Terms) (port : List ℕ) (found : Store)
        (left : Content) (run : RunsIn small_held old new entries turns unasked result)
        → ((number : Option ℕ) → MayEndWith small_held run.from new run.from_first (Some entries) run.from_asked None
        run.left unasked run.end run.last number → ⊥)
        → IsUse small_held run setting node terms port found recorded left → ⊥ }
    ensures use_with_these_tokens { (old new : Hosted SmallStore) (entries recorded : List PortEvent) (turns node : ℕ)
        (result : Result Served ServeFault) (setting : Setting) (terms : Terms) (port : List ℕ) (found : Store)
        (left : Content) (run : RunsIn small_held old new entries turns unasked result)
        (one : IsUse small_held run setting node terms port found recorded left)
        → WasProcessIn setting node terms port found
        (tokens_cleared terms (stretches_of small_held run) (token_cleared terms one.last ∷ [])) recorded left }
{}

/// Counterexamples: each condition of a command's run fails for a minimal one.
pub fn commands_can_be_broken<S: Alter + Drop, D: Database<S>, U: Stop>()
    ensures unknown { (cluster : NamedCluster) (moment : ℕ) (serving : Serving) (result : Result Served Fault)
        (text : List ℕ) (names : List (List ℕ)) (rows : List Entry) (setting : Setting)
        (run : HasServedNamed S.Store D.finds cluster moment serving unasked result text)
        → (HasKnownRows S.Store cluster.bond names run.found.inner rows → ⊥) → IsSound run setting names rows → ⊥ }
    ensures of_fewer_members { (cluster : NamedCluster) (moment : ℕ) (serving : Serving) (result : Result Served Fault)
        (text : List ℕ) (names : List (List ℕ)) (rows : List Entry) (setting : Setting)
        (run : HasServedNamed S.Store D.finds cluster moment serving unasked result text)
        → setting.n ≡ 3 → serving.place.n ≡ 5 → IsSound run setting names rows → ⊥ }
    ensures unclean { (cluster : NamedCluster) (moment : ℕ) (serving : Serving) (result : Result Served Fault)
        (text : List ℕ) (names : List (List ℕ)) (rows : List Entry) (setting : Setting)
        (run : HasServedNamed S.Store D.finds cluster moment serving unasked result text)
        → (StaysClean (view_of S.Store) run.over.served_is.serves.serves → ⊥) → IsSound run setting names rows → ⊥ }
    ensures past_the_last_boot { (cluster : NamedCluster) (moment : ℕ) (serving : Serving)
        (result : Result Served Fault) (text : List ℕ) (names : List (List ℕ)) (rows : List Entry) (setting : Setting)
        (run : HasServedNamed S.Store D.finds cluster moment serving unasked result text)
        → (IsCount run.over.boot → ⊥) → IsSound run setting names rows → ⊥ }
{}

/// Worked cases and counterexamples: each condition of uses by names fails for minimal ones.
pub fn named_uses_can_be_broken<S: Alter + Drop, D: Database<S>, U: Stop>()
    // The tables of a connection hold a store of a history.
    ensures holds_another { (own : BondRecord) (conn : Conn S) (content : Content) (passes : List PassRecord)
        → HoldsNamed (state S.Store conn).now content passes (rows_of 0xbb 0xcc 0xaa) own
        → HoldsStore S.Store own three_names conn no_rows → ⊥ }

    // Uses without a process.
    ensures nothing { AreNamedUses S.Store D.finds U.answers three_tokens 1 three_names no_rows [] }
    ensures writes { AreNamedUses S.Store D.finds U.answers three_tokens 1 three_names no_rows (two_commands U) }
    ensures writes_elsewhere { AreNamedUses S.Store D.finds U.answers three_tokens 2 three_names no_rows
        (two_commands U) → ⊥ }
    ensures are_of_nothing { (uses : List StoreUse)
        → AreOf S.Store D.finds U.answers three_tokens 1 three_names no_rows [] tt uses → uses ≡ [] }
    ensures are_of_writes { AreOf S.Store D.finds U.answers three_tokens 1 three_names no_rows (two_commands U)
        (refl, (refl, tt)) two_writes }
    ensures are_of_no_writes { AreOf S.Store D.finds U.answers three_tokens 1 three_names no_rows (two_commands U)
        (refl, (refl, tt)) [] → ⊥ }
    ensures later_writes { (setting : Setting) (node : ℕ) (names : List (List ℕ)) (store : Store)
        (later : List (NamedUse U)) (floor token : ℕ)
        → AreNamedUses S.Store D.finds U.answers setting node names store (WritesBy (Enrols node token floor) ∷ later)
        → AreNamedUses S.Store D.finds U.answers setting node names (written_store setting (Enrols node token floor)
        store) later }

    // Runs.
    ensures unasked_run { answers_of U.answers None 0 true true }
    ensures asked_run { (until : U) (left : ℕ) (is_waiting ends : Bool)
        → answers_of U.answers (Some until) left is_waiting ends → U.answers until left is_waiting ends }
    ensures run_elsewhere { (setting : Setting) (names : List (List ℕ)) (store : Store) (run : NamedRun U)
        → run.serving.place.me ≡ 2 → IsRunOver S.Store D.finds U.answers setting 1 names store run → ⊥ }
    ensures run_over_another { (setting : Setting) (node : ℕ) (names : List (List ℕ)) (store : Store)
        (run : NamedRun U) → ((conn : Conn S) → HoldsStore S.Store run.cluster.bond names conn store → ⊥)
        → IsRunOver S.Store D.finds U.answers setting node names store run → ⊥ }
    ensures later_run { (setting : Setting) (node : ℕ) (names : List (List ℕ)) (store : Store)
        (later : List (NamedUse U)) (run : NamedRun U)
        (are : AreNamedUses S.Store D.finds U.answers setting node names store (RunsBy run ∷ later))
        → AreNamedUses S.Store D.finds U.answers setting node names
        (store_left S.Store D.finds U.answers setting node names store run are.0) later }
    ensures are_of_run { (setting : Setting) (node : ℕ) (names : List (List ℕ)) (store : Store) (run : NamedRun U)
        (is : IsRunOver S.Store D.finds U.answers setting node names store run) (uses : List StoreUse)
        (are : AreOfRun S.Store D.finds U.answers setting node names store run is uses)
        → entries_in are.parts ≡ entries_of is.served names }
    ensures are_of_run_that_finds { (setting : Setting) (node : ℕ) (names : List (List ℕ)) (store : Store)
        (run : NamedRun U) (is : IsRunOver S.Store D.finds U.answers setting node names store run)
        (uses : List StoreUse) (are : AreOfRun S.Store D.finds U.answers setting node names store run is uses)
        → store_after setting (opening_uses run.serving.place.me names are.former are.puts are.new are.floors) store
        ≡ store_found is.served names run.rows }
    ensures are_of_no_process { (setting : Setting) (node : ℕ) (names : List (List ℕ)) (store : Store)
        (run : NamedRun U) (is : IsRunOver S.Store D.finds U.answers setting node names store run)
        → AreOfRun S.Store D.finds U.answers setting node names store run is [] → ⊥ }

    // What the laws have of them.
    ensures uses_are_of { (setting : Setting) (node : ℕ) (names : List (List ℕ)) (store : Store)
        (named : List (NamedUse U)) (are : AreNamedUses S.Store D.finds U.answers setting node names store named)
        (has : HasUsesOf S.Store D.finds U.answers setting node names store named are)
        → AreOf S.Store D.finds U.answers setting node names store named are has.uses }
    ensures uses_are_uses { (setting : Setting) (node : ℕ) (names : List (List ℕ)) (store : Store)
        (named : List (NamedUse U)) (are : AreNamedUses S.Store D.finds U.answers setting node names store named)
        (has : HasUsesOf S.Store D.finds U.answers setting node names store named are)
        → AreUses setting node store has.uses }
{}

/// Counterexamples: each condition of devices fails for a minimal one, or is among those of a run.
pub fn devices_can_be_broken<S: Alter + Drop, D: Database<S>, U: Stop>()
    ensures two_seeds { HaveOneSeed (λ token. 0) three_names (rows_of 0xbb 0xcc 0xaa) → ⊥ }
    ensures one_seed { (setting : Setting) (node : ℕ) (names : List (List ℕ)) (seed : ℕ → ℕ) (store : Store)
        (run : NamedRun U) (later : List (NamedUse U))
        (are : AreNamedUses S.Store D.finds U.answers setting node names store (RunsBy run ∷ later))
        → HaveDevices S.Store D.finds U.answers setting node names seed store (RunsBy run ∷ later) are
        → HaveOneSeed seed names run.rows }
    ensures once { (setting : Setting) (node : ℕ) (names : List (List ℕ)) (seed : ℕ → ℕ) (store : Store)
        (run : NamedRun U) (later : List (NamedUse U))
        (are : AreNamedUses S.Store D.finds U.answers setting node names store (RunsBy run ∷ later))
        → HaveDevices S.Store D.finds U.answers setting node names seed store (RunsBy run ∷ later) are
        → HaveSeedsOnce seed (terms_in are.0.served names).seats }
    ensures later { (setting : Setting) (node : ℕ) (names : List (List ℕ)) (seed : ℕ → ℕ) (store : Store)
        (run : NamedRun U) (later : List (NamedUse U))
        (are : AreNamedUses S.Store D.finds U.answers setting node names store (RunsBy run ∷ later))
        → HaveDevices S.Store D.finds U.answers setting node names seed store (RunsBy run ∷ later) are
        → HaveDevices S.Store D.finds U.answers setting node names seed
        (store_left S.Store D.finds U.answers setting node names store run are.0) later are.1 }
{}
