//! An instance of the premises of runs, by names and by place: the run of a node alone.

ghost use Rattle.std.specs.Prelude.{◌≡◌, ℕ, [], Err};
ghost use Rattle.book_law.specs.Lives.{accepted_in, answered_in};
ghost use Rattle.book_law.specs.Uses.{first_store};
ghost use Rattle.store_serving.specs.Broken.{booting};
ghost use Rattle.store_serving.specs.Placed.{HasServed};
ghost use Rattle.store_serving.specs.Served.{HasServedNamed};
ghost use Rattle.name_law.specs.Unforged.{IsSized};
ghost use Rattle.node_serving.specs.Stretches.{unasked};
ghost use Rattle.oathd_database.specs.Broken.{shows_any};
ghost use Rattle.oathd_database.specs.declared.fault.Fault.TheVariants.{NoClock};
ghost use Rattle.order_law.specs.Interleavings.{IsCausal, history_of};
ghost use Rattle.named_order_law.specs.Bytes.{IsUnforgedInterleaving};
ghost use Rattle.served_law.specs.LoneRun.{lone, lone_cluster, lone_disk, lone_items, lone_placed_run, lone_placed_stores, lone_run, lone_serving, lone_stores};
ghost use Rattle.served_law.specs.Orders.{IsOrderOf};
ghost use Rattle.served_law.specs.Placed.{IsPlacedOrder, IsPlacedRunOver, placed_runs};
ghost use Rattle.served_law.specs.Runs.{AreAllNamedStores, IsRunOver};
ghost use Rattle.served_law.specs.Uses.{AreAllStores};

/// Worked case: a run that meets all premises of the laws of runs.
///
/// A node alone opens a store of boot 4 without a token, by names. A byte comes from a client, and the clock fails.
pub fn lone_runs_are_worked()
    // The contract of `serve_named_store` may promise it.
    ensures served { HasServedNamed lone_disk shows_any lone_cluster 0 lone_serving unasked (Err NoClock) [] }
    ensures run { IsRunOver lone_disk shows_any (λ (until : ℕ). unasked) lone 1 [] (first_store lone 1) lone_run }
    ensures sized { IsSized [] lone }
    // Its steps are an order of all members' steps, and so an interleaving in which nobody forges.
    ensures order { (are : AreAllNamedStores lone_disk shows_any (λ (until : ℕ). unasked) lone [] lone_stores)
        × IsOrderOf lone_disk shows_any (λ (until : ℕ). unasked) lone [] lone_stores are lone_items }
    ensures interleaving { IsUnforgedInterleaving [] lone lone_items }
    ensures accepted { accepted_in lone (history_of lone_items) ≡ [] }
    ensures answered { answered_in lone (history_of lone_items) ≡ [] }
{}

/// Worked case: the same run by place meets all premises of the laws of runs by place.
pub fn lone_places_are_worked()
    // The contract of `serve_store` may promise it.
    ensures served { HasServed booting shows_any lone_serving unasked (Err NoClock) [] }
    ensures run { IsPlacedRunOver booting shows_any lone 1 (first_store lone 1) lone_placed_run }
    // Its steps are an order of all members' steps, and so a causal interleaving.
    ensures order { (are : AreAllStores (placed_runs booting shows_any lone) lone_placed_stores)
        × IsPlacedOrder booting shows_any lone lone_placed_stores are lone_items }
    ensures causal { IsCausal lone lone_items }
{}
