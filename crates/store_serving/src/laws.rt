//! The laws of a node that is served over a store by place.

ghost use Rattle.std.specs.Prelude.{◌≡◌, ℕ, List, [], ◌∷◌, length, Ok, codes, false, true};
ghost use Rattle.std.specs.declared.net.socket_addr.SocketAddrV4.{SocketAddrV4};
ghost use Rattle.otp_core.specs.Limits.{default_limits};
ghost use Rattle.token_file.specs.declared.fault.LineFault.TheVariants.{MissingField};
ghost use Rattle.floor_store.specs.declared.fault.StoreFault.TheVariants.{Disk};
ghost use Rattle.floor_sql.specs.Broken.{tables_at};
ghost use Rattle.udp_port.specs.Calls.{events_of_calls};
ghost use Rattle.oathd_database.specs.Broken.{IsOfOne, fallen, no_users, shows_any, still, users_fault};
ghost use Rattle.oathd_database.specs.declared.fault.Fault.TheVariants.{CannotWrite, Memory, NoClock, Socket, Store};
ghost use Rattle.store_serving.specs.Broken.{booting, serving_for, so_much};
ghost use Rattle.store_serving.specs.Ends.{IsNotServed};
ghost use Rattle.store_serving.specs.Placed.{EndsServing, HasServed, never};

/// Counterexamples: each promise of a command that serves, and of its end, fails for a minimal one.
pub fn served_can_be_broken()
    ensures served_import { (address : SocketAddrV4)
        → HasServed fallen shows_any (serving_for address) never (Ok (so_much 0 0)) no_users → ⊥ }
    ensures served_opened { (address : SocketAddrV4) (users : List ℕ) → IsOfOne 0 16777216 users
        → HasServed booting shows_any (serving_for address) never (Ok (so_much 0 0)) users → ⊥ }
    ensures served_rows { (address : SocketAddrV4)
        → (h : HasServed booting shows_any (serving_for address) never (Ok (so_much 0 0)) [])
        → length h.found.mirror.rows ≡ 0 }
    ensures served_in_boot { (address : SocketAddrV4)
        → HasServed (still (tables_at 4 [])) shows_any (serving_for address) never (Ok (so_much 0 0)) [] → ⊥ }
    ensures served_book { (address : SocketAddrV4)
        → (h : HasServed booting shows_any (serving_for address) never (Ok (so_much 0 0)) []) → h.over.first.book ≡ [] }
    ensures served_limits { (address : SocketAddrV4)
        → (h : HasServed booting shows_any (serving_for address) never (Ok (so_much 0 0)) [])
        → h.over.first.limits ≡ default_limits }
    ensures served_key { (address : SocketAddrV4)
        → (h : HasServed booting shows_any (serving_for address) never (Ok (so_much 0 0)) []) → h.over.first.key ≡ [] }
    ensures served_place { (address : SocketAddrV4)
        → (h : HasServed booting shows_any (serving_for address) never (Ok (so_much 0 0)) [])
        → h.over.first.voter.place.n ≡ 1 }
    ensures served_record { (address : SocketAddrV4)
        → (h : HasServed booting shows_any (serving_for address) never (Ok (so_much 0 0)) [])
        → h.over.served_is.events ≡ [] }
    ensures served_members { (address : SocketAddrV4)
        → (h : HasServed booting shows_any (serving_for address) never (Ok (so_much 0 0)) [])
        → h.over.served_is.events ≡ events_of_calls true false (address ∷ []) h.over.served_is.calls }
    ensures served_serves { (address : SocketAddrV4)
        → HasServed booting shows_any (serving_for address) never (Ok (so_much 1 0)) [] → ⊥ }
    // A fault ends the command before its first turn, or in a turn.
    ensures ends_before { (address : SocketAddrV4)
        → EndsServing fallen shows_any (serving_for address) Socket (codes "# none") }
    ensures ends_as_no_turn { (address : SocketAddrV4)
        → EndsServing booting shows_any (serving_for address) CannotWrite [] → ⊥ }
{}

/// Counterexamples: each promise of the fault that ends a command that serves fails for a minimal one.
pub fn ends_can_be_broken()
    ensures serving { IsNotServed default_limits 0 6 Socket (codes "# none") }
    ensures serving_no_clock { IsNotServed default_limits 0 6 NoClock (codes "# none") }
    ensures serving_store { IsNotServed default_limits 0 6 (Store Disk) (codes "# none") }
    ensures serving_for_memory { IsNotServed default_limits 0 6 Memory no_users }
    ensures serving_users { IsNotServed default_limits 0 6 (users_fault 1 MissingField) no_users }
    ensures serving_wrong_users { IsNotServed default_limits 0 6 (users_fault 1 MissingField) (codes "# none") → ⊥ }
    ensures serving_before_import { IsNotServed default_limits 0 6 Socket no_users → ⊥ }
    ensures serving_clock_before_import { IsNotServed default_limits 0 6 NoClock no_users → ⊥ }
    ensures serving_store_before_import { IsNotServed default_limits 0 6 (Store Disk) no_users → ⊥ }
    ensures serving_output { IsNotServed default_limits 0 6 CannotWrite (codes "# none") → ⊥ }
{}
