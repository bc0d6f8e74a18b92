ghost use Rattle.std.specs.Prelude.{◌≡◌, [], ◌∷◌, Some, None, false, map, true};
ghost use Rattle.datagram_port.specs.Entries.{events_kept, moments_kept};
ghost use Rattle.datagram_port.specs.Port.{Faulted, Grows, IsWithin, Quiet, Received, entries_of_poll, event_of_receive};
ghost use Rattle.datagram_port.specs.declared.list_port.PortEntry.TheVariants.{Faulted as FaultedEntry, Quiet as QuietEntry};
ghost use Rattle.datagram_port.specs.declared.port.Received.TheVariants.{Datagram, Fault, Quiet as QuietReceive};
ghost use Rattle.datagram_port.specs.declared.port.Sender.TheVariants.{Peer};

/// Worked cases. The events of a receive and a poll, the content of the buffer, and kept records.
pub fn records_are_worked()
    ensures receives { map (λ received. event_of_receive received (1 ∷ 2 ∷ 3 ∷ []))
        (Datagram (Peer 1) 2 ∷ QuietReceive ∷ Fault ∷ []) ≡ Received (Peer 1) (1 ∷ 2 ∷ []) ∷ Quiet ∷ Faulted ∷ [] }
    ensures polls { map (λ received. entries_of_poll received []) (None ∷ Some Fault ∷ []) ≡ [] ∷ (Faulted ∷ []) ∷ [] }
    ensures within { IsWithin (Datagram (Peer 1) 512) × IsWithin QuietReceive × IsWithin Fault }
    ensures past_the_buffer { IsWithin (Datagram (Peer 1) 513) → ⊥ }
    ensures kept { events_kept true (QuietEntry ∷ FaultedEntry ∷ []) ≡ Some (Quiet ∷ Faulted ∷ []) }
    ensures lost { events_kept false [] ≡ None }
    ensures moments { moments_kept true (Some 7 ∷ None ∷ []) ≡ Some (Some 7 ∷ None ∷ []) }
    ensures lost_moments { moments_kept false [] ≡ None }
{}

/// Counterexamples: the promise of a growing record fails for each minimal one.
pub fn records_can_be_broken()
    ensures grows { Grows (Some (Quiet ∷ [])) (Some (Quiet ∷ Faulted ∷ [])) (Faulted ∷ []) }
    ensures grows_unseen { Grows (Some (Quiet ∷ [])) None (Faulted ∷ []) }
    ensures grows_from_none { Grows None (Some (Quiet ∷ [])) (Quiet ∷ []) → ⊥ }
    ensures grows_by_nothing { Grows (Some (Quiet ∷ [])) (Some (Quiet ∷ Faulted ∷ [])) [] → ⊥ }
    ensures grows_before { Grows (Some (Quiet ∷ [])) (Some (Faulted ∷ Quiet ∷ [])) (Faulted ∷ []) → ⊥ }
{}
