//! The laws of a served node.

ghost use Rattle.std.specs.Prelude.{◌≡◌, ℕ, List, None, Option, Some};
ghost use Rattle.token_file.specs.Credential.{Credential};
ghost use Rattle.clients_file.specs.declared.clients.Clients.{Clients};
ghost use Rattle.node_serving.specs.Front.{IsFirstMark, IsFrontFault, IsFrontOf};
ghost use Rattle.node_serving.specs.Gate.{IsSaid, gate_from};
ghost use Rattle.node_serving.specs.declared.gate.ClientLines.TheVariants.{Anybody, Of, ThisMachine};
ghost use Rattle.node_serving.specs.declared.gate.Front.TheVariants as fronts;
ghost use Rattle.std.specs.Borrow.{Bor};
ghost use Rattle.cluster_file.specs.ClusterFile.{cluster_value};
ghost use Rattle.cluster_file.specs.Key.{shared_key_of};
ghost use Rattle.cluster_file.specs.Shared.{shared_of};
ghost use Rattle.cluster_file.specs.declared.cluster.Cluster.{Cluster};
ghost use Rattle.vote_core.specs.NodeSet.{PlaceRecord};
ghost use Rattle.node_serving.specs.NodeKey.{tag_key};
ghost use Rattle.node_serving.specs.Serving.{IsOfMember};
ghost use Rattle.node_serving.specs.declared.serving.Serving.{Serving};
ghost use Rattle.oathd_database.specs.declared.fault.Fault.TheVariants.{Memory, NoClock, Socket};

/// Members: the one that [`Serving::of_member`](crate::Serving::of_member) describes has what its cluster file says.
pub fn members_follow_their_file()
    ensures settings { (cluster : Bor Cluster) (key : List ℕ) (place : PlaceRecord) (serving : Serving)
        → IsOfMember cluster key place serving → serving.settings ≡ cluster.now.settings }
    ensures place { (cluster : Bor Cluster) (key : List ℕ) (place : PlaceRecord) (serving : Serving)
        → IsOfMember cluster key place serving → serving.place ≡ place }
    ensures members { (cluster : Bor Cluster) (key : List ℕ) (place : PlaceRecord) (serving : Serving)
        → IsOfMember cluster key place serving → serving.members.items ≡ cluster.now.members.items }
    ensures key { (cluster : Bor Cluster) (key : List ℕ) (place : PlaceRecord) (serving : Serving)
        (book : List Credential) → IsOfMember cluster key place serving
        → tag_key serving.key book ≡ shared_key_of key (shared_of (cluster_value cluster.now) book) }
{}

/// Counterexamples: each promise of what stands between a socket and its clients fails for a minimal one.
pub fn fronts_can_be_broken()
    ensures plain { IsFrontOf 1 None Anybody fronts.Anybody × IsFrontOf 1 (Some 5) ThisMachine fronts.ThisMachine }
    ensures another { (IsFrontOf 1 None Anybody fronts.ThisMachine → ⊥)
        × (IsFrontOf 1 None ThisMachine fronts.Anybody → ⊥) }
    ensures gate { (clients : Clients) → clients.ahead ≡ 2
        → IsFrontOf 1 None (Of clients) (fronts.Gate (gate_from 1 5000000 clients)) }
    ensures no_gate { (opened : Option ℕ) (clients : Clients) → (IsFrontOf 1 opened (Of clients) fronts.Anybody → ⊥)
        × (IsFrontOf 1 opened (Of clients) fronts.ThisMachine → ⊥) }
    ensures gate_of_another { (opened : Option ℕ) (clients : Clients)
        → IsFrontOf 1 opened (Of clients) (fronts.Gate (gate_from 2 5 clients)) → ⊥ }
    // Without a latest moment the mark is as far ahead of some second as the lead is. With one it is that moment alone.
    ensures start { IsFirstMark None 2 5000000 }
    ensures no_start { IsFirstMark None 2 5000001 → ⊥ }
    ensures below_the_lead { IsFirstMark None 2 1000000 → ⊥ }
    ensures gate_again { (clients : Clients)
        → IsFrontOf 1 (Some 5) (Of clients) (fronts.Gate (gate_from 1 5 clients)) }
    ensures latest { IsFirstMark (Some 5) 2 5 }
    ensures lower { IsFirstMark (Some 5) 2 4 → ⊥ }
    ensures higher { IsFirstMark (Some 5) 2 5000000 → ⊥ }
    ensures said { (clients : Clients) → clients.ahead ≡ 60 → IsSaid (Of clients) }
    ensures said_too_much { (clients : Clients) → clients.ahead ≡ 61 → IsSaid (Of clients) → ⊥ }
    ensures fault { IsFrontFault Memory × IsFrontFault NoClock × (IsFrontFault Socket → ⊥) }
{}
