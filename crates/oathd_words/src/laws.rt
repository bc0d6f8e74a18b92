ghost use Rattle.std.specs.Prelude.{◌≡◌, [], ◌∷◌, ◌++◌, length, map, replicate, List, ℕ, None, Some, codes, false, true};
ghost use Rattle.std.specs.Borrow.{Bor};
ghost use Rattle.std.specs.Global.{Vec};
ghost use Rattle.std.specs.declared.net.socket_addr.SocketAddrV4.{SocketAddrV4};
ghost use Rattle.udp_port.specs.Examples.{at_host, at_local};
ghost use Rattle.oathd_words.specs.Broken.{at_member, at_node, begin_at, cluster_at, drop_at, file, floors_by_file, floors_of, given_cluster, given_nodes, init_at, level_by, lines_at, local_text, local_texts, look_at, look_at_any, look_at_member, migrate_among, migrate_at, named_cluster, named_nodes, remake_at, roster_at, serve_for, sim_at, store_of, usual_init, usual_remake, usual_serve, word};
ghost use Rattle.clap.specs.Matches.{first_value};
ghost use Rattle.clap.specs.declared.parser.matches.Found.{Found};
ghost use Rattle.clap.specs.declared.parser.matches.MatchedArg.{MatchedArg};
ghost use Rattle.oathd_words.specs.FormerWords.{former_of, is_of_former, lost_said, moment_or_0, nodes_in, values_given};
ghost use Rattle.oathd_words.specs.Given.{GivesMember};
ghost use Rattle.oathd_words.specs.Members.{AreMembers, SayAddresses, are_different};
ghost use Rattle.oathd_words.specs.NodesWords.{AreNodesInRange};
ghost use Rattle.oathd_words.specs.StoreWords.{AsksForAction, AsksForClients, AsksForLog, AsksForLook, GivesFormerMembers, GivesOwner, IsActionInRange, IsClusterInRange, IsNodeInRange, begins, drops, has_log, is_of_node, takes_anybody};
ghost use Rattle.oathd_words.specs.Words.{IsInRange, cluster_path_of, owner_node, path_of_action};
ghost use Rattle.oathd_words.specs.declared.former_words.FormerWords.{FormerWords as AnyFormer};
ghost use Rattle.oathd_words.specs.declared.store_words.ClientWords.TheVariants.{Anybody, Named, ThisMachine};
ghost use Rattle.oathd_words.specs.declared.store_words.LogWords.TheVariants.{Nowhere, Output, Syslog};
ghost use Rattle.oathd_words.specs.declared.store_words.Look.{Look as AnyLook};
ghost use Rattle.oathd_words.specs.declared.store_words.Look.TheVariants.{Audit, Export, Gates, Unlock};
ghost use Rattle.oathd_words.specs.declared.store_words.Owner.{Owner as AnyOwner};
ghost use Rattle.oathd_words.specs.declared.store_words.Owner.TheVariants as owners;
ghost use Rattle.oathd_words.specs.declared.words.Task.TheVariants.{Check, NewCluster, NewKey, Secret, SecretOfInput};

/// Counterexamples: the smallest list of members is accepted, and each part of the rule fails for a minimal one.
pub fn members_can_be_broken()
    ensures says { SayAddresses [] [] × SayAddresses (local_text 5 ∷ []) (at_local 5 ∷ []) }
    ensures says_of_no_text { SayAddresses [] (at_local 5 ∷ []) → ⊥ }
    ensures says_of_no_address { SayAddresses (local_text 5 ∷ []) [] → ⊥ }
    ensures says_too_few { SayAddresses (local_text 5 ∷ local_text 6 ∷ []) (at_local 5 ∷ []) → ⊥ }
    ensures says_another { SayAddresses (local_text 5 ∷ []) (at_local 6 ∷ []) → ⊥ }
    ensures says_another_behind { SayAddresses (local_text 5 ∷ local_text 6 ∷ []) (at_local 5 ∷ at_local 7 ∷ []) → ⊥ }

    ensures members { AreMembers (codes "127.0.0.1:5,127.0.0.1:6") (at_local 5 ∷ at_local 6 ∷ []) }
    ensures members_said { AreMembers (local_text 5) (at_local 6 ∷ []) → ⊥ }
    ensures members_few { AreMembers (local_texts 0 (1 ∷ 2 ∷ 3 ∷ 4 ∷ 5 ∷ 6 ∷ 7 ∷ 8 ∷ 9 ∷ []))
        (map at_local (0 ∷ 1 ∷ 2 ∷ 3 ∷ 4 ∷ 5 ∷ 6 ∷ 7 ∷ 8 ∷ 9 ∷ [])) → ⊥ }
    ensures members_different { (text : List ℕ) → AreMembers text (at_local 5 ∷ at_local 5 ∷ []) → ⊥ }

    // two addresses are the same if host and port are
    ensures different { map are_different (
        [] ∷ (at_local 5 ∷ at_local 6 ∷ at_host 126 5 ∷ []) ∷ (at_local 5 ∷ at_local 6 ∷ at_local 5 ∷ [])
        ∷ (at_local 6 ∷ at_local 5 ∷ at_local 5 ∷ []) ∷ []) ≡ true ∷ true ∷ false ∷ false ∷ [] }
{}

/// Worked cases. Each range includes its ends, and excludes the numbers beside them.
pub fn ranges_can_be_broken()
    ensures nodes { AreNodesInRange (given_nodes 1) × AreNodesInRange (given_nodes 9) × AreNodesInRange named_nodes }
    ensures no_nodes { AreNodesInRange (given_nodes 0) → ⊥ }
    ensures ten_nodes { AreNodesInRange (given_nodes 10) → ⊥ }

    ensures members { (members : Vec SocketAddrV4) → length members.items ≡ 3
        → IsClusterInRange (given_cluster 3 members) }
    ensures two_of_three_members { (members : Vec SocketAddrV4) → length members.items ≡ 2
        → IsClusterInRange (given_cluster 3 members) → ⊥ }
    ensures member { IsClusterInRange (named_cluster 1) × IsClusterInRange (named_cluster 9) }
    ensures member_0 { IsClusterInRange (named_cluster 0) → ⊥ }
    ensures member_10 { IsClusterInRange (named_cluster 10) → ⊥ }

    ensures init { IsActionInRange (init_at None 1) × IsActionInRange (init_at None 9)
        × IsActionInRange (init_at (Some 0) 1) × IsActionInRange (init_at (Some 1099511627775) 9) }
    ensures init_0 { IsActionInRange (init_at None 0) → ⊥ }
    ensures init_10 { IsActionInRange (init_at None 10) → ⊥ }
    ensures init_0_at_0 { IsActionInRange (init_at (Some 0) 0) → ⊥ }
    ensures init_10_at_0 { IsActionInRange (init_at (Some 0) 10) → ⊥ }
    ensures init_at_2_to_40 { IsActionInRange (init_at (Some 1099511627776) 1) → ⊥ }
    ensures remake { (former : AnyFormer) → IsActionInRange (remake_at None former 1)
        × IsActionInRange (remake_at None former 9) × IsActionInRange (remake_at (Some 0) former 1)
        × IsActionInRange (remake_at (Some 1099511627775) former 9) }
    ensures remake_0 { (former : AnyFormer) → IsActionInRange (remake_at None former 0) → ⊥ }
    ensures remake_10 { (former : AnyFormer) → IsActionInRange (remake_at None former 10) → ⊥ }
    ensures remake_0_at_0 { (former : AnyFormer) → IsActionInRange (remake_at (Some 0) former 0) → ⊥ }
    ensures remake_10_at_0 { (former : AnyFormer) → IsActionInRange (remake_at (Some 0) former 10) → ⊥ }
    ensures remake_at_2_to_40 { (former : AnyFormer) → IsActionInRange (remake_at (Some 1099511627776) former 1) → ⊥ }
    ensures serve { IsActionInRange (serve_for 0 1) × IsActionInRange (serve_for 18014398509481983 9) }
    ensures serve_0 { IsActionInRange (serve_for 0 0) → ⊥ }
    ensures serve_for_2_to_54 { IsActionInRange (serve_for 18014398509481984 1) → ⊥ }
    ensures look { (look : AnyLook) → IsActionInRange (look_at_any look) × IsActionInRange (look_at look 1)
        × IsActionInRange (look_at look 9) × IsActionInRange (look_at_member look 1)
        × IsActionInRange (look_at_member look 9) }
    ensures look_0 { (look : AnyLook) → IsActionInRange (look_at look 0) → ⊥ }
    ensures look_10 { (look : AnyLook) → IsActionInRange (look_at look 10) → ⊥ }
    ensures look_at_member_0 { (look : AnyLook) → IsActionInRange (look_at_member look 0) → ⊥ }
    ensures look_at_member_10 { (look : AnyLook) → IsActionInRange (look_at_member look 10) → ⊥ }
    ensures node { IsNodeInRange (at_node 1) × IsNodeInRange (at_node 9) × IsNodeInRange (at_member 1)
        × IsNodeInRange (at_member 9) }
    ensures no_node { IsNodeInRange owners.Any → ⊥ }
    ensures node_0 { (IsNodeInRange (at_node 0) → ⊥) × (IsNodeInRange (at_member 0) → ⊥) }
    ensures node_10 { (IsNodeInRange (at_node 10) → ⊥) × (IsNodeInRange (at_member 10) → ⊥) }
    ensures migrate { (owner : AnyOwner) → IsActionInRange (migrate_at owner) → IsNodeInRange owner }
    ensures migrate_of_one { (owner : AnyOwner) → IsNodeInRange owner → IsActionInRange (migrate_among 3 owner) }
    ensures begin { IsActionInRange (begin_at 1) × IsActionInRange (begin_at 9) }
    ensures begin_0 { IsActionInRange (begin_at 0) → ⊥ }
    ensures begin_10 { IsActionInRange (begin_at 10) → ⊥ }
    ensures roster { IsActionInRange (roster_at 1) × IsActionInRange (drop_at 9) }
    ensures roster_0 { IsActionInRange (roster_at 0) → ⊥ }
    ensures roster_10 { IsActionInRange (roster_at 10) → ⊥ }
    ensures floors { IsActionInRange (floors_of 1) × IsActionInRange (floors_of 9) }
    ensures floors_0 { IsActionInRange (floors_of 0) → ⊥ }
    ensures floors_10 { IsActionInRange (floors_of 10) → ⊥ }
    ensures level { (floors : Vec (Bor (List ℕ))) (owner : AnyOwner)
        → IsActionInRange (level_by floors owner) → IsNodeInRange owner }
    ensures level_of_one { (floors : Vec (Bor (List ℕ))) (owner : AnyOwner) → IsNodeInRange owner
        → IsActionInRange (level_by floors owner) }

    ensures lines { IsInRange (lines_at 0 (given_nodes 1)) × IsInRange (lines_at 1099511627775 named_nodes) }
    ensures lines_of_none { IsInRange (lines_at 0 (given_nodes 0)) → ⊥ }
    ensures lines_at_2_to_40 { IsInRange (lines_at 1099511627776 named_nodes) → ⊥ }
    ensures sim { IsInRange (sim_at 0 (given_nodes 1)) × IsInRange (sim_at 1099511627775 named_nodes) }
    ensures sim_of_none { IsInRange (sim_at 0 (given_nodes 0)) → ⊥ }
    ensures sim_at_2_to_40 { IsInRange (sim_at 1099511627776 named_nodes) → ⊥ }
    ensures cluster { IsInRange (cluster_at 0 (given_nodes 1)) × IsInRange (cluster_at 1099511627775 named_nodes) }
    ensures cluster_of_none { IsInRange (cluster_at 0 (given_nodes 0)) → ⊥ }
    ensures cluster_at_2_to_40 { IsInRange (cluster_at 1099511627776 named_nodes) → ⊥ }
    ensures store { IsInRange (store_of (look_at Audit 1)) }
    ensures store_of_node_0 { IsInRange (store_of (look_at Audit 0)) → ⊥ }
    ensures check { IsInRange (Check (word []) (word [])) }
    ensures secret { IsInRange (Secret (word [])) × IsInRange SecretOfInput }
{}

/// Worked cases. The cluster file that a task names.
pub fn paths_are_worked()
    ensures named { map cluster_path_of (lines_at 0 named_nodes ∷ sim_at 0 named_nodes ∷ cluster_at 0 named_nodes
        ∷ store_of (init_at None 1) ∷ store_of (serve_for 0 1) ∷ store_of floors_by_file
        ∷ store_of (look_at_member Audit 1) ∷ store_of (begin_at 1) ∷ store_of (roster_at 1)
        ∷ store_of (migrate_at (at_member 1)) ∷ Check (word []) file ∷ []) ≡ replicate 11 (Some (codes "c")) }
    ensures remake { (former : AnyFormer) → path_of_action (remake_at None former 1) ≡ Some (codes "c") }
    ensures level_by_names { (floors : Vec (Bor (List ℕ)))
        → path_of_action (level_by floors (at_member 1)) ≡ Some (codes "c") }
    ensures none { map cluster_path_of (lines_at 0 (given_nodes 1) ∷ sim_at 0 (given_nodes 1)
        ∷ cluster_at 0 (given_nodes 1) ∷ store_of usual_init ∷ store_of (look_at_any Export)
        ∷ store_of (look_at Audit 1) ∷ store_of (migrate_at (at_node 1)) ∷ store_of (floors_of 1) ∷ Secret file
        ∷ SecretOfInput ∷ []) ≡ replicate 10 None }
    ensures given_remake { (former : AnyFormer) → path_of_action (usual_remake former) ≡ None }
    ensures given_serve { (members : Vec SocketAddrV4) → path_of_action (usual_serve members) ≡ None }
    ensures level { (floors : Vec (Bor (List ℕ))) → path_of_action (level_by floors (at_node 1)) ≡ None }
    ensures nodes { map owner_node (owners.Any ∷ at_node 2 ∷ at_member 3 ∷ []) ≡ None ∷ Some 2 ∷ Some 3 ∷ [] }
{}

/// Worked cases. The options about former stores.
pub fn former_words_are_worked()
    ensures nodes { map nodes_in ((codes "1" ∷ codes "9" ∷ []) ∷ [] ∷ (codes "0" ∷ []) ∷ (codes ":" ∷ [])
        ∷ (codes "1" ∷ codes "12" ∷ []) ∷ ([] ∷ []) ∷ [])
        ≡ Some (1 ∷ 9 ∷ []) ∷ Some [] ∷ None ∷ None ∷ None ∷ None ∷ [] }
    ensures anew { lost_said true None ≡ Some None }
    ensures lost { lost_said false (Some (codes "2" ∷ [])) ≡ Some (Some (2 ∷ [])) }
    ensures neither { lost_said false None ≡ None }
    ensures both { lost_said true (Some (codes "2" ∷ [])) ≡ None }
    ensures no_node { lost_said false (Some (codes "x" ∷ [])) ≡ None }
    ensures since { map (moment_or_0 (Some [])) (None ∷ Some 0 ∷ Some 1099511627775 ∷ Some 1099511627776 ∷ [])
        ≡ None ∷ Some 0 ∷ Some 1099511627775 ∷ None ∷ [] }
    ensures no_since { moment_or_0 None None ≡ Some 0 }
    ensures all { former_of (Some None) (Some 5) (Some []) ≡ Some (record { lost = None; since = 5; floors = [] }) }
    ensures not_all { former_of None (Some 5) (Some []) ∷ former_of (Some None) None (Some [])
        ∷ former_of (Some None) (Some 5) None ∷ [] ≡ replicate 3 None }

    // each of the options alone makes a command one about former stores
    ensures of_none { (found : Found) → found.entries.items ≡ [] → is_of_former found ≡ false }
    ensures of_lost { (found : Found) (value : MatchedArg) → found.entries.items ≡ (word (codes "lost"), value) ∷ []
        → is_of_former found ≡ true }
    ensures of_floors { (found : Found) (value : MatchedArg) → found.entries.items ≡ (word (codes "floors"), value) ∷ []
        → is_of_former found ≡ true }
    ensures of_since { (found : Found) (value : MatchedArg) → found.entries.items ≡ (word (codes "since"), value) ∷ []
        → is_of_former found ≡ true }
    ensures of_anew { (found : Found) (value : MatchedArg) → found.entries.items ≡ (word (codes "anew"), value) ∷ []
        → value.vals.items ≡ word (codes "true") ∷ [] → is_of_former found ≡ true }
    ensures not_of_anew { (found : Found) (value : MatchedArg) → found.entries.items ≡ (word (codes "anew"), value) ∷ []
        → value.vals.items ≡ word (codes "false") ∷ [] → is_of_former found ≡ false }
{}

/// Worked cases. The lines of clients that a node takes, by the options `--clients`, `--plain-lines` and `--cluster`.
pub fn client_words_are_worked()
    ensures no_option { (found : Found) → found.entries.items ≡ [] → takes_anybody found ≡ true }
    ensures cluster { (found : Found) (value : MatchedArg) → found.entries.items ≡ (word (codes "cluster"), value) ∷ []
        → value.vals.items ≡ word (codes "c") ∷ [] → takes_anybody found ≡ false }
    ensures plain_lines { (found : Found) (value flag : MatchedArg) → found.entries.items
        ≡ (word (codes "cluster"), value) ∷ (word (codes "plain-lines"), flag) ∷ []
        → value.vals.items ≡ word (codes "c") ∷ [] → flag.vals.items ≡ word (codes "true") ∷ []
        → takes_anybody found ≡ true }
    ensures no_plain_lines { (found : Found) (value flag : MatchedArg) → found.entries.items
        ≡ (word (codes "cluster"), value) ∷ (word (codes "plain-lines"), flag) ∷ []
        → value.vals.items ≡ word (codes "c") ∷ [] → flag.vals.items ≡ word (codes "false") ∷ []
        → takes_anybody found ≡ false }
    ensures anybody { (found : Found) → found.entries.items ≡ [] → AsksForClients found Anybody
        × (AsksForClients found ThisMachine → ⊥) × (AsksForClients found (Named (word (codes "f"))) → ⊥) }
    ensures named { (found : Found) (value : MatchedArg) → found.entries.items ≡ (word (codes "clients"), value) ∷ []
        → value.vals.items ≡ word (codes "f") ∷ [] → AsksForClients found (Named (word (codes "f")))
        × (AsksForClients found (Named (word (codes "g"))) → ⊥) × (AsksForClients found Anybody → ⊥)
        × (AsksForClients found ThisMachine → ⊥) }
    ensures new_key { cluster_path_of NewKey ≡ None }
    ensures new_cluster { cluster_path_of NewCluster ≡ None }
{}

/// Worked cases. Where a node writes its log.
pub fn log_words_are_worked()
    ensures nowhere { (found : Found) → found.entries.items ≡ [] → AsksForLog found Nowhere
        × (AsksForLog found Output → ⊥) × (AsksForLog found (Syslog (at_local 5)) → ⊥) }
    ensures output { (found : Found) (flag : MatchedArg) → found.entries.items ≡ (word (codes "log"), flag) ∷ []
        → flag.vals.items ≡ word (codes "true") ∷ [] → AsksForLog found Output
        × (AsksForLog found Nowhere → ⊥) × (AsksForLog found (Syslog (at_local 5)) → ⊥) }
    ensures no_flag { (found : Found) (flag : MatchedArg) → found.entries.items ≡ (word (codes "log"), flag) ∷ []
        → flag.vals.items ≡ word (codes "false") ∷ [] → AsksForLog found Nowhere }
    ensures address { (found : Found) (value : MatchedArg) → found.entries.items ≡ (word (codes "log-to"), value) ∷ []
        → value.vals.items ≡ word (local_text 5) ∷ [] → first_value found (codes "log-to") ≡ Some (local_text 5) }
    ensures syslog { (found : Found) → first_value found (codes "log-to") ≡ Some (local_text 5)
        → AsksForLog found (Syslog (at_local 5)) × (AsksForLog found Nowhere → ⊥) × (AsksForLog found Output → ⊥) }
    ensures has_log { map has_log (Nowhere ∷ Output ∷ Syslog (at_local 5) ∷ []) ≡ false ∷ true ∷ true ∷ [] }
{}

/// Worked cases. What the commands that look at a store do with it, and whose store it is.
pub fn looks_are_worked()
    ensures looks { (found : Found) → AsksForLook (codes "export") found Export
        × AsksForLook (codes "audit") found Audit × AsksForLook (codes "gates") found Gates }
    ensures looks_of_others { (found : Found) → (AsksForLook (codes "audit") found Export → ⊥)
        × (AsksForLook (codes "gates") found Audit → ⊥) × (AsksForLook (codes "roster") found Gates → ⊥) }
    ensures unlock { (found : Found) → first_value found (codes "USER") ≡ Some (codes "u")
        → AsksForLook (codes "unlock") found (Unlock (word (codes "u")))
        × (AsksForLook (codes "unlock") found (Unlock (word (codes "v"))) → ⊥)
        × (AsksForLook (codes "gates") found (Unlock (word (codes "u"))) → ⊥) }

    // a cluster file gives the names, and without one there are none
    ensures of_node { map is_of_node (Export ∷ Audit ∷ Gates ∷ Unlock (word []) ∷ [])
        ≡ false ∷ true ∷ true ∷ true ∷ [] }
    ensures named { (found : Found) → GivesMember found (codes "node") 1
        → first_value found (codes "cluster") ≡ Some (codes "c")
        → AsksForAction (codes "audit") found (look_at_member Audit 1)
        × (AsksForAction (codes "audit") found (look_at_member Audit 2) → ⊥)
        × (AsksForAction (codes "audit") found (look_at_member Gates 1) → ⊥) }
    ensures named_by_another { (found : Found) → first_value found (codes "cluster") ≡ Some (codes "c")
        → GivesOwner found false (owners.Member 1 (word (codes "d"))) → ⊥ }
    ensures named_is_not_plain { (found : Found) → first_value found (codes "cluster") ≡ Some (codes "c")
        → (AsksForAction (codes "export") found (look_at_any Export) → ⊥)
        × (AsksForAction (codes "audit") found (look_at Audit 1) → ⊥)
        × (AsksForAction (codes "gates") found (look_at Gates 1) → ⊥)
        × (AsksForAction (codes "unlock") found (look_at (Unlock (word [])) 1) → ⊥) }
    ensures plain { (found : Found) → GivesMember found (codes "node") 1
        → first_value found (codes "cluster") ≡ None → AsksForAction (codes "export") found (look_at_any Export)
        × AsksForAction (codes "audit") found (look_at Audit 1)
        × AsksForAction (codes "gates") found (look_at Gates 1) }
    ensures plain_of_another { (found : Found) → GivesMember found (codes "node") 1
        → AsksForAction (codes "audit") found (look_at Audit 2) → ⊥ }
    ensures plain_of_any { (found : Found) → AsksForAction (codes "audit") found (look_at_any Audit) → ⊥ }
    ensures export_of_node { (found : Found) → AsksForAction (codes "export") found (look_at Export 1) → ⊥ }
    ensures plain_is_not_named { (found : Found) (look : AnyLook) → first_value found (codes "cluster") ≡ None
        → AsksForAction (codes "audit") found (look_at_member look 1) → ⊥ }
{}

/// Worked cases. What the commands ask for that create, upgrade or level a store, or print its rows.
pub fn named_words_are_worked()
    ensures begins { (found : Found) (value : MatchedArg) → found.entries.items ≡ (word (codes "begins"), value) ∷ []
        → value.vals.items ≡ word (codes "true") ∷ [] → begins found ≡ true }
    ensures served { (found : Found) → found.entries.items ≡ [] → begins found ≡ false }
    ensures begin { (found : Found) → GivesMember found (codes "node") 1
        → first_value found (codes "cluster") ≡ Some (codes "c") → begins found ≡ true
        → is_of_former found ≡ false → first_value found (codes "moment") ≡ None
        → AsksForAction (codes "init") found (begin_at 1) × (AsksForAction (codes "init") found (begin_at 2) → ⊥)
        × (AsksForAction (codes "roster") found (begin_at 1) → ⊥) }
    ensures begins_without_the_flag { (found : Found) → begins found ≡ false
        → AsksForAction (codes "init") found (begin_at 1) → ⊥ }
    ensures begins_at_a_moment { (found : Found) (moment : List ℕ) → first_value found (codes "moment") ≡ Some moment
        → AsksForAction (codes "init") found (begin_at 1) → ⊥ }
    ensures begins_of_former { (found : Found) → is_of_former found ≡ true
        → AsksForAction (codes "init") found (begin_at 1) → ⊥ }
    ensures begins_without_a_file { (found : Found) → first_value found (codes "cluster") ≡ None
        → AsksForAction (codes "init") found (begin_at 1) → ⊥ }
    ensures begins_is_no_init { (found : Found) → begins found ≡ true
        → AsksForAction (codes "init") found usual_init → ⊥ }
    ensures begins_is_no_remake { (found : Found) (former : AnyFormer) → begins found ≡ true
        → AsksForAction (codes "init") found (usual_remake former) → ⊥ }

    ensures drops { (found : Found) (value : MatchedArg)
        → found.entries.items ≡ (word (codes "drop-retired"), value) ∷ []
        → value.vals.items ≡ word (codes "true") ∷ [] → drops found ≡ true }
    ensures drops_nothing { (found : Found) → found.entries.items ≡ [] → drops found ≡ false }
    ensures roster { (found : Found) → GivesMember found (codes "node") 1
        → first_value found (codes "cluster") ≡ Some (codes "c") → drops found ≡ false
        → AsksForAction (codes "roster") found (roster_at 1) × (AsksForAction (codes "roster") found (drop_at 1) → ⊥)
        × (AsksForAction (codes "roster") found (roster_at 2) → ⊥)
        × (AsksForAction (codes "gates") found (roster_at 1) → ⊥) }
    ensures drop { (found : Found) → GivesMember found (codes "node") 1
        → first_value found (codes "cluster") ≡ Some (codes "c") → drops found ≡ true
        → AsksForAction (codes "roster") found (drop_at 1) × (AsksForAction (codes "roster") found (roster_at 1) → ⊥) }
    ensures roster_without_a_file { (found : Found) → first_value found (codes "cluster") ≡ None
        → AsksForAction (codes "roster") found (roster_at 1) → ⊥ }

    // the number of members stands beside a cluster file alone
    ensures members_were { (found : Found) → GivesMember found (codes "members-were") 3
        → GivesFormerMembers found (at_member 1) (Some 3) × (GivesFormerMembers found (at_member 1) (Some 2) → ⊥)
        × (GivesFormerMembers found (at_node 1) (Some 3) → ⊥) × (GivesFormerMembers found owners.Any (Some 3) → ⊥) }
    ensures members_were_not { (found : Found) → first_value found (codes "members-were") ≡ None
        → GivesFormerMembers found (at_member 1) None × GivesFormerMembers found (at_node 1) None
        × GivesFormerMembers found owners.Any None × (GivesFormerMembers found (at_node 1) (Some 3) → ⊥)
        × (GivesFormerMembers found owners.Any (Some 3) → ⊥) }
    ensures members_were_some { (found : Found) → first_value found (codes "members-were") ≡ Some (codes "3")
        → (GivesFormerMembers found (at_member 1) None → ⊥) × (GivesFormerMembers found (at_node 1) None → ⊥)
        × (GivesFormerMembers found owners.Any None → ⊥) }
    ensures migrate { (found : Found) → GivesMember found (codes "node") 1
        → first_value found (codes "cluster") ≡ None → first_value found (codes "members-were") ≡ None
        → AsksForAction (codes "migrate") found (migrate_at (at_node 1))
        × (AsksForAction (codes "migrate") found (migrate_at (at_node 2)) → ⊥)
        × (AsksForAction (codes "level") found (migrate_at (at_node 1)) → ⊥) }
    ensures migrate_by_names { (found : Found) → GivesMember found (codes "node") 1
        → first_value found (codes "cluster") ≡ Some (codes "c") → GivesMember found (codes "members-were") 3
        → AsksForAction (codes "migrate") found (migrate_among 3 (at_member 1))
        × (AsksForAction (codes "migrate") found (migrate_at (at_node 1)) → ⊥) }
    ensures migrate_among_others { (found : Found) → GivesMember found (codes "members-were") 3
        → AsksForAction (codes "migrate") found (migrate_among 2 (at_member 1)) → ⊥ }
    ensures migrate_of_any { (found : Found) → AsksForAction (codes "migrate") found (migrate_at owners.Any) → ⊥ }

    ensures level { (found : Found) (floors : Vec (Bor (List ℕ))) → values_given found (codes "floors")
        ≡ Some (map (λ path. path.now) floors.items) → GivesMember found (codes "node") 1
        → first_value found (codes "cluster") ≡ None
        → AsksForAction (codes "level") found (level_by floors (at_node 1))
        × (AsksForAction (codes "level") found (level_by floors (at_node 2)) → ⊥)
        × (AsksForAction (codes "gates") found (level_by floors (at_node 1)) → ⊥) }
    ensures level_by_names { (found : Found) (floors : Vec (Bor (List ℕ))) → values_given found (codes "floors")
        ≡ Some (map (λ path. path.now) floors.items) → GivesMember found (codes "node") 1
        → first_value found (codes "cluster") ≡ Some (codes "c")
        → AsksForAction (codes "level") found (level_by floors (at_member 1))
        × (AsksForAction (codes "level") found (level_by floors (at_node 1)) → ⊥) }
    ensures level_by_others { (found : Found) (floors : Vec (Bor (List ℕ))) → values_given found (codes "floors") ≡ None
        → AsksForAction (codes "level") found (level_by floors (at_node 1)) → ⊥ }
    ensures level_of_any { (found : Found) (floors : Vec (Bor (List ℕ)))
        → AsksForAction (codes "level") found (level_by floors owners.Any) → ⊥ }
{}
