//! The laws of the port of a served node.

ghost use Rattle.std.specs.Prelude.{◌≡◌, ◌∷◌, [], None, Some, false, true};
ghost use Rattle.datagram_port.specs.declared.port.Sender.TheVariants.{Client, Peer};
ghost use Rattle.udp_port.specs.Address.{number_of};
ghost use Rattle.udp_port.specs.Examples.{at_host, heard_from};
ghost use Rattle.sealed_wire.specs.declared.right.Right.TheVariants.{Reader};
ghost use Rattle.oathd_database.specs.Broken.{one_item};
ghost use Rattle.node_serving.specs.Gate.{gate_from};
ghost use Rattle.node_serving.specs.Serving.{AreAgain};
ghost use Rattle.node_serving.specs.Setup.{AreEventsOf, setup_behind, setup_for};
ghost use Rattle.node_serving.specs.SetupExamples.{byte_of, clients_of, operators_of, two_members};
ghost use Rattle.node_serving.specs.declared.gate.ClientLines.TheVariants.{Anybody, Of, ThisMachine};
ghost use Rattle.node_serving.specs.declared.gate.Front.TheVariants as fronts;

/// Worked cases. The port of a node for its members and its lines of clients.
pub fn setups_are_worked()
    ensures anybody { setup_for 1 two_members Anybody ≡ record {
      members = at_host 10 1 ∷ at_host 10 2 ∷ [];
      skips_answers = true;
      takes_loopback_alone = false;
      gate = None;
      namings = [];
    } }
    ensures this_machine { setup_for 1 two_members ThisMachine
        ≡ record (setup_for 1 two_members Anybody) { takes_loopback_alone = true } }
    ensures clients { setup_for 3 two_members (Of (clients_of (5 ∷ [])))
        ≡ record (setup_for 1 two_members Anybody) {
          gate = Some (record {
            node = 3;
            clients = record { number = 7; key = 5 ∷ []; ahead = 2 } ∷ [];
            operators = [];
            plain = [];
            most = None;
          });
        } }
    ensures operators { setup_for 3 two_members (Of (operators_of (5 ∷ [])))
        ≡ record (setup_for 1 two_members Anybody) {
          gate = Some (record {
            node = 3;
            clients = record { number = 7; key = []; ahead = 2 } ∷ [];
            operators = record { number = 8; key = 5 ∷ []; ahead = 2 } ∷ [];
            plain = [];
            most = None;
          });
        } }
    ensures behind_nothing { setup_behind two_members fronts.Anybody ≡ setup_for 1 two_members Anybody }
    ensures behind_a_filter { setup_behind two_members fronts.ThisMachine ≡ setup_for 1 two_members ThisMachine }
    ensures behind_a_gate { setup_behind two_members (fronts.Gate (gate_from 3 10 (clients_of (5 ∷ []))))
        ≡ setup_for 3 two_members (Of (clients_of (5 ∷ []))) }
    ensures behind_a_gate_for_operators { setup_behind two_members (fronts.Gate (gate_from 3 10 (operators_of (5 ∷ []))))
        ≡ setup_for 3 two_members (Of (operators_of (5 ∷ []))) }
{}

/// Counterexamples: the port of a node has other events, or another setup, for other members or other lines.
pub fn setups_can_be_broken()
    // a byte from the second of two members
    ensures member { AreEventsOf (setup_for 1 two_members Anybody) (heard_from (at_host 10 2)) (byte_of (Peer 2)) }
    ensures another_address { AreEventsOf (setup_for 1 (at_host 10 1 ∷ at_host 10 3 ∷ []) Anybody)
        (heard_from (at_host 10 2)) (byte_of (Peer 2)) → ⊥ }
    ensures another_order { AreEventsOf (setup_for 1 (at_host 10 2 ∷ at_host 10 1 ∷ []) Anybody)
        (heard_from (at_host 10 2)) (byte_of (Peer 2)) → ⊥ }
    ensures unheard { AreEventsOf (setup_for 1 two_members Anybody) [] (byte_of (Peer 2)) → ⊥ }

    // a byte from a client
    ensures client { AreEventsOf (setup_for 1 [] Anybody) (heard_from (at_host 10 1))
        (byte_of (Client (number_of (at_host 10 1)))) }
    ensures barred { AreEventsOf (setup_for 1 [] ThisMachine) (heard_from (at_host 10 1))
        (byte_of (Client (number_of (at_host 10 1)))) → ⊥ }
    ensures of_this_machine { AreEventsOf (setup_for 1 [] ThisMachine) (heard_from (at_host 127 1))
        (byte_of (Client (number_of (at_host 127 1)))) }
    ensures unsealed { AreEventsOf (setup_for 1 [] (Of (clients_of []))) (heard_from (at_host 10 1))
        (byte_of (Client (number_of (at_host 10 1)))) → ⊥ }
    ensures member_past_the_gate { AreEventsOf (setup_for 1 two_members (Of (clients_of [])))
        (heard_from (at_host 10 2)) (byte_of (Peer 2)) }

    // other members and lines
    ensures of_another_address { setup_for 1 two_members Anybody
        ≡ setup_for 1 (at_host 10 1 ∷ at_host 10 3 ∷ []) Anybody → ⊥ }
    ensures of_another_order { setup_for 1 two_members Anybody
        ≡ setup_for 1 (at_host 10 2 ∷ at_host 10 1 ∷ []) Anybody → ⊥ }
    ensures of_anybody { setup_for 1 two_members ThisMachine ≡ setup_for 1 two_members Anybody → ⊥ }
    ensures of_no_gate { setup_for 1 two_members (Of (clients_of [])) ≡ setup_for 1 two_members Anybody → ⊥ }
    ensures of_another_key { setup_for 1 two_members (Of (clients_of (5 ∷ [])))
        ≡ setup_for 1 two_members (Of (clients_of (6 ∷ []))) → ⊥ }
    ensures of_another_operator { setup_for 1 two_members (Of (operators_of (5 ∷ [])))
        ≡ setup_for 1 two_members (Of (operators_of (6 ∷ []))) → ⊥ }
    ensures of_another_node { setup_for 1 two_members (Of (clients_of (5 ∷ [])))
        ≡ setup_for 2 two_members (Of (clients_of (5 ∷ []))) → ⊥ }
{}

/// Counterexamples: lines that are given again differ in no client, operator, address, lead or limit.
pub fn lines_given_again_can_be_broken()
    ensures anybody { AreAgain Anybody Anybody }
    ensures anybody_for_this_machine { AreAgain ThisMachine Anybody → ⊥ }
    ensures this_machine { AreAgain ThisMachine ThisMachine }
    ensures this_machine_for_anybody { AreAgain Anybody ThisMachine → ⊥ }
    ensures clients { AreAgain (Of (clients_of (5 ∷ []))) (Of (clients_of (5 ∷ []))) }
    ensures another_key { AreAgain (Of (clients_of (5 ∷ []))) (Of (clients_of (6 ∷ []))) → ⊥ }
    ensures another_operator { AreAgain (Of (clients_of []))
        (Of (record (clients_of []) { operators = one_item (record { number = 8; key = []; right = Reader }) })) → ⊥ }
    ensures another_address { AreAgain (Of (clients_of [])) (Of (record (clients_of []) { plain = one_item 7 })) → ⊥ }
    ensures another_lead { AreAgain (Of (clients_of [])) (Of (record (clients_of []) { ahead = 3 })) → ⊥ }
    ensures another_limit { AreAgain (Of (clients_of [])) (Of (record (clients_of []) { failures = Some 1 })) → ⊥ }
    ensures anybody_for_clients { AreAgain (Of (clients_of [])) Anybody → ⊥ }
    ensures this_machine_for_clients { AreAgain (Of (clients_of [])) ThisMachine → ⊥ }
{}
