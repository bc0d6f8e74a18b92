ghost use Rattle.std.specs.Prelude.{◌≡◌, [], ◌∷◌, Some, None, codes, map};
ghost use Rattle.oath_node.specs.declared.fault.NodeFault.TheVariants.{Stopped};
ghost use Rattle.otp_core.specs.Limits.{default_limits};
ghost use Rattle.token_file.specs.declared.fault.LineFault.TheVariants.{BadSecret, FileTooLong, MissingField, Read};
ghost use Rattle.users_input.specs.declared.fault.InputFault.TheVariants as input;
ghost use Rattle.oathd_cluster.specs.Broken.{done, ended_by, one_line, read_of, two_lines, users_fault};
ghost use Rattle.oathd_cluster.specs.Examples.{line_for, read_for_two};
ghost use Rattle.oathd_cluster.specs.Fault.{input_fault_of, status_of};
ghost use Rattle.oathd_cluster.specs.Line.{node_line_of};
ghost use Rattle.oathd_cluster.specs.Run.{EndsSo, RefusesUsers, WritesFirst, WritesReplies, printed};
ghost use Rattle.oathd_cluster.specs.declared.fault.Fault.TheVariants.{CannotRead, CannotWrite, InputLine, Memory, Node, Socket};

/// Worked cases. Lines for a cluster, and their output.
pub fn cluster_lines_are_worked()
    ensures line { node_line_of 3 (codes "3 100 CHECK 1") ≡ Some (line_for 3 100 (codes "CHECK 1")) }
    ensures nothing_said { node_line_of 1 (codes "1 100 ") ≡ Some (line_for 1 100 []) }
    ensures zeros { node_line_of 1 (codes "01 00 x") ≡ Some (line_for 1 0 (codes "x")) }
    ensures node_too_great { node_line_of 2 (codes "3 100 x") ≡ None }
    ensures no_node { node_line_of 2 (codes "0 100 x") ≡ None }
    ensures moment_too_great { node_line_of 1 (codes "1 18446744073709551616 x") ≡ None }
    ensures moment_missing { node_line_of 1 (codes "1 x") ≡ None }
    ensures sign { node_line_of 1 (codes "+1 100 x") ≡ None }
    ensures two_spaces { node_line_of 1 (codes "1  100 x") ≡ None }
    ensures empty { node_line_of 1 [] ≡ None }
    // the lines before the first bad line, and its number
    ensures bad { read_for_two 5 (Some (codes "2 1 x") ∷ Some (codes "3 1 x") ∷ Some (codes "1 1 x") ∷ [])
        ≡ record { good = line_for 2 1 (codes "x") ∷ []; bad = Some 6 } }
    ensures cut { read_for_two 5 (Some (codes "2 1 x") ∷ None ∷ [])
        ≡ record { good = line_for 2 1 (codes "x") ∷ []; bad = Some 6 } }
    ensures printed { printed (record { node = 2; text = codes "OK 1 0" } ∷ record { node = 9; text = codes "-" } ∷ [])
        ≡ codes "2 OK 1 0\n9 -\n" }
{}

/// Worked cases. The exit status of each fault, and a cluster's fault for each fault of the input.
pub fn faults_are_worked()
    ensures statuses { map status_of (Memory ∷ CannotRead ∷ CannotWrite ∷ users_fault 1 MissingField ∷ InputLine 5
        ∷ Socket ∷ Node Stopped ∷ []) ≡ 1 ∷ 1 ∷ 1 ∷ 1 ∷ 1 ∷ 4 ∷ 3 ∷ [] }
    ensures memory { input_fault_of input.Memory ≡ Memory }
    ensures read { input_fault_of input.CannotRead ≡ CannotRead }
{}

/// Counterexamples: each promise of the replies and of a cluster's end fails for a minimal one.
pub fn clusters_can_be_broken()
    // a reply for each line, in order, and nothing else
    ensures replies { WritesReplies one_line (Some (33 ∷ [])) (Some (codes "!2 -\n")) }
    ensures replies_missing { WritesReplies one_line (Some []) (Some []) → ⊥ }
    ensures replies_of_another_node { WritesReplies one_line (Some []) (Some (codes "1 -\n")) → ⊥ }
    ensures replies_out_of_order { WritesReplies two_lines (Some []) (Some (codes "1 -\n2 -\n")) → ⊥ }
    ensures replies_to_no_line { WritesReplies [] (Some []) (Some (codes "2 -\n")) → ⊥ }
    ensures first_of_none { WritesFirst one_line (Some []) (Some []) }
    ensures first_of_two { WritesFirst two_lines (Some []) (Some (codes "2 -\n")) }
    ensures first_in_part { WritesFirst two_lines (Some []) (Some (codes "2")) → ⊥ }
    ensures first_is_the_second { WritesFirst two_lines (Some []) (Some (codes "1 -\n")) → ⊥ }

    // the end of a cluster
    ensures ends { EndsSo (read_of [] None) done (Some []) (Some []) }
    ensures ends_at_a_bad_line { EndsSo (read_of [] (Some 6)) done (Some []) (Some []) → ⊥ }
    ensures ends_without_a_reply { EndsSo (read_of one_line None) done (Some []) (Some []) → ⊥ }
    ensures bad_line { EndsSo (read_of [] (Some 6)) (ended_by (InputLine 6)) (Some []) (Some []) }
    ensures bad_line_of_another_number { EndsSo (read_of [] (Some 6)) (ended_by (InputLine 7)) (Some []) (Some []) → ⊥ }
    ensures bad_line_without_a_reply { EndsSo (read_of one_line (Some 6)) (ended_by (InputLine 6)) (Some []) (Some [])
        → ⊥ }
    ensures cannot_write { EndsSo (read_of one_line None) (ended_by CannotWrite) (Some []) (Some (codes "2")) }
    ensures users { EndsSo (read_of one_line None) (ended_by (users_fault 1 MissingField)) (Some []) (Some []) }
    ensures users_with_a_reply { EndsSo (read_of one_line None) (ended_by (users_fault 1 MissingField)) (Some [])
        (Some (codes "2 -\n")) → ⊥ }
    ensures memory { EndsSo (read_of one_line None) (ended_by Memory) (Some []) (Some []) }
    ensures memory_in_a_line { EndsSo (read_of one_line None) (ended_by Memory) (Some []) (Some (codes "2")) → ⊥ }
    ensures read_in_a_line { EndsSo (read_of one_line None) (ended_by CannotRead) (Some []) (Some (codes "2")) → ⊥ }
    ensures socket_in_a_line { EndsSo (read_of one_line None) (ended_by Socket) (Some []) (Some (codes "2")) → ⊥ }
    ensures node_in_a_line { EndsSo (read_of one_line None) (ended_by (Node Stopped)) (Some []) (Some (codes "2"))
        → ⊥ }
    ensures memory_at_another_node { EndsSo (read_of one_line None) (ended_by Memory) (Some []) (Some (codes "1 -\n"))
        → ⊥ }
    ensures read_at_another_node { EndsSo (read_of one_line None) (ended_by CannotRead) (Some [])
        (Some (codes "1 -\n")) → ⊥ }
    ensures socket_at_another_node { EndsSo (read_of one_line None) (ended_by Socket) (Some []) (Some (codes "1 -\n"))
        → ⊥ }
    ensures node_at_another_node { EndsSo (read_of one_line None) (ended_by (Node Stopped)) (Some [])
        (Some (codes "1 -\n")) → ⊥ }

    // a users file is refused for its first fault
    ensures refuses { RefusesUsers default_limits 0 100 (codes "HOTP u -") (users_fault 1 MissingField) }
    ensures refuses_what_is_long { RefusesUsers default_limits 0 7 (codes "HOTP u -") (users_fault 1 FileTooLong) }
    ensures refuses_what_is_not_read { RefusesUsers default_limits 0 100 [] (users_fault 1 Read) }
    ensures refuses_without_a_fault { RefusesUsers default_limits 0 100 [] (users_fault 1 MissingField) → ⊥ }
    ensures refuses_at_another_line { RefusesUsers default_limits 0 100 (codes "HOTP u -") (users_fault 2 MissingField)
        → ⊥ }
    ensures refuses_for_another_fault { RefusesUsers default_limits 0 100 (codes "HOTP u -") (users_fault 1 BadSecret)
        → ⊥ }
{}
