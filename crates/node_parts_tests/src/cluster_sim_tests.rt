//! Whole scripts, each with its report.

ghost use Rattle.std.specs.Prelude.{◌≡◌, ℕ, IfOk, Some, length, slice_get};
ghost use Rattle.std.specs.Global.{Vec};

use cluster_sim::*;
use otp_core::{Next, Settings};
use std::alloc::{AllocError, Global};
use token_file::{FromRead, read_book};
use vote_wire::ClusterKey;

/// The token of RFC 4226, Appendix D.
const SILVER: &[u8] = b"HOTP silver - 3132333435363738393031323334353637383930";

/// An acceptance of the one token: its first and last event, the node, and its first and last factor.
type Pass = (u64, u64, u8, u64, u64);

/// An answer: the event, the node, the client and the text.
type Text = (u64, u8, u64, &'static [u8]);

/// The content of a report.
struct Told {
    passes: &'static [Pass],
    answers: &'static [Text],
    sent: u64,
}

/// The first code of client 7, at node 1.
const FIRST_AT_1: WorldEvent<'static> = WorldEvent::Happens(Act::Client {
    node: 1,
    client: 7,
    moment: 1000,
    line: b"CHECK a silver 755224 -",
});

/// The first code of client 8, at node 2.
const FIRST_AT_2: WorldEvent<'static> = WorldEvent::Happens(Act::Client {
    node: 2,
    client: 8,
    moment: 1000,
    line: b"CHECK b silver 755224 -",
});

/// A tick of node 1.
const TICK_OF_1: WorldEvent<'static> = WorldEvent::Happens(Act::Tick { node: 1 });

/// Returns the same list for each of `n` nodes.
fn lists_of(alloc: Global, floors: &[Next], n: usize) -> Result<Vec<Vec<Next>>, AllocError>
    ensures len { IfOk result (λ lists. length lists.items ≡ n) }
    ensures same { IfOk result (λ lists. (k : ℕ) (list : Vec ℕ) → slice_get lists.items k ≡ Some list
        → list.items ≡ floors.now) }
{
    let mut lists = Vec::new(alloc);
    for _ in 0..n {
        lists.push(Vec::from_slice(alloc, floors)?)?;
    }
    Ok(lists)
}

/// Returns the report of a script at `n` fresh nodes with the one token and a key of 32 zeros.
///
/// The look-ahead is 5, the skew 1 and the range 9. Drift is off.
fn report_of(alloc: Global, n: usize, events: &[WorldEvent<'_>]) -> Option<Report> {
    if n < 1 || n > 9 {
        return None;
    }
    let settings = Settings::new(5, 1, 9)?;
    let key = ClusterKey::new(&[0; 32])?;
    let Ok((book, floors)) = read_book(alloc, &mut FromRead::new(SILVER), settings, 0) else {
        return None;
    };
    let Ok(lists) = lists_of(alloc, &floors, n) else {
        return None;
    };
    run_world(alloc, &book, settings, &key, &lists, events).ok()
}

/// Returns the report of rounds among the live members of three nodes, after some events.
fn report_of_rounds(
    alloc: Global,
    before: &[WorldEvent<'_>],
    live: &[u8],
    lines: &[RoundLine<'_>],
) -> Option<Report> {
    let settings = Settings::new(5, 1, 9)?;
    let key = ClusterKey::new(&[0; 32])?;
    let Ok((book, floors)) = read_book(alloc, &mut FromRead::new(SILVER), settings, 0) else {
        return None;
    };
    let Ok(lists) = lists_of(alloc, &floors, 3) else {
        return None;
    };
    run_rounds(alloc, &book, settings, &key, &lists, before, live, lines).ok()
}

/// Returns whether the passes are `want`.
fn are_passes(passes: &[WorldPass], want: &[Pass]) -> bool {
    for (pass, &(began, ended, node, lo, hi)) in passes.iter().zip(want) {
        if pass.began != began || pass.ended != ended || pass.node != node || pass.token != 0 {
            return false;
        }
        if pass.span.lo().value() != lo || pass.span.hi().value() != hi {
            return false;
        }
    }
    passes.len() == want.len()
}

/// Returns whether the answers are `want`.
fn are_answers(answers: &[WorldAnswer], want: &[Text]) -> bool {
    for (answer, &(event, node, client, text)) in answers.iter().zip(want) {
        if answer.event != event || answer.node != node || answer.client != client {
            return false;
        }
        if answer.bytes.as_slice() != text {
            return false;
        }
    }
    answers.len() == want.len()
}

/// Returns whether a report has the content `told`, and nothing else.
fn tells(report: &Option<Report>, told: &Told) -> bool {
    let Some(report) = report else {
        return false;
    };
    are_passes(report.passes(), told.passes)
        && are_answers(report.answers(), told.answers)
        && report.sent() == told.sent
}

/// Returns whether the report of a script at `n` nodes has the content `told`.
fn comes_to(alloc: Global, n: usize, events: &[WorldEvent<'_>], told: &Told) -> bool {
    tells(&report_of(alloc, n, events), told)
}

/// Two submissions of one code at two nodes: exactly one is accepted.
#[test]
fn two_submissions(rt: HostRuntime) {
    let events = [
        FIRST_AT_1,
        FIRST_AT_2,
        WorldEvent::Happens(Act::Deliver { node: 3, k: 1 }),
        WorldEvent::Happens(Act::Deliver { node: 3, k: 3 }),
        WorldEvent::Happens(Act::Deliver { node: 1, k: 4 }),
        WorldEvent::Happens(Act::Deliver { node: 2, k: 5 }),
        WorldEvent::Happens(Act::Deliver { node: 1, k: 2 }),
        WorldEvent::Happens(Act::Deliver { node: 2, k: 6 }),
    ];
    const TOLD: &Told = &Told {
        passes: &[(0, 4, 1, 0, 0)],
        answers: &[(4, 1, 7, b"OK a 0"), (7, 2, 8, b"NO b SPENT")],
        sent: 7,
    };
    assert!(rt; comes_to(rt.alloc(), 3, &events, TOLD));
}

/// Two of four nodes grant one submission, and the other two the other. No submission is accepted.
#[test]
fn split_two_to_two(rt: HostRuntime) {
    let events = [
        FIRST_AT_1,
        FIRST_AT_2,
        WorldEvent::Happens(Act::Deliver { node: 3, k: 1 }),
        WorldEvent::Happens(Act::Deliver { node: 4, k: 5 }),
        WorldEvent::Happens(Act::Deliver { node: 1, k: 6 }),
        WorldEvent::Happens(Act::Deliver { node: 2, k: 7 }),
        WorldEvent::Happens(Act::Deliver { node: 2, k: 0 }),
        WorldEvent::Happens(Act::Deliver { node: 4, k: 2 }),
        WorldEvent::Happens(Act::Deliver { node: 1, k: 8 }),
        WorldEvent::Happens(Act::Deliver { node: 1, k: 9 }),
        WorldEvent::Happens(Act::Deliver { node: 1, k: 3 }),
        WorldEvent::Happens(Act::Deliver { node: 3, k: 4 }),
        WorldEvent::Happens(Act::Deliver { node: 2, k: 10 }),
        WorldEvent::Happens(Act::Deliver { node: 2, k: 11 }),
    ];
    const TOLD: &Told = &Told {
        passes: &[],
        answers: &[(9, 1, 7, b"NO a SPENT"), (13, 2, 8, b"NO b SPENT")],
        sent: 12,
    };
    assert!(rt; comes_to(rt.alloc(), 4, &events, TOLD));
}

/// Returns whether the report of two submissions is `told`, if node 3 stops inside the step in which it grants.
///
/// Node 3 receives the Ask a second time.
fn stops_in_its_grant(alloc: Global, kept: bool, told: &Told) -> bool {
    let act = Act::Deliver { node: 3, k: 1 };
    let events = [
        FIRST_AT_1,
        WorldEvent::Cut { kept, act },
        WorldEvent::Happens(Act::Deliver { node: 3, k: 1 }),
        FIRST_AT_2,
        WorldEvent::Happens(Act::Deliver { node: 3, k: 4 }),
        WorldEvent::Happens(Act::Deliver { node: 1, k: 2 }),
        WorldEvent::Happens(Act::Deliver { node: 2, k: 5 }),
    ];
    comes_to(alloc, 3, &events, told)
}

/// The stopped node's write may be kept or lost.
#[test]
fn stop_after_the_commit(rt: HostRuntime) {
    const TOLD: &Told = &Told {
        passes: &[(0, 5, 1, 0, 0)],
        answers: &[(5, 1, 7, b"OK a 0")],
        sent: 6,
    };
    assert!(rt; stops_in_its_grant(rt.alloc(), true, TOLD));
    assert!(rt; stops_in_its_grant(rt.alloc(), false, TOLD));
}

/// A Grant of an old boot doesn't count.
#[test]
fn old_grants(rt: HostRuntime) {
    let events = [
        FIRST_AT_1,
        WorldEvent::Happens(Act::Deliver { node: 2, k: 0 }),
        WorldEvent::Restart { node: 1 },
        WorldEvent::Happens(Act::Deliver { node: 1, k: 2 }),
        WorldEvent::Happens(Act::Deliver { node: 1, k: 2 }),
        WorldEvent::Happens(Act::Client {
            node: 1,
            client: 7,
            moment: 1010,
            line: b"CHECK a silver 755224 -",
        }),
        WorldEvent::Happens(Act::Client {
            node: 1,
            client: 7,
            moment: 1015,
            line: b"CHECK c silver 287082 -",
        }),
        WorldEvent::Happens(Act::Deliver { node: 2, k: 3 }),
        WorldEvent::Happens(Act::Deliver { node: 1, k: 5 }),
    ];
    const TOLD: &Told = &Told {
        passes: &[(6, 8, 1, 1, 1)],
        answers: &[(5, 1, 7, b"NO a INVALID"), (8, 1, 7, b"OK c 1")],
        sent: 6,
    };
    assert!(rt; comes_to(rt.alloc(), 3, &events, TOLD));
}

/// Nothing arrives: the node gives the line up after eight ticks.
#[test]
fn eight_ticks(rt: HostRuntime) {
    let events = [
        FIRST_AT_1, TICK_OF_1, TICK_OF_1, TICK_OF_1, TICK_OF_1, TICK_OF_1, TICK_OF_1, TICK_OF_1,
        TICK_OF_1,
    ];
    const TOLD: &Told = &Told {
        passes: &[],
        answers: &[(8, 1, 7, b"NO a TIMEOUT")],
        sent: 32,
    };
    assert!(rt; comes_to(rt.alloc(), 3, &events, TOLD));
}

/// The next factor is accepted at another node.
#[test]
fn second_factor_elsewhere(rt: HostRuntime) {
    let events = [
        FIRST_AT_1,
        WorldEvent::Happens(Act::Deliver { node: 2, k: 0 }),
        WorldEvent::Happens(Act::Deliver { node: 1, k: 2 }),
        WorldEvent::Happens(Act::Client {
            node: 2,
            client: 8,
            moment: 1000,
            line: b"CHECK b silver 287082 -",
        }),
        WorldEvent::Happens(Act::Deliver { node: 1, k: 3 }),
        WorldEvent::Happens(Act::Deliver { node: 2, k: 5 }),
    ];
    const TOLD: &Told = &Told {
        passes: &[(0, 2, 1, 0, 0), (3, 5, 2, 1, 1)],
        answers: &[(2, 1, 7, b"OK a 0"), (5, 2, 8, b"OK b 1")],
        sent: 6,
    };
    assert!(rt; comes_to(rt.alloc(), 3, &events, TOLD));
}

/// Returns whether a report is `told`: node 2 gets a replacement store with the floor `next`.
///
/// A floor is the first free factor of a token at a node. Node 1 accepted factor 0 before. Node 3 then asks node 2 for
/// factor 1.
fn made_anew_from(alloc: Global, next: u64, told: &Told) -> bool {
    let Some(next) = Next::new(next) else {
        return false;
    };
    let floors = [next];
    let events = [
        FIRST_AT_1,
        WorldEvent::Happens(Act::Deliver { node: 2, k: 0 }),
        WorldEvent::Happens(Act::Deliver { node: 1, k: 2 }),
        WorldEvent::Lost { node: 2 },
        WorldEvent::Anew {
            node: 2,
            boot: 2,
            floors: &floors,
        },
        WorldEvent::Happens(Act::Client {
            node: 3,
            client: 8,
            moment: 1000,
            line: b"CHECK b silver 287082 -",
        }),
        WorldEvent::Happens(Act::Deliver { node: 2, k: 4 }),
        WorldEvent::Happens(Act::Deliver { node: 3, k: 5 }),
    ];
    comes_to(alloc, 3, &events, told)
}

/// A replaced store grants factors above all floors of the other nodes. A store with a lower floor is not created.
#[test]
fn lost_store_made_anew(rt: HostRuntime) {
    const GRANTED: &Told = &Told {
        passes: &[(0, 2, 1, 0, 0), (5, 7, 3, 1, 1)],
        answers: &[(2, 1, 7, b"OK a 0"), (7, 3, 8, b"OK b 1")],
        sent: 6,
    };
    const NOT_MADE: &Told = &Told {
        passes: &[(0, 2, 1, 0, 0)],
        answers: &[(2, 1, 7, b"OK a 0")],
        sent: 5,
    };
    assert!(rt; made_anew_from(rt.alloc(), 1, GRANTED));
    assert!(rt; made_anew_from(rt.alloc(), 0, NOT_MADE));
}

/// Node 1 is lost. A tick of node 2 levels the floors of the other two nodes, which continue to serve.
#[test]
fn rounds_after_a_loss(rt: HostRuntime) {
    let before = [
        FIRST_AT_1,
        WorldEvent::Happens(Act::Deliver { node: 2, k: 0 }),
        WorldEvent::Happens(Act::Tick { node: 2 }),
        WorldEvent::Happens(Act::Deliver { node: 3, k: 4 }),
    ];
    const LINES: &[RoundLine<'static>] = &[
        RoundLine {
            node: 3,
            client: 8,
            moment: 1000,
            line: b"CHECK b silver 755224 -",
        },
        RoundLine {
            node: 3,
            client: 8,
            moment: 1005,
            line: b"CHECK c silver 287082 -",
        },
    ];
    const TOLD: &Told = &Told {
        passes: &[(5, 7, 3, 1, 1)],
        answers: &[(4, 3, 8, b"NO b INVALID"), (7, 3, 8, b"OK c 1")],
        sent: 8,
    };
    assert!(rt; tells(&report_of_rounds(rt.alloc(), &before, &[2, 3], LINES), TOLD));
}

/// The debug text of a line for a round has no byte of the line.
#[test]
fn round_line_hides_its_text(rt: HostRuntime) -> Result<(), AllocError> {
    let line = RoundLine {
        node: 1,
        client: 7,
        moment: 1000,
        line: b"CHECK a silver 755224 -",
    };
    let shown = format!(in rt.alloc(); "{line:?}")?;
    assert!(rt; shown.as_str() == "RoundLine { node: 1, client: 7, moment: 1000, .. }");
    Ok(())
}
