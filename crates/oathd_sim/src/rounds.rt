//! Reads the lines after a script's events: the live members, and the rounds among them.

ghost use Rattle.std.specs.Prelude.{◌≡◌, ◌<◌, ◌≤◌, ◌==◌, IfSome};
ghost use Rattle.std.specs.Option.{option_map};
ghost use Rattle.cluster_sim.specs.Run.{round_line};
ghost use Rattle.cluster_sim.specs.Rounds.{is_live};
ghost use Rattle.oathd_sim.specs.Lines.{fields_of};
ghost use Rattle.oathd_sim.specs.Script.{live_line, member_above, members_above, round_among};

use crate::line::read_said;
use arrayvec::ArrayVec;
use cluster_sim::RoundLine;
use field_text::{cut_at, read_number};

/// The maximum number of nodes of a cluster.
pub const MAX_NODES: usize = 9;

/// Returns whether a byte separates two fields.
pub(crate) fn is_field_end(byte: &u8) -> bool
    ensures { result ≡ (byte.now == 32) }
{
    *byte == b' '
}

/// Reads the number of a node above `last`, at most `nodes`.
fn read_member(nodes: u8, last: u8, text: &[u8]) -> Option<u8>
    ensures member { result ≡ member_above nodes last text.now }
    ensures above { IfSome result (λ node. last < node) }
    ensures within { IfSome result (λ node. node ≤ nodes) }
{
    let node = read_number(text)?;
    if u64::from(last) < node && node <= u64::from(nodes) {
        Some(node as u8)
    } else {
        None
    }
}

/// Reads the numbers of nodes in ascending order: `A B ..`.
fn read_members(nodes: u8, text: &[u8]) -> Option<ArrayVec<u8, MAX_NODES>>
    requires { nodes ≤ 9 }
    ensures { option_map (λ live. live.items) result ≡ members_above nodes 0 (fields_of text.now) }
{
    let mut live = ArrayVec::new();
    let mut last = 0;
    for field in text.split(is_field_end) {
        last = read_member(nodes, last, field)?;
        live.push(last);
    }
    Some(live)
}

/// Reads the live members: `live A B ..`, a strict majority of `nodes` in ascending order.
pub(crate) fn read_live(nodes: u8, line: &[u8]) -> Option<ArrayVec<u8, MAX_NODES>>
    requires { nodes ≤ 9 }
    ensures { option_map (λ live. live.items) result ≡ live_line nodes line.now }
{
    let (word, rest) = cut_at(line, b' ')?;
    if word != b"live".as_slice() {
        return None;
    }
    let live = read_members(nodes, rest)?;
    if usize::from(nodes) < 2 * live.len() {
        Some(live)
    } else {
        None
    }
}

/// Returns whether `node` is one of `live`.
fn is_among(live: &[u8], node: u64) -> bool
    ensures { result ≡ is_live live.now node }
{
    for member in live {
        if u64::from(*member) == node {
            return true;
        }
    }
    false
}

/// Reads a round: `round NODE CLIENT MOMENT LINE`, at one of the live members.
pub(crate) fn read_round<'a>(live: &[u8], line: &'a [u8]) -> Option<RoundLine<'a>>
    ensures { option_map round_line result ≡ round_among live.now line.now }
{
    let (word, rest) = cut_at(line, b' ')?;
    if word != b"round".as_slice() {
        return None;
    }
    let round = read_said(rest)?;
    if is_among(live, round.node) {
        Some(round)
    } else {
        None
    }
}
