ghost use Rattle.std.specs.Prelude.{◌≡◌, ◌≤◌, IfSome};
ghost use Rattle.oathd_cluster.specs.Line.{node_line_of};

use field_text::{cut_at, read_number};
use std::marker::Model;

/// A client's line for a node, and the moment of its arrival, in seconds since 1970-01-01 00:00:00 UTC.
#[derive(Drop)]
pub(crate) struct NodeLine<'a> {
    pub(crate) node: u8,
    pub(crate) moment: u64,
    pub(crate) text: &'a [u8],
}

impl<'a> Model for NodeLine<'a> {
    ghost use Rattle.oathd_cluster.specs.Line as value;

    ghost Value = { value.NodeLine };

    ghost view = { λ line. record { node = line.node; moment = line.moment; text = line.text.now } };
}

/// Reads a node's number, from 1 to `nodes`, a moment and a client's line, separated by single spaces.
pub(crate) fn read_node_line(nodes: u8, line: &[u8]) -> Option<NodeLine<'_>>
    ensures line { result ≡ node_line_of nodes line.now }
    ensures first { IfSome result (λ line. 1 ≤ line.node) }
    ensures last { IfSome result (λ line. line.node ≤ nodes) }
{
    let (node, rest) = cut_at(line, b' ')?;
    let (moment, text) = cut_at(rest, b' ')?;
    let node = read_number(node)?;
    let moment = read_number(moment)?;
    if node < 1 || node > u64::from(nodes) {
        return None;
    }
    Some(NodeLine {
        node: node as u8,
        moment,
        text,
    })
}
