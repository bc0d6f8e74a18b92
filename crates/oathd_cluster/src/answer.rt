//! Sends the lines of an input one after the other.

ghost use Rattle.std.specs.Prelude.{◌≡◌, ◌≤◌, IfErr, IfSome, OnOk};
ghost use Rattle.std.specs.Io.KnownBytes.{Appends};
ghost use Rattle.program_edge.specs.Line.{line_of};
ghost use Rattle.oathd_cluster.specs.Line.{node_lines};
ghost use Rattle.oathd_cluster.specs.Run.{EndsSo, IsBehindUsers, reply_text};
ghost use Rattle.users_input.specs.Input.{lines_of};

use crate::fault::Fault;
use crate::line::read_node_line;
use crate::rounds::{Cluster, ask};
use datagram_port::{MAX_DATAGRAM_LEN, Port};
use program_edge::write_line;
use std::alloc::Global;
use std::io::{BufRead, Write};
use users_input::{Input, NextLine, text_of};

/// Writes a node's reply, or `-` without one, and an LF. Flushes.
fn write_reply<W: Write>(writer: &mut W, node: u8, reply: &[u8]) -> Result<(), Fault>
    requires { node ≤ 9 }
    ensures written { OnOk result (Appends (W.contents writer.old) (W.contents writer.new)
        (line_of (reply_text (record { node = node; text = reply.now })))) }
    ensures fault { IfErr result (λ fault. fault ≡ Fault.CannotWrite) }
{
    writer
        .write_all(&[b'0' + node, b' '])
        .map_err(|_| Fault::CannotWrite)?;
    write_line(writer, reply).map_err(|_| Fault::CannotWrite)?;
    writer.flush().map_err(|_| Fault::CannotWrite)
}

/// Sends the remaining lines of an input, numbered from `first`, up to the first bad line, and writes the replies.
/// Each line is sent after the reply to the one before.
pub(crate) fn answer_lines<B: BufRead + Drop, W: Write, P: Port + Drop>(
    alloc: Global,
    nodes: u8,
    cluster: &mut Cluster<'_, P>,
    mut input: Input<B>,
    first: u64,
    writer: &mut W,
) -> Result<(), Fault>
    requires { nodes ≤ 9 }
    ensures ends { IfSome (B.remaining input.reader) (λ text. EndsSo
        (node_lines nodes first (lines_of input.room text)) result (W.contents writer.old) (W.contents writer.new)) }
    ensures behind { IfErr result IsBehindUsers }
{
    let mut line = Vec::new(alloc);
    let mut buffer = [0; MAX_DATAGRAM_LEN];
    for number in first..u64::MAX {
        match input.next_line(&mut line)? {
            NextLine::End => return Ok(()),
            NextLine::Cut => return Err(Fault::InputLine(number)),
            NextLine::Whole => match read_node_line(nodes, text_of(&line)) {
                Some(line) => {
                    let reply = match ask(cluster, &line, &mut buffer)? {
                        Some(len) => &buffer[..len],
                        None => b"-".as_slice(),
                    };
                    write_reply(writer, line.node, reply)?;
                }
                None => return Err(Fault::InputLine(number)),
            },
        }
    }
    // No input has this many lines.
    Err(Fault::Memory)
}
