//! Runs nodes over their ports, round after round.

ghost use Rattle.std.specs.Prelude.{◌≤◌, ◌≢◌, IfErr, IfOk, IfSome};
ghost use Rattle.oathd_cluster.specs.Rounds.{IsOfRounds};

use crate::fault::Fault;
use crate::line::NodeLine;
use datagram_port::{MAX_DATAGRAM_LEN, Port, Received, Sender};
use floor_store::MemStore;
use oath_node::{Event, Node, Scratch, offer};

/// The number of rounds after which a line without a reply has none.
const MAX_ROUNDS: u8 = 64;

/// A node with its port, and room for the datagrams of a tick.
#[derive(Drop)]
pub(crate) struct Member<'b, P: Port + Drop> {
    pub(crate) node: Node<'b, MemStore>,
    pub(crate) port: P,
    pub(crate) scratch: Scratch,
}

/// The nodes of a cluster, from 1, and the port of the client who sends them lines. At that port the nodes are the
/// members.
#[derive(Drop)]
pub(crate) struct Cluster<'b, P: Port + Drop> {
    pub(crate) members: Vec<Member<'b, P>>,
    pub(crate) client: P,
}

/// Gives an event to a node, and offers its datagrams and its reply to the port.
fn hand_in<P: Port + Drop>(member: &mut Member<'_, P>, event: Event<'_>) -> Result<(), Fault>
    ensures { IfErr result IsOfRounds }
{
    let outputs = member.node.handle(event, &mut member.scratch)?;
    let _replies = offer(&mut member.port, &outputs);
    Ok(())
}

/// Receives once at a node's port, and gives the result to the node. Returns whether a datagram arrived.
fn take_receive<P: Port + Drop>(member: &mut Member<'_, P>, moment: u64) -> Result<bool, Fault>
    ensures { IfErr result IsOfRounds }
{
    let mut buffer = [0; MAX_DATAGRAM_LEN];
    match member.port.receive(&mut buffer) {
        Received::Datagram { sender, len } => {
            let bytes = &buffer[..len];
            let event = match sender {
                Sender::Peer(from) => Event::Peer { from, bytes },
                Sender::Client(client) => Event::Client {
                    client,
                    moment,
                    line: bytes,
                },
            };
            hand_in(member, event)?;
            Ok(true)
        }
        Received::Quiet => Ok(false),
        Received::Fault => Err(Fault::Socket),
    }
}

/// Plays a round: each node receives once, in order of number. If no node received anything, each gets a tick.
fn play_round<P: Port + Drop>(members: &mut [Member<'_, P>], moment: u64) -> Result<(), Fault>
    ensures { IfErr result IsOfRounds }
{
    let mut is_quiet = true;
    for place in 0..members.len() {
        if take_receive(&mut members[place], moment)? {
            is_quiet = false;
        }
    }
    if is_quiet {
        for place in 0..members.len() {
            hand_in(&mut members[place], Event::Tick)?;
        }
    }
    Ok(())
}

/// Receives once at the client's port. Returns the length of the node's reply, or None if the reply did not arrive.
///
/// The reply is at the start of the buffer. A datagram of another sender is dropped.
fn receive_reply<P: Port + Drop>(
    client: &mut P,
    node: u8,
    buffer: &mut [u8; 512],
) -> Result<Option<usize>, Fault>
    ensures len { IfOk result (λ found. IfSome found (λ len. len ≤ 512)) }
    ensures fault { IfErr result IsOfRounds }
{
    match client.receive(buffer) {
        Received::Datagram { sender, len } if sender == Sender::Peer(node) => Ok(Some(len)),
        Received::Datagram { .. } | Received::Quiet => Ok(None),
        Received::Fault => Err(Fault::Socket),
    }
}

/// Sends a line to its node, and plays at most 64 rounds until the reply arrives.
///
/// Returns the length of the reply, or None without one. The reply is at the start of the buffer. Of a longer line only
/// 512 bytes are sent, which are as bad as the whole.
pub(crate) fn ask<P: Port + Drop>(
    cluster: &mut Cluster<'_, P>,
    line: &NodeLine<'_>,
    buffer: &mut [u8; 512],
) -> Result<Option<usize>, Fault>
    ensures len { IfOk result (λ found. IfSome found (λ len. len ≤ 512)) }
    ensures fault { IfErr result IsOfRounds }
{
    let len = line.text.len().min(MAX_DATAGRAM_LEN);
    let _taken = cluster
        .client
        .send(Sender::Peer(line.node), &line.text[..len]);
    for _ in 0..MAX_ROUNDS {
        play_round(cluster.members.as_mut_slice(), line.moment)?;
        if let Some(len) = receive_reply(&mut cluster.client, line.node, buffer)? {
            return Ok(Some(len));
        }
    }
    Ok(None)
}
