//! Runs the whole command.

ghost use Rattle.std.specs.Prelude.{◌≡◌, ◌+◌, ◌≤◌, length, take, IfErr, IfOk, IfSome};
ghost use Rattle.otp_core.specs.Range.{IsMoment};
ghost use Rattle.oathd_cluster.specs.Line.{node_lines};
ghost use Rattle.oathd_cluster.specs.Run.{EndsSo, IsBehindUsers, IsOfUsers, RefusesUsers};
ghost use Rattle.users_input.specs.Input.{lines_of};

use crate::answer::answer_lines;
use crate::fault::Fault;
use crate::rounds::Cluster;
use crate::sockets::open_cluster;
use datagram_port::Port;
use otp_core::{Next, Settings};
use std::alloc::Global;
use std::io::{BufReader, Read, Write};
use std::net::Net;
use token_file::{Book, FromRead, read_book};
use users_input::{Input, Retrying};
use vote_wire::ClusterKey;

/// Reads the tokens of a users file, and the floors of their import (floor: the first free factor).
fn read_users<U: Read + Drop>(
    alloc: Global,
    users: U,
    settings: Settings,
    moment: u64,
) -> Result<(Book, Vec<Next>), Fault>
    requires { IsMoment moment }
    ensures floors { IfOk result (λ read. length read.1.items ≡ length read.0) }
    ensures fault { IfErr result (λ fault. IfSome (U.remaining users)
        (λ text. RefusesUsers settings moment 16777216 text fault)) }
    ensures kind { IfErr result IsOfUsers }
{
    let mut source = FromRead::new(users);
    match read_book(alloc, &mut source, settings, moment) {
        Ok(read) => Ok(read),
        Err(fault) => Err(Fault::Users(fault)),
    }
}

/// Sends the lines of a reader to the nodes of a cluster. Reads at most `limit` bytes and one more.
fn answer_reader<R: Read, W: Write, P: Port + Drop>(
    alloc: Global,
    nodes: u8,
    cluster: &mut Cluster<'_, P>,
    limit: u32,
    reader: &mut R,
    writer: &mut W,
) -> Result<(), Fault>
    requires { nodes ≤ 9 }
    ensures ends { IfSome (R.remaining reader.old) (λ text. EndsSo
        (node_lines nodes 1 (lines_of limit (take (limit + 1) text)))
        result (W.contents writer.old) (W.contents writer.new)) }
    ensures behind { IfErr result IsBehindUsers }
{
    let part = Retrying::new(reader).take(u64::from(limit) + 1);
    let Ok(held) = BufReader::new(alloc, part) else {
        return Err(Fault::Memory);
    };
    answer_lines(alloc, nodes, cluster, Input::new(held, limit), 1, writer)
}

/// Reads a users file, runs a cluster of `nodes` nodes, 1 to 9, and sends it the lines of a reader.
///
/// Each node has a new store in memory and its own UDP socket on this machine. A line `NODE MOMENT LINE` goes to its
/// node, at that moment for all nodes. The nodes play at most 64 rounds until the reply arrives. In a round each node
/// receives once, for at most 20 milliseconds; if no node received anything, each gets a tick. The output for each line
/// is `NODE REPLY`, or `NODE -` without a reply, and is flushed before the next line is read.
///
/// At most `limit` bytes of the reader and one more are read: a line that continues past the limit is bad. The users
/// are imported at the given moment, in seconds since 1970-01-01 00:00:00 UTC, 0 to 1099511627775.
///
/// # Errors
/// - Returns `Users` if the users file has a fault or cannot be read.
/// - Returns `Socket` if a socket cannot be opened, or fails.
/// - Returns `InputLine` at the first bad line, after the replies to the lines before it.
/// - Returns `CannotRead` if the reader fails, after the replies to the lines before.
/// - Returns `Node` if a node has no number left for a vote.
/// - Returns `Memory` if the allocator refuses the memory.
/// - Returns `CannotWrite` if the output fails.
pub fn run_cluster<N: Net, U: Read + Drop, R: Read, W: Write>(
    alloc: Global,
    net: &N,
    nodes: u8,
    settings: Settings,
    moment: u64,
    key: &ClusterKey,
    users: U,
    limit: u32,
    reader: &mut R,
    writer: &mut W,
) -> Result<(), Fault>
    requires first { 1 ≤ nodes }
    requires last { nodes ≤ 9 }
    requires moment { IsMoment moment }
    ensures lines { IfSome (R.remaining reader.old) (λ text. EndsSo
        (node_lines nodes 1 (lines_of limit (take (limit + 1) text)))
        result (W.contents writer.old) (W.contents writer.new)) }
    ensures users { IfErr result (λ fault. IfSome (U.remaining users)
        (λ text. RefusesUsers settings moment 16777216 text fault)) }
{
    let (book, floors) = read_users(alloc, users, settings, moment)?;
    let mut cluster = open_cluster(alloc, net, nodes, &book, settings, key, &floors)?;
    answer_reader(alloc, nodes, &mut cluster, limit, reader, writer)
}
