//! Opens the sockets of a cluster.

ghost use Rattle.std.specs.Prelude.{◌≡◌, ◌≤◌, length, IfErr, IfOk};
ghost use Rattle.oathd_cluster.specs.Rounds.{IsOfOpening};

use crate::fault::Fault;
use crate::rounds::{Cluster, Member};
use oath_node::{Node, Scratch};
use otp_core::{Next, Settings};
use std::alloc::Global;
use std::net::{Ipv4Addr, Net, SocketAddr, SocketAddrV4, UdpSocket};
use std::time::Duration;
use token_file::Book;
use udp_port::{NoClock, UdpPort};
use vote_core::Place;
use vote_wire::ClusterKey;

/// The number of milliseconds for which a receive waits.
const WAIT_MILLIS: u64 = 20;

/// Binds a socket to a free address on this machine. Returns both.
fn bind<N: Net>(net: &N) -> Result<(UdpSocket, SocketAddrV4), Fault>
    ensures { IfErr result IsOfOpening }
{
    let any = SocketAddr::V4(SocketAddrV4::new(Ipv4Addr::LOCALHOST, 0));
    let Ok(socket) = UdpSocket::bind(net, any) else {
        return Err(Fault::Socket);
    };
    if socket
        .set_read_timeout(Some(Duration::from_millis(WAIT_MILLIS)))
        .is_err()
    {
        return Err(Fault::Socket);
    }
    match socket.local_addr() {
        Ok(SocketAddr::V4(address)) => Ok((socket, address)),
        Ok(SocketAddr::V6(_)) | Err(_) => Err(Fault::Socket),
    }
}

/// Binds `nodes` sockets, 1 to 9, each to a free address on this machine. Returns the sockets and the addresses.
fn bind_all<N: Net>(
    alloc: Global,
    net: &N,
    nodes: u8,
) -> Result<(Vec<UdpSocket>, Vec<SocketAddrV4>), Fault>
    requires { nodes ≤ 9 }
    ensures few { IfOk result (λ all. length all.1.items ≤ 9) }
    ensures fault { IfErr result IsOfOpening }
{
    let mut sockets = Vec::new(alloc);
    let mut addresses = Vec::new(alloc);
    for _ in 0..nodes {
        let (socket, address) = bind(net)?;
        sockets.push(socket)?;
        addresses.push(address)?;
    }
    Ok((sockets, addresses))
}

/// Opens the node at a place of a cluster, over a new store in memory, with its socket and all addresses.
fn open_member<'b>(
    alloc: Global,
    book: &'b Book,
    settings: Settings,
    key: &'b ClusterKey,
    place: Place,
    floors: &[Next],
    socket: UdpSocket,
    addresses: &[SocketAddrV4],
) -> Result<Member<'b, UdpPort<NoClock>>, Fault>
    requires few { length addresses.now ≤ 9 }
    requires as_many { length floors.now ≡ length book.now }
    ensures { IfErr result IsOfOpening }
{
    let port = UdpPort::in_rounds(socket, addresses.to_vec(alloc)?);
    let node = Node::in_memory(alloc, book, settings, place, key, floors)?;
    Ok(Member {
        node,
        port,
        scratch: Scratch::new(),
    })
}

/// Opens a cluster of `nodes` nodes, 1 to 9, each over a new store in memory and its own socket.
pub(crate) fn open_cluster<'b, N: Net>(
    alloc: Global,
    net: &N,
    nodes: u8,
    book: &'b Book,
    settings: Settings,
    key: &'b ClusterKey,
    floors: &[Next],
) -> Result<Cluster<'b, UdpPort<NoClock>>, Fault>
    requires last { nodes ≤ 9 }
    requires as_many { length floors.now ≡ length book.now }
    ensures { IfErr result IsOfOpening }
{
    let (mut sockets, addresses) = bind_all(alloc, net, nodes)?;
    // The first socket is popped first.
    sockets.as_mut_slice().reverse();
    let mut members = Vec::new(alloc);
    for me in 1..=nodes {
        let (Some(place), Some(socket)) = (Place::new(me, nodes), sockets.pop()) else {
            return Err(Fault::Socket);
        };
        members.push(open_member(
            alloc, book, settings, key, place, floors, socket, &addresses,
        )?)?;
    }
    let (socket, _) = bind(net)?;
    Ok(Cluster {
        members,
        client: UdpPort::in_rounds(socket, addresses),
    })
}
