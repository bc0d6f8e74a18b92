//! Rounds of a cluster over sockets that a test opened: what the client takes, and how time passes.

use crate::clusters::ends_so;
use crate::sockets::{address, socket};
use std::alloc::Global;
use std::cell::Cell;
use std::io::{self, ErrorKind};
use std::net::{Net, SocketAddr, TcpListener, TcpStream, UdpSocket};
use std::test::Fail;

/// A network that gives the UDP sockets of a list, the last one first: those of members 1, 2 and so on, and the
/// client's.
#[derive(Drop)]
struct Opened(Cell<Option<Vec<UdpSocket>>>);

impl Net for Opened {
    type Stream = TcpStream;

    type Listener = TcpListener;

    fn bind(&self, _address: SocketAddr) -> io::Result<TcpListener> {
        Err(ErrorKind::Unsupported.into())
    }

    fn connect(&self, _address: SocketAddr) -> io::Result<TcpStream> {
        Err(ErrorKind::Unsupported.into())
    }

    fn bind_udp(&self, _address: SocketAddr) -> io::Result<UdpSocket> {
        let Some(mut sockets) = self.0.take() else {
            return Err(ErrorKind::AddrNotAvailable.into());
        };
        let last = sockets.pop();
        self.0.set(Some(sockets));
        match last {
            Some(socket) => Ok(socket),
            None => Err(ErrorKind::AddrNotAvailable.into()),
        }
    }
}

/// Sends `count` datagrams to the client, by turns from member 2 and from a stranger.
fn disturb(
    second: &UdpSocket,
    stranger: &UdpSocket,
    client: SocketAddr,
    count: u32,
) -> Result<(), Fail> {
    for place in 0..count {
        if place % 2 == 0 {
            second.send_to(b"OK 1 1", client)?;
        } else {
            stranger.send_to(b"OK 1 2", client)?;
        }
    }
    Ok(())
}

/// Returns the sockets of a cluster of two, whose client has `count` datagrams of others before each reply.
fn disturbed<N: Net>(alloc: Global, net: &N, count: u32) -> Result<Vec<UdpSocket>, Fail> {
    let (client, second) = (socket(net)?, socket(net)?);
    let at = SocketAddr::V4(address(&client)?);
    disturb(&second, &socket(net)?, at, count)?;
    let mut sockets = Vec::new(alloc);
    sockets.push(client)?;
    sockets.push(second)?;
    sockets.push(socket(net)?)?;
    Ok(sockets)
}

/// Returns whether a cluster over sockets prints `printed` for a line to node 1.
fn prints(
    alloc: Global,
    sockets: Vec<UdpSocket>,
    nodes: u8,
    line: &str,
    printed: &str,
) -> Result<bool, Fail> {
    let net = Opened(Cell::new(Some(sockets)));
    Ok(ends_so(alloc, &net, nodes, line, printed, "")?)
}

/// The client accepts only the reply of the node it asked, up to the last of 64 rounds. It takes one datagram a round.
#[test]
fn takes_the_reply_of_the_node_asked(rt: HostRuntime) -> Result<(), Fail> {
    for (count, printed) in [(63, "1 NO - BADLINE\n"), (64, "1 -\n")] {
        let sockets = disturbed(rt.alloc(), &rt, count)?;
        assert!(rt;
            prints(rt.alloc(), sockets, 2, "1 1000 CHECK\n", printed)?,
            "{count}"
        );
    }
    Ok(())
}

/// Returns the sockets of a cluster of three, whose members hear the client alone.
fn apart<N: Net>(alloc: Global, net: &N) -> Result<Vec<UdpSocket>, Fail> {
    let client = socket(net)?;
    let at = SocketAddr::V4(address(&client)?);
    let mut sockets = Vec::new(alloc);
    sockets.push(client)?;
    for _ in 0..3 {
        let member = socket(net)?;
        member.connect(at)?;
        sockets.push(member)?;
    }
    Ok(sockets)
}

/// Quiet rounds are ticks: a node of three that hears no other gives its vote up.
#[test]
fn time_passes_in_quiet_rounds(rt: HostRuntime) -> Result<(), Fail> {
    let line = "1 1000 CHECK 1 silver 755224 -\n";
    let sockets = apart(rt.alloc(), &rt)?;
    assert!(rt; prints(rt.alloc(), sockets, 3, line, "1 NO 1 TIMEOUT\n")?);
    Ok(())
}
