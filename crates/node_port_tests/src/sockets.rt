//! Ports over loopback sockets.

use datagram_port::{Clock, Port, Received, Sender};
use std::cell::Cell;
use std::io;
use std::net::{Ipv4Addr, Net, SocketAddr, SocketAddrV4, UdpSocket};
use std::test::Fail;
use std::time::{Clock as TimeSource, Duration};
use udp_port::{NoClock, SystemClock, UdpPort, client_number};

/// Binds a socket to its own address on this machine, with a read timeout of 50 milliseconds.
pub(crate) fn socket<R: Net>(net: &R) -> io::Result<UdpSocket> {
    let own = SocketAddrV4::new(Ipv4Addr::LOCALHOST, 0);
    let socket = UdpSocket::bind(net, SocketAddr::V4(own))?;
    socket.set_read_timeout(Some(Duration::from_millis(50)))?;
    Ok(socket)
}

/// Returns the address of a socket.
pub(crate) fn address(socket: &UdpSocket) -> Result<SocketAddrV4, Fail> {
    match socket.local_addr()? {
        SocketAddr::V4(address) => Ok(address),
        SocketAddr::V6(_) => Err(Fail::from("an IPv6 address")),
    }
}

/// Returns whether a port receives exactly `text` of `sender` next.
fn hands_in<P: Port>(port: &mut P, sender: Sender, text: &[u8]) -> bool {
    let mut buffer = [0; 512];
    port.receive(&mut buffer)
        == Received::Datagram {
            sender,
            len: text.len(),
        }
        && buffer.starts_with(text)
}

/// Checks that a port tells members from strangers by their addresses alone, whatever the datagrams say.
///
/// Each of them receives what the port sends to it. The port ignores an answer of a stranger.
#[test]
fn tells_members_from_clients(rt: HostRuntime) -> Result<(), Fail> {
    let alloc = rt.alloc();
    let (own, member, stranger) = (socket(&rt)?, socket(&rt)?, socket(&rt)?);
    let (at, first, client) = (address(&own)?, address(&member)?, address(&stranger)?);
    let mut members = Vec::new(alloc);
    members.push(first)?;
    members.push(at)?;
    let mut port = UdpPort::new(own, members, NoClock);
    for text in ["NO - BADLINE", "OK 1 0", "OV"] {
        stranger.send_to(text.as_bytes(), SocketAddr::V4(at))?;
    }
    member.send_to(b"NO - BADLINE", SocketAddr::V4(at))?;
    for (from, sender, text) in [
        (&stranger, Sender::Client(client_number(client)), "OV"),
        (&member, Sender::Peer(1), "NO - BADLINE"),
    ] {
        assert!(rt; hands_in(&mut port, sender, text.as_bytes()));
        assert!(rt; port.send(sender, b"back"));
        let mut answer = [0; 8];
        let (len, by) = from.recv_from(&mut answer)?;
        assert!(rt; len == 4 && answer.starts_with(b"back") && by == SocketAddr::V4(at));
    }
    assert!(rt; !port.send(Sender::Peer(3), b"lost"));
    Ok(())
}

/// Binds a socket to an address of this machine outside 127.0.0.0/8, if it has a way out. Nothing is sent.
fn outer_socket<R: Net>(net: &R) -> Result<Option<UdpSocket>, Fail> {
    let any = SocketAddrV4::new(Ipv4Addr::UNSPECIFIED, 0);
    let probe = UdpSocket::bind(net, SocketAddr::V4(any))?;
    let elsewhere = SocketAddrV4::new(Ipv4Addr::new(192, 0, 2, 1), 9);
    if probe.connect(SocketAddr::V4(elsewhere)).is_err() {
        return Ok(None);
    }
    let own = SocketAddrV4::new(*address(&probe)?.ip(), 0);
    if own.ip().is_loopback() {
        return Ok(None);
    }
    Ok(UdpSocket::bind(net, SocketAddr::V4(own)).ok())
}

/// Checks that a port that takes clients of its host alone passes over a client at another address of the machine, and
/// returns the next client's datagram. It takes a member from that address.
#[test]
fn takes_clients_of_its_host(rt: HostRuntime) -> Result<(), Fail> {
    let (own, member, inner) = (socket(&rt)?, socket(&rt)?, socket(&rt)?);
    let (at, client) = (address(&own)?, client_number(address(&inner)?));
    let outer = outer_socket(&rt)?;
    let member = outer_socket(&rt)?.unwrap_or(member);
    let mut members = Vec::new(rt.alloc());
    members.push(address(&member)?)?;
    let mut port = UdpPort::new(own, members, NoClock).taking_loopback_alone();
    if let Some(outer) = outer {
        outer.send_to(b"outer", SocketAddr::V4(at))?;
    }
    member.send_to(b"member", SocketAddr::V4(at))?;
    inner.send_to(b"inner", SocketAddr::V4(at))?;
    assert!(rt; hands_in(&mut port, Sender::Peer(1), b"member"));
    assert!(rt; hands_in(&mut port, Sender::Client(client), b"inner"));
    Ok(())
}

/// Checks that a port returns the first 512 bytes of a longer datagram, and the next datagram whole.
#[test]
fn cuts_a_long_datagram(rt: HostRuntime) -> Result<(), Fail> {
    let (own, stranger) = (socket(&rt)?, socket(&rt)?);
    let (at, client) = (address(&own)?, client_number(address(&stranger)?));
    let mut port = UdpPort::new(own, Vec::new(rt.alloc()), NoClock);
    let sender = Sender::Client(client);
    stranger.send_to(&[7; 600], SocketAddr::V4(at))?;
    stranger.send_to(b"next", SocketAddr::V4(at))?;
    stranger.send_to(b"", SocketAddr::V4(at))?;
    assert!(rt; hands_in(&mut port, sender, &[7; 512]));
    assert!(rt; hands_in(&mut port, sender, b"next"));
    assert!(rt; hands_in(&mut port, sender, b""));
    Ok(())
}

/// Checks that a port sends a datagram of 512 bytes whole.
#[test]
fn sends_a_whole_datagram(rt: HostRuntime) -> Result<(), Fail> {
    let (own, stranger) = (socket(&rt)?, socket(&rt)?);
    let client = client_number(address(&stranger)?);
    let mut port = UdpPort::new(own, Vec::new(rt.alloc()), NoClock);
    assert!(rt; port.send(Sender::Client(client), &[7; 512]));
    let mut came = [0; 600];
    let (len, _) = stranger.recv_from(&mut came)?;
    assert!(rt; len == 512 && came.starts_with(&[7; 512]));
    Ok(())
}

/// Checks that a receive is quiet if nothing arrives in time, even after a datagram to an address without a socket.
#[test]
fn is_quiet_where_nothing_comes(rt: HostRuntime) -> Result<(), Fail> {
    let nobody = client_number(address(&socket(&rt)?)?);
    let mut port = UdpPort::new(socket(&rt)?, Vec::new(rt.alloc()), NoClock);
    let mut buffer = [0; 512];
    for _ in 0..2 {
        assert!(rt; port.receive(&mut buffer) == Received::Quiet);
        let _taken = port.send(Sender::Client(nobody), b"lost");
    }
    Ok(())
}

/// Checks that a poll returns a queued datagram and never waits, even over a socket that waits forever.
#[test]
fn polls_wait_for_nothing(rt: HostRuntime) -> Result<(), Fail> {
    let any = SocketAddrV4::new(Ipv4Addr::LOCALHOST, 0);
    let (own, stranger) = (UdpSocket::bind(&rt, SocketAddr::V4(any))?, socket(&rt)?);
    let (at, client) = (address(&own)?, client_number(address(&stranger)?));
    let sender = Sender::Client(client);
    let mut port = UdpPort::new(own, Vec::new(rt.alloc()), NoClock);
    let mut buffer = [0; 512];
    assert!(rt; port.poll(&mut buffer).is_none());
    for text in ["OK 1 0", "first", "next"] {
        stranger.send_to(text.as_bytes(), SocketAddr::V4(at))?;
    }
    assert!(rt; port.poll(&mut buffer) == Some(Received::Datagram { sender, len: 5 }));
    assert!(rt; hands_in(&mut port, sender, b"next"));
    assert!(rt; port.poll(&mut buffer).is_none());
    Ok(())
}

/// Returns whether a port receives a datagram next, and answers it with `NO - BADLINE`.
fn refuses<P: Port>(port: &mut P) -> bool {
    let mut buffer = [0; 512];
    match port.receive(&mut buffer) {
        Received::Datagram { sender, .. } => port.send(sender, b"NO - BADLINE"),
        Received::Quiet | Received::Fault => false,
    }
}

/// Checks that a port answers the line of another port, and ignores an answer.
///
/// After 64 answers a receive is quiet, and the next receive returns the next line.
#[test]
fn answers_no_answer(rt: HostRuntime) -> Result<(), Fail> {
    let (own, other) = (socket(&rt)?, socket(&rt)?);
    let (at, from) = (address(&own)?, client_number(address(&other)?));
    let mut port = UdpPort::new(own, Vec::new(rt.alloc()), NoClock);
    let mut another = UdpPort::new(other, Vec::new(rt.alloc()), NoClock);
    let to = Sender::Client(client_number(at));
    assert!(rt; another.send(to, b"x"));
    assert!(rt; refuses(&mut port));
    assert!(rt; !refuses(&mut another));
    for _ in 0..64 {
        assert!(rt; another.send(to, b"OK 1 0"));
    }
    assert!(rt; another.send(to, b"y"));
    assert!(rt; !refuses(&mut port));
    assert!(rt; hands_in(&mut port, Sender::Client(from), b"y"));
    Ok(())
}

/// A clock that returns the given number of milliseconds, or fails.
#[derive(Drop)]
struct Told(Cell<Option<u64>>);

impl TimeSource for Told {
    fn monotonic(&self) -> io::Result<Duration> {
        self.since_1970()
    }

    fn since_1970(&self) -> io::Result<Duration> {
        match self.0.get() {
            Some(millis) => Ok(Duration::from_millis(millis)),
            None => Err(io::ErrorKind::Other.into()),
        }
    }
}

/// Checks that a receive is quiet when the clock says so, even if datagrams are queued. It takes none of them.
#[test]
fn is_quiet_by_time(rt: HostRuntime) -> Result<(), Fail> {
    let (own, stranger) = (socket(&rt)?, socket(&rt)?);
    let (at, client) = (address(&own)?, client_number(address(&stranger)?));
    let clock = Told(Cell::new(None));
    let mut port = UdpPort::new(own, Vec::new(rt.alloc()), &clock);
    for (told, is_quiet) in [
        (Some(1000), false),
        (Some(1199), false),
        (Some(1200), true),
        (Some(1200), false),
        (Some(1550), true),
        (None, false),
        (Some(1600), true),
        (Some(2000), true),
        (Some(2199), false),
        (Some(2200), true),
    ] {
        clock.0.set(told);
        stranger.send_to(b"x", SocketAddr::V4(at))?;
        assert!(rt;
            hands_in(&mut port, Sender::Client(client), b"x") != is_quiet,
            "{told:?}"
        );
    }
    Ok(())
}

/// Checks that a moment is below 2^40 seconds, and that the system has one.
#[test]
fn moments_are_in_range(rt: HostRuntime) {
    assert!(rt; SystemClock::new(&rt).moment().unwrap_or(0) > 1_600_000_000);
    for (told, moment) in [
        (Some(999), Some(0)),
        (Some(1_099_511_627_775_999), Some(1_099_511_627_775)),
        (Some(1_099_511_627_776_000), None),
        (None, None),
    ] {
        assert!(rt; SystemClock::new(&Told(Cell::new(told))).moment() == moment);
    }
}
