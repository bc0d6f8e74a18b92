//! Where datagrams go.

use std::net::{Ipv4Addr, Net, SocketAddr, SocketAddrV4, UdpSocket};

/// A way out for datagrams.
pub trait Outlet {
    ghost use Rattle.std.specs.Prelude.{◌∷◌, [], List, None, Option};
    ghost use Rattle.log_writer.specs.Syslog.{Grows, Offer};

    // The datagrams that were offered, where they are known.
    ghost offers: { Self → Option (List Offer) } = { λ _. None };

    /// Offers a datagram. Returns whether it was taken.
    fn send(&mut self, bytes: &[u8]) -> bool
        ensures { Grows (offers self.old) (offers self.new) ((bytes.now, result) ∷ []) };
}

/// Datagrams to an address over UDP. The socket is bound when the first datagram is sent, and never waits.
#[derive(Drop)]
pub struct UdpOutlet<'n, N: Net> {
    net: &'n N,
    to: SocketAddrV4,
    socket: Option<UdpSocket>,
}

impl<'n, N: Net> UdpOutlet<'n, N> {
    /// Returns a way out to the address `to`, without a socket yet.
    pub fn new(net: &'n N, to: SocketAddrV4) -> Self {
        UdpOutlet {
            net,
            to,
            socket: None,
        }
    }
}

/// Returns a socket at a free port, whose calls don't wait, or None if there is none.
fn free_socket<N: Net>(net: &N) -> Option<UdpSocket> {
    let any = SocketAddr::V4(SocketAddrV4::new(Ipv4Addr::UNSPECIFIED, 0));
    let socket = UdpSocket::bind(net, any).ok()?;
    match socket.set_nonblocking(true) {
        Ok(()) => Some(socket),
        Err(_) => None,
    }
}

impl<N: Net> Outlet for UdpOutlet<'_, N> {
    fn send(&mut self, bytes: &[u8]) -> bool {
        if self.socket.is_none() {
            self.socket = free_socket(self.net);
        }
        match &self.socket {
            Some(socket) => socket.send_to(bytes, SocketAddr::V4(self.to)).is_ok(),
            None => false,
        }
    }
}
