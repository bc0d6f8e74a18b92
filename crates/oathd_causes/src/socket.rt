ghost use Rattle.std.specs.Prelude.{◌≡◌};
ghost use Rattle.oathd_causes.specs.Causes.{socket_cause_of};

use std::io::ErrorKind;
use std::net::{Net, SocketAddr, SocketAddrV4, UdpSocket};
use thiserror::Error;

/// The reason why a socket cannot be bound to an address, and what to do.
#[derive(Clone, Copy, Debug, PartialEq, Eq, Error)]
pub enum SocketCause {
    #[error("in use: stop the process that has it (ss -lunp), or change the member's address at all members")]
    InUse,
    #[error("not an address of this machine: mend --node or the member's address, or give the machine the address")]
    Elsewhere,
    #[error("no right to it: take a port from 1024 on, or give the process CAP_NET_BIND_SERVICE")]
    Denied,
}

/// Returns the reason for a kind of error, or None for other kinds.
fn socket_cause_of(kind: ErrorKind) -> Option<SocketCause>
    ensures { result ≡ socket_cause_of kind }
{
    match kind {
        ErrorKind::AddrInUse => Some(SocketCause::InUse),
        ErrorKind::AddrNotAvailable => Some(SocketCause::Elsewhere),
        ErrorKind::PermissionDenied => Some(SocketCause::Denied),
        _ => None,
    }
}

/// Returns the reason why a UDP socket cannot be bound to `address` now, or None. Binds a socket, and closes it at
/// once.
pub fn socket_cause<N: Net>(net: &N, address: SocketAddrV4) -> Option<SocketCause> {
    match UdpSocket::bind(net, SocketAddr::V4(address)) {
        Ok(_socket) => None,
        Err(error) => socket_cause_of(error.kind()),
    }
}
