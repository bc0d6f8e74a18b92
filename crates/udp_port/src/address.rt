//! Maps socket addresses to senders, and senders to socket addresses.

ghost use Rattle.std.specs.Prelude.{◌≡◌, ◌<◌, ◌≤◌, ◌^◌, IfNone, IfSome, length};
ghost use Rattle.udp_port.specs.Address.{HasNoAddress, IsAddressOf, number_of, sender_of};

use datagram_port::Sender;
use std::net::{Ipv4Addr, SocketAddrV4};

/// The end of the numbers of clients.
const CLIENTS_END: u64 = 1 << 48;

/// Returns the number of the client at an address: the IPv4 address as a number of 32 bits, times 65,536, plus the
/// port.
pub fn client_number(address: SocketAddrV4) -> u64
    ensures value { result ≡ number_of address }
    ensures range { result < 2 ^ 48 }
{
    u64::from(address.ip().to_bits()) * 65_536 + u64::from(address.port())
}

/// Returns the address of the client with the number `number`, or None from 2^48 on.
pub fn client_address(number: u64) -> Option<SocketAddrV4>
    ensures some { IfSome result (λ address. number_of address ≡ number) }
    ensures none { IfNone result (2 ^ 48 ≤ number) }
{
    if number >= CLIENTS_END {
        return None;
    }
    let ip = Ipv4Addr::from_bits((number / 65_536) as u32);
    Some(SocketAddrV4::new(ip, (number % 65_536) as u16))
}

/// Returns the sender of a datagram from `address`: the member with the address, or else a client.
pub(crate) fn sender_of(members: &[SocketAddrV4], address: SocketAddrV4) -> Sender
    requires { length members.now ≤ 9 }
    ensures { result ≡ sender_of members.now address }
{
    let client = client_number(address);
    let mut number = 0u8;
    for member in members {
        number += 1;
        if client_number(*member) == client {
            return Sender::Peer(number);
        }
    }
    Sender::Client(client)
}

/// Returns the address of a member or a client, or None if it has none.
pub(crate) fn address_of(members: &[SocketAddrV4], to: Sender) -> Option<SocketAddrV4>
    ensures some { IfSome result (IsAddressOf members.now to) }
    ensures none { IfNone result (HasNoAddress members.now to) }
{
    match to {
        Sender::Peer(number) => members.get(usize::from(number).checked_sub(1)?).copied(),
        Sender::Client(number) => client_address(number),
    }
}
