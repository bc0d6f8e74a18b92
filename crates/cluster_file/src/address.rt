ghost use Rattle.std.specs.Prelude.{◌≡◌, map};
ghost use Rattle.std.specs.List.{list_any};
ghost use Rattle.std.specs.Option.{option_map};
ghost use Rattle.cluster_file.specs.Address.{address_of, address_value, is_among, is_same};

use std::net::SocketAddrV4;

/// Returns the address of a text, or None if the text is not one.
pub(crate) fn read_address(text: &[u8]) -> Option<SocketAddrV4>
    ensures { option_map address_value result ≡ address_of text.now }
{
    SocketAddrV4::parse_ascii(text).ok()
}

/// Returns whether two addresses are equal.
#[tactic(auto, unfolding(crate::specs::Address::is_same))]
fn is_same(address: SocketAddrV4, other: SocketAddrV4) -> bool
    ensures { result ≡ is_same (address_value address) (address_value other) }
{
    other.ip().octets() == address.ip().octets() && other.port() == address.port()
}

/// Returns whether one of `others` equals `address`.
fn has_same(others: &[SocketAddrV4], address: SocketAddrV4) -> bool
    ensures { result ≡ list_any (λ other. is_same (address_value address) (address_value other)) others.now }
{
    others.iter().any(|other| is_same(address, *other))
}

/// Returns whether `address` is one of `others`.
pub(crate) fn is_among(address: SocketAddrV4, others: &[SocketAddrV4]) -> bool
    ensures { result ≡ is_among (address_value address) (map address_value others.now) }
{
    has_same(others, address)
}
