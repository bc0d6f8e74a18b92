//! Reads the addresses of a cluster's members.

ghost use Rattle.std.specs.Prelude.{◌≡◌, ◌≤◌, ◌∷◌, ◌++◌, [], List, IfNone, IfOk, IfSome, length};
ghost use Rattle.std.specs.Net.Grammar.{IsSocketV4Text};
ghost use Rattle.std.specs.declared.net.socket_addr.SocketAddrV4.{SocketAddrV4 as AnyAddress};
ghost use Rattle.oathd_words.specs.Members.{AreMembers, SayAddresses, are_different, is_among, parts_of};

use field_text::cut_at;
use std::alloc::{AllocError, Global};
use std::net::SocketAddrV4;
use udp_port::{MAX_MEMBERS, client_number};

/// Returns `addresses` followed by the address in `text`, or `None` if `text` is no address.
fn with_address(
    mut addresses: Vec<SocketAddrV4>,
    text: &[u8],
) -> Result<Option<Vec<SocketAddrV4>>, AllocError>
    ensures some { IfOk result (λ read. IfSome read (λ more. (address : AnyAddress)
        × IsSocketV4Text text.now address × (more.items ≡ addresses.items ++ address ∷ []))) }
    ensures none { IfOk result (λ read. IfNone read ((address : AnyAddress)
        → IsSocketV4Text text.now address → ⊥)) }
{
    let Ok(address) = SocketAddrV4::parse_ascii(text) else {
        return Ok(None);
    };
    addresses.push(address)?;
    Ok(Some(addresses))
}

/// Returns the addresses between the commas of `text`, or `None` if they are not 1 to 9 addresses.
fn read_addresses(alloc: Global, text: &[u8]) -> Result<Option<Vec<SocketAddrV4>>, AllocError>
    ensures some { IfOk result (λ read. IfSome read (λ addresses.
        SayAddresses (parts_of text.now) addresses.items × (length addresses.items ≤ 9))) }
    ensures none { IfOk result (λ read. IfNone read ((addresses : List AnyAddress)
        → SayAddresses (parts_of text.now) addresses → length addresses ≤ 9 → ⊥)) }
{
    let mut addresses = Vec::new(alloc);
    let mut rest = text;
    for _ in 0..MAX_MEMBERS {
        let Some((first, behind)) = cut_at(rest, b',') else {
            return with_address(addresses, rest);
        };
        let Some(more) = with_address(addresses, first)? else {
            return Ok(None);
        };
        addresses = more;
        rest = behind;
    }
    Ok(None)
}

/// Returns whether `address` is one of `others`. Two addresses are the same if host and port are.
fn is_among(address: SocketAddrV4, others: &[SocketAddrV4]) -> bool
    ensures { result ≡ is_among address others.now }
{
    let number = client_number(address);
    others.iter().any(|other| client_number(*other) == number)
}

/// Returns whether no address occurs twice.
fn are_different(addresses: &[SocketAddrV4]) -> bool
    ensures { result ≡ are_different addresses.now }
{
    let [first, others @ ..] = addresses else {
        return true;
    };
    !is_among(*first, others) && are_different(others)
}

/// Returns the members' addresses in `text`: 1 to 9 different IPv4 addresses with ports, separated by commas. Returns
/// `None` for any other text.
pub fn read_members(alloc: Global, text: &[u8]) -> Result<Option<Vec<SocketAddrV4>>, AllocError>
    ensures some { IfOk result (λ read. IfSome read (λ members. AreMembers text.now members.items)) }
    ensures none { IfOk result (λ read. IfNone read ((members : List AnyAddress)
        → AreMembers text.now members → ⊥)) }
{
    match read_addresses(alloc, text)? {
        Some(addresses) if are_different(&addresses) => Ok(Some(addresses)),
        _ => Ok(None),
    }
}
