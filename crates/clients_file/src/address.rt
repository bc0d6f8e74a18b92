ghost use Rattle.std.specs.Prelude.{◌≡◌};
ghost use Rattle.std.specs.Option.{option_map};
ghost use Rattle.std.specs.Net.Addr.{ipv4_octets};
ghost use Rattle.clients_file.specs.Address.{is_loopback, loopback_of, octets_of};

use crate::fault::LineFault;
use std::net::Ipv4Addr;

/// Returns the IPv4 address of a text, or None if the text is not one.
fn read_ip(text: &[u8]) -> Option<Ipv4Addr>
    ensures { option_map ipv4_octets result ≡ octets_of text.now }
{
    Ipv4Addr::parse_ascii(text).ok()
}

/// Returns whether an address is in 127.0.0.0/8.
fn is_loopback(ip: Ipv4Addr) -> bool
    ensures { result ≡ is_loopback (ipv4_octets ip) }
{
    ip.octets()[0] == 127
}

/// Returns the address of a text as a number. The address is in 127.0.0.0/8.
pub(crate) fn read_loopback(text: &[u8]) -> Result<u32, LineFault>
    ensures { result ≡ loopback_of (octets_of text.now) }
{
    let Some(ip) = read_ip(text) else {
        return Err(LineFault::BadAddress);
    };
    if !is_loopback(ip) {
        return Err(LineFault::NotLoopback);
    }
    Ok(ip.to_bits())
}
