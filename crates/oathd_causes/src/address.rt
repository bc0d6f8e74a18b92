ghost use Rattle.std.specs.Prelude.{◌≡◌, ◌≤◌, length, IfSome};
ghost use Rattle.std.specs.List.{list_any};
ghost use Rattle.oathd_causes.specs.Causes.{address_cause, has_byte, is_letter};

use field_text::cut_at;
use thiserror::Error;

/// The reason why a text is not the address of a member.
#[derive(Clone, Copy, Debug, PartialEq, Eq, Error)]
pub enum AddressCause {
    #[error("a host name; give an IPv4 address with a port")]
    HostName,
    #[error("an IPv6 address; give an IPv4 address with a port")]
    Ipv6,
    #[error("no port; give an IPv4 address with a port")]
    NoPort,
    #[error("no IPv4 address with a port")]
    Other,
}

/// Returns whether `text` has the byte.
fn has_byte(text: &[u8], byte: u8) -> bool
    ensures { result ≡ has_byte text.now byte }
{
    text.iter().any(|other| *other == byte)
}

/// Returns whether `text` has a letter.
fn has_letter(text: &[u8]) -> bool
    ensures { result ≡ list_any is_letter text.now }
{
    text.iter().any(|byte| byte.is_ascii_alphabetic())
}

/// Returns the reason why a text is not an IPv4 address with a port.
pub fn address_cause(text: &[u8]) -> AddressCause
    ensures { result ≡ address_cause text.now }
{
    if has_byte(text, b'[') {
        AddressCause::Ipv6
    } else if has_letter(text) {
        AddressCause::HostName
    } else if !has_byte(text, b':') {
        AddressCause::NoPort
    } else {
        AddressCause::Other
    }
}

/// Returns whether a byte separates fields.
fn is_blank(byte: u8) -> bool {
    byte == b' ' || byte == b'\t' || byte == b'\r'
}

/// Returns the place of the first byte that is not a blank, or None.
fn first_visible(line: &[u8]) -> Option<usize>
    ensures { IfSome result (λ place. place ≤ length line.now) }
{
    line.iter().position(|byte| !is_blank(*byte))
}

/// Returns the place of the first blank, or None.
fn first_blank(line: &[u8]) -> Option<usize>
    ensures { IfSome result (λ place. place ≤ length line.now) }
{
    line.iter().position(|byte| is_blank(*byte))
}

/// Returns the text after the first field of a line, or None.
fn behind_field(line: &[u8]) -> Option<&[u8]> {
    let (_, line) = line.split_at(first_visible(line)?);
    let (_, behind) = line.split_at(first_blank(line)?);
    Some(behind)
}

/// Returns the line `number`, from 1, of a text, or None.
fn line_at(text: &[u8], number: u64) -> Option<&[u8]> {
    let mut rest = text;
    for _ in 1..number {
        let (_, behind) = cut_at(rest, b'\n')?;
        rest = behind;
    }
    match cut_at(rest, b'\n') {
        Some((line, _)) => Some(line),
        None => Some(rest),
    }
}

/// Returns the text in the place of a member's address, on the line `number` of a cluster file, or None.
pub fn address_in(text: &[u8], number: u64) -> Option<&[u8]> {
    behind_field(behind_field(line_at(text, number)?)?)
}
