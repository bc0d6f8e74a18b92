//! The floor that a datagram of one token bears witness to.

ghost use Rattle.std.specs.Prelude.{◌≡◌, ◌≤◌, Some, length, IfSome};
ghost use Rattle.floor_port.specs.Witness as spec;

use crate::body::{floor_with, name_at, number_at};
use crate::floor::NamedFloor;
use named_port::last_factor;
use otp_core::{Factor, Next};

/// The length of an Ask or a Grant, in bytes, the place of the first factor of its span, and that of the low byte of
/// the last one.
const VOTE_LEN: usize = 71;

const VOTE_FIRST: usize = 46;

const VOTE_LAST: usize = 54;

/// The length of a Deny, in bytes, and the place of its floor.
const DENY_LEN: usize = 71;

const DENY_NEXT: usize = 47;

/// The length of a Floor, in bytes, and the place of its floor.
const FLOOR_LEN: usize = 54;

const FLOOR_NEXT: usize = 30;

/// The length of the head of a datagram, in bytes.
const HEAD_LEN: usize = 14;

/// Returns the floor of a token whose factors up to `last` are used up, or None.
fn floor_after(last: u64) -> Option<u64>
    ensures { result ≡ spec.floor_after (Some last) }
{
    let last = Factor::new(last)?;
    Some(Next::after(last).value())
}

/// Returns the floor that a datagram of version 3 tells of its token, or None.
fn floor_told(bytes: &[u8]) -> Option<u64>
    ensures floor { result ≡ spec.floor_told bytes.now }
    ensures long { IfSome result (λ _. 54 ≤ length bytes.now) }
{
    let len = bytes.len();
    if len == VOTE_LEN && (bytes[3] == 1 || bytes[3] == 2) {
        let last = last_factor(number_at(bytes, VOTE_FIRST), bytes[VOTE_LAST])?;
        return floor_after(last);
    }
    if len == DENY_LEN && bytes[3] == 3 {
        return Some(number_at(bytes, DENY_NEXT));
    }
    if len == FLOOR_LEN && bytes[3] == 4 {
        return Some(number_at(bytes, FLOOR_NEXT));
    }
    None
}

/// Returns the name of the token of a datagram of version 3, with the floor that the datagram tells, or None.
///
/// An Ask and a Grant tell the factor after the last one of their span, a Deny and a Floor tell the floor. It doesn't
/// look at the tag.
pub fn witness_of(bytes: &[u8]) -> Option<NamedFloor>
    ensures { result ≡ spec.witness_of bytes.now }
{
    let next = floor_told(bytes)?;
    floor_with(name_at(&bytes[HEAD_LEN..]), next)
}
