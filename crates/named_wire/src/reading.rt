//! Reading of datagrams.

ghost use Rattle.std.specs.Option.{option_map};
ghost use Rattle.std.specs.Prelude.{◌≡◌, ◌≤◌, length, IfNone, IfSome};
ghost use Rattle.named_wire.specs.Datagram.{IsTagged, datagram_at, front_of};
ghost use Rattle.named_wire.specs.Head as spec;

use crate::bytes::number_at;
use crate::head::{Head, Kind};
use crate::tags::{TAG_LEN, are_equal};
use crate::writing::{MARK, MAX_DATAGRAM_LEN, VERSION};
use vote_wire::{ClusterKey, tag};

/// The length of a head, in bytes.
const HEAD_LEN: usize = 14;

/// The maximum number of bytes before a tag.
const MAX_FRONT_LEN: usize = 495;

/// Returns whether the bytes begin with the mark, and the version follows.
fn has_mark(front: &[u8]) -> bool
    requires { 3 ≤ length front.now }
    ensures { result ≡ spec.has_mark front.now }
{
    front[0] == MARK[0] && front[1] == MARK[1] && front[2] == VERSION
}

/// Returns whether two numbers may be the ends of a datagram.
fn are_ends(from: u8, to: u8) -> bool
    ensures { result ≡ spec.are_ends from to }
{
    1 <= from && from <= 9 && 1 <= to && to <= 9 && from != to
}

/// Returns the head of the bytes before a tag, or None.
#[tactic(auto, unfolding(crate::specs::Head::head_at))]
fn head_at(front: &[u8]) -> Option<Head>
    ensures head { result ≡ spec.head_at front.now }
    ensures len { IfSome result (λ head. (14 ≤ length front.now) × (length front.now ≤ 495)) }
{
    if front.len() < HEAD_LEN || front.len() > MAX_FRONT_LEN || !has_mark(front) {
        return None;
    }
    let (from, to) = (front[4], front[5]);
    if !are_ends(from, to) {
        return None;
    }
    let kind = Kind::of(front[3])?;
    Some(Head {
        kind,
        from,
        to,
        boot: number_at(front, 6),
    })
}

/// Returns the bytes before the tag, or None if the tag is not theirs.
fn tagged_front<'a>(key: &ClusterKey, bytes: &'a [u8]) -> Option<&'a [u8]>
    ensures some { IfSome result (λ front. IsTagged key.now bytes.now × (front.now ≡ front_of bytes.now)) }
    ensures none { IfNone result (length bytes.now ≤ 511 → IsTagged key.now bytes.now → ⊥) }
{
    if bytes.len() > MAX_DATAGRAM_LEN {
        return None;
    }
    let (front, last) = bytes.split_at_checked(bytes.len().checked_sub(TAG_LEN)?)?;
    let last: &[u8; TAG_LEN] = last.try_into().ok()?;
    if are_equal(last, &tag(key, front)) {
        Some(front)
    } else {
        None
    }
}

/// Returns the head and the body of a datagram under the cluster's key, or None.
///
/// None says that the datagram is not in the format, or that its tag is wrong.
pub fn read_datagram<'a>(key: &ClusterKey, bytes: &'a [u8]) -> Option<(Head, &'a [u8])>
    ensures exact { option_map (λ read. (read.0, read.1.now)) result ≡ datagram_at key.now bytes.now }
    ensures len { IfSome result (λ read. length read.1.now ≤ 481) }
{
    let front = tagged_front(key, bytes)?;
    let head = head_at(front)?;
    let (_, body) = front.split_at(HEAD_LEN);
    Some((head, body))
}
