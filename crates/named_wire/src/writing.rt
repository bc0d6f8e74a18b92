//! Writing of datagrams.

ghost use Rattle.std.specs.Prelude.{◌≡◌, ◌+◌, ◌≤◌, ◌++◌, length};
ghost use Rattle.arrayvec.specs.ArrayVec.{array_vec_len};
ghost use Rattle.named_wire.specs.Datagram.{datagram_bytes};
ghost use Rattle.named_wire.specs.Head.{head_bytes};

use crate::head::Head;
use arrayvec::ArrayVec;
use vote_wire::{ClusterKey, tag};

/// The maximum length of a body, in bytes: 20 floors and their count.
pub const MAX_BODY_LEN: usize = 481;

/// The maximum length of a datagram, in bytes.
pub const MAX_DATAGRAM_LEN: usize = 511;

/// The first bytes of a datagram.
pub(crate) const MARK: [u8; 2] = *b"OV";

/// The version of the format.
pub(crate) const VERSION: u8 = 3;

/// Appends `bytes`.
fn push_all<const CAP: usize>(out: &mut ArrayVec<u8, CAP>, bytes: &[u8])
    requires { array_vec_len out.old + length bytes.now ≤ CAP }
    ensures { out.new.items ≡ out.old.items ++ bytes.now }
{
    let _ = out.try_extend_from_slice(bytes);
}

/// Returns the head as bytes.
fn head_text<const CAP: usize>(head: Head) -> ArrayVec<u8, CAP>
    requires { 14 ≤ CAP }
    ensures bytes { result.items ≡ head_bytes head }
    ensures len { array_vec_len result ≡ 14 }
{
    let mut out = ArrayVec::new();
    push_all(&mut out, &MARK);
    push_all(&mut out, &[VERSION, head.kind.byte(), head.from, head.to]);
    push_all(&mut out, &head.boot.to_be_bytes());
    out
}

/// Returns the datagram of a head and a body of at most 481 bytes, under the cluster's key.
///
/// The datagram has 30 bytes more than the body. `CAP` is the capacity for it: [`MAX_DATAGRAM_LEN`] is enough.
#[tactic(auto, unfolding(crate::specs::Datagram::datagram_bytes))]
pub fn write_datagram<const CAP: usize>(
    key: &ClusterKey,
    head: Head,
    body: &[u8],
) -> ArrayVec<u8, CAP>
    requires few { length body.now ≤ 481 }
    requires room { length body.now + 30 ≤ CAP }
    ensures { result.items ≡ datagram_bytes key.now head body.now }
{
    let mut out = head_text(head);
    push_all(&mut out, body);
    let tag = tag(key, &out);
    push_all(&mut out, &tag);
    out
}

/// Returns the datagram of a head and a body in three parts, of at most 481 bytes together, under the cluster's key.
///
/// It is as [`write_datagram`], and copies each part once.
#[tactic(auto, unfolding(crate::specs::Datagram::datagram_bytes))]
pub fn write_parts<const CAP: usize>(
    key: &ClusterKey,
    head: Head,
    first: &[u8],
    second: &[u8],
    third: &[u8],
) -> ArrayVec<u8, CAP>
    requires few { length first.now + length second.now + length third.now ≤ 481 }
    requires room { length first.now + length second.now + length third.now + 30 ≤ CAP }
    ensures { result.items ≡ datagram_bytes key.now head (first.now ++ second.now ++ third.now) }
{
    let mut out = head_text(head);
    push_all(&mut out, first);
    push_all(&mut out, second);
    push_all(&mut out, third);
    let tag = tag(key, &out);
    push_all(&mut out, &tag);
    out
}
