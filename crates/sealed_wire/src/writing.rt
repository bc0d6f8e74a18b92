//! Writing of sealed datagrams.

ghost use Rattle.std.specs.Prelude.{◌≡◌, ◌+◌, ◌≤◌, ◌++◌, length};
ghost use Rattle.arrayvec.specs.ArrayVec.{array_vec_len};
ghost use Rattle.sealed_wire.specs.Body.{body_bytes, head_bytes};
ghost use Rattle.sealed_wire.specs.Key.{tag_of};
ghost use Rattle.sealed_wire.specs.Report.{report_head};
ghost use Rattle.sealed_wire.specs.Sealed.{sealed_bytes};

use crate::head::{Head, Kind};
use crate::key::{ClientKey, TAG_LEN, tag};
use arrayvec::ArrayVec;

/// The maximum length of the text of a sealed datagram, in bytes.
pub const MAX_TEXT_LEN: usize = 256;

/// The maximum length of a sealed datagram that is no report, in bytes.
pub const MAX_SEALED_LEN: usize = 303;

/// The maximum length of the text of a report, in bytes.
pub const MAX_REPORT_TEXT_LEN: usize = 1024;

/// The maximum length of a sealed report, in bytes.
pub const MAX_REPORT_LEN: usize = 1071;

/// The first bytes of a sealed datagram.
pub(crate) const MARK: [u8; 2] = *b"OS";

/// The version of the format.
pub(crate) const VERSION: u8 = 1;

/// Appends `bytes`.
fn push_all<const CAP: usize>(out: &mut ArrayVec<u8, CAP>, bytes: &[u8])
    requires { array_vec_len out.old + length bytes.now ≤ CAP }
    ensures { out.new.items ≡ out.old.items ++ bytes.now }
{
    let _ = out.try_extend_from_slice(bytes);
}

/// Returns the head as bytes.
fn head_bytes<const CAP: usize>(head: Head) -> ArrayVec<u8, CAP>
    requires { 15 ≤ CAP }
    ensures bytes { result.items ≡ head_bytes head }
    ensures len { array_vec_len result ≡ 15 }
{
    let mut out = ArrayVec::new();
    push_all(&mut out, &MARK);
    push_all(&mut out, &[VERSION, head.kind.byte()]);
    push_all(&mut out, &head.client.to_be_bytes());
    push_all(&mut out, &[head.node]);
    push_all(&mut out, &head.moment.to_be_bytes());
    out
}

/// Returns the tag of `body` followed by the bytes `bound`.
pub(crate) fn bound_tag(key: &ClientKey, body: &[u8], bound: &[u8]) -> [u8; TAG_LEN]
    requires body { length body.now ≤ 1039 }
    requires bound { length bound.now ≤ 32 }
    ensures { result ≡ tag_of key.now (body.now ++ bound.now) }
{
    let mut tagged = ArrayVec::<u8, MAX_REPORT_LEN>::new();
    push_all(&mut tagged, body);
    push_all(&mut tagged, bound);
    tag(key, &tagged)
}

/// Returns the datagram of a head and a text, under a client's key and with bound bytes.
#[tactic(auto, unfolding(crate::specs::Sealed::sealed_bytes))]
fn seal_within<const CAP: usize>(
    key: &ClientKey,
    bound: &[u8],
    head: Head,
    text: &[u8],
) -> ArrayVec<u8, CAP>
    requires text { length text.now ≤ 1024 }
    requires room { length text.now + 47 ≤ CAP }
    requires bound { length bound.now ≤ 32 }
    ensures { result.items ≡ sealed_bytes key.now bound.now head text.now }
{
    let mut out = head_bytes(head);
    push_all(&mut out, text);
    let tag = bound_tag(key, &out, bound);
    push_all(&mut out, &tag);
    out
}

/// Returns the datagram of a head and a text of at most 256 bytes, under a client's key.
///
/// `bound` is empty for a line, and the line's tag for an answer.
pub fn seal(key: &ClientKey, bound: &[u8], head: Head, text: &[u8]) -> ArrayVec<u8, MAX_SEALED_LEN>
    requires text { length text.now ≤ 256 }
    requires bound { length bound.now ≤ 32 }
    ensures { result.items ≡ sealed_bytes key.now bound.now head text.now }
{
    seal_within(key, bound, head, text)
}

/// Returns the report on a request with the head `request` and the tag `tag`: a text of at most 1,024 bytes, under the
/// operator's key.
///
/// The report repeats the request's head, and its tag covers the request's tag.
pub fn seal_report(
    key: &ClientKey,
    tag: &[u8; TAG_LEN],
    request: Head,
    text: &[u8],
) -> ArrayVec<u8, MAX_REPORT_LEN>
    requires { length text.now ≤ 1024 }
    ensures { result.items ≡ sealed_bytes key.now tag.now (report_head request) text.now }
{
    let head = Head {
        kind: Kind::Report,
        ..request
    };
    seal_within(key, tag, head, text)
}
