//! Reading of sealed datagrams.

ghost use Rattle.std.specs.Option.{option_map};
ghost use Rattle.std.specs.Prelude.{◌≡◌, ◌≤◌, length, IfNone, IfSome, ℕ, List};
ghost use Rattle.sealed_wire.specs.Body as spec;
ghost use Rattle.sealed_wire.specs.Report.{is_report, report_at, report_head_at};
ghost use Rattle.sealed_wire.specs.Sealed.{IsTagged, body_of, client_of, head_of, sealed_at, tag_at};

use crate::bytes::{half_at, number_at};
use crate::head::{Head, Kind};
use crate::key::{ClientKey, TAG_LEN, are_equal};
use crate::writing::{MARK, MAX_REPORT_LEN, MAX_SEALED_LEN, VERSION, bound_tag};

/// The length of a head, in bytes.
const HEAD_LEN: usize = 15;

/// The maximum number of bytes before the tag of a datagram that is no report.
const MAX_BODY_LEN: usize = 271;

/// The maximum number of bytes before a report's tag.
const MAX_REPORT_BODY_LEN: usize = 1039;

/// Returns whether `body` begins with the mark, and the version follows.
fn has_mark(body: &[u8]) -> bool
    requires { 3 ≤ length body.now }
    ensures { result ≡ spec.has_mark body.now }
{
    body[0] == MARK[0] && body[1] == MARK[1] && body[2] == VERSION
}

/// Returns the head of the bytes before a tag, or None. There are at most `most` of them.
fn head_within(most: usize, body: &[u8]) -> Option<Head>
    ensures head { result ≡ spec.head_within most body.now }
    ensures len { IfSome result (λ head. (15 ≤ length body.now) × (length body.now ≤ most)) }
{
    if body.len() < HEAD_LEN || body.len() > most || !has_mark(body) {
        return None;
    }
    let kind = Kind::of(body[3])?;
    Some(Head {
        kind,
        client: half_at(body, 4),
        node: body[6],
        moment: number_at(body, 7),
    })
}

/// Returns the head of the bytes before the tag of a datagram that is no report, or None.
#[tactic(auto, unfolding(crate::specs::Body::head_at))]
fn head_at(body: &[u8]) -> Option<Head>
    ensures head { result ≡ spec.head_at body.now }
    ensures len { IfSome result (λ head. (15 ≤ length body.now) × (length body.now ≤ 271)) }
{
    head_within(MAX_BODY_LEN, body)
}

/// Returns whether a datagram is a report.
fn is_report(kind: Kind) -> bool
    ensures { result ≡ is_report kind }
{
    match kind {
        Kind::Report => true,
        Kind::Line | Kind::Answer | Kind::Request => false,
    }
}

/// Returns the head of the bytes before a report's tag, or None.
#[tactic(auto, unfolding(crate::specs::Report::report_head_at))]
fn report_head_at(body: &[u8]) -> Option<Head>
    ensures head { result ≡ report_head_at body.now }
    ensures len { IfSome result (λ head. (15 ≤ length body.now) × (length body.now ≤ 1039)) }
{
    let head = head_within(MAX_REPORT_BODY_LEN, body)?;
    if !is_report(head.kind) {
        return None;
    }
    Some(head)
}

/// Returns the bytes before the tag, or None if the tag is not theirs with `bound`.
///
/// Returns None too if the datagram has more than `most` bytes.
fn tagged_body<'a>(most: usize, key: &ClientKey, bound: &[u8], bytes: &'a [u8]) -> Option<&'a [u8]>
    requires most { most ≤ 1071 }
    requires bound { length bound.now ≤ 32 }
    ensures some { IfSome result (λ body. IsTagged key.now bound.now bytes.now × (body.now ≡ body_of bytes.now)) }
    ensures none { IfNone result (length bytes.now ≤ most → IsTagged key.now bound.now bytes.now → ⊥) }
{
    if bytes.len() > most {
        return None;
    }
    let (body, last) = bytes.split_at_checked(bytes.len().checked_sub(TAG_LEN)?)?;
    let last: &[u8; TAG_LEN] = last.try_into().ok()?;
    if are_equal(last, &bound_tag(key, body, bound)) {
        Some(body)
    } else {
        None
    }
}

/// Returns the client that a datagram names, under whose key its tag must be, or None if the datagram is too short.
pub fn client_of(bytes: &[u8]) -> Option<u16>
    ensures { result ≡ client_of bytes.now }
{
    if bytes.len() < HEAD_LEN + TAG_LEN {
        return None;
    }
    Some(half_at(bytes, 4))
}

/// Returns the head of a datagram, whatever its tag, or None if the datagram is not in the format.
pub fn head_of(bytes: &[u8]) -> Option<Head>
    ensures head { result ≡ head_of bytes.now }
    ensures len { IfSome result (λ head. 47 ≤ length bytes.now) }
{
    let len = bytes.len().saturating_sub(TAG_LEN);
    head_at(&bytes[..len])
}

/// Returns the head and the text of a sealed datagram under a client's key, or None.
///
/// None says that the datagram is not in the format, or that its tag is wrong. `bound` is empty for a line, and the
/// line's tag for an answer.
pub fn open<'a>(key: &ClientKey, bound: &[u8], bytes: &'a [u8]) -> Option<(Head, &'a [u8])>
    requires { length bound.now ≤ 32 }
    ensures exact { option_map (λ read. (read.0, read.1.now)) result ≡ sealed_at key.now bound.now bytes.now }
    ensures len { IfSome result (λ read. length read.1.now ≤ 256) }
{
    let body = tagged_body(MAX_SEALED_LEN, key, bound, bytes)?;
    let head = head_at(body)?;
    let (_, text) = body.split_at(HEAD_LEN);
    Some((head, text))
}

/// Returns the head and the text of a report under an operator's key, or None. `tag` is the tag of the request.
///
/// None says that the datagram is not a report in the format, or that its tag is wrong or covers another request's tag.
pub fn open_report<'a>(
    key: &ClientKey,
    tag: &[u8; TAG_LEN],
    bytes: &'a [u8],
) -> Option<(Head, &'a [u8])>
    ensures exact { option_map (λ read. (read.0, read.1.now)) result ≡ report_at key.now tag.now bytes.now }
    ensures len { IfSome result (λ read. length read.1.now ≤ 1024) }
{
    let body = tagged_body(MAX_REPORT_LEN, key, tag, bytes)?;
    let head = report_head_at(body)?;
    let (_, text) = body.split_at(HEAD_LEN);
    Some((head, text))
}
