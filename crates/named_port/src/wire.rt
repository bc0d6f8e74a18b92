//! Datagrams of one token: numbered ones from named ones, and the other way.

ghost use Rattle.std.specs.Option.{option_map};
ghost use Rattle.std.specs.Prelude.{◌≡◌, ◌+◌, ◌≤◌, ◌++◌, Some, IfSome, length, take, true};
ghost use Rattle.arrayvec.specs.ArrayVec.{array_vec_len};
ghost use Rattle.vote_wire.specs.Body as body_spec;
ghost use Rattle.vote_wire.specs.Bytes as bytes_spec;
ghost use Rattle.named_wire.specs.Head.{kind_byte, kind_of};
ghost use Rattle.named_port.specs.Wire as spec;

use crate::names::Names;
use arrayvec::ArrayVec;
use named_wire::{Head, Kind, write_parts};
use token_names::{NAME_LEN, Name};
use vote_wire::ClusterKey;

/// The maximum length of a numbered datagram, in bytes.
pub const MAX_NUMBERED_LEN: usize = 59;

/// The maximum length of a named datagram of one token, in bytes.
pub const MAX_NAMED_LEN: usize = 71;

/// The length of a tag, in bytes.
const TAG_LEN: usize = 16;

/// The tag of a numbered datagram: that of all bytes under the bare key.
const BARE_TAG: [u8; TAG_LEN] = [0; TAG_LEN];

/// The number of bytes before the fields of a numbered datagram.
const NUMBERED_HEAD_LEN: usize = 10;

/// The minimum number of bytes of fields.
const MIN_FIELDS_LEN: usize = 8;

/// The number of bytes of the fields of a numbered vote: an Ask or a Grant.
const VOTE_LEN: usize = 33;

/// The number of bytes of the fields of a named vote.
const PACKED_VOTE_LEN: usize = 25;

/// The maximum number of bytes of the fields of another datagram of one token.
const MAX_SHORT_LEN: usize = 25;

/// Returns the kind of a byte of a datagram of one token, or None.
fn token_kind_of(byte: u8) -> Option<Kind>
    ensures { result ≡ spec.token_kind_of (kind_of byte) }
{
    match byte {
        1 => Some(Kind::Ask),
        2 => Some(Kind::Grant),
        3 => Some(Kind::Deny),
        4 => Some(Kind::Floor),
        _ => None,
    }
}

/// Returns whether the datagrams of a kind are of one token.
pub(crate) fn is_of_one_token(kind: Kind) -> bool
    ensures { result ≡ spec.is_of_one_token kind }
{
    match kind {
        Kind::Ask | Kind::Grant | Kind::Deny | Kind::Floor => true,
        Kind::Floors => false,
    }
}

/// Returns whether the bytes before a tag are of a numbered datagram.
fn is_numbered(front: &[u8]) -> bool
    ensures is { result ≡ spec.is_numbered front.now }
    ensures len { result ≡ true → 18 ≤ length front.now }
{
    if front.len() < NUMBERED_HEAD_LEN + MIN_FIELDS_LEN {
        return false;
    }
    front[0] == b'O' && front[1] == b'V' && front[2] == 2
}

/// Returns the number of the token of a numbered datagram.
fn token_at(front: &[u8]) -> u32
    requires { 10 ≤ length front.now }
    ensures { result ≡ bytes_spec.word_at front.now 6 }
{
    let field = &front[6..];
    u32::from_be_bytes([field[0], field[1], field[2], field[3]])
}

/// Returns the name at the beginning of a body.
fn name_at(body: &[u8]) -> Name
    requires { 16 ≤ length body.now }
    ensures { result ≡ take 16 body.now }
{
    let mut bytes = [0; NAME_LEN];
    bytes.copy_from_slice(&body[..NAME_LEN]);
    Name::new(bytes)
}

/// Returns the number of the eight bytes from `place` on.
fn number_at(bytes: &[u8], place: usize) -> u64
    requires { place + 8 ≤ length bytes.now }
    ensures { result ≡ bytes_spec.number_at bytes.now place }
{
    let field = &bytes[place..];
    u64::from_be_bytes([
        field[0], field[1], field[2], field[3], field[4], field[5], field[6], field[7],
    ])
}

/// Returns whether two numbers are the first and the last factor of a span.
fn is_span(first: u64, last: u64) -> bool
    ensures { result ≡ spec.is_span first last }
{
    first <= last && last - first <= 1
}

/// Returns the packed fields of a vote in two parts, or None if the fields are no vote for a proposal of `node`.
fn packed_vote(node: u8, fields: &[u8]) -> Option<(&[u8], &[u8])>
    ensures parts { option_map (λ parts. parts.0.now ++ parts.1.now) result ≡ spec.packed_vote node fields.now }
    ensures len { IfSome result (λ parts. length parts.0.now + length parts.1.now ≤ 25) }
{
    if fields.len() != VOTE_LEN || fields[0] != node {
        return None;
    }
    if !is_span(number_at(fields, 17), number_at(fields, 25)) {
        return None;
    }
    Some((&fields[1..25], &fields[32..]))
}

/// Returns the fields in two parts, or None if they are too long.
fn short_fields(fields: &[u8]) -> Option<(&[u8], &[u8])>
    ensures parts { option_map (λ parts. parts.0.now ++ parts.1.now) result ≡ spec.short_fields fields.now }
    ensures len { IfSome result (λ parts. length parts.0.now + length parts.1.now ≤ 25) }
{
    if fields.len() > MAX_SHORT_LEN {
        return None;
    }
    Some(fields.split_at(0))
}

/// Returns the packed fields of a datagram of a kind in two parts, or None.
fn packed(kind: Kind, from: u8, to: u8, fields: &[u8]) -> Option<(&[u8], &[u8])>
    ensures parts { option_map (λ parts. parts.0.now ++ parts.1.now) result ≡ spec.packed kind from to fields.now }
    ensures len { IfSome result (λ parts. length parts.0.now + length parts.1.now ≤ 25) }
{
    match kind {
        Kind::Ask => packed_vote(from, fields),
        Kind::Grant => packed_vote(to, fields),
        Kind::Deny | Kind::Floor => short_fields(fields),
        Kind::Floors => None,
    }
}

/// Returns the named datagram for the bytes before the tag of a numbered one, from the node in `boot`, or None.
#[tactic(auto, unfolding(crate::specs::Wire::named_of))]
fn named_of(
    key: &ClusterKey,
    names: &Names,
    boot: u64,
    front: &[u8],
) -> Option<ArrayVec<u8, MAX_NAMED_LEN>>
    ensures { option_map (λ out. out.items) result ≡ spec.named_of key.now names.now boot front.now }
{
    if !is_numbered(front) {
        return None;
    }
    let kind = token_kind_of(front[3])?;
    let name = names.name(token_at(front))?;
    let (from, to) = (front[4], front[5]);
    let (first, second) = packed(kind, from, to, &front[NUMBERED_HEAD_LEN..])?;
    let head = Head {
        kind,
        from,
        to,
        boot,
    };
    Some(write_parts(key, head, &name.bytes(), first, second))
}

/// Returns the named datagram under `key` of a numbered one, from the node in `boot`.
///
/// Returns None if the book has no token with the number, or if `bytes` are no datagram of one token of version 2 or a
/// vote of another node. It doesn't look at their tag.
pub fn named(
    key: &ClusterKey,
    names: &Names,
    boot: u64,
    bytes: &[u8],
) -> Option<ArrayVec<u8, MAX_NAMED_LEN>>
    ensures { option_map (λ out. out.items) result ≡ spec.named_at key.now names.now boot bytes.now }
{
    let len = bytes.len().checked_sub(TAG_LEN)?;
    named_of(key, names, boot, &bytes[..len])
}

/// Appends `bytes`.
fn push_all(out: &mut ArrayVec<u8, MAX_NUMBERED_LEN>, bytes: &[u8])
    requires { array_vec_len out.old + length bytes.now ≤ 59 }
    ensures items { out.new.items ≡ out.old.items ++ bytes.now }
    ensures len { array_vec_len out.new ≡ array_vec_len out.old + length bytes.now }
{
    let _ = out.try_extend_from_slice(bytes);
}

/// Returns the bytes of a numbered datagram before its fields.
fn numbered_head(head: Head, number: u32) -> ArrayVec<u8, MAX_NUMBERED_LEN>
    ensures items { result.items ≡ body_spec.head_bytes (kind_byte head.kind) head.from head.to number }
    ensures len { array_vec_len result ≡ 10 }
{
    let mut out = ArrayVec::new();
    push_all(
        &mut out,
        &[b'O', b'V', 2, head.kind.byte(), head.from, head.to],
    );
    push_all(&mut out, &number.to_be_bytes());
    out
}

/// Returns the last factor of a span that begins with `first`, by the low byte of the last factor, or None.
pub fn last_factor(first: u64, low: u8) -> Option<u64>
    ensures { result ≡ spec.last_factor first low }
{
    if u64::from(low) == first % 256 {
        return Some(first);
    }
    let last = first.checked_add(1)?;
    if u64::from(low) == last % 256 {
        return Some(last);
    }
    None
}

/// Returns the numbered datagram of a vote for a proposal of `node` from the packed fields, or None.
fn numbered_vote(
    head: Head,
    node: u8,
    number: u32,
    fields: &[u8],
) -> Option<ArrayVec<u8, MAX_NUMBERED_LEN>>
    ensures { option_map (λ out. out.items) result
        ≡ spec.with_number head (spec.unpacked_vote node fields.now) (Some number) }
{
    if fields.len() != PACKED_VOTE_LEN {
        return None;
    }
    let last = last_factor(number_at(fields, 16), fields[24])?;
    let mut out = numbered_head(head, number);
    push_all(&mut out, &[node]);
    push_all(&mut out, &fields[..24]);
    push_all(&mut out, &last.to_be_bytes());
    push_all(&mut out, &BARE_TAG);
    Some(out)
}

/// Returns the numbered datagram with the fields, or None if they are too long.
fn numbered_short(head: Head, number: u32, fields: &[u8]) -> Option<ArrayVec<u8, MAX_NUMBERED_LEN>>
    ensures { option_map (λ out. out.items) result
        ≡ spec.with_number head (spec.short_fields fields.now) (Some number) }
{
    if fields.len() > MAX_SHORT_LEN {
        return None;
    }
    let mut out = numbered_head(head, number);
    push_all(&mut out, fields);
    push_all(&mut out, &BARE_TAG);
    Some(out)
}

/// Returns the numbered datagram of a head with the number of a token, from the packed fields, or None.
fn numbered_with(head: Head, number: u32, fields: &[u8]) -> Option<ArrayVec<u8, MAX_NUMBERED_LEN>>
    ensures { option_map (λ out. out.items) result
        ≡ spec.with_number head (spec.unpacked head.kind head.from head.to fields.now) (Some number) }
{
    match head.kind {
        Kind::Ask => numbered_vote(head, head.from, number, fields),
        Kind::Grant => numbered_vote(head, head.to, number, fields),
        Kind::Deny | Kind::Floor => numbered_short(head, number, fields),
        Kind::Floors => None,
    }
}

/// Returns the numbered datagram under the bare key for the head and the body of a named one.
///
/// Returns None if the book has no token with the name, if the datagram is of several tokens, or if it is a vote whose
/// last factor is neither its first one nor the one after it.
#[tactic(auto, unfolding(crate::specs::Wire::numbered_of))]
pub fn numbered(names: &Names, head: Head, body: &[u8]) -> Option<ArrayVec<u8, MAX_NUMBERED_LEN>>
    ensures { option_map (λ out. out.items) result ≡ spec.numbered_of names.now head body.now }
{
    if !is_of_one_token(head.kind) || body.len() < NAME_LEN + MIN_FIELDS_LEN {
        return None;
    }
    let number = names.number(name_at(body))?;
    numbered_with(head, number, &body[NAME_LEN..])
}
