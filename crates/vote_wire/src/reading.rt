//! Reading of peers' datagrams. Floor: the first free factor of a token.

ghost use Rattle.std.specs.Prelude.{◌≡◌, ◌+◌, ◌≤◌, length, ℕ, IfSome, IfNone};
ghost use Rattle.vote_core.specs.declared.message.Message.{Message};
ghost use Rattle.vote_wire.specs.Body as spec;
ghost use Rattle.vote_wire.specs.Datagram.{IsDatagramOf, IsTagged, body_of, datagram_at};

use crate::bytes::{number_at, word_at};
use crate::key::{ClusterKey, TAG_LEN, are_equal, tag};
use crate::writing::{MARK, VERSION};
use floor_store::{Proposal, Span};
use otp_core::{Factor, MAX_MEMBERS, MAX_TOKENS, Next};
use vote_core::Message;

/// The minimum number of bytes before a tag.
const MIN_BODY_LEN: usize = 18;

/// Returns whether `body` begins with the mark, and the version follows.
fn has_head(body: &[u8]) -> bool
    requires { 3 ≤ length body.now }
    ensures { result ≡ spec.has_head body.now }
{
    body[0] == MARK[0] && body[1] == MARK[1] && body[2] == VERSION
}

/// Returns whether the numbers may be the ends and the token of a message.
fn has_ends(from: u8, to: u8, token: u32) -> bool
    ensures { result ≡ spec.has_ends from to token }
{
    1 <= from
        && from <= MAX_MEMBERS
        && 1 <= to
        && to <= MAX_MEMBERS
        && from != to
        && (token as usize) < MAX_TOKENS
}

/// Returns the proposal, or None if one of its numbers is out of range.
#[tactic(auto, unfolding(crate::specs::Body::proposal_at))]
fn proposal_at(body: &[u8]) -> Option<Proposal>
    requires { 27 ≤ length body.now }
    ensures { result ≡ spec.proposal_at body.now }
{
    Proposal::new(body[10], number_at(body, 11), number_at(body, 19))
}

/// Returns the factor at `place`, or None if it is out of range.
#[tactic(auto, unfolding(crate::specs::Body::factor_at))]
fn factor_at(body: &[u8], place: usize) -> Option<Factor>
    requires { place + 8 ≤ length body.now }
    ensures { result ≡ spec.factor_at body.now place }
{
    Factor::new(number_at(body, place))
}

/// Returns the floor at `place`, or None if it is out of range.
#[tactic(auto, unfolding(crate::specs::Body::next_at))]
fn next_at(body: &[u8], place: usize) -> Option<Next>
    requires { place + 8 ≤ length body.now }
    ensures { result ≡ spec.next_at body.now place }
{
    Next::new(number_at(body, place))
}

/// Returns a proposal of `node` and its span, or None.
#[tactic(auto, unfolding(crate::specs::Body::vote_at))]
fn vote_at(body: &[u8], node: u8) -> Option<(Proposal, Span)>
    ensures { result ≡ spec.vote_at body.now node }
{
    if body.len() != 43 {
        return None;
    }
    let proposal = proposal_at(body)?;
    let span = Span::new(factor_at(body, 27)?, factor_at(body, 35)?)?;
    if proposal.node() == node {
        Some((proposal, span))
    } else {
        None
    }
}

/// Returns a proposal of `node` and a floor, or None.
#[tactic(auto, unfolding(crate::specs::Body::denial_at))]
fn denial_at(body: &[u8], node: u8) -> Option<(Proposal, Next)>
    ensures { result ≡ spec.denial_at body.now node }
{
    if body.len() != 35 {
        return None;
    }
    let proposal = proposal_at(body)?;
    let next = next_at(body, 27)?;
    if proposal.node() == node {
        Some((proposal, next))
    } else {
        None
    }
}

/// Returns the floor of a message of it alone, or None.
#[tactic(auto, unfolding(crate::specs::Body::floor_at))]
fn floor_at(body: &[u8]) -> Option<Next>
    ensures { result ≡ spec.floor_at body.now }
{
    if body.len() != 18 {
        return None;
    }
    next_at(body, 10)
}

/// Returns the message of the body's kind, or None.
#[tactic(auto, unfolding(crate::specs::Body::message_at))]
fn message_at(body: &[u8], from: u8, to: u8, token: u32) -> Option<Message>
    requires { 4 ≤ length body.now }
    ensures { result ≡ spec.message_at body.now from to token }
{
    let kind = body[3];
    if kind == 1 {
        let (proposal, span) = vote_at(body, from)?;
        Some(Message::Ask {
            proposal,
            token,
            span,
        })
    } else if kind == 2 {
        let (proposal, span) = vote_at(body, to)?;
        Some(Message::Grant {
            proposal,
            token,
            span,
        })
    } else if kind == 3 {
        let (proposal, next) = denial_at(body, to)?;
        Some(Message::Deny {
            proposal,
            token,
            next,
        })
    } else if kind == 4 {
        let next = floor_at(body)?;
        Some(Message::Floor { token, next })
    } else {
        None
    }
}

/// Returns the sender, the receiver and the message of the bytes before the tag, or None.
#[tactic(auto, unfolding(crate::specs::Body::body_at))]
fn body_at(body: &[u8]) -> Option<(u8, u8, Message)>
    ensures { result ≡ spec.body_at body.now }
{
    if body.len() < MIN_BODY_LEN || !has_head(body) {
        return None;
    }
    let from = body[4];
    let to = body[5];
    let token = word_at(body, 6);
    if !has_ends(from, to, token) {
        return None;
    }
    let message = message_at(body, from, to, token)?;
    Some((from, to, message))
}

/// Returns the bytes before the tag, or None if the tag is not theirs.
fn tagged_body<'a>(key: &ClusterKey, bytes: &'a [u8]) -> Option<&'a [u8]>
    ensures some { IfSome result (λ body. IsTagged key.now bytes.now × (body.now ≡ body_of bytes.now)) }
    ensures none { IfNone result (IsTagged key.now bytes.now → ⊥) }
{
    let (body, last) = bytes.split_at_checked(bytes.len().checked_sub(TAG_LEN)?)?;
    let last: &[u8; TAG_LEN] = last.try_into().ok()?;
    if are_equal(last, &tag(key, body)) {
        Some(body)
    } else {
        None
    }
}

/// Returns the sender, the receiver and the message of a datagram, or None.
///
/// None says that `bytes` are not in the format, or that their tag is wrong under `key`.
pub fn read_message(key: &ClusterKey, bytes: &[u8]) -> Option<(u8, u8, Message)>
    // Every datagram that is read is in the format.
    ensures some { IfSome result (λ read. IsDatagramOf key.now bytes.now read.0 read.1 read.2) }
    // Every datagram in the format is read.
    ensures none { IfNone result
        ((from to : ℕ) (message : Message) → IsDatagramOf key.now bytes.now from to message → ⊥) }
    // The reader as a function.
    ensures exact { result ≡ datagram_at key.now bytes.now }
{
    body_at(tagged_body(key, bytes)?)
}
