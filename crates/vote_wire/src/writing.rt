//! Writing of peers' datagrams. Floor: the first free factor of a token.

ghost use Rattle.std.specs.Prelude.{◌≡◌, ◌+◌, ◌≤◌, ◌++◌, length};
ghost use Rattle.std.specs.Int.{w64, to_be_bytes};
ghost use Rattle.arrayvec.specs.ArrayVec.{array_vec_len};
ghost use Rattle.vote_wire.specs.Body.{body_bytes, head_bytes, proposal_bytes, vote_bytes};
ghost use Rattle.vote_wire.specs.Datagram.{datagram_bytes};

use crate::key::{ClusterKey, tag};
use arrayvec::ArrayVec;
use client_lines::MAX_ANSWER_LEN;
use floor_store::{Proposal, Span};
use otp_core::Next;
use vote_core::Message;

/// The capacity for a datagram that a node sends, in bytes. A datagram to a peer has at most 59, an answer at most 54.
pub const MAX_SENT_LEN: usize = MAX_ANSWER_LEN;

/// The first bytes of a datagram.
pub(crate) const MARK: [u8; 2] = *b"OV";

/// The version of the format.
pub(crate) const VERSION: u8 = 2;

/// Appends `bytes`.
fn push_all(out: &mut ArrayVec<u8, MAX_SENT_LEN>, bytes: &[u8])
    requires { array_vec_len out.old + length bytes.now ≤ 64 }
    ensures { out.new.items ≡ out.old.items ++ bytes.now }
{
    let _ = out.try_extend_from_slice(bytes);
}

/// Appends `number`, its high-order byte first.
fn push_number(out: &mut ArrayVec<u8, MAX_SENT_LEN>, number: u64)
    requires { array_vec_len out.old + 8 ≤ 64 }
    ensures { out.new.items ≡ out.old.items ++ to_be_bytes w64 number }
{
    push_all(out, &number.to_be_bytes());
}

/// Returns the mark, the version, the kind, the two ends and the token.
fn head(kind: u8, from: u8, to: u8, token: u32) -> ArrayVec<u8, MAX_SENT_LEN>
    ensures { result.items ≡ head_bytes kind from to token }
{
    let mut out = ArrayVec::new();
    push_all(&mut out, &MARK);
    push_all(&mut out, &[VERSION, kind, from, to]);
    push_all(&mut out, &token.to_be_bytes());
    out
}

/// Appends the node, the boot and the number of a proposal.
fn push_proposal(out: &mut ArrayVec<u8, MAX_SENT_LEN>, proposal: Proposal)
    requires { array_vec_len out.old + 17 ≤ 64 }
    ensures { out.new.items ≡ out.old.items ++ proposal_bytes proposal }
{
    push_all(out, &[proposal.node()]);
    push_number(out, proposal.boot());
    push_number(out, proposal.seq());
}

/// Returns the head `out` followed by a proposal and its span.
fn with_vote(
    mut out: ArrayVec<u8, MAX_SENT_LEN>,
    proposal: Proposal,
    span: Span,
) -> ArrayVec<u8, MAX_SENT_LEN>
    requires { array_vec_len out ≡ 10 }
    ensures { result.items ≡ out.items ++ vote_bytes proposal span }
{
    push_proposal(&mut out, proposal);
    push_number(&mut out, span.lo().value());
    push_number(&mut out, span.hi().value());
    out
}

/// Returns the head `out` followed by a proposal and a floor.
fn with_denial(
    mut out: ArrayVec<u8, MAX_SENT_LEN>,
    proposal: Proposal,
    next: Next,
) -> ArrayVec<u8, MAX_SENT_LEN>
    requires { array_vec_len out ≡ 10 }
    ensures { result.items ≡ out.items ++ proposal_bytes proposal ++ to_be_bytes w64 next }
{
    push_proposal(&mut out, proposal);
    push_number(&mut out, next.value());
    out
}

/// Returns the head `out` followed by a floor.
fn with_floor(mut out: ArrayVec<u8, MAX_SENT_LEN>, next: Next) -> ArrayVec<u8, MAX_SENT_LEN>
    requires { array_vec_len out ≡ 10 }
    ensures { result.items ≡ out.items ++ to_be_bytes w64 next }
{
    push_number(&mut out, next.value());
    out
}

/// Returns the bytes before the tag.
fn body(from: u8, to: u8, message: &Message) -> ArrayVec<u8, MAX_SENT_LEN>
    ensures bytes { result.items ≡ body_bytes from to message.now }
    ensures len { array_vec_len result ≤ 43 }
{
    match *message {
        Message::Ask {
            proposal,
            token,
            span,
        } => with_vote(head(1, from, to, token), proposal, span),
        Message::Grant {
            proposal,
            token,
            span,
        } => with_vote(head(2, from, to, token), proposal, span),
        Message::Deny {
            proposal,
            token,
            next,
        } => with_denial(head(3, from, to, token), proposal, next),
        Message::Floor { token, next } => with_floor(head(4, from, to, token), next),
    }
}

/// Returns the datagram that carries `message` from the node `from` to the node `to`, under the cluster's key.
#[tactic(auto, unfolding(crate::specs::Datagram::datagram_bytes))]
pub fn write_message(
    key: &ClusterKey,
    from: u8,
    to: u8,
    message: &Message,
) -> ArrayVec<u8, MAX_SENT_LEN>
    ensures { result.items ≡ datagram_bytes key.now from to message.now }
{
    let mut out = body(from, to, message);
    let tag = tag(key, &out);
    push_all(&mut out, &tag);
    out
}
