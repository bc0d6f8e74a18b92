//! The effects of a voter's step: replies to the owners of decided proposals, and answers to keep.

ghost use Rattle.std.specs.Prelude.{◌≡◌, ◌≤◌, length, map};
ghost use Rattle.oath_node.specs.Machine.{answers_to_decisions, kept_with_all, outcome_of as spec_outcome_of, owners_of_pending, reply_with};
ghost use Rattle.oath_node.specs.Parts.{Finishes};
ghost use Rattle.vote_core.specs.State.{voter_of};

use crate::outputs::{Outputs, Reply, Scratch};
use crate::owner::{Owner, owner_with};
use answer_ring::{Answers, MAX_LINE_LEN, keep};
use arrayvec::ArrayVec;
use client_lines::{Outcome, Reason, write_reply};
use vote_core::{Decision, MAX_PENDING, TickStep, VoteStep, Voter};
use vote_wire::{ClusterKey, MAX_SENT_LEN};

/// Copies a line that waits.
pub(crate) fn line_of(bytes: &[u8]) -> ArrayVec<u8, MAX_LINE_LEN>
    requires { length bytes.now ≤ 256 }
    ensures { result.items ≡ bytes.now }
{
    let mut line = ArrayVec::new();
    let _ = line.try_extend_from_slice(bytes);
    line
}

/// Copies the bytes of an answer.
pub(crate) fn text_of(bytes: &[u8]) -> ArrayVec<u8, MAX_SENT_LEN>
    requires { length bytes.now ≤ 64 }
    ensures { result.items ≡ bytes.now }
{
    let mut text = ArrayVec::new();
    let _ = text.try_extend_from_slice(bytes);
    text
}

/// Returns the outcome that the owner of a decided proposal gets.
fn outcome_of(decision: Decision) -> Outcome
    ensures { result ≡ spec_outcome_of decision }
{
    match decision {
        Decision::Accepted(pass) => Outcome::Accepted(pass.span().hi()),
        Decision::Spent => Outcome::Refused(Reason::Spent),
        Decision::Timeout => Outcome::Refused(Reason::Timeout),
    }
}

/// Returns the replies to `decisions`, in order, and keeps them in `answers`.
fn settle<const ROOM: usize>(
    owners: &[Owner],
    decisions: &[(u64, Decision)],
    answers: &mut Answers,
) -> ArrayVec<Reply, ROOM>
    requires { length decisions.now ≤ ROOM }
    ensures replies { result.items ≡ map reply_with (answers_to_decisions owners.now decisions.now) }
    ensures answers { answers.new
        ≡ kept_with_all answers.old (answers_to_decisions owners.now decisions.now) }
{
    let mut replies = ArrayVec::new();
    for entry in decisions {
        let (seq, decision) = *entry;
        if let Some(owner) = owner_with(owners, seq) {
            let bytes = write_reply(&owner.nonce, outcome_of(decision));
            keep(
                answers,
                owner.client,
                owner.line.as_slice(),
                bytes.as_slice(),
            );
            replies.push(Reply {
                client: owner.client,
                bytes,
            });
        }
    }
    replies
}

/// Drops the owners whose proposals are decided.
fn keep_pending(owners: &mut ArrayVec<Owner, MAX_PENDING>, voter: &Voter)
    ensures { owners.new.items ≡ owners_of_pending (voter_of voter.now).pending owners.old.items }
{
    owners.retain(|owner| voter.is_pending(owner.seq))
}

/// Updates the owners and the answers after the voter's step on a proposal or a message. Returns the outputs.
pub(crate) fn finish_vote<'k>(
    key: &'k ClusterKey,
    voter: &Voter,
    owners: &mut ArrayVec<Owner, MAX_PENDING>,
    answers: &mut Answers,
    step: VoteStep,
) -> Outputs<'k>
    ensures { Finishes key.now voter.now owners.old.items answers.old step owners.new.items answers.new result }
{
    let replies = settle(owners.as_slice(), step.decisions.as_slice(), answers);
    keep_pending(owners, voter);
    Outputs::of_vote(key, voter.place().me(), step, replies)
}

/// Updates the owners and the answers after the voter's step on a tick. Returns the outputs.
pub(crate) fn finish_tick<'k>(
    key: &'k ClusterKey,
    voter: &Voter,
    owners: &mut ArrayVec<Owner, MAX_PENDING>,
    answers: &mut Answers,
    step: TickStep,
    scratch: &'k mut Scratch,
) -> Outputs<'k>
    ensures { Finishes key.now voter.now owners.old.items answers.old step owners.new.items answers.new result }
{
    let replies = settle(owners.as_slice(), step.decisions.as_slice(), answers);
    keep_pending(owners, voter);
    Outputs::of_tick(key, voter.place().me(), step, replies, scratch)
}
