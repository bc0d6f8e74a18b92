//! A member's voter, which changes its store by its own proposals and the messages of the others.
//!
//! Floor: the first free factor of a token at a node.

ghost use Rattle.std.specs.List.{list_any};
ghost use Rattle.std.specs.Prelude.{◌≡◌, ◌<◌, ◌≤◌, ◌^◌, ◌==◌, ◌↔◌, Err, length, IfOk, IsFalse, IsTrue};
ghost use Rattle.floor_store.specs.Held.{RaisesBoot};
ghost use Rattle.floor_store.specs.Range.{IsCount};
ghost use Rattle.vote_core.specs.declared.fault.VoteFault.{VoteFault};
ghost use Rattle.vote_core.specs.Calls.{FitsVote, FitsVoter, IsOther, IsStoreOf, UnlessSpent, Votes};
ghost use Rattle.vote_core.specs.Rows.{row as row_in};
ghost use Rattle.vote_core.specs.State.{VoterRecord, voter_of};
ghost use Rattle.vote_core.specs.Voting.{fresh_voter, on_message as spec_on_message, propose as spec_propose, tick as spec_tick};

use crate::ballot::Ballot;
use crate::ballots::MAX_PENDING;
use crate::fault::VoteFault;
use crate::message::Message;
use crate::place::Place;
use crate::step::{TickStep, VoteStep};
use arrayvec::ArrayVec;
use floor_store::{COUNTS_END, FloorStore, Proposal, Span, StoreFault};
use otp_core::Drift;
use std::marker::Model;

mod hearing;
mod proposing;
mod rows;
mod ticking;

/// A member's part in the votes, over a store of its own.
#[derive(Drop)]
pub struct Voter {
    place: Place,
    tokens: u32,
    boot: u64,
    ballots: ArrayVec<Ballot, MAX_PENDING>,
    seq: u64,
    turn: u32,
}

impl Model for Voter {
    ghost use Rattle.vote_core.specs.State.{IsVoter, VoterRecord};

    ghost Value = { VoterRecord };

    ghost view = { λ v. record {
      place = v.place;
      tokens = v.tokens;
      boot = v.boot;
      ballots = v.ballots.items;
      seq = v.seq;
      turn = v.turn;
    } };

    ghost invariant = { λ v. IsVoter (record {
      place = v.place;
      tokens = v.tokens;
      boot = v.boot;
      ballots = v.ballots.items;
      seq = v.seq;
      turn = v.turn;
    }) };
}

impl Voter {
    /// Opens a voter in a new boot. No proposal is pending, and the next tick tells the floor of token 0.
    ///
    /// The store has a row for each token of the server, of which there are at most 10,000.
    pub fn open<S: FloorStore>(store: &mut S, place: Place) -> Result<Voter, StoreFault>
        requires tokens { length (S.held store.old).content.rows ≤ 10000 }
        ensures opened { IfOk result (λ voter. voter_of voter ≡ fresh_voter) }
        ensures place { IfOk result (λ voter. voter.place ≡ place) }
        ensures store { IfOk result (λ voter. IsStoreOf voter (S.held store.new)) }
        ensures raises { RaisesBoot S.held store.old store.new result }
    {
        let boot = store.raise_boot()?;
        Ok(Voter {
            place,
            tokens: store.tokens(),
            boot,
            ballots: ArrayVec::new(),
            seq: 0,
            turn: 0,
        })
    }

    /// Returns the node's place among the members.
    pub fn place(&self) -> Place
        ensures { result ≡ self.now.place }
    {
        self.place
    }

    /// Returns the boot that the voter was opened with.
    pub fn boot(&self) -> u64
        ensures value { result ≡ self.now.boot }
        ensures range { IsCount result }
    {
        self.boot
    }

    /// Returns the number of tokens that the store had when the voter was opened.
    pub fn tokens(&self) -> u32
        ensures value { result ≡ self.now.tokens }
        ensures range { result ≤ 10000 }
    {
        self.tokens
    }

    /// Returns whether `message` from the node `from` may go to [`Voter::on_message`].
    ///
    /// It must come from another member and be about an existing token. An Ask must be of a proposal of the sender. A
    /// Grant or a Deny must be of a proposal of this node.
    pub fn fits(&self, from: u8, message: &Message) -> bool
        ensures { IsTrue result
            ↔ (IsOther self.now.place from × FitsVoter self.now.place self.now.tokens from message.now) }
    {
        let is_other = 1 <= from && from <= self.place.n() && from != self.place.me();
        is_other && fits_tokens(self.place, self.tokens, from, *message)
    }

    /// Returns the number of the next proposal, from 0 to 2^62. At 2^62 no number is left.
    pub fn next_seq(&self) -> u64
        ensures value { result ≡ self.now.seq }
        ensures range { result ≤ 2 ^ 62 }
    {
        self.seq
    }

    /// Returns whether the proposal with the number `seq` is pending.
    pub fn is_pending(&self, seq: u64) -> bool
        ensures { result ≡ list_any (λ ballot. ballot.seq == seq) self.now.ballots }
    {
        self.ballots.iter().any(|ballot| ballot.seq() == seq)
    }

    /// Returns the number of pending proposals.
    pub fn pending(&self) -> usize
        ensures value { result ≡ length self.now.ballots }
        ensures range { result ≤ 32 }
    {
        self.ballots.len()
    }

    /// Returns whether `MAX_PENDING` proposals are pending, so that there is no room for another.
    pub fn is_busy(&self) -> bool
        ensures busy { IsTrue result ↔ (length self.now.ballots ≡ 32) }
        ensures room { IsFalse result → length self.now.ballots < 32 }
    {
        self.ballots.is_full()
    }

    /// Begins a proposal to use up `span`. Its acceptance keeps `drift`.
    ///
    /// The node grants the proposal and asks the others. A node alone accepts the proposal at once.
    ///
    /// # Errors
    /// - Returns `Spent` if no proposal number of this boot is left. Nothing changes.
    /// - Returns `Store` if the store fails.
    pub fn propose<S: FloorStore>(
        &mut self,
        store: &mut S,
        token: u32,
        span: Span,
        drift: Drift,
    ) -> Result<VoteStep, VoteFault>
        requires room { length self.old.ballots < 32 }
        requires known { token < length (S.held store.old).content.rows }
        requires free { (S.held store.old).is_clean → (row_in (S.held store.old).content token).next ≤ span.lo }
        requires store { IsStoreOf self.old (S.held store.old) }
        ensures votes { UnlessSpent result (Votes S.held store.old store.new self.old self.new
            (spec_propose self.old.place token span.lo span.hi drift)) }
        ensures spent { result ≡ Err VoteFault.Spent ↔ (self.old.seq ≡ 2 ^ 62) }
        ensures unchanged { result ≡ Err VoteFault.Spent → (store.new ≡ store.old) × (self.new ≡ self.old) }
    {
        if self.seq == COUNTS_END {
            return Err(VoteFault::Spent);
        }
        match self.propose_next(store, token, span, drift) {
            Ok(step) => Ok(step),
            Err(fault) => Err(VoteFault::Store(fault)),
        }
    }

    /// Takes `message`, which the member `from` sent.
    pub fn on_message<S: FloorStore>(
        &mut self,
        store: &mut S,
        from: u8,
        message: Message,
    ) -> Result<VoteStep, StoreFault>
        requires from { IsOther self.old.place from }
        requires fits { FitsVoter self.old.place self.old.tokens from message }
        requires store { IsStoreOf self.old (S.held store.old) }
        ensures { Votes S.held store.old store.new self.old self.new
            (spec_on_message self.old.place from message) result }
    {
        // For the proof: there are at most nine members, so the sender has a bit.
        let _members = self.place.n();
        self.hear(store, from, message)
    }

    /// Makes each pending proposal a tick older. Asks the others again, and tells them the floor of one token.
    pub fn tick<S: FloorStore>(&mut self, store: &mut S) -> Result<TickStep, StoreFault>
        requires { IsStoreOf self.old (S.held store.old) }
        ensures votes { Votes S.held store.old store.new self.old self.new (spec_tick self.old.place) result }
        ensures same_store { store.new ≡ store.old }
    {
        self.grow_older(store)
    }
}

/// Returns whether a vote is on an existing token, for a proposal of the node `node`.
fn fits_vote(tokens: u32, node: u8, proposal: Proposal, token: u32, span: Span) -> bool
    ensures { IsTrue result ↔ FitsVote tokens node proposal token span }
{
    // For the proof: a span is one factor, or two consecutive ones.
    let _last = span.hi();
    token < tokens && proposal.node() == node
}

/// Returns whether the message is about an existing token, and its proposal is of the right node.
///
/// The right node is the sender for an Ask, and this node for a Grant or a Deny.
fn fits_tokens(place: Place, tokens: u32, from: u8, message: Message) -> bool
    ensures { IsTrue result ↔ FitsVoter place tokens from message }
{
    match message {
        Message::Ask {
            proposal,
            token,
            span,
        } => fits_vote(tokens, from, proposal, token, span),
        Message::Grant {
            proposal,
            token,
            span,
        } => fits_vote(tokens, place.me(), proposal, token, span),
        Message::Deny {
            proposal,
            token,
            next: _,
        } => token < tokens && proposal.node() == place.me(),
        Message::Floor { token, next: _ } => token < tokens,
    }
}
