//! The effects of each event on a running node.

ghost use Rattle.std.specs.Prelude.{◌≡◌, ◌<◌, ◌≤◌, ◌↔◌, IfErr, IsTrue, List, None, false, length, nat_le};
ghost use Rattle.floor_store.specs.Held.{Breaks, MayPut};
ghost use Rattle.answer_ring.specs.Answers.{kept_with};
ghost use Rattle.oath_node.specs.Heard.{IsHeardAs};
ghost use Rattle.oath_node.specs.Hosted.{envelope_at};
ghost use Rattle.oath_node.specs.Machine.{content_with_failure, made_by_datagram, made_by_line, made_by_message, made_by_proposal, made_by_ruling, made_by_tick, ruling_at};
ghost use Rattle.oath_node.specs.Outputs.{reply_outputs};
ghost use Rattle.oath_node.specs.Parts.{Steps, state_in};
ghost use Rattle.oath_node.specs.Recording.{IfKept, IfProposes, IsRecordable};
ghost use Rattle.otp_core.specs.Limits.{Limits};
ghost use Rattle.otp_core.specs.Range.{IsMoment};
ghost use Rattle.token_file.specs.Credential.{Credential};
ghost use Rattle.vote_core.specs.Calls.{FitsVoter, IsOther, IsStoreOf};
ghost use Rattle.vote_core.specs.Rows.{row};
ghost use Rattle.client_lines.specs.Request.{without_lf as spec_without_lf};

use crate::fault::NodeFault;
use crate::outputs::{Outputs, Scratch};
use crate::owner::{Owner, is_waiting};
use crate::parts::Parts;
use crate::rules::{examine, row_of};
use crate::ruling::{KeptText, Ruling};
use crate::settling::{finish_tick, finish_vote, line_of};
use answer_ring::{Answers, answer_again, keep};
use arrayvec::ArrayVec;
use client_lines::{Answer, Nonce, Outcome, read_line, without_lf, write_answer, write_reply};
use floor_store::{FloorStore, Span, StoreFault};
use otp_core::{Drift, Settings};
use token_file::Book;
use vote_core::{Message, VoteFault, Voter};
use vote_wire::{ClusterKey, MAX_SENT_LEN, read_message};

/// Returns whether the node hears a message.
///
/// The message names the member that sent it, is for this node, and fits its voter.
fn is_heard(voter: &Voter, from: u8, sender: u8, to: u8, message: &Message) -> bool
    ensures { IsTrue result ↔ IsHeardAs voter.now.place voter.now.tokens from sender to message.now }
{
    sender == from && to == voter.place().me() && voter.fits(from, message)
}

/// Puts a failure of a token at `moment`: closes its gate for a while.
fn fail<S: FloorStore>(store: &mut S, token: u32, moment: u64) -> Result<(), StoreFault>
    requires token { token < length (S.held store.old).content.rows }
    requires moment { IsMoment moment }
    ensures puts { MayPut S.held store.old store.new
        (content_with_failure token moment (S.held store.old).content) result }
    ensures breaks { IfErr result (Breaks S.held store.old store.new) }
    ensures boot { (S.held store.new).is_clean → (S.held store.new).content.boot ≡ (S.held store.old).content.boot }
{
    let row = row_of(store, token)?;
    let mut gate = row.gate();
    gate.fail(moment);
    store.put(token, row.with_gate(gate), None)
}

/// Replies `bytes` to a client, and keeps the reply in `answers`.
fn remember<'k>(
    key: &'k ClusterKey,
    answers: &mut Answers,
    client: u64,
    line: &[u8],
    bytes: ArrayVec<u8, MAX_SENT_LEN>,
) -> Outputs<'k>
    requires { length line.now ≤ 256 }
    ensures outputs { result ≡ reply_outputs client bytes.items }
    ensures answers { answers.new ≡ kept_with answers.old
        (record { client = client; line = line.now; text = bytes.items }) }
{
    keep(answers, client, line, bytes.as_slice());
    Outputs::reply(key, client, bytes)
}

impl<S: FloorStore> Parts<S> {
    /// Takes a tick.
    pub(crate) fn on_tick<'k>(
        &mut self,
        key: &'k ClusterKey,
        scratch: &'k mut Scratch,
    ) -> Result<Outputs<'k>, NodeFault>
        requires { IsStoreOf self.old.voter (S.held self.old.store) }
        ensures { Steps S.held key.now self.old self.new (made_by_tick self.old.voter.place) result }
    {
        match self.voter.tick(&mut self.store) {
            Ok(step) => Ok(finish_tick(
                key,
                &self.voter,
                &mut self.owners,
                &mut self.answers,
                step,
                scratch,
            )),
            Err(fault) => Err(NodeFault::Store(fault)),
        }
    }

    /// Takes a message of another member.
    fn on_message<'k>(
        &mut self,
        key: &'k ClusterKey,
        from: u8,
        message: Message,
    ) -> Result<Outputs<'k>, NodeFault>
        requires store { IsStoreOf self.old.voter (S.held self.old.store) }
        requires from { IsOther self.old.voter.place from }
        requires fits { FitsVoter self.old.voter.place self.old.voter.tokens from message }
        ensures { Steps S.held key.now self.old self.new
            (made_by_message self.old.voter.place from message) result }
    {
        match self.voter.on_message(&mut self.store, from, message) {
            Ok(step) => Ok(finish_vote(
                key,
                &self.voter,
                &mut self.owners,
                &mut self.answers,
                step,
            )),
            Err(fault) => Err(NodeFault::Store(fault)),
        }
    }

    /// Takes a datagram from the address of a member.
    ///
    /// Drops a datagram that is outside the peer format, names another sender or another receiver, or names an unknown
    /// member or token.
    pub(crate) fn on_datagram<'k>(
        &mut self,
        key: &'k ClusterKey,
        from: u8,
        bytes: &[u8],
    ) -> Result<Outputs<'k>, NodeFault>
        requires store { IsStoreOf self.old.voter (S.held self.old.store) }
        // The result is the same under every configuration whose book has the tokens of the store.
        ensures { (book : List Credential) (limits : Limits)
            → length (S.held self.old.store).content.rows ≡ length book
            → Steps S.held key.now self.old self.new (made_by_datagram
            (record { book = book; limits = limits }) self.old.voter.place from
            (envelope_at key.now bytes.now)) result }
    {
        let Some((sender, to, message)) = read_message(key, bytes) else {
            return Ok(Outputs::nothing(key));
        };
        if !is_heard(&self.voter, from, sender, to, &message) {
            return Ok(Outputs::nothing(key));
        }
        self.on_message(key, from, message)
    }

    /// Begins a proposal for a client's line.
    fn propose<'k>(
        &mut self,
        key: &'k ClusterKey,
        client: u64,
        line: &[u8],
        nonce: Nonce,
        token: u32,
        span: Span,
        drift: Drift,
    ) -> Result<Outputs<'k>, NodeFault>
        requires store { IsStoreOf self.old.voter (S.held self.old.store) }
        requires room { length self.old.voter.ballots < 32 }
        requires place { length self.old.owners.items < 32 }
        requires line { length line.now ≤ 256 }
        requires token { token < length (S.held self.old.store).content.rows }
        requires free { (S.held self.old.store).is_clean → (row (S.held self.old.store).content token).next ≤ span.lo }
        ensures { Steps S.held key.now self.old self.new
            (made_by_proposal self.old.voter.place client line.now nonce token span.lo span.hi drift) result }
    {
        let seq = self.voter.next_seq();
        match self.voter.propose(&mut self.store, token, span, drift) {
            Ok(step) => {
                self.owners.push(Owner {
                    seq,
                    client,
                    line: line_of(line),
                    nonce,
                });
                Ok(finish_vote(key, &self.voter, &mut self.owners, &mut self.answers, step))
            }
            Err(VoteFault::Store(fault)) => Err(NodeFault::Store(fault)),
            Err(VoteFault::Spent) => Err(NodeFault::Spent),
        }
    }

    /// Carries out a ruling on a client's line.
    #[tactic(auto, unfolding(crate::specs::Machine::made_by_ruling))]
    fn on_ruling<'k>(
        &mut self,
        key: &'k ClusterKey,
        client: u64,
        moment: u64,
        line: &[u8],
        ruling: Ruling,
    ) -> Result<Outputs<'k>, NodeFault>
        requires store { IsStoreOf self.old.voter (S.held self.old.store) }
        requires line { IfKept ruling (length line.now ≤ 256) }
        requires room { IfProposes ruling (λ token span.
            (length self.old.voter.ballots < 32) × (length self.old.owners.items < 32)) }
        requires recordable { IsRecordable (length (S.held self.old.store).content.rows) moment ruling }
        requires free { (S.held self.old.store).is_clean → IfProposes ruling
            (λ token span. (row (S.held self.old.store).content token).next ≤ span.lo) }
        ensures { Steps S.held key.now self.old self.new
            (made_by_ruling self.old.voter.place client moment line.now ruling) result }
    {
        match ruling {
            Ruling::Outside => {
                let bytes = write_answer(&Answer::BadLine);
                Ok(Outputs::reply(key, client, bytes))
            }
            Ruling::Again(text) => Ok(Outputs::reply(key, client, text.into_bytes())),
            Ruling::Waiting => Ok(Outputs::nothing(key)),
            Ruling::Denied(nonce, reason) => {
                let bytes = write_reply(&nonce, Outcome::Refused(reason));
                Ok(remember(key, &mut self.answers, client, line, bytes))
            }
            Ruling::Wrong(nonce, reason, token) => {
                match fail(&mut self.store, token.value(), moment) {
                    Ok(()) => {
                        let bytes = write_reply(&nonce, Outcome::Refused(reason));
                        Ok(remember(key, &mut self.answers, client, line, bytes))
                    }
                    Err(fault) => Err(NodeFault::Store(fault)),
                }
            }
            Ruling::Fitting {
                nonce,
                token,
                span,
                drift,
            } => self.propose(key, client, line, nonce, token.value(), span, drift),
        }
    }

    /// Returns whether there is no room for another waiting line.
    fn is_full(&self) -> bool
        ensures room { result ≡ false
            → (length self.now.voter.ballots < 32) × (length self.now.owners.items < 32) }
        ensures full { length self.now.owners.items ≤ length self.now.voter.ballots
            → result ≡ nat_le 32 (length self.now.voter.ballots) }
    {
        if self.voter.is_busy() {
            return true;
        }
        self.owners.is_full()
    }

    /// Rules on a client's line.
    fn rule(
        &self,
        book: &Book,
        settings: Settings,
        client: u64,
        moment: u64,
        bytes: &[u8],
    ) -> Ruling
        requires works { (S.held self.now.store).fault ≡ None }
        requires rows { length (S.held self.now.store).content.rows ≡ length book.now }
        requires room { (S.held self.now.store).is_clean
            → length self.now.owners.items ≤ length self.now.voter.ballots }
        ensures value { (S.held self.now.store).is_clean → result ≡ ruling_at
            (record { book = book.now; limits = settings }) (state_in S.held self.now) client moment bytes.now }
        ensures line { IfKept result (length (spec_without_lf bytes.now) ≤ 256) }
        ensures recordable { IsRecordable (length book.now) moment result }
        ensures free { (S.held self.now.store).is_clean → IfProposes result
            (λ token span. (row (S.held self.now.store).content token).next ≤ span.lo) }
        ensures room { IfProposes result (λ token span.
            (length self.now.voter.ballots < 32) × (length self.now.owners.items < 32)) }
    {
        let Some(request) = read_line(bytes) else {
            return Ruling::Outside;
        };
        let line = without_lf(bytes);
        if let Some(text) = answer_again(&self.answers, client, line) {
            return Ruling::Again(KeptText::new(text));
        }
        if is_waiting(self.owners.as_slice(), client, line) {
            return Ruling::Waiting;
        }
        examine(book, settings, &self.store, self.is_full(), moment, request)
    }

    /// Takes a client's line.
    pub(crate) fn on_line<'k>(
        &mut self,
        book: &Book,
        settings: Settings,
        key: &'k ClusterKey,
        client: u64,
        moment: u64,
        bytes: &[u8],
    ) -> Result<Outputs<'k>, NodeFault>
        requires works { (S.held self.old.store).fault ≡ None }
        requires store { IsStoreOf self.old.voter (S.held self.old.store) }
        requires rows { length (S.held self.old.store).content.rows ≡ length book.now }
        requires room { (S.held self.old.store).is_clean
            → length self.old.owners.items ≤ length self.old.voter.ballots }
        ensures { Steps S.held key.now self.old self.new (made_by_line
            (record { book = book.now; limits = settings }) self.old.voter.place client moment bytes.now) result }
    {
        let ruling = self.rule(book, settings, client, moment, bytes);
        self.on_ruling(key, client, moment, without_lf(bytes), ruling)
    }
}
