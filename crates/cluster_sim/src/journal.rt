//! The journal of a simulation: everything that its nodes sent, began, accepted and replied.
//!
//! Floor: the first free factor of a token at a node.

ghost use Rattle.std.specs.Prelude.{◌≡◌, ◌++◌, ◌≤◌, IfNone, IfSome, None, OnOk, Some, length, slice_get};
ghost use Rattle.cluster_sim.specs.Journal.{journal_with_anew, journal_with_loss, journal_with_note, journal_with_told, no_journal, sent_items, start_event, told_items, used_in};

use crate::report::{WorldAnswer, WorldPass};
use arrayvec::ArrayVec;
use floor_store::{Pass, Proposal};
use oath_node::{Item, Items, Outputs};
use otp_core::Next;
use std::alloc::{AllocError, Global};
use std::marker::Model;
use vote_wire::MAX_SENT_LEN;

/// A datagram, with its sender and its receiver.
#[derive(Debug, Drop)]
pub(crate) struct Datagram {
    pub(crate) from: u8,
    pub(crate) to: u8,
    pub(crate) bytes: ArrayVec<u8, MAX_SENT_LEN>,
}

impl Model for Datagram {
    ghost use Rattle.cluster_sim.specs.Journal.{Letter};

    ghost Value = { Letter };

    ghost view = { λ datagram. record {
      sender = datagram.from;
      receiver = datagram.to;
      bytes = datagram.bytes.items;
    } };
}

/// A proposal, and the event in which it was begun.
#[derive(Clone, Copy, Debug)]
pub(crate) struct Start {
    pub(crate) proposal: Proposal,
    pub(crate) event: u64,
}

impl Model for Start {
    ghost use Rattle.cluster_sim.specs.Journal.{StartRecord};

    ghost Value = { StartRecord };

    ghost view = { λ start. record { proposal = start.proposal; event = start.event } };

    ghost inverse = { λ start. record { proposal = start.proposal; event = start.event } };
}

/// A loss of a node's store, with the last boot that the node used. Without a boot it is a replacement of the store.
#[derive(Clone, Copy, Debug)]
pub(crate) struct Loss {
    pub(crate) node: u64,
    pub(crate) used: Option<u64>,
}

impl Model for Loss {
    ghost use Rattle.cluster_sim.specs.Journal.{LossRecord};

    ghost Value = { LossRecord };

    ghost view = { λ loss. record { node = loss.node; used = loss.used } };

    ghost inverse = { λ loss. record { node = loss.node; used = loss.used } };
}

/// The record of everything sent, begun, accepted and replied, and of losses and replacements, each in order. It also
/// has the least floor of each token that a replacement store needs.
#[derive(Debug, Drop)]
pub(crate) struct Journal {
    pub(crate) sent: Vec<Datagram>,
    pub(crate) starts: Vec<Start>,
    pub(crate) passes: Vec<WorldPass>,
    pub(crate) answers: Vec<WorldAnswer>,
    pub(crate) losses: Vec<Loss>,
    pub(crate) least: Vec<Next>,
}

impl Model for Journal {
    ghost use Rattle.cluster_sim.specs.Journal.{JournalRecord};

    ghost Value = { JournalRecord };

    ghost view = { λ journal. record {
      sent = journal.sent.items;
      starts = journal.starts.items;
      passes = journal.passes.items;
      answers = journal.answers.items;
      losses = journal.losses.items;
      least = journal.least.items;
    } };
}

/// Returns the last boot that `node` used if `losses` end in a loss of its store, or else None.
fn used_in(losses: &[Loss], node: u64) -> Option<u64>
    ensures { result ≡ used_in losses.now node }
{
    let mut used = None;
    for loss in losses {
        if node == loss.node {
            used = loss.used;
        }
    }
    used
}

/// Returns the event in which `proposal` was begun last, or 0. Searches from the newest start.
fn start_event_of(starts: &[Start], proposal: Proposal) -> u64
    ensures { result ≡ start_event starts.now proposal }
{
    for place in (0..starts.len()).rev() {
        let start = starts[place];
        if proposal == start.proposal {
            return start.event;
        }
    }
    0
}

impl Journal {
    /// Creates an empty journal.
    pub(crate) fn new(alloc: Global) -> Self
        ensures { result ≡ no_journal }
    {
        Journal {
            sent: Vec::new(alloc),
            starts: Vec::new(alloc),
            passes: Vec::new(alloc),
            answers: Vec::new(alloc),
            losses: Vec::new(alloc),
            least: Vec::new(alloc),
        }
    }

    /// Returns the last boot that `node` used if its store is lost, or else None.
    pub(crate) fn used_boot(&self, node: u64) -> Option<u64>
        ensures { result ≡ used_in self.now.losses node }
    {
        used_in(self.losses.as_slice(), node)
    }

    /// Records the loss of a node's store, the last boot that the node used, and the greatest floors of the others.
    pub(crate) fn lose(&mut self, node: u64, used: u64, least: Vec<Next>) -> Result<(), AllocError>
        ensures { OnOk result (self.new ≡ journal_with_loss node used least.items self.old) }
    {
        self.losses.push(Loss {
            node,
            used: Some(used),
        })?;
        self.least = least;
        Ok(())
    }

    /// Records the replacement of a node's store.
    pub(crate) fn renew(&mut self, node: u64) -> Result<(), AllocError>
        ensures { OnOk result (self.new ≡ journal_with_anew node self.old) }
    {
        self.losses.push(Loss { node, used: None })?;
        Ok(())
    }

    /// Returns the datagram number `k`, counted from 0, or None.
    pub(crate) fn datagram(&self, k: u64) -> Option<&Datagram>
        ensures some { IfSome result (λ datagram. slice_get self.now.sent k ≡ Some datagram.now) }
        ensures none { IfNone result (slice_get self.now.sent k ≡ None) }
    {
        self.sent.get(k as usize)
    }

    /// Returns the number of datagrams sent.
    pub(crate) fn sent_count(&self) -> u64
        ensures { result ≡ length self.now.sent }
    {
        self.sent.len() as u64
    }

    /// Records the proposal and the acceptance of a node in an event, if any.
    pub(crate) fn note(
        &mut self,
        event: u64,
        node: u8,
        begun: Option<Proposal>,
        pass: Option<Pass>,
    ) -> Result<(), AllocError>
        requires first { 1 ≤ node }
        requires last { node ≤ 9 }
        ensures { OnOk result (self.new ≡ journal_with_note event node begun pass self.old) }
    {
        if let Some(proposal) = begun {
            self.starts.push(Start { proposal, event })?;
        }
        if let Some(pass) = pass {
            if let Some(proposal) = Proposal::new(node, pass.boot(), pass.seq()) {
                let began = start_event_of(self.starts.as_slice(), proposal);
                self.passes.push(WorldPass {
                    began,
                    ended: event,
                    node,
                    token: pass.token(),
                    span: pass.span(),
                })?;
            }
        }
        Ok(())
    }

    /// Records the datagrams and replies of a node in an event.
    pub(crate) fn tell(
        &mut self,
        event: u64,
        node: u8,
        outputs: &Outputs<'_>,
    ) -> Result<(), AllocError>
        ensures { OnOk result (self.new ≡ journal_with_told event node outputs.now.items self.old) }
    {
        tell_items(
            &mut self.sent,
            &mut self.answers,
            event,
            node,
            outputs.items(),
        )
    }
}

/// Records the items of a node in an event, among the datagrams and the answers.
fn tell_items(
    sent: &mut Vec<Datagram>,
    answers: &mut Vec<WorldAnswer>,
    event: u64,
    node: u8,
    items: Items<'_>,
) -> Result<(), AllocError>
    ensures sent { OnOk result (sent.new.items ≡ sent.old.items ++ sent_items node items.entry) }
    ensures answers { OnOk result (answers.new.items ≡ answers.old.items ++ told_items event node items.entry) }
{
    for item in items {
        match item {
            Item::Datagram { to, bytes } => {
                sent.push(Datagram {
                    from: node,
                    to,
                    bytes,
                })?;
            }
            Item::Reply { client, bytes } => {
                answers.push(WorldAnswer {
                    event,
                    node,
                    client,
                    bytes,
                })?;
            }
        }
    }
    Ok(())
}
