//! The datagrams and replies of a node's call.

ghost use Rattle.std.specs.Prelude.{◌≡◌, []};
ghost use Rattle.oath_node.specs.Outputs.{items_of, no_outputs, reply_outputs};
ghost use Rattle.oath_node.specs.Parcel.{replies_in, sends_in};
ghost use Rattle.vote_core.specs.State.{sent_by};
ghost use Rattle.vote_core.specs.Voting.{pass_in};

use crate::items::Items;
use arrayvec::ArrayVec;
use floor_store::{Pass, Proposal};
use std::marker::Model;
use vote_core::{MAX_MESSAGES, MAX_PENDING, Sending, TickStep, VoteStep};
use vote_wire::{ClusterKey, MAX_SENT_LEN};

/// A reply to a client.
#[derive(Debug, Default, Drop)]
pub(crate) struct Reply {
    pub(crate) client: u64,
    pub(crate) bytes: ArrayVec<u8, MAX_SENT_LEN>,
}

impl Model for Reply {
    ghost use Rattle.oath_node.specs.Machine.{Reply as ReplyRecord};

    ghost Value = { ReplyRecord };

    ghost view = { λ reply. record { client = reply.client; bytes = reply.bytes.items } };
}

/// The room for the long lists of a tick. A caller keeps one and lends it to each call.
#[derive(Debug, Drop)]
pub struct Scratch {
    sends: ArrayVec<Sending, MAX_MESSAGES>,
    replies: ArrayVec<Reply, MAX_PENDING>,
}

impl Scratch {
    /// Creates the room, with empty lists.
    pub fn new() -> Self
        ensures sends { result.sends.items ≡ [] }
        ensures replies { result.replies.items ≡ [] }
    {
        Scratch {
            sends: ArrayVec::new(),
            replies: ArrayVec::new(),
        }
    }
}

impl Default for Scratch {
    fn default() -> Self {
        Scratch::new()
    }
}

/// The lists of a call: short ones of a line or a datagram, or long ones of a tick.
#[derive(Debug, Drop)]
pub(crate) enum Parcel<'k> {
    Held(ArrayVec<Sending, 1>, ArrayVec<Reply, 1>),
    Lent(&'k [Sending], &'k [Reply]),
}

/// Returns the items of the lists of `parcel`.
fn items_in<'a>(key: &'a ClusterKey, me: u8, parcel: &'a Parcel<'a>) -> Items<'a>
    ensures { result ≡ items_of key.now me (sends_in parcel.now) (replies_in parcel.now) }
{
    match parcel {
        Parcel::Held(sends, replies) => {
            Items::new(key, me, sends.as_slice(), replies.as_slice())
        }
        Parcel::Lent(sends, replies) => Items::new(key, me, sends, replies),
    }
}

/// The outputs of a node's call: at most 264 items, the datagrams first.
///
/// A message to several members is stored once, and encoded when an iterator reaches it.
#[derive(Debug, Drop)]
pub struct Outputs<'k> {
    key: &'k ClusterKey,
    me: u8,
    begun: Option<Proposal>,
    pass: Option<Pass>,
    parcel: Parcel<'k>,
}

impl<'k> Model for Outputs<'k> {
    ghost use Rattle.oath_node.specs.Outputs.{OutputsRecord, items_of};

    ghost Value = { OutputsRecord };

    ghost use Rattle.oath_node.specs.Parcel.{replies_in, sends_in};

    ghost view = { λ outputs. record {
      items = items_of outputs.key.now outputs.me (sends_in outputs.parcel) (replies_in outputs.parcel);
      begun = outputs.begun;
      pass = outputs.pass;
    } };
}

impl<'k> Outputs<'k> {
    /// Returns no outputs.
    pub(crate) fn nothing(key: &'k ClusterKey) -> Self
        ensures { result ≡ no_outputs }
    {
        Outputs {
            key,
            me: 0,
            begun: None,
            pass: None,
            parcel: Parcel::Held(ArrayVec::new(), ArrayVec::new()),
        }
    }

    /// Returns one reply.
    pub(crate) fn reply(key: &'k ClusterKey, client: u64, bytes: ArrayVec<u8, MAX_SENT_LEN>) -> Self
        ensures { result ≡ reply_outputs client bytes.items }
    {
        let mut replies = ArrayVec::new();
        replies.push(Reply { client, bytes });
        Outputs {
            key,
            me: 0,
            begun: None,
            pass: None,
            parcel: Parcel::Held(ArrayVec::new(), replies),
        }
    }

    /// Returns the outputs of the voter's step on a proposal or a message, with `replies`.
    pub(crate) fn of_vote(
        key: &'k ClusterKey,
        me: u8,
        step: VoteStep,
        replies: ArrayVec<Reply, 1>,
    ) -> Self
        ensures { result ≡ record {
          items = items_of key.now me (sent_by step.sends.items) replies.items;
          begun = step.begun;
          pass = pass_in step.decisions.items;
        } }
    {
        let pass = step.pass();
        let VoteStep {
            sends,
            begun,
            decisions: _,
        } = step;
        Outputs {
            key,
            me,
            begun,
            pass,
            parcel: Parcel::Held(sends, replies),
        }
    }

    /// Returns the outputs of the voter's step on a tick, with `replies`.
    pub(crate) fn of_tick(
        key: &'k ClusterKey,
        me: u8,
        step: TickStep,
        replies: ArrayVec<Reply, MAX_PENDING>,
        scratch: &'k mut Scratch,
    ) -> Self
        ensures { result ≡ record {
          items = items_of key.now me (sent_by step.sends.items) replies.items;
          begun = step.begun;
          pass = pass_in step.decisions.items;
        } }
    {
        let pass = step.pass();
        let TickStep {
            sends,
            begun,
            decisions: _,
        } = step;
        scratch.sends = sends;
        scratch.replies = replies;
        let lists: &'k Scratch = scratch;
        Outputs {
            key,
            me,
            begun,
            pass,
            parcel: Parcel::Lent(lists.sends.as_slice(), lists.replies.as_slice()),
        }
    }

    /// Returns an iterator over the items, the datagrams first.
    pub fn items(&self) -> Items<'_>
        ensures { result ≡ self.now.items }
    {
        items_in(self.key, self.me, &self.parcel)
    }

    /// Returns the proposal that the call began, or None.
    pub fn begun(&self) -> Option<Proposal>
        ensures { result ≡ self.now.begun }
    {
        self.begun
    }

    /// Returns the pass of the accepted submission, or None.
    pub fn pass(&self) -> Option<Pass>
        ensures { result ≡ self.now.pass }
    {
        self.pass
    }
}
