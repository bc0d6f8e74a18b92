//! The iterator over the datagrams and replies of a node's call.

ghost use Rattle.std.specs.Iterator.{at_most};
ghost use Rattle.std.specs.Map.Iter.{TakesFirst};
ghost use Rattle.std.specs.Prelude.{◌≡◌, [], ◌++◌, length};
ghost use Rattle.oath_node.specs.Outputs.{items_of};
ghost use Rattle.vote_core.specs.State.{sent_by};
ghost use Rattle.vote_core.specs.Voting.{to_each};

use crate::item::Item;
use crate::outputs::Reply;
use crate::settling::text_of;
use std::marker::Model;
use vote_core::{Message, Sending};
use vote_wire::{ClusterKey, write_message};

/// An iterator over the items of a call, the datagrams first. It encodes each item when it reaches it.
#[derive(Drop)]
pub struct Items<'a> {
    key: &'a ClusterKey,
    me: u8,
    message: Message,
    to: &'a [u8],
    sends: &'a [Sending],
    replies: &'a [Reply],
}

impl<'a> Model for Items<'a> {
    ghost use Rattle.std.specs.Prelude.{List, ◌++◌};
    ghost use Rattle.vote_core.specs.State.{sent_by};
    ghost use Rattle.vote_core.specs.Voting.{to_each};
    ghost use Rattle.oath_node.specs.Outputs.{items_of};
    ghost use Rattle.oath_node.specs.declared.item.Item.{Item};

    ghost Value = { List Item };

    ghost view = { λ items. items_of items.key.now items.me
        (to_each items.message items.to.now ++ sent_by items.sends.now) items.replies.now };
}

/// Returns the receivers and the message of the first of `sends` with a receiver, and the sendings after it.
fn next_sending(sends: &[Sending]) -> (&[u8], Message, &[Sending])
    ensures same { to_each result.1 result.0.now ++ sent_by result.2.now ≡ sent_by sends.now }
    ensures none { length result.0.now ≡ 0 → sent_by sends.now ≡ [] }
{
    for place in 0..sends.len() {
        let sending = &sends[place];
        let to = sending.to.as_slice();
        if !to.is_empty() {
            return (to, sending.message, &sends[place + 1..]);
        }
    }
    (&[], Message::default(), &[])
}

impl<'a> Items<'a> {
    /// Creates an iterator over `sends` and `replies`.
    pub(crate) fn new(
        key: &'a ClusterKey,
        me: u8,
        sends: &'a [Sending],
        replies: &'a [Reply],
    ) -> Self
        ensures { result ≡ items_of key.now me (sent_by sends.now) replies.now }
    {
        Items {
            key,
            me,
            message: Message::default(),
            to: &[],
            sends,
            replies,
        }
    }
}

impl<'a> Iterator for Items<'a> {
    type Item = Item;

    ghost next_gives = { TakesFirst (λ x. x) };

    ghost remaining = { λ s. at_most (length s) };

    fn next(&mut self) -> Option<Item> {
        if self.to.is_empty() {
            let (to, message, sends) = next_sending(self.sends);
            self.to = to;
            self.message = message;
            self.sends = sends;
        }
        let to = self.to;
        if !to.is_empty() {
            self.to = &to[1..];
            return Some(Item::Datagram {
                to: to[0],
                bytes: write_message(self.key, self.me, to[0], &self.message),
            });
        }
        let replies = self.replies;
        if !replies.is_empty() {
            self.replies = &replies[1..];
            let reply = &replies[0];
            return Some(Item::Reply {
                client: reply.client,
                bytes: text_of(reply.bytes.as_slice()),
            });
        }
        None
    }
}
