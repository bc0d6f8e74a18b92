//! A node of three over a database in memory that stops during a vote.

use crate::database_tests::{SILVER, made};
use arrayvec::ArrayVec;
use floor_sql::SqlStore;
use floor_store::{Proposal, Span};
use node_serving::open_node;
use oath_node::{Event, Item, Node, Scratch};
use oathd_database::{Fault, open_store};
use otp_core::{Factor, Settings};
use sqlite::MemStore;
use std::alloc::Global;
use vote_core::{Message, Place};
use vote_wire::{ClusterKey, MAX_SENT_LEN, write_message};

/// A datagram.
type Sent = ArrayVec<u8, MAX_SENT_LEN>;

/// Returns the Ask of a node's first proposal for factor 0, to node 3.
fn asked(key: &ClusterKey, node: u8) -> Option<Sent> {
    let proposal = Proposal::new(node, 1, 0)?;
    let (token, span) = (0, Span::one(Factor::new(0)?));
    let ask = Message::Ask {
        proposal,
        token,
        span,
    };
    Some(write_message(key, node, 3, &ask))
}

/// Returns the Grant of node 3 for the Ask of `asked`, or the Deny.
fn answered(key: &ClusterKey, node: u8, is_granted: bool) -> Option<Sent> {
    let proposal = Proposal::new(node, 1, 0)?;
    let (token, span) = (0, Span::one(Factor::new(0)?));
    let answer = if is_granted {
        Message::Grant {
            proposal,
            token,
            span,
        }
    } else {
        let next = span.next();
        Message::Deny {
            proposal,
            token,
            next,
        }
    };
    Some(write_message(key, 3, node, &answer))
}

/// Returns whether the first output for the bytes of a member is the datagram `want` to this member.
fn replies(node: &mut Node<'_, SqlStore<MemStore>>, from: u8, bytes: &[u8], want: &[u8]) -> bool {
    let mut scratch = Scratch::new();
    let Ok(outputs) = node.handle(Event::Peer { from, bytes }, &mut scratch) else {
        return false;
    };
    match outputs.items().next() {
        Some(Item::Datagram { to, bytes }) => to == from && bytes.as_slice() == want,
        _ => false,
    }
}

/// Returns whether the node answers the Ask of a member by a Grant, or by a Deny if `is_granted` is false.
fn answers(
    node: &mut Node<'_, SqlStore<MemStore>>,
    key: &ClusterKey,
    from: u8,
    is_granted: bool,
) -> bool {
    let (Some(ask), Some(want)) = (asked(key, from), answered(key, from, is_granted)) else {
        return false;
    };
    replies(node, from, &ask, &want)
}

/// Returns whether node 3 grants a factor to node 1 alone, by the same Grant each time, although it stops.
///
/// Nodes 1 and 2 ask for the factor. Node 3 stops after its Grant to node 1 is committed, or before.
fn grants_once(
    node: &mut Node<'_, SqlStore<MemStore>>,
    key: &ClusterKey,
    is_committed: bool,
) -> bool {
    (!is_committed || answers(node, key, 1, true))
        && node.restart().is_ok()
        && answers(node, key, 1, true)
        && answers(node, key, 2, false)
}

/// Returns the result of `grants_once` for node 3 of three, over a new database.
fn stops(alloc: Global, is_committed: bool) -> Result<bool, Fault> {
    let settings = Settings::default();
    let (Some(key), Some(place)) = (ClusterKey::new(&[0; 32]), Place::new(3, 3)) else {
        return Err(Fault::Socket);
    };
    let (users, store) = open_store(alloc, SILVER, settings, Some(3), made(alloc, 3)?)?;
    let mut node = open_node(alloc, &users.book, settings, place, &key, store)?;
    Ok(grants_once(&mut node, &key, is_committed))
}

/// A node stops after the Grant is committed, and before.
#[test]
fn stops_in_a_vote(rt: HostRuntime) {
    assert!(rt; stops(rt.alloc(), true) == Ok(true));
    assert!(rt; stops(rt.alloc(), false) == Ok(true));
}
