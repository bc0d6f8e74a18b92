//! A node of the validation server, which answers the lines of login services and accepts no code twice.
//!
//! A [`Node`] turns bytes into bytes, over a store of its own. It sends nothing itself: each call of [`Node::handle`]
//! takes one event and returns [`Outputs`] with the datagrams and replies to send. A caller keeps a [`Scratch`], the
//! room for the long lists of a tick, and lends it to each call. A caller with several events may take each alone
//! ([`Node::take`], [`Node::take_line`], [`Node::take_datagram`]), and then commit all of them by one [`Node::commit`].
//! A caller has these duties:
//!
//! 1. Open each node on a store with a row for each token of the book ([`Node::open`]). All members of a cluster have
//!    the same book, the same settings and the same key. Each has a place and a store of its own.
//! 2. Pass a datagram from the address of a member as [`Event::Peer`]. Pass any other datagram as [`Event::Client`]
//!    with a number for the client, which its answers carry too.
//! 3. Send the outputs of `handle` only after it returned `Ok`. Send the outputs of taken events only after their
//!    commit returned `Ok`: that commit keeps what the events put.
//! 4. Pass an [`Event::Tick`] at regular times. Ticks send lost messages again, and end the wait of a line that finds
//!    no majority.
//! 5. After a fault the node is stopped. Restart it ([`Node::restart`]), or close it and repair its store.
//!
//! Datagrams may be lost, repeated, reordered or forged. The node drops a datagram without the tag of the cluster's
//! key. It also drops one for another node, or from another member than the datagram names.
//!
//! [`Node::in_memory`] opens a node over a fresh store in memory.
//!
//! A node that is alone needs no votes. [`LineServer`] is such a node, and answers each line at once:
//!
//! ```rust
//! use oath_node::{ClientLine, LineServer};
//! use otp_core::Settings;
//! use token_file::{FromRead, read_book};
//! use vote_wire::ClusterKey;
//!
//! let users = b"HOTP silver - 3132333435363738393031323334353637383930".as_slice();
//! let settings = Settings::default();
//! let (book, floors) = read_book(alloc, &mut FromRead::new(users), settings, 0)?;
//! let key = ClusterKey::new(&[0; 32]).unwrap();
//! let mut server = LineServer::new(alloc, &book, settings, &key, &floors)?;
//! let line = ClientLine { client: 7, moment: 100, line: b"CHECK 1 silver 755224 -" };
//! assert_eq!(rt; server.answer(&line)?.as_slice(), b"OK 1 0".as_slice());
//! ```
#![tactic(auto)]

mod client_line;
mod event;
mod fault;
mod handling;
mod item;
mod items;
mod laws;
mod memory;
mod node;
mod outputs;
mod owner;
mod parts;
mod reading;
mod rules;
mod ruling;
mod serve_fault;
mod server;
mod settling;
mod turn_laws;
mod turns;
mod unlock_laws;
mod unlocking;
mod until;

pub use answer_ring::{Answers, Count, Kept};
pub use client_line::ClientLine;
pub use datagram_port::{Clock, Port, Received, Sender};
pub use event::Event;
pub use fault::{NodeFault, OpenFault};
pub use item::Item;
pub use items::Items;
pub use laws::{
    answers_are_given_again, calls_can_be_broken, calls_make_steps, columns_are_worked,
    drifts_are_worked, events_are_worked, fittings_can_be_broken,
    justifications_in_runs_can_be_broken, one_node_answers_as_the_server, openings_can_be_broken,
    outputs_are_few, reference_server_is_safe, refusals_can_be_broken,
    refused_lines_change_gates_alone, rules_are_worked, rulings_are_told_apart,
    rulings_have_grounds, runs_are_worked, service_can_be_broken,
};
pub use node::Node;
pub use outputs::{Outputs, Scratch};
pub use reading::StoreReading;
pub use ruling::{KeptText, Ruling};
pub use serve_fault::ServeFault;
pub use server::LineServer;
pub use turn_laws::{
    batches_are_turns, batches_are_worked, differences_are_seen, early_ends_can_be_broken,
    ends_can_be_broken, entries_are_worked, faults_change_no_offer, turns_are_worked,
    turns_can_be_broken,
};
pub use turns::{Served, TURNS_END, offer, run_turns, run_turns_until};
pub use unlock_laws::{unlocks_are_worked, unlocks_can_be_broken, unlocks_change_one_gate};
pub use until::{Never, Until};
