//! A node, which answers the lines of clients and the datagrams of the other members, over a store.

ghost use Rattle.std.specs.Prelude.{◌≡◌, ◌⊎◌, ◌<◌, ◌≤◌, ◌↔◌, Err, IfErr, IfOk, OnOk, true, false, length};
ghost use Rattle.oath_node.specs.Calls.{CommitsNode, Handles, IsOpened, IsRefused, Restarts, Takes};
ghost use Rattle.oath_node.specs.Hosted.{envelope_at, event_of, is_waiting};
ghost use Rattle.oath_node.specs.Machine.{Client, Peer, Tick};
ghost use Rattle.oath_node.specs.Unlocking.{UnlocksNode};
ghost use Rattle.oath_node.specs.Reading.{ReadsNode};
ghost use Rattle.oath_node.specs.declared.fault.NodeFault.{NodeFault};
ghost use Rattle.vote_core.specs.State.{IsPlace};

use crate::event::Event;
use crate::fault::{NodeFault, OpenFault};
use crate::outputs::{Outputs, Scratch};
use crate::parts::Parts;
use crate::reading::StoreReading;
use crate::unlocking::unlock;
use answer_ring::Answers;
use arrayvec::ArrayVec;
use floor_store::FloorStore;
use otp_core::Settings;
use std::alloc::Global;
use std::marker::Model;
use token_file::Book;
use vote_core::{Place, Voter};
use vote_wire::ClusterKey;

/// A node over a store of its own. All members of a cluster have the same book, settings and key.
#[derive(Drop)]
pub struct Node<'b, S: FloorStore> {
    book: &'b Book,
    settings: Settings,
    key: &'b ClusterKey,
    parts: Parts<S>,
    is_running: bool,
}

impl<'b, S: FloorStore> Model for Node<'b, S> {
    ghost use Rattle.oath_node.specs.Hosted.{Hosted, IsNode};

    ghost Value = { Hosted S };

    ghost view = { λ node. record {
      store = node.parts.store;
      book = node.book.now;
      limits = node.settings;
      key = node.key.now;
      voter = node.parts.voter;
      owners = node.parts.owners.items;
      answers = node.parts.answers;
      running = node.is_running;
    } };

    ghost invariant = { λ node. IsNode S.held (record {
      store = node.parts.store;
      book = node.book.now;
      limits = node.settings;
      key = node.key.now;
      voter = node.parts.voter;
      owners = node.parts.owners.items;
      answers = node.parts.answers;
      running = node.is_running;
    }) };
}

impl<'b, S: FloorStore> Node<'b, S> {
    /// Opens a node over `store` and begins a new boot. Nothing waits and no answer is kept.
    ///
    /// Allocates all the memory that the node ever uses before it raises the boot. Returns the store beside an error.
    ///
    /// # Errors
    /// - Returns `Memory` if the allocator refuses the memory. The store is unchanged.
    /// - Returns `Store` if the store fails to raise the boot.
    pub fn open(
        alloc: Global,
        book: &'b Book,
        settings: Settings,
        place: Place,
        key: &'b ClusterKey,
        store: S,
    ) -> Result<Node<'b, S>, (S, OpenFault)>
        requires { length (S.held store).content.rows ≡ length book.now }
        ensures opened { IfOk result (IsOpened S.held store) }
        ensures book { IfOk result (λ node. node.book ≡ book.now) }
        ensures limits { IfOk result (λ node. node.limits ≡ settings) }
        ensures key { IfOk result (λ node. node.key ≡ key.now) }
        ensures place { IfOk result (λ node. node.voter.place ≡ place) }
        ensures refused { IfErr result (λ refusal. IsRefused S.held store refusal.0 refusal.1) }
    {
        // For the proof: a book states its limit when it returns its number of tokens.
        let _tokens = book.len();
        let mut store = store;
        let Ok(answers) = Answers::new(alloc) else {
            return Err((store, OpenFault::Memory));
        };
        match Voter::open(&mut store, place) {
            Ok(voter) => Ok(Node {
                book,
                settings,
                key,
                parts: Parts {
                    store,
                    voter,
                    owners: ArrayVec::new(),
                    answers,
                },
                is_running: true,
            }),
            Err(fault) => Err((store, OpenFault::Store(fault))),
        }
    }

    /// Restarts the node on its store in a new boot. Nothing waits and no answer is kept. Does not allocate.
    ///
    /// # Errors
    /// Returns `Store` if the store fails to raise the boot. The node is stopped.
    pub fn restart(&mut self) -> Result<(), NodeFault>
        ensures { Restarts S.held self.old self.new result }
    {
        // For the proof: a book states its limit when it returns its number of tokens.
        let _tokens = self.book.len();
        let place = self.parts.voter.place();
        match Voter::open(&mut self.parts.store, place) {
            Ok(voter) => {
                // For the proof: the number of the boot is in range.
                let _boot = voter.boot();
                self.parts.voter = voter;
                self.parts.owners.clear();
                self.parts.answers.clear();
                self.is_running = true;
                Ok(())
            }
            Err(fault) => {
                self.is_running = false;
                Err(NodeFault::Store(fault))
            }
        }
    }

    /// Returns `Stopped` if the node is stopped.
    fn check_running(&self) -> Result<(), NodeFault>
        ensures runs { OnOk result (self.now.running ≡ true) }
        ensures stopped { IfErr result (λ fault. (fault ≡ NodeFault.Stopped) × (self.now.running ≡ false)) }
        ensures place { IsPlace self.now.voter.place }
        ensures few { length self.now.voter.ballots ≤ 32 }
    {
        // For the proof: at most 32 lines wait, and there are at most nine members.
        let _pending = self.parts.voter.pending();
        let place = self.parts.voter.place();
        let _me = place.me();
        let _members = place.n();
        if self.is_running {
            Ok(())
        } else {
            Err(NodeFault::Stopped)
        }
    }

    /// Takes a client's line: one step of the node's machine. Puts at most one change to the store.
    ///
    /// Does not commit. Send nothing of the outputs before [`Node::commit`] returns Ok: until then a stop may undo the
    /// change. The outputs borrow only the key, so they can wait while the node takes further events. Does not
    /// allocate.
    ///
    /// # Errors
    /// - Returns `Stopped` if the node was stopped before. Nothing changes.
    /// - Returns `Store` if the store fails. The node is stopped until it is restarted.
    /// - Returns `Spent` if the line is right but no proposal number of this boot is left. The node is stopped until it
    ///   is restarted.
    pub fn take_line(
        &mut self,
        client: u64,
        moment: u64,
        line: &[u8],
    ) -> Result<Outputs<'b>, NodeFault>
        ensures { Takes S.held self.old self.new (Client client moment line.now) result }
    {
        self.check_running()?;
        let taken = self
            .parts
            .on_line(self.book, self.settings, self.key, client, moment, line);
        self.is_running = taken.is_ok();
        taken
    }

    /// Takes a datagram from the address of a member, in the way in which [`Node::take_line`] takes a line.
    ///
    /// # Errors
    /// - Returns `Stopped` if the node was stopped before. Nothing changes.
    /// - Returns `Store` if the store fails. The node is stopped until it is restarted.
    pub fn take_datagram(&mut self, from: u8, bytes: &[u8]) -> Result<Outputs<'b>, NodeFault>
        ensures { Takes S.held self.old self.new (Peer from (envelope_at self.old.key bytes.now)) result }
    {
        self.check_running()?;
        let taken = self.parts.on_datagram(self.key, from, bytes);
        self.is_running = taken.is_ok();
        taken
    }

    /// Takes a tick. The outputs borrow their lists from `scratch`.
    fn take_tick<'k>(&mut self, scratch: &'k mut Scratch) -> Result<Outputs<'k>, NodeFault>
    where
        'b: 'k,
        ensures { Takes S.held self.old self.new Tick result }
    {
        self.check_running()?;
        let taken = self.parts.on_tick(self.key, scratch);
        self.is_running = taken.is_ok();
        taken
    }

    /// Takes an event, in the way in which [`Node::take_line`] takes a line. The outputs of a tick borrow their lists
    /// from `scratch`.
    ///
    /// # Errors
    /// Returns the errors of [`Node::take_line`].
    pub fn take<'k>(
        &mut self,
        event: Event<'_>,
        scratch: &'k mut Scratch,
    ) -> Result<Outputs<'k>, NodeFault>
    where
        'b: 'k,
        ensures { Takes S.held self.old self.new (event_of self.old.key event.entry) result }
    {
        match event {
            Event::Client {
                client,
                moment,
                line,
            } => self.take_line(client, moment, line),
            Event::Peer { from, bytes } => self.take_datagram(from, bytes),
            Event::Tick => self.take_tick(scratch),
        }
    }

    /// Makes every put of the taken events durable. Does not allocate.
    ///
    /// # Errors
    /// - Returns `Stopped` if the node was stopped before. Nothing changes.
    /// - Returns `Store` if the store fails. The node is stopped until it is restarted. Send nothing of the outputs
    ///   since the last commit.
    pub fn commit(&mut self) -> Result<(), NodeFault>
        ensures { CommitsNode S.held self.old self.new result }
    {
        self.check_running()?;
        match self.parts.store.commit() {
            Ok(()) => Ok(()),
            Err(fault) => {
                self.is_running = false;
                Err(NodeFault::Store(fault))
            }
        }
    }

    /// Clears the gate of a token by one put and its commit: the token has no failures, and is open. Makes all earlier
    /// puts durable too. Changes nothing else, and does not allocate.
    ///
    /// # Errors
    /// - Returns `Stopped` if the node was stopped before. Nothing changes.
    /// - Returns `Store` if the store fails. The node is stopped until it is restarted.
    pub fn open_gate(&mut self, token: u32) -> Result<(), NodeFault>
        requires { token < length self.old.book }
        ensures { UnlocksNode S.held self.old self.new token result }
    {
        self.check_running()?;
        match unlock(&mut self.parts.store, token) {
            Ok(()) => Ok(()),
            Err(fault) => {
                self.is_running = false;
                Err(NodeFault::Store(fault))
            }
        }
    }

    /// Takes an event and commits it: one step of the node's machine. Does not allocate.
    ///
    /// The outputs may be sent, because the store has committed the event's change. The outputs of a tick borrow their
    /// lists from `scratch`.
    ///
    /// # Errors
    /// Returns the errors of [`Node::take`] and of [`Node::commit`]. There are no outputs, and the node is stopped.
    pub fn handle<'k>(
        &mut self,
        event: Event<'_>,
        scratch: &'k mut Scratch,
    ) -> Result<Outputs<'k>, NodeFault>
    where
        'b: 'k,
        ensures handles { Handles S.held self.old self.new (event_of self.old.key event.entry) result }
        ensures few { IfOk result (λ outputs. (S.held self.new.store).is_clean → length outputs.items ≤ 264) }
        ensures stopped { result ≡ Err NodeFault.Stopped ↔ (self.old.running ≡ false) }
        // Over a store without a failure in the call, only these two are possible.
        ensures without_failure { (S.held self.new.store).failures ≡ (S.held self.old.store).failures
            → IfErr result (λ fault. (fault ≡ NodeFault.Stopped) ⊎ (fault ≡ NodeFault.Spent)) }
    {
        let outputs = self.take(event, scratch)?;
        self.commit()?;
        Ok(outputs)
    }

    /// Reads something of the store, which keeps its content.
    ///
    /// # Errors
    /// - Returns `Stopped` if the node was stopped before. Nothing is read.
    /// - Returns `Store` if the store fails. The node is stopped until it is restarted.
    pub fn read<R: StoreReading<S>>(&mut self, reading: &mut R) -> Result<(), NodeFault>
        ensures { ReadsNode S.held self.old self.new result }
    {
        self.check_running()?;
        match reading.read(&mut self.parts.store) {
            Ok(()) => Ok(()),
            Err(fault) => {
                self.is_running = false;
                Err(NodeFault::Store(fault))
            }
        }
    }

    /// Closes the node and returns its store.
    pub fn close(self) -> S
        ensures { result ≡ self.entry.store }
    {
        let Node { parts, .. } = self;
        parts.store
    }

    /// Returns the store for reading. It has a row for each token of the book.
    pub fn store(&self) -> &S
        ensures store { result.now ≡ self.now.store }
        ensures tokens { length (S.held self.now.store).content.rows ≡ length self.now.book }
    {
        &self.parts.store
    }

    /// Returns whether a client's line waits for votes.
    pub fn is_waiting(&self) -> bool
        ensures { result ≡ is_waiting self.now }
    {
        !self.parts.owners.is_empty()
    }

    /// Returns the number of clients' lines that wait for votes.
    pub fn waiting(&self) -> usize
        ensures { result ≡ length self.now.owners }
    {
        self.parts.owners.len()
    }

    /// Returns whether the node runs: no fault has stopped it since it was opened or restarted.
    pub fn is_running(&self) -> bool
        ensures { result ≡ self.now.running }
    {
        self.is_running
    }
}
