ghost use Rattle.std.specs.Prelude.{◌≡◌, ℕ, length, IfErr, IfOk, List};
ghost use Rattle.otp_core.specs.Limits.{Limits};
ghost use Rattle.token_file.specs.Credential.{Credential};
ghost use Rattle.oath_node.specs.ReferenceServer.{Server, server_at};
ghost use Rattle.oath_node.specs.Serving.{IsAnswered, IsServing};
ghost use Rattle.oath_node.specs.declared.fault.OpenFault.{OpenFault};

use crate::client_line::ClientLine;
use crate::event::Event;
use crate::fault::{NodeFault, OpenFault};
use crate::item::Item;
use crate::laws::one_node_answers_as_the_server;
use crate::node::Node;
use crate::outputs::Scratch;
use arrayvec::ArrayVec;
use floor_store::MemStore;
use otp_core::{Next, Settings};
use std::alloc::Global;
use std::marker::Model;
use token_file::Book;
use vote_core::Place;
use vote_wire::{ClusterKey, MAX_SENT_LEN};

/// A server over the tokens of a book, which answers each line at once. It is a node that is alone, over a store in
/// memory.
#[derive(Drop)]
pub struct LineServer<'b> {
    node: Node<'b, MemStore>,
    scratch: Scratch,
}

impl<'b> Model for LineServer<'b> {
    ghost use Rattle.oath_node.specs.Serving.{Serving};

    ghost Value = { Serving };

    ghost view = { λ server. server.node };
}

impl<'b> LineServer<'b> {
    /// Creates a server with one floor for each token of the book. A floor is the first free factor of a token.
    ///
    /// No token has failures, and no answer is kept. No other member uses the key. Fails only if the allocator refuses
    /// the memory.
    pub fn new(
        alloc: Global,
        book: &'b Book,
        settings: Settings,
        key: &'b ClusterKey,
        floors: &[Next],
    ) -> Result<Self, OpenFault>
        requires { length floors.now ≡ length book.now }
        ensures serving { IfOk result (λ server. IsServing server book.now settings 0 (server_at floors.now)) }
        ensures refusal { IfErr result (λ fault. fault ≡ OpenFault.Memory) }
    {
        let place = Place::new(1, 1).unwrap();
        match Node::in_memory(alloc, book, settings, place, key, floors) {
            Ok(node) => Ok(LineServer {
                node,
                scratch: Scratch::new(),
            }),
            Err(_) => Err(OpenFault::Memory),
        }
    }

    /// Answers a line in 1 to 64 bytes without a line end. Does not allocate.
    ///
    /// The answer is the one kept for this client and line, if any. Otherwise the rules decide.
    ///
    /// # Errors
    /// - Returns `Spent` if the line is right but 2^62 lines were accepted before.
    /// - Returns `Stopped` after that.
    ///
    /// The first 2^62 lines are answered.
    pub fn answer(&mut self, line: &ClientLine<'_>) -> Result<ArrayVec<u8, MAX_SENT_LEN>, NodeFault>
        ensures { (book : List Credential) (limits : Limits) (count : ℕ) (server : Server)
            → IsServing self.old book limits count server
            → IsAnswered self.new book limits count server line.now (λ bytes. bytes.items) result }
    {
        one_node_answers_as_the_server();
        let event = Event::Client {
            client: line.client,
            moment: line.moment,
            line: line.line,
        };
        let outputs = self.node.handle(event, &mut self.scratch)?;
        match outputs.items().next() {
            Some(Item::Reply { bytes, .. }) => Ok(bytes),
            // A node that is alone gives exactly one reply.
            Some(Item::Datagram { .. }) => Err(NodeFault::Stopped),
            None => Err(NodeFault::Stopped),
        }
    }
}
