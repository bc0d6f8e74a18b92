//! Nodes over stores in memory.

ghost use Rattle.std.specs.Prelude.{◌≡◌, ◌+◌, ◌<◌, ◌^◌, length, IfOk};
ghost use Rattle.oath_node.specs.Serving.{IsInMemory, IsInMemoryAt};

use crate::fault::OpenFault;
use crate::node::Node;
use floor_store::MemStore;
use otp_core::{Next, Settings};
use std::alloc::{AllocError, Global};
use token_file::Book;
use vote_core::Place;
use vote_wire::ClusterKey;

impl<'b> Node<'b, MemStore> {
    /// Opens a node over a fresh store in memory, with one floor for each token of the book.
    ///
    /// A floor is the first free factor of a token. Fails only if the allocator refuses the memory.
    pub fn in_memory(
        alloc: Global,
        book: &'b Book,
        settings: Settings,
        place: Place,
        key: &'b ClusterKey,
        floors: &[Next],
    ) -> Result<Self, AllocError>
        requires { length floors.now ≡ length book.now }
        ensures { IfOk result (IsInMemory book.now settings place key.now floors.now) }
    {
        Node::in_memory_at(alloc, book, settings, place, key, 0, floors)
    }

    /// Opens a node over a store in memory with another `boot`, which is not the last. Such a node replaces one that
    /// lost its store.
    ///
    /// Fails only if the allocator refuses the memory.
    pub fn in_memory_at(
        alloc: Global,
        book: &'b Book,
        settings: Settings,
        place: Place,
        key: &'b ClusterKey,
        boot: u64,
        floors: &[Next],
    ) -> Result<Self, AllocError>
        requires boot { boot + 1 < 2 ^ 62 }
        requires tokens { length floors.now ≡ length book.now }
        ensures { IfOk result (IsInMemoryAt boot book.now settings place key.now floors.now) }
    {
        // For the proof: a book has at most 10,000 tokens.
        let _tokens = book.len();
        let Ok(store) = MemStore::new_at(alloc, boot, floors) else {
            return Err(AllocError);
        };
        match Node::open(alloc, book, settings, place, key, store) {
            Ok(node) => Ok(node),
            Err((_, OpenFault::Memory)) => Err(AllocError),
            // A store in memory whose boot is not the last can raise it.
            Err((_, OpenFault::Store(_))) => unreachable!(),
        }
    }
}
