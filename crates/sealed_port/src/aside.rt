//! The requests of operators that a gate opened, until they are taken.

ghost use Rattle.std.specs.Prelude.{◌≡◌, ◌<◌, ◌≤◌, ◌∷◌, [], ◌++◌, length};
ghost use Rattle.sealed_port.specs.Aside.{has_room, oldest, others};
ghost use Rattle.sealed_port.specs.Requests.{request_with};

use arrayvec::ArrayVec;
use sealed_wire::{Head, MAX_TEXT_LEN, Right, TAG_LEN};
use std::marker::Model;

/// The maximum number of requests that wait to be taken.
pub const MAX_ASIDE: usize = 8;

/// An operator's request that a gate opened.
#[derive(Drop, Default)]
pub struct SetAside {
    pub(crate) number: u16,
    right: Right,
    pub(crate) address: u64,
    pub(crate) moment: u64,
    pub(crate) tag: [u8; TAG_LEN],
    text: ArrayVec<u8, MAX_TEXT_LEN>,
}

impl Model for SetAside {
    ghost use Rattle.sealed_port.specs.Aside.{AsideRecord};

    ghost Value = { AsideRecord };

    ghost view = { λ request. record {
      number = request.number;
      right = request.right;
      address = request.address;
      moment = request.moment;
      tag = request.tag;
      text = request.text.items;
    } };
}

impl SetAside {
    /// Returns the request of an operator with a right, from an address, with its tag, its head and its text.
    pub(crate) fn new(
        right: Right,
        address: u64,
        tag: [u8; TAG_LEN],
        head: Head,
        text: &[u8],
    ) -> Self
        requires { length text.now ≤ 256 }
        ensures { result ≡ request_with right address tag head text.now }
    {
        SetAside {
            number: head.client,
            right,
            address,
            moment: head.moment,
            tag,
            text: ArrayVec::try_from(text).unwrap(),
        }
    }

    /// Returns the number of the operator.
    pub fn number(&self) -> u16
        ensures { result ≡ self.now.number }
    {
        self.number
    }

    /// Returns the right of the operator.
    pub fn right(&self) -> Right
        ensures { result ≡ self.now.right }
    {
        self.right
    }

    /// Returns the text of the request.
    pub fn text(&self) -> &[u8]
        ensures { result.now ≡ self.now.text }
    {
        &self.text
    }
}

/// The requests that wait to be taken, the oldest first.
#[derive(Drop)]
pub(crate) struct Aside {
    requests: ArrayVec<SetAside, MAX_ASIDE>,
}

impl Model for Aside {
    ghost use Rattle.std.specs.Prelude.{List};
    ghost use Rattle.sealed_port.specs.Aside.{AsideRecord};

    ghost Value = { List AsideRecord };

    ghost view = { λ aside. aside.requests.items };
}

impl Aside {
    /// Returns no requests.
    pub(crate) fn new() -> Self
        ensures { result ≡ [] }
    {
        Aside {
            requests: ArrayVec::new(),
        }
    }

    /// Returns whether there is room for one more request.
    pub(crate) fn has_room(&self) -> bool
        ensures { result ≡ has_room self.now }
    {
        self.requests.len() < MAX_ASIDE
    }

    /// Adds a request.
    pub(crate) fn push(&mut self, request: SetAside)
        requires { length self.old < 8 }
        ensures { self.new ≡ self.old ++ request ∷ [] }
    {
        self.requests.push(request);
    }

    /// Removes and returns the oldest request, or returns None if there is none.
    pub(crate) fn take(&mut self) -> Option<SetAside>
        ensures request { result ≡ oldest self.old }
        ensures others { self.new ≡ others self.old }
    {
        if self.requests.is_empty() {
            return None;
        }
        Some(self.requests.remove(0))
    }
}
