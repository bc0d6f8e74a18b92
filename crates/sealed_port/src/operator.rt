//! An operator that shares a key with the nodes.

ghost use Rattle.std.specs.Prelude.{◌≡◌, ◌==◌};
ghost use Rattle.replay_window.specs.Window.{latest_of};
ghost use Rattle.sealed_port.specs.Requests.{operator_with};

use crate::client::Client;
use sealed_wire::Right;

/// An operator that shares a key with the nodes, and its right to send requests.
#[derive(Drop)]
pub struct Operator {
    pub(crate) holder: Client,
    pub(crate) right: Right,
}

impl Operator {
    /// Returns an operator with the number, the key and the window of `holder`.
    pub fn new(holder: Client, right: Right) -> Self
        ensures { result ≡ record { holder = holder; right = right } }
    {
        Operator { holder, right }
    }

    /// Returns whether the operator has the number `number`.
    pub(crate) fn is_named(&self, number: u16) -> bool
        ensures { result ≡ (self.now.holder.number == number) }
    {
        self.holder.is_named(number)
    }

    /// Returns the latest moment of the operator's window.
    pub(crate) fn latest(&self) -> u64
        ensures { result ≡ latest_of self.now.holder.window }
    {
        self.holder.latest()
    }

    /// Adds a moment to the operator's window, if the operator has the number `number`.
    pub(crate) fn see(&mut self, number: u16, moment: u64)
        ensures { self.new ≡ operator_with number moment self.old }
    {
        self.holder.see(number, moment);
    }
}
