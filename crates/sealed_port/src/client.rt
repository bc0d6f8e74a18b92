//! A client that shares a key with the nodes.

ghost use Rattle.std.specs.Prelude.{◌≡◌, ◌==◌};
ghost use Rattle.replay_window.specs.Window.{is_fresh, latest_of, refusal_of};
ghost use Rattle.sealed_port.specs.Causes.{cause_by};
ghost use Rattle.sealed_port.specs.Gate.{with_moment};

use crate::cause::Cause;
use replay_window::{Refusal, Window};
use sealed_wire::ClientKey;

/// A client that shares a key with the nodes, and the window of its admitted moments.
#[derive(Drop)]
pub struct Client {
    pub(crate) number: u16,
    pub(crate) key: ClientKey,
    pub(crate) window: Window,
}

impl Client {
    /// Returns a client with a number, a key and a window.
    pub fn new(number: u16, key: ClientKey, window: Window) -> Self
        ensures { result ≡ record { number = number; key = key; window = window } }
    {
        Client {
            number,
            key,
            window,
        }
    }

    /// Returns whether the client has the number `number`.
    pub(crate) fn is_named(&self, number: u16) -> bool
        ensures { result ≡ (self.now.number == number) }
    {
        self.number == number
    }

    /// Returns whether the client's window admits a moment.
    pub(crate) fn admits(&self, now: u64, moment: u64) -> bool
        ensures { result ≡ is_fresh self.now.window now moment }
    {
        self.window.is_fresh(now, moment)
    }

    /// Returns the latest moment of the client's window.
    pub(crate) fn latest(&self) -> u64
        ensures { result ≡ latest_of self.now.window }
    {
        self.window.latest()
    }

    /// Returns the cause of a line with a moment, if the gate doesn't admit the line.
    pub(crate) fn cause_at(&self, now: u64, moment: u64) -> Cause
        ensures { result ≡ cause_by (refusal_of self.now.window now moment) }
    {
        match self.window.refusal_of(now, moment) {
            Some(Refusal::Early) => Cause::Early,
            Some(Refusal::Late) => Cause::Late,
            Some(Refusal::Again) | None => Cause::Again,
        }
    }

    /// Adds a moment to the client's window, if the client has the number `number`.
    pub(crate) fn see(&mut self, number: u16, moment: u64)
        ensures { self.new ≡ with_moment number moment self.old }
    {
        if self.number == number {
            self.window.keep(moment);
        }
    }
}
