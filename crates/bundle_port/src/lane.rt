//! The lane of a member.

ghost use Rattle.std.specs.Prelude.{◌≡◌};
ghost use Rattle.bundle_port.specs.Bundler as spec;

use crate::bundle::is_part;
use crate::waiting::Waiting;
use std::marker::Model;

/// The number of calm waits in a row after which a lane is calm.
const CALM_WAITS: u8 = 8;

/// The lane of a member: the parts that wait to be sent to it, and how many datagrams the node offers to it.
#[derive(Drop)]
pub(crate) struct Lane {
    pub(crate) waiting: Waiting,
    offered: u8,
    calm: u8,
}

impl Model for Lane {
    ghost use Rattle.bundle_port.specs.Bundler.{LaneRecord};

    ghost Value = { LaneRecord };

    ghost view = { λ lane. record { parts = lane.waiting; offered = lane.offered; calm = lane.calm } };
}

impl Lane {
    /// Returns that nothing waits, that nothing was offered, and that there was no wait.
    pub(crate) fn new() -> Self
        ensures { result ≡ spec.new_lane }
    {
        Lane {
            waiting: Waiting::new(),
            offered: 0,
            calm: 0,
        }
    }

    /// Returns whether a datagram is sent at once.
    pub(crate) fn goes_at_once(&self, bytes: &[u8]) -> bool
        ensures { result ≡ spec.goes_at_once self.now bytes.now }
    {
        self.calm >= CALM_WAITS && self.offered == 0 && is_part(bytes)
    }

    /// Counts a datagram that is offered.
    pub(crate) fn count_offer(&mut self)
        ensures { self.new ≡ record self.old { offered = spec.one_more self.old.offered } }
    {
        self.offered = if self.offered == 0 { 1 } else { 2 };
    }

    /// Returns the number of calm waits in a row after a wait.
    fn calm_after(&self) -> u8
        ensures { result ≡ spec.calm_after self.now }
    {
        if self.offered >= 2 {
            return 0;
        }
        if self.calm >= CALM_WAITS {
            return self.calm;
        }
        self.calm + 1
    }

    /// Counts a wait.
    pub(crate) fn count_wait(&mut self)
        ensures { self.new ≡ record self.old { offered = 0; calm = spec.calm_after self.old } }
    {
        self.calm = self.calm_after();
        self.offered = 0;
    }
}
