//! A port of the two calls that every port has.

use oath_node::{Port, Received, Sender};

/// A port on which nothing arrives and nothing is taken.
#[derive(Clone, Copy, Debug, PartialEq, Eq)]
pub struct SilentPort;

impl Port for SilentPort {
    /// Returns `Quiet`.
    fn receive(&mut self, _buffer: &mut [u8; 512]) -> Received {
        Received::Quiet
    }

    /// Returns false: a datagram is lost.
    fn send(&mut self, _to: Sender, _bytes: &[u8]) -> bool {
        false
    }
}
