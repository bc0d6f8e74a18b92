//! The datagrams from members' addresses that a node reads.

ghost use Rattle.std.specs.Prelude.{◌≡◌};
ghost use Rattle.gatekeeping.specs.Read.{is_read};

use vote_wire::{ClusterKey, read_message};

/// Returns whether a datagram from the address of the member `number` is one that the member made under `key`.
pub fn is_read(key: &ClusterKey, number: u8, bytes: &[u8]) -> bool
    ensures { result ≡ is_read key.now number bytes.now }
{
    match read_message(key, bytes) {
        Some((from, _, _)) => from == number,
        None => false,
    }
}
