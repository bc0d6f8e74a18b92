//! Entries of the record of a port in memory.

use datagram_port::{PortEntry, Sender};

/// Returns whether an entry is the offer of a datagram.
pub(crate) fn is_offer(entry: &PortEntry, receiver: Sender, datagram: &[u8]) -> bool {
    match entry {
        PortEntry::Offered { to, bytes } => *to == receiver && bytes.as_slice() == datagram,
        _ => false,
    }
}
