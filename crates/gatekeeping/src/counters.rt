//! What a port counted since a process began.

use crate::commits::CommitTimes;
use crate::others::{MAX_OTHERS, Other};
use crate::refused::Refused;
use arrayvec::ArrayVec;
use sealed_port::Unopened;

/// What a port counted since a process began. No number goes beyond `u64::MAX`.
#[derive(Debug, Drop)]
pub struct Counters {
    /// The number of datagrams that the node received, of the replies that it sent, and of the lines that it accepted.
    pub received: u64,
    pub replied: u64,
    pub accepted: u64,
    pub refused: Refused,
    /// The number of the node's ticks, and of the datagrams of its largest batch.
    pub ticks: u64,
    pub largest_batch: u64,
    /// The commits of batches, by the time that they took.
    pub commit_times: CommitTimes,
    pub unopened: Unopened,
    /// What is seen of the other members, in ascending order.
    pub others: ArrayVec<Other, MAX_OTHERS>,
}

impl Counters {
    /// Returns the counters of a port that counts nothing.
    pub fn none() -> Self {
        Counters {
            received: 0,
            replied: 0,
            accepted: 0,
            refused: Refused::default(),
            ticks: 0,
            largest_batch: 0,
            commit_times: CommitTimes::default(),
            unopened: Unopened::new(),
            others: ArrayVec::new(),
        }
    }
}
