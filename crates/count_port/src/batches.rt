//! The batches of a node, and how long their commits took.

ghost use Rattle.std.specs.Prelude.{◌≡◌, ◌+◌, ◌-◌};
ghost use Rattle.count_port.specs.Batches as spec;
ghost use Rattle.count_port.specs.Batches.{Settles, Takes, committed, no_batches, with_commit, with_datagram};

use crate::counts::one_more;
use datagram_port::Received;
use gatekeeping::{Bucket, CommitTimes};
use otp_core::MOMENTS_END;
use std::time::Clock as TimeSource;

/// The batches of a node: the datagrams that it commits at once.
///
/// The time of a commit is the time from the last datagram of its batch to the first call after it. So the node's work
/// on that datagram is in it. Moments are microseconds since the start of a clock.
#[derive(Clone, Copy, Debug, PartialEq, Eq)]
pub struct Batches {
    /// The number of datagrams that wait for their commit.
    pub size: u64,
    /// The moment at which the last one came, or None if the clock told none.
    pub moment: Option<u64>,
    /// The number of datagrams of the largest batch that was committed.
    pub largest: u64,
    /// The commits, by the time that they took.
    pub times: CommitTimes,
}

/// Returns the current moment of a monotonic clock, in microseconds since its start, or None if it fails.
fn micros_of<N: TimeSource>(clock: &N) -> Option<u64> {
    let now = clock.monotonic().ok()?;
    if now.as_secs() >= MOMENTS_END {
        return None;
    }
    Some(now.as_secs() * 1_000_000 + u64::from(now.subsec_micros()))
}

/// Returns the bucket of a time in microseconds.
fn bucket_at(micros: u64) -> Bucket
    ensures { result ≡ spec.bucket_at micros }
{
    if micros <= 1_000 {
        Bucket::One
    } else if micros <= 2_000 {
        Bucket::Two
    } else if micros <= 5_000 {
        Bucket::Five
    } else if micros <= 10_000 {
        Bucket::Ten
    } else if micros <= 20_000 {
        Bucket::Twenty
    } else if micros <= 50_000 {
        Bucket::Fifty
    } else if micros <= 100_000 {
        Bucket::Hundred
    } else {
        Bucket::More
    }
}

/// Returns the bucket of the time between two moments, or the last one if the clock didn't tell both.
fn bucket_of(since: Option<u64>, until: Option<u64>) -> Bucket
    ensures { result ≡ spec.bucket_of since until }
{
    let Some(since) = since else {
        return Bucket::More;
    };
    let Some(until) = until else {
        return Bucket::More;
    };
    bucket_at(until.saturating_sub(since))
}

/// Returns the commits with one more in a bucket.
fn with_commit(bucket: Bucket, times: CommitTimes) -> CommitTimes
    ensures { result ≡ with_commit bucket times }
{
    let mut times = times;
    match bucket {
        Bucket::One => times.one = one_more(times.one),
        Bucket::Two => times.two = one_more(times.two),
        Bucket::Five => times.five = one_more(times.five),
        Bucket::Ten => times.ten = one_more(times.ten),
        Bucket::Twenty => times.twenty = one_more(times.twenty),
        Bucket::Fifty => times.fifty = one_more(times.fifty),
        Bucket::Hundred => times.hundred = one_more(times.hundred),
        Bucket::More => times.more = one_more(times.more),
    }
    times
}

impl Batches {
    /// Returns the batches before any datagram.
    pub(crate) fn new() -> Self
        ensures { result ≡ no_batches }
    {
        Batches {
            size: 0,
            moment: None,
            largest: 0,
            times: CommitTimes::default(),
        }
    }

    /// Counts a datagram, which came at `moment`.
    fn datagram(&mut self, moment: Option<u64>)
        ensures { self.new ≡ with_datagram moment self.old }
    {
        self.size = one_more(self.size);
        self.moment = moment;
    }

    /// Counts the commit of a batch, which was over at `moment`.
    fn commit(&mut self, moment: Option<u64>)
        ensures { self.new ≡ committed moment self.old }
    {
        let bucket = bucket_of(self.moment, moment);
        self.times = with_commit(bucket, self.times);
        self.largest = self.largest.max(self.size);
        self.size = 0;
        self.moment = None;
    }

    /// Counts the commit of the batch that came, if there is one.
    pub(crate) fn settle<N: TimeSource>(&mut self, clock: &N)
        ensures { Settles self.old self.new }
    {
        if self.size == 0 {
            return;
        }
        self.commit(micros_of(clock));
    }

    /// Counts a receive.
    pub(crate) fn take<N: TimeSource>(&mut self, received: Received, clock: &N)
        ensures { Takes received self.old self.new }
    {
        match received {
            Received::Datagram { .. } => self.datagram(micros_of(clock)),
            Received::Quiet | Received::Fault => {}
        }
    }
}
