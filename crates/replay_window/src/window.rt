//! The window of one client.

ghost use Rattle.std.specs.Prelude.{◌≡◌, ◌≤◌, ◌<◌, ◌^◌, length, eqb, nat_lt};
ghost use Rattle.std.specs.List.{list_any, position};
ghost use Rattle.replay_window.specs.Window.{IsAhead, is_early, is_fresh, is_new, is_timely, kept_of, last_at, latest_of, place_of, refusal_of, window_above, window_after, window_from, with_moment, with_seen};

use crate::ahead::Ahead;
use crate::refusal::Refusal;
use arrayvec::ArrayVec;
use std::marker::Model;

/// The maximum lag of a moment to the clock, in microseconds.
pub const BEHIND_MICROS: u64 = 60_000_000;

/// The end of the clock's seconds.
const SECONDS_END: u64 = 1 << 40;

/// The number of kept moments.
const SIZE: usize = 64;

/// The admitted moments of one client.
#[derive(Drop)]
pub struct Window {
    ahead: Ahead,
    low: u64,
    /// The kept moments, with one more place for a moment that enters before another one leaves.
    seen: ArrayVec<u64, 65>,
}

impl Model for Window {
    ghost use Rattle.std.specs.Prelude.{◌≤◌, length};
    ghost use Rattle.replay_window.specs.Window.{WindowRecord};

    ghost Value = { WindowRecord };

    ghost view = { λ w. record { ahead = w.ahead; low = w.low; seen = w.seen.items } };

    ghost invariant = { λ w. length w.seen.items ≤ 64 };
}

/// Returns the last microsecond that may be named at the second `now` of the clock.
pub fn last_at(now: u64, ahead: Ahead) -> u64
    requires { now < 2 ^ 40 }
    ensures value { result ≡ last_at now ahead }
    ensures limit { result < 2 ^ 62 }
{
    (now + u64::from(ahead.seconds())) * 1_000_000
}

/// Returns whether a moment is too far ahead of the clock.
fn is_early(ahead: Ahead, now: u64, moment: u64) -> bool
    ensures { result ≡ is_early ahead now moment }
{
    now < SECONDS_END && moment > last_at(now, ahead)
}

/// Returns whether a moment is near the clock.
fn is_timely(ahead: Ahead, now: u64, moment: u64) -> bool
    ensures { result ≡ is_timely ahead now moment }
{
    if now >= SECONDS_END || moment > last_at(now, ahead) {
        return false;
    }
    now * 1_000_000 <= moment + BEHIND_MICROS
}

/// Returns whether `seen` has `moment`.
fn has(seen: &[u64], moment: u64) -> bool
    ensures { result ≡ list_any (eqb moment) seen.now }
{
    seen.iter().any(|other| moment == *other)
}

/// Returns the place of the first moment later than `moment`, or None.
fn first_later(seen: &[u64], moment: u64) -> Option<usize>
    ensures { result ≡ position (nat_lt moment) seen.now }
{
    seen.iter().position(|other| moment < *other)
}

/// Returns the place of the first moment later than `moment`, or the length of `seen`.
fn place_of(seen: &[u64], moment: u64) -> usize
    ensures place { result ≡ place_of moment seen.now }
    ensures within { result ≤ length seen.now }
{
    first_later(seen, moment).unwrap_or(seen.len())
}

impl Window {
    /// Returns the window of a process that begins at the second `start` of the clock.
    ///
    /// It admits no moment that is more than `ahead` ahead of the clock.
    pub fn new(start: u64, ahead: Ahead) -> Self
        requires { start < 2 ^ 40 }
        ensures { result ≡ window_from start ahead }
    {
        Window::above(last_at(start, ahead), ahead)
    }

    /// Returns the window that admits no moment up to `mark`, and none that is more than `ahead` ahead of the clock.
    pub fn above(mark: u64, ahead: Ahead) -> Self
        ensures { result ≡ window_above mark ahead }
    {
        Window {
            ahead,
            low: mark,
            seen: ArrayVec::new(),
        }
    }

    /// Returns the latest of the mark and the kept moments. The window admitted no later moment.
    pub fn latest(&self) -> u64
        ensures { result ≡ latest_of self.now }
    {
        self.seen
            .iter()
            .fold(self.low, |latest, moment| latest.max(*moment))
    }

    /// Returns whether a moment is above the mark and was not seen.
    fn is_new(&self, moment: u64) -> bool
        ensures { result ≡ is_new self.now moment }
    {
        self.low < moment && !has(&self.seen, moment)
    }

    /// Returns whether the window admits a moment at the second `now` of the clock.
    pub fn is_fresh(&self, now: u64, moment: u64) -> bool
        ensures { result ≡ is_fresh self.now now moment }
    {
        is_timely(self.ahead, now, moment) && self.is_new(moment)
    }

    /// Returns why the window refuses a moment at the second `now` of the clock, or None if it admits it.
    pub fn refusal_of(&self, now: u64, moment: u64) -> Option<Refusal>
        ensures { result ≡ refusal_of self.now now moment }
    {
        if self.is_fresh(now, moment) {
            None
        } else if is_timely(self.ahead, now, moment) {
            Some(Refusal::Again)
        } else if is_early(self.ahead, now, moment) {
            Some(Refusal::Early)
        } else {
            Some(Refusal::Late)
        }
    }

    /// Keeps one more moment. Removes the first one, which raises the mark, if there are too many.
    pub fn keep(&mut self, moment: u64)
        ensures { self.new ≡ with_seen self.old moment }
    {
        let place = place_of(&self.seen, moment);
        self.seen.insert(place, moment);
        if self.seen.len() > SIZE {
            let first = self.seen.remove(0);
            self.low = self.low.max(first);
        }
    }

    /// Admits a moment at the second `now` of the clock. Returns whether it did; it admits no moment twice.
    pub fn admit(&mut self, now: u64, moment: u64) -> bool
        ensures admitted { result ≡ is_fresh self.old now moment }
        ensures window { self.new ≡ window_after self.old now moment }
    {
        if !self.is_fresh(now, moment) {
            return false;
        }
        self.keep(moment);
        true
    }
}
