//! How many floors are told at a quiet turn.

ghost use Rattle.std.specs.Prelude.{◌≡◌, ◌-◌, length, map};
ghost use Rattle.floor_port.specs.Pace as spec;

use std::marker::Model;

/// The number of places for members: member 0, which there is not, to member 9.
const PLACES: usize = 10;

/// The number of quiet turns after which a member that was not heard is silent.
const SILENT_AFTER: u8 = 25;

/// The maximum number of datagrams for each member at a quiet turn of a fast round.
const FAST: usize = 10;

/// The number of rows whose floors are told at a quiet turn of a fast round.
const ROWS_OF_FAST_TURN: usize = 200;

/// The pace at which a node tells its floors.
#[derive(Drop)]
pub(crate) struct Pace {
    until_silent: [u8; PLACES],
    fast: usize,
}

impl Model for Pace {
    ghost use Rattle.floor_port.specs.Pace.{PaceRecord};

    ghost Value = { PaceRecord };

    ghost view = { λ pace. record { until_silent = pace.until_silent; fast = pace.fast } };
}

/// Returns the number of quiet turns of a fast round.
fn round_of(rows: usize) -> usize
    ensures { result ≡ spec.round_of rows }
{
    rows / ROWS_OF_FAST_TURN + 1
}

/// Returns the numbers, each less by one.
fn one_less(mut numbers: [u8; PLACES]) -> [u8; PLACES]
    ensures { result ≡ map (λ number. number - 1) numbers }
{
    for place in 0..PLACES {
        numbers[place] = numbers[place].saturating_sub(1);
    }
    numbers
}

impl Pace {
    /// Returns the pace at the start. A fast round begins.
    pub(crate) fn new(rows: usize) -> Self
        ensures { result ≡ spec.new_pace rows }
    {
        Pace {
            until_silent: [0; PLACES],
            fast: round_of(rows),
        }
    }

    /// Notes that a member was heard to tell floors. If it was silent, a fast round begins.
    pub(crate) fn note_heard(&mut self, member: u8, rows: usize)
        ensures { self.new ≡ spec.after_heard self.old member rows }
    {
        let place = usize::from(member);
        if place < PLACES {
            if self.until_silent[place] == 0 {
                self.fast = round_of(rows);
            }
            self.until_silent[place] = SILENT_AFTER;
        }
    }

    /// Notes a quiet turn.
    pub(crate) fn note_quiet(&mut self)
        ensures { self.new ≡ spec.after_quiet self.old }
    {
        self.until_silent = one_less(self.until_silent);
        self.fast = self.fast.saturating_sub(1);
    }

    /// Returns the number of datagrams that are due for each member, if all rows take `turns` of them.
    pub(crate) fn due(&self, turns: usize) -> usize
        ensures { result ≡ spec.due self.now turns }
    {
        let most = if self.fast == 0 { 1 } else { FAST };
        most.min(turns)
    }
}
