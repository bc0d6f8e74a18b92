ghost use Rattle.std.specs.Prelude.{◌≡◌, ◌↔◌, IsSome, IfSome};
ghost use Rattle.replay_window.specs.Window.{IsAhead};

use std::marker::Model;

/// The maximum lead of a moment over the clock: 1 to 60 seconds. The default is 2 seconds.
///
/// A window admits nothing for as many seconds after its process began.
#[derive(Clone, Copy, Debug, PartialEq, Eq)]
pub struct Ahead {
    seconds: u8,
}

impl Model for Ahead {
    ghost use Rattle.std.specs.Prelude.{ℕ};
    ghost use Rattle.replay_window.specs.Window.{IsAhead};

    ghost Value = { ℕ };

    ghost view = { λ ahead. ahead.seconds };

    ghost invariant = { λ ahead. IsAhead ahead.seconds };

    ghost inverse = { λ seconds. record { seconds = seconds } };
}

impl Ahead {
    /// Returns the lead of `seconds`, or None if they are 0 or more than 60.
    pub fn new(seconds: u8) -> Option<Self>
        ensures valid { IsSome result ↔ IsAhead seconds }
        ensures value { IfSome result (λ ahead. ahead ≡ seconds) }
    {
        if 1 <= seconds && seconds <= 60 {
            Some(Ahead { seconds })
        } else {
            None
        }
    }

    /// Returns the number of seconds.
    pub fn seconds(self) -> u8
        ensures value { result ≡ self }
        ensures range { IsAhead result }
    {
        self.seconds
    }
}

impl Default for Ahead {
    ghost use Rattle.std.specs.Prelude.{◌≡◌};

    ghost is_default = { λ ahead. ahead ≡ 2 };

    /// Returns the lead of 2 seconds.
    fn default() -> Self {
        Ahead { seconds: 2 }
    }
}
