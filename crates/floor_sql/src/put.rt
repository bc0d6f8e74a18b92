ghost use Rattle.std.specs.Prelude.{◌≡◌, ◌≤◌, length};
ghost use Rattle.std.specs.Option.{option_to_list};

use floor_store::{Pass, Row};
use otp_core::Next;

/// The maximum number of puts that wait for their commit. The put that reaches it commits them all.
pub const MAX_STAGED: usize = 80;

/// A put: the row of a token and an optional pass.
#[derive(Clone, Copy, Debug)]
pub struct Put {
    pub token: u32,
    pub row: Row,
    pub pass: Option<Pass>,
}

/// Returns the number of passes that a put with `pass` appends.
pub fn pass_count(pass: &Option<Pass>) -> u64
    ensures value { result ≡ length (option_to_list pass.now) }
    ensures in_range { result ≤ 1 }
{
    match pass {
        Some(_) => 1,
        None => 0,
    }
}

impl Default for Put {
    /// Returns a put of token 0 with floor 0, without a pass.
    fn default() -> Self {
        Put {
            token: 0,
            row: Row::opening(Next::new(0).unwrap()),
            pass: None,
        }
    }
}
