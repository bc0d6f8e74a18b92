ghost use Rattle.std.specs.Prelude.{◌≡◌};
ghost use Rattle.oathd_causes.specs.Causes.{key_cause};

use secret_text::SecretFault;
use thiserror::Error;

/// The reason why a text is not a key of a cluster, and what to do.
#[derive(Clone, Copy, Debug, PartialEq, Eq, Error)]
pub enum KeyCause {
    /// The byte at this place, from 0, is not a hexadecimal digit.
    #[error("byte {} is no hexadecimal digit: copy another member's; oathd new-key prints one", .0.saturating_add(1))]
    Character(usize),
    #[error("a key has 32 to 128 hexadecimal digits: copy another member's; oathd new-key prints one")]
    Length,
}

/// Returns the reason why a text is not a key of a cluster, from the fault of its reading.
pub fn key_cause(fault: SecretFault) -> KeyCause
    ensures { result ≡ key_cause fault }
{
    match fault {
        SecretFault::BadCharacter(place) => KeyCause::Character(place),
        SecretFault::BadLength | SecretFault::TooLong | SecretFault::Empty => KeyCause::Length,
    }
}
