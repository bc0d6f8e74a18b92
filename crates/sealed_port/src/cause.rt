//! The reasons why a gate doesn't open datagrams, and their numbers.

ghost use Rattle.std.specs.Prelude.{◌≡◌, Some};
ghost use Rattle.sealed_port.specs.Causes.{counted, nothing};

/// The reason why a gate doesn't open a datagram.
#[derive(Clone, Copy, Debug, PartialEq, Eq)]
pub enum Cause {
    /// The datagram is no sealed line for the gate's node from a client that the gate knows, and no such request of an
    /// operator.
    Form,
    /// The tag is wrong under the key of the client or operator that the datagram names.
    Tag,
    /// The moment is too far ahead of the clock, or the clock fails.
    Early,
    /// The moment is too far behind the clock, or the clock tells no second below 2^40.
    Late,
    /// The moment was seen or is at or below the mark, or another line with the same nonce waits for its answer. For a
    /// request: the moment is so, or 8 requests wait to be taken.
    Again,
    /// The client has as many failures in the clock's minute as it may have.
    Limited,
}

/// The numbers of datagrams that a gate didn't open, by their causes. None goes beyond `u64::MAX`.
#[derive(Clone, Copy, Debug, PartialEq, Eq)]
pub struct Unopened {
    /// The number of datagrams that are no sealed line or request for the node from a known client or operator.
    pub form: u64,
    /// The number of datagrams with a wrong tag.
    pub tag: u64,
    /// The number of lines and requests with a moment too far ahead of the clock.
    pub early: u64,
    /// The number of lines and requests with a moment too far behind the clock.
    pub late: u64,
    /// The number of lines and requests with a moment that was seen or is at or below the mark. It also counts lines
    /// with the nonce of a waiting line, and requests for which there was no room.
    pub again: u64,
    /// The number of lines of clients with as many failures in the clock's minute as they may have.
    pub limited: u64,
}

impl Unopened {
    /// Returns the numbers before any datagram.
    pub fn new() -> Self
        ensures { result ≡ nothing }
    {
        Unopened {
            form: 0,
            tag: 0,
            early: 0,
            late: 0,
            again: 0,
            limited: 0,
        }
    }

    /// Counts one more datagram of a cause.
    pub(crate) fn count(&mut self, cause: Cause)
        ensures { self.new ≡ counted self.old (Some cause) }
    {
        match cause {
            Cause::Form => self.form = self.form.saturating_add(1),
            Cause::Tag => self.tag = self.tag.saturating_add(1),
            Cause::Early => self.early = self.early.saturating_add(1),
            Cause::Late => self.late = self.late.saturating_add(1),
            Cause::Again => self.again = self.again.saturating_add(1),
            Cause::Limited => self.limited = self.limited.saturating_add(1),
        }
    }
}
