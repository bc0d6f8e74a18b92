//! The head of a sealed datagram.

ghost use Rattle.std.specs.Prelude.{◌≡◌};
ghost use Rattle.sealed_wire.specs.Body as spec;

/// The kind of a sealed datagram.
#[derive(Clone, Copy, Debug, PartialEq, Eq)]
pub enum Kind {
    /// A client's line for a node.
    Line,
    /// A node's answer to a line.
    Answer,
    /// An operator's request to a node.
    Request,
    /// A node's report on a request.
    Report,
}

impl Kind {
    /// Returns the byte of the kind.
    pub(crate) fn byte(self) -> u8
        ensures { result ≡ spec.kind_byte self }
    {
        match self {
            Kind::Line => 1,
            Kind::Answer => 2,
            Kind::Request => 3,
            Kind::Report => 4,
        }
    }

    /// Returns the kind of a byte, or None.
    pub(crate) fn of(byte: u8) -> Option<Kind>
        ensures { result ≡ spec.kind_of byte }
    {
        match byte {
            1 => Some(Kind::Line),
            2 => Some(Kind::Answer),
            3 => Some(Kind::Request),
            4 => Some(Kind::Report),
            _ => None,
        }
    }
}

/// The head of a sealed datagram.
#[derive(Clone, Copy, Debug, PartialEq, Eq)]
pub struct Head {
    /// The kind of the datagram.
    pub kind: Kind,
    /// The client that sends or receives it.
    pub client: u16,
    /// The node that receives or sends it.
    pub node: u8,
    /// The time at which the client sealed the line, in microseconds since 1970-01-01 00:00:00 UTC. An answer has the
    /// moment of its line, and a report the moment of its request.
    pub moment: u64,
}
