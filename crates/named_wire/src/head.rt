//! The head of a datagram.

ghost use Rattle.std.specs.Prelude.{◌≡◌};
ghost use Rattle.named_wire.specs.Head as spec;

/// The kind of a datagram.
#[derive(Clone, Copy, Debug, PartialEq, Eq)]
pub enum Kind {
    /// Asks for a vote.
    Ask,
    /// Grants a vote.
    Grant,
    /// Denies a vote.
    Deny,
    /// Tells a floor.
    Floor,
    /// Tells several floors.
    Floors,
}

impl Kind {
    /// Returns the byte of the kind.
    pub fn byte(self) -> u8
        ensures { result ≡ spec.kind_byte self }
    {
        match self {
            Kind::Ask => 1,
            Kind::Grant => 2,
            Kind::Deny => 3,
            Kind::Floor => 4,
            Kind::Floors => 5,
        }
    }

    /// Returns the kind of a byte, or None.
    pub(crate) fn of(byte: u8) -> Option<Kind>
        ensures { result ≡ spec.kind_of byte }
    {
        match byte {
            1 => Some(Kind::Ask),
            2 => Some(Kind::Grant),
            3 => Some(Kind::Deny),
            4 => Some(Kind::Floor),
            5 => Some(Kind::Floors),
            _ => None,
        }
    }
}

/// The head of a datagram.
#[derive(Clone, Copy, Debug, PartialEq, Eq)]
pub struct Head {
    /// The kind of the datagram.
    pub kind: Kind,
    /// The node that sends it.
    pub from: u8,
    /// The node that receives it.
    pub to: u8,
    /// The boot of the node that sends it.
    pub boot: u64,
}
