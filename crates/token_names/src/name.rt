ghost use Rattle.std.specs.Prelude.{◌≡◌};
ghost use Rattle.hex.specs.Hex.{encode_lower};

use std::fmt;
use std::marker::Model;

/// The length of a name, in bytes.
pub const NAME_LEN: usize = 16;

/// The name of a token. It is shown in lower case hexadecimal.
#[derive(Clone, Copy, Debug, PartialEq, Eq, PartialOrd, Ord, Hash)]
pub struct Name {
    bytes: [u8; NAME_LEN],
}

impl Model for Name {
    ghost use Rattle.std.specs.Prelude.{ℕ, List};

    ghost Value = { List ℕ };

    ghost view = { λ name. name.bytes };

    ghost inverse = { λ bytes. record { bytes = bytes } };
}

impl Name {
    /// Returns the name of these bytes.
    pub fn new(bytes: [u8; NAME_LEN]) -> Self
        ensures { result ≡ bytes }
    {
        Name { bytes }
    }

    /// Returns the bytes of the name.
    pub fn bytes(self) -> [u8; NAME_LEN]
        ensures { result ≡ self }
    {
        self.bytes
    }

    /// Returns the name in lower case hexadecimal.
    pub fn digits(self) -> [u8; 2 * NAME_LEN]
        ensures { result ≡ encode_lower self }
    {
        let mut digits = [0; 2 * NAME_LEN];
        hex::encode_to_slice(self.bytes.as_slice(), &mut digits).unwrap();
        digits
    }
}

impl fmt::Display for Name {
    fn fmt<W: fmt::Write>(&self, f: &mut fmt::Formatter<W>) -> fmt::Result {
        for byte in self.bytes {
            write!(f, "{byte:02x}")?;
        }
        Ok(())
    }
}
