//! The user of a row of a users file, as the program prints it.

use oathd_tasks::printed;
use std::fmt;

/// The most bytes of a user that are printed.
const MAX_USER_LEN: usize = 64;

/// The user of a row, as it is printed: its first 64 bytes, in graphic ASCII.
#[derive(Clone, Copy, Debug, PartialEq, Eq)]
pub struct User {
    /// Its bytes as they are printed, followed by zeros.
    bytes: [u8; MAX_USER_LEN],
}

impl User {
    /// Returns the user with this name.
    pub(crate) fn new(name: &[u8]) -> Self {
        let mut bytes = [0; MAX_USER_LEN];
        let mut rest = name.iter();
        for place in bytes.iter_mut() {
            if let Some(byte) = rest.next() {
                *place = printed(*byte);
            }
        }
        User { bytes }
    }
}

impl fmt::Display for User {
    fn fmt<W: fmt::Write>(&self, f: &mut fmt::Formatter<W>) -> fmt::Result {
        for byte in self.bytes {
            if byte != 0 {
                write!(f, "{}", char::from(byte))?;
            }
        }
        Ok(())
    }
}
