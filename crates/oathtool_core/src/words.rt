use hmac_core::Hash;
use otp_core::{Digits, Factor};

/// The greatest window.
pub const MAX_WINDOW: u64 = 1000;

/// The kind of a code.
#[derive(Clone, Copy, Debug, PartialEq, Eq)]
pub enum Mode {
    /// Based on a counter, with SHA-1 (HOTP, RFC 4226).
    Hotp,
    /// Based on time, with this hash (TOTP, RFC 6238).
    Totp(Hash),
}

/// The values of a command line. The texts are unchecked: [`run`](crate::run) reads them, and refuses wrong ones.
#[derive(Clone, Copy)]
pub struct Words<'a> {
    pub mode: Mode,
    /// Whether the key is in base32 (RFC 4648, section 6). Otherwise it is in hexadecimal.
    pub is_base32: bool,
    /// The counter of the first code. Codes based on time ignore it.
    pub counter: Factor,
    /// The number of digits of a code.
    pub digits: Digits,
    /// The number of codes after the first one, or the greatest offset of an OTP. At most [`MAX_WINDOW`] if it is from
    /// a command line.
    pub window: u64,
    /// The length of a time step, 1 to 1,000,000 seconds in decimal digits, which may end with `s`.
    pub step_size: &'a str,
    /// The start of the time steps: `@SECONDS` or `YYYY-MM-DD hh:mm:ss UTC`.
    pub start: &'a str,
    /// The time of the codes, in one of these forms, or `None` for the clock's.
    pub time: Option<&'a str>,
    /// The secret as text, of 1 to 128 bytes.
    pub key: &'a str,
    /// The code to look for, or `None` to print codes.
    pub otp: Option<&'a str>,
}
