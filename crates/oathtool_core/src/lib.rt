//! The codes that `oathtool` prints, and the offset of an OTP, over any writer.
//!
//! ```rust
//! use hmac_core::Hash;
//! use oathtool_core::{Mode, Words, run};
//! use otp_core::{Digits, Factor};
//!
//! let words = Words {
//!     mode: Mode::Totp(Hash::Sha1),
//!     is_base32: false,
//!     counter: Factor::new(0).ok_or("a counter")?,
//!     digits: Digits::Eight,
//!     window: 0,
//!     step_size: "30s",
//!     start: "@0",
//!     time: Some("2005-03-18 01:58:29 UTC"),
//!     key: "3132333435363738393031323334353637383930",
//!     otp: None,
//! };
//! let mut written = Vec::new(rt.alloc());
//! assert!(rt; run(rt.alloc(), &words, None, &mut written) == Ok(()));
//! assert_eq!(rt; written.as_slice(), b"07081804\n".as_slice());
//! ```
//!
//! The program itself reads its command line, and says which words are wrong.
#![tactic(auto)]

mod codes;
mod emulator;
mod fault;
mod laws;
mod offset;
mod plan;
mod step_size;
mod time;
mod words;

pub use emulator::run;
pub use fault::Fault;
pub use laws::{
    ends_are_told, faults_are_in_order, offsets_are_worked, plans_are_worked, times_are_worked,
};
pub use time::{TimeFault, read_time};
pub use words::{MAX_WINDOW, Mode, Words};
