//! The commands `lines` and `secret` of `oathd`, over any reader and writer.
//!
//! `lines` answers the lines of clients that follow a users file. `secret` prints a secret in base32.
//!
//! ```rust
//! use oathd_lines::serve_lines;
//! use otp_core::Settings;
//! use vote_wire::ClusterKey;
//!
//! let mut input = b"HOTP silver - 3132333435363738393031323334353637383930\n%%\n\
//!     7 100 CHECK 1 silver 755224 -\n".as_slice();
//! let mut output = Vec::new(alloc);
//! let key = ClusterKey::new(&[0; 32]).unwrap();
//! serve_lines(alloc, Settings::default(), 0, &key, 1000, &mut input, &mut output)?;
//! assert!(rt; output.as_slice() == b"OK 1 0\n".as_slice());
//! ```
#![tactic(auto)]

mod client;
mod fault;
mod laws;
mod lines;
mod secret;

pub use fault::Fault;
pub use laws::{client_lines_are_worked, runs_are_worked, runs_can_be_broken};
pub use lines::serve_lines;
pub use secret::print_secret;
