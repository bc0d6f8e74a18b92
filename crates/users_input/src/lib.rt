//! An input of two parts: a users file, and the lines of a command.
//!
//! The first line that is `%%` separates them. The input is read up to a limit of bytes, one line at a time.
//!
//! ```rust
//! use token_file::read_book;
//! use users_input::{Input, NextLine, Retrying, UsersFile, text_of};
//!
//! let held = BufReader::new(alloc, Retrying::new(reader).take(u64::from(limit) + 1))?;
//! let mut users = UsersFile::new(alloc, Input::new(held, limit));
//! let (book, floors) = read_book(alloc, &mut users, settings, moment).map_err(|fault| users.fault(fault))?;
//! let (mut rest, first) = users.into_rest()?;
//! let mut line = Vec::new(alloc);
//! while rest.next_line(&mut line)? == NextLine::Whole {
//!     answer(text_of(&line));
//! }
//! ```
#![tactic(auto)]

mod fault;
mod input;
mod laws;
mod retry;
mod users;

pub use fault::{InputFault, UsersFault};
pub use input::{HoldsLine, Input, LimitedText, NextLine, text_of};
pub use laws::{inputs_are_worked, inputs_can_be_broken, stages_are_worked};
pub use retry::Retrying;
pub use users::UsersFile;
