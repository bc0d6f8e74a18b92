//! Reads the fields of a line of bytes: a text cut in two at a mark, a number in decimal digits, and a word without
//! blanks.
#![tactic(auto)]

mod cut;
mod laws;
mod number;
mod word;

pub use cut::cut_at;
pub use laws::fields_are_worked;
pub use number::read_number;
pub use word::{MAX_WORD_LEN, is_blank, is_word};
