//! The users file: the tokens of a server, and the floor of each, which is its first free factor.
#![tactic(auto)]

mod book;
mod entry;
mod fault;
mod fields;
mod floor;
mod laws;
mod reading;
mod row;
mod source;
mod token;
mod type_word;
mod write;

pub use book::{Book, TokenId};
pub use fault::{FileFault, LineFault};
pub use field_text::is_word;
pub use fields::first_field;
pub use laws::{
    files_are_worked, files_read_back, pulls_can_be_broken, rows_are_worked, rows_read_back,
    tokens_are_credentials,
};
pub use reading::{MAX_FILE_LEN, MAX_LINE_LEN, read_book};
pub use source::{FromRead, Pulled, Source};
pub use token::{Kind, MAX_NAME_LEN, Password, Token};
pub use write::write_row;
