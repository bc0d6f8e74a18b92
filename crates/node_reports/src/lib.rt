//! The reports of a running node, which an operator asks for.
//!
//! A [`Responder`] takes at most one request after each batch of the node, when everything is committed. A report is
//! the text of the offline command over the same rows, in pages ([`page_of_text`]). The pages of a report come from one
//! moment: the responder keeps the text until another report begins.
//!
//! Requests of readers take at most a second of a node's time, one of them, and 2 per cent of the time that passes (the
//! law [`readers_are_bounded`]). Others are refused as busy.
#![tactic(auto)]

mod allowance;
mod laws;
mod named;
mod node_status;
mod passes;
mod placed;
mod responder;
mod source;
mod text;

pub use allowance::Allowance;
pub use laws::{
    allowances_are_worked, pages_are_the_text, readers_are_bounded, readers_can_be_broken,
    readers_change_nothing, requests_can_be_broken, rows_are_worked, texts_are_worked,
};
pub use named::{NamedRows, floors_text, gates_text, roster_text};
pub use node_status::{NodeInfo, version_of};
pub use passes::PassList;
pub use placed::PlacedRows;
pub use responder::Responder;
pub use source::ReportSource;
pub use text::page_of_text;
