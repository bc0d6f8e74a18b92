//! Asks running nodes: seals an operator's requests, sends them, and opens the reports.
//!
//! An [`Asker`] has a socket. A request is sent at most three times, a second apart, sealed anew under the operator's
//! key each time. [`print_report`] gathers the pages of a report, and prints its lines. [`survey`] asks all members of
//! a cluster for their state, and prints a table ([`write_table`]). A [`Sent`] is a request on its way, without a
//! socket. A first page that others follow counts on the last sending alone, so that a late one isn't joined with pages
//! of another text.
#![tactic(auto)]

mod asker;
mod fault;
mod inquiry;
mod laws;
mod report;
mod sent;
mod states;
mod table;

pub use asker::Asker;
pub use fault::AskFault;
pub use inquiry::inquire;
pub use laws::{
    first_pages_are_worked, first_pages_begin_reports, pages_can_be_broken, reports_are_whole,
    surveys_are_worked, surveys_can_be_broken,
};
pub use report::{AskedNode, print_report};
pub use sent::{MAX_SENDINGS, Sent};
pub use states::survey;
pub use table::{Health, health_of, write_table};
