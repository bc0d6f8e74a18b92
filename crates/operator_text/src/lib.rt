//! The texts of the operator's channel: requests, and the pages of the reports that answer them.
//!
//! [`read_request`] accepts what [`write_request`] writes and nothing else (the law [`requests_have_one_spelling`]). A
//! [`Page`] takes lines of a report, and [`read_page`] reads it. The pages of a report, put together, are its lines
//! (the law [`pages_are_the_report`]). No function allocates.
#![tactic(auto)]

mod laws;
mod number;
mod page;
mod reading;
mod reply;
mod request;
mod worked;

pub use laws::{
    pages_are_read, pages_are_the_report, replies_are_no_pages, requests_have_one_spelling,
};
pub use page::{MAX_LINE_LEN, MAX_PAGE_LEN, Page};
pub use reading::read_page;
pub use reply::{Reply, read_reply, write_reply};
pub use request::{MAX_REQUEST_LEN, Report, Request, read_request, write_request};
pub use worked::{
    lines_can_be_broken, pages_are_worked, pushes_are_worked, readings_are_worked,
    replies_are_worked, reports_can_be_broken, requests_are_worked, wishes_can_be_broken,
};
