//! A gate before a node, which opens the sealed lines of clients and seals the node's answers.
//!
//! A [`SealedPort`] is a node's port over another one. It passes on the line of a client's datagram if the line is for
//! the node and comes for the first time. The line must be sealed under the key of the client that it names. The port
//! passes over any other datagram of a client: it makes no turn, ends no wait and gets no answer. The port counts it by
//! its [`Cause`]. It seals an answer under the same key and binds it to the line. Members' datagrams pass unchanged,
//! and so do those of clients that may speak plainly.
//!
//! The port opens an operator's request by the same rules. The request waits in the port. In its place the port hands
//! in an empty datagram of member 0, which no cluster has. [`SealedPort::take_request`] takes the request, and
//! [`SealedPort::report`] sends the report on it.
//!
//! After [`SealedPort::drain`] the port answers `BUSY` to each new sealed line, and hands in the empty datagram in its
//! place.
#![tactic(auto)]

mod aside;
mod asked;
mod cause;
mod client;
mod drain_laws;
mod drain_worked;
mod draining;
mod failures;
mod gate;
mod latest_laws;
mod laws;
mod operator;
mod port;
mod record;
mod request_laws;
mod request_worked;
mod requests;
mod worked;

pub use aside::{MAX_ASIDE, SetAside};
pub use asked::{Asked, AskedLines, MAX_ASKED};
pub use cause::{Cause, Unopened};
pub use client::Client;
pub use drain_laws::{draining_lasts, what_is_turned_away_is_answered};
pub use drain_worked::{drained_events_are_worked, draining_is_worked, runs_that_drain_are_worked};
pub use failures::{Failed, Failures};
pub use gate::{Gate, MAX_CLIENTS, SealedLine};
pub use latest_laws::{
    latest_moments_are_worked, marks_can_be_broken, nothing_is_opened_twice_over_boots,
    what_is_opened_is_no_later,
};
pub use laws::{
    answers_are_for_their_lines, nothing_is_opened_twice, what_is_not_opened_has_a_cause,
    what_is_opened_is_sealed,
};
pub use operator::Operator;
pub use port::SealedPort;
pub use request_laws::{
    lines_and_requests_are_apart, nothing_is_taken_twice, reports_are_for_their_requests,
    what_is_set_aside_is_sealed,
};
pub use request_worked::{
    asides_are_worked, report_premises_can_be_met, requests_are_worked, requests_can_be_broken,
    runs_of_requests_are_worked,
};
pub use worked::{
    asked_lines_are_worked, events_are_worked, failures_are_worked, lives_can_be_broken,
    numbers_are_worked, premises_can_be_met, promises_can_be_broken, records_can_be_broken,
    rulings_are_worked, sealed_answers_are_worked, setups_are_worked,
};
