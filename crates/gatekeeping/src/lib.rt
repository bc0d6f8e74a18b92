//! A port that tells what it passed over and what it counted, and that operators ask: what the ports between a node and
//! its socket have in common.
//!
//! A [`Gatekeeper`] is a port that may pass over datagrams. It tells how many it didn't open, which members it can't
//! read, which of them went back to an old store and in which boots they were heard. It tells the latest moment that it
//! opened, and hands up the requests of operators.
#![tactic(auto)]

mod commits;
mod counters;
mod gatekeeper;
mod others;
mod read;
mod refused;

pub use commits::{Bucket, CommitTimes};
pub use counters::Counters;
pub use gatekeeper::{Fell, Gatekeeper, Older, PLACES};
pub use others::{MAX_OTHERS, Other, Seen};
pub use read::is_read;
pub use refused::Refused;
