//! The world of a cluster: its nodes, all their datagrams, and every schedule of events.
//!
//! The nodes answer clients' lines and vote. The events are lines, deliveries in any order and number, ticks, noise,
//! restarts, stops inside a step, losses of stores, and their replacements.
//!
//! [`run_world`] runs a script and returns its report. Its contract holds for every script. No factor of a token is
//! accepted twice. The line with which an acceptance began justifies the acceptance. Each `OK` belongs to an
//! acceptance. The laws [`world_is_safe`], [`answers_belong_to_passes`] and [`one_node_is_the_reference`] claim the
//! same of the definitions.
//!
//! ```rust
//! use cluster_sim::{Act, WorldEvent, run_world};
//! use otp_core::Settings;
//! use token_file::{FromRead, read_book};
//! use vote_wire::ClusterKey;
//!
//! let users = b"HOTP silver - 3132333435363738393031323334353637383930".as_slice();
//! let settings = Settings::default();
//! let (book, floors) = read_book(alloc, &mut FromRead::new(users), settings, 0)?;
//! let key = ClusterKey::new(&[0; 32]).ok_or("a key")?;
//! let line = b"CHECK 1 silver 755224 -";
//! let events = [WorldEvent::Happens(Act::Client { node: 1, client: 7, moment: 100, line })];
//! let report = run_world(alloc, &book, settings, &key, &[floors], &events)?;
//! for answer in report.answers() {
//!     assert_eq!(rt; answer.bytes.as_slice(), b"OK 1 0".as_slice());
//! }
//! ```
#![tactic(auto)]

mod fault;
mod hosting;
mod journal;
mod laws;
mod losses;
mod report;
mod rounds;
mod run;
mod script;
mod simulation;

pub use fault::SimFault;
pub use laws::{
    answers_belong_to_passes, answers_can_be_broken, busy_script_is_worked, drifts_are_worked,
    justifications_can_be_broken, losses_are_worked, one_node_is_the_reference, results_are_worked,
    rounds_are_the_reference, rounds_are_worked, scripts_are_worked, servers_are_worked,
    services_can_be_broken, starts_are_worked, stops_are_worked, sweep_levels, world_is_safe,
};
pub use report::{Report, WorldAnswer, WorldPass};
pub use rounds::{RoundLine, run_rounds};
pub use run::run_world;
pub use script::{Act, WorldEvent};
