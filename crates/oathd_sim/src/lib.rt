//! The command `sim` of `oathd`, over any reader and writer.
//!
//! It reads a users file and a script of what happens to the nodes of a cluster, runs the script, and prints a report.
//!
//! Each line of a script is one event, in fields separated by single spaces:
//! - `client NODE CLIENT MOMENT LINE`, `deliver NODE K`, `tick NODE` and `noise NODE FROM HEX` are actions at a node.
//! - `cut kept EVENT` and `cut lost EVENT` are stops during one of these four actions.
//! - `restart NODE`, `lost NODE` and `anew NODE BOOT NEXT ..` restart a node, lose its store and replace its store.
//!
//! A line `live A B ..` after all events names a strict majority of the nodes in ascending order. Each line after it is
//! `round NODE CLIENT MOMENT LINE`, at one of them. Empty lines and lines that begin with `#` are remarks.
//! [`read_script`] accepts exactly these lines, and names the first bad one (the laws [`grammar_is_read`] and
//! [`scripts_are_in_the_grammar`]). [`write_report`] prints the acceptances, the answers and the number of datagrams
//! sent.
//!
//! ```rust
//! use oathd_sim::run_sim;
//! use otp_core::Settings;
//! use vote_wire::ClusterKey;
//!
//! let mut input = b"HOTP silver - 3132333435363738393031323334353637383930\n%%\n\
//!     client 1 7 100 CHECK a silver 755224 -\n".as_slice();
//! let mut output = Vec::new(alloc);
//! let key = ClusterKey::new(&[0; 32]).unwrap();
//! run_sim(alloc, 1, Settings::default(), 0, &key, 1000, &mut input, &mut output)?;
//! assert!(rt; output.as_slice() == b"pass 0 0 1 0 0 0\nanswer 0 1 7 OK a 0\nsent 0\n".as_slice());
//! ```
#![tactic(auto)]

mod fault;
mod laws;
mod line;
mod parts;
mod reading;
mod report;
mod rounds;
mod script;
mod script_fault;
mod script_laws;
mod sim;

pub use fault::Fault;
pub use laws::{
    faults_are_worked, scripts_are_worked, simulations_are_worked, simulations_can_be_broken,
};
pub use report::write_report;
pub use rounds::MAX_NODES;
pub use script::{Script, read_script};
pub use script_fault::ScriptFault;
pub use script_laws::{
    grammar_is_read, lines_are_worked, reports_are_worked, rounds_are_worked,
    scripts_are_in_the_grammar, scripts_are_read, scripts_can_be_broken,
};
pub use sim::run_sim;
