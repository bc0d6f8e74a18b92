//! The command `cluster` of `oathd`, over any reader and writer.
//!
//! It runs the nodes of a cluster in one process, each over its own UDP socket on this machine. It sends them the lines
//! of the input, one after the other.
//!
//! ```rust
//! use oathd_cluster::run_cluster;
//! use otp_core::Settings;
//! use vote_wire::ClusterKey;
//!
//! let users = b"HOTP silver - 3132333435363738393031323334353637383930".as_slice();
//! let mut lines = b"1 1000 CHECK 1 silver 755224 -\n".as_slice();
//! let mut output = Vec::new(alloc);
//! let key = ClusterKey::new(&[0; 32]).unwrap();
//! run_cluster(alloc, &rt, 3, Settings::default(), 0, &key, users, 1000, &mut lines, &mut output)?;
//! assert!(rt; output.as_slice() == b"1 OK 1 0\n".as_slice());
//! ```
#![tactic(auto)]

mod answer;
mod fault;
mod laws;
mod line;
mod rounds;
mod run;
mod sockets;

pub use fault::Fault;
pub use laws::{cluster_lines_are_worked, clusters_can_be_broken, faults_are_worked};
pub use run::run_cluster;
