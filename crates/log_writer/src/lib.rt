//! Writers of a log, whose calls never fail.
//!
//! A [`SteadyWriter`] stands over a writer that may fail. It hands whole lines on, counts the lines that the writer
//! below refuses, and tells their number when the writer works again. A [`SyslogWriter`] sends each line in a datagram,
//! by an [`Outlet`]. A [`LogWriter`] is one of the two.
#![tactic(auto)]

mod either;
mod laws;
mod line;
mod outlet;
mod pass_on;
mod steady;
mod syslog;
mod waiting;

pub use either::LogWriter;
pub use laws::{faults_are_worked, lines_are_counted, lines_are_worked, messages_are_worked};
pub use line::MAX_LINE_LEN;
pub use outlet::{Outlet, UdpOutlet};
pub use steady::SteadyWriter;
pub use syslog::{MAX_MESSAGE_LEN, SyslogWriter};
