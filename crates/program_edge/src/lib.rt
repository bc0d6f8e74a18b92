//! The shared edge of the programs: the words of the process, lines of output, and the end of a run.
#![tactic(auto)]

mod fault;
mod laws;
mod output;
mod status;
mod words;

pub use fault::OutsideFault;
pub use laws::lines_are_worked;
pub use output::{flushed, write_line};
pub use status::{ProgramFault, USAGE, exit_status};
pub use words::process_words;
