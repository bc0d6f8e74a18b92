//! The parts of the command `serve`: a node for the clients that its clients file names, with a log.
//!
//! [`serve_port`] serves a node that is open already, over any port. What is asked after each batch is an [`Attend`].
#![tactic(auto)]

mod attend;
mod gate;
mod laws;
mod node_key;
mod serve;
mod serving;
mod setup_laws;
mod stretch_laws;

pub use attend::{Attend, Attended, Stop};
pub use gate::{ClientLines, Front, front_of};
pub use laws::{fronts_can_be_broken, members_follow_their_file};
pub use node_key::{NodeKey, node_keys_tell, tag_key};
pub use serve::{
    KeptSocket, ServeLog, log_of, open_node, serve_node, serve_port, socket_at, start_of,
};
pub use serving::Serving;
pub use setup_laws::{lines_given_again_can_be_broken, setups_are_worked, setups_can_be_broken};
pub use stretch_laws::{
    acts_can_be_broken, stretches_are_counted, stretches_can_be_broken,
    stretches_without_acts_are_one,
};
