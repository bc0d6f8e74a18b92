//! The public names, by crate.

pub use admit_core::{Gate, find_check, find_resync, password_fits, resync_window, window};
pub use cluster_sim::{Act, Report, RoundLine, SimFault, WorldEvent, run_rounds, run_world};
pub use floor_sql::SqlStore;
pub use floor_store::{FloorStore, FuseStore, MemStore, Pass, Proposal, Row, StoreFault};
pub use hmac_core::{Hash, Mac, hmac};
pub use oath_node::{
    Answers, Clock, Count, Event, Kept, Node, NodeFault, OpenFault, Outputs, Port, Received,
    Sender, ServeFault, Served, run_turns,
};
pub use oathtool_core::{TimeFault, read_time};
pub use otp_core::{Code, Digits, Factor, Next, Secret, Settings, code, step, truncate};
pub use secret_text::{SecretFault, read_base32, read_hex, write_base32};
pub use token_file::{
    Book, FileFault, FromRead, Kind, LineFault, Password, Pulled, Source, Token, TokenId,
    read_book, write_row,
};
pub use vote_core::{Decision, Message, Place, Step, VoteFault, Voter, majority};
pub use vote_wire::{
    Answer, ClusterKey, Line, read_line, read_message, tag, write_answer, write_message,
};
