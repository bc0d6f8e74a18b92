//! The commands of `oathd` over a users file and a database, from the first to the last step.
//!
//! Each has a file with its name and a function `.._store` over any [`Database`]. A program passes a [`DatabaseFile`].
//! For [`init_store`], [`init_member_store`] and [`init_lost_store`] the file may be missing or empty.
#![tactic(auto)]

mod audit;
mod database;
mod export;
mod fault;
mod file;
mod file_laws;
mod floors;
mod gates;
mod gather;
mod init;
mod laws;
mod level;
mod lost;
mod made;
mod migrate;
mod rows;
mod unlock;
mod users;

pub use audit::{write_audit, write_passes};
pub use database::{Database, open_store};
pub use export::write_rows;
pub use fault::Fault;
pub use file::DatabaseFile;
pub use file_laws::openings_find_what_is_left;
pub use floors::{floors_of, floors_store};
pub use gates::write_gates;
pub use gather::GatherFault;
pub use init::init_store;
pub use laws::{
    anew_is_worked, commands_can_be_broken, drifted_floors_are_worked, faults_are_worked,
    files_reach, files_reach_anew, floors_can_be_broken, gates_are_worked, gates_can_be_broken,
    imports_can_be_broken, levelling_is_worked, texts_are_worked, unlocking_is_worked,
};
pub use level::{level_rows, level_store};
pub use lost::{LostNode, init_lost_store};
pub use made::{
    init_member_store, made_is_worked, time_tokens_are_ready, write_fresh, write_made, write_store,
};
pub use migrate::migrate_store;
pub use unlock::open_gate;
pub use users::{Users, drifted_floors, read_users};
