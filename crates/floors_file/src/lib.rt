//! The floors file: the floors of a stopped node, from which a lost node's store is replaced.
//!
//! A floor is the first free factor of a token at a node.
//!
//! [`read_floors`] reads the file, and [`write_floors`] writes it. [`read_named_floors`] and [`write_named_floors`] are
//! for a cluster that runs by names.
#![tactic(auto)]

mod fault;
mod fields;
mod floors;
mod gathered;
mod laws;
mod named;
mod named_gathered;
mod named_laws;
mod named_reading;
mod named_rows;
mod named_writing;
mod reading;
mod sealed;
mod writing;

pub use fault::{FloorsFault, LineFault};
pub use floors::{Floor, Floors, Head, MAX_FLOORS_LEN};
pub use gathered::{Asked, FileFault, FilesFault, check_anew, check_lost, gather, greatest};
pub use laws::{files_are_worked, floors_fit, floors_read_back, gathered_are_worked};
pub use named::{HeardBoot, MAX_NAMED_FLOORS_LEN, NamedFloor, NamedFloors, NamedHead};
pub use named_gathered::{check_named_anew, check_named_lost, gather_named};
pub use named_laws::{
    gathered_are_greatest, macs_of_floors_are_worked, named_files_are_worked,
    named_floors_can_be_broken, named_floors_fit, named_floors_one_spelling,
    named_floors_read_back, named_gathered_are_worked,
};
pub use named_reading::read_named_floors;
pub use named_writing::write_named_floors;
pub use reading::read_floors;
pub use writing::write_floors;
