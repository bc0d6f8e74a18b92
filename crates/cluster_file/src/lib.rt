//! The cluster file, on whose content all members of a cluster must agree, and the key that follows from it.
//!
//! [`read_cluster`] reads the file. [`shared_text`] writes all values that must be equal at the members: the life, the
//! members in order, the settings, and the users in order. If the file gives a salt, members know tokens by names, and
//! the text has the salt and no users. The text is one-to-one (`shared_texts_tell`).
//!
//! [`shared_key`] is the HMAC of the text under the cluster's key. Members tag their datagrams under it. They have the
//! same key only if all values are equal, or if their texts collide (`shared_keys_tell`).
//!
//! [`fingerprint`] is 16 digits by which two sites compare their shared keys. [`book_print`] is 16 digits by which they
//! compare the rows of their users files, in any order. [`write_named_summary`] writes both with the other values that
//! sites compare.
//!
//! No two of these MACs are over the same bytes. The MAC of a datagram is over bytes that begin with `OV`. The shared
//! text begins with `wakdulg`, and the fingerprint's text is the word `fingerprint`. A row begins with `HOTP`, and the
//! text of a book's print with `book`.
#![tactic(auto)]

mod address;
mod check;
mod cluster;
mod fault;
mod fields;
mod key;
mod laws;
mod reading;
mod rows;
mod said;
mod shared;
mod word;

pub use check::{write_named_summary, write_summary};
pub use cluster::{Cluster, KeySource};
pub use fault::{ClusterFault, LineFault};
pub use key::{fingerprint, shared_key};
pub use laws::{
    addresses_are_spelled, book_prints_agree, book_prints_tell, checks_are_worked,
    clusters_are_shared, fields_are_worked, files_are_worked, keys_are_worked, lines_are_worked,
    macs_are_in_order, prints_are_worked, shared_keys_tell, shared_texts_tell,
    shared_values_can_be_broken,
};
pub use reading::{MAX_CLUSTER_LEN, read_cluster};
pub use rows::book_print;
pub use shared::shared_text;
