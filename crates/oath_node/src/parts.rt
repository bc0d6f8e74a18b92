use crate::owner::Owner;
use answer_ring::Answers;
use arrayvec::ArrayVec;
use vote_core::{MAX_PENDING, Voter};

/// The parts of a running node that events change: its store, its voter, the owners of the pending proposals, and the
/// kept answers.
#[derive(Drop)]
pub(crate) struct Parts<S> {
    pub(crate) store: S,
    pub(crate) voter: Voter,
    pub(crate) owners: ArrayVec<Owner, MAX_PENDING>,
    pub(crate) answers: Answers,
}
