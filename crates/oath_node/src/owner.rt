//! The owners of pending proposals: the lines that wait for votes.

ghost use Rattle.std.specs.Option.{option_copied};
ghost use Rattle.std.specs.Prelude.{◌≡◌};
ghost use Rattle.oath_node.specs.Machine.{is_owned, owner_with as spec_owner_with};

use answer_ring::MAX_LINE_LEN;
use arrayvec::ArrayVec;
use client_lines::Nonce;
use std::marker::Model;

/// The client and the line that a pending proposal is for. The line has no LF at its end.
#[derive(Default, Drop)]
pub(crate) struct Owner {
    pub(crate) seq: u64,
    pub(crate) client: u64,
    pub(crate) line: ArrayVec<u8, MAX_LINE_LEN>,
    pub(crate) nonce: Nonce,
}

impl Model for Owner {
    ghost use Rattle.oath_node.specs.Machine.{Owner as OwnerRecord};

    ghost Value = { OwnerRecord };

    ghost view = { λ owner. record {
      seq = owner.seq;
      client = owner.client;
      line = owner.line.items;
      nonce = owner.nonce;
    } };
}

/// Returns whether `line` of `client` waits.
pub(crate) fn is_waiting(owners: &[Owner], client: u64, line: &[u8]) -> bool
    ensures { result ≡ is_owned owners.now client line.now }
{
    for owner in owners {
        if owner.client == client && owner.line.as_slice() == line {
            return true;
        }
    }
    false
}

/// Returns the owner of the proposal with the number `seq`, or None.
pub(crate) fn owner_with(owners: &[Owner], seq: u64) -> Option<&Owner>
    ensures { option_copied result ≡ spec_owner_with seq owners.now }
{
    for owner in owners {
        if owner.seq == seq {
            return Some(owner);
        }
    }
    None
}
