//! Reads what a store says of its tokens and its cluster.

ghost use Rattle.std.specs.Prelude.{◌≡◌, ◌≢◌, ◌≤◌, ◌↔◌, ◌+◌, length, vec_len, IsTrue, IfOk, IfErr};
ghost use Rattle.sqlite.specs.Held.{state};
ghost use Rattle.sqlite.specs.State.{HasCleanDisk};
ghost use Rattle.floor_sql.specs.Shown.{IsRead};
ghost use Rattle.floor_sql.specs.Steps.{ReadsTables};
ghost use Rattle.named_store.specs.Looked.{IsUnseated};
ghost use Rattle.named_store.specs.Opened.{HasNames, HasUsableNames, IsCause, Looks};
ghost use Rattle.named_store.specs.Seating.{AreDistinct, AreNew, AreSeatsOf};

use crate::fault::NamedFault;
use crate::seats::{Seating, find_seats};
use floor_sql::Refusal;
use floor_store::{MAX_ROWS, StoreFault};
use roster_sql::{Bond, Entry, node_of_named, read_bond, read_roster};
use sqlite::{Alter, Connection};
use std::alloc::Global;

/// The entries of a store's tokens, and its bond.
#[derive(Drop)]
pub(crate) struct Named {
    pub(crate) roster: Vec<Entry>,
    bond: Bond,
}

/// Returns whether two bonds are the same.
fn is_same(bond: &Bond, own: &Bond) -> bool
    ensures { IsTrue result ↔ (bond.now ≡ own.now) }
{
    bond.names() == own.names() && bond.life() == own.life() && bond.members() == own.members()
}

/// Reads the entries and the bond of the store of `node`.
pub(crate) fn read_named<S: Alter>(
    alloc: Global,
    conn: &mut Connection<S>,
    node: u8,
) -> Result<Named, Refusal>
    ensures reads { ReadsTables S.Store conn.old conn.new
        (λ db named. HasNames db node named.roster.items named.bond) (λ db. HasUsableNames db node) result }
    ensures range { IfOk result (λ named. vec_len named.roster ≤ 65536) }
{
    let (own, tokens) = node_of_named(conn)?;
    if own != node {
        return Err(Refusal(StoreFault::Unusable));
    }
    let bond = read_bond(conn)?;
    let roster = read_roster(alloc, conn, tokens)?;
    Ok(Named { roster, bond })
}

/// Reads the entries of the store of `node` that is bound to `own`, and finds the seats of the tokens. New tokens have
/// seats behind the rows, if there is room or not.
pub(crate) fn find_tokens<S: Alter>(
    alloc: Global,
    conn: &mut Connection<S>,
    node: u8,
    names: &[Entry],
    own: &Bond,
) -> Result<(Vec<Entry>, Seating), NamedFault>
    requires tokens { length names.now ≤ 10000 }
    ensures looks { Looks S.Store conn.old conn.new (λ db r. HasNames db node r.0.items own.now)
        (λ db. IsUnseated db own.now) result }
    ensures never_full { IfErr result (λ fault. fault ≢ NamedFault.Full) }
    ensures seats { IfOk result (λ r. AreSeatsOf r.0.items names.now r.1.seats.items) }
    ensures fresh { IfOk result (λ r. AreNew r.0.items names.now r.1.places.items r.1.entries.items) }
    ensures distinct { IfOk result (λ r. AreDistinct r.0.items) }
    ensures rows { IfOk result (λ r. vec_len r.0 ≤ 65536) }
{
    let named = read_named(alloc, conn, node)?;
    if !is_same(&named.bond, own) {
        return Err(NamedFault::AnotherCluster);
    }
    let seating = find_seats(alloc, &named.roster, names)?;
    Ok((named.roster, seating))
}

/// Reads the entries of the store of `node` that is bound to `own`, and finds the seats of the tokens in it.
pub(crate) fn seat_tokens<S: Alter>(
    alloc: Global,
    conn: &mut Connection<S>,
    node: u8,
    names: &[Entry],
    own: &Bond,
) -> Result<(Vec<Entry>, Seating), NamedFault>
    requires tokens { length names.now ≤ 10000 }
    ensures looks { Looks S.Store conn.old conn.new (λ db r. HasNames db node r.0.items own.now)
        (λ db. IsCause db node names.now own.now) result }
    ensures full { IfErr result (λ fault. fault ≡ NamedFault.Full → HasCleanDisk (state S.Store conn.new)
        → IsRead (state S.Store conn.old) (state S.Store conn.new)) }
    ensures seats { IfOk result (λ r. AreSeatsOf r.0.items names.now r.1.seats.items) }
    ensures fresh { IfOk result (λ r. AreNew r.0.items names.now r.1.places.items r.1.entries.items) }
    ensures distinct { IfOk result (λ r. AreDistinct r.0.items) }
    ensures room { IfOk result (λ r. vec_len r.0 + vec_len r.1.entries ≤ 65536) }
{
    let (roster, seating) = find_tokens(alloc, conn, node, names, own)?;
    if roster.len() + seating.entries.len() > MAX_ROWS {
        return Err(NamedFault::Full);
    }
    Ok((roster, seating))
}
