//! Tells the floors of a node by names, as its floors file has them.

ghost use Rattle.std.specs.Prelude.{◌≡◌, ◌<◌, ◌++◌, length, slice_get, IsTrue, IfErr, IfOk, IfSome, OnOk};
ghost use Rattle.floor_store.specs.Fault.{is_failure};
ghost use Rattle.floors_file.specs.Named.{named_value};
ghost use Rattle.named_floors.specs.Told.{is_told as spec_is_told, telling_value, told_boot, told_heard, told_named, told_row as spec_told_row, told_rows};

use crate::rows::entry_at;
use floor_store::{FloorStore, StoreFault};
use floors_file::{HeardBoot, NamedFloor, NamedFloors, NamedHead};
use otp_core::Next;
use roster_sql::Entry;
use std::alloc::Global;
use token_names::Name;

/// The node that tells its floors, the time, and its cluster.
#[derive(Clone, Copy, Debug)]
pub struct TellingNode<'a> {
    /// The node, 1 to the number of members.
    pub node: u8,
    /// The number of members of the node's cluster, 1 to 9.
    pub members: u8,
    /// The time of reading, in seconds since 1970-01-01 00:00:00 UTC, below 2^40.
    pub moment: u64,
    /// The word under which the cluster's tokens have their names, 12 to 64 bytes.
    pub names: &'a [u8],
    /// The cluster's life, a word of 1 to 64 bytes.
    pub life: &'a [u8],
}

/// Returns the floor of `token` in `store`.
fn next_of<S: FloorStore>(store: &S, token: u32) -> Result<Next, StoreFault>
    requires { token < length (S.held store.now).content.rows }
    ensures next { (S.held store.now).is_clean → IfOk result (λ next. IfSome
        (slice_get (S.held store.now).content.rows token) (λ row. row.next ≡ next)) }
    ensures failure { IfErr result (λ fault. IsTrue (is_failure fault)) }
{
    Ok(store.row(token)?.next())
}

/// Returns the row of an entry, with a floor.
fn told_row(entry: Entry, next: Next) -> NamedFloor
    ensures { result ≡ spec_told_row entry next }
{
    let Entry { name, seed } = entry;
    let name = Name::new(name);
    NamedFloor { name, seed, next }
}

/// Returns the name, the seed and the floor of each row of `store`, in order.
fn rows_of<S: FloorStore>(
    alloc: Global,
    store: &S,
    roster: &[Entry],
) -> Result<Vec<NamedFloor>, StoreFault>
    requires { length (S.held store.now).content.rows ≡ length roster.now }
    ensures rows { (S.held store.now).is_clean → IfOk result (λ rows.
        rows.items ≡ told_rows roster.now (S.held store.now).content.rows) }
    ensures failure { IfErr result (λ fault. IsTrue (is_failure fault)) }
{
    let mut rows = Vec::new(alloc);
    for token in 0..store.tokens() {
        let next = next_of(store, token)?;
        match rows.push(told_row(entry_at(roster, token), next)) {
            Ok(()) => {}
            Err(_) => return Err(StoreFault::Memory),
        }
    }
    Ok(rows)
}

/// Returns whether the file of `node` has the boot of a member.
fn is_told(node: u8, members: u8, member: u8, boot: u64) -> bool
    ensures { result ≡ spec_is_told node members member boot }
{
    1 <= member && member <= members && member != node && 0 < boot
}

/// Adds the boot of a member, if the file of `node` has it.
fn tell(
    all: &mut Vec<HeardBoot>,
    node: u8,
    members: u8,
    member: u8,
    boot: u64,
) -> Result<(), StoreFault>
    ensures told { OnOk result (all.new.items ≡ all.old.items ++ told_boot node members member boot) }
    ensures failure { IfErr result (λ fault. IsTrue (is_failure fault)) }
{
    if !is_told(node, members, member, boot) {
        return Ok(());
    }
    match all.push(HeardBoot { member, boot }) {
        Ok(()) => Ok(()),
        Err(_) => Err(StoreFault::Memory),
    }
}

/// Returns the boots that the file of `node` has, by ascending members.
fn heard_of(
    alloc: Global,
    node: u8,
    members: u8,
    heard: &[u64; 10],
) -> Result<Vec<HeardBoot>, StoreFault>
    ensures heard { IfOk result (λ all. all.items ≡ told_heard node members heard.now) }
    ensures failure { IfErr result (λ fault. IsTrue (is_failure fault)) }
{
    let mut all = Vec::new(alloc);
    for member in 0..10u8 {
        tell(&mut all, node, members, member, heard[member as usize])?;
    }
    Ok(all)
}

/// Returns the content of the floors file of a node: its boot, and the name, seed and floor of each row of its store.
///
/// `roster` has the entry of each row, also of a retired token. `heard` has the greatest boot that each member was
/// heard in, at the member's number, and 0 if it was not heard. The file has the boots of the other members.
///
/// # Errors
/// - Returns `Memory` if the allocator refuses the memory.
/// - Returns the fault that broke the store.
pub fn named_floors_of<'a, S: FloorStore>(
    alloc: Global,
    store: &S,
    roster: &[Entry],
    telling: TellingNode<'a>,
    heard: &[u64; 10],
) -> Result<NamedFloors<'a>, StoreFault>
    requires { length (S.held store.now).content.rows ≡ length roster.now }
    ensures told { (S.held store.now).is_clean → IfOk result (λ floors. named_value floors
        ≡ told_named (telling_value telling.entry) roster.now heard.now (S.held store.now).content) }
    ensures failure { IfErr result (λ fault. IsTrue (is_failure fault)) }
{
    let boot = store.boot()?;
    let rows = rows_of(alloc, store, roster)?;
    let heard = heard_of(alloc, telling.node, telling.members, heard)?;
    let head = NamedHead {
        node: telling.node,
        members: telling.members,
        boot,
        moment: telling.moment,
        names: telling.names,
        life: telling.life,
    };
    Ok(NamedFloors { head, rows, heard })
}
