//! Reads the names of a store's tokens, and the cluster that the store is bound to.

ghost use Rattle.std.specs.Prelude.{◌≡◌, ◌↔◌, ◌<◌, ◌≤◌, ℕ, List, None, pos, length, IsTrue, IfOk, IfSome, vec_len};
ghost use Rattle.sqlite.specs.declared.types.Value.TheVariants.{Int, Blob};
ghost use Rattle.sqlite.specs.Order.{column};
ghost use Rattle.sqlite.specs.Held.{state};
ghost use Rattle.sqlite.specs.State.{HasCleanDisk};
ghost use Rattle.floor_sql.specs.Schema.{schema_of};
ghost use Rattle.floor_sql.specs.Shown.{Finds};
ghost use Rattle.floor_sql.specs.Steps.{ReadsTables};
ghost use Rattle.floor_sql.specs.declared.schema.Format.TheVariants.{Named};
ghost use Rattle.roster_sql.specs.Read.{HasUsableBond, HasUsableEntry, IsBond, IsEntry, IsMembers, IsName, bond_shown, entry_shown};
ghost use Rattle.roster_sql.specs.Roster.{HoldsBond, HoldsEntry, HoldsRoster, bond_values, entry_values};

use crate::entry::{Bond, Entry, NAME_LEN};
use crate::texts::{SELECT_BOND, SELECT_ENTRY};
use floor_sql::{Refusal, ask, token_params};
use floor_store::StoreFault;
use sqlite::types::ValueRef;
use sqlite::{Alter, Connection};
use std::alloc::Global;

/// Returns whether a column shows the number of a token.
fn is_token_at(shown: &sqlite::Row, at: usize, token: u32) -> bool
    ensures { IsTrue result ↔ (column shown.now at ≡ Int (pos token)) }
{
    match shown.get_ref(at) {
        Ok(ValueRef::Int(number)) => number == i64::from(token),
        _ => false,
    }
}

/// Returns the name in a column, or None if the column shows anything but 16 bytes.
fn name_at(shown: &sqlite::Row, at: usize) -> Option<[u8; NAME_LEN]>
    ensures { Finds (λ name. column shown.now at ≡ Blob name) IsName result }
{
    match shown.get_ref(at) {
        Ok(ValueRef::Blob(bytes)) => {
            let name: &[u8; NAME_LEN] = bytes.try_into().ok()?;
            Some(*name)
        }
        _ => None,
    }
}

/// Returns the entry of the token in the columns of `roster`, or None if they show no such entry.
fn entry_in(shown: &sqlite::Row, token: u32) -> Option<Entry>
    ensures { Finds (λ entry. entry_shown shown.now ≡ entry_values token entry) IsEntry result }
{
    if !is_token_at(shown, 0, token) {
        return None;
    }
    let name = name_at(shown, 1)?;
    let seed = name_at(shown, 2)?;
    Some(Entry { name, seed })
}

/// Reads the entry of a token.
fn read_entry<S: Alter>(conn: &mut Connection<S>, token: u32) -> Result<Entry, Refusal>
    requires { HasCleanDisk (state S.Store conn.old) → conn.old.schema ≡ schema_of Named }
    ensures { ReadsTables S.Store conn.old conn.new (λ db. HoldsEntry db.trees token)
        (λ db. HasUsableEntry db.trees token) result }
{
    let params = token_params(token);
    let rows = ask(conn, SELECT_ENTRY, &params)?;
    let [shown] = rows.as_slice() else {
        return Err(Refusal(StoreFault::Unusable));
    };
    match entry_in(shown, token) {
        Some(entry) => Ok(entry),
        None => Err(Refusal(StoreFault::Unusable)),
    }
}

/// Reads the entries of `tokens` tokens, in the order of their numbers.
///
/// # Errors
/// - Returns `Unusable` if a token has no row in `roster`, or one that holds no entry.
/// - Returns `Memory` or `Disk` if the allocator or the database fails.
pub fn read_roster<S: Alter>(
    alloc: Global,
    conn: &mut Connection<S>,
    tokens: u32,
) -> Result<Vec<Entry>, Refusal>
    requires { HasCleanDisk (state S.Store conn.old) → conn.old.schema ≡ schema_of Named }
    ensures reads { ReadsTables S.Store conn.old conn.new (λ db entries. HoldsRoster db.trees entries.items)
        (λ db. (token : ℕ) → token < tokens → HasUsableEntry db.trees token) result }
    ensures tokens { IfOk result (λ entries. vec_len entries ≡ tokens) }
{
    let mut entries = Vec::with_capacity(alloc, tokens as usize)?;
    for token in 0..tokens {
        let entry = read_entry(conn, token)?;
        entries.push(entry)?;
    }
    Ok(entries)
}

/// Returns the bytes in a column, or None if the column shows anything else.
fn bytes_at(shown: &sqlite::Row, at: usize) -> Option<&[u8]>
    ensures value { IfSome result (λ bytes. column shown.now at ≡ Blob bytes.now) }
    ensures none { result ≡ None → (bytes : List ℕ) → ¬ (column shown.now at ≡ Blob bytes) }
{
    match shown.get_ref(at) {
        Ok(ValueRef::Blob(bytes)) => Some(bytes),
        _ => None,
    }
}

/// Returns the number of members in a column, or None if the column shows no number up to 255.
fn members_at(shown: &sqlite::Row, at: usize) -> Option<u8>
    ensures { Finds (λ members. column shown.now at ≡ Int (pos members)) IsMembers result }
{
    match shown.get_ref(at) {
        Ok(ValueRef::Int(number)) if 0 <= number && number <= 255 => Some(number as u8),
        _ => None,
    }
}

/// Returns the bond in the columns of `bond`, or None if they show no bond.
fn bond_in(shown: &sqlite::Row) -> Option<Bond>
    ensures { Finds (λ own. bond_shown shown.now ≡ bond_values own) IsBond result }
{
    if !is_token_at(shown, 0, 1) {
        return None;
    }
    let names = bytes_at(shown, 1)?;
    let life = bytes_at(shown, 2)?;
    let members = members_at(shown, 3)?;
    Bond::new(names, life, members)
}

/// Reads the cluster that the store is bound to.
///
/// # Errors
/// - Returns `Unusable` if the table `bond` has no row, or one that holds no bond.
/// - Returns `Memory` or `Disk` if the allocator or the database fails.
pub fn read_bond<S: Alter>(conn: &mut Connection<S>) -> Result<Bond, Refusal>
    requires { HasCleanDisk (state S.Store conn.old) → conn.old.schema ≡ schema_of Named }
    ensures { ReadsTables S.Store conn.old conn.new (λ db. HoldsBond db.trees)
        (λ db. HasUsableBond db.trees) result }
{
    let rows = ask(conn, SELECT_BOND, &[])?;
    let [shown] = rows.as_slice() else {
        return Err(Refusal(StoreFault::Unusable));
    };
    match bond_in(shown) {
        Some(own) => Ok(own),
        None => Err(Refusal(StoreFault::Unusable)),
    }
}
