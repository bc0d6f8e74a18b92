//! The command `roster --drop-retired`: drops the rows of retired tokens whose floors other rows keep.

ghost use Rattle.std.specs.Prelude.{◌≡◌, ◌≢◌, ◌≤◌, ◌<◌, List, length, slice_get, Some, All, IfErr, IfOk, IfSome, OnOk};
ghost use Rattle.std.specs.Io.KnownBytes.{Appends};
ghost use Rattle.sqlite.specs.Held.{state};
ghost use Rattle.sqlite.specs.State.{HasCleanDisk};
ghost use Rattle.oathd_database.specs.Fault.{IsStoreFault};
ghost use Rattle.oathd_database.specs.declared.fault.Fault.TheVariants.{CannotWrite};
ghost use Rattle.oathd_roster.specs.Enrolled.{AreNamesOf};
ghost use Rattle.oathd_roster.specs.declared.fault.RosterFault.TheVariants.{Command};
ghost use Rattle.oathd_floors.specs.Dropped.{HasDropped, IsLeft, IsNotDropped, IsRenewed, drop_text, numbered, numbered_row as spec_numbered_row};
ghost use Rattle.retired_rows.specs.Renewed.{puts_of};
ghost use Rattle.retired_rows.specs.Staying.{entries_in, floors_in, staying};
ghost use Rattle.roster_sql.specs.declared.entry.Entry.{Entry as AnyEntry};

use crate::rows::open_rows;
use floor_sql::{Format, Put, Refusal, SqlStore, is_of_format};
use floor_store::{FloorStore, MAX_ROWS, Pass, Row, StoreFault};
use oathd_database::{Database, Fault};
use oathd_roster::{NamedCluster, RosterFault, read_named_users};
use otp_core::{Next, Settings};
use retired_rows::{NumberedRow, entries_of_rows, floors_of_rows, renewing_puts, staying_rows};
use roster_renewal::renew;
use roster_sql::{Bond, Entry, NAME_LEN};
use sqlite::{Alter, Connection};
use std::alloc::{AllocError, Global};
use std::collections::BTreeSet;
use std::io::{self, Read, Write};

/// The names of the tokens of a users file.
type TokenNames = BTreeSet<[u8; NAME_LEN]>;

/// Returns the names of the tokens of a users file.
fn token_names(alloc: Global, names: &[Entry]) -> Result<TokenNames, AllocError>
    ensures { IfOk result (AreNamesOf names.now) }
{
    let mut all = BTreeSet::new(alloc);
    for entry in names {
        all.insert(entry.name)?;
    }
    Ok(all)
}

/// Returns a row with its number, and whether its name is one of `names`.
fn numbered_row(token: u32, entry: Entry, row: Row, names: &TokenNames) -> NumberedRow
    ensures { (all : List AnyEntry) → AreNamesOf all names.now → result ≡ spec_numbered_row token entry row all }
{
    let is_named = names.contains(&entry.name);
    NumberedRow {
        token,
        entry,
        row,
        is_named,
    }
}

/// Returns the entry of the row of a token.
fn entry_at(roster: &[Entry], token: u32) -> Entry
    requires { token < length roster.now }
    ensures { slice_get roster.now token ≡ Some result }
{
    roster[token as usize]
}

/// Returns the rows of a store with their numbers, and whether `names` has the name of each.
fn numbered_rows<S: FloorStore>(
    alloc: Global,
    store: &S,
    roster: &[Entry],
    names: &[Entry],
) -> Result<Vec<NumberedRow>, StoreFault>
    requires { length (S.held store.now).content.rows ≡ length roster.now }
    ensures { (S.held store.now).is_clean → IfOk result (λ rows.
        rows.items ≡ numbered 0 roster.now (S.held store.now).content.rows names.now) }
{
    let Ok(all) = token_names(alloc, names) else {
        return Err(StoreFault::Memory);
    };
    let mut rows = Vec::new(alloc);
    for token in 0..store.tokens() {
        let row = store.row(token)?;
        match rows.push(numbered_row(token, entry_at(roster, token), row, &all)) {
            Ok(()) => {}
            Err(_) => return Err(StoreFault::Memory),
        }
    }
    Ok(rows)
}

/// What a store is made of that has some rows of another one.
#[derive(Drop)]
struct Renewal {
    /// The entry of each row.
    entries: Vec<Entry>,
    /// The floor of each row.
    floors: Vec<Next>,
    /// What fills the rows and the audit list.
    puts: Vec<Put>,
}

/// Returns what a store is made of that has the rows `kept`, and of `passes` those of these rows.
fn renewal_of(alloc: Global, kept: &[NumberedRow], passes: &[Pass]) -> Result<Renewal, AllocError>
    requires { length kept.now ≤ 65536 }
    ensures entries { IfOk result (λ made. made.entries.items ≡ entries_in kept.now) }
    ensures floors { IfOk result (λ made. made.floors.items ≡ floors_in kept.now) }
    ensures puts { IfOk result (λ made. made.puts.items ≡ puts_of kept.now passes.now) }
    ensures within { IfOk result (λ made. All (λ put. put.token < length kept.now) made.puts.items) }
{
    Ok(Renewal {
        entries: entries_of_rows(alloc, kept)?,
        floors: floors_of_rows(alloc, kept)?,
        puts: renewing_puts(alloc, kept, passes)?,
    })
}

/// Replaces the tables of a store by those of the rows `kept`, in one transaction.
///
/// The rows keep their floors, grants, failures and drifts. Their passes stay in the audit list, and other passes leave
/// it. The boot stays.
fn renew_store<S: Alter + Drop>(
    alloc: Global,
    mut store: SqlStore<S>,
    node: u8,
    kept: &[NumberedRow],
    own: &Bond,
) -> Result<Connection<S>, Fault>
    requires { length kept.now ≤ 65536 }
    ensures renewed { HasCleanDisk (state S.Store store.conn)
        → IfOk result (IsRenewed S.Store node own.now store.mirror.boot kept.now store) }
    ensures fault { IfErr result IsStoreFault }
{
    let boot = store.boot()?;
    let passes = store.passes(alloc)?;
    let Ok(made) = renewal_of(alloc, kept, &passes) else {
        return Err(Fault::Store(StoreFault::Memory));
    };
    let mut conn = store.close();
    if !is_of_format(conn.schema(), Format::Named) {
        // The disk returned something other than what was written.
        return Err(Fault::Store(StoreFault::Unusable));
    }
    let Renewal {
        entries,
        floors,
        puts,
    } = made;
    match renew(&mut conn, node, boot, &floors, &entries, own, &puts) {
        Ok(()) => Ok(conn),
        Err(Refusal(fault)) => Err(Fault::Store(fault)),
    }
}

/// Drops the rows that other rows make needless. Returns the connection to the store, and the number of rows that stay.
///
/// Nothing is written if all rows stay.
fn drop_rows<S: Alter + Drop>(
    alloc: Global,
    store: SqlStore<S>,
    node: u8,
    rows: &[NumberedRow],
    own: &Bond,
) -> Result<(Connection<S>, usize), Fault>
    ensures left { HasCleanDisk (state S.Store store.conn) → IfOk result (λ left.
        IsLeft S.Store node own.now store.mirror.boot rows.now store left.0) }
    ensures count { IfOk result (λ left. left.1 ≡ length (staying rows.now)) }
    ensures fault { IfErr result IsStoreFault }
{
    let Ok(kept) = staying_rows(alloc, rows) else {
        return Err(Fault::Store(StoreFault::Memory));
    };
    let left = kept.len();
    if left == rows.len() {
        return Ok((store.close(), left));
    }
    if left > MAX_ROWS {
        // The disk returned something other than what was written.
        return Err(Fault::Store(StoreFault::Unusable));
    }
    let conn = renew_store(alloc, store, node, &kept, own)?;
    Ok((conn, left))
}

/// Writes how many rows were dropped, and how many are left.
#[tactic(auto, unfolding(crate::specs::Dropped::drop_text))]
fn write_numbers<W: Write>(writer: &mut W, dropped: usize, left: usize) -> io::Result<()>
    ensures { OnOk result (Appends (W.contents writer.old) (W.contents writer.new) (drop_text dropped left)) }
{
    write!(writer, "dropped {dropped}\nrows {left} of 65536\n")
}

/// Writes how many rows were dropped, and how many are left, and flushes.
fn write_flushed<W: Write>(writer: &mut W, dropped: usize, left: usize) -> Result<(), Fault>
    ensures written { OnOk result (Appends (W.contents writer.old) (W.contents writer.new) (drop_text dropped left)) }
    ensures fault { IfErr result (λ fault. fault ≡ CannotWrite) }
{
    if write_numbers(writer, dropped, left).is_err() {
        return Err(Fault::CannotWrite);
    }
    match writer.flush() {
        Ok(()) => Ok(()),
        Err(_) => Err(Fault::CannotWrite),
    }
}

/// Drops rows of retired tokens from the store of a stopped node, in one transaction, and writes how many.
///
/// A row is dropped if the users file hasn't its token, and another row of its device keeps its floor: a row with a
/// greater floor, or a row of the users file with one that is not lower. So a dropped token that comes back begins at a
/// floor that is not lower than that of its row. The rows that stay keep their floors, grants, failures, drifts and
/// passes. They get new numbers, in their order. Tokens of the users file without a row are passed over.
///
/// Returns the connection to the store. Nothing is written if all rows stay.
///
/// # Errors
/// - Returns the errors of [`read_named_users`]. The database is not opened.
/// - Returns `AnotherCluster` if the store is bound to another cluster.
/// - Returns `Command(Store(Unusable))` if the tables hold no store of `node` by names.
/// - Returns `Command(Store(Disk))` or `Command(Store(Memory))` if the store meets such a failure. All rows stay.
/// - Returns `Command(CannotWrite)` if the output fails. The rows are dropped then.
pub fn drop_retired_rows<R: Read + Drop, S: Alter + Drop, D: Database<S>, W: Write>(
    alloc: Global,
    users: R,
    settings: Settings,
    node: u8,
    cluster: &NamedCluster,
    database: D,
    writer: &mut W,
) -> Result<Connection<S>, RosterFault>
    ensures dropped { IfOk result (λ conn. IfSome (R.remaining users) (HasDropped S.Store D.finds cluster.now
        settings 16777216 node (W.contents writer.old) (W.contents writer.new) conn)) }
    ensures fault { IfErr result (λ fault. IfSome (R.remaining users)
        (IsNotDropped S.Store D.finds cluster.now settings 16777216 node fault)) }
    ensures quiet { IfErr result (λ fault. fault ≢ Command CannotWrite
        → W.contents writer.new ≡ W.contents writer.old) }
{
    let named = read_named_users(alloc, users, settings, 0, &cluster.salt)?;
    let (roster, store) = open_rows(alloc, node, cluster, database)?;
    let rows = numbered_rows(alloc, &store, &roster, &named.entries)?;
    let (conn, left) = drop_rows(alloc, store, node, &rows, &cluster.bond)?;
    write_flushed(writer, rows.len().saturating_sub(left), left)?;
    Ok(conn)
}
