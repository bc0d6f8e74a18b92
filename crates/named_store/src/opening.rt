//! Opens a store of version 3 for the tokens of a users file.

ghost use Rattle.std.specs.Prelude.{◌≡◌, ◌<◌, ◌≤◌, ◌+◌, ◌^◌, ◌++◌, length, vec_len, All, false, IsTrue, IfOk, IfErr, OnOk};
ghost use Rattle.std.specs.Option.{ForSome, option_to_list};
ghost use Rattle.sqlite.specs.Held.{state};
ghost use Rattle.sqlite.specs.State.{HasCleanDisk};
ghost use Rattle.floor_store.specs.Fault.{is_failure};
ghost use Rattle.floor_sql.specs.Calls.{HandsBack, IsOpenedAs, KeepsTables};
ghost use Rattle.floor_sql.specs.Staged.{CanPut};
ghost use Rattle.floor_sql.specs.declared.schema.Format.TheVariants.{Named};
ghost use Rattle.roster_sql.specs.Enrolled.{Enrols};
ghost use Rattle.named_store.specs.Floors.{HasGreatest, seeded_floors as spec_seeded_floors};
ghost use Rattle.named_store.specs.Opened.{AreCounts, AreRows, EnrolsNames, EnrolsNew, HasSeated, IsCause, IsEnrolled, IsGrown, AreWithin, IsRefused, floors_in, rises as spec_rises, seat_rise};
ghost use Rattle.named_store.specs.Seating.{AreNew};
ghost use Rattle.seated_store.specs.Seats.{AreSeats, row_at};

use crate::fault::NamedFault;
use crate::floors::{greatest_floors, rise_of, seeded_floors};
use crate::reading::seat_tokens;
use crate::seats::Seating;
use floor_sql::{Format, Put, Refusal, SqlStore, StoreFiles};
use floor_store::{FloorStore, Row, StoreFault};
use otp_core::Next;
use roster_sql::{Bond, Entry, NAME_LEN, enrol};
use seated_store::SeatedStore;
use sqlite::{Alter, Connection};
use std::alloc::{AllocError, Global};
use std::collections::BTreeMap;

/// The numbers of rows of a store that was opened for the tokens of a users file.
#[derive(Clone, Copy, Debug, PartialEq, Eq)]
pub struct RowCounts {
    /// The number of all rows.
    pub all: u32,
    /// The number of rows that the opening enrolled.
    pub enrolled: u32,
}

/// Opens the store of `node` with `tokens` tokens as it is. Its content has a row for each of them.
pub(crate) fn open_counted<S: Alter>(
    alloc: Global,
    conn: Connection<S>,
    node: u8,
    tokens: u32,
) -> Result<SqlStore<S>, (Connection<S>, StoreFault)>
    requires idle { conn.in_transaction ≡ false }
    requires tokens { tokens ≤ 65536 }
    ensures content { IfOk result (IsOpenedAs S.Store Named conn node tokens) }
    ensures rows { IfOk result (λ store. length store.mirror.rows ≡ tokens) }
    ensures failure { IfErr result (λ e. IsTrue (is_failure e.1)) }
    ensures refused { IfErr result (λ e. HandsBack S.Store conn e.0 (λ _. ⊥)) }
{
    let store = match SqlStore::open_as(alloc, conn, Format::Named, node, tokens) {
        Ok(store) => store,
        Err(refused) => return Err(refused),
    };
    if store.tokens() != tokens {
        return Err((store.close(), StoreFault::Unusable));
    }
    Ok(store)
}

/// Returns the row of `token`.
fn read_row<S: Alter>(store: &SqlStore<S>, token: u32) -> Result<Row, Refusal>
    requires { token < length store.now.mirror.rows }
    ensures row { HasCleanDisk (state S.Store store.now.conn) → IfOk result (λ row.
        row ≡ row_at store.now.mirror.rows token) }
    ensures failure { IfErr result (λ e. IsTrue (is_failure e.0)) }
{
    match store.row(token) {
        Ok(row) => Ok(row),
        Err(fault) => Err(Refusal(fault)),
    }
}

/// Returns the floor of each row of a store.
fn held_floors<S: Alter>(alloc: Global, store: &SqlStore<S>) -> Result<Vec<Next>, Refusal>
    ensures floors { HasCleanDisk (state S.Store store.now.conn)
        → IfOk result (λ all. all.items ≡ floors_in store.now.mirror) }
    ensures count { IfOk result (λ all. vec_len all ≡ length store.now.mirror.rows) }
    ensures failure { IfErr result (λ e. IsTrue (is_failure e.0)) }
{
    let mut all = Vec::with_capacity(alloc, store.tokens() as usize)?;
    for token in 0..store.tokens() {
        match store.row(token) {
            Ok(row) => all.push(row.next())?,
            Err(fault) => return Err(Refusal(fault)),
        }
    }
    Ok(all)
}

/// Returns the floors of the tokens at `places`, for a store with the entries `roster`.
fn new_floors<S: Alter>(
    alloc: Global,
    store: &SqlStore<S>,
    roster: &[Entry],
    names: &[Entry],
    floors: &[Next],
    places: &[u32],
) -> Result<Vec<Next>, Refusal>
    requires rows { length store.now.mirror.rows ≡ length roster.now }
    requires tokens { length floors.now ≡ length names.now }
    requires places { All (λ place. place < length names.now) places.now }
    ensures floors { HasCleanDisk (state S.Store store.now.conn) → IfOk result (λ all.
        all.items ≡ spec_seeded_floors roster.now (floors_in store.now.mirror) names.now floors.now places.now) }
    ensures count { IfOk result (λ all. vec_len all ≡ length places.now) }
    ensures failure { IfErr result (λ e. IsTrue (is_failure e.0)) }
{
    let held = held_floors(alloc, store)?;
    let all = seeded_floors(alloc, roster, &held, names, floors, places)?;
    Ok(all)
}

/// Returns the put that raises the row of a seat to the greatest floor of its seed, or None if it has no lower one. A
/// seat behind the rows is of a new token, which has none.
fn rise_at<S: Alter>(
    store: &SqlStore<S>,
    roster: &[Entry],
    greatest: &BTreeMap<[u8; NAME_LEN], Next>,
    seat: u32,
) -> Result<Option<Put>, Refusal>
    requires rows { length store.now.mirror.rows ≡ length roster.now }
    requires greatest { HasCleanDisk (state S.Store store.now.conn)
        → HasGreatest roster.now (floors_in store.now.mirror) greatest.now }
    ensures put { HasCleanDisk (state S.Store store.now.conn) → IfOk result (λ put.
        put ≡ seat_rise roster.now store.now.mirror seat) }
    ensures token { IfOk result (λ put. ForSome put (λ p. p.token < length store.now.mirror.rows)) }
    ensures failure { IfErr result (λ e. IsTrue (is_failure e.0)) }
{
    if seat as usize >= roster.len() {
        return Ok(None);
    }
    let row = read_row(store, seat)?;
    let entry = roster[seat as usize];
    Ok(rise_of(greatest, &entry.seed, seat, row))
}

/// Adds a value to others, if it is Some.
fn push_some<T: Copy>(all: &mut Vec<T>, item: Option<T>) -> Result<(), Refusal>
    ensures items { OnOk result (all.new.items ≡ all.old.items ++ option_to_list item) }
    ensures failure { IfErr result (λ e. IsTrue (is_failure e.0)) }
{
    if let Some(item) = item {
        all.push(item)?;
    }
    Ok(())
}

/// Returns the puts that raise the rows of seats to the greatest floors of their seeds.
fn rises<S: Alter>(
    alloc: Global,
    store: &SqlStore<S>,
    roster: &[Entry],
    seats: &[u32],
) -> Result<Vec<Put>, Refusal>
    requires rows { length store.now.mirror.rows ≡ length roster.now }
    ensures puts { HasCleanDisk (state S.Store store.now.conn) → IfOk result (λ all.
        all.items ≡ spec_rises roster.now seats.now store.now.mirror) }
    ensures tokens { IfOk result (λ all. AreWithin (length store.now.mirror.rows) all.items) }
    ensures count { IfOk result (λ all. vec_len all ≤ length seats.now) }
    ensures failure { IfErr result (λ e. IsTrue (is_failure e.0)) }
{
    let held = held_floors(alloc, store)?;
    let greatest = greatest_floors(alloc, roster, &held)?;
    let mut all = Vec::new(alloc);
    for seat in seats {
        let put = rise_at(store, roster, &greatest, *seat)?;
        push_some(&mut all, put)?;
    }
    Ok(all)
}

/// Puts rows and enrols tokens in the store of `node` with `tokens` tokens, and opens it.
fn enrol_and_open<S: Alter>(
    alloc: Global,
    mut conn: Connection<S>,
    node: u8,
    tokens: u32,
    count: u64,
    puts: &[Put],
    floors: &[Next],
    entries: &[Entry],
) -> Result<SqlStore<S>, (Connection<S>, StoreFault)>
    requires idle { conn.in_transaction ≡ false }
    requires numbers { tokens + length floors.now ≤ 65536 }
    requires counted { length entries.now ≡ length floors.now }
    requires range { count + length puts.now < 2 ^ 63 }
    requires can { HasCleanDisk (state S.Store conn) → CanPut (state S.Store conn).now count puts.now }
    ensures enrolled { IfOk result (IsEnrolled S.Store conn node tokens count puts.now floors.now entries.now) }
    ensures failure { IfErr result (λ e. IsTrue (is_failure e.1)) }
    ensures refused { IfErr result (λ e.
        IsRefused S.Store (Enrols node tokens count puts.now floors.now entries.now) conn e.0) }
{
    // For the proof: outside a transaction the connection shows the last commit.
    let _ = conn.is_autocommit();
    if let Err(Refusal(fault)) = enrol(&mut conn, node, tokens, count, puts, floors, entries) {
        return Err((conn, fault));
    }
    open_counted(alloc, conn, node, tokens + floors.len() as u32)
}

/// Opens the store of `node` with the entries `roster`, after rows are raised and the new tokens are enrolled.
fn open_grown<S: Alter>(
    alloc: Global,
    conn: Connection<S>,
    node: u8,
    roster: &[Entry],
    names: &[Entry],
    floors: &[Next],
    seating: &Seating,
) -> Result<SqlStore<S>, (Connection<S>, StoreFault)>
    requires idle { conn.in_transaction ≡ false }
    requires tokens { length floors.now ≡ length names.now }
    requires fresh { AreNew roster.now names.now seating.now.places.items seating.now.entries.items }
    requires room { length roster.now + vec_len seating.now.entries ≤ 65536 }
    requires few { vec_len seating.now.seats ≤ 10000 }
    ensures grown { IfOk result (IsGrown S.Store conn node roster.now names.now floors.now seating.now.seats.items) }
    ensures failure { IfErr result (λ e. IsTrue (is_failure e.1)) }
    ensures refused { IfErr result (λ e.
        IsRefused S.Store (EnrolsNew node roster.now names.now floors.now seating.now.seats.items) conn e.0) }
{
    let rows = roster.len() as u32;
    let store = match open_counted(alloc, conn, node, rows) {
        Ok(store) => store,
        Err(refused) => return Err(refused),
    };
    let puts = match rises(alloc, &store, roster, &seating.seats) {
        Ok(puts) => puts,
        Err(Refusal(fault)) => return Err((store.close(), fault)),
    };
    let changes = seating.entries.len() + puts.len();
    if changes == 0 {
        return Ok(store);
    }
    let count = store.pass_count();
    let fresh = match new_floors(alloc, &store, roster, names, floors, &seating.places) {
        Ok(fresh) => fresh,
        Err(Refusal(fault)) => return Err((store.close(), fault)),
    };
    enrol_and_open(
        alloc,
        store.close(),
        node,
        rows,
        count,
        &puts,
        &fresh,
        &seating.entries,
    )
}

/// Returns entries followed by others.
fn both_of(alloc: Global, first: &[Entry], others: &[Entry]) -> Result<Vec<Entry>, AllocError>
    ensures { IfOk result (λ both. both.items ≡ first.now ++ others.now) }
{
    let mut both = Vec::from_slice(alloc, first)?;
    both.extend_from_slice(others)?;
    Ok(both)
}

/// Returns the store that shows the rows `seats` of `store`, which watches its files.
pub(crate) fn seated_at<S: Alter>(
    mut store: SqlStore<S>,
    files: Option<StoreFiles>,
    seats: Vec<u32>,
) -> SeatedStore<SqlStore<S>>
    requires { AreSeats (length store.mirror.rows) seats.items }
    ensures { result ≡ record { inner = store; seats = seats.items; is_unusable = false } }
{
    store.watch(files);
    SeatedStore::new(store, seats)
}

/// Opens the store of `node` for the tokens with the entries `names` and the floors `floors`. Returns it with
/// the numbers of its rows, and the entry of each row.
///
/// The seat of a token is the row with its name. A token without one is enrolled: it gets a row behind the others. Its
/// floor is the greatest of its own one and of those of all rows with its seed. A row with a lower floor than another
/// row with its seed is raised to the greatest of them. All of this is one transaction. If there is nothing to do,
/// nothing is written. The other rows stay, and are not seen. `own` is the cluster that the store has to be bound to.
/// The store watches `files`, if they are given.
///
/// The connection must be outside a transaction and have no limit on its steps. Returns it beside an error. Its tables
/// are as they were then, or have the new tokens.
///
/// # Errors
/// - Returns `AnotherCluster` if the store is bound to another cluster.
/// - Returns `Full` if the store has no room for the new tokens. The tables are as they were.
/// - Returns `Store` with `Unusable` if the tables are not of version 3 or of another node, or a value is out of range.
///   So it does if two rows have one name, or two tokens do.
/// - Returns `Store` with `Memory` or `Disk` if the allocator or the database fails.
pub fn enrol_and_count<S: Alter>(
    alloc: Global,
    mut conn: Connection<S>,
    node: u8,
    names: &[Entry],
    floors: &[Next],
    own: &Bond,
    files: Option<StoreFiles>,
) -> Result<(SeatedStore<SqlStore<S>>, RowCounts, Vec<Entry>), (Connection<S>, NamedFault)>
    requires idle { conn.in_transaction ≡ false }
    requires tokens { length names.now ≤ 10000 }
    requires counted { length floors.now ≡ length names.now }
    ensures opened { IfOk result (λ opened. HasSeated S.Store conn node names.now floors.now own.now opened.0) }
    ensures counts { IfOk result (λ opened. HasCleanDisk (state S.Store opened.0.inner.conn)
        → AreCounts (state S.Store conn).now node names.now own.now opened.1) }
    ensures rows { IfOk result (λ opened. HasCleanDisk (state S.Store opened.0.inner.conn)
        → AreRows (state S.Store conn).now node names.now own.now opened.2.items) }
    ensures fault { IfErr result (λ e. HasCleanDisk (state S.Store e.0)
        → IsCause (state S.Store conn).now node names.now own.now e.1) }
    ensures refused { IfErr result (λ e.
        IsRefused S.Store (EnrolsNames node names.now floors.now own.now) conn e.0) }
    ensures full { IfErr result (λ e. e.1 ≡ NamedFault.Full → KeepsTables S.Store conn e.0) }
{
    // For the proof: outside a transaction the connection shows the last commit.
    let _ = conn.is_autocommit();
    let (roster, seating) = match seat_tokens(alloc, &mut conn, node, names, own) {
        Ok(seated) => seated,
        Err(fault) => return Err((conn, fault)),
    };
    let enrolled = seating.entries.len() as u32;
    let all = roster.len() as u32 + enrolled;
    let Ok(whole) = both_of(alloc, &roster, &seating.entries) else {
        return Err((conn, NamedFault::Store(StoreFault::Memory)));
    };
    match open_grown(alloc, conn, node, &roster, names, floors, &seating) {
        Ok(store) => Ok((
            seated_at(store, files, seating.seats),
            RowCounts { all, enrolled },
            whole,
        )),
        Err((conn, fault)) => Err((conn, NamedFault::Store(fault))),
    }
}

/// Opens a store as [`enrol_and_count`] does, and returns it alone. It watches no files.
///
/// # Errors
/// Returns the errors of [`enrol_and_count`].
pub fn open_named<S: Alter>(
    alloc: Global,
    conn: Connection<S>,
    node: u8,
    names: &[Entry],
    floors: &[Next],
    own: &Bond,
) -> Result<SeatedStore<SqlStore<S>>, (Connection<S>, NamedFault)>
    requires idle { conn.in_transaction ≡ false }
    requires tokens { length names.now ≤ 10000 }
    requires counted { length floors.now ≡ length names.now }
    ensures opened { IfOk result (HasSeated S.Store conn node names.now floors.now own.now) }
    ensures fault { IfErr result (λ e. HasCleanDisk (state S.Store e.0)
        → IsCause (state S.Store conn).now node names.now own.now e.1) }
    ensures refused { IfErr result (λ e.
        IsRefused S.Store (EnrolsNames node names.now floors.now own.now) conn e.0) }
{
    let (store, _counts, _roster) = enrol_and_count(alloc, conn, node, names, floors, own, None)?;
    Ok(store)
}
