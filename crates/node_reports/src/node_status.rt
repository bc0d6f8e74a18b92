//! The state of a node.

ghost use Rattle.std.specs.Prelude.{◌≡◌, ◌<◌, ◌≤◌, length, map, slice_get, IfOk, IfSome};
ghost use Rattle.std.specs.List.{concat};
ghost use Rattle.status_text.specs.Status.{status_text};
ghost use Rattle.status_text.specs.StatusLine.{line_text};
ghost use Rattle.node_reports.specs.NodeStatus as spec;
ghost use Rattle.node_reports.specs.NodeStatus.{TellsCounters, TellsInfo, TellsStore, is_closed, rows_within};

use field_text::{cut_at, read_number};
use floor_store::{FloorStore, MAX_ROWS, StoreFault};
use gatekeeping::Counters;
use oath_node::Node;
use status_text::{Rows, Status, StatusLine, Version};
use std::alloc::Global;
use vote_core::Place;

/// What a node's state tells that stays as long as the process runs.
#[derive(Clone, Copy)]
pub struct NodeInfo {
    /// The number of the node, and the number of members.
    pub place: Place,
    /// The version of the program.
    pub version: Version,
    /// The time at which the process began, in seconds since 1970-01-01 00:00:00 UTC.
    pub started: u64,
    /// The fingerprint of the key under which the node tags its datagrams: 16 hexadecimal digits.
    pub fingerprint: [u8; 16],
    /// The print of the users file's rows, if the store knows tokens by their names: 16 hexadecimal digits.
    pub book: Option<[u8; 16]>,
}

/// Returns the number in a text, or 0 if the text is none below 65,536.
fn small_number(text: &[u8]) -> u16 {
    match read_number(text) {
        Some(number) => u16::try_from(number).unwrap_or(0),
        None => 0,
    }
}

/// Returns the version with the text `MAJOR.MINOR.PATCH`.
pub fn version_of(text: &[u8]) -> Version {
    let (major, rest) = cut_at(text, b'.').unwrap_or((text, b""));
    let (minor, patch) = cut_at(rest, b'.').unwrap_or((rest, b""));
    Version {
        major: small_number(major),
        minor: small_number(minor),
        patch: small_number(patch),
    }
}

/// Returns whether a token of a store is closed at a moment.
fn is_closed<S: FloorStore>(store: &S, token: u32, moment: u64) -> Result<bool, StoreFault>
    requires { token < length (S.held store.now).content.rows }
    ensures { (S.held store.now).is_clean → IfOk result (λ closed. IfSome
        (slice_get (S.held store.now).content.rows token) (λ row. closed ≡ is_closed moment row)) }
{
    let gate = store.row(token)?.gate();
    Ok(moment < gate.until())
}

/// Returns the number of the tokens of a store that are closed at a moment.
fn closed_in<S: FloorStore>(store: &S, moment: u64) -> Result<u32, StoreFault>
    ensures { (S.held store.now).is_clean → IfOk result (λ closed.
        closed ≡ spec.closed_in moment (S.held store.now).content.rows) }
{
    let mut closed = 0;
    for token in 0..store.tokens() {
        if is_closed(store, token, moment)? {
            closed += 1;
        }
    }
    Ok(closed)
}

/// Returns the number of all rows of a store, with the maximum number.
fn rows_within(rows: Option<u32>) -> Option<Rows>
    ensures { result ≡ rows_within rows }
{
    match rows {
        Some(number) => Some(Rows {
            number,
            limit: MAX_ROWS as u32,
        }),
        None => None,
    }
}

impl NodeInfo {
    /// Returns the state of a node at a moment, with what its port counted. `rows` is the number of all rows of the
    /// store, if it knows tokens by their names.
    ///
    /// # Errors
    /// Returns the fault that broke the store.
    pub(crate) fn status<S: FloorStore>(
        &self,
        node: &Node<'_, S>,
        rows: Option<u32>,
        counters: Counters,
        moment: u64,
    ) -> Result<Status, StoreFault>
        ensures store { (S.held node.now.store).is_clean → IfOk result (TellsStore moment
            (S.held node.now.store).content) }
        ensures rows { IfOk result (λ status. status.rows ≡ rows_within rows) }
        ensures info { IfOk result (TellsInfo self.now moment) }
        ensures counters { IfOk result (TellsCounters counters) }
    {
        let store = node.store();
        let boot = store.boot()?;
        let closed = closed_in(store, moment)?;
        Ok(Status {
            node: self.place.me(),
            members: self.place.n(),
            boot,
            version: self.version,
            clock: moment,
            started: self.started,
            fingerprint: self.fingerprint,
            book: self.book,
            rows: rows_within(rows),
            tokens: store.tokens(),
            pending: u32::try_from(node.waiting()).unwrap_or(u32::MAX),
            closed,
            received: counters.received,
            replied: counters.replied,
            accepted: counters.accepted,
            refused: counters.refused,
            ticks: counters.ticks,
            largest_batch: counters.largest_batch,
            commit_times: counters.commit_times,
            unopened: counters.unopened,
            others: counters.others,
        })
    }
}

/// Returns the text of lines.
fn text_of(alloc: Global, lines: &[StatusLine]) -> Result<Vec<u8>, StoreFault>
    ensures { IfOk result (λ text. text.items ≡ concat (map line_text lines.now)) }
{
    let mut text = Vec::new(alloc);
    for line in lines {
        if text.extend_from_slice(&line.text()).is_err() {
            return Err(StoreFault::Memory);
        }
    }
    Ok(text)
}

/// Returns the text of a state.
pub(crate) fn status_text(alloc: Global, status: &Status) -> Result<Vec<u8>, StoreFault>
    ensures { IfOk result (λ text. text.items ≡ concat (status_text status.now)) }
{
    text_of(alloc, &status.lines())
}
