ghost use Rattle.std.specs.Option.{option_copied, option_or};
ghost use Rattle.std.specs.Prelude.{◌≡◌, ◌||◌, ◌+◌, ◌≤◌, ◌<◌, ◌==◌, drop, slice_get, length, map, find, option_map, IfOk, IfSome, Ok, Some, None};
ghost use Rattle.std.specs.List.{list_any, position_from};
ghost use Rattle.std.specs.Str.{bytes_eq};
ghost use Rattle.floors_file.specs.Floors.{floor_value, floors_value};
ghost use Rattle.floors_file.specs.Gathered.{anew_fault, count_fault, fault_of, files_fault, floor_in, gathered_floors, greater, greater_of, greatest_of, head_fault, is_among, is_enough, is_in_files, is_of_files, is_stranger, lacks, lost_fault, members_of, missing_from, rows_fault, stranger_fault};
ghost use Rattle.floors_file.specs.Reading.{has_user};

use crate::floors::{Floor, Floors, Head};
use crate::reading::{has_user, is_same};
use otp_core::Next;
use std::alloc::{AllocError, Global};
use thiserror::Error;
use token_file::{Book, Token, TokenId};

/// The conditions on each floors file.
#[derive(Clone, Copy, Debug)]
pub struct Asked {
    /// The moment from which on the file must have been read, in seconds since 1970-01-01 00:00:00 UTC.
    pub since: u64,
    /// The boot of the new store, which must be above the boot of each file.
    pub boot: u64,
}

/// The fault of one of several floors files.
#[derive(Clone, Copy, Debug, PartialEq, Eq, Error)]
pub enum FileFault {
    /// The file's node is one of the lost ones.
    #[error("IsLost")]
    IsLost,
    /// A later file is of the same node.
    #[error("SameNode")]
    SameNode,
    /// The file's number of members differs from the first file's.
    #[error("Members")]
    Members,
    /// The file was read before the required moment.
    #[error("Older")]
    Older,
    /// The new boot is not above the boot of the file's node. The clock lags.
    #[error("Boot")]
    Boot,
    /// The file lacks the user of the token with the number, from 1, of the users file.
    #[error("NoFloor {0}")]
    NoFloor(usize),
    /// The user of the file's line with the number, from 1, is not in the users file.
    #[error("line {0}: NoUser")]
    NoUser(usize),
    /// The file's names word, life or number of members differs from the first file's.
    #[error("Cluster")]
    Cluster,
}

/// The reason why floors files are insufficient to create a store.
#[derive(Clone, Copy, Debug, PartialEq, Eq, Error)]
pub enum FilesFault {
    /// The file with this number, from 1, has a fault.
    #[error("floors {0}: {1}")]
    File(usize, FileFault),
    /// The node whose store is replaced is not one of the lost ones.
    #[error("floors: NotLost")]
    NotLost,
    /// The node is neither lost nor has a file.
    #[error("floors: Missing {0}")]
    Missing(u8),
    /// A lost node is named twice, or is not a member.
    #[error("floors: Surplus")]
    Surplus,
    /// The nodes without a file are a majority.
    #[error("floors: TooManyLost")]
    TooManyLost,
}

/// Returns whether `node` is one of `nodes`.
pub(crate) fn is_among(node: u8, nodes: &[u8]) -> bool
    ensures { result ≡ is_among node nodes.now }
{
    nodes.iter().any(|other| *other == node)
}

/// Returns whether one of the files is a node's, file by file.
fn has_node(node: u8, files: &[Floors<'_>]) -> bool
    ensures { result ≡ list_any (λ file. file.head.node == node) files.now }
{
    files.iter().any(|file| file.head.node == node)
}

/// Returns whether one of the files is a node's.
fn is_of_files(node: u8, files: &[Floors<'_>]) -> bool
    ensures { result ≡ is_of_files node (map floors_value files.now) }
{
    has_node(node, files)
}

/// Returns whether one of the files has a user, file by file.
fn has_file(user: &[u8], files: &[Floors<'_>]) -> bool
    ensures { result ≡ list_any (λ file. has_user user.now (map floor_value file.rows.items)) files.now }
{
    files.iter().any(|file| has_user(user, &file.rows))
}

/// Returns whether one of the files has a user.
fn is_in_files(user: &[u8], files: &[Floors<'_>]) -> bool
    ensures { result ≡ is_in_files user.now (map floors_value files.now) }
{
    has_file(user, files)
}

/// Returns the fault of a file's head, or None.
fn head_fault(
    asked: Asked,
    lost: &[u8],
    members: u8,
    later: &[Floors<'_>],
    head: Head,
) -> Option<FileFault>
    ensures { result ≡ head_fault asked lost.now members (map floors_value later.now) head }
{
    if is_among(head.node, lost) {
        return Some(FileFault::IsLost);
    }
    if is_of_files(head.node, later) {
        return Some(FileFault::SameNode);
    }
    if head.members != members {
        return Some(FileFault::Members);
    }
    if head.moment < asked.since {
        return Some(FileFault::Older);
    }
    if asked.boot <= head.boot {
        return Some(FileFault::Boot);
    }
    None
}

/// Returns whether rows lack a user that they must have.
fn lacks(is_same: bool, files: &[Floors<'_>], rows: &[Floor<'_>], token: &Token) -> bool
    ensures { result ≡ lacks is_same (map floors_value files.now) (map floor_value rows.now) token.now }
{
    !has_user(token.name(), rows) && (is_same || is_in_files(token.name(), files))
}

/// Returns the token with the number `number`, from 0.
fn token_at(book: &Book, number: usize) -> &Token
    requires within { number < length book.now }
    requires few { length book.now ≤ 10000 }
    ensures { slice_get book.now number ≡ Some result.now }
{
    book.token(TokenId::new(number as u32).unwrap())
}

/// Returns the first token of a book whose user the rows must have and lack, or None.
fn first_lacking(
    is_same: bool,
    book: &Book,
    files: &[Floors<'_>],
    rows: &[Floor<'_>],
) -> Option<usize>
    requires { length book.now ≤ 10000 }
    ensures within { IfSome result (λ token. token < 10000) }
    ensures place { result
        ≡ position_from (lacks is_same (map floors_value files.now) (map floor_value rows.now)) 0 book.now }
{
    for number in 0..book.len() {
        if lacks(is_same, files, rows, token_at(book, number)) {
            return Some(number);
        }
    }
    None
}

/// Returns whether a row's user is not in the users file.
fn is_stranger(book: &Book, row: &Floor<'_>) -> bool
    ensures { result ≡ is_stranger book.now (floor_value row.now) }
{
    book.find(row.user).is_none()
}

/// Returns the first row whose user is not in the users file, or None.
fn first_stranger(book: &Book, rows: &[Floor<'_>]) -> Option<usize>
    ensures within { IfSome result (λ row. row < length rows.now) }
    ensures place { result ≡ position_from (λ row. is_stranger book.now (floor_value row)) 0 rows.now }
{
    rows.iter().position(|row| is_stranger(book, row))
}

/// Returns the line of the first row whose user is not in the users file, or None.
fn stranger_line(book: &Book, rows: &[Floor<'_>]) -> Option<usize>
    ensures { result
        ≡ option_map (λ row. row + 2) (position_from (is_stranger book.now) 0 (map floor_value rows.now)) }
{
    match first_stranger(book, rows) {
        Some(row) => Some(row + 2),
        None => None,
    }
}

/// Returns the fault of a file's rows, or None.
fn rows_fault(
    is_same: bool,
    book: &Book,
    files: &[Floors<'_>],
    rows: &[Floor<'_>],
) -> Option<FileFault>
    requires { length book.now ≤ 10000 }
    ensures { result ≡ rows_fault is_same book.now (map floors_value files.now) (map floor_value rows.now) }
{
    if let Some(token) = first_lacking(is_same, book, files, rows) {
        return Some(FileFault::NoFloor(token + 1));
    }
    if !is_same {
        return None;
    }
    match stranger_line(book, rows) {
        Some(line) => Some(FileFault::NoUser(line)),
        None => None,
    }
}

/// Returns the fault of a file, or None.
fn file_fault(
    asked: Asked,
    lost: &[u8],
    is_same: bool,
    book: &Book,
    files: &[Floors<'_>],
    members: u8,
    place: usize,
) -> Option<FileFault>
    requires book { length book.now ≤ 10000 }
    requires place { place < length files.now }
    ensures { IfSome (slice_get files.now place) (λ file. result ≡ option_or
        (head_fault asked lost.now members (map floors_value (drop (place + 1) files.now)) file.head)
        (rows_fault is_same book.now (map floors_value files.now) (map floor_value file.rows.items))) }
{
    let file = &files[place];
    let fault = head_fault(asked, lost, members, &files[place + 1..], file.head);
    if fault.is_some() {
        return fault;
    }
    rows_fault(is_same, book, files, &file.rows)
}

/// Returns the number of members, by the first file.
fn members_of(files: &[Floors<'_>]) -> u8
    ensures { result ≡ members_of (map floors_value files.now) }
{
    match files {
        [] => 0,
        [first, ..] => first.head.members,
    }
}

/// Returns the first file with a fault, or None.
fn files_fault(
    asked: Asked,
    lost: &[u8],
    is_same: bool,
    book: &Book,
    files: &[Floors<'_>],
) -> Option<FilesFault>
    requires { length book.now ≤ 10000 }
    ensures { result
        ≡ files_fault asked lost.now is_same book.now (map floors_value files.now) 0 (map floors_value files.now) }
{
    let members = members_of(files);
    for place in 0..files.len() {
        match file_fault(asked, lost, is_same, book, files, members, place) {
            Some(fault) => return Some(FilesFault::File(place + 1, fault)),
            None => {}
        }
    }
    None
}

/// Returns whether a node is lost or has a file.
fn is_there(node: u8, lost: &[u8], files: &[Floors<'_>]) -> bool
    ensures { result ≡ (is_among node lost.now || is_of_files node (map floors_value files.now)) }
{
    is_among(node, lost) || is_of_files(node, files)
}

/// Returns the first member that is neither lost nor has a file, or None.
fn first_missing(lost: &[u8], files: &[Floors<'_>], members: u8) -> Option<FilesFault>
    ensures { result ≡ missing_from lost.now (map floors_value files.now) 1 members }
{
    for number in 0..members {
        let node = number + 1;
        if !is_there(node, lost, files) {
            return Some(FilesFault::Missing(node));
        }
    }
    None
}

/// Returns whether each majority of `members` members has one of `count` nodes.
pub(crate) fn is_enough(members: u8, count: usize) -> bool
    ensures { result ≡ is_enough members count }
{
    let members = usize::from(members);
    (count > members || members < count + (members / 2 + 1)) && 1 <= count
}

/// Returns the fault of the numbers of lost nodes and files, or None.
///
/// Together they must be the members, and fewer than a majority may be lost.
pub(crate) fn count_fault(members: u8, lost: usize, count: usize) -> Option<FilesFault>
    ensures { result ≡ count_fault members lost count }
{
    let members_len = usize::from(members);
    if count > members_len || lost != members_len - count {
        return Some(FilesFault::Surplus);
    }
    if is_enough(members, count) {
        None
    } else {
        Some(FilesFault::TooManyLost)
    }
}

/// Checks that the files are sufficient to replace the store of the node `node` while others serve.
///
/// The nodes of the files and the lost nodes must be the members, each once. `node` must be lost, and fewer than a
/// majority may be lost. Each file must have a row for each user of the users file and for no other, and meet `asked`.
///
/// # Errors
///
/// - Returns the first fault, in the order of `lost_fault`.
pub fn check_lost(
    asked: Asked,
    node: u8,
    lost: &[u8],
    book: &Book,
    files: &[Floors<'_>],
) -> Result<(), FilesFault>
    requires { length book.now ≤ 10000 }
    ensures { fault_of result ≡ lost_fault asked node lost.now book.now (map floors_value files.now) }
{
    if !is_among(node, lost) {
        return Err(FilesFault::NotLost);
    }
    if let Some(fault) = files_fault(asked, lost, true, book, files) {
        return Err(fault);
    }
    let members = members_of(files);
    if let Some(fault) = first_missing(lost, files, members) {
        return Err(fault);
    }
    match count_fault(members, lost.len(), files.len()) {
        Some(fault) => Err(fault),
        None => Ok(()),
    }
}

/// Checks that the files are sufficient to replace the stores of a whole cluster.
///
/// Each majority of the former members must have a node with a file, and each node at most one file. Each file must
/// have a row for each user of the users file whom a file has, and meet `asked`.
///
/// # Errors
///
/// - Returns the first fault, in the order of `anew_fault`.
pub fn check_anew(asked: Asked, book: &Book, files: &[Floors<'_>]) -> Result<(), FilesFault>
    requires { length book.now ≤ 10000 }
    ensures { fault_of result ≡ anew_fault asked book.now (map floors_value files.now) }
{
    if let Some(fault) = files_fault(asked, &[], false, book, files) {
        return Err(fault);
    }
    if is_enough(members_of(files), files.len()) {
        Ok(())
    } else {
        Err(FilesFault::TooManyLost)
    }
}

/// Returns the row of a user, or None.
fn row_of<'a, 'b>(user: &[u8], rows: &'a [Floor<'b>]) -> Option<&'a Floor<'b>>
    ensures { option_copied result ≡ find (λ row. bytes_eq row.user.now user.now) rows.now }
{
    rows.iter().find(|row| is_same(row.user, user))
}

/// Returns the floor (the first free factor) in the rows for a user, or None.
fn floor_in(user: &[u8], rows: &[Floor<'_>]) -> Option<Next>
    ensures { result ≡ floor_in user.now (map floor_value rows.now) }
{
    match row_of(user, rows) {
        Some(row) => Some(row.next),
        None => None,
    }
}

/// Returns the greater of two floors, one of which may be missing.
fn greater_of(one: Option<Next>, other: Option<Next>) -> Option<Next>
    ensures { result ≡ greater_of one other }
{
    match (one, other) {
        (None, other) => other,
        (one, None) => one,
        (Some(one), Some(other)) => {
            if one.value() <= other.value() {
                Some(other)
            } else {
                Some(one)
            }
        }
    }
}

/// Returns the greatest floor in the files for a user, or None if no file has the user. A floor is a first free factor.
pub fn greatest(user: &[u8], files: &[Floors<'_>]) -> Option<Next>
    ensures { result ≡ greatest_of user.now (map floors_value files.now) }
{
    let mut place = files.len();
    let mut found = None;
    while place > 0 {
        place -= 1;
        found = greater_of(floor_in(user, &files[place].rows), found);
    }
    found
}

/// Returns the floor at a place.
fn floor_at(floors: &[Next], place: usize) -> Next
    requires { place < length floors.now }
    ensures { slice_get floors.now place ≡ Some result }
{
    floors[place]
}

/// Returns the floor of each token of a book: the greatest in the files, or its own if no file has the user.
///
/// # Errors
///
/// - Returns `AllocError` if the allocator refuses the memory.
pub fn gather(
    alloc: Global,
    files: &[Floors<'_>],
    book: &Book,
    own: &[Next],
) -> Result<Vec<Next>, AllocError>
    requires few { length book.now ≤ 10000 }
    requires each { length own.now ≡ length book.now }
    ensures { IfOk result (λ floors. floors.items
        ≡ gathered_floors (map floors_value files.now) book.now own.now) }
{
    let mut floors = Vec::with_capacity(alloc, own.len())?;
    for number in 0..book.len() {
        let token = token_at(book, number);
        let floor = greatest(token.name(), files).unwrap_or(floor_at(own, number));
        floors.push(floor)?;
    }
    Ok(floors)
}
