ghost use Rattle.std.specs.Prelude.{◌≡◌, ◌||◌, ◌+◌, ◌<◌, ◌==◌, drop, slice_get, length, map, IfOk, IfSome, OnOk};
ghost use Rattle.std.specs.List.{list_any};
ghost use Rattle.floors_file.specs.Gathered.{fault_of, is_among};
ghost use Rattle.floors_file.specs.Named.{named_head_value, named_value};
ghost use Rattle.floors_file.specs.NamedGathered.{gathered_rows, is_heard, is_made, is_of_cluster, is_of_named, is_same_cluster, named_anew_fault, named_fault, named_files_fault, named_lost_fault, named_members, named_missing_from, with_rows};

use crate::gathered::{Asked, FileFault, FilesFault, count_fault, is_among, is_enough};
use crate::named::{HeardBoot, NamedFloor, NamedFloors, NamedHead};
use crate::named_rows::NamedRows;
use crate::reading::is_same;
use std::alloc::{AllocError, Global};

/// Returns whether one of the files is a node's, file by file.
fn has_node(node: u8, files: &[NamedFloors<'_>]) -> bool
    ensures { result ≡ list_any (λ file. file.head.node == node) files.now }
{
    files.iter().any(|file| file.head.node == node)
}

/// Returns whether one of the files is a node's.
fn is_of_named(node: u8, files: &[NamedFloors<'_>]) -> bool
    ensures { result ≡ is_of_named node (map named_value files.now) }
{
    has_node(node, files)
}

/// Returns whether two heads are of one cluster.
fn is_same_cluster(head: NamedHead<'_>, other: NamedHead<'_>) -> bool
    ensures { result ≡ is_same_cluster (named_head_value head.entry) (named_head_value other.entry) }
{
    is_same(head.names, other.names)
        && is_same(head.life, other.life)
        && head.members == other.members
}

/// Returns whether a head is of the first file's cluster.
fn is_of_cluster(files: &[NamedFloors<'_>], head: NamedHead<'_>) -> bool
    ensures { result ≡ is_of_cluster (map named_value files.now) (named_head_value head.entry) }
{
    match files {
        [] => true,
        [first, ..] => is_same_cluster(head, first.head),
    }
}

/// Returns whether the store of a member is made. None for `made` stands for each member.
fn is_made(made: Option<u8>, member: u8) -> bool
    ensures { result ≡ is_made made member }
{
    match made {
        None => true,
        Some(node) => member == node,
    }
}

/// Returns whether a boot is not above one that was heard of a member whose store is made.
fn is_heard(boot: u64, made: Option<u8>, heard: &[HeardBoot]) -> bool
    ensures { result ≡ is_heard boot made heard.now }
{
    heard
        .iter()
        .any(|one| is_made(made, one.member) && boot <= one.boot)
}

/// Returns the fault of a file, or None.
fn named_fault(
    asked: Asked,
    lost: &[u8],
    made: Option<u8>,
    files: &[NamedFloors<'_>],
    later: &[NamedFloors<'_>],
    file: &NamedFloors<'_>,
) -> Option<FileFault>
    ensures { result ≡ named_fault asked lost.now made (map named_value files.now) (map named_value later.now)
        (named_value file.now) }
{
    if is_among(file.head.node, lost) {
        return Some(FileFault::IsLost);
    }
    if is_of_named(file.head.node, later) {
        return Some(FileFault::SameNode);
    }
    if !is_of_cluster(files, file.head) {
        return Some(FileFault::Cluster);
    }
    if file.head.moment < asked.since {
        return Some(FileFault::Older);
    }
    if asked.boot <= file.head.boot || is_heard(asked.boot, made, &file.heard) {
        return Some(FileFault::Boot);
    }
    None
}

/// Returns the fault of the file at a place, or None.
fn named_fault_at(
    asked: Asked,
    lost: &[u8],
    made: Option<u8>,
    files: &[NamedFloors<'_>],
    place: usize,
) -> Option<FileFault>
    requires { place < length files.now }
    ensures { IfSome (slice_get files.now place) (λ file. result ≡ named_fault asked lost.now made
        (map named_value files.now) (map named_value (drop (place + 1) files.now)) (named_value file)) }
{
    named_fault(asked, lost, made, files, &files[place + 1..], &files[place])
}

/// Returns the first file with a fault, or None.
fn named_files_fault(
    asked: Asked,
    lost: &[u8],
    made: Option<u8>,
    files: &[NamedFloors<'_>],
) -> Option<FilesFault>
    ensures { result
        ≡ named_files_fault asked lost.now made (map named_value files.now) 0 (map named_value files.now) }
{
    for place in 0..files.len() {
        match named_fault_at(asked, lost, made, files, place) {
            Some(fault) => return Some(FilesFault::File(place + 1, fault)),
            None => {}
        }
    }
    None
}

/// Returns the number of members, by the first file.
fn named_members(files: &[NamedFloors<'_>]) -> u8
    ensures { result ≡ named_members (map named_value files.now) }
{
    match files {
        [] => 0,
        [first, ..] => first.head.members,
    }
}

/// Returns whether a node is lost or has a file.
fn is_there(node: u8, lost: &[u8], files: &[NamedFloors<'_>]) -> bool
    ensures { result ≡ (is_among node lost.now || is_of_named node (map named_value files.now)) }
{
    is_among(node, lost) || is_of_named(node, files)
}

/// Returns the first member that is neither lost nor has a file, or None.
fn first_missing(lost: &[u8], files: &[NamedFloors<'_>], members: u8) -> Option<FilesFault>
    ensures { result ≡ named_missing_from lost.now (map named_value files.now) 1 members }
{
    for number in 0..members {
        let node = number + 1;
        if !is_there(node, lost, files) {
            return Some(FilesFault::Missing(node));
        }
    }
    None
}

/// Checks that the files are sufficient to replace the store of the node `node` while others serve.
///
/// The nodes of the files and the lost nodes must be the members, each once. `node` must be lost, and fewer than a
/// majority may be lost. The files must be of one cluster and meet `asked`. The boot must also be above each that a
/// file has heard of `node`.
///
/// # Errors
///
/// - Returns the first fault, in the order of `named_lost_fault`.
pub fn check_named_lost(
    asked: Asked,
    node: u8,
    lost: &[u8],
    files: &[NamedFloors<'_>],
) -> Result<(), FilesFault>
    ensures { fault_of result ≡ named_lost_fault asked node lost.now (map named_value files.now) }
{
    if !is_among(node, lost) {
        return Err(FilesFault::NotLost);
    }
    if let Some(fault) = named_files_fault(asked, lost, Some(node), files) {
        return Err(fault);
    }
    let members = named_members(files);
    if let Some(fault) = first_missing(lost, files, members) {
        return Err(fault);
    }
    match count_fault(members, lost.len(), files.len()) {
        Some(fault) => Err(fault),
        None => Ok(()),
    }
}

/// Checks that the files are sufficient to replace the stores of a whole cluster.
///
/// Each majority of the former members must have a node with a file, and each node at most one file. The files must be
/// of one cluster and meet `asked`. The boot must also be above each that a file has heard of any member.
///
/// # Errors
///
/// - Returns the first fault, in the order of `named_anew_fault`.
pub fn check_named_anew(asked: Asked, files: &[NamedFloors<'_>]) -> Result<(), FilesFault>
    ensures { fault_of result ≡ named_anew_fault asked (map named_value files.now) }
{
    if let Some(fault) = named_files_fault(asked, &[], None, files) {
        return Err(fault);
    }
    if is_enough(named_members(files), files.len()) {
        Ok(())
    } else {
        Err(FilesFault::TooManyLost)
    }
}

/// Adds the rows of a file.
fn merge_rows(gathered: &mut NamedRows, rows: &[NamedFloor]) -> Result<(), AllocError>
    ensures { OnOk result (gathered.new ≡ with_rows gathered.old rows.now) }
{
    for row in rows {
        gathered.merge(*row)?;
    }
    Ok(())
}

/// Returns each name of any file with its first seed and its greatest floor, in order of first appearance.
///
/// # Errors
///
/// - Returns `AllocError` if the allocator refuses the memory.
pub fn gather_named(alloc: Global, files: &[NamedFloors<'_>]) -> Result<Vec<NamedFloor>, AllocError>
    ensures { IfOk result (λ rows. rows.items ≡ gathered_rows (map named_value files.now)) }
{
    let mut gathered = NamedRows::new(alloc);
    for file in files {
        merge_rows(&mut gathered, &file.rows)?;
    }
    Ok(gathered.into_rows())
}
