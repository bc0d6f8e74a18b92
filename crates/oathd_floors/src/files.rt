//! Reads the floors files of a command, and takes those of its cluster.

ghost use Rattle.std.specs.Prelude.{◌≡◌, [], map, false, Ok, Err, IfErr, IfOk, IfSome};
ghost use Rattle.std.specs.Str.{bytes_eq};
ghost use Rattle.floors_file.specs.Named.{named_head_value, named_value};
ghost use Rattle.oathd_floors.specs.Files.{IsOfFile, IsUntaken, file_of, files_after, is_kin, is_memory_of, refusal_of, taking_value};

use crate::fault::NamedFloorsFault;
use floors_file::{FileFault, FilesFault, NamedFloors, NamedHead, read_named_floors};
use oathd_database::Fault;
use oathd_roster::RosterFault;
use roster_sql::Bond;
use std::alloc::Global;

/// The demand of a command on its floors files.
#[derive(Clone, Copy)]
pub(crate) struct Taking<'k> {
    /// The own key of the cluster, under which their MACs are.
    pub(crate) key: &'k [u8],
    /// The cluster.
    pub(crate) own: &'k Bond,
    /// Whether a file of another life and another number of members is taken too.
    pub(crate) is_anew: bool,
    /// The present time, in seconds since 1970-01-01 00:00:00 UTC. No file was read later.
    pub(crate) now: u64,
}

/// Returns whether two texts are equal.
fn is_same(text: &[u8], other: &[u8]) -> bool
    ensures { result ≡ bytes_eq text.now other.now }
{
    text == other
}

/// Returns whether a head is of the cluster, or of a cluster with its names if such a file is taken too.
fn is_kin(taking: Taking<'_>, head: NamedHead<'_>) -> bool
    ensures { result ≡ is_kin (taking_value taking.entry) (named_head_value head.entry) }
{
    is_same(head.names, taking.own.names())
        && (taking.is_anew
            || is_same(head.life, taking.own.life()) && head.members == taking.own.members())
}

/// Returns why the file `number` is not taken, or None.
fn refusal_of(taking: Taking<'_>, number: usize, head: NamedHead<'_>) -> Option<NamedFloorsFault>
    ensures refusal { result ≡ refusal_of (taking_value taking.entry) number (named_head_value head.entry) }
    ensures of_file { IfSome result IsOfFile }
{
    if !is_kin(taking, head) {
        return Some(NamedFloorsFault::Files(FilesFault::File(number, FileFault::Cluster)));
    }
    if taking.now < head.moment {
        return Some(NamedFloorsFault::Ahead(number));
    }
    None
}

/// Returns the content of the floors file `number` with the given text.
fn read_file<'t>(
    alloc: Global,
    taking: Taking<'_>,
    number: usize,
    text: &'t [u8],
) -> Result<NamedFloors<'t>, NamedFloorsFault>
    ensures file { IfOk result (λ file.
        file_of (taking_value taking.entry) number text.now ≡ Ok (named_value file)) }
    ensures fault { IfErr result (λ fault. is_memory_of fault ≡ false
        → file_of (taking_value taking.entry) number text.now ≡ Err fault) }
    ensures of_file { IfErr result IsOfFile }
{
    let file = match read_named_floors(alloc, taking.key, text) {
        Ok(file) => file,
        Err(fault) => return Err(NamedFloorsFault::Floors(number, fault)),
    };
    match refusal_of(taking, number, file.head) {
        Some(fault) => Err(fault),
        None => Ok(file),
    }
}

/// Returns the content of each floors file.
pub(crate) fn read_files<'t>(
    alloc: Global,
    taking: Taking<'_>,
    texts: &'t [Vec<u8>],
) -> Result<Vec<NamedFloors<'t>>, NamedFloorsFault>
    ensures read { IfOk result (λ files. files_after (taking_value taking.entry) []
        (map (λ text. text.items) texts.now) ≡ Ok (map named_value files.items)) }
    ensures fault { IfErr result (IsUntaken (taking_value taking.entry) (map (λ text. text.items) texts.now)) }
{
    let mut files = Vec::new(alloc);
    for text in texts {
        let file = match read_file(alloc, taking, files.len() + 1, text) {
            Ok(file) => file,
            Err(fault) => return Err(fault),
        };
        match files.push(file) {
            Ok(()) => {}
            Err(_) => return Err(NamedFloorsFault::Roster(RosterFault::Command(Fault::Memory))),
        }
    }
    Ok(files)
}
