ghost use Rattle.std.specs.Prelude.{◌≡◌, ◌≤◌, ◌<◌, ◌==◌, ◌^◌, false, IfErr, IfOk, IfSome, Ok, Err, length};
ghost use Rattle.std.specs.List.{count_by};
ghost use Rattle.token_file.specs.Fields.{lines_of};
ghost use Rattle.token_names.specs.Names.{IsSalt};
ghost use Rattle.cluster_file.specs.ClusterFile.{after_lines, cluster_of, cluster_value, is_memory, outcome_of};
ghost use Rattle.cluster_file.specs.Said.{nothing_said};

use crate::cluster::Cluster;
use crate::fault::{ClusterFault, LineFault};
use crate::said::Said;
use std::alloc::Global;

/// The maximum length of a cluster file, in bytes.
pub const MAX_CLUSTER_LEN: usize = 65_536;

/// Returns whether a byte ends a line.
fn is_line_end(byte: &u8) -> bool
    ensures { result ≡ (byte.now == 10) }
{
    *byte == b'\n'
}

/// Returns the number of the last line of a text, from 1.
fn last_line(text: &[u8]) -> u64
    ensures { result ≡ length (lines_of text.now) }
{
    let mut number = 0;
    for _line in text.split(is_line_end) {
        number += 1;
    }
    number
}

/// Returns the values of all lines of a text.
fn read_lines(alloc: Global, text: &[u8]) -> Result<Said<'_>, ClusterFault>
    ensures said { IfOk result (λ said. after_lines 1 nothing_said (lines_of text.now) ≡ Ok said) }
    ensures fault { IfErr result (λ fault. is_memory fault.kind ≡ false →
        after_lines 1 nothing_said (lines_of text.now) ≡ Err (fault.line, fault.kind)) }
{
    let mut said = Said::new(alloc);
    let mut number: u64 = 0;
    for line in text.split(is_line_end) {
        number += 1;
        match said.take_line(line) {
            Ok(()) => {}
            Err(kind) => return Err(ClusterFault { line: number, kind }),
        }
    }
    Ok(said)
}

/// Returns the cluster of a text of at most `limit` bytes.
fn read_up_to(alloc: Global, limit: usize, text: &[u8]) -> Result<Cluster<'_>, ClusterFault>
    ensures cluster { IfOk result (λ cluster. outcome_of limit text.now ≡ Ok (cluster_value cluster)) }
    ensures fault { IfErr result (λ fault. is_memory fault.kind ≡ false →
        outcome_of limit text.now ≡ Err (fault.line, fault.kind)) }
{
    if text.len() > limit {
        return Err(ClusterFault {
            line: last_line(&text[..limit]),
            kind: LineFault::TooLong,
        });
    }
    let said = read_lines(alloc, text)?;
    match said.finish() {
        Ok(cluster) => Ok(cluster),
        Err(kind) => Err(ClusterFault {
            line: last_line(text),
            kind,
        }),
    }
}

/// Reads a cluster file of at most 65,536 bytes. The result borrows the text.
///
/// # Errors
///
/// - Returns the first fault of the first faulty line.
/// - Returns a fault of a missing value, with the number of the line after the last LF.
/// - Returns `Memory` if the allocator refuses the memory for a member. It can come at any member.
pub fn read_cluster(alloc: Global, text: &[u8]) -> Result<Cluster<'_>, ClusterFault>
    ensures cluster { IfOk result (λ cluster. cluster_of text.now ≡ Ok (cluster_value cluster)) }
    ensures members { IfOk result (λ cluster.
        (1 ≤ length cluster.members.items) × (length cluster.members.items ≤ 9)) }
    ensures names { IfOk result (λ cluster. IfSome cluster.names (λ salt. IsSalt salt.now)) }
    ensures fault { IfErr result (λ fault. is_memory fault.kind ≡ false →
        cluster_of text.now ≡ Err (fault.line, fault.kind)) }
{
    read_up_to(alloc, MAX_CLUSTER_LEN, text)
}
