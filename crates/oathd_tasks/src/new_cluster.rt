//! The command `new-cluster`: prints a cluster file with new names, without its members.

ghost use Rattle.std.specs.Prelude.{◌≡◌, OnOk};
ghost use Rattle.std.specs.Io.KnownBytes.{Appends};
ghost use Rattle.hex.specs.Hex.{encode_lower};
ghost use Rattle.oathd_tasks.specs.NewCluster.{NewClusterEndsSo, names_line, new_cluster_text};

use crate::fault::Fault;
use std::io::{self, Write};
use std::random::RandomSource;

/// The length of a new names word before it is written in hexadecimal, in bytes.
const NAMES_LEN: usize = 16;

/// Returns `bytes` in hexadecimal digits.
fn digits_of(bytes: &[u8; NAMES_LEN]) -> [u8; 2 * NAMES_LEN]
    ensures { result ≡ encode_lower bytes.now }
{
    let mut digits = [0; 2 * NAMES_LEN];
    hex::encode_to_slice(bytes, &mut digits).unwrap();
    digits
}

/// Writes the line of the names word of `bytes`, without its LF.
#[tactic(auto, unfolding(crate::specs::NewCluster::names_line))]
fn write_names<O: Write>(held: &mut O, bytes: &[u8; NAMES_LEN]) -> io::Result<()>
    ensures { OnOk result (Appends (O.contents held.old) (O.contents held.new) (names_line bytes.now)) }
{
    let digits = digits_of(bytes);
    held.write_all(b"names ")?;
    held.write_all(&digits)
}

/// Writes the lines of a cluster file with the names word of `bytes`.
#[tactic(auto, unfolding(crate::specs::NewCluster::new_cluster_text))]
fn write_cluster<O: Write>(held: &mut O, bytes: &[u8; NAMES_LEN]) -> io::Result<()>
    ensures { OnOk result (Appends (O.contents held.old) (O.contents held.new) (new_cluster_text bytes.now)) }
{
    write_names(held, bytes)?;
    held.write_all(b"\nlife 1\nkey-file key\n")
}

/// Writes a names word of 16 random bytes, in hexadecimal digits, with the other lines of a cluster file but the
/// members. `held` buffers the output until it is flushed.
///
/// # Errors
/// - Returns `NoRandom` if `source` fails. Nothing is written.
/// - Returns `Run(CannotWrite)` if the output fails.
pub(crate) fn print_new_cluster<'a, S: RandomSource, O: Write>(
    source: &S,
    held: &mut O,
) -> Result<(), Fault<'a>>
    ensures ends { NewClusterEndsSo result (O.contents held.old) (O.contents held.new) }
{
    let mut bytes = [0; NAMES_LEN];
    if source.fill_bytes(&mut bytes).is_err() {
        return Err(Fault::NoRandom);
    }
    if write_cluster(held, &bytes).is_err() || held.flush().is_err() {
        return Err(Fault::Run(oathd_lines::Fault::CannotWrite));
    }
    Ok(())
}
