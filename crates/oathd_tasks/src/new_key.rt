//! The command `new-key`: prints a new key of a client.

ghost use Rattle.oathd_tasks.specs.NewKey.{NewKeyEndsSo};

use crate::fault::Fault;
use program_edge::write_line;
use std::io::Write;
use std::random::RandomSource;

/// The length of a new key, in bytes.
const KEY_LEN: usize = 32;

/// Writes a key of 32 random bytes, in hexadecimal digits, and an LF. `held` buffers the output until it is flushed.
///
/// # Errors
/// - Returns `NoRandom` if `source` fails. Nothing is written.
/// - Returns `Run(CannotWrite)` if the output fails.
pub(crate) fn print_new_key<'a, S: RandomSource, O: Write>(
    source: &S,
    held: &mut O,
) -> Result<(), Fault<'a>>
    ensures ends { NewKeyEndsSo result (O.contents held.old) (O.contents held.new) }
{
    let mut key = [0; KEY_LEN];
    if source.fill_bytes(&mut key).is_err() {
        return Err(Fault::NoRandom);
    }
    let mut digits = [0; 2 * KEY_LEN];
    hex::encode_to_slice(&key, &mut digits).unwrap();
    if write_line(held, &digits).is_err() || held.flush().is_err() {
        return Err(Fault::Run(oathd_lines::Fault::CannotWrite));
    }
    Ok(())
}
