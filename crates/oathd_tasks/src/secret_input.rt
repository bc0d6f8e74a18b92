//! Reads a secret from standard input.

ghost use Rattle.std.specs.Prelude.{◌≡◌, IfErr, IfOk, IfSome, take};
ghost use Rattle.client_lines.specs.Request.{without_lf};
ghost use Rattle.oathd_tasks.specs.Nodes.{IsOfInput, SecretOfInputEndsSo};

use client_lines::without_lf;
use oathd_lines::{Fault, print_secret};
use program_edge::flushed;
use std::alloc::Global;
use std::io::{ErrorKind, Read, Write};

/// The most bytes of a secret that are read. The longest one has 256 digits and an LF.
const MAX_SECRET_INPUT_LEN: u64 = 258;

/// Returns the first bytes of an input.
///
/// # Errors
/// - Returns `CannotRead` if the input fails.
/// - Returns `Memory` if the allocator refuses the memory.
fn input_text<R: Read>(alloc: Global, reader: &mut R) -> Result<Vec<u8>, Fault>
    ensures text { IfOk result (λ text. IfSome (R.remaining reader.old) (λ input. text.items ≡ take 258 input)) }
    ensures fault { IfErr result IsOfInput }
{
    let mut text = Vec::new(alloc);
    match reader.take(MAX_SECRET_INPUT_LEN).read_to_end(&mut text) {
        Ok(_) => Ok(text),
        Err(error) if error.kind() == ErrorKind::OutOfMemory => Err(Fault::Memory),
        Err(_) => Err(Fault::CannotRead),
    }
}

/// Prints the secret that the input gives in hexadecimal, with at most one LF after its digits.
pub(crate) fn print_secret_of<R: Read, O: Write>(
    alloc: Global,
    reader: &mut R,
    held: &mut O,
) -> Result<(), Fault>
    ensures { SecretOfInputEndsSo (R.remaining reader.old) result (O.contents held.old) (O.contents held.new) }
{
    let text = input_text(alloc, reader)?;
    let end = print_secret(held, without_lf(&text));
    flushed(held, end)
}
