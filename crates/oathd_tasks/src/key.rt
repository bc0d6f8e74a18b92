ghost use Rattle.std.specs.Prelude.{◌≡◌, IfErr, IfOk, Ok, replicate};
ghost use Rattle.std.specs.Result.{result_err};
ghost use Rattle.hex.specs.Hex.{decode_of};
ghost use Rattle.vote_wire.specs.Key.{key_refusal_of};
ghost use Rattle.client_lines.specs.Request.{without_lf};
ghost use Rattle.oathd_tasks.specs.File.{IsOfFile};
ghost use Rattle.oathd_tasks.specs.Nodes.{IsKeyOf, IsOfKey};

use crate::fault::Fault;
use client_lines::without_lf;
use secret_text::SecretFault;
use std::alloc::Global;
use std::fs;
use std::io::{ErrorKind, Read};
use std::rt::Files;
use vote_wire::ClusterKey;

/// The maximum number of bytes of a key file or a cluster file. The longest key has 128 digits.
pub(crate) const MAX_KEY_FILE_LEN: u32 = 65_536;

/// Reads the key in the text of a file: hexadecimal digits, and at most one LF after them.
fn key_of(text: &[u8]) -> Result<ClusterKey, SecretFault>
    ensures fault { result_err result ≡ key_refusal_of (without_lf text.now) }
    ensures value { IfOk result (λ key. decode_of (without_lf text.now) ≡ Ok key) }
{
    ClusterKey::read(without_lf(text))
}

/// Returns the key of 32 zeros, which stands for a missing key.
fn key_of_zeros() -> ClusterKey
    ensures { result ≡ replicate 32 0 }
{
    ClusterKey::new(&[0; 32]).unwrap()
}

/// Returns the text of the file at `path`, up to the first byte past `most`.
///
/// # Errors
/// - Returns `CannotReadFile` if the file cannot be opened or read.
/// - Returns `Run(Memory)` if the allocator refuses the memory.
pub fn file_text<'a, F: Files>(
    alloc: Global,
    files: &F,
    path: &'a str,
    most: u32,
) -> Result<Vec<u8>, Fault<'a>>
    ensures fault { IfErr result IsOfFile }
{
    let Ok(file) = fs::open(files, path) else {
        return Err(Fault::CannotReadFile(path));
    };
    let mut text = Vec::new(alloc);
    match file.take(u64::from(most) + 1).read_to_end(&mut text) {
        Ok(_) => Ok(text),
        Err(error) if error.kind() == ErrorKind::OutOfMemory => {
            Err(Fault::Run(oathd_lines::Fault::Memory))
        }
        Err(_) => Err(Fault::CannotReadFile(path)),
    }
}

/// Returns the key in the file at `path`, or 32 zeros without a path. A file of more than 65,536 bytes is too long.
///
/// # Errors
/// - Returns `CannotReadFile` if the file cannot be opened or read.
/// - Returns `Run(Memory)` if the allocator refuses the memory for its text.
/// - Returns `Run(BadKey)` if the text is not a key of 16 to 64 bytes in hexadecimal, with at most one LF at its end.
pub fn read_key<'a, F: Files>(
    alloc: Global,
    files: &F,
    path: Option<&'a str>,
) -> Result<ClusterKey, Fault<'a>>
    ensures key { IfOk result (λ key. IsKeyOf path.entry key) }
    ensures fault { IfErr result IsOfKey }
{
    let Some(path) = path else {
        return Ok(key_of_zeros());
    };
    let text = file_text(alloc, files, path, MAX_KEY_FILE_LEN)?;
    if text.len() > MAX_KEY_FILE_LEN as usize {
        return Err(Fault::Run(oathd_lines::Fault::BadKey(SecretFault::TooLong)));
    }
    key_of(&text).map_err(|fault| Fault::Run(oathd_lines::Fault::BadKey(fault)))
}
