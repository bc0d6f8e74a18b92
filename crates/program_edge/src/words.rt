ghost use Rattle.std.specs.Prelude.{◌≢◌, IfErr};

use crate::fault::OutsideFault;
use std::alloc::Global;
use std::env::{self, Env};
use std::io::ErrorKind;

/// Returns the words of the process. The first is the program's name.
pub fn process_words<R: Env>(rt: &R, alloc: Global) -> Result<Vec<String>, OutsideFault>
    ensures fault { IfErr result (λ fault. fault ≢ OutsideFault.CannotWrite) }
{
    match env::args(&(rt, alloc)) {
        Ok(words) => words.collect(alloc).map_err(|_| OutsideFault::Memory),
        Err(error) if error.kind() == ErrorKind::InvalidData => Err(OutsideFault::NotText),
        Err(_) => Err(OutsideFault::Memory),
    }
}
