ghost use Rattle.std.specs.Prelude.{◌≡◌, ◌+◌, ◌↔◌, IsTrue, OnOk, IfErr};
ghost use Rattle.std.specs.Io.KnownBytes.{Appends};
ghost use Rattle.otp_core.specs.Range.{IsFactor};
ghost use Rattle.oathtool_core.specs.Codes.{IsSetUp, Matches, code_at, code_lines};

use crate::fault::Fault;
use hmac_core::Hash;
use otp_core::{Code, Codes, Digits, Factor};
use program_edge::write_line;
use std::io::Write;

/// The parameters of codes.
#[derive(Clone, Copy)]
pub(crate) struct Generator<'a> {
    pub hash: Hash,
    pub key: &'a [u8],
    pub digits: Digits,
}

impl<'a> Generator<'a> {
    /// Returns the generator's codes. Their key is set up once for all of them.
    pub(crate) fn codes(self) -> Codes
        ensures { IsSetUp result self.entry }
    {
        Codes::new(self.hash, self.key, self.digits)
    }

    /// Returns the code of a factor.
    fn code(self, codes: &Codes, factor: Factor) -> Code
        requires { IsSetUp codes.now self }
        ensures { result ≡ code_at self.entry factor }
    {
        codes.at(factor)
    }

    /// Returns whether `otp` is the code of a factor.
    pub(crate) fn matches(self, codes: &Codes, factor: Factor, otp: &[u8]) -> bool
        requires { IsSetUp codes.now self }
        ensures { IsTrue result ↔ Matches self.entry otp.now factor }
    {
        self.code(codes, factor).as_slice() == otp
    }
}

/// Returns the factor at `distance` after `first`.
pub(crate) fn factor_after(first: Factor, distance: u64) -> Factor
    requires { IsFactor (first + distance) }
    ensures { result ≡ first + distance }
{
    Factor::new(first.value() + distance).unwrap()
}

/// Writes the codes of a factor and of the following ones in the window, one on each line.
pub(crate) fn codes_from<W: Write>(
    generator: Generator<'_>,
    first: Factor,
    window: u64,
    writer: &mut W,
) -> Result<(), Fault>
    requires { IsFactor (first + window) }
    ensures lines { OnOk result
        (Appends (W.contents writer.old) (W.contents writer.new) (code_lines generator.entry first (window + 1))) }
    ensures fault { IfErr result (λ fault. fault ≡ Fault.CannotWrite) }
{
    let codes = generator.codes();
    for distance in 0..window + 1 {
        let code = generator.code(&codes, factor_after(first, distance));
        write_line(writer, code.as_slice())?;
    }
    Ok(())
}
