ghost use Rattle.oathd_lines.specs.Secret.{EndsWithText};

use crate::fault::Fault;
use program_edge::write_line;
use secret_text::{read_hex, write_base32};
use std::io::Write;

/// Writes the base32 text of a secret (RFC 4648, section 6) and an LF. Does not flush.
///
/// The secret has 1 to 128 bytes, given in hexadecimal, two digits a byte.
///
/// # Errors
/// - Returns `BadKey` if the secret is refused. Nothing is written.
/// - Returns `CannotWrite` if the output fails.
pub fn print_secret<W: Write>(writer: &mut W, hex: &[u8]) -> Result<(), Fault>
    ensures ends { EndsWithText hex.now result (W.contents writer.old) (W.contents writer.new) }
{
    let secret = read_hex(hex)?;
    write_line(writer, &write_base32(&secret))?;
    Ok(())
}
