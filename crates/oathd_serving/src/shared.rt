ghost use Rattle.std.specs.Prelude.{◌≡◌, false};

use oathd_tasks::shared_in;
use otp_core::Settings;
use shared_secrets::SharedSecret;
use std::alloc::Global;
use std::io::{self, Write};

/// Writes the log's line of two rows with one secret.
fn write_shared<W: Write>(writer: &mut W, rows: SharedSecret) -> io::Result<()> {
    let SharedSecret { first, second } = rows;
    writeln!(writer, "shared secret rows={first},{second}")?;
    writer.flush()
}

/// Writes the log's line of two rows with one secret, if there is a log and the users file with this text has such
/// rows. A failed write is ignored, and nothing is told of a file that a node does not take.
pub(crate) fn tell_shared_secret<W: Write>(
    alloc: Global,
    is_logged: bool,
    text: &[u8],
    settings: Settings,
    writer: &mut W,
)
    ensures unlogged { is_logged ≡ false → writer.new ≡ writer.old }
{
    if !is_logged {
        return;
    }
    if let Ok(Some(rows)) = shared_in(alloc, text, settings) {
        let _written = write_shared(writer, rows);
    }
}
