ghost use Rattle.std.specs.Prelude.{◌≡◌};
ghost use Rattle.oathd_lines.specs.Client.{client_line_of};

use field_text::{cut_at, read_number};
use oath_node::ClientLine;

/// Reads a client's number, a moment and the client's line, separated by single spaces.
pub(crate) fn read_client_line(line: &[u8]) -> Option<ClientLine<'_>>
    ensures { result ≡ client_line_of line.now }
{
    let (client, rest) = cut_at(line, b' ')?;
    let (moment, line) = cut_at(rest, b' ')?;
    Some(ClientLine {
        client: read_number(client)?,
        moment: read_number(moment)?,
        line,
    })
}
