//! The text of `gates`: the gates of a store that have failures.

ghost use Rattle.std.specs.Prelude.{◌≡◌, length, IfErr, OnOk};
ghost use Rattle.std.specs.Io.KnownBytes.{Appends};
ghost use Rattle.oathd_database.specs.Fault.{IsOutputFault};
ghost use Rattle.oathd_database.specs.Gates.{gate_line, gates_text};

use crate::fault::Fault;
use crate::rows::{RowText, write_tokens};
use floor_store::{FloorStore, Row};
use otp_core::Gate;
use std::io::{self, Write};
use token_file::{Book, Token};

/// Writes the line of a user's gate.
#[tactic(auto, unfolding(crate::specs::Gates::gate_line))]
fn write_line<W: Write>(writer: &mut W, user: &[u8], gate: Gate) -> io::Result<()>
    ensures { OnOk result (Appends (W.contents writer.old) (W.contents writer.new) (gate_line user.now gate)) }
{
    let (failures, until) = (gate.fails(), gate.until());
    writer.write_all(b"gate ")?;
    writer.write_all(user)?;
    write!(writer, " {failures} {until}\n")
}

/// The line of a token's gate, if it has failures.
struct Gates;

impl RowText for Gates {
    ghost use Rattle.oathd_database.specs.Gates.{gate_row};

    ghost text_of = { gate_row };

    fn write_text<W: Write>(writer: &mut W, token: &Token, row: Row) -> io::Result<()> {
        let gate = row.gate();
        if gate.fails() == 0 {
            return Ok(());
        }
        write_line(writer, token.name(), gate)
    }
}

/// Writes a line `gate USER FAILURES UNTIL` for each token that has failures, in the order of the book. Flushes.
///
/// The token is open from `UNTIL` on, in seconds since 1970-01-01 00:00:00 UTC.
///
/// # Errors
/// - Returns `Store` if the store is broken.
/// - Returns `CannotWrite` if the output fails.
///
/// A prefix of the text may have been written before an error.
pub fn write_gates<S: FloorStore, W: Write>(
    book: &Book,
    store: &S,
    writer: &mut W,
) -> Result<(), Fault>
    requires { length (S.held store.now).content.rows ≡ length book.now }
    ensures written { (S.held store.now).is_clean → OnOk result (Appends (W.contents writer.old)
        (W.contents writer.new) (gates_text book.now (S.held store.now).content.rows)) }
    ensures fault { IfErr result (IsOutputFault (S.held store.now).fault) }
{
    write_tokens::<Gates, S, W>(book, store, writer)
}
