//! The text of `export`: a users file with the content of a store.

ghost use Rattle.std.specs.Prelude.{◌≡◌, length, IfErr, OnOk};
ghost use Rattle.std.specs.Io.KnownBytes.{Appends};
ghost use Rattle.oathd_database.specs.Fault.{IsOutputFault};
ghost use Rattle.oathd_database.specs.Text.{export_text};

use crate::fault::Fault;
use crate::rows::{RowText, write_tokens};
use floor_store::{FloorStore, Row};
use std::io::{self, Write};
use token_file::{Book, Token, write_row};

/// The row of a token with its floor, the first free factor.
struct Exported;

impl RowText for Exported {
    ghost use Rattle.oathd_database.specs.Text.{exported_row};

    ghost text_of = { exported_row };

    fn write_text<W: Write>(writer: &mut W, token: &Token, row: Row) -> io::Result<()> {
        write_row(writer, token, row.next())
    }
}

/// Writes the row of each token of `book` with its floor in `store`, and flushes. Does not allocate.
///
/// The text is a users file from which the tokens are imported with these floors.
///
/// # Errors
/// - Returns `Store` if the store is broken.
/// - Returns `CannotWrite` if the output fails.
///
/// A prefix of the text may have been written before an error.
pub fn write_rows<S: FloorStore, W: Write>(
    book: &Book,
    store: &S,
    writer: &mut W,
) -> Result<(), Fault>
    requires { length (S.held store.now).content.rows ≡ length book.now }
    ensures written { (S.held store.now).is_clean → OnOk result (Appends (W.contents writer.old)
        (W.contents writer.new) (export_text book.now (S.held store.now).content.rows)) }
    ensures fault { IfErr result (IsOutputFault (S.held store.now).fault) }
{
    write_tokens::<Exported, S, W>(book, store, writer)
}
