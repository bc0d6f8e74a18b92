//! The rows of a store as text, for the commands `export` and `gates`.

ghost use Rattle.std.specs.Prelude.{◌≡◌, ◌<◌, length, IfErr, OnOk};
ghost use Rattle.std.specs.Io.KnownBytes.{Appends};
ghost use Rattle.oathd_database.specs.Fault.{IsOutputFault};
ghost use Rattle.oathd_database.specs.Text.{WritesToken, rows_text};

use crate::fault::Fault;
use floor_store::{FloorStore, Row};
use std::io::{self, Write};
use token_file::{Book, Token, TokenId};

/// What a command writes of a token and its row.
pub(crate) trait RowText {
    ghost use Rattle.std.specs.Prelude.{ℕ, List};
    ghost use Rattle.std.specs.Io.KnownBytes.{Appends};
    ghost use Rattle.token_file.specs.Credential.{Credential};
    ghost use Rattle.floor_store.specs.Records.{RowRecord};

    ghost text_of: { Credential → RowRecord → List ℕ };

    /// Writes the text of a token and its row.
    fn write_text<W: Write>(writer: &mut W, token: &Token, row: Row) -> io::Result<()>
        ensures { OnOk result (Appends (W.contents writer.old) (W.contents writer.new) (text_of token.now row)) };
}

/// Writes the text of a token and its row in `store`.
fn write_token<T: RowText, S: FloorStore, W: Write>(
    book: &Book,
    store: &S,
    writer: &mut W,
    id: TokenId,
) -> Result<(), Fault>
    requires book { id < length book.now }
    requires store { id < length (S.held store.now).content.rows }
    ensures written { (S.held store.now).is_clean → OnOk result (WritesToken T.text_of book.now
        (S.held store.now).content.rows id (W.contents writer.old) (W.contents writer.new)) }
    ensures fault { IfErr result (IsOutputFault (S.held store.now).fault) }
{
    let row = store.row(id.value())?;
    T::write_text(writer, book.token(id), row).map_err(|_| Fault::CannotWrite)
}

/// Writes the text of each token of `book` with its row in `store`, in the order of the book. Flushes.
///
/// # Errors
/// - Returns `Store` if the store is broken.
/// - Returns `CannotWrite` if the output fails.
///
/// A prefix of the text may have been written before an error.
pub(crate) fn write_tokens<T: RowText, S: FloorStore, W: Write>(
    book: &Book,
    store: &S,
    writer: &mut W,
) -> Result<(), Fault>
    requires { length (S.held store.now).content.rows ≡ length book.now }
    ensures written { (S.held store.now).is_clean → OnOk result (Appends (W.contents writer.old)
        (W.contents writer.new) (rows_text T.text_of book.now (S.held store.now).content.rows)) }
    ensures fault { IfErr result (IsOutputFault (S.held store.now).fault) }
{
    // For the proof: a book states its limit when it returns its number of tokens.
    let _tokens = book.len();
    for token in 0..store.tokens() {
        let id = TokenId::new(token).unwrap();
        write_token::<T, S, W>(book, store, writer, id)?;
    }
    writer.flush().map_err(|_| Fault::CannotWrite)
}
