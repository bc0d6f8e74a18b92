//! The command `check`: prints what the members of a cluster have to share.

ghost use Rattle.std.specs.Prelude.{◌≡◌, IfOk, IfSome, Some};
ghost use Rattle.cluster_file.specs.Check.{named_check_text};
ghost use Rattle.cluster_file.specs.ClusterFile.{ClusterRecord, cluster_value};
ghost use Rattle.oathd_tasks.specs.Check.{CheckEndsSo, EndsUsersSo, HasTokens, WritesSo, has_mark};

use crate::cluster::{cluster_in, cluster_key};
use crate::fault::Fault;
use crate::key::file_text;
use cluster_file::{Cluster, book_print, fingerprint, shared_key, write_named_summary};
use otp_core::Settings;
use std::alloc::Global;
use std::io::{Read, Write};
use std::rt::Files;
use token_file::{Book, FileFault, FromRead, MAX_FILE_LEN, read_book};
use vote_wire::ClusterKey;

/// Returns the tokens of a users file, as a node with these settings reads them.
pub(crate) fn tokens_of<R: Read + Drop>(
    alloc: Global,
    users: R,
    settings: Settings,
) -> Result<Book, FileFault>
    ensures { IfOk result (λ book. IfSome (R.remaining users) (HasTokens settings book)) }
{
    let mut source = FromRead::new(users);
    match read_book(alloc, &mut source, settings, 0) {
        Ok((book, _)) => Ok(book),
        Err(fault) => Err(fault),
    }
}

/// Writes what two sites of a cluster compare, with the fingerprint of the shared key. `held` buffers the output until
/// it is flushed.
fn write_checked<O: Write>(
    alloc: Global,
    key: &ClusterKey,
    cluster: &Cluster<'_>,
    book: &Book,
    held: &mut O,
) -> Result<(), oathd_lines::Fault>
    ensures { WritesSo (named_check_text key.now (cluster_value cluster.now) book.now) result
        (O.contents held.old) (O.contents held.new) }
{
    let Ok(shared) = shared_key(alloc, key, cluster, book) else {
        return Err(oathd_lines::Fault::Memory);
    };
    let Ok(rows) = book_print(alloc, &shared, book) else {
        return Err(oathd_lines::Fault::Memory);
    };
    let print = fingerprint(&shared);
    if write_named_summary(held, cluster, book, &print, &rows).is_err() || held.flush().is_err() {
        return Err(oathd_lines::Fault::CannotWrite);
    }
    Ok(())
}

/// The byte order mark of UTF-8.
const MARK: &[u8] = b"\xEF\xBB\xBF";

/// Returns whether a text begins with a byte order mark.
fn has_mark(text: &[u8]) -> bool
    ensures { result ≡ has_mark text.now }
{
    text.strip_prefix(MARK).is_some()
}

/// Reads the users of a cluster from the text of the users file, and writes what its members have to share.
fn check_users<'a, O: Write>(
    alloc: Global,
    key: &ClusterKey,
    cluster: &Cluster<'_>,
    rows: &[u8],
    held: &mut O,
) -> Result<(), Fault<'a>>
    ensures { EndsUsersSo key.now (cluster_value cluster.now) (Some rows.now) result
        (O.contents held.old) (O.contents held.new) }
{
    if has_mark(rows) {
        return Err(Fault::ByteOrderMark);
    }
    let book = match tokens_of(alloc, rows, cluster.settings) {
        Ok(book) => book,
        Err(fault) => return Err(Fault::Run(oathd_lines::Fault::Users(fault))),
    };
    match write_checked(alloc, key, cluster, &book, held) {
        Ok(()) => Ok(()),
        Err(fault) => Err(Fault::Run(fault)),
    }
}

/// Reads a cluster from the text of its file, its key and the users file, and writes what the members have to share.
///
/// `rows` takes the text of the users file, up to the first byte past 16,777,216. `held` buffers the output until it is
/// flushed.
pub(crate) fn check<'a, F: Files, O: Write>(
    alloc: Global,
    files: &F,
    text: &'a [u8],
    users: &'a str,
    rows: &mut Vec<u8>,
    held: &mut O,
) -> Result<(), Fault<'a>>
    ensures { CheckEndsSo text.now (Some rows.new.items) result (O.contents held.old) (O.contents held.new) }
{
    let cluster = cluster_in(alloc, text)?;
    let key = cluster_key(alloc, files, &cluster.key)?;
    *rows = file_text(alloc, files, users, MAX_FILE_LEN)?;
    check_users(alloc, &key, &cluster, rows.as_slice(), held)
}
