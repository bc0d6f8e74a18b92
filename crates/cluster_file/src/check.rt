ghost use Rattle.std.specs.Prelude.{◌≡◌, ◌≤◌, List, IfOk, OnOk, if◌then◌else◌};
ghost use Rattle.std.specs.Io.KnownBytes.{Appends};
ghost use Rattle.std.specs.Option.{option_copied};
ghost use Rattle.token_file.specs.Credential.{Credential};
ghost use Rattle.token_file.specs.Writing.{kind_word};
ghost use Rattle.cluster_file.specs.Check.{count_line, counts_text, is_kind, kind_count, named_summary_text, print_line, rows_line, shared_counts, summary_text, values_text};
ghost use Rattle.cluster_file.specs.ClusterFile.{cluster_value};
ghost use Rattle.cluster_file.specs.Shared.{shared_book, shared_of};

use crate::cluster::Cluster;
use crate::shared::{
    token_at, write_members, write_names, write_number, write_settings, write_word,
};
use std::io::{self, Write};
use token_file::{Book, Kind, Token};

/// Returns whether two kinds are equal.
fn is_kind(kind: Kind, other: Kind) -> bool
    ensures { result ≡ is_kind kind other }
{
    match (kind, other) {
        (Kind::Event, Kind::Event) => true,
        (Kind::Time30, Kind::Time30) => true,
        (Kind::Time60, Kind::Time60) => true,
        _ => false,
    }
}

/// Returns the word of a kind.
fn kind_text(kind: Kind) -> &'static [u8]
    ensures { result.now ≡ kind_word kind }
{
    match kind {
        Kind::Event => b"HOTP/E",
        Kind::Time30 => b"HOTP/T30",
        Kind::Time60 => b"HOTP/T60",
    }
}

/// Returns 1 if the token is of the kind, else 0.
fn one_of_kind(token: &Token, kind: Kind) -> u64
    ensures value { result ≡ (if is_kind kind token.now.kind then 1 else 0) }
    ensures bound { result ≤ 1 }
{
    if is_kind(kind, token.kind()) { 1 } else { 0 }
}

/// Returns the number of tokens of the kind in the book.
fn kind_count(book: &Book, kind: Kind) -> io::Result<u64>
    ensures { IfOk result (λ count. count ≡ kind_count kind book.now) }
{
    let mut count: u64 = 0;
    for number in 0..book.len() {
        let id = token_at(number)?;
        count += one_of_kind(book.token(id), kind);
    }
    Ok(count)
}

/// Writes the line of a kind.
#[tactic(auto, unfolding(crate::specs::Check::count_line))]
fn write_count<W: Write>(writer: &mut W, book: &Book, kind: Kind) -> io::Result<()>
    ensures { OnOk result (Appends (W.contents writer.old) (W.contents writer.new) (count_line kind book.now)) }
{
    let count = kind_count(book, kind)?;
    writer.write_all(b"tokens ")?;
    write_number(writer, kind_text(kind), count)
}

/// Writes the lines of the three kinds.
#[tactic(auto, unfolding(crate::specs::Check::counts_text))]
fn write_counts<W: Write>(writer: &mut W, book: &Book) -> io::Result<()>
    ensures { OnOk result (Appends (W.contents writer.old) (W.contents writer.new) (counts_text book.now)) }
{
    write_count(writer, book, Kind::Event)?;
    write_count(writer, book, Kind::Time30)?;
    write_count(writer, book, Kind::Time60)
}

/// Writes the lines of the three kinds, or nothing if the members know tokens by names.
fn write_shared_counts<W: Write>(
    writer: &mut W,
    names: Option<&[u8]>,
    book: &Book,
) -> io::Result<()>
    ensures { OnOk result (Appends (W.contents writer.old) (W.contents writer.new)
        (shared_counts (option_copied names.entry) (shared_book (option_copied names.entry) book.now))) }
{
    match names {
        Some(_) => Ok(()),
        None => write_counts(writer, book),
    }
}

/// Writes the life, the names, the members and the settings, each on a line.
fn write_values<W: Write>(writer: &mut W, cluster: &Cluster) -> io::Result<()>
    ensures { (book : List Credential) → OnOk result (Appends (W.contents writer.old) (W.contents writer.new)
        (values_text (shared_of (cluster_value cluster.now) book))) }
{
    write_word(writer, b"life", cluster.life)?;
    write_names(writer, cluster.names)?;
    write_members(writer, &cluster.members)?;
    write_settings(writer, cluster.settings)
}

/// Writes the values that two sites share.
///
/// They are the life, the names, the members, the settings and the number of shared tokens of each kind, each on a
/// line. The fingerprint of the shared key follows. Members that know tokens by names share no tokens.
///
/// # Errors
///
/// - Returns the writer's error. A prefix of the text may have been written.
pub fn write_summary<W: Write>(
    writer: &mut W,
    cluster: &Cluster,
    book: &Book,
    fingerprint: &[u8],
) -> io::Result<()>
    ensures { OnOk result (Appends (W.contents writer.old) (W.contents writer.new)
        (summary_text (shared_of (cluster_value cluster.now) book.now) fingerprint.now)) }
{
    write_values(writer, cluster)?;
    write_shared_counts(writer, cluster.names, book)?;
    write_word(writer, b"fingerprint", fingerprint)
}

/// Writes the number of a book's rows if the members know tokens by names.
fn write_row_count<W: Write>(writer: &mut W, names: Option<&[u8]>, book: &Book) -> io::Result<()>
    ensures { OnOk result (Appends (W.contents writer.old) (W.contents writer.new)
        (rows_line (option_copied names.entry) book.now)) }
{
    match names {
        Some(_) => write_number(writer, b"rows", book.len() as u64),
        None => Ok(()),
    }
}

/// Writes the line of a book's print if the members know tokens by names.
fn write_print<W: Write>(writer: &mut W, names: Option<&[u8]>, print: &[u8]) -> io::Result<()>
    ensures { OnOk result (Appends (W.contents writer.old) (W.contents writer.new)
        (print_line (option_copied names.entry) print.now)) }
{
    match names {
        Some(_) => write_word(writer, b"book", print),
        None => Ok(()),
    }
}

/// Writes the text that two sites compare, with what each of them knows of its book.
///
/// For a cluster without names it is the text of [`write_summary`]. For a cluster with names, the book's numbers of
/// tokens of each kind and of rows stand before the fingerprint. The book's print stands after it.
///
/// # Errors
///
/// - Returns the writer's error. A prefix of the text may have been written.
pub fn write_named_summary<W: Write>(
    writer: &mut W,
    cluster: &Cluster,
    book: &Book,
    fingerprint: &[u8],
    print: &[u8],
) -> io::Result<()>
    ensures { OnOk result (Appends (W.contents writer.old) (W.contents writer.new)
        (named_summary_text (cluster_value cluster.now) book.now fingerprint.now print.now)) }
{
    write_values(writer, cluster)?;
    write_counts(writer, book)?;
    write_row_count(writer, cluster.names, book)?;
    write_word(writer, b"fingerprint", fingerprint)?;
    write_print(writer, cluster.names, print)
}
