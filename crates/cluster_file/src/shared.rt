ghost use Rattle.std.specs.Prelude.{◌≡◌, IfOk, OnOk, map};
ghost use Rattle.std.specs.Fmt.{decimal};
ghost use Rattle.std.specs.Io.KnownBytes.{Appends};
ghost use Rattle.std.specs.Option.{option_copied};
ghost use Rattle.cluster_file.specs.Address.{address_text, address_value};
ghost use Rattle.cluster_file.specs.ClusterFile.{cluster_value};
ghost use Rattle.cluster_file.specs.Shared.{book_text, member_line, members_text, names_text, settings_text, shared_book, shared_of, shared_text, untaken_row, version_of, word_line};

use crate::cluster::Cluster;
use otp_core::{Next, Settings};
use std::alloc::{AllocError, Global};
use std::io::{self, ErrorKind, Write};
use std::net::SocketAddrV4;
use token_file::{Book, Token, TokenId, write_row};

/// Writes a word and a text on a line.
#[tactic(auto, unfolding(crate::specs::Shared::word_line))]
pub(crate) fn write_word<W: Write>(writer: &mut W, word: &[u8], text: &[u8]) -> io::Result<()>
    ensures { OnOk result (Appends (W.contents writer.old) (W.contents writer.new) (word_line word.now text.now)) }
{
    writer.write_all(word)?;
    writer.write_all(b" ")?;
    writer.write_all(text)?;
    writer.write_all(b"\n")
}

/// Writes the line of the names if there are names.
pub(crate) fn write_names<W: Write>(writer: &mut W, names: Option<&[u8]>) -> io::Result<()>
    ensures { OnOk result (Appends (W.contents writer.old) (W.contents writer.new)
        (names_text (option_copied names.entry))) }
{
    match names {
        Some(names) => write_word(writer, b"names", names),
        None => Ok(()),
    }
}

/// Writes a word and a number on a line.
#[tactic(auto, unfolding(crate::specs::Shared::word_line))]
pub(crate) fn write_number<W: Write>(writer: &mut W, word: &[u8], number: u64) -> io::Result<()>
    ensures { OnOk result (Appends (W.contents writer.old) (W.contents writer.new)
        (word_line word.now (decimal number))) }
{
    writer.write_all(word)?;
    write!(writer, " {number}\n")
}

/// Writes an address.
#[tactic(auto, unfolding(crate::specs::Address::address_text))]
fn write_address<W: Write>(writer: &mut W, address: SocketAddrV4) -> io::Result<()>
    ensures { OnOk result (Appends (W.contents writer.old) (W.contents writer.new)
        (address_text (address_value address))) }
{
    write!(writer, "{address}")
}

/// Writes the line of a member.
#[tactic(auto, unfolding(crate::specs::Shared::member_line))]
fn write_member<W: Write>(writer: &mut W, number: u64, member: SocketAddrV4) -> io::Result<()>
    ensures { OnOk result (Appends (W.contents writer.old) (W.contents writer.new)
        (member_line number (address_value member))) }
{
    write!(writer, "member {number} ")?;
    write_address(writer, member)?;
    writer.write_all(b"\n")
}

/// Writes the lines of members, from 1 on.
pub(crate) fn write_members<W: Write>(writer: &mut W, members: &[SocketAddrV4]) -> io::Result<()>
    ensures { OnOk result (Appends (W.contents writer.old) (W.contents writer.new)
        (members_text 1 (map address_value members.now))) }
{
    let mut number: u64 = 1;
    for member in members {
        write_member(writer, number, *member)?;
        number += 1;
    }
    Ok(())
}

/// Writes the settings, each on a line.
#[tactic(auto, unfolding(crate::specs::Shared::settings_text))]
pub(crate) fn write_settings<W: Write>(writer: &mut W, settings: Settings) -> io::Result<()>
    ensures { OnOk result (Appends (W.contents writer.old) (W.contents writer.new) (settings_text settings)) }
{
    write_number(writer, b"look-ahead", settings.look_ahead())?;
    write_number(writer, b"skew", settings.skew())?;
    write_number(writer, b"range", settings.range())?;
    write_number(writer, b"drift", settings.drift())
}

/// Returns the floor (the first free factor) of a token without a used factor: 0.
fn first_factor() -> Next
    ensures { result ≡ 0 }
{
    Next::new(0).unwrap()
}

/// Writes the row of a token, an event token's with the counter 0.
pub(crate) fn write_token<W: Write>(writer: &mut W, token: &Token) -> io::Result<()>
    ensures { OnOk result (Appends (W.contents writer.old) (W.contents writer.new) (untaken_row token.now)) }
{
    write_row(writer, token, first_factor())
}

/// Returns the id of the token with the number `number`. A book has at most 10,000 tokens, so every number of its
/// tokens has one.
pub(crate) fn token_at(number: usize) -> io::Result<TokenId>
    ensures { IfOk result (λ id. id ≡ number) }
{
    match u32::try_from(number) {
        Ok(number) => TokenId::new(number).ok_or(io::Error::from(ErrorKind::InvalidInput)),
        Err(_) => Err(io::Error::from(ErrorKind::InvalidInput)),
    }
}

/// Writes the rows of the tokens.
#[tactic(auto, unfolding(crate::specs::Shared::book_text))]
fn write_book<W: Write>(writer: &mut W, book: &Book) -> io::Result<()>
    ensures { OnOk result (Appends (W.contents writer.old) (W.contents writer.new) (book_text book.now)) }
{
    for number in 0..book.len() {
        let id = token_at(number)?;
        write_token(writer, book.token(id))?;
    }
    Ok(())
}

/// Returns the version of a shared text.
fn version_of(names: Option<&[u8]>) -> &'static [u8]
    ensures { result.now ≡ version_of (option_copied names.entry) }
{
    match names {
        Some(_) => b"2",
        None => b"1",
    }
}

/// Writes the rows of the tokens, or nothing if the members know tokens by names.
#[tactic(auto, unfolding(crate::specs::Shared::book_text))]
fn write_rows<W: Write>(writer: &mut W, names: Option<&[u8]>, book: &Book) -> io::Result<()>
    ensures { OnOk result (Appends (W.contents writer.old) (W.contents writer.new)
        (book_text (shared_book (option_copied names.entry) book.now))) }
{
    match names {
        Some(_) => Ok(()),
        None => write_book(writer, book),
    }
}

/// Writes the shared values of a cluster with a book.
fn write_shared<W: Write>(writer: &mut W, cluster: &Cluster, book: &Book) -> io::Result<()>
    ensures { OnOk result (Appends (W.contents writer.old) (W.contents writer.new)
        (shared_text (shared_of (cluster_value cluster.now) book.now))) }
{
    write_word(writer, b"wakdulg", version_of(cluster.names))?;
    write_names(writer, cluster.names)?;
    write_word(writer, b"life", cluster.life)?;
    write_members(writer, &cluster.members)?;
    write_settings(writer, cluster.settings)?;
    write_rows(writer, cluster.names, book)
}

/// Returns the shared values of a cluster with a book as one text, without the tokens' counters.
///
/// Of a cluster with names the text has the names and no tokens, whatever the book. Equal texts have the same names,
/// life, members, settings and tokens (`shared_texts_tell`).
///
/// # Errors
///
/// - Returns `AllocError` if the allocator refuses the memory.
pub fn shared_text(alloc: Global, cluster: &Cluster, book: &Book) -> Result<Vec<u8>, AllocError>
    ensures { IfOk result (λ text. text.items ≡ shared_text (shared_of (cluster_value cluster.now) book.now)) }
{
    let mut text = Vec::new(alloc);
    match write_shared(&mut text, cluster, book) {
        Ok(()) => Ok(text),
        Err(_) => Err(AllocError),
    }
}
