//! The lines of a log as text.

ghost use Rattle.std.specs.Prelude.{◌≡◌, ◌++◌, OnOk};
ghost use Rattle.std.specs.Option.{option_copied};
ghost use Rattle.std.specs.Fmt.{decimal};
ghost use Rattle.std.specs.Io.KnownBytes.{Appends};
ghost use Rattle.std.specs.List.{flat_map};
ghost use Rattle.node_log.specs.Text.{address_text, answered_line, at_text, client_text, counts_text, end_line, event_of, is_plain};
ghost use Rattle.node_log.specs.Text.{book_text, place_text, print_text, roster_line, rows_text, shown_byte, shown_user, start_line};

use std::io::{self, Write};

/// The end of the numbers of addresses. From here on a number is a client of the clients file.
const ADDRESSES_END: u64 = 1 << 48;

/// Returns whether the log shows a byte unchanged: a visible ASCII character except a quotation mark and a backslash.
fn is_plain(byte: u8) -> bool
    ensures { result ≡ is_plain byte }
{
    byte.is_ascii_graphic() && byte != b'"' && byte != b'\\'
}

/// Writes a byte of a name: unchanged, or as `\x` and two hexadecimal digits.
#[tactic(auto, unfolding(crate::specs::Text::shown_byte))]
fn write_byte<W: Write>(writer: &mut W, byte: u8) -> io::Result<()>
    ensures { OnOk result (Appends (W.contents writer.old) (W.contents writer.new) (shown_byte byte)) }
{
    if is_plain(byte) {
        return writer.write_all(&[byte]);
    }
    let mut digits = [0; 2];
    hex::encode_to_slice(&[byte], &mut digits).unwrap();
    writer.write_all(b"\\x")?;
    writer.write_all(&digits)
}

/// Writes the bytes of a name.
fn write_name<W: Write>(writer: &mut W, name: &[u8]) -> io::Result<()>
    ensures { OnOk result (Appends (W.contents writer.old) (W.contents writer.new) (flat_map shown_byte name.now)) }
{
    for byte in name {
        write_byte(writer, *byte)?;
    }
    Ok(())
}

/// Writes a user's name in quotation marks, if it is known.
#[tactic(auto, unfolding(crate::specs::Text::shown_user))]
fn write_user<W: Write>(writer: &mut W, user: Option<&[u8]>) -> io::Result<()>
    ensures { OnOk result (Appends (W.contents writer.old) (W.contents writer.new)
        (shown_user (option_copied user.entry))) }
{
    let Some(name) = user else {
        return Ok(());
    };
    writer.write_all(b" user=\"")?;
    write_name(writer, name)?;
    writer.write_all(b"\"")
}

/// Writes a number followed by `behind`.
fn write_number<W: Write>(writer: &mut W, number: u64, behind: &[u8]) -> io::Result<()>
    ensures { OnOk result (Appends (W.contents writer.old) (W.contents writer.new) (decimal number ++ behind.now)) }
{
    write!(writer, "{number}")?;
    writer.write_all(behind)
}

/// Writes an address by its number: an IPv4 address and a port.
#[tactic(auto, unfolding(crate::specs::Text::address_text))]
fn write_address<W: Write>(writer: &mut W, address: u64) -> io::Result<()>
    ensures { OnOk result (Appends (W.contents writer.old) (W.contents writer.new) (address_text address)) }
{
    write_number(writer, address / 1_099_511_627_776, b".")?;
    write_number(writer, address / 4_294_967_296 % 256, b".")?;
    write_number(writer, address / 16_777_216 % 256, b".")?;
    write_number(writer, address / 65_536 % 256, b":")?;
    write_number(writer, address % 65_536, b"")
}

/// Writes a client by its number: its address, or the number of a client of the clients file.
#[tactic(auto, unfolding(crate::specs::Text::client_text))]
fn write_client<W: Write>(writer: &mut W, client: u64) -> io::Result<()>
    ensures { OnOk result (Appends (W.contents writer.old) (W.contents writer.new) (client_text client)) }
{
    if client < ADDRESSES_END {
        return write_address(writer, client);
    }
    write_value(writer, b"client:", client - ADDRESSES_END)
}

/// Writes the outcome of a line, by its answer.
fn write_event<W: Write>(writer: &mut W, answer: &[u8]) -> io::Result<()>
    ensures { OnOk result (Appends (W.contents writer.old) (W.contents writer.new) (event_of answer.now)) }
{
    if answer.starts_with(b"OK ") {
        writer.write_all(b"accepted from=")
    } else {
        writer.write_all(b"refused from=")
    }
}

/// Writes the line of an answer to a client, with the user if the user is known.
#[tactic(auto, unfolding(crate::specs::Text::answered_line))]
pub fn write_answered<W: Write>(
    writer: &mut W,
    client: u64,
    user: Option<&[u8]>,
    answer: &[u8],
) -> io::Result<()>
    ensures { OnOk result (Appends (W.contents writer.old) (W.contents writer.new)
        (answered_line client (option_copied user.entry) answer.now)) }
{
    write_event(writer, answer)?;
    write_client(writer, client)?;
    writer.write_all(b" ")?;
    writer.write_all(answer)?;
    write_user(writer, user)?;
    writer.write_all(b"\n")
}

/// The values of a node that begins to serve.
#[derive(Clone, Copy, Debug, PartialEq, Eq)]
pub struct Start {
    /// The number of the node, and the number of members.
    pub node: u8,
    pub members: u8,
    /// The node's address, as the number of a client at the same address.
    pub address: u64,
    /// The number of the node's boot.
    pub boot: u64,
    /// The number of the node's tokens.
    pub tokens: usize,
    /// The fingerprint of the key under which it tags its datagrams: 16 hexadecimal digits.
    pub fingerprint: [u8; 16],
}

/// Writes a word and a number.
pub(crate) fn write_value<W: Write>(writer: &mut W, word: &[u8], number: u64) -> io::Result<()>
    ensures { OnOk result (Appends (W.contents writer.old) (W.contents writer.new) (word.now ++ decimal number)) }
{
    writer.write_all(word)?;
    write!(writer, "{number}")
}

/// Writes a word and a small number.
pub(crate) fn write_small<W: Write>(writer: &mut W, word: &[u8], number: u8) -> io::Result<()>
    ensures { OnOk result (Appends (W.contents writer.old) (W.contents writer.new) (word.now ++ decimal number)) }
{
    writer.write_all(word)?;
    write!(writer, "{number}")
}

/// Writes the number of a node, and the number of members.
#[tactic(auto, unfolding(crate::specs::Text::place_text))]
fn write_place<W: Write>(writer: &mut W, start: Start) -> io::Result<()>
    ensures { OnOk result (Appends (W.contents writer.old) (W.contents writer.new) (place_text start)) }
{
    write_small(writer, b" node=", start.node)?;
    write_small(writer, b" of=", start.members)
}

/// Writes an address.
#[tactic(auto, unfolding(crate::specs::Text::at_text))]
fn write_at<W: Write>(writer: &mut W, address: u64) -> io::Result<()>
    ensures { OnOk result (Appends (W.contents writer.old) (W.contents writer.new) (at_text address)) }
{
    writer.write_all(b" at=")?;
    write_address(writer, address)
}

/// Writes the number of a boot, and the number of tokens.
#[tactic(auto, unfolding(crate::specs::Text::counts_text))]
fn write_counts<W: Write>(writer: &mut W, start: Start) -> io::Result<()>
    ensures { OnOk result (Appends (W.contents writer.old) (W.contents writer.new) (counts_text start)) }
{
    write_value(writer, b" boot=", start.boot)?;
    write_value(writer, b" tokens=", start.tokens as u64)
}

/// Writes a fingerprint.
#[tactic(auto, unfolding(crate::specs::Text::print_text))]
fn write_print<W: Write>(writer: &mut W, fingerprint: &[u8]) -> io::Result<()>
    ensures { OnOk result (Appends (W.contents writer.old) (W.contents writer.new) (print_text fingerprint.now)) }
{
    writer.write_all(b" fingerprint=")?;
    writer.write_all(fingerprint)
}

/// Writes the line of a node that begins to serve.
#[tactic(auto, unfolding(crate::specs::Text::start_line))]
pub fn write_start<W: Write>(writer: &mut W, start: Start) -> io::Result<()>
    ensures { OnOk result (Appends (W.contents writer.old) (W.contents writer.new) (start_line start)) }
{
    writer.write_all(b"start")?;
    write_place(writer, start)?;
    write_at(writer, start.address)?;
    write_counts(writer, start)?;
    write_print(writer, &start.fingerprint)?;
    writer.write_all(b"\n")
}

/// The rows of a store that is opened for the tokens of a users file, by their names.
#[derive(Clone, Copy, Debug, PartialEq, Eq)]
pub struct Roster {
    /// The number of the store's rows.
    pub rows: u32,
    /// The number of rows that the start enrolled.
    pub enrolled: u32,
    /// The number of rows that no token of the users file has.
    pub retired: u32,
    /// The print of the users file's rows: 16 hexadecimal digits.
    pub book: [u8; 16],
}

/// Writes the numbers of rows.
#[tactic(auto, unfolding(crate::specs::Text::rows_text))]
fn write_rows<W: Write>(writer: &mut W, roster: Roster) -> io::Result<()>
    ensures { OnOk result (Appends (W.contents writer.old) (W.contents writer.new) (rows_text roster)) }
{
    write_value(writer, b" rows=", u64::from(roster.rows))?;
    write_value(writer, b" enrolled=", u64::from(roster.enrolled))?;
    write_value(writer, b" retired=", u64::from(roster.retired))
}

/// Writes the print of rows.
#[tactic(auto, unfolding(crate::specs::Text::book_text))]
fn write_book<W: Write>(writer: &mut W, book: &[u8]) -> io::Result<()>
    ensures { OnOk result (Appends (W.contents writer.old) (W.contents writer.new) (book_text book.now)) }
{
    writer.write_all(b" book=")?;
    writer.write_all(book)
}

/// Writes the line of a store's rows.
#[tactic(auto, unfolding(crate::specs::Text::roster_line))]
pub fn write_roster<W: Write>(writer: &mut W, roster: Roster) -> io::Result<()>
    ensures { OnOk result (Appends (W.contents writer.old) (W.contents writer.new) (roster_line roster)) }
{
    writer.write_all(b"roster")?;
    write_rows(writer, roster)?;
    write_book(writer, &roster.book)?;
    writer.write_all(b"\n")
}

/// Writes the line of a node that ends serving: the number of datagrams that it received, and of replies that it
/// offered.
#[tactic(auto, unfolding(crate::specs::Text::end_line))]
pub fn write_end<W: Write>(writer: &mut W, received: u64, replied: u64) -> io::Result<()>
    ensures { OnOk result (Appends (W.contents writer.old) (W.contents writer.new) (end_line received replied)) }
{
    write_value(writer, b"end received=", received)?;
    write_value(writer, b" replied=", replied)?;
    writer.write_all(b"\n")
}
