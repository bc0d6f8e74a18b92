//! Says where the fault of a check is, and what to do. Commands over a database say the same of their files.

ghost use Rattle.std.specs.Prelude.{◌≡◌, ◌==◌, OnOk};
ghost use Rattle.std.specs.Option.{option_map};
ghost use Rattle.std.specs.Io.KnownBytes.{Appends};
ghost use Rattle.token_file.specs.Fields.{fields_of};
ghost use Rattle.oathd_tasks.specs.Advice.{advice_line, advice_text, clients_advice, cluster_advice, is_base32_in, line_at, line_part, row_advice as spec_row_advice, row_fields, sources_value, user_in, user_part, users_advice, users_text};

use crate::fault::Fault;
use crate::notes::write_shown;
use secret_text::read_base32;
use std::alloc::Global;
use std::io::{self, ErrorKind, Write};
use token_file::{FileFault, LineFault, first_field};

/// The files of a check.
#[derive(Clone, Copy)]
pub(crate) struct Sources<'s> {
    /// The path of the users file.
    pub(crate) users: &'s [u8],
    /// The text of the users file, if it was read.
    pub(crate) rows: &'s [u8],
    /// The path of the cluster file.
    pub(crate) cluster: &'s [u8],
    /// The path of the key file, if the cluster file names one.
    pub(crate) key: &'s [u8],
    /// Why the file that could not be read cannot be read now.
    pub(crate) reason: &'s str,
}

/// Returns the advice for a fault of a users file, by whether the secret is base32.
fn users_advice(kind: LineFault, is_base32: bool) -> &'static str
    ensures { result.now ≡ users_advice kind is_base32 }
{
    match kind {
        LineFault::BadSecret if is_base32 => {
            "the secret is base32, and oathd reads hexadecimal: oathtool -v -b SECRET of OATH Toolkit prints it so"
        }
        LineFault::BadSecret => "a secret has 2 to 256 hexadecimal digits, two for each byte",
        LineFault::MissingField =>
            "a row has a type, a user, a password column (- for none) and a secret",
        LineFault::BadCounter => {
            "the counter of an event token has 1 to 19 decimal digits, and is at most 4611686018427387904"
        }
        LineFault::DuplicateUser => "one token for each user, and an earlier row has this one",
        LineFault::NameTooLong => "a user and a password column have 1 to 64 bytes",
        LineFault::TooMany => "a users file has at most 10000 tokens",
        LineFault::LineTooLong => "a line has at most 4096 bytes",
        LineFault::Read => "the file could not be read to its end",
        LineFault::Memory => "the allocator refused memory",
        LineFault::FileTooLong => "a users file has at most 16777216 bytes",
    }
}

/// Returns what to do about a fault of a cluster file.
pub fn cluster_advice(kind: cluster_file::LineFault) -> &'static str
    ensures { result.now ≡ cluster_advice kind }
{
    match kind {
        cluster_file::LineFault::UnknownWord => {
            "a line begins with member, look-ahead, skew, range, drift, key, key-file, life, names or new-tokens, and a space"
        }
        cluster_file::LineFault::MissingField => {
            "a line has a word and its value, and that of a member a number and an address"
        }
        cluster_file::LineFault::SurplusField => {
            "a line has a word and its value, and that of a member a number and an address"
        }
        cluster_file::LineFault::TooManyMembers => "a cluster has at most 9 members",
        cluster_file::LineFault::MemberNumber => "members are numbered in order, from 1 on",
        cluster_file::LineFault::BadAddress =>
            "an address is an IPv4 address with a port, as 192.0.2.1:7101",
        cluster_file::LineFault::TwiceAddress => "each member has its own address",
        cluster_file::LineFault::Twice => "a value is given once",
        cluster_file::LineFault::BadNumber =>
            "look-ahead is 0 to 100, skew 0 to 10, range 0 to 1000, drift 0 to 10",
        cluster_file::LineFault::BadKey => {
            "a key has 32 to 128 hexadecimal digits, two for each byte: oathd new-key prints one"
        }
        cluster_file::LineFault::BadLife => "a life has 1 to 64 bytes",
        cluster_file::LineFault::NoMember => "add a line for each member, as member 1 ADDRESS:PORT",
        cluster_file::LineFault::NoKey => "add a line key-file PATH",
        cluster_file::LineFault::NoLife =>
            "add a line life NAME, with a new name for each new set of databases",
        cluster_file::LineFault::TooLong => "a cluster file has at most 65536 bytes",
        cluster_file::LineFault::Memory => "the allocator refused memory",
        cluster_file::LineFault::BadNames =>
            "names has 12 to 64 bytes, and is the same word at all members for good",
        cluster_file::LineFault::BadNewTokens => "new-tokens is fresh, or the line is left out",
        cluster_file::LineFault::NoNames => "new-tokens stands beside a line names WORD",
    }
}

/// Returns what to do about a fault of a clients file.
pub fn clients_advice(kind: clients_file::LineFault) -> &'static str
    ensures { result.now ≡ clients_advice kind }
{
    match kind {
        clients_file::LineFault::UnknownWord =>
            "a line begins with client, plain, ahead or failures, and a space",
        clients_file::LineFault::MissingField => {
            "a line has a word and its value, and that of a client a number and a key"
        }
        clients_file::LineFault::SurplusField => {
            "a line has a word and its value, and that of a client a number and a key"
        }
        clients_file::LineFault::BadNumber =>
            "client is 0 to 65535, ahead 1 to 60, failures 1 to 65535",
        clients_file::LineFault::Twice => {
            "each client has its own number, and ahead and failures are given once"
        }
        clients_file::LineFault::BadKey => {
            "a key has 32 to 128 hexadecimal digits, two for each byte: oathd new-key prints one"
        }
        clients_file::LineFault::SameKey => "each client has its own key: oathd new-key prints one",
        clients_file::LineFault::BadAddress => {
            "an address is an IPv4 address without a port, as 127.0.0.1"
        }
        clients_file::LineFault::NotLoopback => {
            "plain takes addresses of 127.0.0.0/8 alone: give others a line client NUMBER KEY"
        }
        clients_file::LineFault::TooMany =>
            "a clients file has at most 64 clients and 16 plain addresses",
        clients_file::LineFault::NoClient => {
            "add a line client NUMBER KEY, with a key of oathd new-key, or a line plain 127.0.0.1"
        }
        clients_file::LineFault::TooLong => "a clients file has at most 65536 bytes",
        clients_file::LineFault::Memory => "the allocator refused memory",
    }
}

/// Returns why a file cannot be read, and what to do, by the kind of the error.
pub(crate) fn reason_of(kind: ErrorKind) -> &'static str {
    match kind {
        ErrorKind::NotFound | ErrorKind::NotADirectory => "no such file: mend the path",
        ErrorKind::IsADirectory => "is a folder: name the file",
        ErrorKind::PermissionDenied => "no right to it: let the user of oathd read it",
        _ => "try to read it by other means",
    }
}

/// The advice for a key.
const KEY_ADVICE: &str =
    "a key has 32 to 128 hexadecimal digits, two for each byte: oathd new-key prints one";

/// What to do about the path of a key that is not UTF-8.
pub const PATH_ADVICE: &str = "the path of the key is to be UTF-8: rename the file";

/// The advice for a byte order mark.
const MARK_ADVICE: &str =
    "the file begins with a byte order mark: save the file as UTF-8 without one";

/// Returns whether a byte ends a line.
fn is_line_end(byte: &u8) -> bool
    ensures { result ≡ (byte.now == 10) }
{
    *byte == b'\n'
}

/// Returns the line `number` of a text, from 1, or no bytes if it has fewer lines.
fn line_at(text: &[u8], number: u32) -> &[u8]
    ensures { result.now ≡ line_at text.now number }
{
    match text
        .split(is_line_end)
        .nth(number.saturating_sub(1) as usize)
    {
        Some(line) => line,
        None => b"",
    }
}

/// Returns the user of a row, or None if it has no second field.
fn user_in(line: &[u8]) -> Option<&[u8]>
    ensures { option_map (λ user. user.now) result ≡ user_in (fields_of line.now) }
{
    let (_, rest) = first_field(line)?;
    let (user, _) = first_field(rest)?;
    Some(user)
}

/// Returns whether the secret of a row is base32.
fn is_base32_in(line: &[u8]) -> bool
    ensures { result ≡ is_base32_in (fields_of line.now) }
{
    let Some((_, rest)) = first_field(line) else {
        return false;
    };
    let Some((_, rest)) = first_field(rest) else {
        return false;
    };
    let Some((_, rest)) = first_field(rest) else {
        return false;
    };
    let Some((secret, _)) = first_field(rest) else {
        return false;
    };
    read_base32(secret).is_ok()
}

/// The row of a fault of a users file.
#[derive(Clone, Copy, Debug, PartialEq, Eq)]
pub struct RowAdvice<'s> {
    /// Its user, if it has a second field.
    pub user: Option<&'s [u8]>,
    /// What to do.
    pub advice: &'static str,
}

/// Returns the user of the row of a fault in the text of a users file, and what to do about the fault.
pub fn row_advice(rows: &[u8], fault: FileFault) -> RowAdvice<'_>
    ensures user { option_map (λ user. user.now) result.user ≡ user_in (row_fields rows.now fault) }
    ensures advice { result.advice.now ≡ spec_row_advice rows.now fault }
{
    let line = line_at(rows, fault.line);
    RowAdvice {
        user: user_in(line),
        advice: users_advice(fault.kind, is_base32_in(line)),
    }
}

/// Writes the number of a line, if there is one.
fn write_line_part<W: Write>(writer: &mut W, line: Option<u64>) -> io::Result<()>
    ensures { OnOk result (Appends (W.contents writer.old) (W.contents writer.new) (line_part line)) }
{
    match line {
        Some(line) => write!(writer, " line {line}"),
        None => Ok(()),
    }
}

/// Writes the name of a user, if there is one.
fn write_user_part<W: Write>(alloc: Global, writer: &mut W, user: Option<&[u8]>) -> io::Result<()>
    ensures { OnOk result (Appends (W.contents writer.old) (W.contents writer.new)
        (user_part (option_map (λ user. user.now) user.entry))) }
{
    match user {
        Some(user) => {
            writer.write_all(b", user ")?;
            write_shown(alloc, writer, user)
        }
        None => Ok(()),
    }
}

/// Writes a line of advice: the place of a fault, and what to do.
#[tactic(auto, unfolding(crate::specs::Advice::advice_line))]
fn write_line<W: Write>(
    alloc: Global,
    writer: &mut W,
    path: &[u8],
    line: Option<u64>,
    user: Option<&[u8]>,
    advice: &str,
) -> io::Result<()>
    ensures { OnOk result (Appends (W.contents writer.old) (W.contents writer.new)
        (advice_line path.now line (option_map (λ user. user.now) user.entry) advice.now)) }
{
    writer.write_all(b"  ")?;
    writer.write_all(path)?;
    write_line_part(writer, line)?;
    write_user_part(alloc, writer, user)?;
    writer.write_all(b": ")?;
    writer.write_all(advice.as_bytes())?;
    writer.write_all(b"\n")
}

/// Writes the advice for a fault at a line of the users file.
fn write_users<W: Write>(
    alloc: Global,
    writer: &mut W,
    sources: &Sources<'_>,
    fault: FileFault,
) -> io::Result<()>
    ensures { OnOk result (Appends (W.contents writer.old) (W.contents writer.new)
        (users_text (sources_value sources.now) fault)) }
{
    let row = row_advice(sources.rows, fault);
    let number = Some(u64::from(fault.line));
    write_line(alloc, writer, sources.users, number, row.user, row.advice)
}

/// Writes where the fault of a check is, and what to do. Writes nothing for a fault of the output or the memory.
pub(crate) fn write_advice<W: Write>(
    alloc: Global,
    writer: &mut W,
    sources: &Sources<'_>,
    fault: Fault<'_>,
) -> io::Result<()>
    ensures { OnOk result (Appends (W.contents writer.old) (W.contents writer.new)
        (advice_text (sources_value sources.now) fault.entry)) }
{
    match fault {
        Fault::Run(oathd_lines::Fault::Users(fault)) => write_users(alloc, writer, sources, fault),
        Fault::Run(oathd_lines::Fault::BadKey(_)) => {
            write_line(alloc, writer, sources.key, None, None, KEY_ADVICE)
        }
        Fault::CannotReadFile(path) => {
            write_line(alloc, writer, path.as_bytes(), None, None, sources.reason)
        }
        Fault::ClusterFile(fault) => write_line(
            alloc,
            writer,
            sources.cluster,
            Some(fault.line),
            None,
            cluster_advice(fault.kind),
        ),
        Fault::KeyPath => write_line(alloc, writer, sources.cluster, None, None, PATH_ADVICE),
        Fault::ByteOrderMark => {
            write_line(alloc, writer, sources.users, Some(1), None, MARK_ADVICE)
        }
        _ => Ok(()),
    }
}
