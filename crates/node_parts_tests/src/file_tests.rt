//! Users files, floors files, and the bytes of a datagram. A floor is the first free factor of a token at a node.

use floor_store::{Proposal, Span};
use floors_file::{read_floors, write_floors};
use hmac_core::Hash;
use otp_core::{Digits, Factor, Next, Settings};
use std::alloc::{AllocError, Global};
use std::io::{self, Error, ErrorKind, Read};
use token_file::{
    Book, FileFault, FromRead, Kind, LineFault, Password, Pulled, Source, TokenId, read_book,
    write_row,
};
use vote_core::Message;
use vote_wire::{ClusterKey, read_message, write_message};

/// A row with all parts of a type, and two fields that the reader ignores.
const WHOLE_TYPE: &[u8] = b"HOTP/T60/8/SHA256 gold pw 3132333435363738393031323334353637383930 x y";

/// Users files with the moments of their imports, and the floors of their tokens.
const FILES: &[(&[u8], u64, &[u64])] = &[
    (b"", 0, &[]),
    (
        b"HOTP silver - 3132333435363738393031323334353637383930 3 969429 2009-12-07T23:18:13L",
        0,
        &[4],
    ),
    (
        b"HOTP silver - 3132333435363738393031323334353637383930 4 969429\n",
        0,
        &[4],
    ),
    (
        b"HOTP silver - 3132333435363738393031323334353637383930 3 969428\n",
        0,
        &[3],
    ),
    (
        b"HOTP silver - 3132333435363738393031323334353637383930",
        0,
        &[0],
    ),
    (
        b"HOTP silver - 3132333435363738393031323334353637383930 4611686018427387904",
        0,
        &[4611686018427387904],
    ),
    (
        b"HOTP/T30 silver - 3132333435363738393031323334353637383930",
        59,
        &[3],
    ),
    (
        b"HOTP/T30 silver - 3132333435363738393031323334353637383930",
        0,
        &[2],
    ),
    (
        b"HOTP/E/9 silver - 3132333435363738393031323334353637383930",
        0,
        &[],
    ),
    (
        b"HOTP/E/6\tsilver\t-\t3132333435363738393031323334353637383930\t4\n",
        0,
        &[4],
    ),
    (WHOLE_TYPE, 0, &[2]),
    (b"# HOTP\n \t\r\nhotp a - 31\n\n", 0, &[]),
    (
        b"HOTP silver - 31 7\n\r\nHOTP/T60 gold + 32 x y",
        59,
        &[7, 2],
    ),
    (
        b"HOTP a - 31 0000000000000000009\nHOTP b - 31 2 999999\n",
        0,
        &[9, 2],
    ),
];

/// Reads a book from a source at a moment, with a skew of 1. Returns None if the moment is out of range.
fn read_at<S: Source>(
    alloc: Global,
    source: &mut S,
    moment: u64,
) -> Option<Result<(Book, Vec<Next>), FileFault>> {
    let settings = Settings::new(10, 1, 100)?;
    if moment >= 1 << 40 {
        return None;
    }
    Some(read_book(alloc, source, settings, moment))
}

/// Returns whether the floors are `want`.
fn are(floors: &[Next], want: &[u64]) -> bool {
    for (floor, value) in floors.iter().zip(want) {
        if floor.value() != *value {
            return false;
        }
    }
    floors.len() == want.len()
}

/// A reader that returns a text, in pieces of at most `size` bytes.
#[derive(Drop)]
struct Pieces<'a> {
    text: &'a [u8],
    size: usize,
}

impl Read for Pieces<'_> {
    fn read(&mut self, buf: &mut [u8]) -> io::Result<usize> {
        let len = buf.len().min(self.size);
        self.text.read(&mut buf[..len])
    }
}

/// The sizes of the pieces in which the reader returns each file. The last size is above each file's length.
const SIZES: [usize; 4] = [1, 7, 4096, 65_536];

/// Reads a book at a moment, from a file in pieces of the given size.
fn read_pieces(
    alloc: Global,
    text: &[u8],
    size: usize,
    moment: u64,
) -> Option<Result<(Book, Vec<Next>), FileFault>> {
    read_at(alloc, &mut FromRead::new(Pieces { text, size }), moment)
}

/// Returns whether two books have the same tokens in the same order.
fn are_same(one: &Book, other: &Book) -> bool {
    if one.len() != other.len() {
        return false;
    }
    for number in 0..one.len() {
        let Some(id) = TokenId::new(number as u32) else {
            return false;
        };
        if one.token(id) != other.token(id) {
            return false;
        }
    }
    true
}

/// Returns whether a users file in pieces of the given size has the floors `want`, and the tokens of the whole file.
fn has_floors(alloc: Global, file: &[u8], size: usize, moment: u64, want: &[u64]) -> bool {
    let Some(Ok((whole, _))) = read_at(alloc, &mut FromRead::new(file), moment) else {
        return false;
    };
    match read_pieces(alloc, file, size, moment) {
        Some(Ok((book, floors))) => {
            book.len() == want.len() && are(&floors, want) && are_same(&book, &whole)
        }
        _ => false,
    }
}

/// A file has the same tokens and floors in pieces of any size.
#[test]
fn users_rows(rt: HostRuntime) {
    for (file, moment, want) in FILES {
        for size in SIZES {
            assert!(rt; has_floors(rt.alloc(), file, size, *moment, want), "{size}");
        }
    }
}

/// Returns whether a file has one token, of 60 seconds, eight digits, SHA-256, and the given password.
fn has_whole_type(alloc: Global, file: &[u8], password: &[u8]) -> bool {
    let Some(Ok((book, _))) = read_at(alloc, &mut FromRead::new(file), 0) else {
        return false;
    };
    let Some(id) = book.find(b"gold") else {
        return false;
    };
    let token = book.token(id);
    let has_password = match token.password() {
        Password::Equal(text) => text.as_slice() == password,
        _ => false,
    };
    book.len() == 1
        && has_password
        && token.kind() == Kind::Time60
        && token.digits() == Digits::Eight
        && token.hash() == Hash::Sha256
}

#[test]
fn row_of_a_whole_type(rt: HostRuntime) {
    assert!(rt; has_whole_type(rt.alloc(), WHOLE_TYPE, b"pw"));
}

/// Users files that are refused, with the line and its fault.
const REFUSED: &[(&[u8], u32, LineFault)] = &[
    (
        b"HOTP silver - 3132333435363738393031323334353637383930\nHOTP silver - 31\n",
        2,
        LineFault::DuplicateUser,
    ),
    (b"HOTP silver -", 1, LineFault::MissingField),
    (
        b"HOTP silver - 3132333435363738393031323334353637383930 4611686018427387905",
        1,
        LineFault::BadCounter,
    ),
    (
        b"HOTP aaaaaaaaaaaaaaaaaaaaaaaaaaaaaaaaaaaaaaaaaaaaaaaaaaaaaaaaaaaaaaaaa - zz",
        1,
        LineFault::NameTooLong,
    ),
];

/// Returns whether a file is refused at the given line for the given fault, in pieces of each size.
fn is_refused(alloc: Global, file: &[u8], line: u32, kind: LineFault) -> bool {
    for size in SIZES {
        match read_pieces(alloc, file, size, 0) {
            Some(Err(fault)) if fault == FileFault { line, kind } => {}
            _ => return false,
        }
    }
    true
}

/// A file has the same fault in pieces of any size. A line of 4,097 bytes without an end is too long, as is a comment.
#[test]
fn refused_rows(rt: HostRuntime) {
    for (file, line, kind) in REFUSED {
        assert!(rt; is_refused(rt.alloc(), file, *line, *kind));
    }
    let mut comment = [b'x'; 4097];
    comment[0] = b'#';
    comment[1] = b' ';
    assert!(rt; is_refused(rt.alloc(), &comment, 1, LineFault::LineTooLong));
    assert!(rt; !is_refused(rt.alloc(), &comment[..4096], 1, LineFault::LineTooLong));
}

/// Returns the fault of a users file at moment 0, or None.
fn fault_of<S: Source>(alloc: Global, source: &mut S) -> Option<FileFault> {
    match read_at(alloc, source, 0) {
        Some(Err(fault)) => Some(fault),
        _ => None,
    }
}

/// Returns a users file of the given number of rows.
fn rows(alloc: Global, count: u32) -> Option<Vec<u8>> {
    let mut text = Vec::new(alloc);
    for number in 0..count {
        let mut row = *b"HOTP u00000 - 31\n";
        row[6] = b'0' + (number / 10000 % 10) as u8;
        row[7] = b'0' + (number / 1000 % 10) as u8;
        row[8] = b'0' + (number / 100 % 10) as u8;
        row[9] = b'0' + (number / 10 % 10) as u8;
        row[10] = b'0' + (number % 10) as u8;
        text.extend_from_slice(&row).ok()?;
    }
    Some(text)
}

/// Returns the place of the last of 10,000 tokens.
fn last_place(alloc: Global) -> Option<u32> {
    let text = rows(alloc, 10_000)?;
    match read_at(alloc, &mut FromRead::new(text.as_slice()), 0)? {
        Ok((book, _)) => Some(book.find(b"u09999")?.value()),
        Err(_) => None,
    }
}

/// Returns the fault of one row too many.
fn last_fault(alloc: Global) -> Option<FileFault> {
    let text = rows(alloc, 10_001)?;
    fault_of(alloc, &mut FromRead::new(text.as_slice()))
}

#[test]
fn most_tokens(rt: HostRuntime) {
    let want = FileFault {
        line: 10_001,
        kind: LineFault::TooMany,
    };
    assert!(rt; last_place(rt.alloc()) == Some(9_999));
    assert!(rt; last_fault(rt.alloc()) == Some(want));
}

/// A reader that is interrupted the given number of times, returns its text, and fails after it.
#[derive(Drop)]
struct Broken<'a> {
    interrupted: u32,
    text: &'a [u8],
}

impl Read for Broken<'_> {
    fn read(&mut self, buf: &mut [u8]) -> io::Result<usize> {
        if self.interrupted > 0 {
            self.interrupted -= 1;
            return Err(Error::from(ErrorKind::Interrupted));
        }
        if self.text.is_empty() {
            return Err(Error::from(ErrorKind::Other));
        }
        self.text.read(buf)
    }
}

/// Returns the result of a pull after the given number of interruptions.
fn pulled_after(interrupted: u32) -> Pulled {
    let text = b"x".as_slice();
    let mut source = FromRead::new(Broken { interrupted, text });
    source.pull(&mut [0; 4])
}

/// A source retries after 64 interrupted reads in a row, and fails after 65.
#[test]
fn interrupted_reads(rt: HostRuntime) {
    assert!(rt; pulled_after(64) == Pulled::Bytes(1));
    assert!(rt; pulled_after(65) == Pulled::Failed);
}

/// Texts of a reader that fails after them, with their first faults. A fault in a line read earlier decides.
const FAILED: &[(&[u8], u32, LineFault)] = &[
    (b"", 1, LineFault::Read),
    (b"HOTP silver - 31\nHOTP gold", 2, LineFault::Read),
    (b"HOTP silver -\nHOTP gold", 1, LineFault::MissingField),
    (&[b'x'; 4096], 1, LineFault::Read),
    (&[b'x'; 4097], 1, LineFault::LineTooLong),
];

#[test]
fn failed_reads(rt: HostRuntime) {
    for (text, line, kind) in FAILED {
        let (line, kind) = (*line, *kind);
        let mut source = FromRead::new(Broken {
            interrupted: 64,
            text,
        });
        assert!(rt; fault_of(rt.alloc(), &mut source) == Some(FileFault { line, kind }));
    }
}

/// The text of each fault of a users file.
const FAULTS: &[(LineFault, &str)] = &[
    (LineFault::MissingField, "line 7: MissingField"),
    (LineFault::BadSecret, "line 7: BadSecret"),
    (LineFault::BadCounter, "line 7: BadCounter"),
    (LineFault::DuplicateUser, "line 7: DuplicateUser"),
    (LineFault::NameTooLong, "line 7: NameTooLong"),
    (LineFault::TooMany, "line 7: TooMany"),
    (LineFault::LineTooLong, "line 7: LineTooLong"),
    (LineFault::Read, "line 7: cannot read"),
    (LineFault::Memory, "line 7: out of memory"),
    (LineFault::FileTooLong, "line 7: FileTooLong"),
];

#[test]
fn file_faults(rt: HostRuntime) -> Result<(), AllocError> {
    for &(kind, text) in FAULTS {
        let fault = FileFault { line: 7, kind };
        assert!(rt; format!(in rt.alloc(); "{fault}")?.as_str() == text);
    }
    Ok(())
}

/// Returns whether the one token of a users file and its floor are written as `want`.
fn is_written(alloc: Global, file: &[u8], want: &[u8]) -> bool {
    let Some(Ok((book, floors))) = read_at(alloc, &mut FromRead::new(file), 0) else {
        return false;
    };
    let (Some(id), Some(next)) = (book.find(b"gold"), floors.first()) else {
        return false;
    };
    let mut written = Vec::new(alloc);
    match write_row(&mut written, book.token(id), *next) {
        Ok(()) => written.as_slice() == want,
        Err(_) => false,
    }
}

/// Rows as they are written. A type always has its digits. A secret is in lower case. A time token's row has four
/// fields.
#[test]
fn written_rows(rt: HostRuntime) {
    assert!(rt;
        is_written(
            rt.alloc(),
            b"HOTP gold - AB 4",
            b"HOTP/E/6\tgold\t-\tab\t4\n"
        )
    );
    assert!(rt;
        is_written(
            rt.alloc(),
            b"HOTP/T60/7/SHA256 gold pw 00aBff",
            b"HOTP/T60/7/SHA256\tgold\tpw\t00abff\n"
        )
    );
}

/// A floors file is read, and written with the same bytes.
#[test]
fn reads_and_writes_floors(rt: HostRuntime) {
    let text = b"floors 1 2 3 7 100 2\na 5\nb 4611686018427387904\n";
    let floors = match read_floors(rt.alloc(), text) {
        Ok(floors) => floors,
        Err(_) => {
            assert!(rt; false);
            return;
        }
    };
    let mut written = Vec::new(rt.alloc());
    assert!(rt; write_floors(&mut written, &floors).is_ok());
    assert!(rt; written.as_slice() == text.as_slice());
}

/// The Ask from 1 to 2 for token 0, factors 1 to 1, by proposal 0 of boot 2, with its tag under 32 zeros.
const ASK: [u8; 59] = [
    0x4f, 0x56, 2, 1, 1, 2, 0, 0, 0, 0, 1, 0, 0, 0, 0, 0, 0, 0, 2, 0, 0, 0, 0, 0, 0, 0, 0, 0, 0, 0,
    0, 0, 0, 0, 1, 0, 0, 0, 0, 0, 0, 0, 1, 0xc2, 0x16, 0x72, 0x14, 0xab, 0x2f, 0x54, 0x75, 0x82,
    0xf0, 0x53, 0xde, 0xc2, 0x7d, 0xf8, 0x9a,
];

/// Returns whether the Ask is written as these bytes under a key, and read from them.
fn is_datagram(key: &ClusterKey) -> Option<bool> {
    let ask = Message::Ask {
        proposal: Proposal::new(1, 2, 0)?,
        token: 0,
        span: Span::one(Factor::new(1)?),
    };
    let is_written = write_message(key, 1, 2, &ask).as_slice() == ASK.as_slice();
    Some(is_written && read_message(key, &ASK) == Some((1, 2, ask)))
}

/// An Ask has these bytes under its key, which is read in hexadecimal. It is no datagram under another key.
#[test]
fn ask_under_a_key(rt: HostRuntime) {
    let key = ClusterKey::read(&[b'0'; 64]);
    assert!(rt; key.is_ok());
    if let Ok(key) = key {
        assert!(rt; is_datagram(&key) == Some(true));
    }
    let other = ClusterKey::new(&[1; 32]);
    assert!(rt; other.is_some());
    if let Some(other) = other {
        assert!(rt; read_message(&other, &ASK).is_none());
    }
}
