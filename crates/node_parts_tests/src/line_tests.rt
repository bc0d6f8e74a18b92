//! The lines of a server that takes them one after the other.

use crate::steps::{SILVER, book_of, settings, zeros};
use oath_node::{ClientLine, LineServer};
use otp_core::Next;
use std::alloc::{AllocError, Global};
use token_file::Book;
use vote_wire::ClusterKey;

/// A line with its client and its moment, and its answer.
type Row = (u64, u64, &'static [u8], &'static [u8]);

/// A code is accepted once. A later code in the window is accepted too.
const FIRST_PATH: &[Row] = &[
    (7, 100, b"CHECK 1 silver 755224 -", b"OK 1 0"),
    (7, 200, b"CHECK 2 silver 755224 -", b"NO 2 INVALID"),
    (7, 300, b"CHECK 3 silver 969429 -\n", b"OK 3 3"),
];

/// A kept answer is repeated for the same client and line alone. A failure closes the token for all clients.
const FRESH_TOKEN: &[Row] = &[
    (7, 100, b"CHECK 1 silver 755224 -", b"OK 1 0"),
    (7, 100, b"CHECK 2 silver 755224 -", b"NO 2 INVALID"),
    (7, 100, b"CHECK 1 silver 755224 -\n", b"OK 1 0"),
    (8, 104, b"CHECK 1 silver 755224 -", b"NO 1 THROTTLED 1"),
    (8, 105, b"CHECK 3 silver 755224 -", b"NO 3 INVALID"),
    (7, 114, b"CHECK 4 silver 359152 -", b"NO 4 THROTTLED 1"),
    (7, 115, b"CHECK 5 silver 359152 -", b"OK 5 2"),
    (7, 116, b"CHECK 6 gold 287082 -", b"NO 6 UNKNOWN"),
    (7, 117, b"CHECK 7 silver 12345 -", b"NO - BADLINE"),
    (7, 1 << 40, b"CHECK 8 silver 969429 -", b"NO 8 CLOCK"),
];

/// Two codes in a row are accepted anywhere in the range, and both are used up.
const RESYNCHRONIZATION: &[Row] = &[
    (7, 100, b"RESYNC 4 silver 287922 399871 -", b"NO 4 INVALID"),
    (7, 105, b"RESYNC 5 silver 162583 399871 -", b"OK 5 8"),
    (7, 105, b"CHECK 6 silver 162583 -", b"NO 6 INVALID"),
    (7, 110, b"CHECK 7 silver 399871 -", b"NO 7 INVALID"),
    (7, 119, b"CHECK 8 silver 520489 -", b"NO 8 THROTTLED 1"),
    (7, 120, b"CHECK 9 silver 520489 -", b"OK 9 9"),
];

/// A token of each password column, one with no factor left and one of time steps.
const USERS: &[u8] = b"HOTP silver pw 3132333435363738393031323334353637383930\n\
HOTP gold - 3132333435363738393031323334353637383930\n\
HOTP iron + 3132333435363738393031323334353637383930\n\
HOTP lead - 3132333435363738393031323334353637383930 4611686018427387904\n\
HOTP/T30/8 tin - 3132333435363738393031323334353637383930\n";

/// A password that is not checked is no failure. Neither is a token without a factor left.
const COLUMNS: &[Row] = &[
    (7, 100, b"CHECK 1 silver 755224 -", b"NO 1 PASSWORD"),
    (7, 105, b"CHECK 2 silver 755224 pw", b"OK 2 0"),
    (7, 105, b"CHECK 3 gold 755224 pw", b"NO 3 PASSWORD"),
    (7, 110, b"CHECK 4 gold 755224 -", b"OK 4 0"),
    (7, 110, b"CHECK 5 iron 755224 pw", b"OK 5 0"),
    (7, 110, b"CHECK 6 iron 287082 -", b"OK 6 1"),
    (7, 110, b"CHECK 7 lead 755224 -", b"NO 7 EXHAUSTED"),
    (7, 110, b"RESYNC 8 lead 755224 287082 -", b"NO 8 EXHAUSTED"),
    (
        7,
        1_111_111_109,
        b"CHECK 9 tin 07081804 -",
        b"OK 9 37037036",
    ),
    (
        7,
        1_111_111_111,
        b"CHECK 10 tin 14050471 -",
        b"OK 10 37037037",
    ),
    (
        7,
        1_111_111_111,
        b"CHECK 11 tin 07081804 -",
        b"NO 11 INVALID",
    ),
];

/// Opens a server over a book, with a look-ahead of 5, a skew of 1 and a range of 9.
fn server_of<'b>(
    alloc: Global,
    book: &'b Book,
    key: &'b ClusterKey,
    floors: &[Next],
) -> Option<LineServer<'b>> {
    let settings = settings()?;
    if floors.len() != book.len() {
        return None;
    }
    LineServer::new(alloc, book, settings, key, floors).ok()
}

/// Returns whether a server answers a line as its row says.
fn answers(server: &mut LineServer<'_>, row: &Row) -> bool {
    let (client, moment, line, want) = *row;
    let line = ClientLine {
        client,
        moment,
        line,
    };
    match server.answer(&line) {
        Ok(answer) => answer.as_slice() == want,
        Err(_) => false,
    }
}

/// Returns the number of rows that a server answers as they say, before the first other answer.
fn count_answers(server: &mut LineServer<'_>, rows: &[Row]) -> usize {
    for (place, row) in rows.iter().enumerate() {
        if !answers(server, row) {
            return place;
        }
    }
    rows.len()
}

/// Returns the number of rows that a fresh server of the given users answers as they say.
fn count_of_server(alloc: Global, users: &[u8], rows: &[Row]) -> Option<usize> {
    let key = zeros()?;
    let (book, floors) = book_of(alloc, users)?;
    let mut server = server_of(alloc, &book, &key, &floors)?;
    Some(count_answers(&mut server, rows))
}

#[test]
fn first_path(rt: HostRuntime) {
    assert!(rt; count_of_server(rt.alloc(), SILVER, FIRST_PATH) == Some(3));
}

#[test]
fn fresh_token(rt: HostRuntime) {
    assert!(rt; count_of_server(rt.alloc(), SILVER, FRESH_TOKEN) == Some(10));
}

#[test]
fn resynchronization(rt: HostRuntime) {
    assert!(rt; count_of_server(rt.alloc(), SILVER, RESYNCHRONIZATION) == Some(6));
}

#[test]
fn password_column(rt: HostRuntime) {
    assert!(rt; count_of_server(rt.alloc(), USERS, COLUMNS) == Some(11));
}

/// Returns whether a server answers `lines` lines of an unknown user, each with its own nonce.
fn answers_strangers(server: &mut LineServer<'_>, lines: u16) -> bool {
    let mut text = *b"CHECK 0000 nobody 755224 -";
    for number in 0..lines {
        text[6] = b'0' + (number / 1000 % 10) as u8;
        text[7] = b'0' + (number / 100 % 10) as u8;
        text[8] = b'0' + (number / 10 % 10) as u8;
        text[9] = b'0' + (number % 10) as u8;
        let line = ClientLine {
            client: 7,
            moment: 100,
            line: &text,
        };
        match server.answer(&line) {
            Ok(answer) if answer.ends_with(b" UNKNOWN") => {}
            _ => return false,
        }
    }
    true
}

/// Returns whether the answer to the first line, sent again after `lines` other lines, is `again`.
fn is_kept(server: &mut LineServer<'_>, lines: u16, again: &'static [u8]) -> bool {
    let line = b"CHECK 1 silver 755224 -";
    answers(server, &(7, 100, line, b"OK 1 0"))
        && answers_strangers(server, lines)
        && answers(server, &(7, 100, line, again))
}

/// Returns the result of `is_kept` for a fresh server.
fn is_kept_afresh(alloc: Global, lines: u16, again: &'static [u8]) -> Option<bool> {
    let key = zeros()?;
    let (book, floors) = book_of(alloc, SILVER)?;
    let mut server = server_of(alloc, &book, &key, &floors)?;
    Some(is_kept(&mut server, lines, again))
}

/// A server keeps the last 1,024 answers: the first one is kept after 1,023 further lines, and dropped after 1,024.
#[test]
fn kept_answers(rt: HostRuntime) {
    assert!(rt; is_kept_afresh(rt.alloc(), 1023, b"OK 1 0") == Some(true));
    assert!(rt; is_kept_afresh(rt.alloc(), 1024, b"NO 1 INVALID") == Some(true));
}

/// The debug text of a line has neither its codes nor its password.
#[test]
fn shown_line(rt: HostRuntime) -> Result<(), AllocError> {
    let line = ClientLine {
        client: 7,
        moment: 100,
        line: b"RESYNC 1 silver 755224 287082 opensesame",
    };
    let shown = format!(in rt.alloc(); "{line:?}")?;
    assert!(rt; shown.as_str() == "ClientLine { client: 7, moment: 100, .. }");
    Ok(())
}
