use crate::failing::{Dialog, Front, Room};
use oathd_lines::{Fault, print_secret, serve_lines};
use otp_core::Settings;
use secret_text::SecretFault;
use std::alloc::Global;
use std::cell::Cell;
use std::io::{ErrorKind, Read, Write};
use std::test::Fail;
use token_file::{FileFault, LineFault};
use vote_wire::ClusterKey;

/// Runs the usual server on an input, under a key of 32 zeros.
fn served<R: Read, W: Write>(alloc: Global, reader: &mut R, writer: &mut W) -> Result<(), Fault> {
    let key = ClusterKey::new(&[0; 32]).unwrap();
    serve_lines(alloc, Settings::default(), 0, &key, 1000, reader, writer)
}

/// Returns whether a run prints `printed` and ends with `end`, over an input in pieces of `size` bytes that may fail.
fn ends_so(
    alloc: Global,
    text: &str,
    size: usize,
    fault: Option<ErrorKind>,
    printed: &str,
    end: Result<(), Fault>,
) -> bool {
    let mut reader = Front {
        text: text.as_bytes(),
        size,
        fault,
    };
    let mut written = Vec::new(alloc);
    served(alloc, &mut reader, &mut written) == end && written.as_slice() == printed.as_bytes()
}

/// A run over pieces of any size prints the answers before the first bad line, and names this line.
#[test]
fn answers_lines(rt: HostRuntime) {
    let text = "HOTP silver - 3132333435363738393031323334353637383930\n%%\n\
        7 100 CHECK 1 silver 755224 -\n7 200 CHECK 2 silver 755224 -\n7 300 CHECK 3 silver 969429 -\n\n";
    let printed = "OK 1 0\nNO 2 INVALID\nOK 3 3\n";
    for size in [1, 7, 1000] {
        assert!(rt;
            ends_so(
                rt.alloc(),
                text,
                size,
                None,
                printed,
                Err(Fault::InputLine(6))
            )
        );
    }
}

/// The lines of one token of six digits, and the answers.
///
/// Each failure closes the token for 5 s more than the last one, and an acceptance opens it.
const THROTTLED: &[(&str, &str)] = &[
    ("7 100 CHECK 1 silver 000000 -\n", "NO 1 INVALID\n"),
    ("7 104 CHECK 2 silver 755224 -\n", "NO 2 THROTTLED 1\n"),
    ("7 105 CHECK 3 silver 000000 -\n", "NO 3 INVALID\n"),
    ("7 114 CHECK 4 silver 359152 -\n", "NO 4 THROTTLED 1\n"),
    ("7 115 CHECK 5 silver 359152 -\n", "OK 5 2\n"),
    ("7 115 CHECK 6 silver 000000 -\n", "NO 6 INVALID\n"),
    ("7 119 CHECK 7 silver 969429 -\n", "NO 7 THROTTLED 1\n"),
    ("7 120 CHECK 8 silver 969429 -\n", "OK 8 3\n"),
];

/// A run with a look-ahead of 5 and a range of 9.
#[test]
fn failures_close_a_token(rt: HostRuntime) -> Result<(), Fail> {
    let settings = Settings::new(5, 1, 9).unwrap();
    let key = ClusterKey::new(&[0; 32]).unwrap();
    let mut text = String::from_str(
        rt.alloc(),
        "HOTP silver - 3132333435363738393031323334353637383930\n%%\n",
    )?;
    let mut wanted = String::new(rt.alloc());
    for (line, answer) in THROTTLED {
        text.push_str(line)?;
        wanted.push_str(answer)?;
    }
    let mut reader = text.as_bytes();
    let mut written = Vec::new(rt.alloc());
    let end = serve_lines(
        rt.alloc(),
        settings,
        0,
        &key,
        1000,
        &mut reader,
        &mut written,
    );
    assert!(rt; end == Ok(()));
    assert!(rt; written.as_slice() == wanted.as_bytes());
    Ok(())
}

/// Returns a fault of the users file in the given line.
fn users_fault(line: u32, kind: LineFault) -> Fault {
    Fault::Users(FileFault { line, kind })
}

/// After the users file a run prints the answers before the fault. Within the users file it reports the first fault.
#[test]
fn fails_where_the_reader_does(rt: HostRuntime) {
    let memory = ErrorKind::OutOfMemory;
    let answers = "NO - BADLINE\nNO - BADLINE\n";
    let missing = users_fault(1, LineFault::MissingField);
    for (text, kind, printed, fault) in [
        ("%%\n", ErrorKind::Other, "", Fault::CannotRead),
        (
            "%%\n7 1 x\n7 1 y\n7 1",
            ErrorKind::Other,
            answers,
            Fault::CannotRead,
        ),
        ("%%\n7 1 x\n7 1 y\n", memory, answers, Fault::Memory),
        (
            "#\n#\n%%",
            ErrorKind::Other,
            "",
            users_fault(3, LineFault::Read),
        ),
        ("HOTP a -\nHOTP b", ErrorKind::Other, "", missing),
        ("HOTP a - 00\nHOTP b", memory, "", Fault::Memory),
    ] {
        assert!(rt;
            ends_so(rt.alloc(), text, 1000, Some(kind), printed, Err(fault)),
            "{text}"
        );
    }
}

/// Returns the end of a run of two lines over a writer with room for `left` bytes, and the number of flushes.
fn end_in(alloc: Global, left: usize, flush_fails: bool) -> (Result<(), Fault>, u32) {
    let flushed = Cell::new(0);
    let mut writer = Room {
        left,
        written: 0,
        flushed: &flushed,
        flushes: 0,
        flush_fails,
    };
    let mut reader: &[u8] = b"%%\n7 1 x\n7 1 y\n";
    (served(alloc, &mut reader, &mut writer), writer.flushes)
}

/// Answers to lines that arrive in one piece are flushed together.
#[test]
fn fails_where_the_writer_does(rt: HostRuntime) {
    let cannot = Err(Fault::CannotWrite);
    for (left, flush_fails, end) in [
        (0, false, (cannot, 0)),
        (25, false, (cannot, 0)),
        (26, false, (Ok(()), 1)),
        (26, true, (cannot, 0)),
    ] {
        assert!(rt; end_in(rt.alloc(), left, flush_fails) == end, "{left}");
    }
}

/// A server answers a line, and flushes the answer, before it reads the next line.
#[test]
fn answers_each_line_as_it_comes(rt: HostRuntime) {
    let flushed = Cell::new(0);
    let lines = [
        ("HOTP a - 00\n", 0),
        ("%%\n", 0),
        ("7 1 x\n", 0),
        ("7 1 CHECK 1 b 755224 -\n", 13),
        ("7 1 x", 26),
        ("\n", 26),
    ];
    let mut reader = Dialog {
        lines: &lines,
        given: 0,
        flushed: &flushed,
    };
    let mut writer = Room {
        left: 1000,
        written: 0,
        flushed: &flushed,
        flushes: 0,
        flush_fails: false,
    };
    assert!(rt; served(rt.alloc(), &mut reader, &mut writer) == Ok(()));
    assert!(rt; flushed.get() == 39);
}

/// The text of each fault.
#[test]
fn texts(rt: HostRuntime) -> Result<(), Fail> {
    for (fault, wanted) in [
        (Fault::Memory, "out of memory"),
        (Fault::CannotRead, "cannot read -"),
        (Fault::CannotWrite, "cannot write"),
        (
            users_fault(7, LineFault::BadSecret),
            "users line 7: BadSecret",
        ),
        (Fault::InputLine(4_294_967_296), "input line 4294967296"),
        (Fault::BadKey(SecretFault::Empty), "bad key: Empty"),
        (Fault::NotText, "a word is not text"),
    ] {
        let text = format!(in rt.alloc(); "{fault}")?;
        assert!(rt; text.as_str() == wanted, "{wanted}");
    }
    Ok(())
}

/// A secret of RFC 4648, section 10.
#[test]
fn prints_a_secret(rt: HostRuntime) {
    let mut written = Vec::new(rt.alloc());
    assert!(rt; print_secret(&mut written, b"666f6f626172") == Ok(()));
    assert!(rt; written.as_slice() == b"MZXW6YTBOI======\n".as_slice());
}
