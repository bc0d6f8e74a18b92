use oathd_sim::{Fault, run_sim};
use otp_core::Settings;
use std::alloc::Global;
use std::io::{self, BufReader, ErrorKind, Read, Write};
use std::test::Fail;
use token_file::{FileFault, LineFault};
use users_input::{Input, InputFault, NextLine, Retrying, text_of};
use vote_wire::ClusterKey;

/// A reader that fails `times` times with `kind`, and afterwards returns one byte at a time.
#[derive(Drop)]
struct FailsFirst {
    times: u32,
    kind: ErrorKind,
}

impl Read for FailsFirst {
    fn read(&mut self, buf: &mut [u8]) -> io::Result<usize> {
        if self.times > 0 {
            self.times -= 1;
            return Err(self.kind.into());
        }
        match buf.first_mut() {
            Some(first) => {
                *first = b'a';
                Ok(1)
            }
            None => Ok(0),
        }
    }
}

/// A read is tried 65 times if it is interrupted, and once if it fails in another way.
#[test]
fn interrupted_reads_are_tried_again(rt: HostRuntime) {
    for (times, kind, is_read) in [
        (0, ErrorKind::Interrupted, true),
        (64, ErrorKind::Interrupted, true),
        (65, ErrorKind::Interrupted, false),
        (1, ErrorKind::Other, false),
    ] {
        let mut byte = [0];
        let end = Retrying::new(FailsFirst { times, kind }).read(&mut byte);
        assert!(rt; end.is_ok() == is_read && (byte == [b'a']) == is_read);
    }
}

/// Returns whether the next line of an input is `wanted`, with the given text.
fn is_next<B: io::BufRead>(
    input: &mut Input<B>,
    line: &mut Vec<u8>,
    wanted: Result<NextLine, InputFault>,
    text: &[u8],
) -> bool {
    input.next_line(line) == wanted && text_of(line) == text
}

/// The lines of an input up to its limit, and the fault of a failed read.
#[test]
fn lines_are_taken_in_turn(rt: HostRuntime) -> Result<(), Fail> {
    let mut line = Vec::new(rt.alloc());
    let text = b"a b\n\nlast".as_slice();
    let mut input = Input::new(BufReader::new(rt.alloc(), text)?, 8);
    assert!(rt; is_next(&mut input, &mut line, Ok(NextLine::Whole), b"a b"));
    assert!(rt; is_next(&mut input, &mut line, Ok(NextLine::Whole), b""));
    assert!(rt; is_next(&mut input, &mut line, Ok(NextLine::Cut), b"last"));
    assert!(rt; is_next(&mut input, &mut line, Ok(NextLine::End), b""));
    for (kind, wanted) in [
        (ErrorKind::Other, InputFault::CannotRead),
        (ErrorKind::OutOfMemory, InputFault::Memory),
    ] {
        let held = BufReader::new(rt.alloc(), FailsFirst { times: 1, kind })?;
        assert!(rt; is_next(&mut Input::new(held, 8), &mut line, Err(wanted), b""));
    }
    Ok(())
}

/// A reader that returns a text in pieces of at most `size` bytes, and afterwards ends or fails with `end`.
#[derive(Drop)]
struct Pieces<'a> {
    text: &'a [u8],
    size: usize,
    end: Option<ErrorKind>,
}

impl Read for Pieces<'_> {
    fn read(&mut self, buf: &mut [u8]) -> io::Result<usize> {
        if self.text.is_empty() {
            return match self.end {
                Some(kind) => Err(kind.into()),
                None => Ok(0),
            };
        }
        let len = buf.len().min(self.size);
        self.text.read(&mut buf[..len])
    }
}

/// Runs a simulation of three nodes under a key of 32 zeros, with a look-ahead of 5 and a range of 9.
fn simulated<W: Write>(
    alloc: Global,
    reader: &mut Pieces<'_>,
    writer: &mut W,
) -> Result<(), Fault> {
    let settings = Settings::new(5, 1, 9).unwrap();
    let key = ClusterKey::new(&[0; 32]).unwrap();
    run_sim(alloc, 3, settings, 0, &key, 2000, reader, writer)
}

/// Returns whether a simulation prints `printed` and ends with `end`.
fn ends_so(alloc: Global, reader: &mut Pieces<'_>, printed: &[u8], end: Result<(), Fault>) -> bool {
    let mut written = Vec::new(alloc);
    simulated(alloc, reader, &mut written) == end && written.as_slice() == printed
}

/// A token, an event, and two rounds among two live nodes.
const TWO_ROUNDS: &[u8] = b"HOTP silver - 3132333435363738393031323334353637383930\n%%\n\
    tick 3\n# node 3 is lost\n\nlive 1 2\nround 1 7 1000 CHECK a silver 755224 -\n\
    round 2 8 1000 CHECK b silver 287082 -\n";

/// The output of the two rounds.
const TWO_PASSES: &[u8] =
    b"pass 1 3 1 0 0 0\npass 4 6 2 0 1 1\nanswer 3 1 7 OK a 0\nanswer 6 2 8 OK b 1\nsent 8\n";

/// Whole inputs, in pieces: their output, and the first bad line by its number in the whole input.
#[test]
fn scripts_are_run(rt: HostRuntime) {
    for (text, printed, end) in [
        (TWO_ROUNDS, TWO_PASSES, Ok(())),
        (b"#\n", b"sent 0\n", Ok(())),
        (b"%%", b"sent 0\n", Ok(())),
        (
            b"#\n\n%%\n# one\n\ntick 1\ntick\ntick\n",
            b"",
            Err(Fault::ScriptLine(7)),
        ),
        (b"%%\ntick\n", b"", Err(Fault::ScriptLine(2))),
        (b"%%\n%%\n", b"", Err(Fault::ScriptLine(2))),
    ] {
        for size in [7, 4096] {
            let mut reader = Pieces {
                text,
                size,
                end: None,
            };
            assert!(rt; ends_so(rt.alloc(), &mut reader, printed, end));
        }
    }
}

/// Readers that fail after a text, in the users file and after it.
#[test]
fn failed_reads_are_faults(rt: HostRuntime) {
    let cut = Fault::Users(FileFault {
        line: 2,
        kind: LineFault::Read,
    });
    for (text, kind, fault) in [
        (
            b"%%\ntick 1\n".as_slice(),
            ErrorKind::Other,
            Fault::CannotRead,
        ),
        (b"%%\ntick\n", ErrorKind::Interrupted, Fault::CannotRead),
        (b"%%\ntick 1\n", ErrorKind::OutOfMemory, Fault::Memory),
        (b"#\n", ErrorKind::Other, cut),
        (b"#\n", ErrorKind::OutOfMemory, Fault::Memory),
    ] {
        let mut reader = Pieces {
            text,
            size: 4096,
            end: Some(kind),
        };
        assert!(rt; ends_so(rt.alloc(), &mut reader, b"", Err(fault)));
    }
}

/// A writer that has room for the given number of bytes.
#[derive(Drop)]
struct Full(usize);

impl Write for Full {
    fn write(&mut self, bytes: &[u8]) -> io::Result<usize> {
        let taken = bytes.len().min(self.0);
        self.0 -= taken;
        if taken == 0 && !bytes.is_empty() {
            return Err(ErrorKind::WriteZero.into());
        }
        Ok(taken)
    }

    fn flush(&mut self) -> io::Result<()> {
        Ok(())
    }
}

/// A writer that fails at any byte of the output.
#[test]
fn failed_writes_are_faults(rt: HostRuntime) {
    for room in 0..=TWO_PASSES.len() {
        let mut reader = Pieces {
            text: TWO_ROUNDS,
            size: 4096,
            end: None,
        };
        let end = simulated(rt.alloc(), &mut reader, &mut Full(room));
        assert!(rt; end.is_ok() == (room == TWO_PASSES.len()));
        assert!(rt; end.is_ok() || end == Err(Fault::CannotWrite));
    }
}
