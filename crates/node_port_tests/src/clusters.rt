//! Whole inputs over loopback sockets, with their output and their end.

use oathd_cluster::{Fault, run_cluster};
use otp_core::Settings;
use std::alloc::{AllocError, Global};
use std::io::{self, ErrorKind, Read, Write};
use std::net::Net;
use std::test::Fail;
use vote_wire::ClusterKey;

/// A users file of the token of RFC 4226, Appendix D.
const SILVER: &[u8] = b"HOTP silver - 3132333435363738393031323334353637383930\n";

/// Runs a cluster of `nodes` nodes under a key of 32 zeros, with a look-ahead of 5 and a range of 9.
fn clustered<N: Net, R: Read, W: Write>(
    alloc: Global,
    net: &N,
    nodes: u8,
    reader: &mut R,
    writer: &mut W,
) -> Result<(), Fault> {
    let settings = Settings::new(5, 1, 9).unwrap();
    let key = ClusterKey::new(&[0; 32]).unwrap();
    let nodes = nodes.clamp(1, 9);
    run_cluster(
        alloc, net, nodes, settings, 0, &key, SILVER, 2000, reader, writer,
    )
}

/// Returns whether a fault has the given text.
fn has_text(alloc: Global, fault: Fault, text: &str) -> Result<bool, AllocError> {
    Ok(format!(in alloc; "{fault}")?.as_str() == text)
}

/// Returns whether a cluster over the users file and `lines` prints `printed`, and fails with `text` or, if `text` is
/// empty, ends well.
pub(crate) fn ends_so<N: Net>(
    alloc: Global,
    net: &N,
    nodes: u8,
    lines: &str,
    printed: &str,
    text: &str,
) -> Result<bool, AllocError> {
    let mut reader = lines.as_bytes();
    let mut written = Vec::new(alloc);
    let ends = match clustered(alloc, net, nodes, &mut reader, &mut written) {
        Ok(()) => text.is_empty(),
        Err(fault) => has_text(alloc, fault, text)?,
    };
    Ok(ends && written.as_slice() == printed.as_bytes())
}

/// Checks three cases: one password at two nodes, a line in the form of an answer, and a line for no node.
///
/// Node 2 refuses the password that node 1 accepted, and node 3 accepts the next one. A line in the form of an answer
/// is bad. The first line for no node ends the run, after the replies to the lines before it.
#[test]
fn answers_lines(rt: HostRuntime) -> Result<(), Fail> {
    for (nodes, lines, printed, text) in [
        (
            3,
            "1 1000 CHECK 1 silver 755224 -\n2 1000 CHECK 2 silver 755224 -\n3 1000 CHECK 3 silver 287082 -\n",
            "1 OK 1 0\n2 NO 2 INVALID\n3 OK 3 1\n",
            "",
        ),
        (
            1,
            "1 1000 OV\n1 1000 \n1 1000 OK 1 0",
            "1 NO - BADLINE\n1 NO - BADLINE\n1 NO - BADLINE\n",
            "",
        ),
        (
            2,
            "2 1000 CHECK 1 silver 969429 -\n3 1 x\n2 1 x\n",
            "2 OK 1 3\n",
            "input line 2",
        ),
    ] {
        assert!(rt;
            ends_so(rt.alloc(), &rt, nodes, lines, printed, text)?,
            "{lines}"
        );
    }
    Ok(())
}

/// Checks that a cluster sends the first 512 bytes of a longer line.
#[test]
fn cuts_a_long_line(rt: HostRuntime) -> Result<(), Fail> {
    let mut long = String::from_str(rt.alloc(), "1 1000 ")?;
    for _ in 0..600 {
        long.push('x')?;
    }
    assert!(rt; ends_so(rt.alloc(), &rt, 1, long.as_str(), "1 NO - BADLINE\n", "")?);
    Ok(())
}

/// Checks the text of each fault.
#[test]
fn faults_have_texts(rt: HostRuntime) -> Result<(), Fail> {
    for (fault, text) in [
        (Fault::Memory, "out of memory"),
        (Fault::CannotRead, "cannot read -"),
        (Fault::CannotWrite, "cannot write"),
        (Fault::InputLine(7), "input line 7"),
        (Fault::Socket, "socket"),
        (Fault::Node(oath_node::NodeFault::Spent), "store: Spent"),
    ] {
        assert!(rt; has_text(rt.alloc(), fault, text)?, "{text}");
    }
    Ok(())
}

/// A writer that has room for the given number of bytes.
#[derive(Drop)]
struct Full(usize);

impl Write for Full {
    fn write(&mut self, bytes: &[u8]) -> io::Result<usize> {
        let taken = bytes.len().min(self.0);
        self.0 -= taken;
        if taken == 0 && !bytes.is_empty() {
            return Err(ErrorKind::WriteZero.into());
        }
        Ok(taken)
    }

    fn flush(&mut self) -> io::Result<()> {
        Ok(())
    }
}

#[test]
fn fails_where_the_writer_does(rt: HostRuntime) {
    for (room, end) in [
        (8, Err(Fault::CannotWrite)),
        (14, Err(Fault::CannotWrite)),
        (15, Ok(())),
    ] {
        let mut reader: &[u8] = b"1 1000 CHECK\n";
        assert!(rt; clustered(rt.alloc(), &rt, 1, &mut reader, &mut Full(room)) == end);
    }
}
