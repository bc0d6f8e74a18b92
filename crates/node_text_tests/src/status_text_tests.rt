//! A STATUS report, as a page.

use arrayvec::ArrayVec;
use gatekeeping::{CommitTimes, Other, Refused, Seen};
use operator_text::{Page, read_page};
use sealed_port::Unopened;
use status_text::{Rows, Status, Version};
use std::test::Fail;

/// The lines of the values that [`status`] makes.
const STATUS: &[u8] = b"node 1 of 3
boot 7
version 0.9.0
clock 1800000000
started 1700000000
fingerprint b1061f3a2d61dfbd
book 2a8f4a2865495c60
rows 3 of 65536
tokens 2
pending 0
closed 1
received 6
replied 4
accepted 3
refused BADLINE 18446744073709551615
refused INVALID 2
ticks 5
largest-batch 64
commits 123
commit-millis 5 120
commit-millis more 3
unopened tag 9
member 2 heard 3
member 3 differs
";

/// Returns the values of a node.
fn status() -> Status {
    let mut others = ArrayVec::new();
    others.push(Other {
        number: 2,
        seen: Seen::Heard(3),
    });
    others.push(Other {
        number: 3,
        seen: Seen::Differs,
    });
    Status {
        node: 1,
        members: 3,
        boot: 7,
        version: Version {
            major: 0,
            minor: 9,
            patch: 0,
        },
        clock: 1_800_000_000,
        started: 1_700_000_000,
        fingerprint: *b"b1061f3a2d61dfbd",
        book: Some(*b"2a8f4a2865495c60"),
        rows: Some(Rows {
            number: 3,
            limit: 65_536,
        }),
        tokens: 2,
        pending: 0,
        closed: 1,
        received: 6,
        replied: 4,
        accepted: 3,
        refused: Refused {
            bad_line: u64::MAX,
            invalid: 2,
            ..Refused::default()
        },
        ticks: 5,
        largest_batch: 64,
        commit_times: CommitTimes {
            five: 120,
            more: 3,
            ..CommitTimes::default()
        },
        unopened: Unopened {
            tag: 9,
            ..Unopened::new()
        },
        others,
    }
}

/// A STATUS report has each line of its values, and fits a page.
#[test]
fn tells_the_status(rt: HostRuntime) -> Result<(), Fail> {
    let status = status();
    let mut page = Page::new(0);
    for line in status.lines().iter() {
        assert!(rt; page.push(&line.text()));
    }
    let bytes = page.finish();
    assert!(rt; read_page(&bytes) == Some((STATUS, None)));
    let first = status.write_line(0).ok_or_else(|| Fail::new("no line"))?;
    assert!(rt; first.as_slice() == b"node 1 of 3\n".as_slice());
    assert!(rt; status.write_line(24).is_none());
    Ok(())
}
