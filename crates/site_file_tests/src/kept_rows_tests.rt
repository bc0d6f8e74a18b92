//! The lines of a small file, and the reports of those that are left out.

use kept_rows::{lines_in, write_left};
use std::test::Fail;

/// A users file.
const TEXT: &[u8] = b"# staff\nHOTP ann - 31\nHOTP cid - 34\nHOTP/E/6 d\xc3\xa4n - 35\n";

/// What is kept of it.
const KEPT: &[u8] = b"HOTP ann - 31\n";

/// The text after the last LF is a line too.
#[test]
fn finds_lines(rt: HostRuntime) -> Result<(), Fail> {
    let lines = lines_in(rt.alloc(), KEPT)?;
    assert!(rt; lines.len() == 2);
    assert!(rt; lines[0] == b"HOTP ann - 31".as_slice());
    assert!(rt; lines[1].is_empty());
    Ok(())
}

/// The reports name the others.
#[test]
fn reports_the_others(rt: HostRuntime) -> Result<(), Fail> {
    let mut left: Vec<u8> = Vec::new(rt.alloc());
    write_left(rt.alloc(), &mut left, TEXT, KEPT)?;
    let told = b"enrol refused Full\nenrol left line=3 user=cid\nenrol left line=4 user=d??n\n";
    assert!(rt; left.as_slice() == told.as_slice());
    Ok(())
}
