//! Requests both ways, and a report in pages, as a client gathers it.

use arrayvec::ArrayVec;
use operator_text::{Page, Report, Request, read_page, read_request, write_request};
use std::alloc::Global;
use std::test::Fail;

/// Each request is read as what was written. Others are not read.
#[test]
fn requests_both_ways(rt: HostRuntime) -> Result<(), Fail> {
    let page = Request::Page {
        report: Report::Floors,
        from: u32::MAX,
    };
    assert!(rt; write_request(&page).as_slice() == b"FLOORS 4294967295".as_slice());
    assert!(rt; read_request(b"FLOORS 4294967295") == Some(page));
    assert!(rt; !page.changes());
    let unlock = Request::Unlock(b"ann");
    assert!(rt; write_request(&unlock).as_slice() == b"UNLOCK ann".as_slice());
    assert!(rt; read_request(b"UNLOCK ann") == Some(unlock));
    assert!(rt; unlock.changes());
    assert!(rt; write_request(&Request::Drain).as_slice() == b"DRAIN".as_slice());
    assert!(rt; read_request(b"DRAIN") == Some(Request::Drain));
    assert!(rt; read_request(b"DRAIN\n").is_none());
    assert!(rt; read_request(b"FLOORS 4294967296").is_none());
    Ok(())
}

/// Returns the page from line `from` on of a report of `count` lines of 100 letters.
fn page_of_letters(count: u32, from: u32) -> ArrayVec<u8, 1024> {
    let mut line = [b'a'; 101];
    line[100] = b'\n';
    let mut page = Page::new(from);
    for _ in from..count {
        if !page.push(&line) {
            break;
        }
    }
    page.finish()
}

/// Returns the lengths of the lines of the pages of such a report.
fn lengths(alloc: Global, count: u32) -> Result<Vec<usize>, Fail> {
    let mut lengths = Vec::new(alloc);
    let mut from = Some(0);
    for _ in 0..=count {
        let Some(line) = from else {
            break;
        };
        let bytes = page_of_letters(count, line);
        let (lines, next) = read_page(&bytes).ok_or_else(|| Fail::new("no page"))?;
        lengths.push(lines.len())?;
        from = next;
    }
    Ok(lengths)
}

/// Nine lines of 101 bytes fit a page. A report of 20 has three pages, and a report without lines has one.
#[test]
fn pages_follow_each_other(rt: HostRuntime) -> Result<(), Fail> {
    assert!(rt; lengths(rt.alloc(), 20)?.as_slice() == [909, 909, 202].as_slice());
    assert!(rt; lengths(rt.alloc(), 9)?.as_slice() == [909].as_slice());
    assert!(rt; lengths(rt.alloc(), 0)?.as_slice() == [0].as_slice());
    Ok(())
}
