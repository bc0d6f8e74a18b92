//! The table of a cluster's members, and reports on requests that are sent twice.

use arrayvec::ArrayVec;
use clients_file::OperatorEntry;
use oathd_asking::{Health, Sent, health_of, write_table};
use operator_text::{Report, Request, write_request};
use sealed_wire::{ClientKey, MAX_REPORT_LEN, Right, TAG_LEN, head_of, seal_report};
use std::alloc::Global;
use std::net::{Ipv4Addr, SocketAddrV4};
use std::test::Fail;

/// The state of the first of three members, which hears both others.
const FIRST: &[u8] = b"node 1 of 3
boot 7
tokens 2
fingerprint b1061f3a2d61dfbd
book 2a8f4a2865495c60
member 2 heard 0
member 3 heard 1
";

/// The state of a member with another book, which hears one other.
const OTHER: &[u8] = b"node 2 of 3
boot 8
tokens 3
fingerprint b1061f3a2d61dfbd
book 00000a2865495c60
member 1 heard 0
member 3 silent
";

/// Returns the table of members with these states, and what it says of the cluster.
fn table(alloc: Global, states: &[&[u8]]) -> Result<(Vec<u8>, Health), Fail> {
    let mut texts = Vec::new(alloc);
    for state in states {
        texts.push(Vec::from_slice(alloc, *state)?)?;
    }
    let mut table = Vec::new(alloc);
    write_table(&mut table, &texts).map_err(|_| Fail::new("no table"))?;
    Ok((table, health_of(&texts)))
}

/// All members are well.
#[test]
fn all_are_well(rt: HostRuntime) -> Result<(), Fail> {
    let (table, health) = table(rt.alloc(), &[FIRST, FIRST, FIRST])?;
    let rows: &[u8] = b"node boot heard tokens fingerprint book note
1 7 3/3 2 b1061f3a2d61dfbd 2a8f4a2865495c60 ok
2 7 3/3 2 b1061f3a2d61dfbd 2a8f4a2865495c60 ok
3 7 3/3 2 b1061f3a2d61dfbd 2a8f4a2865495c60 ok
";
    assert!(rt; table.as_slice() == rows);
    assert!(rt; health == Health::Well);
    Ok(())
}

/// A member with another book differs, and one without a state is silent.
#[test]
fn one_differs_and_one_is_silent(rt: HostRuntime) -> Result<(), Fail> {
    let (table, health) = table(rt.alloc(), &[FIRST, OTHER, b""])?;
    let rows: &[u8] = b"node boot heard tokens fingerprint book note
1 7 3/3 2 b1061f3a2d61dfbd 2a8f4a2865495c60 ok
2 8 2/3 3 b1061f3a2d61dfbd 00000a2865495c60 book differs
3 - - - - - silent
";
    assert!(rt; table.as_slice() == rows);
    assert!(rt; health == Health::Degraded);
    Ok(())
}

/// One of three members is no majority.
#[test]
fn one_is_no_majority(rt: HostRuntime) -> Result<(), Fail> {
    let (_, health) = table(rt.alloc(), &[b"", OTHER, b""])?;
    assert!(rt; health == Health::NoMajority);
    Ok(())
}

/// Returns an operator.
fn operator() -> Result<OperatorEntry, Fail> {
    Ok(OperatorEntry {
        number: 258,
        key: ClientKey::new(&[7; 32]).ok_or("a key")?,
        right: Right::Reader,
    })
}

/// Returns a request for the lines of a report from the number `from` on.
fn gates(operator: &OperatorEntry, from: u32) -> Sent<'_> {
    let request = Request::Page {
        report: Report::Gates,
        from,
    };
    let address = SocketAddrV4::new(Ipv4Addr::LOCALHOST, 7101);
    Sent::new(operator, 1, address, write_request(&request))
}

/// Returns the tag of a sealed request.
fn tag_of(request: &[u8]) -> Option<[u8; TAG_LEN]> {
    let (_, tag) = request.split_at_checked(request.len().checked_sub(TAG_LEN)?)?;
    tag.try_into().ok()
}

/// Returns the datagram of the report on a sealed request.
fn report(
    operator: &OperatorEntry,
    request: &[u8],
    text: &[u8],
) -> Result<ArrayVec<u8, MAX_REPORT_LEN>, Fail> {
    let head = head_of(request).ok_or("a head")?;
    let tag = tag_of(request).ok_or("a tag")?;
    Ok(seal_report(&operator.key, &tag, head, &text[..text.len().min(1024)]))
}

/// A first page that others follow counts on the last sending alone.
#[test]
fn first_page_counts_on_the_last_sending(rt: HostRuntime) -> Result<(), Fail> {
    let operator = operator()?;
    let mut sent = gates(&operator, 0);
    let first = sent.seal(1);
    let second = sent.seal(2);
    sent.take(&report(&operator, &first, b"a\nnext 1\n")?);
    assert!(rt; !sent.is_answered());
    sent.take(&report(&operator, &second, b"b\nnext 1\n")?);
    assert!(rt; sent.page().ok_or("a page")?.as_slice() == b"b\nnext 1\n".as_slice());
    Ok(())
}

/// A whole report, a refusal, and a later page count on any sending.
#[test]
fn others_count_on_any_sending(rt: HostRuntime) -> Result<(), Fail> {
    let operator = operator()?;
    let cases: [(u32, &[u8]); 3] = [(0, b"a\nend\n"), (0, b"NO RIGHT\n"), (1, b"b\nnext 2\n")];
    for (from, text) in cases {
        let mut sent = gates(&operator, from);
        let first = sent.seal(1);
        let _second = sent.seal(2);
        sent.take(&report(&operator, &first, text)?);
        assert!(rt; sent.page().ok_or("a page")?.as_slice() == text);
    }
    Ok(())
}
