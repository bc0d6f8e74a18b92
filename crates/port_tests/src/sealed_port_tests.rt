//! A gate over ports in memory.

use crate::entries::is_offer;
use arrayvec::ArrayVec;
use datagram_port::{Coming, ListClock, ListPort, Port, Received, Sender};
use gatekeeping::Gatekeeper;
use replay_window::{Ahead, Window};
use sealed_port::{Client, Failures, Gate, Operator, SealedPort, Unopened};
use sealed_wire::{ClientKey, Head, Kind, MAX_SEALED_LEN, Right, TAG_LEN, open_report, seal};
use std::alloc::Global;
use std::test::Fail;

/// Client 258's line `CHECK k1 ann 755224 -` for node 2 at 100 seconds, under a key of 32 zeros, by Python's hmac.
const LINE: [u8; 68] = [
    0x4f, 0x53, 0x01, 0x01, 0x01, 0x02, 0x02, 0x00, 0x00, 0x00, 0x00, 0x05, 0xf5, 0xe1, 0x00, 0x43,
    0x48, 0x45, 0x43, 0x4b, 0x20, 0x6b, 0x31, 0x20, 0x61, 0x6e, 0x6e, 0x20, 0x37, 0x35, 0x35, 0x32,
    0x32, 0x34, 0x20, 0x2d, 0x28, 0xd6, 0x74, 0x98, 0x16, 0xd8, 0x57, 0xe1, 0xdf, 0xb6, 0x5f, 0x80,
    0xa6, 0x23, 0xba, 0xc6, 0x51, 0xdb, 0x98, 0x0f, 0x76, 0xa2, 0xd9, 0x5f, 0x71, 0xb9, 0x40, 0xec,
    0xfb, 0x78, 0xdb, 0x93,
];

/// The answer `OK k1 0` to it.
const ANSWER: [u8; 54] = [
    0x4f, 0x53, 0x01, 0x02, 0x01, 0x02, 0x02, 0x00, 0x00, 0x00, 0x00, 0x05, 0xf5, 0xe1, 0x00, 0x4f,
    0x4b, 0x20, 0x6b, 0x31, 0x20, 0x30, 0x39, 0xc8, 0x8c, 0xbd, 0xbf, 0x40, 0xd3, 0x47, 0x72, 0x9c,
    0x63, 0xc9, 0xf3, 0xeb, 0xd4, 0xef, 0xe5, 0x08, 0x3e, 0x3f, 0x46, 0xf3, 0x56, 0x77, 0x93, 0x88,
    0x61, 0x0b, 0xfe, 0x30, 0x4c, 0x32,
];

/// The gate of node 2, with client 258 and a process that began at 0. `most` limits the failures of a minute.
fn gate(alloc: Global, most: Option<u64>) -> Result<Gate, Fail> {
    gate_with(alloc, Window::new(0, Ahead::default()), most)
}

/// The same with a window.
fn gate_with(alloc: Global, window: Window, most: Option<u64>) -> Result<Gate, Fail> {
    let key = ClientKey::new(&[0; 32]).ok_or("a key")?;
    let mut clients = Vec::new(alloc);
    clients.push(Client::new(258, key, window))?;
    let mut plain = Vec::new(alloc);
    plain.push(0x7f00_0001)?;
    Ok(Gate::new(2, clients, Vec::new(alloc), plain, Failures::new(most)))
}

/// A client's datagram from an address.
fn from<'a>(address: u64, bytes: &'a [u8]) -> Coming<'a> {
    Coming::Datagram {
        sender: Sender::Client(address),
        bytes,
    }
}

/// The line with another byte at a place.
fn changed(place: usize, byte: u8) -> [u8; 68] {
    let mut line = LINE;
    if place < line.len() {
        line[place] = byte;
    }
    line
}

/// Returns the port over `comings`, with a clock that tells `moments`.
fn port<'a>(
    alloc: Global,
    comings: &'a [Coming<'a>],
    moments: &'a [u64],
) -> Result<SealedPort<ListPort<'a>, ListClock<'a>>, Fail> {
    Ok(SealedPort::new(
        ListPort::new(alloc, comings),
        ListClock::new(alloc, moments),
        gate(alloc, None)?,
    ))
}

/// Returns whether a receive handed in the line of client 258.
fn is_line(received: Received, buffer: &[u8; 512]) -> bool {
    received
        == Received::Datagram {
            sender: Sender::Client((1 << 48) + 258),
            len: 21,
        }
        && &buffer[..21] == b"CHECK k1 ann 755224 -".as_slice()
}

/// Returns whether the numbers are these.
fn are(unopened: Unopened, numbers: [u64; 6]) -> bool {
    let Unopened {
        form,
        tag,
        early,
        late,
        again,
        limited,
    } = unopened;
    [form, tag, early, late, again, limited] == numbers
}

/// A receive passes over three datagrams that are not opened, and hands in the line after them.
#[test]
fn receives_the_line_after_junk(rt: HostRuntime) -> Result<(), Fail> {
    let wrong_tag = changed(67, 0);
    let other_node = changed(6, 3);
    let comings = [
        from(9, b"CHECK"),
        from(7, &wrong_tag),
        from(7, &other_node),
        from(7, &LINE),
    ];
    let mut port = port(rt.alloc(), &comings, &[100, 100, 100, 100])?;
    let mut buffer = [0; 512];
    let received = port.receive(&mut buffer);
    assert!(rt; is_line(received, &buffer));
    assert!(rt; are(port.take_unopened(), [2, 1, 0, 0, 0, 0]));
    Ok(())
}

/// A flood of datagrams that are not opened makes no turn: one receive passes over all of them, and is then quiet.
#[test]
fn receives_a_flood_as_one_quiet_turn(rt: HostRuntime) -> Result<(), Fail> {
    let mut comings = [from(9, b"CHECK"); 300];
    comings[299] = Coming::Quiet;
    let moments = [100; 299];
    let mut port = port(rt.alloc(), &comings, &moments)?;
    let received = port.receive(&mut [0; 512]);
    assert!(rt; received == Received::Quiet);
    assert!(rt; are(port.take_unopened(), [299, 0, 0, 0, 0, 0]));
    assert!(rt; are(port.take_unopened(), [0, 0, 0, 0, 0, 0]));
    Ok(())
}

/// A port tells the moment of the line that it opened. A port that begins there passes over a copy of the line, and one
/// that begins a microsecond before hands it in.
#[test]
fn tells_its_latest_moment(rt: HostRuntime) -> Result<(), Fail> {
    let comings = [from(7, &LINE)];
    let mut first = port(rt.alloc(), &comings, &[100])?;
    assert!(rt; first.opened() == 2_000_000);
    let mut buffer = [0; 512];
    let received = first.receive(&mut buffer);
    assert!(rt; is_line(received, &buffer));
    let latest = first.opened();
    assert!(rt; latest == 100_000_000);
    assert!(rt; !opens_above(rt.alloc(), latest)? && opens_above(rt.alloc(), latest - 1)?);
    Ok(())
}

/// Returns whether a gate that begins at a mark opens the line.
fn opens_above(alloc: Global, mark: u64) -> Result<bool, Fail> {
    let gate = gate_with(alloc, Window::above(mark, Ahead::default()), None)?;
    Ok(gate.ruling(Some(100), &LINE).is_ok())
}

/// A poll passes over a copy of a line, and hands in the member's datagram and the plain line after it.
#[test]
fn polls_past_a_copy(rt: HostRuntime) -> Result<(), Fail> {
    let peer = Coming::Datagram {
        sender: Sender::Peer(3),
        bytes: b"OV",
    };
    let comings = [
        from(7, &LINE),
        from(8, &LINE),
        peer,
        from(0x7f00_0001_0005, b"CHECK"),
        from(9, b"CHECK"),
    ];
    let mut port = port(rt.alloc(), &comings, &[100, 101, 102])?;
    let mut buffer = [0; 512];
    let line = port.poll(&mut buffer).ok_or("a line")?;
    assert!(rt; is_line(line, &buffer));
    let member = Received::Datagram {
        sender: Sender::Peer(3),
        len: 2,
    };
    assert!(rt; port.poll(&mut buffer) == Some(member));
    let plain = Received::Datagram {
        sender: Sender::Client(0x7f00_0001_0005),
        len: 5,
    };
    assert!(rt; port.poll(&mut buffer) == Some(plain));
    assert!(rt; port.poll(&mut buffer).is_none());
    assert!(rt; are(port.take_unopened(), [1, 0, 0, 0, 1, 0]));
    Ok(())
}

/// A poll passes over at most 64 datagrams.
#[test]
fn polls_past_64(rt: HostRuntime) -> Result<(), Fail> {
    let mut comings = [from(9, b"CHECK"); 65];
    comings[64] = from(7, &LINE);
    let moments = [100; 65];
    let mut port = port(rt.alloc(), &comings, &moments)?;
    let mut buffer = [0; 512];
    assert!(rt; port.poll(&mut buffer).is_none());
    let line = port.poll(&mut buffer).ok_or("a line")?;
    assert!(rt; is_line(line, &buffer));
    Ok(())
}

/// The port counts lines that are too early, too late or seen before. The lead is 2 seconds, and the clock may fail.
#[test]
fn counts_moments(rt: HostRuntime) -> Result<(), Fail> {
    let comings = [from(7, &LINE); 6];
    let mut port = port(rt.alloc(), &comings, &[97, 161, 160, 98, 100])?;
    let mut buffer = [0; 512];
    let received = port.receive(&mut buffer);
    assert!(rt; is_line(received, &buffer));
    assert!(rt; are(port.take_unopened(), [0, 0, 1, 1, 0, 0]));
    assert!(rt; port.receive(&mut buffer) == Received::Quiet);
    assert!(rt; are(port.take_unopened(), [0, 0, 1, 0, 2, 0]));
    Ok(())
}

/// Returns whether the last event of a port below is the offer of `bytes` to `to`.
fn offers(below: &ListPort<'_>, to: Sender, bytes: &[u8]) -> bool {
    let Some(entries) = below.record() else {
        return false;
    };
    match entries.last() {
        Some(entry) => is_offer(entry, to, bytes),
        None => false,
    }
}

/// The port seals an answer once, for the line's address.
#[test]
fn seals_an_answer_once(rt: HostRuntime) -> Result<(), Fail> {
    let comings = [from(7, &LINE)];
    let mut port = port(rt.alloc(), &comings, &[100])?;
    let client = Sender::Client((1 << 48) + 258);
    let _line = port.receive(&mut [0; 512]);
    assert!(rt; !port.send(client, b"OK k2 0"));
    assert!(rt; port.send(client, b"OK k1 0"));
    assert!(rt; !port.send(client, b"OK k1 0"));
    let below = port.into_inner();
    let entries = below.record().ok_or("a record")?;
    assert!(rt; entries.len() == 2);
    assert!(rt; is_offer(&entries[1], Sender::Client(7), &ANSWER));
    Ok(())
}

/// A client that failed as often as it may is heard again in the next minute of the clock. Its line is then a copy.
#[test]
fn limits_failures(rt: HostRuntime) -> Result<(), Fail> {
    let comings = [from(7, &LINE); 4];
    let mut port = SealedPort::new(
        ListPort::new(rt.alloc(), &comings),
        ListClock::new(rt.alloc(), &[100, 101, 119, 120]),
        gate(rt.alloc(), Some(1))?,
    );
    let _line = port.receive(&mut [0; 512]);
    assert!(rt; port.send(Sender::Client((1 << 48) + 258), b"NO k1 INVALID"));
    assert!(rt; port.receive(&mut [0; 512]) == Received::Quiet);
    assert!(rt; are(port.take_unopened(), [0, 0, 0, 0, 1, 2]));
    Ok(())
}

/// Answers to a plain client and datagrams for a member pass unchanged.
#[test]
fn sends_unsealed(rt: HostRuntime) -> Result<(), Fail> {
    let mut port = port(rt.alloc(), &[], &[])?;
    assert!(rt; port.send(Sender::Peer(3), b"OV"));
    assert!(rt; port.send(Sender::Client(5), b"NO 1 BUSY"));
    let below = port.into_inner();
    let entries = below.record().ok_or("a record")?;
    assert!(rt; entries.len() == 2);
    assert!(rt; is_offer(&entries[0], Sender::Peer(3), b"OV"));
    assert!(rt; is_offer(&entries[1], Sender::Client(5), b"NO 1 BUSY"));
    Ok(())
}

/// Operator 258's request `STATUS` for node 2 at 100 seconds, under a key of 32 zeros, by Python's hmac.
const REQUEST: [u8; 53] = [
    0x4f, 0x53, 0x01, 0x03, 0x01, 0x02, 0x02, 0x00, 0x00, 0x00, 0x00, 0x05, 0xf5, 0xe1, 0x00, 0x53,
    0x54, 0x41, 0x54, 0x55, 0x53, 0xcd, 0xcc, 0x6b, 0x84, 0xe6, 0xf6, 0xae, 0x1f, 0xf1, 0x7e, 0xdb,
    0x14, 0xd3, 0x20, 0xc6, 0x18, 0xde, 0x22, 0x3d, 0x52, 0xc0, 0x76, 0x9f, 0x78, 0xf0, 0x77, 0x22,
    0xa1, 0x1a, 0x3b, 0x8e, 0xf5,
];

/// The report on it: `node 2 of 3` and `end`, each with its LF.
const REPORT: [u8; 63] = [
    0x4f, 0x53, 0x01, 0x04, 0x01, 0x02, 0x02, 0x00, 0x00, 0x00, 0x00, 0x05, 0xf5, 0xe1, 0x00, 0x6e,
    0x6f, 0x64, 0x65, 0x20, 0x32, 0x20, 0x6f, 0x66, 0x20, 0x33, 0x0a, 0x65, 0x6e, 0x64, 0x0a, 0x9d,
    0x69, 0x88, 0x82, 0x55, 0x27, 0x81, 0x5e, 0xd2, 0x8d, 0x0a, 0x68, 0x83, 0x43, 0x7a, 0x54, 0x3a,
    0xd4, 0x7e, 0x17, 0x4b, 0xd1, 0x21, 0xbb, 0x0c, 0xef, 0xbd, 0x6d, 0x70, 0x49, 0x5d, 0xa5,
];

/// The gate of node 2, with operator 258 and a process that began at 0.
fn operators_gate(alloc: Global) -> Result<Gate, Fail> {
    let key = ClientKey::new(&[0; 32]).ok_or("a key")?;
    let holder = Client::new(258, key, Window::new(0, Ahead::default()));
    let mut operators = Vec::new(alloc);
    operators.push(Operator::new(holder, Right::Operator))?;
    let (clients, plain) = (Vec::new(alloc), Vec::new(alloc));
    Ok(Gate::new(2, clients, operators, plain, Failures::new(None)))
}

/// The port of an operator over `comings`, with a clock that tells `moments`.
fn operators_port<'a>(
    alloc: Global,
    comings: &'a [Coming<'a>],
    moments: &'a [u64],
) -> Result<SealedPort<ListPort<'a>, ListClock<'a>>, Fail> {
    Ok(SealedPort::new(
        ListPort::new(alloc, comings),
        ListClock::new(alloc, moments),
        operators_gate(alloc)?,
    ))
}

/// The datagram that the node is handed in place of a request.
const STAND_IN: Received = Received::Datagram {
    sender: Sender::Peer(0),
    len: 0,
};

/// A receive ends with a request, which is taken once. A copy of it is passed over.
#[test]
fn sets_a_request_aside(rt: HostRuntime) -> Result<(), Fail> {
    let comings = [from(9, b"CHECK"), from(7, &REQUEST), from(8, &REQUEST)];
    let mut port = operators_port(rt.alloc(), &comings, &[100, 100, 100])?;
    assert!(rt; port.receive(&mut [0; 512]) == STAND_IN);
    assert!(rt; port.poll(&mut [0; 512]).is_none());
    assert!(rt; are(port.take_unopened(), [1, 0, 0, 0, 1, 0]));
    let request = port.take_request().ok_or("a request")?;
    assert!(rt; request.number() == 258 && request.right() == Right::Operator);
    assert!(rt; request.text() == b"STATUS".as_slice());
    assert!(rt; port.take_request().is_none());
    Ok(())
}

/// A poll hands in the stand-in of a request, and the report on it goes to its address.
#[test]
fn reports_on_a_request(rt: HostRuntime) -> Result<(), Fail> {
    let comings = [from(7, &REQUEST)];
    let mut port = operators_port(rt.alloc(), &comings, &[100])?;
    assert!(rt; port.poll(&mut [0; 512]) == Some(STAND_IN));
    let request = port.take_request().ok_or("a request")?;
    assert!(rt; !port.report(&request, &[b'\n'; 1025]));
    assert!(rt; port.report(&request, &[b'\n'; 1024]));
    assert!(rt; port.report(&request, b"node 2 of 3\nend\n"));
    assert!(rt; offers(&port.into_inner(), Sender::Client(7), &REPORT));
    Ok(())
}

/// The operator reads the report with its request's tag, and with no other.
#[test]
fn reads_its_report(rt: HostRuntime) -> Result<(), Fail> {
    let key = ClientKey::new(&[0; 32]).ok_or("a key")?;
    let mut tag = [0; TAG_LEN];
    tag.copy_from_slice(&REQUEST[21..]);
    let (_, text) = open_report(&key, &tag, &REPORT).ok_or("a report")?;
    assert!(rt; text == b"node 2 of 3\nend\n".as_slice());
    assert!(rt; open_report(&key, &[0; TAG_LEN], &REPORT).is_none());
    Ok(())
}

/// The request of operator 258 at a moment in microseconds.
fn request_at(moment: u64) -> Result<ArrayVec<u8, MAX_SEALED_LEN>, Fail> {
    let key = ClientKey::new(&[0; 32]).ok_or("a key")?;
    let head = Head {
        kind: Kind::Request,
        client: 258,
        node: 2,
        moment,
    };
    Ok(seal(&key, &[], head, b"STATUS"))
}

/// Returns nine requests of operator 258, a microsecond apart.
fn nine_requests() -> Result<[ArrayVec<u8, MAX_SEALED_LEN>; 9], Fail> {
    Ok([
        request_at(100_000_000)?,
        request_at(100_000_001)?,
        request_at(100_000_002)?,
        request_at(100_000_003)?,
        request_at(100_000_004)?,
        request_at(100_000_005)?,
        request_at(100_000_006)?,
        request_at(100_000_007)?,
        request_at(100_000_008)?,
    ])
}

/// A ninth request is passed over while 8 wait. It is set aside once one was taken.
#[test]
fn keeps_eight_requests(rt: HostRuntime) -> Result<(), Fail> {
    let requests = nine_requests()?;
    let mut comings = [Coming::Quiet; 11];
    for place in 0..9 {
        comings[place] = from(7, &requests[place]);
    }
    comings[10] = from(7, &requests[8]);
    let mut port = operators_port(rt.alloc(), &comings, &[100; 10])?;
    for _ in 0..8 {
        assert!(rt; port.receive(&mut [0; 512]) == STAND_IN);
    }
    assert!(rt; port.receive(&mut [0; 512]) == Received::Quiet);
    assert!(rt; are(port.take_unopened(), [0, 0, 0, 0, 1, 0]));
    assert!(rt; port.take_request().is_some());
    assert!(rt; port.receive(&mut [0; 512]) == STAND_IN);
    assert!(rt; are(port.take_unopened(), [0, 0, 0, 0, 0, 0]));
    Ok(())
}

/// The answer `NO k1 BUSY` to the line, by Python's hmac.
const BUSY: [u8; 57] = [
    0x4f, 0x53, 0x01, 0x02, 0x01, 0x02, 0x02, 0x00, 0x00, 0x00, 0x00, 0x05, 0xf5, 0xe1, 0x00, 0x4e,
    0x4f, 0x20, 0x6b, 0x31, 0x20, 0x42, 0x55, 0x53, 0x59, 0xdc, 0x1a, 0xda, 0xea, 0x8c, 0xa1, 0x26,
    0x08, 0xe0, 0x0f, 0x0b, 0x8a, 0x4a, 0x72, 0x53, 0x18, 0x21, 0xc2, 0x55, 0x38, 0xed, 0xa6, 0xe9,
    0xa7, 0xb6, 0x06, 0x46, 0x09, 0x11, 0xa8, 0x77, 0x6f,
];

/// A port that drains answers a line once, and hands in a stand-in. A copy of the line is passed over.
#[test]
fn turns_a_line_away(rt: HostRuntime) -> Result<(), Fail> {
    let comings = [from(7, &LINE), from(8, &LINE)];
    let mut port = port(rt.alloc(), &comings, &[100, 100])?;
    port.drain();
    assert!(rt; port.receive(&mut [0; 512]) == STAND_IN);
    assert!(rt; port.poll(&mut [0; 512]).is_none());
    assert!(rt; are(port.take_unopened(), [0, 0, 0, 0, 1, 0]));
    let below = port.into_inner();
    let entries = below.record().ok_or("a record")?;
    assert!(rt; entries.len() == 3);
    assert!(rt; is_offer(&entries[1], Sender::Client(7), &BUSY));
    Ok(())
}

/// A line that waits when the port begins to drain gets the node's answer, and it is handed in when it comes again.
#[test]
fn drains_what_waits(rt: HostRuntime) -> Result<(), Fail> {
    let key = ClientKey::new(&[0; 32]).ok_or("a key")?;
    let head = Head {
        kind: Kind::Line,
        client: 258,
        node: 2,
        moment: 99_000_000,
    };
    let first = seal(&key, &[], head, b"CHECK k1 ann 755224 -");
    let comings = [from(7, &first), from(7, &LINE)];
    let mut port = port(rt.alloc(), &comings, &[100, 100])?;
    let mut buffer = [0; 512];
    let _line = port.receive(&mut buffer);
    port.drain();
    let again = port.receive(&mut buffer);
    assert!(rt; is_line(again, &buffer));
    assert!(rt; port.send(Sender::Client((1 << 48) + 258), b"OK k1 0"));
    assert!(rt; offers(&port.into_inner(), Sender::Client(7), &ANSWER));
    Ok(())
}
