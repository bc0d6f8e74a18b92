//! A port that joins datagrams, over a port in memory.

ghost use Rattle.std.specs.Prelude.{◌≤◌, IfOk};
ghost use Rattle.datagram_port.specs.Port.{IsWithin};

use crate::entries::is_offer;
use bundle_port::{BundlePort, is_bundle};
use datagram_port::{Coming, ListPort, Port, PortEntry, Received, Sender};
use gatekeeping::Gatekeeper;
use std::alloc::Global;
use std::test::Fail;

/// A datagram of a member.
fn from_member<'a>(member: u8, bytes: &'a [u8]) -> Coming<'a> {
    Coming::Datagram {
        sender: Sender::Peer(member),
        bytes,
    }
}

/// Returns the length of a received datagram of member 1.
fn len_of(received: Received) -> Result<usize, Fail>
    requires { IsWithin received }
    ensures { IfOk result (λ len. len ≤ 512) }
{
    match received {
        Received::Datagram {
            sender: Sender::Peer(1),
            len,
        } => Ok(len),
        _ => Err(Fail::new("no datagram of member 1")),
    }
}

/// Returns whether an entry is the offer of a datagram of the given length to member 2.
fn has_len(entry: &PortEntry, len: usize) -> bool {
    match entry {
        PortEntry::Offered { to, bytes } => *to == Sender::Peer(2) && bytes.len() == len,
        _ => false,
    }
}

/// Three datagrams that can be parts.
const FIRST: &[u8; 33] = &[b'a'; 33];

const SECOND: &[u8; 32] = &[b'c'; 32];

const THIRD: &[u8; 34] = &[b'd'; 34];

/// Returns the bundle of the first two.
fn bundle_of_two() -> [u8; 70] {
    let mut bytes = [0; 70];
    bytes[..4].copy_from_slice(b"OB\x01\x21");
    bytes[4..37].copy_from_slice(FIRST);
    bytes[37] = 32;
    bytes[38..].copy_from_slice(SECOND);
    bytes
}

/// Returns the bundle of the three.
fn bundle_of_three() -> [u8; 105] {
    let mut bytes = [0; 105];
    bytes[..70].copy_from_slice(&bundle_of_two());
    bytes[70] = 34;
    bytes[71..].copy_from_slice(THIRD);
    bytes
}

/// Three datagrams to member 2 and one to member 3 are two offers at the next receive, in the order of the members.
#[test]
fn datagrams_are_joined(rt: HostRuntime) -> Result<(), Fail> {
    let mut port = BundlePort::new(ListPort::new(rt.alloc(), &[]));
    let mut buffer = [0; 512];
    assert!(rt; port.send(Sender::Peer(2), FIRST));
    assert!(rt; port.send(Sender::Peer(3), FIRST));
    assert!(rt; port.send(Sender::Peer(2), SECOND));
    assert!(rt; port.send(Sender::Peer(2), THIRD));
    assert!(rt; port.poll(&mut buffer).is_none());
    assert!(rt; port.receive(&mut buffer) == Received::Quiet);
    let below = port.into_inner();
    let entries = below.record().ok_or("a record")?;
    assert!(rt; entries.len() == 3);
    assert!(rt; is_offer(&entries[0], Sender::Peer(2), &bundle_of_three()));
    assert!(rt; is_offer(&entries[1], Sender::Peer(3), FIRST));
    assert!(rt; entries[2] == PortEntry::Quiet);
    Ok(())
}

/// Waits the given number of times.
fn wait<P: Port + Drop>(port: &mut BundlePort<P>, times: u32) {
    let mut buffer = [0; 512];
    for _ in 0..times {
        port.receive(&mut buffer);
    }
}

/// Returns whether the first of a port's events is the offer of the bundle of two to member 2.
fn begins_with_bundle(entries: &[PortEntry]) -> bool {
    match entries.first() {
        Some(entry) => is_offer(entry, Sender::Peer(2), &bundle_of_two()),
        None => false,
    }
}

/// Sends two datagrams to member 2, flushes and waits so many times. Returns the number of events of the port below,
/// and whether the first one is the offer of the bundle and the last one a quiet receive.
fn events_of_two(alloc: Global, flushes: u32, waits: u32) -> Result<(usize, bool, bool), Fail> {
    let mut port = BundlePort::new(ListPort::new(alloc, &[]));
    if !port.send(Sender::Peer(2), FIRST) || !port.send(Sender::Peer(2), SECOND) {
        return Err(Fail::new("a datagram is refused"));
    }
    for _ in 0..flushes {
        port.flush();
    }
    wait(&mut port, waits);
    let below = port.into_inner();
    let entries = below.record().ok_or("a record")?;
    let ends_quiet = entries.last() == Some(&PortEntry::Quiet);
    Ok((entries.len(), begins_with_bundle(entries), ends_quiet))
}

/// Two datagrams to a member wait. A flush offers them as one bundle, and the next receive offers nothing again.
#[test]
fn flush_offers_what_waits(rt: HostRuntime) -> Result<(), Fail> {
    assert!(rt; events_of_two(rt.alloc(), 0, 0)? == (0, false, false));
    assert!(rt; events_of_two(rt.alloc(), 1, 0)? == (1, true, false));
    assert!(rt; events_of_two(rt.alloc(), 1, 1)? == (2, true, true));
    Ok(())
}

/// After eight calm waits the first datagram to a member is offered at once, and the later ones are joined.
#[test]
fn lone_datagram_is_offered_at_once(rt: HostRuntime) -> Result<(), Fail> {
    let mut port = BundlePort::new(ListPort::new(rt.alloc(), &[]));
    wait(&mut port, 8);
    assert!(rt; port.send(Sender::Peer(2), FIRST));
    assert!(rt; port.send(Sender::Peer(2), FIRST));
    assert!(rt; port.send(Sender::Peer(3), FIRST));
    assert!(rt; port.send(Sender::Peer(2), SECOND));
    assert!(rt; port.send(Sender::Peer(2), THIRD));
    wait(&mut port, 1);
    let below = port.into_inner();
    let entries = below.record().ok_or("a record")?;
    assert!(rt; entries.len() == 12);
    assert!(rt; is_offer(&entries[8], Sender::Peer(2), FIRST));
    assert!(rt; is_offer(&entries[9], Sender::Peer(3), FIRST));
    assert!(rt; is_offer(&entries[10], Sender::Peer(2), &bundle_of_three()));
    assert!(rt; entries[11] == PortEntry::Quiet);
    Ok(())
}

/// Returns the number of events of the port below after `waits` waits, `offers` offers of `datagram`, another wait, and
/// the offer of a part.
fn events_after(alloc: Global, waits: u32, offers: u32, datagram: &[u8]) -> Result<usize, Fail> {
    let mut port = BundlePort::new(ListPort::new(alloc, &[]));
    wait(&mut port, waits);
    for _ in 0..offers {
        port.send(Sender::Peer(2), datagram);
    }
    wait(&mut port, 1);
    port.send(Sender::Peer(2), FIRST);
    Ok(port.into_inner().record().ok_or("a record")?.len())
}

/// A wait is calm if at most one datagram was offered before it. A datagram that can't be a part counts too.
#[test]
fn two_datagrams_make_a_lane_busy(rt: HostRuntime) -> Result<(), Fail> {
    assert!(rt; events_after(rt.alloc(), 6, 0, FIRST)? == 7);
    assert!(rt; events_after(rt.alloc(), 7, 0, FIRST)? == 9);
    assert!(rt; events_after(rt.alloc(), 7, 1, FIRST)? == 10);
    assert!(rt; events_after(rt.alloc(), 20, 1, b"OV")? == 23);
    assert!(rt; events_after(rt.alloc(), 20, 2, FIRST)? == 23);
    assert!(rt; events_after(rt.alloc(), 20, 2, b"OV")? == 23);
    Ok(())
}

/// A datagram that can't be a part comes after what waits for its member. A client's datagram doesn't wait.
#[test]
fn others_do_not_wait(rt: HostRuntime) -> Result<(), Fail> {
    let mut port = BundlePort::new(ListPort::new(rt.alloc(), &[]));
    assert!(rt; port.send(Sender::Peer(2), FIRST));
    assert!(rt; port.send(Sender::Client(2), b"c"));
    assert!(rt; port.send(Sender::Peer(0), b"d"));
    assert!(rt; port.send(Sender::Peer(10), b"e"));
    assert!(rt; port.send(Sender::Peer(2), &[7; 256]));
    let below = port.into_inner();
    let entries = below.record().ok_or("a record")?;
    assert!(rt; entries.len() == 5);
    assert!(rt; is_offer(&entries[0], Sender::Client(2), b"c"));
    assert!(rt; is_offer(&entries[1], Sender::Peer(0), b"d"));
    assert!(rt; is_offer(&entries[2], Sender::Peer(10), b"e"));
    assert!(rt; is_offer(&entries[3], Sender::Peer(2), FIRST));
    assert!(rt; has_len(&entries[4], 256));
    Ok(())
}

/// The port below refuses a datagram that doesn't wait, also one that is offered at once.
#[test]
fn refusals_are_told(rt: HostRuntime) -> Result<(), Fail> {
    let mut below = ListPort::new(rt.alloc(), &[]);
    below.fail_sends();
    let mut port = BundlePort::new(below);
    assert!(rt; port.send(Sender::Peer(2), FIRST));
    assert!(rt; !port.send(Sender::Peer(2), b""));
    assert!(rt; !port.send(Sender::Client(2), FIRST));
    wait(&mut port, 9);
    assert!(rt; !port.send(Sender::Peer(2), FIRST));
    assert!(rt; port.send(Sender::Peer(2), FIRST));
    Ok(())
}

/// Six parts of 79 bytes fit a bundle. The seventh goes into the next one.
#[test]
fn bundles_have_a_capacity(rt: HostRuntime) -> Result<(), Fail> {
    let mut port = BundlePort::new(ListPort::new(rt.alloc(), &[]));
    let mut buffer = [0; 512];
    for _ in 0..8 {
        assert!(rt; port.send(Sender::Peer(2), &[7; 79]));
    }
    assert!(rt; port.receive(&mut buffer) == Received::Quiet);
    let below = port.into_inner();
    let entries = below.record().ok_or("a record")?;
    assert!(rt; entries.len() == 3);
    assert!(rt; has_len(&entries[0], 3 + 6 * 80));
    assert!(rt; has_len(&entries[1], 3 + 2 * 80));
    Ok(())
}

/// The parts of a bundle are handed in one by one, before the port below is asked again.
#[test]
fn bundles_are_taken_apart(rt: HostRuntime) -> Result<(), Fail> {
    let three = bundle_of_three();
    let comings = [
        from_member(1, &three),
        from_member(1, b"OV"),
        from_member(1, &three[..70]),
    ];
    let mut port = BundlePort::new(ListPort::new(rt.alloc(), &comings));
    let mut buffer = [0; 512];
    let len = len_of(port.receive(&mut buffer))?;
    assert!(rt; &buffer[..len] == FIRST.as_slice());
    let len = len_of(port.poll(&mut buffer).ok_or("a part is left")?)?;
    assert!(rt; &buffer[..len] == SECOND.as_slice());
    let len = len_of(port.receive(&mut buffer))?;
    assert!(rt; &buffer[..len] == THIRD.as_slice());
    let len = len_of(port.poll(&mut buffer).ok_or("a datagram")?)?;
    assert!(rt; &buffer[..len] == b"OV".as_slice());
    let len = len_of(port.poll(&mut buffer).ok_or("a bundle")?)?;
    assert!(rt; &buffer[..len] == FIRST.as_slice());
    let len = len_of(port.receive(&mut buffer))?;
    assert!(rt; &buffer[..len] == SECOND.as_slice());
    assert!(rt; port.receive(&mut buffer) == Received::Quiet);
    Ok(())
}

/// Datagrams that are no bundles of members are handed in unchanged.
#[test]
fn others_are_not_taken_apart(rt: HostRuntime) -> Result<(), Fail> {
    let three = bundle_of_three();
    let comings = [
        Coming::Datagram {
            sender: Sender::Client(7),
            bytes: &three,
        },
        from_member(1, &three[..104]),
        Coming::Fault,
    ];
    let mut port = BundlePort::new(ListPort::new(rt.alloc(), &comings));
    let mut buffer = [0; 512];
    let from_client = Received::Datagram {
        sender: Sender::Client(7),
        len: 105,
    };
    assert!(rt; port.receive(&mut buffer) == from_client);
    assert!(rt; &buffer[..105] == three.as_slice());
    assert!(rt; len_of(port.receive(&mut buffer))? == 104);
    assert!(rt; port.receive(&mut buffer) == Received::Fault);
    Ok(())
}

/// Returns whether the first bytes of the bundle of three are a bundle.
fn is_bundle_up_to(len: usize) -> bool
    requires { len ≤ 105 }
{
    let three = bundle_of_three();
    is_bundle(&three[..len])
}

/// A bundle is the mark, the version and whole parts of 32 bytes or more.
#[test]
fn bundles_are_told_apart(rt: HostRuntime) -> Result<(), Fail> {
    assert!(rt; is_bundle_up_to(37) && is_bundle_up_to(70) && is_bundle_up_to(105));
    assert!(rt; !is_bundle_up_to(3) && !is_bundle_up_to(36) && !is_bundle_up_to(38));
    let mut other = bundle_of_three();
    other[2] = 2;
    assert!(rt; !is_bundle(&other));
    other[2] = 1;
    other[1] = b'V';
    assert!(rt; !is_bundle(&other));
    assert!(rt; !is_bundle(b"OB\x01\x01a"));
    assert!(rt; !is_bundle(b""));
    Ok(())
}
