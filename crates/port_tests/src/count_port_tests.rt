//! A port that counts, over a port in memory.

use count_port::CountPort;
use datagram_port::{Coming, ListPort, Port, Sender};
use gatekeeping::{Gatekeeper, Other, Seen};
use otp_core::Next;
use sealed_port::SetAside;
use std::alloc::Global;
use std::cell::Cell;
use std::io;
use std::test::Fail;
use std::time::{Clock as TimeSource, Duration};
use vote_core::Message;
use vote_wire::{ClusterKey, write_message};

/// A clock that tells the given number of microseconds, or fails.
#[derive(Drop)]
struct Told(Cell<Option<u64>>);

impl TimeSource for Told {
    fn monotonic(&self) -> io::Result<Duration> {
        match self.0.get() {
            Some(micros) => Ok(Duration::from_micros(micros)),
            None => Err(io::ErrorKind::Other.into()),
        }
    }

    fn since_1970(&self) -> io::Result<Duration> {
        self.monotonic()
    }
}

/// An accepted answer to a client is a reply that is accepted. A datagram to a member is no reply.
#[test]
fn accepted_answer_is_counted(rt: HostRuntime) -> Result<(), Fail> {
    let key = ClusterKey::bare();
    let clock = Told(Cell::new(None));
    let mut port = CountPort::new(ListPort::new(rt.alloc(), &[]), &key, 1, 3, &clock);
    assert!(rt; port.send(Sender::Client(7), b"OK 000102 42"));
    assert!(rt; port.send(Sender::Peer(2), b"OK 000102 42"));
    let counters = port.counters();
    assert!(rt; counters.replied == 1 && counters.accepted == 1);
    assert!(rt; counters.refused.bad_line == 0 && counters.refused.throttled == 0);
    assert!(rt; counters.received == 0 && counters.ticks == 0);
    Ok(())
}

/// A refusal is counted by its reason: the third field of the answer.
#[test]
fn refusal_is_counted_by_its_reason(rt: HostRuntime) -> Result<(), Fail> {
    let key = ClusterKey::bare();
    let clock = Told(Cell::new(None));
    let mut port = CountPort::new(ListPort::new(rt.alloc(), &[]), &key, 1, 3, &clock);
    assert!(rt; port.send(Sender::Client(7), b"NO - BADLINE"));
    assert!(rt; port.send(Sender::Client(7), b"NO 000102 THROTTLED 12"));
    assert!(rt; port.send(Sender::Client(8), b"NO 000103 THROTTLED 9"));
    let counters = port.counters();
    assert!(rt; counters.replied == 3 && counters.accepted == 0);
    assert!(rt; counters.refused.bad_line == 1 && counters.refused.throttled == 2);
    assert!(rt; counters.refused.password == 0 && counters.refused.timeout == 0);
    Ok(())
}

/// A member's datagram under another key makes it differ. One under the node's key makes a member heard.
#[test]
fn member_under_another_key_differs(rt: HostRuntime) -> Result<(), Fail> {
    let clock = Told(Cell::new(None));
    let key = ClusterKey::new(&[1; 32]).ok_or("a key")?;
    let other = ClusterKey::new(&[2; 32]).ok_or("another key")?;
    let floor = Message::Floor {
        token: 0,
        next: Next::new(5).ok_or("a number")?,
    };
    let right = write_message(&key, 2, 1, &floor);
    let wrong = write_message(&other, 3, 1, &floor);
    let comings = [
        Coming::Datagram {
            sender: Sender::Peer(2),
            bytes: &right,
        },
        Coming::Datagram {
            sender: Sender::Peer(3),
            bytes: &wrong,
        },
    ];
    let mut port = CountPort::new(ListPort::new(rt.alloc(), &comings), &key, 1, 4, &clock);
    let mut buffer = [0; 512];
    for _ in 0..7 {
        port.receive(&mut buffer);
    }
    let counters = port.counters();
    assert!(rt; counters.received == 2 && counters.ticks == 5);
    let seen = [
        Other {
            number: 2,
            seen: Seen::Heard(1),
        },
        Other {
            number: 3,
            seen: Seen::Differs,
        },
        Other {
            number: 4,
            seen: Seen::Silent,
        },
    ];
    assert!(rt; counters.others.as_slice() == seen.as_slice());
    Ok(())
}

/// A client's line.
const LINE: Coming<'_> = Coming::Datagram {
    sender: Sender::Client(7),
    bytes: b"CHECK",
};

/// The time of a commit is that from the last datagram of its batch to the first call after it. A commit whose time the
/// clock doesn't tell counts as a long one. A quiet turn is no batch.
#[test]
fn commits_are_measured(rt: HostRuntime) -> Result<(), Fail> {
    let key = ClusterKey::bare();
    let clock = Told(Cell::new(Some(1_000)));
    let comings = [LINE, LINE, Coming::Pause, LINE];
    let mut port = CountPort::new(ListPort::new(rt.alloc(), &comings), &key, 1, 3, &clock);
    let mut buffer = [0; 512];
    port.receive(&mut buffer);
    clock.0.set(Some(2_000));
    port.poll(&mut buffer);
    assert!(rt; port.poll(&mut buffer).is_none());
    clock.0.set(Some(5_000));
    assert!(rt; port.send(Sender::Client(7), b"NO - BADLINE"));
    clock.0.set(Some(9_000));
    assert!(rt; port.send(Sender::Client(7), b"NO - BADLINE"));
    port.receive(&mut buffer);
    clock.0.set(None);
    port.receive(&mut buffer);
    let counters = port.counters();
    assert!(rt; counters.received == 3 && counters.ticks == 1 && counters.largest_batch == 2);
    assert!(rt; counters.commit_times.five == 1 && counters.commit_times.more == 1);
    assert!(rt; counters.commit_times.commits() == 2);
    Ok(())
}

/// Makes the call with the given number after a commit of 1.5 ms. Returns the number of commits of 1 to 2 ms, or 0 if
/// there are others.
fn commits_in_two(alloc: Global, clock: &Told, call: u8) -> u64 {
    let key = ClusterKey::bare();
    let comings = [LINE];
    let mut port = CountPort::new(ListPort::new(alloc, &comings), &key, 1, 3, clock);
    clock.0.set(Some(1_000));
    let mut buffer = [0; 512];
    port.receive(&mut buffer);
    clock.0.set(Some(2_500));
    match call {
        0 => {
            port.receive(&mut buffer);
        }
        1 => {
            port.report(&SetAside::default(), b"end\n");
        }
        2 => {
            port.take_request();
        }
        3 => port.flush(),
        _ => {}
    }
    let first = port.counters().commit_times;
    clock.0.set(Some(99_000));
    let again = port.counters().commit_times;
    if first.commits() == 1 && again == first {
        first.two
    } else {
        0
    }
}

/// Each call after a batch ends it, and the next one doesn't count it again.
#[test]
fn first_call_ends_a_batch(rt: HostRuntime) -> Result<(), Fail> {
    let clock = Told(Cell::new(None));
    for call in 0..5 {
        assert!(rt; commits_in_two(rt.alloc(), &clock, call) == 1, "{call}");
    }
    Ok(())
}
