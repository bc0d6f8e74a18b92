//! Logs over ports in memory.

use arrayvec::ArrayVec;
use datagram_port::{Coming, ListClock, ListPort, Port, Sender};
use gatekeeping::{Fell, Older};
use node_log::{Log, LogPort, Member};
use otp_core::Next;
use sealed_port::{Failures, Gate, SealedPort, Unopened};
use std::alloc::Global;
use std::test::Fail;
use vote_core::Message;
use vote_wire::{ClusterKey, write_message};

/// The line of an answer to a plain line outside the grammar.
const BAD_LINE: &[u8] = b"refused from=0.0.0.0:7 NO - BADLINE\n";

/// Offers `answers` answers to lines outside the grammar, and then has `quiets` quiet turns. Returns the log.
fn log_of_bad_lines(alloc: Global, answers: u8, quiets: u8) -> Result<Vec<u8>, Fail> {
    let mut text = Vec::new(alloc);
    let key = ClusterKey::bare();
    let mut port = LogPort::new(ListPort::new(alloc, &[]), &mut text, &key, ArrayVec::new());
    for _ in 0..answers {
        let _taken = port.send(Sender::Client(7), b"NO - BADLINE");
    }
    for _ in 0..quiets {
        let _quiet = port.receive(&mut [0; 512]);
    }
    drop(port);
    Ok(text)
}

/// Of twelve answers to bad lines in a second ten have a line, and one line tells of the others when the second ends.
#[test]
fn tells_more_bad_lines(rt: HostRuntime) -> Result<(), Fail> {
    let text = log_of_bad_lines(rt.alloc(), 12, 4)?;
    assert!(rt; text.len() == 10 * BAD_LINE.len() && text.starts_with(BAD_LINE));
    let text = log_of_bad_lines(rt.alloc(), 12, 10)?;
    assert!(rt; text.len() == 10 * BAD_LINE.len() + 15 && text.ends_with(b"\nbadline more=2\n"));
    let text = log_of_bad_lines(rt.alloc(), 10, 10)?;
    assert!(rt; text.len() == 10 * BAD_LINE.len());
    Ok(())
}

/// Returns the log of a port with a gate without clients, to which `comings` come in `receives` receives.
fn log_of_gate<'a>(
    alloc: Global,
    comings: &'a [Coming<'a>],
    receives: u16,
) -> Result<Vec<u8>, Fail> {
    let mut text = Vec::new(alloc);
    let key = ClusterKey::bare();
    let gate = Gate::new(
        1,
        Vec::new(alloc),
        Vec::new(alloc),
        Vec::new(alloc),
        Failures::new(None),
    );
    let port = SealedPort::new(
        ListPort::new(alloc, comings),
        ListClock::new(alloc, &[]),
        gate,
    );
    let mut port = LogPort::new(port, &mut text, &key, ArrayVec::new());
    for _ in 0..receives {
        let _quiet = port.receive(&mut [0; 512]);
    }
    drop(port);
    Ok(text)
}

/// After 300 quiet turns the next receive tells what the gate did not open. Later ones tell of nothing.
#[test]
fn tells_the_unopened_once(rt: HostRuntime) -> Result<(), Fail> {
    let junk = Coming::Datagram {
        sender: Sender::Client(7),
        bytes: b"CHECK",
    };
    let text = log_of_gate(rt.alloc(), &[junk, junk], 300)?;
    assert!(rt; text.is_empty());
    let text = log_of_gate(rt.alloc(), &[junk, junk], 301)?;
    assert!(rt; text.as_slice() == b"unopened form=2\n".as_slice());
    let text = log_of_gate(rt.alloc(), &[junk, junk], 901)?;
    assert!(rt; text.as_slice() == b"unopened form=2\n".as_slice());
    Ok(())
}

/// Returns the log of a minute in which the members 2 and 4 differ, after a datagram of an older boot and a fall if there
/// were any.
fn log_of_differing(
    alloc: Global,
    older: Option<Older>,
    fell: Option<Fell>,
) -> Result<Vec<u8>, Fail> {
    let mut text = Vec::new(alloc);
    let mut log = Log::new(&mut text, ArrayVec::new());
    let mut differing = [false; 10];
    differing[2] = true;
    differing[4] = true;
    log.passed_over(Unopened::new(), older, fell, differing);
    log.passed_over(Unopened::new(), None, None, [false; 10]);
    drop(log);
    Ok(text)
}

/// Each member that differs has a line, after those of an older boot and of a fall.
#[test]
fn tells_who_differs(rt: HostRuntime) -> Result<(), Fail> {
    let text = log_of_differing(rt.alloc(), None, None)?;
    assert!(rt; text.as_slice() == b"differs member=2\ndiffers member=4\n".as_slice());
    let older = Some(Older { member: 3, boot: 7 });
    let text = log_of_differing(rt.alloc(), older, None)?;
    assert!(rt; text.starts_with(b"older member=3 boot=7\ndiffers member=2\n"));
    let mut name = [0; 16];
    name[0] = 0x1f;
    let text = log_of_differing(rt.alloc(), older, Some(Fell { member: 4, name }))?;
    assert!(rt; text.starts_with(b"older member=3 boot=7\nfell member=4 name=1f000000"));
    assert!(rt; text.ends_with(b"00000000\ndiffers member=2\ndiffers member=4\n"));
    assert!(rt; text.len() == 22 + 52 + 34);
    Ok(())
}

/// Returns the log of a minute in which member 2 sends a floor under the node's key, and member 3 one under another.
fn log_of_members(alloc: Global) -> Result<Vec<u8>, Fail> {
    let mut text = Vec::new(alloc);
    let (Some(key), Some(other), Some(next)) = (
        ClusterKey::new(&[1; 32]),
        ClusterKey::new(&[2; 32]),
        Next::new(5),
    ) else {
        return Ok(text);
    };
    let floor = Message::Floor { token: 0, next };
    let (right, wrong) = (
        write_message(&key, 2, 1, &floor),
        write_message(&other, 3, 1, &floor),
    );
    let comings = [
        Coming::Datagram {
            sender: Sender::Peer(2),
            bytes: &right,
        },
        Coming::Datagram {
            sender: Sender::Peer(3),
            bytes: &wrong,
        },
    ];
    let mut members = ArrayVec::new();
    members.push(Member::new(2));
    members.push(Member::new(3));
    let mut port = LogPort::new(ListPort::new(alloc, &comings), &mut text, &key, members);
    for _ in 0..303 {
        let _received = port.receive(&mut [0; 512]);
    }
    drop(port);
    Ok(text)
}

/// A member under another key isn't heard, and differs.
#[test]
fn tells_who_is_heard(rt: HostRuntime) -> Result<(), Fail> {
    let text = log_of_members(rt.alloc())?;
    assert!(rt; text.starts_with(b"heard member=2\nsilent member=2\nsilent member=3\n"));
    assert!(rt; text.ends_with(b"\ndiffers member=3\n"));
    assert!(rt; text.len() == 64);
    Ok(())
}
