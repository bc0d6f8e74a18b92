//! Two members whose books have the same tokens in other orders.

ghost use Rattle.std.specs.Prelude.{◌≤◌, IfOk};
ghost use Rattle.datagram_port.specs.Port.{IsWithin};

use datagram_port::{Coming, ListPort, Port, PortEntry, Received, Sender};
use floor_store::{Proposal, Span};
use gatekeeping::Older;
use named_port::{NamedPort, Names};
use otp_core::{Factor, MAX_TOKENS, Settings};
use std::alloc::Global;
use std::test::Fail;
use token_file::{FromRead, read_book};
use token_names::{Salt, names_of};
use vote_core::Message;
use vote_wire::{ClusterKey, read_message, write_message};

/// The book of node 1.
const ROWS_OF_1: &[u8] = b"HOTP/E/6 ann - 31\nHOTP/E/6 bob - 32\nHOTP/E/6 cid - 33\n";

/// The book of node 2, with another order, and without `bob`.
const ROWS_OF_2: &[u8] = b"HOTP/E/6 cid - 33\nHOTP/E/6 dan - 34\nHOTP/E/6 ann - 31\n";

/// Returns the names of a book.
fn names(alloc: Global, rows: &[u8]) -> Result<Names, Fail> {
    let salt = Salt::new(b"names-of-site-1").ok_or_else(|| Fail::new("no salt"))?;
    let settings = Settings::new(10, 1, 100).unwrap();
    let (book, _) = read_book(alloc, &mut FromRead::new(rows), settings, 59)?;
    let names = names_of(alloc, &salt, &book)?;
    if names.len() > MAX_TOKENS {
        return Err(Fail::new("too many names"));
    }
    Ok(Names::new(alloc, names)?)
}

/// Returns the cluster's key.
fn key() -> Result<ClusterKey, Fail> {
    ClusterKey::new(&[7; 32]).ok_or_else(|| Fail::new("no key"))
}

/// Returns an Ask of node 1 about a token.
fn ask(token: u32) -> Result<Message, Fail> {
    let proposal = Proposal::new(1, 5, 6).ok_or("a proposal")?;
    let factor = Factor::new(4).ok_or("a factor")?;
    Ok(Message::Ask {
        proposal,
        token,
        span: Span::one(factor),
    })
}

/// Returns a Grant to a proposal of node 2 about token 0, for a factor and the one after it.
fn grant(first: u64) -> Result<Message, Fail> {
    let proposal = Proposal::new(2, 9, 3).ok_or("a proposal")?;
    let lo = Factor::new(first).ok_or("a factor")?;
    let hi = Factor::new(lo.value() + 1).ok_or("a factor")?;
    Ok(Message::Grant {
        proposal,
        token: 0,
        span: Span::new(lo, hi).ok_or("a span")?,
    })
}

/// Returns what node 1 in a boot offers below for an Ask about a token.
fn offered(alloc: Global, boot: u64, token: u32) -> Result<Vec<u8>, Fail> {
    offered_for(alloc, boot, &ask(token)?)
}

/// Returns what node 1 in a boot offers below for a message to node 2.
fn offered_for(alloc: Global, boot: u64, message: &Message) -> Result<Vec<u8>, Fail> {
    let key = key()?;
    let names = names(alloc, ROWS_OF_1)?;
    let mut port = NamedPort::new(ListPort::new(alloc, &[]), &key, &names, 1, boot, UNHEARD);
    let bytes = write_message(&ClusterKey::bare(), 1, 2, message);
    port.send(Sender::Peer(2), &bytes);
    let below = port.into_inner();
    match below.record().ok_or("a record")?.first() {
        Some(PortEntry::Offered { bytes, .. }) => Ok(bytes.clone()?),
        _ => Err(Fail::new("nothing was offered")),
    }
}

/// A datagram from member 1.
fn from_1<'a>(bytes: &'a [u8]) -> Coming<'a> {
    Coming::Datagram {
        sender: Sender::Peer(1),
        bytes,
    }
}

/// Returns the length of a received datagram of member 1.
fn len_of(received: Received) -> Result<usize, Fail>
    requires { IsWithin received }
    ensures { IfOk result (λ len. len ≤ 512) }
{
    match received {
        Received::Datagram {
            sender: Sender::Peer(1),
            len,
        } => Ok(len),
        _ => Err(Fail::new("no datagram of member 1")),
    }
}

/// No member was heard.
const UNHEARD: [u64; 10] = [0; 10];

/// Member 1 alone differs.
fn only_1() -> [bool; 10] {
    let mut differing = [false; 10];
    differing[1] = true;
    differing
}

/// Node 2 reads an Ask of node 1 with the number of the token in its own book.
#[test]
fn other_orders_are_understood(rt: HostRuntime) -> Result<(), Fail> {
    let key = key()?;
    let sent = offered(rt.alloc(), 5, 2)?;
    assert!(rt; sent.len() == 71);
    let comings = [from_1(&sent)];
    let names = names(rt.alloc(), ROWS_OF_2)?;
    let mut port = NamedPort::new(
        ListPort::new(rt.alloc(), &comings),
        &key,
        &names,
        2,
        9,
        UNHEARD,
    );
    let mut buffer = [0; 512];
    let len = len_of(port.receive(&mut buffer))?;
    assert!(rt; read_message(&ClusterKey::bare(), &buffer[..len]) == Some((1, 2, ask(0)?)));
    assert!(rt; port.heard()[1] == 5 && port.take_older().is_none());
    assert!(rt; port.take_differing() == [false; 10]);
    Ok(())
}

/// Node 2 reads a Grant of node 1 with both factors, also if the low byte of the second one is 0.
#[test]
fn spans_are_kept(rt: HostRuntime) -> Result<(), Fail> {
    let key = key()?;
    let sent = offered_for(rt.alloc(), 5, &grant(255)?)?;
    assert!(rt; sent.len() == 71 && sent[54] == 0);
    let comings = [from_1(&sent)];
    let names = names(rt.alloc(), ROWS_OF_1)?;
    let mut port = NamedPort::new(
        ListPort::new(rt.alloc(), &comings),
        &key,
        &names,
        2,
        9,
        UNHEARD,
    );
    let mut buffer = [0; 512];
    let len = len_of(port.receive(&mut buffer))?;
    assert!(rt; read_message(&ClusterKey::bare(), &buffer[..len]) == Some((1, 2, grant(255)?)));
    Ok(())
}

/// A token that node 2 hasn't and a datagram of an older boot are handed in without bytes. Both are noted once.
#[test]
fn strange_names_and_older_boots(rt: HostRuntime) -> Result<(), Fail> {
    let key = key()?;
    let of_bob = offered(rt.alloc(), 5, 1)?;
    let of_boot_4 = offered(rt.alloc(), 4, 0)?;
    let of_boot_5 = offered(rt.alloc(), 5, 0)?;
    let comings = [from_1(&of_bob), from_1(&of_boot_4), from_1(&of_boot_5)];
    let names = names(rt.alloc(), ROWS_OF_2)?;
    let mut port = NamedPort::new(
        ListPort::new(rt.alloc(), &comings),
        &key,
        &names,
        2,
        9,
        UNHEARD,
    );
    let mut buffer = [0; 512];
    assert!(rt; len_of(port.receive(&mut buffer))? == 0);
    assert!(rt; port.take_differing() == only_1());
    assert!(rt; len_of(port.receive(&mut buffer))? == 0);
    assert!(rt; port.take_differing() == [false; 10]);
    assert!(rt; port.take_older() == Some(Older { member: 1, boot: 4 }));
    assert!(rt; port.take_older().is_none());
    assert!(rt; len_of(port.receive(&mut buffer))? == 59);
    assert!(rt; port.receive(&mut buffer) == Received::Quiet);
    Ok(())
}

/// A datagram of an older boot than the one that the node knows at its start is handed in without bytes.
#[test]
fn boots_known_at_the_start(rt: HostRuntime) -> Result<(), Fail> {
    let key = key()?;
    let of_boot_4 = offered(rt.alloc(), 4, 0)?;
    let of_boot_5 = offered(rt.alloc(), 5, 0)?;
    let comings = [from_1(&of_boot_4), from_1(&of_boot_5)];
    let names = names(rt.alloc(), ROWS_OF_2)?;
    let mut known = UNHEARD;
    known[1] = 5;
    let mut port = NamedPort::new(
        ListPort::new(rt.alloc(), &comings),
        &key,
        &names,
        2,
        9,
        known,
    );
    let mut buffer = [0; 512];
    assert!(rt; port.heard() == known);
    assert!(rt; len_of(port.receive(&mut buffer))? == 0);
    assert!(rt; port.take_older() == Some(Older { member: 1, boot: 4 }));
    assert!(rt; len_of(port.receive(&mut buffer))? == 59);
    assert!(rt; port.heard() == known);
    Ok(())
}

/// A datagram of version 2, under the cluster's key or the bare one, and one under another key show that member 1
/// differs. One without bytes doesn't.
#[test]
fn unread_datagrams_differ(rt: HostRuntime) -> Result<(), Fail> {
    let key = key()?;
    let other = ClusterKey::new(&[8; 32]).ok_or_else(|| Fail::new("no key"))?;
    let numbered = write_message(&key, 1, 2, &ask(0)?);
    let bare = write_message(&ClusterKey::bare(), 1, 2, &ask(0)?);
    let named = offered(rt.alloc(), 5, 0)?;
    let names = names(rt.alloc(), ROWS_OF_2)?;
    let comings = [from_1(&numbered), from_1(&bare), from_1(&[])];
    let mut port = NamedPort::new(
        ListPort::new(rt.alloc(), &comings),
        &key,
        &names,
        2,
        9,
        UNHEARD,
    );
    let mut buffer = [0; 512];
    assert!(rt; len_of(port.receive(&mut buffer))? == 0);
    assert!(rt; port.take_differing() == only_1());
    assert!(rt; len_of(port.receive(&mut buffer))? == 0);
    assert!(rt; port.take_differing() == only_1());
    assert!(rt; len_of(port.receive(&mut buffer))? == 0);
    assert!(rt; port.take_differing() == [false; 10]);
    let comings = [from_1(&named)];
    let mut port = NamedPort::new(
        ListPort::new(rt.alloc(), &comings),
        &other,
        &names,
        2,
        9,
        UNHEARD,
    );
    assert!(rt; len_of(port.receive(&mut buffer))? == 0);
    assert!(rt; port.take_differing() == only_1());
    Ok(())
}

/// Clients' lines and answers pass unchanged, and a poll finds nothing where nothing is queued.
#[test]
fn clients_pass(rt: HostRuntime) -> Result<(), Fail> {
    let key = key()?;
    let names = names(rt.alloc(), ROWS_OF_2)?;
    let line = Coming::Datagram {
        sender: Sender::Client(7),
        bytes: b"CHECK k1 ann 755224 -",
    };
    let comings = [line];
    let mut port = NamedPort::new(
        ListPort::new(rt.alloc(), &comings),
        &key,
        &names,
        2,
        9,
        UNHEARD,
    );
    let mut buffer = [0; 512];
    let received = Received::Datagram {
        sender: Sender::Client(7),
        len: 21,
    };
    assert!(rt; port.poll(&mut buffer) == Some(received));
    assert!(rt; &buffer[..21] == b"CHECK k1 ann 755224 -".as_slice());
    assert!(rt; port.poll(&mut buffer).is_none());
    assert!(rt; port.send(Sender::Client(7), b"OK k1 0"));
    assert!(rt; !port.send(Sender::Peer(1), b"OV"));
    let below = port.into_inner();
    assert!(rt; below.record().ok_or("a record")?.len() == 2);
    Ok(())
}
