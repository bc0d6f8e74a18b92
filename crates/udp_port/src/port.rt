//! A port over a UDP socket.

ghost use Rattle.std.specs.Prelude.{◌≡◌, ◌≤◌, ◌-◌, ◌^◌, ◌++◌, ◌∷◌, [], Some, true, false, length, IfSome, IsTrue};
ghost use Rattle.datagram_port.specs.Port.{IsWithin, entries_of_poll, event_of_receive};
ghost use Rattle.datagram_port.specs.declared.port.Received.TheVariants.{Fault, Quiet as QuietReceive};
ghost use Rattle.udp_port.specs.Calls.{IsOneCall, Perseveres, events_of_calls};
ghost use Rattle.udp_port.specs.Receipt.{IsHeard, failure_of, is_answer, is_barred, is_loopback, is_passed_over, receipt_of};
ghost use Rattle.udp_port.specs.Setup.{setup_of};
ghost use Rattle.udp_port.specs.declared.calls.Call.TheVariants.{GivenUp, Hear, Send, Stuck, Turn};

use crate::address::{address_of, sender_of};
use crate::calls::{Call, Calls, Heard, heard_of};
use crate::clock::NoClock;
use crate::pace::{Pace, millis_of};
use datagram_port::{Port, Received, Sender};
use std::io::ErrorKind;
use std::net::{SocketAddr, SocketAddrV4, UdpSocket};
use std::time::Clock as TimeSource;

/// The maximum number of members of a cluster.
pub const MAX_MEMBERS: usize = otp_core::MAX_MEMBERS as usize;

/// The maximum number of datagrams that a poll passes over, and a receive of a port without a gate above it.
const MAX_PASSED_OVER: u64 = 64;

/// A port over a UDP socket. Its record is made of the calls of the socket, which it notes beside each call.
#[derive(Drop)]
pub struct UdpPort<R: TimeSource + Drop> {
    socket: UdpSocket,
    members: Vec<SocketAddrV4>,
    clock: R,
    pace: Pace,
    skips_answers: bool,
    takes_loopback_alone: bool,
    /// The maximum number of datagrams that a receive passes over before it is quiet.
    most_passed_over: u64,
    waits: bool,
    calls: Calls,
    ghost few: { length members.items ≤ 9 },
}

/// Returns the result of a receive that failed, or None if the port passes over it.
fn failure_of(kind: ErrorKind) -> Option<Received>
    ensures { result ≡ failure_of kind }
{
    match kind {
        // no datagram came in time
        ErrorKind::WouldBlock | ErrorKind::TimedOut => Some(Received::Quiet),
        // a signal came first
        ErrorKind::Interrupted => None,
        // an earlier datagram found nobody at its address: a sent datagram may be lost, and the socket works
        ErrorKind::ConnectionRefused | ErrorKind::ConnectionReset => None,
        _ => Some(Received::Fault),
    }
}

/// Returns whether the bytes are an answer of a node.
fn is_answer(bytes: &[u8]) -> bool
    ensures { result ≡ is_answer bytes.now }
{
    bytes.starts_with(b"OK ") || bytes.starts_with(b"NO ")
}

/// Returns whether the port passes over a datagram, by whether it skips answers.
fn is_passed_over(skips_answers: bool, sender: Sender, bytes: &[u8]) -> bool
    ensures { result ≡ is_passed_over skips_answers sender bytes.now }
{
    match sender {
        Sender::Peer(_) => false,
        Sender::Client(_) => skips_answers && is_answer(bytes),
    }
}

/// Returns whether the address of a client is in 127.0.0.0/8.
fn is_loopback(client: u64) -> bool
    ensures { result ≡ is_loopback client }
{
    client / (1 << 40) == 127
}

/// Returns whether the port passes over a sender, by whether it takes clients of its host alone.
fn is_barred(takes_loopback_alone: bool, sender: Sender) -> bool
    ensures { result ≡ is_barred takes_loopback_alone sender }
{
    match sender {
        Sender::Peer(_) => false,
        Sender::Client(client) => takes_loopback_alone && !is_loopback(client),
    }
}

/// Returns the result of a socket's receive, or None if the port passes over it.
fn receipt_of(
    skips_answers: bool,
    takes_loopback_alone: bool,
    members: &[SocketAddrV4],
    heard: Heard,
    buffer: &[u8; 512],
) -> Option<Received>
    requires few { length members.now ≤ 9 }
    requires heard { IsHeard heard }
    ensures receipt { result ≡ receipt_of skips_answers takes_loopback_alone members.now heard buffer.now }
    ensures within { IfSome result IsWithin }
{
    match heard {
        Heard::Datagram { len, address } => {
            let sender = sender_of(members, address);
            if is_passed_over(skips_answers, sender, &buffer[..len])
                || is_barred(takes_loopback_alone, sender)
            {
                return None;
            }
            Some(Received::Datagram { sender, len })
        }
        Heard::Other => Some(Received::Fault),
        Heard::Failed(kind) => failure_of(kind),
    }
}

impl<R: TimeSource + Drop> UdpPort<R> {
    /// Returns a port of a node over `socket`, which is bound to an IPv4 address and has a read timeout.
    ///
    /// `members` are the addresses of the cluster's members in the order of their numbers, from 1, at most 9. With
    /// `clock` quiet turns come each 200 milliseconds, whatever datagrams come. If the clock fails, they come only when
    /// a wait of the socket ends. The port passes over an answer from a client.
    pub fn new(socket: UdpSocket, members: Vec<SocketAddrV4>, clock: R) -> UdpPort<R>
        requires { length members.items ≤ 9 }
        ensures members { result.members ≡ members }
        ensures skips { result.skips_answers ≡ true }
        ensures hosts { result.takes_loopback_alone ≡ false }
        ensures most { result.most_passed_over ≡ 64 }
        ensures calls { result.calls.made ≡ [] }
    {
        UdpPort {
            socket,
            members,
            clock,
            pace: Pace::default(),
            skips_answers: true,
            takes_loopback_alone: false,
            most_passed_over: MAX_PASSED_OVER,
            waits: true,
            calls: Calls::new(),
        }
    }
}

impl<R: TimeSource + Drop> UdpPort<R> {
    /// Returns the port as one that passes over the datagrams of clients outside 127.0.0.0/8. It takes every member.
    pub fn taking_loopback_alone(mut self) -> UdpPort<R>
        ensures hosts { result.takes_loopback_alone ≡ true }
        ensures members { result.members ≡ self.members }
        ensures skips { result.skips_answers ≡ self.skips_answers }
        ensures most { result.most_passed_over ≡ self.most_passed_over }
        ensures calls { result.calls ≡ self.calls }
    {
        self.takes_loopback_alone = true;
        self
    }

    /// Returns the port as one under a gate. Its receive passes over datagrams until a quiet turn is due, and makes no
    /// turn for their number.
    pub fn under_gate(mut self) -> UdpPort<R>
        ensures most { result.most_passed_over ≡ 2 ^ 64 - 1 }
        ensures members { result.members ≡ self.members }
        ensures skips { result.skips_answers ≡ self.skips_answers }
        ensures hosts { result.takes_loopback_alone ≡ self.takes_loopback_alone }
        ensures calls { result.calls ≡ self.calls }
    {
        self.most_passed_over = u64::MAX;
        self
    }
}

impl UdpPort<NoClock> {
    /// Returns a port of a node or a client that plays rounds over `socket`.
    ///
    /// It is the port of [`UdpPort::new`] with a clock that fails, but returns a client's answer as any other datagram.
    pub fn in_rounds(socket: UdpSocket, members: Vec<SocketAddrV4>) -> UdpPort<NoClock>
        requires { length members.items ≤ 9 }
        ensures members { result.members ≡ members }
        ensures skips { result.skips_answers ≡ false }
        ensures hosts { result.takes_loopback_alone ≡ false }
        ensures most { result.most_passed_over ≡ 64 }
        ensures calls { result.calls.made ≡ [] }
    {
        UdpPort {
            socket,
            members,
            clock: NoClock,
            pace: Pace::default(),
            skips_answers: false,
            takes_loopback_alone: false,
            most_passed_over: MAX_PASSED_OVER,
            waits: true,
            calls: Calls::new(),
        }
    }
}

impl<R: TimeSource + Drop> UdpPort<R> {
    /// Switches the socket between blocking and non-blocking mode. Returns false if that failed.
    fn set_waits(&mut self, waits: bool) -> bool
        ensures waits { IsTrue result → self.new.waits ≡ waits }
        ensures same { self.new ≡ record self.old { waits = self.new.waits } }
    {
        if self.waits == waits {
            return true;
        }
        if self.socket.set_nonblocking(!waits).is_err() {
            return false;
        }
        self.waits = waits;
        true
    }

    /// Calls `recv_from`, and notes the call with the buffer after it.
    fn hear(&mut self, buffer: &mut [u8; 512]) -> Heard
        ensures heard { IsHeard result }
        ensures noted { self.new.calls.made
            ≡ self.old.calls.made ++ (Hear self.old.waits result, buffer.new) ∷ [] }
        ensures same { self.new ≡ record self.old { calls = self.new.calls } }
    {
        let heard = heard_of(&self.socket.recv_from(buffer));
        let waits = self.waits;
        self.calls
            .note(&Call::Hear { waits, heard }, buffer.as_slice());
        heard
    }

    /// Calls `send_to` if `to` has an address, and notes the call with the bytes. Returns whether the socket took them.
    fn tell(&mut self, to: Sender, bytes: &[u8]) -> bool
        ensures noted { self.new.calls.made ≡ self.old.calls.made ++ (Send to result, bytes.now) ∷ [] }
        ensures same { self.new ≡ record self.old { calls = self.new.calls } }
    {
        let is_taken = match address_of(&self.members, to) {
            Some(address) => self.socket.send_to(bytes, SocketAddr::V4(address)).is_ok(),
            None => false,
        };
        self.calls.note(&Call::Send { to, is_taken }, bytes);
        is_taken
    }

    /// Notes a quiet turn that is due, and returns it.
    fn note_turn(&mut self) -> Received
        ensures quiet { result ≡ QuietReceive }
        ensures noted { self.new.calls.made ≡ self.old.calls.made ++ (Turn, []) ∷ [] }
        ensures same { self.new ≡ record self.old { calls = self.new.calls } }
    {
        self.calls.note(&Call::Turn, &[]);
        Received::Quiet
    }

    /// Notes a quiet turn after the maximum of datagrams was passed over, and returns it.
    fn note_given_up(&mut self) -> Received
        ensures quiet { result ≡ QuietReceive }
        ensures noted { self.new.calls.made ≡ self.old.calls.made ++ (GivenUp, []) ∷ [] }
        ensures same { self.new ≡ record self.old { calls = self.new.calls } }
    {
        self.calls.note(&Call::GivenUp, &[]);
        Received::Quiet
    }

    /// Notes a receive for which the socket could not be switched, and returns its fault.
    fn note_stuck(&mut self) -> Received
        ensures fault { result ≡ Fault }
        ensures noted { self.new.calls.made ≡ self.old.calls.made ++ (Stuck, []) ∷ [] }
        ensures same { self.new ≡ record self.old { calls = self.new.calls } }
    {
        self.calls.note(&Call::Stuck, &[]);
        Received::Fault
    }

    /// Returns the result of a `recv_from`, or None if the port passes over it.
    fn receipt(&self, heard: Heard, buffer: &[u8; 512]) -> Option<Received>
        requires { IsHeard heard }
        ensures receipt { result ≡ receipt_of self.now.skips_answers self.now.takes_loopback_alone
            self.now.members.items heard buffer.now }
        ensures within { IfSome result IsWithin }
    {
        receipt_of(
            self.skips_answers,
            self.takes_loopback_alone,
            &self.members,
            heard,
            buffer,
        )
    }

    /// Receives once: a quiet turn if one is due, or else what the socket gives. Returns None if the port passes over
    /// it.
    #[tactic(auto, using(crate::proofs::CallsLemmas::one_call))]
    fn receive_once(&mut self, buffer: &mut [u8; 512]) -> Option<Received>
        ensures within { IfSome result IsWithin }
        ensures call { IsOneCall self.old.calls.made self.new.calls.made }
        ensures event { events_of_calls self.new.skips_answers self.new.takes_loopback_alone self.new.members.items
            self.new.calls.made
            ≡ events_of_calls self.old.skips_answers self.old.takes_loopback_alone self.old.members.items
            self.old.calls.made ++ entries_of_poll result buffer.new }
        ensures stays { setup_of self.new.skips_answers self.new.takes_loopback_alone self.new.members.items
            ≡ setup_of self.old.skips_answers self.old.takes_loopback_alone self.old.members.items }
    {
        if self.pace.begin(millis_of(&self.clock)) {
            return Some(self.note_turn());
        }
        if !self.set_waits(true) {
            return Some(self.note_stuck());
        }
        let heard = self.hear(buffer);
        let received = self.receipt(heard, buffer);
        if received == Some(Received::Quiet) {
            self.pace.end_wait(millis_of(&self.clock));
        }
        received
    }
}

impl<R: TimeSource + Drop> Port for UdpPort<R> {
    ghost use Rattle.std.specs.Prelude.{Some};
    ghost use Rattle.udp_port.specs.Calls.{events_of_calls};
    ghost use Rattle.udp_port.specs.Setup.{setup_of};

    ghost events = { λ port. Some (events_of_calls port.skips_answers port.takes_loopback_alone port.members.items
        port.calls.made) };

    ghost setup = { λ port. Some (setup_of port.skips_answers port.takes_loopback_alone port.members.items) };

    #[tactic(auto, using(crate::proofs::CallsLemmas::no_calls, crate::proofs::CallsLemmas::calls_more, crate::proofs::CallsLemmas::goes_on, crate::proofs::CallsLemmas::gives_up))]
    fn receive(&mut self, buffer: &mut [u8; 512]) -> Received
        ensures within { IsWithin result }
        ensures event { events_of_calls self.new.skips_answers self.new.takes_loopback_alone self.new.members.items
            self.new.calls.made
            ≡ events_of_calls self.old.skips_answers self.old.takes_loopback_alone self.old.members.items
            self.old.calls.made ++ event_of_receive result buffer.new ∷ [] }
        ensures stays { Some (setup_of self.new.skips_answers self.new.takes_loopback_alone self.new.members.items)
            ≡ Some (setup_of self.old.skips_answers self.old.takes_loopback_alone self.old.members.items) }
        ensures perseveres { Perseveres self.old.most_passed_over self.old.calls.made self.new.calls.made }
    {
        for _ in 0..self.most_passed_over {
            if let Some(received) = self.receive_once(buffer) {
                return received;
            }
        }
        self.note_given_up()
    }

    fn poll(&mut self, buffer: &mut [u8; 512]) -> Option<Received> {
        if !self.set_waits(false) {
            return None;
        }
        for _ in 0..MAX_PASSED_OVER {
            let heard = self.hear(buffer);
            match self.receipt(heard, buffer) {
                Some(Received::Quiet) => return None,
                Some(received) => return Some(received),
                None => {}
            }
        }
        None
    }

    fn send(&mut self, to: Sender, bytes: &[u8]) -> bool {
        // in blocking mode a send waits for room in the socket's buffer, and loses no datagram
        let _waits = self.set_waits(true);
        self.tell(to, bytes)
    }
}
