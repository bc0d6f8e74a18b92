//! A node's port that opens lines and seals answers.

ghost use Rattle.std.specs.Option.{option_map};
ghost use Rattle.std.specs.Prelude.{◌≡◌, ◌≤◌, ◌∷◌, [], ◌≢◌, ℕ, Option, Some, None, IfSome, length, take};
ghost use Rattle.datagram_port.specs.Port.{Grows, IsWithin, Offered, Received as ReceivedEvent, entries_of_poll, event_of_receive};
ghost use Rattle.datagram_port.specs.declared.port.Received.TheVariants.{Datagram, Quiet};
ghost use Rattle.datagram_port.specs.declared.port.Sender.TheVariants.{Client, Peer};
ghost use Rattle.sealed_port.specs.Causes.{counted, nothing};
ghost use Rattle.sealed_port.specs.Aside.{oldest};
ghost use Rattle.sealed_port.specs.Draining.{busied, gate_busied, gate_drained};
ghost use Rattle.sealed_port.specs.Requests.{gate_aside, gate_taken, reported, request_cause, requested};
ghost use Rattle.sealed_port.specs.Setup.{AreHeard, gate_setup, sealed_setup};
ghost use Rattle.sealed_port.specs.Latest.{latest_in};
ghost use Rattle.sealed_port.specs.Port.{Handles, Polls, Receives, TakesIn, TakesLine, gate_offered, node_number, offer_of, offered, sealed_from, stand_in};

use crate::aside::SetAside;
use crate::cause::Unopened;
use crate::gate::{Gate, SealedLine};
use crate::record::Record;
use crate::requests::asks;
use datagram_port::{Clock, Port, Received, Sender};

/// The first number that the node uses for clients that share keys with it.
const SEALED_CLIENTS: u64 = 1 << 48;

/// The maximum number of datagrams that a receive passes over. The port below is quiet long before.
const MAX_PASSED_OVER: u64 = u64::MAX;

/// The maximum number of datagrams that a poll passes over.
const MAX_POLLED_OVER: u8 = 64;

/// What the node is handed in place of a line or a request that the port keeps: an empty datagram of member 0.
const STAND_IN: Received = Received::Datagram {
    sender: Sender::Peer(0),
    len: 0,
};

/// A node's port over another one, with a gate between them. It keeps a record of the events that it handed in and of
/// the node's offers. Each datagram of the record was handed in by the gate. The requests of operators wait in it.
#[derive(Drop)]
pub struct SealedPort<P: Port + Drop, C: Clock + Drop> {
    port: P,
    clock: C,
    gate: Gate,
    unopened: Unopened,
    calls: Record,
    ghost heard: { ∥ IfSome (P.events port) (λ below. AreHeard (gate_setup gate) below calls.events) ∥₁ },
}

/// Copies an opened line to the beginning of the buffer, and returns the result of the receive.
fn hand_in(opened: SealedLine<'_>, buffer: &mut [u8; 512]) -> Received
    requires { length opened.line.now ≤ 256 }
    ensures within { IsWithin result }
    ensures datagram { result ≢ Quiet }
    ensures handed { event_of_receive result buffer.new
        ≡ ReceivedEvent (Client (node_number opened.entry.client)) opened.entry.line.now }
{
    let len = opened.line.len();
    buffer[..len].copy_from_slice(opened.line);
    Received::Datagram {
        sender: Sender::Client(SEALED_CLIENTS + u64::from(opened.client)),
        len,
    }
}

/// Returns the address and the length of a datagram from a client that must not speak plainly, or None.
fn sealed_from(gate: &Gate, received: Received) -> Option<(u64, usize)>
    requires { IsWithin received }
    ensures from { result ≡ sealed_from gate.now received }
    ensures within { IfSome result (λ found. found.1 ≤ 512) }
{
    match received {
        Received::Datagram { sender, len } => match sender {
            Sender::Client(address) => {
                if gate.is_plain(address) {
                    return None;
                }
                Some((address, len))
            }
            Sender::Peer(_) => None,
        },
        Received::Quiet | Received::Fault => None,
    }
}

impl<P: Port + Drop, C: Clock + Drop> SealedPort<P, C> {
    /// Returns a port over `port` with a gate, which asks `clock`.
    pub fn new(port: P, clock: C, gate: Gate) -> Self
        ensures parts { (result.port ≡ port) × (result.clock ≡ clock) × (result.gate ≡ gate) }
        ensures numbers { result.unopened ≡ nothing }
        ensures events { result.calls.events ≡ [] }
    {
        SealedPort {
            port,
            clock,
            gate,
            unopened: Unopened::new(),
            calls: Record::new(),
        }
    }

    /// Returns the numbers of datagrams that the gate didn't open since the last call, and sets them to zero.
    pub fn take_unopened(&mut self) -> Unopened
        ensures numbers { result ≡ self.old.unopened }
        ensures port { self.new ≡ record self.old { unopened = nothing } }
    {
        let unopened = self.unopened;
        self.unopened = Unopened::new();
        unopened
    }

    /// Returns the port below. Each datagram that was handed in was handed in for one that this port received. The
    /// requests that wait are lost.
    pub fn into_inner(self) -> P
        ensures port { result ≡ self.port }
        ensures heard { ∥ IfSome (P.events result) (λ below.
            AreHeard (gate_setup self.gate) below self.calls.events) ∥₁ }
    {
        let SealedPort { port, .. } = self;
        port
    }

    /// Returns the latest moment of the gate's windows. The port opened no later line and no later request.
    pub fn latest(&self) -> u64
        ensures { result ≡ latest_in self.now.gate }
    {
        self.gate.latest()
    }

    /// Sets aside the request in a datagram. Returns an empty datagram of member 0, or None if the gate doesn't open
    /// the request.
    #[tactic(auto, using(crate::proofs::CameLemmas::stands_in, crate::proofs::CameLemmas::stands_not_in))]
    fn set_aside(&mut self, now: Option<u64>, address: u64, bytes: &[u8]) -> Option<Received>
        ensures handed { result ≡ stand_in (requested self.old.gate now address bytes.now) }
        ensures gate { self.new.gate
            ≡ gate_aside self.old.gate (requested self.old.gate now address bytes.now) }
        ensures counts { self.new.unopened
            ≡ counted self.old.unopened (request_cause self.old.gate now address bytes.now) }
        ensures same { (self.new.port ≡ self.old.port) × (self.new.clock ≡ self.old.clock)
            × (self.new.calls ≡ self.old.calls) }
    {
        match self.gate.set_aside(now, address, bytes) {
            None => Some(STAND_IN),
            Some(why) => {
                self.unopened.count(why);
                None
            }
        }
    }

    /// Removes and returns the oldest request that was set aside, or returns None if there is none.
    pub fn take_request(&mut self) -> Option<SetAside>
        ensures request { result ≡ oldest self.old.gate.aside }
        ensures gate { self.new.gate ≡ gate_taken self.old.gate }
        ensures same { (self.new.port ≡ self.old.port) × (self.new.clock ≡ self.old.clock)
            × (self.new.unopened ≡ self.old.unopened) × (self.new.calls ≡ self.old.calls) }
        ensures stays { gate_setup self.new.gate ≡ gate_setup self.old.gate }
    {
        self.gate.take_request()
    }

    /// Seals a page as the report on a request, and offers it to the port below for the request's address. Returns
    /// whether that port took it.
    ///
    /// Returns false if the page has more than 1,024 bytes.
    pub fn report(&mut self, request: &SetAside, page: &[u8]) -> bool
        ensures offers { Grows (P.events self.old.port) (P.events self.new.port)
            (offer_of (reported self.old.gate request.now page.now)) }
        ensures same { (self.new.gate ≡ self.old.gate) × (self.new.clock ≡ self.old.clock)
            × (self.new.unopened ≡ self.old.unopened) × (self.new.calls ≡ self.old.calls) }
        ensures stays { P.setup self.new.port ≡ P.setup self.old.port }
    {
        match self.gate.report(request, page) {
            Some(report) => self
                .port
                .send(Sender::Client(report.address), &report.bytes),
            None => false,
        }
    }

    /// Drains from now on: the port answers `BUSY` to each new sealed line, and hands in an empty datagram of member 0
    /// in its place.
    ///
    /// A line that waits for its answer is no new one, so that its client gets the node's answer. A line that is not in
    /// the grammar gets `BADLINE`. Lines of clients that speak plainly are handed in as before: the port remembers none
    /// of them.
    pub fn drain(&mut self)
        ensures gate { self.new.gate ≡ gate_drained self.old.gate }
        ensures same { (self.new.port ≡ self.old.port) × (self.new.clock ≡ self.old.clock)
            × (self.new.unopened ≡ self.old.unopened) × (self.new.calls ≡ self.old.calls) }
        ensures stays { gate_setup self.new.gate ≡ gate_setup self.old.gate }
    {
        self.gate.drain();
    }

    /// Answers a line that the gate turned away. Returns an empty datagram of member 0.
    fn turn_away(&mut self, line: &SealedLine<'_>) -> Received
        ensures handed { result ≡ Datagram (Peer 0) 0 }
        ensures offers { Grows (P.events self.old.port) (P.events self.new.port)
            (offer_of (busied self.old.gate (Some (record {
              client = line.now.client;
              moment = line.now.moment;
              tag = line.now.tag;
              line = line.now.line.now;
            })))) }
        ensures gate { self.new.gate ≡ gate_busied self.old.gate (Some (record {
          client = line.now.client;
          moment = line.now.moment;
          tag = line.now.tag;
          line = line.now.line.now;
        })) }
        ensures same { (self.new.clock ≡ self.old.clock) × (self.new.unopened ≡ self.old.unopened)
            × (self.new.calls ≡ self.old.calls) }
        ensures stays { P.setup self.new.port ≡ P.setup self.old.port }
    {
        match self.gate.busy(line) {
            Some(sealed) => {
                let to = Sender::Client(sealed.address);
                let _taken = self.port.send(to, &sealed.bytes);
                STAND_IN
            }
            None => STAND_IN,
        }
    }

    /// Takes a line that the gate opened. Hands it in, or answers it if the gate turns it away.
    fn take_line(
        &mut self,
        now: Option<u64>,
        address: u64,
        line: SealedLine<'_>,
        buffer: &mut [u8; 512],
    ) -> Received
        requires { length line.line.now ≤ 256 }
        ensures within { IsWithin result }
        ensures datagram { result ≢ Quiet }
        ensures takes { TakesLine self.old.gate self.new.gate now address (record {
          client = line.entry.client;
          moment = line.entry.moment;
          tag = line.entry.tag;
          line = line.entry.line.now;
        }) (P.events self.old.port) (P.events self.new.port) (event_of_receive result buffer.new) }
        ensures same { (self.new.clock ≡ self.old.clock) × (self.new.unopened ≡ self.old.unopened)
            × (self.new.calls ≡ self.old.calls) }
        ensures stays { (gate_setup self.new.gate ≡ gate_setup self.old.gate)
            × (P.setup self.new.port ≡ P.setup self.old.port) }
    {
        let turns_away = self.gate.turns_away(&line);
        self.gate.admit(now, address, &line);
        if turns_away {
            self.turn_away(&line)
        } else {
            hand_in(line, buffer)
        }
    }

    /// Opens a datagram from a client that must not speak plainly, or from an operator. Returns the result of the
    /// receive, or None if the gate doesn't open it.
    #[tactic(auto, using(crate::proofs::SetupLemmas::aside_stays))]
    fn open(&mut self, address: u64, len: usize, buffer: &mut [u8; 512]) -> Option<Received>
        requires { len ≤ 512 }
        ensures within { IfSome result IsWithin }
        ensures datagram { result ≢ Some Quiet }
        ensures calls { self.new.calls ≡ self.old.calls }
        ensures takes { Handles (P.events self.old.port) (P.events self.new.port) (C.moments self.old.clock)
            (C.moments self.new.clock) self.old.gate self.new.gate self.old.unopened self.new.unopened address
            (take len buffer.old) (option_map (λ received. event_of_receive received buffer.new) result) }
        ensures stays { (gate_setup self.new.gate ≡ gate_setup self.old.gate)
            × (P.setup self.new.port ≡ P.setup self.old.port) }
    {
        let now = self.clock.moment();
        let datagram = *buffer;
        if asks(&datagram[..len]) {
            return self.set_aside(now, address, &datagram[..len]);
        }
        match self.gate.ruling(now, &datagram[..len]) {
            Ok(line) => Some(self.take_line(now, address, line, buffer)),
            Err(cause) => {
                self.unopened.count(cause);
                None
            }
        }
    }

    /// Handles a receive of the port below. Returns its result for the node, or None if the gate passes over it.
    #[tactic(auto, using(crate::proofs::PortLemmas::kept, crate::proofs::PortLemmas::taken))]
    fn take(&mut self, received: Received, buffer: &mut [u8; 512]) -> Option<Received>
        requires { IsWithin received }
        ensures within { IfSome result IsWithin }
        ensures calls { self.new.calls ≡ self.old.calls }
        ensures quiet { result ≡ Some Quiet → received ≡ Quiet }
        ensures takes { TakesIn (P.events self.old.port) (P.events self.new.port) (C.moments self.old.clock)
            (C.moments self.new.clock) self.old.gate self.new.gate self.old.unopened self.new.unopened
            (event_of_receive received buffer.old) (option_map (λ handed. event_of_receive handed buffer.new) result) }
        ensures stays { (gate_setup self.new.gate ≡ gate_setup self.old.gate)
            × (P.setup self.new.port ≡ P.setup self.old.port) }
    {
        let Some((address, len)) = sealed_from(&self.gate, received) else {
            return Some(received);
        };
        self.open(address, len, buffer)
    }

    /// Receives until the gate passes over no event, and returns the result for the node.
    fn receive_opened(&mut self, buffer: &mut [u8; 512]) -> Received
        ensures within { IsWithin result }
        ensures calls { self.new.calls ≡ self.old.calls }
        ensures receives { Receives (P.events self.old.port) (P.events self.new.port) (C.moments self.old.clock)
            (C.moments self.new.clock) self.old.gate self.new.gate self.old.unopened self.new.unopened
            (event_of_receive result buffer.new) }
        ensures stays { (gate_setup self.new.gate ≡ gate_setup self.old.gate)
            × (P.setup self.new.port ≡ P.setup self.old.port) }
    {
        for _ in 0..MAX_PASSED_OVER {
            let received = self.port.receive(buffer);
            match self.take(received, buffer) {
                Some(handed) => return handed,
                None => {}
            }
        }
        Received::Quiet
    }

    /// Polls until the gate passes over no event, and returns the result for the node.
    fn poll_opened(&mut self, buffer: &mut [u8; 512]) -> Option<Received>
        ensures within { IfSome result IsWithin }
        ensures waits { result ≢ Some Quiet }
        ensures calls { self.new.calls ≡ self.old.calls }
        ensures polls { Polls (P.events self.old.port) (P.events self.new.port) (C.moments self.old.clock)
            (C.moments self.new.clock) self.old.gate self.new.gate self.old.unopened self.new.unopened
            (option_map (λ received. event_of_receive received buffer.new) result) }
        ensures stays { (gate_setup self.new.gate ≡ gate_setup self.old.gate)
            × (P.setup self.new.port ≡ P.setup self.old.port) }
    {
        for _ in 0..MAX_POLLED_OVER {
            let Some(received) = self.port.poll(buffer) else {
                return None;
            };
            match self.take(received, buffer) {
                Some(handed) => return Some(handed),
                None => {}
            }
        }
        None
    }

    /// Seals an offer of the node to a client, if the client doesn't speak plainly, and offers it to the port below.
    fn offer(&mut self, to: Sender, bytes: &[u8]) -> bool
        ensures offers { Grows (P.events self.old.port) (P.events self.new.port) (offered self.old.gate to bytes.now) }
        ensures gate { self.new.gate ≡ gate_offered self.old.gate to bytes.now }
        ensures same { (self.new.clock ≡ self.old.clock) × (self.new.unopened ≡ self.old.unopened)
            × (self.new.calls ≡ self.old.calls) }
        ensures stays { P.setup self.new.port ≡ P.setup self.old.port }
    {
        let Sender::Client(number) = to else {
            return self.port.send(to, bytes);
        };
        if number < SEALED_CLIENTS {
            return self.port.send(to, bytes);
        }
        let Ok(client) = u16::try_from(number - SEALED_CLIENTS) else {
            return false;
        };
        match self.gate.seal(client, bytes) {
            Some(sealed) => self
                .port
                .send(Sender::Client(sealed.address), &sealed.bytes),
            None => false,
        }
    }
}

impl<P: Port + Drop, C: Clock + Drop> Port for SealedPort<P, C> {
    ghost use Rattle.std.specs.Prelude.{Some};
    ghost use Rattle.sealed_port.specs.Setup.{sealed_setup};

    ghost events = { λ port. Some port.calls.events };

    ghost setup = { λ port. sealed_setup port.gate (P.setup port.port) };

    fn receive(&mut self, buffer: &mut [u8; 512]) -> Received
        ensures within { IsWithin result }
        ensures event { Grows (Some self.old.calls.events) (Some self.new.calls.events)
            (event_of_receive result buffer.new ∷ []) }
        ensures stays { sealed_setup self.new.gate (P.setup self.new.port)
            ≡ sealed_setup self.old.gate (P.setup self.old.port) }
        ensures receives { Receives (P.events self.old.port) (P.events self.new.port) (C.moments self.old.clock)
            (C.moments self.new.clock) self.old.gate self.new.gate self.old.unopened self.new.unopened
            (event_of_receive result buffer.new) }
    {
        let received = self.receive_opened(buffer);
        self.calls.note_receive(&received, buffer.as_slice());
        received
    }

    fn poll(&mut self, buffer: &mut [u8; 512]) -> Option<Received>
        ensures within { IfSome result IsWithin }
        ensures waits { result ≢ Some Quiet }
        ensures event { Grows (Some self.old.calls.events) (Some self.new.calls.events)
            (entries_of_poll result buffer.new) }
        ensures stays { sealed_setup self.new.gate (P.setup self.new.port)
            ≡ sealed_setup self.old.gate (P.setup self.old.port) }
        ensures polls { Polls (P.events self.old.port) (P.events self.new.port) (C.moments self.old.clock)
            (C.moments self.new.clock) self.old.gate self.new.gate self.old.unopened self.new.unopened
            (option_map (λ received. event_of_receive received buffer.new) result) }
    {
        match self.poll_opened(buffer) {
            Some(received) => {
                self.calls.note_receive(&received, buffer.as_slice());
                Some(received)
            }
            None => None,
        }
    }

    fn send(&mut self, to: Sender, bytes: &[u8]) -> bool
        ensures event { Grows (Some self.old.calls.events) (Some self.new.calls.events)
            (Offered to bytes.now ∷ []) }
        ensures stays { sealed_setup self.new.gate (P.setup self.new.port)
            ≡ sealed_setup self.old.gate (P.setup self.old.port) }
        ensures offers { Grows (P.events self.old.port) (P.events self.new.port) (offered self.old.gate to bytes.now) }
        ensures gate { self.new.gate ≡ gate_offered self.old.gate to bytes.now }
        ensures same { (self.new.clock ≡ self.old.clock) × (self.new.unopened ≡ self.old.unopened) }
    {
        self.calls.note_offer(&to, bytes);
        self.offer(to, bytes)
    }
}
