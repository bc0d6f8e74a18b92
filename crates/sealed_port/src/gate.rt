//! A gate, which opens datagrams and seals answers.

ghost use Rattle.std.specs.Option.{option_map};
ghost use Rattle.std.specs.Prelude.{◌≡◌, ◌≤◌, ◌==◌, ◌/◌, [], length, map, find, false, nat_le, if◌then◌else◌, IfOk, IfSome, Some, None};
ghost use Rattle.std.specs.List.{list_any};
ghost use Rattle.std.specs.Result.{result_map_both};
ghost use Rattle.sealed_wire.specs.Sealed.{head_of, tag_at};
ghost use Rattle.sealed_port.specs.Gate.{answer_to, answered, cause_at, gate_answered, gate_with, is_admitted, is_line, is_plain, keeper_of, named, ruling, sealed_line, with_moment};
ghost use Rattle.sealed_port.specs.Latest.{latest_in};

use crate::aside::Aside;
use crate::asked::{Asked, AskedLines};
use crate::cause::Cause;
use crate::client::Client;
use crate::failures::Failures;
use crate::operator::Operator;
use arrayvec::ArrayVec;
use sealed_wire::{Head, Kind, MAX_SEALED_LEN, MAX_TEXT_LEN, TAG_LEN, head_of, open, seal};
use std::marker::Model;

/// The maximum number of clients that share keys with the nodes.
pub const MAX_CLIENTS: usize = 64;

/// A client's line with the values of its seal.
#[derive(Clone, Copy)]
pub struct SealedLine<'a> {
    /// The client.
    pub client: u16,
    /// The moment at which the client sealed the line.
    pub moment: u64,
    /// The tag.
    pub tag: [u8; TAG_LEN],
    /// The line.
    pub line: &'a [u8],
}

/// A datagram with a sealed answer, and its address.
#[derive(Drop)]
pub(crate) struct Sealed {
    pub(crate) address: u64,
    pub(crate) bytes: ArrayVec<u8, MAX_SEALED_LEN>,
}

/// A gate before a node.
#[derive(Drop)]
pub struct Gate {
    pub(crate) node: u8,
    clients: Vec<Client>,
    pub(crate) operators: Vec<Operator>,
    plain: Vec<u32>,
    pub(crate) asked: AskedLines,
    failures: Failures,
    pub(crate) aside: Aside,
    pub(crate) drains: bool,
}

impl Model for Gate {
    ghost use Rattle.sealed_port.specs.Gate.{GateRecord};

    ghost Value = { GateRecord };

    ghost view = { λ gate. record {
      node = gate.node;
      clients = gate.clients.items;
      plain = gate.plain.items;
      asked = gate.asked;
      failures = gate.failures;
      operators = gate.operators.items;
      aside = gate.aside;
      drains = gate.drains;
    } };
}

/// Returns the client with the number `number`, or None.
fn named(clients: &[Client], number: u16) -> Option<&Client>
    ensures { option_map (λ client. client.now) result ≡ named number clients.now }
{
    clients.iter().find(|client| client.is_named(number))
}

/// Adds a moment to the window of the client with the number `number`.
fn see(clients: &mut [Client], number: u16, moment: u64)
    ensures { clients.new ≡ map (with_moment number moment) clients.old }
{
    for client in clients.iter_mut() {
        client.see(number, moment);
    }
}

/// Returns whether a datagram is a client's line.
fn is_line(kind: Kind) -> bool
    ensures { result ≡ is_line kind }
{
    match kind {
        Kind::Line => true,
        Kind::Answer | Kind::Request | Kind::Report => false,
    }
}

/// Returns the tag of a datagram: its last bytes.
pub(crate) fn tag_at(bytes: &[u8]) -> [u8; TAG_LEN]
    requires { 32 ≤ length bytes.now }
    ensures { result ≡ tag_at bytes.now }
{
    let mut tag = [0; TAG_LEN];
    tag.copy_from_slice(&bytes[bytes.len() - TAG_LEN..]);
    tag
}

impl Gate {
    /// Returns a gate before the node `node`. `clients` and `operators` share keys with it, and clients at the IPv4
    /// addresses `plain` may speak plainly. `failures` says how often a client may fail in a minute.
    pub fn new(
        node: u8,
        clients: Vec<Client>,
        operators: Vec<Operator>,
        plain: Vec<u32>,
        failures: Failures,
    ) -> Self
        ensures { result ≡ record {
          node = node;
          clients = clients.items;
          plain = plain.items;
          asked = [];
          failures = failures;
          operators = operators.items;
          aside = [];
          drains = false;
        } }
    {
        Gate {
            node,
            clients,
            operators,
            plain,
            asked: AskedLines::new(),
            failures,
            aside: Aside::new(),
            drains: false,
        }
    }

    /// Returns the greatest of the latest moments of all clients' and operators' windows, or 0 if there is none.
    ///
    /// The gate opened no later line and no later request.
    pub fn latest(&self) -> u64
        ensures { result ≡ latest_in self.now }
    {
        let clients = self
            .clients
            .iter()
            .fold(0, |latest: u64, client| latest.max(client.latest()));
        self.operators
            .iter()
            .fold(clients, |latest, operator| latest.max(operator.latest()))
    }

    /// Returns whether a client at `address` may speak plainly.
    pub(crate) fn is_plain(&self, address: u64) -> bool
        ensures { result ≡ is_plain self.now address }
    {
        let ip = address / 65_536;
        self.plain.iter().any(|plain| u64::from(*plain) == ip)
    }

    /// Returns the client whose key the tag of a datagram must be under, or None.
    ///
    /// None says that the datagram is no sealed line for the node from a client that the gate knows.
    fn keeper_of(&self, bytes: &[u8]) -> Option<&Client>
        ensures keeper { option_map (λ client. client.now) result ≡ keeper_of self.now (head_of bytes.now) }
        ensures len { IfSome result (λ client. 47 ≤ length bytes.now) }
    {
        let head = head_of(bytes)?;
        if !is_line(head.kind) || head.node != self.node {
            return None;
        }
        named(&self.clients, head.client)
    }

    /// Returns the line for the node in a datagram, under the key of the client that the datagram names.
    ///
    /// # Errors
    ///
    /// - Returns `Form` if the datagram is no sealed line for the node from a client that the gate knows.
    /// - Returns `Tag` if the tag is wrong.
    fn sealed_line<'a>(&self, bytes: &'a [u8]) -> Result<SealedLine<'a>, Cause>
        ensures len { IfOk result (λ line. length line.line.now ≤ 256) }
        ensures line { result_map_both
            (λ line. record { client = line.client; moment = line.moment; tag = line.tag; line = line.line.now })
            (λ cause. cause) result ≡ sealed_line self.now bytes.now }
    {
        let Some(client) = self.keeper_of(bytes) else {
            return Err(Cause::Form);
        };
        let Some((head, line)) = open(&client.key, &[], bytes) else {
            return Err(Cause::Tag);
        };
        Ok(SealedLine {
            client: head.client,
            moment: head.moment,
            tag: tag_at(bytes),
            line,
        })
    }

    /// Returns whether the gate admits a line at the second `now` of the clock.
    fn is_admitted(&self, now: u64, line: &SealedLine<'_>) -> bool
        ensures { result ≡ is_admitted self.now now (record {
          client = line.now.client;
          moment = line.now.moment;
          tag = line.now.tag;
          line = line.now.line.now;
        }) }
    {
        match named(&self.clients, line.client) {
            Some(client) => {
                client.admits(now, line.moment) && !self.asked.clashes(line.client, line.line)
            }
            None => false,
        }
    }

    /// Returns the cause of a line that the gate doesn't admit at the second `now` of the clock.
    fn cause_at(&self, now: u64, line: &SealedLine<'_>) -> Cause
        ensures { result ≡ cause_at self.now now (record {
          client = line.now.client;
          moment = line.now.moment;
          tag = line.now.tag;
          line = line.now.line.now;
        }) }
    {
        match named(&self.clients, line.client) {
            Some(client) => client.cause_at(now, line.moment),
            None => Cause::Again,
        }
    }

    /// Returns the line in a datagram, if the gate opens it at the second `now` of the clock, which is None if the
    /// clock fails.
    ///
    /// # Errors
    ///
    /// Returns the cause if the gate doesn't open the datagram.
    pub fn ruling<'a>(&self, now: Option<u64>, bytes: &'a [u8]) -> Result<SealedLine<'a>, Cause>
        ensures line { result_map_both
            (λ line. record { client = line.client; moment = line.moment; tag = line.tag; line = line.line.now })
            (λ cause. cause) result ≡ ruling self.now now bytes.now }
        ensures len { IfOk result (λ line. length line.line.now ≤ 256) }
    {
        let line = self.sealed_line(bytes)?;
        let Some(now) = now else {
            return Err(Cause::Early);
        };
        if self.failures.is_limited(now, line.client) {
            return Err(Cause::Limited);
        }
        if !self.is_admitted(now, &line) {
            return Err(self.cause_at(now, &line));
        }
        Ok(line)
    }

    /// Notes that the gate opened a line from an address: its client's window sees the moment, and it waits for an
    /// answer.
    pub fn admit(&mut self, now: Option<u64>, address: u64, line: &SealedLine<'_>)
        requires { length line.now.line.now ≤ 256 }
        ensures { self.new ≡ gate_with self.old now address (Some (record {
          client = line.now.client;
          moment = line.now.moment;
          tag = line.now.tag;
          line = line.now.line.now;
        })) }
    {
        if let Some(now) = now {
            self.failures.begin(now);
        }
        see(&mut self.clients, line.client, line.moment);
        self.asked.add(Asked::new(line.client, line.line, address, line.moment, line.tag));
    }

    /// Seals an answer of the node to a client, forgets the client's line, and counts a failure.
    ///
    /// Returns None if the gate remembers no line for the answer, or knows no client with the number. Returns None too
    /// if the answer has more than 256 bytes.
    pub(crate) fn seal(&mut self, client: u16, answer: &[u8]) -> Option<Sealed>
        ensures sealed { option_map (λ sealed. record { address = sealed.address; bytes = sealed.bytes.items }) result
            ≡ answered self.old client answer.now }
        ensures gate { self.new ≡ gate_answered self.old client answer.now }
    {
        self.failures.note(client, answer);
        let asked = self.asked.take(client, answer);
        self.seal_for(asked?, answer)
    }

    /// Seals an answer to a line.
    fn seal_for(&self, asked: Asked, answer: &[u8]) -> Option<Sealed>
        ensures { option_map (λ sealed. record { address = sealed.address; bytes = sealed.bytes.items }) result
            ≡ (if nat_le (length answer.now) 256 then answer_to self.now answer.now (Some asked) else None) }
    {
        if answer.len() > MAX_TEXT_LEN {
            return None;
        }
        let client = named(&self.clients, asked.client)?;
        let head = Head {
            kind: Kind::Answer,
            client: asked.client,
            node: self.node,
            moment: asked.moment,
        };
        Some(Sealed {
            address: asked.address,
            bytes: seal(&client.key, &asked.tag, head, answer),
        })
    }
}
