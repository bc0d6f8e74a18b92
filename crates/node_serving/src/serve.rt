//! Serves a node that is open, over any port.

ghost use Rattle.std.specs.Prelude.{◌≡◌, ◌<◌, ◌^◌, [], None, false, true, length, Result, Ok, IfErr, IfOk, IfSome, IsSome, OnOk};
ghost use Rattle.std.specs.Io.KnownBytes.{Appends};
ghost use Rattle.oath_node.specs.declared.serve_fault.ServeFault.{ServeFault};
ghost use Rattle.oath_node.specs.declared.turns.Served.{Served};
ghost use Rattle.gatekeeping.specs.Members.{nobody_heard};
ghost use Rattle.gatekeeping.specs.Members.{nobody};
ghost use Rattle.oath_node.specs.Calls.{IsOpened};
ghost use Rattle.oathd_database.specs.Fault.{IsOpenFault, serve_end};
ghost use Rattle.floor_store.specs.Range.{IsCount};
ghost use Rattle.node_serving.specs.Log.{first_lines, start_at};
ghost use Rattle.node_serving.specs.Stretches.{ServesIn, counts_after};

use crate::attend::{Attend, Attended};
use arrayvec::ArrayVec;
use cluster_file::fingerprint;
use datagram_port::Clock;
use floor_store::FloorStore;
use gatekeeping::{Gatekeeper, MAX_OTHERS, PLACES};
use node_log::{LogPort, Member, Roster, Start, write_roster, write_start};
use oath_node::{Node, ServeFault, Served, run_turns_until};
use oathd_database::Fault;
use otp_core::Settings;
use std::alloc::Global;
use std::io::{self, Write};
use std::net::{Net, SocketAddr, SocketAddrV4, UdpSocket};
use std::time::{Clock as TimeSource, Duration};
use token_file::Book;
use udp_port::{SystemClock, client_number};
use vote_core::Place;
use vote_wire::ClusterKey;

/// The number of milliseconds for which a node waits for a datagram before a tick.
const WAIT_MILLIS: u64 = 200;

/// Opens a node over `store`, in a new boot: the last step before its socket is bound.
///
/// # Errors
/// - Returns `Memory` if the allocator refuses the memory. The store is unchanged.
/// - Returns `Store` if the store fails to raise the boot.
pub fn open_node<'b, S: FloorStore + Drop>(
    alloc: Global,
    book: &'b Book,
    settings: Settings,
    place: Place,
    key: &'b ClusterKey,
    store: S,
) -> Result<Node<'b, S>, Fault>
    requires { length (S.held store).content.rows ≡ length book.now }
    ensures opened { IfOk result (IsOpened S.held store) }
    ensures book { IfOk result (λ node. node.book ≡ book.now) }
    ensures limits { IfOk result (λ node. node.limits ≡ settings) }
    ensures key { IfOk result (λ node. node.key ≡ key.now) }
    ensures place { IfOk result (λ node. node.voter.place ≡ place) }
    ensures fault { IfErr result IsOpenFault }
{
    match Node::open(alloc, book, settings, place, key, store) {
        Ok(node) => Ok(node),
        Err((_, fault)) => Err(Fault::from(fault)),
    }
}

/// Returns the counts of a run of turns together with those of the runs before it. None goes beyond `u64::MAX`.
fn counts_after(before: Option<Served>, served: Served) -> Served
    ensures { result ≡ counts_after before served }
{
    match before {
        Some(counts) => Served {
            received: counts.received.saturating_add(served.received),
            replied: counts.replied.saturating_add(served.replied),
        },
        None => served,
    }
}

/// Serves a node over a port for `turns` receives, or until `until` ends them. Where `until` acts on the node then, the
/// turns that are left are served after that.
///
/// # Errors
/// - Returns `Store` if the node's store fails, and `Store(Spent)` if no proposal number of this boot is left.
/// - Returns `Socket` at the 16th consecutive fault of the port.
/// - Returns `NoClock` if the clock tells no time.
pub fn serve_node<S: FloorStore, P: Gatekeeper, C: Clock, U: Attend<S>>(
    node: &mut Node<'_, S>,
    port: &mut P,
    clock: &mut C,
    turns: u64,
    until: &mut Attended<U>,
) -> Result<Served, Fault>
    requires { turns < 2 ^ 54 }
    ensures turns { (end : Result Served ServeFault)
        × ServesIn S.held U.acts node.old node.new (P.events port.old) (P.events port.new)
        (C.moments clock.old) (C.moments clock.new) turns (U.answers until.new.attendant) end
        × (result ≡ serve_end end) }
    ensures stays { P.setup port.new ≡ P.setup port.old }
{
    let mut left = turns;
    let mut before = None;
    while left > 0 {
        let served = run_turns_until(node, port, clock, left, until)?;
        let all = counts_after(before, served);
        if until.left == 0 {
            return Ok(all);
        }
        match until.attendant.act(node, port) {
            Ok(true) => before = Some(all),
            Ok(false) => return Ok(all),
            Err(fault) => return Err(Fault::from(ServeFault::from(fault))),
        }
        left = until.left;
    }
    let served = run_turns_until(node, port, clock, 0, until)?;
    Ok(counts_after(before, served))
}

/// Binds a socket to an address of this machine. Its receives wait at most 200 milliseconds.
///
/// # Errors
/// Returns `Socket` if the socket cannot be bound, or its waits cannot be limited.
pub fn socket_at<N: Net>(net: &N, address: SocketAddrV4) -> Result<UdpSocket, Fault>
    ensures { IfErr result (λ fault. fault ≡ Fault.Socket) }
{
    let Ok(socket) = UdpSocket::bind(net, SocketAddr::V4(address)) else {
        return Err(Fault::Socket);
    };
    match socket.set_read_timeout(Some(Duration::from_millis(WAIT_MILLIS))) {
        Ok(()) => Ok(socket),
        Err(_) => Err(Fault::Socket),
    }
}

/// A UDP socket that is bound once, and kept while one node after another is served over it. With it is kept of the
/// members, from member 0 to 9, which went back meanwhile, and the greatest boot in which each was heard, or 0.
///
/// `opened` is the latest moment of the sealed lines and requests that the last node opened, or one after it. It is
/// None if nobody knows, as before the first node.
#[derive(Drop)]
pub struct KeptSocket {
    socket: Option<UdpSocket>,
    pub gone_back: [bool; PLACES],
    pub heard: [u64; PLACES],
    pub opened: Option<u64>,
}

impl KeptSocket {
    /// Returns a socket that is not bound yet. No member went back, and none was heard. Nobody knows what was opened.
    pub fn new() -> Self
        ensures { (result.gone_back ≡ nobody) × (result.heard ≡ nobody_heard) × (result.opened ≡ None) }
    {
        KeptSocket {
            socket: None,
            gone_back: [false; PLACES],
            heard: [0; PLACES],
            opened: None,
        }
    }

    /// Returns a handle of the socket in blocking mode. Binds it first to `address`, as [`socket_at`] does, if it isn't
    /// bound yet. What came meanwhile waits in it.
    ///
    /// # Errors
    /// - Returns the errors of [`socket_at`].
    /// - Returns `Socket` if there is no other handle, or its mode cannot be set.
    pub fn handle<N: Net>(&mut self, net: &N, address: SocketAddrV4) -> Result<UdpSocket, Fault>
        ensures fault { IfErr result (λ fault. fault ≡ Fault.Socket) }
        ensures same { (self.new.gone_back ≡ self.old.gone_back) × (self.new.heard ≡ self.old.heard)
            × (self.new.opened ≡ self.old.opened) }
    {
        let socket = match self.socket.take() {
            Some(socket) => socket,
            None => socket_at(net, address)?,
        };
        let handle = other_handle(&socket);
        self.socket = Some(socket);
        handle
    }
}

/// Returns another handle of a socket, in blocking mode.
fn other_handle(socket: &UdpSocket) -> Result<UdpSocket, Fault>
    ensures { IfErr result (λ fault. fault ≡ Fault.Socket) }
{
    if socket.set_nonblocking(false).is_err() {
        return Err(Fault::Socket);
    }
    match socket.try_clone() {
        Ok(handle) => Ok(handle),
        Err(_) => Err(Fault::Socket),
    }
}

/// The log of a served node.
#[derive(Drop)]
pub struct ServeLog {
    /// The content of its first line.
    pub start: Start,
    /// The content of the line after it, for a store by names.
    pub roster: Option<Roster>,
    /// The other members of the node's cluster.
    pub members: ArrayVec<Member, MAX_OTHERS>,
}

/// Returns the other members, whose silence the log reports.
fn other_members(place: Place) -> ArrayVec<Member, MAX_OTHERS> {
    let mut others = ArrayVec::new();
    for number in 1..=place.n() {
        if number != place.me() {
            let _full = others.try_push(Member::new(number));
        }
    }
    others
}

/// Writes the first lines of a log.
fn write_first_lines<W: Write>(writer: &mut W, log: &ServeLog) -> io::Result<()>
    ensures { OnOk result (Appends (W.contents writer.old) (W.contents writer.new) (first_lines log.now)) }
{
    write_start(writer, log.start)?;
    match log.roster {
        Some(roster) => write_roster(writer, roster),
        None => Ok(()),
    }
}

/// Serves a node over a port, as [`serve_node`] does, with a log. A member is heard under `key`. A failed write ends
/// the log, but not the node.
fn serve_logged<S: FloorStore, P: Gatekeeper + Drop, N: TimeSource, W: Write, U: Attend<S>>(
    node: &mut Node<'_, S>,
    port: P,
    outside: &N,
    turns: u64,
    until: &mut Attended<U>,
    key: &ClusterKey,
    log: ServeLog,
    writer: &mut W,
) -> Result<Served, Fault>
    requires turns { turns < 2 ^ 54 }
    requires fresh { IfSome (P.events port) (λ entries. entries ≡ []) }
    ensures turns { (end : Result Served ServeFault) × (last : P)
        × ServesIn S.held U.acts node.old node.new (P.events port) (P.events last) None None turns
        (U.answers until.new.attendant) end × (P.setup last ≡ P.setup port) × (result ≡ serve_end end) }
{
    let _written = write_first_lines(writer, &log);
    let mut clock = SystemClock::new(outside);
    let mut port = LogPort::new(port, writer, key, log.members);
    let served = serve_node(node, &mut port, &mut clock, turns, until)?;
    port.flush();
    port.end(served.received, served.replied);
    Ok(served)
}

/// Serves a node over a port, as [`serve_node`] does, with a log if there is one. Without a log it writes nothing.
///
/// `key` is the key of the node: the log tells who is heard under it.
///
/// # Errors
/// Returns the errors of [`serve_node`].
pub fn serve_port<S: FloorStore, P: Gatekeeper + Drop, N: TimeSource, W: Write, U: Attend<S>>(
    node: &mut Node<'_, S>,
    port: P,
    outside: &N,
    turns: u64,
    until: &mut Attended<U>,
    key: &ClusterKey,
    log: Option<ServeLog>,
    writer: &mut W,
) -> Result<Served, Fault>
    requires turns { turns < 2 ^ 54 }
    requires fresh { IfSome (P.events port) (λ entries. entries ≡ []) }
    ensures turns { (end : Result Served ServeFault) × (last : P)
        × ServesIn S.held U.acts node.old node.new (P.events port) (P.events last) None None turns
        (U.answers until.new.attendant) end × (P.setup last ≡ P.setup port) × (result ≡ serve_end end) }
    ensures unlogged { log ≡ None → writer.new ≡ writer.old }
{
    match log {
        Some(log) => serve_logged(node, port, outside, turns, until, key, log, writer),
        None => {
            let mut port = port;
            let mut clock = SystemClock::new(outside);
            let served = serve_node(node, &mut port, &mut clock, turns, until)?;
            port.flush();
            Ok(served)
        }
    }
}

/// Returns the content of the first line of the log of the node at `place`, whose store has the boot `boot`.
pub fn start_of(
    place: Place,
    address: SocketAddrV4,
    boot: u64,
    book: &Book,
    key: &ClusterKey,
) -> Start
    requires { IsCount boot }
    ensures { result ≡ start_at place address boot book.now key.now }
{
    Start {
        node: place.me(),
        members: place.n(),
        address: client_number(address),
        boot: boot + 1,
        tokens: book.len(),
        fingerprint: fingerprint(key),
    }
}

/// Returns the log of a node with the content of its first lines, or None if `is_logged` is false.
pub fn log_of(
    is_logged: bool,
    start: Start,
    roster: Option<Roster>,
    place: Place,
) -> Option<ServeLog>
    ensures none { is_logged ≡ false → result ≡ None }
    ensures lines { is_logged ≡ true
        → IfSome result (λ log. (log.start ≡ start) × (log.roster ≡ roster)) × IsSome result }
{
    if !is_logged {
        return None;
    }
    Some(ServeLog {
        start,
        roster,
        members: other_members(place),
    })
}
