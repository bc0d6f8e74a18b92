//! Serves a node that is open over a UDP socket, for its clients and its operators.

ghost use Rattle.std.specs.Prelude.{◌≡◌, ◌⊎◌, ◌<◌, ◌^◌, [], None, Some, false, true, Result, Ok, Err, IfErr, IfOk, IfSome, IsSome};
ghost use Rattle.node_reports.specs.Responder.{ResponderAnswers};
ghost use Rattle.oath_node.specs.declared.serve_fault.ServeFault.{ServeFault};
ghost use Rattle.oath_node.specs.declared.turns.Served.{Served};
ghost use Rattle.oathd_database.specs.Fault.{serve_end};
ghost use Rattle.node_serving.specs.Setup.{setup_behind, setup_for};
ghost use Rattle.node_serving.specs.Stretches.{ServesIn, operator_acts, unasked};
ghost use Rattle.store_serving.specs.Ends.{IsEarlyFault};
ghost use Rattle.store_serving.specs.Through.{IsServedThrough, ServesNamed, ServesSpeaking, packer_of, translator_of};

use crate::naming::{Naming, Speech};
use bundle_port::BundlePort;
use command_line::VERSION;
use count_port::CountPort;
use floor_port::FloorPort;
use floor_store::FloorStore;
use gatekeeping::Gatekeeper;
use named_port::NamedPort;
use node_log::Start;
use node_reports::{NodeInfo, ReportSource, Responder, version_of};
use node_serving::{
    Attend, Attended, ClientLines, Front, KeptSocket, ServeLog, Serving, Stop, front_of, serve_port,
};
use oath_node::{Node, Served};
use oathd_database::Fault;
use sealed_port::SealedPort;
use std::alloc::Global;
use std::io::Write;
use std::net::Net;
use std::time::Clock as TimeSource;
use token_file::Book;
use udp_port::{SystemClock, UdpPort};
use vote_core::Place;
use vote_wire::ClusterKey;

/// Returns whether operators may ask a node that takes these lines.
fn have_operators(lines: &ClientLines) -> bool {
    match lines {
        ClientLines::Of(clients) => !clients.operators.is_empty(),
        ClientLines::Anybody | ClientLines::ThisMachine => false,
    }
}

/// Serves a node over a port, with a log if there is one. If operators may ask, another port above it counts what
/// passes. `key` is the key of the node.
///
/// # Errors
/// Returns the errors of [`serve_port`].
fn serve_asked<S: FloorStore, P: Gatekeeper + Drop, N: TimeSource, W: Write, U: Attend<S>>(
    node: &mut Node<'_, S>,
    port: P,
    key: &ClusterKey,
    place: Place,
    is_asked: bool,
    outside: &N,
    turns: u64,
    until: &mut Attended<U>,
    log: Option<ServeLog>,
    writer: &mut W,
) -> Result<Served, Fault>
    requires turns { turns < 2 ^ 54 }
    requires fresh { IfSome (P.events port) (λ events. events ≡ []) }
    ensures turns { (end : Result Served ServeFault) × (last : P)
        × ServesIn S.held U.acts node.old node.new (P.events port) (P.events last) None None turns
        (U.answers until.new.attendant) end × (P.setup last ≡ P.setup port) × (result ≡ serve_end end) }
    ensures unlogged { log ≡ None → writer.new ≡ writer.old }
{
    if !is_asked {
        return serve_port(node, port, outside, turns, until, key, log, writer);
    }
    let counted = CountPort::new(port, key, place.me(), place.n(), outside);
    serve_port(node, counted, outside, turns, until, key, log, writer)
}

/// Serves a node by names over a port, which has received and offered nothing, with a log if there is one.
///
/// Between the node's port by names and `port` stand two others: one tells the node's floors to the other members, and
/// the one below it joins the datagrams to a member into one. `is_asked` says whether operators may ask.
///
/// # Errors
/// - Returns `Memory` if the allocator refuses the memory for the floors that the port tells. The node is as it was.
/// - Returns the errors of [`serve_asked`].
fn serve_named<S: FloorStore, P: Gatekeeper + Drop, N: TimeSource, W: Write, U: Attend<S>>(
    alloc: Global,
    node: &mut Node<'_, S>,
    port: P,
    naming: &Naming,
    place: Place,
    is_asked: bool,
    outside: &N,
    turns: u64,
    until: &mut Attended<U>,
    log: Option<ServeLog>,
    writer: &mut W,
) -> Result<Served, Fault>
    requires turns { turns < 2 ^ 54 }
    requires fresh { IfSome (P.events port) (λ events. events ≡ []) }
    requires known { IsSome (P.setup port) }
    ensures turns { ((result ≡ Err Fault.Memory) × (node.new ≡ node.old))
        ⊎ ((end : Result Served ServeFault) × (last : P)
        × ServesNamed S.held U.acts node.old node.new (translator_of naming.now) (packer_of naming.now) (P.events last)
        turns (U.answers until.new.attendant) end × (P.setup last ≡ P.setup port) × (result ≡ serve_end end)) }
    ensures unlogged { log ≡ None → writer.new ≡ writer.old }
{
    let (key, names, member) = (&naming.key, &naming.names, naming.node);
    let joining = BundlePort::new(port);
    let Ok(telling) = FloorPort::new(alloc, joining, key, names, member, &naming.floors) else {
        return Err(Fault::Memory);
    };
    let known = member.known;
    let named = NamedPort::new(telling, key, names, member.me, member.boot, known);
    let bare = ClusterKey::bare();
    serve_asked(
        node, named, &bare, place, is_asked, outside, turns, until, log, writer,
    )
}

/// Serves a node over a port, which has received and offered nothing, with a log if there is one. It speaks by the
/// places or the names of its tokens.
///
/// # Errors
/// Returns the errors of [`serve_named`].
fn serve_speaking<S: FloorStore, P: Gatekeeper + Drop, N: TimeSource, W: Write, U: Attend<S>>(
    alloc: Global,
    node: &mut Node<'_, S>,
    port: P,
    speech: Speech<'_>,
    place: Place,
    is_asked: bool,
    outside: &N,
    turns: u64,
    until: &mut Attended<U>,
    log: Option<ServeLog>,
    writer: &mut W,
) -> Result<Served, Fault>
    requires turns { turns < 2 ^ 54 }
    requires fresh { P.events port ≡ Some [] }
    requires known { IsSome (P.setup port) }
    ensures turns { ((result ≡ Err Fault.Memory) × (node.new ≡ node.old))
        ⊎ ((end : Result Served ServeFault) × (last : P)
        × ServesSpeaking S.held U.acts node.old node.new speech.entry turns (U.answers until.new.attendant)
        (P.events last) end × (P.setup last ≡ P.setup port) × (result ≡ serve_end end)) }
    ensures unlogged { log ≡ None → writer.new ≡ writer.old }
{
    match speech {
        Speech::Places(key) => serve_asked(
            node, port, key, place, is_asked, outside, turns, until, log, writer,
        ),
        Speech::Names(naming) => serve_named(
            alloc, node, port, naming, place, is_asked, outside, turns, until, log, writer,
        ),
    }
}

/// Serves a node over a socket, for the clients that `front` lets through, with a log if there is one. Without a log it
/// writes nothing. `is_asked` says whether operators may ask.
///
/// # Errors
/// Returns the errors of [`serve_speaking`].
fn serve_front<S: FloorStore, N: TimeSource, W: Write, U: Attend<S>>(
    alloc: Global,
    node: &mut Node<'_, S>,
    port: UdpPort<&N>,
    speech: Speech<'_>,
    place: Place,
    is_asked: bool,
    outside: &N,
    front: Front,
    turns: u64,
    until: &mut Attended<U>,
    log: Option<ServeLog>,
    writer: &mut W,
) -> Result<Served, Fault>
    requires turns { turns < 2 ^ 54 }
    requires calls { port.calls.made ≡ [] }
    requires plain { (port.skips_answers ≡ true) × (port.takes_loopback_alone ≡ false) }
    ensures turns { ((result ≡ Err Fault.Memory) × (node.new ≡ node.old))
        ⊎ IsServedThrough (ServesSpeaking S.held U.acts node.old node.new speech.entry turns
        (U.answers until.new.attendant)) (setup_behind port.entry.members.items front) result }
    ensures unlogged { log ≡ None → writer.new ≡ writer.old }
{
    match front {
        Front::Anybody => serve_speaking(
            alloc, node, port, speech, place, is_asked, outside, turns, until, log, writer,
        ),
        Front::ThisMachine => {
            let port = port.taking_loopback_alone();
            serve_speaking(
                alloc, node, port, speech, place, is_asked, outside, turns, until, log, writer,
            )
        }
        Front::Gate(gate) => {
            let port = SealedPort::new(port.under_gate(), SystemClock::new(outside), gate);
            serve_speaking(
                alloc, node, port, speech, place, is_asked, outside, turns, until, log, writer,
            )
        }
    }
}

/// Serves a node over a socket, as [`serve_front`] does, with a responder for operators.
///
/// The responder knows the tokens of `book`. It tells what `info` says of the node, and the reports of `source`.
/// Without operators, which `is_asked` tells, nobody asks it.
/// Returns `until` too. `socket` keeps which members went back, and in which boots they were heard. It also keeps the
/// latest moment that the port opened.
///
/// # Errors
/// Returns the errors of [`serve_front`].
fn serve_responder<
    S: FloorStore,
    T: ReportSource<S> + Drop,
    N: TimeSource,
    W: Write,
    U: Stop + Drop,
>(
    alloc: Global,
    node: &mut Node<'_, S>,
    port: UdpPort<&N>,
    speech: Speech<'_>,
    is_asked: bool,
    outside: &N,
    front: Front,
    turns: u64,
    info: NodeInfo,
    book: &Book,
    source: T,
    socket: &mut KeptSocket,
    until: U,
    log: Option<ServeLog>,
    writer: &mut W,
) -> Result<(Served, U), Fault>
    requires turns { turns < 2 ^ 54 }
    requires calls { port.calls.made ≡ [] }
    requires plain { (port.skips_answers ≡ true) × (port.takes_loopback_alone ≡ false) }
    ensures served { IfOk result (λ served. IsServedThrough (ServesSpeaking S.held (operator_acts S.held) node.old
        node.new speech.entry turns (ResponderAnswers (U.answers served.1)))
        (setup_behind port.entry.members.items front) (Ok served.0)) }
    ensures fault { IfErr result (λ fault. ((fault ≡ Fault.Memory) × (node.new ≡ node.old))
        ⊎ IsServedThrough (ServesSpeaking S.held (operator_acts S.held) node.old node.new speech.entry turns
        (ResponderAnswers unasked)) (setup_behind port.entry.members.items front) (Err fault)) }
    ensures unlogged { log ≡ None → writer.new ≡ writer.old }
{
    let place = info.place;
    let mut until = Attended::new(Responder::new(alloc, outside, info, book, source, until));
    match serve_front(
        alloc, node, port, speech, place, is_asked, outside, front, turns, &mut until, log, writer,
    ) {
        Ok(served) => {
            let gone_back = until.gone_back;
            socket.gone_back = gone_back;
            let heard = until.heard;
            socket.heard = heard;
            let opened = until.opened;
            socket.opened = opened;
            Ok((served, until.attendant.into_until()))
        }
        Err(fault) => Err(fault),
    }
}

/// Serves a node, which was opened for the tokens of `book`, over a UDP socket at its address. The socket is bound if
/// `socket` isn't yet. Returns `until` too.
///
/// # Errors
/// - Returns `Socket` if the socket cannot be bound.
/// - Returns the errors of [`front_of`] and [`serve_responder`].
pub(crate) fn serve_opened<
    S: FloorStore,
    T: ReportSource<S> + Drop,
    N: Net + TimeSource,
    W: Write,
    U: Stop + Drop,
>(
    alloc: Global,
    node: &mut Node<'_, S>,
    outside: &N,
    speech: Speech<'_>,
    log: Option<ServeLog>,
    info: NodeInfo,
    book: &Book,
    serving: Serving<'_>,
    source: T,
    socket: &mut KeptSocket,
    until: U,
    writer: &mut W,
) -> Result<(Served, U), Fault>
    ensures served { IfOk result (λ served. IsServedThrough (ServesSpeaking S.held (operator_acts S.held) node.old
        node.new speech.entry serving.entry.turns (ResponderAnswers (U.answers served.1)))
        (setup_for serving.entry.place.me serving.entry.members.items serving.entry.lines) (Ok served.0)) }
    ensures fault { IfErr result (λ fault. IsEarlyFault fault ⊎ IsServedThrough (ServesSpeaking S.held
        (operator_acts S.held) node.old node.new speech.entry serving.entry.turns (ResponderAnswers unasked))
        (setup_for serving.entry.place.me serving.entry.members.items serving.entry.lines) (Err fault)) }
    ensures unlogged { log ≡ None → writer.new ≡ writer.old }
{
    let Serving {
        place,
        members,
        turns,
        lines,
        ..
    } = serving;
    let address = members[usize::from(place.me()) - 1];
    let port = UdpPort::new(socket.handle(outside, address)?, members, outside);
    let is_asked = have_operators(&lines);
    let front = front_of(alloc, place.me(), lines, socket.opened, outside)?;
    serve_responder(
        alloc, node, port, speech, is_asked, outside, front, turns, info, book, source, socket,
        until, log, writer,
    )
}

/// Returns what stays of a node that begins at `moment`, whose log has the content `start` in its first line. `book` is
/// the print of its users file, if it speaks by names.
pub(crate) fn info_of(place: Place, moment: u64, start: Start, book: Option<[u8; 16]>) -> NodeInfo
    ensures node { (result.place ≡ place) × (result.started ≡ moment) }
    ensures prints { (result.fingerprint ≡ start.fingerprint) × (result.book ≡ book) }
{
    let version = version_of(VERSION.as_bytes());
    let fingerprint = start.fingerprint;
    NodeInfo {
        place,
        version,
        started: moment,
        fingerprint,
        book,
    }
}
