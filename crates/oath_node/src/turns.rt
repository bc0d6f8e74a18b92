//! The turns of a node over a port and a clock.

ghost use Rattle.std.specs.Prelude.{◌≡◌, ◌↔◌, ◌<◌, ◌≤◌, ◌+◌, ◌^◌, [], Err, map, true};
ghost use Rattle.arrayvec.specs.ArrayVec.{array_vec_len};
ghost use Rattle.floor_store.specs.Held.{IsSettled};
ghost use Rattle.datagram_port.specs.Port.{Grows, IsWithin, event_of_receive};
ghost use Rattle.oath_node.specs.TurnServing.{EndsByClock, Serves, ServesUntil, served_in};
ghost use Rattle.oath_node.specs.TurnSteps.{GathersBatch, SettlesBatch, TakesBatch, TakesDatagram, TakesReceived, TakesTick, items_in, reply_count, scene, ticks_of};
ghost use Rattle.oath_node.specs.Turns.{offer_of};

use crate::event::Event;
use crate::fault::NodeFault;
use crate::item::Item;
use crate::node::Node;
use crate::outputs::{Outputs, Scratch};
use crate::serve_fault::ServeFault;
use crate::until::{Never, Until};
use arrayvec::ArrayVec;
use datagram_port::{Clock, MAX_DATAGRAM_LEN, Port, Received, Sender};
use floor_store::FloorStore;

/// The number of turns that a run stays below: 500 years at a million datagrams a second.
pub const TURNS_END: u64 = 1 << 54;

/// The number of consecutive port faults that ends a run.
const MAX_FAULTS: u8 = 16;

/// The number of datagrams after which a tick follows.
const DATAGRAMS_OF_A_TICK: u64 = 64;

/// The counts of a run of turns: the datagrams that the node took, and the replies offered to the port.
#[derive(Clone, Copy, Debug, Default, PartialEq, Eq)]
pub struct Served {
    pub received: u64,
    pub replied: u64,
}

/// The counts of a run so far: the datagrams received, the replies offered, and the consecutive port faults.
#[derive(Clone, Copy, Default)]
struct Tally {
    received: u64,
    replied: u64,
    faults: u8,
}

/// Offers `outputs` to the port, in order. Returns the number of replies among them.
pub fn offer<P: Port>(port: &mut P, outputs: &Outputs<'_>) -> u64
    ensures offers { Grows (P.events port.old) (P.events port.new) (map offer_of outputs.now.items) }
    ensures replies { reply_count outputs.now.items < 2 ^ 64 → result ≡ reply_count outputs.now.items }
    ensures few { result ≤ reply_count outputs.now.items }
    ensures stays { P.setup port.new ≡ P.setup port.old }
{
    let mut replies = 0u64;
    for item in outputs.items() {
        match item {
            Item::Datagram { to, bytes } => {
                let _taken = port.send(Sender::Peer(to), bytes.as_slice());
            }
            Item::Reply { client, bytes } => {
                let _taken = port.send(Sender::Client(client), bytes.as_slice());
                replies = replies.saturating_add(1);
            }
        }
    }
    replies
}

/// The step that follows a receive in its batch.
#[derive(Clone, Copy)]
enum BatchEnd {
    /// Another receive, of a datagram that is already queued.
    More,
    /// The commit.
    Commit,
    /// A tick, followed by the commit.
    Tick,
    /// The commit, followed by the end of the run: the port has failed.
    Port,
    /// The commit, followed by the end of the run: the clock has failed.
    Clock,
}

impl BatchEnd {
    /// Returns whether the batch continues.
    fn is_more(self) -> bool
        ensures { (result ≡ true) ↔ (self ≡ BatchEnd.More) }
    {
        match self {
            BatchEnd::More => true,
            BatchEnd::Commit | BatchEnd::Tick | BatchEnd::Port | BatchEnd::Clock => false,
        }
    }
}

/// The number of receives of a batch, and the step that follows the last one.
#[derive(Clone, Copy)]
struct Gathered {
    turns: u64,
    end: BatchEnd,
}

/// The outputs of a batch, which wait for its commit.
type Outbox<'b> = ArrayVec<Option<Outputs<'b>>, 64>;

/// Passes a datagram to the node, a client's with the clock's current time. Returns None if the clock tells no time.
fn hand_in<'b, S: FloorStore, C: Clock>(
    node: &mut Node<'b, S>,
    clock: &mut C,
    sender: Sender,
    bytes: &[u8],
) -> Result<Option<Outputs<'b>>, NodeFault>
    ensures { TakesDatagram S.held node.old node.new sender bytes.now (C.moments clock.old)
        (C.moments clock.new) result }
{
    match sender {
        Sender::Peer(from) => Ok(Some(node.take_datagram(from, bytes)?)),
        Sender::Client(client) => match clock.moment() {
            Some(moment) => Ok(Some(node.take_line(client, moment, bytes)?)),
            None => Ok(None),
        },
    }
}

/// Passes a receive to the node. The outputs wait in `outbox` for the commit.
fn take_received<'b, S: FloorStore, C: Clock>(
    node: &mut Node<'b, S>,
    clock: &mut C,
    outbox: &mut Outbox<'b>,
    tally: &mut Tally,
    received: Received,
    buffer: &[u8; 512],
) -> Result<BatchEnd, NodeFault>
    requires within { IsWithin received }
    requires few { (tally.old.received < 2 ^ 54) × (tally.old.faults < 16) }
    requires room { array_vec_len outbox.old < 64 }
    ensures { TakesReceived S.held node.old node.new (event_of_receive received buffer.now)
        (C.moments clock.old) (C.moments clock.new) tally.old tally.new outbox.old.items outbox.new.items result }
{
    match received {
        Received::Datagram { sender, len } => {
            tally.faults = 0;
            tally.received += 1;
            let Some(outputs) = hand_in(node, clock, sender, &buffer[..len])? else {
                return Ok(BatchEnd::Clock);
            };
            outbox.push(Some(outputs));
            if tally.received % DATAGRAMS_OF_A_TICK == 0 {
                return Ok(BatchEnd::Tick);
            }
            Ok(BatchEnd::More)
        }
        Received::Quiet => {
            tally.faults = 0;
            Ok(BatchEnd::Tick)
        }
        Received::Fault => {
            tally.faults += 1;
            if tally.faults == MAX_FAULTS {
                return Ok(BatchEnd::Port);
            }
            Ok(BatchEnd::Commit)
        }
    }
}

/// Passes the next receive and the datagrams that are already queued to the node, in at most `turns` turns.
fn gather<'b, S: FloorStore, P: Port, C: Clock>(
    node: &mut Node<'b, S>,
    port: &mut P,
    clock: &mut C,
    outbox: &mut Outbox<'b>,
    tally: &mut Tally,
    turns: u64,
) -> Result<Gathered, NodeFault>
    requires some { 0 < turns }
    requires few { (tally.old.received + turns < 2 ^ 54) × (tally.old.faults < 16) }
    requires empty { outbox.old.items ≡ [] }
    ensures gathers { GathersBatch S.held (scene P.events node.old port.old tally.old)
        (scene P.events node.new port.new tally.new) (C.moments clock.old) (C.moments clock.new)
        (items_in outbox.new.items) turns result }
    ensures stays { P.setup port.new ≡ P.setup port.old }
{
    let mut buffer = [0; MAX_DATAGRAM_LEN];
    let first = port.receive(&mut buffer);
    let mut end = take_received(node, clock, outbox, tally, first, &buffer)?;
    let mut taken = 1;
    while end.is_more() && taken < turns && !outbox.is_full() {
        let Some(next) = port.poll(&mut buffer) else {
            break;
        };
        end = take_received(node, clock, outbox, tally, next, &buffer)?;
        taken += 1;
    }
    Ok(Gathered { turns: taken, end })
}

/// Passes a tick to the node if `end` asks for one.
fn take_tick<'k, 'b: 'k, S: FloorStore>(
    node: &mut Node<'b, S>,
    scratch: &'k mut Scratch,
    end: BatchEnd,
) -> Result<Option<Outputs<'k>>, NodeFault>
    ensures { TakesTick S.held node.old node.new (ticks_of end) result }
{
    match end {
        BatchEnd::Tick => Ok(Some(node.take(Event::Tick, scratch)?)),
        BatchEnd::More | BatchEnd::Commit | BatchEnd::Port | BatchEnd::Clock => Ok(None),
    }
}

/// Offers the outputs that waited for the node's commit to the port, in order. Returns the number of replies among
/// them.
fn offer_waiting<S: FloorStore, P: Port>(
    node: &Node<'_, S>,
    port: &mut P,
    waiting: &[Option<Outputs<'_>>],
) -> u64
    requires settled { (S.held node.now.store).is_clean → IsSettled (S.held node.now.store) }
    ensures offers { Grows (P.events port.old) (P.events port.new) (map offer_of (items_in waiting.now)) }
    ensures replies { reply_count (items_in waiting.now) < 2 ^ 64 → result ≡ reply_count (items_in waiting.now) }
    ensures few { result ≤ reply_count (items_in waiting.now) }
    ensures stays { P.setup port.new ≡ P.setup port.old }
{
    let mut replies = 0u64;
    for outputs in waiting {
        if let Some(outputs) = outputs {
            replies = replies.saturating_add(offer(port, outputs));
        }
    }
    replies
}

/// Ends a batch: takes the tick that is due, commits, and offers all outputs that waited.
fn settle<'b, S: FloorStore, P: Port>(
    node: &mut Node<'b, S>,
    port: &mut P,
    scratch: &mut Scratch,
    outbox: &Outbox<'b>,
    tally: &mut Tally,
    end: BatchEnd,
) -> Result<(), NodeFault>
    ensures settles { SettlesBatch S.held (scene P.events node.old port.old tally.old)
        (scene P.events node.new port.new tally.new) (ticks_of end) (items_in outbox.now.items) result }
    ensures stays { P.setup port.new ≡ P.setup port.old }
{
    let last = take_tick(node, scratch, end)?;
    node.commit()?;
    let replies = offer_waiting(node, port, outbox.as_slice());
    tally.replied = tally.replied.saturating_add(replies);
    let replies = offer_waiting(node, port, &[last]);
    tally.replied = tally.replied.saturating_add(replies);
    Ok(())
}

/// Runs a batch of at most `turns` turns, and returns the number of turns that it had.
///
/// The node takes the next receive and the datagrams that are already queued. It commits them at once. Only then are
/// the outputs offered to the port.
fn take_batch<'b, S: FloorStore, P: Port, C: Clock>(
    node: &mut Node<'b, S>,
    port: &mut P,
    clock: &mut C,
    scratch: &mut Scratch,
    outbox: &mut Outbox<'b>,
    tally: &mut Tally,
    turns: u64,
) -> Result<u64, ServeFault>
    requires some { 0 < turns }
    requires few { (tally.old.received + turns < 2 ^ 54) × (tally.old.faults < 16) }
    ensures takes { TakesBatch S.held (scene P.events node.old port.old tally.old)
        (scene P.events node.new port.new tally.new) (C.moments clock.old) (C.moments clock.new) turns result }
    ensures stays { P.setup port.new ≡ P.setup port.old }
{
    outbox.clear();
    let batch = gather(node, port, clock, outbox, tally, turns)?;
    settle(node, port, scratch, outbox, tally, batch.end)?;
    match batch.end {
        BatchEnd::Port => Err(ServeFault::Port),
        BatchEnd::Clock => Err(ServeFault::Clock),
        _ => Ok(batch.turns),
    }
}

/// Returns the counts of a run so far.
fn counts_of(tally: &Tally) -> Served
    ensures { result ≡ served_in tally.now }
{
    Served {
        received: tally.received,
        replied: tally.replied,
    }
}

/// Serves a node over a port for `turns` turns, fewer than [`TURNS_END`], or until `until` ends them. A turn is a
/// receive, or a poll that finds something.
///
/// The node takes each datagram, a client's with the clock's current time. A tick follows a quiet turn and each 64th
/// datagram. Datagrams that are already queued join the batch. The node commits the batch once. Only then are its
/// outputs offered to the port, in order. An output that the port refuses is lost. After each batch `until` is asked
/// whether the turns end, with the node and the port. Does not allocate.
///
/// # Errors
/// - Returns `Node` if the node returns a fault. The port gets no output of that batch.
/// - Returns `Port` at the 16th consecutive fault of the port.
/// - Returns `Clock` if the clock tells no time. The node doesn't take that datagram, but serves those received before
///   it.
pub fn run_turns_until<'b, S: FloorStore, P: Port, C: Clock, U: Until<S, P>>(
    node: &mut Node<'b, S>,
    port: &mut P,
    clock: &mut C,
    turns: u64,
    until: &mut U,
) -> Result<Served, ServeFault>
    requires few { turns < 2 ^ 54 }
    ensures serves { ServesUntil S.held node.old node.new (P.events port.old) (P.events port.new)
        (C.moments clock.old) (C.moments clock.new) turns (U.answers until.new) result }
    // a failure of the clock leaves the node unchanged, over any store
    ensures clock { result ≡ Err ServeFault.Clock
        → EndsByClock S.held node.old node.new (P.events port.old) (C.moments clock.old) turns }
    ensures stays { P.setup port.new ≡ P.setup port.old }
{
    let mut scratch = Scratch::new();
    let mut outbox = Outbox::new();
    let mut tally = Tally::default();
    let mut left = turns;
    while left > 0 {
        left -= take_batch(
            node,
            port,
            clock,
            &mut scratch,
            &mut outbox,
            &mut tally,
            left,
        )?;
        if until.ends(node, port, left) {
            return Ok(counts_of(&tally));
        }
    }
    Ok(counts_of(&tally))
}

/// Serves a node over a port for `turns` turns, fewer than [`TURNS_END`], as [`run_turns_until`] does. No turn is left.
///
/// # Errors
/// Returns the errors of [`run_turns_until`].
pub fn run_turns<'b, S: FloorStore, P: Port, C: Clock>(
    node: &mut Node<'b, S>,
    port: &mut P,
    clock: &mut C,
    turns: u64,
) -> Result<Served, ServeFault>
    requires few { turns < 2 ^ 54 }
    ensures serves { Serves S.held node.old node.new (P.events port.old) (P.events port.new)
        (C.moments clock.old) (C.moments clock.new) turns result }
    // a failure of the clock leaves the node unchanged, over any store
    ensures clock { result ≡ Err ServeFault.Clock
        → EndsByClock S.held node.old node.new (P.events port.old) (C.moments clock.old) turns }
    ensures stays { P.setup port.new ≡ P.setup port.old }
{
    run_turns_until(node, port, clock, turns, &mut Never)
}
