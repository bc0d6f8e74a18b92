//! The responder of a running node, which answers operators.

ghost use Rattle.std.specs.Prelude.{◌≡◌, ◌<◌, ◌≤◌, ◌⊎◌, ℕ, IfOk, IfSome, IsOk, IsSome, OnOk, Option, Some, length};
ghost use Rattle.datagram_port.specs.Port.{Grows};
ghost use Rattle.oath_node.specs.Reading.{ReadsNode};
ghost use Rattle.oath_node.specs.Unlocking.{UnlocksNode};
ghost use Rattle.operator_text.specs.Reply.{reply_text};
ghost use Rattle.node_reports.specs.Allowance.{full};
ghost use Rattle.node_reports.specs.Responder.{charged, decision_at, decision_in, is_operator, is_same, page_for};
ghost use Rattle.node_reports.specs.Reports.{IsReportText};

use crate::allowance::{Allowance, micros_of};
use crate::node_status::{NodeInfo, status_text};
use crate::source::ReportSource;
use crate::text::page_of_text;
use datagram_port::Clock;
use floor_store::{FloorStore, StoreFault};
use gatekeeping::Gatekeeper;
use node_serving::{Attend, Stop};
use oath_node::{Node, NodeFault};
use oathd_database::write_passes;
use operator_text::{Reply, Report, Request, read_request, write_reply};
use otp_core::MOMENTS_END;
use sealed_port::SetAside;
use sealed_wire::Right;
use std::alloc::Global;
use std::time::Clock as TimeSource;
use token_file::Book;
use udp_port::SystemClock;

/// The maximum number of milliseconds for which a node that ends waits for votes.
const MAX_DRAIN_MILLIS: u64 = 2000;

/// Returns the current moment of a monotonic clock, in milliseconds since its start, or `u64::MAX` if it
/// fails.
fn millis_of<N: TimeSource>(clock: &N) -> u64 {
    match clock.monotonic() {
        Ok(now) if now.as_secs() < MOMENTS_END => {
            now.as_secs() * 1000 + u64::from(now.subsec_millis())
        }
        _ => u64::MAX,
    }
}

/// The text of a report, of which an operator reads the pages.
#[derive(Drop)]
struct Kept {
    operator: u16,
    report: Report,
    text: Vec<u8>,
}

/// What a request asks for.
#[derive(Clone, Copy)]
enum Decision {
    /// Nothing that the node does.
    Refused(Reply),
    /// The page of a report that begins with the line `from`.
    Page { report: Report, from: u32 },
    /// To open the gate of a token.
    OpenGate(u32),
    /// To end when no line waits.
    Drain,
}

/// What a request asks the loop above to do.
#[derive(Clone, Copy)]
enum Order {
    /// Open the gate of a token.
    OpenGate(u32),
    /// Begin the report of all passes.
    ListPasses,
}

/// Answers the requests of operators to a running node. It takes at most one after each batch.
///
/// `T` is the source of the reports on the store, and `U` may end the turns.
#[derive(Drop)]
pub struct Responder<'d, N: TimeSource, T: Drop, U> {
    alloc: Global,
    outside: &'d N,
    info: NodeInfo,
    book: &'d Book,
    source: T,
    until: U,
    kept: Option<Kept>,
    /// The request that the loop above carries out, and its order.
    ordered: Option<(SetAside, Order)>,
    /// The moment at which the node began to end, in milliseconds of a monotonic clock.
    draining: Option<u64>,
    /// The time that requests of readers may take.
    allowance: Allowance,
}

/// Returns whether a key may send requests that change something.
fn is_operator(right: Right) -> bool
    ensures { result ≡ is_operator right }
{
    match right {
        Right::Operator => true,
        Right::Reader => false,
    }
}

/// Returns whether two reports are the same.
fn is_same(one: Report, other: Report) -> bool
    ensures { result ≡ is_same one other }
{
    match (one, other) {
        (Report::Status, Report::Status)
        | (Report::Gates, Report::Gates)
        | (Report::Floors, Report::Floors)
        | (Report::Passes, Report::Passes)
        | (Report::Roster, Report::Roster) => true,
        _ => false,
    }
}

/// Sends a reply as the report on a request. A failure is like a lost datagram.
fn send<P: Gatekeeper>(port: &mut P, asked: &SetAside, reply: Reply)
    ensures reports { Grows (P.below port.old) (P.below port.new)
        (P.reported port.old asked.now (reply_text reply)) }
    ensures events { P.events port.new ≡ P.events port.old }
    ensures stays { P.setup port.new ≡ P.setup port.old }
{
    let _taken = port.report(asked, write_reply(reply));
}

/// Opens the gate of a token, if it is one of the node's, and replies to the request.
fn open_gate<S: FloorStore, P: Gatekeeper>(
    node: &mut Node<'_, S>,
    port: &mut P,
    asked: &SetAside,
    token: u32,
) -> Result<(), NodeFault>
    ensures unlocks { token < length node.old.book → UnlocksNode S.held node.old node.new token result }
    ensures rests { length node.old.book ≤ token → (node.new ≡ node.old) × IsOk result }
    ensures events { P.events port.new ≡ P.events port.old }
    ensures stays { P.setup port.new ≡ P.setup port.old }
{
    if token >= node.store().tokens() {
        send(port, asked, Reply::NoUser);
        return Ok(());
    }
    node.open_gate(token)?;
    send(port, asked, Reply::Unlocked);
    Ok(())
}

impl<'d, N: TimeSource, T: Drop, U> Responder<'d, N, T, U> {
    /// Returns a responder that nobody asked yet. The node has the tokens of `book`.
    pub fn new(
        alloc: Global,
        outside: &'d N,
        info: NodeInfo,
        book: &'d Book,
        source: T,
        until: U,
    ) -> Self
        ensures until { result.until ≡ until }
        ensures allowance { result.allowance ≡ full }
    {
        Responder {
            alloc,
            outside,
            info,
            book,
            source,
            until,
            kept: None,
            ordered: None,
            draining: None,
            allowance: Allowance::full(),
        }
    }

    /// Returns what may end the turns.
    pub fn into_until(self) -> U
        ensures { result ≡ self.entry.until }
    {
        self.until
    }

    /// Returns the current time, or 0 if the clock fails.
    fn moment(&self) -> u64 {
        SystemClock::new(self.outside).moment().unwrap_or(0)
    }

    /// Returns the text of a report that reads nothing but the rows of the store, or None if there is none.
    fn text_of<S: FloorStore, P: Gatekeeper>(
        &self,
        node: &Node<'_, S>,
        port: &mut P,
        report: Report,
    ) -> Result<Option<Vec<u8>>, StoreFault>
    where
        T: ReportSource<S>,
        ensures text { IfOk result (λ told. IfSome told (λ text. (moment : ℕ) × IsReportText S.held self.now.info
            T.rows (T.says self.now.source) node.now report moment text.items)) }
        ensures events { P.events port.new ≡ P.events port.old }
        ensures stays { P.setup port.new ≡ P.setup port.old }
    {
        let moment = self.moment();
        match report {
            Report::Status => {
                let rows = self.source.all_rows(node.store());
                let status = self.info.status(node, rows, port.counters(), moment)?;
                Ok(Some(status_text(self.alloc, &status)?))
            }
            Report::Gates | Report::Floors | Report::Passes | Report::Roster => {
                self.source.text(self.alloc, node.store(), report, moment)
            }
        }
    }

    /// Sends the page of the kept text that begins with the line `from`, if the operator's report is kept.
    fn send_page<P: Gatekeeper>(&self, port: &mut P, asked: &SetAside, report: Report, from: u32)
        ensures reports { Grows (P.below port.old) (P.below port.new)
            (P.reported port.old asked.now (page_for self.now.kept asked.now.number report from)) }
        ensures events { P.events port.new ≡ P.events port.old }
        ensures stays { P.setup port.new ≡ P.setup port.old }
    {
        match &self.kept {
            Some(kept) if kept.operator == asked.number() && is_same(kept.report, report) => {
                let _taken = port.report(asked, &page_of_text(&kept.text, from));
            }
            _ => send(port, asked, Reply::NoReport),
        }
    }

    /// Makes the text of a report, and keeps it.
    fn begin<S: FloorStore, P: Gatekeeper>(
        &mut self,
        node: &Node<'_, S>,
        port: &mut P,
        operator: u16,
        report: Report,
    )
    where
        T: ReportSource<S>,
        ensures kept { IfSome self.new.kept (λ kept. (kept.operator ≡ operator) × (kept.report ≡ report)
            × ((moment : ℕ) × IsReportText S.held self.old.info T.rows (T.says self.old.source) node.now report
            moment kept.text.items)) }
        ensures same { (self.new.info ≡ self.old.info) × (self.new.source ≡ self.old.source)
            × (self.new.until ≡ self.old.until) }
        ensures orders { (self.new.ordered ≡ self.old.ordered) × (self.new.draining ≡ self.old.draining) }
        ensures allowance { self.new.allowance ≡ self.old.allowance }
        ensures events { P.events port.new ≡ P.events port.old }
        ensures stays { P.setup port.new ≡ P.setup port.old }
    {
        self.kept = None;
        if let Ok(Some(text)) = self.text_of(node, port, report) {
            self.kept = Some(Kept {
                operator,
                report,
                text,
            });
        }
    }

    /// Takes a request for a page. The first page of a report makes its text anew.
    fn take_page<S: FloorStore, P: Gatekeeper>(
        &mut self,
        node: &Node<'_, S>,
        port: &mut P,
        asked: SetAside,
        report: Report,
        from: u32,
    )
    where
        T: ReportSource<S>,
        ensures same { (self.new.info ≡ self.old.info) × (self.new.source ≡ self.old.source)
            × (self.new.until ≡ self.old.until) }
        ensures drains { self.new.draining ≡ self.old.draining }
        ensures allowance { self.new.allowance ≡ self.old.allowance }
        ensures orders { (self.new.ordered ≡ self.old.ordered) ⊎ (self.new.ordered ≡ Some (asked, Order.ListPasses)) }
        ensures events { P.events port.new ≡ P.events port.old }
        ensures stays { P.setup port.new ≡ P.setup port.old }
    {
        if from == 0 && is_same(report, Report::Passes) {
            self.ordered = Some((asked, Order::ListPasses));
            return;
        }
        if from == 0 {
            self.begin(node, port, asked.number(), report);
        }
        self.send_page(port, &asked, report, from);
    }

    /// Returns whether the node ends: no line waits for votes, or the time for that is over.
    fn is_drained(&self, is_waiting: bool) -> bool {
        match self.draining {
            Some(since) => {
                !is_waiting || millis_of(self.outside).saturating_sub(since) >= MAX_DRAIN_MILLIS
            }
            None => false,
        }
    }

    /// Returns what a request asks for, whatever time it takes.
    fn decision_on(&self, asked: &SetAside) -> Decision
        ensures { result ≡ decision_in self.now.book.now asked.now.right asked.now.text }
    {
        let Some(request) = read_request(asked.text()) else {
            return Decision::Refused(Reply::NoRequest);
        };
        if request.changes() && !is_operator(asked.right()) {
            return Decision::Refused(Reply::NoRight);
        }
        match request {
            Request::Page { report, from } => Decision::Page { report, from },
            Request::Unlock(user) => match self.book.find(user) {
                Some(token) => Decision::OpenGate(token.value()),
                None => Decision::Refused(Reply::NoUser),
            },
            Request::Drain => Decision::Drain,
        }
    }

    /// Returns what a request asks for at a moment, which is None if the clock fails.
    fn decision_at(&self, asked: &SetAside, moment: Option<u64>) -> Decision
        ensures { result
            ≡ decision_at moment self.now.allowance self.now.book.now asked.now.right asked.now.text }
    {
        if !is_operator(asked.right()) && self.allowance.refilled(moment).is_empty() {
            return Decision::Refused(Reply::Busy);
        }
        self.decision_on(asked)
    }

    /// Takes the time of a request, which began at a moment and ends now, from the allowance if the key is a reader's.
    fn charge(&mut self, right: Right, began: Option<u64>)
        ensures { (ended : Option ℕ)
            × (self.new ≡ record self.old { allowance = charged right began ended self.old.allowance }) }
    {
        let ended = micros_of(self.outside);
        if !is_operator(right) {
            self.allowance = self.allowance.paid(began, ended);
        }
    }

    /// Takes a request at a moment, which is None if the clock fails.
    fn take<S: FloorStore, P: Gatekeeper>(
        &mut self,
        node: &Node<'_, S>,
        port: &mut P,
        asked: SetAside,
        began: Option<u64>,
    )
    where
        T: ReportSource<S>,
        ensures same { (self.new.info ≡ self.old.info) × (self.new.source ≡ self.old.source)
            × (self.new.until ≡ self.old.until) }
        ensures refused { (reply : Reply)
            → decision_at began self.old.allowance self.old.book.now asked.right asked.text ≡ Decision.Refused reply
            → (self.new ≡ self.old) × Grows (P.below port.old) (P.below port.new)
            (P.reported port.old asked (reply_text reply)) }
        ensures page { (report : Report) → (from : ℕ)
            → decision_at began self.old.allowance self.old.book.now asked.right asked.text ≡ Decision.Page report from
            → (self.new.draining ≡ self.old.draining)
            × ((self.new.ordered ≡ self.old.ordered) ⊎ (self.new.ordered ≡ Some (asked, Order.ListPasses)))
            × ((ended : Option ℕ)
            × (self.new.allowance ≡ charged asked.right began ended self.old.allowance)) }
        ensures gate { (token : ℕ)
            → decision_at began self.old.allowance self.old.book.now asked.right asked.text ≡ Decision.OpenGate token
            → (self.new.ordered ≡ Some (asked, Order.OpenGate token)) × (self.new.draining ≡ self.old.draining)
            × (self.new.allowance ≡ self.old.allowance) }
        ensures drain { decision_at began self.old.allowance self.old.book.now asked.right asked.text ≡ Decision.Drain
            → (self.new.ordered ≡ self.old.ordered) × IsSome self.new.draining
            × (self.new.allowance ≡ self.old.allowance) }
        ensures events { P.events port.new ≡ P.events port.old }
        ensures stays { P.setup port.new ≡ P.setup port.old }
    {
        let right = asked.right();
        match self.decision_at(&asked, began) {
            Decision::Refused(reply) => send(port, &asked, reply),
            Decision::Page { report, from } => {
                self.take_page(node, port, asked, report, from);
                self.charge(right, began);
            }
            Decision::OpenGate(token) => self.ordered = Some((asked, Order::OpenGate(token))),
            Decision::Drain => {
                if self.draining.is_none() {
                    self.draining = Some(millis_of(self.outside));
                }
                port.drain();
                send(port, &asked, Reply::Draining);
            }
        }
    }

    /// Reads the passes of the node, and keeps their text.
    fn list_passes<S: FloorStore>(
        &mut self,
        node: &mut Node<'_, S>,
        operator: u16,
    ) -> Result<(), NodeFault>
    where
        T: ReportSource<S>,
        ensures reads { ReadsNode S.held node.old node.new result }
        ensures kept { OnOk result (IfSome self.new.kept (λ kept.
            (kept.operator ≡ operator) × (kept.report ≡ Report.Passes))) }
        ensures same { (self.new.info ≡ self.old.info) × (self.new.source ≡ self.old.source)
            × (self.new.until ≡ self.old.until) }
        ensures orders { (self.new.ordered ≡ self.old.ordered) × (self.new.draining ≡ self.old.draining) }
        ensures allowance { self.new.allowance ≡ self.old.allowance }
    {
        let passes = self.source.passes(self.alloc, node)?;
        let mut text = Vec::new(self.alloc);
        self.kept = match write_passes(&mut text, &passes) {
            Ok(()) => Some(Kept {
                operator,
                report: Report::Passes,
                text,
            }),
            Err(_) => None,
        };
        Ok(())
    }

    /// Begins the report of all passes, and sends its first page. Both take time of the allowance.
    fn report_passes<S: FloorStore, P: Gatekeeper>(
        &mut self,
        node: &mut Node<'_, S>,
        port: &mut P,
        asked: &SetAside,
    ) -> Result<(), NodeFault>
    where
        T: ReportSource<S>,
        ensures reads { ReadsNode S.held node.old node.new result }
        ensures charged { OnOk result ((began : Option ℕ) × (ended : Option ℕ)
            × (self.new.allowance ≡ charged asked.now.right began ended self.old.allowance)) }
        ensures events { P.events port.new ≡ P.events port.old }
        ensures stays { P.setup port.new ≡ P.setup port.old }
    {
        let began = micros_of(self.outside);
        self.list_passes(node, asked.number())?;
        self.send_page(port, asked, Report::Passes, 0);
        self.charge(asked.right(), began);
        Ok(())
    }
}

impl<S: FloorStore, N: TimeSource, T: ReportSource<S> + Drop, U: Stop> Attend<S>
    for Responder<'_, N, T, U> {
    ghost use Rattle.node_reports.specs.Responder.{ResponderAnswers};
    ghost use Rattle.node_serving.specs.Stretches.{operator_acts};

    ghost answers = { λ responder. ResponderAnswers (U.answers responder.until) };

    ghost acts = { operator_acts S.held };

    fn ends<P: Gatekeeper>(&mut self, node: &Node<'_, S>, port: &mut P, left: u64) -> bool {
        if let Some(asked) = port.take_request() {
            let began = micros_of(self.outside);
            self.take(node, port, asked, began);
        }
        let is_drained = self.ordered.is_none() && self.is_drained(node.is_waiting());
        // No turn is left for a node that is drained.
        let left = if is_drained { 0 } else { left };
        let ends = self.until.stops(node.is_waiting(), left);
        ends || self.ordered.is_some() || is_drained
    }

    fn act<P: Gatekeeper>(
        &mut self,
        node: &mut Node<'_, S>,
        port: &mut P,
    ) -> Result<bool, NodeFault> {
        let Some((asked, order)) = self.ordered.take() else {
            return Ok(false);
        };
        match order {
            Order::OpenGate(token) => open_gate(node, port, &asked, token)?,
            Order::ListPasses => self.report_passes(node, port, &asked)?,
        }
        Ok(true)
    }
}
