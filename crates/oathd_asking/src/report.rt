//! A report of a node, from its pages.

ghost use Rattle.std.specs.Prelude.{◌≡◌, ◌≢◌, ◌↔◌, ◌<◌, ◌++◌, ◌∷◌, [], map, IfErr, IfOk, IfSome, IsTrue, OnOk, Some};
ghost use Rattle.operator_text.specs.Pages.{lines_in};
ghost use Rattle.operator_text.specs.Reading.{page_at};
ghost use Rattle.operator_text.specs.Reply.{reply_at};
ghost use Rattle.operator_text.specs.declared.reply.Reply.TheVariants.{Busy};
ghost use Rattle.oathd_asking.specs.Asked.{IsFirstReport, asked_of};
ghost use Rattle.oathd_asking.specs.Fault.{IsOfExchange, IsOfPrinting, IsOfReport};
ghost use Rattle.oathd_asking.specs.Fault as spec;
ghost use Rattle.oathd_asking.specs.Report.{IsReportText, PrintsReport, page_request};
ghost use Rattle.oathd_asking.specs.Sent.{IsReportOn};
ghost use Rattle.oathd_asking.specs.declared.fault.AskFault.TheVariants.{CannotWrite};

use crate::asker::Asker;
use crate::fault::AskFault;
use crate::sent::{Page, Sent};
use arrayvec::ArrayVec;
use clients_file::OperatorEntry;
use operator_text::{
    MAX_REQUEST_LEN, Reply, Report, Request, read_page, read_reply, write_request,
};
use std::alloc::Global;
use std::io::Write;
use std::net::{Net, SocketAddrV4};
use std::time::Clock as TimeSource;

/// The maximum number of times that a report is begun.
const MAX_BEGINNINGS: u8 = 3;

/// The maximum number of times that a busy node is asked for a page.
const MAX_BUSY: u8 = 10;

/// The maximum number of pages of a report: 1 GiB.
const MAX_PAGES: u32 = 1_048_576;

/// A running node, and the operator that asks it.
#[derive(Clone, Copy)]
pub struct AskedNode<'k> {
    /// The address of the node's socket.
    pub address: SocketAddrV4,
    /// The number of the node.
    pub number: u8,
    /// The operator, whose key seals the requests.
    pub operator: &'k OperatorEntry,
}

/// Sends the text of a request to a node. Returns the request, with the report if it came.
fn sent_alone<'a, 'k, N: Net + TimeSource>(
    alloc: Global,
    asker: &mut Asker<'_, N>,
    node: AskedNode<'k>,
    text: ArrayVec<u8, MAX_REQUEST_LEN>,
) -> Result<Vec<Sent<'k>>, AskFault<'a>>
    ensures asked { IfOk result (λ all. map asked_of all.items
        ≡ record { operator = node.entry.operator.now; node = node.entry.number; text = text.items } ∷ []) }
    ensures fault { IfErr result (IsOfExchange node.entry.address) }
{
    let mut all = Vec::new(alloc);
    match all.push(Sent::new(node.operator, node.number, node.address, text)) {
        Ok(()) => {}
        Err(_) => return Err(AskFault::Memory),
    }
    asker.exchange(&mut all)?;
    Ok(all)
}

/// Returns the report on the first one of requests, if it came.
fn first_page(all: &[Sent<'_>]) -> Option<Page>
    ensures { IfSome result (λ page. IsFirstReport (map asked_of all.now) page.items) }
{
    match all {
        [sent, ..] => Page::try_from(sent.page()?.as_slice()).ok(),
        [] => None,
    }
}

/// Sends the text of a request to a node, and returns the report. The report was sealed under the operator's key, on
/// this very request.
///
/// # Errors
/// - Returns `NoAnswer` if no report comes.
/// - Returns `NoClock`, `Socket` or `Memory` if one of them fails.
pub(crate) fn report_on<'a, N: Net + TimeSource>(
    alloc: Global,
    asker: &mut Asker<'_, N>,
    node: AskedNode<'_>,
    text: ArrayVec<u8, MAX_REQUEST_LEN>,
) -> Result<Page, AskFault<'a>>
    ensures page { IfOk result (λ page.
        IsReportOn node.entry.operator.now node.entry.number text.items page.items) }
    ensures fault { IfErr result (IsOfExchange node.entry.address) }
{
    let all = sent_alone(alloc, asker, node, text)?;
    match first_page(&all) {
        Some(page) => Ok(page),
        None => Err(AskFault::NoAnswer(node.address)),
    }
}

/// Returns whether the text of a report says that the node is busy with the requests of readers.
pub(crate) fn is_busy(text: &[u8]) -> bool
    ensures { IsTrue result ↔ (reply_at text.now ≡ Some Busy) }
{
    match read_reply(text) {
        Some(Reply::Busy) => true,
        _ => false,
    }
}

/// Sends a request for the page of a report from the line `from` on, and returns the report.
fn page_once<'a, N: Net + TimeSource>(
    alloc: Global,
    asker: &mut Asker<'_, N>,
    node: AskedNode<'_>,
    report: Report,
    from: u32,
) -> Result<Page, AskFault<'a>>
    ensures page { IfOk result (λ page.
        IsReportOn node.entry.operator.now node.entry.number (page_request report from) page.items) }
    ensures fault { IfErr result (IsOfExchange node.entry.address) }
{
    report_on(
        alloc,
        asker,
        node,
        write_request(&Request::Page { report, from }),
    )
}

/// Returns the page of a report from the line `from` on. A busy node is asked for it again a second later, at most ten
/// times in all.
pub(crate) fn page_on<'a, N: Net + TimeSource>(
    alloc: Global,
    asker: &mut Asker<'_, N>,
    node: AskedNode<'_>,
    report: Report,
    from: u32,
) -> Result<Page, AskFault<'a>>
    ensures page { IfOk result (λ page.
        IsReportOn node.entry.operator.now node.entry.number (page_request report from) page.items) }
    ensures fault { IfErr result (IsOfExchange node.entry.address) }
{
    for _ in 1..MAX_BUSY {
        let page = page_once(alloc, asker, node, report, from)?;
        if !is_busy(&page) {
            return Ok(page);
        }
        asker.pause()?;
    }
    page_once(alloc, asker, node, report, from)
}

/// Returns the fault of a text that is no page.
pub(crate) fn refusal_of<'a>(address: SocketAddrV4, text: &[u8]) -> AskFault<'a>
    ensures { result ≡ spec.refusal_of address text.now }
{
    match read_reply(text) {
        Some(Reply::NoRight) => AskFault::NoRight(address),
        Some(Reply::NoReport) => AskFault::NoReport(address),
        Some(Reply::Busy) => AskFault::Busy(address),
        _ => AskFault::NoRequest(address),
    }
}

/// Appends the lines of a page to a text. Returns the number of the next page's first line, or None if the page is the
/// last one.
///
/// # Errors
/// - Returns the fault of a text that is no page.
/// - Returns `NoReport` if the page, from the line `from` on, has no line and is not the last one.
/// - Returns `Memory` if the allocator refuses the memory.
fn add_page<'a>(
    text: &mut Vec<u8>,
    address: SocketAddrV4,
    page: &[u8],
    from: u32,
) -> Result<Option<u32>, AskFault<'a>>
    ensures page { IfOk result (λ next.
        page_at page.now ≡ Some (record { lines = lines_in (page_at page.now); next = next })) }
    ensures onward { IfOk result (λ next. IfSome next (λ next. from < next)) }
    ensures text { OnOk result (text.new.items ≡ text.old.items ++ lines_in (page_at page.now)) }
    ensures fault { IfErr result (IsOfReport address) }
{
    let Some((lines, next)) = read_page(page) else {
        return Err(refusal_of(address, page));
    };
    if next.is_some_and(|next| next <= from) {
        return Err(AskFault::NoReport(address));
    }
    match text.extend_from_slice(lines) {
        Ok(()) => Ok(next),
        Err(_) => Err(AskFault::Memory),
    }
}

/// Returns the text of a report, whose first page came.
pub(crate) fn text_from<'a, N: Net + TimeSource>(
    alloc: Global,
    asker: &mut Asker<'_, N>,
    node: AskedNode<'_>,
    report: Report,
    first: &[u8],
) -> Result<Vec<u8>, AskFault<'a>>
    requires { IsReportOn node.operator.now node.number (page_request report 0) first.now }
    ensures text { IfOk result (λ text. IsReportText node.entry.operator.now node.entry.number report text.items) }
    ensures fault { IfErr result (IsOfReport node.entry.address) }
{
    let mut text = Vec::new(alloc);
    let mut next = add_page(&mut text, node.address, first, 0)?;
    for _ in 0..MAX_PAGES {
        let Some(from) = next else {
            return Ok(text);
        };
        let page = page_on(alloc, asker, node, report, from)?;
        next = add_page(&mut text, node.address, &page, from)?;
    }
    Err(AskFault::NoReport(node.address))
}

/// Returns the text of a report from its pages.
pub(crate) fn text_of<'a, N: Net + TimeSource>(
    alloc: Global,
    asker: &mut Asker<'_, N>,
    node: AskedNode<'_>,
    report: Report,
) -> Result<Vec<u8>, AskFault<'a>>
    ensures text { IfOk result (λ text. IsReportText node.entry.operator.now node.entry.number report text.items) }
    ensures fault { IfErr result (IsOfReport node.entry.address) }
{
    let first = page_on(alloc, asker, node, report, 0)?;
    text_from(alloc, asker, node, report, &first)
}

/// Returns the text of a report. It is begun again if the node has it no more, at most three times in all.
fn report_text<'a, N: Net + TimeSource>(
    alloc: Global,
    asker: &mut Asker<'_, N>,
    node: AskedNode<'_>,
    report: Report,
) -> Result<Vec<u8>, AskFault<'a>>
    ensures text { IfOk result (λ text. IsReportText node.entry.operator.now node.entry.number report text.items) }
    ensures fault { IfErr result (IsOfReport node.entry.address) }
{
    for _ in 1..MAX_BEGINNINGS {
        match text_of(alloc, asker, node, report) {
            Err(AskFault::NoReport(_)) => {}
            end => return end,
        }
    }
    text_of(alloc, asker, node, report)
}

/// Prints a report of a node, and flushes. It is begun again if the node has it no more, at most three times in all.
///
/// # Errors
/// - Returns `NoAnswer` if a page doesn't come.
/// - Returns `NoRight`, `NoRequest`, `NoReport` or `Busy` if the node refuses. Nothing is printed.
/// - Returns `NoClock`, `Socket` or `Memory` if one of them fails.
/// - Returns `CannotWrite` if the output fails. A prefix of the text may have been written.
pub fn print_report<'a, N: Net + TimeSource, W: Write>(
    alloc: Global,
    asker: &mut Asker<'_, N>,
    node: AskedNode<'_>,
    report: Report,
    writer: &mut W,
) -> Result<(), AskFault<'a>>
    ensures printed { OnOk result (PrintsReport node.entry.operator.now node.entry.number report
        (W.contents writer.old) (W.contents writer.new)) }
    ensures fault { IfErr result (IsOfPrinting node.entry.address) }
    ensures unprinted { IfErr result (λ fault. fault ≢ CannotWrite
        → W.contents writer.new ≡ W.contents writer.old) }
{
    let text = report_text(alloc, asker, node, report)?;
    if writer.write_all(&text).is_err() || writer.flush().is_err() {
        return Err(AskFault::CannotWrite);
    }
    Ok(())
}
