//! Carries out an inquiry of the command line.

ghost use Rattle.std.specs.Prelude.{IfErr, IfOk, OnOk};
ghost use Rattle.operator_text.specs.Request as spec;
ghost use Rattle.operator_text.specs.declared.reply.Reply.TheVariants as replies;
ghost use Rattle.operator_text.specs.Request.{IsWish, request_text, wish_of};
ghost use Rattle.oathd_asking.specs.Fault.{IsOfExchange, IsOfReport};
ghost use Rattle.oathd_asking.specs.Inquiry.{EndsDrain, EndsUnlock, IsInquired, IsOfInquiry, IsOfUnlock, Replies};
ghost use Rattle.oathd_asking.specs.Sent.{IsReportOn};

use crate::asker::Asker;
use crate::fault::AskFault;
use crate::report::{AskedNode, print_report, refusal_of, report_on};
use crate::sent::Page;
use field_text::is_word;
use oathd_words::Inquiry;
use operator_text::{Reply, Report, Request, read_reply, write_request};
use std::alloc::Global;
use std::io::Write;
use std::net::{Net, SocketAddrV4};
use std::time::Clock as TimeSource;

/// Returns the end of a request to unlock a user, by the node's report.
fn end_of_unlock<'a>(address: SocketAddrV4, user: &'a str, page: &[u8]) -> Result<(), AskFault<'a>>
    ensures { EndsUnlock address user.now page.now result }
{
    match read_reply(page) {
        Some(Reply::Unlocked) => Ok(()),
        Some(Reply::NoUser) => Err(AskFault::NoUser(user)),
        _ => Err(refusal_of(address, page)),
    }
}

/// Returns the end of a request to end, by the node's report.
fn end_of_drain<'a>(address: SocketAddrV4, page: &[u8]) -> Result<(), AskFault<'a>>
    ensures { EndsDrain address page.now result }
{
    match read_reply(page) {
        Some(Reply::Draining) => Ok(()),
        _ => Err(refusal_of(address, page)),
    }
}

/// Sends a request to a node, and returns the report.
fn report_of<'a, N: Net + TimeSource>(
    alloc: Global,
    asker: &mut Asker<'_, N>,
    node: AskedNode<'_>,
    request: Request<'_>,
) -> Result<Page, AskFault<'a>>
    requires { IsWish (wish_of request) }
    ensures page { IfOk result (λ page.
        IsReportOn node.entry.operator.now node.entry.number (request_text (wish_of request.entry)) page.items) }
    ensures fault { IfErr result (IsOfExchange node.entry.address) }
{
    report_on(alloc, asker, node, write_request(&request))
}

/// Asks a node to clear the failures of a user.
fn unlock<'a, N: Net + TimeSource>(
    alloc: Global,
    asker: &mut Asker<'_, N>,
    node: AskedNode<'_>,
    user: &'a str,
) -> Result<(), AskFault<'a>>
    ensures unlocked { OnOk result (Replies node.entry.operator.now node.entry.number
        (request_text (spec.OpenGate user.now)) replies.Unlocked) }
    ensures fault { IfErr result (IsOfUnlock node.entry.address user.now) }
{
    if !is_word(user.as_bytes()) {
        return Err(AskFault::NoUser(user));
    }
    let page = report_of(alloc, asker, node, Request::Unlock(user.as_bytes()))?;
    end_of_unlock(node.address, user, &page)
}

/// Asks a node to end when no line waits.
fn drain<'a, N: Net + TimeSource>(
    alloc: Global,
    asker: &mut Asker<'_, N>,
    node: AskedNode<'_>,
) -> Result<(), AskFault<'a>>
    ensures draining { OnOk result (Replies node.entry.operator.now node.entry.number
        (request_text spec.Ending) replies.Draining) }
    ensures fault { IfErr result (IsOfReport node.entry.address) }
{
    let page = report_of(alloc, asker, node, Request::Drain)?;
    end_of_drain(node.address, &page)
}

/// Carries out an inquiry at a running node, and prints its report. An order prints nothing.
///
/// # Errors
/// - Returns `NoUser` if no token of the node has the user.
/// - Returns the errors of [`print_report`].
pub fn inquire<'a, N: Net + TimeSource, W: Write>(
    alloc: Global,
    asker: &mut Asker<'_, N>,
    node: AskedNode<'_>,
    inquiry: Inquiry<'a>,
    writer: &mut W,
) -> Result<(), AskFault<'a>>
    ensures inquired { OnOk result (IsInquired node.entry.operator.now node.entry.number inquiry.entry
        (W.contents writer.old) (W.contents writer.new)) }
    ensures fault { IfErr result (IsOfInquiry node.entry.address inquiry.entry) }
{
    match inquiry {
        Inquiry::Status => print_report(alloc, asker, node, Report::Status, writer),
        Inquiry::Gates => print_report(alloc, asker, node, Report::Gates, writer),
        Inquiry::Floors => print_report(alloc, asker, node, Report::Floors, writer),
        Inquiry::Audit => print_report(alloc, asker, node, Report::Passes, writer),
        Inquiry::Roster => print_report(alloc, asker, node, Report::Roster, writer),
        Inquiry::Unlock { user } => unlock(alloc, asker, node, user),
        Inquiry::Drain => drain(alloc, asker, node),
    }
}
