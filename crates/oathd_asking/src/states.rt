//! The state of all members of a cluster.

ghost use Rattle.std.specs.Prelude.{◌≡◌, ◌⊎◌, ◌≤◌, IfErr, IfOk, IfSome, IsErrAnd, OnOk, length, map};
ghost use Rattle.std.specs.Io.KnownBytes.{Appends};
ghost use Rattle.operator_text.specs.declared.request.Report.TheVariants.{Status};
ghost use Rattle.oathd_asking.specs.Fault.{IsOfReport};
ghost use Rattle.oathd_asking.specs.Report.{IsReportText, page_request};
ghost use Rattle.oathd_asking.specs.Asked.{asked_of};
ghost use Rattle.oathd_asking.specs.Sent.{IsReportOn};
ghost use Rattle.oathd_asking.specs.Table.{table_text};
ghost use Rattle.oathd_asking.specs.Survey as spec;
ghost use Rattle.oathd_asking.specs.Survey.{AreStates, IsOfStates, IsOfSurvey, IsState, IsSurveyed, state_requests};
ghost use Rattle.oathd_asking.specs.declared.fault.AskFault.TheVariants.{CannotWrite, Memory};

use crate::asker::Asker;
use crate::fault::AskFault;
use crate::report::{AskedNode, is_busy, text_from, text_of};
use crate::sent::{Page, Sent};
use crate::table::{Health, health_of, write_table};
use clients_file::OperatorEntry;
use operator_text::{Report, Request, write_request};
use std::alloc::Global;
use std::io::Write;
use std::net::{Net, SocketAddrV4};
use std::time::Clock as TimeSource;

/// Returns a request for the first page of a member's state.
fn request<'k>(operator: &'k OperatorEntry, node: u8, address: SocketAddrV4) -> Sent<'k>
    ensures { asked_of result ≡ record { operator = operator.now; node = node; text = page_request Status 0 } }
{
    let request = Request::Page {
        report: Report::Status,
        from: 0,
    };
    Sent::new(operator, node, address, write_request(&request))
}

/// Returns a request for the state of each member.
fn requests<'k>(
    alloc: Global,
    operator: &'k OperatorEntry,
    members: &[SocketAddrV4],
) -> Result<Vec<Sent<'k>>, AskFault<'static>>
    requires { length members.now ≤ 9 }
    ensures requests { IfOk result (λ all.
        map asked_of all.items ≡ state_requests operator.now 1 (length members.now)) }
    ensures fault { IfErr result (λ fault. fault ≡ Memory) }
{
    let mut all = Vec::new(alloc);
    let mut number = 0;
    for address in members {
        number += 1;
        match all.push(request(operator, number, *address)) {
            Ok(()) => {}
            Err(_) => return Err(AskFault::Memory),
        }
    }
    Ok(all)
}

/// Returns the text of a member's state from its first page. The page is asked for again if the member was busy.
fn told_from<'a, N: Net + TimeSource>(
    alloc: Global,
    asker: &mut Asker<'_, N>,
    node: AskedNode<'_>,
    first: &[u8],
) -> Result<Vec<u8>, AskFault<'a>>
    requires { IsReportOn node.operator.now node.number (page_request Status 0) first.now }
    ensures text { IfOk result (λ text. IsReportText node.entry.operator.now node.entry.number Status text.items) }
    ensures fault { IfErr result (IsOfReport node.entry.address) }
{
    if is_busy(first) {
        return text_of(alloc, asker, node, Report::Status);
    }
    text_from(alloc, asker, node, Report::Status, first)
}

/// Returns the text of a member's state from its first page, or no text if the member doesn't tell it.
fn state_from<'a, N: Net + TimeSource>(
    alloc: Global,
    asker: &mut Asker<'_, N>,
    node: AskedNode<'_>,
    first: Option<&Page>,
) -> Result<Vec<u8>, AskFault<'a>>
    requires { IfSome first (λ first.
        IsReportOn node.operator.now node.number (page_request Status 0) first.now.items) }
    ensures state { IfOk result (λ text. IsState node.entry.operator.now node.entry.number text.items) }
    ensures fault { IfErr result IsOfStates }
{
    let Some(first) = first else {
        return Ok(Vec::new(alloc));
    };
    match told_from(alloc, asker, node, first) {
        Err(
            AskFault::NoAnswer(_)
            | AskFault::NoRight(_)
            | AskFault::NoRequest(_)
            | AskFault::NoReport(_)
            | AskFault::Busy(_),
        ) => Ok(Vec::new(alloc)),
        end => end,
    }
}

/// Asks all members for the first page of their states.
fn asked<'k, N: Net + TimeSource>(
    alloc: Global,
    asker: &mut Asker<'_, N>,
    operator: &'k OperatorEntry,
    members: &[SocketAddrV4],
) -> Result<Vec<Sent<'k>>, AskFault<'static>>
    requires { length members.now ≤ 9 }
    ensures asked { IfOk result (λ all.
        map asked_of all.items ≡ state_requests operator.now 1 (length members.now)) }
    ensures fault { IfErr result IsOfStates }
{
    let mut all = requests(alloc, operator, members)?;
    asker.exchange(&mut all)?;
    Ok(all)
}

/// Returns the text of the state of the member with a number, whose first page was asked for.
fn state_of<'a, N: Net + TimeSource>(
    alloc: Global,
    asker: &mut Asker<'_, N>,
    operator: &OperatorEntry,
    number: u8,
    first: &Sent<'_>,
) -> Result<Vec<u8>, AskFault<'a>>
    requires { asked_of first.now ≡ record { operator = operator.now; node = number; text = page_request Status 0 } }
    ensures state { IfOk result (λ text. IsState operator.now number text.items) }
    ensures fault { IfErr result IsOfStates }
{
    let node = AskedNode {
        address: first.address(),
        number,
        operator,
    };
    state_from(alloc, asker, node, first.page())
}

/// Returns the text of each member's state, or no text for a member that doesn't tell it.
fn states_of<'a, N: Net + TimeSource>(
    alloc: Global,
    asker: &mut Asker<'_, N>,
    operator: &OperatorEntry,
    all: &[Sent<'_>],
) -> Result<Vec<Vec<u8>>, AskFault<'a>>
    requires few { length all.now ≤ 9 }
    requires asked { map asked_of all.now ≡ state_requests operator.now 1 (length all.now) }
    ensures count { IfOk result (λ texts. length texts.items ≡ length all.now) }
    ensures states { IfOk result (λ texts. AreStates operator.now 1 (map (λ text. text.items) texts.items)) }
    ensures fault { IfErr result IsOfStates }
{
    let mut texts = Vec::new(alloc);
    let mut number = 0;
    for first in all {
        number += 1;
        let text = state_of(alloc, asker, operator, number, first)?;
        match texts.push(text) {
            Ok(()) => {}
            Err(_) => return Err(AskFault::Memory),
        }
    }
    Ok(texts)
}

/// Prints a table with a row for each member, and flushes.
///
/// # Errors
/// Returns `CannotWrite` if the output fails.
fn print_table<'a, W: Write>(writer: &mut W, texts: &[Vec<u8>]) -> Result<(), AskFault<'a>>
    ensures printed { OnOk result (Appends (W.contents writer.old) (W.contents writer.new)
        (table_text (map (λ text. text.items) texts.now))) }
    ensures fault { IfErr result (λ fault. fault ≡ CannotWrite) }
{
    if write_table(writer, texts).is_err() || writer.flush().is_err() {
        return Err(AskFault::CannotWrite);
    }
    Ok(())
}

/// Returns the end of a survey by what its table says.
fn end_of<'a>(health: Health) -> Result<(), AskFault<'a>>
    ensures { result ≡ spec.survey_end health }
{
    match health {
        Health::Well => Ok(()),
        Health::Degraded => Err(AskFault::Degraded),
        Health::NoMajority => Err(AskFault::NoMajority),
    }
}

/// Asks all members of a cluster for their state, prints a table, and flushes. A member that doesn't tell its state is
/// silent in the table.
///
/// # Errors
/// - Returns `Degraded` if a member is silent, differs or doesn't hear all others, and `NoMajority` if no majority of
///   the members tells its state. The table has been printed.
/// - Returns `NoClock`, `Socket` or `Memory` if one of them fails.
/// - Returns `CannotWrite` if the output fails.
pub fn survey<'a, N: Net + TimeSource, W: Write>(
    alloc: Global,
    asker: &mut Asker<'_, N>,
    operator: &OperatorEntry,
    members: &[SocketAddrV4],
    writer: &mut W,
) -> Result<(), AskFault<'a>>
    requires { length members.now ≤ 9 }
    ensures { IsSurveyed operator.now (length members.now) result (W.contents writer.old) (W.contents writer.new)
        ⊎ IsErrAnd result IsOfSurvey }
{
    let all = asked(alloc, asker, operator, members)?;
    let texts = states_of(alloc, asker, operator, &all)?;
    print_table(writer, &texts)?;
    end_of(health_of(&texts))
}
