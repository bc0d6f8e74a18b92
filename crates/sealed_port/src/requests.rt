//! The requests that a gate sets aside, and the reports on them that it seals.

ghost use Rattle.std.specs.Option.{option_map};
ghost use Rattle.std.specs.Prelude.{◌≡◌, ◌<◌, ◌≤◌, map, length, IfOk, IfSome};
ghost use Rattle.sealed_wire.specs.Sealed.{head_of};
ghost use Rattle.sealed_port.specs.Aside.{oldest};
ghost use Rattle.sealed_port.specs.Requests.{asks, gate_aside, gate_taken, is_request, operator_named, operator_of, operator_with, reported, request_cause, request_ruling, requested};

use crate::aside::SetAside;
use crate::cause::Cause;
use crate::gate::{Gate, tag_at};
use crate::operator::Operator;
use arrayvec::ArrayVec;
use sealed_wire::{Head, Kind, MAX_REPORT_LEN, MAX_REPORT_TEXT_LEN, head_of, open, seal_report};

/// A datagram with a sealed report, and its address.
#[derive(Drop)]
pub(crate) struct SealedReport {
    pub(crate) address: u64,
    pub(crate) bytes: ArrayVec<u8, MAX_REPORT_LEN>,
}

/// Returns whether a datagram is an operator's request.
fn is_request(kind: Kind) -> bool
    ensures { result ≡ is_request kind }
{
    match kind {
        Kind::Request => true,
        Kind::Line | Kind::Answer | Kind::Report => false,
    }
}

/// Returns whether a datagram is in the format of a request, whatever its tag.
pub(crate) fn asks(bytes: &[u8]) -> bool
    ensures { result ≡ asks bytes.now }
{
    match head_of(bytes) {
        Some(head) => is_request(head.kind),
        None => false,
    }
}

/// Returns the operator with the number `number`, or None.
fn named(operators: &[Operator], number: u16) -> Option<&Operator>
    ensures { option_map (λ operator. operator.now) result ≡ operator_named number operators.now }
{
    operators.iter().find(|operator| operator.is_named(number))
}

/// Adds a moment to the window of the operator with the number `number`.
fn see(operators: &mut [Operator], number: u16, moment: u64)
    ensures { operators.new ≡ map (operator_with number moment) operators.old }
{
    for operator in operators.iter_mut() {
        operator.see(number, moment);
    }
}

impl Gate {
    /// Returns the operator whose key the tag of a datagram must be under, or None.
    ///
    /// None says that the datagram is no request for the node from an operator that the gate knows.
    fn operator_of(&self, bytes: &[u8]) -> Option<&Operator>
        ensures operator { option_map (λ operator. operator.now) result
            ≡ operator_of self.now (head_of bytes.now) }
        ensures len { IfSome result (λ operator. 47 ≤ length bytes.now) }
    {
        let head = head_of(bytes)?;
        if !is_request(head.kind) || head.node != self.node {
            return None;
        }
        named(&self.operators, head.client)
    }

    /// Returns the request in a datagram from an address, if the gate opens it at the second `now` of the clock.
    ///
    /// # Errors
    ///
    /// - Returns `Form` if the datagram is no request for the node from an operator that the gate knows.
    /// - Returns `Tag` if the tag is wrong.
    /// - Returns `Early`, `Late` or `Again` if the operator's window doesn't admit the moment, or the clock fails.
    /// - Returns `Again` if 8 requests wait to be taken.
    fn request_in(&self, now: Option<u64>, address: u64, bytes: &[u8]) -> Result<SetAside, Cause>
        ensures ruling { result ≡ request_ruling self.now now address bytes.now }
        ensures room { IfOk result (λ _. length self.now.aside < 8) }
    {
        let Some(operator) = self.operator_of(bytes) else {
            return Err(Cause::Form);
        };
        let Some((head, text)) = open(&operator.holder.key, &[], bytes) else {
            return Err(Cause::Tag);
        };
        let Some(now) = now else {
            return Err(Cause::Early);
        };
        if !operator.holder.admits(now, head.moment) || !self.aside.has_room() {
            return Err(operator.holder.cause_at(now, head.moment));
        }
        Ok(SetAside::new(operator.right, address, tag_at(bytes), head, text))
    }

    /// Sets aside the request in a datagram from an address, at the second `now` of the clock, which is None if the
    /// clock fails. Returns the cause if the gate doesn't open it. The gate then stays as it is.
    pub(crate) fn set_aside(
        &mut self,
        now: Option<u64>,
        address: u64,
        bytes: &[u8],
    ) -> Option<Cause>
        ensures cause { result ≡ request_cause self.old now address bytes.now }
        ensures gate { self.new ≡ gate_aside self.old (requested self.old now address bytes.now) }
    {
        match self.request_in(now, address, bytes) {
            Ok(request) => {
                see(&mut self.operators, request.number, request.moment);
                self.aside.push(request);
                None
            }
            Err(cause) => Some(cause),
        }
    }

    /// Removes and returns the oldest request that was set aside, or returns None if there is none.
    pub(crate) fn take_request(&mut self) -> Option<SetAside>
        ensures request { result ≡ oldest self.old.aside }
        ensures gate { self.new ≡ gate_taken self.old }
    {
        self.aside.take()
    }

    /// Seals a page as the report on a request.
    ///
    /// Returns None if the page has more than 1,024 bytes, or if the gate knows no operator with the request's number.
    pub(crate) fn report(&self, request: &SetAside, page: &[u8]) -> Option<SealedReport>
        ensures { option_map (λ sealed. record { address = sealed.address; bytes = sealed.bytes.items }) result
            ≡ reported self.now request.now page.now }
    {
        if page.len() > MAX_REPORT_TEXT_LEN {
            return None;
        }
        let operator = named(&self.operators, request.number)?;
        let head = Head {
            kind: Kind::Request,
            client: request.number,
            node: self.node,
            moment: request.moment,
        };
        Some(SealedReport {
            address: request.address,
            bytes: seal_report(&operator.holder.key, &request.tag, head, page),
        })
    }
}
