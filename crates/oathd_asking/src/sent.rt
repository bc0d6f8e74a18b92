//! A request on its way to a node.

ghost use Rattle.std.specs.Prelude.{◌≡◌, ◌<◌, All, IfNone, IfSome, None, Some, is_some, length, true};
ghost use Rattle.std.proofs.Props.{props};
ghost use Rattle.operator_text.specs.Pages.{next_in};
ghost use Rattle.operator_text.specs.Reading.{page_at};
ghost use Rattle.operator_text.specs.Request.{request_at};
ghost use Rattle.sealed_wire.specs.Sealed.{tag_at};
ghost use Rattle.oathd_asking.specs.Sent as spec;
ghost use Rattle.oathd_asking.specs.Sent.{IsBoundTo, IsOfKeptText, IsReportOn, IsTagOf, request_bytes};

use arrayvec::ArrayVec;
use clients_file::OperatorEntry;
use operator_text::{MAX_PAGE_LEN, MAX_REQUEST_LEN, Request, read_page, read_request};
use sealed_wire::{Head, Kind, MAX_SEALED_LEN, TAG_LEN, open_report, seal};
use std::mem;
use std::net::SocketAddrV4;

/// The maximum number of times that a request is sent.
pub const MAX_SENDINGS: usize = 3;

/// The maximum number of sendings before the last one.
const MAX_EARLIER: usize = MAX_SENDINGS - 1;

/// The text of a report.
pub type Page = ArrayVec<u8, MAX_PAGE_LEN>;

/// Returns the tag of a sealed datagram, or None if the datagram is too short.
fn tag_of(bytes: &[u8]) -> Option<[u8; TAG_LEN]>
    ensures some { IfSome result (λ tag. tag ≡ tag_at bytes.now) }
    ensures none { IfNone result (length bytes.now < 32) }
{
    let (_, last) = bytes.split_at_checked(bytes.len().checked_sub(TAG_LEN)?)?;
    last.try_into().ok()
}

/// Returns the text of the report in a datagram, if it is bound to a tag.
fn page_bound(operator: &OperatorEntry, tag: &[u8; TAG_LEN], bytes: &[u8]) -> Option<Page>
    ensures { IfSome result (λ page. IsBoundTo operator.now tag.now page.items) }
{
    let (_, text) = open_report(&operator.key, tag, bytes)?;
    Some(ArrayVec::try_from(text).unwrap())
}

/// Returns whether a request is for the lines of a report from the first one on.
fn asks_first(text: &[u8]) -> bool
    ensures { result ≡ spec.asks_first (request_at text.now) }
{
    match read_request(text) {
        Some(Request::Page { from, .. }) => from == 0,
        Some(Request::Unlock(_) | Request::Drain) | None => false,
    }
}

/// Returns whether a page says that other pages follow.
fn has_next(page: &[u8]) -> bool
    ensures { result ≡ is_some (next_in (page_at page.now)) }
{
    match read_page(page) {
        Some((_, next)) => next.is_some(),
        None => false,
    }
}

/// Returns whether the page on a request begins a report, and says that other pages follow.
fn begins_more(text: &[u8], page: &[u8]) -> bool
    ensures { result ≡ spec.begins_more text.now page.now }
{
    asks_first(text) && has_next(page)
}

/// An operator's request to a node, and the report on it when it came. It has no socket: whoever has one sends each
/// datagram of [`Sent::seal`], and gives the received datagrams to [`Sent::take`].
#[derive(Drop)]
pub struct Sent<'k> {
    operator: &'k OperatorEntry,
    node: u8,
    address: SocketAddrV4,
    text: ArrayVec<u8, MAX_REQUEST_LEN>,
    /// The tag of the last sending.
    last: Option<[u8; TAG_LEN]>,
    /// The tags of the sendings before it.
    earlier: ArrayVec<[u8; TAG_LEN], MAX_EARLIER>,
    page: Option<Page>,
    ghost is_sealed: { IfSome last (IsTagOf operator.now node text.items) } by { Prim.hlevel props },
    ghost are_sealed: { All (IsTagOf operator.now node text.items) earlier.items },
    ghost is_report: { IfSome page (λ page.
        IsReportOn operator.now node text.items page.items) } by { Prim.hlevel props },
    ghost is_of_kept_text: { IfSome page (λ page.
        IsOfKeptText operator.now text.items last page.items) } by { Prim.hlevel props },
}

impl<'k> Sent<'k> {
    /// Returns a request that was not sent yet.
    pub fn new(
        operator: &'k OperatorEntry,
        node: u8,
        address: SocketAddrV4,
        text: ArrayVec<u8, MAX_REQUEST_LEN>,
    ) -> Self
        ensures { (result.operator ≡ operator.entry) × (result.node ≡ node) × (result.text ≡ text) }
    {
        Sent {
            operator,
            node,
            address,
            text,
            last: None,
            earlier: ArrayVec::new(),
            page: None,
        }
    }

    /// Returns the address of the node.
    pub fn address(&self) -> SocketAddrV4
        ensures { result ≡ self.now.address }
    {
        self.address
    }

    /// Returns whether the report came.
    pub fn is_answered(&self) -> bool
        ensures { result ≡ is_some self.now.page }
    {
        self.page.is_some()
    }

    /// Returns the datagram of the request, sealed at a moment in microseconds, and notes its tag. The request has no
    /// report then. After [`MAX_SENDINGS`] a report on a sending between the first two and the last one doesn't count.
    pub fn seal(&mut self, moment: u64) -> ArrayVec<u8, MAX_SEALED_LEN>
        ensures bytes { result.items
            ≡ request_bytes self.old.operator.now self.old.node self.old.text.items moment }
        ensures same { (self.new.operator ≡ self.old.operator) × (self.new.node ≡ self.old.node)
            × (self.new.text ≡ self.old.text) }
        ensures last { self.new.last ≡ Some (tag_at result.items) }
        ensures page { self.new.page ≡ None }
    {
        let head = Head {
            kind: Kind::Request,
            client: self.operator.number,
            node: self.node,
            moment,
        };
        let bytes = seal(&self.operator.key, &[], head, &self.text);
        self.page = None;
        if let Some(tag) = mem::replace(&mut self.last, tag_of(&bytes)) {
            let _full = self.earlier.try_push(tag);
        }
        bytes
    }

    /// Returns the report in a datagram, if it is bound to a sending before the last one. A first page that others follow
    /// doesn't count there.
    fn report_on_earlier(&self, bytes: &[u8]) -> Option<Page>
        ensures report { IfSome result (λ page.
            IsReportOn self.now.operator.now self.now.node self.now.text.items page.items) }
        ensures kept { IfSome result (λ page.
            IsOfKeptText self.now.operator.now self.now.text.items self.now.last page.items) }
    {
        for tag in self.earlier.as_slice() {
            if let Some(page) = page_bound(self.operator, tag, bytes)
                && !begins_more(&self.text, &page)
            {
                return Some(page);
            }
        }
        None
    }

    /// Returns the report in a datagram, if it is bound to a sending of the request.
    ///
    /// A node makes the text of a report again for each sending of a request for its first page, and keeps one text. So
    /// a first page that others follow counts on the last sending alone. Otherwise the pages may be of two texts.
    fn report_in(&self, bytes: &[u8]) -> Option<Page>
        ensures report { IfSome result (λ page.
            IsReportOn self.now.operator.now self.now.node self.now.text.items page.items) }
        ensures kept { IfSome result (λ page.
            IsOfKeptText self.now.operator.now self.now.text.items self.now.last page.items) }
    {
        match page_bound(self.operator, self.last.as_ref()?, bytes) {
            Some(page) => Some(page),
            None => self.report_on_earlier(bytes),
        }
    }

    /// Takes a datagram, if it is the report on the request and none came before it.
    pub fn take(&mut self, bytes: &[u8])
        ensures same { (self.new.operator ≡ self.old.operator) × (self.new.node ≡ self.old.node)
            × (self.new.text ≡ self.old.text) }
        ensures last { self.new.last ≡ self.old.last }
        ensures first { is_some self.old.page ≡ true → self.new.page ≡ self.old.page }
    {
        if self.page.is_none() {
            self.page = self.report_in(bytes);
        }
    }

    /// Returns the report, if it came. A first page that others follow is on the last sending.
    pub fn page(&self) -> Option<&Page>
        ensures report { IfSome result (λ page.
            IsReportOn self.now.operator.now self.now.node self.now.text.items page.now.items) }
        ensures kept { IfSome result (λ page.
            IsOfKeptText self.now.operator.now self.now.text.items self.now.last page.now.items) }
    {
        self.page.as_ref()
    }
}
