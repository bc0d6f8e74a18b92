ghost use Rattle.std.specs.Prelude.{◌≡◌, ◌<◌, ◌≤◌, ◌-◌, ℕ, None, false, length};
ghost use Rattle.floor_store.specs.Held.{Reads};
ghost use Rattle.otp_core.specs.Range.{IsMoment};
ghost use Rattle.vote_core.specs.Rows.{row as row_in};
ghost use Rattle.client_lines.specs.Codes.{submission_of};
ghost use Rattle.oath_node.specs.Recording.{IfProposes, IsRecordable, standing_in};
ghost use Rattle.oath_node.specs.Rules as spec;

use crate::ruling::Ruling;
use admit_core::{
    drift_after, find_check, find_resync, least_fit_is_least, password_fits, resync_window, window,
};
use client_lines::{Codes, Line, Reason};
use floor_store::{FloorStore, Row, Span, StoreFault};
use otp_core::{Drift, FACTORS_END, MOMENTS_END, Next, Settings};
use token_file::{Book, Token, TokenId};

/// Rules on a line for an open token: its password, its remaining factors and its window.
fn open_ruling(
    token: &Token,
    id: TokenId,
    next: Next,
    drift: Drift,
    settings: Settings,
    moment: u64,
    request: Line<'_>,
) -> Ruling
    requires { IsMoment moment }
    ensures value { result ≡ spec.open_ruling settings next drift moment request.entry id token.now }
    ensures recordable { (tokens : ℕ) → id < tokens → IsRecordable tokens moment result }
{
    if !password_fits(token, request.password()) {
        return Ruling::Wrong(request.to_nonce(), Reason::Password, id);
    }
    if next.value() == FACTORS_END {
        return Ruling::Denied(request.to_nonce(), Reason::Exhausted);
    }
    let fit = find_fit(token, next, drift, settings, moment, request.codes());
    fit_ruling(token, id, fit, settings, moment, request)
}

/// Proposes the span in `fit`, with the drift by `moment`. Rules a failure if there is none.
fn fit_ruling(
    token: &Token,
    id: TokenId,
    fit: Option<Span>,
    settings: Settings,
    moment: u64,
    request: Line<'_>,
) -> Ruling
    requires { IsMoment moment }
    ensures value { result ≡ spec.fit_ruling token.now.kind settings moment request.entry id fit }
    ensures recordable { (tokens : ℕ) → id < tokens → IsRecordable tokens moment result }
{
    match fit {
        Some(span) => Ruling::Fitting {
            nonce: request.to_nonce(),
            token: id,
            span,
            drift: drift_after(token, span.hi(), moment, &settings),
        },
        None => Ruling::Wrong(request.to_nonce(), Reason::Invalid, id),
    }
}

/// Returns the span of the smallest factors in the window that fit `codes`, or None.
fn find_fit(
    token: &Token,
    next: Next,
    drift: Drift,
    settings: Settings,
    moment: u64,
    codes: &Codes,
) -> Option<Span>
    requires { IsMoment moment }
    ensures { result ≡ spec.fitting_span token.now settings next drift moment (submission_of codes.now) }
{
    least_fit_is_least();
    match codes {
        Codes::One(code) => {
            let window = window(token, next, drift, moment, &settings)?;
            let factor = find_check(token, window, code)?;
            Some(Span::one(factor))
        }
        Codes::Two(first, second) => {
            let window = resync_window(token, next, drift, moment, &settings)?;
            let factor = find_resync(token, window, first, second)?;
            Some(Span::two(factor))
        }
    }
}

/// Returns the row of `token`.
pub(crate) fn row_of<S: FloorStore>(store: &S, token: u32) -> Result<Row, StoreFault>
    requires { token < length (S.held store.now).content.rows }
    ensures { Reads (S.held store.now) (λ content row. row ≡ row_in content token) result }
{
    store.row(token)
}

/// Refuses the line if the gate in `row` is closed. Otherwise rules on it for an open token.
fn token_ruling(
    token: &Token,
    id: TokenId,
    row: Row,
    settings: Settings,
    moment: u64,
    request: Line<'_>,
) -> Ruling
    requires { IsMoment moment }
    ensures value { result
        ≡ spec.token_ruling settings row.next row.drift (row.gate.until - moment) moment request.entry id token.now }
    ensures recordable { (tokens : ℕ) → id < tokens → IsRecordable tokens moment result }
    ensures free { IfProposes result (λ token span. (token ≡ id) × (row.next ≤ span.lo)) }
{
    least_fit_is_least();
    let wait = row.gate().wait(moment);
    if wait > 0 {
        return Ruling::Denied(request.to_nonce(), Reason::Throttled(wait));
    }
    open_ruling(
        token,
        id,
        row.next(),
        row.drift(),
        settings,
        moment,
        request,
    )
}

/// Rules on a request that has no kept answer and doesn't wait. Examines, in this order, the moment, the room, the
/// user, and the row of the token in `store`.
pub(crate) fn examine<S: FloorStore>(
    book: &Book,
    settings: Settings,
    store: &S,
    is_full: bool,
    moment: u64,
    request: Line<'_>,
) -> Ruling
    requires works { (S.held store.now).fault ≡ None }
    requires rows { length (S.held store.now).content.rows ≡ length book.now }
    ensures value { (S.held store.now).is_clean → result ≡ spec.request_ruling book.now settings
        (standing_in (S.held store.now).content is_full moment) moment request.entry }
    ensures recordable { IsRecordable (length book.now) moment result }
    ensures free { (S.held store.now).is_clean → IfProposes result
        (λ token span. (row_in (S.held store.now).content token).next ≤ span.lo) }
    ensures room { IfProposes result (λ token span. is_full ≡ false) }
{
    if moment >= MOMENTS_END {
        return Ruling::Denied(request.to_nonce(), Reason::Clock);
    }
    if is_full {
        return Ruling::Denied(request.to_nonce(), Reason::Busy);
    }
    let Some(id) = book.find(request.user()) else {
        return Ruling::Denied(request.to_nonce(), Reason::Unknown);
    };
    match row_of(store, id.value()) {
        Ok(row) => token_ruling(book.token(id), id, row, settings, moment, request),
        Err(_) => unreachable!(),
    }
}
