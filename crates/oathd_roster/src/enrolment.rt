//! The floors at which new tokens are enrolled.
//!
//! Floor: the first free factor of a token at a node.

ghost use Rattle.std.specs.Prelude.{◌≡◌, ◌+◌, ◌≤◌, ◌<◌, ◌∷◌, [], ℕ, List, Some, length, slice_get, true, false, IfOk};
ghost use Rattle.otp_core.specs.Limits.{Limits, default_limits};
ghost use Rattle.otp_core.specs.Range.{IsMoment};
ghost use Rattle.otp_core.specs.Totp.{step_of};
ghost use Rattle.token_file.specs.Credential.{Credential, period_of};
ghost use Rattle.token_file.specs.Examples.{event_token, time_token};
ghost use Rattle.token_file.specs.declared.token.Kind.TheVariants.{Time30, Time60};
ghost use Rattle.oathd_roster.specs.Enrolment.{enrolment_floors as spec_enrolment_floors, fresh_floor as spec_fresh_floor, fresh_floors as spec_fresh_floors};
ghost use Rattle.oathd_roster.specs.declared.cluster.NamedCluster.{NamedCluster as AnyCluster};

use crate::cluster::NamedCluster;
use oathd_database::{Users, drifted_floors};
use otp_core::{Next, Settings};
use std::alloc::{AllocError, Global};
use token_file::{Book, Kind, Token, TokenId};

/// Returns the token with the number `token`.
fn token_at(book: &Book, token: u32) -> &Token
    requires within { token < length book.now }
    requires few { length book.now ≤ 10000 }
    ensures { slice_get book.now token ≡ Some result.now }
{
    book.token(TokenId::new(token).unwrap())
}

/// Returns the floor at `place`.
fn floor_at(floors: &[Next], place: usize) -> Next
    requires { place < length floors.now }
    ensures { slice_get floors.now place ≡ Some result }
{
    floors[place]
}

/// Returns the floor of a token whose secret is new, at the given moment. `counter` is the floor of an event token.
fn fresh_floor(settings: Settings, moment: u64, kind: Kind, counter: Next) -> Next
    requires { IsMoment moment }
    ensures { result ≡ spec_fresh_floor settings moment (period_of kind) counter }
{
    match kind.period() {
        Some(period) => Next::new((moment / period).saturating_sub(settings.skew())).unwrap(),
        None => counter,
    }
}

/// Returns the floors of tokens whose secrets are new, at the given moment.
fn fresh_floors(
    alloc: Global,
    users: &Users,
    settings: Settings,
    moment: u64,
) -> Result<Vec<Next>, AllocError>
    requires { IsMoment moment }
    ensures floors { IfOk result (λ floors. floors.items
        ≡ spec_fresh_floors settings moment users.now.book users.now.floors.items) }
    ensures each { IfOk result (λ floors. length floors.items ≡ length users.now.book) }
{
    let mut floors = Vec::with_capacity(alloc, users.floors.len())?;
    for number in 0..users.book.len() {
        let kind = token_at(&users.book, number as u32).kind();
        let counter = floor_at(&users.floors, number);
        let floor = fresh_floor(settings, moment, kind, counter);
        floors.push(floor)?;
    }
    Ok(floors)
}

/// Returns the floors at which a start at the given moment enrols new tokens of the cluster.
///
/// They are the floors of the import, later by the drift for time tokens. If the cluster file says that the secrets of
/// new tokens are new, a time token begins at its step of the moment, less the skew.
///
/// # Errors
/// Fails only if the allocator refuses the memory.
pub(crate) fn enrolment_floors(
    alloc: Global,
    cluster: &NamedCluster,
    users: &Users,
    settings: Settings,
    moment: u64,
) -> Result<Vec<Next>, AllocError>
    requires { IsMoment moment }
    ensures floors { IfOk result (λ floors. floors.items
        ≡ spec_enrolment_floors cluster.now settings moment users.now.book users.now.floors.items) }
    ensures each { IfOk result (λ floors. length floors.items ≡ length users.now.book) }
{
    if cluster.is_fresh {
        fresh_floors(alloc, users, settings, moment)
    } else {
        drifted_floors(alloc, users, settings.drift())
    }
}

/// Readiness: from the moment of its enrolment on, the current step of a time token whose secret is new is at or above
/// its floor.
pub fn fresh_tokens_are_ready()
    ensures { (limits : Limits) (moment step counter now : ℕ) → 1 ≤ step → moment ≤ now
        → spec_fresh_floor limits moment (Some step) counter ≤ step_of now 0 step }
{}

/// Worked cases: an enrolment at second 3,000,000 with the default settings, and with a greater drift.
pub fn enrolments_are_worked()
    ensures time { spec_fresh_floor default_limits 3000000 (Some 30) 0 ≡ 99999 }
    ensures long_steps { spec_fresh_floor default_limits 3000000 (Some 60) 0 ≡ 49999 }
    ensures skew { spec_fresh_floor (record default_limits { skew = 3 }) 3000000 (Some 30) 0 ≡ 99997 }
    ensures first_step { spec_fresh_floor default_limits 29 (Some 30) 0 ≡ 0 }
    ensures event { spec_fresh_floor default_limits 3000000 (period_of (event_token []).kind) 7 ≡ 7 }
    ensures each { spec_fresh_floors default_limits 3000000 (event_token [] ∷ time_token Time60 ∷ []) (7 ∷ 50002 ∷ [])
        ≡ 7 ∷ 49999 ∷ [] }
    ensures fresh { (cluster : AnyCluster) → spec_enrolment_floors (record cluster { is_fresh = true })
        (record default_limits { drift = 2 }) 3000000 (time_token Time30 ∷ time_token Time60 ∷ []) (100002 ∷ 50002 ∷ [])
        ≡ 99999 ∷ 49999 ∷ [] }
    ensures imported { (cluster : AnyCluster) → spec_enrolment_floors (record cluster { is_fresh = false })
        (record default_limits { drift = 2 }) 3000000 (time_token Time30 ∷ time_token Time60 ∷ []) (100002 ∷ 50002 ∷ [])
        ≡ 100004 ∷ 50004 ∷ [] }
{}
