//! What the members told last of the floors of a node's rows.

ghost use Rattle.std.specs.Prelude.{◌≡◌, ◌*◌, ◌≤◌, ◌<◌, [], if◌then◌else◌, length, IfOk, IfSome};
ghost use Rattle.floor_port.specs.Claims as spec;
ghost use Rattle.floor_port.specs.Rows.{rows_of};

use crate::floor::NamedFloor;
use gatekeeping::PLACES;
use named_port::Names;
use std::alloc::{AllocError, Global};
use std::marker::Model;

/// The maximum number of members.
const MAX_MEMBERS: usize = 9;

/// The boot and the floor that a member told last of a row. Both are 0 if it told none.
#[derive(Clone, Copy, Debug, PartialEq, Eq)]
pub(crate) struct Claim {
    boot: u64,
    next: u64,
}

/// The claims of the members: the greatest boot of each, the members whose floors fell, and for each row what each
/// member told last.
#[derive(Drop)]
pub(crate) struct Claims {
    boots: [u64; PLACES],
    fallen: [bool; PLACES],
    kept: Vec<Claim>,
}

impl Model for Claims {
    ghost use Rattle.floor_port.specs.Claims.{ClaimsRecord};

    ghost Value = { ClaimsRecord };

    ghost view = { λ claims. record { boots = claims.boots; fallen = claims.fallen; kept = claims.kept.items } };
}

/// Returns the claims of members that told nothing, over the given number of rows.
fn no_claims(alloc: Global, rows: usize) -> Result<Vec<Claim>, AllocError>
    requires { rows ≤ 10000 }
    ensures { IfOk result (λ kept. kept.items ≡ (spec.new_claims [] rows).kept) }
{
    let mut kept = Vec::with_capacity(alloc, MAX_MEMBERS * rows)?;
    for _ in 0..MAX_MEMBERS * rows {
        kept.push(Claim { boot: 0, next: 0 })?;
    }
    Ok(kept)
}

/// Returns the place of what a member told of a row.
fn place_of(row: u32, member: u8) -> usize
    requires { 1 ≤ member }
    ensures { result ≡ spec.place_of row member }
{
    MAX_MEMBERS * row as usize + usize::from(member - 1)
}

/// Keeps a floor that a member tells of a row in a boot, if there is the row. Returns true, and keeps nothing, if the
/// member falls by it.
fn keep(kept: &mut [Claim], member: u8, boot: u64, row: Option<u32>, next: u64) -> bool
    requires member { 1 ≤ member }
    requires within { IfSome row (λ row. spec.place_of row member < length kept.old) }
    ensures fall { result ≡ spec.is_fall kept.old member boot row next }
    ensures kept { kept.new ≡ (if result then kept.old else spec.kept_with kept.old member boot row next) }
{
    let Some(row) = row else {
        return false;
    };
    let place = place_of(row, member);
    let claim = kept[place];
    if claim.boot < boot && next < claim.next {
        return true;
    }
    kept[place] = Claim {
        boot,
        next: next.max(claim.next),
    };
    false
}

/// Keeps the floors that a member tells in a boot, up to the first by which it falls. Returns that one, or None. The
/// names are for the clauses: the rows of the floors are given.
fn keep_all(
    kept: &mut [Claim],
    member: u8,
    boot: u64,
    _names: &Names,
    floors: &[NamedFloor],
    rows: &[Option<u32>],
) -> Option<NamedFloor>
    requires member { (1 ≤ member) × (member ≤ 9) }
    requires each { length kept.old ≡ 9 * length _names.now }
    requires rows { rows.now ≡ rows_of _names.now floors.now }
    ensures fall { result ≡ spec.first_fall _names.now member boot kept.old floors.now }
    ensures kept { kept.new ≡ spec.kept_after _names.now member boot kept.old floors.now }
{
    for place in 0..floors.len() {
        let floor = floors[place];
        if keep(kept, member, boot, rows[place], floor.next) {
            return Some(floor);
        }
    }
    None
}

impl Claims {
    /// Returns the claims of members that told nothing, of whom some are known to have gone back, over the given number
    /// of rows.
    pub(crate) fn new(
        alloc: Global,
        gone_back: [bool; PLACES],
        rows: usize,
    ) -> Result<Self, AllocError>
        requires { rows ≤ 10000 }
        ensures { IfOk result (λ claims. claims ≡ spec.new_claims gone_back rows) }
    {
        Ok(Claims {
            boots: [0; PLACES],
            fallen: gone_back,
            kept: no_claims(alloc, rows)?,
        })
    }

    /// Returns the members of whom a floor fell, or that are known to have gone back, from member 0 to 9.
    pub(crate) fn fallen(&self) -> [bool; PLACES]
        ensures { result ≡ self.now.fallen }
    {
        self.fallen
    }

    /// Returns whether a floor of the member fell, or it is known to have gone back.
    pub(crate) fn is_fallen(&self, member: u8) -> bool
        ensures { result ≡ spec.is_fallen self.now member }
    {
        self.fallen
            .get(usize::from(member))
            .copied()
            .unwrap_or(false)
    }

    /// Takes the floors that a member tells in a boot, of the given rows. Returns the one by which it falls, or None.
    pub(crate) fn take(
        &mut self,
        member: u8,
        boot: u64,
        names: &Names,
        floors: &[NamedFloor],
        rows: &[Option<u32>],
    ) -> Option<NamedFloor>
        requires member { (1 ≤ member) × (member ≤ 9) }
        requires each { length self.old.kept ≡ 9 * length names.now }
        requires rows { rows.now ≡ rows_of names.now floors.now }
        ensures fall { result ≡ spec.falls self.old names.now member boot floors.now }
        ensures after { self.new ≡ spec.claims_after self.old names.now member boot floors.now }
    {
        let place = usize::from(member);
        if boot < self.boots[place] {
            return None;
        }
        self.boots[place] = boot;
        let fall = keep_all(self.kept.as_mut_slice(), member, boot, names, floors, rows);
        if fall.is_some() {
            self.fallen[place] = true;
        }
        fall
    }
}
