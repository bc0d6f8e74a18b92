ghost use Rattle.std.specs.Prelude.{◌≡◌, ◌≤◌, ◌<◌, Some, length, slice_get, IfErr, IfOk, IfSome};
ghost use Rattle.otp_core.specs.Range.{IsMoment};
ghost use Rattle.token_file.specs.Credential.{period_of};
ghost use Rattle.oathd_database.specs.Users.{IsImported, IsUnread, drifted_floor, drifted_floors};

use crate::fault::Fault;
use otp_core::{FACTORS_END, Next, Settings};
use std::alloc::{AllocError, Global};
use std::io::Read;
use token_file::{Book, FromRead, Kind, Token, TokenId, read_book};

/// The tokens of a users file, at most 10,000, and the floors of their import (floor: the first free factor).
#[derive(Drop)]
pub struct Users {
    pub book: Book,
    pub floors: Vec<Next>,
    ghost each: { length floors.items ≡ length book },
    ghost few: { length book ≤ 10000 },
}

/// Reads a users file to its end, and imports its tokens at the given moment.
///
/// The moment is in seconds since 1970-01-01 00:00:00 UTC, 0 to 1099511627775.
///
/// # Errors
/// - Returns `Users` with a line and its fault if the file has a fault or cannot be read.
/// - Returns `Memory` if the allocator refuses the memory.
pub fn read_users<R: Read + Drop>(
    alloc: Global,
    reader: R,
    settings: Settings,
    moment: u64,
) -> Result<Users, Fault>
    requires { IsMoment moment }
    ensures imported { IfOk result (λ users. IfSome (R.remaining reader)
        (IsImported settings moment 16777216 users.book users.floors.items)) }
    ensures fault { IfErr result (λ fault. IfSome (R.remaining reader) (IsUnread settings moment 16777216 fault)) }
{
    let mut source = FromRead::new(reader);
    let (book, floors) = read_book(alloc, &mut source, settings, moment)?;
    // At most 10,000.
    let _tokens = book.len();
    Ok(Users { book, floors })
}

/// Returns the token with the number `token`.
pub(crate) fn token_at(book: &Book, token: u32) -> &Token
    requires within { token < length book.now }
    requires few { length book.now ≤ 10000 }
    ensures { slice_get book.now token ≡ Some result.now }
{
    book.token(TokenId::new(token).unwrap())
}

/// Returns the floor of an imported token whose clock may have drifted by `drift` time steps.
fn drifted_floor(drift: u64, kind: Kind, floor: Next) -> Next
    requires { drift ≤ 10 }
    ensures { result ≡ drifted_floor drift (period_of kind) floor }
{
    match kind.period() {
        Some(_) => Next::new((floor.value() + drift).min(FACTORS_END)).unwrap(),
        None => floor,
    }
}

/// Returns the floor at `place`.
fn floor_at(floors: &[Next], place: usize) -> Next
    requires { place < length floors.now }
    ensures { slice_get floors.now place ≡ Some result }
{
    floors[place]
}

/// Returns the floors of an import whose clocks may have drifted by `drift` time steps, up to 10.
///
/// The floor of a time token is later by the drift.
///
/// # Errors
/// Fails only if the allocator refuses the memory.
pub fn drifted_floors(alloc: Global, users: &Users, drift: u64) -> Result<Vec<Next>, AllocError>
    requires { drift ≤ 10 }
    ensures floors { IfOk result (λ floors. floors.items
        ≡ drifted_floors drift users.now.book users.now.floors.items) }
    ensures each { IfOk result (λ floors. length floors.items ≡ length users.now.book) }
{
    let mut floors = Vec::with_capacity(alloc, users.floors.len())?;
    for number in 0..users.book.len() {
        let kind = token_at(&users.book, number as u32).kind();
        let floor = drifted_floor(drift, kind, floor_at(&users.floors, number));
        floors.push(floor)?;
    }
    Ok(floors)
}
