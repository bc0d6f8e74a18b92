//! The bodies of datagrams that tell floors.

ghost use Rattle.std.specs.Option.{option_map};
ghost use Rattle.std.specs.Prelude.{◌≡◌, ◌+◌, ◌*◌, ◌≤◌, ◌++◌, ◌∷◌, [], length, take, drop, IfSome};
ghost use Rattle.arrayvec.specs.ArrayVec.{array_vec_len};
ghost use Rattle.named_wire.specs.Bytes.{number_at};
ghost use Rattle.floor_port.specs.Floors as spec;

use crate::floor::NamedFloor;
use arrayvec::ArrayVec;
use named_wire::{Kind, MAX_BODY_LEN};
use otp_core::Next;
use token_names::{NAME_LEN, Name};

/// The maximum number of floors of a datagram.
pub const MAX_FLOORS: usize = 20;

/// The length of a floor with its name, in bytes.
const FLOOR_LEN: usize = NAME_LEN + 8;

/// Returns the number of the eight bytes from `place` on.
pub(crate) fn number_at(bytes: &[u8], place: usize) -> u64
    requires { place + 8 ≤ length bytes.now }
    ensures { result ≡ number_at bytes.now place }
{
    let field = &bytes[place..];
    u64::from_be_bytes([
        field[0], field[1], field[2], field[3], field[4], field[5], field[6], field[7],
    ])
}

/// Returns the name at the beginning of the bytes.
pub(crate) fn name_at(bytes: &[u8]) -> Name
    requires { 16 ≤ length bytes.now }
    ensures { result ≡ take 16 bytes.now }
{
    let mut name = [0; NAME_LEN];
    name.copy_from_slice(&bytes[..NAME_LEN]);
    Name::new(name)
}

/// Returns a name with a floor, or None if the floor is above 2^62.
pub(crate) fn floor_with(name: Name, next: u64) -> Option<NamedFloor>
    ensures { result ≡ spec.floor_with name next }
{
    Next::new(next)?;
    Some(NamedFloor { name, next })
}

/// Returns the floor at the beginning of the bytes, or None.
fn floor_at(bytes: &[u8]) -> Option<NamedFloor>
    requires { 24 ≤ length bytes.now }
    ensures { result ≡ spec.floor_at bytes.now }
{
    floor_with(name_at(bytes), number_at(bytes, NAME_LEN))
}

/// Returns the `count` floors of the bytes, or None.
fn floors_from(count: usize, bytes: &[u8]) -> Option<ArrayVec<NamedFloor, MAX_FLOORS>>
    requires few { count ≤ 20 }
    requires whole { length bytes.now ≡ 24 * count }
    ensures { option_map (λ floors. floors.items) result ≡ spec.floors_from count bytes.now }
{
    let mut floors = ArrayVec::new();
    for place in 0..count {
        let Some(floor) = floor_at(&bytes[place * FLOOR_LEN..]) else {
            return None;
        };
        floors.push(floor);
    }
    Some(floors)
}

/// Returns the floors of a body of several, or None.
fn floors_at(body: &[u8]) -> Option<ArrayVec<NamedFloor, MAX_FLOORS>>
    ensures { option_map (λ floors. floors.items) result ≡ spec.floors_at body.now }
{
    let (count, rest) = body.split_first()?;
    let count = usize::from(*count);
    if count < 1 || count > MAX_FLOORS || rest.len() != count * FLOOR_LEN {
        return None;
    }
    floors_from(count, rest)
}

/// Returns the floors that the body of a datagram of a kind tells, or None.
pub fn floors_told(kind: Kind, body: &[u8]) -> Option<ArrayVec<NamedFloor, MAX_FLOORS>>
    ensures told { option_map (λ floors. floors.items) result ≡ spec.told_in kind body.now }
    ensures most { IfSome result (λ floors. array_vec_len floors ≤ 20) }
{
    match kind {
        Kind::Floor => {
            if body.len() != FLOOR_LEN {
                return None;
            }
            floors_from(1, body)
        }
        Kind::Floors => floors_at(body),
        Kind::Ask | Kind::Grant | Kind::Deny => None,
    }
}

/// Appends a floor.
fn push_floor(body: &mut ArrayVec<u8, MAX_BODY_LEN>, floor: NamedFloor)
    requires { array_vec_len body.old + 24 ≤ 481 }
    ensures items { body.new.items ≡ body.old.items ++ spec.floor_bytes floor }
    ensures len { array_vec_len body.new ≡ array_vec_len body.old + 24 }
{
    let _ = body.try_extend_from_slice(floor.name.bytes().as_slice());
    let _ = body.try_extend_from_slice(floor.next.to_be_bytes().as_slice());
}

/// Returns the body of a datagram that tells one floor.
pub(crate) fn floor_body(floor: NamedFloor) -> ArrayVec<u8, MAX_BODY_LEN>
    ensures items { result.items ≡ spec.floor_bytes floor }
{
    let mut body = ArrayVec::new();
    push_floor(&mut body, floor);
    body
}

/// Returns the body of a datagram that tells at most 20 floors.
#[tactic(auto, using(crate::proofs::FloorLemmas::all_more))]
pub fn floors_body(floors: &[NamedFloor]) -> ArrayVec<u8, MAX_BODY_LEN>
    requires { length floors.now ≤ 20 }
    ensures { result.items ≡ spec.floors_body floors.now }
{
    let mut body = ArrayVec::new();
    body.push(floors.len() as u8);
    for place in 0..floors.len() {
        push_floor(&mut body, floors[place]);
    }
    body
}
