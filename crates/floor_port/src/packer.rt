//! What becomes of datagrams that tell floors, and the floors that a node tells.

ghost use Rattle.std.specs.Option.{option_map};
ghost use Rattle.arrayvec.specs.ArrayVec.{array_vec_len};
ghost use Rattle.std.specs.Prelude.{◌≡◌, ◌≢◌, ◌≤◌, ◌==◌, if◌then◌else◌, false, length, take, drop, Some, None, IfOk, IfSome};
ghost use Rattle.datagram_port.specs.Port.{IsWithin, Received as ReceivedEvent, event_of_receive};
ghost use Rattle.datagram_port.specs.declared.port.Received.TheVariants.{Quiet};
ghost use Rattle.datagram_port.specs.declared.port.Sender.TheVariants.{Peer};
ghost use Rattle.floor_port.specs.Claims.{fell_of, is_fallen, with_fell};
ghost use Rattle.floor_port.specs.Pace.{after_quiet};
ghost use Rattle.floor_port.specs.Packer as spec;
ghost use Rattle.floor_port.specs.Rows.{after_telling, after_turn, next_floors, rows_of};
ghost use Rattle.named_wire.specs.Bytes.{number_at};

use crate::body::{MAX_FLOORS, floor_body, floors_body, floors_told, number_at};
use crate::claims::Claims;
use crate::falls::Falls;
use crate::floor::NamedFloor;
use crate::heard::Heard;
use crate::pace::Pace;
use crate::rows::Rows;
use crate::witness::witness_of;
use arrayvec::ArrayVec;
use datagram_port::{Received, Sender};
use gatekeeping::{Fell, PLACES};
use named_port::Names;
use named_wire::{Head, Kind, MAX_BODY_LEN, MAX_DATAGRAM_LEN, read_datagram, write_datagram};
use otp_core::Next;
use std::alloc::{AllocError, Global};
use std::marker::Model;
use vote_wire::ClusterKey;

/// A node in its cluster.
#[derive(Clone, Copy, Debug, PartialEq, Eq)]
pub struct Membership {
    /// The number of the node.
    pub me: u8,
    /// The boot of the node.
    pub boot: u64,
    /// The number of members of the cluster.
    pub members: u8,
    /// The members that are known to have gone back to an old store, from member 0 to 9.
    pub gone_back: [bool; PLACES],
    /// The greatest boot in which each member was heard before, from member 0 to 9, or 0.
    pub known: [u64; PLACES],
}

/// The length of a head, in bytes, and the place of its boot.
const HEAD_LEN: usize = 14;

const HEAD_BOOT: usize = 6;

/// The floors of a datagram that are left to hand in.
#[derive(Drop)]
pub(crate) struct Pending {
    head: Head,
    floors: ArrayVec<NamedFloor, MAX_FLOORS>,
}

impl Model for Pending {
    ghost use Rattle.floor_port.specs.Packer.{PendingRecord};

    ghost Value = { PendingRecord };

    ghost view = { λ pending. record { head = pending.head; floors = pending.floors.items } };
}

/// Packs the floors of a node into datagrams to the other members, and unpacks theirs.
#[derive(Drop)]
pub(crate) struct Packer<'k> {
    key: &'k ClusterKey,
    me: u8,
    boot: u64,
    members: u8,
    rows: Rows<'k>,
    pace: Pace,
    pending: Pending,
    claims: Claims,
    heard: Heard,
}

impl<'k> Model for Packer<'k> {
    ghost use Rattle.std.specs.Prelude.{◌≡◌, ◌*◌, length};
    ghost use Rattle.floor_port.specs.Packer.{PackerRecord};

    ghost Value = { PackerRecord };

    ghost view = { λ packer. record {
      key = packer.key.now;
      me = packer.me;
      boot = packer.boot;
      members = packer.members;
      rows = packer.rows;
      pace = packer.pace;
      pending = packer.pending;
      claims = packer.claims;
      heard = packer.heard;
    } };

    // there is a claim of each member for each name
    ghost invariant = { λ packer. length packer.claims.kept ≡ 9 * length packer.rows.names };
}

/// Returns whether a datagram tells floors, by its kind.
fn tells_floors(bytes: &[u8]) -> bool
    ensures { result ≡ spec.tells_floors bytes.now }
{
    match bytes.get(3) {
        Some(kind) => *kind == 4 || *kind == 5,
        None => false,
    }
}

/// Returns the boot of the head that the bytes begin with if they are a datagram, or 0 if they are shorter than a head.
fn boot_at(bytes: &[u8]) -> u64
    ensures { 14 ≤ length bytes.now → result ≡ number_at bytes.now 6 }
{
    if bytes.len() < HEAD_LEN {
        return 0;
    }
    number_at(bytes, HEAD_BOOT)
}

/// Returns the body of at most 20 floors, or None if there are none.
fn body_of(floors: &[NamedFloor]) -> Option<ArrayVec<u8, MAX_BODY_LEN>>
    requires { length floors.now ≤ 20 }
    ensures { option_map (λ body. body.items) result ≡ spec.body_of floors.now }
{
    if floors.is_empty() {
        return None;
    }
    Some(floors_body(floors))
}

impl Pending {
    /// Returns that no floor is left to hand in to the node `me`.
    fn new(me: u8) -> Self
        ensures { result ≡ spec.nothing_pending me }
    {
        let head = Head {
            kind: Kind::Floor,
            from: 0,
            to: me,
            boot: 0,
        };
        Pending {
            head,
            floors: ArrayVec::new(),
        }
    }

    /// Takes the datagram of the first floor that is left. It has no bytes if there is none.
    fn take_first(&mut self, key: &ClusterKey) -> ArrayVec<u8, MAX_DATAGRAM_LEN>
        ensures bytes { result.items ≡ spec.first_bytes key.now self.old.head self.old.floors }
        ensures rest { self.new ≡ record self.old { floors = drop 1 self.old.floors } }
    {
        match self.floors.pop_at(0) {
            Some(floor) => write_datagram(key, self.head, &floor_body(floor)),
            None => ArrayVec::new(),
        }
    }
}

impl<'k> Packer<'k> {
    /// Returns a packer for a node whose store has `floors`, in the order of the names.
    pub(crate) fn new(
        alloc: Global,
        key: &'k ClusterKey,
        names: &'k Names,
        node: Membership,
        floors: &[Next],
    ) -> Result<Self, AllocError>
        requires few { length floors.now ≤ 10000 }
        requires each { length floors.now ≡ length names.now }
        ensures { IfOk result (λ packer. packer ≡ spec.new_packer key.now names.now node.me node.boot node.members
            (record { gone_back = node.gone_back; known = node.known; floors = floors.now })) }
    {
        Ok(Packer {
            key,
            me: node.me,
            boot: node.boot,
            members: node.members,
            rows: Rows::new(alloc, names, floors)?,
            pace: Pace::new(floors.len()),
            pending: Pending::new(node.me),
            claims: Claims::new(alloc, node.gone_back, floors.len())?,
            heard: Heard::new(node.known),
        })
    }

    /// Returns the floors that the node bears witness to.
    pub(crate) fn told(&self) -> &[u64]
        ensures { result.now ≡ self.now.rows.told }
    {
        self.rows.told()
    }

    /// Returns the members of whom a floor fell, or that are known to have gone back, from member 0 to 9.
    pub(crate) fn fallen(&self) -> [bool; PLACES]
        ensures { result ≡ self.now.claims.fallen }
    {
        self.claims.fallen()
    }

    /// Returns the sender of the floors that are left to hand in, or None if there is none.
    pub(crate) fn pending_from(&self) -> Option<Sender>
        ensures { result ≡ (if length self.now.pending.floors == 0 then None
            else Some (Peer self.now.pending.head.from)) }
    {
        if self.pending.floors.is_empty() {
            return None;
        }
        Some(Sender::Peer(self.pending.head.from))
    }

    /// Hands in the datagram of the next floor from `sender`. It has no bytes if no floor is left.
    pub(crate) fn hand_in(&mut self, sender: Sender, buffer: &mut [u8; 512]) -> Received
        ensures within { IsWithin result }
        ensures datagram { result ≢ Quiet }
        ensures handed { event_of_receive result buffer.new ≡ ReceivedEvent sender (spec.next_bytes self.old) }
        ensures after { self.new ≡ spec.after_next self.old }
    {
        let bytes = self.pending.take_first(self.key);
        let len = bytes.len();
        buffer[..len].copy_from_slice(&bytes);
        Received::Datagram { sender, len }
    }

    /// Returns the head and the body of a datagram that `member` sent to the node, or None.
    fn sent_by<'a>(&self, member: u8, bytes: &'a [u8]) -> Option<(Head, &'a [u8])>
        ensures read { option_map (λ read. (read.0, read.1.now)) result ≡ spec.sent_by self.now member bytes.now }
        ensures member { IfSome result (λ _. (1 ≤ member) × (member ≤ 9)) }
    {
        let (head, body) = read_datagram(self.key, bytes)?;
        if head.from != member || head.to != self.me {
            return None;
        }
        Some((head, body))
    }

    /// Notes the boot of a datagram that `member` sent to the node. It looks at the tag only if the boot is greater
    /// than those that it noted of the member.
    fn note_boot(&mut self, member: u8, bytes: &[u8])
        requires { is_fallen self.old.claims member ≡ false }
        ensures { self.new ≡ spec.hearing self.old member bytes.now }
    {
        if boot_at(bytes) <= self.heard.boot_of(member) {
            return;
        }
        if let Some((head, _)) = self.sent_by(member, bytes) {
            self.heard.note(member, head.boot);
        }
    }

    /// Returns the head of a datagram that `member` sent to the node, and the floors that it tells, or None. A datagram
    /// of an older boot tells none: the port by names above drops it.
    fn told_by(&self, member: u8, bytes: &[u8]) -> Option<(Head, ArrayVec<NamedFloor, MAX_FLOORS>)>
        ensures told { option_map (λ told. (told.0, told.1.items)) result ≡ spec.told_by self.now member bytes.now }
        ensures member { IfSome result (λ _. (1 ≤ member) × (member ≤ 9)) }
        ensures most { IfSome result (λ told. array_vec_len told.1 ≤ 20) }
    {
        if !tells_floors(bytes) {
            return None;
        }
        let (head, body) = self.sent_by(member, bytes)?;
        if head.boot < self.heard.boot_of(head.from) {
            return None;
        }
        let floors = floors_told(head.kind, body)?;
        Some((head, floors))
    }

    /// Returns the datagram of the first of the floors told that are news, or None. The other news are left to hand in.
    /// The floors are of the given rows.
    fn take_told(
        &mut self,
        head: Head,
        floors: &[NamedFloor],
        rows: &[Option<u32>],
    ) -> Option<ArrayVec<u8, MAX_DATAGRAM_LEN>>
        requires few { length floors.now ≤ 20 }
        requires rows { rows.now ≡ rows_of self.old.rows.names floors.now }
        ensures first { option_map (λ bytes. bytes.items) result
            ≡ spec.first_told self.old (Some (head, floors.now)) }
        ensures after { self.new ≡ spec.after_told self.old (Some (head, floors.now)) }
    {
        let head = Head {
            kind: Kind::Floor,
            ..head
        };
        let mut news = self.rows.take_news(floors, rows);
        let first = news.pop_at(0)?;
        self.pending = Pending { head, floors: news };
        Some(write_datagram(self.key, head, &floor_body(first)))
    }

    /// Returns the floor by which `member` falls, if it does by the floors of the given rows that it tells in a boot.
    fn take_claims(
        &mut self,
        member: u8,
        head: Head,
        floors: &[NamedFloor],
        rows: &[Option<u32>],
    ) -> Option<NamedFloor>
        requires member { (1 ≤ member) × (member ≤ 9) }
        requires rows { rows.now ≡ rows_of self.old.rows.names floors.now }
        ensures fall { result ≡ spec.fall_by self.old member (Some (head, floors.now)) }
        ensures after { self.new ≡ spec.with_claims self.old member (Some (head, floors.now)) }
    {
        self.claims
            .take(member, head.boot, self.rows.names(), floors, rows)
    }

    /// Takes the floors that `member` tells. Returns the bytes that are handed in for them, or None if they are the
    /// same. Notes the fall of the member if it falls.
    fn take_floors(
        &mut self,
        member: u8,
        head: Head,
        floors: &[NamedFloor],
        falls: &mut Falls,
    ) -> Option<ArrayVec<u8, MAX_DATAGRAM_LEN>>
        requires few { length floors.now ≤ 20 }
        requires member { (1 ≤ member) × (member ≤ 9) }
        ensures bytes { let told = Some (head, floors.now) in option_map (λ bytes. bytes.items) result
            ≡ spec.bytes_of self.old told (spec.fall_by self.old member told) }
        ensures after { let told = Some (head, floors.now) in self.new
            ≡ spec.after_held (spec.with_claims self.old member told) member told
            (spec.fall_by self.old member told) }
        ensures fell { falls.new ≡ with_fell falls.old
            (fell_of member (spec.fall_by self.old member (Some (head, floors.now)))) }
    {
        let rows = self.rows.rows_of(floors);
        if let Some(floor) = self.take_claims(member, head, floors, &rows) {
            let name = floor.name.bytes();
            falls.note(Some(Fell { member, name }));
            self.pending.floors.clear();
            return Some(ArrayVec::new());
        }
        self.pace.note_heard(member, self.rows.len());
        self.take_told(head, floors, &rows)
    }

    /// Takes a datagram of `member`. Returns the bytes that are handed in for it, or None if they are the same. There
    /// are none if a floor of the member fell. Notes the fall of the member if it falls.
    fn unpack(
        &mut self,
        member: u8,
        bytes: &[u8],
        falls: &mut Falls,
    ) -> Option<ArrayVec<u8, MAX_DATAGRAM_LEN>>
        ensures bytes { let heard = spec.hearing self.old member bytes.now in option_map (λ bytes. bytes.items) result
            ≡ spec.bytes_for heard member (spec.told_by heard member bytes.now) }
        ensures after { let heard = spec.hearing self.old member bytes.now in self.new
            ≡ spec.after_datagram heard member (spec.told_by heard member bytes.now) }
        ensures fell { let heard = spec.hearing self.old member bytes.now in falls.new
            ≡ with_fell falls.old (spec.fell_by heard member (spec.told_by heard member bytes.now)) }
    {
        if self.claims.is_fallen(member) {
            return Some(ArrayVec::new());
        }
        self.note_boot(member, bytes);
        let (head, floors) = self.told_by(member, bytes)?;
        self.take_floors(member, head, &floors, falls)
    }

    /// Takes a datagram of a member, and hands in the first of its news, or the same datagram if it has none. It has no
    /// bytes if a floor of the member fell. Notes the fall of the member if it falls.
    pub(crate) fn take(
        &mut self,
        member: u8,
        len: usize,
        buffer: &mut [u8; 512],
        falls: &mut Falls,
    ) -> Received
        requires { len ≤ 512 }
        ensures within { IsWithin result }
        ensures datagram { result ≢ Quiet }
        ensures handed { event_of_receive result buffer.new
            ≡ spec.handed_in self.old (ReceivedEvent (Peer member) (take len buffer.old)) }
        ensures after { self.new ≡ spec.after_event self.old (ReceivedEvent (Peer member) (take len buffer.old)) }
        ensures fell { falls.new
            ≡ with_fell falls.old (spec.fell_at self.old (ReceivedEvent (Peer member) (take len buffer.old))) }
    {
        let sender = Sender::Peer(member);
        let Some(bytes) = self.unpack(member, &buffer[..len], falls) else {
            return Received::Datagram { sender, len };
        };
        let len = bytes.len();
        buffer[..len].copy_from_slice(&bytes);
        Received::Datagram { sender, len }
    }

    /// Notes what the node bears witness to by an offer.
    pub(crate) fn note_offer(&mut self, to: Sender, bytes: &[u8])
        ensures { self.new ≡ spec.after_offer self.old to bytes.now }
    {
        match to {
            Sender::Peer(_) => {
                if let Some(floor) = witness_of(bytes) {
                    self.rows.note_witness(floor);
                }
            }
            Sender::Client(_) => {}
        }
    }

    /// Returns the number of bodies that are due at a quiet turn.
    pub(crate) fn turns_due(&self) -> usize
        ensures { result ≡ spec.turns_due self.now }
    {
        self.pace.due(self.rows.turns())
    }

    /// Returns the body of the floors that are told next, or None if there are none. Goes on to the rows after them.
    pub(crate) fn take_turn(&mut self) -> Option<ArrayVec<u8, MAX_BODY_LEN>>
        ensures body { option_map (λ body. body.items) result ≡ spec.body_of (next_floors self.old.rows) }
        ensures after { self.new ≡ record self.old { rows = after_turn self.old.rows } }
    {
        body_of(&self.rows.take_turn())
    }

    /// Notes that the floors of a quiet turn were told.
    pub(crate) fn note_quiet(&mut self)
        ensures { self.new ≡ record self.old {
          rows = after_telling self.old.rows;
          pace = after_quiet self.old.pace;
        } }
    {
        self.rows.note_telling();
        self.pace.note_quiet();
    }

    /// Returns the number of members.
    pub(crate) fn members(&self) -> u8
        ensures { result ≡ self.now.members }
    {
        self.members
    }

    /// Returns the datagram of a body of floors for a member, or None if the member is the node itself.
    pub(crate) fn datagram_to(&self, to: u8, body: &[u8]) -> Option<ArrayVec<u8, MAX_DATAGRAM_LEN>>
        requires { length body.now ≤ 481 }
        ensures { option_map (λ bytes. bytes.items) result
            ≡ (if to == self.now.me then None else Some (spec.floors_datagram self.now to body.now)) }
    {
        if to == self.me {
            return None;
        }
        let head = Head {
            kind: Kind::Floors,
            from: self.me,
            to,
            boot: self.boot,
        };
        Some(write_datagram(self.key, head, body))
    }
}
