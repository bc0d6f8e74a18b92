//! When each other member was heard last.

ghost use Rattle.std.specs.Prelude.{◌≡◌, ◌≤◌, length, map};
ghost use Rattle.count_port.specs.Members as spec;
ghost use Rattle.count_port.specs.Members.{differing, heard, new_member, rested};

use arrayvec::ArrayVec;
use gatekeeping::{MAX_OTHERS, Other, Seen};

/// The number of quiet turns in a second.
const QUIETS_OF_SECOND: u64 = 5;

/// The number of quiet turns without a datagram after which a member is silent.
const QUIETS_OF_SILENCE: u64 = 25;

/// Another member of the node's cluster.
#[derive(Clone, Copy, Debug, Default, PartialEq, Eq)]
pub struct Member {
    number: u8,
    /// The number of quiet turns since its last datagram that the node could read, or None if there was none.
    quiets: Option<u64>,
    /// Whether a datagram came since then that the node can't read.
    differs: bool,
}

impl Member {
    /// Returns a member that was not heard yet.
    pub(crate) fn new(number: u8) -> Self
        ensures { result ≡ new_member number }
    {
        Member {
            number,
            quiets: None,
            differs: false,
        }
    }

    /// Returns the member after a datagram of the member `number` that the node can read.
    fn heard(self, number: u8) -> Self
        ensures { result ≡ heard number self }
    {
        if self.number != number {
            return self;
        }
        Member {
            number: self.number,
            quiets: Some(0),
            differs: false,
        }
    }

    /// Returns the member after a datagram of the member `number` that the node can't read.
    fn differing(self, number: u8) -> Self
        ensures { result ≡ differing number self }
    {
        if self.number != number {
            return self;
        }
        Member {
            number: self.number,
            quiets: self.quiets,
            differs: true,
        }
    }

    /// Returns the member after a quiet turn.
    fn rested(self) -> Self
        ensures { result ≡ rested self }
    {
        let quiets = match self.quiets {
            Some(quiets) => Some(quiets.saturating_add(1)),
            None => None,
        };
        Member {
            number: self.number,
            quiets,
            differs: self.differs,
        }
    }

    /// Returns what is seen of the member.
    fn seen(self) -> Other
        ensures { result ≡ spec.seen_of self }
    {
        let seen = match self.quiets {
            _ if self.differs => Seen::Differs,
            Some(quiets) if quiets < QUIETS_OF_SILENCE => Seen::Heard(quiets / QUIETS_OF_SECOND),
            _ => Seen::Silent,
        };
        Other {
            number: self.number,
            seen,
        }
    }
}

/// Returns the other members of a node among `n`, in ascending order, of which none was heard yet.
pub(crate) fn others_of(me: u8, n: u8) -> ArrayVec<Member, MAX_OTHERS> {
    let mut members = ArrayVec::new();
    for number in 1..=n {
        if number != me {
            let _full = members.try_push(Member::new(number));
        }
    }
    members
}

/// Notes a datagram of the member `number` that the node can read.
pub(crate) fn hear(members: &mut [Member], number: u8)
    ensures { members.new ≡ map (heard number) members.old }
{
    for member in members.iter_mut() {
        *member = member.heard(number);
    }
}

/// Notes that a datagram of the member `number` came that the node can't read.
pub(crate) fn differ(members: &mut [Member], number: u8)
    ensures { members.new ≡ map (differing number) members.old }
{
    for member in members.iter_mut() {
        *member = member.differing(number);
    }
}

/// Notes a quiet turn.
pub(crate) fn rest(members: &mut [Member])
    ensures { members.new ≡ map rested members.old }
{
    for member in members.iter_mut() {
        *member = member.rested();
    }
}

/// Returns what is seen of the members.
pub(crate) fn seen_of(members: &[Member]) -> ArrayVec<Other, MAX_OTHERS>
    requires { length members.now ≤ 8 }
    ensures { result.items ≡ map spec.seen_of members.now }
{
    let mut others = ArrayVec::new();
    for member in members {
        others.push(member.seen());
    }
    others
}
