//! Watches the users file of a node that serves.

ghost use Rattle.std.specs.Prelude.{◌≡◌, ◌≢◌, IfErr, IfOk, IfSome};
ghost use Rattle.oathd_serving.specs.Reload.{file_reason_of};
ghost use Rattle.oathd_site.specs.Users.{IsOfUsers};
ghost use Rattle.oathd_site.specs.declared.fault.Fault.{Fault};

use crate::refusal::{Refusal, refusal_of};
use node_serving::Stop;
use oathd_site::users_text;
use otp_core::{MOMENTS_END, Settings};
use std::alloc::Global;
use std::fs;
use std::os::unix::fs::MetadataExt;
use std::rt::Files;
use std::time::Clock as TimeSource;

/// The number of milliseconds from one look at the file to the next.
const LOOK_MILLIS: u64 = 500;

/// The maximum number of milliseconds for which a found change waits for the lines that wait for votes, and for the
/// time of the member.
const MAX_WAIT_MILLIS: u64 = 2000;

/// The number of milliseconds from the time of one member to that of the next one. All nine have one in two seconds.
const MEMBER_MILLIS: u64 = 222;

/// The number of milliseconds of a member's time.
const OPEN_MILLIS: u64 = 60;

/// What is known of a file that is not read: its length, its inode, and the time of its last change.
#[derive(Clone, Copy, PartialEq, Eq)]
pub(crate) struct Stamp {
    len: u64,
    inode: u64,
    seconds: i64,
    nanos: i64,
}

/// Returns the stamp of the file at `path`, or None if it can't be had.
pub(crate) fn stamp_of<F: Files>(files: &F, path: &str) -> Option<Stamp> {
    let found = fs::metadata(files, path).ok()?;
    Some(Stamp {
        len: found.len(),
        inode: found.ino(),
        seconds: found.ctime(),
        nanos: found.ctime_nsec(),
    })
}

/// Returns the current moment of a monotonic clock, in milliseconds since its start, or None if it fails.
fn millis_of<T: TimeSource>(source: &T) -> Option<u64> {
    let now = source.monotonic().ok()?;
    if now.as_secs() >= MOMENTS_END {
        return None;
    }
    Some(now.as_secs() * 1000 + u64::from(now.subsec_millis()))
}

/// Returns whether the system's clock is in the time in which a member may end its boot, or fails.
///
/// So members whose clocks agree, and whose boots begin fast, are not away together.
fn is_time_of<T: TimeSource>(source: &T, member: u8) -> bool {
    let Ok(now) = source.since_1970() else {
        return true;
    };
    let millis = now.as_secs() % 2 * 1000 + u64::from(now.subsec_millis());
    let begin = u64::from(member.saturating_sub(1)) * MEMBER_MILLIS;
    begin <= millis && millis < begin + OPEN_MILLIS
}

/// What a changed users file is.
#[derive(Drop)]
pub(crate) enum Found {
    /// Another text than the one that is served.
    Text(Vec<u8>),
    /// A file whose text can't be had.
    Unread(Refusal),
}

/// A watch of a users file while its text is served.
#[derive(Drop)]
pub(crate) struct Watch<'w, F: Files + TimeSource> {
    alloc: Global,
    outside: &'w F,
    path: &'w str,
    settings: Settings,
    /// The node's number in its cluster.
    member: u8,
    /// The text that is served.
    text: &'w [u8],
    /// The stamp of the file when it was read last.
    taken: Option<Stamp>,
    /// The stamp at the last look.
    seen: Option<Stamp>,
    /// The moment of the next look.
    next: u64,
    /// The last moment.
    last: u64,
    /// What the file is, if it changed.
    found: Option<Found>,
    /// The moment at which the first change was found.
    since: u64,
    /// The number of turns that were left after the last batch.
    left: u64,
}

impl<'w, F: Files + TimeSource> Watch<'w, F> {
    /// Returns a watch of the file at `path` for a member, which had the stamp `taken` when `text` was read.
    pub(crate) fn new(
        alloc: Global,
        outside: &'w F,
        path: &'w str,
        settings: Settings,
        member: u8,
        text: &'w [u8],
        taken: Option<Stamp>,
    ) -> Self {
        Watch {
            alloc,
            outside,
            path,
            settings,
            member,
            text,
            taken,
            seen: taken,
            next: 0,
            last: 0,
            found: None,
            since: 0,
            left: 0,
        }
    }

    /// Reads the file. Returns its text, or None if it is the text that is served.
    fn other_text(&self) -> Result<Option<Vec<u8>>, Refusal>
        ensures other { IfOk result (λ other. IfSome other (λ text. text.items ≢ self.now.text.now)) }
        ensures fault { IfErr result (λ refusal.
            (fault : Fault) × IsOfUsers self.now.settings 0 fault × (refusal ≡ file_reason_of fault)) }
    {
        let text = match users_text(self.alloc, self.outside, self.path, self.settings, 0) {
            Ok(text) => text,
            Err(fault) => return Err(refusal_of(fault)),
        };
        if text.as_slice() == self.text {
            return Ok(None);
        }
        Ok(Some(text))
    }

    /// Reads the file, and keeps what it is, unless it changes meanwhile.
    fn read(&mut self)
        ensures left { self.new.left ≡ self.old.left }
        ensures last { self.new.last ≡ self.old.last }
    {
        let found = match self.other_text() {
            Ok(Some(text)) => Some(Found::Text(text)),
            Ok(None) => None,
            Err(refusal) => Some(Found::Unread(refusal)),
        };
        if stamp_of(self.outside, self.path) != self.seen {
            return;
        }
        self.taken = self.seen;
        if self.found.is_none() {
            self.since = self.last;
        }
        self.found = found;
    }

    /// Looks at the file, and reads it if it changed and is the same as at the last look.
    fn look(&mut self)
        ensures left { self.new.left ≡ self.old.left }
        ensures last { self.new.last ≡ self.old.last }
    {
        let seen = stamp_of(self.outside, self.path);
        let is_settled = seen == self.seen;
        self.seen = seen;
        if is_settled && seen != self.taken {
            self.read();
        }
    }

    /// Returns the number of turns that are left, what was found, and the stamp of the file when it was read last.
    pub(crate) fn end(self) -> (u64, Option<Found>, Option<Stamp>)
        ensures { result.0 ≡ self.entry.left }
    {
        let Watch {
            left,
            found,
            taken,
            ..
        } = self;
        (left, found, taken)
    }
}

impl<F: Files + TimeSource> Stop for Watch<'_, F> {
    ghost use Rattle.oathd_serving.specs.Reload.{answers_of};

    ghost answers = { λ watch. answers_of watch.left watch.since watch.last };

    fn stops(&mut self, is_waiting: bool, left: u64) -> bool {
        self.left = left;
        let Some(now) = millis_of(self.outside) else {
            return false;
        };
        self.last = now;
        if now >= self.next {
            self.next = now.saturating_add(LOOK_MILLIS);
            self.look();
        }
        if self.found.is_none() {
            return false;
        }
        now.saturating_sub(self.since) >= MAX_WAIT_MILLIS
            || !is_waiting && is_time_of(self.outside, self.member)
    }
}
