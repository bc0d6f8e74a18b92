//! A folder that is held open, and whether a name in it changes.

ghost use Rattle.std.specs.Prelude.{◌≡◌, ◌↔◌, ◌+◌, ◌≤◌, true};
ghost use Rattle.std.specs.Duration.{as_nanos};
ghost use Rattle.floor_sql.specs.Folder.{room_after};

use crate::files::{FileId, file_id, file_id_of};
use std::fs::{self, File};
use std::os::unix::fs::MetadataExt;
use std::time::{Clock, Duration, SystemTime, UNIX_EPOCH};

/// The longest time, in milliseconds, for which a system that keeps parts of a second may give all changes one time.
const TICK: u64 = 100;

/// The same of a system that keeps whole seconds, or each other one.
const TWO_SECONDS: u64 = 3000;

/// How long, in milliseconds, what was found by paths is good while no name in their folder changes.
const LOOK: u64 = 100;

/// What was found of an open folder: which it is, when it or a name in it last changed, and when that was found.
#[derive(Clone, Copy, Debug)]
pub(crate) struct FolderLook {
    id: FileId,
    changed: Duration,
    at: Duration,
}

/// Returns the time since 1970, or None if the clock fails.
fn time_now(clock: &impl Clock) -> Option<Duration> {
    SystemTime::now(clock).ok()?.duration_since(UNIX_EPOCH).ok()
}

/// Returns a time since 1970 of seconds and nanoseconds, or None if it is before 1970 or can't be told.
fn time_of(seconds: i64, nanos: i64) -> Option<Duration> {
    let seconds = Duration::from_secs(u64::try_from(seconds).ok()?);
    seconds.checked_add(Duration::from_nanos(u64::try_from(nanos).ok()?))
}

/// Returns whether each change after `now` has a later time than `changed`.
fn is_past(changed: Duration, now: Duration) -> bool
    ensures { (result ≡ true) ↔ (as_nanos changed + room_after (as_nanos changed) ≤ as_nanos now) }
{
    let room = if changed.subsec_nanos() == 0 {
        TWO_SECONDS
    } else {
        TICK
    };
    match now.checked_sub(changed) {
        Some(age) => Duration::from_millis(room) <= age,
        None => false,
    }
}

impl FolderLook {
    /// Returns whether it is the same folder, found shortly after `before`, and neither it nor a name in it changed since.
    pub(crate) fn is_as(&self, before: &FolderLook) -> bool {
        let age = self.at.checked_sub(before.at);
        self.id == before.id
            && self.changed == before.changed
            && age.is_some_and(|age| age < Duration::from_millis(LOOK))
    }

    /// Returns whether each later change of a name in the folder shows.
    pub(crate) fn is_settled(&self) -> bool {
        is_past(self.changed, self.at)
    }
}

/// A folder as it was opened, and the path that it was opened at.
#[derive(Drop)]
pub(crate) struct Folder {
    path: String,
    opened: File,
}

impl Folder {
    /// Opens the folder at `path`, or returns None if it can't be opened. Follows links.
    pub(crate) fn open(rt: &HostRuntime, path: String) -> Option<Self> {
        let opened = fs::open(rt, path.as_str()).ok()?;
        Some(Folder { path, opened })
    }

    /// Looks at the open folder, or returns None if its metadata can't be had or the clock fails.
    pub(crate) fn look(&self, rt: &HostRuntime) -> Option<FolderLook> {
        let at = time_now(rt)?;
        let found = self.opened.metadata().ok()?;
        Some(FolderLook {
            id: file_id_of(&found),
            changed: time_of(found.ctime(), found.ctime_nsec())?,
            at,
        })
    }

    /// Returns whether the folder of `look` stands at the path.
    pub(crate) fn is_in_place(&self, rt: &HostRuntime, look: &FolderLook) -> bool {
        file_id(rt, self.path.as_str()) == Some(look.id)
    }
}
