//! Commits by the time that they took.

ghost use Rattle.std.specs.Prelude.{◌≡◌};
ghost use Rattle.gatekeeping.specs.Commits.{commits_of};

/// A bucket of commits, by the time that they took.
#[derive(Clone, Copy, Debug, PartialEq, Eq)]
pub enum Bucket {
    /// At most 1 ms.
    One,
    /// More than 1 ms, and at most 2 ms.
    Two,
    /// More than 2 ms, and at most 5 ms.
    Five,
    /// More than 5 ms, and at most 10 ms.
    Ten,
    /// More than 10 ms, and at most 20 ms.
    Twenty,
    /// More than 20 ms, and at most 50 ms.
    Fifty,
    /// More than 50 ms, and at most 100 ms.
    Hundred,
    /// More than 100 ms, or a time that no clock told.
    More,
}

/// The numbers of commits in the buckets. None goes beyond `u64::MAX`.
#[derive(Clone, Copy, Debug, Default, PartialEq, Eq)]
pub struct CommitTimes {
    pub one: u64,
    pub two: u64,
    pub five: u64,
    pub ten: u64,
    pub twenty: u64,
    pub fifty: u64,
    pub hundred: u64,
    pub more: u64,
}

impl CommitTimes {
    /// Returns the number of all commits, at most `u64::MAX`.
    pub fn commits(&self) -> u64
        ensures { result ≡ commits_of self.now }
    {
        let short = self.one.saturating_add(self.two).saturating_add(self.five);
        let medium = short.saturating_add(self.ten).saturating_add(self.twenty);
        let long = medium
            .saturating_add(self.fifty)
            .saturating_add(self.hundred);
        long.saturating_add(self.more)
    }
}
