ghost use Rattle.std.specs.Prelude.{◌≡◌, ◌⊎◌, ◌+◌, ◌<◌, ◌≤◌, ◌↔◌, length, IsTrue, true, false, IsSome, IfOk, IfErr, OnOk};
ghost use Rattle.floor_store.specs.Content.{with_row, with_next_boot};
ghost use Rattle.floor_store.specs.Held.{Breaks, Commits, Puts, RaisesBoot};
ghost use Rattle.floor_store.specs.Fuse.{fuse_held, Burns};
ghost use Rattle.floor_store.specs.Range.{IsCount};
ghost use Rattle.floor_store.specs.declared.fault.StoreFault.{StoreFault};
ghost use Rattle.floor_store.specs.declared.fault.StoreFault.TheVariants.{Disk};

use crate::fault::StoreFault;
use crate::row::{Pass, Row};
use crate::store::FloorStore;
use std::marker::Model;

/// A store that fails after some writes, like one whose disk is full or gone.
///
/// Each call of `put`, `commit` and `raise_boot` is one write.
#[derive(Drop)]
pub struct FuseStore<S> {
    inner: S,
    writes: u64,
    passed: u64,
    after: bool,
    is_blown: bool,
}

impl<S> Model for FuseStore<S> {
    ghost use Rattle.std.specs.Prelude.{◌≤◌};
    ghost use Rattle.floor_store.specs.Fuse.{FuseRecord, fuse_code};

    ghost Value = { FuseRecord S };

    ghost coded = { fuse_code S.code };

    ghost view = { λ f. record {
      inner = f.inner;
      writes = f.writes;
      passed = f.passed;
      after = f.after;
      is_blown = f.is_blown;
    } };

    ghost invariant = { λ f. f.passed ≤ f.writes };
}

impl<S: FloorStore> FuseStore<S> {
    /// Returns a store that lets `writes` writes pass.
    ///
    /// The next write returns `Disk`. Its change is kept if `after` is true.
    pub fn new(inner: S, writes: u64, after: bool) -> Self
        ensures { result ≡ record { inner = inner; writes = writes; passed = 0; after = after; is_blown = false } }
    {
        FuseStore {
            inner,
            writes,
            passed: 0,
            after,
            is_blown: false,
        }
    }

    /// Returns the number of writes that passed.
    pub fn passed(&self) -> u64
        ensures value { result ≡ self.now.passed }
        ensures within { result ≤ self.now.writes }
    {
        self.passed
    }

    /// Returns whether the next write reaches the inner store. A broken inner store returns its own fault.
    fn reaches(&self) -> bool
        ensures { IsTrue result ↔ ((self.now.passed < self.now.writes) ⊎ (self.now.after ≡ true)
            ⊎ IsSome (S.held self.now.inner).fault) }
    {
        self.passed < self.writes || self.after || self.inner.is_broken()
    }

    /// Counts a write that passes, or blows the fuse.
    ///
    /// # Errors
    ///
    /// - Returns `Disk` if no further write may pass.
    fn burn(&mut self) -> Result<(), StoreFault>
        ensures passes { OnOk result ((self.old.passed < self.old.writes)
            × (self.new ≡ record self.old { passed = self.old.passed + 1 })) }
        ensures blows { IfErr result (λ e. (e ≡ StoreFault.Disk) × (self.old.passed ≡ self.old.writes)
            × (self.new ≡ record self.old { is_blown = true })) }
    {
        if self.passed < self.writes {
            self.passed += 1;
            Ok(())
        } else {
            self.is_blown = true;
            Err(StoreFault::Disk)
        }
    }

    /// Returns the inner store without the fuse.
    pub fn mend(self) -> S
        ensures { result ≡ self.inner }
    {
        let FuseStore {
            inner,
            writes: _,
            passed: _,
            after: _,
            is_blown: _,
        } = self;
        inner
    }
}

impl<S: FloorStore> FloorStore for FuseStore<S> {
    ghost held = { fuse_held S.held };

    fn tokens(&self) -> u32 {
        self.inner.tokens()
    }

    fn is_broken(&self) -> bool {
        self.is_blown || self.inner.is_broken()
    }

    fn row(&self, token: u32) -> Result<Row, StoreFault> {
        if self.is_blown {
            return Err(StoreFault::Disk);
        }
        self.inner.row(token)
    }

    fn boot(&self) -> Result<u64, StoreFault> {
        if self.is_blown {
            return Err(StoreFault::Disk);
        }
        self.inner.boot()
    }

    fn put(&mut self, token: u32, row: Row, pass: Option<Pass>) -> Result<(), StoreFault>
        requires { token < length (S.held self.old.inner).content.rows }
        ensures puts { Puts (fuse_held S.held) self.old self.new
            (with_row (S.held self.old.inner).content token row pass) result }
        ensures breaks { IfErr result (Breaks (fuse_held S.held) self.old self.new) }
        ensures burns { Burns (fuse_held S.held) self.old self.new
            (with_row (S.held self.old.inner).content token row pass) result }
    {
        if self.is_blown {
            return Err(StoreFault::Disk);
        }
        if self.reaches() {
            self.inner.put(token, row, pass)?;
        }
        self.burn()
    }

    fn commit(&mut self) -> Result<(), StoreFault>
        ensures commits { Commits (fuse_held S.held) self.old self.new result }
        ensures breaks { IfErr result (Breaks (fuse_held S.held) self.old self.new) }
        ensures burns { Burns (fuse_held S.held) self.old self.new (S.held self.old.inner).content result }
    {
        if self.is_blown {
            return Err(StoreFault::Disk);
        }
        if self.reaches() {
            self.inner.commit()?;
        }
        self.burn()
    }

    fn raise_boot(&mut self) -> Result<u64, StoreFault>
        ensures raises { RaisesBoot (fuse_held S.held) self.old self.new result }
        ensures value { IfOk result (λ boot. (S.held self.new.inner).is_clean
            → boot ≡ (S.held self.new.inner).content.boot) }
        ensures range { IfOk result IsCount }
        ensures burns { Burns (fuse_held S.held) self.old self.new
            (with_next_boot (S.held self.old.inner).content) result }
    {
        if self.is_blown {
            return Err(StoreFault::Disk);
        }
        if self.reaches() {
            let boot = self.inner.raise_boot()?;
            self.burn()?;
            return Ok(boot);
        }
        self.is_blown = true;
        Err(StoreFault::Disk)
    }
}
