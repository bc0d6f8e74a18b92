ghost use Rattle.std.specs.Prelude.{◌≡◌, ◌+◌, ◌^◌, ◌<◌, ◌≤◌, ◌↔◌, length, slice_get, false, Some, Ok, IsOk, IsErr, IsOkAnd, IfOk, IfErr, OnOk, OnErr};
ghost use Rattle.floor_store.specs.Content.{opening_content, opening_content_at, with_row, with_next_boot};
ghost use Rattle.floor_store.specs.Range.{IsCount};
ghost use Rattle.floor_store.specs.declared.fault.StoreFault.TheVariants.{Memory, Spent};

use crate::fault::StoreFault;
use crate::row::{Pass, Row};
use crate::store::FloorStore;
use otp_core::{COUNTS_END, Next};
use std::alloc::Global;
use std::marker::Model;

/// A store in memory. After its creation it allocates no memory, and no call fails except at the last boot.
#[derive(Drop)]
pub struct MemStore {
    rows: Vec<Row>,
    boot: u64,
    last: Option<Pass>,
}

impl Model for MemStore {
    ghost use Rattle.std.specs.Prelude.{◌^◌, ◌≤◌, ◌<◌, vec_len};
    ghost use Rattle.floor_store.specs.Content.{Content, IsContent};

    ghost Value = { Content };

    ghost view = { λ s. record { rows = s.rows.items; boot = s.boot; last = s.last } };

    ghost invariant = { λ s. IsContent (record { rows = s.rows.items; boot = s.boot; last = s.last }) };
}

impl MemStore {
    /// Returns a store with a row for each floor of `floors`, at boot 0. A floor is the first free factor of a token.
    ///
    /// # Errors
    ///
    /// - Returns `Memory` if the allocator refuses the memory.
    pub fn new(alloc: Global, floors: &[Next]) -> Result<Self, StoreFault>
        requires { length floors.now ≤ 10000 }
        ensures opening { IfOk result (λ store. store ≡ opening_content floors.now) }
        ensures refusal { IfErr result (λ e. e ≡ StoreFault.Memory) }
    {
        MemStore::new_at(alloc, 0, floors)
    }

    /// Returns a store as [`MemStore::new`] does, at the boot `boot`, below 2^62. Use it to replace a lost store.
    ///
    /// # Errors
    ///
    /// - Returns `Memory` if the allocator refuses the memory.
    pub fn new_at(alloc: Global, boot: u64, floors: &[Next]) -> Result<Self, StoreFault>
        requires boot { boot < 2 ^ 62 }
        requires tokens { length floors.now ≤ 10000 }
        ensures opening { IfOk result (λ store. store ≡ opening_content_at boot floors.now) }
        ensures refusal { IfErr result (λ e. e ≡ StoreFault.Memory) }
    {
        let Ok(mut rows) = Vec::with_capacity(alloc, floors.len()) else {
            return Err(StoreFault::Memory);
        };
        for next in floors {
            if rows.push(Row::opening(*next)).is_err() {
                return Err(StoreFault::Memory);
            }
        }
        Ok(MemStore {
            rows,
            boot,
            last: None,
        })
    }
}

impl FloorStore for MemStore {
    ghost use Rattle.std.specs.Prelude.{◌≡◌, None};

    ghost held = { λ s. record { content = s; fault = None; failures = 0; is_clean = Unit {0}; leaves = λ c. c ≡ s } };

    fn tokens(&self) -> u32 {
        self.rows.len() as u32
    }

    fn is_broken(&self) -> bool
        ensures never { result ≡ false }
    {
        false
    }

    fn row(&self, token: u32) -> Result<Row, StoreFault>
        requires { token < length self.now.rows }
        ensures row { IsOkAnd result (λ row. slice_get self.now.rows token ≡ Some row) }
    {
        Ok(self.rows[token as usize])
    }

    fn boot(&self) -> Result<u64, StoreFault>
        ensures boot { result ≡ Ok self.now.boot }
        ensures range { IsCount self.now.boot }
    {
        Ok(self.boot)
    }

    fn put(&mut self, token: u32, row: Row, pass: Option<Pass>) -> Result<(), StoreFault>
        requires { token < length self.old.rows }
        ensures never_fails { IsOk result }
        ensures kept { self.new ≡ with_row self.old token row pass }
    {
        self.rows[token as usize] = row;
        self.last = pass.or(self.last);
        Ok(())
    }

    fn commit(&mut self) -> Result<(), StoreFault>
        ensures never_fails { IsOk result }
        ensures same { self.new ≡ self.old }
    {
        Ok(())
    }

    fn raise_boot(&mut self) -> Result<u64, StoreFault>
        ensures raised { OnOk result (self.new ≡ with_next_boot self.old) }
        ensures value { IfOk result (λ boot. boot ≡ self.new.boot) }
        ensures range { IfOk result IsCount }
        ensures spent { IfErr result (λ e. e ≡ StoreFault.Spent) }
        ensures same { OnErr result (self.new ≡ self.old) }
        ensures last { IsErr result ↔ (self.old.boot + 1 ≡ 2 ^ 62) }
    {
        if self.boot + 1 == COUNTS_END {
            return Err(StoreFault::Spent);
        }
        self.boot += 1;
        Ok(self.boot)
    }
}
