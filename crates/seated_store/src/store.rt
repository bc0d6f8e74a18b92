ghost use Rattle.std.specs.Prelude.{◌≡◌, ◌<◌, length, false, IfOk, IfErr};
ghost use Rattle.floor_store.specs.Content.{with_next_boot, with_row};
ghost use Rattle.floor_store.specs.Held.{Breaks, Commits, Puts, RaisesBoot};
ghost use Rattle.floor_store.specs.Range.{IsCount};
ghost use Rattle.seated_store.specs.Seated.{IsPassedOn, PutsBelow, seated_held};
ghost use Rattle.seated_store.specs.Seats.{AreSeats, pass_below as spec_pass_below};

use floor_store::{FloorStore, Pass, Row, StoreFault};
use std::marker::Model;

/// What is read of a store below another one.
pub trait BelowReading<S: FloorStore> {
    ghost use Rattle.std.specs.Prelude.{IfErr};
    ghost use Rattle.floor_store.specs.Held.{Breaks, Puts};

    /// Reads something of the store, which keeps its content.
    ///
    /// # Errors
    /// Returns the fault that broke the store, before the call or in it.
    fn read(&mut self, store: &mut S) -> Result<(), StoreFault>
        ensures keeps { Puts S.held store.old store.new (S.held store.old).content result }
        ensures breaks { IfErr result (Breaks S.held store.old store.new) };
}

/// A store whose row `i` is the row `seats[i]` of the store below. No two seats are the same row.
///
/// A pass of a token without a seat can't be kept. A put of one breaks the store.
#[derive(Drop)]
pub struct SeatedStore<S: FloorStore> {
    inner: S,
    seats: Vec<u32>,
    is_unusable: bool,
}

impl<S: FloorStore> Model for SeatedStore<S> {
    ghost use Rattle.std.specs.Prelude.{◌≤◌, length};
    ghost use Rattle.seated_store.specs.Seated.{SeatedRecord, seated_code};
    ghost use Rattle.seated_store.specs.Seats.{AreSeats};

    ghost Value = { SeatedRecord S };

    ghost coded = { seated_code S.code };

    ghost view = { λ s. record { inner = s.inner; seats = s.seats.items; is_unusable = s.is_unusable } };

    ghost invariant = { λ s. AreSeats (length (S.held s.inner).content.rows) s.seats.items
        × (length (S.held s.inner).content.rows ≤ 65536) };
}

impl<S: FloorStore> SeatedStore<S> {
    /// Returns the store that shows the rows `seats` of `inner`, in their order.
    pub fn new(inner: S, seats: Vec<u32>) -> Self
        requires { AreSeats (length (S.held inner).content.rows) seats.items }
        ensures { result ≡ record { inner = inner; seats = seats.items; is_unusable = false } }
    {
        // For the proof: a store states its limit when it returns its number of tokens.
        let _tokens = inner.tokens();
        SeatedStore {
            inner,
            seats,
            is_unusable: false,
        }
    }

    /// Returns the store below.
    pub fn into_inner(self) -> S
        ensures { result ≡ self.inner }
    {
        let SeatedStore {
            inner,
            seats: _,
            is_unusable: _,
        } = self;
        inner
    }

    /// Returns the store below for reading.
    pub fn inner(&self) -> &S
        ensures { result.now ≡ self.now.inner }
    {
        &self.inner
    }

    /// Returns the row of each token in the store below.
    pub fn seats(&self) -> &[u32]
        ensures { result.now ≡ self.now.seats }
    {
        &self.seats
    }

    /// Reads something of the store below, which keeps its content.
    ///
    /// # Errors
    /// Returns the fault that broke the store, before the call or in it.
    pub fn read_below<R: BelowReading<S>>(&mut self, reading: &mut R) -> Result<(), StoreFault>
        ensures keeps { Puts (seated_held S.held) self.old self.new (seated_held S.held self.old).content result }
        ensures breaks { IfErr result (Breaks (seated_held S.held) self.old self.new) }
    {
        if self.is_unusable {
            return Err(StoreFault::Unusable);
        }
        reading.read(&mut self.inner)
    }

    /// Returns the pass with its token's seat, or None if the token has no seat.
    fn pass_below(&self, pass: Pass) -> Option<Pass>
        ensures { result ≡ spec_pass_below self.now.seats pass }
    {
        let seat = *self.seats.get(pass.token() as usize)?;
        Pass::new(seat, pass.span(), pass.boot(), pass.seq())
    }
}

impl<S: FloorStore> FloorStore for SeatedStore<S> {
    ghost held = { seated_held S.held };

    fn tokens(&self) -> u32 {
        self.seats.len() as u32
    }

    fn is_broken(&self) -> bool {
        self.is_unusable || self.inner.is_broken()
    }

    fn row(&self, token: u32) -> Result<Row, StoreFault> {
        if self.is_unusable {
            return Err(StoreFault::Unusable);
        }
        self.inner.row(self.seats[token as usize])
    }

    fn boot(&self) -> Result<u64, StoreFault> {
        if self.is_unusable {
            return Err(StoreFault::Unusable);
        }
        self.inner.boot()
    }

    fn put(&mut self, token: u32, row: Row, pass: Option<Pass>) -> Result<(), StoreFault>
        requires { token < length (seated_held S.held self.old).content.rows }
        ensures puts { Puts (seated_held S.held) self.old self.new
            (with_row (seated_held S.held self.old).content token row pass) result }
        ensures breaks { IfErr result (Breaks (seated_held S.held) self.old self.new) }
        ensures below { PutsBelow S.held self.old self.new token row pass result }
    {
        if self.is_unusable {
            return Err(StoreFault::Unusable);
        }
        let seat = self.seats[token as usize];
        let Some(pass) = pass else {
            return self.inner.put(seat, row, None);
        };
        let Some(below) = self.pass_below(pass) else {
            self.inner.boot()?;
            self.is_unusable = true;
            return Err(StoreFault::Unusable);
        };
        self.inner.put(seat, row, Some(below))
    }

    fn commit(&mut self) -> Result<(), StoreFault>
        ensures commits { Commits (seated_held S.held) self.old self.new result }
        ensures breaks { IfErr result (Breaks (seated_held S.held) self.old self.new) }
        ensures below { IsPassedOn (Commits S.held) self.old self.new result }
    {
        if self.is_unusable {
            return Err(StoreFault::Unusable);
        }
        self.inner.commit()
    }

    fn raise_boot(&mut self) -> Result<u64, StoreFault>
        ensures raises { RaisesBoot (seated_held S.held) self.old self.new result }
        ensures value { IfOk result (λ boot. (S.held self.new.inner).is_clean
            → boot ≡ (S.held self.new.inner).content.boot) }
        ensures range { IfOk result IsCount }
        ensures below { IsPassedOn (RaisesBoot S.held) self.old self.new result }
    {
        if self.is_unusable {
            return Err(StoreFault::Unusable);
        }
        self.inner.raise_boot()
    }
}
