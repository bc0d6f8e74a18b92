ghost use Rattle.std.specs.Prelude.{◌≡◌, ◌≢◌, ◌≤◌, ℕ, [], length, true, false, None, Err, IsErr, IsErrAnd, IsTrue, IfOk, IfErr, OnOk};
ghost use Rattle.sqlite.specs.Held.{state};
ghost use Rattle.sqlite.specs.State.{HasCleanDisk};
ghost use Rattle.floor_store.specs.Fault.{is_failure};
ghost use Rattle.std.specs.Option.{option_to_list};

use crate::create::write_opening;
use crate::files::StoreFiles;
use crate::migrate::migrate_tables;
use crate::mirror::Mirror;
use crate::put::{MAX_STAGED, Put, pass_count};
use crate::read::{Refusal, list_passes, read_own_node};
use crate::schema::{Format, has_own_table, is_floor_schema, is_no_schema};
use crate::tables::{read_node, read_tables};
use crate::write::write_all;
use arrayvec::ArrayVec;
use floor_store::{COUNTS_END, FloorStore, Pass, Row, StoreFault};
use otp_core::Next;
use sqlite::{Alter, Connection};
use std::alloc::Global;
use std::marker::Model;

/// A store in tables of SQLite, with a mirror of their content in memory.
///
/// Puts wait in memory. A commit writes all of them in one transaction. A call that fails breaks the store, unless it
/// returns `Spent`. Then each call except `tokens`, `is_broken` and `close` returns the same fault, until the
/// connection is opened again.
#[derive(Drop)]
pub struct SqlStore<S: Alter> {
    conn: Connection<S>,
    mirror: Mirror,
    staged: ArrayVec<Put, MAX_STAGED>,
    // The numbers of committed passes and of passes among the staged puts.
    passes: u64,
    staged_passes: u64,
    fault: Option<StoreFault>,
    // The files that each commit looks for at their paths.
    files: Option<StoreFiles>,
}

impl<S: Alter> Model for SqlStore<S> {
    ghost use Rattle.std.specs.Prelude.{◌≡◌, length};
    ghost use Rattle.floor_sql.specs.Held.{SqlHeld, held_code, IsStaged};
    ghost use Rattle.floor_sql.specs.Staged.{passes_in};

    ghost Value = { SqlHeld S };

    ghost coded = { held_code S.code };

    ghost view = { λ s. record {
      conn = s.conn;
      mirror = s.mirror;
      staged = s.staged.items;
      passes = s.passes;
      fault = s.fault;
    } };

    ghost invariant = { λ s. IsStaged S.Store s.conn s.mirror s.staged.items s.passes s.fault
        × (s.staged_passes ≡ length (passes_in s.staged.items)) };
}

impl<S: Alter> SqlStore<S> {
    ghost use Rattle.std.specs.Prelude.{◌+◌, ◌^◌, ◌<◌, Some};
    ghost use Rattle.std.specs.Option.{ForSome};
    ghost use Rattle.floor_store.specs.Held.{Breaks, Writes};
    ghost use Rattle.floor_store.specs.declared.fault.StoreFault.TheVariants.{AlreadyThere, Unusable};
    ghost use Rattle.floor_sql.specs.Created.{IsForeign, Opens, has_own_table};
    ghost use Rattle.floor_store.specs.Range.{IsCount};
    ghost use Rattle.floor_sql.specs.Migrate.{IsMigrated, IsUsableUndrifted, Migrates};
    ghost use Rattle.floor_sql.specs.Schema.{floor_schema};
    ghost use Rattle.floor_sql.specs.Stored.{MayCommit};
    ghost use Rattle.floor_sql.specs.Held.{MirrorsLast, HasAudit, HasCommitted, sql_held};
    ghost use Rattle.floor_sql.specs.Staged.{LacksRow, with_boot};
    ghost use Rattle.floor_sql.specs.Usable.{HasUsableNode, HasUsablePasses, IsNode, IsUsable, IsUsableAs};
    ghost use Rattle.floor_sql.specs.Calls.{HandsBack, IsMade, IsOfNode, IsOpened, IsOpenedAs, KeepsTables, ReadsAudit};

    /// Creates the store of `node` with the given floors, at boot 0, in a database without a table.
    ///
    /// The connection must be outside a transaction and have no limit on its steps. Returns it beside an error.
    ///
    /// # Errors
    ///
    /// - Returns `AlreadyThere` if the database has a table with the name of one of a store's tables.
    /// - Returns `Unusable` if the database has any other table, index or view.
    /// - Returns `Memory` or `Disk` if the allocator or the database fails.
    pub fn init(
        alloc: Global,
        conn: Connection<S>,
        node: u8,
        floors: &[Next],
    ) -> Result<Self, (Connection<S>, StoreFault)>
        requires idle { conn.in_transaction ≡ false }
        requires node { IsNode node }
        requires tokens { length floors.now ≤ 10000 }
        ensures opening { IfOk result (IsMade S.Store conn node 0 floors.now) }
        ensures found { has_own_table conn.schema ≡ true
            → IsErrAnd result (λ e. (e.0 ≡ conn) × (e.1 ≡ StoreFault.AlreadyThere)) }
        ensures there { IfErr result (λ e. e.1 ≡ StoreFault.AlreadyThere → has_own_table conn.schema ≡ true) }
        ensures foreign { IsForeign conn.schema → IsErrAnd result (λ e. (e.0 ≡ conn) × (e.1 ≡ StoreFault.Unusable)) }
        ensures unusable { IfErr result (λ e. e.1 ≡ StoreFault.Unusable → HasCleanDisk (state S.Store e.0)
            → IsForeign conn.schema) }
        ensures failure { IfErr result (λ e. e.1 ≢ StoreFault.AlreadyThere → IsTrue (is_failure e.1)) }
        ensures refused { IfErr result (λ e. HandsBack S.Store conn e.0
            (MayCommit (Opens node 0 floors.now) (state S.Store conn))) }
    {
        SqlStore::init_at(alloc, conn, node, 0, floors)
    }

    /// Creates a store as `init` does, but at the given boot, below 2^62: the replacement of a lost store.
    pub fn init_at(
        alloc: Global,
        mut conn: Connection<S>,
        node: u8,
        boot: u64,
        floors: &[Next],
    ) -> Result<Self, (Connection<S>, StoreFault)>
        requires idle { conn.in_transaction ≡ false }
        requires node { IsNode node }
        requires boot { IsCount boot }
        requires tokens { length floors.now ≤ 10000 }
        ensures opening { IfOk result (IsMade S.Store conn node boot floors.now) }
        ensures found { has_own_table conn.schema ≡ true
            → IsErrAnd result (λ e. (e.0 ≡ conn) × (e.1 ≡ StoreFault.AlreadyThere)) }
        ensures there { IfErr result (λ e. e.1 ≡ StoreFault.AlreadyThere → has_own_table conn.schema ≡ true) }
        ensures foreign { IsForeign conn.schema → IsErrAnd result (λ e. (e.0 ≡ conn) × (e.1 ≡ StoreFault.Unusable)) }
        ensures unusable { IfErr result (λ e. e.1 ≡ StoreFault.Unusable → HasCleanDisk (state S.Store e.0)
            → IsForeign conn.schema) }
        ensures failure { IfErr result (λ e. e.1 ≢ StoreFault.AlreadyThere → IsTrue (is_failure e.1)) }
        ensures refused { IfErr result (λ e. HandsBack S.Store conn e.0
            (MayCommit (Opens node boot floors.now) (state S.Store conn))) }
    {
        // For the proof: outside a transaction the connection shows the last commit.
        let _ = conn.is_autocommit();
        if has_own_table(conn.schema()) {
            return Err((conn, StoreFault::AlreadyThere));
        }
        if !is_no_schema(conn.schema()) {
            return Err((conn, StoreFault::Unusable));
        }
        let Ok(mirror) = Mirror::opening(alloc, boot, floors) else {
            return Err((conn, StoreFault::Memory));
        };
        match write_opening(&mut conn, node, boot, floors) {
            Ok(()) => Ok(SqlStore {
                conn,
                mirror,
                staged: ArrayVec::new(),
                passes: 0,
                staged_passes: 0,
                fault: None,
                files: None,
            }),
            Err(Refusal(fault)) => Err((conn, fault)),
        }
    }

    /// Opens the store of `node` with `tokens` tokens, from the tables of a connection.
    ///
    /// The connection must be outside a transaction and have no limit on its steps. Returns it beside an error.
    ///
    /// # Errors
    ///
    /// - Returns `Unusable` if the tables are not of such a store, or a value is out of range.
    /// - Returns `Memory` or `Disk` if the allocator or the database fails.
    pub fn open(
        alloc: Global,
        conn: Connection<S>,
        node: u8,
        tokens: u32,
    ) -> Result<Self, (Connection<S>, StoreFault)>
        requires idle { conn.in_transaction ≡ false }
        requires tokens { tokens ≤ 10000 }
        ensures content { IfOk result (IsOpened S.Store conn node tokens) }
        ensures unusable { IfErr result (λ e. e.1 ≡ StoreFault.Unusable → HasCleanDisk (state S.Store e.0)
            → ¬ IsUsable (state S.Store conn).now node tokens) }
        ensures failure { IfErr result (λ e. IsTrue (is_failure e.1)) }
        ensures refused { IfErr result (λ e. HandsBack S.Store conn e.0 (λ _. ⊥)) }
    {
        SqlStore::open_as(alloc, conn, Format::Numbered, node, tokens)
    }

    /// Opens a store as `open` does, from tables of the given format.
    pub fn open_as(
        alloc: Global,
        mut conn: Connection<S>,
        format: Format,
        node: u8,
        tokens: u32,
    ) -> Result<Self, (Connection<S>, StoreFault)>
        requires idle { conn.in_transaction ≡ false }
        requires tokens { tokens ≤ 65536 }
        ensures content { IfOk result (IsOpenedAs S.Store format conn node tokens) }
        ensures unusable { IfErr result (λ e. e.1 ≡ StoreFault.Unusable → HasCleanDisk (state S.Store e.0)
            → ¬ IsUsableAs format (state S.Store conn).now node tokens) }
        ensures failure { IfErr result (λ e. IsTrue (is_failure e.1)) }
        ensures refused { IfErr result (λ e. HandsBack S.Store conn e.0 (λ _. ⊥)) }
    {
        // For the proof: outside a transaction the connection shows the last commit.
        let _ = conn.is_autocommit();
        let (mirror, passes) = match read_tables(alloc, &mut conn, format, node, tokens) {
            Ok(read) => read,
            Err(Refusal(fault)) => return Err((conn, fault)),
        };
        // The store begins with the content of the tables.
        Ok(SqlStore {
            conn,
            mirror,
            staged: ArrayVec::new(),
            passes,
            staged_passes: 0,
            fault: None,
            files: None,
        })
    }

    /// Upgrades the store of `node` with `tokens` tokens from version 1 to version 2, and returns the connection.
    ///
    /// Each token gets the drift 0. Nothing else changes. The connection must be outside a transaction and have no
    /// limit on its steps. Returns it beside an error too.
    ///
    /// # Errors
    ///
    /// - Returns `AlreadyThere` if the store is of version 2, for any node.
    /// - Returns `Unusable` if the tables are neither of version 2 nor of such a store of version 1.
    /// - Returns `Memory` or `Disk` if the allocator or the database fails.
    pub fn migrate(
        mut conn: Connection<S>,
        node: u8,
        tokens: u32,
    ) -> Result<Connection<S>, (Connection<S>, StoreFault)>
        requires idle { conn.in_transaction ≡ false }
        requires tokens { tokens ≤ 10000 }
        ensures made { IfOk result (IsMigrated S.Store node tokens conn) }
        ensures found { conn.schema ≡ floor_schema → IsErr result }
        ensures there { IfErr result (λ e. e.1 ≡ StoreFault.AlreadyThere → HasCleanDisk (state S.Store e.0)
            → (own : ℕ) × IsOfNode (state S.Store conn).now own) }
        ensures unusable { IfErr result (λ e. e.1 ≡ StoreFault.Unusable → HasCleanDisk (state S.Store e.0)
            → (¬ IsUsableUndrifted (state S.Store conn).now node tokens) × (¬ HasUsableNode (state S.Store conn).now)) }
        ensures failure { IfErr result (λ e. e.1 ≢ StoreFault.AlreadyThere → IsTrue (is_failure e.1)) }
        ensures refused { IfErr result (λ e. HandsBack S.Store conn e.0
            (MayCommit (Migrates node tokens) (state S.Store conn))) }
    {
        // For the proof: outside a transaction the connection shows the last commit.
        let _ = conn.is_autocommit();
        if is_floor_schema(conn.schema()) {
            return match read_own_node(&mut conn) {
                Ok(_own) => Err((conn, StoreFault::AlreadyThere)),
                Err(Refusal(fault)) => Err((conn, fault)),
            };
        }
        match migrate_tables(&mut conn, node, tokens) {
            Ok(()) => Ok(conn),
            Err(Refusal(fault)) => Err((conn, fault)),
        }
    }

    /// Returns the connection, and the number of the node whose store its tables hold.
    ///
    /// The connection must be outside a transaction and have no limit on its steps. Returns it beside an error too.
    ///
    /// # Errors
    ///
    /// - Returns `Unusable` if the tables are not of version 2, or name no node from 1 to 9.
    /// - Returns `Memory` or `Disk` if the allocator or the database fails.
    pub fn node_of(
        mut conn: Connection<S>,
    ) -> Result<(Connection<S>, u8), (Connection<S>, StoreFault)>
        requires { conn.in_transaction ≡ false }
        ensures node { IfOk result (λ r. HasCleanDisk (state S.Store r.0)
            → IsOfNode (state S.Store conn).now r.1) }
        ensures range { IfOk result (λ r. IsNode r.1) }
        ensures same { IfOk result (λ r. KeepsTables S.Store conn r.0) }
        ensures unusable { IfErr result (λ e. e.1 ≡ StoreFault.Unusable → HasCleanDisk (state S.Store e.0)
            → ¬ HasUsableNode (state S.Store conn).now) }
        ensures failure { IfErr result (λ e. IsTrue (is_failure e.1)) }
        ensures refused { IfErr result (λ e. HandsBack S.Store conn e.0 (λ _. ⊥)) }
    {
        // For the proof: outside a transaction the connection shows the last commit.
        let _ = conn.is_autocommit();
        match read_node(&mut conn) {
            Ok(node) => Ok((conn, node)),
            Err(Refusal(fault)) => Err((conn, fault)),
        }
    }

    /// Returns the number of committed passes.
    pub fn pass_count(&self) -> u64
        ensures value { result ≡ self.now.passes }
        ensures range { result ≤ 2 ^ 62 }
    {
        self.passes
    }

    /// Makes each commit from now on look for the files of the store at their paths, which were found before it was
    /// opened. If another file stands there, or none, the commit returns `Disk`, though the store's own files have it.
    pub fn watch(&mut self, files: Option<StoreFiles>)
        ensures { self.new ≡ self.old }
    {
        self.files = match files {
            Some(files) => Some(files.with_log()),
            None => None,
        };
    }

    /// Returns whether the files of the store stand at their paths. A store that watches none is in its place.
    fn is_in_place(&mut self) -> bool
        ensures { self.new ≡ self.old }
    {
        match &mut self.files {
            Some(files) => files.are_in_place(),
            None => true,
        }
    }

    /// Returns the connection. Its tables hold the last commit. Puts that wait for their commit are lost.
    pub fn close(self) -> Connection<S>
        ensures same { result ≡ self.conn }
        ensures tables { HasCleanDisk (state S.Store result) → IsTrue (state S.Store result).is_open
            → MirrorsLast (state S.Store result) self.mirror self.staged self.passes }
        ensures idle { result.in_transaction ≡ false }
    {
        let SqlStore {
            conn,
            mirror: _,
            staged: _,
            passes: _,
            staged_passes: _,
            fault: _,
            files: _,
        } = self;
        conn
    }

    /// Returns all committed passes, in the order of their commits.
    ///
    /// # Errors
    ///
    /// - Returns the fault that broke the store earlier.
    /// - Returns `Unusable` if the table `pass` is not as `open_as` accepts it for `Named`. This breaks the store.
    /// - Returns `Memory` or `Disk` if the allocator or the database fails. This breaks the store.
    pub fn passes(&mut self, alloc: Global) -> Result<Vec<Pass>, StoreFault>
        ensures list { HasCleanDisk (state S.Store self.new.conn)
            → IfOk result (λ list. HasCommitted S.Store self.new list.items) }
        ensures reads { ReadsAudit S.Store self.old self.new result }
        ensures breaks { IfErr result (Breaks (sql_held S.Store) self.old self.new) }
        ensures unusable { HasCleanDisk (state S.Store self.new.conn) → result ≡ Err StoreFault.Unusable
            → self.old.fault ≡ None → ¬ HasUsablePasses (state S.Store self.old.conn).now.trees 65536 }
    {
        if let Some(fault) = self.fault {
            return Err(fault);
        }
        match list_passes(alloc, &mut self.conn) {
            Ok(passes) => Ok(passes),
            Err(Refusal(fault)) => {
                self.fault = Some(fault);
                Err(fault)
            }
        }
    }

    /// Writes the staged puts in one transaction, with `boot` if it is Some, and empties the list.
    fn write_staged(&mut self, boot: Option<u64>) -> Result<(), StoreFault>
        requires works { self.old.fault ≡ None }
        requires next { ForSome boot (λ b. (b ≡ self.old.mirror.boot + 1) × b < 2 ^ 62) }
        ensures writes { Writes (sql_held S.Store) self.old self.new (with_boot boot self.old.mirror) result }
        ensures breaks { IfErr result (λ fault. (self.new.fault ≡ Some fault) × IsTrue (is_failure fault)) }
        ensures idle { OnOk result (self.new.staged ≡ []) }
        ensures mirror { OnOk result (self.new.mirror ≡ with_boot boot self.old.mirror) }
        ensures unusable { HasCleanDisk (state S.Store self.new.conn) → result ≡ Err StoreFault.Unusable
            → LacksRow (state S.Store self.old.conn).now.trees self.old.staged boot }
        ensures audit { HasCleanDisk (state S.Store self.new.conn) → OnOk result ((all : _)
            → HasAudit S.Store self.old all → HasAudit S.Store self.new all) }
    {
        if let Err(fault) = write_all(&mut self.conn, self.staged.as_slice(), self.passes, boot) {
            self.fault = Some(fault);
            return Err(fault);
        }
        self.passes += self.staged_passes;
        self.staged_passes = 0;
        self.staged.clear();
        self.mirror.set_boot(boot);
        Ok(())
    }

    /// Writes the staged puts as [`SqlStore::write_staged`] does. Then the store's files stand at their paths.
    fn write(&mut self, boot: Option<u64>) -> Result<(), StoreFault>
        requires works { self.old.fault ≡ None }
        requires next { ForSome boot (λ b. (b ≡ self.old.mirror.boot + 1) × b < 2 ^ 62) }
        ensures writes { Writes (sql_held S.Store) self.old self.new (with_boot boot self.old.mirror) result }
        ensures breaks { IfErr result (λ fault. (self.new.fault ≡ Some fault) × IsTrue (is_failure fault)) }
        ensures idle { OnOk result (self.new.staged ≡ []) }
        ensures mirror { OnOk result (self.new.mirror ≡ with_boot boot self.old.mirror) }
        ensures unusable { HasCleanDisk (state S.Store self.new.conn) → result ≡ Err StoreFault.Unusable
            → LacksRow (state S.Store self.old.conn).now.trees self.old.staged boot }
        ensures audit { HasCleanDisk (state S.Store self.new.conn) → OnOk result ((all : _)
            → HasAudit S.Store self.old all → HasAudit S.Store self.new all) }
    {
        self.write_staged(boot)?;
        if !self.is_in_place() {
            self.fault = Some(StoreFault::Disk);
            return Err(StoreFault::Disk);
        }
        Ok(())
    }
}

impl<S: Alter> FloorStore for SqlStore<S> {
    ghost use Rattle.std.specs.Prelude.{◌+◌, ◌^◌, ◌<◌, ◌++◌, ◌∷◌, [], Some, IsOk, slice_get};
    ghost use Rattle.floor_store.specs.declared.fault.StoreFault.TheVariants.{Unusable};
    ghost use Rattle.floor_sql.specs.Schema as tables;
    ghost use Rattle.floor_sql.specs.Stored.{HasOneRow, rows_of};
    ghost use Rattle.floor_store.specs.Content.{with_row};
    ghost use Rattle.floor_store.specs.Held.{Breaks, Commits, Puts, RaisesBoot, Reads};
    ghost use Rattle.floor_store.specs.Range.{IsCount};
    ghost use Rattle.floor_sql.specs.Calls.{Stages};
    ghost use Rattle.floor_sql.specs.Held.{sql_held, HasAudit};
    ghost use Rattle.floor_sql.specs.Staged.{HasRows, passes_in};

    ghost held = { sql_held S.Store };

    fn tokens(&self) -> u32 {
        self.mirror.tokens()
    }

    fn is_broken(&self) -> bool {
        self.fault.is_some()
    }

    /// Returns the row of a token, as the last put left it. Runs no statement.
    fn row(&self, token: u32) -> Result<Row, StoreFault>
        requires { token < length self.now.mirror.rows }
        ensures reads { Reads (sql_held S.Store self.now)
            (λ content row. slice_get content.rows token ≡ Some row) result }
        ensures works { self.now.fault ≡ None → IsOk result }
    {
        if let Some(fault) = self.fault {
            return Err(fault);
        }
        Ok(self.mirror.row(token))
    }

    /// Returns the boot, as the last raise left it. Runs no statement.
    fn boot(&self) -> Result<u64, StoreFault>
        ensures reads { Reads (sql_held S.Store self.now) (λ content boot. boot ≡ content.boot) result }
        ensures range { IfOk result IsCount }
        ensures works { self.now.fault ≡ None → IsOk result }
    {
        if let Some(fault) = self.fault {
            return Err(fault);
        }
        Ok(self.mirror.boot())
    }

    /// Puts the row of a token and, if `pass` is Some, the pass.
    ///
    /// The put waits for its commit. It runs no statement, unless it fills the list.
    ///
    /// # Errors
    ///
    /// - Returns the fault that broke the store earlier.
    /// - Returns `Unusable` if the number of the pass would be beyond 2^62. This breaks the store.
    /// - Returns `Unusable`, `Memory` or `Disk` as `commit` does, if the put fills the list.
    fn put(&mut self, token: u32, row: Row, pass: Option<Pass>) -> Result<(), StoreFault>
        requires { token < length self.old.mirror.rows }
        ensures puts { Puts (sql_held S.Store) self.old self.new (with_row self.old.mirror token row pass) result }
        ensures breaks { IfErr result (Breaks (sql_held S.Store) self.old self.new) }
        ensures stages { OnOk result (Stages self.old self.new (record { token = token; row = row; pass = pass })) }
        ensures unusable { HasCleanDisk (state S.Store self.new.conn) → result ≡ Err StoreFault.Unusable
            → self.old.fault ≡ None → HasRows (state S.Store self.old.conn).now.trees
            (self.old.staged ++ record { token = token; row = row; pass = pass } ∷ [])
            → 2 ^ 62 < self.old.passes + length (passes_in self.old.staged) + length (option_to_list pass) }
        ensures audit { HasCleanDisk (state S.Store self.new.conn) → OnOk result ((all : _)
            → HasAudit S.Store self.old all → HasAudit S.Store self.new (all ++ option_to_list pass)) }
    {
        if let Some(fault) = self.fault {
            return Err(fault);
        }
        let passes = self.staged_passes + pass_count(&pass);
        if self.passes + passes > COUNTS_END {
            self.fault = Some(StoreFault::Unusable);
            return Err(StoreFault::Unusable);
        }
        // The list has room: the put that fills it commits it.
        if self.staged.try_push(Put { token, row, pass }).is_err() {
            self.fault = Some(StoreFault::Memory);
            return Err(StoreFault::Memory);
        }
        self.staged_passes = passes;
        self.mirror.put(token, row, pass);
        if self.staged.is_full() {
            return self.write(None);
        }
        Ok(())
    }

    /// Writes the waiting puts in one transaction, and appends their passes in order. Runs no statement without puts.
    ///
    /// # Errors
    ///
    /// - Returns the fault that broke the store earlier.
    /// - Returns `Unusable` if a token of a put does not have exactly one row in `floor` and one in `drift`.
    /// - Returns `Memory` or `Disk` if the allocator or the database fails.
    ///
    /// Each error but the first breaks the store.
    fn commit(&mut self) -> Result<(), StoreFault>
        ensures commits { Commits (sql_held S.Store) self.old self.new result }
        ensures breaks { IfErr result (Breaks (sql_held S.Store) self.old self.new) }
        ensures idle { OnOk result (self.new.staged ≡ []) }
        ensures same { self.old.staged ≡ [] → self.new ≡ self.old }
        ensures unusable { HasCleanDisk (state S.Store self.new.conn) → result ≡ Err StoreFault.Unusable
            → self.old.fault ≡ None → ¬ HasRows (state S.Store self.old.conn).now.trees self.old.staged }
        ensures audit { HasCleanDisk (state S.Store self.new.conn) → OnOk result ((all : _)
            → HasAudit S.Store self.old all → HasAudit S.Store self.new all) }
    {
        if let Some(fault) = self.fault {
            return Err(fault);
        }
        if self.staged.is_empty() {
            return Ok(());
        }
        self.write(None)
    }

    /// Raises the boot by one, in one transaction with the waiting puts, and returns it.
    ///
    /// # Errors
    ///
    /// - Returns the fault that broke the store earlier.
    /// - Returns `Spent` if the boot is the last one. Nothing changes.
    /// - Returns `Unusable` if `self` does not have exactly one row, or for a put as `commit` does.
    /// - Returns `Memory` or `Disk` if the allocator or the database fails.
    fn raise_boot(&mut self) -> Result<u64, StoreFault>
        ensures raises { RaisesBoot (sql_held S.Store) self.old self.new result }
        ensures value { IfOk result (λ boot. HasCleanDisk (state S.Store self.new.conn)
            → boot ≡ self.new.mirror.boot) }
        ensures range { IfOk result IsCount }
        ensures idle { OnOk result (self.new.staged ≡ []) }
        ensures unusable { HasCleanDisk (state S.Store self.new.conn) → result ≡ Err StoreFault.Unusable
            → self.old.fault ≡ None → HasRows (state S.Store self.old.conn).now.trees self.old.staged
            → ¬ HasOneRow (rows_of tables.self (state S.Store self.old.conn).now.trees) 1 }
        ensures audit { HasCleanDisk (state S.Store self.new.conn) → OnOk result ((all : _)
            → HasAudit S.Store self.old all → HasAudit S.Store self.new all) }
    {
        if let Some(fault) = self.fault {
            return Err(fault);
        }
        let boot = self.mirror.boot() + 1;
        if boot == COUNTS_END {
            return Err(StoreFault::Spent);
        }
        match self.write(Some(boot)) {
            Ok(()) => Ok(boot),
            Err(fault) => Err(fault),
        }
    }
}
