//! The command `init --lost` and `init --anew`: creates a replacement store from floors files.
//!
//! Floor: the first free factor of a token at a node.

ghost use Rattle.std.specs.Prelude.{◌≡◌, ◌≤◌, length, map, IfErr, IfOk, IfSome};
ghost use Rattle.otp_core.specs.Range.{IsMoment};
ghost use Rattle.floor_sql.specs.Usable.{IsNode};
ghost use Rattle.floors_file.specs.Floors.{floors_value};
ghost use Rattle.floors_file.specs.Gathered.{fault_of};
ghost use Rattle.oathd_database.specs.Lost.{HasRemade, IsGathered, IsNotRemade, IsUngathered, gather_fault};

use crate::database::Database;
use crate::fault::Fault;
use crate::gather::{GatherFault, read_files};
use crate::users::{drifted_floors, read_users};
use floor_sql::SqlStore;
use floors_file::{Asked, FilesFault, Floors, check_anew, check_lost, gather};
use otp_core::{Next, Settings};
use sqlite::Alter;
use std::alloc::Global;
use std::io::Read;
use token_file::Book;

/// The node whose store is replaced, and the lost nodes.
#[derive(Clone, Copy, Debug)]
pub struct LostNode<'a> {
    /// The node's number, 1 to 9.
    pub node: u8,
    /// The lost nodes, with the node itself, or `None` if the whole cluster is replaced.
    pub lost: Option<&'a [u8]>,
    /// The moment from which on the floors files were read.
    pub since: u64,
}

/// Checks that the floors files are sufficient to replace the store of `node`.
fn check(
    asked: Asked,
    node: u8,
    lost: Option<&[u8]>,
    book: &Book,
    files: &[Floors<'_>],
) -> Result<(), FilesFault>
    requires { length book.now ≤ 10000 }
    ensures { fault_of result ≡ gather_fault asked node lost.entry book.now (map floors_value files.now) }
{
    match lost {
        Some(lost) => check_lost(asked, node, lost, book, files),
        None => check_anew(asked, book, files),
    }
}

/// Returns the floors of a replacement store: the greatest in the floors files.
fn lost_floors(
    alloc: Global,
    asked: Asked,
    node: u8,
    lost: Option<&[u8]>,
    book: &Book,
    own: &[Next],
    texts: &[Vec<u8>],
) -> Result<Vec<Next>, GatherFault>
    requires few { length book.now ≤ 10000 }
    requires each { length own.now ≡ length book.now }
    ensures floors { IfOk result (λ floors. IsGathered asked node lost.entry book.now own.now
        (map (λ text. text.items) texts.now) floors.items) }
    ensures fault { IfErr result (IsUngathered asked node lost.entry book.now
        (map (λ text. text.items) texts.now)) }
{
    let files = match read_files(alloc, texts) {
        Ok(files) => files,
        Err(fault) => return Err(fault),
    };
    match check(asked, node, lost, book, &files) {
        Ok(()) => {}
        Err(fault) => return Err(GatherFault::Files(fault)),
    }
    match gather(alloc, &files, book, own) {
        Ok(floors) => Ok(floors),
        Err(_) => Err(GatherFault::Command(Fault::Memory)),
    }
}

/// One more than the number of boots for one second. A node that starts more often uses boots of the next second.
const BOOTS: u64 = 1 << 20;

/// Creates a store in place of a lost one, from the texts of floors files, in a database without a table.
///
/// The new boot is the moment times 2^20. Each floor is the greatest in the files. If `lost.lost` is a list, it and the
/// nodes of the files are all members, and fewer than a majority are lost. If it is `None`, the whole cluster is
/// replaced. Then each majority of the former members has a file, and a user of no file begins as at an import. Only
/// the skew and the drift of the settings are used.
///
/// # Errors
/// - Returns `Command` as [`init_store`](crate::init_store) does.
/// - Returns `Floors` with the first text that is not a floors file. The database is not opened.
/// - Returns `Files` if the files are insufficient (`lost_fault`, `anew_fault`). The database is not opened.
pub fn init_lost_store<R: Read + Drop, S: Alter + Drop, D: Database<S>>(
    alloc: Global,
    users: R,
    settings: Settings,
    moment: u64,
    lost: LostNode<'_>,
    texts: &[Vec<u8>],
    database: D,
) -> Result<SqlStore<S>, GatherFault>
    requires moment { IsMoment moment }
    requires node { IsNode lost.node }
    ensures made { IfOk result (λ store. IfSome (R.remaining users)
        (HasRemade S.Store D.finds settings moment 16777216 lost.entry (map (λ text. text.items) texts.now) store)) }
    ensures fault { IfErr result (λ fault. IfSome (R.remaining users)
        (IsNotRemade settings moment 16777216 lost.entry (map (λ text. text.items) texts.now) fault)) }
{
    let users = match read_users(alloc, users, settings, moment) {
        Ok(users) => users,
        Err(fault) => return Err(GatherFault::Command(fault)),
    };
    let boot = moment * BOOTS;
    let asked = Asked {
        since: lost.since,
        boot,
    };
    let Ok(own) = drifted_floors(alloc, &users, settings.drift()) else {
        return Err(GatherFault::Command(Fault::Memory));
    };
    let floors = match lost_floors(alloc, asked, lost.node, lost.lost, &users.book, &own, texts) {
        Ok(floors) => floors,
        Err(fault) => return Err(fault),
    };
    let conn = match database.connect() {
        Ok(conn) => conn,
        Err(fault) => return Err(GatherFault::Command(Fault::Store(fault))),
    };
    match SqlStore::init_at(alloc, conn, lost.node, boot, &floors) {
        Ok(store) => Ok(store),
        Err((_, fault)) => Err(GatherFault::Command(Fault::Store(fault))),
    }
}
