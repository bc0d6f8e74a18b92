//! The law of the files that one process leaves and the next one opens.

ghost use Rattle.std.specs.Prelude.{ℕ, Option};
ghost use Rattle.sqlite_store.specs.declared.store.FileStore.{FileStore};
ghost use Rattle.sqlite_wal.specs.Recovery.{Image};
ghost use Rattle.sqlite.specs.Files.{file_state, over_files};
ghost use Rattle.sqlite.specs.State.{HasCleanDisk};
ghost use Rattle.floor_sql.specs.Held.{SqlHeld};
ghost use Rattle.floor_sql.specs.Reopened.{FindsWhatIsLeft};
ghost use Rattle.oathd_database.specs.Commands.{HasOpened};
ghost use Rattle.oathd_database.specs.File.{FindsFiles, StopsWith};

use floor_sql::stores_are_opened_again;
use sqlite_disk::Disk;

/// Durability: a command that opens a database in files finds what the last process may have left there.
///
/// The disk of each process returns what was written. Of a store without waiting puts it is the store's content.
pub fn openings_find_what_is_left<D: Disk, E: Disk>()
    ensures { (store : SqlHeld (FileStore D D.Disk)) (left : Image) (given : Option ℕ) (tokens : ℕ)
        (again : SqlHeld (FileStore E E.Disk)) → StopsWith store left
        → HasOpened over_files (FindsFiles left) given tokens again → HasCleanDisk (file_state again.conn)
        → FindsWhatIsLeft store again }
{
    stores_are_opened_again::<D, E>();
}
