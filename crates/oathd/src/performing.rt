//! Carries out the commands over a database.

ghost use Rattle.std.specs.Prelude.{◌<◌, IfOk};
ghost use Rattle.sqlite_wal.specs.Files.{image_at};
ghost use Rattle.oathd_database.specs.File.{FindsFiles};
ghost use Rattle.oathd_words.specs.StoreWords.{IsActionInRange};
ghost use Rattle.oathd.specs.Done.{IsDone};

use oathd_serving::serve_logged;
use oathd_site::{Fault, Site};
use oathd_words::Action;
use sqlite::{FileFrom, FileStore, Start};
use sqlite_trees::store::Store;
use std::io::{self, Write};

/// Carries out an action on the store of the database. `start` stands for the content of its
/// files. `held` buffers the output until it is flushed.
pub(crate) fn perform<'a, S: Start, O: Write>(
    site: &Site<'_, 'a>,
    start: S,
    action: Action<'a>,
    held: &mut O,
) -> Result<(), Fault<'a>>
    requires { IsActionInRange action }
    ensures { IfOk result (λ _. IsDone ⟦<FileStore<FileFrom<S>> as Store>⟧ (FindsFiles (image_at S.Start))
        action.entry site.now.cluster.now (O.contents held.old) (O.contents held.new)) }
{
    match action {
        Action::Serve {
            cluster,
            turns,
            log,
            clients,
            reloads,
        } => serve_logged(site, start, cluster, turns, log, clients, reloads),
        stopped => oathd_acts::perform(site, start, stopped, held),
    }
}
