//! Carries out the actions on a stopped store.

ghost use Rattle.std.specs.Prelude.{◌≡◌, IfOk};
ghost use Rattle.sqlite_wal.specs.Files.{image_at};
ghost use Rattle.oathd_acts.specs.Acting.{IsStopped, IsStoppedDone, creates};
ghost use Rattle.oathd_database.specs.File.{FindsFiles};
ghost use Rattle.oathd_words.specs.StoreWords.{IsActionInRange};
ghost use Rattle.oathd_words.specs.declared.store_words.Action.TheVariants.{Begin, Floors, Init, Level, Look, Migrate, Remake, Roster};

use crate::looks::look;
use crate::named::{begin, roster};
use crate::plain::{floors, init, level, migrate, remake};
use oathd_database::{Database, DatabaseFile};
use oathd_site::{Fault, Site};
use oathd_words::Action;
use sqlite::{Alter, FileFrom, FileStore, Start};
use sqlite_trees::store::Store;
use std::io::{self, Write};

/// Returns whether an action creates the store.
fn creates(action: &Action<'_>) -> bool
    ensures { result ≡ creates action.now }
{
    match action {
        Action::Init { .. } | Action::Begin { .. } | Action::Remake { .. } => true,
        _ => false,
    }
}

/// Carries out an action on the store of a database.
fn act_on<'a, S: Alter + Drop, D: Database<S>, O: Write>(
    site: &Site<'_, 'a>,
    database: D,
    action: Action<'a>,
    held: &mut O,
) -> Result<(), Fault<'a>>
    requires range { IsActionInRange action }
    requires stopped { IsStopped action }
    ensures { IfOk result (λ _. IsStoppedDone S.Store D.finds action.entry site.now.cluster.now (O.contents held.old)
        (O.contents held.new)) }
{
    match action {
        Action::Init {
            node,
            import,
            moment,
        } => init(site, database, node, import, moment, held),
        Action::Begin { node, .. } => begin(site, database, node, held),
        Action::Remake {
            node,
            import,
            moment,
            former,
        } => remake(site, database, node, import, moment, former, held),
        Action::Look { owner, look: with } => look(site, database, owner, with, held),
        Action::Roster { node, drops, .. } => roster(site, database, node, drops, held),
        Action::Migrate {
            owner,
            members_were,
        } => migrate(site, database, owner, members_were),
        Action::Floors { node, count } => floors(site, database, node, count, held),
        Action::Level { owner, floors } => level(site, database, owner, floors),
        Action::Serve { .. } => unreachable!(),
    }
}

/// Carries out an action on the stopped store of the site's database: any but `Serve`. `start` stands for the content
/// of its files. `held` buffers the output until it is flushed.
///
/// A missing file is made for an action that creates the store. For any other one it has to be there.
pub fn perform<'a, S: Start, O: Write>(
    site: &Site<'_, 'a>,
    start: S,
    action: Action<'a>,
    held: &mut O,
) -> Result<(), Fault<'a>>
    requires range { IsActionInRange action }
    requires stopped { IsStopped action }
    ensures { IfOk result (λ _. IsStoppedDone ⟦<FileStore<FileFrom<S>> as Store>⟧ (FindsFiles (image_at S.Start))
        action.entry site.now.cluster.now (O.contents held.old) (O.contents held.new)) }
{
    let database = if creates(&action) {
        DatabaseFile::found_or_made(site.rt, site.database, start)
    } else {
        site.found(start)
    };
    act_on(site, database, action, held)
}
