//! Carries out the commands that look at a stopped store, by the places or by the names of its tokens.

ghost use Rattle.std.specs.Prelude.{◌≤◌, IfOk, ℕ, List, Option};
ghost use Rattle.otp_core.specs.Limits.{default_limits};
ghost use Rattle.oathd_acts.specs.Looks.{IsLookDone, LooksByName, LooksFor};
ghost use Rattle.oathd_seats.specs.declared.naming.Naming.TheVariants.{ByPlace};
ghost use Rattle.oathd_words.specs.StoreWords.{IsOwnerInRange};
ghost use Rattle.oathd_words.specs.declared.store_words.Look.TheVariants.{Audit, Export, Gates, Unlock};

use oathd_database::Database;
use oathd_seats::{Naming, audit_store, export_store, gates_store, unlock_store};
use oathd_site::{Fault, Site};
use oathd_words::{Look, Owner};
use otp_core::Settings;
use sqlite::Alter;
use std::io::{self, Write};

/// Prints a users file with the store's content.
fn export<'a, S: Alter + Drop, D: Database<S>, O: Write>(
    site: &Site<'_, 'a>,
    database: D,
    settings: Settings,
    naming: Naming<'_>,
    held: &mut O,
) -> Result<(), Fault<'a>>
    ensures { IfOk result (λ _. LooksFor S.Store D.finds Export settings naming.entry
        (O.contents held.old) (O.contents held.new)) }
{
    let (alloc, users) = (site.alloc, site.users_alone()?);
    export_store(alloc, users, settings, naming, database, held)?;
    Ok(())
}

/// Prints the passes of the store.
fn audit<'a, S: Alter + Drop, D: Database<S>, O: Write>(
    site: &Site<'_, 'a>,
    database: D,
    settings: Settings,
    naming: Naming<'_>,
    held: &mut O,
) -> Result<(), Fault<'a>>
    ensures { IfOk result (λ _. LooksFor S.Store D.finds Audit settings naming.entry
        (O.contents held.old) (O.contents held.new)) }
{
    let (alloc, users) = (site.alloc, site.users_alone()?);
    audit_store(alloc, users, settings, naming, database, held)?;
    Ok(())
}

/// Prints the gates that have failures.
fn gates<'a, S: Alter + Drop, D: Database<S>, O: Write>(
    site: &Site<'_, 'a>,
    database: D,
    settings: Settings,
    naming: Naming<'_>,
    held: &mut O,
) -> Result<(), Fault<'a>>
    ensures { IfOk result (λ _. LooksFor S.Store D.finds Gates settings naming.entry
        (O.contents held.old) (O.contents held.new)) }
{
    let (alloc, users) = (site.alloc, site.users_alone()?);
    gates_store(alloc, users, settings, naming, database, held)?;
    Ok(())
}

/// Clears the failures of a user.
fn unlock<'a, S: Alter + Drop, D: Database<S>>(
    site: &Site<'_, 'a>,
    database: D,
    settings: Settings,
    naming: Naming<'_>,
    user: &'a str,
) -> Result<(), Fault<'a>>
    ensures { (old : Option (List ℕ)) (new : Option (List ℕ)) → IfOk result (λ _. LooksFor S.Store D.finds (Unlock
        user.entry) settings naming.entry old new) }
{
    let (alloc, users) = (site.alloc, site.users_alone()?);
    let _store = unlock_store(alloc, users, settings, naming, user, database)?;
    Ok(())
}

/// Looks at the store that `naming` finds, with the settings of its users file.
fn look_by<'a, S: Alter + Drop, D: Database<S>, O: Write>(
    site: &Site<'_, 'a>,
    database: D,
    settings: Settings,
    naming: Naming<'_>,
    look: Look<'a>,
    held: &mut O,
) -> Result<(), Fault<'a>>
    ensures { IfOk result (λ _. LooksFor S.Store D.finds look.entry settings naming.entry
        (O.contents held.old) (O.contents held.new)) }
{
    match look {
        Look::Export => export(site, database, settings, naming, held),
        Look::Audit => audit(site, database, settings, naming, held),
        Look::Gates => gates(site, database, settings, naming, held),
        Look::Unlock { user } => unlock(site, database, settings, naming, user),
    }
}

/// Looks at the store of the given node, or without one at that of the node which its tables name.
fn look_by_place<'a, S: Alter + Drop, D: Database<S>, O: Write>(
    site: &Site<'_, 'a>,
    database: D,
    node: Option<u8>,
    look: Look<'a>,
    held: &mut O,
) -> Result<(), Fault<'a>>
    ensures { IfOk result (λ _. LooksFor S.Store D.finds look.entry default_limits (ByPlace node)
        (O.contents held.old) (O.contents held.new)) }
{
    let settings = Settings::default();
    look_by(site, database, settings, Naming::ByPlace(node), look, held)
}

/// Looks at the store of the member `node` of the cluster that the text of the cluster file describes.
fn look_by_name<'a, S: Alter + Drop, D: Database<S>, O: Write>(
    site: &Site<'_, 'a>,
    database: D,
    node: u8,
    look: Look<'a>,
    held: &mut O,
) -> Result<(), Fault<'a>>
    requires { 1 ≤ node }
    ensures { IfOk result (λ _. LooksByName S.Store D.finds node look.entry site.now.cluster.now
        (O.contents held.old) (O.contents held.new)) }
{
    let (settings, place, named) = site.member(node)?;
    let naming = Naming::ByName(place.me(), &named);
    look_by(site, database, settings, naming, look, held)
}

/// Looks at the store of its owner: prints what is in it, or clears the failures of a user.
pub(crate) fn look<'a, S: Alter + Drop, D: Database<S>, O: Write>(
    site: &Site<'_, 'a>,
    database: D,
    owner: Owner<'a>,
    look: Look<'a>,
    held: &mut O,
) -> Result<(), Fault<'a>>
    requires { IsOwnerInRange owner }
    ensures { IfOk result (λ _. IsLookDone S.Store D.finds owner.entry look.entry site.now.cluster.now
        (O.contents held.old) (O.contents held.new)) }
{
    match owner {
        Owner::Any => look_by_place(site, database, None, look, held),
        Owner::Node(node) => look_by_place(site, database, Some(node), look, held),
        Owner::Member { node, .. } => look_by_name(site, database, node, look, held),
    }
}
