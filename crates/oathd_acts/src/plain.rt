//! Carries out the commands over a stopped store that create, upgrade or level it, or print its floors.

ghost use Rattle.oathd_database.specs.declared.fault.Fault.TheVariants as database;
ghost use Rattle.oathd_site.specs.declared.names.NamesFault.TheVariants as names;
ghost use Rattle.std.specs.Prelude.{◌≡◌, ◌≢◌, ◌<◌, ◌≤◌, None, length, IfErr, IfOk, IfSome, Option, Some};
ghost use Rattle.floor_sql.specs.Usable.{IsNode};
ghost use Rattle.otp_core.specs.Range.{IsMoment};
ghost use Rattle.cluster_file.specs.ClusterFile.{cluster_value};
ghost use Rattle.oathd_words.specs.StoreWords.{IsNodeInRange};
ghost use Rattle.oathd_words.specs.declared.store_words.Action.TheVariants.{Floors, Init, Remake};
ghost use Rattle.oathd_acts.specs.Plain.{AreFloorsTold, AreMembersFloorsTold, IsCreated, IsLevelled, IsLevelledBy, IsMemberCreated, IsMemberReplaced, IsMigrated, IsMigratedBy, IsMomentOf, IsReplaced, IsReplacedSo};
ghost use Rattle.oathd_acts.specs.Acting.{IsStoppedDone};

use crate::named::{floors_by_names, level_named, migrate_named, remake_named};
use cluster_file::Cluster;
use floor_sql::SqlStore;
use floors_file::MAX_FLOORS_LEN;
use oathd_database::{
    Database, LostNode, floors_store, init_lost_store, init_member_store, init_store, level_store,
    migrate_store, read_users, write_store,
};
use oathd_site::{
    Fault, NamesFault, Site, checked_users_text, floors_texts, named_cluster, present_moment,
    users_text, with_paths,
};
use oathd_tasks::{cluster_in, cluster_key, member_place};
use oathd_words::{CountWords, FormerWords, ImportWords, Owner};
use otp_core::Settings;
use sqlite::Alter;
use std::io::{self, Write};
use std::time::Clock as TimeSource;
use vote_core::Place;

/// Returns `moment`, or the current time if None.
fn moment_of<'a, T: TimeSource>(source: &T, moment: Option<u64>) -> Result<u64, Fault<'a>>
    requires { IfSome moment IsMoment }
    ensures moment { IfOk result (IsMomentOf moment) }
    ensures in_range { IfOk result IsMoment }
    ensures fault { IfErr result (λ fault. (fault ≡ Fault.Database database.NoClock) × (moment ≡ None)) }
{
    match moment {
        Some(moment) => Ok(moment),
        None => present_moment(source),
    }
}

/// Refuses a cluster file that gives names, for an `init` that does not say whether the cluster has served.
fn refuse_names<'a>(cluster: &Cluster<'_>) -> Result<(), Fault<'a>>
    ensures unnamed { IfOk result (λ _. (cluster_value cluster.now).names ≡ None) }
    ensures fault { IfErr result (λ f.
        (f ≡ Fault.Names names.PlainInit) × ((cluster_value cluster.now).names ≢ None)) }
{
    match cluster.names {
        Some(_) => Err(Fault::Names(NamesFault::PlainInit)),
        None => Ok(()),
    }
}

/// Creates the node's store, as an import with `settings`.
fn init_given<'a, S: Alter + Drop, D: Database<S>>(
    site: &Site<'_, 'a>,
    database: D,
    node: u8,
    settings: Settings,
    moment: Option<u64>,
) -> Result<(), Fault<'a>>
    requires node { IsNode node }
    requires moment { IfSome moment IsMoment }
    ensures { IfOk result (λ _. IsCreated S.Store D.finds node settings moment) }
{
    let moment = moment_of(site.rt, moment)?;
    let users = site.users(settings, moment)?;
    let _store = init_store(site.alloc, users, settings, moment, node, database)?;
    Ok(())
}

/// Creates the store of a member of the cluster that the text of the cluster file describes, and prints what was
/// made.
fn init_member<'a, S: Alter + Drop, D: Database<S>, O: Write>(
    site: &Site<'_, 'a>,
    database: D,
    node: u8,
    moment: Option<u64>,
    held: &mut O,
) -> Result<(), Fault<'a>>
    requires node { IsNode node }
    requires moment { IfSome moment IsMoment }
    ensures { IfOk result (λ _. IsMemberCreated S.Store D.finds node moment site.now.cluster.now
        (O.contents held.old) (O.contents held.new)) }
{
    let cluster = cluster_in(site.alloc, site.cluster)?;
    refuse_names(&cluster)?;
    let place = member_place(&cluster, node)?;
    let moment = moment_of(site.rt, moment)?;
    let (alloc, settings) = (site.alloc, cluster.settings);
    let users = site.users(settings, moment)?;
    let _store = init_member_store(alloc, users, settings, moment, place, database, held)?;
    Ok(())
}

/// Creates the node's store, as an import with the settings that the words give. Prints what was made if the words
/// name a cluster file.
pub(crate) fn init<'a, S: Alter + Drop, D: Database<S>, O: Write>(
    site: &Site<'_, 'a>,
    database: D,
    node: u8,
    import: ImportWords<'a>,
    moment: Option<u64>,
    held: &mut O,
) -> Result<(), Fault<'a>>
    requires node { IsNode node }
    requires moment { IfSome moment IsMoment }
    ensures { IfOk result (λ _. IsStoppedDone S.Store D.finds (Init node import.entry moment) site.now.cluster.now
        (O.contents held.old) (O.contents held.new)) }
{
    match import {
        ImportWords::Given(settings) => init_given(site, database, node, settings, moment),
        ImportWords::Named(_) => init_member(site, database, node, moment, held),
    }
}

/// Creates a replacement store for a node from the floors files of former stores, as an import with `settings`.
fn remake_store<'a, S: Alter + Drop, D: Database<S>>(
    site: &Site<'_, 'a>,
    database: D,
    node: u8,
    settings: Settings,
    moment: Option<u64>,
    former: FormerWords<'a>,
) -> Result<SqlStore<S>, Fault<'a>>
    requires node { IsNode node }
    requires moment { IfSome moment IsMoment }
    ensures { IfOk result (IsReplaced S.Store D.finds node settings moment former.entry) }
{
    let moment = moment_of(site.rt, moment)?;
    let (alloc, rt) = (site.alloc, site.rt);
    let users = checked_users_text(alloc, rt, site.users, settings, moment)?;
    let texts = floors_texts(alloc, rt, &former.floors, MAX_FLOORS_LEN)?;
    let lost = match &former.lost {
        Some(lost) => Some(lost.as_slice()),
        None => None,
    };
    let lost = LostNode {
        node,
        lost,
        since: former.since,
    };
    match init_lost_store(
        alloc,
        users.as_slice(),
        settings,
        moment,
        lost,
        &texts,
        database,
    ) {
        Ok(store) => Ok(store),
        Err(fault) => Err(with_paths(&former.floors, fault)),
    }
}

/// Creates a replacement store, as [`remake_store`] does, and prints what was made.
fn remake_numbered<'a, S: Alter + Drop, D: Database<S>, O: Write>(
    site: &Site<'_, 'a>,
    database: D,
    settings: Settings,
    place: Place,
    moment: Option<u64>,
    former: FormerWords<'a>,
    held: &mut O,
) -> Result<(), Fault<'a>>
    requires node { IsNode place.me }
    requires moment { IfSome moment IsMoment }
    ensures { IfOk result (λ _. IsReplacedSo S.Store D.finds settings place moment former.entry
        (O.contents held.old) (O.contents held.new)) }
{
    let store = remake_store(site, database, place.me(), settings, moment, former)?;
    write_store(place, &store, held)?;
    Ok(())
}

/// Creates a replacement store for a member of the cluster that the text of the cluster file describes, by names if
/// it gives names. Prints what was made.
fn remake_member<'a, S: Alter + Drop, D: Database<S>, O: Write>(
    site: &Site<'_, 'a>,
    database: D,
    node: u8,
    moment: Option<u64>,
    former: FormerWords<'a>,
    held: &mut O,
) -> Result<(), Fault<'a>>
    requires node { IsNode node }
    requires moment { IfSome moment IsMoment }
    ensures { IfOk result (λ _. IsMemberReplaced S.Store D.finds node moment former.entry site.now.cluster.now
        (O.contents held.old) (O.contents held.new)) }
{
    let cluster = cluster_in(site.alloc, site.cluster)?;
    let place = member_place(&cluster, node)?;
    let settings = cluster.settings;
    let named = named_cluster(&cluster, place.n())?;
    match named {
        Some(named) => {
            let key = cluster_key(site.alloc, site.rt, &cluster.key)?;
            remake_named(
                site, database, settings, place, moment, &named, &key, former, held,
            )
        }
        None => remake_numbered(site, database, settings, place, moment, former, held),
    }
}

/// Creates a replacement store with the settings that the words give. Prints what was made if the words name a
/// cluster file.
pub(crate) fn remake<'a, S: Alter + Drop, D: Database<S>, O: Write>(
    site: &Site<'_, 'a>,
    database: D,
    node: u8,
    import: ImportWords<'a>,
    moment: Option<u64>,
    former: FormerWords<'a>,
    held: &mut O,
) -> Result<(), Fault<'a>>
    requires node { IsNode node }
    requires moment { IfSome moment IsMoment }
    ensures { IfOk result (λ _. IsStoppedDone S.Store D.finds (Remake node import.entry moment former.entry)
        site.now.cluster.now (O.contents held.old) (O.contents held.new)) }
{
    match import {
        ImportWords::Given(settings) => {
            let _store = remake_store(site, database, node, settings, moment, former)?;
            Ok(())
        }
        ImportWords::Named(_) => remake_member(site, database, node, moment, former, held),
    }
}

/// Upgrades the store of a node without names to the current format.
fn migrate_numbered<'a, S: Alter + Drop, D: Database<S>>(
    site: &Site<'_, 'a>,
    database: D,
    node: u8,
) -> Result<(), Fault<'a>>
    ensures { IfOk result (λ _. IsMigrated S.Store D.finds node) }
{
    let _conn = migrate_store(site.alloc, site.users_alone()?, node, database)?;
    Ok(())
}

/// Upgrades the store to the current format, by names if its owner has a cluster file.
pub(crate) fn migrate<'a, S: Alter + Drop, D: Database<S>>(
    site: &Site<'_, 'a>,
    database: D,
    owner: Owner<'a>,
    members_were: Option<u8>,
) -> Result<(), Fault<'a>>
    requires { IsNodeInRange owner }
    ensures { IfOk result (λ _. IsMigratedBy S.Store D.finds owner.entry members_were site.now.cluster.now) }
{
    match owner {
        Owner::Any => unreachable!(),
        Owner::Node(node) => migrate_numbered(site, database, node),
        Owner::Member { node, .. } => migrate_named(site, database, node, members_were),
    }
}

/// Prints the floors file of the store of a node of `members` members.
fn floors_among<'a, S: Alter + Drop, D: Database<S>, O: Write>(
    site: &Site<'_, 'a>,
    database: D,
    node: u8,
    members: u8,
    held: &mut O,
) -> Result<(), Fault<'a>>
    ensures { IfOk result (λ _. AreFloorsTold S.Store D.finds node members
        (O.contents held.old) (O.contents held.new)) }
{
    let moment = present_moment(site.rt)?;
    let users = site.users_alone()?;
    floors_store(site.alloc, users, node, members, moment, database, held)?;
    Ok(())
}

/// Prints the floors file of a member of the cluster that the text of the cluster file describes, by names if it
/// gives names.
fn floors_of_member<'a, S: Alter + Drop, D: Database<S>, O: Write>(
    site: &Site<'_, 'a>,
    database: D,
    node: u8,
    held: &mut O,
) -> Result<(), Fault<'a>>
    requires { 1 ≤ node }
    ensures { IfOk result (λ _. AreMembersFloorsTold S.Store D.finds node site.now.cluster.now
        (O.contents held.old) (O.contents held.new)) }
{
    let cluster = cluster_in(site.alloc, site.cluster)?;
    let place = member_place(&cluster, node)?;
    let named = named_cluster(&cluster, place.n())?;
    match named {
        Some(named) => {
            let key = cluster_key(site.alloc, site.rt, &cluster.key)?;
            floors_by_names(site, database, node, &named, &key, held)
        }
        None => floors_among(site, database, node, place.n(), held),
    }
}

/// Prints the floors file of the store.
pub(crate) fn floors<'a, S: Alter + Drop, D: Database<S>, O: Write>(
    site: &Site<'_, 'a>,
    database: D,
    node: u8,
    count: CountWords<'a>,
    held: &mut O,
) -> Result<(), Fault<'a>>
    requires { 1 ≤ node }
    ensures { IfOk result (λ _. IsStoppedDone S.Store D.finds (Floors node count.entry) site.now.cluster.now
        (O.contents held.old) (O.contents held.new)) }
{
    match count {
        CountWords::Given(members) => floors_among(site, database, node, members, held),
        CountWords::Named(_) => floors_of_member(site, database, node, held),
    }
}

/// Raises the floors of a node to the greatest in the floors files at `paths`, with the text of the users file.
fn level_by<'a, S: Alter + Drop, D: Database<S>>(
    site: &Site<'_, 'a>,
    database: D,
    node: u8,
    users: &[u8],
    paths: &[&'a str],
) -> Result<(), Fault<'a>>
    ensures { IfOk result (λ _. IsLevelled S.Store D.finds node (length paths.now)) }
{
    let texts = floors_texts(site.alloc, site.rt, paths, MAX_FLOORS_LEN)?;
    match level_store(site.alloc, users, node, &texts, database) {
        Ok(_store) => Ok(()),
        Err(fault) => Err(with_paths(paths, fault)),
    }
}

/// Raises the floors of a node without names to the greatest in floors files.
fn level_numbered<'a, S: Alter + Drop, D: Database<S>>(
    site: &Site<'_, 'a>,
    database: D,
    node: u8,
    floors: Vec<&'a str>,
) -> Result<(), Fault<'a>>
    ensures { IfOk result (λ _. IsLevelled S.Store D.finds node (length floors.entry.items)) }
{
    let (alloc, rt) = (site.alloc, site.rt);
    let users = users_text(alloc, rt, site.users, Settings::default(), 0)?;
    match level_by(site, database, node, users.as_slice(), &floors) {
        Ok(()) => Ok(()),
        Err(fault) => {
            // A fault of the users file comes first.
            let _users = read_users(alloc, users.as_slice(), Settings::default(), 0)?;
            Err(fault)
        }
    }
}

/// Raises the floors of the store (floor: the first free factor) to the greatest in floors files, by names if its
/// owner has a cluster file.
pub(crate) fn level<'a, S: Alter + Drop, D: Database<S>>(
    site: &Site<'_, 'a>,
    database: D,
    owner: Owner<'a>,
    floors: Vec<&'a str>,
) -> Result<(), Fault<'a>>
    requires { IsNodeInRange owner }
    ensures { IfOk result (λ _. IsLevelledBy S.Store D.finds owner.entry (length floors.entry.items)
        site.now.cluster.now) }
{
    match owner {
        Owner::Any => unreachable!(),
        Owner::Node(node) => level_numbered(site, database, node, floors),
        Owner::Member { node, .. } => level_named(site, database, node, floors),
    }
}
