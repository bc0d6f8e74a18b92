//! Carries out the commands over a stopped store by names.

ghost use Rattle.oathd_database.specs.declared.fault.Fault.TheVariants as database;
ghost use Rattle.std.specs.Prelude.{◌≡◌, ◌<◌, length, IfOk, IfSome, Some};
ghost use Rattle.floor_sql.specs.Usable.{IsNode};
ghost use Rattle.otp_core.specs.Range.{IsMoment};
ghost use Rattle.std.specs.Option.{unwrap_or};
ghost use Rattle.oathd_acts.specs.Named.{AreNamedFloorsTold, IsBegun, IsMemberLevelled, IsMigratedByNames, IsRemadeByNames, IsRosterTold};

use floors_file::MAX_NAMED_FLOORS_LEN;
use oathd_database::Database;
use oathd_floors::{
    Former, drop_retired_rows, level_named_store, name_store, remake_named_store, tell_named_floors,
};
use oathd_roster::{NamedCluster, begin_store};
use oathd_seats::roster_named_store;
use oathd_site::{
    Fault, NamesFault, Site, checked_users_text, floors_texts, present_moment, with_named_paths,
};
use oathd_words::FormerWords;
use otp_core::Settings;
use sqlite::Alter;
use std::io::{self, Write};
use vote_core::Place;
use vote_wire::ClusterKey;

/// Returns `moment`, or `now` if None.
fn moment_or(moment: Option<u64>, now: u64) -> u64
    requires given { IfSome moment IsMoment }
    requires present { IsMoment now }
    ensures value { result ≡ unwrap_or moment now }
    ensures in_range { IsMoment result }
{
    match moment {
        Some(moment) => moment,
        None => now,
    }
}

/// Checks that the cluster had `members` members until now. Votes count for the number of members in which they were
/// cast, and a store without names doesn't say it.
fn check_members<'a>(members_were: Option<u8>, members: u8) -> Result<(), Fault<'a>>
    ensures { IfOk result (λ _. members_were ≡ Some members) }
{
    match members_were {
        Some(were) if were == members => Ok(()),
        Some(were) => Err(Fault::Names(NamesFault::OtherMembers(were, members))),
        None => Err(Fault::Names(NamesFault::NoMembersWere)),
    }
}

/// Creates the store of the member `node` for a cluster that never served, and prints what was made.
pub(crate) fn begin<'a, S: Alter + Drop, D: Database<S>, O: Write>(
    site: &Site<'_, 'a>,
    database: D,
    node: u8,
    held: &mut O,
) -> Result<(), Fault<'a>>
    requires { IsNode node }
    ensures { IfOk result (λ _. IsBegun S.Store D.finds node site.now.cluster.now
        (O.contents held.old) (O.contents held.new)) }
{
    let (settings, place, named) = site.member(node)?;
    let moment = present_moment(site.rt)?;
    let users = site.users(settings, moment)?;
    let alloc = site.alloc;
    let _store = begin_store(
        alloc, users, settings, moment, place, &named, database, held,
    )?;
    Ok(())
}

/// Prints the rows of a member's store, or drops the rows of retired tokens whose floors other rows keep and prints
/// how many.
pub(crate) fn roster<'a, S: Alter + Drop, D: Database<S>, O: Write>(
    site: &Site<'_, 'a>,
    database: D,
    node: u8,
    drops: bool,
    held: &mut O,
) -> Result<(), Fault<'a>>
    requires { IsNode node }
    ensures { IfOk result (λ _. IsRosterTold S.Store D.finds node drops site.now.cluster.now
        (O.contents held.old) (O.contents held.new)) }
{
    let (settings, place, named) = site.member(node)?;
    let (alloc, users, me) = (site.alloc, site.users_alone()?, place.me());
    if drops {
        let _conn = drop_retired_rows(alloc, users, settings, me, &named, database, held)?;
        return Ok(());
    }
    roster_named_store(alloc, users, settings, me, &named, database, held)?;
    Ok(())
}

/// Gives the tokens of a member's store names.
pub(crate) fn migrate_named<'a, S: Alter + Drop, D: Database<S>>(
    site: &Site<'_, 'a>,
    database: D,
    node: u8,
    members_were: Option<u8>,
) -> Result<(), Fault<'a>>
    requires { IsNode node }
    ensures { IfOk result (λ _. IsMigratedByNames S.Store D.finds node members_were site.now.cluster.now) }
{
    let (_, place, named) = site.member(node)?;
    check_members(members_were, place.n())?;
    let users = site.users_alone()?;
    let _conn = name_store(site.alloc, users, place.me(), &named, database)?;
    Ok(())
}

/// Raises the floors of a member's store (floor: the first free factor) to the greatest in floors files.
pub(crate) fn level_named<'a, S: Alter + Drop, D: Database<S>>(
    site: &Site<'_, 'a>,
    database: D,
    node: u8,
    floors: Vec<&'a str>,
) -> Result<(), Fault<'a>>
    requires { IsNode node }
    ensures { IfOk result (λ _. IsMemberLevelled S.Store D.finds node (length floors.entry.items)
        site.now.cluster.now) }
{
    let (_, place, named) = site.member(node)?;
    let key = site.own_key()?;
    let now = present_moment(site.rt)?;
    let texts = floors_texts(site.alloc, site.rt, &floors, MAX_NAMED_FLOORS_LEN)?;
    let alloc = site.alloc;
    match level_named_store(
        alloc,
        place.me(),
        now,
        &named,
        key.as_slice(),
        &texts,
        database,
    ) {
        Ok(_store) => Ok(()),
        Err(fault) => Err(with_named_paths(&floors, fault)),
    }
}

/// Prints the floors file of the store by names.
pub(crate) fn floors_by_names<'a, S: Alter + Drop, D: Database<S>, O: Write>(
    site: &Site<'_, 'a>,
    database: D,
    node: u8,
    named: &NamedCluster,
    key: &ClusterKey,
    held: &mut O,
) -> Result<(), Fault<'a>>
    ensures { IfOk result (λ _. AreNamedFloorsTold S.Store D.finds named.now key.now node
        (O.contents held.old) (O.contents held.new)) }
{
    let moment = present_moment(site.rt)?;
    let alloc = site.alloc;
    tell_named_floors(alloc, node, moment, named, key.as_slice(), database, held)?;
    Ok(())
}

/// Creates a replacement store by names from the floors files of former stores, and prints what was made.
pub(crate) fn remake_named<'a, S: Alter + Drop, D: Database<S>, O: Write>(
    site: &Site<'_, 'a>,
    database: D,
    settings: Settings,
    place: Place,
    moment: Option<u64>,
    named: &NamedCluster,
    key: &ClusterKey,
    former: FormerWords<'a>,
    held: &mut O,
) -> Result<(), Fault<'a>>
    requires { IfSome moment IsMoment }
    ensures { IfOk result (λ _. IsRemadeByNames S.Store D.finds settings place moment named.now key.now former.entry
        (O.contents held.old) (O.contents held.new)) }
{
    if former.since == 0 {
        return Err(Fault::Names(NamesFault::NoSince));
    }
    let now = present_moment(site.rt)?;
    let moment = moment_or(moment, now);
    let (alloc, rt) = (site.alloc, site.rt);
    let users = checked_users_text(alloc, rt, site.users, settings, moment)?;
    let texts = floors_texts(alloc, rt, &former.floors, MAX_NAMED_FLOORS_LEN)?;
    let lost = match &former.lost {
        Some(lost) => Some(lost.as_slice()),
        None => None,
    };
    let taken = Former {
        lost,
        // A moment that lies ahead counts as the present one.
        since: former.since.min(now),
        now,
        texts: &texts,
    };
    match remake_named_store(
        alloc,
        users.as_slice(),
        settings,
        moment,
        place,
        named,
        key.as_slice(),
        taken,
        database,
        held,
    ) {
        Ok(_store) => Ok(()),
        Err(fault) => Err(with_named_paths(&former.floors, fault)),
    }
}
