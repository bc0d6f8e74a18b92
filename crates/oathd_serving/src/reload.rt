//! Serves a node by names whose users file is taken again when it changes.

ghost use Rattle.std.specs.Prelude.{◌≡◌, ◌⊎◌, ◌<◌, ◌≤◌, ◌^◌, false, Err, IfErr, IfOk};
ghost use Rattle.sqlite_wal.specs.Files.{image_at};
ghost use Rattle.oathd_database.specs.File.{FindsFiles};
ghost use Rattle.oathd_words.specs.StoreWords.{IsClusterInRange};
ghost use Rattle.oathd_site.specs.Names.{IsNamedOf};
ghost use Rattle.oathd_serving.specs.Ends.{NamedEndsSo};
ghost use Rattle.oathd_serving.specs.Reload.{AreServedBoots, IsBoot, IsNextOf, IsOfBoot, IsRefused, IsReloaded, IsTaken};
ghost use Rattle.oathd_serving.specs.Serve.{IsAskedFor, IsMemberOf, IsRunOf};

use crate::refusal::{Refusal, write_refusal};
use crate::serving::lines_of;
use crate::shared::tell_shared_secret;
use crate::watch::{Found, Stamp, Watch, stamp_of};
use floor_store::StoreFault;
use node_serving::{KeptSocket, Serving};
use oathd_roster::{NamedCluster, read_named_users};
use oathd_site::{Fault, FilesBefore, NamesFault, Site, named_cluster, present_moment, users_text};
use oathd_tasks::{cluster_in, cluster_key, member_place};
use oathd_words::{ClientWords, ClusterWords};
use otp_core::Settings;
use sqlite::{FileFrom, FileStore, Start, Unknown};
use sqlite_trees::store::Store;
use std::alloc::Global;
use std::io::Write;
use store_serving::serve_named_store;
use token_names::Salt;

/// What a boot of the node begins with.
#[derive(Drop)]
struct Boot {
    /// The text of the users file, and the stamp of the file when it was read.
    text: Vec<u8>,
    taken: Option<Stamp>,
    /// The number of turns that are left.
    turns: u64,
}

/// What holds of the boots after the first one.
trait Later {
    ghost use Rattle.node_serving.specs.declared.serving.Serving.{Serving};
    ghost use Rattle.oathd_roster.specs.declared.cluster.NamedCluster.{NamedCluster};
    ghost use Rattle.oathd_serving.specs.declared.reload.Boot.{Boot};

    // A boot with the given parameters and cluster, and the next one.
    ghost later: { Serving → NamedCluster → Boot → Boot → Type 0 };
}

impl Later for Boot {
    ghost use Rattle.std.specs.Prelude.{◌≡◌};
    ghost use Rattle.sqlite_wal.specs.Files.{image_at};
    ghost use Rattle.oathd_database.specs.File.{FindsFiles};
    ghost use Rattle.oathd_serving.specs.Reload.{IsBoot};

    ghost later = { λ asked named. IsBoot ⟦<FileStore<FileFrom<Unknown>> as Store>⟧
        (FindsFiles (image_at ⟦<Unknown as Start>⟧)) (λ other. other ≡ asked) (λ other. other ≡ named) };
}

/// Refuses a text that a node does not take: with a fault, without a token, or with one name for two tokens.
fn check_text(alloc: Global, text: &[u8], settings: Settings, salt: &Salt) -> Result<(), Refusal>
    ensures taken { IfOk result (λ _. IsTaken settings salt.now text.now) }
    ensures refused { IfErr result (IsRefused settings salt.now text.now) }
{
    match read_named_users(alloc, text, settings, 0, salt) {
        Ok(named) if named.users.book.len() == 0 => Err(Refusal::NoTokens),
        Ok(_) => Ok(()),
        Err(fault) => Err(Refusal::from(fault)),
    }
}

/// Writes the log's line of a users file that is not taken, if there is a log. A failed write is ignored.
fn tell_refusal<W: Write>(is_logged: bool, refusal: Refusal, writer: &mut W)
    ensures unlogged { is_logged ≡ false → writer.new ≡ writer.old }
{
    if is_logged {
        let _written = write_refusal(writer, refusal);
    }
}

/// Returns the text of the next boot, after one with `text` for which `found` was found. A refusal is told in the log,
/// if there is one, and changes nothing.
fn next_text<W: Write>(
    alloc: Global,
    text: Vec<u8>,
    found: Option<Found>,
    serving: &Serving<'_>,
    salt: &Salt,
    writer: &mut W,
) -> Vec<u8>
    ensures next { IsNextOf serving.now.settings salt.now text.items found result.items }
    ensures unlogged { serving.now.is_logged ≡ false → writer.new ≡ writer.old }
{
    match found {
        Some(Found::Text(other)) => match check_text(alloc, &other, serving.settings, salt) {
            Ok(()) => other,
            Err(refusal) => {
                tell_refusal(serving.is_logged, refusal, writer);
                text
            }
        },
        Some(Found::Unread(refusal)) => {
            tell_refusal(serving.is_logged, refusal, writer);
            text
        }
        None => text,
    }
}

/// Serves a node in one boot, until its users file changes. Returns what the next boot begins with.
fn serve_boot<'a, S: Start, O: Write>(
    site: &Site<'_, 'a>,
    start: S,
    cluster: &NamedCluster,
    serving: &Serving<'_>,
    boot: Boot,
    socket: &mut KeptSocket,
    log: &mut O,
) -> Result<Boot, Fault<'a>>
    requires { boot.turns < 2 ^ 54 }
    ensures boot { IfOk result (IsBoot ⟦<FileStore<FileFrom<S>> as Store>⟧ (FindsFiles (image_at S.Start))
        (λ asked. asked ≡ serving.now) (λ named. named ≡ cluster.now) boot) }
    ensures fewer { IfOk result (λ next. (boot.turns ≡ 0) ⊎ (next.turns < boot.turns)) }
    ensures fault { IfErr result (λ fault. NamedEndsSo ⟦<FileStore<FileFrom<S>> as Store>⟧
        (FindsFiles (image_at S.Start)) (IsOfBoot (λ asked. asked ≡ serving.now) boot.turns)
        (λ named. named ≡ cluster.now) (Err fault)) }
    ensures unlogged { serving.now.is_logged ≡ false → log.new ≡ log.old }
{
    let (alloc, rt) = (site.alloc, site.rt);
    let moment = present_moment(rt)?;
    let Boot { text, taken, turns } = boot;
    let Ok(own) = serving.again(alloc, turns) else {
        return Err(Fault::Database(oathd_database::Fault::Memory));
    };
    let (settings, member) = (serving.settings, serving.place.me());
    tell_shared_secret(alloc, serving.is_logged, &text, settings, log);
    let watch = Watch::new(alloc, rt, site.users, settings, member, &text, taken);
    let found = site.found(start);
    let (_served, watch) = serve_named_store(
        alloc,
        rt,
        text.as_slice(),
        moment,
        own,
        cluster,
        found,
        socket,
        watch,
        log,
    )?;
    let (left, found, taken) = watch.end();
    let text = next_text(alloc, text, found, serving, &cluster.salt, log);
    let turns = left.min(turns);
    Ok(Boot { text, taken, turns })
}

/// Refuses to open the store again after a file of it was removed or replaced.
fn check_files<'a>(site: &Site<'_, 'a>, files: FilesBefore) -> Result<(), Fault<'a>> {
    if files.is_replaced(site.rt, site.database) {
        return Err(Fault::from(oathd_database::Fault::Store(StoreFault::Disk)));
    }
    Ok(())
}

/// Serves a node over its store by names. Takes its users file again when it changes. The store's files stay the
/// same from one boot to the next.
fn serve_boots<'a, S: Start, O: Write>(
    site: &Site<'_, 'a>,
    start: S,
    cluster: &NamedCluster,
    serving: Serving<'_>,
    log: &mut O,
) -> Result<(), Fault<'a>>
    ensures boots { IfOk result (λ _. AreServedBoots
        (IsBoot ⟦<FileStore<FileFrom<S>> as Store>⟧ (FindsFiles (image_at S.Start)) (λ asked. asked ≡ serving.entry)
        (λ named. named ≡ cluster.now))
        (⟦<Boot as Later>⟧.later serving.entry cluster.now) serving.entry.turns) }
    ensures unlogged { serving.entry.is_logged ≡ false → log.new ≡ log.old }
{
    let moment = present_moment(site.rt)?;
    let taken = stamp_of(site.rt, site.users);
    let text = users_text(site.alloc, site.rt, site.users, serving.settings, moment)?;
    let mut socket = KeptSocket::new();
    let turns = serving.turns;
    let first = Boot { text, taken, turns };
    let files = FilesBefore::at(site.rt, site.database);
    let mut boot = serve_boot(site, start, cluster, &serving, first, &mut socket, log)?;
    while boot.turns > 0 {
        check_files(site, files)?;
        boot = serve_boot(site, Unknown, cluster, &serving, boot, &mut socket, log)?;
    }
    Ok(())
}

/// Serves the member `node` of the cluster that the text of the cluster file describes. Takes its users file again
/// when it changes. The cluster file has to give names.
fn reload_member<'a, S: Start, O: Write>(
    site: &Site<'_, 'a>,
    start: S,
    node: u8,
    turns: u64,
    is_logged: bool,
    clients: ClientWords<'a>,
    log: &mut O,
) -> Result<(), Fault<'a>>
    requires node { 1 ≤ node }
    requires turns { turns < 2 ^ 54 }
    ensures boot { IfOk result (λ _. (first : Boot) × (next : Boot) × (first.turns ≡ turns)
        × IsBoot ⟦<FileStore<FileFrom<S>> as Store>⟧ (FindsFiles (image_at S.Start))
        (λ serving. IsMemberOf node site.now.cluster.now serving × IsRunOf turns is_logged clients.entry serving)
        (IsNamedOf site.now.cluster.now) first next) }
    ensures unlogged { is_logged ≡ false → log.new ≡ log.old }
{
    let cluster = cluster_in(site.alloc, site.cluster)?;
    let place = member_place(&cluster, node)?;
    let key = cluster_key(site.alloc, site.rt, &cluster.key)?;
    let lines = lines_of(site, clients)?;
    let Some(named) = named_cluster(&cluster, place.n())? else {
        return Err(Fault::Names(NamesFault::PlainReload));
    };
    match Serving::of_member(&cluster, key, place, turns, is_logged, lines) {
        Ok(serving) => serve_boots(site, start, &named, serving, log),
        Err(_) => Err(Fault::Database(oathd_database::Fault::Memory)),
    }
}

/// Serves a node of the cluster that the text of the cluster file describes. Takes its users file again when it
/// changes.
pub(crate) fn reload<'a, S: Start, O: Write>(
    site: &Site<'_, 'a>,
    start: S,
    cluster: ClusterWords<'a>,
    turns: u64,
    is_logged: bool,
    clients: ClientWords<'a>,
    log: &mut O,
) -> Result<(), Fault<'a>>
    requires cluster { IsClusterInRange cluster }
    requires turns { turns < 2 ^ 54 }
    ensures boot { IfOk result (λ _. IsReloaded ⟦<FileStore<FileFrom<S>> as Store>⟧ (FindsFiles (image_at S.Start))
        (IsAskedFor cluster.entry turns is_logged clients.entry site.now.cluster.now) cluster.entry turns
        site.now.cluster.now) }
    ensures unlogged { is_logged ≡ false → log.new ≡ log.old }
{
    match cluster {
        ClusterWords::Given { .. } => Err(Fault::Names(NamesFault::PlainReload)),
        ClusterWords::Named { node, .. } => {
            reload_member(site, start, node, turns, is_logged, clients, log)
        }
    }
}
