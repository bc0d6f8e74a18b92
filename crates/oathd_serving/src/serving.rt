//! Serves a node as the words of a command ask for.

ghost use Rattle.std.specs.Prelude.{◌≡◌, ◌<◌, ◌≤◌, ◌^◌, None, IfErr, IfOk, Option, Some};
ghost use Rattle.sqlite_wal.specs.Files.{image_at};
ghost use Rattle.cluster_file.specs.ClusterFile.{cluster_of};
ghost use Rattle.oathd_database.specs.File.{FindsFiles};
ghost use Rattle.node_serving.specs.Gate.{IsSaid};
ghost use Rattle.oathd_words.specs.StoreWords.{IsClusterInRange, has_log};
ghost use Rattle.oathd_serving.specs.Served.{IsServedWith};
ghost use Rattle.oathd_serving.specs.Ends.{EndsBy, EndsSo, names_asked, NamedEndsSo};
ghost use Rattle.oathd_site.specs.Names.{names_in};
ghost use Rattle.oathd_serving.specs.Serve.{AreLinesOf, IsAskedFor, IsMemberOf, IsRunOf, ServeEndsSo};
ghost use Rattle.oathd_site.specs.Fault.{IsOfTask};

use crate::reload::reload;
use crate::shared::tell_shared_secret;
use log_writer::{LogWriter, SteadyWriter, SyslogWriter, UdpOutlet};
use node_serving::{ClientLines, KeptSocket, NodeKey, Serving};
use oath_node::Never;
use oathd_roster::NamedCluster;
use oathd_site::{Fault, Site, named_cluster, present_moment, users_text};
use oathd_tasks::{clients_at, cluster_in, cluster_key, member_place, read_key};
use oathd_words::{ClientWords, ClusterWords, LogWords};
use sqlite::{FileFrom, FileStore, Start};
use sqlite_trees::store::Store;
use std::io::{self, Printer, Write};
use store_serving::{serve_named_store, serve_store};

/// A writer of a log to standard output or to a syslog.
type NodeLog<'r> = LogWriter<Printer<'r, HostRuntime>, UdpOutlet<'r, HostRuntime>>;

/// Returns the writer of a node's log.
fn writer_of(rt: &HostRuntime, log: LogWords) -> NodeLog<'_> {
    match log {
        LogWords::Syslog(to) => LogWriter::Syslog(SyslogWriter::new(UdpOutlet::new(rt, to))),
        LogWords::Nowhere | LogWords::Output => {
            LogWriter::Output(SteadyWriter::new(io::writer(rt)))
        }
    }
}

/// Returns the lines of clients that a node takes, from the words and the clients file that they name.
pub(crate) fn lines_of<'a>(
    site: &Site<'_, 'a>,
    clients: ClientWords<'a>,
) -> Result<ClientLines, Fault<'a>>
    ensures lines { IfOk result (AreLinesOf clients.entry) }
    ensures said { IfOk result IsSaid }
    ensures fault { IfErr result IsOfTask }
{
    match clients {
        ClientWords::Anybody => Ok(ClientLines::Anybody),
        ClientWords::ThisMachine => Ok(ClientLines::ThisMachine),
        ClientWords::Named(path) => { Ok(ClientLines::Of(clients_at(site.alloc, site.rt, path)?)) }
    }
}

/// Serves a node over its database.
fn serve_as<'a, S: Start, O: Write>(
    site: &Site<'_, 'a>,
    start: S,
    serving: Serving<'_>,
    log: &mut O,
) -> Result<(), Fault<'a>>
    ensures { ServeEndsSo ⟦<FileStore<FileFrom<S>> as Store>⟧ (FindsFiles (image_at S.Start))
        (λ other. other ≡ serving.entry) result }
{
    let users = site.users(serving.settings, 0)?;
    let _served = serve_store(site.alloc, site.rt, users, serving, site.found(start), log)?;
    Ok(())
}

/// Serves a node over its database, by names if the cluster has them.
fn serve_by<'a, S: Start, O: Write>(
    site: &Site<'_, 'a>,
    start: S,
    named: Option<NamedCluster>,
    serving: Serving<'_>,
    log: &mut O,
) -> Result<(), Fault<'a>>
    ensures { EndsBy ⟦<FileStore<FileFrom<S>> as Store>⟧ (FindsFiles (image_at S.Start))
        (λ other. other ≡ serving.entry) named result }
{
    match &named {
        Some(named) => serve_named(site, start, named, serving, log),
        None => serve_as(site, start, serving, log),
    }
}

/// Serves a node of the cluster that the words, or the text of their cluster file, describe.
fn serve<'a, S: Start, O: Write>(
    site: &Site<'_, 'a>,
    start: S,
    cluster: ClusterWords<'a>,
    turns: u64,
    is_logged: bool,
    clients: ClientWords<'a>,
    log: &mut O,
) -> Result<(), Fault<'a>>
    requires cluster { IsClusterInRange cluster }
    requires turns { turns < 2 ^ 54 }
    ensures { EndsSo ⟦<FileStore<FileFrom<S>> as Store>⟧ (FindsFiles (image_at S.Start))
        (IsAskedFor cluster.entry turns is_logged clients.entry site.now.cluster.now) site.now.cluster.now
        (names_asked cluster.entry site.now.cluster.now) result }
{
    match cluster {
        ClusterWords::Given {
            settings,
            place,
            members,
            key,
        } => {
            let key = NodeKey::Own(read_key(site.alloc, site.rt, Some(key))?);
            let lines = lines_of(site, clients)?;
            let serving = Serving {
                settings,
                place,
                members,
                key,
                turns,
                is_logged,
                lines,
            };
            serve_as(site, start, serving, log)
        }
        ClusterWords::Named { node, .. } => serve_member(
            site, start, node, turns, is_logged, clients, log,
        ),
    }
}

/// Serves a member of the cluster that the text of the cluster file describes.
fn serve_member<'a, S: Start, O: Write>(
    site: &Site<'_, 'a>,
    start: S,
    node: u8,
    turns: u64,
    is_logged: bool,
    clients: ClientWords<'a>,
    log: &mut O,
) -> Result<(), Fault<'a>>
    requires node { 1 ≤ node }
    requires turns { turns < 2 ^ 54 }
    ensures { EndsSo ⟦<FileStore<FileFrom<S>> as Store>⟧ (FindsFiles (image_at S.Start))
        (λ serving. IsMemberOf node site.now.cluster.now serving × IsRunOf turns is_logged clients.entry serving)
        site.now.cluster.now (names_in (cluster_of site.now.cluster.now)) result }
{
    let cluster = cluster_in(site.alloc, site.cluster)?;
    let place = member_place(&cluster, node)?;
    let key = cluster_key(site.alloc, site.rt, &cluster.key)?;
    let lines = lines_of(site, clients)?;
    let named = named_cluster(&cluster, place.n())?;
    match Serving::of_member(&cluster, key, place, turns, is_logged, lines) {
        Ok(serving) => serve_by(site, start, named, serving, log),
        Err(_) => Err(Fault::Database(oathd_database::Fault::Memory)),
    }
}

/// Serves a node as the words say, with a log if there is to be one.
fn serve_with<'a, S: Start, O: Write>(
    site: &Site<'_, 'a>,
    start: S,
    cluster: ClusterWords<'a>,
    turns: u64,
    is_logged: bool,
    clients: ClientWords<'a>,
    reloads: bool,
    log: &mut O,
) -> Result<(), Fault<'a>>
    requires cluster { IsClusterInRange cluster }
    requires turns { turns < 2 ^ 54 }
    ensures { IfOk result (λ _. IsServedWith ⟦<FileStore<FileFrom<S>> as Store>⟧ (FindsFiles (image_at S.Start))
        reloads cluster.entry turns is_logged clients.entry site.now.cluster.now) }
{
    if reloads {
        reload(site, start, cluster, turns, is_logged, clients, log)
    } else {
        serve(site, start, cluster, turns, is_logged, clients, log)
    }
}

/// Serves a node as the words say. Its log goes to standard output or to a syslog: a line that can't be written is
/// lost and counted, and changes nothing else.
pub fn serve_logged<'a, S: Start>(
    site: &Site<'_, 'a>,
    start: S,
    cluster: ClusterWords<'a>,
    turns: u64,
    log: LogWords,
    clients: ClientWords<'a>,
    reloads: bool,
) -> Result<(), Fault<'a>>
    requires cluster { IsClusterInRange cluster }
    requires turns { turns < 2 ^ 54 }
    ensures { IfOk result (λ _. IsServedWith ⟦<FileStore<FileFrom<S>> as Store>⟧ (FindsFiles (image_at S.Start))
        reloads cluster.entry turns (has_log log) clients.entry site.now.cluster.now) }
{
    let is_logged = log.is_logged();
    let mut writer = writer_of(site.rt, log);
    let end = serve_with(
        site,
        start,
        cluster,
        turns,
        is_logged,
        clients,
        reloads,
        &mut writer,
    );
    let _flushed = writer.flush();
    end
}

/// Serves a node over its store by names.
fn serve_named<'a, S: Start, O: Write>(
    site: &Site<'_, 'a>,
    start: S,
    cluster: &NamedCluster,
    serving: Serving<'_>,
    log: &mut O,
) -> Result<(), Fault<'a>>
    ensures { NamedEndsSo ⟦<FileStore<FileFrom<S>> as Store>⟧ (FindsFiles (image_at S.Start))
        (λ other. other ≡ serving.entry) (λ named. named ≡ cluster.now) result }
{
    let moment = present_moment(site.rt)?;
    let (alloc, rt, settings) = (site.alloc, site.rt, serving.settings);
    let text = users_text(alloc, rt, site.users, settings, moment)?;
    let (is_logged, found) = (serving.is_logged, site.found(start));
    tell_shared_secret(alloc, is_logged, &text, settings, log);
    let _served = serve_named_store(
        alloc,
        rt,
        text.as_slice(),
        moment,
        serving,
        cluster,
        found,
        &mut KeptSocket::new(),
        Never,
        log,
    )?;
    Ok(())
}
