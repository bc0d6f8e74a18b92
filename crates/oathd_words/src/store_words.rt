//! The arguments and options of the commands over a database.
//!
//! Floor: the first free factor of a token at a node.

ghost use Rattle.std.specs.Prelude.{◌≡◌, ◌≤◌, ℕ, false, true, None, Some, Option, codes, IfNone, IfOk, IfSome};
ghost use Rattle.std.specs.Net.Grammar.{IsSocketV4Text};
ghost use Rattle.std.specs.Option.{option_map};
ghost use Rattle.std.specs.declared.net.socket_addr.SocketAddrV4.{SocketAddrV4 as AnyAddress};
ghost use Rattle.clap.specs.Matches.{first_value, found_of};
ghost use Rattle.otp_core.specs.Limits.{Limits};
ghost use Rattle.vote_core.specs.NodeSet.{PlaceRecord};
ghost use Rattle.oathd_words.specs.FormerWords.{former_given, former_value, is_of_former as spec_is_of_former};
ghost use Rattle.oathd_words.specs.Given.{is_flag};
ghost use Rattle.oathd_words.specs.StoreWords.{AsksForAction, AsksForClients, AsksForCluster, AsksForImport, AsksForLog, GivesFormerCount, GivesFormerMembers, GivesImport, GivesMoment, GivesOwner, GivesPlace, begins, few_turns, has_log, takes_anybody, turns_given};
ghost use Rattle.oathd_words.specs.Words.{owner_node, owner_path, path_of_action};
ghost use Rattle.oathd_words.specs.declared.store_words.Action.{Action as AnyAction};
ghost use Rattle.oathd_words.specs.declared.store_words.ClusterWords.{ClusterWords as AnyCluster};
ghost use Rattle.oathd_words.specs.declared.store_words.ImportWords.{ImportWords as AnyImport};
ghost use Rattle.oathd_words.specs.declared.store_words.LogWords.{LogWords as AnyLog};
ghost use Rattle.oathd_words.specs.declared.store_words.Owner.{Owner as AnyOwner};

use crate::former_words::{
    CountWords, FormerWords, count_words, former_words, is_of_former, paths_of,
};
use crate::members::read_members;
use crate::words::{import_moment, member_number, settings_of};
use clap::ArgMatches;
use command_line::number_of;
use otp_core::Settings;
use std::alloc::{AllocError, Global};
use std::net::SocketAddrV4;
use vote_core::Place;

/// Where a cluster is described.
#[derive(Drop)]
pub enum ClusterWords<'a> {
    /// The options say everything.
    Given {
        settings: Settings,
        /// The node's number, and the number of members.
        place: Place,
        /// The members' addresses, in order of their numbers.
        members: Vec<SocketAddrV4>,
        /// The path of the key file.
        key: &'a str,
    },
    /// A cluster file has the description.
    Named {
        /// The number of the node: 1 to 9.
        node: u8,
        /// The path of the cluster file.
        path: &'a str,
    },
}

/// Where a node writes its log.
#[derive(Clone, Copy, Drop)]
pub enum LogWords {
    /// It writes none.
    Nowhere,
    /// To standard output.
    Output,
    /// To the syslog at this address.
    Syslog(SocketAddrV4),
}

impl LogWords {
    /// Returns whether the node writes a log.
    pub fn is_logged(self) -> bool
        ensures { result ≡ has_log self }
    {
        match self {
            LogWords::Nowhere => false,
            LogWords::Output | LogWords::Syslog(_) => true,
        }
    }
}

/// The lines of clients that a node takes.
#[derive(Clone, Copy, Drop)]
pub enum ClientWords<'a> {
    /// Plain lines from any address.
    Anybody,
    /// Plain lines from the addresses of this machine.
    ThisMachine,
    /// The lines that the clients file at this path says.
    Named(&'a str),
}

/// Where the settings of an import come from.
#[derive(Drop)]
pub enum ImportWords<'a> {
    /// The settings themselves. An import uses only the skew and the drift.
    Given(Settings),
    /// The path of the cluster file that has them.
    Named(&'a str),
}

/// The node whose store a command works on.
#[derive(Clone, Copy, Drop)]
pub enum Owner<'a> {
    /// The node that the tables of the store name.
    Any,
    /// The node with this number: 1 to 9.
    Node(u8),
    /// A member of a cluster whose cluster file gives names.
    Member {
        /// The number of the node: 1 to 9.
        node: u8,
        /// The path of the cluster file.
        path: &'a str,
    },
}

impl<'a> Owner<'a> {
    /// Returns the path of the cluster file, or None.
    fn path(&self) -> Option<&'a str>
        ensures { option_map (λ path. path.now) result ≡ owner_path self.now }
    {
        match self {
            Owner::Any | Owner::Node(_) => None,
            Owner::Member { path, .. } => Some(*path),
        }
    }

    /// Returns the number of the node, or None if the words have none.
    pub fn node(&self) -> Option<u8>
        ensures { result ≡ owner_node self.now }
    {
        match self {
            Owner::Any => None,
            Owner::Node(node) | Owner::Member { node, .. } => Some(*node),
        }
    }
}

/// What a command does with a store that it looks at.
#[derive(Clone, Copy, Drop)]
pub enum Look<'a> {
    /// Prints a users file with its content.
    Export,
    /// Prints its passes.
    Audit,
    /// Prints its gates that have failures.
    Gates,
    /// Clears the failures of a user.
    Unlock {
        /// The name of the user.
        user: &'a str,
    },
}

/// An action on the store of a node.
#[derive(Drop)]
pub enum Action<'a> {
    /// Creates it.
    Init {
        /// The number of the node: 1 to 9.
        node: u8,
        import: ImportWords<'a>,
        /// The moment of the users' import, in seconds since 1970-01-01 00:00:00 UTC: 0 to 1099511627775. `None` for
        /// the current time.
        moment: Option<u64>,
    },
    /// Creates it by names, for a cluster that never served.
    Begin {
        /// The number of the node: 1 to 9.
        node: u8,
        /// The path of the cluster file.
        path: &'a str,
    },
    /// Creates it in place of a lost one, from floors files.
    Remake {
        /// The number of the node: 1 to 9.
        node: u8,
        import: ImportWords<'a>,
        /// The moment of its creation, in seconds since 1970-01-01 00:00:00 UTC: 0 to 1099511627775. `None` for the
        /// current time.
        moment: Option<u64>,
        former: FormerWords<'a>,
    },
    /// Serves the node.
    Serve {
        cluster: ClusterWords<'a>,
        /// The number of receives: less than 2^54.
        turns: u64,
        /// Where the node writes its log.
        log: LogWords,
        clients: ClientWords<'a>,
        /// Whether the node takes its users file again when it changes.
        reloads: bool,
    },
    /// Looks at it, by the places of its tokens, or by their names if its owner has a cluster file.
    Look {
        owner: Owner<'a>,
        look: Look<'a>,
    },
    /// Prints its rows by names, or drops rows of retired tokens.
    Roster {
        /// The number of the node: 1 to 9.
        node: u8,
        /// The path of the cluster file.
        path: &'a str,
        /// Whether the rows of retired tokens are dropped whose floors other rows keep.
        drops: bool,
    },
    /// Upgrades it to the current format, and gives its tokens names if its owner has a cluster file.
    Migrate {
        /// Any but `Any`.
        owner: Owner<'a>,
        /// The number of members that the cluster had until now, 1 to 9, or `None` if it is not given.
        members_were: Option<u8>,
    },
    /// Prints its floors file.
    Floors {
        /// The number of the node: 1 to 9.
        node: u8,
        count: CountWords<'a>,
    },
    /// Raises its floors to the greatest in floors files, by names if its owner has a cluster file.
    Level {
        /// Any but `Any`.
        owner: Owner<'a>,
        /// The paths of the floors files.
        floors: Vec<&'a str>,
    },
}

impl<'a> Action<'a> {
    /// Returns the path of the cluster file that the action names, or None.
    pub(crate) fn cluster_path(&self) -> Option<&'a str>
        ensures { option_map (λ path. path.now) result ≡ path_of_action self.now }
    {
        match self {
            Action::Init {
                import: ImportWords::Named(path),
                ..
            }
            | Action::Remake {
                import: ImportWords::Named(path),
                ..
            } => Some(*path),
            Action::Floors {
                count: CountWords::Named(path),
                ..
            } => Some(*path),
            Action::Serve {
                cluster: ClusterWords::Named { path, .. },
                ..
            } => Some(*path),
            Action::Begin { path, .. } | Action::Roster { path, .. } => Some(*path),
            Action::Look { owner, .. }
            | Action::Migrate { owner, .. }
            | Action::Level { owner, .. } => owner.path(),
            _ => None,
        }
    }
}

/// Returns the value of `--moment`, `Some(None)` without it, or `None` if it is out of its range or has anything but
/// digits.
fn moment_of(matches: &ArgMatches<'_>) -> Option<Option<u64>>
    ensures some { IfSome result (GivesMoment (found_of matches.now)) }
    ensures none { IfNone result ((moment : Option ℕ) → GivesMoment (found_of matches.now) moment → ⊥) }
{
    if matches.get_str("moment").is_none() {
        return Some(None);
    }
    Some(Some(import_moment(matches)?))
}

/// Returns the given skew and drift, with default values for the rest, or `None` if one is missing or wrong.
fn import_settings(matches: &ArgMatches<'_>) -> Option<Settings>
    ensures some { IfSome result (GivesImport (found_of matches.now)) }
    ensures none { IfNone result ((limits : Limits) → GivesImport (found_of matches.now) limits → ⊥) }
{
    let skew = number_of(matches, "skew")?;
    let drift = number_of(matches, "drift")?;
    Settings::new(10, skew, 100)?.with_drift(drift)
}

/// Returns the source of an import's settings, or `None` if a setting is missing or wrong.
fn import_words<'a>(matches: &ArgMatches<'a>) -> Option<ImportWords<'a>>
    ensures some { IfSome result (AsksForImport (found_of matches.now)) }
    ensures none { IfNone result ((import : AnyImport) → AsksForImport (found_of matches.now) import → ⊥) }
{
    match matches.get_str("cluster") {
        Some(path) => Some(ImportWords::Named(path)),
        None => Some(ImportWords::Given(import_settings(matches)?)),
    }
}

/// The number of receives of a node that runs until it is stopped. At a million datagrams a second it lasts 500 years.
const TURNS_FOREVER: u64 = (1 << 54) - 1;

/// Returns whether the flag `name` is given.
pub(crate) fn is_given(matches: &ArgMatches<'_>, name: &str) -> bool
    ensures { result ≡ is_flag (first_value (found_of matches.now) name.now) }
{
    match matches.get_str(name) {
        Some(text) => text.as_bytes() == b"true".as_slice(),
        None => false,
    }
}

/// Returns whether a node takes plain lines from any address, if there is no clients file.
fn takes_anybody(matches: &ArgMatches<'_>) -> bool
    ensures { result ≡ takes_anybody (found_of matches.now) }
{
    is_given(matches, "plain-lines") || matches.get_str("cluster").is_none()
}

/// Returns `turns` if it is below 2^32, or `None`.
fn few_turns(turns: Option<u64>) -> Option<u64>
    ensures { result ≡ few_turns turns }
{
    match turns {
        Some(turns) if turns < 1 << 32 => Some(turns),
        _ => None,
    }
}

/// Returns the number of receives: the greatest with `--forever`, else the value of `--turns`.
///
/// Returns `None` if the value is missing, not below 2^32, or has anything but digits.
fn turns_of(matches: &ArgMatches<'_>) -> Option<u64>
    ensures { result ≡ turns_given (found_of matches.now) }
{
    if is_given(matches, "forever") {
        return Some(TURNS_FOREVER);
    }
    few_turns(number_of(matches, "turns"))
}

/// Returns the place of the given node among `members`, or `None` if it is not one of them.
fn place_of(matches: &ArgMatches<'_>, members: u8) -> Option<Place>
    requires { members ≤ 9 }
    ensures some { IfSome result (λ place. GivesPlace (found_of matches.now) place × (place.n ≡ members)) }
    ensures none { IfNone result ((place : PlaceRecord) → GivesPlace (found_of matches.now) place
        → place.n ≡ members → ⊥) }
{
    Place::new(member_number(matches, "node")?, members)
}

/// Returns the action of `init` for a cluster that begins, or `None` if a value is missing or wrong.
fn begin<'a>(matches: &ArgMatches<'a>) -> Option<Action<'a>>
    requires { begins (found_of matches.now) ≡ true }
    ensures some { IfSome result (AsksForAction (codes "init") (found_of matches.now)) }
    ensures none { IfNone result ((action : AnyAction)
        → AsksForAction (codes "init") (found_of matches.now) action → ⊥) }
{
    if is_of_former(matches) || matches.get_str("moment").is_some() {
        return None;
    }
    let node = member_number(matches, "node")?;
    let path = matches.get_str("cluster")?;
    Some(Action::Begin { node, path })
}

/// Returns the action of `init` without options about former stores, or `None` if a value is missing or wrong.
fn plain_init<'a>(matches: &ArgMatches<'a>) -> Option<Action<'a>>
    requires served { begins (found_of matches.now) ≡ false }
    requires plain { spec_is_of_former (found_of matches.now) ≡ false }
    ensures some { IfSome result (AsksForAction (codes "init") (found_of matches.now)) }
    ensures none { IfNone result ((action : AnyAction)
        → AsksForAction (codes "init") (found_of matches.now) action → ⊥) }
{
    let node = member_number(matches, "node")?;
    let moment = moment_of(matches)?;
    match import_words(matches) {
        Some(import) => Some(Action::Init {
            node,
            import,
            moment,
        }),
        None => None,
    }
}

/// Returns the action of `init` with `former`, or `None` if a value is missing or wrong.
fn remake<'a>(matches: &ArgMatches<'a>, former: FormerWords<'a>) -> Option<Action<'a>>
    requires served { begins (found_of matches.now) ≡ false }
    requires of_former { spec_is_of_former (found_of matches.now) ≡ true }
    requires given { former_given (found_of matches.now) ≡ Some (former_value former) }
    ensures some { IfSome result (AsksForAction (codes "init") (found_of matches.now)) }
    ensures none { IfNone result ((action : AnyAction)
        → AsksForAction (codes "init") (found_of matches.now) action → ⊥) }
{
    let node = member_number(matches, "node")?;
    let moment = moment_of(matches)?;
    match import_words(matches) {
        Some(import) => Some(Action::Remake {
            node,
            import,
            moment,
            former,
        }),
        None => None,
    }
}

/// Returns the action of `init`, or `None` if a value is missing or wrong.
fn init_action<'a>(
    alloc: Global,
    matches: &ArgMatches<'a>,
) -> Result<Option<Action<'a>>, AllocError>
    ensures some { IfOk result (λ read. IfSome read (AsksForAction (codes "init") (found_of matches.now))) }
    ensures none { IfOk result (λ read. IfNone read ((action : AnyAction)
        → AsksForAction (codes "init") (found_of matches.now) action → ⊥)) }
{
    if is_given(matches, "begins") {
        return Ok(begin(matches));
    }
    if !is_of_former(matches) {
        return Ok(plain_init(matches));
    }
    match former_words(alloc, matches)? {
        Some(former) => Ok(remake(matches, former)),
        None => Ok(None),
    }
}

/// Returns the cluster that the options of `serve` give, or `None` if one is missing or wrong.
fn given_cluster<'a>(
    alloc: Global,
    matches: &ArgMatches<'a>,
) -> Result<Option<ClusterWords<'a>>, AllocError>
    requires { first_value (found_of matches.now) (codes "cluster") ≡ None }
    ensures some { IfOk result (λ read. IfSome read (AsksForCluster (found_of matches.now))) }
    ensures none { IfOk result (λ read. IfNone read ((cluster : AnyCluster)
        → AsksForCluster (found_of matches.now) cluster → ⊥)) }
{
    let (Some(key), Some(text)) = (matches.get_str("key"), matches.get_str("members")) else {
        return Ok(None);
    };
    let Some(members) = read_members(alloc, text.as_bytes())? else {
        return Ok(None);
    };
    let Some(place) = place_of(matches, members.len() as u8) else {
        return Ok(None);
    };
    let Some(settings) = settings_of(matches) else {
        return Ok(None);
    };
    Ok(Some(ClusterWords::Given {
        settings,
        place,
        members,
        key,
    }))
}

/// Returns where `serve` finds the cluster, or `None` if a value is missing or wrong.
fn cluster_words<'a>(
    alloc: Global,
    matches: &ArgMatches<'a>,
) -> Result<Option<ClusterWords<'a>>, AllocError>
    ensures some { IfOk result (λ read. IfSome read (AsksForCluster (found_of matches.now))) }
    ensures none { IfOk result (λ read. IfNone read ((cluster : AnyCluster)
        → AsksForCluster (found_of matches.now) cluster → ⊥)) }
{
    let Some(path) = matches.get_str("cluster") else {
        return given_cluster(alloc, matches);
    };
    match member_number(matches, "node") {
        Some(node) => Ok(Some(ClusterWords::Named { node, path })),
        None => Ok(None),
    }
}

/// Returns the lines that `serve` takes.
fn client_words<'a>(matches: &ArgMatches<'a>) -> ClientWords<'a>
    ensures { AsksForClients (found_of matches.now) result }
{
    match matches.get_str("clients") {
        Some(path) => ClientWords::Named(path),
        None if takes_anybody(matches) => ClientWords::Anybody,
        None => ClientWords::ThisMachine,
    }
}

/// Returns the address of a syslog, or `None` if the text is no IPv4 address with a port.
pub(crate) fn syslog_address(text: &str) -> Option<SocketAddrV4>
    ensures some { IfSome result (IsSocketV4Text text.now) }
    ensures none { IfNone result ((address : AnyAddress) → IsSocketV4Text text.now address → ⊥) }
{
    match SocketAddrV4::parse_ascii(text.as_bytes()) {
        Ok(address) => Some(address),
        Err(_) => None,
    }
}

/// Returns where the node writes its log, or `None` if the address of a syslog is wrong.
fn log_words(matches: &ArgMatches<'_>) -> Option<LogWords>
    ensures some { IfSome result (AsksForLog (found_of matches.now)) }
    ensures none { IfNone result ((log : AnyLog) → AsksForLog (found_of matches.now) log → ⊥) }
{
    match matches.get_str("log-to") {
        Some(text) => {
            let address = syslog_address(text)?;
            Some(LogWords::Syslog(address))
        }
        None if is_given(matches, "log") => Some(LogWords::Output),
        None => Some(LogWords::Nowhere),
    }
}

/// Returns the action of `serve`, or `None` if a value is missing or wrong.
fn serve_action<'a>(
    alloc: Global,
    matches: &ArgMatches<'a>,
) -> Result<Option<Action<'a>>, AllocError>
    ensures some { IfOk result (λ read. IfSome read (AsksForAction (codes "serve") (found_of matches.now))) }
    ensures none { IfOk result (λ read. IfNone read ((action : AnyAction)
        → AsksForAction (codes "serve") (found_of matches.now) action → ⊥)) }
{
    let Some(cluster) = cluster_words(alloc, matches)? else {
        return Ok(None);
    };
    let Some(turns) = turns_of(matches) else {
        return Ok(None);
    };
    let Some(log) = log_words(matches) else {
        return Ok(None);
    };
    let clients = client_words(matches);
    let reloads = is_given(matches, "reload");
    Ok(Some(Action::Serve {
        cluster,
        turns,
        log,
        clients,
        reloads,
    }))
}

/// Returns whose store a command works on, or `None` if the number of the node is missing or wrong.
fn owner_of<'a>(matches: &ArgMatches<'a>) -> Option<Owner<'a>>
    ensures some { IfSome result (GivesOwner (found_of matches.now) true) }
    ensures none { IfNone result ((owner : AnyOwner) → GivesOwner (found_of matches.now) true owner → ⊥) }
{
    let node = member_number(matches, "node")?;
    match matches.get_str("cluster") {
        Some(path) => Some(Owner::Member { node, path }),
        None => Some(Owner::Node(node)),
    }
}

/// Returns whose store a command works on that needs no node without a cluster file, or `None` if the number of a
/// member is missing or wrong.
fn owner_or_any<'a>(matches: &ArgMatches<'a>) -> Option<Owner<'a>>
    ensures some { IfSome result (GivesOwner (found_of matches.now) false) }
    ensures none { IfNone result ((owner : AnyOwner) → GivesOwner (found_of matches.now) false owner → ⊥) }
{
    let Some(path) = matches.get_str("cluster") else {
        return Some(Owner::Any);
    };
    let node = member_number(matches, "node")?;
    Some(Owner::Member { node, path })
}

/// Returns the action of `export`, or `None` if a value is missing or wrong.
fn export_action<'a>(matches: &ArgMatches<'a>) -> Option<Action<'a>>
    ensures some { IfSome result (AsksForAction (codes "export") (found_of matches.now)) }
    ensures none { IfNone result ((action : AnyAction)
        → AsksForAction (codes "export") (found_of matches.now) action → ⊥) }
{
    let owner = owner_or_any(matches)?;
    let look = Look::Export;
    Some(Action::Look { owner, look })
}

/// Returns the action of `audit`, or `None` if a value is missing or wrong.
fn audit_action<'a>(matches: &ArgMatches<'a>) -> Option<Action<'a>>
    ensures some { IfSome result (AsksForAction (codes "audit") (found_of matches.now)) }
    ensures none { IfNone result ((action : AnyAction)
        → AsksForAction (codes "audit") (found_of matches.now) action → ⊥) }
{
    let owner = owner_of(matches)?;
    let look = Look::Audit;
    Some(Action::Look { owner, look })
}

/// Returns the value of `--members-were`, `Some(None)` without it, or `None` if it is not a number from 1 to 9.
fn former_count(matches: &ArgMatches<'_>) -> Option<Option<u8>>
    ensures some { IfSome result (GivesFormerCount (found_of matches.now)) }
    ensures none { IfNone result ((members : Option ℕ) → GivesFormerCount (found_of matches.now) members → ⊥) }
{
    if matches.get_str("members-were").is_none() {
        return Some(None);
    }
    Some(Some(member_number(matches, "members-were")?))
}

/// Returns the number of members that a store's cluster had, as `migrate` takes it, or `None` if it is wrong.
///
/// Only a member's cluster file comes with it.
fn former_members(matches: &ArgMatches<'_>, owner: Owner<'_>) -> Option<Option<u8>>
    ensures some { IfSome result (GivesFormerMembers (found_of matches.now) owner.entry) }
    ensures none { IfNone result ((members : Option ℕ)
        → GivesFormerMembers (found_of matches.now) owner.entry members → ⊥) }
{
    match owner {
        Owner::Member { .. } => former_count(matches),
        Owner::Any | Owner::Node(_) if matches.get_str("members-were").is_some() => None,
        Owner::Any | Owner::Node(_) => Some(None),
    }
}

/// Returns the action of `migrate`, or `None` if a value is missing or wrong.
fn migrate_action<'a>(matches: &ArgMatches<'a>) -> Option<Action<'a>>
    ensures some { IfSome result (AsksForAction (codes "migrate") (found_of matches.now)) }
    ensures none { IfNone result ((action : AnyAction)
        → AsksForAction (codes "migrate") (found_of matches.now) action → ⊥) }
{
    let owner = owner_of(matches)?;
    let members_were = former_members(matches, owner)?;
    Some(Action::Migrate {
        owner,
        members_were,
    })
}

/// Returns the action of `floors`, or `None` if a value is missing or wrong.
fn floors_action<'a>(matches: &ArgMatches<'a>) -> Option<Action<'a>>
    ensures some { IfSome result (AsksForAction (codes "floors") (found_of matches.now)) }
    ensures none { IfNone result ((action : AnyAction)
        → AsksForAction (codes "floors") (found_of matches.now) action → ⊥) }
{
    let node = member_number(matches, "node")?;
    match count_words(matches, node) {
        Some(count) => Some(Action::Floors { node, count }),
        None => None,
    }
}

/// Returns the action of `level`, or `None` if a value is missing or wrong.
fn level_action<'a>(
    alloc: Global,
    matches: &ArgMatches<'a>,
) -> Result<Option<Action<'a>>, AllocError>
    ensures some { IfOk result (λ read. IfSome read (AsksForAction (codes "level") (found_of matches.now))) }
    ensures none { IfOk result (λ read. IfNone read ((action : AnyAction)
        → AsksForAction (codes "level") (found_of matches.now) action → ⊥)) }
{
    let Some(owner) = owner_of(matches) else {
        return Ok(None);
    };
    match paths_of(alloc, matches, "floors")? {
        Some(floors) => Ok(Some(Action::Level { owner, floors })),
        None => Ok(None),
    }
}

/// Returns the action of `gates`, or `None` if a value is missing or wrong.
fn gates_action<'a>(matches: &ArgMatches<'a>) -> Option<Action<'a>>
    ensures some { IfSome result (AsksForAction (codes "gates") (found_of matches.now)) }
    ensures none { IfNone result ((action : AnyAction)
        → AsksForAction (codes "gates") (found_of matches.now) action → ⊥) }
{
    let owner = owner_of(matches)?;
    let look = Look::Gates;
    Some(Action::Look { owner, look })
}

/// Returns the action of `unlock`, or `None` if a value is missing or wrong.
fn unlock_action<'a>(matches: &ArgMatches<'a>) -> Option<Action<'a>>
    ensures some { IfSome result (AsksForAction (codes "unlock") (found_of matches.now)) }
    ensures none { IfNone result ((action : AnyAction)
        → AsksForAction (codes "unlock") (found_of matches.now) action → ⊥) }
{
    let user = matches.get_str("USER")?;
    let owner = owner_of(matches)?;
    let look = Look::Unlock { user };
    Some(Action::Look { owner, look })
}

/// Returns the action of `roster`, or `None` if a value is missing or wrong.
fn roster_action<'a>(matches: &ArgMatches<'a>) -> Option<Action<'a>>
    ensures some { IfSome result (AsksForAction (codes "roster") (found_of matches.now)) }
    ensures none { IfNone result ((action : AnyAction)
        → AsksForAction (codes "roster") (found_of matches.now) action → ⊥) }
{
    let node = member_number(matches, "node")?;
    let path = matches.get_str("cluster")?;
    let drops = is_given(matches, "drop-retired");
    Some(Action::Roster { node, path, drops })
}

/// Returns the action of the command `name`, or `None` if it is no command over a database or a value is wrong.
pub(crate) fn read_action<'a>(
    alloc: Global,
    name: &str,
    matches: &ArgMatches<'a>,
) -> Result<Option<Action<'a>>, AllocError>
    ensures some { IfOk result (λ read. IfSome read (AsksForAction name.now (found_of matches.now))) }
    ensures none { IfOk result (λ read. IfNone read ((action : AnyAction)
        → AsksForAction name.now (found_of matches.now) action → ⊥)) }
{
    match name {
        "init" => init_action(alloc, matches),
        "serve" => serve_action(alloc, matches),
        "export" => Ok(export_action(matches)),
        "audit" => Ok(audit_action(matches)),
        "migrate" => Ok(migrate_action(matches)),
        "floors" => Ok(floors_action(matches)),
        "level" => level_action(alloc, matches),
        "gates" => Ok(gates_action(matches)),
        "unlock" => Ok(unlock_action(matches)),
        "roster" => Ok(roster_action(matches)),
        _ => Ok(None),
    }
}
