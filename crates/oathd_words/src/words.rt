ghost use Rattle.std.specs.Prelude.{◌≡◌, ℕ, List, None, Some, codes, false, IfSome, IfNone, IfOk};
ghost use Rattle.std.specs.Option.{option_map};
ghost use Rattle.clap.specs.Matches.{first_value, found_of};
ghost use Rattle.otp_core.specs.Limits.{Limits};
ghost use Rattle.oathd_words.specs.Given.{GivesLimits, GivesMember, is_flag};
ghost use Rattle.oathd_words.specs.NodesWords.{AsksForNodes};
ghost use Rattle.oathd_words.specs.StoreWords.{AsksForStore, GivesMoment};
ghost use Rattle.oathd_words.specs.Words.{AsksFor, AsksForNothing, AsksToCheck, IsInRange, cluster_path_of};
ghost use Rattle.std.specs.declared.net.socket_addr.SocketAddrV4.{SocketAddrV4 as AnyAddress};
ghost use Rattle.oathd_words.specs.InquiryWords.{AsksMembers, AsksNode};
ghost use Rattle.oathd_words.specs.declared.inquiry_words.Inquiry.{Inquiry as AnyInquiry};
ghost use Rattle.oathd_words.specs.declared.nodes_words.NodesWords.{NodesWords as AnyNodes};
ghost use Rattle.oathd_words.specs.declared.store_words.Action.{Action as AnyAction};

use crate::command_words::{
    ASKING_COMMANDS, COMMANDS, CommandWords, VERSION_COMMAND, program, value_error,
};
use crate::inquiry_words::{Inquiry, asked_address, asked_node, asks_running, inquiry_of};
use crate::nodes_words::{NodesWords, nodes_words};
use crate::store_words::{Action, is_given, read_action};
use clap::error::ErrorKind;
use clap::{ArgMatches, Command, Error};
use command_line::number_of;
use otp_core::{MOMENTS_END, Settings};
use std::alloc::{AllocError, Global};
use std::net::SocketAddrV4;

/// A task that the command line asks for. It has no Debug, which would show a secret.
#[derive(Drop)]
pub enum Task<'a> {
    /// Answers the lines of the input, as one node.
    Lines {
        nodes: NodesWords<'a>,
        /// The moment of the users' import, in seconds since 1970-01-01 00:00:00 UTC: 0 to 1099511627775.
        moment: u64,
    },
    /// Runs the script of the input over a cluster.
    Sim {
        nodes: NodesWords<'a>,
        /// The moment of the users' import, in seconds since 1970-01-01 00:00:00 UTC: 0 to 1099511627775.
        moment: u64,
    },
    /// Runs a cluster over sockets of this machine, and sends it the lines of the input.
    Cluster {
        /// The path of the users file.
        users: &'a str,
        nodes: NodesWords<'a>,
        /// The moment of the users' import, in seconds since 1970-01-01 00:00:00 UTC: 0 to 1099511627775.
        moment: u64,
    },
    /// Carries out an action on the store of a node.
    Store {
        /// The path of the database.
        database: &'a str,
        /// The path of the users file.
        users: &'a str,
        action: Action<'a>,
    },
    /// Asks a running node, and prints its report.
    Ask {
        /// The address of the node.
        address: SocketAddrV4,
        /// The number of the node: 1 to 9.
        node: u8,
        /// The path of the operator's key file.
        operator: &'a str,
        inquiry: Inquiry<'a>,
    },
    /// Asks all members of a cluster for their state, and prints a table.
    Survey {
        /// The path of the cluster file.
        cluster: &'a str,
        /// The path of the operator's key file.
        operator: &'a str,
    },
    /// Reads a node's files, except its database, and prints what all members share.
    Check {
        /// The path of the users file.
        users: &'a str,
        /// The path of the cluster file.
        cluster: &'a str,
    },
    /// Prints a new key of a client.
    NewKey,
    /// Prints a cluster file with new names, which lacks the members.
    NewCluster,
    /// Prints the base32 text of a secret, which the input gives in hexadecimal.
    SecretOfInput,
    /// Prints the base32 text of a secret.
    Secret {
        /// The secret in hexadecimal, two digits for each byte. It may be any text here: running the task refuses a
        /// wrong one.
        hex: &'a str,
    },
}

impl<'a> Task<'a> {
    /// Returns the path of the cluster file that the task names, or None.
    pub fn cluster_path(&self) -> Option<&'a str>
        ensures { option_map (λ path. path.now) result ≡ cluster_path_of self.now }
    {
        match self {
            Task::Lines { nodes, .. } | Task::Sim { nodes, .. } | Task::Cluster { nodes, .. } => {
                nodes.cluster_path()
            }
            Task::Store { action, .. } => action.cluster_path(),
            Task::Check { cluster, .. } | Task::Survey { cluster, .. } => Some(*cluster),
            Task::Ask { .. }
            | Task::NewKey
            | Task::NewCluster
            | Task::SecretOfInput
            | Task::Secret { .. } => None,
        }
    }
}

/// Returns the limits that the options give, or `None` if a number is out of its range or has anything but digits.
pub(crate) fn settings_of(matches: &ArgMatches<'_>) -> Option<Settings>
    ensures some { IfSome result (GivesLimits (found_of matches.now)) }
    ensures none { IfNone result ((limits : Limits) → GivesLimits (found_of matches.now) limits → ⊥) }
{
    let look_ahead = number_of(matches, "look-ahead")?;
    let skew = number_of(matches, "skew")?;
    let range = number_of(matches, "range")?;
    let drift = number_of(matches, "drift")?;
    Settings::new(look_ahead, skew, range)?.with_drift(drift)
}

/// Returns the given moment of an import, or `None` if it is out of its range or has anything but digits.
pub(crate) fn import_moment(matches: &ArgMatches<'_>) -> Option<u64>
    ensures some { IfSome result (λ moment. GivesMoment (found_of matches.now) (Some moment)) }
    ensures none { IfNone result ((moment : ℕ) → GivesMoment (found_of matches.now) (Some moment) → ⊥) }
{
    let moment = number_of(matches, "moment")?;
    if moment >= MOMENTS_END {
        return None;
    }
    Some(moment)
}

/// Returns the value of `name`, or `None` if it is not a number from 1 to 9, in digits alone.
pub(crate) fn member_number(matches: &ArgMatches<'_>, name: &str) -> Option<u8>
    ensures some { IfSome result (GivesMember (found_of matches.now) name.now) }
    ensures none { IfNone result ((number : ℕ) → GivesMember (found_of matches.now) name.now number → ⊥) }
{
    let number = number_of(matches, name)?;
    if number < 1 || number > 9 {
        return None;
    }
    Some(number as u8)
}

/// Returns the task of `lines`, or `None` if a value is missing or wrong.
fn lines_task<'a>(matches: &ArgMatches<'a>) -> Option<Task<'a>>
    ensures some { IfSome result (AsksFor (codes "lines") (found_of matches.now)) }
    ensures none { IfNone result ((nodes : AnyNodes) (moment : ℕ)
        → AsksForNodes (λ n. n ≡ 1) (found_of matches.now) nodes
        → GivesMoment (found_of matches.now) (Some moment) → ⊥) }
{
    let moment = import_moment(matches)?;
    match nodes_words(matches, Some(1)) {
        Some(nodes) => Some(Task::Lines { nodes, moment }),
        None => None,
    }
}

/// Returns the task of `sim`, or `None` if a value is missing or wrong.
fn sim_task<'a>(matches: &ArgMatches<'a>) -> Option<Task<'a>>
    ensures some { IfSome result (AsksFor (codes "sim") (found_of matches.now)) }
    ensures none { IfNone result ((nodes : AnyNodes) (moment : ℕ)
        → AsksForNodes (GivesMember (found_of matches.now) (codes "N")) (found_of matches.now) nodes
        → GivesMoment (found_of matches.now) (Some moment) → ⊥) }
{
    let moment = import_moment(matches)?;
    match nodes_words(matches, member_number(matches, "N")) {
        Some(nodes) => Some(Task::Sim { nodes, moment }),
        None => None,
    }
}

/// Returns the task of `cluster`, or `None` if a value is missing or wrong.
fn cluster_task<'a>(matches: &ArgMatches<'a>) -> Option<Task<'a>>
    ensures some { IfSome result (AsksFor (codes "cluster") (found_of matches.now)) }
    ensures none { IfNone result ((users : List ℕ) (nodes : AnyNodes) (moment : ℕ)
        → first_value (found_of matches.now) (codes "USERS") ≡ Some users
        → AsksForNodes (GivesMember (found_of matches.now) (codes "N")) (found_of matches.now) nodes
        → GivesMoment (found_of matches.now) (Some moment) → ⊥) }
{
    let users = matches.get_str("USERS")?;
    let moment = import_moment(matches)?;
    match nodes_words(matches, member_number(matches, "N")) {
        Some(nodes) => Some(Task::Cluster {
            users,
            nodes,
            moment,
        }),
        None => None,
    }
}

/// Returns the task of `check`, or `None` if a value is missing.
fn check_task<'a>(matches: &ArgMatches<'a>) -> Option<Task<'a>>
    ensures some { IfSome result (AsksFor (codes "check") (found_of matches.now)) }
    ensures none { IfNone result ((users cluster : List ℕ) → AsksToCheck (found_of matches.now) users cluster → ⊥) }
{
    let users = matches.get_str("USERS")?;
    let cluster = matches.get_str("cluster")?;
    Some(Task::Check { users, cluster })
}

/// Returns the task of `secret`, or `None` if it has neither its value nor `--stdin`.
fn secret_task<'a>(matches: &ArgMatches<'a>) -> Option<Task<'a>>
    ensures some { IfSome result (AsksFor (codes "secret") (found_of matches.now)) }
    ensures none { IfNone result ((first_value (found_of matches.now) (codes "HEX") ≡ None)
        × (is_flag (first_value (found_of matches.now) (codes "stdin")) ≡ false)) }
{
    if is_given(matches, "stdin") {
        return Some(Task::SecretOfInput);
    }
    let hex = matches.get_str("HEX")?;
    Some(Task::Secret { hex })
}

/// Returns the task of `status` for all members, or `None` if a value is missing.
fn survey_task<'a>(name: &str, matches: &ArgMatches<'a>) -> Option<Task<'a>>
    ensures some { IfSome result (AsksFor name.now (found_of matches.now)) }
    ensures none { IfNone result ((cluster operator : List ℕ)
        → AsksMembers name.now (found_of matches.now) cluster operator → ⊥) }
{
    if name != "status" {
        return None;
    }
    let operator = matches.get_str("operator")?;
    let cluster = matches.get_str("cluster")?;
    Some(Task::Survey { cluster, operator })
}

/// Returns the task of the command `name` that asks one node, or `None` if it is no such command or a value is wrong.
fn node_task<'a>(name: &str, matches: &ArgMatches<'a>) -> Option<Task<'a>>
    ensures some { IfSome result (AsksFor name.now (found_of matches.now)) }
    ensures none { IfNone result ((address : AnyAddress) (node : ℕ) (operator : List ℕ) (inquiry : AnyInquiry)
        → AsksNode name.now (found_of matches.now) address node operator inquiry → ⊥) }
{
    if matches.get_str("cluster").is_some() {
        return None;
    }
    let operator = matches.get_str("operator")?;
    let address = asked_address(matches)?;
    let node = asked_node(matches)?;
    match inquiry_of(name, matches) {
        Some(inquiry) => Some(Task::Ask {
            address,
            node,
            operator,
            inquiry,
        }),
        None => None,
    }
}

/// Returns the task of the command `name` that asks running nodes, or `None` if it is none or a value is wrong.
fn ask_task<'a>(name: &str, matches: &ArgMatches<'a>) -> Option<Task<'a>>
    ensures some { IfSome result (AsksFor name.now (found_of matches.now)) }
    ensures node { IfNone result ((address : AnyAddress) (node : ℕ) (operator : List ℕ) (inquiry : AnyInquiry)
        → AsksNode name.now (found_of matches.now) address node operator inquiry → ⊥) }
    ensures members { IfNone result ((cluster operator : List ℕ)
        → AsksMembers name.now (found_of matches.now) cluster operator → ⊥) }
{
    match survey_task(name, matches) {
        Some(task) => Some(task),
        None => node_task(name, matches),
    }
}

/// Returns the task of the command `name`, or `None` if it is no command over a database or a value is wrong.
fn store_task<'a>(
    alloc: Global,
    name: &str,
    matches: &ArgMatches<'a>,
) -> Result<Option<Task<'a>>, AllocError>
    ensures some { IfOk result (λ read. IfSome read (AsksFor name.now (found_of matches.now))) }
    ensures none { IfOk result (λ read. IfNone read ((database users : List ℕ) (action : AnyAction)
        → AsksForStore name.now (found_of matches.now) database users action → ⊥)) }
{
    let (Some(database), Some(users)) = (matches.get_str("DB"), matches.get_str("USERS")) else {
        return Ok(None);
    };
    match read_action(alloc, name, matches)? {
        Some(action) => Ok(Some(Task::Store {
            database,
            users,
            action,
        })),
        None => Ok(None),
    }
}

/// Returns the task of the command `name`, or `None` if the values ask for nothing.
fn task_of<'a>(
    alloc: Global,
    name: &str,
    matches: &ArgMatches<'a>,
) -> Result<Option<Task<'a>>, AllocError>
    ensures some { IfOk result (λ read. IfSome read (AsksFor name.now (found_of matches.now))) }
    ensures none { IfOk result (λ read. IfNone read (AsksForNothing name.now (found_of matches.now))) }
{
    match name {
        "lines" => Ok(lines_task(matches)),
        "sim" => Ok(sim_task(matches)),
        "cluster" => Ok(cluster_task(matches)),
        "check" => Ok(check_task(matches)),
        "new-key" => Ok(Some(Task::NewKey)),
        "new-cluster" => Ok(Some(Task::NewCluster)),
        "secret" => Ok(secret_task(matches)),
        _ => match store_task(alloc, name, matches)? {
            Some(task) => Ok(Some(task)),
            None => Ok(ask_task(name, matches)),
        },
    }
}

/// Returns the task of the command `name`, or the error that says why the values ask for nothing.
fn asked<'a>(
    alloc: Global,
    commands: &[CommandWords],
    name: &str,
    values: &ArgMatches<'a>,
) -> Result<Task<'a>, Error>
    ensures { IfOk result IsInRange }
{
    match task_of(alloc, name, values)? {
        Some(task) => Ok(task),
        None => Err(value_error(alloc, commands, name, values)?),
    }
}

/// The words for which clap prints the version.
const VERSION_WORDS: [&str; 2] = ["oathd", "--version"];

/// Returns the task that `matches` ask for, or the error that says why they ask for nothing. Help and version are
/// errors too.
fn found<'a>(
    alloc: Global,
    commands: &[CommandWords],
    program: &mut Command<'a>,
    matches: &ArgMatches<'a>,
) -> Result<Task<'a>, Error>
    ensures { IfOk result IsInRange }
{
    let Some((name, values)) = matches.subcommand() else {
        return Err(program.error(ErrorKind::MissingSubcommand, "a command is missing")?);
    };
    if name == VERSION_COMMAND {
        program.try_get_matches_from_mut(&VERSION_WORDS)?;
    }
    asked(alloc, commands, name, values)
}

/// Returns the task that `words` ask for among `commands`, or the error that says why they ask for nothing.
fn read<'a>(
    alloc: Global,
    commands: &[CommandWords],
    words: &'a [String],
) -> Result<Task<'a>, Error>
    ensures { IfOk result IsInRange }
{
    let mut program = program(alloc, commands)?;
    let matches = program.try_get_matches_from_mut(words)?;
    found(alloc, commands, &mut program, &matches)
}

/// Returns the task that `words` ask for, if they ask running nodes.
fn read_asking<'a>(alloc: Global, words: &'a [String]) -> Result<Task<'a>, Error>
    ensures { IfOk result IsInRange }
{
    read(alloc, &ASKING_COMMANDS, words)
}

/// Returns the task that `words` ask for, if they ask no running node.
fn read_other<'a>(alloc: Global, words: &'a [String]) -> Result<Task<'a>, Error>
    ensures { IfOk result IsInRange }
{
    read(alloc, &COMMANDS, words)
}

/// Returns the task that `words` ask for. The first word is the program's name.
///
/// # Errors
/// Returns clap's error, which has its text. Help and version go to standard output. The error for a wrong value names
/// it and shows the usage of the command.
pub fn read_words<'a>(alloc: Global, words: &'a [String]) -> Result<Task<'a>, Error>
    ensures { IfOk result IsInRange }
{
    if asks_running(words) {
        read_asking(alloc, words)
    } else {
        read_other(alloc, words)
    }
}
