//! The arguments and options of the commands of `oathd`, in the form that clap takes.
//!
//! Floor: the first free factor of a token at a node.

use clap::{Arg, ArgAction};
use command_line::NumberOption;
use otp_core::MOMENTS_END;
use std::alloc::{AllocError, Global};

/// An argument, or an option with a value that is not a number of many digits.
#[derive(Clone, Copy)]
pub(crate) struct TextWord {
    /// Its name for clap: in capitals for an argument, and without the dashes for an option.
    name: &'static str,
    /// The name of an option's value in the help.
    value_name: Option<&'static str>,
    is_required: bool,
    /// The option that makes it not required, if there is one.
    unless: Option<&'static str>,
    /// The options that exclude it.
    conflicts: &'static [&'static str],
    /// The options that it needs.
    needs: &'static [&'static str],
    /// Whether its value is a number from 1 to 9.
    is_digit: bool,
    help: &'static str,
}

/// The numbers of a node, and the possible numbers of nodes.
const DIGITS: [&str; 9] = ["1", "2", "3", "4", "5", "6", "7", "8", "9"];

impl TextWord {
    /// Returns the argument or option for clap.
    fn arg<'a>(&self, alloc: Global) -> Result<Arg<'a>, AllocError> {
        let mut arg = Arg::new(alloc, self.name)
            .required(self.is_required)
            .action(ArgAction::Set)
            .help(self.help)
            .conflicts_with_all(self.conflicts)?
            .requires_all(self.needs)?;
        if let Some(other) = self.unless {
            arg = arg.required_unless_present(other)?;
        }
        let arg = match self.value_name {
            Some(value_name) => arg.long(self.name).value_name(value_name),
            None => arg,
        };
        Ok(if self.is_digit {
            arg.hide_possible_values(true)
                .value_parser(DIGITS.as_slice())
        } else {
            arg
        })
    }
}

/// An option without a value.
#[derive(Clone, Copy)]
pub(crate) struct FlagWord {
    /// Its name, for clap too, without the dashes.
    name: &'static str,
    /// The options that exclude it.
    conflicts: &'static [&'static str],
    /// The options that it needs.
    needs: &'static [&'static str],
    help: &'static str,
}

impl FlagWord {
    /// Returns the option for clap.
    fn arg<'a>(&self, alloc: Global) -> Result<Arg<'a>, AllocError> {
        Arg::new(alloc, self.name)
            .long(self.name)
            .action(ArgAction::SetTrue)
            .help(self.help)
            .conflicts_with_all(self.conflicts)?
            .requires_all(self.needs)
    }
}

/// An option with several values.
#[derive(Clone, Copy)]
pub(crate) struct ListWord {
    /// Its name, for clap too, without the dashes.
    name: &'static str,
    value_name: &'static str,
    is_required: bool,
    /// The options that exclude it.
    conflicts: &'static [&'static str],
    /// The options that it needs.
    needs: &'static [&'static str],
    /// Whether it is given once, with node numbers separated by commas. Otherwise it is given once for each value.
    are_nodes: bool,
    help: &'static str,
}

impl ListWord {
    /// Returns the option for clap.
    fn arg<'a>(&self, alloc: Global) -> Result<Arg<'a>, AllocError> {
        let arg = Arg::new(alloc, self.name)
            .long(self.name)
            .value_name(self.value_name)
            .required(self.is_required)
            .help(self.help)
            .conflicts_with_all(self.conflicts)?
            .requires_all(self.needs)?;
        Ok(if self.are_nodes {
            arg.action(ArgAction::Set)
                .value_delimiter(',')
                .hide_possible_values(true)
                .value_parser(DIGITS.as_slice())
        } else {
            arg.action(ArgAction::Append)
        })
    }
}

/// An argument or option of a command.
#[derive(Clone, Copy)]
pub(crate) enum Word {
    Number(NumberOption),
    /// An option without a default whose value is a number, with its range.
    Ranged(TextWord, NumberOption),
    Text(TextWord),
    List(ListWord),
    Flag(FlagWord),
}

impl Word {
    /// Returns the argument or option for clap.
    pub(crate) fn arg<'a>(&self, alloc: Global) -> Result<Arg<'a>, AllocError> {
        match self {
            Word::Number(option) => Ok(option.arg(alloc)),
            Word::Text(word) | Word::Ranged(word, _) => word.arg(alloc),
            Word::List(list) => list.arg(alloc),
            Word::Flag(flag) => flag.arg(alloc),
        }
    }

    /// Returns its range, if its value is a number of many digits.
    pub(crate) fn number(&self) -> Option<NumberOption> {
        match self {
            Word::Number(option) | Word::Ranged(_, option) => Some(*option),
            _ => None,
        }
    }
}

/// The number of factors past the floor at which a code is searched.
pub(crate) const LOOK_AHEAD: NumberOption = NumberOption {
    name: "look-ahead",
    short: None,
    value_name: "COUNT",
    most: 100,
    default: "10",
    help: "How many factors past the floor a code is searched,\n0 to 100",
};

/// The number of time steps that a time token may be off.
pub(crate) const SKEW: NumberOption = NumberOption {
    name: "skew",
    short: None,
    value_name: "STEPS",
    most: 10,
    default: "1",
    help: "How many time steps before and after the present one a time token may\n\
        be, 0 to 10",
};

/// The number of factors past the floor at which two successive codes are searched.
pub(crate) const RANGE: NumberOption = NumberOption {
    name: "range",
    short: None,
    value_name: "COUNT",
    most: 1000,
    default: "100",
    help: "How many factors past the floor a resynchronization searches,\n0 to 1000",
};

/// The number of time steps by which the window of a time token follows its clock.
pub(crate) const DRIFT: NumberOption = NumberOption {
    name: "drift",
    short: None,
    value_name: "STEPS",
    most: 10,
    default: "0",
    help: "How many time steps the window of a time token may move to follow its\n\
        clock, 0 to 10",
};

/// The moment of the users' import.
pub(crate) const MOMENT: NumberOption = NumberOption {
    name: "moment",
    short: None,
    value_name: "SECONDS",
    most: MOMENTS_END - 1,
    default: "0",
    help: "The moment at which the users are imported, in seconds since\n\
        1970-01-01 00:00:00 UTC, 0 to 1099511627775",
};

/// The number of a node's receives.
pub(crate) const TURNS: NumberOption = NumberOption {
    name: "turns",
    short: None,
    value_name: "T",
    most: 4_294_967_295,
    default: "1000000",
    help: "How many receives the node has, each of at most 200 milliseconds,\n0 to 4294967295",
};

/// The number of nodes.
pub(crate) const NODE_COUNT: TextWord = TextWord {
    name: "N",
    value_name: None,
    is_required: true,
    unless: None,
    conflicts: &[],
    needs: &[],
    is_digit: true,
    help: "How many nodes there are, 1 to 9",
};

/// The users file.
pub(crate) const USERS: TextWord = TextWord {
    name: "USERS",
    value_name: None,
    is_required: true,
    unless: None,
    conflicts: &[],
    needs: &[],
    is_digit: false,
    help: "The path of the users file",
};

/// The database.
pub(crate) const DATABASE: TextWord = TextWord {
    name: "DB",
    value_name: None,
    is_required: true,
    unless: None,
    conflicts: &[],
    needs: &[],
    is_digit: false,
    help: "The path of the database",
};

/// The secret to print.
pub(crate) const HEX: TextWord = TextWord {
    name: "HEX",
    value_name: None,
    is_required: false,
    unless: Some("stdin"),
    conflicts: &["stdin"],
    needs: &[],
    is_digit: false,
    help: "The secret in hexadecimal: two digits for each of 1 to 128 bytes",
};

/// The flag that reads a secret from standard input.
pub(crate) const STDIN: FlagWord = FlagWord {
    name: "stdin",
    conflicts: &["HEX"],
    needs: &[],
    help: "Read HEX from standard input, where nobody else sees it",
};

/// The number of the node.
pub(crate) const NODE: TextWord = TextWord {
    name: "node",
    value_name: Some("I"),
    is_required: true,
    unless: None,
    conflicts: &[],
    needs: &[],
    is_digit: true,
    help: "The number of the node, 1 to 9",
};

/// The moment of the users' import, by default the clock's.
pub(crate) const CLOCK_MOMENT: TextWord = TextWord {
    name: "moment",
    value_name: Some("SECONDS"),
    is_required: false,
    unless: None,
    conflicts: &[],
    needs: &[],
    is_digit: false,
    help: "The moment at which the users are imported, in seconds since\n\
        1970-01-01 00:00:00 UTC, 0 to 1099511627775 [default: the clock]",
};

/// The addresses of the members.
pub(crate) const MEMBERS: TextWord = TextWord {
    name: "members",
    value_name: Some("A,B,.."),
    is_required: false,
    unless: Some("cluster"),
    conflicts: &[],
    needs: &[],
    is_digit: false,
    help: "The addresses of the members in order of their numbers, 1 to 9 of\n\
        the form 127.0.0.1:7001, all different",
};

/// The key file, which is required.
pub(crate) const KEY: TextWord = TextWord {
    name: "key",
    value_name: Some("PATH"),
    is_required: false,
    unless: Some("cluster"),
    conflicts: &[],
    needs: &[],
    is_digit: false,
    help: "A file of the cluster's key: 16 to 64 bytes in hexadecimal",
};

/// The cluster file.
pub(crate) const CLUSTER: TextWord = TextWord {
    name: "cluster",
    value_name: Some("FILE"),
    is_required: false,
    unless: None,
    conflicts: &["members", "key", "look-ahead", "skew", "range", "drift"],
    needs: &[],
    is_digit: false,
    help: "A cluster file, which says the members, the key and how far a code is\n\
        searched, in place of those options",
};

/// The clients file.
pub(crate) const CLIENTS: TextWord = TextWord {
    name: "clients",
    value_name: Some("FILE"),
    is_required: false,
    unless: None,
    conflicts: &["plain-lines"],
    needs: &[],
    is_digit: false,
    help: "A clients file: lines are taken from clients that share a key with\n\
        the node. Without it, and with a cluster file, they are taken from\n\
        addresses of this machine (127.0.0.0/8) alone",
};

/// The flag that lets anybody ask.
pub(crate) const PLAIN_LINES: FlagWord = FlagWord {
    name: "plain-lines",
    conflicts: &["clients"],
    needs: &[],
    help: "Take the lines of anybody, also with a cluster file",
};

/// The flag that lets a node run until it is stopped.
pub(crate) const FOREVER: FlagWord = FlagWord {
    name: "forever",
    conflicts: &["turns"],
    needs: &[],
    help: "Go on until the process is stopped",
};

/// The flag that makes a node write a log.
pub(crate) const LOG: FlagWord = FlagWord {
    name: "log",
    conflicts: &["log-to"],
    needs: &[],
    help: "Print a line for each answer, for each member that is heard or silent,\n\
        and for the start and the end",
};

/// The syslog to which a node sends its log.
pub(crate) const LOG_TO: TextWord = TextWord {
    name: "log-to",
    value_name: Some("ADDRESS"),
    is_required: false,
    unless: None,
    conflicts: &["log"],
    needs: &[],
    is_digit: false,
    help: "Send the lines of --log to the syslog at ADDRESS instead, an IPv4\n\
        address with a port: a datagram over UDP for each line",
};

/// The flag that makes a node take its users file again when it changes.
pub(crate) const RELOAD: FlagWord = FlagWord {
    name: "reload",
    conflicts: &["members", "key"],
    needs: &["cluster"],
    help: "Take the users file again when it changes. The cluster file has to\n\
        give names",
};

/// The cluster file of an import.
pub(crate) const IMPORT_CLUSTER: TextWord = TextWord {
    name: "cluster",
    value_name: Some("FILE"),
    is_required: false,
    unless: None,
    conflicts: &["skew", "drift"],
    needs: &[],
    is_digit: false,
    help: "A cluster file, which says the skew and the drift in place of those\n\
        options",
};

/// The number of time steps, beside the skew, that an import leaves unfree.
pub(crate) const IMPORT_DRIFT: NumberOption = NumberOption {
    name: "drift",
    short: None,
    value_name: "STEPS",
    most: 10,
    default: "0",
    help: "The drift with which the tokens were served before, 0 to 10: a time\n\
        token begins that many steps later",
};

/// The nodes whose databases are lost.
pub(crate) const LOST: ListWord = ListWord {
    name: "lost",
    value_name: "K,..",
    is_required: false,
    conflicts: &["anew"],
    needs: &["floors"],
    are_nodes: true,
    help: "The numbers of all nodes whose databases are lost, with commas\n\
        between them; I is one of them",
};

/// The flag that replaces the databases of a whole cluster.
pub(crate) const ANEW: FlagWord = FlagWord {
    name: "anew",
    conflicts: &["lost"],
    needs: &["floors"],
    help: "The databases of all nodes are replaced",
};

/// The flag that creates the store of a member of a cluster that never served.
pub(crate) const BEGINS: FlagWord = FlagWord {
    name: "begins",
    conflicts: &["moment", "lost", "anew", "floors", "since", "skew", "drift"],
    needs: &["cluster"],
    help: "The cluster never served, and its cluster file gives names",
};

/// The flag that drops rows of retired tokens.
pub(crate) const DROP_RETIRED: FlagWord = FlagWord {
    name: "drop-retired",
    conflicts: &[],
    needs: &[],
    help: "Drops rows of retired tokens, in place of printing rows",
};

/// The floors files of the other nodes, from which a replacement is made.
pub(crate) const FORMER_FLOORS: ListWord = ListWord {
    name: "floors",
    value_name: "FILE",
    is_required: false,
    conflicts: &[],
    needs: &[],
    are_nodes: false,
    help: "What oathd floors printed of a node: once for each node that is not\n\
        lost, or with --anew such that each majority has one",
};

/// The floors files that floors are raised to.
pub(crate) const FLOORS: ListWord = ListWord {
    name: "floors",
    value_name: "FILE",
    is_required: true,
    conflicts: &[],
    needs: &[],
    are_nodes: false,
    help: "What oathd floors printed of another node, once for each file",
};

/// The moment from which on the floors files were read.
pub(crate) const SINCE: TextWord = TextWord {
    name: "since",
    value_name: Some("SECONDS"),
    is_required: false,
    unless: None,
    conflicts: &[],
    needs: &[],
    is_digit: false,
    help: "When the last of the lost nodes was lost, in seconds since 1970-01-01\n\
        00:00:00 UTC: an older floors file is refused",
};

/// The same moment, for the error that names its range.
pub(crate) const SINCE_NUMBER: NumberOption = NumberOption {
    name: "since",
    short: None,
    value_name: "SECONDS",
    most: MOMENTS_END - 1,
    default: "0",
    help: "",
};

/// The number of members.
pub(crate) const MEMBER_COUNT: TextWord = TextWord {
    name: "members",
    value_name: Some("N"),
    is_required: false,
    unless: Some("cluster"),
    conflicts: &["cluster"],
    needs: &[],
    is_digit: true,
    help: "How many members the cluster has, 1 to 9",
};

/// The cluster file that has the members.
pub(crate) const COUNT_CLUSTER: TextWord = TextWord {
    name: "cluster",
    value_name: Some("FILE"),
    is_required: false,
    unless: None,
    conflicts: &["members"],
    needs: &[],
    is_digit: false,
    help: "A cluster file, which says the members in place of that option",
};

/// The number of the node, which only a store by names needs.
pub(crate) const NAMES_NODE: TextWord = TextWord {
    name: "node",
    value_name: Some("I"),
    is_required: false,
    unless: None,
    conflicts: &[],
    needs: &["cluster"],
    is_digit: true,
    help: "The number of the node, 1 to 9",
};

/// The cluster file of a store by names.
pub(crate) const NAMES_CLUSTER: TextWord = TextWord {
    name: "cluster",
    value_name: Some("FILE"),
    is_required: false,
    unless: None,
    conflicts: &[],
    needs: &["node"],
    is_digit: false,
    help: "The cluster file of a store by names: it gives the names",
};

/// The number of members that the cluster had until now.
pub(crate) const MEMBERS_WERE: TextWord = TextWord {
    name: "members-were",
    value_name: Some("N"),
    is_required: false,
    unless: None,
    conflicts: &[],
    needs: &["cluster"],
    is_digit: true,
    help: "How many members the cluster had until now, 1 to 9: as many as its\n\
        cluster file has now. It is wanted with --cluster",
};

/// The user whose failures are cleared.
pub(crate) const USER: TextWord = TextWord {
    name: "USER",
    value_name: None,
    is_required: true,
    unless: None,
    conflicts: &[],
    needs: &[],
    is_digit: false,
    help: "The name of the user",
};

/// The cluster file of the command `lines`.
pub(crate) const NODE_CLUSTER: TextWord = TextWord {
    name: "cluster",
    value_name: Some("FILE"),
    is_required: false,
    unless: None,
    conflicts: &["key", "look-ahead", "skew", "range", "drift"],
    needs: &[],
    is_digit: false,
    help: "A cluster file, which says the key and how far a code is searched, in\n\
        place of those options",
};

/// The cluster file of the commands `sim` and `cluster`, which replaces the number of nodes.
pub(crate) const NODES_CLUSTER: TextWord = TextWord {
    name: "cluster",
    value_name: Some("FILE"),
    is_required: false,
    unless: None,
    conflicts: &["N", "key", "look-ahead", "skew", "range", "drift"],
    needs: &[],
    is_digit: false,
    help: "A cluster file, which says how many nodes there are, the key and how\n\
        far a code is searched, in place of N and those options",
};

/// The cluster file of the commands `check` and `roster`.
pub(crate) const CHECKED_CLUSTER: TextWord = TextWord {
    name: "cluster",
    value_name: Some("FILE"),
    is_required: true,
    unless: None,
    conflicts: &[],
    needs: &[],
    is_digit: false,
    help: "The cluster file",
};

/// The key file, which is optional.
pub(crate) const KEY_OR_ZEROS: TextWord = TextWord {
    name: "key",
    value_name: Some("PATH"),
    is_required: false,
    unless: None,
    conflicts: &[],
    needs: &[],
    is_digit: false,
    help: "A file of the cluster's key: 16 to 64 bytes in hexadecimal.\nWithout it the key is 32 zeros",
};

/// The address of a running node.
pub(crate) const ADDRESS: TextWord = TextWord {
    name: "ADDRESS",
    value_name: None,
    is_required: true,
    unless: None,
    conflicts: &[],
    needs: &[],
    is_digit: false,
    help: "The address of the running node: 127.0.0.1:7001",
};

/// The address of a running node, which a cluster file replaces.
pub(crate) const SURVEYED_ADDRESS: TextWord = TextWord {
    name: "ADDRESS",
    value_name: None,
    is_required: false,
    unless: Some("cluster"),
    conflicts: &["cluster"],
    needs: &[],
    is_digit: false,
    help: "The address of the running node: 127.0.0.1:7001",
};

/// The cluster file whose members are asked.
pub(crate) const SURVEYED_CLUSTER: TextWord = TextWord {
    name: "cluster",
    value_name: Some("FILE"),
    is_required: false,
    unless: None,
    conflicts: &["ADDRESS", "node"],
    needs: &[],
    is_digit: false,
    help: "A cluster file: all its members are asked, and a table is printed",
};

/// The key of the operator.
pub(crate) const OPERATOR: TextWord = TextWord {
    name: "operator",
    value_name: Some("KEYFILE"),
    is_required: true,
    unless: None,
    conflicts: &[],
    needs: &[],
    is_digit: false,
    help: "A file with one line: operator NUMBER KEY, or reader NUMBER KEY",
};

/// The number of the running node.
pub(crate) const ASKED_NODE: TextWord = TextWord {
    name: "node",
    value_name: Some("I"),
    is_required: false,
    unless: None,
    conflicts: &[],
    needs: &[],
    is_digit: true,
    help: "The number of the node, 1 to 9 [default: 1]",
};
