//! The commands of `oathd`, in the form that clap takes.

use crate::help::{
    ASKING_HELP, AUDIT_HELP, CHECK_HELP, CLUSTER_HELP, DRAIN_HELP, EXPORT_HELP, FLOORS_HELP,
    GATES_HELP, INIT_HELP, LEVEL_HELP, LINES_HELP, MIGRATE_HELP, NEW_CLUSTER_HELP, NEW_KEY_HELP,
    PROGRAM_HELP, ROSTER_HELP, SECRET_HELP, SERVE_HELP, SERVE_USAGE, SIM_HELP, STATUS_HELP,
    STATUS_USAGE, UNLOCK_HELP, VERSION_HELP,
};
use crate::option_words::{
    ADDRESS, ANEW, ASKED_NODE, BEGINS, CHECKED_CLUSTER, CLIENTS, CLOCK_MOMENT, CLUSTER,
    COUNT_CLUSTER, DATABASE, DRIFT, DROP_RETIRED, FLOORS, FOREVER, FORMER_FLOORS, HEX,
    IMPORT_CLUSTER, IMPORT_DRIFT, KEY, KEY_OR_ZEROS, LOG, LOG_TO, LOOK_AHEAD, LOST, MEMBER_COUNT,
    MEMBERS, MEMBERS_WERE, MOMENT, NAMES_CLUSTER, NAMES_NODE, NODE, NODE_CLUSTER, NODE_COUNT,
    NODES_CLUSTER, OPERATOR, PLAIN_LINES, RANGE, RELOAD, SINCE, SINCE_NUMBER, SKEW, STDIN,
    SURVEYED_ADDRESS, SURVEYED_CLUSTER, TURNS, USER, USERS, Word,
};
use crate::store_words::{is_given, syslog_address};
use clap::error::ErrorKind;
use clap::{ArgMatches, Command, Error};
use command_line::{NumberOption, VERSION, first_out_of_range, number_error};
use std::alloc::{AllocError, Global};

/// A command of the program.
pub(crate) struct CommandWords {
    /// The word that names it.
    word: &'static str,
    /// The program's name and the word.
    whole: &'static str,
    about: &'static str,
    /// Its usage, if clap's own is too long.
    usage: Option<&'static str>,
    /// The text of its help after the options.
    after_help: &'static str,
    /// Whether its help describes each option on the next line.
    next_line_help: bool,
    /// Its arguments and options in the order of its help, in groups that commands share.
    words: &'static [&'static [Word]],
}

/// How far a code is searched.
const SETTINGS: &[Word] = &[
    Word::Number(LOOK_AHEAD),
    Word::Number(SKEW),
    Word::Number(RANGE),
    Word::Number(DRIFT),
];

/// What a command over the store of a node names.
const STORE: &[Word] = &[Word::Text(DATABASE), Word::Text(USERS), Word::Text(NODE)];

/// What a command to a running node names.
const ASKED: &[Word] = &[
    Word::Text(ADDRESS),
    Word::Text(OPERATOR),
    Word::Text(ASKED_NODE),
];

/// The command that prints the state of a running node.
const STATUS: CommandWords = CommandWords {
    word: "status",
    whole: "oathd status",
    about: "Prints the state of a running node, or of all",
    usage: Some(STATUS_USAGE),
    after_help: STATUS_HELP,
    next_line_help: true,
    words: &[&[
        Word::Text(SURVEYED_ADDRESS),
        Word::Text(SURVEYED_CLUSTER),
        Word::Text(OPERATOR),
        Word::Text(ASKED_NODE),
    ]],
};

/// The command that ends a running node.
const DRAIN: CommandWords = CommandWords {
    word: "drain",
    whole: "oathd drain",
    about: "Ends a running node when no line waits",
    usage: None,
    after_help: DRAIN_HELP,
    next_line_help: true,
    words: &[ASKED],
};

/// The commands to running nodes, which `--operator` marks.
pub(crate) const ASKING_COMMANDS: [CommandWords; 7] = [
    STATUS,
    CommandWords {
        word: "gates",
        whole: "oathd gates",
        about: "Prints the failures that a running node counts",
        usage: None,
        after_help: ASKING_HELP,
        next_line_help: true,
        words: &[ASKED],
    },
    CommandWords {
        word: "unlock",
        whole: "oathd unlock",
        about: "Forgets the failures of a user at a running node",
        usage: None,
        after_help: ASKING_HELP,
        next_line_help: true,
        words: &[ASKED, &[Word::Text(USER)]],
    },
    CommandWords {
        word: "floors",
        whole: "oathd floors",
        about: "Prints the floors of a running node, for other nodes",
        usage: None,
        after_help: ASKING_HELP,
        next_line_help: true,
        words: &[ASKED],
    },
    CommandWords {
        word: "audit",
        whole: "oathd audit",
        about: "Prints what a running node accepted",
        usage: None,
        after_help: ASKING_HELP,
        next_line_help: true,
        words: &[ASKED],
    },
    CommandWords {
        word: "roster",
        whole: "oathd roster",
        about: "Prints the rows of a running node's store by names",
        usage: None,
        after_help: ASKING_HELP,
        next_line_help: true,
        words: &[ASKED],
    },
    DRAIN,
];

/// The command that prints the version, as `--version` does.
pub(crate) const VERSION_COMMAND: &str = "version";

/// The commands in the order of the help. Clap's own command `help` follows.
pub(crate) const COMMANDS: [CommandWords; 20] = [
    CommandWords {
        word: "lines",
        whole: "oathd lines",
        about: "Answers the lines of clients after a users file",
        usage: None,
        after_help: LINES_HELP,
        next_line_help: true,
        words: &[
            &[Word::Text(NODE_CLUSTER)],
            SETTINGS,
            &[Word::Number(MOMENT), Word::Text(KEY_OR_ZEROS)],
        ],
    },
    CommandWords {
        word: "sim",
        whole: "oathd sim",
        about: "Runs a script of events over the nodes of a cluster",
        usage: None,
        after_help: SIM_HELP,
        next_line_help: true,
        words: &[
            &[Word::Text(NODE_COUNT), Word::Text(NODES_CLUSTER)],
            SETTINGS,
            &[Word::Number(MOMENT), Word::Text(KEY_OR_ZEROS)],
        ],
    },
    CommandWords {
        word: "cluster",
        whole: "oathd cluster",
        about: "Runs the nodes of a cluster over sockets, and sends them lines",
        usage: None,
        after_help: CLUSTER_HELP,
        next_line_help: true,
        words: &[
            &[
                Word::Text(USERS),
                Word::Text(NODE_COUNT),
                Word::Text(NODES_CLUSTER),
            ],
            SETTINGS,
            &[Word::Number(MOMENT), Word::Text(KEY_OR_ZEROS)],
        ],
    },
    CommandWords {
        word: "init",
        whole: "oathd init",
        about: "Creates the store of a node in a database",
        usage: None,
        after_help: INIT_HELP,
        next_line_help: true,
        words: &[
            STORE,
            &[
                Word::Text(IMPORT_CLUSTER),
                Word::Number(SKEW),
                Word::Number(IMPORT_DRIFT),
                Word::Ranged(CLOCK_MOMENT, MOMENT),
                Word::List(LOST),
                Word::Flag(ANEW),
                Word::List(FORMER_FLOORS),
                Word::Text(SINCE),
                Word::Flag(BEGINS),
            ],
        ],
    },
    CommandWords {
        word: "serve",
        whole: "oathd serve",
        about: "Serves a node over a UDP socket and a database",
        usage: Some(SERVE_USAGE),
        after_help: SERVE_HELP,
        next_line_help: true,
        words: &[
            STORE,
            &[Word::Text(CLUSTER), Word::Text(MEMBERS), Word::Text(KEY)],
            SETTINGS,
            &[Word::Text(CLIENTS), Word::Flag(PLAIN_LINES)],
            &[Word::Number(TURNS), Word::Flag(FOREVER)],
            &[Word::Flag(LOG), Word::Text(LOG_TO), Word::Flag(RELOAD)],
        ],
    },
    CommandWords {
        word: "export",
        whole: "oathd export",
        about: "Prints a users file with the floors of a store",
        usage: None,
        after_help: EXPORT_HELP,
        next_line_help: true,
        words: &[
            &[Word::Text(DATABASE), Word::Text(USERS)],
            &[Word::Text(NAMES_NODE), Word::Text(NAMES_CLUSTER)],
        ],
    },
    CommandWords {
        word: "audit",
        whole: "oathd audit",
        about: "Prints what a node accepted",
        usage: None,
        after_help: AUDIT_HELP,
        next_line_help: true,
        words: &[STORE, &[Word::Text(NAMES_CLUSTER)]],
    },
    CommandWords {
        word: "migrate",
        whole: "oathd migrate",
        about: "Upgrades the store of a node to the present version",
        usage: None,
        after_help: MIGRATE_HELP,
        next_line_help: true,
        words: &[
            STORE,
            &[Word::Text(NAMES_CLUSTER), Word::Text(MEMBERS_WERE)],
        ],
    },
    CommandWords {
        word: "floors",
        whole: "oathd floors",
        about: "Prints the floors of a node, for other nodes",
        usage: None,
        after_help: FLOORS_HELP,
        next_line_help: true,
        words: &[
            STORE,
            &[Word::Text(MEMBER_COUNT), Word::Text(COUNT_CLUSTER)],
        ],
    },
    CommandWords {
        word: "level",
        whole: "oathd level",
        about: "Raises the floors of a node to those of other nodes",
        usage: None,
        after_help: LEVEL_HELP,
        next_line_help: true,
        words: &[STORE, &[Word::List(FLOORS), Word::Text(NAMES_CLUSTER)]],
    },
    CommandWords {
        word: "gates",
        whole: "oathd gates",
        about: "Prints the failures that a node counts",
        usage: None,
        after_help: GATES_HELP,
        next_line_help: true,
        words: &[STORE, &[Word::Text(NAMES_CLUSTER)]],
    },
    CommandWords {
        word: "unlock",
        whole: "oathd unlock",
        about: "Forgets the failures of a user at a node",
        usage: None,
        after_help: UNLOCK_HELP,
        next_line_help: true,
        words: &[STORE, &[Word::Text(USER), Word::Text(NAMES_CLUSTER)]],
    },
    CommandWords {
        word: "roster",
        whole: "oathd roster",
        about: "Prints the rows of a store by names",
        usage: None,
        after_help: ROSTER_HELP,
        next_line_help: true,
        words: &[
            STORE,
            &[Word::Text(CHECKED_CLUSTER), Word::Flag(DROP_RETIRED)],
        ],
    },
    STATUS,
    DRAIN,
    CommandWords {
        word: "check",
        whole: "oathd check",
        about: "Prints what the members of a cluster share",
        usage: None,
        after_help: CHECK_HELP,
        next_line_help: true,
        words: &[&[Word::Text(USERS), Word::Text(CHECKED_CLUSTER)]],
    },
    CommandWords {
        word: "new-key",
        whole: "oathd new-key",
        about: "Prints a new key for a client of the nodes",
        usage: None,
        after_help: NEW_KEY_HELP,
        next_line_help: false,
        words: &[],
    },
    CommandWords {
        word: "new-cluster",
        whole: "oathd new-cluster",
        about: "Prints a cluster file with new names, without members",
        usage: None,
        after_help: NEW_CLUSTER_HELP,
        next_line_help: false,
        words: &[],
    },
    CommandWords {
        word: "secret",
        whole: "oathd secret",
        about: "Prints a secret in base32, the text that authenticator apps take",
        usage: None,
        after_help: SECRET_HELP,
        next_line_help: false,
        words: &[&[Word::Text(HEX), Word::Flag(STDIN)]],
    },
    CommandWords {
        word: VERSION_COMMAND,
        whole: "oathd version",
        about: "Prints the version",
        usage: None,
        after_help: VERSION_HELP,
        next_line_help: false,
        words: &[],
    },
];

/// Adds arguments and options to a command.
fn with_words<'a>(
    alloc: Global,
    mut command: Command<'a>,
    words: &[Word],
) -> Result<Command<'a>, AllocError> {
    for word in words {
        command = command.arg(word.arg(alloc)?)?;
    }
    Ok(command)
}

/// Adds the numbers among `words` to `numbers`.
fn add_numbers(numbers: &mut Vec<NumberOption>, words: &[Word]) -> Result<(), AllocError> {
    for word in words {
        if let Some(number) = word.number() {
            numbers.push(number)?;
        }
    }
    Ok(())
}

impl CommandWords {
    /// Returns the command for clap.
    fn command<'a>(&self, alloc: Global) -> Result<Command<'a>, AllocError> {
        let command = Command::new(alloc, self.word)
            .about(self.about)
            .next_line_help(self.next_line_help)
            .after_help(self.after_help);
        let mut command = match self.usage {
            Some(usage) => command.override_usage(usage),
            None => command,
        };
        for group in self.words {
            command = with_words(alloc, command, group)?;
        }
        Ok(command)
    }

    /// Returns the numbers among its values, with their ranges.
    fn numbers(&self, alloc: Global) -> Result<Vec<NumberOption>, AllocError> {
        let mut numbers = Vec::new(alloc);
        for group in self.words {
            add_numbers(&mut numbers, group)?;
        }
        Ok(numbers)
    }

    /// Returns the command under its whole name, which errors print.
    fn usage<'a>(&self, alloc: Global) -> Result<Command<'a>, AllocError> {
        self.command(alloc)?.bin_name(self.whole)
    }
}

/// Adds `command` to `program`.
fn with_command<'a>(
    program: Command<'a>,
    command: Result<Command<'a>, AllocError>,
) -> Result<Command<'a>, AllocError> {
    program.subcommand(command?)
}

/// Adds `commands` to `program`.
fn with_commands<'a>(
    alloc: Global,
    mut program: Command<'a>,
    commands: &[CommandWords],
) -> Result<Command<'a>, AllocError> {
    for words in commands {
        program = with_command(program, words.command(alloc))?;
    }
    Ok(program)
}

/// Returns the program without commands.
fn bare_program<'a>(alloc: Global) -> Command<'a> {
    Command::new(alloc, "oathd")
        .version(VERSION)
        .about("Validates one-time passwords of OATH tokens:\nHOTP (RFC 4226) and TOTP (RFC 6238)")
        .after_help(PROGRAM_HELP)
        .subcommand_required(true)
}

/// Returns the program with `commands`.
pub(crate) fn program<'a>(
    alloc: Global,
    commands: &[CommandWords],
) -> Result<Command<'a>, AllocError> {
    with_commands(alloc, bare_program(alloc), commands)
}

/// Returns the command called `name`, or None.
fn find_command<'c>(commands: &'c [CommandWords], name: &str) -> Option<&'c CommandWords> {
    for words in commands {
        if words.word == name {
            return Some(words);
        }
    }
    None
}

/// Returns the error that says what `--members` takes as addresses.
fn addresses_error(
    alloc: Global,
    usage: &mut Command<'_>,
    members: &str,
) -> Result<Error, AllocError> {
    let text = format!(in alloc;
        "invalid value '{members}' for '--members <A,B,..>': A,B,.. is 1 to 9 IPv4 addresses with ports, all \
        different, and one of them the node's"
    )?;
    usage.error(ErrorKind::ValueValidation, text.as_str())
}

/// Returns the error that says what `--members` takes as a number.
fn count_error(alloc: Global, usage: &mut Command<'_>, members: &str) -> Result<Error, AllocError> {
    let text = format!(in alloc;
        "invalid value '{members}' for '--members <N>': the node is one of N"
    )?;
    usage.error(ErrorKind::ValueValidation, text.as_str())
}

/// Returns the error that says which options `--floors` needs.
fn floors_error(usage: &mut Command<'_>) -> Result<Error, AllocError> {
    usage.error(
        ErrorKind::MissingRequiredArgument,
        "'--floors <FILE>' stands beside '--lost <K,..>' or '--anew'",
    )
}

/// Returns the error that says which options `--since` needs.
fn since_error(usage: &mut Command<'_>) -> Result<Error, AllocError> {
    usage.error(
        ErrorKind::MissingRequiredArgument,
        "'--since <SECONDS>' stands beside '--lost <K,..>' or '--anew'",
    )
}

/// Returns whether an option says which databases are replaced.
fn is_said_for_whom(matches: &ArgMatches<'_>) -> bool {
    matches.contains_id("lost") || is_given(matches, "anew")
}

/// Returns whether `--floors` is given, and no option says which databases are replaced.
fn are_floors_alone(matches: &ArgMatches<'_>) -> bool {
    matches.contains_id("floors") && !is_said_for_whom(matches)
}

/// Returns whether `--since` is given, and no option says which databases are replaced.
fn is_since_alone(matches: &ArgMatches<'_>) -> bool {
    matches.contains_id("since") && !is_said_for_whom(matches)
}

/// Returns the error for values of a command, if its members are not at fault.
fn number_or_former_error(
    alloc: Global,
    usage: &mut Command<'_>,
    numbers: &[NumberOption],
    matches: &ArgMatches<'_>,
) -> Result<Error, AllocError> {
    let since = &[SINCE_NUMBER];
    if matches.contains_id("since") && first_out_of_range(matches, since).is_some() {
        return number_error(alloc, usage, matches, since);
    }
    if are_floors_alone(matches) {
        return floors_error(usage);
    }
    if is_since_alone(matches) {
        return since_error(usage);
    }
    number_error(alloc, usage, matches, numbers)
}

/// Returns the error that says what an address is.
fn address_error(alloc: Global, usage: &mut Command<'_>, text: &str) -> Result<Error, AllocError> {
    let text = format!(in alloc;
        "invalid value '{text}' for '<ADDRESS>': the address of a node is an IPv4 address with a port"
    )?;
    usage.error(ErrorKind::ValueValidation, text.as_str())
}

/// Returns the text of `--log-to`, if it is given and is no address.
fn bad_syslog<'a>(matches: &ArgMatches<'a>) -> Option<&'a str> {
    let text = matches.get_str("log-to")?;
    match syslog_address(text) {
        Some(_) => None,
        None => Some(text),
    }
}

/// Returns the error that says what the address of a syslog is.
fn syslog_error(alloc: Global, usage: &mut Command<'_>, text: &str) -> Result<Error, AllocError> {
    let text = format!(in alloc;
        "invalid value '{text}' for '--log-to <ADDRESS>': ADDRESS is an IPv4 address with a port"
    )?;
    usage.error(ErrorKind::ValueValidation, text.as_str())
}

/// Returns the error for values that ask for nothing.
///
/// It names the first of `numbers` that is out of its range or has anything but digits. If there is none, it names
/// `--log-to`, `--members`, `--floors` or `--since`. `--members` takes a number in a command without `numbers`, and
/// addresses in a command with them.
fn error_of(
    alloc: Global,
    usage: &mut Command<'_>,
    numbers: &[NumberOption],
    matches: &ArgMatches<'_>,
) -> Result<Error, AllocError> {
    if let Some(text) = matches.get_str("ADDRESS") {
        return address_error(alloc, usage, text);
    }
    match bad_syslog(matches) {
        Some(text) if first_out_of_range(matches, numbers).is_none() => {
            return syslog_error(alloc, usage, text);
        }
        _ => {}
    }
    match matches.get_str("members") {
        Some(count) if numbers.is_empty() => count_error(alloc, usage, count),
        Some(members) if first_out_of_range(matches, numbers).is_none() => {
            addresses_error(alloc, usage, members)
        }
        _ => number_or_former_error(alloc, usage, numbers, matches),
    }
}

/// Returns the error for values that ask for nothing, with the usage of the command `name`.
pub(crate) fn value_error(
    alloc: Global,
    commands: &[CommandWords],
    name: &str,
    matches: &ArgMatches<'_>,
) -> Result<Error, AllocError> {
    match find_command(commands, name) {
        Some(words) => {
            let numbers = words.numbers(alloc)?;
            error_of(alloc, &mut words.usage(alloc)?, &numbers, matches)
        }
        None => error_of(alloc, &mut bare_program(alloc), &[], matches),
    }
}
