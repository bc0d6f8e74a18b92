//! The options about nodes whose stores are in memory.

ghost use Rattle.std.specs.Prelude.{◌≡◌, Option, Some, None, codes, IfNone, IfSome};
ghost use Rattle.std.specs.Option.{option_map};
ghost use Rattle.clap.specs.Matches.{first_value, found_of};
ghost use Rattle.oathd_words.specs.NodesWords.{AsksForNodes, nodes_path};
ghost use Rattle.oathd_words.specs.declared.nodes_words.NodesWords.{NodesWords as AnyNodes};

use crate::words::settings_of;
use clap::ArgMatches;
use otp_core::Settings;

/// Where the nodes of a command without a database come from.
#[derive(Drop)]
pub enum NodesWords<'a> {
    /// The options say everything.
    Given {
        /// The number of nodes: 1 to 9.
        count: u8,
        settings: Settings,
        /// The path of the key file, if one is given.
        key: Option<&'a str>,
    },
    /// The path of the cluster file.
    Named(&'a str),
}

impl<'a> NodesWords<'a> {
    /// Returns the path of the cluster file, or None.
    pub(crate) fn cluster_path(&self) -> Option<&'a str>
        ensures { option_map (λ path. path.now) result ≡ nodes_path self.now }
    {
        match self {
            NodesWords::Given { .. } => None,
            NodesWords::Named(path) => Some(*path),
        }
    }
}

/// Returns `count` nodes as the options give them, or `None` if an option is missing or wrong.
fn given_nodes<'a>(matches: &ArgMatches<'a>, count: Option<u8>) -> Option<NodesWords<'a>>
    requires { first_value (found_of matches.now) (codes "cluster") ≡ None }
    ensures some { IfSome result (AsksForNodes (λ n. count ≡ Some n) (found_of matches.now)) }
    ensures none { IfNone result ((nodes : AnyNodes)
        → AsksForNodes (λ n. count ≡ Some n) (found_of matches.now) nodes → ⊥) }
{
    let count = count?;
    let settings = settings_of(matches)?;
    let key = matches.get_str("key");
    Some(NodesWords::Given {
        count,
        settings,
        key,
    })
}

/// Returns the nodes that the options give, or `None` if one is missing or wrong. `count` is their number without a
/// cluster file.
pub(crate) fn nodes_words<'a>(matches: &ArgMatches<'a>, count: Option<u8>) -> Option<NodesWords<'a>>
    ensures some { IfSome result (AsksForNodes (λ n. count ≡ Some n) (found_of matches.now)) }
    ensures none { IfNone result ((nodes : AnyNodes)
        → AsksForNodes (λ n. count ≡ Some n) (found_of matches.now) nodes → ⊥) }
{
    match matches.get_str("cluster") {
        Some(path) => Some(NodesWords::Named(path)),
        None => given_nodes(matches, count),
    }
}
