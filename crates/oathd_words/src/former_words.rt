//! The options about former stores: of nodes that are lost, away or replaced.

ghost use Rattle.std.specs.Prelude.{◌≡◌, ◌≤◌, ℕ, codes, map, IfNone, IfOk, IfSome};
ghost use Rattle.std.specs.List.{list_all};
ghost use Rattle.std.specs.Option.{option_map};
ghost use Rattle.clap.specs.Matches.{found_of, matched_of, raw_values};
ghost use Rattle.oathd_words.specs.FormerWords.{AsksForCount, former_given, former_value, is_node_text, is_of_former, lost_said, node_in, nodes_in, since_given, values_given};
ghost use Rattle.oathd_words.specs.declared.former_words.CountWords.{CountWords as AnyCount};

use crate::store_words::is_given;
use crate::words::member_number;
use clap::ArgMatches;
use command_line::number_of;
use otp_core::MOMENTS_END;
use std::alloc::{AllocError, Global};

/// What the options say of former stores, whose floors files a replacement is made from.
#[derive(Drop)]
pub struct FormerWords<'a> {
    /// The lost nodes, each 1 to 9, or `None` if the whole cluster is replaced.
    pub lost: Option<Vec<u8>>,
    /// The moment from which on the files were read, in seconds since 1970-01-01 00:00:00 UTC: 0 to 1099511627775. 0 if
    /// the option is not given.
    pub since: u64,
    /// The paths of the floors files.
    pub floors: Vec<&'a str>,
}

/// Where the number of members comes from.
#[derive(Drop)]
pub enum CountWords<'a> {
    /// The number itself: 1 to 9.
    Given(u8),
    /// The path of the cluster file that has the members.
    Named(&'a str),
}

/// Returns whether `text` is a digit from 1 to 9.
fn is_node_text(text: &str) -> bool
    ensures { result ≡ is_node_text text.now }
{
    match text.as_bytes() {
        [digit] => b'1' <= *digit && *digit <= b'9',
        _ => false,
    }
}

/// Returns the value of the first digit of `text`.
fn node_in(text: &str) -> u8
    ensures { result ≡ node_in text.now }
{
    match text.as_bytes() {
        [digit, ..] => digit.saturating_sub(b'0'),
        [] => 0,
    }
}

/// Returns whether each text is a digit from 1 to 9.
fn are_node_texts(texts: &[&str]) -> bool
    ensures { result ≡ list_all (λ text. is_node_text text.now) texts.now }
{
    texts.iter().all(|text| is_node_text(text))
}

/// Returns the value of each digit.
fn nodes_of(alloc: Global, texts: &[&str]) -> Result<Vec<u8>, AllocError>
    ensures { IfOk result (λ nodes. nodes.items ≡ map (λ text. node_in text.now) texts.now) }
{
    texts.iter().map(|text| node_in(text)).collect(alloc)
}

/// Returns the nodes that `texts` name, or `None` if one of them is not a digit from 1 to 9.
#[tactic(auto, using(crate::proofs::FormerLemmas::nodes_none, crate::proofs::FormerLemmas::nodes_all))]
fn nodes_in(alloc: Global, texts: &[&str]) -> Result<Option<Vec<u8>>, AllocError>
    ensures { IfOk result (λ read. option_map (λ nodes. nodes.items) read
        ≡ nodes_in (map (λ text. text.now) texts.now)) }
{
    if !are_node_texts(texts) {
        return Ok(None);
    }
    let nodes = nodes_of(alloc, texts)?;
    Ok(Some(nodes))
}

/// Returns the lost nodes, or `Some(None)` if `is_anew`. Returns `None` if both are given, or neither.
fn lost_nodes(
    alloc: Global,
    is_anew: bool,
    texts: Option<&[&str]>,
) -> Result<Option<Option<Vec<u8>>>, AllocError>
    ensures { IfOk result (λ read. option_map (option_map (λ nodes. nodes.items)) read
        ≡ lost_said is_anew (option_map (λ texts. map (λ text. text.now) texts.now) texts.entry)) }
{
    match (is_anew, texts) {
        (true, None) => Ok(Some(None)),
        (false, Some(texts)) => match nodes_in(alloc, texts)? {
            Some(nodes) => Ok(Some(Some(nodes))),
            None => Ok(None),
        },
        _ => Ok(None),
    }
}

/// Returns the value of `--since`, 0 without it, or `None` if it is out of its range or has anything but digits.
fn since_of(matches: &ArgMatches<'_>) -> Option<u64>
    ensures { result ≡ since_given (found_of matches.now) }
{
    if matches.get_str("since").is_none() {
        return Some(0);
    }
    match number_of(matches, "since") {
        Some(since) if since < MOMENTS_END => Some(since),
        _ => None,
    }
}

/// Returns each value of the option `name`, or `None` if the option is not given.
pub(crate) fn paths_of<'a>(
    alloc: Global,
    matches: &ArgMatches<'a>,
    name: &str,
) -> Result<Option<Vec<&'a str>>, AllocError>
    ensures { IfOk result (λ read. option_map (λ paths. map (λ path. path.now) paths.items) read
        ≡ values_given (found_of matches.now) name.now) }
{
    match matches.get_strs(name) {
        Some(texts) => Ok(Some(texts.to_vec(alloc)?)),
        None => Ok(None),
    }
}

/// Returns whether an option about former stores is given.
pub(crate) fn is_of_former(matches: &ArgMatches<'_>) -> bool
    ensures { result ≡ is_of_former (found_of matches.now) }
{
    is_given(matches, "anew")
        || matches.contains_id("lost")
        || matches.contains_id("floors")
        || matches.contains_id("since")
}

/// Returns what the options say of former stores, or `None` if one is missing or wrong.
pub(crate) fn former_words<'a>(
    alloc: Global,
    matches: &ArgMatches<'a>,
) -> Result<Option<FormerWords<'a>>, AllocError>
    ensures { IfOk result (λ read. option_map former_value read ≡ former_given (found_of matches.now)) }
{
    let is_anew = is_given(matches, "anew");
    let Some(lost) = lost_nodes(alloc, is_anew, matches.get_strs("lost"))? else {
        return Ok(None);
    };
    let Some(since) = since_of(matches) else {
        return Ok(None);
    };
    match paths_of(alloc, matches, "floors")? {
        Some(floors) => Ok(Some(FormerWords {
            lost,
            since,
            floors,
        })),
        None => Ok(None),
    }
}

/// Returns the source of the number of members, or `None` if it is missing or `node` is not one of them.
pub(crate) fn count_words<'a>(matches: &ArgMatches<'a>, node: u8) -> Option<CountWords<'a>>
    ensures some { IfSome result (AsksForCount (found_of matches.now) node) }
    ensures none { IfNone result ((count : AnyCount) → AsksForCount (found_of matches.now) node count → ⊥) }
{
    if let Some(path) = matches.get_str("cluster") {
        return Some(CountWords::Named(path));
    }
    let count = member_number(matches, "members")?;
    if node > count {
        return None;
    }
    Some(CountWords::Given(count))
}
