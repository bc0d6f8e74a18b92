//! The arguments and options of the commands that ask running nodes.

ghost use Rattle.std.specs.Prelude.{◌≡◌, ℕ, IfNone, IfSome};
ghost use Rattle.std.specs.declared.net.socket_addr.SocketAddrV4.{SocketAddrV4 as AnyAddress};
ghost use Rattle.clap.specs.Matches.{found_of};
ghost use Rattle.oathd_words.specs.InquiryWords.{AsksForInquiry, GivesAddress, GivesAskedNode, ends_option, is_operator_word};
ghost use Rattle.oathd_words.specs.declared.inquiry_words.Inquiry.{Inquiry as AnyInquiry};

use crate::words::member_number;
use clap::ArgMatches;
use std::net::SocketAddrV4;

/// What a running node is asked.
#[derive(Clone, Copy, Drop)]
pub enum Inquiry<'a> {
    /// Its state, in lines.
    Status,
    /// Its gates that have failures.
    Gates,
    /// Its floors file.
    Floors,
    /// Its passes.
    Audit,
    /// The rows of its store.
    Roster,
    /// To clear the failures of a user.
    Unlock {
        /// The name of the user.
        user: &'a str,
    },
    /// To end when no line waits.
    Drain,
}

/// The option of an operator's key, which makes a command ask a running node.
const OPERATOR: &[u8] = b"--operator";

/// Returns whether nothing or an equals sign follows the name of an option.
fn ends_option(rest: &[u8]) -> bool
    ensures { result ≡ ends_option rest.now }
{
    match rest {
        [] => true,
        [byte, ..] => *byte == b'=',
    }
}

/// Returns whether a word is the option of an operator's key, with or without its value.
fn is_operator_word(word: &[u8]) -> bool
    ensures { result ≡ is_operator_word word.now }
{
    match word.split_at_checked(OPERATOR.len()) {
        Some((name, rest)) => name == OPERATOR && ends_option(rest),
        None => false,
    }
}

/// Returns whether words ask a running node: one of them is the option of an operator's key.
pub(crate) fn asks_running(words: &[String]) -> bool {
    words.iter().any(|word| is_operator_word(word.as_bytes()))
}

/// Returns the address of the node, or `None` if it is missing or is no IPv4 address with a port.
pub(crate) fn asked_address(matches: &ArgMatches<'_>) -> Option<SocketAddrV4>
    ensures some { IfSome result (GivesAddress (found_of matches.now)) }
    ensures none { IfNone result ((address : AnyAddress) → GivesAddress (found_of matches.now) address → ⊥) }
{
    let text = matches.get_str("ADDRESS")?;
    match SocketAddrV4::parse_ascii(text.as_bytes()) {
        Ok(address) => Some(address),
        Err(_) => None,
    }
}

/// Returns the number of the node, by default 1, or `None` if it is wrong.
pub(crate) fn asked_node(matches: &ArgMatches<'_>) -> Option<u8>
    ensures some { IfSome result (GivesAskedNode (found_of matches.now)) }
    ensures none { IfNone result ((node : ℕ) → GivesAskedNode (found_of matches.now) node → ⊥) }
{
    if matches.get_str("node").is_none() {
        return Some(1);
    }
    member_number(matches, "node")
}

/// Returns the inquiry of the command `name`, or `None` if it has none or a value is missing.
pub(crate) fn inquiry_of<'a>(name: &str, matches: &ArgMatches<'a>) -> Option<Inquiry<'a>>
    ensures some { IfSome result (AsksForInquiry name.now (found_of matches.now)) }
    ensures none { IfNone result ((inquiry : AnyInquiry)
        → AsksForInquiry name.now (found_of matches.now) inquiry → ⊥) }
{
    match name {
        "status" => Some(Inquiry::Status),
        "gates" => Some(Inquiry::Gates),
        "floors" => Some(Inquiry::Floors),
        "audit" => Some(Inquiry::Audit),
        "roster" => Some(Inquiry::Roster),
        "drain" => Some(Inquiry::Drain),
        "unlock" => {
            let user = matches.get_str("USER")?;
            Some(Inquiry::Unlock { user })
        }
        _ => None,
    }
}
