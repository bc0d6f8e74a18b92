ghost use Rattle.std.specs.Prelude.{◌≡◌, IfErr, IfOk, OnOk, Ok, Err, false, map};
ghost use Rattle.token_file.specs.Fields.{fields_of};
ghost use Rattle.cluster_file.specs.Address.{address_value};
ghost use Rattle.cluster_file.specs.ClusterFile.{cluster_value, finished, is_memory, settings_of};
ghost use Rattle.cluster_file.specs.Fields.{field_value};
ghost use Rattle.cluster_file.specs.Said.{after_fields, after_word, key_place, fresh_in, is_number, is_remark, member_of, names_in, nothing_said, path_of, bytes_of, life_in};
ghost use Rattle.field_text.specs.Number.{number_of};

use crate::address::{is_among, read_address};
use crate::cluster::{Cluster, KeySource};
use crate::fault::LineFault;
use crate::fields::{first_field, fresh, key, life, one_field, salt, setting, two_fields};
use crate::word::{Word, read_word};
use field_text::read_number;
use otp_core::{MAX_MEMBERS, Settings};
use std::alloc::Global;
use std::marker::Model;
use std::net::SocketAddrV4;
use vote_wire::ClusterKey;

/// The maximum look-ahead.
const MAX_LOOK_AHEAD: u64 = 100;

/// The maximum skew.
const MAX_SKEW: u64 = 10;

/// The maximum range.
const MAX_RANGE: u64 = 1000;

/// The maximum drift.
const MAX_DRIFT: u64 = 10;

/// The values of the lines that were read.
#[derive(Drop)]
pub(crate) struct Said<'a> {
    members: Vec<SocketAddrV4>,
    look_ahead: Option<u64>,
    skew: Option<u64>,
    range: Option<u64>,
    drift: Option<u64>,
    key: Option<KeySource<'a>>,
    life: Option<&'a [u8]>,
    names: Option<&'a [u8]>,
    fresh: bool,
}

impl<'a> Model for Said<'a> {
    ghost use Rattle.std.specs.Prelude.{◌≤◌, IfSome, map, option_map};
    ghost use Rattle.std.specs.Option.{option_copied};
    ghost use Rattle.cluster_file.specs.Address.{address_value};
    ghost use Rattle.cluster_file.specs.Said.{Said, key_place};

    ghost Value = { Said };

    ghost view = { λ said. record {
      members = map address_value said.members.items;
      look_ahead = said.look_ahead;
      skew = said.skew;
      range = said.range;
      drift = said.drift;
      key = option_map key_place said.key;
      life = option_copied said.life;
      names = option_copied said.names;
      fresh = said.fresh;
    } };

    ghost invariant = { λ said.
        IfSome said.look_ahead (λ n. n ≤ 100) × IfSome said.skew (λ n. n ≤ 10) × IfSome said.range (λ n. n ≤ 1000)
        × IfSome said.drift (λ n. n ≤ 10) };
}

impl<'a> Said<'a> {
    /// Returns the values of no line.
    pub(crate) fn new(alloc: Global) -> Self
        ensures { result ≡ nothing_said }
    {
        Said {
            members: Vec::new(alloc),
            look_ahead: None,
            skew: None,
            range: None,
            drift: None,
            key: None,
            life: None,
            names: None,
            fresh: false,
        }
    }

    /// Takes a line. After a fault the values are not used again.
    pub(crate) fn take_line(&mut self, line: &'a [u8]) -> Result<(), LineFault>
        ensures ok { OnOk result (after_fields self.old (fields_of line.now) ≡ Ok self.new) }
        ensures fault { IfErr result (λ fault. is_memory fault ≡ false →
            after_fields self.old (fields_of line.now) ≡ Err fault) }
    {
        let Some((word, rest)) = first_field(line) else {
            return Ok(());
        };
        if is_remark(word) {
            return Ok(());
        }
        match read_word(word) {
            Some(word) => self.take_word(word, rest),
            None => Err(LineFault::UnknownWord),
        }
    }

    /// Takes the fields after a word.
    fn take_word(&mut self, word: Word, rest: &'a [u8]) -> Result<(), LineFault>
        ensures ok { OnOk result (after_word self.old word (fields_of rest.now) ≡ Ok self.new) }
        ensures fault { IfErr result (λ fault. is_memory fault ≡ false →
            after_word self.old word (fields_of rest.now) ≡ Err fault) }
    {
        match word {
            Word::Member => {
                let member = self.next_member(rest)?;
                if self.members.push(member).is_err() {
                    return Err(LineFault::Memory);
                }
            }
            Word::LookAhead => {
                self.look_ahead = Some(setting(MAX_LOOK_AHEAD, self.look_ahead, rest)?);
            }
            Word::Skew => self.skew = Some(setting(MAX_SKEW, self.skew, rest)?),
            Word::Range => self.range = Some(setting(MAX_RANGE, self.range, rest)?),
            Word::Drift => self.drift = Some(setting(MAX_DRIFT, self.drift, rest)?),
            Word::KeyFile => self.key = Some(KeySource::File(self.key_path(rest)?)),
            Word::Key => self.key = Some(KeySource::Given(self.key_bytes(rest)?)),
            Word::Life => self.life = Some(self.new_life(rest)?),
            Word::Names => self.names = Some(self.new_names(rest)?),
            Word::NewTokens => {
                self.new_fresh(rest)?;
                self.fresh = true;
            }
        }
        Ok(())
    }

    /// Returns the member that a line adds.
    fn next_member(&self, rest: &[u8]) -> Result<SocketAddrV4, LineFault>
        ensures ok { IfOk result (λ member.
            member_of self.now.members (fields_of rest.now) ≡ Ok (address_value member)) }
        ensures fault { IfErr result (λ fault. member_of self.now.members (fields_of rest.now) ≡ Err fault) }
    {
        let (number, address) = two_fields(rest)?;
        if self.members.len() >= MAX_MEMBERS as usize {
            return Err(LineFault::TooManyMembers);
        }
        if !is_number(number, self.members.len() as u64 + 1) {
            return Err(LineFault::MemberNumber);
        }
        let Some(member) = read_address(address) else {
            return Err(LineFault::BadAddress);
        };
        if is_among(member, &self.members) {
            return Err(LineFault::TwiceAddress);
        }
        Ok(member)
    }

    /// Returns the path of the key in a line.
    fn key_path(&self, rest: &'a [u8]) -> Result<&'a [u8], LineFault>
        ensures { field_value result ≡ path_of self.now.key (fields_of rest.now) }
    {
        let path = one_field(rest)?;
        if self.key.is_some() {
            return Err(LineFault::Twice);
        }
        Ok(path)
    }

    /// Returns the key in a line.
    fn key_bytes(&self, rest: &[u8]) -> Result<ClusterKey, LineFault>
        ensures { result ≡ bytes_of self.now.key (fields_of rest.now) }
    {
        let text = one_field(rest)?;
        if self.key.is_some() {
            return Err(LineFault::Twice);
        }
        key(text)
    }

    /// Returns the life in a line.
    fn new_life(&self, rest: &'a [u8]) -> Result<&'a [u8], LineFault>
        ensures { field_value result ≡ life_in self.now.life (fields_of rest.now) }
    {
        let text = one_field(rest)?;
        if self.life.is_some() {
            return Err(LineFault::Twice);
        }
        life(text)
    }

    /// Returns the salt in a line.
    fn new_names(&self, rest: &'a [u8]) -> Result<&'a [u8], LineFault>
        ensures { field_value result ≡ names_in self.now.names (fields_of rest.now) }
    {
        let text = one_field(rest)?;
        if self.names.is_some() {
            return Err(LineFault::Twice);
        }
        salt(text)
    }

    /// Tests the value of `new-tokens` in a line.
    fn new_fresh(&self, rest: &[u8]) -> Result<(), LineFault>
        ensures { result ≡ fresh_in self.now.fresh (fields_of rest.now) }
    {
        let text = one_field(rest)?;
        if self.fresh {
            return Err(LineFault::Twice);
        }
        fresh(text)
    }

    /// Returns the given settings, with defaults for the others.
    fn settings(&self) -> Settings
        ensures { result ≡ settings_of self.now }
    {
        Settings::new(
            self.look_ahead.unwrap_or(10),
            self.skew.unwrap_or(1),
            self.range.unwrap_or(100),
        )
        .unwrap()
        .with_drift(self.drift.unwrap_or(0))
        .unwrap()
    }

    /// Returns the cluster, after the last line.
    pub(crate) fn finish(self) -> Result<Cluster<'a>, LineFault>
        ensures ok { IfOk result (λ cluster. finished self.entry ≡ Ok (cluster_value cluster)) }
        ensures fault { IfErr result (λ fault. finished self.entry ≡ Err fault) }
    {
        let settings = self.settings();
        let (members, key, life) = (self.members, self.key, self.life);
        let (names, fresh) = (self.names, self.fresh);
        if members.is_empty() {
            return Err(LineFault::NoMember);
        }
        let Some(key) = key else {
            return Err(LineFault::NoKey);
        };
        let Some(life) = life else {
            return Err(LineFault::NoLife);
        };
        if fresh && names.is_none() {
            return Err(LineFault::NoNames);
        }
        Ok(Cluster {
            members,
            settings,
            key,
            life,
            names,
            fresh,
        })
    }
}

/// Returns whether a word begins a remark.
fn is_remark(word: &[u8]) -> bool
    ensures { result ≡ is_remark word.now }
{
    match word {
        [] => false,
        [first, ..] => *first == b'#',
    }
}

/// Returns whether `text` is the number `number`.
fn is_number(text: &[u8], number: u64) -> bool
    ensures { result ≡ is_number (number_of text.now) number }
{
    match read_number(text) {
        Some(read) => read == number,
        None => false,
    }
}
