//! The translation of members' datagrams, by the book of a node.

ghost use Rattle.std.specs.Option.{option_map};
ghost use Rattle.std.specs.Prelude.{◌≡◌, ◌<◌, None, IfSome, slice_set, true};
ghost use Rattle.gatekeeping.specs.Members.{nobody};
ghost use Rattle.named_port.specs.Translator.{after_datagram, new_translator, sent_by, translated};
ghost use Rattle.named_port.specs.Wire.{named_at};

use crate::names::Names;
use crate::wire::{MAX_NAMED_LEN, MAX_NUMBERED_LEN, is_of_one_token, named, numbered};
use arrayvec::ArrayVec;
use gatekeeping::{Older, PLACES};
use named_wire::{Head, read_datagram};
use std::marker::Model;
use vote_wire::ClusterKey;

/// The translation of a node's datagrams to the other members, and of theirs to the node.
#[derive(Drop)]
pub(crate) struct Translator<'k> {
    key: &'k ClusterKey,
    names: &'k Names,
    me: u8,
    boot: u64,
    known: [u64; PLACES],
    heard: [u64; PLACES],
    older: Option<Older>,
    differing: [bool; PLACES],
}

impl<'k> Model for Translator<'k> {
    ghost use Rattle.std.specs.Prelude.{◌≡◌, length};
    ghost use Rattle.named_port.specs.Translator.{TranslatorRecord};

    ghost Value = { TranslatorRecord };

    ghost view = { λ translator. record {
      key = translator.key.now;
      names = translator.names.now;
      me = translator.me;
      boot = translator.boot;
      known = translator.known;
      heard = translator.heard;
      older = translator.older;
      differing = translator.differing;
    } };
}

impl<'k> Translator<'k> {
    /// Returns a translator for the node `me` in `boot`, with the names of the node's book. It knows boots of members.
    pub(crate) fn new(
        key: &'k ClusterKey,
        names: &'k Names,
        me: u8,
        boot: u64,
        known: [u64; PLACES],
    ) -> Self
        ensures { result ≡ new_translator key.now names.now me boot known }
    {
        Translator {
            key,
            names,
            me,
            boot,
            known,
            heard: known,
            older: None,
            differing: [false; PLACES],
        }
    }

    /// Returns the last dropped datagram of an older boot since the last call, or None.
    pub(crate) fn take_older(&mut self) -> Option<Older>
        ensures older { result ≡ self.old.older }
        ensures others { self.new ≡ record self.old { older = None } }
    {
        self.older.take()
    }

    /// Returns whether each member differs, from member 0 to 9: a datagram came from its address since the last call
    /// that the translator can't read.
    pub(crate) fn take_differing(&mut self) -> [bool; PLACES]
        ensures members { result ≡ self.old.differing }
        ensures others { self.new ≡ record self.old { differing = nobody } }
    {
        let differing = self.differing;
        self.differing = [false; PLACES];
        differing
    }

    /// Notes that `member` differs.
    fn mark(&mut self, member: u8)
        ensures { self.new ≡ record self.old { differing = slice_set self.old.differing member true } }
    {
        let place = usize::from(member);
        if place < PLACES {
            self.differing[place] = true;
        }
    }

    /// Returns the greatest boot of each member that the translator knew at its start or heard, from member 0 to 9, or
    /// 0.
    pub(crate) fn heard(&self) -> [u64; PLACES]
        ensures { result ≡ self.now.heard }
    {
        self.heard
    }

    /// Returns the named datagram of the node's numbered one, or None.
    pub(crate) fn named(&self, bytes: &[u8]) -> Option<ArrayVec<u8, MAX_NAMED_LEN>>
        ensures { option_map (λ out. out.items) result
            ≡ named_at self.now.key self.now.names self.now.boot bytes.now }
    {
        named(self.key, self.names, self.boot, bytes)
    }

    /// Returns the head and the body of a datagram that `member` sent to the node, or None.
    fn sent_by<'a>(&self, member: u8, bytes: &'a [u8]) -> Option<(Head, &'a [u8])>
        ensures read { option_map (λ read. (read.0, read.1.now)) result ≡ sent_by self.now member bytes.now }
        ensures member { IfSome result (λ read. read.0.from < 10) }
    {
        let (head, body) = read_datagram(self.key, bytes)?;
        if head.from == member && head.to == self.me {
            return Some((head, body));
        }
        None
    }

    /// Returns the numbered datagram of a datagram that came from `member`, and remembers the boot of its head.
    ///
    /// Returns None if it is no datagram of one token that the member sent to the node, if its boot is below the
    /// greatest one that the member was heard in, or if the book has no token with its name. Notes that the member
    /// differs in the first and the last case, unless the datagram is empty or one of several tokens.
    pub(crate) fn numbered(
        &mut self,
        member: u8,
        bytes: &[u8],
    ) -> Option<ArrayVec<u8, MAX_NUMBERED_LEN>>
        ensures translated { option_map (λ out. out.items) result
            ≡ translated self.old (sent_by self.old member bytes.now) }
        ensures after { self.new ≡ after_datagram self.old member bytes.now (sent_by self.old member bytes.now) }
    {
        let Some((head, body)) = self.sent_by(member, bytes) else {
            if !bytes.is_empty() {
                self.mark(member);
            }
            return None;
        };
        let place = usize::from(head.from);
        if head.boot < self.heard[place] {
            self.older = Some(Older {
                member: head.from,
                boot: head.boot,
            });
            return None;
        }
        self.heard[place] = head.boot;
        let out = numbered(self.names, head, body);
        if out.is_none() && is_of_one_token(head.kind) {
            self.mark(member);
        }
        out
    }
}
