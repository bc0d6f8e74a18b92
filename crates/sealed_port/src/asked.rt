//! The opened lines without an answer.

ghost use Rattle.std.specs.Prelude.{◌≡◌, ◌<◌, ◌≤◌, ◌∷◌, [], ◌++◌, ◌==◌, ◌&&◌, drop, length, position, nat_lt, if◌then◌else◌, IfSome, option_map};
ghost use Rattle.std.specs.List.{list_any};
ghost use Rattle.std.specs.Str.{bytes_eq};
ghost use Rattle.sealed_port.specs.Asked.{clashes, is_another, is_of, line_at, nonce_in, nonce_of, place_of, remembered, waits, with_one, without};

use arrayvec::ArrayVec;
use client_lines::read_line;
use field_text::cut_at;
use std::marker::Model;

/// The maximum number of remembered lines: the lines of a batch, and the lines that wait for votes.
pub const MAX_ASKED: usize = 96;

/// The maximum length of a nonce, in bytes.
const MAX_NONCE_LEN: usize = 20;

/// The maximum length of a line, in bytes.
const MAX_LINE_LEN: usize = 256;

/// An opened line without an answer.
#[derive(Drop, Default)]
pub struct Asked {
    pub(crate) client: u16,
    nonce: ArrayVec<u8, MAX_NONCE_LEN>,
    line: ArrayVec<u8, MAX_LINE_LEN>,
    pub(crate) address: u64,
    pub(crate) moment: u64,
    pub(crate) tag: [u8; 32],
}

impl Model for Asked {
    ghost use Rattle.sealed_port.specs.Asked.{AskedRecord};

    ghost Value = { AskedRecord };

    ghost view = { λ asked. record {
      client = asked.client;
      nonce = asked.nonce.items;
      line = asked.line.items;
      address = asked.address;
      moment = asked.moment;
      tag = asked.tag;
    } };
}

/// Returns the nonce of the answer to a line.
fn nonce_in(line: &[u8]) -> ArrayVec<u8, MAX_NONCE_LEN>
    ensures { result.items ≡ nonce_in line.now }
{
    match read_line(line) {
        Some(line) => ArrayVec::try_from(line.nonce()).unwrap(),
        None => ArrayVec::try_from(b"-".as_slice()).unwrap(),
    }
}

/// Returns the nonce of an answer: the second of its fields, which single spaces divide.
fn nonce_of(answer: &[u8]) -> &[u8]
    ensures { result.now ≡ nonce_of answer.now }
{
    let Some((_, rest)) = cut_at(answer, b' ') else {
        return b"";
    };
    match cut_at(rest, b' ') {
        Some((nonce, _)) => nonce,
        None => rest,
    }
}

impl Asked {
    /// Returns a line of a client from an address, with its moment and tag.
    pub fn new(client: u16, line: &[u8], address: u64, moment: u64, tag: [u8; 32]) -> Self
        requires { length line.now ≤ 256 }
        ensures { result ≡ record {
          client = client;
          nonce = nonce_in line.now;
          line = line.now;
          address = address;
          moment = moment;
          tag = tag;
        } }
    {
        Asked {
            client,
            nonce: nonce_in(line),
            line: ArrayVec::try_from(line).unwrap(),
            address,
            moment,
            tag,
        }
    }

    /// Returns whether the line is from `client` and has the nonce `nonce`.
    fn is_of(&self, client: u16, nonce: &[u8]) -> bool
        ensures { result ≡ is_of client nonce.now self.now }
    {
        self.client == client && self.nonce.as_slice() == nonce
    }

    /// Returns whether the line is another line of `client` with the nonce `nonce`.
    fn is_another(&self, client: u16, nonce: &[u8], line: &[u8]) -> bool
        ensures { result ≡ is_another client nonce.now line.now self.now }
    {
        self.is_of(client, nonce) && self.line.as_slice() != line
    }
}

/// The lines without an answer, the oldest first. Of more than 96 it keeps the newest.
#[derive(Drop)]
pub struct AskedLines {
    lines: ArrayVec<Asked, MAX_ASKED>,
}

impl Model for AskedLines {
    ghost use Rattle.std.specs.Prelude.{List};
    ghost use Rattle.sealed_port.specs.Asked.{AskedRecord};

    ghost Value = { List AskedRecord };

    ghost view = { λ asked. asked.lines.items };
}

impl AskedLines {
    /// Returns no lines.
    pub fn new() -> Self
        ensures { result ≡ [] }
    {
        AskedLines {
            lines: ArrayVec::new(),
        }
    }

    /// Returns whether another line of `client` with the nonce of `line` waits for its answer.
    pub fn clashes(&self, client: u16, line: &[u8]) -> bool
        ensures { result ≡ clashes client line.now self.now }
    {
        let nonce = nonce_in(line);
        self.has_another(client, &nonce, line)
    }

    /// Returns whether one of the lines is another line of `client` with the nonce `nonce`.
    fn has_another(&self, client: u16, nonce: &[u8], line: &[u8]) -> bool
        ensures { result ≡ list_any (is_another client nonce.now line.now) self.now }
    {
        self.lines
            .iter()
            .any(|asked| asked.is_another(client, nonce, line))
    }

    /// Returns the place of the oldest line of a client with a nonce, or None.
    fn place_of(&self, client: u16, nonce: &[u8]) -> Option<usize>
        ensures place { result ≡ place_of client nonce.now self.now }
        ensures within { IfSome result (λ place. place < length self.now) }
    {
        self.lines
            .iter()
            .position(|asked| asked.is_of(client, nonce))
    }

    /// Returns whether a line of `client` with the nonce of `line` waits for its answer.
    pub fn waits(&self, client: u16, line: &[u8]) -> bool
        ensures { result ≡ waits client line.now self.now }
    {
        let nonce = nonce_in(line);
        self.place_of(client, &nonce).is_some()
    }

    /// Removes and returns the oldest line of a client with a nonce, or returns None.
    fn take_of(&mut self, client: u16, nonce: &[u8]) -> Option<Asked>
        ensures line { result ≡ line_at (place_of client nonce.now self.old) self.old }
        ensures others { self.new ≡ without (place_of client nonce.now self.old) self.old }
    {
        let place = self.place_of(client, nonce)?;
        Some(self.lines.remove(place))
    }

    /// Adds a line. It replaces the oldest line if there is no room.
    fn push(&mut self, asked: Asked)
        ensures { self.new ≡ with_one self.old asked }
    {
        if self.lines.is_full() {
            self.lines.remove(0);
        }
        self.lines.push(asked);
    }

    /// Remembers a line. It replaces a line of its client with its nonce.
    pub fn add(&mut self, asked: Asked)
        ensures { self.new ≡ remembered self.old asked }
    {
        self.take_of(asked.client, &asked.nonce);
        self.push(asked);
    }

    /// Removes and returns the line of a client that `answer` answers, or returns None.
    pub fn take(&mut self, client: u16, answer: &[u8]) -> Option<Asked>
        ensures line { result ≡ line_at (place_of client (nonce_of answer.now) self.old) self.old }
        ensures others { self.new ≡ without (place_of client (nonce_of answer.now) self.old) self.old }
    {
        self.take_of(client, nonce_of(answer))
    }
}
