//! The remembered clients, nonces and users of the lines without an answer.

ghost use Rattle.std.specs.Prelude.{◌≡◌, ◌<◌, ◌∷◌, [], ◌++◌, ◌==◌, ◌&&◌, drop, length, position, nat_lt, if◌then◌else◌, IfSome, option_map};
ghost use Rattle.std.specs.Str.{bytes_eq};
ghost use Rattle.node_log.specs.Asked.{AskedLine as AskedRecord, is_of, nonce_of, place_of, user_at, with_line, with_one, without};
ghost use Rattle.client_lines.specs.Request.{Request};

use arrayvec::ArrayVec;
use client_lines::{Line, Nonce, read_line};
use field_text::cut_at;
use std::marker::Model;

/// The maximum number of remembered lines: the lines of a batch, and the lines that wait for votes.
pub const MAX_ASKED: usize = 96;

/// The maximum length of a user's name, in bytes.
const MAX_NAME_LEN: usize = 64;

/// A client's line without an answer. It has no room for a code or a password.
#[derive(Drop, Default)]
pub struct Asked {
    client: u64,
    nonce: Nonce,
    user: ArrayVec<u8, MAX_NAME_LEN>,
}

impl Model for Asked {
    ghost use Rattle.node_log.specs.Asked.{AskedLine};

    ghost Value = { AskedLine };

    ghost view = { λ asked. record { client = asked.client; nonce = asked.nonce; user = asked.user.items } };
}

impl Asked {
    /// Returns whether the line came from `client` and has the nonce `nonce`.
    fn is_of(&self, client: u64, nonce: &[u8]) -> bool
        ensures { result ≡ is_of client nonce.now self.now }
    {
        self.client == client && self.nonce.as_slice() == nonce
    }
}

/// The lines of clients without an answer, the oldest first. Of more than 96 it keeps the newest.
#[derive(Drop)]
pub struct AskedLines {
    lines: ArrayVec<Asked, MAX_ASKED>,
}

impl Model for AskedLines {
    ghost use Rattle.std.specs.Prelude.{List};
    ghost use Rattle.node_log.specs.Asked.{AskedLine};

    ghost Value = { List AskedLine };

    ghost view = { λ asked. asked.lines.items };
}

/// Returns the nonce of an answer: the second of its fields, which single spaces divide.
fn nonce_of(answer: &[u8]) -> &[u8]
    ensures { result.now ≡ nonce_of answer.now }
{
    let Some((_, rest)) = cut_at(answer, b' ') else {
        return b"";
    };
    match cut_at(rest, b' ') {
        Some((nonce, _)) => nonce,
        None => rest,
    }
}

impl AskedLines {
    /// Returns no lines.
    pub fn new() -> Self
        ensures { result ≡ [] }
    {
        AskedLines {
            lines: ArrayVec::new(),
        }
    }

    /// Adds a line. It replaces the oldest line if there is no room.
    fn push(&mut self, asked: Asked)
        ensures { self.new ≡ with_one self.old asked }
    {
        if self.lines.is_full() {
            self.lines.remove(0);
        }
        self.lines.push(asked);
    }

    /// Remembers a client's line if it is in the line grammar.
    pub fn add(&mut self, client: u64, bytes: &[u8])
        ensures { self.new ≡ with_line client bytes.now self.old }
    {
        let Some(line) = read_line(bytes) else {
            return;
        };
        let Ok(user) = ArrayVec::try_from(line.user()) else {
            return;
        };
        self.push(Asked {
            client,
            nonce: line.to_nonce(),
            user,
        });
    }

    /// Returns the place of the oldest line that `answer` answers, or None.
    fn place_of(&self, client: u64, answer: &[u8]) -> Option<usize>
        ensures place { result ≡ place_of client answer.now self.now }
        ensures within { IfSome result (λ place. place < length self.now) }
    {
        let nonce = nonce_of(answer);
        self.lines
            .iter()
            .position(|asked| asked.is_of(client, nonce))
    }

    /// Removes the oldest line that `answer` to `client` answers, and returns its user, or None if there is no such
    /// line.
    pub fn take(&mut self, client: u64, answer: &[u8]) -> Option<ArrayVec<u8, MAX_NAME_LEN>>
        ensures user { option_map (λ user. user.items) result ≡ user_at (place_of client answer.now self.old) self.old }
        ensures others { self.new ≡ without (place_of client answer.now self.old) self.old }
    {
        let place = self.place_of(client, answer)?;
        Some(self.lines.remove(place).user)
    }
}
