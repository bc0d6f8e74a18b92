//! The failures of clients in a minute of the clock, and the limit of them.

ghost use Rattle.std.specs.Option.{option_map};
ghost use Rattle.std.specs.Prelude.{◌≡◌, ◌==◌, [], find, map};
ghost use Rattle.sealed_port.specs.Failures.{failed_after, failures_after, failures_at, failures_of, is_failure, is_limited, third_of, with_one_of};
ghost use Rattle.std.specs.List.{list_any, slice_split};

use crate::gate::MAX_CLIENTS;
use arrayvec::ArrayVec;
use field_text::cut_at;
use std::marker::Model;

/// The number of seconds of a minute.
const SECONDS_OF_MINUTE: u64 = 60;

/// The number of failures of a client.
#[derive(Clone, Copy, Debug, Default, PartialEq, Eq)]
pub struct Failed {
    client: u16,
    number: u64,
}

impl Failed {
    /// Returns whether the entry is of `client`.
    fn is_of(&self, client: u16) -> bool
        ensures { result ≡ (self.now.client == client) }
    {
        self.client == client
    }

    /// Returns the entry with one more failure, if it is of `client`.
    fn with_one_of(self, client: u16) -> Self
        ensures { result ≡ with_one_of client self }
    {
        if self.client == client {
            return Failed {
                client: self.client,
                number: self.number.saturating_add(1),
            };
        }
        self
    }
}

/// Returns the reason of a refusal: the third of an answer's fields, which single spaces divide.
fn reason_of(answer: &[u8]) -> &[u8]
    ensures { result.now ≡ third_of (slice_split (λ byte. byte == 32) answer.now) }
{
    let Some((_, rest)) = cut_at(answer, b' ') else {
        return b"";
    };
    let Some((_, rest)) = cut_at(rest, b' ') else {
        return b"";
    };
    match cut_at(rest, b' ') {
        Some((reason, _)) => reason,
        None => rest,
    }
}

/// Returns whether an answer is a refusal for a wrong code or a wrong password.
fn is_failure(answer: &[u8]) -> bool
    ensures { result ≡ is_failure answer.now }
{
    let reason = reason_of(answer);
    reason == b"INVALID".as_slice() || reason == b"PASSWORD".as_slice()
}

/// Returns the entry of a client, or None.
fn entry_of(failed: &[Failed], client: u16) -> Option<&Failed>
    ensures { option_map (λ one. one.now) result ≡ find (λ one. one.client == client) failed.now }
{
    failed.iter().find(|one| one.is_of(client))
}

/// Returns the number of failures of a client.
fn failures_of(failed: &[Failed], client: u16) -> u64
    ensures { result ≡ failures_of client failed.now }
{
    match entry_of(failed, client) {
        Some(one) => one.number,
        None => 0,
    }
}

/// Adds a failure to the entries of a client.
fn add_to(failed: &mut [Failed], client: u16)
    ensures { failed.new ≡ map (with_one_of client) failed.old }
{
    for one in failed.iter_mut() {
        *one = one.with_one_of(client);
    }
}

/// Returns whether a client has an entry.
fn has_entry(failed: &[Failed], client: u16) -> bool
    ensures { result ≡ list_any (λ one. one.client == client) failed.now }
{
    failed.iter().any(|one| one.is_of(client))
}

/// The failures of clients in a minute of the clock. They may be limited.
#[derive(Drop)]
pub struct Failures {
    most: Option<u64>,
    minute: u64,
    failed: ArrayVec<Failed, MAX_CLIENTS>,
}

impl Model for Failures {
    ghost use Rattle.sealed_port.specs.Failures.{FailuresRecord};

    ghost Value = { FailuresRecord };

    ghost view = { λ failures. record {
      most = failures.most;
      minute = failures.minute;
      failed = failures.failed.items;
    } };
}

impl Failures {
    /// Returns no failures. With `most`, a client sends no line in the rest of a minute in which it failed so often.
    pub fn new(most: Option<u64>) -> Self
        ensures { result ≡ record { most = most; minute = 0; failed = [] } }
    {
        Failures {
            most,
            minute: 0,
            failed: ArrayVec::new(),
        }
    }

    /// Returns whether the failures of `client` in the minute of the second `now` are at the limit.
    pub fn is_limited(&self, now: u64, client: u16) -> bool
        ensures { result ≡ is_limited self.now now client }
    {
        let Some(most) = self.most else {
            return false;
        };
        if self.minute != now / SECONDS_OF_MINUTE {
            return most == 0;
        }
        most <= failures_of(&self.failed, client)
    }

    /// Begins the minute of the second `now` of the clock without failures, unless it has begun.
    pub fn begin(&mut self, now: u64)
        ensures { self.new ≡ failures_at now self.old }
    {
        let minute = now / SECONDS_OF_MINUTE;
        if self.minute != minute {
            self.minute = minute;
            self.failed.clear();
        }
    }

    /// Adds a failure of `client`.
    fn add(&mut self, client: u16)
        ensures { self.new ≡ record self.old { failed = failed_after client self.old.failed } }
    {
        if has_entry(&self.failed, client) {
            add_to(self.failed.as_mut_slice(), client);
        } else if !self.failed.is_full() {
            self.failed.push(Failed { client, number: 1 });
        }
    }

    /// Notes an answer of the node to `client`: it counts if it is a refusal for a wrong code or a wrong password.
    pub fn note(&mut self, client: u16, answer: &[u8])
        ensures { self.new ≡ failures_after client answer.now self.old }
    {
        if is_failure(answer) {
            self.add(client);
        }
    }
}
