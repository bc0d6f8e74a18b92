//! A port and a clock in memory, which keep a record, for tests of the crates above.

ghost use Rattle.std.specs.Option.{option_map};
ghost use Rattle.std.specs.Prelude.{◌≡◌, ◌∷◌, [], Some, None, IfOk, OnErr, length, map};
ghost use Rattle.datagram_port.specs.Entries.{event_of_entry};
ghost use Rattle.datagram_port.specs.Port.{Grows, IsWithin, event_of_receive};

use crate::clock::Clock;
use crate::port::{MAX_DATAGRAM_LEN, Port, Received, Sender};
use std::alloc::{AllocError, Global};
use std::marker::Model;

/// An input of a port in memory.
#[derive(Clone, Copy)]
pub enum Coming<'a> {
    /// A datagram, which is cut to 512 bytes.
    Datagram { sender: Sender, bytes: &'a [u8] },
    /// A quiet turn. A poll finds nothing, and leaves it to the next receive.
    Quiet,
    /// A fault.
    Fault,
    /// A pause: a poll finds nothing once, and a receive waits for the next input.
    Pause,
}

/// An entry of the record of a port in memory.
#[derive(Debug, Drop, PartialEq, Eq)]
pub enum PortEntry {
    /// A datagram that the port returned.
    Received { sender: Sender, bytes: Vec<u8> },
    /// A quiet receive.
    Quiet,
    /// A receive that failed.
    Faulted,
    /// An offered datagram, whether the port took it or not.
    Offered { to: Sender, bytes: Vec<u8> },
}

/// A port in memory. It returns its inputs in order, and is then quiet. It keeps a record of its calls as long as the
/// allocator grants the memory.
#[derive(Drop)]
pub struct ListPort<'a> {
    alloc: Global,
    comings: &'a [Coming<'a>],
    takes_sends: bool,
    entries: Vec<PortEntry>,
    is_whole: bool,
}

impl<'a> Model for ListPort<'a> {
    ghost use Rattle.std.specs.Prelude.{List, Option};
    ghost use Rattle.datagram_port.specs.Entries.{events_kept};
    ghost use Rattle.datagram_port.specs.Port.{PortEvent};

    ghost Value = { Option (List PortEvent) };

    ghost view = { λ port. events_kept port.is_whole port.entries.items };
}

/// Returns the entry of a receive.
fn entry_of_receive(
    alloc: Global,
    received: Received,
    buffer: &[u8],
) -> Result<PortEntry, AllocError>
    requires within { IsWithin received }
    requires whole { length buffer.now ≡ 512 }
    ensures { IfOk result (λ entry. event_of_entry entry ≡ event_of_receive received buffer.now) }
{
    match received {
        Received::Datagram { sender, len } => Ok(PortEntry::Received {
            sender,
            bytes: buffer[..len].to_vec(alloc)?,
        }),
        Received::Quiet => Ok(PortEntry::Quiet),
        Received::Fault => Ok(PortEntry::Faulted),
    }
}

impl<'a> ListPort<'a> {
    /// Returns a port with the inputs `comings`.
    pub fn new(alloc: Global, comings: &'a [Coming<'a>]) -> Self
        ensures { result ≡ Some [] }
    {
        ListPort {
            alloc,
            comings,
            takes_sends: true,
            entries: Vec::new(alloc),
            is_whole: true,
        }
    }

    /// Makes every later send fail.
    pub fn fail_sends(&mut self)
        ensures { self.new ≡ self.old }
    {
        self.takes_sends = false;
    }

    /// Returns the received and offered datagrams in order, or None if the allocator refused memory for one.
    pub fn record(&self) -> Option<&[PortEntry]>
        ensures { option_map (λ entries. map event_of_entry entries.now) result ≡ self.now }
    {
        if self.is_whole {
            return Some(self.entries.as_slice());
        }
        None
    }

    /// Appends an entry to the record, if there is a record and memory for it.
    fn keep(&mut self, entry: Result<PortEntry, AllocError>)
        ensures kept { IfOk entry (λ kept. Grows self.old self.new (event_of_entry kept ∷ [])) }
        ensures lost { OnErr entry (self.new ≡ None) }
    {
        match entry {
            Ok(entry) => {
                if self.entries.push(entry).is_err() {
                    self.is_whole = false;
                }
            }
            Err(_) => self.is_whole = false,
        }
    }

    /// Appends the entry of a receive.
    fn keep_received(&mut self, received: Received, buffer: &[u8; 512])
        requires { IsWithin received }
        ensures { Grows self.old self.new (event_of_receive received buffer.now ∷ []) }
    {
        let entry = entry_of_receive(self.alloc, received, buffer.as_slice());
        self.keep(entry);
    }

    /// Takes the next input except pauses.
    fn next(&mut self) -> Coming<'a>
        ensures { self.new ≡ self.old }
    {
        let comings = self.comings;
        for place in 0..comings.len() {
            match comings[place] {
                Coming::Pause => {}
                coming => {
                    self.comings = &comings[place + 1..];
                    return coming;
                }
            }
        }
        self.comings = &comings[comings.len()..];
        Coming::Quiet
    }

    /// Returns whether a poll finds nothing. Ends a pause.
    fn is_empty_now(&mut self) -> bool
        ensures { self.new ≡ self.old }
    {
        let comings = self.comings;
        if comings.is_empty() {
            return true;
        }
        match comings[0] {
            Coming::Pause => {
                self.comings = &comings[1..];
                true
            }
            Coming::Quiet => true,
            Coming::Datagram { .. } | Coming::Fault => false,
        }
    }

    /// Returns the next input. Writes its bytes to `buffer`.
    fn hand_in(&mut self, buffer: &mut [u8; 512]) -> Received
        ensures within { IsWithin result }
        ensures record { self.new ≡ self.old }
    {
        match self.next() {
            Coming::Datagram { sender, bytes } => {
                let len = bytes.len().min(MAX_DATAGRAM_LEN);
                buffer[..len].copy_from_slice(&bytes[..len]);
                Received::Datagram { sender, len }
            }
            Coming::Quiet | Coming::Pause => Received::Quiet,
            Coming::Fault => Received::Fault,
        }
    }
}

impl Port for ListPort<'_> {
    ghost events = { λ port. port };

    fn receive(&mut self, buffer: &mut [u8; 512]) -> Received {
        let received = self.hand_in(buffer);
        self.keep_received(received, buffer);
        received
    }

    fn poll(&mut self, buffer: &mut [u8; 512]) -> Option<Received> {
        if self.is_empty_now() {
            return None;
        }
        match self.hand_in(buffer) {
            Received::Quiet => None,
            received => {
                self.keep_received(received, buffer);
                Some(received)
            }
        }
    }

    fn send(&mut self, to: Sender, bytes: &[u8]) -> bool {
        let entry = match bytes.to_vec(self.alloc) {
            Ok(bytes) => Ok(PortEntry::Offered { to, bytes }),
            Err(refused) => Err(refused),
        };
        self.keep(entry);
        self.takes_sends
    }
}

/// A clock in memory. It tells its moments in order. After the last one it fails. It keeps a record of the moments that
/// it told as long as the allocator grants the memory.
#[derive(Drop)]
pub struct ListClock<'a> {
    moments: &'a [u64],
    told: Vec<Option<u64>>,
    is_whole: bool,
}

impl<'a> Model for ListClock<'a> {
    ghost use Rattle.std.specs.Prelude.{ℕ, List, Option};
    ghost use Rattle.datagram_port.specs.Entries.{moments_kept};

    ghost Value = { Option (List (Option ℕ)) };

    ghost view = { λ clock. moments_kept clock.is_whole clock.told.items };
}

impl<'a> ListClock<'a> {
    /// Returns a clock that tells `moments`.
    pub fn new(alloc: Global, moments: &'a [u64]) -> Self
        ensures { result ≡ Some [] }
    {
        ListClock {
            moments,
            told: Vec::new(alloc),
            is_whole: true,
        }
    }

    /// Returns the moments that the clock told, in order, or None if the allocator refused memory for one.
    pub fn record(&self) -> Option<&[Option<u64>]>
        ensures { option_map (λ told. told.now) result ≡ self.now }
    {
        if self.is_whole {
            return Some(self.told.as_slice());
        }
        None
    }

    /// Returns the next moment, or None.
    fn next(&mut self) -> Option<u64>
        ensures { self.new ≡ self.old }
    {
        let (first, rest) = self.moments.split_first()?;
        self.moments = rest;
        Some(*first)
    }
}

impl Clock for ListClock<'_> {
    ghost moments = { λ clock. clock };

    fn moment(&mut self) -> Option<u64> {
        let moment = self.next();
        if self.told.push(moment).is_err() {
            self.is_whole = false;
        }
        moment
    }
}
