//! A writer of lines to a syslog.

ghost use Rattle.std.specs.Prelude.{◌≡◌, ◌≤◌, ◌+◌, ◌++◌, [], IsOk, None, Ok, length, true};
ghost use Rattle.std.specs.Io.{WritesAtMost};
ghost use Rattle.std.specs.Io.KnownBytes.{Keeps, WriteAppends};
ghost use Rattle.arrayvec.specs.ArrayVec.{array_vec_len};
ghost use Rattle.log_writer.specs.Line.{first_end, taken_at};
ghost use Rattle.log_writer.specs.Syslog as spec;
ghost use Rattle.log_writer.specs.Syslog.{Grows, IsEnded, IsSaid, lost_offers, message_of};

use crate::line::{Line, MAX_LINE_LEN, first_end};
use crate::outlet::Outlet;
use arrayvec::ArrayVec;
use itoa::Buffer;
use std::io::{self, Write};

/// The number of bytes before the text of a datagram.
const HEAD_LEN: usize = 22;

/// The maximum length of a datagram.
pub const MAX_MESSAGE_LEN: usize = HEAD_LEN + MAX_LINE_LEN;

/// A datagram.
type Message = ArrayVec<u8, MAX_MESSAGE_LEN>;

/// Appends bytes.
fn push_all(message: &mut Message, bytes: &[u8])
    requires { array_vec_len message.old + length bytes.now ≤ 1024 }
    ensures items { message.new.items ≡ message.old.items ++ bytes.now }
    ensures len { array_vec_len message.new ≡ array_vec_len message.old + length bytes.now }
{
    let _ = message.try_extend_from_slice(bytes);
}

/// Returns the datagram of a line.
fn message_of(line: &[u8]) -> Message
    requires { length line.now ≤ 1002 }
    ensures { result.items ≡ message_of line.now }
{
    let mut message = Message::new();
    push_all(&mut message, b"<86>1 - - oathd - - - ");
    push_all(&mut message, line);
    message
}

/// Returns the datagram of a number of lost lines.
fn lost_message(number: u64) -> Message
    ensures { result.items ≡ message_of (spec.lost_line number) }
{
    let mut message = Message::new();
    push_all(&mut message, b"<86>1 - - oathd - - - ");
    push_all(&mut message, b"dropped lines=");
    push_all(&mut message, Buffer::new().format(number).as_bytes());
    message
}

/// A writer of lines, each of which it sends as one datagram to a syslog. Its own calls never fail or wait.
///
/// A line has at most 1,002 bytes, so that its datagram has at most 1,024: what is beyond them is cut off. A line whose
/// datagram is refused is lost, and counted. Before the next line a datagram says `dropped lines=` and their number,
/// until it is taken.
#[derive(Drop)]
pub struct SyslogWriter<D: Outlet + Drop> {
    outlet: D,
    line: Line,
    lost: u64,
}

impl<D: Outlet + Drop> SyslogWriter<D> {
    /// Returns a writer over `outlet` without a line.
    pub fn new(outlet: D) -> Self
        ensures outlet { result.outlet ≡ outlet }
        ensures line { result.line ≡ [] }
        ensures lost { result.lost ≡ 0 }
    {
        SyslogWriter {
            outlet,
            line: Line::new(),
            lost: 0,
        }
    }

    /// Offers the datagram of the lost lines, if there are any. Returns whether all are told.
    #[tactic(auto, using(crate::proofs::SyslogLemmas::none_told))]
    fn tell_lost(&mut self) -> bool
        ensures at_once { self.old.lost ≡ 0 → result ≡ true }
        ensures offers { Grows (D.offers self.old.outlet) (D.offers self.new.outlet)
            (lost_offers self.old.lost result) }
        ensures line { self.new.line ≡ self.old.line }
        ensures lost { self.new.lost ≡ self.old.lost }
    {
        if self.lost > 0 {
            self.outlet.send(&lost_message(self.lost))
        } else {
            true
        }
    }

    /// Offers the datagram of the line, after that of the lost lines. Returns the number of lost lines after it.
    fn offer_line(&mut self) -> u64
        ensures { IsEnded self.old.line self.old.lost result (D.offers self.old.outlet) (D.offers self.new.outlet) }
    {
        if !self.tell_lost() {
            return self.lost.saturating_add(1);
        }
        if self.outlet.send(&message_of(self.line.as_slice())) {
            return 0;
        }
        1
    }

    /// Ends the line: offers its datagram, and clears it.
    fn end_line(&mut self)
        ensures ended { IsEnded self.old.line self.old.lost self.new.lost (D.offers self.old.outlet)
            (D.offers self.new.outlet) }
        ensures line { self.new.line ≡ [] }
    {
        self.lost = self.offer_line();
        self.line.clear();
    }
}

impl<D: Outlet + Drop> Write for SyslogWriter<D> {
    /// Takes the bytes through their first LF, or all if there is none.
    fn write(&mut self, bytes: &[u8]) -> io::Result<usize>
        ensures bound { WritesAtMost result bytes.now }
        ensures bytes { WriteAppends None None result bytes.now }
        ensures taken { result ≡ Ok (taken_at (first_end bytes.now) bytes.now) }
        ensures written { IsSaid (first_end bytes.now) bytes.now self.old.line self.new.line self.old.lost self.new.lost
            (D.offers self.old.outlet) (D.offers self.new.outlet) }
    {
        match first_end(bytes) {
            Some(place) => {
                self.line.add(&bytes[..place]);
                self.end_line();
                Ok(place + 1)
            }
            None => {
                self.line.add(bytes);
                Ok(bytes.len())
            }
        }
    }

    /// Does nothing: each line was offered when it ended.
    fn flush(&mut self) -> io::Result<()>
        ensures bytes { Keeps None None }
        ensures ok { IsOk result }
        ensures same { self.new ≡ self.old }
    {
        Ok(())
    }
}
