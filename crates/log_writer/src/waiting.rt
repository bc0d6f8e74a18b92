//! What a log that waits for its writer holds.

ghost use Rattle.std.specs.Prelude.{◌≡◌, ◌≤◌, ◌+◌, ◌++◌, false, length, take, count_by};
ghost use Rattle.arrayvec.specs.ArrayVec.{array_vec_len};
ghost use Rattle.log_writer.specs.Line.{first_end, taken_at, with_bytes};
ghost use Rattle.log_writer.specs.Waiting as spec;
ghost use Rattle.log_writer.specs.Waiting.{IsHanded, IsTaken};

use crate::line::{Line, MAX_LINE_LEN, first_end};
use crate::pass_on::pass_on;
use arrayvec::ArrayVec;
use itoa::Buffer;
use std::io::Write;
use std::marker::Model;

/// The maximum number of bytes of whole lines that wait.
const ROOM: usize = 8192;

/// The maximum length of the text before the lines: LF, `dropped lines=`, a number of 20 digits and LF.
const MAX_BEFORE_LEN: usize = 36;

/// The text before the lines.
type Before = ArrayVec<u8, MAX_BEFORE_LEN>;

/// What a log that waits for its writer holds, and how many lines it lost.
#[derive(Drop)]
pub(crate) struct Waiting {
    line: Line,
    lines: ArrayVec<u8, ROOM>,
    dropped: u64,
    is_cut: bool,
}

impl Model for Waiting {
    ghost use Rattle.log_writer.specs.Waiting.{WaitingRecord};

    ghost Value = { WaitingRecord };

    ghost view = { λ waiting. record {
      line = waiting.line;
      lines = waiting.lines.items;
      dropped = waiting.dropped;
      is_cut = waiting.is_cut;
    } };
}

/// Returns the number of lines that end in a text.
fn count_ends(text: &[u8]) -> u64
    ensures { result ≡ spec.count_ends text.now }
{
    text.iter().filter(|byte| **byte == b'\n').count() as u64
}

/// Returns whether a text that some bytes were appended to ends within a line.
fn is_cut_after(bytes: &[u8], is_cut: bool) -> bool
    ensures { result ≡ spec.is_cut_after bytes.now is_cut }
{
    match bytes.last().copied() {
        Some(byte) => byte != b'\n',
        None => is_cut,
    }
}

/// Appends bytes.
fn push_all(text: &mut Before, bytes: &[u8])
    requires { array_vec_len text.old + length bytes.now ≤ 36 }
    ensures items { text.new.items ≡ text.old.items ++ bytes.now }
    ensures len { array_vec_len text.new ≡ array_vec_len text.old + length bytes.now }
{
    let _ = text.try_extend_from_slice(bytes);
}

/// Appends the line of lost lines.
fn push_line(text: &mut Before, number: u64)
    requires { array_vec_len text.old ≤ 1 }
    ensures { text.new.items ≡ text.old.items ++ spec.dropped_line number }
{
    push_all(text, b"dropped lines=");
    push_all(text, Buffer::new().format(number).as_bytes());
    push_all(text, b"\n");
}

/// Appends the line of lost lines, if there are any.
#[tactic(auto, using(crate::proofs::WaitingLemmas::dropped_some))]
fn push_dropped(text: &mut Before, number: u64)
    requires { array_vec_len text.old ≤ 1 }
    ensures { text.new.items ≡ text.old.items ++ spec.dropped_text number }
{
    if number > 0 {
        push_line(text, number);
    }
}

/// Hands a text to the writer, and then another one if it took all of the first. Returns how much it took of each.
#[tactic(auto, using(crate::proofs::WaitingLemmas::first_taken, crate::proofs::WaitingLemmas::both_taken))]
fn pass_both<W: Write>(writer: &mut W, before: &[u8], lines: &[u8]) -> (usize, usize)
    ensures { IsTaken before.now lines.now result.0 result.1 (W.contents writer.old) (W.contents writer.new) }
{
    let told = pass_on(writer, before);
    if told < before.len() {
        return (told, 0);
    }
    (told, pass_on(writer, lines))
}

impl Waiting {
    /// Returns that nothing waits, and that nothing was lost.
    pub(crate) fn new() -> Self
        ensures { result ≡ spec.new_waiting }
    {
        Waiting {
            line: Line::new(),
            lines: ArrayVec::new(),
            dropped: 0,
            is_cut: false,
        }
    }

    /// Returns whether there may be no room for one more line.
    pub(crate) fn is_full(&self) -> bool
        ensures { result ≡ spec.is_full self.now }
    {
        self.lines.len() > ROOM - MAX_LINE_LEN - 1
    }

    /// Returns whether nothing is to be said.
    pub(crate) fn is_quiet(&self) -> bool
        ensures { result ≡ spec.is_quiet self.now }
    {
        self.lines.is_empty() && self.dropped == 0
    }

    /// Appends bytes to the line that has no LF yet.
    fn add(&mut self, bytes: &[u8])
        ensures { self.new ≡ record self.old { line = with_bytes self.old.line bytes.now } }
    {
        self.line.add(bytes);
    }

    /// Ends the line.
    fn end_line(&mut self)
        requires { spec.is_full self.old ≡ false }
        ensures { self.new ≡ spec.with_end self.old }
    {
        let _ = self.lines.try_extend_from_slice(self.line.as_slice());
        let _ = self.lines.try_push(b'\n');
        self.line.clear();
    }

    /// Takes the bytes through their first LF, or all if there is none. Returns their number.
    pub(crate) fn write(&mut self, bytes: &[u8]) -> usize
        requires { spec.is_full self.old ≡ false }
        ensures waits { self.new ≡ spec.after_write bytes.now self.old }
        ensures taken { result ≡ taken_at (first_end bytes.now) bytes.now }
        ensures bound { result ≤ length bytes.now }
    {
        match first_end(bytes) {
            Some(place) => {
                self.add(&bytes[..place]);
                self.end_line();
                place + 1
            }
            None => {
                self.add(bytes);
                bytes.len()
            }
        }
    }

    /// Returns the text before the lines.
    fn before(&self) -> Before
        ensures { result.items ≡ spec.before self.now }
    {
        let mut text = Before::new();
        if self.is_cut {
            push_all(&mut text, b"\n");
        }
        push_dropped(&mut text, self.dropped);
        text
    }

    /// Returns the number of lost lines, by whether the writer took all of the text before the lines, and the number of
    /// bytes of the lines that it took.
    fn dropped_at(&self, is_told: bool, passed: usize) -> u64
        requires { passed ≤ length self.now.lines }
        ensures { result ≡ spec.dropped_at self.now is_told passed }
    {
        if is_told {
            count_ends(&self.lines[passed..])
        } else {
            self.dropped.saturating_add(count_ends(&self.lines))
        }
    }

    /// Notes how many bytes of the text before the lines and of the lines the writer took. The lines no longer wait.
    fn note(&mut self, before: &[u8], told: usize, passed: usize)
        requires before { before.now ≡ spec.before self.old }
        requires told { told ≤ length before.now }
        requires passed { passed ≤ length self.old.lines }
        ensures { self.new ≡ spec.handed self.old told passed }
    {
        let is_cut = is_cut_after(&before[..told], self.is_cut);
        let is_cut = is_cut_after(&self.lines[..passed], is_cut);
        let dropped = self.dropped_at(told == before.len(), passed);
        self.lines.clear();
        self.dropped = dropped;
        self.is_cut = is_cut;
    }

    /// Hands the whole lines to the writer, after the text before them. Those that it does not take are lost.
    pub(crate) fn hand<W: Write>(&mut self, writer: &mut W)
        ensures { IsHanded self.old self.new (W.contents writer.old) (W.contents writer.new) }
    {
        let before = self.before();
        let (told, passed) = pass_both(writer, &before, &self.lines);
        self.note(&before, told, passed);
    }
}
