ghost use Rattle.std.specs.Prelude.{◌≡◌, ◌+◌, ◌∷◌, ◌^◌, ◌<◌, ◌≤◌, ◌≢◌, ◌||◌, [], false, length, is_ok, IfErr, IfOk, IsTrue, MatchResult, OnOk, Ok, Err};
ghost use Rattle.otp_core.specs.Range.{IsMoment};
ghost use Rattle.token_file.specs.Reading.{Fails, Leads, Progress, initial_progress};
ghost use Rattle.token_file.specs.Source.{OfText, Stays};
ghost use Rattle.token_file.specs.UsersFile.{Instant, IsCutOff, after_line, book_of, import_of, instant_of, is_of_text, is_read, is_read_result};

use crate::book::Book;
use crate::fault::{FileFault, LineFault};
use crate::floor::first_floor;
use crate::row::read_row;
use crate::source::{Pulled, Source};
use arrayvec::ArrayVec;
use otp_core::{MAX_TOKENS, Next, Settings};
use std::alloc::Global;
use std::marker::Model;

/// The maximum length of a line of a users file, in bytes without its LF.
pub const MAX_LINE_LEN: usize = 4096;

/// The maximum length of a users file, in bytes.
pub const MAX_FILE_LEN: u32 = 16_777_216;

/// The number of bytes that a pull asks for.
const PIECE_LEN: usize = 4096;

/// The part of a users file that was read.
#[derive(Drop)]
struct Reading {
    book: Book,
    floors: Vec<Next>,
    /// The number of the line that is being read, from 1.
    number: u32,
    /// The bytes of the line that were read.
    line: ArrayVec<u8, MAX_LINE_LEN>,
    /// The number of bytes that may still be read.
    room: u32,
}

impl Model for Reading {
    ghost use Rattle.std.specs.Prelude.{◌+◌, ◌^◌, ◌<◌, ◌≤◌, length};
    ghost use Rattle.token_file.specs.Reading.{Progress};

    ghost Value = { Progress };

    ghost view = { λ r. record {
      number = r.number;
      import = record { book = r.book; floors = r.floors.items };
      begun = r.line.items;
      room = r.room;
    } };

    ghost invariant = { λ r. (length r.line.items ≤ 4096) × (r.number + r.room < 2 ^ 31) };
}

impl Reading {
    /// Begins to read a file of at most `limit` bytes.
    fn new(alloc: Global, limit: u32) -> Self
        requires { limit < 2 ^ 30 }
        ensures { result ≡ initial_progress limit }
    {
        Reading {
            book: Book::new(alloc),
            floors: Vec::new(alloc),
            number: 1,
            line: ArrayVec::new(),
            room: limit,
        }
    }

    /// Returns a fault at the current line.
    fn fault(&self, kind: LineFault) -> FileFault
        ensures fault { result ≡ record { line = self.now.number; kind = kind } }
        ensures len { length self.now.begun ≤ 4096 }
    {
        FileFault {
            line: self.number,
            kind,
        }
    }

    /// Reads `byte`.
    fn take(&mut self, byte: u8, settings: Settings, moment: u64) -> Result<(), FileFault>
        requires { IsMoment moment }
        ensures ok { OnOk result (Leads (instant_of settings moment) self.old (byte ∷ []) self.new) }
        ensures fault { IfErr result (Fails (instant_of settings moment) self.old (byte ∷ [])) }
    {
        if self.room == 0 {
            Err(self.fault(LineFault::FileTooLong))
        } else if byte == b'\n' {
            self.take_end(settings, moment)
        } else {
            self.take_more(byte)
        }
    }

    /// Reads `byte` into the current line.
    fn take_more(&mut self, byte: u8) -> Result<(), FileFault>
        requires room { 0 < self.old.room }
        requires byte { byte ≢ 10 }
        ensures ok { OnOk result ((at : Instant) → Leads at self.old (byte ∷ []) self.new) }
        ensures fault { IfErr result (λ fault. (at : Instant) → Fails at self.old (byte ∷ []) fault) }
    {
        if self.line.is_full() {
            return Err(self.fault(LineFault::LineTooLong));
        }
        self.line.push(byte);
        self.room -= 1;
        Ok(())
    }

    /// Reads the LF of the current line.
    fn take_end(&mut self, settings: Settings, moment: u64) -> Result<(), FileFault>
        requires moment { IsMoment moment }
        requires room { 0 < self.old.room }
        ensures ok { OnOk result (Leads (instant_of settings moment) self.old (10 ∷ []) self.new) }
        ensures fault { IfErr result (Fails (instant_of settings moment) self.old (10 ∷ [])) }
    {
        self.end_line(settings, moment)?;
        self.line.clear();
        self.number += 1;
        self.room -= 1;
        Ok(())
    }

    /// Adds the row of the current line, at its end.
    fn end_line(&mut self, settings: Settings, moment: u64) -> Result<(), FileFault>
        requires { IsMoment moment }
        ensures ok { OnOk result
            (after_line (instant_of settings moment) self.old.import self.old.begun ≡ Ok self.new.import) }
        ensures begun { OnOk result (self.new.begun ≡ self.old.begun) }
        ensures number { OnOk result (self.new.number ≡ self.old.number) }
        ensures room { OnOk result (self.new.room ≡ self.old.room) }
        ensures fault { IfErr result (λ fault. IsTrue (is_of_text fault.kind)
            → after_line (instant_of settings moment) self.old.import self.old.begun ≡ Err fault.kind) }
        ensures line { IfErr result (λ fault. fault.line ≡ self.old.number) }
        ensures unread { IfErr result (λ fault. is_read fault.kind ≡ false) }
        ensures len { length self.old.begun ≤ 4096 }
    {
        match add_line(
            &mut self.book,
            &mut self.floors,
            &self.line,
            settings,
            moment,
        ) {
            Ok(()) => Ok(()),
            Err(kind) => Err(self.fault(kind)),
        }
    }

    /// Reads `bytes` in order.
    fn take_all(&mut self, bytes: &[u8], settings: Settings, moment: u64) -> Result<(), FileFault>
        requires { IsMoment moment }
        ensures ok { OnOk result (Leads (instant_of settings moment) self.old bytes.now self.new) }
        ensures fault { IfErr result (Fails (instant_of settings moment) self.old bytes.now) }
    {
        for &byte in bytes {
            self.take(byte, settings, moment)?;
        }
        Ok(())
    }

    /// Ends the text. Returns the book and the floors.
    fn finish(mut self, settings: Settings, moment: u64) -> Result<(Book, Vec<Next>), FileFault>
        requires { IsMoment moment }
        ensures ok { IfOk result (λ read.
            after_line (instant_of settings moment) self.import self.begun ≡ Ok (import_of read.0 read.1.items)) }
        ensures fault { IfErr result (λ fault. IsTrue (is_of_text fault.kind)
            → after_line (instant_of settings moment) self.import self.begun ≡ Err fault.kind) }
        ensures line { IfErr result (λ fault. fault.line ≡ self.number) }
        ensures unread { IfErr result (λ fault. is_read fault.kind ≡ false) }
        ensures len { length self.begun ≤ 4096 }
    {
        match self.end_line(settings, moment) {
            Ok(()) => Ok((self.book, self.floors)),
            Err(fault) => Err(fault),
        }
    }
}

/// Adds the row of a line. After a fault the book and the floors are not used again.
fn add_line(
    book: &mut Book,
    floors: &mut Vec<Next>,
    line: &[u8],
    settings: Settings,
    moment: u64,
) -> Result<(), LineFault>
    requires moment { IsMoment moment }
    requires len { length line.now ≤ 4096 }
    ensures ok { OnOk result
        (after_line (instant_of settings moment) (import_of book.old floors.old.items) line.now
        ≡ Ok (import_of book.new floors.new.items)) }
    ensures fault { IfErr result (λ fault. IsTrue (is_of_text fault)
        → after_line (instant_of settings moment) (import_of book.old floors.old.items) line.now ≡ Err fault) }
    ensures unread { IfErr result (λ fault. is_read fault ≡ false) }
{
    let entry = match read_row(line) {
        Ok(Some(entry)) => entry,
        Ok(None) => return Ok(()),
        Err(fault) => return Err(fault),
    };
    if book.find(entry.token.name()).is_some() {
        return Err(LineFault::DuplicateUser);
    }
    if book.len() >= MAX_TOKENS {
        return Err(LineFault::TooMany);
    }
    let floor = first_floor(&entry, settings, moment);
    if book.push(entry.token).is_err() || floors.push(floor).is_err() {
        return Err(LineFault::Memory);
    }
    Ok(())
}

/// Reads a users file. Returns its book and the floor of each token after an import at `moment`. The floor is the
/// token's first free factor.
///
/// A pull asks for at most 4,096 bytes, and a fault ends the pulls. The part of the source after the text stays.
pub fn read_book<S: Source>(
    alloc: Global,
    source: &mut S,
    settings: Settings,
    moment: u64,
) -> Result<(Book, Vec<Next>), FileFault>
    requires { IsMoment moment }
    ensures book { IfOk result (λ read. OfText (S.left source.old) (λ text.
        book_of MAX_FILE_LEN (instant_of settings moment) text
        ≡ Ok (import_of read.0 read.1.items))) }
    ensures floors { IfOk result (λ read. length read.1.items ≡ length read.0) }
    ensures fault { IfErr result (λ fault. IsTrue (is_of_text fault.kind) → OfText (S.left source.old) (λ text.
        book_of MAX_FILE_LEN (instant_of settings moment) text ≡ Err (fault.line, fault.kind))) }
    ensures read { IfErr result (λ fault. fault.kind ≡ LineFault.Read → OfText (S.left source.old) (λ text.
        IsCutOff LineFault.Read MAX_FILE_LEN (instant_of settings moment) text fault.line)) }
    ensures memory { IfErr result (λ fault. fault.kind ≡ LineFault.Memory → OfText (S.left source.old) (λ text.
        IsCutOff LineFault.Memory MAX_FILE_LEN (instant_of settings moment) text fault.line)) }
    ensures behind { Stays (S.behind source.old) (S.behind source.new) }
    ensures failed { S.has_failed source.new ≡ (S.has_failed source.old || is_read_result result) }
{
    read_lines(alloc, source, MAX_FILE_LEN, settings, moment)
}

/// Reads a users file as [`read_book`] does, of at most `limit` bytes.
pub(crate) fn read_lines<S: Source>(
    alloc: Global,
    source: &mut S,
    limit: u32,
    settings: Settings,
    moment: u64,
) -> Result<(Book, Vec<Next>), FileFault>
    requires moment { IsMoment moment }
    requires limit { limit < 2 ^ 30 }
    ensures book { IfOk result (λ read. OfText (S.left source.old) (λ text.
        book_of limit (instant_of settings moment) text
        ≡ Ok (import_of read.0 read.1.items))) }
    ensures floors { IfOk result (λ read. length read.1.items ≡ length read.0) }
    ensures fault { IfErr result (λ fault. IsTrue (is_of_text fault.kind) → OfText (S.left source.old) (λ text.
        book_of limit (instant_of settings moment) text ≡ Err (fault.line, fault.kind))) }
    ensures read { IfErr result (λ fault. fault.kind ≡ LineFault.Read → OfText (S.left source.old) (λ text.
        IsCutOff LineFault.Read limit (instant_of settings moment) text fault.line)) }
    ensures memory { IfErr result (λ fault. fault.kind ≡ LineFault.Memory → OfText (S.left source.old) (λ text.
        IsCutOff LineFault.Memory limit (instant_of settings moment) text fault.line)) }
    ensures behind { Stays (S.behind source.old) (S.behind source.new) }
    ensures failed { S.has_failed source.new ≡ (S.has_failed source.old || is_read_result result) }
{
    let mut reading = Reading::new(alloc, limit);
    let mut piece = [0; PIECE_LEN];
    for _ in 0..limit + 1 {
        match source.pull(&mut piece) {
            Pulled::Bytes(0) => return reading.finish(settings, moment),
            Pulled::Bytes(len) => reading.take_all(&piece[..len], settings, moment)?,
            Pulled::Failed => return Err(reading.fault(LineFault::Read)),
        }
    }
    unreachable!("each pull gave a byte, and no more than the limit were taken")
}
